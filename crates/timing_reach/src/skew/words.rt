//! The lines that `skew` prints, and its status.

ghost use Rattle.std.specs.Prelude.{◌≡◌, ◌++◌, IfOk, string_bytes};
ghost use Rattle.std.specs.List.{list_any};
ghost use Rattle.timing_report.specs.Outcomes.{is_refused};
ghost use Rattle.timing_reach.specs.Skewed.{counts_text, extreme_line, pair_head, row_text, skew_status, skewed};

use crate::skew::compare::Compared;
use path_skew::{Extreme, SkewRow};
use std::alloc::{AllocError as OutOfMemory, Global};
use timing_base::SkewJob;
use timing_report::{Status, add_files, any_refused};
use timing_steps::Answer;

/// Adds the line of a pair up to its counts.
fn add_head(text: &mut String, job: &SkewJob) -> Result<(), OutOfMemory>
    ensures { IfOk result (λ _. string_bytes text.new
        ≡ string_bytes text.old ++ pair_head job.now) }
{
    let first = u64::from(job.media) + 1;
    let file = job.captures.as_slice().len();
    let second = u64::from(job.pair) + 1;
    write!(text, "pair 1.{first} {file}.{second}: ")
}

/// Adds the counts of a pair, and the newline.
fn add_counts(text: &mut String, row: &SkewRow) -> Result<(), OutOfMemory>
    ensures { IfOk result (λ _. string_bytes text.new
        ≡ string_bytes text.old ++ counts_text row.now) }
{
    let SkewRow {
        matched,
        first_only,
        second_only,
        repeated,
        unread,
        ..
    } = *row;
    writeln!(
        text,
        "matched {matched}, first only {first_only}, second only {second_only}, repeated {repeated}, unread {unread}"
    )
}

/// Adds the line of the least or the greatest skew, if there is one.
fn add_extreme(text: &mut String, word: &str, extreme: Option<Extreme>) -> Result<(), OutOfMemory>
    ensures { IfOk result (λ _. string_bytes text.new
        ≡ string_bytes text.old ++ extreme_line word.now extreme) }
{
    match extreme {
        None => Ok(()),
        Some(extreme) => {
            let (skew, first, second) = (extreme.skew, extreme.first_rec, extreme.second_rec);
            writeln!(text, "{word} {skew} ns at records {first} and {second}")
        }
    }
}

/// Adds the lines of a pair.
fn add_row(text: &mut String, job: &SkewJob, row: &SkewRow) -> Result<(), OutOfMemory>
    ensures { IfOk result (λ _. string_bytes text.new
        ≡ string_bytes text.old ++ row_text job.now row.now) }
{
    add_head(text, job)?;
    add_counts(text, row)?;
    add_extreme(text, "least", row.least)?;
    add_extreme(text, "greatest", row.greatest)
}

/// Returns the status of a comparison.
fn status_of(compared: &Compared) -> Status
    ensures { result ≡ skew_status (list_any is_refused compared.now.notes.items) compared.now.row }
{
    if compared.row.matched == 0 || any_refused(&compared.notes) {
        Status::NotAllJudged
    } else {
        Status::Pass
    }
}

/// Returns the answer with the lines of the captures and of the pair. Returns `Err` if memory runs out.
pub fn skewed(alloc: Global, job: &SkewJob, compared: &Compared) -> Result<Answer, OutOfMemory>
    ensures { IfOk result (λ answer.
        answer ≡ skewed job.now compared.now.notes.items compared.now.row) }
{
    let mut text = String::new(alloc);
    add_files(&mut text, job.captures.as_slice(), &compared.notes)?;
    add_row(&mut text, job, &compared.row)?;
    Ok(Answer {
        text: text.into_bytes(),
        status: status_of(compared),
    })
}
