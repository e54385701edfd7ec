//! The output of `verify` and `verify-report`, and their statuses.

ghost use Rattle.std.specs.Prelude.{◌≡◌, ◌++◌, false, IfOk, string_bytes};
ghost use Rattle.std.specs.List.{flat_map, list_all, list_any};
ghost use Rattle.timing_top.specs.verify.Verified.{checked_line, checked_text, finding_line, finding_status, finding_word, is_confirmed, is_unjudged, reported, run_word, status_of, verified};

use crate::verify::checked::{Checked, Finding};
use std::alloc::{AllocError as OutOfMemory, Global};
use std::fmt;
use timing_base::{Media, Unjudged, Verdict};
use timing_report::{Status, kind_name, verdict_of};
use timing_steps::Answer;

/// Returns the status for one violation.
fn finding_status(finding: Finding) -> Status
    ensures { result ≡ finding_status finding }
{
    match finding {
        Ok(true) => Status::Pass,
        Ok(false) => Status::Fail,
        Err(_) => Status::NotAllJudged,
    }
}

/// Returns the line for one violation of a flow of this media.
fn finding_line(alloc: Global, media: &Media, finding: Finding) -> Result<String, OutOfMemory>
    ensures { IfOk result (λ s. string_bytes s ≡ finding_line finding) }
{
    match finding {
        Ok(true) => String::from_str(alloc, "confirmed\n"),
        Ok(false) => String::from_str(alloc, "not confirmed\n"),
        Err(why) => {
            let verdict = verdict_of(alloc, media, &Verdict::Unjudged(why))?;
            format!(in alloc; "not judged: {verdict}\n")
        }
    }
}

/// Returns the answer of `verify` for a finding in a flow of this media.
pub fn verified(alloc: Global, media: &Media, finding: Finding) -> Result<Answer, OutOfMemory>
    ensures { IfOk result (λ answer. answer ≡ verified finding) }
{
    Ok(Answer {
        text: finding_line(alloc, media, finding)?.into_bytes(),
        status: finding_status(finding),
    })
}

/// Returns the answer of `verify` if the SDP doesn't have the media.
pub fn unconfirmed(alloc: Global) -> Result<Answer, OutOfMemory>
    ensures { IfOk result (λ answer. answer ≡ verified (Ok false)) }
{
    Ok(Answer {
        text: String::from_str(alloc, "not confirmed\n")?.into_bytes(),
        status: Status::Fail,
    })
}

/// Returns the finding as a word in the line of a violation of a report.
fn finding_word(finding: Finding) -> &'static str
    ensures { result.now ≡ finding_word finding }
{
    match finding {
        Ok(true) => "confirmed",
        Ok(false) => "not confirmed",
        Err(_) => "not judged",
    }
}

/// A run after the first, as the line of a violation of a report has it; nothing for the first run.
#[derive(Clone, Copy)]
struct RunWord {
    /// The number of the run, from 0.
    run: u32,
}

impl fmt::Display for RunWord {
    ghost use Rattle.std.specs.Prelude.{Some};
    ghost use Rattle.timing_top.specs.verify.Verified.{run_word};

    ghost output = { λ word. Some (run_word word.run) };

    fn fmt<W: fmt::Write>(&self, f: &mut fmt::Formatter<W>) -> fmt::Result {
        if self.run == 0 {
            return Ok(());
        }
        write!(f, " run {}", u64::from(self.run) + 1)
    }
}

/// Adds the line of a violation of a report.
fn add_checked(text: &mut String, checked: Checked) -> Result<(), OutOfMemory>
    ensures { IfOk result (λ _. string_bytes text.new
        ≡ string_bytes text.old ++ checked_line checked) }
{
    let file = u64::from(checked.claim.key.file) + 1;
    let media = u64::from(checked.claim.key.media) + 1;
    let run = RunWord {
        run: checked.claim.run,
    };
    let kind = kind_name(checked.claim.kind);
    let word = finding_word(checked.finding);
    writeln!(text, "{file}.{media}{run} {kind} {word}")
}

/// Adds the lines of the violations of a report.
fn add_each(text: &mut String, checked: &[Checked]) -> Result<(), OutOfMemory>
    ensures { IfOk result (λ _. string_bytes text.new
        ≡ string_bytes text.old ++ flat_map checked_line checked.now) }
{
    for item in checked {
        add_checked(text, *item)?;
    }
    Ok(())
}

fn any_unjudged(checked: &[Checked]) -> bool
    ensures { result ≡ list_any (λ c. is_unjudged c.finding) checked.now }
{
    checked.iter().any(|item| item.finding.is_err())
}

fn all_confirmed(checked: &[Checked]) -> bool
    ensures { result ≡ list_all (λ c. is_confirmed c.finding) checked.now }
{
    checked.iter().all(|item| matches!(item.finding, Ok(true)))
}

/// Returns the status for the violations of a report: `NotAllJudged` if a flow or run wasn't judged, else `Pass` if all
/// are confirmed, else `Fail`.
fn status_of(checked: &[Checked]) -> Status
    ensures { result ≡ status_of checked.now }
{
    if any_unjudged(checked) {
        Status::NotAllJudged
    } else if all_confirmed(checked) {
        Status::Pass
    } else {
        Status::Fail
    }
}

/// Returns the lines of the violations of a report, and its status.
fn checked_text(alloc: Global, checked: &[Checked]) -> Result<String, OutOfMemory>
    ensures { IfOk result (λ s. string_bytes s ≡ checked_text checked.now) }
{
    let mut text = String::new(alloc);
    add_each(&mut text, checked)?;
    writeln!(text, "status {}", status_of(checked).code())?;
    Ok(text)
}

/// Returns the answer of `verify-report`.
pub fn reported(alloc: Global, checked: &[Checked]) -> Result<Answer, OutOfMemory>
    ensures { IfOk result (λ answer. answer ≡ reported checked.now) }
{
    Ok(Answer {
        text: checked_text(alloc, checked)?.into_bytes(),
        status: status_of(checked),
    })
}
