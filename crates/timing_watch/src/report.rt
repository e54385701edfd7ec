//! The end of the output: the report of `check`.

ghost use Rattle.std.specs.Prelude.{◌≡◌, ◌++◌, ℕ, List, IfOk, codes, string_bytes};
ghost use Rattle.timing_report.specs.Outcomes.{AreOfSession};
ghost use Rattle.timing_watch.specs.Watches.{check_of, end_text};

use std::alloc::{AllocError as OutOfMemory, Global};
use timing_base::{CheckJob, FileName, FileNote, Items, Row, Session, WatchJob};
use timing_report::json_report::json_of;
use timing_report::text_of;

/// Returns equal file names. Returns `Err` if memory runs out.
fn copied(alloc: Global, names: &[FileName]) -> Result<Vec<FileName>, OutOfMemory>
    ensures { IfOk result (λ copies. copies.items ≡ names.now) }
{
    let mut copies = Vec::new(alloc);
    for name in names {
        copies.push(name.try_copy(alloc)?)?;
    }
    Ok(copies)
}

/// Returns the job of `check` on one thread, over the captures and media of a job. Returns `Err` if memory runs out.
fn check_job(alloc: Global, job: &WatchJob) -> Result<CheckJob, OutOfMemory>
    ensures { IfOk result (λ check. check ≡ check_of job.now) }
{
    let flows = &job.flows;
    Ok(CheckJob {
        sdp: flows.sdp.try_copy(alloc)?,
        captures: Items::from_vec(copied(alloc, flows.captures.as_slice())?),
        workers: 0,
        options: flows.options,
        json: job.json,
        joined: flows.joined,
        media: flows.media,
    })
}

/// Returns the text behind the lines of the flows: the line `end` and the report, or the object of both. `notes` has how
/// each capture ends, and `rows` the results of the flows. Returns `Err` if memory runs out.
pub fn end_of(
    alloc: Global,
    job: &WatchJob,
    session: &Session,
    notes: &[FileNote],
    rows: &[Row],
) -> Result<String, OutOfMemory>
    requires { AreOfSession session.now rows.now }
    ensures { IfOk result (λ s. string_bytes s ≡ end_text job.now session.now notes.now rows.now) }
{
    let check = check_job(alloc, job)?;
    if job.json {
        let report = json_of(alloc, &check, session, notes, rows)?;
        let object = without_end(report.as_str());
        format!(in alloc; "{{\"event\":\"end\",\"report\":{object}}}\n")
    } else {
        let report = text_of(alloc, &check, session, notes, rows)?;
        format!(in alloc; "end\n{report}")
    }
}

/// Returns a line without its line end.
fn without_end(line: &str) -> &str
    ensures { (text : List ℕ) → line.now ≡ text ++ codes "\n" → result.now ≡ text }
{
    match line.strip_suffix("\n") {
        Some(text) => text,
        None => line,
    }
}
