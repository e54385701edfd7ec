//! The output of `page`, and its status.

ghost use Rattle.std.specs.Prelude.{◌≡◌, IfOk, false, true};
ghost use Rattle.std.specs.List.{list_any};
ghost use Rattle.flow_page.specs.Media.{AreOfMedia};
ghost use Rattle.capture_scan.specs.report.Contents.{contents_of};
ghost use Rattle.timing_steps.specs.Queries.{judged_ends};
ghost use Rattle.timing_measure.specs.page.Pages.{is_judged, page_status, paged};

use crate::page::captures::PageCaptures;
use capture_scan::report::text_of;
use flow_page::{FlowPage, page_text};
use std::alloc::{AllocError as OutOfMemory, Global};
use timing_base::{CaptureJob, FileNote, Session};
use timing_report::{Status, any_refused};
use timing_steps::Answer;

/// Returns whether the flow has a judged run.
fn is_judged(page: &FlowPage) -> bool
    ensures { result ≡ is_judged page.now }
{
    page.flow.runs.len() > 0
}

/// Returns whether one of the flows has a judged run.
fn is_one_judged(pages: &[FlowPage]) -> bool
    ensures { result ≡ list_any is_judged pages.now }
{
    pages.iter().any(is_judged)
}

/// Returns the status for these flows of captures that end in these ways.
fn status_of(notes: &[FileNote], pages: &[FlowPage]) -> Status
    ensures status { result ≡ page_status notes.now pages.now }
    ensures ends { judged_ends false result ≡ true }
{
    if !is_one_judged(pages) {
        return Status::NotAllJudged;
    }
    if any_refused(notes) {
        return Status::NotAllJudged;
    }
    Status::Pass
}

/// Returns the answer for captures that were read. Returns `Err` if memory runs out.
pub fn paged(
    alloc: Global,
    job: &CaptureJob,
    session: &Session,
    captures: &PageCaptures,
) -> Result<Answer, OutOfMemory>
    requires { AreOfMedia session.now captures.now.flows.items }
    ensures answers { IfOk result (λ answer. answer
        ≡ paged job.now.captures captures.now.notes.items job.now.options.shift session.now captures.now.flows.items
        (contents_of captures.now.found)) }
    ensures ends { IfOk result (λ answer. judged_ends false answer.status ≡ true) }
{
    let names = job.captures.as_slice();
    let notes = captures.notes.as_slice();
    let pages = captures.flows.as_slice();
    let contents = text_of(alloc, names, notes, &captures.found)?;
    let text = page_text(
        alloc,
        names,
        notes,
        job.options.shift,
        session,
        pages,
        contents.as_str(),
    )?;
    Ok(Answer {
        text: text.into_bytes(),
        status: status_of(notes, pages),
    })
}
