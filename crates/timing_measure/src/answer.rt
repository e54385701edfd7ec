//! The output of `measure`, and its status.

ghost use Rattle.std.specs.Prelude.{◌≡◌, IfOk, false, true};
ghost use Rattle.std.specs.List.{list_any};
ghost use Rattle.flow_measure.specs.report.Json.{AreOfMedia};
ghost use Rattle.timing_steps.specs.Queries.{judged_ends};
ghost use Rattle.timing_measure.specs.Measures.{has_run, measure_status, measured};

use crate::measured::MeasuredCaptures;
use flow_measure::MeasuredFlow;
use flow_measure::report::json_of;
use std::alloc::{AllocError as OutOfMemory, Global};
use timing_base::{CaptureJob, FileNote, Session};
use timing_report::{Status, any_refused};
use timing_steps::Answer;

/// Returns whether the flow has a judged run.
fn has_run(flow: &MeasuredFlow) -> bool
    ensures { result ≡ has_run flow.now }
{
    flow.runs.len() > 0
}

/// Returns whether one of the flows has a judged run.
fn is_one_measured(flows: &[MeasuredFlow]) -> bool
    ensures { result ≡ list_any has_run flows.now }
{
    flows.iter().any(has_run)
}

/// Returns the status for these flows of captures that end in these ways.
fn status_of(notes: &[FileNote], flows: &[MeasuredFlow]) -> Status
    ensures status { result ≡ measure_status notes.now flows.now }
    ensures ends { judged_ends false result ≡ true }
{
    if !is_one_measured(flows) {
        return Status::NotAllJudged;
    }
    if any_refused(notes) {
        return Status::NotAllJudged;
    }
    Status::Pass
}

/// Returns the answer for captures with these flows. Returns `Err` if memory runs out.
pub fn measured(
    alloc: Global,
    job: &CaptureJob,
    session: &Session,
    captures: &MeasuredCaptures,
) -> Result<Answer, OutOfMemory>
    requires { AreOfMedia session.now captures.now.flows.items }
    ensures answers { IfOk result (λ answer. answer
        ≡ measured job.now.captures captures.now.notes.items session.now captures.now.flows.items) }
    ensures ends { IfOk result (λ answer. judged_ends false answer.status ≡ true) }
{
    let notes = captures.notes.as_slice();
    let flows = captures.flows.as_slice();
    let text = json_of(alloc, job.captures.as_slice(), notes, session, flows)?;
    Ok(Answer {
        text: text.into_bytes(),
        status: status_of(notes, flows),
    })
}
