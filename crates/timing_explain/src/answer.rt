//! The output of `explain`, and its status.

ghost use Rattle.std.specs.Prelude.{◌≡◌, IfOk, map, string_bytes, true};
ghost use Rattle.flow_findings.specs.Findings.{explained};
ghost use Rattle.flow_findings.specs.Statuses.{AreKnownOf, explained_status};
ghost use Rattle.findings_report.specs.Flows.{AreOfSession};
ghost use Rattle.timing_steps.specs.Queries.{judged_ends};
ghost use Rattle.timing_explain.specs.Explained.{explained_answer, printed};

use crate::captures::ExplainCaptures;
use findings_report::{json_of, text_of};
use flow_findings::{Explained, KnownCaptures, KnownFlow, explain, status_of};
use std::alloc::{AllocError as OutOfMemory, Global};
use timing_base::{ExplainJob, FileNote, Session};
use timing_report::Status;
use timing_steps::Answer;

/// Returns these flows of the session with their findings. Returns `Err` if memory runs out.
fn explained_flows(
    alloc: Global,
    session: &Session,
    captures: &KnownCaptures,
    flows: &[KnownFlow],
) -> Result<Vec<Explained>, OutOfMemory>
    requires { AreKnownOf session.now flows.now }
    ensures flows { IfOk result (λ list. list.items ≡ map (explained session.now captures.now) flows.now) }
    ensures session { IfOk result (λ list. AreOfSession session.now list.items) }
{
    let mut list = Vec::with_capacity(alloc, flows.len())?;
    for flow in flows {
        list.push(explain(alloc, session, captures, flow)?)?;
    }
    Ok(list)
}

/// Returns the findings on flows as lines of text, or as JSON if the job asks for it. Returns `Err` if memory runs out.
fn printed(
    alloc: Global,
    job: &ExplainJob,
    notes: &[FileNote],
    session: &Session,
    flows: &[Explained],
) -> Result<String, OutOfMemory>
    requires { AreOfSession session.now flows.now }
    ensures { IfOk result (λ s. string_bytes s ≡ printed job.now session.now notes.now flows.now) }
{
    let captures = job.flows.captures.as_slice();
    if job.json {
        json_of(alloc, captures, notes, session, flows)
    } else {
        text_of(alloc, captures, notes, session, flows)
    }
}

/// Returns the status for these flows of captures that end in these ways.
fn status_for(session: &Session, notes: &[FileNote], flows: &[KnownFlow]) -> Status
    requires { AreKnownOf session.now flows.now }
    ensures status { result ≡ explained_status session.now notes.now flows.now }
    ensures ends { judged_ends true result ≡ true }
{
    status_of(session, notes, flows)
}

/// Returns the answer for captures that were read. Returns `Err` if memory runs out.
pub fn explained_answer(
    alloc: Global,
    job: &ExplainJob,
    session: &Session,
    captures: &ExplainCaptures,
) -> Result<Answer, OutOfMemory>
    requires { AreKnownOf session.now captures.now.flows.items }
    ensures answers { IfOk result (λ answer. answer ≡ explained_answer job.now session.now captures.now.notes.items
        captures.now.known captures.now.flows.items) }
    ensures ends { IfOk result (λ answer. judged_ends true answer.status ≡ true) }
{
    let notes = captures.notes.as_slice();
    let known = captures.flows.as_slice();
    let flows = explained_flows(alloc, session, &captures.known, known)?;
    let text = printed(alloc, job, notes, session, flows.as_slice())?;
    Ok(Answer {
        text: text.into_bytes(),
        status: status_for(session, notes, known),
    })
}
