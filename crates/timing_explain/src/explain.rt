//! `explain`: prints what is wrong with the flows of a job, and what to do.

ghost use Rattle.std.specs.Prelude.{◌≡◌, ℕ, IfErr, IfOk, false, true};
ghost use Rattle.timing_outside.specs.Shelves.{StaysAs};
ghost use Rattle.timing_steps.specs.Answers.{CaptureRose, OnReadFault, seen_of};
ghost use Rattle.timing_steps.specs.Queries.{FollowsCaptures, judged_ends};
ghost use Rattle.timing_explain.specs.Explained.{explain_query};

use crate::answer::explained_answer;
use crate::captures::read_captures;
use std::alloc::{AllocError as OutOfMemory, Global};
use timing_base::{ExplainJob, FileName, Session};
use timing_measure::flows::judged_media;
use timing_outside::{Shelf, Sink};
use timing_report::Input;
use timing_steps::{Answer, Command, Failure, early_of_choice, first_chosen};

/// Reads the captures of a job, and returns the answer over all media of a session, or over the chosen one.
fn answer_explain<H: Shelf>(
    alloc: Global,
    job: &ExplainJob,
    session: &Session,
    shelf: &mut H,
) -> Result<Answer, Failure>
    ensures follows { FollowsCaptures (explain_query job.now) session.now
        (seen_of H.Shelf shelf.old shelf.new) result }
    ensures ends { IfOk result (λ answer. judged_ends true answer.status ≡ true) }
    ensures cause { IfErr result (λ e. OnReadFault e (λ i. (number : ℕ) × (i ≡ Input.Capture number)
        × CaptureRose (H.faults shelf.old) (H.faults shelf.new) job.now.flows.captures number)) }
    ensures stays { StaysAs H.text H.lacks H.faults shelf.old shelf.new }
{
    let flows = &job.flows;
    let media = judged_media(flows, session);
    let captures = read_captures(alloc, flows, shelf, media, first_chosen(flows.media))?;
    Ok(explained_answer(alloc, job, session, &captures)?)
}

/// The command `explain`: prints for each media of a job, or for the chosen one, the findings on its flow and what to do
/// about each.
#[derive(Drop)]
pub struct ExplainCommand {
    /// The captures, which media is chosen, and whether the output is JSON.
    pub job: ExplainJob,
}

impl Command for ExplainCommand {
    ghost use Rattle.timing_explain.specs.Explained.{explain_query};

    ghost query = { λ command. explain_query command.job };

    ghost streams = { false };

    fn sdp(&self) -> &FileName {
        let flows = &self.job.flows;
        &flows.sdp
    }

    fn early(&self, alloc: Global, session: &Session) -> Result<Option<Answer>, OutOfMemory> {
        early_of_choice(alloc, session, self.job.flows.media)
    }

    fn answer<H: Shelf, K: Sink>(
        &self,
        alloc: Global,
        session: &Session,
        shelf: &mut H,
        _out: &mut K,
    ) -> Result<Answer, Failure> {
        answer_explain(alloc, &self.job, session, shelf)
    }
}
