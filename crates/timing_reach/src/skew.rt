//! `skew`: prints how far two flows with the same packets are apart.

mod compare;
mod paired;
mod pairing;
mod words;

ghost use Rattle.std.specs.Prelude.{◌≡◌, ℕ, IfErr, IfOk, IfSome, None, false, slice_get, true};
ghost use Rattle.timing_outside.specs.Shelves.{StaysAs};
ghost use Rattle.timing_steps.specs.Answers.{CaptureRose, OnReadFault, seen_of};
ghost use Rattle.timing_steps.specs.Queries.{FollowsCaptures, judged_ends};
ghost use Rattle.timing_reach.specs.Skewed.{no_pair, skew_query};

use crate::skew::compare::compare;
use crate::skew::words::skewed;
use std::alloc::{AllocError as OutOfMemory, Global};
use timing_base::{FileName, Session, SkewJob};
use timing_outside::{Shelf, Sink};
use timing_report::Input;
use timing_steps::{Answer, Command, Failure, early_of_media, media_of};

/// Returns the answer that a session doesn't have one of the two media of a job, or `None` if it has both. Returns
/// `Err` if memory runs out.
fn early_of_pair(
    alloc: Global,
    session: &Session,
    job: &SkewJob,
) -> Result<Option<Answer>, OutOfMemory>
    ensures early { IfOk result (λ found. found
        ≡ no_pair (slice_get session.now job.now.media) (slice_get session.now job.now.pair)) }
    ensures ends { IfOk result (λ found. IfSome found (λ answer.
        judged_ends false answer.status ≡ true)) }
{
    match early_of_media(alloc, session, job.media)? {
        Some(answer) => Ok(Some(answer)),
        None => early_of_media(alloc, session, job.pair),
    }
}

/// Returns the answer for the flows of the two media of a job, or the reason why there is none. All captures are opened
/// in order before the first one is read.
fn answer_pair<H: Shelf>(
    alloc: Global,
    job: &SkewJob,
    session: &Session,
    shelf: &mut H,
) -> Result<Answer, Failure>
    requires { no_pair (slice_get session.now job.now.media) (slice_get session.now job.now.pair) ≡ None }
    ensures follows { FollowsCaptures (skew_query job.now) session.now
        (seen_of H.Shelf shelf.old shelf.new) result }
    ensures ends { IfOk result (λ answer. judged_ends false answer.status ≡ true) }
    ensures cause { IfErr result (λ e. OnReadFault e (λ i. (number : ℕ) × (i ≡ Input.Capture number)
        × CaptureRose (H.faults shelf.old) (H.faults shelf.new) job.now.captures number)) }
    ensures stays { StaysAs H.text H.lacks H.faults shelf.old shelf.new }
{
    let first = media_of(session, job.media);
    let second = media_of(session, job.pair);
    let compared = compare(alloc, job, shelf, first, second)?;
    Ok(skewed(alloc, job, &compared)?)
}

/// The command `skew`: prints how far the two flows of a job are apart.
#[derive(Drop)]
pub struct SkewCommand {
    /// The two media, and their captures.
    pub job: SkewJob,
}

impl Command for SkewCommand {
    ghost use Rattle.timing_reach.specs.Skewed.{skew_query};

    ghost query = { λ command. skew_query command.job };

    ghost streams = { false };

    fn sdp(&self) -> &FileName {
        let job = &self.job;
        &job.sdp
    }

    fn early(&self, alloc: Global, session: &Session) -> Result<Option<Answer>, OutOfMemory> {
        early_of_pair(alloc, session, &self.job)
    }

    fn answer<H: Shelf, K: Sink>(
        &self,
        alloc: Global,
        session: &Session,
        shelf: &mut H,
        _out: &mut K,
    ) -> Result<Answer, Failure> {
        answer_pair(alloc, &self.job, session, shelf)
    }
}
