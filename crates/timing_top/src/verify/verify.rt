//! `verify`: checks one violation from the captures alone.

ghost use Rattle.std.specs.Prelude.{◌≡◌, ℕ, IfErr, IfOk, IfSome, None, false, slice_get, true};
ghost use Rattle.timing_outside.specs.Shelves.{StaysAs};
ghost use Rattle.timing_steps.specs.Answers.{CaptureRose, OnReadFault, seen_of};
ghost use Rattle.timing_steps.specs.Queries.{FollowsCaptures, judged_ends};
ghost use Rattle.timing_top.specs.verify.Asked.{claim_of, not_there, verify_query};

use crate::verify::find::find;
use crate::verify::words::{unconfirmed, verified};
use std::alloc::{AllocError as OutOfMemory, Global};
use timing_base::{FileName, FlowKey, Session, VerifyJob};
use timing_outside::{Shelf, Sink};
use timing_report::Input;
use timing_report::json_report::ReportProof;
use timing_steps::{Answer, Command, Failure, media_of};

/// Returns the violation that a job asks about: one of run 0 of its media in file 0.
fn claim_of(job: &VerifyJob) -> ReportProof
    ensures { result ≡ claim_of job.now }
{
    ReportProof {
        key: FlowKey {
            file: 0,
            media: job.media,
        },
        run: 0,
        kind: job.kind,
        proof: job.proof,
    }
}

/// Returns the answer that a violation is not confirmed, if a session doesn't have the media with this number, counted
/// from 0; or `None` if it has it. Returns `Err` if memory runs out.
fn early_of_claim(
    alloc: Global,
    session: &Session,
    number: u32,
) -> Result<Option<Answer>, OutOfMemory>
    ensures early { IfOk result (λ found. found ≡ not_there (slice_get session.now number)) }
    ensures ends { IfOk result (λ found. IfSome found (λ answer.
        judged_ends true answer.status ≡ true)) }
{
    match session.media.as_slice().get(number as usize) {
        Some(_) => Ok(None),
        None => Ok(Some(unconfirmed(alloc)?)),
    }
}

/// Returns the answer over a session that has the media of a job, or the reason why there is none.
fn answer_verify<H: Shelf>(
    alloc: Global,
    job: &VerifyJob,
    session: &Session,
    shelf: &mut H,
) -> Result<Answer, Failure>
    requires { not_there (slice_get session.now job.now.media) ≡ None }
    ensures follows { FollowsCaptures (verify_query job.now) session.now
        (seen_of H.Shelf shelf.old shelf.new) result }
    ensures ends { IfOk result (λ answer. judged_ends true answer.status ≡ true) }
    ensures cause { IfErr result (λ e. OnReadFault e (λ i. (number : ℕ) × (i ≡ Input.Capture number)
        × CaptureRose (H.faults shelf.old) (H.faults shelf.new) job.now.captures number)) }
    ensures stays { StaysAs H.text H.lacks H.faults shelf.old shelf.new }
{
    let media = media_of(session, job.media);
    let claim = claim_of(job);
    let names = job.captures.as_slice();
    let finding = find(alloc, shelf, names, media, &claim, job.options)?;
    Ok(verified(alloc, media, finding)?)
}

/// The command `verify`: checks a violation, and prints whether the captures confirm it. If the SDP doesn't have the
/// media, the violation is not confirmed, and no capture is read.
#[derive(Drop)]
pub struct VerifyCommand {
    /// The violation, and the captures that are to confirm it.
    pub job: VerifyJob,
}

impl Command for VerifyCommand {
    ghost use Rattle.timing_top.specs.verify.Asked.{verify_query};

    ghost query = { λ command. verify_query command.job };

    ghost streams = { false };

    fn sdp(&self) -> &FileName {
        let job = &self.job;
        &job.sdp
    }

    fn early(&self, alloc: Global, session: &Session) -> Result<Option<Answer>, OutOfMemory> {
        early_of_claim(alloc, session, self.job.media)
    }

    fn answer<H: Shelf, K: Sink>(
        &self,
        alloc: Global,
        session: &Session,
        shelf: &mut H,
        _out: &mut K,
    ) -> Result<Answer, Failure> {
        answer_verify(alloc, &self.job, session, shelf)
    }
}
