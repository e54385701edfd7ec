//! Commands that read an SDP and captures, and their run.

ghost use Rattle.std.specs.Prelude.{◌≡◌, ◌≤◌, ℕ, Bool, None, IfErr, IfOk, IfSome, true};
ghost use Rattle.timing_base.specs.Targets.{HaveOwnTargets};
ghost use Rattle.timing_outside.specs.Shelves.{StaysAs};
ghost use Rattle.timing_steps.specs.Answers.{CaptureRose, HasRisen, OnReadFault, seen_of};
ghost use Rattle.timing_steps.specs.Begun.{IsBegun, IsSettled};
ghost use Rattle.timing_steps.specs.Queries.{BeginsCaptures, FollowsCaptures, Query, judged_ends};
ghost use Rattle.timing_steps.specs.Ran.{output_of};
ghost use Rattle.timing_steps.specs.Runs.{BeforeEnd, EndsAs, FailsBy, LeavesRest, RanAs};

use crate::answer::Answer;
use crate::failure::Failure;
use crate::fetch::fetch_session;
use crate::print::conclude;
use std::alloc::{AllocError as OutOfMemory, Global};
use timing_base::{FileName, Session};
use timing_outside::{Shelf, Sink};
use timing_report::{Input, Status};

/// A command that reads an SDP, and then captures.
pub trait Command {
    /// What the command asks of its inputs: their names, and the answers that their contents define.
    ghost query: { Self → Query };

    /// The command prints while it reads. If not, it prints its answer once it is whole.
    ghost streams: { Bool };

    /// Returns the name of the SDP.
    fn sdp(&self) -> &FileName
        ensures { result.now ≡ (query self.now).sdp };

    /// Returns the answer if the media of the SDP settle it, for example if the media of the job isn't among them. Then
    /// no capture is opened. Returns `Err` if memory runs out.
    fn early(&self, alloc: Global, session: &Session) -> Result<Option<Answer>, OutOfMemory>
        ensures early { IfOk result (λ found. found ≡ (query self.now).early session.now) }
        ensures ends { IfOk result (λ found. IfSome found (λ answer.
            judged_ends (query self.now).checks answer.status ≡ true)) };

    /// Opens and reads the captures, and returns the answer, or the reason why there is none.
    ///
    /// A command that prints while it reads prints the first part of its answer on `out`, and returns the rest. If it
    /// fails, `out` has nothing, or a prefix of the answer. Any other command prints nothing here.
    fn answer<H: Shelf, K: Sink>(
        &self,
        alloc: Global,
        session: &Session,
        shelf: &mut H,
        out: &mut K,
    ) -> Result<Answer, Failure>
        requires targets { HaveOwnTargets session.now }
        requires unsettled { (query self.now).early session.now ≡ None }
        ensures rests { LeavesRest streams (output_of K.Sink out.old out.new)
            (FollowsCaptures (query self.now) session.now (seen_of H.Shelf shelf.old shelf.new))
            (BeginsCaptures (query self.now) session.now (seen_of H.Shelf shelf.old shelf.new)) result }
        ensures ends { IfOk result (λ rest. judged_ends (query self.now).checks rest.status ≡ true) }
        ensures cause { IfErr result (λ e. FailsBy streams (output_of K.Sink out.old out.new) e (λ i.
            (number : ℕ) × (i ≡ Input.Capture number) × CaptureRose (H.faults shelf.old)
            (H.faults shelf.new) (query self.now).captures number)) }
        ensures later { K.faults out.old ≤ K.faults out.new }
        ensures stays { StaysAs H.text H.lacks H.faults shelf.old shelf.new };
}

/// Reads the SDP of a command as a session. `Ok(Err(_))` is the answer if the SDP is invalid, or if its media settle
/// the answer.
pub fn begin<H: Shelf, C: Command>(
    alloc: Global,
    command: &C,
    shelf: &mut H,
) -> Result<Result<Session, Answer>, Failure>
    ensures begun { IfOk result (λ begun. IfOk begun (λ session.
        IsBegun (C.query command.now) (H.text shelf.old) (H.lacks shelf.old) session)) }
    ensures settled { IfOk result (λ begun. IfErr begun (λ answer.
        IsSettled (C.query command.now) (seen_of H.Shelf shelf.old shelf.new) answer)) }
    ensures cause { IfErr result (λ e. OnReadFault e (λ i. (i ≡ Input.Sdp)
        × HasRisen (seen_of H.Shelf shelf.old shelf.new) (C.query command.now).sdp)) }
    ensures stays { StaysAs H.text H.lacks H.faults shelf.old shelf.new }
{
    match fetch_session(alloc, shelf, command.sdp().as_str())? {
        Ok(session) => match command.early(alloc, &session)? {
            Some(answer) => Ok(Err(answer)),
            None => Ok(Ok(session)),
        },
        Err(fault) => Ok(Err(Answer::silent(alloc, Status::SdpRefused(fault)))),
    }
}

/// Returns the answer of a command, or the rest of it that isn't printed yet; or the reason why there is no answer, or
/// not the whole.
fn answer_command<H: Shelf, K: Sink, C: Command>(
    alloc: Global,
    command: &C,
    shelf: &mut H,
    out: &mut K,
) -> Result<Answer, Failure>
    ensures stands { BeforeEnd C.streams (C.query command.now) (seen_of H.Shelf shelf.old shelf.new)
        (output_of K.Sink out.old out.new) result }
    ensures later { K.faults out.old ≤ K.faults out.new }
    ensures stays { StaysAs H.text H.lacks H.faults shelf.old shelf.new }
{
    match begin(alloc, command, shelf)? {
        Ok(session) => command.answer(alloc, &session, shelf, out),
        Err(answer) => Ok(answer),
    }
}

/// Runs a command: opens the SDP, then opens and reads the captures, and prints the answer on `out`, at the end or
/// while it reads. Prints on `err` the reason if there is no answer, or not the whole. Returns the status.
pub fn run_command<H: Shelf, K: Sink, C: Command>(
    alloc: Global,
    command: &C,
    shelf: &mut H,
    out: &mut K,
    err: &mut K,
) -> Status
    ensures ran { RanAs C.streams (C.query command.now) (seen_of H.Shelf shelf.old shelf.new)
        (output_of K.Sink out.old out.new)
        (output_of K.Sink err.old err.new)
        result }
    ensures ends { EndsAs C.streams (C.query command.now) (output_of K.Sink out.old out.new) result }
    ensures stays { StaysAs H.text H.lacks H.faults shelf.old shelf.new }
{
    let outcome = answer_command(alloc, command, shelf, out);
    conclude(out, err, outcome)
}
