//! A worker, which takes the messages of one lane and judges the flows that are dealt to it.

ghost use Rattle.std.specs.Prelude.{◌≡◌, ◌^◌, ℕ, IfOk, IfSome, IsErr, IsTrue, slice_index_or};
ghost use Rattle.ruled_intake.specs.Lanes.{HasTaken, IsWithin, LaneId, messages};
ghost use Rattle.flow_worker.specs.Opening.{Setting};
ghost use Rattle.flow_worker.specs.Posting.{has_ends};
ghost use Rattle.flow_worker.specs.Settings.{IsWorker, setting_of};
ghost use Rattle.flow_worker.specs.Standing.{StandsFor};
ghost use Rattle.flow_worker.specs.Works.{HasJudged, HasTakenNothing};

use crate::judging::Judging;
use crate::setting::RunSetting;
use crossbeam_utils::Backoff;
use ruled_intake::{Halt, Lane, Message, NoLesson, TakePass};
use std::alloc::{AllocError as OutOfMemory, Global};
use std::sync::Wait;
use timing_outside::Gate;
use verdict_book::{Book, Receipt};

/// Result of a worker.
#[derive(Drop)]
pub struct WorkDone {
    /// Pass of the worker's lane.
    pub pass: TakePass,
    /// Receipts for the flows of the worker, by file and then by media; `None` if memory ran out in the worker or in an
    /// intake.
    pub receipts: Option<Vec<Receipt>>,
}

/// Takes messages until an end of each file came, judges the flows that `route` deals to this worker, and posts their
/// results. It meets the gate as number `16 + worker` before it takes a message, and as number `32 + worker` directly
/// after its first message.
///
/// If the files are joined, the packets of a file wait until the files before have ended, and their packet records are
/// raised by the number of those of the files before.
///
/// A message of a file that doesn't exist, of a flow that isn't the worker's own, or after its file's first end is
/// ignored. If a take found nothing and the halt is raised, the worker stops without receipts. The call may wait; its
/// contract holds if it returns.
pub fn work<R: Wait, G: Gate>(
    rt: &R,
    alloc: Global,
    run: &RunSetting<'_>,
    worker: u32,
    pass: TakePass,
    book: &Book,
    halt: &Halt,
    gate: &G,
) -> WorkDone
    requires limits { IsWorker run.now worker }
    requires pass { (l : LaneId) → HasTakenNothing (slice_index_or run.now.lanes.now worker l) pass }
    ensures lane { result.pass.lane ≡ pass.lane }
    ensures senders { result.pass.senders ≡ pass.senders }
    ensures receipts { IfSome result.receipts (λ receipts. HasJudged (setting_of run.now)
        run.now.files worker result.pass book.now receipts.items) }
{
    let mut pass = pass;
    let lane = &run.lanes[worker as usize];
    let working = lane.begin();
    let receipts = judged(rt, alloc, run, worker, lane, &mut pass, book, halt, gate);
    drop(working);
    WorkDone {
        pass,
        receipts: receipts.ok(),
    }
}

/// Takes messages until an end of each file came, and posts the results. Returns `Err` if memory runs out, in the
/// worker or in an intake.
fn judged<R: Wait, G: Gate>(
    rt: &R,
    alloc: Global,
    run: &RunSetting<'_>,
    worker: u32,
    lane: &Lane,
    pass: &mut TakePass,
    book: &Book,
    halt: &Halt,
    gate: &G,
) -> Result<Vec<Receipt>, OutOfMemory>
    requires limits { IsWorker run.now worker }
    requires pass { HasTakenNothing lane.now pass.old }
    ensures lane { pass.new.lane ≡ lane.now }
    ensures senders { pass.new.senders ≡ pass.old.senders }
    ensures receipts { IfOk result (λ receipts. HasJudged (setting_of run.now)
        run.now.files worker pass.new book.now receipts.items) }
{
    let mut judging = Judging::new(alloc, run, worker)?;
    gate.meet(rt, 16 + u64::from(worker));
    let first = next_message(rt, lane, pass, halt)?;
    gate.meet(rt, 32 + u64::from(worker));
    judging.take(first)?;
    take_all(rt, lane, pass, halt, &mut judging)?;
    judging.post(rt, book)
}

/// Takes the messages that are left, until an end of each file came. Returns `Err` if memory runs out, in the worker or
/// in an intake.
fn take_all<R: Wait>(
    rt: &R,
    lane: &Lane,
    pass: &mut TakePass,
    halt: &Halt,
    judging: &mut Judging,
) -> Result<(), OutOfMemory>
    requires lane { pass.old.lane ≡ lane.now }
    requires stands { (s : Setting) × (files : ℕ) × (worker : ℕ)
        × StandsFor s files worker (messages pass.old.taken) judging.old }
    ensures lane { pass.new.lane ≡ lane.now }
    ensures senders { pass.new.senders ≡ pass.old.senders }
    ensures stands { IfOk result (λ _. (s : Setting) (files worker : ℕ)
        → StandsFor s files worker (messages pass.old.taken) judging.old
        → StandsFor s files worker (messages pass.new.taken) judging.new
        × IsTrue (has_ends files (messages pass.new.taken))) }
{
    for _ in rt.forever() {
        if judging.has_ended() {
            break;
        }
        let message = next_message(rt, lane, pass, halt)?;
        judging.take(message)?;
    }
    Ok(())
}

/// Takes the next message, and waits for it. Returns `Err` if the lane was empty and the halt was raised.
fn next_message<R: Wait>(
    rt: &R,
    lane: &Lane,
    pass: &mut TakePass,
    halt: &Halt,
) -> Result<Message, OutOfMemory>
    requires lane { pass.old.lane ≡ lane.now }
    ensures taken { IfOk result (λ message. HasTaken pass.old pass.new message) }
    ensures few { IfOk result (λ _. IsWithin (2 ^ 41) (messages pass.new.taken)) }
    ensures same { IsErr result → pass.new ≡ pass.old }
{
    let backoff = Backoff::new();
    for _ in rt.forever() {
        if let Some(message) = lane.take::<NoLesson, R>(rt, pass) {
            return Ok(message);
        }
        if halt.raised().is_some() {
            break;
        }
        if backoff.is_completed() {
            lane.wait_for_message(rt, pass, halt);
        } else {
            backoff.snooze();
        }
    }
    Err(OutOfMemory)
}
