//! Lanes from senders to a worker.

ghost use Rattle.std.specs.Prelude.{◌≡◌, ◌≤◌, ◌<◌, ◌+◌, ◌^◌, ◌++◌, ◌∷◌, [], ℕ, length, sum_by, IfErr, IfNone, IfOk, IfSome, OnOk};
ghost use Rattle.crossbeam_queue.specs.SegTies.{IsSegPassOf};
ghost use Rattle.ruled_intake.specs.Knows.{got_by, made_by};
ghost use Rattle.ruled_intake.specs.Lanes.{AreSenders, all_sent, sent_of};
ghost use Rattle.ruled_intake.specs.Rule.{new_taker};
ghost use Rattle.ruled_intake.specs.declared.rule.View.TheVariants.{Takes};

use crate::halt::Halt;
use crate::message::Message;
use crate::passes::{SendPass, TakePass};
use crate::rule::{Compares, Entry, Gets, LanePass, LaneQueue, OneMore, Puts, TakeIn, View};
use crossbeam_queue::protocol::Lesson;
use crossbeam_utils::CachePadded;
use crossbeam_utils::sync::EventCount;
use std::alloc::{AllocError as OutOfMemory, Global};
use std::marker::Model;
use std::sync::Wait;
use std::sync::atomic::{AtomicBool, AtomicU64, Ordering};
use std::thread;

/// Maximum number of times that a sender's thread yields the processor for one message if the worker hasn't begun.
const PATIENCE: u32 = 100;

/// Number of messages from which on a lane is long.
pub(crate) const LONG: u64 = 64;

/// Number of messages below which a lane is short, and sleeping senders are woken. It is less than [`LONG`], so that a
/// woken sender sends many messages before it sleeps again.
const SHORT: u64 = 32;

/// A lane from 1 to 16 senders to one worker.
pub struct Lane {
    queue: LaneQueue,
    /// Approximate numbers of messages sent and taken. Only waiting depends on them. A message is counted before it can
    /// be taken.
    sent: CachePadded<AtomicU64>,
    taken: CachePadded<AtomicU64>,
    /// Event on which the worker sleeps.
    news: EventCount,
    /// Whether the worker takes messages: it has begun, and hasn't ended.
    working: AtomicBool,
    /// Event on which senders sleep.
    room: EventCount,
}

/// Guard of a worker that takes messages. When it is dropped, the worker has ended.
pub struct Working<'a> {
    lane: &'a Lane,
}

impl Drop for Working<'_> {
    fn drop(self) {
        let Self { lane } = self;
        lane.working.store(false, Ordering::SeqCst);
        lane.room.notify_all();
    }
}

impl Model for Lane {
    ghost use Rattle.ruled_intake.specs.Lanes.{LaneId};

    ghost Value = { LaneId };

    ghost view = { λ lane. lane.queue };
}

impl Drop for Lane {
    fn drop(self) {
        self.into_queue().destroy();
    }
}

/// Numbers of messages that were sent to a lane and taken from it.
#[derive(Clone, Copy, Debug, PartialEq, Eq)]
pub struct Closed {
    /// Messages sent by all senders.
    pub sent: u64,
    /// Messages taken.
    pub taken: u64,
}

impl Lane {
    ghost use Rattle.ruled_intake.specs.Lanes.{HasTaken, IsPrefix, IsWithin, messages, of, with_sent};
    ghost use Rattle.ruled_intake.specs.Rule.{HeldNothing, MayLearn};

    /// Appends a message, and wakes the worker. Returns `Err` with the message if memory runs out.
    ///
    /// The call may wait for a step of another thread. Its contract holds if it returns.
    pub fn send<R: Wait>(
        &self,
        rt: &R,
        pass: &mut SendPass,
        message: Message,
    ) -> Result<(), Message>
        requires lane { pass.old.lane ≡ self.now }
        requires few { IsWithin (2 ^ 37) (pass.old.sent ++ message ∷ []) }
        ensures ok { OnOk result (pass.new ≡ with_sent pass.old message) }
        ensures err { IfErr result (λ back. (back ≡ message) × (pass.new ≡ pass.old)) }
    {
        self.sent.fetch_add(1, Ordering::SeqCst);
        let packets = message.packets();
        let entry = Entry {
            from: pass.from,
            message,
        };
        match self.queue.push_as::<Puts, R>(rt, &mut pass.pass, entry) {
            Ok(()) => {
                pass.sent += 1;
                pass.packets += packets;
                self.news.notify_one();
                Ok(())
            }
            Err(Entry { from: _, message }) => {
                self.sent.fetch_sub(1, Ordering::SeqCst);
                Err(message)
            }
        }
    }

    /// Wakes the worker, so that it sees a halt that was raised.
    pub(crate) fn wake(&self) {
        // Writes the count that `wait_for_message` reads after it announced its sleep and before it reads the halt.
        // Either it reads this write, and then sees the halt, or the next line sees its announcement.
        self.sent.fetch_add(0, Ordering::SeqCst);
        self.news.notify_one();
    }

    /// Lets the worker's thread sleep while the lane is empty and the halt isn't raised; else yields the processor. It
    /// isn't guaranteed how long that takes. Only one thread at a time may sleep at a lane.
    pub fn wait_for_message<R: Wait>(&self, rt: &R, pass: &mut TakePass, halt: &Halt)
        requires lane { pass.old.lane ≡ self.now }
        ensures same { pass.new ≡ pass.old }
    {
        let sleep = self.news.prepare_wait();
        // The lane is read first, and then the halt: `wake` depends on it.
        if self.ahead() == 0 && halt.raised().is_none() {
            sleep.wait(rt);
        } else {
            // A sender between its count and its push may need this processor.
            drop(sleep);
            thread::yield_now();
        }
    }

    /// Notes that the worker takes messages from now on, so that senders may wait for it.
    pub fn begin(&self) -> Working<'_> {
        self.working.store(true, Ordering::SeqCst);
        Working { lane: self }
    }

    /// Waits while the lane is long, so that the worker can take messages. The sender sleeps until the lane is short or
    /// the worker has ended. If the worker hasn't begun, it may be waiting for the sender's thread, so the sender
    /// doesn't sleep but yields the processor a limited number of times. The length of the lane isn't guaranteed.
    pub fn wait_for_room<R: Wait>(&self, rt: &R, pass: &mut SendPass)
        ensures same { pass.new ≡ pass.old }
    {
        if self.working.load(Ordering::SeqCst) {
            self.sleep_while_long(rt);
        } else {
            self.yield_while_long(pass);
        }
    }

    /// Returns whether a sender has to wait: the lane is long, and the worker takes messages.
    fn is_held_up(&self) -> bool {
        self.working.load(Ordering::SeqCst) && self.ahead() >= LONG
    }

    /// Sleeps while the lane is long and the worker takes messages.
    fn sleep_while_long<R: Wait>(&self, rt: &R) {
        for _ in rt.forever() {
            if !self.is_held_up() {
                break;
            }
            let sleep = self.room.prepare_wait();
            // There may have been room before this thread announced its sleep: then nothing would wake it.
            if !self.is_held_up() {
                break;
            }
            sleep.wait(rt);
        }
    }

    /// Yields the processor while the lane is long, a limited number of times. After each call in which the worker took
    /// nothing, that number is halved.
    fn yield_while_long(&self, pass: &mut SendPass)
        ensures same { pass.new ≡ pass.old }
    {
        let before = self.taken.load(Ordering::SeqCst);
        let short = self.gets_short(pass.patience.max(1));
        pass.patience = if short || self.taken.load(Ordering::SeqCst) != before {
            PATIENCE
        } else {
            pass.patience / 2
        };
    }

    /// Yields the processor at most `turns` times, until the lane isn't long. Returns whether it isn't.
    fn gets_short(&self, turns: u32) -> bool {
        for _ in 0..turns {
            if self.ahead() < LONG {
                return true;
            }
            thread::yield_now();
        }
        false
    }

    /// Counts a message that was taken, and wakes the senders if the lane is short.
    fn count_taken(&self) {
        self.taken.fetch_add(1, Ordering::SeqCst);
        if self.ahead() < SHORT {
            self.room.notify_all();
        }
    }

    /// Returns approximately how many messages the lane holds.
    pub(crate) fn ahead(&self) -> u64 {
        let sent = self.sent.load(Ordering::SeqCst);
        sent.saturating_sub(self.taken.load(Ordering::SeqCst))
    }

    /// Takes the first message. Returns `None` if the lane was empty at one step of this call; the caller then learns
    /// what its lesson states of an empty lane. `None` doesn't mean that no message will come.
    ///
    /// The call may wait for a step of another thread. Its contract holds if it returns. It allocates no memory.
    pub fn take<L: Lesson<Entry, View>, R: Wait>(
        &self,
        rt: &R,
        pass: &mut TakePass,
    ) -> Option<Message>
        requires lane { pass.old.lane ≡ self.now }
        requires lesson { MayLearn L.fact pass.old }
        ensures some { IfSome result (λ message. HasTaken pass.old pass.new message) }
        ensures none { IfNone result ((pass.new ≡ pass.old) × HeldNothing L.fact pass.old) }
        ensures few { IsWithin (2 ^ 41) (messages pass.new.taken) }
    {
        let entry = self.queue.pop_as::<Gets<L>, R>(rt, &mut pass.pass)?;
        pass.taken += 1;
        self.count_taken();
        Some(entry.message)
    }

    /// Returns a lane for this number of senders, and its passes: sender f, counted from 0, has the pass at position f.
    /// Returns `Err` if memory runs out.
    pub fn new(alloc: Global, senders: u32) -> Result<(Lane, Vec<SendPass>, TakePass), OutOfMemory>
        requires some { 1 ≤ senders }
        requires few { senders ≤ 16 }
        ensures senders { IfOk result (λ made. AreSenders made.0 made.1.items
            × (length made.1.items ≡ senders)
            × ((f : ℕ) → sent_of made.1.items f ≡ [])) }
        ensures taker { IfOk result (λ made.
            made.2 ≡ record { lane = made.0; senders = senders; taken = [] }) }
    {
        let (queue, mut pass) = LaneQueue::with_rule(alloc)?;
        match make_senders(alloc, &queue, &mut pass, senders) {
            Ok(passes) => Ok((
                Lane {
                    queue,
                    sent: CachePadded::new(AtomicU64::new(0)),
                    taken: CachePadded::new(AtomicU64::new(0)),
                    news: EventCount::new(),
                    working: AtomicBool::new(false),
                    room: EventCount::new(),
                },
                passes,
                TakePass { pass, taken: 0 },
            )),
            Err(e) => {
                queue.destroy();
                Err(e)
            }
        }
    }

    /// Returns the queue of a lane that ends.
    fn into_queue(self) -> LaneQueue
        ensures { result ≡ self }
    {
        let Self {
            queue,
            sent: _,
            taken: _,
            news: _,
            working: _,
            room: _,
        } = self;
        queue
    }

    /// Ends the lane, and compares what its passes took and sent. For each sender, what was taken is a prefix of what
    /// it sent; if as many messages were taken as sent, it is all of it. Allocates no memory. The call may wait, though
    /// no other thread has the lane any more.
    pub fn close<R: Wait>(self, rt: &R, senders: Vec<SendPass>, taker: TakePass) -> Closed
        requires senders { AreSenders self senders.items × (length senders.items ≡ taker.senders) }
        requires taker { taker.lane ≡ self }
        ensures sent { result.sent ≡ sum_by length (all_sent senders.items) }
        ensures taken { result.taken ≡ length taker.taken }
        ensures prefix { (f : ℕ) → IsPrefix (of f taker.taken) (sent_of senders.items f) }
        ensures all { result.sent ≡ result.taken
            → (f : ℕ) → of f taker.taken ≡ sent_of senders.items f }
    {
        let TakePass { mut pass, taken } = taker;
        let queue = self.into_queue();
        let sent = take_in(&queue, &mut pass, senders);
        let _left = queue.len_as::<Compares, R>(rt, &mut pass);
        queue.destroy();
        Closed { sent, taken }
    }
}

/// Makes the senders' passes of a new lane. Returns `Err` if memory runs out.
fn make_senders(
    alloc: Global,
    queue: &LaneQueue,
    pass: &mut LanePass,
    senders: u32,
) -> Result<Vec<SendPass>, OutOfMemory>
    requires pass { IsSegPassOf queue.now pass.old }
    requires fresh { pass.old.me.view.client ≡ new_taker }
    requires few { senders ≤ 16 }
    ensures senders { IfOk result (λ passes. AreSenders queue.now passes.items
        × (length passes.items ≡ senders)
        × ((f : ℕ) → sent_of passes.items f ≡ [])) }
    ensures taker { OnOk result (IsSegPassOf queue.now pass.new
        × (pass.new.me.view.client ≡ Takes [] senders [])) }
{
    let mut passes = Vec::new(alloc);
    for from in 0..senders {
        let seat = queue.another::<OneMore>(pass);
        passes.push(SendPass {
            from,
            pass: seat,
            sent: 0,
            packets: 0,
            patience: PATIENCE,
        })?;
    }
    Ok(passes)
}

/// Takes back the passes of all senders, which have ended, and returns how many messages they have sent.
fn take_in(queue: &LaneQueue, taker: &mut LanePass, senders: Vec<SendPass>) -> u64
    requires pass { IsSegPassOf queue.now taker.old }
    requires view { taker.old.me.view.client
        ≡ Takes (got_by taker.old.me.view.client) (made_by taker.old.me.view.client) [] }
    requires senders { AreSenders queue.now senders.items }
    requires few { length senders.items ≤ 16 }
    ensures pass { IsSegPassOf queue.now taker.new }
    ensures view { taker.new.me.view.client
        ≡ Takes (got_by taker.old.me.view.client) (made_by taker.old.me.view.client)
        (all_sent senders.items) }
    ensures sent { result ≡ sum_by length (all_sent senders.items) }
{
    let mut all = 0;
    for each in senders {
        let SendPass {
            from: _,
            pass,
            sent,
            packets: _,
            patience: _,
        } = each;
        queue.absorb::<TakeIn>(taker, pass);
        all += sent;
    }
    all
}
