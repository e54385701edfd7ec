//! The entries of a lane, the proof state of each of its passes, and the steps that change it. No value of a proof
//! state or of a step exists at run time.

use crate::message::Message;
use crossbeam_queue::protocol::{Join, Lesson, Outcome, Protocol, Split};
use crossbeam_queue::{RuledSegQueue, SegPass};
use std::collections::LinkedList;
use std::marker::PhantomData;

/// Message with the number of its sender.
#[derive(Debug, Drop)]
pub struct Entry {
    /// Number of the sender, counted from 0.
    pub from: u32,
    /// Message that it sent.
    pub message: Message,
}

/// Proof state of a pass.
pub enum View {
    /// Of a sender: its number, and what it has sent.
    Sends {
        from: u64,
        put: LinkedList<Message>,
    },
    /// Of the taker: what it has taken, how many senders were made, and what each of the senders has sent that were
    /// taken back, in order.
    Takes {
        got: LinkedList<Entry>,
        made: u64,
        known: LinkedList<LinkedList<Message>>,
    },
    /// Of a sender that was taken back.
    Spent,
}

/// Rule of a lane: for each sender, what was taken and then what the lane holds is what it sent.
pub struct InOrder;

impl Protocol<Entry, View> for InOrder {
    ghost use Rattle.ruled_intake.specs.Rule.{Delivers, new_taker};

    ghost holds = { Delivers };

    ghost first = { new_taker };
}

/// Step that makes a sender.
pub struct OneMore;

impl Split<View> for OneMore {
    ghost use Rattle.ruled_intake.specs.Rule.{new_sender, with_one_more};

    ghost left = { with_one_more };

    ghost right = { new_sender };
}

/// Step that takes back a sender once it has ended.
pub struct TakeIn;

impl Join<View> for TakeIn {
    ghost use Rattle.ruled_intake.specs.Rule.{with_known};
    ghost use Rattle.ruled_intake.specs.declared.rule.View.TheVariants.{Spent};

    ghost both = { with_known };

    ghost spent = { Spent };
}

/// Step that sends a message.
pub struct Puts;

impl Outcome<Entry, View> for Puts {
    ghost use Rattle.ruled_intake.specs.Rule.{HasPut};

    ghost then = { HasPut };
}

/// Step that takes a message. If the lane was empty, the taker learns what the caller's lesson states of that moment.
pub struct Gets<L> {
    _lesson: PhantomData<L>,
}

impl<L: Lesson<Entry, View>> Outcome<Entry, View> for Gets<L> {
    ghost use Rattle.ruled_intake.specs.Rule.{HasGot};

    ghost then = { HasGot };
}

impl<L: Lesson<Entry, View>> Lesson<Entry, View> for Gets<L> {
    ghost use Rattle.ruled_intake.specs.Rule.{HasFew};

    ghost fact = { λ v items. HasFew v × L.fact v items };
}

/// Lesson of a caller that asks nothing about an empty lane.
pub struct NoLesson;

impl Lesson<Entry, View> for NoLesson {
    ghost use Rattle.std.specs.Prelude.{⊤};

    ghost fact = { λ v items. ⊤ };
}

/// Step that compares what was taken with what was sent.
pub struct Compares;

impl Lesson<Entry, View> for Compares {
    ghost use Rattle.ruled_intake.specs.Rule.{HasCompared};

    ghost fact = { HasCompared };
}

/// Queue of a lane.
pub type LaneQueue = RuledSegQueue<Entry, View, InOrder>;

/// Pass of the queue.
pub type LanePass = SegPass<Entry, View>;
