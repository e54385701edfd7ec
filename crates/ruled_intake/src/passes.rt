//! The passes by which threads use a lane.

ghost use Rattle.std.specs.Prelude.{◌^◌, ◌++◌, ◌∷◌, [], IsTrue};

use crate::message::Message;
use crate::rule::LanePass;
use std::marker::Model;

/// Maximum number of messages of one sender, and of the packets in them: 2^37.
const MOST: u64 = 137_438_953_472;

/// Pass of one sender. In contracts it has its lane, the sender's number, and what was sent with it.
#[derive(Drop)]
pub struct SendPass {
    /// Number of the sender, counted from 0.
    pub(crate) from: u32,
    /// Pass of the queue.
    pub(crate) pass: LanePass,
    /// Number of messages that it has sent.
    pub(crate) sent: u64,
    /// Number of packets in these messages.
    pub(crate) packets: u64,
    /// Number of times that its thread yields the processor if the lane is long and the worker hasn't begun.
    pub(crate) patience: u32,
}

impl Model for SendPass {
    ghost use Rattle.std.specs.Prelude.{◌≡◌, None};
    ghost use Rattle.ruled_intake.specs.Lanes.{Sender};

    ghost Value = { Sender };

    ghost use Rattle.ruled_intake.specs.Knows.{put_by, KnowsSent};

    ghost view = { λ s. record {
      lane = record { web = s.pass.web; heap = s.pass.heap };
      from = s.from;
      sent = put_by s.pass.me.view.client;
    } };

    ghost invariant = { λ s. (s.pass.me.hand ≡ None) × (s.pass.me.spare ≡ None)
        × KnowsSent s.from s.sent s.packets s.pass.me.view.client };
}

impl SendPass {
    ghost use Rattle.ruled_intake.specs.Lanes.{IsWithin};

    /// Returns whether the limits of one sender are kept with this message: at most 2^37 messages, and as many packets.
    pub fn has_room(&self, message: &Message) -> bool
        ensures { IsTrue result → IsWithin (2 ^ 37) (self.now.sent ++ message.now ∷ []) }
    {
        self.sent < MOST && self.packets + message.packets() <= MOST
    }
}

/// Pass of the taker. In contracts it has its lane, the number of its senders, and what was taken with it.
#[derive(Drop)]
pub struct TakePass {
    /// Pass of the queue.
    pub(crate) pass: LanePass,
    /// Number of messages taken.
    pub(crate) taken: u64,
}

impl Model for TakePass {
    ghost use Rattle.std.specs.Prelude.{◌≡◌, None};
    ghost use Rattle.ruled_intake.specs.Lanes.{Taker};

    ghost Value = { Taker };

    ghost use Rattle.ruled_intake.specs.Knows.{got_by, made_by, KnowsTaken};

    ghost view = { λ t. record {
      lane = record { web = t.pass.web; heap = t.pass.heap };
      senders = made_by t.pass.me.view.client;
      taken = got_by t.pass.me.view.client;
    } };

    ghost invariant = { λ t. (t.pass.me.hand ≡ None) × (t.pass.me.spare ≡ None)
        × KnowsTaken t.taken t.pass.me.view.client };
}
