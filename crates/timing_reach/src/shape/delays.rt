//! The list of the packets of a flow that are delayed.

ghost use Rattle.std.specs.Prelude.{◌≡◌, ◌<◌, ◌+◌, ◌^◌, ◌++◌, IfOk, cond, max, nat_lt, string_bytes};
ghost use Rattle.timing_report.specs.declared.status.Status.TheVariants as status;
ghost use Rattle.timing_reach.specs.Shapes.{delays_line, packet_line};

use crate::shape::words::{add_delays, add_packet};
use flow_shaper::Bound;
use std::alloc::{AllocError as OutOfMemory, Global};
use timing_report::Status;
use timing_steps::Answer;

/// The delays of the packets so far.
#[derive(Drop)]
pub struct Delays {
    /// A line for each delayed packet.
    pub lines: String,
    /// The number of packets that are delayed.
    pub delayed: u64,
    /// The greatest delay, in nanoseconds.
    pub greatest: u64,
}

impl Delays {
    ghost use Rattle.std.specs.Prelude.{[]};

    /// Returns the delays before the first packet.
    pub fn new(alloc: Global) -> Delays
        ensures lines { string_bytes result.lines ≡ [] }
        ensures delayed { result.delayed ≡ 0 }
        ensures greatest { result.greatest ≡ 0 }
    {
        Delays {
            lines: String::new(alloc),
            delayed: 0,
            greatest: 0,
        }
    }

    /// Adds a packet, counted from 0, with its delay in nanoseconds. Returns `Err` if memory runs out.
    #[inline(always)]
    pub fn add(&mut self, packet: u64, delay: u64, bound: Bound) -> Result<(), OutOfMemory>
        requires { self.old.delayed < 2 ^ 41 }
        ensures lines { IfOk result (λ _. string_bytes self.new.lines
            ≡ string_bytes self.old.lines ++ packet_line packet delay bound) }
        ensures delayed { self.new.delayed ≡ self.old.delayed + cond (nat_lt 0 delay) 1 0 }
        ensures greatest { self.new.greatest ≡ max self.old.greatest delay }
    {
        if delay > 0 {
            self.delayed += 1;
        }
        self.greatest = self.greatest.max(delay);
        add_packet(&mut self.lines, packet, delay, bound)
    }

    /// Returns the answer with the list of this many packets, and status 0. Returns `Err` if memory runs out.
    pub fn finish(self, packets: u64) -> Result<Answer, OutOfMemory>
        ensures { IfOk result (λ answer. answer ≡ record {
          text = string_bytes self.lines ++ delays_line self.delayed packets self.greatest;
          status = status.Pass;
        }) }
    {
        let Delays {
            mut lines,
            delayed,
            greatest,
        } = self;
        add_delays(&mut lines, delayed, packets, greatest)?;
        Ok(Answer {
            text: lines.into_bytes(),
            status: Status::Pass,
        })
    }
}
