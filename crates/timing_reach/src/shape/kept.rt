//! Keeps the packets of a flow until it is known which of them are judged.

ghost use Rattle.std.specs.Prelude.{◌≤◌, ◌++◌, ◌∷◌, [], List, IfOk, length};
ghost use Rattle.timing_base.specs.Captures.{IsStamp, Record};

use crate::shape::copy::{add_record, begin};
use std::alloc::{AllocError as OutOfMemory, Global};

/// The packets of a flow so far, as they came.
#[derive(Drop)]
pub enum Kept {
    /// For a list: their capture timestamps in nanoseconds, as they stand in the capture.
    Stamps(Vec<u64>),
    /// For a capture: the packets as the bytes of a capture.
    Capture(Vec<u8>),
}

impl Kept {
    ghost use Rattle.timing_reach.specs.shape.Keeping.{AreKept, Keeps};

    /// Returns no packets, for a list or for a capture. Returns `Err` if memory runs out.
    pub fn new(alloc: Global, list: bool) -> Result<Kept, OutOfMemory>
        ensures { IfOk result (λ kept. AreKept list kept []) }
    {
        if list {
            return Ok(Kept::Stamps(Vec::new(alloc)));
        }
        Ok(Kept::Capture(begin(alloc)?))
    }

    /// Keeps the next packet, with this capture timestamp in nanoseconds and this frame. Returns `Err` if memory runs
    /// out.
    #[inline(always)]
    pub fn keep(&mut self, at: u64, frame: &[u8]) -> Result<(), OutOfMemory>
        requires stamp { IsStamp at }
        requires short { length frame.now ≤ 262144 }
        ensures { IfOk result (λ _. Keeps at frame.now self.old self.new) }
    {
        match self {
            Kept::Stamps(stamps) => Ok(stamps.push(at)?),
            Kept::Capture(bytes) => add_record(bytes, at, frame),
        }
    }
}
