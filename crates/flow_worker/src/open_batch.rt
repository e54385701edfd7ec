//! Batches that are being filled.

ghost use Rattle.std.specs.Prelude.{◌≡◌, ◌≤◌, ◌<◌, ◌+◌, ◌++◌, ◌∷◌, [], IfOk, MatchOption, OnErr, length};

use ruled_intake::Packet;
use std::alloc::{AllocError as OutOfMemory, Global};
use std::marker::Model;
use std::mem;
use timing_base::Items;

/// Number of packets in a batch, unless it is the last of its file for a lane.
const FULL: usize = 256;

/// Packets for one lane that don't fill a batch yet. There is room for a whole batch from the first packet on, so only
/// beginning a batch allocates memory.
#[derive(Drop)]
pub struct OpenBatch {
    packets: Vec<Packet>,
}

impl Model for OpenBatch {
    ghost use Rattle.std.specs.Prelude.{◌<◌, List, length};
    ghost use Rattle.ruled_intake.specs.Packets.{Packet};

    ghost Value = { List Packet };

    ghost view = { λ batch. batch.packets.items };

    ghost invariant = { λ batch. length batch.packets.items < 256 };
}

impl OpenBatch {
    /// Returns a batch without packets. Returns `Err` if memory runs out.
    pub fn new(alloc: Global) -> Result<OpenBatch, OutOfMemory>
        ensures { IfOk result (λ batch. batch ≡ []) }
    {
        let packets = Vec::with_capacity(alloc, FULL)?;
        Ok(OpenBatch { packets })
    }

    /// Appends a packet. If that fills the batch, returns its packets, and the next batch begins. Returns `Err` if
    /// memory runs out; nothing changes then.
    #[inline(always)]
    pub fn put(
        &mut self,
        alloc: Global,
        packet: Packet,
    ) -> Result<Option<Items<Packet>>, OutOfMemory>
        ensures ok { IfOk result (λ full. MatchOption full
            ((self.new ≡ self.old ++ packet ∷ []) × (length self.old + 1 < 256))
            (λ packets. (packets ≡ self.old ++ packet ∷ []) × (length self.old + 1 ≡ 256)
            × (self.new ≡ []))) }
        ensures err { OnErr result (self.new ≡ self.old) }
    {
        if self.packets.len() + 1 < FULL {
            self.packets.push(packet)?;
            return Ok(None);
        }
        let next = Vec::with_capacity(alloc, FULL)?;
        self.packets.push(packet)?;
        Ok(Some(Items::from_vec(mem::replace(&mut self.packets, next))))
    }

    /// Takes the packets out, if there are any, for the last batch of a file. Allocates no memory.
    pub fn take(&mut self, alloc: Global) -> Option<Items<Packet>>
        ensures packets { MatchOption result (self.old ≡ [])
            (λ packets. (packets ≡ self.old) × (1 ≤ length packets) × (length packets ≤ 256)) }
        ensures none { self.new ≡ [] }
    {
        if self.packets.is_empty() {
            return None;
        }
        Some(Items::from_vec(mem::replace(&mut self.packets, Vec::new(alloc))))
    }
}
