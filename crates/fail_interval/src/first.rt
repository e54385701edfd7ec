//! The first frame or field of a run. Its number of packets isn't known before it is complete.

ghost use Rattle.std.specs.Prelude.{◌≡◌, ◌≤◌, ◌++◌, ◌∷◌, [], ℕ, List, IfOk, length, true};
ghost use Rattle.timing_base.specs.Shifts.{Shift};
ghost use Rattle.timing_base.specs.declared.packet.FlowPacket.{FlowPacket};
ghost use Rattle.run_meter.specs.Runs.{RunOf};
ghost use Rattle.fail_interval.specs.Metered.{Keeps};
ghost use Rattle.fail_interval.specs.Meters.{StandsFor as MetersStandFor};
ghost use Rattle.fail_interval.specs.SoFar.{AreStamps};

use crate::meters::RunMeters;
use run_meter::{RunMeter, RunPacket};
use sender_params::Params;
use std::alloc::{AllocError as OutOfMemory, Global};

/// Data kept of a packet beside its capture timestamp.
#[derive(Clone, Copy)]
pub struct Kept {
    /// Packet record, counted from 1.
    pub rec: u64,
    /// RTP timestamp, in ticks of 90 kHz.
    pub timestamp: u32,
}

/// Packets so far of the first frame or field of a run.
#[derive(Drop)]
pub struct FirstGroup {
    /// Capture timestamps, in nanoseconds of TAI.
    pub stamps: Vec<u64>,
    /// Other data of the packets; empty if the run is judged but not measured.
    pub kept: Vec<Kept>,
}

impl FirstGroup {
    /// Returns the frame or field before its first packet.
    pub fn new(alloc: Global) -> FirstGroup
        ensures stamps { result.stamps.items ≡ [] }
        ensures kept { result.kept.items ≡ [] }
    {
        FirstGroup {
            stamps: Vec::new(alloc),
            kept: Vec::new(alloc),
        }
    }

    /// Takes the next packet, and keeps the data for a meter if `measured` is set. Returns `Err` if memory runs out.
    pub fn push(&mut self, packet: RunPacket, measured: bool) -> Result<(), OutOfMemory>
        ensures stamps { IfOk result (λ _. self.new.stamps.items ≡ self.old.stamps.items ++ packet.at ∷ []) }
        ensures kept { measured ≡ true → IfOk result (λ _. self.new.kept.items ≡ self.old.kept.items ++ record {
          rec = packet.rec;
          timestamp = packet.timestamp;
        } ∷ []) }
    {
        self.stamps.push(packet.at)?;
        if measured {
            self.kept.push(Kept {
                rec: packet.rec,
                timestamp: packet.timestamp,
            })?;
        }
        Ok(())
    }
}

/// Returns the meters after the first frame or field of a run, and feeds each kept packet to `meter`. Returns `Err` if
/// memory runs out.
pub fn meter_first<M: RunMeter>(
    params: &Params,
    first: &FirstGroup,
    meter: &mut M,
) -> Result<RunMeters, OutOfMemory>
    requires some { 1 ≤ length first.now.stamps.items }
    requires fit { AreStamps first.now.stamps.items }
    ensures stands { IfOk result (λ meters. MetersStandFor params.now meters first.now.stamps.items) }
    ensures told { IfOk result (λ _. (shift : Shift) (r : RunOf) (packets : List FlowPacket) → r.n ≡ params.now.n
        → Keeps shift first.now packets → M.stands meter.old params.now.media shift r [] []
        → M.stands meter.new params.now.media shift r packets []) }
{
    let stamps = first.stamps.as_slice();
    let mut meters = RunMeters::new(params, stamps[0]);
    for (number, at) in stamps.iter().enumerate() {
        let level = meters.feed_level(params, *at);
        if let Some(kept) = first.kept.get(number) {
            let packet = RunPacket {
                rec: kept.rec,
                at: *at,
                timestamp: kept.timestamp,
            };
            meter.feed(params, packet, level)?;
        }
    }
    Ok(meters)
}
