//! The drawing of the judged runs of a flow, made while the runs are judged.

ghost use Rattle.std.specs.Prelude.{◌≡◌, ◌≤◌, ℕ, IfOk, List, true};
ghost use Rattle.timing_base.specs.Shifts.{Shift};
ghost use Rattle.timing_base.specs.Media.{IsMedia, Media as MediaValue};
ghost use Rattle.timing_base.specs.declared.packet.FlowPacket.{FlowPacket as PacketValue};

use crate::drawing::columns::RunColumns;
use crate::drawing::longest::{DrawnRun, LongestRun};
use crate::drawing::regions::RegionMeters;
use run_meter::{Level, RunHead, RunMeter, RunPacket};
use sender_params::Params;
use std::alloc::{AllocError as OutOfMemory, Global};
use timing_base::Judged;

/// The greatest number of packets of a run.
const MOST: u64 = 1 << 41;

/// A meter of one judged run. When the run is complete, its drawing replaces that of a shorter run.
#[derive(Drop)]
pub struct DrawingMeter {
    alloc: Global,
    /// The number of the run among all runs of the flow.
    run: u64,
    /// The columns of all packets so far.
    all: RunColumns,
    /// The columns of the committed packets.
    committed: RunColumns,
    /// The regions of all packets so far. Packets that weren't committed are left out in `close`.
    regions: RegionMeters,
    ghost same_n: { committed.packets.n ≡ all.packets.n },
}

impl RunMeter for DrawingMeter {
    ghost use Rattle.flow_page.specs.drawing.Told.{Tells};
    ghost use Rattle.flow_page.specs.drawing.Stands.{StandsFor};

    type Out = LongestRun;

    const WANTS_LEVELS: bool = true;

    ghost WANTS_LEVELS = { true };

    ghost stands = { StandsFor };

    ghost tells = { λ _ out m shift over _. Tells m shift over out };

    fn begin(
        alloc: Global,
        params: &Params,
        run: &RunHead,
        _out: &LongestRun,
    ) -> Result<DrawingMeter, OutOfMemory> {
        Ok(DrawingMeter {
            alloc,
            run: run.run,
            all: RunColumns::new(alloc, params)?,
            committed: RunColumns::new(alloc, params)?,
            regions: RegionMeters::new(alloc, params)?,
        })
    }

    #[inline(always)]
    fn feed(
        &mut self,
        params: &Params,
        packet: RunPacket,
        level: Level,
    ) -> Result<(), OutOfMemory> {
        // No run has more packets, and a meter can count no more.
        if self.all.packets.seen < MOST {
            self.all.feed(params, packet.at, packet.timestamp, level);
            self.regions.feed(level);
        }
        Ok(())
    }

    fn commit(&mut self, _params: &Params, _out: &mut LongestRun) -> Result<(), OutOfMemory> {
        self.committed.keep(&self.all);
        Ok(())
    }

    fn close(
        self,
        _params: &Params,
        judged: &Judged,
        out: &mut LongestRun,
    ) -> Result<(), OutOfMemory> {
        if !out.is_shorter(self.committed.packets.seen) {
            return Ok(());
        }
        let drawn = self.drawn(judged)?;
        out.put(drawn);
        Ok(())
    }

    ghost opens = { λ _ _ _ _ _ _ tells. tells };
}

impl DrawingMeter {
    ghost use Rattle.run_meter.specs.Runs.{IsJudgedOf, RunOf, part_of};
    ghost use Rattle.flow_page.specs.drawing.Told.{IsDrawn};
    ghost use Rattle.flow_page.specs.drawing.Stands.{StandsFor};

    /// Returns the drawing of the run, with its verdicts in `judged`. Returns `Err` if memory runs out.
    fn drawn(&self, judged: &Judged) -> Result<DrawnRun, OutOfMemory>
        ensures { IfOk result (λ d. (m : MediaValue) (shift : Shift) (r : RunOf) (fed committed : List PacketValue)
            → IsMedia m → 1 ≤ r.n → IsJudgedOf m shift r committed judged.now
            → StandsFor self.now m shift r fed committed
            → IsDrawn m shift (part_of r judged.now committed) d) }
    {
        let packets = self.committed.packets.seen;
        Ok(DrawnRun {
            run: self.run,
            packets,
            first_at: self.committed.first_at,
            last_at: self.committed.last_at,
            curves: self.committed.curves(self.alloc)?,
            regions: self.regions.finish(self.alloc, judged, packets)?,
        })
    }
}
