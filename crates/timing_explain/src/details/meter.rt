//! The details of the judged runs of a flow, collected while the runs are judged.

ghost use Rattle.std.specs.Prelude.{◌≡◌, true};

use crate::details::longest::{FoundRun, LongestFound};
use crate::details::packets::PacketDetails;
use run_meter::{Level, RunHead, RunMeter, RunPacket};
use sender_params::Params;
use std::alloc::{AllocError as OutOfMemory, Global};
use timing_base::Judged;

/// The greatest number of packets of a run.
const MOST: u64 = 1 << 41;

/// A meter of one judged run. When the run is complete, its details replace those of a shorter run.
#[derive(Drop)]
pub struct DetailsMeter {
    /// The number of the run among all runs of the flow, from 1.
    run: u64,
    /// All packets so far.
    all: PacketDetails,
    /// The committed packets.
    committed: PacketDetails,
    ghost same_n: { committed.walk.n ≡ all.walk.n },
}

impl RunMeter for DetailsMeter {
    ghost use Rattle.timing_explain.specs.details.Told.{Finds};
    ghost use Rattle.timing_explain.specs.details.Stands.{StandsFor};

    type Out = LongestFound;

    const WANTS_LEVELS: bool = true;

    ghost WANTS_LEVELS = { true };

    ghost stands = { StandsFor };

    ghost tells = { λ _ out m shift over _. Finds m shift over out.found };

    fn begin(
        alloc: Global,
        params: &Params,
        run: &RunHead,
        _out: &LongestFound,
    ) -> Result<DetailsMeter, OutOfMemory> {
        Ok(DetailsMeter {
            run: run.run,
            all: PacketDetails::new(alloc, params)?,
            committed: PacketDetails::new(alloc, params)?,
        })
    }

    #[inline(always)]
    fn feed(
        &mut self,
        params: &Params,
        packet: RunPacket,
        level: Level,
    ) -> Result<(), OutOfMemory> {
        // No run has more packets, and a meter can count no more.
        if self.all.walk.seen < MOST {
            self.all.feed(params, packet, level);
        }
        Ok(())
    }

    fn commit(&mut self, _params: &Params, _out: &mut LongestFound) -> Result<(), OutOfMemory> {
        self.committed.keep(&self.all);
        Ok(())
    }

    fn close(
        self,
        _params: &Params,
        _judged: &Judged,
        out: &mut LongestFound,
    ) -> Result<(), OutOfMemory> {
        out.take(FoundRun {
            run: self.run,
            packets: self.committed.walk.seen,
            details: self.committed.finish(),
        });
        Ok(())
    }

    ghost opens = { λ _ _ _ _ _ _ tells. tells };
}
