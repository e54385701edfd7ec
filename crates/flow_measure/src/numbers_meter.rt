//! The measurements of the judged runs of a flow, made while the runs are judged.

ghost use Rattle.std.specs.Prelude.{◌≡◌, [], true};

use crate::meters::RunMeters;
use crate::numbers::MeasuredRun;
use run_meter::{Level, RunHead, RunMeter, RunPacket};
use sender_params::Params;
use std::alloc::{AllocError as OutOfMemory, Global};
use timing_base::Judged;

/// The greatest number of packets of a run.
const MOST: u64 = 1 << 41;

/// The judged runs of a flow that are complete, each with its measurements.
#[derive(Drop)]
pub struct MeasuredRuns {
    /// The runs, in order.
    pub runs: Vec<MeasuredRun>,
}

impl MeasuredRuns {
    /// Returns an empty list of runs.
    pub fn new(alloc: Global) -> MeasuredRuns
        ensures { result.runs.items ≡ [] }
    {
        MeasuredRuns {
            runs: Vec::new(alloc),
        }
    }
}

/// A meter of one judged run. When the run is complete, the meter appends its measurements to those of earlier runs.
#[derive(Clone, Copy)]
pub struct NumbersMeter {
    head: RunHead,
    /// The measurements of all packets so far.
    all: RunMeters,
    /// The measurements of the committed packets.
    committed: RunMeters,
}

impl RunMeter for NumbersMeter {
    ghost use Rattle.flow_measure.specs.Measured.{AreMeasured, HasNumbers};
    ghost use Rattle.flow_measure.specs.RunStands.{StandsFor};

    type Out = MeasuredRuns;

    const WANTS_LEVELS: bool = true;

    ghost WANTS_LEVELS = { true };

    ghost stands = { StandsFor };

    ghost tells = { λ _ out m shift over _. AreMeasured (HasNumbers m shift) over out.runs.items };

    fn begin(
        _alloc: Global,
        params: &Params,
        run: &RunHead,
        _out: &MeasuredRuns,
    ) -> Result<NumbersMeter, OutOfMemory> {
        let none = RunMeters::new(params);
        Ok(NumbersMeter {
            head: *run,
            all: none,
            committed: none,
        })
    }

    #[inline(always)]
    fn feed(
        &mut self,
        params: &Params,
        packet: RunPacket,
        level: Level,
    ) -> Result<(), OutOfMemory> {
        // No run has more packets, and a meter can count no more.
        if self.all.walk.seen < MOST {
            self.all.feed(params, packet, level);
        }
        Ok(())
    }

    fn commit(&mut self, _params: &Params, _out: &mut MeasuredRuns) -> Result<(), OutOfMemory> {
        self.committed = self.all;
        Ok(())
    }

    fn close(
        self,
        params: &Params,
        judged: &Judged,
        out: &mut MeasuredRuns,
    ) -> Result<(), OutOfMemory> {
        match self.committed.finish(params) {
            Some(numbers) => {
                out.runs.push(MeasuredRun {
                    run: self.head.run,
                    record: self.head.rec,
                    number: self.head.number,
                    judged: *judged,
                    numbers,
                })?;
                Ok(())
            }
            None => Ok(()),
        }
    }

    ghost opens = { λ _ _ _ _ _ _ tells. tells };
}
