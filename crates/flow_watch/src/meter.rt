//! The stretches of a judged run, told while the run is judged.

ghost use Rattle.std.specs.Prelude.{◌≡◌, ◌<◌, ◌≤◌, ◌+◌, ◌^◌, ◌++◌, ◌∷◌, [], IfOk, true};

use crate::broken::TypeMeter;
use crate::lines::WatchLines;
use crate::peaks::{BufferRange, Peaks};
use crate::stretch::{PerType, Stretch};
use flow_measure::GroupWalk;
use run_meter::{Level, RunHead, RunMeter, RunPacket};
use sender_params::Params;
use std::alloc::{AllocError as OutOfMemory, Global};
use timing_base::{Judged, Kind};

/// The greatest number of packets of a run.
const MOST: u64 = 1 << 41;

/// The peaks before the first packet of a frame or field. They aren't read.
const NO_PEAKS: Peaks = Peaks {
    bucket: 0,
    gapped: BufferRange {
        least: 0,
        greatest: 0,
        late: 0,
    },
    linear: BufferRange {
        least: 0,
        greatest: 0,
        late: 0,
    },
};

/// A meter of one judged run. It adds each frame or field to the open stretch when it is judged. If that is then
/// complete, its line is appended to those of the flow.
#[derive(Drop)]
pub struct WatchMeter {
    /// The position of the run among all runs of the flow, counted from 1.
    run: u64,
    /// The place of the next packet in its frame or field.
    walk: GroupWalk,
    /// The limits of N, and the frames or fields that break one.
    narrow: TypeMeter,
    /// The limits of NL, and the frames or fields that break one.
    narrow_linear: TypeMeter,
    /// The limits of W, and the frames or fields that break one.
    wide: TypeMeter,
    /// The peaks over the packets so far of the current frame or field.
    peaks: Peaks,
    /// The frames or fields that are complete and not committed yet, each as a stretch of its own. There is room for
    /// one from the start.
    kept: Vec<Stretch>,
    ghost narrow_few: { narrow.groups.whole ≤ walk.group },
    ghost narrow_linear_few: { narrow_linear.groups.whole ≤ walk.group },
    ghost wide_few: { wide.groups.whole ≤ walk.group },
}

impl WatchMeter {
    ghost use Rattle.flow_watch.specs.making.Takes.{EndsGroup, TakesLevel};

    /// Takes the levels just after the next packet.
    #[inline(always)]
    fn take(&mut self, level: Level)
        ensures { TakesLevel level self.old self.new }
    {
        let here = Peaks::of(level);
        self.peaks = if self.walk.place == 0 {
            here
        } else {
            self.peaks.joined(here)
        };
        self.narrow.feed(level.bucket, level.gapped);
        self.narrow_linear.feed(level.bucket, level.linear);
        self.wide.feed(level.bucket, level.linear);
    }

    /// Keeps the frame or field of the last packet, which came at `at`, as complete. Returns `Err` if memory runs out.
    #[cold]
    #[inline(never)]
    fn end_group(&mut self, at: u64) -> Result<(), OutOfMemory>
        requires narrow { self.old.narrow.groups.whole < self.old.walk.group }
        requires narrow_linear { self.old.narrow_linear.groups.whole < self.old.walk.group }
        requires wide { self.old.wide.groups.whole < self.old.walk.group }
        ensures { IfOk result (λ _. EndsGroup at self.old self.new) }
    {
        self.narrow.end_group();
        self.narrow_linear.end_group();
        self.wide.end_group();
        self.kept.push(Stretch {
            run: self.run,
            from: self.walk.group,
            to: self.walk.group,
            stamp: at,
            c_max: PerType {
                narrow: self.narrow.c_max,
                narrow_linear: self.narrow_linear.c_max,
                wide: self.wide.c_max,
            },
            peaks: self.peaks,
            broken: PerType {
                narrow: self.narrow.count(),
                narrow_linear: self.narrow_linear.count(),
                wide: self.wide.count(),
            },
        })?;
        Ok(())
    }
}

impl RunMeter for WatchMeter {
    ghost use Rattle.flow_watch.specs.Watched.{PastLines, Tells, begins_open};
    ghost use Rattle.flow_watch.specs.making.Meters.{StandsFor};

    type Out = WatchLines;

    const WANTS_LEVELS: bool = true;

    ghost WANTS_LEVELS = { true };

    ghost stands = { StandsFor };

    ghost Past = { PastLines };

    ghost tells = { Tells };

    fn begin(
        alloc: Global,
        params: &Params,
        run: &RunHead,
        _out: &WatchLines,
    ) -> Result<WatchMeter, OutOfMemory> {
        Ok(WatchMeter {
            run: run.run,
            walk: GroupWalk::new(params),
            narrow: TypeMeter::new(params, Kind::N),
            narrow_linear: TypeMeter::new(params, Kind::NL),
            wide: TypeMeter::new(params, Kind::W),
            peaks: NO_PEAKS,
            kept: Vec::with_capacity(alloc, 1)?,
        })
    }

    #[inline(always)]
    fn feed(
        &mut self,
        _params: &Params,
        packet: RunPacket,
        level: Level,
    ) -> Result<(), OutOfMemory> {
        // No run has more packets.
        if self.walk.seen == MOST {
            return Ok(());
        }
        self.take(level);
        if self.walk.pass() {
            self.end_group(packet.at)?;
        }
        Ok(())
    }

    fn commit(&mut self, _params: &Params, out: &mut WatchLines) -> Result<(), OutOfMemory> {
        out.add_each(self.kept.as_slice())?;
        self.kept.clear();
        Ok(())
    }

    fn close(
        self,
        _params: &Params,
        _judged: &Judged,
        out: &mut WatchLines,
    ) -> Result<(), OutOfMemory> {
        out.end()
    }

    ghost opens = { begins_open };
}
