//! Measurements of the frames or fields of a run: when their packets arrive, and their RTP timestamps.

ghost use Rattle.std.specs.Prelude.{◌≡◌, ◌<◌, ◌≤◌, ◌+◌, ◌-◌, ◌^◌, ℕ, ℤ, pos, negsuc, ◌≤ℤ◌, MatchOption};
ghost use Rattle.timing_base.specs.Media.{Media};

use crate::frames::{latency_of, offset_of, since_start};
use crate::steps::StepMeter;
use crate::summary::{Summary, SummaryMeter};
use sender_params::Params;

/// A frame or field: the capture timestamps of its first and last packet, in nanoseconds of TAI, and its RTP timestamp.
#[derive(Clone, Copy)]
pub struct Group {
    /// The capture timestamp of the first packet.
    pub first: u64,
    /// The capture timestamp of the last packet.
    pub last: u64,
    /// The RTP timestamp, in ticks of 90 kHz.
    pub timestamp: u32,
    ghost first_in_time: { first < 2 ^ 62 },
    ghost last_in_time: { last < 2 ^ 62 },
}

/// The measurements of the frames or fields of a run, as [`RunNumbers`](crate::RunNumbers) has them.
#[derive(Clone, Copy)]
pub struct GroupNumbers {
    /// Nanoseconds from the instant at which each frame or field begins to its first packet.
    pub first: Summary,
    /// Nanoseconds from the instant at which each frame or field begins to its last packet.
    pub last: Summary,
    /// Ticks by which each RTP timestamp exceeds the media clock at the instant at which its frame or field begins.
    pub offset: Summary,
    /// Ticks from each RTP timestamp to the first packet of its frame or field.
    pub latency: Summary,
    /// Ticks from each RTP timestamp to the next; `None` if there is only one frame or field.
    pub step: Option<Summary>,
}

/// A meter of the frames or fields so far.
#[derive(Clone, Copy)]
pub struct GroupMeter {
    /// Nanoseconds from the instant at which each frame or field begins to its first packet.
    pub first: SummaryMeter,
    /// Nanoseconds from the instant at which each frame or field begins to its last packet.
    last: SummaryMeter,
    offset: SummaryMeter,
    latency: SummaryMeter,
    step: StepMeter,
    ghost last_is: { last.seen ≡ first.seen },
    ghost offset_is: { offset.seen ≡ first.seen },
    ghost latency_is: { latency.seen ≡ first.seen },
    ghost step_is: { step.seen ≡ first.seen },
}

impl GroupMeter {
    ghost use Rattle.flow_measure.specs.Fed.{MeasuresGroups};
    ghost use Rattle.flow_measure.specs.Groups.{AreGroupNumbers};

    /// Returns the meter before the first frame or field.
    pub fn new() -> GroupMeter
        ensures seen { result.first.seen ≡ 0 }
        ensures stands { (m : Media) (anchor : ℤ) (first last timestamp : ℕ → ℕ)
            → MeasuresGroups m anchor result first last timestamp }
    {
        GroupMeter {
            first: SummaryMeter::new(),
            last: SummaryMeter::new(),
            offset: SummaryMeter::new(),
            latency: SummaryMeter::new(),
            step: StepMeter::new(),
        }
    }

    /// Takes the next frame or field of a run. `n0` is the number of the run's first frame or field, counted from the
    /// epoch.
    #[cold]
    #[inline(never)]
    pub fn feed(&mut self, params: &Params, n0: i128, group: Group)
        requires low { negsuc 479 ≤ℤ n0 }
        requires high { n0 ≤ℤ pos (2 ^ 42) }
        requires few { self.old.first.seen < 2 ^ 41 }
        ensures seen { self.new.first.seen ≡ self.old.first.seen + 1 }

        // Whatever frames or fields the meter was fed before, this one now follows them.
        ensures stands { (first last timestamp : ℕ → ℕ)
            → MeasuresGroups params.now.media n0 self.old first last timestamp
            → first self.old.first.seen ≡ group.first → last self.old.first.seen ≡ group.last
            → timestamp self.old.first.seen ≡ group.timestamp
            → MeasuresGroups params.now.media n0 self.new first last timestamp }
    {
        let k = self.first.seen;
        self.first.feed(since_start(params, n0, k, group.first));
        self.last.feed(since_start(params, n0, k, group.last));
        self.offset.feed(offset_of(params, n0, k, group.timestamp));
        self.latency.feed(latency_of(group.first, group.timestamp));
        self.step.feed(group.timestamp);
    }

    /// Returns the measurements, or `None` if there is no frame or field.
    pub fn finish(&self) -> Option<GroupNumbers>
        ensures { (m : Media) (anchor : ℤ) (first last timestamp : ℕ → ℕ)
            → MeasuresGroups m anchor self.now first last timestamp
            → MatchOption result (self.now.first.seen ≡ 0)
            (AreGroupNumbers m anchor self.now.first.seen first last timestamp) }
    {
        let first = self.first.finish()?;
        let last = self.last.finish()?;
        let offset = self.offset.finish()?;
        let latency = self.latency.finish()?;
        Some(GroupNumbers {
            first,
            last,
            offset,
            latency,
            step: self.step.finish(),
        })
    }
}
