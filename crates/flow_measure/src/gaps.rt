//! The times from each packet to the next.

ghost use Rattle.std.specs.Prelude.{◌≡◌, ◌<◌, ◌≤◌, ◌+◌, ◌-◌, ◌^◌, ℕ, MatchOption};

use crate::classes::Classes;
use crate::numbers::Gaps;
use crate::summary::Summary;

/// A meter of the times from each packet so far to the next, in nanoseconds. Their sum is the time from the first
/// packet to the last.
#[derive(Clone, Copy)]
pub struct GapMeter {
    /// The count of packets fed.
    pub seen: u64,
    /// The capture timestamps of the first and the last packet; 0 before the first packet.
    begin: u64,
    end: u64,
    /// The first and the last time between packets; 0 before the second packet.
    first: u64,
    last: u64,
    /// The least and the greatest time between packets; 0 before the second packet.
    least: u64,
    greatest: u64,
    classes: Classes,
    ghost classes_are: { classes.seen ≡ seen - 1 },
}

impl GapMeter {
    ghost use Rattle.flow_measure.specs.Fed.{MeasuresGaps};
    ghost use Rattle.flow_measure.specs.Gaps.{AreGapsOf};

    /// Returns the meter before the first packet.
    pub fn new() -> GapMeter
        ensures seen { result.seen ≡ 0 }
        ensures stands { (stamp : ℕ → ℕ) → MeasuresGaps result stamp }
    {
        GapMeter {
            seen: 0,
            begin: 0,
            end: 0,
            first: 0,
            last: 0,
            least: 0,
            greatest: 0,
            classes: Classes::new(),
        }
    }

    /// Takes the packet that arrived at `at`, in nanoseconds. The measured times are only guaranteed if no packet is
    /// earlier than the one before it.
    #[inline(always)]
    pub fn feed(&mut self, at: u64)
        requires in_time { at < 2 ^ 62 }
        requires few { self.old.seen < 2 ^ 41 }
        ensures seen { self.new.seen ≡ self.old.seen + 1 }

        // Whatever packets the meter was fed before, this packet now follows them.
        ensures stands { (stamp : ℕ → ℕ) → MeasuresGaps self.old stamp → stamp self.old.seen ≡ at
            → ((i : ℕ) → i < self.old.seen → stamp i ≤ at) → MeasuresGaps self.new stamp }
    {
        if self.seen < 2 {
            return self.begin_with(at);
        }
        let gap = at.saturating_sub(self.end);
        self.least = self.least.min(gap);
        self.greatest = self.greatest.max(gap);
        self.last = gap;
        self.end = at;
        self.classes.feed(gap);
        self.seen += 1;
    }

    /// Takes the first or the second packet.
    #[cold]
    #[inline(never)]
    fn begin_with(&mut self, at: u64)
        requires in_time { at < 2 ^ 62 }
        requires few { self.old.seen < 2 }
        ensures seen { self.new.seen ≡ self.old.seen + 1 }
        ensures stands { (stamp : ℕ → ℕ) → MeasuresGaps self.old stamp → stamp self.old.seen ≡ at
            → ((i : ℕ) → i < self.old.seen → stamp i ≤ at) → MeasuresGaps self.new stamp }
    {
        if self.seen == 0 {
            self.seen = 1;
            self.begin = at;
            self.end = at;
            return;
        }
        let gap = at.saturating_sub(self.end);
        self.seen = 2;
        self.end = at;
        self.first = gap;
        self.last = gap;
        self.least = gap;
        self.greatest = gap;
        self.classes.feed(gap);
    }

    /// Returns the times from each packet to the next, or `None` if there are fewer than two packets.
    pub fn finish(&self) -> Option<Gaps>
        ensures { (stamp : ℕ → ℕ) → MeasuresGaps self.now stamp
            → MatchOption result (self.now.seen ≤ 1) (AreGapsOf stamp self.now.seen) }
    {
        if self.seen < 2 {
            return None;
        }
        Some(Gaps {
            summary: Summary {
                least: i128::from(self.least),
                greatest: i128::from(self.greatest),
                sum: i128::from(self.end.saturating_sub(self.begin)),
                first: i128::from(self.first),
                last: i128::from(self.last),
            },
            classes: self.classes,
        })
    }
}
