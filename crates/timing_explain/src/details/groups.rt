//! The times of the frames or fields of a run.

ghost use Rattle.std.specs.Prelude.{◌≡◌, ◌<◌, ◌≤◌, ◌+◌, ◌-◌, ◌*◌, ◌^◌, ◌⊎◌, ℕ, pos, negsuc, ◌≤ℤ◌, IfOk};
ghost use Rattle.timing_base.specs.Media.{Media};

use flow_measure::{Curve, Slope, since_start};
use sender_params::Params;
use std::alloc::{AllocError as OutOfMemory, Global};

/// The greatest number of columns from which a drift is told.
const DRIFT: u32 = 8;

/// The times of the frames or fields of a run so far.
#[derive(Drop)]
pub struct GroupTimes {
    /// The number of the first packet's frame or field, counted from the epoch; 0 before that packet.
    n0: i128,
    /// The capture timestamp of the first packet, in nanoseconds of TAI; 0 before it.
    pub first_at: u64,
    /// The capture timestamp of the first packet of the last frame or field that began, in nanoseconds of TAI; 0 before
    /// it.
    pub group_at: u64,
    /// The greatest time from the first packet of a complete frame or field to its last, in nanoseconds.
    pub span: u64,
    /// Nanoseconds from the instant at which each complete frame or field begins to its first packet, in at most eight
    /// columns.
    pub firsts: Curve<i128>,
    ghost n0_low: { negsuc 479 ≤ℤ n0 },
    ghost n0_high: { n0 ≤ℤ pos (2 ^ 42) },
    ghost in_time: { group_at < 2 ^ 62 },
    ghost firsts_most: { firsts.most ≡ 8 },
}

impl GroupTimes {
    ghost use Rattle.flow_measure.specs.Slope.{IsSlope};
    ghost use Rattle.flow_measure.specs.Groups.{firsts_of, since_at};
    ghost use Rattle.timing_explain.specs.details.Groups.{Begins, TimesGroups};

    /// Returns the times before the first packet. Returns `Err` if memory runs out.
    pub fn new(alloc: Global) -> Result<GroupTimes, OutOfMemory>
        ensures seen { IfOk result (λ t. t.firsts.seen ≡ 0) }
        ensures times { IfOk result (λ t. (m : Media) (n : ℕ) (stamp : ℕ → ℕ) → TimesGroups m n t stamp) }
    {
        Ok(GroupTimes {
            n0: 0,
            first_at: 0,
            group_at: 0,
            span: 0,
            firsts: Curve::new(alloc, DRIFT)?,
        })
    }

    /// Begins a frame or field with its first packet, at `at`, in nanoseconds of TAI. `is_first` is whether it is the
    /// run's first packet, which belongs to the nearest frame or field of the grid from the epoch.
    #[cold]
    #[inline(never)]
    pub fn begin(&mut self, params: &Params, at: u64, is_first: bool)
        requires { at < 2 ^ 62 }
        ensures { Begins params.now.media at is_first self.old self.new }
    {
        if is_first {
            self.n0 = params.anchor(at);
            self.first_at = at;
        }
        self.group_at = at;
    }

    /// Ends the last frame or field with its last packet, at `at`, in nanoseconds of TAI.
    #[cold]
    #[inline(never)]
    pub fn end(&mut self, params: &Params, at: u64)
        requires few { self.old.firsts.seen < 2 ^ 41 }
        ensures seen { self.new.firsts.seen ≡ self.old.firsts.seen + 1 }
        ensures first { self.new.first_at ≡ self.old.first_at }
        ensures group { self.new.group_at ≡ self.old.group_at }
        ensures n0 { self.new.n0 ≡ self.old.n0 }

        // Whatever frames or fields ended before, this one now follows them.
        ensures times { (n : ℕ) (stamp : ℕ → ℕ) → TimesGroups params.now.media n self.old stamp
            → stamp (self.old.firsts.seen * n) ≡ self.old.group_at
            → stamp (self.old.firsts.seen * n + (n - 1)) ≡ at
            → TimesGroups params.now.media n self.new stamp }
    {
        let first = since_start(params, self.n0, self.firsts.seen, self.group_at);
        self.span = self.span.max(at.saturating_sub(self.group_at));
        self.firsts.feed(first);
    }

    /// Copies the state of other times, of the same frames or fields and then possibly more. It allocates no memory.
    pub fn keep(&mut self, other: &GroupTimes)
        ensures seen { self.new.firsts.seen ≡ other.now.firsts.seen }
        ensures first { self.new.first_at ≡ other.now.first_at }
        ensures group { self.new.group_at ≡ other.now.group_at }
        ensures n0 { self.new.n0 ≡ other.now.n0 }
        ensures times { (m : Media) (n : ℕ) (stamp : ℕ → ℕ) → self.old.firsts.seen ≤ other.now.firsts.seen
            → (self.old.firsts.seen ≡ 0) ⊎ (self.old.n0 ≡ other.now.n0)
            → TimesGroups m n self.old stamp → TimesGroups m n other.now stamp → TimesGroups m n self.new stamp }
    {
        self.n0 = other.n0;
        self.first_at = other.first_at;
        self.group_at = other.group_at;
        self.span = other.span;
        self.firsts.keep(&other.firsts);
    }

    /// Returns the slope of the first packets of the complete frames or fields. Returns `None` if they don't drift by
    /// more than they scatter.
    pub fn slope(&self) -> Option<Slope>
        ensures { (m : Media) (n : ℕ) (stamp : ℕ → ℕ) → TimesGroups m n self.now stamp
            → IsSlope 8 (since_at m self.now.n0 (firsts_of n stamp)) self.now.firsts.seen result }
    {
        self.firsts.slope()
    }
}
