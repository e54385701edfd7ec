//! The reads of one schedule, in whole numbers.

ghost use Rattle.std.specs.Prelude.{◌≡◌, ◌≤◌, ◌<◌, ◌+◌, ◌*◌, ◌/◌, ◌^◌, ℕ, ℤ, Bool};
ghost use Rattle.std.specs.Prelude.{pos, negsuc, ◌≤ℤ◌, ◌+ℤ◌};
ghost use Rattle.fraction128.specs.Fractions.{at_most, below, whole};
ghost use Rattle.timing_base.specs.Media.{Media as MediaValue};
ghost use Rattle.sender_params.specs.Reads.{anchor_of, read_of};

use sender_params::{Params, sizes_of};

/// Maximum number of frames or fields by which the first read may be before 0 of TAI.
const GROUPS_BEFORE: u32 = 480;

/// Reads of one schedule (SMPTE ST 2110-21, read schedules), in parts of a nanosecond, from 480 frames or fields before
/// 0 of TAI on, so that none is negative. Read x is read x % `n` of frame or field x / `n`.
#[derive(Clone, Copy)]
pub struct Reads {
    /// Number of parts in a nanosecond.
    den: u128,
    /// Reads per frame or field.
    n: u64,
    /// Time from one read of a frame or field to the next, in parts.
    step: u128,
    /// Time from one frame or field to the next, in parts.
    group: u128,
    /// Instant of read 0, in parts.
    start: u128,
    ghost den_some: { 1 ≤ den },
    ghost den_small: { den < 2 ^ 48 },
    ghost n_some: { 1 ≤ n },
    ghost n_most: { n ≤ 262144 },
    ghost step_small: { step < 2 ^ 51 },
    ghost group_fits: { n * step ≤ group },
    ghost group_small: { group ≤ n * 2 ^ 51 },
    ghost start_small: { start < 2 ^ 113 },
}

impl Reads {
    ghost use Rattle.interval_checker.specs.Schedule.{AreReads, parts_at, parts_of};

    /// Returns the reads of the gapped or the linear schedule of a sender with a first packet at `a0`, in nanoseconds
    /// of TAI.
    pub fn of(params: &Params, gapped: bool, a0: u64) -> Reads
        requires { a0 < 2 ^ 62 }
        ensures { AreReads params.now.media params.now.n (anchor_of params.now.media a0) gapped result }
    {
        let anchor = params.anchor(a0);
        let sizes = sizes_of(params, gapped);
        Reads {
            den: sizes.den,
            n: u64::from(params.n()),
            step: sizes.step,
            group: sizes.group,
            start: lifted(anchor) * sizes.group + sizes.offset,
        }
    }

    /// Returns the instant of read `x`, in parts.
    fn read(&self, x: u64) -> u128
        ensures { result ≡ parts_at self.now x }
    {
        let group = u128::from(x / self.n) * self.group;
        let place = u128::from(x % self.n) * self.step;
        self.start + group + place
    }

    /// Returns the instant `at`, in nanoseconds of TAI, in parts.
    fn instant(&self, at: u64) -> u128
        requires { at < 2 ^ 62 }
        ensures { result ≡ parts_of self.now at }
    {
        u128::from(at) * self.den + u128::from(GROUPS_BEFORE) * self.group
    }

    /// Returns whether read `x` is at the instant `at` or before it.
    pub fn is_due(&self, x: u64, at: u64) -> bool
        requires { at < 2 ^ 62 }
        ensures { (m : MediaValue) (n : ℕ) (anchor : ℤ) (gapped : Bool)
            → AreReads m n anchor gapped self.now
            → result ≡ at_most (read_of m n anchor gapped x) (whole at) }
    {
        self.read(x) <= self.instant(at)
    }

    /// Returns whether read `x` is before the instant `at`.
    pub fn is_before(&self, x: u64, at: u64) -> bool
        requires { at < 2 ^ 62 }
        ensures { (m : MediaValue) (n : ℕ) (anchor : ℤ) (gapped : Bool)
            → AreReads m n anchor gapped self.now
            → result ≡ below (read_of m n anchor gapped x) (whole at) }
    {
        self.read(x) < self.instant(at)
    }
}

/// Returns the number of a frame or field, counted from the earliest that is possible.
fn lifted(anchor: i128) -> u128
    requires low { negsuc 479 ≤ℤ anchor }
    requires high { anchor ≤ℤ pos (2 ^ 42) }
    ensures value { pos result ≡ anchor +ℤ pos 480 }
    ensures small { result ≤ 2 ^ 42 + 480 }
{
    (anchor + i128::from(GROUPS_BEFORE)) as u128
}
