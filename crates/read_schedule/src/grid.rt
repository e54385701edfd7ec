//! The reads of one schedule, in whole numbers.

ghost use Rattle.std.specs.Prelude.{◌≡◌, ◌≤◌, ◌<◌, ◌+◌, ◌-◌, ◌*◌, ◌^◌, ℕ, true, false, cond};
ghost use Rattle.std.specs.Prelude.{pos, negsuc, ◌≤ℤ◌, ◌+ℤ◌};

use sender_params::{Params, sizes_of};

/// Nanoseconds before 0 of TAI from which the instants of a grid are counted. No read is earlier.
pub const BEFORE: u64 = 1 << 49;

/// Maximum number of frames or fields by which the first read may be before 0 of TAI.
const GROUPS_BEFORE: u32 = 480;

/// Reads of one schedule, in parts of 1 / `den` nanoseconds. Read k * `n` + j is at `start + k * group + j * step`; it
/// is read j of frame or field k after the first.
#[derive(Clone, Copy, Debug, PartialEq, Eq)]
pub struct Grid {
    /// Number of parts in a nanosecond.
    pub den: u64,
    /// Reads per frame or field.
    pub n: u64,
    /// Time from one read of a frame or field to the next, in parts.
    pub step: u64,
    /// Time from one frame or field to the next, in parts.
    pub group: u128,
    /// Instant of read 0, in parts.
    pub start: u128,
    ghost den_some: { 1 ≤ den },
    ghost den_small: { den < 2 ^ 48 },
    ghost n_some: { 1 ≤ n },
    ghost n_most: { n ≤ 262144 },
    ghost step_slow: { den ≤ step },
    ghost step_small: { step < 2 ^ 51 },
    ghost group_fits: { n * step ≤ group },
    ghost group_slow: { n * den ≤ group },
    ghost group_small: { group ≤ n * 2 ^ 51 },
    ghost group_most: { group ≤ 2 ^ 40 * den },
    ghost start_small: { start < 2 ^ 113 },
}

impl Grid {
    ghost use Rattle.read_schedule.specs.Parts.{IsGridOf, IsGridWithout, parts_at};

    /// Returns the reads of the gapped or the linear schedule. Read 0 is of frame or field `n0`, counted from the
    /// epoch.
    pub fn of(params: &Params, gapped: bool, n0: i128) -> Grid
        requires low { negsuc 479 ≤ℤ n0 }
        requires high { n0 ≤ℤ pos (2 ^ 42) }
        ensures { IsGridOf params.now.media params.now.n n0 gapped result }
    {
        Grid::begun(params, gapped, n0, true)
    }

    /// Returns the reads of the gapped or the linear schedule with the offset 0. Read 0 is of frame or field `n0`,
    /// counted from the epoch.
    pub fn without_offset(params: &Params, gapped: bool, n0: i128) -> Grid
        requires low { negsuc 479 ≤ℤ n0 }
        requires high { n0 ≤ℤ pos (2 ^ 42) }
        ensures { IsGridWithout params.now.media params.now.n n0 gapped result }
    {
        Grid::begun(params, gapped, n0, false)
    }

    /// Returns the reads of one schedule, with TR_OFFSET or with the offset 0.
    fn begun(params: &Params, gapped: bool, n0: i128, has_offset: bool) -> Grid
        requires low { negsuc 479 ≤ℤ n0 }
        requires high { n0 ≤ℤ pos (2 ^ 42) }
        ensures with { has_offset ≡ true → IsGridOf params.now.media params.now.n n0 gapped result }
        ensures without { has_offset ≡ false → IsGridWithout params.now.media params.now.n n0 gapped result }
    {
        let sizes = sizes_of(params, gapped);
        let early = u128::from(BEFORE) * sizes.den - u128::from(GROUPS_BEFORE) * sizes.group;
        Grid {
            den: sizes.den as u64,
            n: u64::from(params.n()),
            step: sizes.step as u64,
            group: sizes.group,
            start: lifted(n0) * sizes.group + early + offset_if(has_offset, sizes.offset),
        }
    }

    /// Returns the instant of read `x`, in parts.
    pub(crate) fn instant(&self, x: u64) -> u128
        ensures value { result ≡ parts_at self.now x }
        ensures small { result < 2 ^ 116 }
    {
        let group = u128::from(x / self.n) * self.group;
        let place = u128::from(x % self.n) * u128::from(self.step);
        self.start + group + place
    }

    /// Returns the number of reads up to the whole nanosecond `t`, counted from [`BEFORE`].
    pub(crate) fn count(&self, t: u64) -> u64
        requires in_time { t < 2 ^ 63 }
        ensures due { (x : ℕ) → x < result → parts_at self.now x ≤ t * self.now.den }
        ensures ahead { (x : ℕ) → result ≤ x → t * self.now.den < parts_at self.now x }
    {
        let reached = u128::from(t) * u128::from(self.den);
        if reached < self.start {
            return 0;
        }
        let since = reached - self.start;
        let place = (since % self.group / u128::from(self.step)) as u64;
        (since / self.group) as u64 * self.n + place.min(self.n - 1) + 1
    }

    /// Returns the time from the last read of a frame or field to the first of the next, in parts.
    pub fn turn(&self) -> u128
        ensures value { result + (self.now.n - 1) * self.now.step ≡ self.now.group }
        ensures low { self.now.step ≤ result }
        ensures high { result ≤ self.now.group }
    {
        self.group - u128::from(self.n - 1) * u128::from(self.step)
    }
}

/// Returns the offset if `has_offset` is set, else 0.
fn offset_if(has_offset: bool, offset: u128) -> u128
    ensures { result ≡ cond has_offset offset 0 }
{
    if has_offset { offset } else { 0 }
}

/// Returns the number of a frame or field, counted from the earliest that is possible.
fn lifted(n0: i128) -> u128
    requires low { negsuc 479 ≤ℤ n0 }
    requires high { n0 ≤ℤ pos (2 ^ 42) }
    ensures value { pos result ≡ n0 +ℤ pos 480 }
    ensures small { result ≤ 2 ^ 42 + 480 }
{
    (n0 + i128::from(GROUPS_BEFORE)) as u128
}
