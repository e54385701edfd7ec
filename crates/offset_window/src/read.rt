//! One read of a schedule, for every offset.

ghost use Rattle.std.specs.Prelude.{◌≡◌, ◌≤◌, ◌<◌, ◌+◌, ◌-◌, ◌*◌, ◌/◌, ◌%◌, ◌^◌, ℕ, true, false, MatchOption};
ghost use Rattle.read_schedule.specs.Parts.{parts_at};

use read_schedule::{BEFORE, Grid};

/// Greatest offset, in microseconds.
pub const MOST: u32 = 1_000_000;

/// A read of a schedule.
#[derive(Clone, Copy, Debug, PartialEq, Eq)]
pub struct Read {
    /// Reads of the schedule, with the offset 0.
    pub grid: Grid,
    /// Number of this read, counted from 0.
    pub number: u64,
    /// Position in its frame or field, counted from 0.
    place: u64,
    /// Instant with the offset 0, in parts.
    at: u128,
    ghost place_is: { number % grid.n ≡ place },
    ghost at_is: { at ≡ parts_at grid number },
}

impl Read {
    ghost use Rattle.read_schedule.specs.Parts.{parts_of};
    ghost use Rattle.offset_window.specs.Parts.{comes_after, comes_before, parts_with};

    /// Returns the read with this number.
    pub fn of(grid: Grid, number: u64) -> Read
        ensures grid { result.grid ≡ grid }
        ensures number { result.number ≡ number }
    {
        let place = number % grid.n;
        let group = u128::from(number / grid.n) * grid.group;
        let within = u128::from(place) * u128::from(grid.step);
        Read {
            grid,
            number,
            place,
            at: grid.start + group + within,
        }
    }

    /// Returns the read's instant with an offset of `micros` microseconds, in parts.
    pub fn with(&self, micros: u32) -> u128
        ensures value { result ≡ parts_with self.now.grid micros self.now.number }
        ensures small { result < 2 ^ 117 }
    {
        self.at + 1000 * u128::from(micros) * u128::from(self.grid.den)
    }

    /// Returns the number of reads after this one in its frame or field.
    pub fn left(&self) -> u64
        ensures { self.now.number % self.now.grid.n + result + 1 ≡ self.now.grid.n }
    {
        self.grid.n - 1 - self.place
    }

    /// Returns the instant `micros` microseconds before `at`, in parts.
    #[inline(always)]
    fn reached(&self, micros: u32, at: u64) -> u128
        requires { at < 2 ^ 62 }
        ensures value { result + 1000 * micros * self.now.grid.den ≡ parts_of self.now.grid at }
        ensures small { result < 2 ^ 112 }
    {
        let before = at + BEFORE - 1000 * u64::from(micros);
        u128::from(before) * u128::from(self.grid.den)
    }

    /// Returns whether a packet at `at` comes after this read with an offset of `micros` microseconds.
    #[inline(always)]
    pub fn is_before(&self, micros: u32, at: u64) -> bool
        requires { at < 2 ^ 62 }
        ensures { result ≡ comes_after self.now.grid self.now.number at micros }
    {
        self.at < self.reached(micros, at)
    }

    /// Returns whether a packet at `at` comes before this read with an offset of `micros` microseconds.
    #[inline(always)]
    pub fn is_after(&self, micros: u32, at: u64) -> bool
        requires { at < 2 ^ 62 }
        ensures { result ≡ comes_before self.now.grid self.now.number at micros }
    {
        self.at > self.reached(micros, at)
    }

    /// Returns the number of parts in a microsecond.
    fn micro(&self) -> u128
        ensures value { result ≡ 1000 * self.now.grid.den }
        ensures some { 1 ≤ result }
        ensures small { result < 2 ^ 58 }
    {
        1000 * u128::from(self.grid.den)
    }

    /// Returns the smallest offset, in microseconds, with which a packet at `at` doesn't come after this read, or
    /// `None` if it does with every offset. With the offset 0 the packet must come after the read.
    pub fn least_offset(&self, at: u64) -> Option<u32>
        requires in_time { at < 2 ^ 62 }
        requires late { comes_after self.now.grid self.now.number at 0 ≡ true }
        ensures { MatchOption result
            ((micros : ℕ) → micros ≤ 1000000
            → comes_after self.now.grid self.now.number at micros ≡ true)
            (λ micros. (0 < micros) × (micros ≤ 1000000)
            × (comes_after self.now.grid self.now.number at micros ≡ false)
            × (comes_after self.now.grid self.now.number at (micros - 1) ≡ true)) }
    {
        let late = self.reached(0, at) - self.at;
        let micros = (late - 1) / self.micro() + 1;
        if micros <= u128::from(MOST) {
            Some(micros as u32)
        } else {
            None
        }
    }

    /// Returns the greatest offset, in microseconds, with which a packet at `at` doesn't come before this read, or
    /// `None` if it does with every offset. With the offset `before` the packet must come before the read.
    pub fn greatest_offset(&self, before: u32, at: u64) -> Option<u32>
        requires in_time { at < 2 ^ 62 }
        requires early { comes_before self.now.grid self.now.number at before ≡ true }
        ensures { MatchOption result
            ((micros : ℕ) → comes_before self.now.grid self.now.number at micros ≡ true)
            (λ micros. (micros < before)
            × (comes_before self.now.grid self.now.number at micros ≡ false)
            × (comes_before self.now.grid self.now.number at (micros + 1) ≡ true)) }
    {
        let reached = self.reached(0, at);
        if reached < self.at {
            return None;
        }
        let micros = (reached - self.at) / self.micro();
        Some(micros as u32)
    }
}
