//! The packets that move neither end of a window.

ghost use Rattle.std.specs.Prelude.{◌≡◌, ◌≤◌, ◌<◌, ◌+◌, ◌-◌, ◌*◌, ◌^◌, ℕ, true};

use crate::read::Read;
use read_schedule::{BEFORE, Grid};

/// Width in nanoseconds that is as good as no limit.
const WIDEST: u128 = 1 << 61;

/// Next packets that move neither end, if each comes in its span of time. The spans end at an instant that goes on with
/// each packet as the reads do.
#[derive(Clone, Copy, Debug, PartialEq, Eq)]
pub struct Quiet {
    /// Packet, counted from 0, before which the quiet packets end.
    pub until: u64,
    /// End of the next packet's span, in 2^-64 nanoseconds from 2^49 ns before 0 on.
    front: u128,
    /// Amount by which `front` goes on with each packet.
    step: u128,
    /// Nanoseconds before `front` from which on the packet may come.
    width: u64,
    /// Number of packets that the buffer may hold.
    pub back: u64,
    ghost width_small: { width < 2 ^ 62 },
    ghost step_small: { step < 2 ^ 105 },
}

impl Quiet {
    ghost use Rattle.read_schedule.specs.declared.grid.Grid.{Grid};
    ghost use Rattle.offset_window.specs.Parts.{parts_with};
    ghost use Rattle.offset_window.specs.Quiets.{Holds, IsBetween, IsQuiet};

    /// Returns an empty sequence of packets.
    pub fn over() -> Quiet
        ensures { result.until ≡ 0 }
    {
        Quiet {
            until: 0,
            front: 0,
            step: 0,
            width: 0,
            back: 0,
        }
    }

    /// Returns the quiet packets after the first `seen`, of a flow with these reads and a buffer that may hold `full`
    /// packets. With the offset `late` none of them comes after its own read, and with the offset `early` none comes
    /// before the read that makes room for it. Offsets are in microseconds.
    pub fn after(grid: &Grid, late: u32, early: u32, full: u64, seen: u64) -> Quiet
        requires { seen ≤ 2 ^ 41 }
        ensures back { seen < result.until → result.back ≡ full }
        ensures quiet { seen < result.until → IsQuiet grid.now late early seen result }
    {
        if seen < full {
            return Quiet::over();
        }
        let own = Read::of(*grid, seen);
        let freeing = Read::of(*grid, seen - full);
        let left = own.left().min(freeing.left());
        Quiet::between(grid, freeing.with(early), own.with(late), seen + left, full)
    }

    /// Returns the quiet packets before packet `until`. The next one may come from `first` to `last`, in parts.
    fn between(grid: &Grid, first: u128, last: u128, until: u64, back: u64) -> Quiet
        requires first { first < 2 ^ 117 }
        requires last { last < 2 ^ 117 }
        ensures until { result.until ≤ until }
        ensures back { 0 < result.until → result.back ≡ back }
        ensures between { 0 < result.until → IsBetween grid.now first last result }
    {
        let den = u128::from(grid.den);
        let whole = last / den;
        if whole >= 1 << 63 || last < first + 2 * den {
            return Quiet::over();
        }
        let part = (((last % den + 1) << 64) - 1) / den;
        Quiet {
            until,
            front: (whole << 64) + part,
            step: (u128::from(grid.step) << 64) / den,
            width: ((last - first) / den - 2).min(WIDEST) as u64,
            back,
        }
    }

    /// Returns whether the packet after the first `seen` comes in its span, and so moves neither end.
    #[inline(always)]
    pub fn has(&self, seen: u64, at: u64) -> bool
        requires { at < 2 ^ 62 }
        ensures { result ≡ true → Holds self.now seen at }
    {
        let last = (self.front >> 64) as u64;
        let reached = at + BEFORE;
        seen < self.until && reached <= last && last - reached <= self.width
    }

    /// Goes on by one packet.
    #[inline(always)]
    pub fn go_on(&mut self)
        requires { self.old.front < 2 ^ 127 + 2 ^ 120 }
        ensures until { self.new.until ≡ self.old.until }
        ensures front { self.new.front ≡ self.old.front + self.old.step }
        ensures step { self.new.step ≡ self.old.step }
        ensures width { self.new.width ≡ self.old.width }
        ensures back { self.new.back ≡ self.old.back }
    {
        self.front += self.step;
    }
}
