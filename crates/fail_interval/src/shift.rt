//! The shift of capture timestamps in nanoseconds alone.

ghost use Rattle.std.specs.Prelude.{◌≡◌, ◌<◌, ◌*◌, ◌^◌};
ghost use Rattle.timing_base.specs.Captures.{IsStamp};

use std::marker::Model;
use timing_base::Shift;

/// A shift whose seconds are held as nanoseconds, so that no packet needs a multiplication.
#[derive(Drop)]
pub struct NanosecondShift {
    /// The nanoseconds that are added: a multiple of 10^9, at most 10^12.
    added: u64,
    /// The nanoseconds that are then subtracted, 0 to 999,999,999.
    delay: u64,
}

impl Model for NanosecondShift {
    ghost use Rattle.std.specs.Prelude.{◌≡◌, ◌*◌, ◌/◌, ◌^◌};
    ghost use Rattle.timing_base.specs.Shifts.{IsShift, Shift as Seen};

    ghost Value = { Seen };

    ghost view = { λ shift. record { tai = shift.added / 10 ^ 9; delay = shift.delay } };

    ghost invariant = { λ shift. (shift.added ≡ shift.added / 10 ^ 9 * 10 ^ 9) × IsShift (view shift) };
}

impl NanosecondShift {
    ghost use Rattle.timing_base.specs.Shifts.{shifted};

    /// Returns this shift with its seconds as nanoseconds.
    pub fn of(shift: Shift) -> NanosecondShift
        ensures { result ≡ shift }
    {
        NanosecondShift {
            added: shift.tai * 1_000_000_000,
            delay: shift.delay,
        }
    }

    /// Returns a capture timestamp in nanoseconds after the shift, 0 if it would be below 0.
    #[inline(always)]
    pub fn stamp(&self, at: u64) -> u64
        requires { IsStamp at }
        ensures is { result ≡ shifted self.now at }
        ensures early { result < 2 ^ 62 }
    {
        (at + self.added).saturating_sub(self.delay)
    }
}
