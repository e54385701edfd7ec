//! The instants between two reads.

ghost use Rattle.std.specs.Prelude.{◌≡◌, ◌≤◌, ◌<◌, ◌+◌, ◌^◌, ◌↔◌, ℕ, ℤ, Bool, IsTrue};

/// Whole nanoseconds of TAI from one read of a schedule on and before another read, for `lasts` packets. With each
/// packet both reads go on to the next.
///
/// Some of these instants may be missing; there are no others. Since both ends go on by a whole number of nanoseconds,
/// the last instants are left out from the first packet on, one for each packet.
#[derive(Clone, Copy, Debug, PartialEq, Eq)]
pub struct Between {
    /// First of the instants.
    from: u64,
    /// Number of instants.
    wide: u64,
    /// Nanoseconds by which the first instant goes on with each read: above T_RS by a nanosecond or less.
    step: u64,
    /// Number of packets for which it was made.
    pub lasts: u64,
    ghost from_small: { from < 2 ^ 63 },
    ghost wide_small: { wide ≤ 2 ^ 63 },
    ghost step_small: { step ≤ 2 ^ 51 },
}

impl Between {
    ghost use Rattle.timing_base.specs.Media.{Media};
    ghost use Rattle.read_schedule.specs.Between.{Holds, IsFrom, IsUpTo};

    /// Returns an empty set of instants.
    pub fn nothing() -> Between
        ensures { (at : ℕ) → Holds result at → ⊥ }
    {
        Between {
            from: 0,
            wide: 0,
            step: 0,
            lasts: 0,
        }
    }

    /// Returns `wide` instants from `from` on, for `lasts` packets. With each packet the first instant goes on by
    /// `step` nanoseconds.
    pub(crate) fn of(from: u64, wide: u64, step: u64, lasts: u64) -> Between
        requires from { from < 2 ^ 63 }
        requires wide { wide ≤ 2 ^ 63 }
        requires step { step ≤ 2 ^ 51 }
        ensures from { result.from ≡ from }
        ensures wide { result.wide ≡ wide }
        ensures step { result.step ≡ step }
        ensures lasts { result.lasts ≡ lasts }
    {
        Between {
            from,
            wide,
            step,
            lasts,
        }
    }

    /// Returns whether `at` is one of the instants.
    ///
    /// One comparison is enough for both ends: for an instant before the first one, the difference wraps to more than
    /// 2^63, and there are at most 2^63 instants.
    #[inline(always)]
    pub fn holds(&self, at: u64) -> bool
        ensures { IsTrue result ↔ Holds self.now at }
    {
        at.wrapping_sub(self.from) < self.wide
    }

    /// Goes on from both reads to the next ones, after a packet at `at`, which must be one of the instants.
    #[inline(always)]
    pub fn go_on(&mut self, at: u64)
        requires held { Holds self.old at }
        requires in_time { at < 2 ^ 62 }
        ensures from { (m : Media) (n : ℕ) (anchor : ℤ) (gapped : Bool) (early left : ℕ)
            → IsFrom m n anchor gapped early (left + 1) self.old
            → IsFrom m n anchor gapped (early + 1) left self.new }
        ensures up_to { (m : Media) (n : ℕ) (anchor : ℤ) (gapped : Bool) (late left : ℕ)
            → IsUpTo m n anchor gapped late (left + 1) self.old
            → IsUpTo m n anchor gapped (late + 1) left self.new }
    {
        self.from += self.step;
    }
}
