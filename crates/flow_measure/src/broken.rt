//! The count of frames or fields that have a broken packet.

ghost use Rattle.std.specs.Prelude.{◌≡◌, ◌<◌, ◌≤◌, ◌+◌, ◌*◌, ◌^◌, ◌||◌, ℕ, Bool};

/// A counter of the frames or fields so far that have a broken packet.
#[derive(Clone, Copy)]
pub struct BrokenGroups {
    /// The count of frames or fields that are complete.
    pub whole: u64,
    /// The count of complete frames or fields that have a broken packet.
    broken: u64,
    /// Whether the current frame or field has a broken packet so far.
    here: bool,
    ghost broken_few: { broken ≤ whole },
}

impl BrokenGroups {
    ghost use Rattle.flow_measure.specs.Broken.{broken_groups};
    ghost use Rattle.flow_measure.specs.Stands.{CountsBroken};

    /// Returns the counter before the first packet.
    pub fn new() -> BrokenGroups
        ensures whole { result.whole ≡ 0 }
        ensures stands { (n : ℕ) (broken : ℕ → Bool) → CountsBroken n result broken 0 }
    {
        BrokenGroups {
            whole: 0,
            broken: 0,
            here: false,
        }
    }

    /// Takes the next `times` packets, which belong to one frame or field. `is_broken` is whether they are broken: all
    /// of them or none.
    #[inline(always)]
    pub fn feed(&mut self, is_broken: bool, times: u64)
        requires { 1 ≤ times }
        ensures whole { self.new.whole ≡ self.old.whole }

        // Whatever packets the counter was fed before, these packets now follow them.
        ensures stands { (n : ℕ) (broken : ℕ → Bool) (seen : ℕ) → CountsBroken n self.old broken seen
            → ((j : ℕ) → j < times → broken (seen + j) ≡ is_broken)
            → CountsBroken n self.new broken (seen + times) }
    {
        self.here = either(self.here, is_broken);
    }

    /// Completes the current frame or field.
    #[inline(always)]
    pub fn end_group(&mut self)
        requires { self.old.whole < 2 ^ 63 }
        ensures whole { self.new.whole ≡ self.old.whole + 1 }
        ensures stands { (n : ℕ) (broken : ℕ → Bool) (seen : ℕ) → CountsBroken n self.old broken seen
            → seen ≡ self.old.whole * n + n → CountsBroken n self.new broken seen }
    {
        self.broken += u64::from(self.here);
        self.whole += 1;
        self.here = false;
    }

    /// Returns how many of the complete frames or fields have a broken packet.
    pub fn count(&self) -> u64
        ensures { (n : ℕ) (broken : ℕ → Bool) (seen : ℕ) → CountsBroken n self.now broken seen
            → result ≡ broken_groups n broken self.now.whole }
    {
        self.broken
    }
}

/// Returns whether at least one of two tests passes.
#[inline(always)]
pub fn either(first: bool, second: bool) -> bool
    ensures { result ≡ first || second }
{
    first || second
}
