//! Bits of a word, by position.

ghost use Rattle.std.specs.Prelude.{◌≡◌, ◌≢◌, ◌<◌, ◌==◌, ℕ};
ghost use Rattle.std.specs.Int.{bit_at};
ghost use Rattle.path_skew.specs.Items.{ones_below};

/// Returns whether the bit at this position is set.
#[inline(always)]
pub fn has(bits: u32, place: u32) -> bool
    requires { place < 32 }
    ensures { result ≡ (bit_at bits place == 1) }
{
    bits >> place & 1 == 1
}

/// Returns the bits with the one at this position set.
#[inline(always)]
pub fn with(bits: u32, place: u32) -> u32
    requires { place < 32 }
    ensures here { bit_at result place ≡ 1 }
    ensures others { (i : ℕ) → i ≢ place → bit_at result i ≡ bit_at bits i }
{
    bits | 1 << place
}

/// Returns the bits with the one at this position cleared.
#[inline(always)]
pub fn without(bits: u32, place: u32) -> u32
    requires { place < 32 }
    ensures here { bit_at result place ≡ 0 }
    ensures others { (i : ℕ) → i ≢ place → bit_at result i ≡ bit_at bits i }
{
    bits & !(1 << place)
}

/// Returns the number of bits set below this position.
#[inline(always)]
pub fn ones_below(bits: u32, place: u32) -> usize
    requires { place < 32 }
    ensures { result ≡ ones_below bits place }
{
    (bits % (1 << place)).count_ones() as usize
}
