//! The columns of a picture.

ghost use Rattle.std.specs.Prelude.{◌≡◌, ◌≤◌, ◌*◌, ◌^◌, ℤ, IfOk, map};
ghost use Rattle.std.specs.Int.{int_max, int_min};
ghost use Rattle.flow_measure.specs.Columns.{width_of};
ghost use Rattle.flow_measure.specs.Extremes.{extremes_of, joined, only};

mod curve;
mod eye;
mod slope;

pub use curve::Curve;
pub use eye::Eye;
pub use slope::Slope;
use std::alloc::{AllocError, Global};

/// The least and the greatest of some numbers, in their unit.
#[derive(Clone, Copy)]
pub struct Extremes {
    /// The least of them.
    pub least: i128,
    /// The greatest of them.
    pub greatest: i128,
}

/// A signed integer of which columns are made.
pub trait Integer: Copy + Drop {
    /// Zero.
    const ZERO: Self;

    /// The mathematical value of the number.
    ghost value: { Self → ℤ };

    /// Returns the number as an `i128`.
    fn wide(self) -> i128
        ensures { result ≡ value self };
}

impl Integer for i64 {
    const ZERO: i64 = 0;

    ghost value = { λ x. x };

    #[inline(always)]
    fn wide(self) -> i128 {
        i128::from(self)
    }
}

impl Integer for i128 {
    const ZERO: i128 = 0;

    ghost value = { λ x. x };

    #[inline(always)]
    fn wide(self) -> i128 {
        self
    }
}

/// Returns the lesser of two numbers.
#[inline(always)]
fn lesser<N: Integer>(a: N, b: N) -> N
    ensures { N.value result ≡ int_min (N.value a) (N.value b) }
{
    if b.wide() < a.wide() { b } else { a }
}

/// Returns the greater of two numbers.
#[inline(always)]
fn greater<N: Integer>(a: N, b: N) -> N
    ensures { N.value result ≡ int_max (N.value a) (N.value b) }
{
    if b.wide() < a.wide() { a } else { b }
}

/// The least and the greatest number of a column, in the type of the numbers.
#[derive(Clone, Copy)]
struct Column<N> {
    least: N,
    greatest: N,
}

impl<N: Integer> Column<N> {
    /// Returns the column of one number.
    #[inline(always)]
    fn of(number: N) -> Column<N>
        ensures { extremes_of N.value result ≡ only (N.value number) }
    {
        Column {
            least: number,
            greatest: number,
        }
    }

    /// Returns the column of the numbers of both columns.
    #[inline(always)]
    fn joined(self, other: Column<N>) -> Column<N>
        ensures { extremes_of N.value result ≡ joined (extremes_of N.value self) (extremes_of N.value other) }
    {
        Column {
            least: lesser(self.least, other.least),
            greatest: greater(self.greatest, other.greatest),
        }
    }

    /// Returns the least and the greatest number as `i128`.
    fn extremes(&self) -> Extremes
        ensures { result ≡ extremes_of N.value self.now }
    {
        Extremes {
            least: self.least.wide(),
            greatest: self.greatest.wide(),
        }
    }
}

/// Returns the least and the greatest number of each column, in order. Returns `Err` if memory runs out.
fn listed<N: Integer>(alloc: Global, columns: &[Column<N>]) -> Result<Vec<Extremes>, AllocError>
    ensures { IfOk result (λ list. list.items ≡ map (extremes_of N.value) columns.now) }
{
    columns.iter().map(|c| c.extremes()).collect(alloc)
}

/// Returns how many numbers each column of a curve takes, if the curve has `count` numbers and at most `most` columns:
/// the least power of two that suffices.
pub fn width_of(count: u64, most: u32) -> u64
    requires some { 1 ≤ most }
    requires few { count ≤ most * 2 ^ 63 }
    ensures { result ≡ width_of count most }
{
    count.div_ceil(u64::from(most)).next_power_of_two()
}
