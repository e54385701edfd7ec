//! A drift of numbers that exceeds their scatter.

ghost use Rattle.std.specs.Prelude.{◌≡◌};
ghost use Rattle.flow_measure.specs.Slope.{scatter_of, slope_between};

use super::Extremes;

/// A rise or fall of numbers.
#[derive(Clone, Copy)]
pub struct Slope {
    /// Whether the numbers fall.
    pub falls: bool,
    /// The amount of the rise or fall, in the unit of the numbers.
    pub by: u128,
    /// The count of numbers over which they rise or fall by that amount.
    pub over: u64,
}

impl Slope {
    /// Returns the slope from the first column to a column `over` numbers later. Returns `None` unless the least
    /// numbers of the two columns differ by more than the numbers within either column do.
    pub fn between(first: Extremes, last: Extremes, over: u64) -> Option<Slope>
        ensures { result ≡ slope_between first last over }
    {
        let by = last.least.abs_diff(first.least);
        if by > scatter_of(first).max(scatter_of(last)) {
            Some(Slope {
                falls: last.least < first.least,
                by,
                over,
            })
        } else {
            None
        }
    }
}

/// Returns the difference of the greatest and the least number of a column.
fn scatter_of(column: Extremes) -> u128
    ensures { result ≡ scatter_of column }
{
    column.greatest.abs_diff(column.least)
}
