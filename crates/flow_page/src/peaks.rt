//! Where a picture has its greatest number, in words.

ghost use Rattle.std.specs.Prelude.{◌≡◌};
ghost use Rattle.flow_page.specs.Peaks.{peak_from, peak_text, place_first, place_last, places_text};

use crate::chart::Across;
use flow_measure::Extremes;
use std::fmt;

/// The text on the places of a column.
#[derive(Clone, Copy)]
pub(crate) struct PeakText {
    /// What one place is called, in the singular.
    noun: &'static str,
    /// The first place of the column, from 0.
    first: u128,
    /// The last place of the column.
    last: u128,
}

impl fmt::Display for PeakText {
    ghost use Rattle.std.specs.Prelude.{Some};
    ghost use Rattle.flow_page.specs.Peaks.{places_text};

    ghost output = { λ peak. Some (places_text peak.noun.now peak.first peak.last) };

    #[tactic(auto, unfolding(crate::specs::Peaks::places_text))]
    fn fmt<W: fmt::Write>(&self, f: &mut fmt::Formatter<W>) -> fmt::Result {
        if self.first == self.last {
            write!(f, ", first at {} {}", self.noun, self.first)
        } else {
            write!(
                f,
                ", first within {}s {} to {}",
                self.noun, self.first, self.last
            )
        }
    }
}

/// Returns the number of the first column that reaches a number, from 0; the count of columns if none does.
fn peak_from(columns: &[Extremes], most: i128) -> usize
    ensures { result ≡ peak_from most 0 columns.now }
{
    for (at, column) in columns.iter().enumerate() {
        if column.greatest >= most {
            return at;
        }
    }
    columns.len()
}

/// Returns the first place of a column, from 0.
fn place_first(across: Across, column: usize) -> u128
    ensures { result ≡ place_first across column }
{
    column as u128 * u128::from(across.each)
}

/// Returns the last place of a column, from 0.
fn place_last(across: Across, column: usize) -> u128
    ensures { result ≡ place_last across column }
{
    let end = (column as u128 + 1) * u128::from(across.each);
    end.min(u128::from(across.count)).saturating_sub(1)
}

/// Returns where the columns reach `most` first. `noun` is what one place is called.
pub(crate) fn peak_of(
    noun: &'static str,
    across: Across,
    most: i128,
    columns: &[Extremes],
) -> PeakText
    ensures { places_text result.noun.now result.first result.last ≡ peak_text noun.now across most columns.now }
{
    let column = peak_from(columns, most);
    PeakText {
        noun,
        first: place_first(across, column),
        last: place_last(across, column),
    }
}
