//! The drift of first packets, from their curve in at most eight columns.

ghost use Rattle.std.specs.Prelude.{◌≡◌, ◌≤◌};
ghost use Rattle.flow_measure.specs.Columns.{column_at};
ghost use Rattle.flow_measure.specs.Slope.{last_full, scatter_of, slope_of};
ghost use Rattle.flow_page.specs.Timings.{scatter_in};

use flow_measure::{Extremes, Slope, width_of};

/// Returns a column; 0 to 0 if there are fewer.
fn column_at(columns: &[Extremes], column: u64) -> Extremes
    ensures { result ≡ column_at columns.now column }
{
    if column < columns.len() as u64 {
        columns[column as usize]
    } else {
        Extremes {
            least: 0,
            greatest: 0,
        }
    }
}

/// Returns the last full one of the columns of `groups` numbers, from 0.
fn last_full(groups: u64) -> u64
    ensures { result ≡ last_full groups 8 }
{
    (groups / width_of(groups, 8)).saturating_sub(1)
}

/// Returns the difference of the greatest and the least number of a column.
fn scatter_of(column: Extremes) -> u128
    ensures { result ≡ scatter_of column }
{
    column.greatest.abs_diff(column.least)
}

/// Returns the greater scatter of the first and the last full column of `groups` numbers.
pub(crate) fn scatter_in(groups: u64, columns: &[Extremes]) -> u128
    ensures { result ≡ scatter_in groups columns.now }
{
    let first = column_at(columns, 0);
    let last = column_at(columns, last_full(groups));
    scatter_of(first).max(scatter_of(last))
}

/// Returns the slope of `groups` numbers from the first of their columns, of which there are at most eight, to the last
/// full one. Returns `None` if it doesn't exceed the scatter within these columns.
pub(crate) fn slope_of(groups: u64, columns: &[Extremes]) -> Option<Slope>
    requires { 8 ≤ groups }
    ensures { result ≡ slope_of groups 8 columns.now }
{
    let last = last_full(groups);
    Slope::between(
        column_at(columns, 0),
        column_at(columns, last),
        last * width_of(groups, 8),
    )
}
