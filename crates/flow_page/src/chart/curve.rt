//! The curve of columns.

ghost use Rattle.std.specs.Prelude.{◌≡◌, ◌<◌, ◌++◌, IfOk, length, string_bytes};
ghost use Rattle.flow_page.specs.chart.Curve.{band_end, band_start, band_text, over_text, turn, under_text};
ghost use Rattle.flow_page.specs.chart.Marks.{y_of};
ghost use Rattle.flow_measure.specs.Columns.{column_at};

use crate::chart::plot::{Plot, Tenths};
use flow_measure::Extremes;
use std::alloc::AllocError as OutOfMemory;

/// Returns the y of the greatest number of a column.
fn top_of(plot: Plot, column: Extremes) -> Tenths
    ensures { result.tenths ≡ y_of plot column.greatest }
{
    plot.y(column.greatest)
}

/// Returns the y of the least number of a column.
fn bottom_of(plot: Plot, column: Extremes) -> Tenths
    ensures { result.tenths ≡ y_of plot column.least }
{
    plot.y(column.least)
}

/// Adds the start of the band.
fn add_start(text: &mut String, plot: Plot, first: Extremes) -> Result<(), OutOfMemory>
    ensures { IfOk result (λ _. string_bytes text.new ≡ string_bytes text.old ++ band_start plot first) }
{
    let (x, y) = (plot.edge(0), plot.y(first.greatest));
    write!(text, "<path class=\"band\" d=\"M{x} {y}")
}

/// Adds the path to an end of a column, and from there up or down, if the height changes.
fn add_turn(
    text: &mut String,
    plot: Plot,
    column: usize,
    before: Tenths,
    y: Tenths,
) -> Result<(), OutOfMemory>
    ensures { IfOk result (λ _. string_bytes text.new
        ≡ string_bytes text.old ++ turn plot column before.tenths y.tenths) }
{
    if y.tenths == before.tenths {
        return Ok(());
    }
    let x = plot.edge(column);
    write!(text, "H{x}V{y}")
}

/// Adds the path along the greatest numbers, to the right end.
fn add_over(text: &mut String, plot: Plot, columns: &[Extremes]) -> Result<(), OutOfMemory>
    requires { 0 < length columns.now }
    ensures { IfOk result (λ _. string_bytes text.new ≡ string_bytes text.old
        ++ over_text plot 0 (y_of plot (column_at columns.now 0).greatest) columns.now) }
{
    let mut before = top_of(plot, columns[0]);
    for (column, e) in columns.iter().enumerate() {
        let y = top_of(plot, *e);
        add_turn(text, plot, column, before, y)?;
        before = y;
    }
    let x = plot.edge(columns.len());
    write!(text, "H{x}")
}

/// Adds the path along the least numbers, back to the first column.
fn add_under(text: &mut String, plot: Plot, columns: &[Extremes]) -> Result<(), OutOfMemory>
    requires { 0 < length columns.now }
    ensures { IfOk result (λ _. string_bytes text.new
        ≡ string_bytes text.old ++ under_text plot 0 columns.now) }
{
    let mut before = top_of(plot, columns[columns.len() - 1]);
    for done in 0..columns.len() {
        let column = columns.len() - 1 - done;
        let y = bottom_of(plot, columns[column]);
        add_turn(text, plot, column + 1, before, y)?;
        before = y;
    }
    Ok(())
}

/// Adds the end of the band, where its path is closed.
fn add_end(text: &mut String, plot: Plot) -> Result<(), OutOfMemory>
    ensures { IfOk result (λ _. string_bytes text.new ≡ string_bytes text.old ++ band_end plot) }
{
    let x = plot.edge(0);
    write!(text, "H{x}Z\"/>")
}

/// Adds the band of columns in steps, from the least to the greatest number of each. Adds nothing if there is no
/// column.
pub fn add_band(text: &mut String, plot: Plot, columns: &[Extremes]) -> Result<(), OutOfMemory>
    ensures { IfOk result (λ _. string_bytes text.new ≡ string_bytes text.old ++ band_text plot columns.now) }
{
    if columns.is_empty() {
        return Ok(());
    }
    add_start(text, plot, columns[0])?;
    add_over(text, plot, columns)?;
    add_under(text, plot, columns)?;
    add_end(text, plot)
}
