//! Whole pictures.

ghost use Rattle.std.specs.Prelude.{◌≡◌, ◌≤◌, ◌++◌, ◌*◌, ◌^◌, IfOk, pos, neg_ℤ, ◌≤ℤ◌, length, min, string_bytes};
ghost use Rattle.std.specs.Fmt.{signed_decimal};
ghost use Rattle.flow_measure.specs.Columns.{column_at};
ghost use Rattle.flow_page.specs.chart.Bars.{bars_picture, plot_of_bars};
ghost use Rattle.flow_page.specs.chart.Charts.{axis_over, bars_axis, bars_figure, bars_panel, bounded, curve_axis};
ghost use Rattle.flow_page.specs.chart.Charts.{curve_figure, curve_text, most_of, number_room, over_columns};
ghost use Rattle.flow_page.specs.chart.Charts.{over_lines, panel_of, plot_of, room_of, wider};

use crate::chart::axis::Axis;
use crate::chart::bars::{Bar, add_bars};
use crate::chart::curve::add_band;
use crate::chart::figure::{add_figure_end, add_figure_start};
use crate::chart::grid::{
    Unit, UnitAcross, add_frame_rules, add_grid, add_marks_across, add_units, shown,
};
use crate::chart::lines::{Limit, add_lines};
use crate::chart::plot::{Across, Panel, Plot};
use crate::chart::shade::{Shade, add_shade};
use flow_measure::Extremes;
use std::alloc::{AllocError as OutOfMemory, Global};

/// The greatest absolute number on an axis.
const FAR: i128 = 1 << 61;

/// The two directions of a curve's picture.
#[derive(Clone, Copy)]
pub struct Scene {
    /// Whether the picture is as wide as the page. Other pictures stand in pairs, side by side.
    pub wide: bool,
    /// The unit of its numbers.
    pub unit: Unit,
    /// The unit of its places, from left to right.
    pub along: UnitAcross,
    /// The places from left to right.
    pub across: Across,
    /// The places per frame or field; 0 if their ends aren't marked.
    pub every: u64,
    /// The shaded places, counted from the first in the picture.
    pub shade: Option<Shade>,
}

/// Returns the least and the greatest of two pairs.
fn wider(a: Extremes, b: Extremes) -> Extremes
    ensures { result ≡ wider a b }
{
    Extremes {
        least: a.least.min(b.least),
        greatest: a.greatest.max(b.greatest),
    }
}

/// Returns the first column, or 0 to 0 if there is none.
fn first_of(columns: &[Extremes]) -> Extremes
    ensures { result ≡ column_at columns.now 0 }
{
    if columns.is_empty() {
        Extremes {
            least: 0,
            greatest: 0,
        }
    } else {
        columns[0]
    }
}

/// Returns the least and the greatest number of columns.
fn over_columns(columns: &[Extremes]) -> Extremes
    ensures { result ≡ over_columns (column_at columns.now 0) columns.now }
{
    let mut reach = first_of(columns);
    for column in columns {
        reach = wider(reach, *column);
    }
    reach
}

/// Returns the least and the greatest of a pair and of the numbers of lines.
fn over_lines(reached: Extremes, lines: &[Limit]) -> Extremes
    ensures { result ≡ over_lines reached lines.now }
{
    let mut reach = reached;
    for line in lines {
        let pair = Extremes {
            least: line.at,
            greatest: line.at,
        };
        reach = wider(reach, pair);
    }
    reach
}

/// Returns a number, limited to what an axis can show.
fn bounded(number: i128) -> i64
    ensures value { result ≡ bounded number }
    ensures low { neg_ℤ (pos (2 ^ 61)) ≤ℤ result }
    ensures high { result ≤ℤ pos (2 ^ 61) }
{
    number.min(FAR).max(-FAR) as i64
}

/// Returns the axis from the least to the greatest number.
fn axis_over(reach: Extremes) -> Axis
    ensures { result ≡ axis_over reach }
{
    let least = bounded(reach.least);
    let greatest = bounded(reach.greatest).max(least);
    Axis::of(least, greatest)
}

/// Returns a number in decimal.
fn number_text(alloc: Global, number: i128) -> Result<String, OutOfMemory>
    ensures { IfOk result (λ s. string_bytes s ≡ signed_decimal number) }
{
    format!(in alloc; "{number}")
}

/// Returns the width of a number, in tenths of an SVG unit.
fn number_room(alloc: Global, number: i128) -> Result<u32, OutOfMemory>
    ensures value { IfOk result (λ room. room ≡ number_room number) }
    ensures bound { IfOk result (λ room. room ≤ 3120) }
{
    let text = number_text(alloc, number)?;
    let digits = text.len().min(40) as u32;
    Ok(78 * digits)
}

/// Returns the width of the numbers of an axis with their distance to its line, in tenths of an SVG unit.
fn room_of(alloc: Global, unit: Unit, axis: Axis) -> Result<u32, OutOfMemory>
    ensures value { IfOk result (λ room. room ≡ room_of unit axis) }
    ensures bound { IfOk result (λ room. room ≤ 3280) }
{
    let low = number_room(alloc, shown(unit, axis, 0))?;
    let high = number_room(alloc, shown(unit, axis, axis.steps))?;
    Ok(160 + low.max(high))
}

/// Returns the panel to the right of a margin of `room` tenths of an SVG unit.
fn panel_of(wide: bool, room: u32) -> Panel
    requires { room ≤ 3280 }
    ensures { result ≡ panel_of wide room }
{
    let (left, top, height) = (room, 200, 1600);
    let width = if wide { 12_000 - room } else { 5400 - room };
    Panel {
        left,
        width,
        top,
        height,
    }
}

/// Returns the plot of a scene over an axis.
fn plot_of(alloc: Global, scene: Scene, axis: Axis) -> Result<Plot, OutOfMemory>
    ensures { IfOk result (λ plot. plot ≡ plot_of scene axis) }
{
    let room = room_of(alloc, scene.unit, axis)?;
    Ok(Plot {
        panel: panel_of(scene.wide, room),
        axis,
        across: scene.across,
    })
}

/// Adds the curve of columns over its grid, and the lines of limits over it.
fn add_curve(
    text: &mut String,
    plot: Plot,
    scene: Scene,
    lines: &[Limit],
    columns: &[Extremes],
) -> Result<(), OutOfMemory>
    requires { plot.across.count ≤ 2 ^ 60 }
    ensures { IfOk result (λ _. string_bytes text.new
        ≡ string_bytes text.old ++ curve_text plot scene lines.now columns.now) }
{
    add_grid(text, plot, scene.unit)?;
    add_marks_across(text, plot)?;
    add_units(text, plot, scene.unit, scene.along)?;
    add_frame_rules(text, plot, scene.every)?;
    add_shade(text, plot, scene.unit, scene.shade)?;
    add_band(text, plot, columns)?;
    add_lines(text, plot, lines)
}

/// Returns the axis of columns and lines.
pub fn curve_axis(lines: &[Limit], columns: &[Extremes]) -> Axis
    ensures { result ≡ curve_axis lines.now columns.now }
{
    axis_over(over_lines(over_columns(columns), lines))
}

/// Adds the picture of columns with its title, the text beside it, which is HTML, and the lines of limits. Its axis
/// includes all columns and lines.
pub fn add_curve_figure(
    text: &mut String,
    alloc: Global,
    title: &str,
    detail: &str,
    scene: Scene,
    lines: &[Limit],
    columns: &[Extremes],
) -> Result<(), OutOfMemory>
    requires { scene.across.count ≤ 2 ^ 60 }
    ensures { IfOk result (λ _. string_bytes text.new
        ≡ string_bytes text.old ++ curve_figure title.now detail.now scene lines.now columns.now) }
{
    let plot = plot_of(alloc, scene, curve_axis(lines, columns))?;
    add_figure_start(text, scene.wide, title, detail)?;
    add_curve(text, plot, scene, lines, columns)?;
    add_figure_end(text)
}

/// Returns the greatest count of a bar.
fn most_of(bars: &[Bar]) -> u64
    ensures { result ≡ most_of 0 bars.now }
{
    let mut most: u64 = 0;
    for bar in bars {
        most = most.max(bar.count);
    }
    most
}

/// Returns the axis of the counts of bars.
fn bars_axis(bars: &[Bar]) -> Axis
    ensures { result ≡ bars_axis bars.now }
{
    axis_over(Extremes {
        least: 0,
        greatest: i128::from(most_of(bars)),
    })
}

/// Returns the panel of bars over an axis.
fn bars_panel(alloc: Global, axis: Axis) -> Result<Panel, OutOfMemory>
    ensures { IfOk result (λ panel. panel ≡ bars_panel axis) }
{
    let room = room_of(alloc, Unit::Packets, axis)?;
    Ok(panel_of(false, room))
}

/// Adds the picture of bars with its title and the text beside it, which is HTML. `total` is the count of all numbers.
pub fn add_bars_figure(
    text: &mut String,
    alloc: Global,
    title: &str,
    detail: &str,
    along: UnitAcross,
    total: u64,
    bars: &[Bar],
) -> Result<(), OutOfMemory>
    ensures { IfOk result (λ _. string_bytes text.new
        ≡ string_bytes text.old ++ bars_figure title.now detail.now along total bars.now) }
{
    let axis = bars_axis(bars);
    let panel = bars_panel(alloc, axis)?;
    add_figure_start(text, false, title, detail)?;
    add_bars(text, panel, axis, Unit::Packets, along, total, bars)?;
    add_figure_end(text)
}
