//! Bars of bins and classes.

ghost use Rattle.std.specs.Prelude.{◌≡◌, ◌≤◌, ◌+◌, ◌-◌, ◌++◌, IfOk, length, string_bytes};
ghost use Rattle.flow_page.specs.chart.Bars.{bar_label, bar_name, bar_piece, bar_shape, bar_style, bar_text, bar_x};
ghost use Rattle.flow_page.specs.chart.Bars.{bars_picture, bars_text, has_name, label_step, limit_before, limit_line};
ghost use Rattle.flow_page.specs.chart.Bars.{limit_number, plot_of_bars, share_of, some_label, some_share, told_text};
ghost use Rattle.flow_page.specs.chart.Marks.{tenths};

use crate::chart::axis::Axis;
use crate::chart::grid::{Unit, UnitAcross, add_grid, add_units};
use crate::chart::plot::{Across, Panel, Plot, Tenths};
use std::alloc::AllocError as OutOfMemory;
use std::fmt;

/// The numbers that a bar counts.
#[derive(Clone, Copy)]
pub enum BarName {
    /// Numbers below 0, which are beyond a limit.
    Below,
    /// Numbers from this one up to that of the next bar.
    From(u128),
    /// Numbers above this limit.
    Above(u64),
}

/// A bar.
#[derive(Clone, Copy)]
pub struct Bar {
    /// The numbers that it counts.
    pub name: BarName,
    /// How many of them there are.
    pub count: u64,
}

impl fmt::Display for BarName {
    ghost use Rattle.std.specs.Prelude.{Some};
    ghost use Rattle.flow_page.specs.chart.Bars.{bar_name};

    ghost output = { λ name. Some (bar_name name) };

    fn fmt<W: fmt::Write>(&self, f: &mut fmt::Formatter<W>) -> fmt::Result {
        match *self {
            BarName::Below => f.write_str("below 0"),
            BarName::From(first) => write!(f, "{first}"),
            BarName::Above(limit) => write!(f, "above {limit}"),
        }
    }
}

/// A label of a bar.
#[derive(Clone, Copy)]
enum BarTold {
    /// The name of the bar.
    Name(BarName),
    /// The share of all numbers, in tenths of a percent.
    Share(u128),
}

impl fmt::Display for BarTold {
    ghost use Rattle.std.specs.Prelude.{Some};
    ghost use Rattle.flow_page.specs.chart.Bars.{told_text};

    ghost output = { λ told. Some (told_text told) };

    fn fmt<W: fmt::Write>(&self, f: &mut fmt::Formatter<W>) -> fmt::Result {
        match *self {
            BarTold::Name(name) => write!(f, "{name}"),
            BarTold::Share(share) => {
                if share == 0 {
                    f.write_str("&lt;0.1 %")
                } else {
                    let share = Tenths { tenths: share };
                    write!(f, "{share} %")
                }
            }
        }
    }
}

/// Returns the CSS class of a bar.
fn bar_style(name: BarName) -> &'static str
    ensures { result.now ≡ bar_style name }
{
    match name {
        BarName::From(_) => "bar",
        _ => "bar over",
    }
}

/// Returns the x at `tenth` tenths of a bar's place from the left end of the place. Bars count from 0.
#[tactic(auto, unfolding(crate::specs::chart::Bars::bar_x))]
fn bar_x(plot: Plot, bar: usize, tenth: u32) -> Tenths
    ensures { result ≡ tenths (bar_x plot bar tenth) }
{
    let at = 10 * bar as u128 + u128::from(tenth);
    let places = (10 * u128::from(plot.across.count)).max(1);
    let tenths = u128::from(plot.panel.left) + u128::from(plot.panel.width) * at / places;
    Tenths { tenths }
}

/// Writes a bar from the bottom up to its count, with name and count in words.
#[tactic(auto, unfolding(crate::specs::chart::Bars::bar_piece))]
fn write_bar(
    text: &mut String,
    left: Tenths,
    bottom: Tenths,
    y: Tenths,
    right: Tenths,
    bar: Bar,
) -> Result<(), OutOfMemory>
    ensures { IfOk result (λ _. string_bytes text.new
        ≡ string_bytes text.old ++ bar_piece (bar_style bar.name) left.tenths bottom.tenths y.tenths right.tenths
        (bar_name bar.name) bar.count) }
{
    let (style, name, count) = (bar_style(bar.name), bar.name, bar.count);
    write!(
        text,
        "<path class=\"{style}\" d=\"M{left} {bottom}V{y}H{right}V{bottom}Z\"><title>{name}: {count}</title></path>"
    )
}

/// Adds a bar, if it counts any number.
fn add_shape(text: &mut String, plot: Plot, k: usize, bar: Bar) -> Result<(), OutOfMemory>
    ensures { IfOk result (λ _. string_bytes text.new ≡ string_bytes text.old ++ bar_shape plot k bar) }
{
    if bar.count == 0 {
        return Ok(());
    }
    let (left, right) = (bar_x(plot, k, 1), bar_x(plot, k, 9));
    let (bottom, y) = (plot.panel.bottom(), plot.y(i128::from(bar.count)));
    write_bar(text, left, bottom, y, right, bar)
}

/// Returns how many bars take sixty SVG units, the width of eight digits, rounded up.
#[tactic(auto, unfolding(crate::specs::chart::Bars::label_step))]
fn label_step(plot: Plot) -> u128
    ensures value { result ≡ label_step plot }
    ensures some { 1 ≤ result }
{
    let wanted = 600 * u128::from(plot.across.count);
    wanted.div_ceil(u128::from(plot.panel.width.max(1))).max(1)
}

/// Writes a label centred at a bar.
#[tactic(auto, unfolding(crate::specs::chart::Bars::bar_label))]
fn write_label(
    text: &mut String,
    middle: Tenths,
    base: Tenths,
    told: BarTold,
) -> Result<(), OutOfMemory>
    ensures { IfOk result (λ _. string_bytes text.new
        ≡ string_bytes text.old ++ bar_label middle.tenths base.tenths (told_text told)) }
{
    write!(
        text,
        "<text x=\"{middle}\" y=\"{base}\" text-anchor=\"middle\">{told}</text>"
    )
}

/// Returns whether a bar has its name below it: the first bar, the last bar, and each bar at a multiple of `label_step`
/// that is at least that far from the last one.
#[tactic(auto, unfolding(crate::specs::chart::Bars::has_name))]
fn has_name(plot: Plot, k: usize) -> bool
    ensures { result ≡ has_name plot k }
{
    let (k, step) = (k as u128, label_step(plot));
    let behind = u128::from(plot.across.count).saturating_sub(k + 1);
    k == 0 || behind == 0 || k % step == 0 && step <= behind
}

/// Adds a bar's name below it, if it has one.
fn add_some_label(text: &mut String, plot: Plot, k: usize, bar: Bar) -> Result<(), OutOfMemory>
    ensures { IfOk result (λ _. string_bytes text.new ≡ string_bytes text.old ++ some_label plot k bar) }
{
    if has_name(plot, k) {
        let told = BarTold::Name(bar.name);
        write_label(text, bar_x(plot, k, 5), plot.panel.below(160), told)
    } else {
        Ok(())
    }
}

/// Returns the share of `count` in `total`, in tenths of a percent, rounded down.
#[tactic(auto, unfolding(crate::specs::chart::Bars::share_of))]
fn share_of(total: u64, count: u64) -> u128
    ensures { result ≡ share_of total count }
{
    u128::from(count) * 1000 / u128::from(total.max(1))
}

/// Adds the share of a bar above it, if each bar has a name.
fn add_some_share(
    text: &mut String,
    plot: Plot,
    total: u64,
    k: usize,
    bar: Bar,
) -> Result<(), OutOfMemory>
    ensures { IfOk result (λ _. string_bytes text.new ≡ string_bytes text.old ++ some_share plot total k bar) }
{
    if bar.count == 0 {
        return Ok(());
    }
    if label_step(plot) == 1 {
        let told = BarTold::Share(share_of(total, bar.count));
        write_label(
            text,
            bar_x(plot, k, 5),
            plot.above(i128::from(bar.count)),
            told,
        )
    } else {
        Ok(())
    }
}

/// Writes the line of a limit.
#[tactic(auto, unfolding(crate::specs::chart::Bars::limit_line))]
fn write_limit_line(
    text: &mut String,
    x: Tenths,
    top: Tenths,
    bottom: Tenths,
) -> Result<(), OutOfMemory>
    ensures { IfOk result (λ _. string_bytes text.new
        ≡ string_bytes text.old ++ limit_line x.tenths top.tenths bottom.tenths) }
{
    write!(text, "<path class=\"lim\" d=\"M{x} {top}V{bottom}\"/>")
}

/// Writes the number of a limit to the left of its line.
#[tactic(auto, unfolding(crate::specs::chart::Bars::limit_number))]
fn write_limit_number(
    text: &mut String,
    before: Tenths,
    base: Tenths,
    limit: u64,
) -> Result<(), OutOfMemory>
    ensures { IfOk result (λ _. string_bytes text.new
        ≡ string_bytes text.old ++ limit_number before.tenths base.tenths limit) }
{
    write!(
        text,
        "<text class=\"lim\" x=\"{before}\" y=\"{base}\" text-anchor=\"end\">limit {limit}</text>"
    )
}

/// Returns the x four units to the left.
fn before(x: Tenths) -> Tenths
    ensures { result ≡ tenths (x.tenths - 40) }
{
    let tenths = x.tenths.saturating_sub(40);
    Tenths { tenths }
}

/// Returns the y ten units below the top of a panel.
fn under_top(panel: Panel) -> Tenths
    ensures { result ≡ tenths (panel.top + 100) }
{
    let tenths = u128::from(panel.top) + 100;
    Tenths { tenths }
}

/// Adds the line of the limit to the left of the bar of the numbers above it.
fn add_limit_before(
    text: &mut String,
    plot: Plot,
    k: usize,
    name: BarName,
) -> Result<(), OutOfMemory>
    ensures { IfOk result (λ _. string_bytes text.new ≡ string_bytes text.old ++ limit_before plot k name) }
{
    match name {
        BarName::Above(limit) => {
            let (x, panel) = (bar_x(plot, k, 0), plot.panel);
            write_limit_line(text, x, panel.top(), panel.bottom())?;
            write_limit_number(text, before(x), under_top(panel), limit)
        }
        _ => Ok(()),
    }
}

/// Adds bar `k`, from 0, with its share of `total`, its name and its limit.
fn add_bar(text: &mut String, plot: Plot, total: u64, k: usize, bar: Bar) -> Result<(), OutOfMemory>
    ensures { IfOk result (λ _. string_bytes text.new ≡ string_bytes text.old ++ bar_text plot total k bar) }
{
    add_shape(text, plot, k, bar)?;
    add_some_share(text, plot, total, k, bar)?;
    add_some_label(text, plot, k, bar)?;
    add_limit_before(text, plot, k, bar.name)
}

/// Adds all bars.
fn add_each_bar(text: &mut String, plot: Plot, total: u64, bars: &[Bar]) -> Result<(), OutOfMemory>
    ensures { IfOk result (λ _. string_bytes text.new ≡ string_bytes text.old ++ bars_text plot total 0 bars.now) }
{
    for (k, bar) in bars.iter().enumerate() {
        add_bar(text, plot, total, k, *bar)?;
    }
    Ok(())
}

/// Adds bars side by side over the grid of an axis of counts, with the units. `total` is the count of all numbers. A
/// bar with the count 0 isn't drawn, and any other bar has at least its outline. Bars of numbers below 0 or above a
/// limit have the colour of limits, and the line of the limit is to the left of the bar of the numbers above it. Names
/// are below the first and the last bar, and below those between if there is room. Shares are above the bars if each
/// bar has a name.
pub fn add_bars(
    text: &mut String,
    panel: Panel,
    axis: Axis,
    unit: Unit,
    across: UnitAcross,
    total: u64,
    bars: &[Bar],
) -> Result<(), OutOfMemory>
    ensures { IfOk result (λ _. string_bytes text.new ≡ string_bytes text.old
        ++ bars_picture (plot_of_bars panel axis (length bars.now)) unit across total bars.now) }
{
    let across_bars = Across {
        start: 0,
        count: bars.len() as u64,
        each: 1,
    };
    let plot = Plot {
        panel,
        axis,
        across: across_bars,
    };
    add_grid(text, plot, unit)?;
    add_units(text, plot, unit, across)?;
    add_each_bar(text, plot, total, bars)
}
