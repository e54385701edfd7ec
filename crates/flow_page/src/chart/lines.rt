//! The lines of limits.

ghost use Rattle.std.specs.Prelude.{◌≡◌, ◌++◌, IfOk, string_bytes};
ghost use Rattle.flow_page.specs.chart.Lines.{free_of, label_text, line_text, lines_text, name_piece};
ghost use Rattle.flow_page.specs.chart.Lines.{placed, stroke_piece, style_of, with_name};
ghost use Rattle.flow_page.specs.chart.Marks.{base_of};

use crate::chart::plot::{Plot, Tenths};
use std::alloc::AllocError as OutOfMemory;
use std::fmt;

/// The limit that a line shows.
#[derive(Clone, Copy)]
pub enum LineName {
    /// The limit of a narrow sender (N).
    Narrow,
    /// The limit of a narrow linear sender (NL).
    NarrowLinear,
    /// The limit of N and NL, if it is the same.
    BothNarrow,
    /// The limit of a wide sender (W).
    Wide,
    /// An empty buffer.
    Empty,
    /// TR_OFFSET, in nanoseconds.
    Offset,
    /// The end of a frame or field, in nanoseconds from its start.
    Period,
}

/// A line at a number.
#[derive(Clone, Copy)]
pub struct Limit {
    /// The limit that it shows.
    pub name: LineName,
    /// The number, in the unit of the axis.
    pub at: i128,
}

impl fmt::Display for Limit {
    ghost use Rattle.std.specs.Prelude.{Some};
    ghost use Rattle.flow_page.specs.chart.Lines.{label_text};

    ghost output = { λ line. Some (label_text line.name line.at) };

    fn fmt<W: fmt::Write>(&self, f: &mut fmt::Formatter<W>) -> fmt::Result {
        let at = self.at;
        match self.name {
            LineName::Narrow => write!(f, "N {at}"),
            LineName::NarrowLinear => write!(f, "NL {at}"),
            LineName::BothNarrow => write!(f, "N, NL {at}"),
            LineName::Wide => write!(f, "W {at}"),
            LineName::Empty => f.write_str("empty"),
            LineName::Offset => f.write_str("TR_OFFSET"),
            LineName::Period => f.write_str("T_GROUP"),
        }
    }
}

/// Returns the CSS class of a line.
fn style_of(name: LineName) -> &'static str
    ensures { result.now ≡ style_of name }
{
    match name {
        LineName::Wide => "lim w",
        _ => "lim",
    }
}

/// Writes a line across the panel.
#[tactic(auto, unfolding(crate::specs::chart::Lines::stroke_piece))]
fn write_stroke(
    text: &mut String,
    style: &str,
    left: Tenths,
    y: Tenths,
    right: Tenths,
) -> Result<(), OutOfMemory>
    ensures { IfOk result (λ _. string_bytes text.new
        ≡ string_bytes text.old ++ stroke_piece style.now left.tenths y.tenths right.tenths) }
{
    write!(text, "<path class=\"{style}\" d=\"M{left} {y}H{right}\"/>")
}

/// Writes the name of a line beside it.
#[tactic(auto, unfolding(crate::specs::chart::Lines::name_piece))]
fn write_name(
    text: &mut String,
    style: &str,
    x: Tenths,
    base: Tenths,
    line: Limit,
) -> Result<(), OutOfMemory>
    ensures { IfOk result (λ _. string_bytes text.new
        ≡ string_bytes text.old ++ name_piece style.now x.tenths base.tenths (label_text line.name line.at)) }
{
    write!(
        text,
        "<text class=\"{style}\" x=\"{x}\" y=\"{base}\">{line}</text>"
    )
}

/// Adds a line, and its name with the baseline at `base`.
fn add_line(text: &mut String, plot: Plot, base: Tenths, line: Limit) -> Result<(), OutOfMemory>
    ensures { IfOk result (λ _. string_bytes text.new ≡ string_bytes text.old ++ line_text plot base.tenths line) }
{
    let (left, right, x) = (plot.panel.left(), plot.panel.right(), plot.panel.name_x());
    let y = plot.y(line.at);
    write_stroke(text, style_of(line.name), left, y, right)?;
    write_name(text, style_of(line.name), x, base, line)
}

/// Returns the baseline of a name at the height of its line.
fn base_of(plot: Plot, line: Limit) -> Tenths
    ensures { result.tenths ≡ base_of plot line.at }
{
    plot.base(line.at)
}

/// The baselines of the topmost and the lowest name beside lines, as y in tenths of an SVG unit.
#[derive(Clone, Copy)]
pub(crate) struct Names {
    top: u128,
    lowest: u128,
}

/// The least distance of two names, in tenths of an SVG unit.
const APART: u128 = 140;

/// Returns the baseline of a name: that of its line if it is far enough above all these names or below all of them,
/// else one above all of them.
#[tactic(auto, unfolding(crate::specs::chart::Lines::free_of))]
fn free_of(own: Tenths, names: Names) -> Tenths
    ensures { result.tenths ≡ free_of own.tenths names }
{
    let above = names.top.saturating_sub(own.tenths);
    let below = own.tenths.saturating_sub(names.lowest);
    if APART <= above || APART <= below {
        return own;
    }
    let tenths = names.top.saturating_sub(APART);
    Tenths { tenths }
}

/// Returns the baseline of a name, with the names that are already placed.
fn placed(own: Tenths, names: Option<Names>) -> Tenths
    ensures { result.tenths ≡ placed own.tenths names }
{
    match names {
        None => own,
        Some(names) => free_of(own, names),
    }
}

/// Returns the names with one more at this baseline.
fn with_name(base: Tenths, names: Option<Names>) -> Names
    ensures { result ≡ with_name base.tenths names }
{
    match names {
        None => Names {
            top: base.tenths,
            lowest: base.tenths,
        },
        Some(names) => Names {
            top: names.top.min(base.tenths),
            lowest: names.lowest.max(base.tenths),
        },
    }
}

/// Adds the lines of limits, each with its name beside it. A name that would touch those before it is placed above all
/// of them.
pub fn add_lines(text: &mut String, plot: Plot, lines: &[Limit]) -> Result<(), OutOfMemory>
    ensures { IfOk result (λ _. string_bytes text.new ≡ string_bytes text.old ++ lines_text plot lines.now) }
{
    let mut names = None;
    for line in lines {
        let base = placed(base_of(plot, *line), names);
        names = Some(with_name(base, names));
        add_line(text, plot, base, *line)?;
    }
    Ok(())
}
