//! Shaded places.

ghost use Rattle.std.specs.Prelude.{◌≡◌, ◌-◌, ◌++◌, IfOk, max, string_bytes};
ghost use Rattle.flow_page.specs.chart.Marks.{tenths};
ghost use Rattle.flow_page.specs.chart.Shades.{behind_unit, shade_left, shade_name, shade_named, shade_piece};
ghost use Rattle.flow_page.specs.chart.Shades.{shade_right, shade_text};

use crate::chart::grid::Unit;
use crate::chart::plot::{Panel, Plot, Tenths};
use std::alloc::AllocError as OutOfMemory;

/// A range of shaded places, counted from the first one in the picture.
#[derive(Clone, Copy)]
pub struct Shade {
    /// The first of them.
    pub from: u64,
    /// The last of them.
    pub to: u64,
}

impl Shade {
    /// Returns the x at which it begins.
    #[tactic(auto, unfolding(crate::specs::chart::Shades::shade_left))]
    fn left(self, plot: Plot) -> Tenths
        ensures { result ≡ tenths (shade_left plot self) }
    {
        plot.x(u128::from(self.from))
    }

    /// Returns the x at which it ends.
    #[tactic(auto, unfolding(crate::specs::chart::Shades::shade_right))]
    fn right(self, plot: Plot) -> Tenths
        ensures { result ≡ tenths (shade_right plot self) }
    {
        plot.x(u128::from(self.to) + 1)
    }
}

/// Writes the shaded area.
#[tactic(auto, unfolding(crate::specs::chart::Shades::shade_piece))]
fn write_shade(
    text: &mut String,
    left: Tenths,
    top: Tenths,
    bottom: Tenths,
    right: Tenths,
) -> Result<(), OutOfMemory>
    ensures { IfOk result (λ _. string_bytes text.new
        ≡ string_bytes text.old ++ shade_piece left.tenths top.tenths bottom.tenths right.tenths) }
{
    write!(
        text,
        "<path class=\"hit\" d=\"M{left} {top}V{bottom}H{right}V{top}Z\"/>"
    )
}

/// Writes the numbers of the first and the last shaded place.
#[tactic(auto, unfolding(crate::specs::chart::Shades::shade_name))]
fn write_shade_name(
    text: &mut String,
    x: Tenths,
    base: Tenths,
    anchor: &str,
    first: u128,
    last: u128,
) -> Result<(), OutOfMemory>
    ensures { IfOk result (λ _. string_bytes text.new
        ≡ string_bytes text.old ++ shade_name x.tenths base.tenths anchor.now first last) }
{
    write!(
        text,
        "<text class=\"lim\" x=\"{x}\" y=\"{base}\" text-anchor=\"{anchor}\">from {first} to {last}</text>"
    )
}

/// Returns the y four units above a panel.
fn above_top(panel: Panel) -> Tenths
    ensures { result ≡ tenths (panel.top - 40) }
{
    let tenths = u128::from(panel.top.saturating_sub(40));
    Tenths { tenths }
}

/// Returns the x after the unit of the axis.
#[tactic(auto, unfolding(crate::specs::chart::Shades::behind_unit))]
fn behind_unit(plot: Plot, unit: Unit) -> u128
    ensures { result ≡ behind_unit plot unit }
{
    78 * unit.name(plot.axis.step).len() as u128 + 60
}

/// Returns the x at which a name begins that should begin at `x`, moved to the right of the unit of the axis if needed.
fn clear_of_unit(plot: Plot, unit: Unit, x: Tenths) -> Tenths
    ensures { result ≡ tenths (max (behind_unit plot unit) x.tenths) }
{
    let tenths = behind_unit(plot, unit).max(x.tenths);
    Tenths { tenths }
}

/// Adds the numbers of the shaded places above them, clear of the unit of the axis.
#[tactic(auto, unfolding(crate::specs::chart::Shades::shade_named))]
fn add_shade_name(
    text: &mut String,
    plot: Plot,
    unit: Unit,
    shade: Shade,
) -> Result<(), OutOfMemory>
    ensures { IfOk result (λ _. string_bytes text.new ≡ string_bytes text.old ++ shade_named plot unit shade) }
{
    let (left, right, base) = (shade.left(plot), shade.right(plot), above_top(plot.panel));
    let first = u128::from(plot.across.start) + u128::from(shade.from);
    let last = u128::from(plot.across.start) + u128::from(shade.to);
    let before = left.tenths.saturating_sub(plot.panel.left().tenths);
    let behind = plot.panel.right().tenths.saturating_sub(left.tenths);
    if before < behind {
        let x = clear_of_unit(plot, unit, left);
        write_shade_name(text, x, base, "start", first, last)
    } else {
        write_shade_name(text, right, base, "end", first, last)
    }
}

/// Adds shaded places, if there are any.
pub(crate) fn add_shade(
    text: &mut String,
    plot: Plot,
    unit: Unit,
    shade: Option<Shade>,
) -> Result<(), OutOfMemory>
    ensures { IfOk result (λ _. string_bytes text.new ≡ string_bytes text.old ++ shade_text plot unit shade) }
{
    match shade {
        None => Ok(()),
        Some(shade) => {
            let (panel, left, right) = (plot.panel, shade.left(plot), shade.right(plot));
            write_shade(text, left, panel.top(), panel.bottom(), right)?;
            add_shade_name(text, plot, unit, shade)
        }
    }
}
