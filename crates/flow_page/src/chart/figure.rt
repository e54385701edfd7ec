//! The start and the end of a picture.

ghost use Rattle.std.specs.Prelude.{◌≡◌, ◌++◌, IfOk, string_bytes};
ghost use Rattle.flow_page.specs.chart.Figures.{figure_end, figure_open, figure_start, svg_open, told};

use crate::chart::escape::add_escaped;
use std::alloc::AllocError as OutOfMemory;

/// Adds markup, and then a string as escaped text.
pub fn add_told(text: &mut String, markup: &str, plain: &str) -> Result<(), OutOfMemory>
    ensures { IfOk result (λ _. string_bytes text.new ≡ string_bytes text.old ++ told markup.now plain.now) }
{
    text.push_str(markup)?;
    add_escaped(text, plain)
}

/// Returns the start of a picture.
fn figure_open(wide: bool) -> &'static str
    ensures { result.now ≡ figure_open wide }
{
    if wide {
        "<figure class=\"wide\"><figcaption>"
    } else {
        "<figure><figcaption>"
    }
}

/// Returns the start of the SVG, with its size in SVG units.
#[tactic(auto, unfolding(crate::specs::chart::Figures::svg_open))]
fn svg_open(wide: bool) -> &'static str
    ensures { result.now ≡ svg_open wide }
{
    if wide {
        "</span></figcaption><div class=\"scroll\"><svg class=\"wide\" viewBox=\"0 0 1300 220\" role=\"img\"><title>"
    } else {
        "</span></figcaption><div class=\"scroll\"><svg viewBox=\"0 0 640 220\" role=\"img\"><title>"
    }
}

/// Adds markup as it is.
fn add_markup(text: &mut String, markup: &str) -> Result<(), OutOfMemory>
    ensures { IfOk result (λ _. string_bytes text.new ≡ string_bytes text.old ++ markup.now) }
{
    text.push_str(markup)
}

/// Adds the start of a picture: its title, and the text beside it, which is HTML, both also in the SVG for screen
/// readers.
pub(crate) fn add_figure_start(
    text: &mut String,
    wide: bool,
    title: &str,
    detail: &str,
) -> Result<(), OutOfMemory>
    ensures { IfOk result (λ _. string_bytes text.new
        ≡ string_bytes text.old ++ figure_start wide title.now detail.now) }
{
    add_told(text, figure_open(wide), title)?;
    add_markup(text, " <span>")?;
    add_markup(text, detail)?;
    add_told(text, svg_open(wide), title)?;
    add_markup(text, "</title><desc>")?;
    add_markup(text, detail)?;
    add_markup(text, "</desc>")
}

/// Adds the end of a picture.
pub(crate) fn add_figure_end(text: &mut String) -> Result<(), OutOfMemory>
    ensures { IfOk result (λ _. string_bytes text.new ≡ string_bytes text.old ++ figure_end) }
{
    add_markup(text, "</svg></div></figure>\n")
}
