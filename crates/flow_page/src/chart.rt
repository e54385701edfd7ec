//! Pictures of measured numbers, as SVG in HTML: curves of columns, and bars of bins and classes.
//!
//! Numbers are drawn at the place of their value. Places in a picture are tenths of an SVG unit, rounded down, and y
//! grows downward. Texts are made whole, as strings. Names are escaped only here.

mod axis;
mod bars;
mod chart;
mod curve;
mod escape;
mod figure;
mod grid;
pub mod laws;
mod lines;
mod plot;
mod shade;

pub(crate) use bars::{Bar, BarName};
pub(crate) use chart::{Scene, add_bars_figure, add_curve_figure, curve_axis};
pub(crate) use figure::add_told;
pub(crate) use grid::{Unit, UnitAcross, ns_name, scale_of_ns};
pub(crate) use lines::{Limit, LineName};
pub(crate) use plot::{Across, Tenths};
pub(crate) use shade::Shade;
