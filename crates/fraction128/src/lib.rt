//! Exact fractions within 128 bits, which are rounded once, at the end, and clocks that count the
//! instants of a line without a division in the usual case.
#![tactic(auto)]

mod clock;
mod fraction;
pub mod laws;

pub use clock::{Clock, Line};
pub use fraction::{floor_of, floor_signed};
