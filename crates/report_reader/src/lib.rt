//! The text of a report read back: what its lines tell of the captures and of the flows. The crate has definitions and
//! laws alone.
#![tactic(auto)]

pub mod laws;
pub mod limits;
