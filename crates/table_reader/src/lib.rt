//! The rows of `series` read back, from its comma-separated values. The crate has definitions and laws alone.
#![tactic(auto)]

pub mod laws;
pub mod limits;
