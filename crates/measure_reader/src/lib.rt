//! The numbers of `measure` read back, from its JSON. The crate has definitions and laws alone.
#![tactic(auto)]

pub mod laws;
pub mod limits;
