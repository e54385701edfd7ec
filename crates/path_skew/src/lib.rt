//! The skew of two flows that carry the same packets on two paths: the difference between the capture timestamps of
//! packets with equal packet numbers.
#![tactic(auto)]

mod arrival;
mod arrivals;
mod bits;
mod directory;
mod flow;
pub mod laws;
mod matches;
mod pages;
mod row;
mod skew;

pub use row::{Extreme, SkewRow};
pub use skew::Skew;
