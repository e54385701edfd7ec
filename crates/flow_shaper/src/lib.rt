//! The departure times of one flow's packets, if each were delayed as little as the bucket and the virtual receiver
//! buffer of SMPTE ST 2110-21 allow.
//!
//! A [`Shaper`] gets the capture timestamps of the judged packets, one by one and in order. It keeps the state of both
//! models for its own departures, and no history. Times are in nanoseconds of TAI; packets and reads count from 0.
#![tactic(auto)]

mod departure;
pub mod laws;
mod meters;
mod shaper;

pub use departure::{Bound, Departure, Late};
pub use shaper::Shaper;
