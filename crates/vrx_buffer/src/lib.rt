//! The virtual receiver buffer of SMPTE ST 2110-21, for one flow and one sender type.
//!
//! A [`Vrx`] gets the judged packets, one by one and in order, each with the reads that are due at its instant. It
//! keeps its peak and its first fault, and no history. A [`Held`] is the state at one packet, with an occupancy that
//! may be negative. Times are in nanoseconds of TAI, counts in packets.
#![tactic(auto)]

mod held;
pub mod laws;
mod vrx;

pub use held::Held;
pub use vrx::{Vrx, VrxFault};
