//! The leaky bucket of one flow: the network compatibility model of SMPTE ST 2110-21.
//!
//! A [`Bucket`] gets the capture timestamps of the judged packets, one by one and in order. It keeps six numbers and a
//! drain tick, and no history. Times are in nanoseconds of TAI, counts in packets.
#![tactic(auto)]

mod bucket;
pub mod laws;

pub use bucket::Bucket;
