//! The instants at which the virtual receiver buffer of SMPTE ST 2110-21 reads its packets.
//!
//! A [`Schedule`] counts the reads that are due, for capture timestamps that never go back. It divides only if it is
//! many reads behind. A [`Grid`] has the reads themselves, as whole numbers. Instants are in nanoseconds of TAI; reads
//! count from 0.
#![tactic(auto)]

mod between;
mod grid;
pub mod laws;
mod schedule;

pub use between::Between;
pub use grid::{BEFORE, Grid};
pub use schedule::{Due, NextRead, Schedule};
