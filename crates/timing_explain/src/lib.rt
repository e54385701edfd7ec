//! The command `explain`: prints for each media of a job what is wrong with its flow, and what to do.
//!
//! Each capture is read once; several are taken as one. While a flow is judged, its runs are measured, and of the
//! longest one more is kept than its measurements (`details`). The same packet records are scanned for the streams of
//! the captures, and for timestamps that aren't whole microseconds (`micros`).
//!
//! - `details`: what the findings on a run need beside its measurements.
//! - `laws`: contents have one answer; the numbers of a run are those of its verdict; examples that are worked by hand.
//!
//! Captures, media, packets and frames or fields count from 0, runs and packet records from 1; capture timestamps are
//! nanoseconds.
#![tactic(auto)]

mod answer;
mod captures;
pub mod details;
mod explain;
mod flows;
pub mod laws;
mod micros;

pub use explain::ExplainCommand;
