//! `series`: prints the numbers of a flow as comma-separated values, a row for each judged packet, or for each judged
//! frame or field.
//!
//! The rows of a frame or field are made and written at its last packet, so that memory doesn't grow with the capture.
//! Captures, media, packets and frames or fields count from 0, runs and packet records from 1; capture timestamps are
//! nanoseconds.

mod flow;
pub mod laws;
mod series;
mod stream;

pub use series::SeriesCommand;
