//! The rows of the judged runs of a flow: the levels of the bucket and of the receiver buffer at each packet, or the
//! measurements of each frame or field.
//!
//! A `RowsMeter` is fed the packets of one run in order. When a frame or field is judged, the meter appends lines of
//! comma-separated values to a text: one line per packet, or one line for the frame or field. Packets, frames, fields
//! and places count from 0, runs and packet records from 1. Capture timestamps are nanoseconds of TAI, RTP timestamps
//! ticks of 90 kHz.

pub mod laws;
mod maker;
mod meter;
mod rows;

pub use meter::RowsMeter;
pub use rows::{Rows, header};
