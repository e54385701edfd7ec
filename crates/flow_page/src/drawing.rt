//! The data for the pictures of the judged runs of a flow, collected while the runs are judged.
//!
//! A `DrawingMeter` is fed the packets of one run in order. It collects the columns of all packets, of all frames or
//! fields overlaid, of the times of the frames or fields, and of the packets around the first one that breaks each
//! sender type. Its size doesn't grow with the count of packets, which need not be known in advance. Of the runs of a
//! flow, the drawing of the longest is kept. Packets, frames, fields and places count from 0. Capture timestamps are
//! nanoseconds of TAI, RTP timestamps ticks of 90 kHz.

mod columns;
mod groups;
pub mod laws;
mod longest;
mod meter;
mod packets;
mod region;
mod regions;

pub use longest::{DrawnRun, LongestRun};
pub use meter::DrawingMeter;
