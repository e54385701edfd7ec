//! The offsets (TROFF) with which a flow would keep the virtual receiver buffer of SMPTE ST 2110-21.
//!
//! A [`WindowMeter`] gets the capture timestamps of the judged packets, one by one and in order. It keeps both ends of
//! the window, each with the packet that limits it, and no history. Capture timestamps are in nanoseconds of TAI,
//! offsets in microseconds. Packets count from 0.
#![tactic(auto)]

pub mod laws;
mod meter;
mod quiet;
mod read;
mod window;

pub use meter::WindowMeter;
pub use window::{Window, WindowEnd};
