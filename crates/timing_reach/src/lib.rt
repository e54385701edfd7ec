//! The commands `window`, `shape`, `skew`, `scan` and `sdp`.
//!
//! - `window` prints the offsets with which the receiver buffer of a flow would neither underflow nor overflow.
//! - `shape` delays the packets of a flow as little as the limits of a sender type allow.
//! - `skew` prints how far two flows with the same packets are apart.
//! - `scan` lists the streams of a capture.
//! - `sdp` prints how a session description is read, and reads no capture.
//!
//! `window` and `shape` take their captures as one. Each capture is read once: `window` measures a flow while it is
//! judged, and `shape` keeps it until it is known which packets are judged. Captures, media and judged packets count
//! from 0, and packet records from 1; capture timestamps are nanoseconds.
//!
//! The modules:
//!
//! - `judged`: the common part of the commands on one flow.
//! - `laws`: contents have one answer; captures as one have that of one capture; what `shape` writes is read back;
//!   answers that are worked by hand.
//! - `describe`, `scan`, `shape`, `skew`, `window`: the commands; `describe` has `sdp`.
#![tactic(auto)]

mod describe;
pub mod judged;
pub mod laws;
mod scan;
mod shape;
mod skew;
mod window;

pub use describe::sdp_one;
pub use scan::scan_one;
pub use shape::ShapeCommand;
pub use skew::SkewCommand;
pub use window::WindowCommand;
