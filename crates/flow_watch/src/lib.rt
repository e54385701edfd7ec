//! What is told of a flow while it is watched: a line for each stretch of frames or fields of a judged run, and for
//! each gap, each wait for a marker, and the end of a flow that isn't judged any more.
//!
//! A [`WatchMeter`] is fed the packets of a judged run in order. When the frames or fields of a [`Stretch`] are judged,
//! it appends their line to the [`WatchLines`] of the flow. The size of both doesn't grow with the number of packets.
//! Lines are text or JSON, as their [`LineForm`] says. Frames, fields, media, runs and packet records count from 1 in
//! lines. Capture timestamps are nanoseconds of TAI, numbers of the bucket and of the buffer packets.
#![tactic(auto)]

mod broken;
mod form;
mod json;
pub mod laws;
mod lines;
mod meter;
mod peaks;
mod stretch;
mod text;

pub use form::{Gap, LineForm, Waiting};
pub use lines::WatchLines;
pub use meter::WatchMeter;
pub use peaks::{BufferRange, Peaks};
pub use stretch::{PerType, Stretch, groups_per_second};
