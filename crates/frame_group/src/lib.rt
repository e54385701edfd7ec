//! The gaps in the packet numbers of one flow, and the flow's first fault.
//!
//! A [`Grouper`] gets the packets of a flow, one by one and in order. It keeps the packet before and a few numbers, and
//! no history. Some faults are those of frames, or of fields if the video is interlaced; a frame or field ends with a
//! marker.
#![tactic(auto)]

mod before;
mod group;
mod grouper;
pub mod laws;

pub use grouper::Grouper;
