//! The flows of a session's media, taken from the packet records of a capture.
//!
//! A [`Demux`] takes the packet records of one capture or of joined captures. It parses the Ethernet frame of a record
//! once. If the frame's target is that of a media, the packet goes to the taker of that media's flow, a [`FlowTaker`].
//! Most frames carry the packet that is expected next in the flow with the next turn; such a frame is only compared
//! with that packet and not parsed. Media count from 0, packet records from 1. Capture timestamps are in nanoseconds
//! since 1970-01-01 00:00:00.
#![tactic(auto)]

mod demux;
pub mod laws;
mod media_flow;
mod order;
mod taker;
mod writer;

pub use demux::Demux;
pub use media_flow::MediaFlow;
pub use taker::FlowTaker;
pub use writer::FlowWriter;
