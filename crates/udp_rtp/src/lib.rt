//! A reader of RTP packets of video in captured Ethernet frames.
//!
//! [`read_frame`] finds the UDP datagram of a frame, or the class of a frame that has none, and
//! [`datagram`] only the datagram. [`read_rtp`] reads a payload, and [`packet_of`] does both for the
//! flow of one media. [`carries`] compares a frame with a packet
//! that is known in advance, and [`Awaited`] holds such a packet as the numbers to compare. None of
//! them allocates memory or loops over bytes.
//!
//! Places are bytes. Numbers are in network byte order.
#![tactic(auto)]

mod awaited;
mod carried;
mod class;
mod flow;
mod frame;
pub mod laws;
mod rtp;
mod udp;

pub use awaited::Awaited;
pub use carried::carries;
pub use class::FrameClass;
pub use flow::packet_of;
pub use frame::{datagram, read_frame};
pub use rtp::read_rtp;
pub use udp::Datagram;
