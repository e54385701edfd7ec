//! Lists the RTP streams of a capture and what else it contains, without an SDP.
//!
//! A [`Scan`] takes the packet records of a capture in one pass. An Ethernet frame goes to a UDP port over IPv4, its
//! target, or it is counted by its class. If the payload of a packet to a target is read as RTP, the packet belongs to
//! the stream of its target and SSRC.
//!
//! Packet records count from 1; capture timestamps are nanoseconds since 1970-01-01 00:00:00; lengths are bytes.
//!
//! - `laws`: laws of the definitions, and frames that are worked by hand.
//! - `report`: the result as JSON and as lines of text, and a draft of an SDP.
#![tactic(auto)]

mod counter;
mod found;
mod key;
pub mod laws;
mod mark;
mod packet;
pub mod report;
mod scan;
mod stream;
mod streams;
mod unread;

pub use found::{Found, PassedOver, Span, UnreadTarget};
pub use packet::{Line, Packet, Seen, look_at};
pub use scan::Scan;
pub use stream::{Arrival, Lines, Order, Pace, Range, Rate, Stream};
