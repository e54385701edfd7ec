//! A generator of captures of one video flow: 1080p at 50 frames per second, 20 packets per frame,
//! with a flaw if one is asked for. Each capture is made from a number.
//!
//! A capture is a little-endian classic pcap file with nanosecond timestamps. Its packet records
//! are one packet that ends a frame before the capture, and then the packets of its frames. Only
//! the functions of [`examples`] allocate memory.
#![tactic(auto)]

mod capture;
pub mod examples;
mod flaw;
mod frame;
pub mod laws;
mod packet;
mod sdp;

pub use capture::{capture_len, write_capture};
pub use packet::Packet;
pub use pcap_reader::{file_head, record_head};
pub use sdp::{description, sdp_bytes};
