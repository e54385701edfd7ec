//! A converter from pcapng (draft-ietf-opsawg-pcapng) to classic pcap, so that a reader of classic
//! captures can read pcapng files too.
//!
//! [`Classic`] is a source that wraps another one. A file that isn't pcapng is passed through
//! unchanged. Memory is allocated only when a source is wrapped.
//!
//! ```text
//! block      type (4), total length (4), body, total length (4)
//! section    0a0d0d0a: byte order 1a2b3c4d (4), major and minor version (2 and 2), ..
//! interface  1: link type (2), reserved (2), snaplen (4), options
//! packet     6: interface, timestamp high and low, captured and original length (4 each), data, ..
//! option     code (2), length (2), value, padded to 4 bytes
//! ```
//!
//! This project's profile: a section has at most 1,024 interfaces, a packet at most 262,144 bytes,
//! and only the first 2^41 bytes of a pcapng file are read. Other blocks are ignored.
#![tactic(auto)]

mod block;
mod converter;
mod interfaces;
pub mod laws;
mod packet;
mod reads;
mod source;
mod stage;
mod step;
mod window;

pub use source::Classic;
