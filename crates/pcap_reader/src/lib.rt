//! A reader of the packet records of a capture file in the classic pcap layout (pcap-savefile(5)).
//!
//! A [`PcapReader`] lends the captured bytes of one packet record after the other from its buffer,
//! and then returns how the capture ends. It allocates memory only at its start.
//!
//! ```text
//! file header   magic (4), version 2 and 4 (2 and 2), zone, sigfigs, snaplen, link type (4 each)
//! each record   seconds, fraction, captured length, original length (4 each), captured bytes
//! ```
//!
//! Zone, sigfigs, snaplen and the original length are ignored. This project's profile: the link
//! type is 1, Ethernet; a packet record has at most 262,144 captured bytes; the length of a capture
//! is limited by its reader.
#![tactic(auto)]

mod heads;
pub mod laws;
mod layout;
mod pages;
mod reader;
mod records;
mod run;
mod stage;
mod taker;
mod window;

pub use heads::{file_head, record_head};
pub use pages::before_page;
pub use reader::{MOST, PcapReader, Step};
pub use records::{Taken, take_records};
pub use taker::Taker;
