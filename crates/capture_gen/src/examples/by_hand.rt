//! Parts of a capture, laid out by hand, and captures that are read in pieces.

use std::alloc::Global;
use timing_outside::{MemoryShelf, MemorySource, OpenFault, ReadPlan, Shelf};

/// The header of a capture file: little-endian, nanoseconds, Ethernet.
pub const HEAD: [u8; 24] = [
    0x4d, 0x3c, 0xb2, 0xa1, 2, 0, 4, 0, 0, 0, 0, 0, 0, 0, 0, 0, 0, 0, 4, 0, 1, 0, 0, 0,
];

/// The Ethernet frame of packet 0 to 239.0.0.1, port 50000, which has no marker.
pub const FRAME: [u8; 56] = [
    0x01, 0x00, 0x5e, 0x00, 0x00, 0x01, 0x02, 0x00, 0x00, 0x00, 0x00, 0x01, 0x08, 0x00, // Ethernet
    0x45, 0x00, 0x00, 0x2a, 0x00, 0x00, 0x40, 0x00, 0x40, 0x11, 0x00, 0x00, // IPv4
    0xc0, 0x00, 0x02, 0x01, 0xef, 0x00, 0x00, 0x01, // addresses
    0xc3, 0x50, 0xc3, 0x50, 0x00, 0x16, 0x00, 0x00, // UDP, to port 50000
    0x80, 0x60, 0x00, 0x00, 0x00, 0x00, 0x07, 0x08, 0x00, 0x00, 0x00, 0x01, // RTP
    0x00, 0x00, // extended sequence number
];

/// Returns a source of this text that gives at most `piece` bytes in a read, at least 1. The reads
/// with these numbers, counted from 1, fail. Returns `Err` if memory runs out.
pub fn source_of(
    alloc: Global,
    text: &[u8],
    piece: u32,
    fails: &[u32],
) -> Result<MemorySource, OpenFault> {
    let plan = ReadPlan {
        fetch_fails: false,
        piece: piece.max(1),
        fails: Vec::from_slice(alloc, fails)?,
    };
    let mut shelf = MemoryShelf::new(alloc);
    shelf.put(
        String::from_str(alloc, "a.pcap")?,
        Vec::from_slice(alloc, text)?,
        plan,
    )?;
    shelf.fetch("a.pcap")
}
