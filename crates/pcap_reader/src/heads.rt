//! The headers of a capture file and of its packet records, for writing.

ghost use Rattle.std.specs.Prelude.{◌≡◌, ◌<◌, ◌*◌, ◌^◌};
ghost use Rattle.pcap_reader.specs.WrittenHeads.{file_head, record_head};

use byteorder::{ByteOrder, LittleEndian};

/// The magic number of nanosecond timestamps.
const MAGIC_NANOSECONDS: u32 = 0xa1b2_3c4d;

/// The major version of the format.
const MAJOR_VERSION: u16 = 2;

/// The minor version of the format.
const MINOR_VERSION: u16 = 4;

/// The greatest captured length in the file, in bytes.
const SNAPLEN: u32 = 262_144;

/// The link type of Ethernet.
const LINK_ETHERNET: u32 = 1;

/// The nanoseconds of a second.
const NANOSECONDS: u64 = 1_000_000_000;

/// Returns the header of a little-endian classic pcap file of Ethernet packets, with nanosecond
/// timestamps and the snaplen 262,144.
pub fn file_head() -> [u8; 24]
    ensures { result ≡ file_head }
{
    let mut head = [0; 24];
    LittleEndian::write_u32(&mut head, MAGIC_NANOSECONDS);
    LittleEndian::write_u16(&mut head[4..], MAJOR_VERSION);
    LittleEndian::write_u16(&mut head[6..], MINOR_VERSION);
    LittleEndian::write_u32(&mut head[16..], SNAPLEN);
    LittleEndian::write_u32(&mut head[20..], LINK_ETHERNET);
    head
}

/// Returns the header of a packet record in such a file. The capture timestamp `at` is in
/// nanoseconds since 1970-01-01 00:00:00; `len`, in bytes, is both the captured and the original
/// length.
pub fn record_head(at: u64, len: u32) -> [u8; 16]
    requires { at < 2 ^ 32 * 1000000000 }
    ensures { result ≡ record_head at len }
{
    let mut head = [0; 16];
    LittleEndian::write_u32(&mut head, (at / NANOSECONDS) as u32);
    LittleEndian::write_u32(&mut head[4..], (at % NANOSECONDS) as u32);
    LittleEndian::write_u32(&mut head[8..], len);
    LittleEndian::write_u32(&mut head[12..], len);
    head
}
