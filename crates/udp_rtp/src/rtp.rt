//! RTP headers.

ghost use Rattle.std.specs.Prelude.{◌≡◌, ◌+◌, ◌≤◌, length};
ghost use Rattle.std.specs.Option.{SomeIff};
ghost use Rattle.udp_rtp.specs.Reading.{payload_place, reading};

use byteorder::{BigEndian, ByteOrder};
use timing_base::{PacketFault, Rtp};

/// Returns the place of the extended sequence number, if it was captured completely.
fn extended_place(bytes: &[u8]) -> Option<usize>
    requires { 12 ≤ length bytes.now }
    ensures { SomeIff result (payload_place bytes.now + 2 ≤ length bytes.now)
        (payload_place bytes.now) }
{
    // Most packets have neither contributing sources nor an extension.
    if bytes[0] % 32 == 0 {
        return if bytes.len() < 14 { None } else { Some(12) };
    }
    let sources_end = 12 + 4 * usize::from(bytes[0] % 16);
    let place = if bytes[0] / 16 % 2 == 1 {
        if bytes.len() < sources_end + 4 {
            return None;
        }
        sources_end + 4 + 4 * usize::from(BigEndian::read_u16(&bytes[sources_end + 2..]))
    } else {
        sources_end
    };
    if bytes.len() < place + 2 {
        None
    } else {
        Some(place)
    }
}

/// Reads the fixed header of RTP (RFC 3550, section 5.1) and the extended sequence number (RFC
/// 4175, section 4.2).
///
/// ```text
/// byte 0        1        2 3       4 5 6 7    8 9 10 11  12 ..
///      V P X CC M PT     sequence  timestamp  SSRC       CC times 4, the extension if X, and then
///                                                        the extended sequence number in 2
/// ```
///
/// A header extension (section 5.3.1) begins with four bytes, and the last two of them count the
/// 32-bit words that follow. Extensions, contributing sources and padding are ignored.
///
/// Returns `Short` if there are fewer than 12 bytes, otherwise `Version` if the version isn't 2,
/// and otherwise `Short` if the bytes end before the end of the extended sequence number.
pub fn read_rtp(bytes: &[u8]) -> Result<Rtp, PacketFault>
    ensures { result ≡ reading bytes.now }
{
    if bytes.len() < 12 {
        return Err(PacketFault::Short);
    }
    if bytes[0] / 64 != 2 {
        return Err(PacketFault::Version);
    }
    let Some(place) = extended_place(bytes) else {
        return Err(PacketFault::Short);
    };
    let high = BigEndian::read_u16(&bytes[place..]);
    let low = BigEndian::read_u16(&bytes[2..]);
    Ok(Rtp {
        number: u32::from(high) * 65_536 + u32::from(low),
        timestamp: BigEndian::read_u32(&bytes[4..]),
        marker: bytes[1] > 127,
        pt: bytes[1] % 128,
        ssrc: BigEndian::read_u32(&bytes[8..]),
    })
}
