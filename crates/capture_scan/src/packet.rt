//! Reads a packet record: a frame without a target, a packet that isn't RTP, or an RTP packet.

ghost use Rattle.std.specs.Prelude.{◌≡◌, ◌+◌, ◌≤◌, length, Ok, IsOk};
ghost use Rattle.udp_rtp.specs.Reading.{payload_place, reading};
ghost use Rattle.capture_scan.specs.Frames.{first_line, line_at, packet_in, seen};

use byteorder::{BigEndian, ByteOrder};
use timing_base::{Rtp, Target};
use udp_rtp::{Datagram, FrameClass, read_frame, read_rtp};

/// The first line header of a packet (RFC 4175, section 4.3).
#[derive(Clone, Copy, Debug, PartialEq, Eq)]
pub struct Line {
    /// The line number, counted from 0, within the frame or field.
    pub number: u16,
    /// Whether the line is of the second field.
    pub second_field: bool,
    /// Whether the line header fits raw video: its length is at most the bytes of UDP data behind it, and its number is
    /// at most 4,319.
    pub fits: bool,
}

/// An RTP packet, with the numbers that a scan counts.
#[derive(Clone, Copy, Debug, PartialEq, Eq)]
pub struct Packet {
    /// The number of the packet record, counted from 1.
    pub rec: u64,
    /// The capture timestamp in nanoseconds, as it stands in the capture.
    pub at: u64,
    /// The source address and port.
    pub source: Target,
    /// The destination address and port.
    pub target: Target,
    /// The total length of IPv4, in bytes.
    pub length: u16,
    /// The fields of the RTP header.
    pub rtp: Rtp,
    /// The first line header, if all its bytes were captured.
    pub line: Option<Line>,
}

/// The result of reading a packet record.
#[derive(Clone, Copy, Debug, PartialEq, Eq)]
pub enum Seen {
    /// A frame without a target.
    PassedOver(FrameClass),
    /// A packet to this target that isn't read as RTP.
    Unread(Target),
    /// An RTP packet.
    Read(Packet),
}

/// Returns the byte offset of the extended sequence number in an RTP packet.
#[inline(always)]
fn payload_place(payload: &[u8]) -> usize
    requires least { 12 ≤ length payload.now }
    requires reached { payload_place payload.now + 2 ≤ length payload.now }
    ensures { result ≡ payload_place payload.now }
{
    let first = payload[0];
    let sources_end = 12 + 4 * usize::from(first % 16);
    if first / 16 % 2 == 1 {
        let words = BigEndian::read_u16(&payload[sources_end + 2..]);
        sources_end + 4 + 4 * usize::from(words)
    } else {
        sources_end
    }
}

/// The greatest line number of raw video, counted from 0.
const LAST_LINE: u16 = 4319;

/// Returns the line header at byte `place` of an RTP packet with `stated` bytes by the UDP length.
#[inline(always)]
fn line_at(stated: usize, payload: &[u8], place: usize) -> Line
    requires { place + 6 ≤ length payload.now }
    ensures { result ≡ line_at stated payload.now place }
{
    let length = usize::from(BigEndian::read_u16(&payload[place..]));
    let field_and_number = BigEndian::read_u16(&payload[place + 2..]);
    let number = field_and_number % 0x8000;
    Line {
        number,
        second_field: field_and_number > 0x7fff,
        fits: place + 6 + length <= stated && number <= LAST_LINE,
    }
}

/// Returns the first line header of an RTP packet, if all its bytes were captured.
#[inline(always)]
fn first_line(stated: usize, payload: &[u8]) -> Option<Line>
    requires least { 12 ≤ length payload.now }
    requires reached { payload_place payload.now + 2 ≤ length payload.now }
    ensures { result ≡ first_line stated payload.now }
{
    let place = payload_place(payload);
    if payload.len() < place + 8 {
        return None;
    }
    Some(line_at(stated, payload, place + 2))
}

/// Returns the first line header of a payload that was read as RTP.
#[inline(always)]
fn line_in(stated: usize, payload: &[u8]) -> Option<Line>
    requires { IsOk (reading payload.now) }
    ensures { result ≡ first_line stated payload.now }
{
    first_line(stated, payload)
}

/// Returns the packet of a record with this datagram, from the fields of its RTP header.
#[inline(always)]
fn packet_in(rec: u64, at: u64, datagram: &Datagram, rtp: Rtp) -> Packet
    requires { reading datagram.now.payload ≡ Ok rtp }
    ensures { result ≡ packet_in rec at datagram.now rtp }
{
    Packet {
        rec,
        at,
        source: datagram.source,
        target: datagram.target,
        length: datagram.length,
        rtp,
        line: line_in(usize::from(datagram.stated), datagram.payload),
    }
}

/// Reads a packet record with this number, counted from 1, this capture timestamp in nanoseconds, and this Ethernet
/// frame.
///
/// A frame without a target is passed over. A packet to a target is `Read` if [`read_rtp`] reads its payload, else
/// `Unread`.
#[inline(always)]
pub fn look_at(rec: u64, at: u64, frame: &[u8]) -> Seen
    ensures { result ≡ seen (record { number = rec; stamp = at; bytes = frame.now }) }
{
    match read_frame(frame) {
        Ok(datagram) => match read_rtp(datagram.payload) {
            Ok(rtp) => Seen::Read(packet_in(rec, at, &datagram, rtp)),
            Err(_) => Seen::Unread(datagram.target),
        },
        Err(class) => Seen::PassedOver(class),
    }
}
