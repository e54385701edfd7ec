//! The next expected packet of a flow, compared with the bytes of an Ethernet frame.

ghost use Rattle.std.specs.Prelude.{◌≡◌, ◌≤◌, ◌<◌, ◌+◌, ◌*◌, ◌/◌, ◌%◌, ◌^◌, Some, None, drop, length};
ghost use Rattle.udp_rtp.specs.Numbers.{number16, number32};
ghost use Rattle.byteorder.specs.Endian.{big_number};

use crate::carried::{is_long_udp, is_plain_udp};
use byteorder::{BigEndian, ByteOrder};
use timing_base::{Rtp, Target};

/// The packet that is expected next at a target, as the numbers that a plain Ethernet frame with
/// this packet has at fixed places. Three comparisons cover most of its bytes.
///
/// ```text
/// byte 30 to 33             34 35        36 37
///      destination address  source port  destination port
/// byte 42         43    44 45   46 to 49   50 to 53  54 55
///      V P X CC   M PT  number  timestamp  SSRC      number's high half
/// ```
#[derive(Clone, Copy, Debug, PartialEq, Eq)]
pub struct Awaited {
    /// Bytes 30 to 37, with zeros for the source port. If these aren't zeros, no packet is
    /// expected.
    destination: u64,
    // `timestamp` and `head` are neighbours in this order, so that one read gets both.
    /// Bytes 46 to 49.
    timestamp: u32,
    /// Bytes 42 to 45.
    head: u32,
    /// Bytes 48 to 55.
    rest: u64,
    ghost version: { head / 2 ^ 24 ≡ 0x80 },
    ghost unmarked: { head / 2 ^ 16 % 2 ^ 8 < 128 },
    ghost four_bytes: { timestamp < 2 ^ 32 },
    ghost overlap: { rest / 2 ^ 48 ≡ timestamp % 2 ^ 16 },
}

/// Returns the destination address, the source port and the destination port as one number.
#[inline(always)]
fn from_address_to_port(frame: &[u8]) -> u64
    requires { 56 ≤ length frame.now }
    ensures { result ≡ big_number 8 (drop 30 frame.now) }
{
    BigEndian::read_u64(&frame[30..])
}

/// Returns the destination address and port as one number, with zeros for the source port.
#[inline(always)]
fn destination(frame: &[u8]) -> u64
    requires { 56 ≤ length frame.now }
    ensures { result ≡ number32 frame.now 30 * 2 ^ 32 + number16 frame.now 36 }
{
    let eight = from_address_to_port(frame);
    eight - eight / 0x1_0000 % 0x1_0000 * 0x1_0000
}

/// Returns the first eight bytes of the RTP header: version, flags, payload type, sequence number
/// and RTP timestamp.
#[inline(always)]
fn start(frame: &[u8]) -> u64
    requires { 56 ≤ length frame.now }
    ensures { result ≡ big_number 8 (drop 42 frame.now) }
{
    BigEndian::read_u64(&frame[42..])
}

/// Returns the eight bytes that end with the extended sequence number: the low half of the RTP
/// timestamp, the source, and that number.
#[inline(always)]
fn rest(frame: &[u8]) -> u64
    requires { 56 ≤ length frame.now }
    ensures { result ≡ big_number 8 (drop 48 frame.now) }
{
    BigEndian::read_u64(&frame[48..])
}

impl Awaited {
    ghost use Rattle.udp_rtp.specs.Awaited.{awaited, awaited_after, awaited_of, carries_awaited, has_numbers, packet_of};

    /// Returns the value that expects no packet.
    #[inline(always)]
    pub fn nothing() -> Awaited
        ensures { awaited result ≡ None }
    {
        Awaited {
            destination: 0x1_0000,
            timestamp: 0,
            head: 0x8000_0000,
            rest: 0,
        }
    }

    /// Returns the value that expects this packet at this target. It expects no packet if there is
    /// none, or if a plain frame can't be compared with it: it has the marker, or a payload type
    /// above 127.
    #[inline(always)]
    pub fn of(target: Target, packet: Option<Rtp>) -> Awaited
        ensures { awaited result ≡ awaited_of target packet }
    {
        match packet {
            Some(rtp) if !rtp.marker && rtp.pt < 128 => Awaited {
                destination: u64::from(target.address.bits) * 0x1_0000_0000
                    + u64::from(target.port),
                timestamp: rtp.timestamp,
                head: (0x8000 + u32::from(rtp.pt)) * 0x1_0000 + rtp.number % 0x1_0000,
                rest: u64::from(rtp.timestamp % 0x1_0000) * 0x1_0000_0000_0000
                    + u64::from(rtp.ssrc) * 0x1_0000
                    + u64::from(rtp.number / 0x1_0000),
            },
            _ => Awaited::nothing(),
        }
    }

    /// Returns the value that expects the packet after this one of the target, in the same frame or
    /// field. It expects no packet if this one has the marker or a payload type above 127, or if
    /// the low half of the next number is 0.
    #[inline(always)]
    pub fn after(target: Target, rtp: Rtp) -> Awaited
        ensures { awaited result ≡ awaited_after (awaited_of target (Some rtp)) }
    {
        let mut awaited = Awaited::of(target, Some(rtp));
        awaited.go_on();
        awaited
    }

    /// Returns whether the Ethernet frame carries the expected packet, as
    /// [`carries`](crate::carries) does for the packet and its target.
    #[inline(always)]
    pub fn is_in(&self, frame: &[u8]) -> bool
        ensures { result ≡ carries_awaited (awaited self.now) frame.now }
    {
        frame.len() >= 56 && self.has_numbers(frame)
    }

    /// Returns bytes 42 to 49 as one number.
    #[inline(always)]
    fn start(&self) -> u64
        ensures { result ≡ self.now.head * 2 ^ 32 + self.now.timestamp }
    {
        u64::from(self.head) * 0x1_0000_0000 + u64::from(self.timestamp)
    }

    /// Returns whether the Ethernet frame is plain and has these numbers.
    #[inline(always)]
    fn has_numbers(&self, frame: &[u8]) -> bool
        requires { 56 ≤ length frame.now }
        ensures { result ≡ has_numbers self.now frame.now }
    {
        is_plain_udp(frame)
            && destination(frame) == self.destination
            && is_long_udp(frame)
            && start(frame) == self.start()
            && rest(frame) == self.rest
    }

    /// Returns the expected packet. The result has no meaning if none is expected.
    #[inline(always)]
    pub fn packet(&self) -> Rtp
        ensures { result ≡ packet_of self.now }
    {
        Rtp {
            number: (self.rest % 0x1_0000) as u32 * 0x1_0000 + self.head % 0x1_0000,
            timestamp: self.timestamp,
            marker: false,
            pt: (self.head / 0x1_0000 % 0x100) as u8,
            ssrc: (self.rest / 0x1_0000 % 0x1_0000_0000) as u32,
        }
    }

    /// Expects the packet with the next number from now on, or no packet if the low half of the
    /// number would start again from 0. That happens after at most 65,536 packets.
    #[inline(always)]
    pub fn go_on(&mut self)
        ensures { awaited self.new ≡ awaited_after (awaited self.old) }
    {
        if self.head % 0x1_0000 == 0xffff {
            *self = Awaited::nothing();
            return;
        }
        self.head += 1;
    }
}
