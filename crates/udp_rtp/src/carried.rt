//! Comparison of an Ethernet frame with a packet that is known in advance.

ghost use Rattle.std.specs.Prelude.{◌≡◌, ◌≤◌, ◌%◌, ◌^◌, ◌==◌, ◌&&◌, nat_le, length, slice_index};
ghost use Rattle.udp_rtp.specs.Carried.{carries, is_plain_udp};
ghost use Rattle.udp_rtp.specs.Numbers.{number16, number32};

use crate::awaited::Awaited;
use byteorder::{BigEndian, ByteOrder};
use timing_base::{Rtp, Target};

/// Returns the flags and the fragment offset of the IPv4 header, its time to live and its protocol
/// as one number.
#[inline(always)]
fn from_flags_to_protocol(frame: &[u8]) -> u32
    requires { 56 ≤ length frame.now }
    ensures { result ≡ number32 frame.now 20 }
{
    BigEndian::read_u32(&frame[20..])
}

/// Returns whether the IPv4 header is that of a UDP datagram and of no fragment. The compared
/// fields are read as one number, so that one comparison is enough.
#[inline(always)]
fn is_whole_udp(frame: &[u8]) -> bool
    requires { 56 ≤ length frame.now }
    ensures { result ≡ ((number16 frame.now 20 % 2 ^ 14 == 0) && (slice_index frame.now 23 == 17)) }
{
    let four = from_flags_to_protocol(frame);
    four / 0x1_0000 % 0x4000 == 0 && four % 0x100 == 17
}

/// Returns whether the Ethernet frame has a UDP datagram over IPv4 without a tag, IPv4 options or
/// fragments.
#[inline(always)]
pub(crate) fn is_plain_udp(frame: &[u8]) -> bool
    requires { 56 ≤ length frame.now }
    ensures { result ≡ is_plain_udp frame.now }
{
    BigEndian::read_u16(&frame[12..]) == 0x0800 && frame[14] == 0x45 && is_whole_udp(frame)
}

/// Returns whether the UDP length is at least 22 bytes. For most packets its high byte decides.
#[inline(always)]
pub(crate) fn is_long_udp(frame: &[u8]) -> bool
    requires { 56 ≤ length frame.now }
    ensures { result ≡ nat_le 22 (number16 frame.now 38) }
{
    frame[38] != 0 || frame[39] >= 22
}

/// Returns whether an Ethernet frame carries this packet, without the marker, to this target, and
/// is plain: without a tag, IPv4 options, fragments, padding, header extension or contributing
/// sources.
///
/// If the result is true, [`packet_of`](crate::packet_of) reads this packet from the frame for each
/// media of this target. If it is false, the frame may still have this packet, for example behind a
/// tag.
#[inline(always)]
pub fn carries(frame: &[u8], target: Target, rtp: Rtp) -> bool
    ensures { result ≡ carries target rtp frame.now }
{
    Awaited::of(target, Some(rtp)).is_in(frame)
}
