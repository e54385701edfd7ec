//! Ethernet, IPv4 and UDP headers.

ghost use Rattle.std.specs.Prelude.{◌≡◌, ◌+◌, ◌≤◌, Some, IfSome, length};
ghost use Rattle.udp_rtp.specs.Frames.{datagram_from, datagram_of, end_at, frame_reading, ip_place, is_udp_at, payload_at, stated_at, udp_place};

use crate::class::{FrameClass, IPV4, TAG, class_of};
use crate::udp::Datagram;
use byteorder::{BigEndian, ByteOrder};
use timing_base::{Address, Target};

/// The first byte of an IPv4 header without options: version 4, and an IHL of 5.
const PLAIN: u8 = 0x45;

/// The least length of an Ethernet frame with a datagram, in bytes: Ethernet 14, IPv4 20, ports 4.
const LEAST: usize = 38;

/// Returns the place of the IPv4 header, if there is one, behind at most one tag.
fn ip_header(frame: &[u8]) -> Option<usize>
    requires { 18 ≤ length frame.now }
    ensures place { result ≡ ip_place frame.now }
    ensures low { IfSome result (λ ip. 14 ≤ ip) }
    ensures high { IfSome result (λ ip. ip ≤ 18) }
{
    let kind = BigEndian::read_u16(&frame[12..]);
    if kind == IPV4 {
        Some(14)
    } else if kind == TAG && BigEndian::read_u16(&frame[16..]) == IPV4 {
        Some(18)
    } else {
        None
    }
}

/// Returns the payload of the UDP header at the place `udp`, as far as it was captured.
fn payload(frame: &[u8], udp: usize) -> &[u8]
    requires { udp + 4 ≤ length frame.now }
    ensures { result.now ≡ payload_at frame.now udp }
{
    if frame.len() < udp + 8 {
        return &[];
    }
    let stated = usize::from(BigEndian::read_u16(&frame[udp + 4..]));
    let data = &frame[udp + 8..];
    &data[..stated.saturating_sub(8).min(data.len())]
}

/// Returns the bytes of payload by the UDP length of the header at the place `udp`, or 0 if that
/// length wasn't captured.
#[inline(always)]
fn stated(frame: &[u8], udp: usize) -> u16
    requires { udp + 4 ≤ length frame.now }
    ensures { result ≡ stated_at frame.now udp }
{
    if frame.len() < udp + 6 {
        return 0;
    }
    BigEndian::read_u16(&frame[udp + 4..]).saturating_sub(8)
}

/// Returns the address at the place `at` of the IPv4 header, and the port at the place `port` of
/// the UDP header.
#[inline(always)]
fn end_at(frame: &[u8], at: usize, port: usize) -> Target
    requires address { at + 4 ≤ length frame.now }
    requires port { port + 2 ≤ length frame.now }
    ensures { result ≡ end_at frame.now at port }
{
    Target {
        address: Address {
            bits: BigEndian::read_u32(&frame[at..]),
        },
        port: BigEndian::read_u16(&frame[port..]),
    }
}

/// Returns whether there is an IPv4 header of a UDP datagram at the place `ip`, and the ports were
/// captured.
#[inline(always)]
fn is_udp(frame: &[u8], ip: usize) -> bool
    requires least { 38 ≤ length frame.now }
    requires high { ip ≤ 18 }
    ensures { result ≡ is_udp_at frame.now ip }
{
    let first = frame[ip];
    first / 16 == 4
        && first % 16 >= 5
        && frame[ip + 9] == 17
        && BigEndian::read_u16(&frame[ip + 6..]) % 0x4000 == 0
        && frame.len() >= ip + 4 * usize::from(first % 16) + 4
}

/// Returns the datagram with an IPv4 header at the place `ip`, if there is one.
#[inline(always)]
fn datagram_behind(frame: &[u8], ip: usize) -> Option<Datagram<'_>>
    requires least { 38 ≤ length frame.now }
    requires low { 14 ≤ ip }
    requires high { ip ≤ 18 }
    ensures { result ≡ datagram_from frame.now (Some ip) }
{
    if !is_udp(frame, ip) {
        return None;
    }
    let udp = ip + 4 * usize::from(frame[ip] % 16);
    Some(Datagram {
        target: end_at(frame, ip + 16, udp + 2),
        source: end_at(frame, ip + 12, udp),
        length: BigEndian::read_u16(&frame[ip + 2..]),
        stated: stated(frame, udp),
        payload: payload(frame, udp),
    })
}

/// Returns the UDP datagram over IPv4 in an Ethernet frame, or `None` if there is none.
///
/// ```text
/// Ethernet  0 to 11  12 13   a tag puts 4 bytes before the type
///           MACs     type    0x8100, tag control, and then the type
/// IPv4      e        e+1     e+2 e+3  e+4 e+5    e+6 e+7
///           version, service length   id         flags, fragment
///           IHL
///           e+8      e+9      e+10 e+11  e+12 to e+15  e+16 to e+19
///           time     protocol checksum   source        destination
/// UDP       u u+1    u+2 u+3       u+4 u+5  u+6 u+7    u+8 ..
///           source   destination   length   checksum   payload
/// ```
///
/// The type is 0x0800 (IPv4), behind at most one tag of IEEE 802.1Q; the version is 4, the protocol
/// 17 (UDP), the IHL at least 5, and the packet is no fragment (RFC 791, section 3.1). It is enough
/// if the frame was captured up to its ports. The payload ends at the UDP length (RFC 768) or the
/// end of the frame, whichever comes first, and is empty if that is before its start. Checksums,
/// padding after the datagram, and the tag's control are ignored, and the IPv4 total length is only
/// returned.
#[inline(always)]
pub fn datagram(frame: &[u8]) -> Option<Datagram<'_>>
    ensures { result ≡ datagram_of frame.now }
{
    if frame.len() < LEAST {
        return None;
    }
    // Most frames have no tag and no IPv4 options. Then all places are known in advance.
    if frame[14] == PLAIN && BigEndian::read_u16(&frame[12..]) == IPV4 {
        return datagram_behind(frame, 14);
    }
    datagram_behind(frame, ip_header(frame)?)
}

/// Reads an Ethernet frame: its datagram, as [`datagram`] finds it, or the class of a frame that has
/// none.
#[inline(always)]
pub fn read_frame(frame: &[u8]) -> Result<Datagram<'_>, FrameClass>
    ensures { result ≡ frame_reading frame.now }
{
    match datagram(frame) {
        Some(datagram) => Ok(datagram),
        None => Err(class_of(frame)),
    }
}
