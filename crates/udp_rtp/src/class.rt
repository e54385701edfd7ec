//! Classes of the Ethernet frames that have no datagram: that go to no UDP port over IPv4.

ghost use Rattle.std.specs.Prelude.{◌≡◌, ◌+◌, ◌≤◌, length};
ghost use Rattle.udp_rtp.specs.Classes.{class_at, class_of, has_kind, has_tagged_kind, has_tags, is_of_kind};

use byteorder::{BigEndian, ByteOrder};

/// The reason for which an Ethernet frame has no datagram.
#[derive(Clone, Copy, Debug, PartialEq, Eq)]
pub enum FrameClass {
    /// No byte was captured, or the packet has another link type than Ethernet.
    Empty,
    /// The tag of a provider's bridge, or two VLAN tags.
    Tags,
    /// IPv6, behind one VLAN tag or none.
    Ipv6,
    /// Neither IPv4 nor IPv6, or the frame ends before its type.
    Other,
    /// IPv4 with another protocol than UDP.
    NotUdp,
    /// A fragment of a UDP datagram over IPv4.
    Fragment,
    /// IPv4 that is malformed or cut short.
    Broken,
}

/// The type field of a VLAN tag (IEEE 802.1Q).
pub(crate) const TAG: u16 = 0x8100;

/// The type field of a tag of a provider's bridge (IEEE 802.1Q).
const PROVIDER_TAG: u16 = 0x88a8;

/// The type field of IPv4 (IEEE 802.3; RFC 894).
pub(crate) const IPV4: u16 = 0x0800;

/// The type field of IPv6 (RFC 2464, section 3).
const IPV6: u16 = 0x86dd;

/// Returns whether the type field at byte `place` has this number.
fn has_kind(frame: &[u8], place: usize, kind: u16) -> bool
    requires { place ≤ 16 }
    ensures { result ≡ has_kind frame.now place kind }
{
    frame.len() >= place + 2 && BigEndian::read_u16(&frame[place..]) == kind
}

/// Returns whether the type field behind one VLAN tag has this number.
fn has_tagged_kind(frame: &[u8], kind: u16) -> bool
    ensures { result ≡ has_tagged_kind frame.now kind }
{
    has_kind(frame, 12, TAG) && has_kind(frame, 16, kind)
}

/// Returns whether the tag of a provider's bridge comes first, or two tags follow each other.
fn has_tags(frame: &[u8]) -> bool
    ensures { result ≡ has_tags frame.now }
{
    has_kind(frame, 12, PROVIDER_TAG)
        || has_tagged_kind(frame, TAG)
        || has_tagged_kind(frame, PROVIDER_TAG)
}

/// Returns whether the frame has this type, behind one VLAN tag or none.
fn is_of_kind(frame: &[u8], kind: u16) -> bool
    ensures { result ≡ is_of_kind frame.now kind }
{
    has_kind(frame, 12, kind) || has_tagged_kind(frame, kind)
}

/// Returns the class of an IPv4 frame without a datagram, with its header at byte `ip`.
fn class_at(frame: &[u8], ip: usize) -> FrameClass
    requires { ip ≤ 18 }
    ensures { result ≡ class_at frame.now ip }
{
    if frame.len() < ip + 20 || frame[ip] / 16 != 4 {
        return FrameClass::Broken;
    }
    if frame[ip + 9] != 17 {
        return FrameClass::NotUdp;
    }
    if BigEndian::read_u16(&frame[ip + 6..]) % 0x4000 != 0 {
        return FrameClass::Fragment;
    }
    FrameClass::Broken
}

/// Returns the class of a frame that has no datagram, the first of these that applies. Byte offsets
/// count from 0.
///
/// - `Empty`: it has no byte.
/// - `Tags`: the type at byte 12 is 0x88a8, or it is 0x8100 and that at byte 16 is one of the two.
/// - `Ipv6`: the type, at byte 12 or behind a tag 0x8100 at byte 16, is 0x86dd.
/// - `Other`: the type isn't 0x0800, or the frame ends before it.
/// - `NotUdp`: the 20 bytes of an IPv4 header of version 4 are there, and the protocol isn't 17.
/// - `Fragment`: they are there, the protocol is 17, and the flag MF is set or the fragment offset
///   isn't 0.
/// - `Broken`: anything else.
pub(crate) fn class_of(frame: &[u8]) -> FrameClass
    ensures { result ≡ class_of frame.now }
{
    if frame.is_empty() {
        FrameClass::Empty
    } else if has_tags(frame) {
        FrameClass::Tags
    } else if is_of_kind(frame, IPV6) {
        FrameClass::Ipv6
    } else if has_kind(frame, 12, IPV4) {
        class_at(frame, 14)
    } else if has_tagged_kind(frame, IPV4) {
        class_at(frame, 18)
    } else {
        FrameClass::Other
    }
}
