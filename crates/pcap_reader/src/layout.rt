//! The file header, the header of a packet record, and the layout of numbers in a capture.

ghost use Rattle.std.specs.Prelude.{◌≡◌, ◌≤◌, ◌<◌, ◌+◌, ◌*◌, ◌^◌, ℕ, IfErr, IfOk, IfSome, None, Some, length, drop};
ghost use Rattle.pcap_reader.specs.Header.{number, layout_of, header, per_second, nanos};

use crate::stage::Head;
use byteorder::{BigEndian, ByteOrder, LittleEndian};
use timing_base::PcapFault;

/// The most bytes that are captured of a packet.
const MOST_CAPTURED: usize = 262_144;

/// The byte order of numbers.
#[derive(Clone, Copy, Debug)]
pub enum Order {
    /// The most significant byte is first (big-endian).
    Big,
    /// The least significant byte is first (little-endian).
    Little,
}

/// The unit of the fractional part of a capture timestamp.
#[derive(Clone, Copy, Debug)]
pub enum Fraction {
    /// Microseconds.
    Micros,
    /// Nanoseconds.
    Nanos,
}

/// The layout of numbers, as the magic number gives it.
#[derive(Clone, Copy, Debug)]
pub struct Layout {
    /// The byte order.
    pub order: Order,
    /// The unit of fractions of a second.
    pub fraction: Fraction,
}

impl Order {
    /// Returns the 32-bit number at a place, in bytes from the start.
    pub fn read_u32(self, bytes: &[u8], place: usize) -> u32
        requires { place + 4 ≤ length bytes.now }
        ensures { result ≡ number self 4 (drop place bytes.now) }
    {
        match self {
            Order::Big => BigEndian::read_u32(&bytes[place..]),
            Order::Little => LittleEndian::read_u32(&bytes[place..]),
        }
    }

    /// Returns the 16-bit number at a place, in bytes from the start.
    fn read_u16(self, bytes: &[u8], place: usize) -> u16
        requires { place + 2 ≤ length bytes.now }
        ensures { result ≡ number self 2 (drop place bytes.now) }
    {
        match self {
            Order::Big => BigEndian::read_u16(&bytes[place..]),
            Order::Little => LittleEndian::read_u16(&bytes[place..]),
        }
    }
}

impl Fraction {
    /// Returns how many of these units make a second.
    pub fn per_second(self) -> u32
        ensures { result ≡ per_second self }
    {
        match self {
            Fraction::Micros => 1_000_000,
            Fraction::Nanos => 1_000_000_000,
        }
    }

    /// Converts a fraction of a second in this unit to nanoseconds.
    pub fn to_nanos(self, count: u32) -> u32
        requires { count < per_second self }
        ensures value { result ≡ count * nanos self }
        ensures below { result < 10 ^ 9 }
    {
        match self {
            Fraction::Micros => count * 1_000,
            Fraction::Nanos => count,
        }
    }
}

impl Layout {
    ghost use Rattle.timing_base.specs.declared.capture.FileNote.TheVariants as file_note;
    ghost use Rattle.pcap_reader.specs.Heads.{SaysHead, SaysStamp};
    ghost use Rattle.pcap_reader.specs.Records.{OnReadFault, captured, fraction, note_by};

    /// Returns the layout of a magic number, given its four bytes as a big-endian number.
    fn of_magic(magic: u32) -> Option<Layout>
        ensures { result ≡ layout_of magic }
    {
        let (order, fraction) = match magic {
            0xa1b2_c3d4 => (Order::Big, Fraction::Micros),
            0xd4c3_b2a1 => (Order::Little, Fraction::Micros),
            0xa1b2_3c4d => (Order::Big, Fraction::Nanos),
            0x4d3c_b2a1 => (Order::Little, Fraction::Nanos),
            _ => return None,
        };
        Some(Layout { order, fraction })
    }

    /// Reads the 24 bytes of a file header. Of several faults the first in this order is returned:
    /// magic number, version, link type.
    pub fn read_header(bytes: &[u8]) -> Result<Layout, PcapFault>
        requires { 24 ≤ length bytes.now }
        ensures { result ≡ header bytes.now }
    {
        let Some(layout) = Layout::of_magic(BigEndian::read_u32(bytes)) else {
            return Err(PcapFault::BadMagic);
        };
        let major = layout.order.read_u16(bytes, 4);
        let minor = layout.order.read_u16(bytes, 6);
        if major != 2 || minor != 4 {
            return Err(PcapFault::BadVersion);
        }
        if layout.order.read_u32(bytes, 20) % 65_536 != 1 {
            return Err(PcapFault::BadLink);
        }
        Ok(layout)
    }

    /// Reads the header of the packet record of this number: its first 16 bytes. Of two faults the
    /// first in this order is returned: the fraction of the capture timestamp, the captured length.
    #[inline(always)]
    pub fn read_head(self, bytes: &[u8], rec: u64) -> Result<Head, PcapFault>
        requires { 16 ≤ length bytes.now }
        ensures head { IfOk result (SaysHead self bytes.now) }
        ensures faulty { IfErr result (λ fault. (most place long : ℕ)
            → note_by self.fraction most rec place long (fraction self bytes.now) (captured self bytes.now)
            ≡ Some (file_note.Refused fault)) }
        ensures read { IfErr result (λ fault. OnReadFault (file_note.Refused fault) ⊥) }
    {
        let Some(head) = self.read_stamped(bytes) else {
            return Err(PcapFault::BadStamp { rec });
        };
        if head.captured > MOST_CAPTURED {
            return Err(PcapFault::BadLength { rec });
        }
        Ok(head)
    }

    /// Reads the header of a packet record, and returns `None` if the fraction of its capture
    /// timestamp is a second or more. Doesn't check the captured length, because the buffer can't
    /// hold more than is allowed.
    #[inline(always)]
    pub fn read_stamped(self, bytes: &[u8]) -> Option<Head>
        requires { 16 ≤ length bytes.now }
        ensures head { IfSome result (SaysStamp self bytes.now) }
        ensures faulty { result ≡ None → per_second self.fraction ≤ fraction self bytes.now }
    {
        let seconds = self.order.read_u32(bytes, 0);
        let fraction = self.order.read_u32(bytes, 4);
        let captured = self.order.read_u32(bytes, 8);
        if fraction >= self.fraction.per_second() {
            return None;
        }
        let nanos = self.fraction.to_nanos(fraction);
        Some(Head {
            at: u64::from(seconds) * 1_000_000_000 + u64::from(nanos),
            captured: captured as usize,
        })
    }
}
