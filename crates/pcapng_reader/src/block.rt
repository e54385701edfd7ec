//! The blocks of a pcapng file: their types, and the layout of their numbers.

ghost use Rattle.std.specs.Prelude.{◌≡◌, ◌≤◌, ◌+◌, length, drop};
ghost use Rattle.pcapng_reader.specs.Classic.{number, begins_section, kind_of, least_length, is_length, order_of, order_by};

use byteorder::{BigEndian, ByteOrder, LittleEndian};

/// The type of a section header block. Its bytes are a palindrome, so the byte order doesn't
/// matter.
const SECTION: u32 = 0x0a0d_0d0a;

/// The type of an interface description block.
const INTERFACE: u32 = 1;

/// The type of an enhanced packet block.
const PACKET: u32 = 6;

/// The byte-order magic of a section.
const MAGIC: u32 = 0x1a2b_3c4d;

/// The byte order of numbers.
#[derive(Clone, Copy, Debug)]
pub enum Order {
    /// The most significant byte is first (big-endian).
    Big,
    /// The least significant byte is first (little-endian).
    Little,
}

/// The kind of a block.
#[derive(Clone, Copy, Debug)]
pub enum Kind {
    /// A section header.
    Section,
    /// An interface description.
    Interface,
    /// An enhanced packet.
    Packet,
    /// Any other block, which is ignored.
    Other,
}

/// The contents of an interface description.
#[derive(Clone, Copy, Debug)]
pub struct Interface {
    /// The offset of all timestamps, in seconds, as a 64-bit number in two's complement.
    pub offset: u64,
    /// The link type.
    pub link: u16,
    /// The unit of timestamps: 10^-n seconds for a value n below 128, otherwise 2^-(n - 128)
    /// seconds.
    pub resolution: u8,
}

impl Order {
    /// Returns the 16-bit number at a place, in bytes from the start.
    pub fn read_u16(self, bytes: &[u8], place: usize) -> u16
        requires { place + 2 ≤ length bytes.now }
        ensures { result ≡ number self 2 place bytes.now }
    {
        match self {
            Order::Big => BigEndian::read_u16(&bytes[place..]),
            Order::Little => LittleEndian::read_u16(&bytes[place..]),
        }
    }

    /// Returns the 32-bit number at a place, in bytes from the start.
    pub fn read_u32(self, bytes: &[u8], place: usize) -> u32
        requires { place + 4 ≤ length bytes.now }
        ensures { result ≡ number self 4 place bytes.now }
    {
        match self {
            Order::Big => BigEndian::read_u32(&bytes[place..]),
            Order::Little => LittleEndian::read_u32(&bytes[place..]),
        }
    }

    /// Returns the 64-bit number at a place, in bytes from the start.
    pub fn read_u64(self, bytes: &[u8], place: usize) -> u64
        requires { place + 8 ≤ length bytes.now }
        ensures { result ≡ number self 8 place bytes.now }
    {
        match self {
            Order::Big => BigEndian::read_u64(&bytes[place..]),
            Order::Little => LittleEndian::read_u64(&bytes[place..]),
        }
    }

    /// Returns the byte order that the magic of a section gives, or `None` if that is invalid.
    fn of_section(bytes: &[u8]) -> Option<Order>
        requires { 12 ≤ length bytes.now }
        ensures { result ≡ order_of bytes.now }
    {
        if Order::Big.read_u32(bytes, 8) == MAGIC {
            Some(Order::Big)
        } else if Order::Little.read_u32(bytes, 8) == MAGIC {
            Some(Order::Little)
        } else {
            None
        }
    }

    /// Returns the byte order of the block at the start of these bytes, in a section of this order.
    /// A section header has its own order.
    pub fn of_block(self, bytes: &[u8]) -> Option<Order>
        requires { 12 ≤ length bytes.now }
        ensures { result ≡ order_by self bytes.now }
    {
        if begins_section(bytes) {
            Order::of_section(bytes)
        } else {
            Some(self)
        }
    }
}

impl Kind {
    /// Returns the kind of the block at the start of these bytes.
    pub fn of_block(order: Order, bytes: &[u8]) -> Kind
        requires { 4 ≤ length bytes.now }
        ensures { result ≡ kind_of order bytes.now }
    {
        match order.read_u32(bytes, 0) {
            SECTION => Kind::Section,
            INTERFACE => Kind::Interface,
            PACKET => Kind::Packet,
            _ => Kind::Other,
        }
    }

    /// Returns the least length of a block of this kind, in bytes.
    fn least_length(self) -> u32
        ensures { result ≡ least_length self }
    {
        match self {
            Kind::Section => 28,
            Kind::Interface => 20,
            Kind::Packet => 32,
            Kind::Other => 12,
        }
    }

    /// Returns whether a block of this kind can have this total length, in bytes.
    pub fn is_length(self, total: u32) -> bool
        ensures { result ≡ is_length self total }
    {
        total % 4 == 0 && total >= self.least_length()
    }
}

/// Returns whether these bytes begin with a section header.
pub fn begins_section(bytes: &[u8]) -> bool
    ensures { result ≡ begins_section bytes.now }
{
    bytes.len() >= 4 && Order::Big.read_u32(bytes, 0) == SECTION
}
