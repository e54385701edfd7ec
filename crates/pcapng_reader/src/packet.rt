//! Enhanced packet blocks, and the packet records that they give.

ghost use Rattle.std.specs.Prelude.{◌≡◌, ◌≤◌, ◌<◌, ◌*◌, ◌^◌, ◌-◌, None, Some, length, if◌then◌else◌, IfSome};
ghost use Rattle.pcapng_reader.specs.Classic.{nanos, is_late};
ghost use Rattle.pcapng_reader.specs.Converting.{fate_by, IsFate};
ghost use Rattle.pcapng_reader.specs.Described.{list_of};
ghost use Rattle.pcapng_reader.specs.Wholes.{IsWhole};

use crate::block::{Interface, Kind, Order, begins_section};
use crate::interfaces::Interfaces;

/// The link type of Ethernet.
const ETHERNET: u16 = 1;

/// The most captured bytes of a packet.
const MOST_CAPTURED: u32 = 262_144;

/// The end of the range of capture timestamps in a classic capture, in nanoseconds since 1970-01-01
/// 00:00:00.
const STAMPS_END: u64 = 4_294_967_296_000_000_000;

/// The result of reading the start of a packet block.
#[derive(Clone, Copy, Debug)]
pub enum Fate {
    /// The block is malformed.
    Broken,
    /// A classic capture can't represent the timestamp.
    Late,
    /// A packet record with the capture timestamp `at`, in nanoseconds since 1970-01-01 00:00:00,
    /// and `len` captured bytes.
    Record { at: u64, len: u32 },
}

/// A packet block that is completely in the buffer and gives a packet record.
#[derive(Clone, Copy, Debug)]
pub struct Whole {
    /// The capture timestamp, in nanoseconds since 1970-01-01 00:00:00.
    pub at: u64,
    /// The number of data bytes in the packet record.
    pub len: u32,
    /// The total length of the block, in bytes.
    pub total: u32,
}

impl Interface {
    /// Returns the unit of timestamps in nanoseconds. The unit has to be decimal, and at least a
    /// nanosecond.
    fn unit(self) -> u64
        requires { self.resolution ≤ 9 }
        ensures { result ≡ 10 ^ (9 - self.resolution) }
    {
        match self.resolution {
            0 => 1_000_000_000,
            1 => 100_000_000,
            2 => 10_000_000,
            3 => 1_000_000,
            4 => 100_000,
            5 => 10_000,
            6 => 1_000,
            7 => 100,
            8 => 10,
            _ => 1,
        }
    }

    /// Returns a timestamp in nanoseconds since 1970-01-01 00:00:00, or `None` if a classic capture
    /// can't represent it.
    pub fn nanos(self, stamp: u64) -> Option<u64>
        ensures value { result ≡ (if is_late self stamp then None else Some (nanos self stamp)) }
        ensures below { IfSome result (λ at. at < 2 ^ 32 * 10 ^ 9) }
    {
        if self.resolution > 9 || self.offset != 0 {
            return None;
        }
        match stamp.checked_mul(self.unit()) {
            Some(at) if at < STAMPS_END => Some(at),
            _ => None,
        }
    }
}

/// Returns the result of reading the start of a packet block of `total` bytes. `found` is its
/// interface, if the section has that.
#[inline(always)]
pub fn fate_of(order: Order, total: u32, found: Option<Interface>, head: &[u8]) -> Fate
    requires whole { 28 ≤ length head.now }
    requires total { 32 ≤ total }
    ensures fate { result ≡ fate_by found order total head.now }
    ensures fits { IsFate total result }
{
    let Some(interface) = found else {
        return Fate::Broken;
    };
    let captured = order.read_u32(head, 20);
    if captured > MOST_CAPTURED || total - 4 < 28 + captured {
        return Fate::Broken;
    }
    let high = order.read_u32(head, 12);
    let low = order.read_u32(head, 16);
    let stamp = u64::from(high) * 4_294_967_296 + u64::from(low);
    match interface.nanos(stamp) {
        None => Fate::Late,
        Some(at) => Fate::Record {
            at,
            len: if interface.link == ETHERNET {
                captured
            } else {
                0
            },
        },
    }
}

/// Returns the packet at the start of the buffered bytes, if its whole block is there and gives a
/// packet record. The section has this byte order and these interfaces.
#[inline(always)]
pub fn whole_packet(order: Order, interfaces: &Interfaces, held: &[u8]) -> Option<Whole>
    ensures { IfSome result (IsWhole order (list_of interfaces.now) held.now) }
{
    if held.len() < 32 || begins_section(held) {
        return None;
    }
    let Kind::Packet = Kind::of_block(order, held) else {
        return None;
    };
    let total = order.read_u32(held, 4);
    let size = total as usize;
    if total % 4 != 0 || total < 32 || held.len() < size {
        return None;
    }
    if order.read_u32(held, size - 4) != total {
        return None;
    }
    let found = interfaces.get(order.read_u32(held, 8));
    match fate_of(order, total, found, held) {
        Fate::Record { at, len } => Some(Whole { at, len, total }),
        Fate::Broken | Fate::Late => None,
    }
}
