//! The numbers of a stream.

use timing_base::Target;

/// The packet record and the capture timestamp of a packet.
#[derive(Clone, Copy)]
pub struct Arrival {
    /// The number of the packet record, counted from 1.
    pub rec: u64,
    /// The capture timestamp, in nanoseconds.
    pub at: u64,
}

/// The order of the 16-bit sequence numbers of a stream (RFC 3550, section 5.1). Each is compared with the one before
/// it.
#[derive(Clone, Copy)]
pub struct Order {
    /// The sequence numbers that were skipped: 1 to 32,767 at once.
    pub lost: u64,
    /// The packets with a sequence number that goes back by 1 to 32,767.
    pub back: u64,
    /// The packets that repeat the sequence number before them.
    pub same: u64,
    /// The wraps from 65,535 to 0 at which the extended sequence number stays the same.
    pub wraps: u64,
}

/// The least and the greatest of some numbers.
#[derive(Clone, Copy)]
pub struct Range {
    /// The least number.
    pub least: u64,
    /// The greatest number.
    pub greatest: u64,
}

/// A mean step, as a sum and a count.
#[derive(Clone, Copy)]
pub struct Rate {
    /// The sum of the steps, in ticks of 90 kHz.
    pub ticks: u128,
    /// The number of steps.
    pub steps: u64,
}

/// The numbers from one packet with the marker to the next.
#[derive(Clone, Copy)]
pub struct Pace {
    /// The packets of a frame: those behind the first marker, up to the second.
    pub frame: Range,
    /// The step of the RTP timestamp, in ticks of 90 kHz, modulo 2^32.
    pub step: Range,
    /// The mean of these steps.
    pub rate: Rate,
}

/// The first line header of each packet of a stream.
#[derive(Clone, Copy)]
pub struct Lines {
    /// The greatest line number, counted from 0.
    pub greatest: u16,
    /// Whether a line is of the second field.
    pub second_field: bool,
    /// Whether all line headers fit raw video. If one doesn't, the stream isn't raw video, and the other two fields
    /// mean nothing.
    pub fits: bool,
}

/// The numbers of a stream: of the packets with one target and one SSRC, in the order of their packet records.
#[derive(Clone, Copy)]
pub struct Stream {
    /// The source address and port of the first packet.
    pub source: Target,
    /// The destination address and port.
    pub target: Target,
    /// The synchronization source (RFC 3550, section 5.1).
    pub ssrc: u32,
    /// The payload type of the first packet.
    pub pt: u8,
    /// The number of packets with another payload type.
    pub pts: u64,
    /// The number of packets.
    pub packets: u64,
    /// The number of packets with the marker.
    pub markers: u64,
    /// The first packet.
    pub first: Arrival,
    /// The last packet.
    pub last: Arrival,
    /// The sum of the total lengths of IPv4, in bytes.
    pub bytes: u64,
    /// The order of the sequence numbers.
    pub order: Order,
    /// The numbers between markers; `None` if fewer than two packets have the marker.
    pub pace: Option<Pace>,
    /// The line headers; `None` if none was captured whole.
    pub lines: Option<Lines>,
}
