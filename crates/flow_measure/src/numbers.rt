//! The measurements of one judged run.

use crate::bins::Bins;
use crate::classes::Classes;
use crate::margin::Margins;
use crate::summary::Summary;
use offset_window::Window;
use timing_base::{Items, Judged, Verdict};

/// The occupancy of the receiver buffer by the reads of one schedule.
#[derive(Clone, Copy)]
pub struct Buffer {
    /// The occupancy just after each packet, in packets, with the reads at that instant done; below 0 if the reads are
    /// ahead.
    pub occupancy: Summary,
    /// The margin by which packets arrive before their own reads.
    pub margins: Margins,
}

/// The place of a packet in the capture.
#[derive(Clone, Copy, Debug, PartialEq, Eq)]
pub struct Place {
    /// The number of its packet record, from 1.
    pub record: u64,
    /// Its capture timestamp in nanoseconds of TAI, after the shift of its flow.
    pub stamp: u64,
}

/// The measurements of a run against the limits of one sender type.
#[derive(Clone, Copy)]
pub struct KindNumbers {
    /// The count of frames or fields that have a packet that breaks a limit.
    pub groups_broken: u64,
    /// The histogram of the bucket just after each packet, in packets, up to C_MAX.
    pub bucket: Bins,
    /// The histogram of the buffer just after each packet by the type's schedule, in packets, up to VRX_FULL.
    pub buffer: Bins,
    /// The first packet after which the bucket holds more than C_MAX, from 0; `None` if there is none.
    pub first_bucket: Option<u64>,
    /// The first packet after which the buffer holds more than VRX_FULL, from 0; `None` if there is none.
    pub first_over: Option<u64>,
    /// The first packet that arrives after its own read, from 0; `None` if there is none.
    pub first_empty: Option<u64>,
    /// The place of packet `to` of the violation in the verdict; `None` if the type passes.
    pub named: Option<Place>,
    /// The offsets (TROFF) with which the packets would keep the buffer, in microseconds.
    pub troff: Window,
}

/// The times from each packet to the next, in nanoseconds.
#[derive(Clone, Copy)]
pub struct Gaps {
    /// The least, the greatest, the sum, the first and the last of these times.
    pub summary: Summary,
    /// The histogram of these times, in classes that double.
    pub classes: Classes,
}

/// The measurements of one judged run. Packets, frames and fields are counted from 0.
#[derive(Clone, Copy)]
pub struct RunNumbers {
    /// The count of the bucket just after each packet, in packets.
    pub bucket: Summary,
    /// The buffer by gapped reads, as for type N.
    pub gapped: Buffer,
    /// The buffer by linear reads, as for types NL and W.
    pub linear: Buffer,
    /// The types N, NL and W, in this order.
    pub kinds: [KindNumbers; 3],
    /// Nanoseconds from the instant at which each frame or field begins to its first packet.
    pub first: Summary,
    /// Nanoseconds from the instant at which each frame or field begins to its last packet.
    pub last: Summary,
    /// TR_OFFSET (or TROFF) in nanoseconds, rounded down.
    pub target: u64,
    /// Ticks of 90 kHz from each RTP timestamp to that of the next frame or field; `None` if there is only one.
    pub step: Option<Summary>,
    /// Ticks by which each RTP timestamp exceeds the media clock at the instant at which its frame or field begins.
    pub offset: Summary,
    /// Ticks from each RTP timestamp to the first packet of its frame or field.
    pub latency: Summary,
    /// The times from each packet to the next; `None` if there is only one packet.
    pub gap: Option<Gaps>,
}

/// A judged run of a flow and its measurements.
#[derive(Clone, Copy)]
pub struct MeasuredRun {
    /// The number of the run among all runs of the flow, judged or not, from 1.
    pub run: u64,
    /// The packet record of its first packet, head included, from 1.
    pub record: u64,
    /// The 32-bit sequence number of that packet (RFC 4175).
    pub number: u32,
    /// The verdict on the run, with its counts and peaks.
    pub judged: Judged,
    /// The measurements.
    pub numbers: RunNumbers,
}

/// A flow and its judged runs.
#[derive(Drop)]
pub struct MeasuredFlow {
    /// The index of its media, from 0.
    pub media: u32,
    /// The count of its packets in the capture, judged or not.
    pub packets: u64,
    /// The SSRC of the first packet that is read; `None` if no packet is read.
    pub ssrc: Option<u32>,
    /// The verdict on the flow.
    pub verdict: Verdict,
    /// The judged runs alone, in order.
    pub runs: Items<MeasuredRun>,
}
