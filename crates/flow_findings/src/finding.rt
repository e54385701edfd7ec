//! What is found wrong, or right, with the flow of a media.

ghost use Rattle.std.specs.Prelude.{◌≡◌};
ghost use Rattle.flow_findings.specs.Words.{finding_name};

use capture_scan::PassedOver;
use flow_measure::Place;
use timing_base::{PacketFault, Target};

/// The reason why a flow is refused.
#[derive(Clone, Copy, Debug, PartialEq, Eq)]
pub enum Refusal {
    /// A packet has a fault.
    Fault(PacketFault),
    /// The packet numbers have one gap more than is allowed.
    Gap {
        /// The packet number after that of the packet before.
        expected: u32,
        /// The number of the packet.
        got: u32,
    },
}

/// A frame rate, as the SDP describes it: `p / q` frames per second.
#[derive(Clone, Copy, Debug, PartialEq, Eq)]
pub struct DescribedRate {
    /// The numerator, in frames.
    pub p: u32,
    /// The denominator, in seconds.
    pub q: u32,
}

/// The least and the greatest step of the RTP timestamp from one frame or field to the next, in ticks of 90 kHz.
#[derive(Clone, Copy, Debug, PartialEq, Eq)]
pub struct Steps {
    /// The least step.
    pub least: i64,
    /// The greatest step.
    pub greatest: i64,
}

/// The offsets (TROFF) with which the packets of a run would keep the buffer of a sender type, in microseconds from 0
/// to 1,000,000. If `least` is above `greatest`, or one of them is missing, no offset serves.
#[derive(Clone, Copy, Debug, PartialEq, Eq)]
pub struct Offsets {
    /// The least offset with which no packet comes after its own read; `None` if there is none.
    pub least: Option<u32>,
    /// The greatest offset with which the buffer never holds more than VRX_FULL; `None` if there is none.
    pub greatest: Option<u32>,
}

/// The packets of a run that break the receiver buffer of a sender type, and the offsets that would serve.
#[derive(Clone, Copy, Debug, PartialEq, Eq)]
pub struct BrokenBuffer {
    /// The count of packets that come after their own reads.
    pub late: u64,
    /// The count of packets after which the buffer holds more than VRX_FULL.
    pub above: u64,
    /// The nanoseconds by which all packets may be later before one is late, rounded down; below 0 if one is late.
    pub slack: i64,
    /// The offsets that would serve.
    pub offsets: Offsets,
    /// TR_OFFSET (or TROFF) in nanoseconds, rounded down.
    pub target: u64,
}

/// A finding on the flow of a media, with its numbers. Those from `Rate` on are of the judged run that is shown.
#[derive(Clone, Copy, Debug, PartialEq, Eq)]
pub enum Finding {
    /// No packet comes to the target of the media, but a stream of video comes to a similar target that the SDP
    /// doesn't have.
    Elsewhere {
        /// The target of the first such stream.
        target: Target,
        /// The count of its packets.
        packets: u64,
    },
    /// No packet comes to the target of the media.
    Absent {
        /// The Ethernet frames without a target, by class.
        passed_over: PassedOver,
        /// The count of streams in the capture.
        streams: u64,
    },
    /// The flow is refused.
    Refused {
        /// The packet record at which it is refused, from 1.
        rec: u64,
        /// The reason.
        cause: Refusal,
    },
    /// No run of the flow has a whole frame or field.
    Unmarked {
        /// The count of packets of the flow.
        packets: u64,
        /// The count of packets with the marker; `None` if their stream isn't among those that a scan lists.
        markers: Option<u64>,
    },
    /// The sequence number wraps, and the extended sequence number stays 0.
    Wrap {
        /// The count of such gaps.
        gaps: u64,
    },
    /// Packets are missing.
    Loss {
        /// The count of such gaps.
        gaps: u64,
        /// The count of missing packets.
        missing: u64,
    },
    /// Packet numbers go back.
    Order {
        /// The count of such gaps.
        gaps: u64,
    },
    /// The frame rate isn't the described one.
    Rate {
        /// The described frame rate.
        described: DescribedRate,
        /// The steps of the RTP timestamp; `None` for one frame or field.
        steps: Option<Steps>,
        /// The mean time from one frame or field to the next in nanoseconds, rounded down; `None` for one frame or
        /// field.
        period: Option<u64>,
    },
    /// RTP timestamps are TAI, and capture timestamps UTC.
    Utc {
        /// The ticks of 90 kHz by which the RTP timestamp of the first frame or field exceeds the media clock.
        offset: i64,
    },
    /// Capture timestamps were TAI before seconds were added.
    TaiTwice {
        /// The ticks of 90 kHz by which the RTP timestamp of the first frame or field exceeds the media clock.
        offset: i64,
    },
    /// The bucket holds more than C_MAX.
    Burst {
        /// The greatest count of the bucket, in packets.
        greatest: u64,
        /// C_MAX, in packets.
        limit: u64,
        /// The count of packets after which the bucket exceeds C_MAX.
        packets: u64,
        /// The count of frames or fields that have such a packet.
        groups: u64,
        /// The place in the capture of the first such packet.
        first: Place,
        /// The greatest time from the first packet of a frame or field to its last, in nanoseconds.
        span: u64,
        /// T_GROUP in nanoseconds, rounded down.
        period: u64,
    },
    /// The packets break the receiver buffer, and another offset (TROFF) would serve.
    Phase(BrokenBuffer),
    /// The packets break the receiver buffer, and no offset (TROFF) would serve.
    Pacing(BrokenBuffer),
    /// The first packets of the frames or fields drift.
    Drift {
        /// The drift in tenths of a ppm, rounded toward zero; below 0 if they come earlier and earlier.
        ppm10: i64,
    },
    /// Few frames or fields break a limit.
    Rare {
        /// The count of frames or fields that break a limit.
        broken: u64,
        /// The count of frames or fields.
        groups: u64,
        /// The first that breaks a limit, from 1.
        first: u64,
    },
    /// All packets keep the limits.
    Pass {
        /// The greatest count of the bucket, in packets.
        bucket: u64,
        /// C_MAX, in packets.
        bucket_limit: u64,
        /// The greatest occupancy of the buffer, in packets.
        buffer: u64,
        /// VRX_FULL, in packets.
        buffer_limit: u64,
        /// The nanoseconds by which all packets may be later before one is late, rounded down.
        slack: i64,
    },
    /// All capture timestamps are whole microseconds.
    Microseconds {
        /// T_DRAIN in nanoseconds, rounded down.
        drain: u64,
    },
    /// RTP timestamps differ from the media clock.
    Unlocked {
        /// The ticks of 90 kHz by which the RTP timestamp of the first frame or field exceeds the media clock.
        offset: i64,
    },
}

impl Finding {
    /// Returns the name of the finding.
    pub fn name(&self) -> &'static str
        ensures { result.now ≡ finding_name self.now }
    {
        match self {
            Finding::Elsewhere { .. } => "elsewhere",
            Finding::Absent { .. } => "absent",
            Finding::Refused { .. } => "refused",
            Finding::Unmarked { .. } => "unmarked",
            Finding::Wrap { .. } => "wrap",
            Finding::Loss { .. } => "loss",
            Finding::Order { .. } => "order",
            Finding::Rate { .. } => "rate",
            Finding::Utc { .. } => "utc",
            Finding::TaiTwice { .. } => "tai_twice",
            Finding::Burst { .. } => "burst",
            Finding::Phase(_) => "phase",
            Finding::Pacing(_) => "pacing",
            Finding::Drift { .. } => "drift",
            Finding::Rare { .. } => "rare",
            Finding::Pass { .. } => "pass",
            Finding::Microseconds { .. } => "microseconds",
            Finding::Unlocked { .. } => "unlocked",
        }
    }
}
