//! The result of a scan.

use crate::stream::Stream;
use timing_base::Target;

/// The numbers of Ethernet frames without a target, by class.
#[derive(Clone, Copy, Debug, PartialEq, Eq)]
pub struct PassedOver {
    /// Frames of class `Empty`.
    pub empty: u64,
    /// Frames of class `Tags`.
    pub tags: u64,
    /// Frames of class `Ipv6`.
    pub ipv6: u64,
    /// Frames of class `Other`.
    pub other: u64,
    /// Frames of class `NotUdp`.
    pub not_udp: u64,
    /// Frames of class `Fragment`.
    pub fragment: u64,
    /// Frames of class `Broken`.
    pub broken: u64,
}

/// A target with packets that aren't read as RTP.
#[derive(Clone, Copy, Debug, PartialEq, Eq)]
pub struct UnreadTarget {
    /// The address and the port.
    pub target: Target,
    /// The number of these packets.
    pub packets: u64,
}

/// The capture timestamps of the first and the last packet record, in nanoseconds.
#[derive(Clone, Copy, Debug, PartialEq, Eq)]
pub struct Span {
    /// The capture timestamp of the first record.
    pub first: u64,
    /// The capture timestamp of the last record.
    pub last: u64,
}

/// The result of a scan.
#[derive(Drop)]
pub struct Found {
    /// The number of packet records.
    pub records: u64,
    /// The capture timestamps of the first and the last record; `None` without a record.
    pub span: Option<Span>,
    /// The frames without a target.
    pub passed_over: PassedOver,
    /// The first 1,024 streams, in the order of their first packets.
    pub streams: Vec<Stream>,
    /// The first 1,024 targets with unread packets, in the order of their first unread packets.
    pub unread: Vec<UnreadTarget>,
    /// The number of packets of further streams, and of unread packets to further targets.
    pub more: u64,
}
