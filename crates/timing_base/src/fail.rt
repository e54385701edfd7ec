//! Violations: intervals of packets that break a limit of a sender type.

/// The limit that a sender breaks (SMPTE ST 2110-21).
#[derive(Clone, Copy, Debug, PartialEq, Eq)]
pub enum Broken {
    /// The bucket of the network compatibility model holds more than C_MAX packets.
    Bucket,
    /// The virtual receiver buffer overflows: it holds more packets than its limit.
    Over,
    /// The virtual receiver buffer underflows: a packet isn't there when it is read.
    Empty,
}

/// A violation: an interval of judged packets, counted from 0, that breaks a limit.
#[derive(Clone, Copy, Debug, PartialEq, Eq)]
pub struct FailProof {
    /// The limit that is broken.
    pub model: Broken,
    /// The first packet of the interval. For `Over` it is 0.
    pub from: u64,
    /// The last packet of the interval, which shows the violation.
    pub to: u64,
    /// The number of packets that breaks the limit: for `Bucket` the count of the bucket, for
    /// `Over` the packets in the buffer, for `Empty` the packets that had come when packet `to` was
    /// read.
    pub count: u64,
    /// The limit, in packets: for `Bucket` C_MAX, for `Over` VRX_FULL, for `Empty` `to` plus 1.
    pub limit: u64,
}
