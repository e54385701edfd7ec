//! The result for two flows.

/// Skew of one packet number, with the packet records of its first packets in both flows.
#[derive(Clone, Copy, Debug, PartialEq, Eq)]
pub struct Extreme {
    /// Capture timestamp in the second flow less that in the first, in nanoseconds.
    pub skew: i64,
    /// Packet record in the first flow, counted from 1.
    pub first_rec: u64,
    /// Packet record in the second flow, counted from 1.
    pub second_rec: u64,
}

/// Comparison of two flows, packet number by packet number.
#[derive(Clone, Copy, Debug, PartialEq, Eq)]
pub struct SkewRow {
    /// Packet numbers in both flows.
    pub matched: u64,
    /// Packet numbers in the first flow only.
    pub first_only: u64,
    /// Packet numbers in the second flow only.
    pub second_only: u64,
    /// Packets of both flows with a packet number that came before in their own flow.
    pub repeated: u64,
    /// Packets of both flows that couldn't be parsed.
    pub unread: u64,
    /// Least skew of a matched packet number; `None` if none is matched.
    pub least: Option<Extreme>,
    /// Greatest skew of a matched packet number; `None` if none is matched.
    pub greatest: Option<Extreme>,
}
