//! The input of a meter: the head of a run, and its packets.

/// A run of a flow, identified by its first packet.
#[derive(Clone, Copy, Debug, PartialEq, Eq)]
pub struct RunHead {
    /// Position among all runs of the flow, judged or not, counted from 1.
    pub run: u64,
    /// Packet record of the run's first packet, counted from 1.
    pub rec: u64,
    /// Packet number of that packet: the extended sequence number times 65,536, plus RTP's own.
    pub number: u32,
}

/// A packet of a run after the run's first marker.
#[derive(Clone, Copy, Debug, PartialEq, Eq)]
pub struct RunPacket {
    /// Packet record, counted from 1.
    pub rec: u64,
    /// Capture timestamp, in nanoseconds of TAI.
    pub at: u64,
    /// RTP timestamp, in ticks of 90 kHz.
    pub timestamp: u32,
}
