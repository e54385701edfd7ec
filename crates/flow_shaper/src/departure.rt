//! The result of a shaper for a packet.

/// Cause of a packet's departure time: the first of these that holds. Packets and reads count from 0.
#[derive(Clone, Copy, Debug, PartialEq, Eq)]
pub enum Bound {
    /// The packet isn't delayed: it leaves when it comes.
    Arrival,
    /// The bucket: if the packet left a nanosecond earlier, the bucket would hold more than C_MAX packets.
    Bucket {
        /// Latest packet before this one for which the packets from it up to this one, less the drain ticks after it,
        /// are C_MAX.
        from: u64,
    },
    /// The virtual receiver buffer: if the packet left a nanosecond earlier, the buffer would hold more than VRX_FULL
    /// packets.
    Buffer {
        /// Read for which the packet waits.
        read: u64,
    },
    /// The packet before it, with which it leaves. A [`Shaper`](crate::Shaper) never returns this cause: after a
    /// delayed packet the next one waits for a later tick or read.
    Order,
}

/// Departure time of a packet, and its cause.
#[derive(Clone, Copy, Debug, PartialEq, Eq)]
pub struct Departure {
    /// Departure time, in nanoseconds of TAI.
    pub at: u64,
    /// Cause of the departure time.
    pub bound: Bound,
}

/// Packet that can't leave in time.
#[derive(Clone, Copy, Debug, PartialEq, Eq)]
pub struct Late {
    /// Number of the packet, counted from 0.
    pub packet: u64,
}
