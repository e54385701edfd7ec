//! The data kept of a packet.

ghost use Rattle.std.specs.Prelude.{◌<◌, ◌^◌};

/// First packet with a packet number.
#[derive(Clone, Copy, Debug)]
pub struct Arrival {
    /// Packet record, counted from 1.
    pub rec: u64,
    /// Capture timestamp, in nanoseconds.
    pub at: u64,
    ghost in_time: { at < 2 ^ 62 },
}
