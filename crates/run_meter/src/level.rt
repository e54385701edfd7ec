//! The state of the two models of SMPTE ST 2110-21 just after a packet.

use vrx_buffer::Held;

/// State of the bucket and of the virtual receiver buffer just after a packet arrived (SMPTE ST 2110-21).
#[derive(Clone, Copy, Debug, PartialEq, Eq)]
pub struct Level {
    /// Packets in the leaky bucket of the network compatibility model.
    pub bucket: u64,
    /// State of the virtual receiver buffer with the gapped reads (N).
    pub gapped: Held,
    /// State of the virtual receiver buffer with the linear reads (NL and W).
    pub linear: Held,
}
