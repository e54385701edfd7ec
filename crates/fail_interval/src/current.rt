//! The run of a flow that hasn't ended.

/// A run of a flow that hasn't ended.
#[derive(Clone, Copy, Debug, PartialEq, Eq)]
pub struct RunSoFar {
    /// Position among all runs of the flow, judged or not, counted from 1.
    pub run: u64,
    /// Packet record of the first packet, counted from 1.
    pub rec: u64,
    /// Packet number of the first packet.
    pub number: u32,
    /// Packet number that would have continued the run before; `None` for the first run.
    pub expected: Option<u32>,
    /// Whether the run has a complete frame or field.
    pub whole: bool,
}
