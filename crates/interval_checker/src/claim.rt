//! The claim of a violation.

use timing_base::{FailProof, Kind, Media, Shift};

/// Claim of a violation by a run of a flow, for a sender type.
#[derive(Drop)]
pub struct Claim {
    /// Media of the flow.
    pub media: Media,
    /// Sender type.
    pub kind: Kind,
    /// Run, counted from 0.
    pub run: u32,
    /// Claimed violation.
    pub proof: FailProof,
    /// Shift of the flow's capture timestamps.
    pub shift: Shift,
}
