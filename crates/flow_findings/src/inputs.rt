//! What is known of the captures and of a flow, before anything is explained.

use capture_scan::{PassedOver, Stream};
use flow_measure::{MeasuredRun, Place, Slope};
use timing_base::{Items, Verdict};

/// What is known of the captures as a whole.
#[derive(Drop)]
pub struct KnownCaptures {
    /// The count of packet records.
    pub records: u64,
    /// The Ethernet frames without a target, by class.
    pub passed_over: PassedOver,
    /// The first 1,024 streams, in the order of their first packets.
    pub streams: Items<Stream>,
    /// Whether each capture timestamp, as the files have it and before the shift of the flows, is a whole number of
    /// microseconds.
    pub whole_microseconds: bool,
    /// Whether the packets of the flows are numbered by their 16-bit sequence numbers alone (`--seq16`).
    pub seq16: bool,
}

/// The packets of a run after which the bucket exceeds C_MAX of one sender type.
#[derive(Clone, Copy, Debug, PartialEq, Eq)]
pub struct Overfull {
    /// The count of frames or fields that have such a packet.
    pub groups: u64,
    /// The place in the capture of the first such packet; `None` if there is none.
    pub first: Option<Place>,
}

/// What the findings on a run need beside its measurements.
#[derive(Clone, Copy)]
pub struct RunDetails {
    /// The packets that exceed C_MAX of the types N, NL and W, in this order.
    pub overfull: [Overfull; 3],
    /// The capture timestamp of the first judged packet, in nanoseconds of TAI, after the shift of the flow.
    pub first_at: u64,
    /// The capture timestamp of the first packet of the last frame or field, in nanoseconds of TAI, after the shift of
    /// the flow.
    pub last_group_at: u64,
    /// The greatest time from the first packet of a frame or field to its last, in nanoseconds.
    pub span: u64,
    /// The slope of the first packets of the frames or fields, from their curve in at most eight columns; `None` if
    /// they don't drift by more than they scatter.
    pub slope: Option<Slope>,
}

/// The judged run of a flow with the most judged packets; of equal ones the first.
#[derive(Clone, Copy)]
pub struct ShownRun {
    /// The run with its measurements.
    pub run: MeasuredRun,
    /// What isn't among its measurements.
    pub details: RunDetails,
}

/// What is known of the flow of a media.
#[derive(Drop)]
pub struct KnownFlow {
    /// The index of its media, from 0.
    pub media: u32,
    /// The verdict on the flow.
    pub verdict: Verdict,
    /// The count of its packets in the captures, judged or not.
    pub packets: u64,
    /// The run that is shown; `None` if no run is judged.
    pub shown: Option<ShownRun>,
}
