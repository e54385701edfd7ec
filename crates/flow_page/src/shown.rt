//! The contents of a page.

ghost use Rattle.std.specs.Prelude.{◌≡◌, IfOk};
ghost use Rattle.flow_page.specs.Shown.{kind_at, margins_of, type_shown, types_from, types_shown};

use flow_measure::{
    Extremes, KindNumbers, Margins, MeasuredFlow, MeasuredRun, Place, RunNumbers, micros_of,
};
use std::alloc::{AllocError as OutOfMemory, Global};
use timing_base::{FailProof, Items, Judged, Kind, KindVerdict};
use timing_report::{buffer_peak, verdict_on};

/// The columns of a run: at most 1,000 over all its packets or all its frames or fields, and at most 500 with all
/// frames or fields overlaid.
#[derive(Drop)]
pub struct Curves {
    /// The count of the bucket just after each packet, in packets.
    pub bucket: Items<Extremes>,
    /// The occupancy of the buffer by gapped reads just after each packet, in packets.
    pub gapped: Items<Extremes>,
    /// The occupancy of the buffer by linear reads just after each packet, in packets.
    pub linear: Items<Extremes>,
    /// The count of the bucket, all frames or fields overlaid, in packets.
    pub bucket_eye: Items<Extremes>,
    /// The occupancy of the buffer by gapped reads, all frames or fields overlaid, in packets.
    pub gapped_eye: Items<Extremes>,
    /// The occupancy of the buffer by linear reads, all frames or fields overlaid, in packets.
    pub linear_eye: Items<Extremes>,
    /// Nanoseconds from the instant at which each frame or field begins to its first packet.
    pub first: Items<Extremes>,
    /// The same numbers as in `first`, in at most eight columns.
    pub drift: Items<Extremes>,
    /// Nanoseconds from the instant at which each frame or field begins to its last packet.
    pub last: Items<Extremes>,
    /// Ticks of 90 kHz by which each RTP timestamp exceeds the media clock at the instant at which its frame or field
    /// begins.
    pub offset: Items<Extremes>,
    /// Ticks of 90 kHz from each RTP timestamp to the first packet of its frame or field.
    pub latency: Items<Extremes>,
}

/// The packets around a violation: at most 400 columns of the bucket or the buffer that breaks its limit.
#[derive(Drop)]
pub struct Region {
    /// The type that fails.
    pub kind: Kind,
    /// The violation.
    pub proof: FailProof,
    /// The first packet in the picture, from 0.
    pub start: u64,
    /// The count of packets in the picture.
    pub count: u64,
    /// The columns of these packets, one per packet, in packets.
    pub columns: Items<Extremes>,
}

/// The run of a flow that has pictures.
#[derive(Drop)]
pub struct ShownRun {
    /// The run with its measurements.
    pub run: MeasuredRun,
    /// The capture timestamp of its first judged packet, in nanoseconds of TAI, after the shift of the flow.
    pub first_at: u64,
    /// The capture timestamp of its last judged packet, in nanoseconds of TAI, after the shift of the flow.
    pub last_at: u64,
    /// The columns over the run.
    pub curves: Curves,
    /// The packets around the violation of each type that fails.
    pub regions: Items<Region>,
}

/// A flow and its run in pictures.
#[derive(Drop)]
pub struct FlowPage {
    /// The flow with all its judged runs.
    pub flow: MeasuredFlow,
    /// Its run with the most judged packets; `None` if no run is judged.
    pub shown: Option<ShownRun>,
}

/// The values of a judged run for one sender type. Packets, frames and fields count from 0.
#[derive(Clone, Copy)]
pub(crate) struct TypeShown {
    /// The sender type.
    pub(crate) kind: Kind,
    /// The verdict on the type.
    pub(crate) verdict: KindVerdict,
    /// The greatest count of the bucket, in packets.
    pub(crate) bucket_peak: u64,
    /// C_MAX, the limit of the bucket, in packets.
    pub(crate) c_max: u64,
    /// The greatest occupancy of the buffer by the type's reads, in packets.
    pub(crate) buffer_peak: u64,
    /// VRX_FULL, the limit of the buffer, in packets.
    pub(crate) vrx_full: u64,
    /// The count of frames or fields.
    pub(crate) groups: u64,
    /// The count of frames or fields that have a packet that breaks a limit.
    pub(crate) groups_broken: u64,
    /// The count of packets after which the bucket exceeds its limit.
    pub(crate) above_bucket: u64,
    /// The count of packets after which the buffer exceeds its limit.
    pub(crate) above_buffer: u64,
    /// The count of packets after which the buffer is below 0.
    pub(crate) below_buffer: u64,
    /// The count of packets that arrive after their own reads.
    pub(crate) late: u64,
    /// The nanoseconds by which all packets may be later before one is late; if a packet is late, minus the greatest
    /// lateness.
    pub(crate) slack: i128,
    /// The first packet after which the bucket exceeds its limit.
    pub(crate) first_bucket: Option<u64>,
    /// The first packet after which the buffer exceeds its limit.
    pub(crate) first_over: Option<u64>,
    /// The first packet that arrives after its own read.
    pub(crate) first_empty: Option<u64>,
    /// The place in the capture of the last packet of the violation in the verdict.
    pub(crate) named: Option<Place>,
    /// The least offset with which no packet would be late, in microseconds.
    pub(crate) least: Option<u32>,
    /// The greatest offset with which the buffer would never exceed its limit, in microseconds.
    pub(crate) greatest: Option<u32>,
    /// The offset of the SDP, TR_OFFSET or TROFF, in nanoseconds, rounded down.
    pub(crate) offset: u64,
}

/// Returns the margins of the packets by the reads of a type.
fn margins_of(numbers: &RunNumbers, kind: Kind) -> Margins
    ensures { result ≡ margins_of numbers.now kind }
{
    match kind {
        Kind::N => numbers.gapped.margins,
        Kind::NL => numbers.linear.margins,
        Kind::W => numbers.linear.margins,
    }
}

/// Returns the values of a run for one type.
fn type_shown(judged: &Judged, numbers: &RunNumbers, kind: Kind, k: &KindNumbers) -> TypeShown
    ensures { result ≡ type_shown judged.now numbers.now kind k.now }
{
    let margins = margins_of(numbers, kind);
    TypeShown {
        kind,
        verdict: verdict_on(judged, kind),
        bucket_peak: judged.bucket_peak,
        c_max: k.bucket.limit,
        buffer_peak: buffer_peak(judged, kind),
        vrx_full: k.buffer.limit,
        groups: judged.frames,
        groups_broken: k.groups_broken,
        above_bucket: k.bucket.above,
        above_buffer: k.buffer.above,
        below_buffer: k.buffer.below,
        late: margins.late,
        slack: margins.slack,
        first_bucket: k.first_bucket,
        first_over: k.first_over,
        first_empty: k.first_empty,
        named: k.named,
        least: micros_of(k.troff.lower),
        greatest: micros_of(k.troff.upper),
        offset: numbers.target,
    }
}

/// Returns the type at this place of N, NL and W, from 0.
pub(crate) fn kind_at(place: usize) -> Kind
    ensures { result ≡ kind_at place }
{
    match place {
        0 => Kind::N,
        1 => Kind::NL,
        _ => Kind::W,
    }
}

/// Returns the values of a run for the type at this place.
fn type_at(judged: &Judged, numbers: &RunNumbers, place: usize, k: &KindNumbers) -> TypeShown
    ensures { result ≡ type_shown judged.now numbers.now (kind_at place) k.now }
{
    type_shown(judged, numbers, kind_at(place), k)
}

/// Returns the values of a run for the types with these measurements, in the order N, NL, W.
fn types_from(
    alloc: Global,
    judged: &Judged,
    numbers: &RunNumbers,
    kinds: &[KindNumbers],
) -> Result<Vec<TypeShown>, OutOfMemory>
    ensures { IfOk result (λ types. types.items ≡ types_from judged.now numbers.now 0 kinds.now) }
{
    let mut types = Vec::new(alloc);
    for (place, k) in kinds.iter().enumerate() {
        types.push(type_at(judged, numbers, place, k))?;
    }
    Ok(types)
}

/// Returns the values of a run for the types N, NL and W.
pub(crate) fn types_shown(
    alloc: Global,
    judged: &Judged,
    numbers: &RunNumbers,
) -> Result<Vec<TypeShown>, OutOfMemory>
    ensures { IfOk result (λ types. types.items ≡ types_shown judged.now numbers.now) }
{
    types_from(alloc, judged, numbers, numbers.kinds.as_slice())
}
