//! The numbers of the run that is shown, for the sender type that its findings are of.

ghost use Rattle.std.specs.Prelude.{◌≡◌};
ghost use Rattle.flow_findings.specs.Numbers.{drain_ns, kind_of, limits_for, limits_of, margins_for, narrowed, numbers_for, numbers_of, overfull_for, period_between, period_ns, steps_in};

use crate::finding::{Offsets, Steps};
use crate::inputs::{Overfull, RunDetails, ShownRun};
use flow_measure::{KindNumbers, Margins, RunNumbers, Slope, Summary, micros_of};
use sender_params::groups_per_frame;
use timing_base::{Judged, Kind, KindVerdict, Media};
use timing_report::{buffer_peak, first_passing, verdict_on};

/// The limits of a sender type, and the packets of a run against them.
#[derive(Clone, Copy)]
pub struct LimitNumbers {
    /// C_MAX, in packets.
    pub c_max: u64,
    /// VRX_FULL, in packets.
    pub vrx_full: u64,
    /// The count of packets after which the bucket exceeds C_MAX.
    pub above_bucket: u64,
    /// The count of packets after which the buffer exceeds VRX_FULL.
    pub above_buffer: u64,
    /// The count of frames or fields that have a packet that breaks a limit.
    pub groups_broken: u64,
    /// The offsets (TROFF) with which the packets would keep the buffer.
    pub offsets: Offsets,
}

/// The numbers of the run that is shown, for the sender type that its findings are of. Packets count from 0.
#[derive(Clone, Copy)]
pub struct ShownNumbers {
    /// The sender type.
    pub kind: Kind,
    /// The verdict on this type.
    pub verdict: KindVerdict,
    /// The count of packets in each frame or field.
    pub n: u32,
    /// The count of judged frames or fields.
    pub groups: u64,
    /// The count of judged packets.
    pub packets: u64,
    /// The greatest count of the bucket, in packets.
    pub bucket_peak: u64,
    /// The greatest occupancy of the buffer by the type's reads, in packets.
    pub buffer_peak: u64,
    /// The limits of the type, and the packets against them.
    pub limits: LimitNumbers,
    /// The packets after which the bucket exceeds C_MAX.
    pub overfull: Overfull,
    /// The count of packets that come after their own reads.
    pub late: u64,
    /// The nanoseconds by which all packets may be later before one is late, rounded down; below 0 if one is late.
    pub slack: i64,
    /// TR_OFFSET (or TROFF) in nanoseconds, rounded down.
    pub target: u64,
    /// The greatest time from the first packet of a frame or field to its last, in nanoseconds.
    pub span: u64,
    /// T_GROUP in nanoseconds, rounded down.
    pub period: u64,
    /// T_DRAIN in nanoseconds, rounded down.
    pub drain: u64,
    /// The steps of the RTP timestamp; `None` for one frame or field.
    pub steps: Option<Steps>,
    /// The mean time from one frame or field to the next in nanoseconds, rounded down; `None` for one frame or field.
    pub mean_period: Option<u64>,
    /// The slope of the first packets of the frames or fields.
    pub slope: Option<Slope>,
    /// The ticks of 90 kHz by which the RTP timestamp of the first frame or field exceeds the media clock.
    pub offset: i64,
}

/// Returns the sender type that the findings are of: the declared one; if none is declared, the first of N, NL and W
/// that passes, and W if none does.
pub fn kind_of(declared: Option<Kind>, judged: &Judged) -> Kind
    ensures { result ≡ kind_of declared judged.now }
{
    match declared {
        Some(kind) => kind,
        None => match first_passing(judged) {
            Some(kind) => kind,
            None => Kind::W,
        },
    }
}

/// Returns a number with 64 bits; one that has more becomes the nearest that doesn't.
fn narrowed(number: i128) -> i64
    ensures { result ≡ narrowed number }
{
    if number < i128::from(i64::MIN) {
        i64::MIN
    } else if i128::from(i64::MAX) < number {
        i64::MAX
    } else {
        number as i64
    }
}

/// Returns the limits in the measurements for one type, and the packets against them.
fn limits_of(kind: &KindNumbers) -> LimitNumbers
    ensures { result ≡ limits_of kind.now }
{
    LimitNumbers {
        c_max: kind.bucket.limit,
        vrx_full: kind.buffer.limit,
        above_bucket: kind.bucket.above,
        above_buffer: kind.buffer.above,
        groups_broken: kind.groups_broken,
        offsets: Offsets {
            least: micros_of(kind.troff.lower),
            greatest: micros_of(kind.troff.upper),
        },
    }
}

/// Returns the limits of this type, and the packets against them.
fn limits_for(numbers: &RunNumbers, kind: Kind) -> LimitNumbers
    ensures { result ≡ limits_for numbers.now kind }
{
    let [n, nl, w] = numbers.kinds;
    match kind {
        Kind::N => limits_of(&n),
        Kind::NL => limits_of(&nl),
        Kind::W => limits_of(&w),
    }
}

/// Returns the packets after which the bucket exceeds C_MAX of this type.
fn overfull_for(types: [Overfull; 3], kind: Kind) -> Overfull
    ensures { result ≡ overfull_for types kind }
{
    let [n, nl, w] = types;
    match kind {
        Kind::N => n,
        Kind::NL => nl,
        Kind::W => w,
    }
}

/// Returns the margins of the packets by the reads of a type.
fn margins_for(numbers: &RunNumbers, kind: Kind) -> Margins
    ensures { result ≡ margins_for numbers.now kind }
{
    match kind {
        Kind::N => numbers.gapped.margins,
        Kind::NL | Kind::W => numbers.linear.margins,
    }
}

/// Returns the least and the greatest step.
fn steps_in(steps: Option<Summary>) -> Option<Steps>
    ensures { result ≡ steps_in steps }
{
    match steps {
        None => None,
        Some(steps) => Some(Steps {
            least: narrowed(steps.least),
            greatest: narrowed(steps.greatest),
        }),
    }
}

/// Returns T_GROUP in nanoseconds, rounded down.
fn period_ns(media: &Media) -> u64
    ensures { result ≡ period_ns media.now }
{
    let groups = u64::from(media.p) * u64::from(groups_per_frame(media));
    u64::from(media.q) * 1_000_000_000 / groups.max(1)
}

/// Returns T_DRAIN in nanoseconds, rounded down.
fn drain_ns(media: &Media, n: u32) -> u64
    ensures { result ≡ drain_ns media.now n }
{
    let per_frame = u128::from(groups_per_frame(media)) * u128::from(n);
    let drains = 11 * u128::from(media.p) * per_frame;
    (10_000_000_000 * u128::from(media.q) / drains.max(1)) as u64
}

/// Returns the mean time from one frame or field to the next in nanoseconds, rounded down; `None` for one frame or
/// field.
fn period_between(first_at: u64, last_group_at: u64, groups: u64) -> Option<u64>
    ensures { result ≡ period_between first_at last_group_at groups }
{
    if groups < 2 {
        None
    } else {
        Some(last_group_at.saturating_sub(first_at) / (groups - 1))
    }
}

/// Returns the numbers of the run with this verdict and these measurements for one sender type.
fn numbers_for(
    media: &Media,
    judged: &Judged,
    numbers: &RunNumbers,
    details: RunDetails,
    kind: Kind,
) -> ShownNumbers
    ensures { result ≡ numbers_for media.now judged.now numbers.now details kind }
{
    let margins = margins_for(numbers, kind);
    ShownNumbers {
        kind,
        verdict: verdict_on(judged, kind),
        n: judged.n,
        groups: judged.frames,
        packets: judged.packets,
        bucket_peak: judged.bucket_peak,
        buffer_peak: buffer_peak(judged, kind),
        limits: limits_for(numbers, kind),
        overfull: overfull_for(details.overfull, kind),
        late: margins.late,
        slack: narrowed(margins.slack),
        target: numbers.target,
        span: details.span,
        period: period_ns(media),
        drain: drain_ns(media, judged.n),
        steps: steps_in(numbers.step),
        mean_period: period_between(details.first_at, details.last_group_at, judged.frames),
        slope: details.slope,
        offset: narrowed(numbers.offset.first),
    }
}

/// Returns the numbers of the run that is shown, for the sender type that its findings are of.
pub fn numbers_of(media: &Media, shown: &ShownRun) -> ShownNumbers
    ensures { result ≡ numbers_of media.now shown.now }
{
    let kind = kind_of(media.declared, &shown.run.judged);
    numbers_for(
        media,
        &shown.run.judged,
        &shown.run.numbers,
        shown.details,
        kind,
    )
}
