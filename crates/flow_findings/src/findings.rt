//! Which findings hold of a flow.

ghost use Rattle.std.specs.Prelude.{◌≡◌, ◌≤◌, ◌<◌, ◌≤ℤ◌, ◌^◌, ◌++◌, ◌&&◌, IfOk, find, nat_lt, neg_ℤ, not, pos};
ghost use Rattle.std.specs.List.{list_any};
ghost use Rattle.std.specs.Option.{option_to_list};
ghost use Rattle.flow_findings.specs.Gaps.{gaps_of as gaps_in};
ghost use Rattle.flow_findings.specs.declared.finding.Finding.TheVariants as finding;
ghost use Rattle.timing_base.specs.declared.row.Verdict.TheVariants as flow_verdict;
ghost use Rattle.flow_findings.specs.Findings.{absent, breaks_buffer, breaks_rarely, broken_buffer, burst, clock_findings, drift, drift_tenths, elsewhere, flow_findings, found_if, gap_findings, greatest_step, group_at, groups_in_q, have_no_frame, is_above, is_absent, is_below, is_described, is_similar, is_tai_twice, is_unmarked, is_utc, is_within, least_step, limit_findings, markers_to, may_be_of, media_findings, microseconds, misfits, numbers_findings, other_findings, pacing, pass, phase, rare, rate, refused, run_findings, serve, tai_twice, tenths_of, ticks_in_q, unlocked, unmarked, utc};

use crate::finding::{BrokenBuffer, DescribedRate, Finding, Offsets, Refusal, Steps};
use crate::gaps::{GapCounts, counts_of, gaps_of};
use crate::inputs::{KnownCaptures, KnownFlow, ShownRun};
use crate::numbers::{ShownNumbers, numbers_of};
use capture_scan::{PassedOver, Stream};
use flow_measure::Slope;
use sender_params::groups_per_frame;
use std::alloc::{AllocError as OutOfMemory, Global};
use timing_base::{KindVerdict, Media, Run, RunVerdict, Session, Target, Unjudged, Verdict};

/// The least number of markers of a stream that may be a video's.
const MARKERS: u64 = 3;

/// Ticks of the media clock in a second.
const TICKS: u64 = 90_000;

/// Ticks in the 37 s by which TAI has been ahead of UTC from 2017 on.
const LEAP_TICKS: i128 = 3_330_000;

/// The least drift that is one, in tenths of a ppm.
const LEAST_DRIFT: u128 = 10;

/// The least drift that is another frame rate, in tenths of a ppm.
const LEAST_OTHER_RATE: u128 = 5000;

/// The least number of packet records of which a whole number of microseconds is remarkable.
const LEAST_RECORDS: u64 = 100;

/// Adds a finding, if it holds. Returns `Err` if memory runs out.
fn add(findings: &mut Vec<Finding>, found: Option<Finding>) -> Result<(), OutOfMemory>
    ensures { IfOk result (λ _. findings.new.items ≡ findings.old.items ++ option_to_list found) }
{
    if let Some(finding) = found {
        findings.push(finding)?;
    }
    Ok(())
}

// Of the flow as a whole.

/// Returns whether no packet came to the target of the media.
fn is_absent(verdict: &Verdict) -> bool
    ensures { result ≡ is_absent verdict.now }
{
    matches!(verdict, Verdict::Unjudged(Unjudged::Absent))
}

/// Returns whether one of the media of the SDP has this target.
fn is_described(session: &Session, target: Target) -> bool
    ensures { result ≡ is_described session.now target }
{
    session
        .media
        .as_slice()
        .iter()
        .any(|media| media.target() == target)
}

/// Returns whether a target has the address or the port of another one.
fn is_similar(a: Target, b: Target) -> bool
    ensures { result ≡ is_similar a b }
{
    a.address == b.address || a.port == b.port
}

/// Returns whether a stream may be that of the media: it has three frames or more, and goes to a similar target that
/// the SDP doesn't have.
fn may_be_of(session: &Session, media: &Media, stream: &Stream) -> bool
    ensures { result ≡ may_be_of session.now media.now stream.now }
{
    MARKERS <= stream.markers
        && !is_described(session, stream.target)
        && is_similar(stream.target, media.target())
}

/// Returns the first stream that may be that of the media.
fn stream_of(session: &Session, media: &Media, streams: &[Stream]) -> Option<Stream>
    ensures { result ≡ find (may_be_of session.now media.now) streams.now }
{
    for stream in streams {
        if may_be_of(session, media, stream) {
            return Some(*stream);
        }
    }
    None
}

/// Returns the finding `elsewhere`, if it holds.
fn elsewhere(
    session: &Session,
    media: &Media,
    verdict: &Verdict,
    streams: &[Stream],
) -> Option<Finding>
    ensures { result ≡ elsewhere session.now media.now verdict.now streams.now }
{
    if !is_absent(verdict) {
        return None;
    }
    match stream_of(session, media, streams) {
        None => None,
        Some(stream) => Some(Finding::Elsewhere {
            target: stream.target,
            packets: stream.packets,
        }),
    }
}

/// Returns whether one of these streams may be that of the media.
fn any_may_be(session: &Session, media: &Media, streams: &[Stream]) -> bool
    ensures { result ≡ list_any (may_be_of session.now media.now) streams.now }
{
    streams
        .iter()
        .any(|stream| may_be_of(session, media, stream))
}

/// Returns whether no packet came to the target of the media, and no stream may be its own.
fn is_lost(session: &Session, media: &Media, verdict: &Verdict, streams: &[Stream]) -> bool
    ensures { result ≡ (is_absent verdict.now && not (list_any (may_be_of session.now media.now) streams.now)) }
{
    is_absent(verdict) && !any_may_be(session, media, streams)
}

/// Returns the finding `absent`, if it holds.
fn absent(
    session: &Session,
    media: &Media,
    verdict: &Verdict,
    passed_over: PassedOver,
    streams: &[Stream],
) -> Option<Finding>
    ensures { result ≡ absent session.now media.now verdict.now passed_over streams.now }
{
    is_lost(session, media, verdict, streams).then_some(Finding::Absent {
        passed_over,
        streams: streams.len() as u64,
    })
}

/// Returns the finding `refused`, if it holds.
fn refused(verdict: &Verdict) -> Option<Finding>
    ensures { result ≡ refused verdict.now }
{
    match verdict {
        Verdict::Unjudged(Unjudged::Refused { rec, fault }) => Some(Finding::Refused {
            rec: *rec,
            cause: Refusal::Fault(*fault),
        }),
        Verdict::Unjudged(Unjudged::Gap { rec, expected, got }) => Some(Finding::Refused {
            rec: *rec,
            cause: Refusal::Gap {
                expected: *expected,
                got: *got,
            },
        }),
        Verdict::Unjudged(_) | Verdict::Judged(_) | Verdict::Runs(_) => None,
    }
}

/// Returns whether none of these runs has a whole frame or field.
pub(crate) fn have_no_frame(runs: &[Run]) -> bool
    ensures { result ≡ have_no_frame runs.now }
{
    runs.iter().all(|run| matches!(run.verdict, RunVerdict::NoWholeFrame { .. }))
}

/// Returns whether a flow that isn't judged has packets, and no whole frame or field.
fn has_no_frame(unjudged: Unjudged) -> bool
    ensures { result ≡ is_unmarked (flow_verdict.Unjudged unjudged) }
{
    matches!(unjudged, Unjudged::NoWholeFrame { .. })
}

/// Returns whether packets came without a gap, and there is no whole frame or field.
fn is_unmarked(verdict: &Verdict) -> bool
    ensures { result ≡ is_unmarked verdict.now }
{
    match verdict {
        Verdict::Unjudged(unjudged) => has_no_frame(*unjudged),
        Verdict::Judged(_) | Verdict::Runs(_) => false,
    }
}

/// Returns the count of markers of the first of these streams that goes to the target of the media.
fn markers_to(media: &Media, streams: &[Stream]) -> Option<u64>
    ensures { result ≡ markers_to media.now streams.now }
{
    let target = media.target();
    for stream in streams {
        if stream.target == target {
            return Some(stream.markers);
        }
    }
    None
}

/// Returns the finding `unmarked`, if it holds.
fn unmarked(media: &Media, verdict: &Verdict, packets: u64, streams: &[Stream]) -> Option<Finding>
    ensures { result ≡ unmarked media.now verdict.now packets streams.now }
{
    let markers = markers_to(media, streams);
    is_unmarked(verdict).then_some(Finding::Unmarked { packets, markers })
}

// Of its gaps.

/// Returns the finding `wrap`, if it holds.
fn wrap(counts: GapCounts) -> Option<Finding>
    ensures { result ≡ found_if (nat_lt 0 counts.wraps) (finding.Wrap counts.wraps) }
{
    (counts.wraps > 0).then_some(Finding::Wrap { gaps: counts.wraps })
}

/// Returns the finding `loss`, if it holds.
fn loss(counts: GapCounts) -> Option<Finding>
    ensures { result ≡ found_if (nat_lt 0 counts.losses) (finding.Loss counts.losses counts.missing) }
{
    (counts.losses > 0).then_some(Finding::Loss {
        gaps: counts.losses,
        missing: counts.missing,
    })
}

/// Returns the finding `order`, if it holds.
fn order(counts: GapCounts) -> Option<Finding>
    ensures { result ≡ found_if (nat_lt 0 counts.backs) (finding.Order counts.backs) }
{
    (counts.backs > 0).then_some(Finding::Order { gaps: counts.backs })
}

// Of the run that is shown: its frame rate and its clock.

/// Returns the frames or fields in `q` seconds.
fn groups_in_q(media: &Media) -> u64
    ensures value { result ≡ groups_in_q media.now }
    ensures small { result < 2 ^ 19 }
{
    u64::from(media.p) * u64::from(groups_per_frame(media))
}

/// Returns the ticks of the media clock in `q` seconds.
fn ticks_in_q(media: &Media) -> u64
    ensures value { result ≡ ticks_in_q media.now }
    ensures small { result < 2 ^ 27 }
{
    TICKS * u64::from(media.q)
}

/// Returns the ticks of a frame or field, rounded down.
fn least_step(media: &Media) -> u64
    ensures { result ≡ least_step media.now }
{
    ticks_in_q(media) / groups_in_q(media).max(1)
}

/// Returns the ticks of a frame or field, rounded up.
fn greatest_step(media: &Media) -> u64
    ensures { result ≡ greatest_step media.now }
{
    ticks_in_q(media).div_ceil(groups_in_q(media).max(1))
}

/// Returns whether a step of the RTP timestamp isn't that of the described rate.
fn misfits(media: &Media, steps: Option<Steps>) -> bool
    ensures { result ≡ misfits media.now steps }
{
    match steps {
        None => false,
        Some(steps) => {
            i128::from(steps.least) < i128::from(least_step(media))
                || i128::from(greatest_step(media)) < i128::from(steps.greatest)
        }
    }
}

/// Returns a slope in tenths of a ppm, rounded toward zero. Its sign is lost. A change above 2^64 ns counts as 2^64 ns.
fn tenths_of(media: &Media, slope: Slope) -> u128
    ensures value { result ≡ tenths_of media.now slope }
    ensures small { result < 2 ^ 108 }
{
    let groups = u128::from(groups_in_q(media));
    let nanos = u128::from(slope.over) * (u128::from(media.q) * 1_000_000_000);
    slope.by.min(1 << 64) * 10_000_000 * groups / nanos.max(1)
}

/// Returns the tenths of a ppm of a slope, and 0 without one.
fn drift_tenths(media: &Media, slope: Option<Slope>) -> u128
    ensures { result ≡ drift_tenths media.now slope }
{
    match slope {
        None => 0,
        Some(slope) => tenths_of(media, slope),
    }
}

/// Returns the finding `rate`, if it holds.
fn rate(media: &Media, numbers: &ShownNumbers) -> Option<Finding>
    ensures { result ≡ rate media.now numbers.now }
{
    let other_steps = misfits(media, numbers.steps);
    let other_rate = LEAST_OTHER_RATE <= drift_tenths(media, numbers.slope);
    let finding = Finding::Rate {
        described: DescribedRate {
            p: media.p,
            q: media.q,
        },
        steps: numbers.steps,
        period: numbers.mean_period,
    };
    (other_steps || other_rate).then_some(finding)
}

/// Returns whether a number of ticks is above -`times` times the ticks of a frame or field.
fn is_above(media: &Media, times: u64, ticks: i128) -> bool
    requires small { times ≤ 2 }
    requires low { neg_ℤ (pos (2 ^ 64)) ≤ℤ ticks }
    requires high { ticks ≤ℤ pos (2 ^ 64) }
    ensures { result ≡ is_above media.now times ticks }
{
    -i128::from(times * ticks_in_q(media)) < ticks * i128::from(groups_in_q(media))
}

/// Returns whether a number of ticks is below `times` times the ticks of a frame or field.
fn is_below(media: &Media, times: u64, ticks: i128) -> bool
    requires small { times ≤ 2 }
    requires low { neg_ℤ (pos (2 ^ 64)) ≤ℤ ticks }
    requires high { ticks ≤ℤ pos (2 ^ 64) }
    ensures { result ≡ is_below media.now times ticks }
{
    ticks * i128::from(groups_in_q(media)) < i128::from(times * ticks_in_q(media))
}

/// Returns whether a number of ticks is above -`below` and below `above` times the ticks of a frame or field.
fn is_within(media: &Media, below: u64, above: u64, ticks: i128) -> bool
    requires below_small { below ≤ 2 }
    requires above_small { above ≤ 2 }
    requires low { neg_ℤ (pos (2 ^ 64)) ≤ℤ ticks }
    requires high { ticks ≤ℤ pos (2 ^ 64) }
    ensures { result ≡ is_within media.now below above ticks }
{
    is_above(media, below, ticks) && is_below(media, above, ticks)
}

/// Returns whether the RTP timestamp of the first frame or field is 37 s ahead of the media clock.
fn is_utc(media: &Media, numbers: &ShownNumbers) -> bool
    ensures { result ≡ is_utc media.now numbers.now }
{
    is_within(media, 1, 2, i128::from(numbers.offset) - LEAP_TICKS)
}

/// Returns whether the RTP timestamp of the first frame or field is 37 s behind the media clock.
fn is_tai_twice(media: &Media, numbers: &ShownNumbers) -> bool
    ensures { result ≡ is_tai_twice media.now numbers.now }
{
    is_within(media, 2, 1, i128::from(numbers.offset) + LEAP_TICKS)
}

/// Returns the finding `utc`, if it holds.
fn utc(media: &Media, numbers: &ShownNumbers) -> Option<Finding>
    ensures { result ≡ utc media.now numbers.now }
{
    is_utc(media, numbers).then_some(Finding::Utc {
        offset: numbers.offset,
    })
}

/// Returns the finding `tai_twice`, if it holds.
fn tai_twice(media: &Media, numbers: &ShownNumbers) -> Option<Finding>
    ensures { result ≡ tai_twice media.now numbers.now }
{
    is_tai_twice(media, numbers).then_some(Finding::TaiTwice {
        offset: numbers.offset,
    })
}

// Of the run that is shown: the limits of the sender type.

/// Returns the finding `burst`, if it holds.
fn burst(numbers: &ShownNumbers) -> Option<Finding>
    ensures { result ≡ burst numbers.now }
{
    match numbers.overfull.first {
        None => None,
        Some(first) => Some(Finding::Burst {
            greatest: numbers.bucket_peak,
            limit: numbers.limits.c_max,
            packets: numbers.limits.above_bucket,
            groups: numbers.overfull.groups,
            first,
            span: numbers.span,
            period: numbers.period,
        }),
    }
}

/// Returns whether a packet is late, or the buffer exceeds VRX_FULL after one.
fn breaks_buffer(numbers: &ShownNumbers) -> bool
    ensures { result ≡ breaks_buffer numbers.now }
{
    numbers.limits.above_buffer > 0 || numbers.late > 0
}

/// Returns whether an offset serves for both ends of the buffer.
fn has_offset(offsets: Offsets) -> bool
    ensures { result ≡ serve offsets.least offsets.greatest }
{
    match (offsets.least, offsets.greatest) {
        (Some(least), Some(greatest)) => least <= greatest,
        (None, _) | (_, None) => false,
    }
}

/// Returns the packets that break the buffer, and the offsets that would serve.
fn broken_buffer(numbers: &ShownNumbers) -> BrokenBuffer
    ensures { result ≡ broken_buffer numbers.now }
{
    BrokenBuffer {
        late: numbers.late,
        above: numbers.limits.above_buffer,
        slack: numbers.slack,
        offsets: numbers.limits.offsets,
        target: numbers.target,
    }
}

/// Returns the finding `phase`, if it holds.
fn phase(numbers: &ShownNumbers) -> Option<Finding>
    ensures { result ≡ phase numbers.now }
{
    (breaks_buffer(numbers) && has_offset(numbers.limits.offsets)).then_some(Finding::Phase(
        broken_buffer(numbers),
    ))
}

/// Returns the finding `pacing`, if it holds.
fn pacing(numbers: &ShownNumbers) -> Option<Finding>
    ensures { result ≡ pacing numbers.now }
{
    (breaks_buffer(numbers) && !has_offset(numbers.limits.offsets)).then_some(Finding::Pacing(
        broken_buffer(numbers),
    ))
}

/// Returns the finding `drift`, if it holds.
fn drift(media: &Media, slope: Option<Slope>) -> Option<Finding>
    ensures { result ≡ drift media.now slope }
{
    let Some(slope) = slope else {
        return None;
    };
    let tenths = tenths_of(media, slope);
    if tenths < LEAST_DRIFT || LEAST_OTHER_RATE <= tenths {
        return None;
    }
    let ppm10 = if slope.falls {
        -(tenths as i64)
    } else {
        tenths as i64
    };
    Some(Finding::Drift { ppm10 })
}

/// Returns whether at least one frame or field breaks a limit, and at most one of a hundred.
fn breaks_rarely(numbers: &ShownNumbers) -> bool
    ensures { result ≡ breaks_rarely numbers.now }
{
    let broken = numbers.limits.groups_broken;
    1 <= broken && u128::from(broken) * 100 <= u128::from(numbers.groups)
}

/// Returns the finding `rare`, if it holds.
fn rare(numbers: &ShownNumbers) -> Option<Finding>
    ensures { result ≡ rare numbers.now }
{
    match numbers.verdict {
        KindVerdict::Pass => None,
        KindVerdict::Fail(proof) => breaks_rarely(numbers).then_some(Finding::Rare {
            broken: numbers.limits.groups_broken,
            groups: numbers.groups,
            first: group_at(numbers, proof.to),
        }),
    }
}

/// Returns the number of the frame or field of a packet, from 1; packets count from 0.
fn group_at(numbers: &ShownNumbers, packet: u64) -> u64
    ensures { result ≡ group_at numbers.now packet }
{
    (packet / u64::from(numbers.n.max(1))).saturating_add(1)
}

/// Returns the finding `pass`, if it holds.
fn pass(numbers: &ShownNumbers) -> Option<Finding>
    ensures { result ≡ pass numbers.now }
{
    match numbers.verdict {
        KindVerdict::Fail(_) => None,
        KindVerdict::Pass => Some(Finding::Pass {
            bucket: numbers.bucket_peak,
            bucket_limit: numbers.limits.c_max,
            buffer: numbers.buffer_peak,
            buffer_limit: numbers.limits.vrx_full,
            slack: numbers.slack,
        }),
    }
}

// Of the captures, and of the clock again.

/// Returns the finding `microseconds`, if it holds.
fn microseconds(whole: bool, records: u64, numbers: &ShownNumbers) -> Option<Finding>
    ensures { result ≡ microseconds whole records numbers.now }
{
    (whole && LEAST_RECORDS <= records).then_some(Finding::Microseconds {
        drain: numbers.drain,
    })
}

/// Returns the finding `unlocked`, if it holds.
fn unlocked(media: &Media, numbers: &ShownNumbers) -> Option<Finding>
    ensures { result ≡ unlocked media.now numbers.now }
{
    let near = is_utc(media, numbers)
        || is_tai_twice(media, numbers)
        || is_within(media, 2, 2, i128::from(numbers.offset));
    (!near).then_some(Finding::Unlocked {
        offset: numbers.offset,
    })
}

// The list.

/// Adds the findings on the flow as a whole.
fn add_flow_findings(
    findings: &mut Vec<Finding>,
    session: &Session,
    media: &Media,
    captures: &KnownCaptures,
    flow: &KnownFlow,
) -> Result<(), OutOfMemory>
    ensures { IfOk result (λ _. findings.new.items
        ≡ findings.old.items ++ flow_findings session.now media.now captures.now flow.now) }
{
    let streams = captures.streams.as_slice();
    let passed_over = captures.passed_over;
    let verdict = &flow.verdict;
    add(findings, elsewhere(session, media, verdict, streams))?;
    add(
        findings,
        absent(session, media, verdict, passed_over, streams),
    )?;
    add(findings, refused(verdict))?;
    add(findings, unmarked(media, verdict, flow.packets, streams))
}

/// Adds the findings on the gaps of a flow. `seq16` is whether its packets are numbered by their 16-bit sequence numbers
/// alone.
fn add_gap_findings(
    findings: &mut Vec<Finding>,
    alloc: Global,
    verdict: &Verdict,
    seq16: bool,
) -> Result<(), OutOfMemory>
    ensures { IfOk result (λ _. findings.new.items
        ≡ findings.old.items ++ gap_findings seq16 (gaps_in verdict.now)) }
{
    let gaps = gaps_of(alloc, verdict)?;
    let counts = counts_of(gaps.as_slice(), seq16);
    add(findings, wrap(counts))?;
    add(findings, loss(counts))?;
    add(findings, order(counts))
}

/// Adds the findings on the frame rate of a run and on the seconds of its timestamps.
fn add_clock_findings(
    findings: &mut Vec<Finding>,
    media: &Media,
    numbers: &ShownNumbers,
) -> Result<(), OutOfMemory>
    ensures { IfOk result (λ _. findings.new.items
        ≡ findings.old.items ++ clock_findings media.now numbers.now) }
{
    add(findings, rate(media, numbers))?;
    add(findings, utc(media, numbers))?;
    add(findings, tai_twice(media, numbers))
}

/// Adds the findings on the limits of the sender type.
fn add_limit_findings(
    findings: &mut Vec<Finding>,
    media: &Media,
    numbers: &ShownNumbers,
) -> Result<(), OutOfMemory>
    ensures { IfOk result (λ _. findings.new.items
        ≡ findings.old.items ++ limit_findings media.now numbers.now) }
{
    add(findings, burst(numbers))?;
    add(findings, phase(numbers))?;
    add(findings, pacing(numbers))?;
    add(findings, drift(media, numbers.slope))?;
    add(findings, rare(numbers))?;
    add(findings, pass(numbers))
}

/// Adds the findings that no limit depends on.
fn add_other_findings(
    findings: &mut Vec<Finding>,
    media: &Media,
    captures: &KnownCaptures,
    numbers: &ShownNumbers,
) -> Result<(), OutOfMemory>
    ensures { IfOk result (λ _. findings.new.items
        ≡ findings.old.items ++ other_findings media.now captures.now numbers.now) }
{
    let (whole, records) = (captures.whole_microseconds, captures.records);
    add(findings, microseconds(whole, records, numbers))?;
    add(findings, unlocked(media, numbers))
}

/// Adds the findings on a run with these numbers.
fn add_numbers_findings(
    findings: &mut Vec<Finding>,
    media: &Media,
    captures: &KnownCaptures,
    numbers: &ShownNumbers,
) -> Result<(), OutOfMemory>
    ensures { IfOk result (λ _. findings.new.items
        ≡ findings.old.items ++ numbers_findings media.now captures.now numbers.now) }
{
    add_clock_findings(findings, media, numbers)?;
    add_limit_findings(findings, media, numbers)?;
    add_other_findings(findings, media, captures, numbers)
}

/// Adds the findings on the run that is shown, if there is one.
fn add_run_findings(
    findings: &mut Vec<Finding>,
    media: &Media,
    captures: &KnownCaptures,
    shown: &Option<ShownRun>,
) -> Result<(), OutOfMemory>
    ensures { IfOk result (λ _. findings.new.items
        ≡ findings.old.items ++ run_findings media.now captures.now shown.now) }
{
    match shown {
        None => Ok(()),
        Some(shown) => {
            let numbers = numbers_of(media, shown);
            add_numbers_findings(findings, media, captures, &numbers)
        }
    }
}

/// Returns the findings on the flow of this media, in the order of the list; the first is the headline. Returns `Err`
/// if memory runs out.
pub fn findings_of(
    alloc: Global,
    session: &Session,
    media: &Media,
    captures: &KnownCaptures,
    flow: &KnownFlow,
) -> Result<Vec<Finding>, OutOfMemory>
    ensures { IfOk result (λ findings. findings.items
        ≡ media_findings session.now media.now captures.now flow.now) }
{
    let mut findings = Vec::new(alloc);
    add_flow_findings(&mut findings, session, media, captures, flow)?;
    add_gap_findings(&mut findings, alloc, &flow.verdict, captures.seq16)?;
    add_run_findings(&mut findings, media, captures, &flow.shown)?;
    Ok(findings)
}
