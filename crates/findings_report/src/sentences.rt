//! The sentences of the findings.

ghost use Rattle.std.specs.Prelude.{◌≡◌, ◌++◌, ◌&&◌, [], IfOk, Some, codes, nat_lt, string_bytes, unsigned_abs, if◌then◌else◌};
ghost use Rattle.findings_report.specs.Text.{above_text, absent_text, bucket_text, buffer_text, burst_text, class_text, drift_text, early_part, early_text, elsewhere_text, ends_text, late_part, late_text, later_text, loss_text, microseconds_text, offsets_text, order_text, pacing_text, pass_bucket, pass_limits, pass_text, passed_over_text, phase_text, rare_text, rate_sentence, refused_text, sentence, space_if, span_text, streams_text, target_told, unlocked_text, unmarked_text, wrap_text};

use crate::setting::{Counted, GapsText, PacketsText, Setting, group_of};
use crate::times::{Epoch, SignedTimeText, Tenths, TimeText, micro_sign};
use capture_scan::PassedOver;
use flow_findings::{BrokenBuffer, DescribedRate, Finding, Refusal, Steps};
use flow_measure::Place;
use std::alloc::AllocError as OutOfMemory;
use std::fmt;
use timing_base::Target;
use timing_report::{PacketFaultText, kind_name};

/// A described frame rate, in frames per second: `P` or `P/Q`.
#[derive(Clone, Copy)]
pub(crate) struct RateText {
    pub(crate) rate: DescribedRate,
}

impl fmt::Display for RateText {
    ghost use Rattle.std.specs.Prelude.{Some};
    ghost use Rattle.findings_report.specs.Text.{rate_text};

    ghost output = { λ text. Some (rate_text text.rate) };

    fn fmt<W: fmt::Write>(&self, f: &mut fmt::Formatter<W>) -> fmt::Result {
        let (p, q) = (self.rate.p, self.rate.q);
        if q == 1 {
            write!(f, "{p}")
        } else {
            write!(f, "{p}/{q}")
        }
    }
}

/// The reason why a flow is refused.
#[derive(Clone, Copy)]
struct RefusalText {
    cause: Refusal,
}

impl fmt::Display for RefusalText {
    ghost use Rattle.std.specs.Prelude.{Some};
    ghost use Rattle.findings_report.specs.Text.{refusal_text};

    ghost output = { λ text. Some (refusal_text text.cause) };

    fn fmt<W: fmt::Write>(&self, f: &mut fmt::Formatter<W>) -> fmt::Result {
        match self.cause {
            Refusal::Fault(fault) => {
                let fault = PacketFaultText { fault };
                write!(f, "{fault}")
            }
            Refusal::Gap { expected, got } => write!(
                f,
                "expected {expected}, got {got}, one gap more than is allowed"
            ),
        }
    }
}

/// The count of markers, after that of the packets; empty if it isn't known.
#[derive(Clone, Copy)]
struct MarkersText {
    markers: Option<u64>,
}

impl fmt::Display for MarkersText {
    ghost use Rattle.std.specs.Prelude.{Some};
    ghost use Rattle.findings_report.specs.Text.{markers_text};

    ghost output = { λ text. Some (markers_text text.markers) };

    fn fmt<W: fmt::Write>(&self, f: &mut fmt::Formatter<W>) -> fmt::Result {
        match self.markers {
            None => Ok(()),
            Some(count) => {
                let markers = Counted {
                    count,
                    noun: "marker",
                };
                write!(f, " with {markers}")
            }
        }
    }
}

/// The steps of the RTP timestamp, as a sentence after another one; empty if there is none.
#[derive(Clone, Copy)]
struct StepsText {
    steps: Option<Steps>,
}

impl fmt::Display for StepsText {
    ghost use Rattle.std.specs.Prelude.{Some};
    ghost use Rattle.findings_report.specs.Text.{steps_text};

    ghost output = { λ text. Some (steps_text text.steps) };

    fn fmt<W: fmt::Write>(&self, f: &mut fmt::Formatter<W>) -> fmt::Result {
        match self.steps {
            None => Ok(()),
            Some(steps) => write!(
                f,
                " RTP timestamps go on by {} to {} ticks.",
                steps.least, steps.greatest
            ),
        }
    }
}

/// The mean time from one frame or field to the next, as a sentence after another one; empty if there is none.
#[derive(Clone, Copy)]
struct PeriodText {
    setting: Setting,
    period: Option<u64>,
}

impl fmt::Display for PeriodText {
    ghost use Rattle.std.specs.Prelude.{Some};
    ghost use Rattle.findings_report.specs.Text.{period_text};

    ghost output = { λ text. Some (period_text text.setting text.period) };

    fn fmt<W: fmt::Write>(&self, f: &mut fmt::Formatter<W>) -> fmt::Result {
        match self.period {
            None => Ok(()),
            Some(ns) => {
                let (group, time) = (group_of(self.setting), TimeText { ns });
                write!(f, " On average a {group} comes every {time}.")
            }
        }
    }
}

/// The least offset with which no packet is late, or that there is none.
#[derive(Clone, Copy)]
struct LeastText {
    micros: Option<u32>,
}

impl fmt::Display for LeastText {
    ghost use Rattle.std.specs.Prelude.{Some};
    ghost use Rattle.findings_report.specs.Text.{least_text};

    ghost output = { λ text. Some (least_text text.micros) };

    fn fmt<W: fmt::Write>(&self, f: &mut fmt::Formatter<W>) -> fmt::Result {
        let sign = micro_sign();
        match self.micros {
            None => f.write_str("even with 1 s packets are late"),
            Some(0) => f.write_str("none is late with any"),
            Some(micros) => write!(f, "none is late from {micros} {sign} on"),
        }
    }
}

/// The greatest offset with which no packet is too early, or that there is none.
#[derive(Clone, Copy)]
struct GreatestText {
    micros: Option<u32>,
}

impl fmt::Display for GreatestText {
    ghost use Rattle.std.specs.Prelude.{Some};
    ghost use Rattle.findings_report.specs.Text.{greatest_text};

    ghost output = { λ text. Some (greatest_text text.micros) };

    fn fmt<W: fmt::Write>(&self, f: &mut fmt::Formatter<W>) -> fmt::Result {
        let sign = micro_sign();
        match self.micros {
            None => f.write_str("even with 0 s packets are too early"),
            Some(micros) => write!(f, "none is too early up to {micros} {sign}"),
        }
    }
}

/// An offset in microseconds, and 0 if there is none.
#[derive(Clone, Copy)]
struct OffsetNumber {
    micros: Option<u32>,
}

impl fmt::Display for OffsetNumber {
    ghost use Rattle.std.specs.Prelude.{Some};
    ghost use Rattle.findings_report.specs.Text.{offset_number};

    ghost output = { λ number. Some (offset_number number.micros) };

    fn fmt<W: fmt::Write>(&self, f: &mut fmt::Formatter<W>) -> fmt::Result {
        match self.micros {
            None => f.write_str("0"),
            Some(micros) => write!(f, "{micros}"),
        }
    }
}

// Of the flow as a whole.

/// Adds the sentence of `elsewhere`.
fn add_elsewhere(text: &mut String, target: Target, count: u64) -> Result<(), OutOfMemory>
    ensures { IfOk result (λ _. string_bytes text.new ≡ string_bytes text.old ++ elsewhere_text target count) }
{
    let packets = PacketsText { count };
    write!(
        text,
        "no packet comes to this target, but {packets} to {target}, which the description doesn't have."
    )
}

/// Adds a class of frames without a target, if there is one.
fn add_class(text: &mut String, frames: u64, what: &str) -> Result<(), OutOfMemory>
    ensures { IfOk result (λ _. string_bytes text.new ≡ string_bytes text.old ++ class_text frames what.now) }
{
    if frames == 0 {
        Ok(())
    } else {
        write!(text, " Passed over: {frames} ({what}).")
    }
}

/// Adds the classes of frames without a target.
fn add_passed_over(text: &mut String, classes: &PassedOver) -> Result<(), OutOfMemory>
    ensures { IfOk result (λ _. string_bytes text.new ≡ string_bytes text.old ++ passed_over_text classes.now) }
{
    add_class(text, classes.empty, "no byte, or a packet of another link")?;
    add_class(
        text,
        classes.tags,
        "more than one VLAN tag, or a provider's",
    )?;
    add_class(text, classes.ipv6, "IPv6")?;
    add_class(text, classes.other, "neither IPv4 nor IPv6")?;
    add_class(text, classes.not_udp, "IPv4, but not UDP")?;
    add_class(text, classes.fragment, "a fragment of a UDP datagram")?;
    add_class(text, classes.broken, "IPv4 in a bad form, or cut short")
}

/// Adds that no packet came, and the count of streams.
fn add_streams(text: &mut String, count: u64) -> Result<(), OutOfMemory>
    ensures { IfOk result (λ _. string_bytes text.new ≡ string_bytes text.old ++ streams_text count) }
{
    let streams = Counted {
        count,
        noun: "stream",
    };
    write!(
        text,
        "no packet comes to this target. The capture has {streams}."
    )
}

/// Adds the sentence of `absent`.
fn add_absent(text: &mut String, passed_over: &PassedOver, count: u64) -> Result<(), OutOfMemory>
    ensures { IfOk result (λ _. string_bytes text.new
        ≡ string_bytes text.old ++ absent_text passed_over.now count) }
{
    add_streams(text, count)?;
    add_passed_over(text, passed_over)
}

/// Adds the sentence of `refused`.
fn add_refused(text: &mut String, rec: u64, cause: Refusal) -> Result<(), OutOfMemory>
    ensures { IfOk result (λ _. string_bytes text.new ≡ string_bytes text.old ++ refused_text rec cause) }
{
    let cause = RefusalText { cause };
    write!(
        text,
        "the flow is refused at record {rec}: {cause}. None of its packets is judged."
    )
}

/// Adds the sentence of `unmarked`.
fn add_unmarked(
    text: &mut String,
    setting: Setting,
    count: u64,
    markers: Option<u64>,
) -> Result<(), OutOfMemory>
    ensures { IfOk result (λ _. string_bytes text.new
        ≡ string_bytes text.old ++ unmarked_text setting count markers) }
{
    let (packets, group) = (PacketsText { count }, group_of(setting));
    let markers = MarkersText { markers };
    write!(text, "{packets}{markers}: no whole {group}.")
}

// Of its gaps.

/// Adds the sentence of `wrap`.
fn add_wrap(text: &mut String, count: u64) -> Result<(), OutOfMemory>
    ensures { IfOk result (λ _. string_bytes text.new ≡ string_bytes text.old ++ wrap_text count) }
{
    let gaps = GapsText { count };
    write!(
        text,
        "the sequence number wraps and the extended sequence number stays 0, at {gaps}."
    )
}

/// Adds the sentence of `loss`.
fn add_loss(text: &mut String, count: u64, missing: u64) -> Result<(), OutOfMemory>
    ensures { IfOk result (λ _. string_bytes text.new ≡ string_bytes text.old ++ loss_text count missing) }
{
    let gaps = GapsText { count };
    write!(text, "missing packets: {missing}, in {gaps}.")
}

/// Adds the sentence of `order`.
fn add_order(text: &mut String, count: u64) -> Result<(), OutOfMemory>
    ensures { IfOk result (λ _. string_bytes text.new ≡ string_bytes text.old ++ order_text count) }
{
    let gaps = GapsText { count };
    write!(text, "packet numbers go back, at {gaps}.")
}

// Of the run that is shown.

/// Adds the sentence of `rate`.
fn add_rate(
    text: &mut String,
    setting: Setting,
    described: DescribedRate,
    steps: Option<Steps>,
    period: Option<u64>,
) -> Result<(), OutOfMemory>
    ensures { IfOk result (λ _. string_bytes text.new
        ≡ string_bytes text.old ++ rate_sentence setting described steps period) }
{
    let rate = RateText { rate: described };
    let steps = StepsText { steps };
    let period = PeriodText { setting, period };
    write!(
        text,
        "the description has {rate} frames per second.{steps}{period}"
    )
}

/// Adds the greatest count of the bucket, and its limit.
fn add_bucket(
    text: &mut String,
    setting: Setting,
    greatest: u64,
    limit: u64,
) -> Result<(), OutOfMemory>
    ensures { IfOk result (λ _. string_bytes text.new
        ≡ string_bytes text.old ++ bucket_text setting greatest limit) }
{
    let (greatest, kind) = (PacketsText { count: greatest }, kind_name(setting.kind));
    write!(
        text,
        "the bucket holds up to {greatest}, {kind} allows {limit}: "
    )
}

/// Adds the packets above the bucket's limit, and the place in the capture of the first one.
fn add_above(
    text: &mut String,
    setting: Setting,
    count: u64,
    groups: u64,
    first: Place,
) -> Result<(), OutOfMemory>
    ensures { IfOk result (λ _. string_bytes text.new
        ≡ string_bytes text.old ++ above_text setting count groups first) }
{
    let packets = PacketsText { count };
    let all = Counted {
        count: setting.groups,
        noun: group_of(setting),
    };
    let at = Epoch { ns: first.stamp };
    write!(
        text,
        "{packets} in {groups} of {all}, first record {} at {at}.",
        first.record
    )
}

/// Adds the time in which a frame or field is sent.
fn add_span(text: &mut String, setting: Setting, span: u64, period: u64) -> Result<(), OutOfMemory>
    ensures { IfOk result (λ _. string_bytes text.new
        ≡ string_bytes text.old ++ span_text setting span period) }
{
    let group = group_of(setting);
    let span = TimeText { ns: span };
    let period = TimeText { ns: period };
    write!(text, " A {group} is sent within {span} of its {period}.")
}

/// The packets that come after their reads: how many, of how many, and by up to how many nanoseconds.
#[derive(Clone, Copy)]
struct LateText {
    late: u64,
    packets: u64,
    ns: u64,
}

impl fmt::Display for LateText {
    ghost use Rattle.std.specs.Prelude.{Some};
    ghost use Rattle.findings_report.specs.Text.{late_within};

    ghost output = { λ text. Some (late_within text.late text.packets text.ns) };

    fn fmt<W: fmt::Write>(&self, f: &mut fmt::Formatter<W>) -> fmt::Result {
        let packets = PacketsText {
            count: self.packets,
        };
        let time = TimeText { ns: self.ns };
        write!(
            f,
            "{} of {packets} come after their read, by up to {time}.",
            self.late
        )
    }
}

/// Returns the nanoseconds by which the latest packet is late.
fn lateness(buffer: BrokenBuffer) -> u64
    ensures { result ≡ unsigned_abs buffer.slack }
{
    buffer.slack.unsigned_abs()
}

/// Adds the packets that come after their reads.
fn add_late(text: &mut String, setting: Setting, buffer: BrokenBuffer) -> Result<(), OutOfMemory>
    ensures { IfOk result (λ _. string_bytes text.new ≡ string_bytes text.old ++ late_text setting buffer) }
{
    let late = LateText {
        late: buffer.late,
        packets: setting.packets,
        ns: lateness(buffer),
    };
    write!(text, "{late}")
}

/// Adds the packets that come too early for the buffer.
fn add_early(text: &mut String, setting: Setting, buffer: &BrokenBuffer) -> Result<(), OutOfMemory>
    ensures { IfOk result (λ _. string_bytes text.new
        ≡ string_bytes text.old ++ early_text setting buffer.now) }
{
    let packets = PacketsText {
        count: setting.packets,
    };
    let kind = kind_name(setting.kind);
    write!(
        text,
        "{} of {packets} come so early that the buffer holds more than {kind} allows.",
        buffer.above
    )
}

/// Adds the packets that come after their reads, if there are such packets.
fn add_late_part(
    text: &mut String,
    setting: Setting,
    buffer: &BrokenBuffer,
) -> Result<(), OutOfMemory>
    ensures { IfOk result (λ _. string_bytes text.new
        ≡ string_bytes text.old ++ late_part setting buffer.now) }
{
    if buffer.late > 0 {
        add_late(text, setting, *buffer)
    } else {
        Ok(())
    }
}

/// Adds the packets that come too early for the buffer, if there are such packets.
fn add_early_part(
    text: &mut String,
    setting: Setting,
    buffer: &BrokenBuffer,
) -> Result<(), OutOfMemory>
    ensures { IfOk result (λ _. string_bytes text.new
        ≡ string_bytes text.old ++ early_part setting buffer.now) }
{
    if buffer.above > 0 {
        add_early(text, setting, buffer)
    } else {
        Ok(())
    }
}

/// Adds a space between two sentences.
fn add_space_if(text: &mut String, both: bool) -> Result<(), OutOfMemory>
    ensures { IfOk result (λ _. string_bytes text.new ≡ string_bytes text.old ++ space_if both) }
{
    if both { text.push_str(" ") } else { Ok(()) }
}

/// Returns whether packets come after their reads, and packets too early for the buffer.
fn breaks_both(buffer: &BrokenBuffer) -> bool
    ensures { result ≡ (nat_lt 0 buffer.now.late && nat_lt 0 buffer.now.above) }
{
    buffer.late > 0 && buffer.above > 0
}

/// Adds the packets that break the buffer.
fn add_buffer(text: &mut String, setting: Setting, buffer: &BrokenBuffer) -> Result<(), OutOfMemory>
    ensures { IfOk result (λ _. string_bytes text.new
        ≡ string_bytes text.old ++ buffer_text setting buffer.now) }
{
    add_late_part(text, setting, buffer)?;
    add_space_if(text, breaks_both(buffer))?;
    add_early_part(text, setting, buffer)
}

/// The offsets that would serve.
#[derive(Clone, Copy)]
struct OffsetsText {
    buffer: BrokenBuffer,
}

impl fmt::Display for OffsetsText {
    ghost use Rattle.std.specs.Prelude.{Some};
    ghost use Rattle.findings_report.specs.Text.{offsets_text};

    ghost output = { λ text. Some (offsets_text text.buffer) };

    fn fmt<W: fmt::Write>(&self, f: &mut fmt::Formatter<W>) -> fmt::Result {
        let sign = micro_sign();
        let least = OffsetNumber {
            micros: self.buffer.offsets.least,
        };
        let greatest = OffsetNumber {
            micros: self.buffer.offsets.greatest,
        };
        write!(
            f,
            " With an offset (TROFF) of {least} to {greatest} {sign} the buffer would pass;"
        )
    }
}

/// Adds the offsets that would serve.
fn add_offsets(text: &mut String, buffer: BrokenBuffer) -> Result<(), OutOfMemory>
    ensures { IfOk result (λ _. string_bytes text.new ≡ string_bytes text.old ++ offsets_text buffer) }
{
    let offsets = OffsetsText { buffer };
    write!(text, "{offsets}")
}

/// Adds the offset of the description.
fn add_target(text: &mut String, target: u64) -> Result<(), OutOfMemory>
    ensures { IfOk result (λ _. string_bytes text.new ≡ string_bytes text.old ++ target_told target) }
{
    let time = TimeText { ns: target };
    write!(text, " the description's is {time}.")
}

/// Adds the sentences of `phase`.
fn add_phase(text: &mut String, setting: Setting, buffer: &BrokenBuffer) -> Result<(), OutOfMemory>
    ensures { IfOk result (λ _. string_bytes text.new
        ≡ string_bytes text.old ++ phase_text setting buffer.now) }
{
    add_buffer(text, setting, buffer)?;
    add_offsets(text, *buffer)?;
    add_target(text, buffer.target)
}

/// Adds that no offset serves all packets, and which ones serve for each end of the buffer.
fn add_ends(text: &mut String, buffer: &BrokenBuffer) -> Result<(), OutOfMemory>
    ensures { IfOk result (λ _. string_bytes text.new ≡ string_bytes text.old ++ ends_text buffer.now) }
{
    let least = LeastText {
        micros: buffer.offsets.least,
    };
    let greatest = GreatestText {
        micros: buffer.offsets.greatest,
    };
    write!(
        text,
        " No offset (TROFF) serves all packets: {least}, and {greatest};"
    )
}

/// Adds the sentences of `pacing`.
fn add_pacing(text: &mut String, setting: Setting, buffer: &BrokenBuffer) -> Result<(), OutOfMemory>
    ensures { IfOk result (λ _. string_bytes text.new
        ≡ string_bytes text.old ++ pacing_text setting buffer.now) }
{
    add_buffer(text, setting, buffer)?;
    add_ends(text, buffer)?;
    add_target(text, buffer.target)
}

/// The sentence of `drift`.
#[derive(Clone, Copy)]
struct DriftText {
    setting: Setting,
    ppm10: i64,
}

impl fmt::Display for DriftText {
    ghost use Rattle.std.specs.Prelude.{Some};
    ghost use Rattle.findings_report.specs.Text.{drift_text};

    ghost output = { λ text. Some (drift_text text.setting text.ppm10) };

    fn fmt<W: fmt::Write>(&self, f: &mut fmt::Formatter<W>) -> fmt::Result {
        let group = group_of(self.setting);
        let ppm = Tenths {
            tenths: self.ppm10.unsigned_abs(),
        };
        if self.ppm10 < 0 {
            write!(f, "{group}s come earlier and earlier, by {ppm} ppm.")
        } else {
            write!(f, "{group}s come later and later, by {ppm} ppm.")
        }
    }
}

/// Adds the sentence of `drift`.
fn add_drift(text: &mut String, setting: Setting, ppm10: i64) -> Result<(), OutOfMemory>
    ensures { IfOk result (λ _. string_bytes text.new ≡ string_bytes text.old ++ drift_text setting ppm10) }
{
    let drift = DriftText { setting, ppm10 };
    write!(text, "{drift}")
}

/// Adds the sentence of `rare`.
fn add_rare(
    text: &mut String,
    setting: Setting,
    broken: u64,
    groups: u64,
    first: u64,
) -> Result<(), OutOfMemory>
    ensures { IfOk result (λ _. string_bytes text.new
        ≡ string_bytes text.old ++ rare_text setting broken groups first) }
{
    let (kind, group) = (kind_name(setting.kind), group_of(setting));
    let groups = Counted {
        count: groups,
        noun: group,
    };
    write!(
        text,
        "{kind} breaks in {broken} of {groups}, first in {group} {first}."
    )
}

/// Adds the greatest count of the bucket of a pass.
fn add_pass_bucket(
    text: &mut String,
    setting: Setting,
    bucket: u64,
    bucket_limit: u64,
) -> Result<(), OutOfMemory>
    ensures { IfOk result (λ _. string_bytes text.new
        ≡ string_bytes text.old ++ pass_bucket setting bucket bucket_limit) }
{
    let kind = kind_name(setting.kind);
    let limit = PacketsText {
        count: bucket_limit,
    };
    write!(
        text,
        "{kind} passes: the bucket holds up to {bucket} of {limit}"
    )
}

/// Adds the greatest count of the buffer of a pass.
fn add_pass_limits(text: &mut String, buffer: u64, limit: u64) -> Result<(), OutOfMemory>
    ensures { IfOk result (λ _. string_bytes text.new ≡ string_bytes text.old ++ pass_limits buffer limit) }
{
    write!(
        text,
        ", the buffer up to {buffer} of {limit}, and each packet could come "
    )
}

/// By how much each packet of a pass could be later.
#[derive(Clone, Copy)]
struct LaterText {
    slack: i64,
}

impl fmt::Display for LaterText {
    ghost use Rattle.std.specs.Prelude.{Some};
    ghost use Rattle.findings_report.specs.Text.{later_text};

    ghost output = { λ text. Some (later_text text.slack) };

    fn fmt<W: fmt::Write>(&self, f: &mut fmt::Formatter<W>) -> fmt::Result {
        let slack = SignedTimeText { ns: self.slack };
        write!(f, "{slack} later.")
    }
}

/// Adds by how much each packet of a pass could be later.
fn add_slack(text: &mut String, slack: i64) -> Result<(), OutOfMemory>
    ensures { IfOk result (λ _. string_bytes text.new ≡ string_bytes text.old ++ later_text slack) }
{
    let later = LaterText { slack };
    write!(text, "{later}")
}

/// Adds the sentence of `pass`.
fn add_pass(
    text: &mut String,
    setting: Setting,
    bucket: u64,
    bucket_limit: u64,
    buffer: u64,
    buffer_limit: u64,
    slack: i64,
) -> Result<(), OutOfMemory>
    ensures { IfOk result (λ _. string_bytes text.new
        ≡ string_bytes text.old ++ pass_text setting bucket bucket_limit buffer buffer_limit slack) }
{
    add_pass_bucket(text, setting, bucket, bucket_limit)?;
    add_pass_limits(text, buffer, buffer_limit)?;
    add_slack(text, slack)
}

/// Adds the sentence of `microseconds`.
fn add_microseconds(text: &mut String, drain: u64) -> Result<(), OutOfMemory>
    ensures { IfOk result (λ _. string_bytes text.new ≡ string_bytes text.old ++ microseconds_text drain) }
{
    let drain = TimeText { ns: drain };
    write!(
        text,
        "every capture timestamp is a whole microsecond, and the bucket drains a packet every {drain}."
    )
}

/// The sentence of `unlocked`.
#[derive(Clone, Copy)]
struct UnlockedText {
    offset: i64,
}

impl fmt::Display for UnlockedText {
    ghost use Rattle.std.specs.Prelude.{Some};
    ghost use Rattle.findings_report.specs.Text.{unlocked_text};

    ghost output = { λ text. Some (unlocked_text text.offset) };

    fn fmt<W: fmt::Write>(&self, f: &mut fmt::Formatter<W>) -> fmt::Result {
        write!(
            f,
            "RTP timestamps differ from the media clock by {} ticks. No limit of ST 2110-21 depends on it.",
            self.offset
        )
    }
}

/// Adds the sentence of `unlocked`.
fn add_unlocked(text: &mut String, offset: i64) -> Result<(), OutOfMemory>
    ensures { IfOk result (λ _. string_bytes text.new ≡ string_bytes text.old ++ unlocked_text offset) }
{
    let unlocked = UnlockedText { offset };
    write!(text, "{unlocked}")
}

/// Adds the sentence of a finding. Returns `Err` if memory runs out.
pub(crate) fn add_sentence(
    text: &mut String,
    setting: Setting,
    finding: &Finding,
) -> Result<(), OutOfMemory>
    ensures { IfOk result (λ _. string_bytes text.new
        ≡ string_bytes text.old ++ sentence setting finding.now) }
{
    match finding {
        Finding::Elsewhere { target, packets } => add_elsewhere(text, *target, *packets),
        Finding::Absent {
            passed_over,
            streams,
        } => add_absent(text, passed_over, *streams),
        Finding::Refused { rec, cause } => add_refused(text, *rec, *cause),
        Finding::Unmarked { packets, markers } => add_unmarked(text, setting, *packets, *markers),
        Finding::Wrap { gaps } => add_wrap(text, *gaps),
        Finding::Loss { gaps, missing } => add_loss(text, *gaps, *missing),
        Finding::Order { gaps } => add_order(text, *gaps),
        Finding::Rate {
            described,
            steps,
            period,
        } => add_rate(text, setting, *described, *steps, *period),
        Finding::Utc { .. } => text.push_str(
            "RTP timestamps are 37 s ahead of the capture's timestamps, so these count in UTC.",
        ),
        Finding::TaiTwice { .. } => text.push_str(
            "RTP timestamps are 37 s behind the capture's timestamps, so these count in TAI without --tai.",
        ),
        Finding::Burst {
            greatest,
            limit,
            packets,
            groups,
            first,
            span,
            period,
        } => {
            add_bucket(text, setting, *greatest, *limit)?;
            add_above(text, setting, *packets, *groups, *first)?;
            add_span(text, setting, *span, *period)
        }
        Finding::Phase(buffer) => add_phase(text, setting, buffer),
        Finding::Pacing(buffer) => add_pacing(text, setting, buffer),
        Finding::Drift { ppm10 } => add_drift(text, setting, *ppm10),
        Finding::Rare {
            broken,
            groups,
            first,
        } => add_rare(text, setting, *broken, *groups, *first),
        Finding::Pass {
            bucket,
            bucket_limit,
            buffer,
            buffer_limit,
            slack,
        } => add_pass(
            text,
            setting,
            *bucket,
            *bucket_limit,
            *buffer,
            *buffer_limit,
            *slack,
        ),
        Finding::Microseconds { drain } => add_microseconds(text, *drain),
        Finding::Unlocked { offset } => add_unlocked(text, *offset),
    }
}
