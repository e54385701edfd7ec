//! Pictures of the times of packets and of the RTP timestamps.

ghost use Rattle.std.specs.Prelude.{◌≡◌, ◌<◌, ◌≤◌, ◌-◌, ◌^◌, ◌++◌, IfOk, string_bytes, unsigned_abs};
ghost use Rattle.sender_params.specs.Times.{group_time, groups_of};
ghost use Rattle.timing_report.specs.Words.{group_name};
ghost use Rattle.flow_page.specs.Timings.{detail_at, drift_tenths, drift_text, group_across, least_step, line_words};
ghost use Rattle.flow_page.specs.Timings.{misfits, most_step, period_of, rate_of, steps_line, steps_seen};
ghost use Rattle.flow_page.specs.Timings.{steps_wanted, steps_words, timing_columns, timing_drift};
ghost use Rattle.flow_page.specs.Timings.{timing_extremes, timing_figure, timing_figures, timing_lines, timing_scene};
ghost use Rattle.flow_page.specs.Timings.{timing_summary, timing_title, timing_unit, wanted_text};

use crate::chart::{
    Limit, LineName, Scene, Tenths, Unit, UnitAcross, add_curve_figure, curve_axis,
};
use crate::drift::{scatter_in, slope_of};
use crate::levels::{across_of, one_line};
use crate::peaks::peak_of;
use crate::shown::{Curves, ShownRun};
use crate::times::{Micro, Thousandths, TimeNumber, TimeText};
use crate::words::Counted;
use flow_measure::{Extremes, RunNumbers, Slope, Summary};
use sender_params::Params;
use std::alloc::{AllocError as OutOfMemory, Global};
use std::fmt;
use timing_base::{Judged, Media};
use timing_report::group_name;

/// The quantity that a picture shows.
#[derive(Clone, Copy)]
enum Timing {
    /// The first packet of each frame or field, in nanoseconds after its start.
    First,
    /// The last packet of each frame or field, in nanoseconds after its start.
    Last,
    /// The RTP timestamp of each frame or field, in ticks after the media clock at its start.
    Offset,
    /// The first packet of each frame or field, in ticks after its RTP timestamp.
    Latency,
}

/// Returns the title of a picture. `group` is "frame" or "field".
fn timing_title(alloc: Global, group: &'static str, timing: Timing) -> Result<String, OutOfMemory>
    ensures { IfOk result (λ s. string_bytes s ≡ timing_title group.now timing) }
{
    match timing {
        Timing::First => format!(in alloc; "First packet of each {group}"),
        Timing::Last => format!(in alloc; "Last packet of each {group}"),
        Timing::Offset => format!(in alloc; "RTP timestamp of each {group}, after it begins"),
        Timing::Latency => {
            format!(in alloc; "From the RTP timestamp of each {group} to its first packet")
        }
    }
}

/// Returns the title of a picture of this media.
fn title_of(alloc: Global, media: &Media, timing: Timing) -> Result<String, OutOfMemory>
    ensures { IfOk result (λ s. string_bytes s ≡ timing_title (group_name media.now.interlaced) timing) }
{
    let group = group_name(media.interlaced);
    timing_title(alloc, group, timing)
}

/// Returns the summary of a quantity.
fn timing_summary(numbers: &RunNumbers, timing: Timing) -> Summary
    ensures { result ≡ timing_summary numbers.now timing }
{
    match timing {
        Timing::First => numbers.first,
        Timing::Last => numbers.last,
        Timing::Offset => numbers.offset,
        Timing::Latency => numbers.latency,
    }
}

/// Returns the columns of a quantity.
fn timing_columns(curves: &Curves, timing: Timing) -> &[Extremes]
    ensures { result.now ≡ timing_columns curves.now timing }
{
    match timing {
        Timing::First => curves.first.as_slice(),
        Timing::Last => curves.last.as_slice(),
        Timing::Offset => curves.offset.as_slice(),
        Timing::Latency => curves.latency.as_slice(),
    }
}

/// Returns the unit of a quantity.
fn timing_unit(timing: Timing) -> Unit
    ensures { result ≡ timing_unit timing }
{
    match timing {
        Timing::First => Unit::Nanoseconds,
        Timing::Last => Unit::Nanoseconds,
        Timing::Offset => Unit::Ticks,
        Timing::Latency => Unit::Ticks,
    }
}

/// A number of a picture, without its unit.
#[derive(Clone, Copy)]
struct TimingNumber {
    timing: Timing,
    /// The distance of two ticks of the picture's axis.
    step: u64,
    number: i128,
}

impl fmt::Display for TimingNumber {
    ghost use Rattle.std.specs.Prelude.{Some};
    ghost use Rattle.flow_page.specs.Timings.{timing_number};

    ghost output = { λ n. Some (timing_number n.step n.timing n.number) };

    fn fmt<W: fmt::Write>(&self, f: &mut fmt::Formatter<W>) -> fmt::Result {
        let time = TimeNumber {
            step: self.step,
            ns: self.number,
        };
        match self.timing {
            Timing::First => write!(f, "{time}"),
            Timing::Last => write!(f, "{time}"),
            Timing::Offset => write!(f, "{}", self.number),
            Timing::Latency => write!(f, "{}", self.number),
        }
    }
}

/// The greatest number with its unit.
#[derive(Clone, Copy)]
struct Most {
    /// "frame" or "field".
    group: &'static str,
    timing: Timing,
    /// The distance of two ticks of the picture's axis.
    step: u64,
    most: i128,
}

impl fmt::Display for Most {
    ghost use Rattle.std.specs.Prelude.{Some};
    ghost use Rattle.flow_page.specs.Timings.{timing_words};

    ghost output = { λ m. Some (timing_words m.group.now m.step m.timing m.most) };

    fn fmt<W: fmt::Write>(&self, f: &mut fmt::Formatter<W>) -> fmt::Result {
        let ticks = Counted {
            count: self.most,
            noun: "tick",
        };
        let time = time_text(self.step, self.most);
        match self.timing {
            Timing::First => write!(f, "{time} after the {} begins", self.group),
            Timing::Last => write!(f, "{time} after the {} begins", self.group),
            Timing::Offset => write!(f, "{ticks} of 90 kHz"),
            Timing::Latency => write!(f, "{ticks} of 90 kHz"),
        }
    }
}

/// Returns a time in the unit of an axis with ticks `step` nanoseconds apart.
fn time_text(step: u64, ns: i128) -> TimeText
    ensures step { result.number.step ≡ step }
    ensures ns { result.number.ns ≡ ns }
{
    TimeText {
        number: TimeNumber { step, ns },
    }
}

/// Returns the time from one frame or field to the next, in nanoseconds, rounded down.
pub(crate) fn period_of(media: &Media, judged: &Judged) -> u128
    ensures value { result ≡ period_of media.now }
    ensures small { result < 2 ^ 40 }
{
    let (num, den) = Params::of(media, judged.n).group();
    num / den
}

/// Returns the line of a picture. `target` is TR_OFFSET and `period` the time from one frame or field to the next, both
/// in nanoseconds.
fn timing_lines(
    alloc: Global,
    target: u64,
    period: u128,
    timing: Timing,
) -> Result<Vec<Limit>, OutOfMemory>
    requires { period < 2 ^ 40 }
    ensures { IfOk result (λ lines. lines.items ≡ timing_lines target period timing) }
{
    match timing {
        Timing::First => {
            let at = i128::from(target);
            let name = LineName::Offset;
            one_line(alloc, Limit { name, at })
        }
        Timing::Last => {
            let at = period as i128;
            let name = LineName::Period;
            one_line(alloc, Limit { name, at })
        }
        Timing::Offset => Ok(Vec::new(alloc)),
        Timing::Latency => Ok(Vec::new(alloc)),
    }
}

/// The line of a picture in words.
#[derive(Clone, Copy)]
struct LineWords {
    timing: Timing,
    /// The distance of two ticks of the picture's axis.
    step: u64,
    /// TR_OFFSET, in nanoseconds.
    target: u64,
    /// T_GROUP, in nanoseconds.
    period: u128,
    ghost period_small: { period < 2 ^ 40 },
}

impl fmt::Display for LineWords {
    ghost use Rattle.std.specs.Prelude.{Some};
    ghost use Rattle.flow_page.specs.Timings.{line_words};

    ghost output = { λ l. Some (line_words l.step l.target l.period l.timing) };

    fn fmt<W: fmt::Write>(&self, f: &mut fmt::Formatter<W>) -> fmt::Result {
        let target = time_text(self.step, i128::from(self.target));
        let period = time_text(self.step, self.period as i128);
        match self.timing {
            Timing::First => write!(f, "; TR_OFFSET {target}"),
            Timing::Last => write!(f, "; T_GROUP {period}"),
            Timing::Offset => Ok(()),
            Timing::Latency => Ok(()),
        }
    }
}

/// T_GROUP in nanoseconds, as numerator and denominator.
#[derive(Clone, Copy)]
struct Period {
    num: u128,
    den: u128,
    ghost num_small: { num < 2 ^ 40 },
    ghost den_small: { den < 2 ^ 19 },
}

/// Returns the slope of times in tenths of a ppm, rounded toward zero. Its sign is lost. A change above 2^64 ns counts
/// as 2^64 ns.
#[tactic(auto, unfolding(crate::specs::Timings::drift_tenths))]
fn drift_tenths(period: Period, slope: Slope) -> u128
    ensures { result ≡ drift_tenths (period.num, period.den) slope }
{
    let span = u128::from(slope.over) * period.num;
    slope.by.min(1 << 64) * 10_000_000 * period.den / span.max(1)
}

/// A minus sign for a drift that falls and isn't 0.
#[derive(Clone, Copy)]
struct DriftMinus {
    falls: bool,
    tenths: u128,
}

impl fmt::Display for DriftMinus {
    ghost use Rattle.std.specs.Prelude.{Some};
    ghost use Rattle.flow_page.specs.Timings.{drift_minus};

    ghost output = { λ minus. Some (drift_minus minus.falls minus.tenths) };

    fn fmt<W: fmt::Write>(&self, f: &mut fmt::Formatter<W>) -> fmt::Result {
        if self.falls && 0 < self.tenths {
            f.write_str("-")
        } else {
            Ok(())
        }
    }
}

/// A drift in words.
#[derive(Clone, Copy)]
struct PpmText {
    falls: bool,
    tenths: u128,
}

impl fmt::Display for PpmText {
    ghost use Rattle.std.specs.Prelude.{Some};
    ghost use Rattle.flow_page.specs.Timings.{ppm_text};

    ghost output = { λ ppm. Some (ppm_text ppm.falls ppm.tenths) };

    #[tactic(auto, unfolding(crate::specs::Timings::ppm_text))]
    fn fmt<W: fmt::Write>(&self, f: &mut fmt::Formatter<W>) -> fmt::Result {
        let minus = DriftMinus {
            falls: self.falls,
            tenths: self.tenths,
        };
        let drift = Tenths {
            tenths: self.tenths,
        };
        write!(f, "; drift {minus}{drift} ppm")
    }
}

/// A slope in words; if there is none, the scatter that none exceeds.
#[derive(Clone, Copy)]
struct SlopeText {
    period: Period,
    /// Nanoseconds.
    scatter: u128,
    slope: Option<Slope>,
}

impl fmt::Display for SlopeText {
    ghost use Rattle.std.specs.Prelude.{Some};
    ghost use Rattle.flow_page.specs.Timings.{slope_text};

    ghost output = { λ s. Some (slope_text (s.period.num, s.period.den) s.scatter s.slope) };

    fn fmt<W: fmt::Write>(&self, f: &mut fmt::Formatter<W>) -> fmt::Result {
        let scatter = Micro { ns: self.scatter };
        match self.slope {
            None => write!(f, "; no drift above the scatter of {scatter} &#181;s"),
            Some(slope) => {
                let ppm = PpmText {
                    falls: slope.falls,
                    tenths: drift_tenths(self.period, slope),
                };
                write!(f, "{ppm}")
            }
        }
    }
}

/// Returns T_GROUP of a video.
fn period_in(media: &Media, judged: &Judged) -> Period
    ensures num { result.num ≡ (group_time media.now).0 }
    ensures den { result.den ≡ (group_time media.now).1 }
{
    let (num, den) = Params::of(media, judged.n).group();
    Period { num, den }
}

/// Adds the text on the drift of the first packets of `groups` frames or fields, if there are eight or more. `columns`
/// are those of their curve, at most eight.
fn add_drift(
    text: &mut String,
    media: &Media,
    judged: &Judged,
    groups: u64,
    columns: &[Extremes],
) -> Result<(), OutOfMemory>
    ensures { IfOk result (λ _. string_bytes text.new
        ≡ string_bytes text.old ++ drift_text media.now groups columns.now) }
{
    if groups < 8 {
        return Ok(());
    }
    let slope = SlopeText {
        period: period_in(media, judged),
        scatter: scatter_in(groups, columns),
        slope: slope_of(groups, columns),
    };
    write!(text, "{slope}")
}

/// Adds the text on the drift, if the picture is of first packets.
fn add_timing_drift(
    text: &mut String,
    media: &Media,
    judged: &Judged,
    timing: Timing,
    groups: u64,
    columns: &[Extremes],
) -> Result<(), OutOfMemory>
    ensures { IfOk result (λ _. string_bytes text.new
        ≡ string_bytes text.old ++ timing_drift media.now timing groups columns.now) }
{
    match timing {
        Timing::First => add_drift(text, media, judged, groups, columns),
        Timing::Last => Ok(()),
        Timing::Offset => Ok(()),
        Timing::Latency => Ok(()),
    }
}

/// Returns the least and the greatest number in words, with the place of the greatest. `group` is "frame" or "field".
fn timing_extremes(
    alloc: Global,
    group: &'static str,
    step: u64,
    timing: Timing,
    groups: u64,
    summary: Summary,
    columns: &[Extremes],
) -> Result<String, OutOfMemory>
    ensures { IfOk result (λ s. string_bytes s ≡ timing_extremes group.now step timing groups summary columns.now) }
{
    let least = TimingNumber {
        timing,
        step,
        number: summary.least,
    };
    let most = Most {
        group,
        timing,
        step,
        most: summary.greatest,
    };
    let peak = peak_of(group, across_of(groups), summary.greatest, columns);
    format!(in alloc; "least {least}, most {most}{peak}")
}

/// Adds the line of a picture in words.
fn add_line_words(
    text: &mut String,
    step: u64,
    target: u64,
    period: u128,
    timing: Timing,
) -> Result<(), OutOfMemory>
    requires { period < 2 ^ 40 }
    ensures { IfOk result (λ _. string_bytes text.new
        ≡ string_bytes text.old ++ line_words step target period timing) }
{
    let words = LineWords {
        timing,
        step,
        target,
        period,
    };
    write!(text, "{words}")
}

/// Returns the text beside a picture with ticks `step` apart.
fn timing_detail(
    alloc: Global,
    media: &Media,
    step: u64,
    period: u128,
    shown: &ShownRun,
    timing: Timing,
) -> Result<String, OutOfMemory>
    requires { period < 2 ^ 40 }
    ensures { IfOk result (λ s. string_bytes s ≡ detail_at media.now step period shown.now timing) }
{
    let (judged, numbers) = (&shown.run.judged, &shown.run.numbers);
    let summary = timing_summary(numbers, timing);
    let columns = timing_columns(&shown.curves, timing);
    let drift = shown.curves.drift.as_slice();
    let group = group_name(media.interlaced);
    let mut text = timing_extremes(alloc, group, step, timing, judged.frames, summary, columns)?;
    add_line_words(&mut text, step, numbers.target, period, timing)?;
    add_timing_drift(&mut text, media, judged, timing, judged.frames, drift)?;
    Ok(text)
}

/// Returns the unit of frames or fields side by side.
fn group_across(interlaced: bool) -> UnitAcross
    ensures { result ≡ group_across interlaced }
{
    if interlaced {
        UnitAcross::Field
    } else {
        UnitAcross::Frame
    }
}

/// Returns the scene of a picture.
fn timing_scene(media: &Media, judged: &Judged, timing: Timing) -> Scene
    ensures value { result ≡ timing_scene media.now judged.now timing }
    ensures few { result.across.count ≤ 2 ^ 60 }
{
    Scene {
        wide: false,
        unit: timing_unit(timing),
        along: group_across(media.interlaced),
        across: across_of(judged.frames),
        every: 0,
        shade: None,
    }
}

/// Adds a picture.
fn add_timing_figure(
    text: &mut String,
    alloc: Global,
    media: &Media,
    period: u128,
    shown: &ShownRun,
    timing: Timing,
) -> Result<(), OutOfMemory>
    requires { period < 2 ^ 40 }
    ensures { IfOk result (λ _. string_bytes text.new
        ≡ string_bytes text.old ++ timing_figure media.now period shown.now timing) }
{
    let lines = timing_lines(alloc, shown.run.numbers.target, period, timing)?;
    let columns = timing_columns(&shown.curves, timing);
    let step = curve_axis(lines.as_slice(), columns).step;
    let title = title_of(alloc, media, timing)?;
    let detail = timing_detail(alloc, media, step, period, shown, timing)?;
    let scene = timing_scene(media, &shown.run.judged, timing);
    add_curve_figure(
        text,
        alloc,
        title.as_str(),
        detail.as_str(),
        scene,
        lines.as_slice(),
        columns,
    )
}

/// Adds all pictures. `period` is the time from one frame or field to the next, in nanoseconds.
pub(crate) fn add_timing_figures(
    text: &mut String,
    alloc: Global,
    media: &Media,
    period: u128,
    shown: &ShownRun,
) -> Result<(), OutOfMemory>
    requires { period < 2 ^ 40 }
    ensures { IfOk result (λ _. string_bytes text.new
        ≡ string_bytes text.old ++ timing_figures media.now period shown.now) }
{
    add_timing_figure(text, alloc, media, period, shown, Timing::First)?;
    add_timing_figure(text, alloc, media, period, shown, Timing::Last)?;
    add_timing_figure(text, alloc, media, period, shown, Timing::Offset)?;
    add_timing_figure(text, alloc, media, period, shown, Timing::Latency)
}

/// Returns the count of RTP timestamps per frame: 2 if interlaced, one for each field, else 1.
fn groups_of(media: &Media) -> u64
    ensures value { result ≡ groups_of media.now }
    ensures some { 1 ≤ result }
    ensures most { result ≤ 2 }
{
    if media.interlaced { 2 } else { 1 }
}

/// Returns the ticks from one frame or field to the next, rounded down.
fn least_step(media: &Media) -> u64
    ensures { result ≡ least_step media.now }
{
    90_000 * u64::from(media.q) / (u64::from(media.p) * groups_of(media)).max(1)
}

/// Returns the ticks from one frame or field to the next, rounded up.
fn most_step(media: &Media) -> u64
    ensures { result ≡ most_step media.now }
{
    (90_000 * u64::from(media.q)).div_ceil((u64::from(media.p) * groups_of(media)).max(1))
}

/// Returns whether a step of the RTP timestamp is outside `least` to `most`.
fn misfits(least: u64, most: u64, step: Summary) -> bool
    ensures { result ≡ misfits least most step }
{
    step.least < i128::from(least) || i128::from(most) < step.greatest
}

/// Returns the frame rate that steps make, in thousandths of a frame per second, rounded down: `steps` steps of `ticks`
/// ticks of 90 kHz in all. `per_frame` is the count of RTP timestamps per frame.
#[tactic(auto, unfolding(crate::specs::Timings::rate_of))]
fn rate_of(per_frame: u64, steps: u64, ticks: u128) -> u128
    requires { 1 ≤ per_frame }
    ensures { result ≡ rate_of per_frame steps ticks }
{
    90_000_000 * u128::from(steps) / u128::from(per_frame) / ticks.max(1)
}

/// Adds the steps of the RTP timestamp that were measured, and the frame rate that these make.
#[tactic(auto, unfolding(crate::specs::Timings::steps_seen))]
fn add_steps_seen(
    text: &mut String,
    group: &'static str,
    rate: u128,
    step: Summary,
) -> Result<(), OutOfMemory>
    ensures { IfOk result (λ _. string_bytes text.new ≡ string_bytes text.old ++ steps_seen group.now rate step) }
{
    let rate = Thousandths { thousandths: rate };
    write!(
        text,
        "<p class=\"fail\">&#10007; The RTP timestamp goes on by {} to {} ticks from {group} to {group}, which makes {rate} frames per second,",
        step.least, step.greatest
    )
}

/// Adds the rate `p` / `q` of the SDP, and the steps that it gives.
#[tactic(auto, unfolding(crate::specs::Timings::wanted_text))]
fn write_wanted(text: &mut String, p: u32, q: u32, least: u64, most: u64) -> Result<(), OutOfMemory>
    ensures { IfOk result (λ _. string_bytes text.new ≡ string_bytes text.old ++ wanted_text p q least most) }
{
    let rate = Thousandths {
        thousandths: 1000 * u128::from(p) / u128::from(q.max(1)),
    };
    writeln!(
        text,
        " where the description's rate of {p}/{q} makes {rate} frames per second, by {least} to {most} ticks.</p>"
    )
}

/// Adds the rate of the SDP, and the steps that it gives.
fn add_steps_wanted(text: &mut String, media: &Media) -> Result<(), OutOfMemory>
    ensures { IfOk result (λ _. string_bytes text.new ≡ string_bytes text.old ++ steps_wanted media.now) }
{
    let least = least_step(media);
    let most = most_step(media);
    write_wanted(text, media.p, media.q, least, most)
}

/// Adds the measured steps of `groups` frames or fields.
fn add_steps_of(
    text: &mut String,
    media: &Media,
    groups: u64,
    step: Summary,
) -> Result<(), OutOfMemory>
    ensures { IfOk result (λ _. string_bytes text.new ≡ string_bytes text.old
        ++ steps_seen (group_name media.now.interlaced)
        (rate_of (groups_of media.now) (groups - 1) (unsigned_abs step.sum)) step) }
{
    let rate = rate_of(
        groups_of(media),
        groups.saturating_sub(1),
        step.sum.unsigned_abs(),
    );
    add_steps_seen(text, group_name(media.interlaced), rate, step)
}

/// Adds the measured and the expected steps.
fn add_steps_words(
    text: &mut String,
    media: &Media,
    groups: u64,
    step: Summary,
) -> Result<(), OutOfMemory>
    ensures { IfOk result (λ _. string_bytes text.new
        ≡ string_bytes text.old ++ steps_words media.now groups step) }
{
    add_steps_of(text, media, groups, step)?;
    add_steps_wanted(text, media)
}

/// Adds the measured and the expected steps of `groups` frames or fields, if they differ.
pub(crate) fn add_steps_line(
    text: &mut String,
    media: &Media,
    groups: u64,
    step: Option<Summary>,
) -> Result<(), OutOfMemory>
    ensures { IfOk result (λ _. string_bytes text.new
        ≡ string_bytes text.old ++ steps_line media.now groups step) }
{
    match step {
        None => Ok(()),
        Some(step) => {
            if misfits(least_step(media), most_step(media), step) {
                add_steps_words(text, media, groups, step)
            } else {
                Ok(())
            }
        }
    }
}
