//! Writes the result of a scan as lines of text.

ghost use Rattle.std.specs.Prelude.{◌≡◌, ◌++◌, ◌+◌, ◌*◌, ◌/◌, max, IfOk, codes, string_bytes};
ghost use Rattle.std.specs.List.{flat_map};
ghost use Rattle.capture_scan.specs.report.Contents.{contents_of};
ghost use Rattle.capture_scan.specs.report.Text.{capture_told, captures_told, class_text, contents_text, counts_told, frame_told, heading, key_text, known_rate, lines_told, loss_text, more_text, packets_text, passed_over_text, rate_told, stream_line, stream_text, streams_text, unread_text};
ghost use Rattle.capture_scan.specs.report.Draft.{has_fields};

use crate::report::draft::has_fields;
use crate::report::rate::FrameRate;
use crate::{Found, Lines, Pace, PassedOver, Range, Stream, UnreadTarget};
use std::alloc::{AllocError as OutOfMemory, Global};
use std::fmt;
use timing_base::{FileName, FileNote};
use timing_report::{NoteText, SsrcText};

/// Adds the name of a capture and how it ends, followed by `after`.
fn add_capture(
    text: &mut String,
    name: &str,
    note: &FileNote,
    after: &str,
) -> Result<(), OutOfMemory>
    ensures { IfOk result (λ _. string_bytes text.new
        ≡ string_bytes text.old ++ capture_told after.now name.now note.now) }
{
    let note = NoteText { note: *note };
    write!(text, "capture {name}: {note}{after}")
}

/// Adds the name of each capture and how it ends, each followed by `after`. If the lists differ in length, the shorter
/// one counts.
fn add_captures(
    text: &mut String,
    names: &[FileName],
    notes: &[FileNote],
    after: &str,
) -> Result<(), OutOfMemory>
    ensures { IfOk result (λ _. string_bytes text.new
        ≡ string_bytes text.old ++ captures_told after.now names.now notes.now) }
{
    for (file, name) in names.iter().enumerate() {
        let Some(note) = notes.get(file) else {
            return Ok(());
        };
        add_capture(text, name.as_str(), note, after)?;
    }
    Ok(())
}

/// Adds the numbers of packet records and of streams, and ends the line.
fn add_counts(text: &mut String, found: &Found) -> Result<(), OutOfMemory>
    ensures { IfOk result (λ _. string_bytes text.new
        ≡ string_bytes text.old ++ counts_told (contents_of found.now)) }
{
    let records = found.records;
    let streams = found.streams.len();
    writeln!(text, "{records} records, {streams} streams")
}

/// Adds the line of one capture, or those of several.
fn add_heading(
    text: &mut String,
    names: &[FileName],
    notes: &[FileNote],
    found: &Found,
) -> Result<(), OutOfMemory>
    ensures { IfOk result (λ _. string_bytes text.new
        ≡ string_bytes text.old ++ heading names.now notes.now (contents_of found.now)) }
{
    if names.len() == 1 {
        add_captures(text, names, notes, ", ")?;
        add_counts(text, found)
    } else {
        add_captures(text, names, notes, "\n")?;
        text.push_str("all captures: ")?;
        add_counts(text, found)
    }
}

/// Adds the line of a class of frames without a target, if there is such a frame.
fn add_class(text: &mut String, frames: u64, what: &str) -> Result<(), OutOfMemory>
    ensures { IfOk result (λ _. string_bytes text.new ≡ string_bytes text.old ++ class_text frames what.now) }
{
    if frames == 0 {
        Ok(())
    } else {
        writeln!(text, "passed over {frames}: {what}")
    }
}

/// Adds the lines of the frames without a target.
fn add_passed_over(text: &mut String, classes: &PassedOver) -> Result<(), OutOfMemory>
    ensures { IfOk result (λ _. string_bytes text.new ≡ string_bytes text.old ++ passed_over_text classes.now) }
{
    add_class(text, classes.empty, "no byte, or a packet of another link")?;
    add_class(
        text,
        classes.tags,
        "more than one VLAN tag, or a provider's",
    )?;
    add_class(text, classes.ipv6, "IPv6")?;
    add_class(text, classes.other, "neither IPv4 nor IPv6")?;
    add_class(text, classes.not_udp, "IPv4, but not UDP")?;
    add_class(text, classes.fragment, "a fragment of a UDP datagram")?;
    add_class(text, classes.broken, "IPv4 in a bad form, or cut short")
}

/// Adds the lines of the targets with unread packets.
fn add_unread(text: &mut String, unread: &[UnreadTarget]) -> Result<(), OutOfMemory>
    ensures { IfOk result (λ _. string_bytes text.new
        ≡ string_bytes text.old ++ flat_map unread_text unread.now) }
{
    for one in unread {
        let (packets, target) = (one.packets, one.target);
        writeln!(
            text,
            "unread {packets}: UDP to {target} that isn't RTP with an extended sequence number"
        )?;
    }
    Ok(())
}

/// Adds the line of the packets of further streams and targets, if there are any.
fn add_more(text: &mut String, more: u64) -> Result<(), OutOfMemory>
    ensures { IfOk result (λ _. string_bytes text.new ≡ string_bytes text.old ++ more_text more) }
{
    if more == 0 {
        Ok(())
    } else {
        writeln!(text, "more {more}: packets of further streams and targets")
    }
}

/// Returns the number of packets that were sent: those captured and those lost.
fn sent(packets: u64, lost: u64) -> u128
    ensures { result ≡ packets + lost }
{
    u128::from(packets) + u128::from(lost)
}

/// Returns the share of what was sent that is lost, in hundredths of a percent, rounded down.
fn share(packets: u64, lost: u64) -> u128
    ensures { result ≡ lost * 10000 / max 1 (packets + lost) }
{
    u128::from(lost) * 10_000 / sent(packets, lost).max(1)
}

/// The source, target, SSRC and payload type of a stream.
#[derive(Clone, Copy)]
struct KeyText {
    stream: Stream,
}

impl fmt::Display for KeyText {
    ghost use Rattle.std.specs.Prelude.{Some};
    ghost use Rattle.capture_scan.specs.report.Text.{key_text};

    ghost output = { λ text. Some (key_text text.stream) };

    fn fmt<W: fmt::Write>(&self, f: &mut fmt::Formatter<W>) -> fmt::Result {
        let stream = self.stream;
        let (source, target) = (stream.source, stream.target);
        let ssrc = SsrcText { ssrc: stream.ssrc };
        let (pt, pts) = (stream.pt, stream.pts);
        write!(
            f,
            "{source} to {target}, ssrc {ssrc}, payload type {pt} but for {pts}"
        )
    }
}

/// The counts of a stream, and its first and last packet record.
#[derive(Clone, Copy)]
struct PacketsText {
    stream: Stream,
}

impl fmt::Display for PacketsText {
    ghost use Rattle.std.specs.Prelude.{Some};
    ghost use Rattle.capture_scan.specs.report.Text.{packets_text};

    ghost output = { λ text. Some (packets_text text.stream) };

    fn fmt<W: fmt::Write>(&self, f: &mut fmt::Formatter<W>) -> fmt::Result {
        let stream = self.stream;
        let (packets, markers, bytes) = (stream.packets, stream.markers, stream.bytes);
        let (first, last) = (stream.first.rec, stream.last.rec);
        write!(
            f,
            "{packets} in records {first} to {last}, {markers} with the marker, {bytes} bytes"
        )
    }
}

/// Returns the nearest known rate, if the least step is that of the rate.
fn known_rate(fields: bool, pace: Pace) -> Option<FrameRate>
    ensures { result ≡ known_rate fields pace }
{
    let rate = FrameRate::nearest(fields, pace.rate);
    if rate.has_steps(fields, pace.step) {
        Some(rate)
    } else {
        None
    }
}

/// A rate, or that none is known.
#[derive(Clone, Copy)]
struct KnownText {
    rate: Option<FrameRate>,
}

impl fmt::Display for KnownText {
    ghost use Rattle.std.specs.Prelude.{Some};
    ghost use Rattle.capture_scan.specs.report.Text.{known_text};

    ghost output = { λ text. Some (known_text text.rate) };

    fn fmt<W: fmt::Write>(&self, f: &mut fmt::Formatter<W>) -> fmt::Result {
        match self.rate {
            Some(rate) => write!(f, "{rate}"),
            None => f.write_str("none that is known"),
        }
    }
}

/// The least and the greatest of some numbers.
#[derive(Clone, Copy)]
struct RangeText {
    range: Range,
}

impl fmt::Display for RangeText {
    ghost use Rattle.std.specs.Prelude.{Some};
    ghost use Rattle.capture_scan.specs.report.Text.{range_text};

    ghost output = { λ text. Some (range_text text.range) };

    fn fmt<W: fmt::Write>(&self, f: &mut fmt::Formatter<W>) -> fmt::Result {
        let range = self.range;
        write!(f, "{} to {}", range.least, range.greatest)
    }
}

/// A rate, or that none is known, and the range of the steps.
#[derive(Clone, Copy)]
struct StepsText {
    rate: Option<FrameRate>,
    step: Range,
}

impl fmt::Display for StepsText {
    ghost use Rattle.std.specs.Prelude.{Some};
    ghost use Rattle.capture_scan.specs.report.Text.{steps_told};

    ghost output = { λ text. Some (steps_told text.rate text.step) };

    fn fmt<W: fmt::Write>(&self, f: &mut fmt::Formatter<W>) -> fmt::Result {
        let known = KnownText { rate: self.rate };
        let step = RangeText { range: self.step };
        write!(f, "{known}, steps of {step} ticks")
    }
}

/// The frame rate, and the steps of the RTP timestamp; `fields` if a line of a second field was seen.
#[derive(Clone, Copy)]
struct RateTold {
    fields: bool,
    pace: Option<Pace>,
}

impl fmt::Display for RateTold {
    ghost use Rattle.std.specs.Prelude.{Some};
    ghost use Rattle.capture_scan.specs.report.Text.{rate_told};

    ghost output = { λ text. Some (rate_told text.fields text.pace) };

    fn fmt<W: fmt::Write>(&self, f: &mut fmt::Formatter<W>) -> fmt::Result {
        match self.pace {
            None => f.write_str("not seen: fewer than two markers"),
            Some(pace) => {
                let told = StepsText {
                    rate: known_rate(self.fields, pace),
                    step: pace.step,
                };
                write!(f, "{told}")
            }
        }
    }
}

/// The number of packets from one marker to the next.
#[derive(Clone, Copy)]
struct FrameTold {
    pace: Option<Pace>,
}

impl fmt::Display for FrameTold {
    ghost use Rattle.std.specs.Prelude.{Some};
    ghost use Rattle.capture_scan.specs.report.Text.{frame_told};

    ghost output = { λ text. Some (frame_told text.pace) };

    fn fmt<W: fmt::Write>(&self, f: &mut fmt::Formatter<W>) -> fmt::Result {
        match self.pace {
            None => f.write_str("not seen: fewer than two markers"),
            Some(pace) => {
                let frame = RangeText { range: pace.frame };
                write!(f, "{frame} packets")
            }
        }
    }
}

/// The order of the sequence numbers of a stream.
#[derive(Clone, Copy)]
struct LossText {
    stream: Stream,
}

impl fmt::Display for LossText {
    ghost use Rattle.std.specs.Prelude.{Some};
    ghost use Rattle.capture_scan.specs.report.Text.{loss_text};

    ghost output = { λ text. Some (loss_text text.stream) };

    fn fmt<W: fmt::Write>(&self, f: &mut fmt::Formatter<W>) -> fmt::Result {
        let order = self.stream.order;
        let sent = sent(self.stream.packets, order.lost);
        let share = share(self.stream.packets, order.lost);
        let (percents, tenths, last) = (share / 100, share / 10 % 10, share % 10);
        let (lost, back, same, wraps) = (order.lost, order.back, order.same, order.wraps);
        write!(
            f,
            "{lost} of {sent} sent ({percents}.{tenths}{last} %), {back} back, {same} repeated, {wraps} wraps without the extended number"
        )
    }
}

/// Returns the number of lines of a frame or of a field, as far as they were seen.
fn lines_in(lines: Lines) -> u32
    ensures { result ≡ lines.greatest + 1 }
{
    u32::from(lines.greatest) + 1
}

/// The number of lines of a frame or of each field.
#[derive(Clone, Copy)]
struct CountTold {
    lines: Lines,
}

impl fmt::Display for CountTold {
    ghost use Rattle.std.specs.Prelude.{Some};
    ghost use Rattle.capture_scan.specs.report.Text.{count_told};

    ghost output = { λ text. Some (count_told text.lines) };

    fn fmt<W: fmt::Write>(&self, f: &mut fmt::Formatter<W>) -> fmt::Result {
        let count = lines_in(self.lines);
        if self.lines.second_field {
            write!(f, "{count} in each of two fields")
        } else {
            write!(f, "{count}")
        }
    }
}

/// The lines of a stream, if it has any.
#[derive(Clone, Copy)]
struct LinesTold {
    lines: Option<Lines>,
}

impl fmt::Display for LinesTold {
    ghost use Rattle.std.specs.Prelude.{Some};
    ghost use Rattle.capture_scan.specs.report.Text.{lines_told};

    ghost output = { λ text. Some (lines_told text.lines) };

    fn fmt<W: fmt::Write>(&self, f: &mut fmt::Formatter<W>) -> fmt::Result {
        match self.lines {
            None => f.write_str("not seen: no line header was captured"),
            Some(lines) => {
                if lines.fits {
                    let told = CountTold { lines };
                    write!(f, "{told}")
                } else {
                    f.write_str("none: not raw video, as a line header doesn't fit its packet")
                }
            }
        }
    }
}

/// Adds the line with the source and the target.
fn add_key(text: &mut String, number: u64, stream: &Stream) -> Result<(), OutOfMemory>
    ensures { IfOk result (λ _. string_bytes text.new ≡ string_bytes text.old
        ++ stream_line number (codes " from    ") (key_text stream.now)) }
{
    let told = KeyText { stream: *stream };
    writeln!(text, "stream {number} from    {told}")
}

/// Adds the line with the counts of packets.
fn add_packets(text: &mut String, number: u64, stream: &Stream) -> Result<(), OutOfMemory>
    ensures { IfOk result (λ _. string_bytes text.new ≡ string_bytes text.old
        ++ stream_line number (codes " packets ") (packets_text stream.now)) }
{
    let told = PacketsText { stream: *stream };
    writeln!(text, "stream {number} packets {told}")
}

/// Adds the line with the rate.
fn add_rate(text: &mut String, number: u64, stream: &Stream) -> Result<(), OutOfMemory>
    ensures { IfOk result (λ _. string_bytes text.new ≡ string_bytes text.old
        ++ stream_line number (codes " rate    ") (rate_told (has_fields stream.now.lines) stream.now.pace)) }
{
    let told = RateTold {
        fields: has_fields(stream.lines),
        pace: stream.pace,
    };
    writeln!(text, "stream {number} rate    {told}")
}

/// Adds the line with the packets of a frame.
fn add_frame(text: &mut String, number: u64, stream: &Stream) -> Result<(), OutOfMemory>
    ensures { IfOk result (λ _. string_bytes text.new ≡ string_bytes text.old
        ++ stream_line number (codes " frame   ") (frame_told stream.now.pace)) }
{
    let told = FrameTold { pace: stream.pace };
    writeln!(text, "stream {number} frame   {told}")
}

/// Adds the line with the losses.
fn add_loss(text: &mut String, number: u64, stream: &Stream) -> Result<(), OutOfMemory>
    ensures { IfOk result (λ _. string_bytes text.new ≡ string_bytes text.old
        ++ stream_line number (codes " lost    ") (loss_text stream.now)) }
{
    let told = LossText { stream: *stream };
    writeln!(text, "stream {number} lost    {told}")
}

/// Adds the line with the lines of a picture.
fn add_lines(text: &mut String, number: u64, stream: &Stream) -> Result<(), OutOfMemory>
    ensures { IfOk result (λ _. string_bytes text.new ≡ string_bytes text.old
        ++ stream_line number (codes " lines   ") (lines_told stream.now.lines)) }
{
    let told = LinesTold {
        lines: stream.lines,
    };
    writeln!(text, "stream {number} lines   {told}")
}

/// Adds the lines of a stream; `number` counts from 1.
fn add_stream(text: &mut String, number: u64, stream: &Stream) -> Result<(), OutOfMemory>
    ensures { IfOk result (λ _. string_bytes text.new ≡ string_bytes text.old ++ stream_text number stream.now) }
{
    add_key(text, number, stream)?;
    add_packets(text, number, stream)?;
    add_rate(text, number, stream)?;
    add_frame(text, number, stream)?;
    add_loss(text, number, stream)?;
    add_lines(text, number, stream)
}

/// Adds the lines of the streams.
fn add_streams(text: &mut String, streams: &[Stream]) -> Result<(), OutOfMemory>
    ensures { IfOk result (λ _. string_bytes text.new ≡ string_bytes text.old ++ streams_text 1 streams.now) }
{
    for (index, stream) in streams.iter().enumerate() {
        add_stream(text, index as u64 + 1, stream)?;
    }
    Ok(())
}

/// Adds the targets with unread packets, the packets of further streams and targets, and then the streams.
fn add_held(text: &mut String, found: &Found) -> Result<(), OutOfMemory>
    ensures { IfOk result (λ _. string_bytes text.new ≡ string_bytes text.old
        ++ (flat_map unread_text found.now.unread.items
        ++ (more_text found.now.more ++ streams_text 1 found.now.streams.items))) }
{
    add_unread(text, found.unread.as_slice())?;
    add_more(text, found.more)?;
    add_streams(text, found.streams.as_slice())
}

/// Returns the result of a scan as lines of text. `names` are the names of the captures whose packet records were
/// taken, and `notes` how each of them ends, one note for each name.
///
/// The captures stand first, then the classes of frames without a target, the targets with unread packets, and six
/// lines for each stream. A rate is printed if the least step is that of a known rate, in ticks rounded down or up. The
/// lost share of what was sent is printed in hundredths of a percent, rounded down.
///
/// Returns `Err` if memory runs out.
pub fn text_of(
    alloc: Global,
    names: &[FileName],
    notes: &[FileNote],
    found: &Found,
) -> Result<String, OutOfMemory>
    ensures { IfOk result (λ s. string_bytes s ≡ contents_text names.now notes.now (contents_of found.now)) }
{
    let mut text = String::new(alloc);
    add_heading(&mut text, names, notes, found)?;
    add_passed_over(&mut text, &found.passed_over)?;
    add_held(&mut text, found)?;
    Ok(text)
}
