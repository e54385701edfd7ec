//! Writes how a session description is read as lines of text.

ghost use Rattle.std.specs.Prelude.{◌≡◌, ◌++◌, ◌+◌, IfOk, codes, map, string_bytes};
ghost use Rattle.std.specs.List.{flat_map};
ghost use Rattle.sdp_notes.specs.Seen.{described_of, note_of};
ghost use Rattle.sdp_notes.specs.report.Text.{attribute_name, comma_text, described_text, media_text, near_text, not_raw_text, note_text, other_format_text, passed_over, picture_text, place_text, read_line, refused_text, scan_name, sender_text, times_line, video_text};

use crate::report::shown::{names_text, quoted, shown};
use crate::report::times::{frame_ns, greatest_step, group_ns, least_step, offset_ns};
use crate::{Attribute, Described, Note};
use sdp_reader::SdpFault;
use std::alloc::{AllocError as OutOfMemory, Global};
use std::fmt;
use timing_base::{Media, Target};
use timing_report::declared_name;

/// The frame rate of a video, in frames per second: `P` or `P/Q`.
#[derive(Clone, Copy)]
pub(crate) struct RateText {
    pub(crate) media: Media,
}

impl fmt::Display for RateText {
    ghost use Rattle.std.specs.Prelude.{Some};
    ghost use Rattle.sdp_notes.specs.report.Text.{rate_text};

    ghost output = { λ text. Some (rate_text text.media) };

    fn fmt<W: fmt::Write>(&self, f: &mut fmt::Formatter<W>) -> fmt::Result {
        let (p, q) = (self.media.p, self.media.q);
        if q == 1 {
            write!(f, "{p}")
        } else {
            write!(f, "{p}/{q}")
        }
    }
}

/// A number with its unit, or `none`.
#[derive(Clone, Copy)]
struct OrNone {
    number: Option<u32>,
    unit: &'static str,
}

impl fmt::Display for OrNone {
    ghost use Rattle.std.specs.Prelude.{Some};
    ghost use Rattle.sdp_notes.specs.report.Text.{or_none};

    ghost output = { λ text. Some (or_none text.unit.now text.number) };

    fn fmt<W: fmt::Write>(&self, f: &mut fmt::Formatter<W>) -> fmt::Result {
        match self.number {
            Some(number) => write!(f, "{number}{}", self.unit),
            None => f.write_str("none"),
        }
    }
}

/// The time of a field, if the video is interlaced.
#[derive(Clone, Copy)]
struct FieldText {
    media: Media,
}

impl fmt::Display for FieldText {
    ghost use Rattle.std.specs.Prelude.{Some};
    ghost use Rattle.sdp_notes.specs.report.Text.{field_text};

    ghost output = { λ text. Some (field_text text.media) };

    fn fmt<W: fmt::Write>(&self, f: &mut fmt::Formatter<W>) -> fmt::Result {
        if self.media.interlaced {
            write!(f, "field {} ns, ", group_ns(&self.media))
        } else {
            f.write_str("")
        }
    }
}

/// The step of the RTP timestamp, or its least and its greatest value.
#[derive(Clone, Copy)]
struct StepText {
    media: Media,
}

impl fmt::Display for StepText {
    ghost use Rattle.std.specs.Prelude.{Some};
    ghost use Rattle.sdp_notes.specs.report.Text.{step_text};

    ghost output = { λ text. Some (step_text text.media) };

    fn fmt<W: fmt::Write>(&self, f: &mut fmt::Formatter<W>) -> fmt::Result {
        let (least, greatest) = (least_step(&self.media), greatest_step(&self.media));
        if least == greatest {
            write!(f, "{least}")
        } else {
            write!(f, "{least} to {greatest}")
        }
    }
}

/// Returns how frames are scanned.
fn scan_name(interlaced: bool) -> &'static str
    ensures { result.now ≡ scan_name interlaced }
{
    if interlaced {
        "interlaced"
    } else {
        "progressive"
    }
}

/// Adds where the video with this number, from 1, is sent, its line and its payload type.
fn add_place(
    text: &mut String,
    number: usize,
    target: Target,
    line: u32,
    pt: u8,
) -> Result<(), OutOfMemory>
    ensures { IfOk result (λ _. string_bytes text.new ≡ string_bytes text.old ++ place_text number target line pt) }
{
    write!(
        text,
        "media {number} {target} line {line}, payload type {pt}"
    )
}

/// Adds the size, the scan and the frame rate of a video.
fn add_picture(text: &mut String, media: &Media) -> Result<(), OutOfMemory>
    ensures { IfOk result (λ _. string_bytes text.new ≡ string_bytes text.old ++ picture_text media.now) }
{
    let (width, height, scan) = (media.width, media.height, scan_name(media.interlaced));
    let rate = RateText { media: *media };
    write!(text, ", {width}x{height} {scan}, rate {rate}")
}

/// Adds the parameters of the sender of a video, and the newline.
fn add_sender(text: &mut String, media: &Media) -> Result<(), OutOfMemory>
    ensures { IfOk result (λ _. string_bytes text.new ≡ string_bytes text.old ++ sender_text media.now) }
{
    let declared = declared_name(media.declared);
    let troff = OrNone {
        number: media.troff,
        unit: " us",
    };
    let cmax = OrNone {
        number: media.cmax,
        unit: "",
    };
    writeln!(text, ", declared {declared}, TROFF {troff}, CMAX {cmax}")
}

/// Adds the line of what is read of the video with this number, from 1.
fn add_read(text: &mut String, number: usize, media: &Media) -> Result<(), OutOfMemory>
    ensures { IfOk result (λ _. string_bytes text.new ≡ string_bytes text.old ++ read_line number media.now) }
{
    let video = *media;
    add_place(text, number, video.target(), video.line, video.pt)?;
    add_picture(text, media)?;
    add_sender(text, media)
}

/// Adds the line of the times of a video.
fn add_times(text: &mut String, media: &Media) -> Result<(), OutOfMemory>
    ensures { IfOk result (λ _. string_bytes text.new ≡ string_bytes text.old ++ times_line media.now) }
{
    let (frame, offset) = (frame_ns(media), offset_ns(media));
    let field = FieldText { media: *media };
    let step = StepText { media: *media };
    writeln!(
        text,
        "  frame {frame} ns, {field}TR_OFFSET {offset} ns, RTP step {step}"
    )
}

/// Adds the two lines of the video with this number, from 1.
fn add_video(text: &mut String, number: usize, media: &Media) -> Result<(), OutOfMemory>
    ensures { IfOk result (λ _. string_bytes text.new ≡ string_bytes text.old ++ video_text number media.now) }
{
    add_read(text, number, media)?;
    add_times(text, media)
}

/// Adds the lines of the videos.
fn add_media(text: &mut String, videos: &[Media]) -> Result<(), OutOfMemory>
    ensures { IfOk result (λ _. string_bytes text.new ≡ string_bytes text.old ++ media_text 1 videos.now) }
{
    for (index, media) in videos.iter().enumerate() {
        add_video(text, index + 1, media)?;
    }
    Ok(())
}

/// Returns the name of an attribute.
pub(crate) fn attribute_name(attribute: Attribute) -> &'static str
    ensures { result.now ≡ attribute_name attribute }
{
    match attribute {
        Attribute::RtpMap => "rtpmap",
        Attribute::Fmtp => "fmtp",
    }
}

/// Adds the line of something that is passed over.
fn add_passed_over(text: &mut String, line: u32, what: &str) -> Result<(), OutOfMemory>
    ensures { IfOk result (λ _. string_bytes text.new ≡ string_bytes text.old ++ passed_over line what.now) }
{
    writeln!(text, "line {line} passed over: {what}")
}

/// Adds the line of a video section that isn't raw video.
fn add_not_raw(text: &mut String, line: u32, format: u8) -> Result<(), OutOfMemory>
    ensures { IfOk result (λ _. string_bytes text.new ≡ string_bytes text.old ++ not_raw_text line format) }
{
    writeln!(
        text,
        "line {line} passed over: video, without a=rtpmap:{format} raw/90000"
    )
}

/// Adds the line of an attribute of another format.
fn add_other_format(text: &mut String, line: u32, attribute: &str) -> Result<(), OutOfMemory>
    ensures { IfOk result (λ _. string_bytes text.new
        ≡ string_bytes text.old ++ other_format_text line attribute.now) }
{
    writeln!(
        text,
        "line {line} passed over: a={attribute} of another format"
    )
}

/// Adds the line of a name, between quotes, that is nearly a known one.
fn add_near(text: &mut String, line: u32, name: &str, known: &str) -> Result<(), OutOfMemory>
    ensures { IfOk result (λ _. string_bytes text.new
        ≡ string_bytes text.old ++ near_text line name.now known.now) }
{
    writeln!(text, "line {line} {name}: did you mean {known}?")
}

/// Adds the line of a comma before a name, which stands between quotes.
fn add_comma(text: &mut String, line: u32, name: &str) -> Result<(), OutOfMemory>
    ensures { IfOk result (λ _. string_bytes text.new ≡ string_bytes text.old ++ comma_text line name.now) }
{
    writeln!(
        text,
        "line {line} comma before {name}: expected a semicolon"
    )
}

/// Adds the line of a note.
fn add_note(alloc: Global, text: &mut String, note: &Note) -> Result<(), OutOfMemory>
    ensures { IfOk result (λ _. string_bytes text.new ≡ string_bytes text.old ++ note_text (note_of note.now)) }
{
    match note {
        Note::Section { line, kind } => {
            let kind = shown(alloc, kind)?;
            add_passed_over(text, *line, kind.as_str())
        }
        Note::NotRaw { line, format } => add_not_raw(text, *line, *format),
        Note::OtherFormat { line, attribute } => add_other_format(
            text,
            *line,
            attribute_name(*attribute),
        ),
        Note::Unknown { line, names } => {
            let names = names_text(alloc, names.as_slice())?;
            add_passed_over(text, *line, names.as_str())
        }
        Note::Near { line, name, known } => {
            let name = quoted(alloc, name)?;
            add_near(text, *line, name.as_str(), known)
        }
        Note::Comma { line, name } => {
            let name = quoted(alloc, name)?;
            add_comma(text, *line, name.as_str())
        }
    }
}

/// Adds the lines of notes.
fn add_notes(alloc: Global, text: &mut String, notes: &[Note]) -> Result<(), OutOfMemory>
    ensures { IfOk result (λ _. string_bytes text.new
        ≡ string_bytes text.old ++ flat_map note_text (map note_of notes.now)) }
{
    for note in notes {
        add_note(alloc, text, note)?;
    }
    Ok(())
}

/// Adds the line of the fault, if the description is refused.
fn add_refused(text: &mut String, fault: Option<SdpFault>) -> Result<(), OutOfMemory>
    ensures { IfOk result (λ _. string_bytes text.new ≡ string_bytes text.old ++ refused_text fault) }
{
    match fault {
        Some(fault) => writeln!(text, "refused: {fault}"),
        None => Ok(()),
    }
}

/// Returns how a session description is read, as lines of text: two for each video, one for each note, and one for the
/// fault of a description that is refused. Returns `Err` if memory runs out.
pub fn text_of(alloc: Global, described: &Described) -> Result<String, OutOfMemory>
    ensures { IfOk result (λ s. string_bytes s ≡ described_text (described_of described.now)) }
{
    let mut text = String::new(alloc);
    add_media(&mut text, described.media.as_slice())?;
    add_notes(alloc, &mut text, described.notes.as_slice())?;
    add_refused(&mut text, described.fault)?;
    Ok(text)
}
