//! Notes on media sections.

ghost use Rattle.std.specs.Prelude.{◌≡◌, ◌++◌, OnOk, codes, map};
ghost use Rattle.std.specs.List.{flat_map};
ghost use Rattle.std.specs.Option.{option_copied};
ghost use Rattle.std.specs.Str.{bytes_eq};
ghost use Rattle.sdp_reader.specs.Bytes.{after_prefix};
ghost use Rattle.sdp_reader.specs.Lines.{is_video, media_fields, video_of};
ghost use Rattle.sdp_reader.specs.Plain.{plain};
ghost use Rattle.sdp_notes.specs.Notes.{fmtp_notes, line_notes, map_notes, part_notes, section_notes, video_notes};
ghost use Rattle.sdp_notes.specs.Seen.{note_of};

use crate::list::add_list;
use crate::note::{Attribute, Note};
use sdp_reader::bytes::{field, strip};
use sdp_reader::{Line, Video, is_raw, is_the, video_of};
use std::alloc::{AllocError as OutOfMemory, Global};

/// Adds the note on a line `a=rtpmap` of another format.
fn add_map<'a>(notes: &mut Vec<Note<'a>>, format: u8, line: &Line<'a>) -> Result<(), OutOfMemory>
    ensures { OnOk result (map note_of notes.new.items
        ≡ map note_of notes.old.items
        ++ map_notes line.now.number format (after_prefix (codes "a=rtpmap:") line.now.text.now)) }
{
    let Some(rest) = strip(line.text, b"a=rtpmap:") else {
        return Ok(());
    };
    let (own, _) = field(b' ', rest);
    if !is_the(format, own) {
        notes.push(Note::OtherFormat {
            line: line.number,
            attribute: Attribute::RtpMap,
        })?;
    }
    Ok(())
}

/// Adds the notes on a line `a=fmtp`: it is of another format, or those on its list.
fn add_fmtp<'a>(
    alloc: Global,
    notes: &mut Vec<Note<'a>>,
    format: u8,
    line: &Line<'a>,
) -> Result<(), OutOfMemory>
    ensures { OnOk result (map note_of notes.new.items
        ≡ map note_of notes.old.items
        ++ fmtp_notes line.now.number format (after_prefix (codes "a=fmtp:") line.now.text.now)) }
{
    let Some(rest) = strip(line.text, b"a=fmtp:") else {
        return Ok(());
    };
    let (own, list) = field(b' ', rest);
    if is_the(format, own) {
        return add_list(alloc, notes, line.number, list);
    }
    notes.push(Note::OtherFormat {
        line: line.number,
        attribute: Attribute::Fmtp,
    })?;
    Ok(())
}

/// Adds the notes on a line of a section of raw video.
fn add_line<'a>(
    alloc: Global,
    notes: &mut Vec<Note<'a>>,
    format: u8,
    line: &Line<'a>,
) -> Result<(), OutOfMemory>
    ensures { OnOk result (map note_of notes.new.items
        ≡ map note_of notes.old.items ++ line_notes format (plain line.now)) }
{
    add_map(notes, format, line)?;
    add_fmtp(alloc, notes, format, line)
}

/// Adds the notes on the lines of a section of raw video.
fn add_lines<'a>(
    alloc: Global,
    notes: &mut Vec<Note<'a>>,
    format: u8,
    body: &[Line<'a>],
) -> Result<(), OutOfMemory>
    ensures { OnOk result (map note_of notes.new.items
        ≡ map note_of notes.old.items ++ flat_map (line_notes format) (map plain body.now)) }
{
    for line in body {
        add_line(alloc, notes, format, line)?;
    }
    Ok(())
}

/// Adds the notes on a video section that begins on `line`. One without a valid video line has none.
fn add_video<'a>(
    alloc: Global,
    notes: &mut Vec<Note<'a>>,
    line: u32,
    video: Option<Video>,
    body: &[Line<'a>],
) -> Result<(), OutOfMemory>
    ensures { OnOk result (map note_of notes.new.items
        ≡ map note_of notes.old.items ++ video_notes line (map plain body.now) video) }
{
    let Some(Video { format, .. }) = video else {
        return Ok(());
    };
    if is_raw(body, format) {
        return add_lines(alloc, notes, format, body);
    }
    notes.push(Note::NotRaw { line, format })?;
    Ok(())
}

/// Returns whether this is the kind of a video section.
fn is_video(kind: &[u8]) -> bool
    ensures { result ≡ bytes_eq kind.now (codes "video") }
{
    kind == b"video".as_slice()
}

/// Adds the notes on the section that `head` begins, if it is a line `m=`. `body` are the section's further lines.
/// Returns `Err` if memory runs out.
pub(crate) fn add_section<'a>(
    alloc: Global,
    notes: &mut Vec<Note<'a>>,
    head: &Line<'a>,
    body: &[Line<'a>],
) -> Result<(), OutOfMemory>
    ensures { OnOk result (map note_of notes.new.items
        ≡ map note_of notes.old.items
        ++ section_notes head.now.number (map plain body.now) (media_fields (plain head.now))) }
{
    let Some(fields) = head.media_fields() else {
        return Ok(());
    };
    let (kind, _) = field(b' ', fields);
    if is_video(kind) {
        return add_video(alloc, notes, head.number, video_of(fields), body);
    }
    notes.push(Note::Section {
        line: head.number,
        kind,
    })?;
    Ok(())
}
