//! A session description as it is read.

ghost use Rattle.std.specs.Prelude.{◌≡◌, ◌≤◌, ◌<◌, IfOk, length, map};
ghost use Rattle.std.specs.List.{flat_map};
ghost use Rattle.sdp_reader.specs.Lines.{lines};
ghost use Rattle.sdp_reader.specs.Parts.{parts};
ghost use Rattle.sdp_reader.specs.Plain.{plain};
ghost use Rattle.sdp_reader.specs.Session.{lines_before, media_in, session};
ghost use Rattle.sdp_notes.specs.Described.{described, notes_in};
ghost use Rattle.sdp_notes.specs.Notes.{notes_on, part_notes};
ghost use Rattle.sdp_notes.specs.Seen.{described_of, note_of};

use crate::note::Note;
use crate::section::add_section;
use sdp_reader::{SdpError, SdpFault, media_before, own_lines, read_lines, read_sdp};
use std::alloc::{AllocError as OutOfMemory, Global};
use timing_base::Media;

/// The greatest length of a session description that is read, in bytes.
const MOST_BYTES: usize = 1_048_576;

/// A session description as it is read.
#[derive(Debug, Drop)]
pub struct Described<'a> {
    /// The videos, in order. If the description is refused, those that the lines before its fault describe.
    pub media: Vec<Media>,
    /// The notes on all lines, in the order of the lines.
    pub notes: Vec<Note<'a>>,
    /// The first fault, if the description is refused.
    pub fault: Option<SdpFault>,
}

/// Returns the notes on the lines of a session description. Returns `Err` if memory runs out.
fn notes_on(alloc: Global, bytes: &[u8]) -> Result<Vec<Note<'_>>, OutOfMemory>
    requires { length bytes.now ≤ 1048576 }
    ensures { IfOk result (λ notes. map note_of notes.items ≡ notes_on (lines bytes.now)) }
{
    let found = read_lines(alloc, bytes)?;
    let lines = found.as_slice();
    let mut notes = Vec::new(alloc);
    for (i, head) in lines.iter().enumerate() {
        let body = own_lines(&lines[i + 1..]);
        add_section(alloc, &mut notes, head, body)?;
    }
    Ok(notes)
}

/// Returns the notes on a session description; one that is too large has none. Returns `Err` if memory runs out.
fn notes_in(alloc: Global, bytes: &[u8]) -> Result<Vec<Note<'_>>, OutOfMemory>
    ensures { IfOk result (λ notes. map note_of notes.items ≡ notes_in bytes.now) }
{
    if bytes.len() > MOST_BYTES {
        return Ok(Vec::new(alloc));
    }
    notes_on(alloc, bytes)
}

/// Returns the videos that the lines before a fault describe; of a description that is too large none. Returns `Err` if
/// memory runs out.
fn media_read(alloc: Global, bytes: &[u8], fault: SdpFault) -> Result<Vec<Media>, OutOfMemory>
    requires whole { 1048576 < length bytes.now → fault.line ≡ 0 }
    ensures { IfOk result (λ media. media.items ≡ media_in (lines_before fault.line (lines bytes.now))) }
{
    if bytes.len() > MOST_BYTES {
        return Ok(Vec::new(alloc));
    }
    media_before(alloc, bytes, fault.line)
}

/// Returns how a session description is read: as `sdp_reader::read_sdp` does, with notes on what it passes over.
/// Returns `Err` if memory runs out.
pub fn describe(alloc: Global, bytes: &[u8]) -> Result<Described<'_>, OutOfMemory>
    ensures { IfOk result (λ d. described_of d ≡ described bytes.now) }
{
    let (media, fault) = match read_sdp(alloc, bytes) {
        Ok(session) => (Vec::from_slice(alloc, session.media.as_slice())?, None),
        Err(SdpError::Refused(fault)) => (media_read(alloc, bytes, fault)?, Some(fault)),
        Err(SdpError::OutOfMemory) => return Err(OutOfMemory),
    };
    let notes = notes_in(alloc, bytes)?;
    Ok(Described {
        media,
        notes,
        fault,
    })
}
