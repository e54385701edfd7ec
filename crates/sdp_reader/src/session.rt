//! The whole session description: its media, or its first fault.

ghost use Rattle.std.specs.Prelude.{◌≡◌, ◌≤◌, [], length, map, IfOk, Err, Ok};
ghost use Rattle.std.specs.List.{filter_map, flat_map};
ghost use Rattle.std.specs.Option.{option_map};
ghost use Rattle.timing_base.specs.Targets.{HaveOwnTargets};
ghost use Rattle.sdp_reader.specs.Fault.{least};
ghost use Rattle.sdp_reader.specs.Lines.{lines};
ghost use Rattle.sdp_reader.specs.Parts.{parts, part_faults, raw_of};
ghost use Rattle.sdp_reader.specs.Plain.{plain};
ghost use Rattle.sdp_reader.specs.Session.{answer, raw_parts, destination_of, faults, lines_before, media_in, session, target_faults, too_many_faults};
ghost use Rattle.sdp_reader.specs.Answer.{Tells};
ghost use Rattle.sdp_reader.specs.Summary.{Keeps, TakesTarget};

use crate::fault::{SdpCause, SdpError, SdpFault, first_of};
use crate::line::{Line, at, line_fault, read_lines, version_fault};
use crate::part::{Destination, Kept, connection_line, own_lines, read_part};
use std::alloc::{AllocError, Global};
use std::collections::BTreeSet;
use timing_base::{Items, Media, Session, Target};

/// Returns the results of the raw parts, in order. `session` is the first `c=` line of the session
/// section. Returns `Err` if memory runs out.
fn read_parts<'a>(
    alloc: Global,
    session: Option<Line<'a>>,
    lines: &[Line<'a>],
) -> Result<Kept, AllocError>
    ensures { IfOk result (λ kept. Keeps kept []
        (filter_map (raw_of (option_map plain session.entry)) (parts (map plain lines.now)))) }
{
    let mut kept = Kept {
        destinations: Vec::new(alloc),
        fault: None,
        media: Vec::new(alloc),
    };
    for (i, head) in lines.iter().enumerate() {
        let rest = &lines[i + 1..];
        let reading = read_part(alloc, session, head, rest)?;
        kept.add(reading)?;
    }
    Ok(kept)
}

/// Returns whether the target was seen before, and adds it to those seen. Returns `Err` if memory
/// runs out.
fn is_taken(seen: &mut BTreeSet<Target>, target: Option<Target>) -> Result<bool, AllocError>
    ensures { IfOk result (λ taken. TakesTarget seen.old seen.new target taken) }
{
    match target {
        Some(target) => Ok(!seen.insert(target)?),
        None => Ok(false),
    }
}

/// Returns the fault of the first part with the target of an earlier part. Returns `Err` if memory
/// runs out.
fn target_fault(alloc: Global, parts: &[Destination]) -> Result<Option<SdpFault>, AllocError>
    ensures { IfOk result (λ fault. fault ≡ least (target_faults parts.now)) }
{
    let mut fault = None;
    let mut seen = BTreeSet::new(alloc);
    for part in parts {
        let taken = is_taken(&mut seen, part.target)?;
        fault = first_of(fault, at(part.line, SdpCause::SameTarget, taken));
    }
    Ok(fault)
}

/// Returns the fault of the 65th part, if there is one.
fn too_many_fault(parts: &[Destination]) -> Option<SdpFault>
    ensures { result ≡ least (too_many_faults parts.now) }
{
    if parts.len() > 64 {
        at(parts[64].line, SdpCause::TooManyMedia, true)
    } else {
        None
    }
}

/// Returns the first fault of all, given the destinations of the raw parts and the first fault that
/// a raw part has by itself. Returns `Err` if memory runs out.
fn first_fault(
    alloc: Global,
    lines: &[Line],
    destinations: &[Destination],
    of_parts: Option<SdpFault>,
) -> Result<Option<SdpFault>, AllocError>
    requires destinations { destinations.now
        ≡ map destination_of (raw_parts (map plain lines.now)) }
    requires of_parts { of_parts ≡ least (flat_map part_faults (raw_parts (map plain lines.now))) }
    ensures { IfOk result (λ fault. fault ≡ least (faults (map plain lines.now))) }
{
    let targets = target_fault(alloc, destinations)?;
    let of_all = first_of(targets, too_many_fault(destinations));
    let of_raw = first_of(of_parts, of_all);
    let of_lines = first_of(line_fault(lines), of_raw);
    Ok(first_of(version_fault(lines), of_lines))
}

/// Returns the media of these lines, or their first fault.
fn answer(alloc: Global, lines: &[Line]) -> Result<Session, SdpError>
    ensures { Tells (answer (map plain lines.now)) result }
{
    let session = connection_line(own_lines(lines));
    let Kept {
        destinations,
        fault,
        media,
    } = read_parts(alloc, session, lines)?;
    if let Some(fault) = first_fault(alloc, lines, destinations.as_slice(), fault)? {
        return Err(SdpError::Refused(fault));
    }
    if destinations.is_empty() {
        return Err(SdpError::Refused(SdpFault {
            line: 0,
            what: SdpCause::NoVideo,
        }));
    }
    Ok(Session {
        media: Items::from_vec(media),
    })
}

/// Reads a session description from any bytes. The media are its raw parts, in order: the video
/// sections that map their format to `raw/90000`. Other sections and lines are ignored.
///
/// If there are several faults, the one on the first invalid line is returned, and of that line the
/// cause with the lowest number. More than 1,048,576 bytes are always `TooLarge`. Returns
/// `OutOfMemory` if memory runs out.
pub fn read_sdp(alloc: Global, bytes: &[u8]) -> Result<Session, SdpError>
    // The session of the text or its first fault. If memory ran out, nothing is guaranteed.
    ensures tells { Tells (session bytes.now) result }
    // No two media have the same target.
    ensures targets { IfOk result (λ session. HaveOwnTargets session) }
{
    if bytes.len() > 1_048_576 {
        return Err(SdpError::Refused(SdpFault {
            line: 0,
            what: SdpCause::TooLarge,
        }));
    }
    let lines = read_lines(alloc, bytes)?;
    let list = lines.as_slice();
    answer(alloc, list)
}

/// Returns the media that these lines describe. Returns `Err` if memory runs out.
fn media_in(alloc: Global, lines: &[Line]) -> Result<Vec<Media>, AllocError>
    ensures { IfOk result (λ media. media.items ≡ media_in (map plain lines.now)) }
{
    let session = connection_line(own_lines(lines));
    let kept = read_parts(alloc, session, lines)?;
    Ok(kept.media)
}

/// Returns the media that the lines before the line with this number describe, in order: the raw
/// parts that have all that a media needs, whatever else is invalid. Lines count from 1; before line
/// 0 there is none. Returns `Err` if memory runs out.
pub fn media_before(alloc: Global, bytes: &[u8], line: u32) -> Result<Vec<Media>, AllocError>
    requires { length bytes.now ≤ 1048576 }
    ensures { IfOk result (λ media. media.items ≡ media_in (lines_before line (lines bytes.now))) }
{
    let lines = read_lines(alloc, bytes)?;
    let count = line.saturating_sub(1) as usize;
    let before = &lines.as_slice()[..count.min(lines.len())];
    media_in(alloc, before)
}
