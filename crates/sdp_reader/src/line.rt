//! The lines of a session description, and the faults of single lines.

ghost use Rattle.std.specs.Prelude.{◌≡◌, ◌≤◌, length, map, IfOk, IfSome};
ghost use Rattle.std.specs.List.{flat_map};
ghost use Rattle.sdp_reader.specs.Fault.{least};
ghost use Rattle.sdp_reader.specs.Lines.{lines, without_cr, at, is_not_text, is_bad_line, is_bad_media, line_faults, version_faults, media_fields, is_video, video_of};
ghost use Rattle.sdp_reader.specs.Plain.{plain};

use crate::bytes::{cut, field, is_same, number_within, strip, trim_end};
use crate::fault::{SdpCause, SdpFault, first_of};
use std::alloc::{AllocError, Global};

/// One line, without its line ending and the spaces and tabs before it.
#[derive(Clone, Copy, Debug)]
pub struct Line<'a> {
    /// The number of the line, counted from 1.
    pub number: u32,
    /// The text.
    pub text: &'a [u8],
}

/// The port and format of a video line.
#[derive(Clone, Copy, Debug)]
pub struct Video {
    /// The UDP port, 1 to 65,535.
    pub port: u16,
    /// The RTP payload type, 0 to 127.
    pub format: u8,
}

/// Returns a piece that an LF ended, without one CR at its end.
fn without_cr(piece: &[u8]) -> &[u8]
    ensures value { result.now ≡ without_cr piece.now }
    ensures shorter { length result.now ≤ length piece.now }
{
    if !piece.is_empty() && piece[piece.len() - 1] == b'\r' {
        &piece[..piece.len() - 1]
    } else {
        piece
    }
}

/// Returns the lines of a text of at most 1,048,576 bytes. Returns `Err` if memory runs out.
pub fn read_lines(alloc: Global, bytes: &[u8]) -> Result<Vec<Line<'_>>, AllocError>
    requires { length bytes.now ≤ 1048576 }
    ensures { IfOk result (λ v. map plain v.items ≡ lines bytes.now) }
{
    let mut lines = Vec::new(alloc);
    let mut number = 1;
    let mut rest = bytes;
    while let Some((piece, after)) = cut(b'\n', rest) {
        lines.push(Line {
            number,
            text: trim_end(without_cr(piece)),
        })?;
        number += 1;
        rest = after;
    }
    if !rest.is_empty() {
        lines.push(Line {
            number,
            text: trim_end(rest),
        })?;
    }
    Ok(lines)
}

/// Returns a fault of this cause on this line, if `stands` is true.
pub(crate) fn at(line: u32, what: SdpCause, stands: bool) -> Option<SdpFault>
    ensures { result ≡ least (at line what stands) }
{
    if stands {
        Some(SdpFault { line, what })
    } else {
        None
    }
}

/// Returns the port and the format of a video line, from the text after `m=`. Returns `None` if the
/// line isn't `m=video PORT RTP/AVP FORMAT`.
pub fn video_of(fields: &[u8]) -> Option<Video>
    ensures value { result ≡ video_of fields.now }
    ensures ranges { IfSome result (λ v. (1 ≤ v.port) × (v.format ≤ 127)) }
{
    let (kind, rest) = field(b' ', fields);
    let (port, rest) = field(b' ', rest);
    let (protocol, rest) = field(b' ', rest);
    let (format, _) = field(b' ', rest);
    if !is_same(kind, b"video") || !is_same(protocol, b"RTP/AVP") {
        return None;
    }
    match (
        number_within(1, 65_535, port),
        number_within(0, 127, format),
    ) {
        (Some(port), Some(format)) => Some(Video {
            port: port as u16,
            format: format as u8,
        }),
        _ => None,
    }
}

/// Returns whether the first field is `video`.
fn is_video(fields: &[u8]) -> bool
    ensures { result ≡ is_video fields.now }
{
    let (kind, _) = field(b' ', fields);
    is_same(kind, b"video")
}

impl<'a> Line<'a> {
    ghost use Rattle.std.specs.Option.{option_copied};

    /// Returns the text after `m=`, or `None` if this isn't an `m=` line.
    pub fn media_fields(&self) -> Option<&'a [u8]>
        ensures { option_copied result ≡ media_fields (plain self.now) }
    {
        strip(self.text, b"m=")
    }

    /// Returns whether the line has a byte 0 or a CR.
    fn is_not_text(&self) -> bool
        ensures { result ≡ is_not_text (plain self.now) }
    {
        self.text.iter().any(|b| *b == 0 || *b == b'\r')
    }

    /// Returns whether the line isn't empty and doesn't begin with a letter a to z and `=`.
    fn is_bad_line(&self) -> bool
        ensures { result ≡ is_bad_line (plain self.now) }
    {
        let text = self.text;
        !text.is_empty() && !(text.len() >= 2 && text[0].is_ascii_lowercase() && text[1] == b'=')
    }

    /// Returns whether this is an `m=` line of `video` without the form of a video line.
    fn is_bad_media(&self) -> bool
        ensures { result ≡ is_bad_media (plain self.now) }
    {
        match self.media_fields() {
            Some(fields) => is_video(fields) && video_of(fields).is_none(),
            None => false,
        }
    }

    /// Returns the first fault that the line has by itself, in whichever section it is.
    fn fault(&self) -> Option<SdpFault>
        ensures { result ≡ least (line_faults (plain self.now)) }
    {
        let media = at(self.number, SdpCause::BadMedia, self.is_bad_media());
        let line = at(self.number, SdpCause::BadLine, self.is_bad_line());
        let text = at(self.number, SdpCause::NotText, self.is_not_text());
        first_of(text, first_of(line, media))
    }
}

/// Returns the first fault that a line has by itself.
pub(crate) fn line_fault(lines: &[Line]) -> Option<SdpFault>
    ensures { result ≡ least (flat_map line_faults (map plain lines.now)) }
{
    let mut fault = None;
    for line in lines {
        fault = first_of(fault, line.fault());
    }
    fault
}

/// Returns the fault `NoVersion`, unless the first line that isn't empty is `v=0`.
pub(crate) fn version_fault(lines: &[Line]) -> Option<SdpFault>
    ensures { result ≡ least (version_faults (map plain lines.now)) }
{
    for line in lines {
        if !line.text.is_empty() {
            return at(
                line.number,
                SdpCause::NoVersion,
                !is_same(line.text, b"v=0"),
            );
        }
    }
    at(1, SdpCause::NoVersion, true)
}
