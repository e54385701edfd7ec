//! Media sections: their contents and faults.

ghost use Rattle.std.specs.Prelude.{◌≡◌, ◌+◌, ◌≤◌, ◌<◌, ◌*◌, map, IfOk, OnOk, IfSome};
ghost use Rattle.std.specs.Option.{option_map, option_and_then};
ghost use Rattle.std.specs.List.{list_any};
ghost use Rattle.sdp_reader.specs.Fault.{least};
ghost use Rattle.sdp_reader.specs.Bytes.{after};
ghost use Rattle.sdp_reader.specs.Lines.{media_fields, video_of};
ghost use Rattle.sdp_reader.specs.Parameters.{value_size, value_offset, value_limit, value_kind, value_rate, item_named, parameters};
ghost use Rattle.sdp_reader.specs.Parts.{own_lines, connection_line, octet, is_ttl, address_from, address_at, address_of, is_raw_map, raw_part, raw_of, counting, connection_faults, faults_at, is_missing, media_from};
ghost use Rattle.sdp_reader.specs.Plain.{plain, plain_item};
ghost use Rattle.sdp_reader.specs.Session.{target_at};
ghost use Rattle.sdp_reader.specs.Summary.{reading_of};

use crate::bytes::{cut, digits_of, field, is_same_word, strip};
use crate::fault::{SdpCause, SdpFault, first_of};
use crate::line::{Line, Video, at, video_of};
use crate::parameter::{
    Name, Parameter, Rate, is_the, item_fault, item_named, parameters, repeated_fault,
};
use std::alloc::{AllocError, Global};
use timing_base::{Address, Kind, Media, Target};

/// The first line of a part, and its target, if the address is valid.
#[derive(Clone, Copy, Debug)]
pub(crate) struct Destination {
    /// The first line of the part, counted from 1.
    pub line: u32,
    /// The target, if the address is valid.
    pub target: Option<Target>,
}

/// The result of one raw part.
#[derive(Clone, Copy, Debug)]
pub(crate) struct Reading {
    /// The first line and the target.
    pub destination: Destination,
    /// The first fault that the part has by itself.
    pub fault: Option<SdpFault>,
    /// The stream, if the part has all that a stream needs.
    pub media: Option<Media>,
}

/// The results of the raw parts so far, in order.
#[derive(Debug, Drop)]
pub(crate) struct Kept {
    /// The first line and the target of each part.
    pub destinations: Vec<Destination>,
    /// The first fault that a part has by itself.
    pub fault: Option<SdpFault>,
    /// The streams.
    pub media: Vec<Media>,
}

impl Kept {
    ghost use Rattle.sdp_reader.specs.Summary.{Adds};

    /// Adds the result of a raw part, if there is one. Returns `Err` if memory runs out.
    pub(crate) fn add(&mut self, reading: Option<Reading>) -> Result<(), AllocError>
        ensures { OnOk result (Adds self.old reading self.new) }
    {
        if let Some(reading) = reading {
            self.destinations.push(reading.destination)?;
            self.fault = first_of(self.fault, reading.fault);
            if let Some(media) = reading.media {
                self.media.push(media)?;
            }
        }
        Ok(())
    }
}

/// Returns the lines before the first `m=` line.
pub fn own_lines<'b, 'a>(lines: &'b [Line<'a>]) -> &'b [Line<'a>]
    ensures { map plain result.now ≡ own_lines (map plain lines.now) }
{
    for (i, line) in lines.iter().enumerate() {
        if line.media_fields().is_some() {
            return &lines[..i];
        }
    }
    lines
}

/// Returns the first `c=` line.
pub(crate) fn connection_line<'a>(lines: &[Line<'a>]) -> Option<Line<'a>>
    ensures { option_map plain result ≡ connection_line (map plain lines.now) }
{
    for line in lines {
        if strip(line.text, b"c=").is_some() {
            return Some(*line);
        }
    }
    None
}

/// Returns the value of 1 to 3 digits if it is at most 255: an octet or a TTL.
fn octet(text: &[u8]) -> Option<u8>
    ensures { result ≡ octet text.now }
{
    match digits_of(3, text) {
        Some(n) if n <= 255 => Some(n as u8),
        _ => None,
    }
}

/// Returns whether there is either no slash or a valid TTL after it.
fn is_ttl(last: &[u8]) -> bool
    ensures { result ≡ is_ttl last.now }
{
    match cut(b'/', last) {
        Some((_, ttl)) => octet(ttl).is_some(),
        None => true,
    }
}

/// Returns the address of four octets.
fn address_from(a: &[u8], b: &[u8], c: &[u8], d: &[u8]) -> Option<Address>
    ensures { result ≡ address_from (octet a.now) (octet b.now) (octet c.now) (octet d.now) }
{
    let a = octet(a)?;
    let b = octet(b)?;
    let c = octet(c)?;
    let d = octet(d)?;
    Some(Address::new(a, b, c, d))
}

/// Returns the address of `A.B.C.D` or `A.B.C.D/TTL`.
fn address_at(rest: &[u8]) -> Option<Address>
    ensures { result ≡ address_at rest.now }
{
    let (a, rest) = field(b'.', rest);
    let (b, rest) = field(b'.', rest);
    let (c, last) = field(b'.', rest);
    let (d, _) = field(b'/', last);
    if is_ttl(last) {
        address_from(a, b, c, d)
    } else {
        None
    }
}

/// Returns the address of a line `c=IN IP4 ADDRESS`.
fn address_of(line: &Line) -> Option<Address>
    ensures { result ≡ address_of (plain line.now) }
{
    address_at(strip(line.text, b"c=IN IP4 ")?)
}

/// Returns whether the line is `a=rtpmap:FORMAT raw/90000`.
fn is_raw_map(line: &Line, format: u8) -> bool
    ensures { result ≡ is_raw_map format (plain line.now) }
{
    match strip(line.text, b"a=rtpmap:") {
        Some(rest) => {
            let (own, encoding) = field(b' ', rest);
            is_the(format, own) && is_same_word(encoding, b"raw/90000")
        }
        None => false,
    }
}

/// Returns whether a line of the part maps its format to `raw/90000`.
pub fn is_raw(body: &[Line], format: u8) -> bool
    ensures { result ≡ list_any (is_raw_map format) (map plain body.now) }
{
    for line in body {
        if is_raw_map(line, format) {
            return true;
        }
    }
    false
}

/// Returns the fault of the connection that applies, if it is missing or invalid.
fn connection_fault(line: u32, connection: Option<Line>) -> Option<SdpFault>
    ensures { result ≡ least (connection_faults line (option_map plain connection.entry)) }
{
    match connection {
        Some(connection) => at(
            connection.number,
            SdpCause::BadAddress,
            address_of(&connection).is_none(),
        ),
        None => at(line, SdpCause::NoConnection, true),
    }
}

/// Returns whether width, height or exactframerate is missing.
fn is_missing(items: &[Parameter]) -> bool
    ensures { result ≡ is_missing (map plain_item items.now) }
{
    item_named(Name::Width, items).is_none()
        || item_named(Name::Height, items).is_none()
        || item_named(Name::ExactFrameRate, items).is_none()
}

/// Returns the size in the first parameter of this name, in pixels or lines.
fn size_named(name: Name, items: &[Parameter]) -> Option<u32>
    ensures value { result
        ≡ option_and_then value_size (item_named name (map plain_item items.now)) }
    ensures some { IfSome result (λ n. 1 ≤ n) }
    ensures most { IfSome result (λ n. n ≤ 32767) }
{
    item_named(name, items)?.size()
}

/// Returns the offset in the first parameter TROFF, in microseconds.
fn troff_named(items: &[Parameter]) -> Option<u32>
    ensures value { result
        ≡ option_and_then value_offset (item_named Name.Troff (map plain_item items.now)) }
    ensures most { IfSome result (λ n. n ≤ 1000000) }
{
    item_named(Name::Troff, items)?.offset()
}

/// Returns the limit in the first parameter CMAX, in packets.
fn cmax_named(items: &[Parameter]) -> Option<u32>
    ensures value { result
        ≡ option_and_then value_limit (item_named Name.Cmax (map plain_item items.now)) }
    ensures some { IfSome result (λ n. 1 ≤ n) }
    ensures most { IfSome result (λ n. n ≤ 65535) }
{
    item_named(Name::Cmax, items)?.limit()
}

/// Returns the sender type in the first parameter TP.
fn kind_named(items: &[Parameter]) -> Option<Kind>
    ensures { result ≡ option_and_then value_kind (item_named Name.Tp (map plain_item items.now)) }
{
    item_named(Name::Tp, items)?.kind()
}

/// Returns the rate in the first parameter exactframerate, in frames per second.
fn rate_named(items: &[Parameter]) -> Option<Rate>
    ensures value { result
        ≡ option_and_then value_rate (item_named Name.ExactFrameRate (map plain_item items.now)) }
    ensures p_some { IfSome result (λ r. 1 ≤ r.p) }
    ensures p_most { IfSome result (λ r. r.p ≤ 240 * r.q) }
    ensures q_some { IfSome result (λ r. 1 ≤ r.q) }
    ensures q_most { IfSome result (λ r. r.q ≤ 1001) }
{
    item_named(Name::ExactFrameRate, items)?.rate()
}

/// Returns the stream of a part, if the part has all that a stream needs.
fn media_of(line: u32, video: Video, address: Option<Address>, items: &[Parameter]) -> Option<Media>
    requires port { 1 ≤ video.port }
    requires format { video.format ≤ 127 }
    ensures { result ≡ media_from line video address (map plain_item items.now) }
{
    let address = address?;
    let width = size_named(Name::Width, items)?;
    let height = size_named(Name::Height, items)?;
    let rate = rate_named(items)?;
    let interlaced = item_named(Name::Interlace, items).is_some();
    let declared = kind_named(items);
    let troff = troff_named(items);
    let cmax = cmax_named(items);
    Some(Media {
        line,
        address,
        port: video.port,
        pt: video.format,
        width,
        height,
        interlaced,
        p: rate.p,
        q: rate.q,
        declared,
        troff,
        cmax,
    })
}

/// Returns the result of a raw part that begins on `line` and goes on with the lines `body`.
/// `session` is the first `c=` line of the session section. Returns `Err` if memory runs out.
fn read_raw<'a>(
    alloc: Global,
    session: Option<Line<'a>>,
    line: u32,
    video: Video,
    body: &[Line<'a>],
) -> Result<Reading, AllocError>
    requires port { 1 ≤ video.port }
    requires format { video.format ≤ 127 }
    ensures { IfOk result (λ r. r ≡ reading_of (raw_part
        (option_map plain session.entry) line (map plain body.now) video)) }
{
    let items = parameters(alloc, video.format, body)?;
    let list = items.as_slice();
    let connection = counting(connection_line(body), session);
    let address = good_address(connection);
    let target = target_at(address, video.port);
    Ok(Reading {
        destination: Destination { line, target },
        fault: raw_fault(line, connection, list),
        media: media_of(line, video, address, list),
    })
}

/// Returns the first fault of a raw part with this first line, connection and parameters.
fn raw_fault(line: u32, connection: Option<Line>, items: &[Parameter]) -> Option<SdpFault>
    ensures { result
        ≡ least (faults_at line (option_map plain connection.entry) (map plain_item items.now)) }
{
    let of_items = first_of(item_fault(items), repeated_fault(items));
    let missing = at(line, SdpCause::MissingParameter, is_missing(items));
    first_of(
        connection_fault(line, connection),
        first_of(missing, of_items),
    )
}

/// Returns the part's own connection, or the session's if the part has none.
fn counting<'a>(own: Option<Line<'a>>, session: Option<Line<'a>>) -> Option<Line<'a>>
    ensures { option_map plain result
        ≡ counting (option_map plain own.entry) (option_map plain session.entry) }
{
    own.or(session)
}

/// Returns the address, if the connection is valid.
fn good_address(connection: Option<Line>) -> Option<Address>
    ensures { result ≡ option_and_then address_of (option_map plain connection.entry) }
{
    address_of(&connection?)
}

/// Returns the target with this address, if there is one, and this port.
fn target_at(address: Option<Address>, port: u16) -> Option<Target>
    ensures { result ≡ target_at address port }
{
    let address = address?;
    Some(Target { address, port })
}

/// Returns the result of the part that the line `head` begins, or `None` if that isn't a raw part.
/// `rest` are the lines after `head`. Returns `Err` if memory runs out.
pub(crate) fn read_part<'a>(
    alloc: Global,
    session: Option<Line<'a>>,
    head: &Line<'a>,
    rest: &[Line<'a>],
) -> Result<Option<Reading>, AllocError>
    ensures { IfOk result (λ r. r ≡ option_map reading_of (raw_of
        (option_map plain session.entry)
        (record { head = plain head.now; body = own_lines (map plain rest.now) }))) }
{
    let Some(video) = video_of_head(head) else {
        return Ok(None);
    };
    let body = own_lines(rest);
    if !is_raw(body, video.format) {
        return Ok(None);
    }
    let reading = read_raw(alloc, session, head.number, video, body)?;
    Ok(Some(reading))
}

/// Returns port and format, if the line is a video line.
fn video_of_head(head: &Line) -> Option<Video>
    ensures value { result ≡ option_and_then video_of (media_fields (plain head.now)) }
    ensures ranges { IfSome result (λ v. (1 ≤ v.port) × (v.format ≤ 127)) }
{
    video_of(head.media_fields()?)
}
