//! Writes the result of a scan as JSON.

ghost use Rattle.std.specs.Prelude.{◌≡◌, ◌++◌, ◌<◌, ◌^◌, IfOk, map, codes, string_bytes};
ghost use Rattle.serde_json.specs.View.{view};
ghost use Rattle.timing_report.specs.json_report.Json.{list_of};
ghost use Rattle.timing_report.specs.json_report.Members.{Puts};
ghost use Rattle.capture_scan.specs.report.Contents.{contents_of};
ghost use Rattle.capture_scan.specs.report.Json.{arrival_data, contents_data, file_members, held_members, json_text, key_members, lines_members, order_members, pace_members, packet_members, passed_over_data, range_data, rate_data, rate_members, span_members, stream_data, target_data, unread_data};

use crate::{
    Arrival, Found, Lines, Order, Pace, PassedOver, Range, Rate, Span, Stream, UnreadTarget,
};
use serde_json::Value;
use std::alloc::{AllocError as OutOfMemory, Global};
use timing_base::{FileNote, Target};
use timing_report::json_report::Object;
use timing_report::{NoteText, SsrcText};

/// Returns the JSON of an address and a port.
fn target_value(alloc: Global, target: Target) -> Result<Value, OutOfMemory>
    ensures { IfOk result (λ value. view value ≡ target_data target) }
{
    Ok(Value::from(format!(in alloc; "{target}")?))
}

/// Adds the capture timestamps of the first and the last packet record, if there is a record.
fn put_span(object: &mut Object, span: Option<Span>) -> Result<(), OutOfMemory>
    ensures { IfOk result (λ _. Puts (span_members span) object.old object.new) }
{
    match span {
        None => Ok(()),
        Some(span) => {
            object.put_count("first", span.first)?;
            object.put_count("last", span.last)
        }
    }
}

/// Returns the JSON of the numbers of frames without a target, by class.
fn passed_over_value(alloc: Global, classes: &PassedOver) -> Result<Value, OutOfMemory>
    ensures { IfOk result (λ value. view value ≡ passed_over_data classes.now) }
{
    let mut object = Object::new(alloc);
    object.put_count("broken", classes.broken)?;
    object.put_count("empty", classes.empty)?;
    object.put_count("fragment", classes.fragment)?;
    object.put_count("ipv6", classes.ipv6)?;
    object.put_count("not_udp", classes.not_udp)?;
    object.put_count("other", classes.other)?;
    object.put_count("tags", classes.tags)?;
    Ok(object.into_value())
}

/// Returns the JSON of a target with unread packets.
fn unread_value(alloc: Global, unread: &UnreadTarget) -> Result<Value, OutOfMemory>
    ensures { IfOk result (λ value. view value ≡ unread_data unread.now) }
{
    let mut object = Object::new(alloc);
    object.put_count("packets", unread.packets)?;
    object.put("target", target_value(alloc, unread.target)?)?;
    Ok(object.into_value())
}

/// Returns the JSON of the targets with unread packets.
fn unread_values(alloc: Global, unread: &[UnreadTarget]) -> Result<Value, OutOfMemory>
    ensures { IfOk result (λ value. view value ≡ list_of (map unread_data unread.now)) }
{
    let mut values = Vec::with_capacity(alloc, unread.len())?;
    for target in unread {
        values.push(unread_value(alloc, target)?)?;
    }
    Ok(Value::Array(values))
}

/// Returns the JSON of the packet record and the capture timestamp of a packet.
fn arrival_value(alloc: Global, arrival: Arrival) -> Result<Value, OutOfMemory>
    ensures { IfOk result (λ value. view value ≡ arrival_data arrival) }
{
    let mut object = Object::new(alloc);
    object.put_count("record", arrival.rec)?;
    object.put_count("stamp", arrival.at)?;
    Ok(object.into_value())
}

/// Returns the JSON of the least and the greatest of some numbers.
fn range_value(alloc: Global, range: Range) -> Result<Value, OutOfMemory>
    ensures { IfOk result (λ value. view value ≡ range_data range) }
{
    let mut object = Object::new(alloc);
    object.put_count("greatest", range.greatest)?;
    object.put_count("least", range.least)?;
    Ok(object.into_value())
}

/// Returns the JSON of a sum of ticks and its number of steps.
fn rate_value(alloc: Global, rate: Rate) -> Result<Value, OutOfMemory>
    requires { rate.ticks < 2 ^ 64 }
    ensures { IfOk result (λ value. view value ≡ rate_data rate) }
{
    let mut object = Object::new(alloc);
    object.put_count("steps", rate.steps)?;
    object.put_count("ticks", rate.ticks as u64)?;
    Ok(object.into_value())
}

/// Adds the rate, if its sum of ticks has at most 64 bits.
fn put_rate(object: &mut Object, alloc: Global, rate: Rate) -> Result<(), OutOfMemory>
    ensures { IfOk result (λ _. Puts (rate_members rate) object.old object.new) }
{
    if rate.ticks < 0x1_0000_0000_0000_0000 {
        object.put("rate", rate_value(alloc, rate)?)
    } else {
        Ok(())
    }
}

/// Adds the numbers from one packet with the marker to the next, if there are two such packets.
fn put_pace(object: &mut Object, alloc: Global, pace: Option<Pace>) -> Result<(), OutOfMemory>
    ensures { IfOk result (λ _. Puts (pace_members pace) object.old object.new) }
{
    match pace {
        None => Ok(()),
        Some(pace) => {
            object.put("frame", range_value(alloc, pace.frame)?)?;
            object.put("step", range_value(alloc, pace.step)?)?;
            put_rate(object, alloc, pace.rate)
        }
    }
}

/// Adds the numbers of the first line headers, if there is one and all fit raw video.
fn put_lines(object: &mut Object, lines: Option<Lines>) -> Result<(), OutOfMemory>
    ensures { IfOk result (λ _. Puts (lines_members lines) object.old object.new) }
{
    match lines {
        None => Ok(()),
        Some(lines) => {
            if !lines.fits {
                return Ok(());
            }
            object.put_count("line", u64::from(lines.greatest))?;
            object.put_flag("second_field", lines.second_field)
        }
    }
}

/// Adds source, target, SSRC and payload type of a stream.
fn put_key(object: &mut Object, alloc: Global, stream: &Stream) -> Result<(), OutOfMemory>
    ensures { IfOk result (λ _. Puts (key_members stream.now) object.old object.new) }
{
    let ssrc = SsrcText { ssrc: stream.ssrc };
    let ssrc = format!(in alloc; "{ssrc}")?;
    object.put("source", target_value(alloc, stream.source)?)?;
    object.put("ssrc", Value::from(ssrc))?;
    object.put("target", target_value(alloc, stream.target)?)?;
    object.put_count("pt", u64::from(stream.pt))?;
    object.put_count("pts", stream.pts)
}

/// Adds the counts of a stream, and its first and last packet.
fn put_packets(object: &mut Object, alloc: Global, stream: &Stream) -> Result<(), OutOfMemory>
    ensures { IfOk result (λ _. Puts (packet_members stream.now) object.old object.new) }
{
    object.put_count("packets", stream.packets)?;
    object.put_count("markers", stream.markers)?;
    object.put_count("bytes", stream.bytes)?;
    object.put("first", arrival_value(alloc, stream.first)?)?;
    object.put("last", arrival_value(alloc, stream.last)?)
}

/// Adds the order of the sequence numbers.
fn put_order(object: &mut Object, order: Order) -> Result<(), OutOfMemory>
    ensures { IfOk result (λ _. Puts (order_members order) object.old object.new) }
{
    object.put_count("lost", order.lost)?;
    object.put_count("back", order.back)?;
    object.put_count("same", order.same)?;
    object.put_count("wraps", order.wraps)
}

/// Returns the JSON of a stream.
fn stream_value(alloc: Global, stream: &Stream) -> Result<Value, OutOfMemory>
    ensures { IfOk result (λ value. view value ≡ stream_data stream.now) }
{
    let mut object = Object::new(alloc);
    put_key(&mut object, alloc, stream)?;
    put_packets(&mut object, alloc, stream)?;
    put_order(&mut object, stream.order)?;
    put_pace(&mut object, alloc, stream.pace)?;
    put_lines(&mut object, stream.lines)?;
    Ok(object.into_value())
}

/// Returns the JSON of the streams.
fn stream_values(alloc: Global, streams: &[Stream]) -> Result<Value, OutOfMemory>
    ensures { IfOk result (λ value. view value ≡ list_of (map stream_data streams.now)) }
{
    let mut values = Vec::with_capacity(alloc, streams.len())?;
    for stream in streams {
        values.push(stream_value(alloc, stream)?)?;
    }
    Ok(Value::Array(values))
}

/// Adds the name of the capture, how it ends, and the numbers of its packet records.
fn put_file(
    object: &mut Object,
    alloc: Global,
    name: &str,
    note: FileNote,
    found: &Found,
) -> Result<(), OutOfMemory>
    ensures { IfOk result (λ _. Puts (file_members name.now note (contents_of found.now)) object.old object.new) }
{
    let note = NoteText { note };
    let note = format!(in alloc; "{note}")?;
    object.put("end", Value::from(note))?;
    object.put_text("name", name)?;
    object.put_count("records", found.records)?;
    object.put("passed_over", passed_over_value(alloc, &found.passed_over)?)?;
    object.put_count("more", found.more)?;
    put_span(object, found.span)
}

/// Adds the targets with unread packets, and the streams.
fn put_held(object: &mut Object, alloc: Global, found: &Found) -> Result<(), OutOfMemory>
    ensures { IfOk result (λ _. Puts (held_members (contents_of found.now)) object.old object.new) }
{
    object.put("unread", unread_values(alloc, found.unread.as_slice())?)?;
    object.put("streams", stream_values(alloc, found.streams.as_slice())?)
}

/// Returns the whole result as a JSON value.
fn value_of(alloc: Global, name: &str, note: FileNote, found: &Found) -> Result<Value, OutOfMemory>
    ensures { IfOk result (λ value. view value ≡ contents_data name.now note (contents_of found.now)) }
{
    let mut object = Object::new(alloc);
    put_file(&mut object, alloc, name, note, found)?;
    put_held(&mut object, alloc, found)?;
    Ok(object.into_value())
}

/// Returns the result of a scan as one JSON value and a newline. `name` is the name of the capture, and `note` how it
/// ends. The keys of each object stand in byte order.
///
/// These keys may be missing:
///
/// - `first` and `last` of the capture, if it has no packet record;
/// - `frame`, `step` and `rate` of a stream, if it has fewer than two packets with the marker;
/// - `rate`, if its sum of ticks has more than 64 bits;
/// - `line` and `second_field`, if no line header was captured whole, or one doesn't fit raw video.
///
/// Returns `Err` if memory runs out.
pub fn json_of(
    alloc: Global,
    name: &str,
    note: FileNote,
    found: &Found,
) -> Result<String, OutOfMemory>
    ensures { IfOk result (λ s. string_bytes s ≡ json_text name.now note (contents_of found.now)) }
{
    let value = value_of(alloc, name, note, found)?;
    let mut text = value.to_string(alloc)?;
    text.push_str("\n")?;
    Ok(text)
}
