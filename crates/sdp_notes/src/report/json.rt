//! Writes how a session description is read as JSON.

ghost use Rattle.std.specs.Prelude.{◌≡◌, ◌++◌, ◌+◌, [], IfOk, codes, map, string_bytes};
ghost use Rattle.serde_json.specs.View.{view};
ghost use Rattle.timing_report.specs.json_report.Json.{interlaced_members, list_of};
ghost use Rattle.timing_report.specs.json_report.Members.{Puts};
ghost use Rattle.sdp_notes.specs.Seen.{described_of, note_of};
ghost use Rattle.sdp_notes.specs.report.Json.{all_media_data, described_data, described_json, fault_data, fault_members, field_members, media_data, note_data, note_members, number_members, on_line, picture_members, place_members, sender_members, shown_data, step_data, time_members};

use crate::report::shown::shown;
use crate::report::text::{RateText, attribute_name};
use crate::report::times::{frame_ns, greatest_step, group_ns, least_step, offset_ns};
use crate::{Described, Note};
use sdp_reader::SdpFault;
use serde_json::Value;
use std::alloc::{AllocError as OutOfMemory, Global};
use timing_base::Media;
use timing_report::declared_name;
use timing_report::json_report::Object;

/// Adds a number, if there is one.
fn put_number(object: &mut Object, key: &str, number: Option<u32>) -> Result<(), OutOfMemory>
    ensures { IfOk result (λ _. Puts (number_members key.now number) object.old object.new) }
{
    match number {
        Some(number) => object.put_count(key, u64::from(number)),
        None => Ok(()),
    }
}

/// Adds the time of a field, if the video is interlaced.
fn put_field(object: &mut Object, media: &Media) -> Result<(), OutOfMemory>
    ensures { IfOk result (λ _. Puts (field_members media.now) object.old object.new) }
{
    if media.interlaced {
        object.put_count("field", group_ns(media))
    } else {
        Ok(())
    }
}

/// Adds `interlaced`, if the video is interlaced.
fn put_interlaced(object: &mut Object, interlaced: bool) -> Result<(), OutOfMemory>
    ensures { IfOk result (λ _. Puts (interlaced_members interlaced) object.old object.new) }
{
    if interlaced {
        object.put_flag("interlaced", true)
    } else {
        Ok(())
    }
}

/// Returns the JSON of the least and the greatest step of the RTP timestamp.
fn step_value(alloc: Global, media: &Media) -> Result<Value, OutOfMemory>
    ensures { IfOk result (λ value. view value ≡ step_data media.now) }
{
    let mut object = Object::new(alloc);
    object.put_count("greatest", greatest_step(media))?;
    object.put_count("least", least_step(media))?;
    Ok(object.into_value())
}

/// Adds where the video with this number, from 1, is sent, its line and its payload type.
fn put_place(
    object: &mut Object,
    alloc: Global,
    number: usize,
    media: &Media,
) -> Result<(), OutOfMemory>
    ensures { IfOk result (λ _. Puts (place_members number media.now) object.old object.new) }
{
    let target = media.target();
    object.put_count("line", u64::from(media.line))?;
    object.put_count("media", number as u64)?;
    object.put_count("pt", u64::from(media.pt))?;
    object.put("target", Value::from(format!(in alloc; "{target}")?))
}

/// Adds the size, the scan and the frame rate of a video.
fn put_picture(object: &mut Object, alloc: Global, media: &Media) -> Result<(), OutOfMemory>
    ensures { IfOk result (λ _. Puts (picture_members media.now) object.old object.new) }
{
    let rate = RateText { media: *media };
    object.put_count("height", u64::from(media.height))?;
    object.put("rate", Value::from(format!(in alloc; "{rate}")?))?;
    object.put_count("width", u64::from(media.width))?;
    put_interlaced(object, media.interlaced)
}

/// Adds the parameters of the sender of a video.
fn put_sender(object: &mut Object, media: &Media) -> Result<(), OutOfMemory>
    ensures { IfOk result (λ _. Puts (sender_members media.now) object.old object.new) }
{
    object.put_text("declared", declared_name(media.declared))?;
    put_number(object, "cmax", media.cmax)?;
    put_number(object, "troff", media.troff)
}

/// Adds the times of a video.
fn put_times(object: &mut Object, alloc: Global, media: &Media) -> Result<(), OutOfMemory>
    ensures { IfOk result (λ _. Puts (time_members media.now) object.old object.new) }
{
    object.put_count("frame", frame_ns(media))?;
    object.put_count("offset", offset_ns(media))?;
    object.put("step", step_value(alloc, media)?)?;
    put_field(object, media)
}

/// Returns the JSON of the video with this number, from 1.
fn media_value(alloc: Global, number: usize, media: &Media) -> Result<Value, OutOfMemory>
    ensures { IfOk result (λ value. view value ≡ media_data number media.now) }
{
    let mut object = Object::new(alloc);
    put_place(&mut object, alloc, number, media)?;
    put_picture(&mut object, alloc, media)?;
    put_sender(&mut object, media)?;
    put_times(&mut object, alloc, media)?;
    Ok(object.into_value())
}

/// Returns the JSON of the videos.
fn media_values(alloc: Global, videos: &[Media]) -> Result<Value, OutOfMemory>
    ensures { IfOk result (λ value. view value ≡ list_of (all_media_data 1 videos.now)) }
{
    let mut values = Vec::with_capacity(alloc, videos.len())?;
    for (index, media) in videos.iter().enumerate() {
        values.push(media_value(alloc, index + 1, media)?)?;
    }
    Ok(Value::Array(values))
}

/// Returns the JSON of bytes of the description.
fn shown_value(alloc: Global, bytes: &[u8]) -> Result<Value, OutOfMemory>
    ensures { IfOk result (λ value. view value ≡ shown_data bytes.now) }
{
    Ok(Value::from(shown(alloc, bytes)?))
}

/// Returns the JSON of names.
fn name_values(alloc: Global, names: &[&[u8]]) -> Result<Value, OutOfMemory>
    ensures { IfOk result (λ value. view value ≡ list_of (map shown_data (map (λ name. name.now) names.now))) }
{
    let mut values = Vec::with_capacity(alloc, names.len())?;
    for name in names {
        values.push(shown_value(alloc, name)?)?;
    }
    Ok(Value::Array(values))
}

/// Adds the line of a note, and what it is.
fn put_line(object: &mut Object, line: u32, what: &str) -> Result<(), OutOfMemory>
    ensures { IfOk result (λ _. Puts (on_line line what.now []) object.old object.new) }
{
    object.put_count("line", u64::from(line))?;
    object.put_text("what", what)
}

/// Adds the members of a note.
fn put_note(object: &mut Object, alloc: Global, note: &Note) -> Result<(), OutOfMemory>
    ensures { IfOk result (λ _. Puts (note_members (note_of note.now)) object.old object.new) }
{
    match note {
        Note::Section { line, kind } => {
            put_line(object, *line, "section")?;
            object.put("section", shown_value(alloc, kind)?)
        }
        Note::NotRaw { line, format } => {
            put_line(object, *line, "not_raw")?;
            object.put_count("format", u64::from(*format))
        }
        Note::OtherFormat { line, attribute } => {
            put_line(object, *line, "other_format")?;
            object.put_text("attribute", attribute_name(*attribute))
        }
        Note::Unknown { line, names } => {
            put_line(object, *line, "unknown")?;
            object.put("names", name_values(alloc, names.as_slice())?)
        }
        Note::Near { line, name, known } => {
            put_line(object, *line, "near")?;
            object.put_text("meant", known)?;
            object.put("name", shown_value(alloc, name)?)
        }
        Note::Comma { line, name } => {
            put_line(object, *line, "comma")?;
            object.put("name", shown_value(alloc, name)?)
        }
    }
}

/// Returns the JSON of a note.
fn note_value(alloc: Global, note: &Note) -> Result<Value, OutOfMemory>
    ensures { IfOk result (λ value. view value ≡ note_data (note_of note.now)) }
{
    let mut object = Object::new(alloc);
    put_note(&mut object, alloc, note)?;
    Ok(object.into_value())
}

/// Returns the JSON of notes.
fn note_values(alloc: Global, notes: &[Note]) -> Result<Value, OutOfMemory>
    ensures { IfOk result (λ value. view value ≡ list_of (map note_data (map note_of notes.now))) }
{
    let mut values = Vec::with_capacity(alloc, notes.len())?;
    for note in notes {
        values.push(note_value(alloc, note)?)?;
    }
    Ok(Value::Array(values))
}

/// Returns the JSON of a fault.
fn fault_value(alloc: Global, fault: SdpFault) -> Result<Value, OutOfMemory>
    ensures { IfOk result (λ value. view value ≡ fault_data fault) }
{
    let mut object = Object::new(alloc);
    object.put_text("cause", fault.what.name())?;
    object.put_count("line", u64::from(fault.line))?;
    Ok(object.into_value())
}

/// Adds the fault, if the description is refused.
fn put_fault(object: &mut Object, alloc: Global, fault: Option<SdpFault>) -> Result<(), OutOfMemory>
    ensures { IfOk result (λ _. Puts (fault_members fault) object.old object.new) }
{
    match fault {
        Some(fault) => object.put("fault", fault_value(alloc, fault)?),
        None => Ok(()),
    }
}

/// Returns the whole result as a JSON value.
fn value_of(alloc: Global, described: &Described) -> Result<Value, OutOfMemory>
    ensures { IfOk result (λ value. view value ≡ described_data (described_of described.now)) }
{
    let mut object = Object::new(alloc);
    object.put("media", media_values(alloc, described.media.as_slice())?)?;
    object.put("notes", note_values(alloc, described.notes.as_slice())?)?;
    put_fault(&mut object, alloc, described.fault)?;
    Ok(object.into_value())
}

/// Returns how a session description is read, as one JSON value and a newline. The keys of each object stand in byte
/// order.
///
/// These keys may be missing:
///
/// - `fault`, unless the description is refused;
/// - `cmax` and `troff` of a video, if the description doesn't have them;
/// - `interlaced`, which else is true, and `field`, if the video is progressive.
///
/// Returns `Err` if memory runs out.
pub fn json_of(alloc: Global, described: &Described) -> Result<String, OutOfMemory>
    ensures { IfOk result (λ s. string_bytes s ≡ described_json (described_of described.now)) }
{
    let value = value_of(alloc, described)?;
    let mut text = value.to_string(alloc)?;
    text.push_str("\n")?;
    Ok(text)
}
