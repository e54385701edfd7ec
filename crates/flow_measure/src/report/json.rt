//! The measurements of the flows of a capture as JSON.

ghost use Rattle.std.specs.Prelude.{◌≡◌, ◌++◌, IfOk, codes, false, map, string_bytes};
ghost use Rattle.timing_report.specs.Words.{note_text};
ghost use Rattle.flow_measure.specs.report.Json.{AreOfMedia, alone_json, file_text, files_text, flow_text, items_text, joined_json, list_text, measure_json, quoted_text};
ghost use Rattle.flow_measure.specs.report.Told.{flow_told};

use crate::MeasuredFlow;
use crate::report::flow::add_flow;
use crate::report::pieces::quoted;
use std::alloc::{AllocError as OutOfMemory, Global};
use timing_base::{FileName, FileNote, FlowKey, Session};
use timing_report::json_report::comma_if;
use timing_report::{NoteText, media_of};

/// Returns the measurements of the flows of captures as one JSON value and a line end. `names` has the names of the
/// captures, `notes` how each of them ends, and each flow belongs to a media of the session. Returns `Err` if memory
/// runs out.
///
/// Of one capture the value has `end` and `name`. Several captures were taken as one: the value has `files` in their
/// place, a list of objects with `end` and `name`.
///
/// The members of each object stand in the byte order of their keys. Some members may be missing. A flow has no `ssrc`
/// if no packet is read, and no `runs` if no run is judged. A run has no `step` if it has one frame or field, and no
/// `gap` if it has one packet. A type has no `proof` if it passes, and no `first_bucket`, `first_over` or `first_empty`
/// if no packet breaks that limit.
pub fn json_of(
    alloc: Global,
    names: &[FileName],
    notes: &[FileNote],
    session: &Session,
    flows: &[MeasuredFlow],
) -> Result<String, OutOfMemory>
    requires { AreOfMedia session.now flows.now }
    ensures { IfOk result (λ s. string_bytes s
        ≡ measure_json names.now notes.now session.now (map flow_told flows.now)) }
{
    match (names, notes) {
        ([name], [note]) => alone_json(alloc, name.as_str(), *note, session, flows),
        _ => joined_json(alloc, names, notes, session, flows),
    }
}

/// Returns the measurements of the flows of one capture.
fn alone_json(
    alloc: Global,
    name: &str,
    note: FileNote,
    session: &Session,
    flows: &[MeasuredFlow],
) -> Result<String, OutOfMemory>
    requires { AreOfMedia session.now flows.now }
    ensures { IfOk result (λ s. string_bytes s
        ≡ alone_json name.now note session.now (map flow_told flows.now)) }
{
    let mut text = String::new(alloc);
    add_end(&mut text, alloc, note)?;
    add_flows(&mut text, alloc, session, flows)?;
    let name = quoted(alloc, name)?;
    write!(text, "],\"name\":{name}}}\n")?;
    Ok(text)
}

/// Adds the text before the flows of one capture: how it ends.
fn add_end(text: &mut String, alloc: Global, note: FileNote) -> Result<(), OutOfMemory>
    ensures { IfOk result (λ _. string_bytes text.new ≡ string_bytes text.old
        ++ (codes "{\"end\":" ++ (quoted_text (note_text note) ++ codes ",\"flows\":["))) }
{
    let note = quoted_note(alloc, note)?;
    write!(text, "{{\"end\":{note},\"flows\":[")
}

/// Returns as a JSON string how a capture ends.
fn quoted_note(alloc: Global, note: FileNote) -> Result<String, OutOfMemory>
    ensures { IfOk result (λ s. string_bytes s ≡ quoted_text (note_text note)) }
{
    let note = NoteText { note };
    let note = format!(in alloc; "{note}")?;
    quoted(alloc, note.as_str())
}

/// Returns the measurements of the flows of several captures that were taken as one.
fn joined_json(
    alloc: Global,
    names: &[FileName],
    notes: &[FileNote],
    session: &Session,
    flows: &[MeasuredFlow],
) -> Result<String, OutOfMemory>
    requires { AreOfMedia session.now flows.now }
    ensures { IfOk result (λ s. string_bytes s
        ≡ joined_json names.now notes.now session.now (map flow_told flows.now)) }
{
    let files = files_of(alloc, names, notes)?;
    let flows = flows_of(alloc, session, flows)?;
    format!(in alloc; "{{\"files\":[{files}],\"flows\":{flows}}}\n")
}

/// Returns the captures, separated by commas. If the lists differ in length, the shorter one counts.
fn files_of(alloc: Global, names: &[FileName], notes: &[FileNote]) -> Result<String, OutOfMemory>
    ensures { IfOk result (λ s. string_bytes s ≡ files_text false names.now notes.now) }
{
    let mut text = String::new(alloc);
    for (file, name) in names.iter().enumerate() {
        let Some(note) = notes.get(file) else {
            return Ok(text);
        };
        text.push_str(comma_if(file > 0))?;
        add_file(&mut text, alloc, name.as_str(), *note)?;
    }
    Ok(text)
}

/// Adds one of several captures.
fn add_file(text: &mut String, alloc: Global, name: &str, note: FileNote) -> Result<(), OutOfMemory>
    ensures { IfOk result (λ _. string_bytes text.new ≡ string_bytes text.old ++ file_text name.now note) }
{
    let note = quoted_note(alloc, note)?;
    let name = quoted(alloc, name)?;
    write!(text, "{{\"end\":{note},\"name\":{name}}}")
}

/// Returns the flows as a list.
fn flows_of(alloc: Global, session: &Session, flows: &[MeasuredFlow]) -> Result<String, OutOfMemory>
    requires { AreOfMedia session.now flows.now }
    ensures { IfOk result (λ s. string_bytes s ≡ list_text (flow_text session.now) (map flow_told flows.now)) }
{
    let mut text = String::from_str(alloc, "[")?;
    add_flows(&mut text, alloc, session, flows)?;
    text.push_str("]")?;
    Ok(text)
}

/// Adds the flows, separated by commas.
fn add_flows(
    text: &mut String,
    alloc: Global,
    session: &Session,
    flows: &[MeasuredFlow],
) -> Result<(), OutOfMemory>
    requires { AreOfMedia session.now flows.now }
    ensures { IfOk result (λ _. string_bytes text.new
        ≡ string_bytes text.old ++ items_text (flow_text session.now) false (map flow_told flows.now)) }
{
    for (index, flow) in flows.iter().enumerate() {
        let key = FlowKey {
            file: 0,
            media: flow.media,
        };
        text.push_str(comma_if(index > 0))?;
        add_flow(text, alloc, media_of(session, key), flow)?;
    }
    Ok(())
}
