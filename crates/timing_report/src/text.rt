//! Writes the report as text.

ghost use Rattle.std.specs.Prelude.{◌≡◌, ◌++◌, ◌+◌, ◌<◌, ◌^◌, IfOk, string_bytes};
ghost use Rattle.std.specs.List.{flat_map};
ghost use Rattle.timing_report.specs.Outcomes.{AreOfSession};
ghost use Rattle.timing_report.specs.Text.{ended, text_of_lines, file_text, files_lines, flow_head, flow_lines, row_lines, report_text};
ghost use Rattle.timing_report.specs.Verdict.{verdict_text, lines_below};

use crate::outcomes::{media_of, status_of};
use crate::verdict::{add_lines_below, add_verdict};
use crate::words::NoteText;
use std::alloc::{AllocError as OutOfMemory, Global};
use timing_base::{CheckJob, FileName, FileNote, FlowKey, Media, Row, Session, Target, Verdict};

/// Adds the line of a capture; `file` counts from 0.
fn add_file(text: &mut String, file: u64, note: &FileNote, name: &str) -> Result<(), OutOfMemory>
    requires { file + 1 < 2 ^ 64 }
    ensures { IfOk result (λ _. string_bytes text.new
        ≡ string_bytes text.old ++ ended (file_text file note.now name.now)) }
{
    let note = NoteText { note: *note };
    writeln!(text, "file {} {note} {name}", file + 1)
}

/// Returns the report of a job as text. `notes` has how each capture ends, and `rows` the results of the flows, in
/// their order. Returns `Err` if memory runs out.
pub fn text_of(
    alloc: Global,
    job: &CheckJob,
    session: &Session,
    notes: &[FileNote],
    rows: &[Row],
) -> Result<String, OutOfMemory>
    requires { AreOfSession session.now rows.now }
    ensures { IfOk result (λ s. string_bytes s
        ≡ report_text job.now session.now notes.now rows.now) }
{
    let mut text = String::new(alloc);
    writeln!(text, "ST 2110-21 timing report")?;
    add_files(&mut text, job.captures.as_slice(), notes)?;
    add_rows(&mut text, session, rows)?;
    writeln!(text, "status {}", status_of(session, notes, rows).code())?;
    Ok(text)
}

/// Adds a line with its newline for each capture, by their names and how each ends. If the lists differ in length, the
/// shorter one counts. Returns `Err` if memory runs out; `text` may then have a part of the lines.
pub fn add_files(
    text: &mut String,
    captures: &[FileName],
    notes: &[FileNote],
) -> Result<(), OutOfMemory>
    ensures { IfOk result (λ _. string_bytes text.new
        ≡ string_bytes text.old ++ text_of_lines (files_lines 0 captures.now notes.now)) }
{
    for (file, name) in captures.iter().enumerate() {
        let Some(note) = notes.get(file) else {
            return Ok(());
        };
        add_file(text, file as u64, note, name.as_str())?;
    }
    Ok(())
}

/// Adds the lines of the flows.
fn add_rows(text: &mut String, session: &Session, rows: &[Row]) -> Result<(), OutOfMemory>
    requires { AreOfSession session.now rows.now }
    ensures { IfOk result (λ _. string_bytes text.new
        ≡ string_bytes text.old ++ text_of_lines (flat_map (row_lines session.now) rows.now)) }
{
    for row in rows {
        add_row(text, media_of(session, row.key), row)?;
    }
    Ok(())
}

/// Adds the lines of a flow of this media.
fn add_row(text: &mut String, media: &Media, row: &Row) -> Result<(), OutOfMemory>
    ensures { IfOk result (λ _. string_bytes text.new
        ≡ string_bytes text.old ++ text_of_lines (flow_lines media.now row.now)) }
{
    add_flow_head(text, row.key, media.target())?;
    add_flow_verdict(text, media, &row.verdict)
}

/// Adds the line of a flow up to its verdict.
fn add_flow_head(text: &mut String, key: FlowKey, target: Target) -> Result<(), OutOfMemory>
    ensures { IfOk result (λ _. string_bytes text.new
        ≡ string_bytes text.old ++ flow_head key target) }
{
    let file = u64::from(key.file) + 1;
    let media = u64::from(key.media) + 1;
    write!(text, "flow {file}.{media} {target} ")
}

/// Adds the verdict of a flow, and the lines below it.
fn add_flow_verdict(text: &mut String, media: &Media, verdict: &Verdict) -> Result<(), OutOfMemory>
    ensures { IfOk result (λ _. string_bytes text.new ≡ string_bytes text.old
        ++ (ended (verdict_text media.now verdict.now)
        ++ text_of_lines (lines_below media.now verdict.now))) }
{
    add_verdict(text, media, verdict)?;
    text.push_str("\n")?;
    add_lines_below(text, media, verdict)
}
