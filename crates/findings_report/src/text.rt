//! Writes the findings as lines of text.

ghost use Rattle.std.specs.Prelude.{◌≡◌, ◌++◌, ◌+◌, ◌<◌, ◌^◌, All, IfOk, length, string_bytes};
ghost use Rattle.std.specs.List.{flat_map};
ghost use Rattle.findings_report.specs.Text.{class_part, broken_line, broken_lines, explained_lines, explained_text, finding_lines, findings_lines, flow_lines, flows_lines, headline, later_lines, media_line, sentence_line};
ghost use Rattle.findings_report.specs.Flows.{AreOfSession};

use crate::advice::add_advice;
use crate::sentences::add_sentence;
use crate::setting::{Setting, setting_of};
use flow_findings::{Explained, ExplainedRun, Finding};
use std::alloc::{AllocError as OutOfMemory, Global};
use std::fmt;
use timing_base::{FileName, FileNote, FlowKey, Media, Session};
use timing_report::{NoteText, class_name, declared_name, media_of};

/// Adds the line of a finding.
fn add_sentence_line(
    text: &mut String,
    setting: Setting,
    finding: &Finding,
) -> Result<(), OutOfMemory>
    ensures { IfOk result (λ _. string_bytes text.new
        ≡ string_bytes text.old ++ sentence_line setting finding.now) }
{
    let name = finding.name();
    write!(text, "  {name}: ")?;
    add_sentence(text, setting, finding)?;
    text.push_str("\n")
}

/// Adds the lines of a finding. `is_first` is whether it is the headline.
fn add_finding(
    text: &mut String,
    alloc: Global,
    setting: Setting,
    is_first: bool,
    finding: &Finding,
) -> Result<(), OutOfMemory>
    ensures { IfOk result (λ _. string_bytes text.new
        ≡ string_bytes text.old ++ finding_lines setting is_first finding.now) }
{
    add_sentence_line(text, setting, finding)?;
    add_advice(text, alloc, setting, is_first, finding)
}

/// Adds the lines of the findings after the first one.
fn add_later(
    text: &mut String,
    alloc: Global,
    setting: Setting,
    findings: &[Finding],
) -> Result<(), OutOfMemory>
    ensures { IfOk result (λ _. string_bytes text.new
        ≡ string_bytes text.old ++ later_lines setting findings.now) }
{
    for finding in findings {
        add_finding(text, alloc, setting, false, finding)?;
    }
    Ok(())
}

/// Adds the lines of findings.
fn add_findings(
    text: &mut String,
    alloc: Global,
    setting: Setting,
    findings: &[Finding],
) -> Result<(), OutOfMemory>
    ensures { IfOk result (λ _. string_bytes text.new
        ≡ string_bytes text.old ++ findings_lines setting findings.now) }
{
    match findings {
        [] => Ok(()),
        [first, later @ ..] => {
            add_finding(text, alloc, setting, true, first)?;
            add_later(text, alloc, setting, later)
        }
    }
}

/// The class of the run that is shown; empty if there is none.
#[derive(Clone, Copy)]
struct ClassPart {
    shown: Option<ExplainedRun>,
}

impl fmt::Display for ClassPart {
    ghost use Rattle.std.specs.Prelude.{Some};
    ghost use Rattle.findings_report.specs.Text.{class_part};

    ghost output = { λ part. Some (class_part part.shown) };

    fn fmt<W: fmt::Write>(&self, f: &mut fmt::Formatter<W>) -> fmt::Result {
        match self.shown {
            None => Ok(()),
            Some(run) => {
                let class = class_name(run.class);
                write!(f, " class {class}")
            }
        }
    }
}

/// Returns the name of the first finding.
fn headline(findings: &[Finding]) -> &'static str
    ensures { result.now ≡ headline findings.now }
{
    match findings {
        [] => "none",
        [first, ..] => first.name(),
    }
}

/// Adds the line of a flow of this media.
fn add_media_line(text: &mut String, media: &Media, flow: &Explained) -> Result<(), OutOfMemory>
    ensures { IfOk result (λ _. string_bytes text.new
        ≡ string_bytes text.old ++ media_line media.now flow.now) }
{
    let (number, target) = (u64::from(flow.media) + 1, media.target());
    let declared = declared_name(media.declared);
    let class = ClassPart { shown: flow.shown };
    let headline = headline(flow.findings.as_slice());
    writeln!(
        text,
        "{number} {target} declared {declared}{class}: {headline}"
    )
}

/// Adds the lines of a flow of this media.
fn add_flow(
    text: &mut String,
    alloc: Global,
    media: &Media,
    flow: &Explained,
) -> Result<(), OutOfMemory>
    ensures { IfOk result (λ _. string_bytes text.new
        ≡ string_bytes text.old ++ flow_lines media.now flow.now) }
{
    let setting = setting_of(media, flow.shown);
    add_media_line(text, media, flow)?;
    add_findings(text, alloc, setting, flow.findings.as_slice())
}

/// Adds the lines of a flow of the session.
fn add_explained(
    text: &mut String,
    alloc: Global,
    session: &Session,
    flow: &Explained,
) -> Result<(), OutOfMemory>
    requires { flow.now.media < length session.now }
    ensures { IfOk result (λ _. string_bytes text.new
        ≡ string_bytes text.old ++ explained_lines session.now flow.now) }
{
    let key = FlowKey {
        file: 0,
        media: flow.media,
    };
    add_flow(text, alloc, media_of(session, key), flow)
}

/// Adds the line of a capture that doesn't end after a whole packet record; `file` counts from 0.
fn add_broken(text: &mut String, file: u64, note: FileNote, name: &str) -> Result<(), OutOfMemory>
    requires { file + 1 < 2 ^ 64 }
    ensures { IfOk result (λ _. string_bytes text.new
        ≡ string_bytes text.old ++ broken_line file note name.now) }
{
    match note {
        FileNote::End => Ok(()),
        FileNote::Cut { .. } | FileNote::Refused(_) => {
            let note = NoteText { note };
            writeln!(text, "file {} {note} {name}", file + 1)
        }
    }
}

/// Adds the lines of captures that don't end after a whole packet record.
fn add_all_broken(
    text: &mut String,
    captures: &[FileName],
    notes: &[FileNote],
) -> Result<(), OutOfMemory>
    ensures { IfOk result (λ _. string_bytes text.new
        ≡ string_bytes text.old ++ broken_lines 0 captures.now notes.now) }
{
    for (file, name) in captures.iter().enumerate() {
        let Some(note) = notes.get(file) else {
            return Ok(());
        };
        add_broken(text, file as u64, *note, name.as_str())?;
    }
    Ok(())
}

/// Adds the lines of the flows of the session.
fn add_flows(
    text: &mut String,
    alloc: Global,
    session: &Session,
    flows: &[Explained],
) -> Result<(), OutOfMemory>
    requires { AreOfSession session.now flows.now }
    ensures { IfOk result (λ _. string_bytes text.new
        ≡ string_bytes text.old ++ flows_lines session.now flows.now) }
{
    for flow in flows {
        add_explained(text, alloc, session, flow)?;
    }
    Ok(())
}

/// Returns the findings on flows as lines of text: for each flow a line, and for each of its findings a line, and one
/// with what to do. `captures` are the names of the captures, and `notes` has how each ends; above those of the flows
/// stands a line for each capture that doesn't end after a whole packet record. Returns `Err` if memory runs out.
pub fn text_of(
    alloc: Global,
    captures: &[FileName],
    notes: &[FileNote],
    session: &Session,
    flows: &[Explained],
) -> Result<String, OutOfMemory>
    requires { AreOfSession session.now flows.now }
    ensures { IfOk result (λ s. string_bytes s
        ≡ explained_text captures.now notes.now session.now flows.now) }
{
    let mut text = String::new(alloc);
    add_all_broken(&mut text, captures, notes)?;
    add_flows(&mut text, alloc, session, flows)?;
    Ok(text)
}
