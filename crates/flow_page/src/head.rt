//! The head and the end of the page.

ghost use Rattle.std.specs.Prelude.{◌≡◌, ◌++◌, IfOk, string_bytes};
ghost use Rattle.flow_page.specs.Head.{front, legend, note_item, note_items, note_line, notes_list, notes_part};
ghost use Rattle.flow_page.specs.Head.{page_end, page_start, start_with, styles};

use crate::chart::add_told;
use std::alloc::AllocError as OutOfMemory;
use std::fmt;
use timing_base::{FileName, FileNote};
use timing_report::NoteText;

/// Returns the first bytes of the page, up to its title.
#[tactic(auto, unfolding(crate::specs::Head::front))]
fn front() -> &'static str
    ensures { result.now ≡ front }
{
    "<!DOCTYPE html><html lang=\"en\"><head><meta charset=\"utf-8\"><meta name=\"viewport\" content=\"width=device-width,initial-scale=1\"><title>"
}

/// Returns the end of the title, and the styles.
#[tactic(auto, unfolding(crate::specs::Head::styles))]
fn styles() -> &'static str
    ensures { result.now ≡ styles }
{
    ": sender timing</title><style>:root{color-scheme:light dark;--ink:#1b1f24;--soft:#59636e;--line:#d1d9e0;--bg:#fff;--card:#f6f8fa;--band:#3b78c4;--peak:#1d4f91;--lim:#b3261e;--wide:#8a5a00;--ok:#116329;--hit:#b3261e22;--edge:#1b1f2466}@media (prefers-color-scheme:dark){:root{--ink:#e6edf3;--soft:#9198a1;--line:#3d444d;--bg:#0d1117;--card:#151b23;--band:#4f8fdd;--peak:#a5cbff;--lim:#ff8b82;--wide:#e0b050;--ok:#57c46c;--hit:#ff8b8233;--edge:#e6edf38c}}@media print{:root{--ink:#000;--soft:#333;--line:#999;--bg:#fff;--card:#fff;--band:#3b78c4;--peak:#1d4f91;--lim:#b3261e;--wide:#8a5a00;--ok:#116329;--hit:#b3261e22}figure,tr{break-inside:avoid}.scroll{overflow:visible!important;background:none!important}svg{min-width:0!important}table{font-size:.6rem}th,td{padding:.1rem .25rem!important;white-space:normal!important}pre{white-space:pre-wrap!important}}*{box-sizing:border-box}body{margin:0 auto;max-width:1400px;padding:1.2rem;font:15px/1.45 system-ui,sans-serif;color:var(--ink);background:var(--bg)}h1{font-size:1.35rem;margin:.2rem 0;overflow-wrap:anywhere}h2{font-size:1.1rem;margin:2rem 0 .4rem}h3{font-size:1rem;margin:1.2rem 0 .2rem}p{margin:.3rem 0;color:var(--soft);overflow-wrap:anywhere}.scroll{--hide:var(--bg);overflow-x:auto;max-width:100%;background:linear-gradient(90deg,var(--hide) 40%,transparent) local,linear-gradient(270deg,var(--hide) 40%,transparent) right local,linear-gradient(90deg,var(--edge),transparent),linear-gradient(270deg,var(--edge),transparent) right;background-size:40px 100%,40px 100%,12px 100%,12px 100%;background-repeat:no-repeat}figure .scroll{--hide:var(--card)}table{border-collapse:collapse;font-variant-numeric:tabular-nums;margin:.6rem 0}th,td{padding:.3rem .4rem;border-bottom:1px solid var(--line);text-align:right;white-space:nowrap}thead th{white-space:normal;vertical-align:bottom}th{font-weight:600;color:var(--soft)}th:first-child,td[colspan]{text-align:left}.pass{color:var(--ok)}.fail{color:var(--lim)}.words{padding-left:1.1rem;margin:.4rem 0 1rem}.words li{margin:.25rem 0}pre{font:13px/1.5 ui-monospace,monospace;margin:.4rem 0}.grid{display:grid;grid-template-columns:repeat(auto-fit,minmax(min(100%,520px),1fr));gap:.8rem}.grid>*{min-width:0}.grid>.wide{grid-column:1/-1}figure{margin:0;padding:.6rem .7rem;background:var(--card);border:1px solid var(--line);border-radius:8px}figcaption{font-weight:600;margin-bottom:.2rem}figcaption span{font-weight:400;color:var(--soft)}svg{width:100%;min-width:460px;height:auto;display:block}svg.wide{min-width:900px}svg.key{display:inline-block;width:28px;min-width:0;height:12px}svg text{font:12px system-ui,sans-serif;fill:var(--soft)}.ax{stroke:var(--line);stroke-width:1;fill:none}.fr{stroke:var(--line);stroke-width:.7;stroke-dasharray:2 3}.band{fill:var(--band);fill-opacity:.45;stroke:var(--peak);stroke-width:1;stroke-linejoin:round}.hit{fill:var(--hit);stroke:var(--lim);stroke-width:.7}path.lim{stroke:var(--lim);stroke-width:1.4;stroke-dasharray:7 4;fill:none}path.w{stroke:var(--wide);stroke-dasharray:2 3}text.lim{fill:var(--lim);paint-order:stroke;stroke:var(--card);stroke-width:4px;stroke-linejoin:round}text.w{fill:var(--wide)}.bar{fill:var(--band);stroke:var(--band);stroke-width:1}.bar.over{fill:var(--lim);stroke:var(--lim)}</style></head><body><h1>Sender timing: <bdi>"
}

/// Returns the legend of the pictures.
#[tactic(auto, unfolding(crate::specs::Head::legend))]
fn legend() -> &'static str
    ensures { result.now ≡ legend }
{
    "<p class=\"legend\">In the curves each mark spans the least and the greatest number of its packets, frames or fields <svg class=\"key\" viewBox=\"0 0 28 12\" aria-hidden=\"true\"><path class=\"band\" d=\"M2 3H26V9H2Z\"/></svg>, so no peak is hidden. Limits are lines with their names at the right: those of N and NL are dashed <svg class=\"key\" viewBox=\"0 0 28 12\" aria-hidden=\"true\"><path class=\"lim\" d=\"M0 6H28\"/></svg>, those of W dotted <svg class=\"key\" viewBox=\"0 0 28 12\" aria-hidden=\"true\"><path class=\"lim w\" d=\"M0 6H28\"/></svg>; faint uprights are the ends of frames or fields. In the bars what is beyond a limit stands behind the limit's line, or before 0, and is named so. Packets, frames and fields count from 0, records from 1.</p>\n"
}

/// The words on how many captures there are beside the one that is named; empty if there are no more.
#[derive(Clone, Copy)]
struct More {
    more: usize,
}

impl fmt::Display for More {
    ghost use Rattle.std.specs.Prelude.{Some};
    ghost use Rattle.flow_page.specs.Head.{more_text};

    ghost output = { λ more. Some (more_text more.more) };

    fn fmt<W: fmt::Write>(&self, f: &mut fmt::Formatter<W>) -> fmt::Result {
        match self.more {
            0 => Ok(()),
            more => write!(f, " and {more} more"),
        }
    }
}

/// Adds markup as it is.
pub(crate) fn add_markup(text: &mut String, markup: &str) -> Result<(), OutOfMemory>
    ensures { IfOk result (λ _. string_bytes text.new ≡ string_bytes text.old ++ markup.now) }
{
    text.push_str(markup)
}

/// Adds the start of the page of captures with these names: the head with all styles, and the heading.
pub(crate) fn add_page_start(text: &mut String, names: &[FileName]) -> Result<(), OutOfMemory>
    ensures { IfOk result (λ _. string_bytes text.new ≡ string_bytes text.old ++ page_start names.now) }
{
    match names {
        [] => add_start(text, "", 0),
        [name, ..] => add_start(text, name.as_str(), names.len() - 1),
    }
}

/// Adds the start of the page of a capture with this name, and of this many more.
fn add_start(text: &mut String, name: &str, more: usize) -> Result<(), OutOfMemory>
    ensures { IfOk result (λ _. string_bytes text.new ≡ string_bytes text.old ++ start_with name.now more) }
{
    let more = More { more };
    add_told(text, front(), name)?;
    write!(text, "{more}")?;
    add_told(text, styles(), name)?;
    write!(text, "</bdi>{more}</h1>\n")
}

/// Adds how the captures with these names end. If the lists differ in length, the shorter one counts.
pub(crate) fn add_notes(
    text: &mut String,
    names: &[FileName],
    notes: &[FileNote],
) -> Result<(), OutOfMemory>
    ensures { IfOk result (λ _. string_bytes text.new
        ≡ string_bytes text.old ++ notes_part names.now notes.now) }
{
    match (names, notes) {
        ([_], [note]) => add_note_line(text, *note),
        _ => add_notes_list(text, names, notes),
    }
}

/// Adds the line on how one capture ends.
fn add_note_line(text: &mut String, note: FileNote) -> Result<(), OutOfMemory>
    ensures { IfOk result (λ _. string_bytes text.new ≡ string_bytes text.old ++ note_line note) }
{
    let note = NoteText { note };
    write!(
        text,
        "<p>By SMPTE ST 2110-21. How the capture ends: {note}.</p>\n"
    )
}

/// Adds the list of several captures, and how each of them ends.
fn add_notes_list(
    text: &mut String,
    names: &[FileName],
    notes: &[FileNote],
) -> Result<(), OutOfMemory>
    ensures { IfOk result (λ _. string_bytes text.new
        ≡ string_bytes text.old ++ notes_list names.now notes.now) }
{
    add_markup(
        text,
        "<p>By SMPTE ST 2110-21. How the captures end:</p>\n<ol>",
    )?;
    add_note_items(text, names, notes)?;
    add_markup(text, "</ol>\n")
}

/// Adds several captures in their order, and how each of them ends.
fn add_note_items(
    text: &mut String,
    names: &[FileName],
    notes: &[FileNote],
) -> Result<(), OutOfMemory>
    ensures { IfOk result (λ _. string_bytes text.new
        ≡ string_bytes text.old ++ note_items names.now notes.now) }
{
    for (file, name) in names.iter().enumerate() {
        let Some(note) = notes.get(file) else {
            return Ok(());
        };
        add_note_item(text, name.as_str(), *note)?;
    }
    Ok(())
}

/// Adds one of several captures, and how it ends.
fn add_note_item(text: &mut String, name: &str, note: FileNote) -> Result<(), OutOfMemory>
    ensures { IfOk result (λ _. string_bytes text.new ≡ string_bytes text.old ++ note_item name.now note) }
{
    let note = NoteText { note };
    add_told(text, "<li><bdi>", name)?;
    write!(text, "</bdi>: {note}</li>")
}

/// Adds the legend of the pictures.
pub(crate) fn add_legend(text: &mut String) -> Result<(), OutOfMemory>
    ensures { IfOk result (λ _. string_bytes text.new ≡ string_bytes text.old ++ legend) }
{
    text.push_str(legend())
}

/// Adds the end of the page.
pub(crate) fn add_page_end(text: &mut String) -> Result<(), OutOfMemory>
    ensures { IfOk result (λ _. string_bytes text.new ≡ string_bytes text.old ++ page_end) }
{
    text.push_str("</body></html>\n")
}
