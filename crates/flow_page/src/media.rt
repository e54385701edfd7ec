//! The table of media.

ghost use Rattle.std.specs.Prelude.{◌≡◌, ◌<◌, ◌++◌, IfOk, codes, length, string_bytes};
ghost use Rattle.std.specs.List.{flat_map};
ghost use Rattle.flow_page.specs.Shown.{types_shown};
ghost use Rattle.flow_page.specs.chart.Figures.{told};
ghost use Rattle.flow_page.specs.Media.{AreOfMedia, flow_media, media_open, media_row, media_table, row_open};
ghost use Rattle.flow_page.specs.Media.{run_cells, shown_cells, table_close, type_cells, verdict_open, verdict_told};

use crate::chart::add_told;
use crate::shown::{FlowPage, ShownRun, TypeShown, types_shown};
use crate::words::{Counted, Sign};
use std::alloc::{AllocError as OutOfMemory, Global};
use std::fmt;
use timing_base::{FlowKey, Judged, Media, Session, Target, Verdict};
use timing_report::{class_name, declared_name, first_passing, group_name, media_of, verdict_of};

/// Returns the start of the table, in a box of its own.
#[tactic(auto, unfolding(crate::specs::Media::media_open))]
fn media_open() -> &'static str
    ensures { result.now ≡ media_open }
{
    "<div class=\"scroll\"><table><thead><tr><th>Flow</th><th>Verdict</th><th>Packets</th><th>Judged</th><th>Class</th><th>Declared</th><th>N</th><th>bucket</th><th>buffer</th><th>NL</th><th>bucket</th><th>buffer</th><th>W</th><th>bucket</th><th>buffer</th></tr></thead><tbody>\n"
}

/// Adds the end of a table.
pub(crate) fn add_table_close(text: &mut String) -> Result<(), OutOfMemory>
    ensures { IfOk result (λ _. string_bytes text.new ≡ string_bytes text.old ++ table_close) }
{
    text.push_str("</tbody></table></div>\n")
}

/// The cells of a type: pass or fail, and its peaks with their limits.
#[derive(Clone, Copy)]
struct TypeCells {
    shown: TypeShown,
}

impl fmt::Display for TypeCells {
    ghost use Rattle.std.specs.Prelude.{Some};
    ghost use Rattle.flow_page.specs.Shown.{types_shown};
    ghost use Rattle.flow_page.specs.chart.Figures.{told};
    ghost use Rattle.flow_page.specs.Media.{type_cells};

    ghost output = { λ cells. Some (type_cells cells.shown) };

    fn fmt<W: fmt::Write>(&self, f: &mut fmt::Formatter<W>) -> fmt::Result {
        let t = self.shown;
        let sign = Sign { verdict: t.verdict };
        write!(
            f,
            "<td>{sign}</td><td>{} of {}</td><td>{} of {}</td>",
            t.bucket_peak, t.c_max, t.buffer_peak, t.vrx_full
        )
    }
}

/// Adds the cells of types.
fn add_type_cells(text: &mut String, types: &[TypeShown]) -> Result<(), OutOfMemory>
    ensures { IfOk result (λ _. string_bytes text.new ≡ string_bytes text.old ++ flat_map type_cells types.now) }
{
    for shown in types {
        let cells = TypeCells { shown: *shown };
        write!(text, "{cells}")?;
    }
    Ok(())
}

/// Adds the packets per frame or field, the count of frames or fields, the class, and the declared type.
fn add_run_cells(text: &mut String, media: &Media, judged: &Judged) -> Result<(), OutOfMemory>
    ensures { IfOk result (λ _. string_bytes text.new ≡ string_bytes text.old ++ run_cells media.now judged.now) }
{
    let group = group_name(media.interlaced);
    let frames = Counted {
        count: i128::from(judged.frames),
        noun: group,
    };
    let class = class_name(first_passing(judged));
    let declared = declared_name(media.declared);
    write!(
        text,
        "</td><td>{} per {group}</td><td>{frames}</td><td>{class}</td><td>{declared}</td>",
        judged.n
    )
}

/// Adds the cells of the types of a run, and the end of the row.
fn add_types_of(text: &mut String, alloc: Global, shown: &ShownRun) -> Result<(), OutOfMemory>
    ensures { IfOk result (λ _. string_bytes text.new ≡ string_bytes text.old
        ++ (flat_map type_cells (types_shown shown.now.run.judged shown.now.run.numbers) ++ codes "</tr>\n")) }
{
    let types = types_shown(alloc, &shown.run.judged, &shown.run.numbers)?;
    add_type_cells(text, types.as_slice())?;
    text.push_str("</tr>\n")
}

/// Adds the cells of the run that is shown, if there is one.
fn add_shown_cells(
    text: &mut String,
    alloc: Global,
    media: &Media,
    shown: &Option<ShownRun>,
) -> Result<(), OutOfMemory>
    ensures { IfOk result (λ _. string_bytes text.new ≡ string_bytes text.old ++ shown_cells media.now shown.now) }
{
    match shown {
        None => text.push_str("</td></tr>\n"),
        Some(shown) => {
            add_run_cells(text, media, &shown.run.judged)?;
            add_types_of(text, alloc, shown)
        }
    }
}

/// Adds the start of a row with the number and the target of its flow.
fn add_row_open(text: &mut String, number: u64, target: Target) -> Result<(), OutOfMemory>
    ensures { IfOk result (λ _. string_bytes text.new ≡ string_bytes text.old ++ row_open number target) }
{
    write!(text, "<tr><th>{number} {target}</th>")
}

/// Returns a verdict in few words.
fn verdict_told(alloc: Global, media: &Media, verdict: &Verdict) -> Result<String, OutOfMemory>
    ensures { IfOk result (λ s. string_bytes s ≡ verdict_told media.now verdict.now) }
{
    match verdict {
        Verdict::Judged(_) => String::from_str(alloc, "judged"),
        Verdict::Unjudged(_) => verdict_of(alloc, media, verdict),
        Verdict::Runs(_) => verdict_of(alloc, media, verdict),
    }
}

/// Returns the start of the verdict's cell. If no run is judged, the cell takes the whole row.
fn verdict_open(shown: &Option<ShownRun>) -> &'static str
    ensures { result.now ≡ verdict_open shown.now }
{
    match shown {
        None => "<td colspan=\"14\">",
        Some(_) => "<td>",
    }
}

/// Adds the cell of a flow's verdict, which begins with `start`.
fn add_verdict_cell(
    text: &mut String,
    alloc: Global,
    start: &str,
    media: &Media,
    verdict: &Verdict,
) -> Result<(), OutOfMemory>
    ensures { IfOk result (λ _. string_bytes text.new
        ≡ string_bytes text.old ++ told start.now (verdict_told media.now verdict.now)) }
{
    let verdict = verdict_told(alloc, media, verdict)?;
    add_told(text, start, verdict.as_str())
}

/// Adds the row of a flow of this media.
fn add_media_row(
    text: &mut String,
    alloc: Global,
    media: &Media,
    page: &FlowPage,
) -> Result<(), OutOfMemory>
    ensures { IfOk result (λ _. string_bytes text.new ≡ string_bytes text.old ++ media_row media.now page.now) }
{
    add_row_open(text, u64::from(page.flow.media) + 1, media.target())?;
    add_verdict_cell(
        text,
        alloc,
        verdict_open(&page.shown),
        media,
        &page.flow.verdict,
    )?;
    add_shown_cells(text, alloc, media, &page.shown)
}

/// Returns the media of a flow of the capture.
pub(crate) fn flow_media<'a>(session: &'a Session, page: &FlowPage) -> &'a Media
    requires { page.now.flow.media < length session.now }
    ensures { result.now ≡ flow_media session.now page.now }
{
    let key = FlowKey {
        file: 0,
        media: page.flow.media,
    };
    media_of(session, key)
}

/// Adds the table of media.
pub(crate) fn add_media_table(
    text: &mut String,
    alloc: Global,
    session: &Session,
    flows: &[FlowPage],
) -> Result<(), OutOfMemory>
    requires { AreOfMedia session.now flows.now }
    ensures { IfOk result (λ _. string_bytes text.new ≡ string_bytes text.old ++ media_table session.now flows.now) }
{
    text.push_str(media_open())?;
    for page in flows {
        add_media_row(text, alloc, flow_media(session, page), page)?;
    }
    add_table_close(text)
}
