//! The whole page.

ghost use Rattle.std.specs.Prelude.{◌≡◌, ◌+◌, ◌++◌, IfOk, Some, string_bytes};
ghost use Rattle.std.specs.List.{flat_map};
ghost use Rattle.timing_base.specs.Targets.{target_of};
ghost use Rattle.timing_report.specs.Words.{group_name};
ghost use Rattle.flow_page.specs.Media.{AreOfMedia};
ghost use Rattle.flow_page.specs.Page.{contents_part, contents_told, flow_heading, flow_part, flow_parts, page_of};
ghost use Rattle.flow_page.specs.Page.{part_if, run_grid, run_heading, run_tables, words_list};
ghost use Rattle.flow_page.specs.Timings.{steps_line};
ghost use Rattle.flow_page.specs.Times.{file_time};

use crate::around::add_around_figures;
use crate::chart::add_told;
use crate::head::{add_legend, add_markup, add_notes, add_page_end, add_page_start};
use crate::levels::{View, add_level_figures};
use crate::media::{add_media_table, flow_media};
use crate::numbers::{add_numbers_table, add_runs_table, add_types_table};
use crate::often::{add_gap_figure, add_often_of};
use crate::shown::{FlowPage, ShownRun, TypeShown, types_shown};
use crate::times::{Epoch, file_time};
use crate::timings::{add_steps_line, add_timing_figures, period_of};
use crate::words::add_words;
use flow_measure::{MeasuredFlow, MeasuredRun};
use std::alloc::{AllocError as OutOfMemory, Global};
use timing_base::{FileName, FileNote, Media, Session, Shift, Target};
use timing_report::group_name;

/// Adds the heading of a flow.
fn add_flow_heading(text: &mut String, number: u64, target: Target) -> Result<(), OutOfMemory>
    ensures { IfOk result (λ _. string_bytes text.new ≡ string_bytes text.old ++ flow_heading number target) }
{
    writeln!(text, "<h2>Flow {number}, {target}</h2>")
}

/// Adds the line that names a run, with the capture timestamps of its first and last judged packet as the file has
/// them, in nanoseconds.
fn add_run_heading(
    text: &mut String,
    run: u64,
    from: u64,
    first: u128,
    last: u128,
) -> Result<(), OutOfMemory>
    ensures { IfOk result (λ _. string_bytes text.new ≡ string_bytes text.old ++ run_heading run from first last) }
{
    let (first, last) = (Epoch { ns: first }, Epoch { ns: last });
    writeln!(
        text,
        "<p>Run {run}, from record {from}; capture timestamps of judged packets {first} to {last} s.</p>"
    )
}

/// Adds the list of the results of all types, in words. `group` is "frame" or "field", `shift` that of the capture
/// timestamps.
fn add_words_list(
    text: &mut String,
    types: &[TypeShown],
    group: &'static str,
    shift: Shift,
) -> Result<(), OutOfMemory>
    ensures { IfOk result (λ _. string_bytes text.new ≡ string_bytes text.old ++ words_list types.now group.now shift) }
{
    add_markup(text, "<ul class=\"words\">\n")?;
    add_words(text, types, group, shift)?;
    add_markup(text, "</ul>\n")
}

/// Adds the pictures of a run, in a grid.
fn add_run_grid(
    text: &mut String,
    alloc: Global,
    media: &Media,
    shown: &ShownRun,
    types: &[TypeShown],
) -> Result<(), OutOfMemory>
    ensures { IfOk result (λ _. string_bytes text.new
        ≡ string_bytes text.old ++ run_grid media.now shown.now types.now) }
{
    let period = period_of(media, &shown.run.judged);
    add_markup(text, "<div class=\"grid\">\n")?;
    add_level_figures(text, alloc, media, shown, types, View::WholeRun)?;
    add_level_figures(text, alloc, media, shown, types, View::Eye)?;
    add_timing_figures(text, alloc, media, period, shown)?;
    add_often_of(text, alloc, &shown.run.numbers)?;
    add_gap_figure(text, alloc, &shown.run.numbers.gap)?;
    add_around_figures(text, alloc, types, shown.regions.as_slice())?;
    add_markup(text, "</div>\n")
}

/// Adds the tables of a run: its measurements, its types, and all judged runs of its flow.
fn add_run_tables(
    text: &mut String,
    media: &Media,
    shown: &ShownRun,
    types: &[TypeShown],
    runs: &[MeasuredRun],
) -> Result<(), OutOfMemory>
    ensures { IfOk result (λ _. string_bytes text.new
        ≡ string_bytes text.old ++ run_tables media.now shown.now types.now runs.now) }
{
    add_numbers_table(text, media, &shown.run.numbers)?;
    add_types_table(text, media, types)?;
    add_runs_table(text, media, runs)
}

/// Adds the heading of a flow of this media.
fn add_flow_title(text: &mut String, media: &Media, flow: &MeasuredFlow) -> Result<(), OutOfMemory>
    ensures { IfOk result (λ _. string_bytes text.new
        ≡ string_bytes text.old ++ flow_heading (flow.now.media + 1) (target_of media.now)) }
{
    let number = u64::from(flow.media) + 1;
    add_flow_heading(text, number, media.target())
}

/// Adds the line that names the run that is shown, with the times of its packets.
fn add_run_title(text: &mut String, shift: Shift, shown: &ShownRun) -> Result<(), OutOfMemory>
    ensures { IfOk result (λ _. string_bytes text.new ≡ string_bytes text.old
        ++ run_heading shown.now.run.run shown.now.run.«record»
        (file_time shift shown.now.first_at) (file_time shift shown.now.last_at)) }
{
    let first = file_time(shift, shown.first_at);
    let last = file_time(shift, shown.last_at);
    add_run_heading(text, shown.run.run, shown.run.record, first, last)
}

/// Adds the results of all types in words, with "frame" or "field" as this media has it.
fn add_types_told(
    text: &mut String,
    media: &Media,
    types: &[TypeShown],
    shift: Shift,
) -> Result<(), OutOfMemory>
    ensures { IfOk result (λ _. string_bytes text.new
        ≡ string_bytes text.old ++ words_list types.now (group_name media.now.interlaced) shift) }
{
    let group = group_name(media.interlaced);
    add_words_list(text, types, group, shift)
}

/// Adds the line on RTP timestamps of a run whose steps differ from those that the SDP's rate gives.
fn add_steps(text: &mut String, media: &Media, shown: &ShownRun) -> Result<(), OutOfMemory>
    ensures { IfOk result (λ _. string_bytes text.new ≡ string_bytes text.old
        ++ steps_line media.now shown.now.run.judged.frames shown.now.run.numbers.step) }
{
    add_steps_line(text, media, shown.run.judged.frames, shown.run.numbers.step)
}

/// Adds the run of a flow of this media that is shown.
fn add_shown(
    text: &mut String,
    alloc: Global,
    shift: Shift,
    media: &Media,
    flow: &MeasuredFlow,
    shown: &ShownRun,
) -> Result<(), OutOfMemory>
    ensures { IfOk result (λ _. string_bytes text.new
        ≡ string_bytes text.old ++ part_if shift media.now flow.now (Some shown.now)) }
{
    let types = types_shown(alloc, &shown.run.judged, &shown.run.numbers)?;
    let types = types.as_slice();
    add_flow_title(text, media, flow)?;
    add_run_title(text, shift, shown)?;
    add_types_told(text, media, types, shift)?;
    add_steps(text, media, shown)?;
    add_run_grid(text, alloc, media, shown, types)?;
    add_run_tables(text, media, shown, types, flow.runs.as_slice())
}

/// Adds the part of a flow of this media, if a run is shown.
fn add_flow_part(
    text: &mut String,
    alloc: Global,
    shift: Shift,
    media: &Media,
    page: &FlowPage,
) -> Result<(), OutOfMemory>
    ensures { IfOk result (λ _. string_bytes text.new ≡ string_bytes text.old ++ flow_part shift media.now page.now) }
{
    match &page.shown {
        None => Ok(()),
        Some(shown) => add_shown(text, alloc, shift, media, &page.flow, shown),
    }
}

/// Adds the parts of all flows.
fn add_flow_parts(
    text: &mut String,
    alloc: Global,
    shift: Shift,
    session: &Session,
    flows: &[FlowPage],
) -> Result<(), OutOfMemory>
    requires { AreOfMedia session.now flows.now }
    ensures { IfOk result (λ _. string_bytes text.new
        ≡ string_bytes text.old ++ flow_parts shift session.now flows.now) }
{
    for page in flows {
        add_flow_part(text, alloc, shift, flow_media(session, page), page)?;
    }
    Ok(())
}

/// Adds the start of the section on what the capture contains, with these lines.
fn add_contents(text: &mut String, lines: &str) -> Result<(), OutOfMemory>
    ensures { IfOk result (λ _. string_bytes text.new ≡ string_bytes text.old ++ contents_told lines.now) }
{
    add_told(
        text,
        "<h2>What the capture holds</h2>\n<div class=\"scroll\"><pre>",
        lines,
    )
}

/// Adds the section on what the capture contains.
fn add_contents_part(text: &mut String, contents: &str) -> Result<(), OutOfMemory>
    ensures { IfOk result (λ _. string_bytes text.new ≡ string_bytes text.old ++ contents_part contents.now) }
{
    add_contents(text, contents)?;
    add_markup(text, "</pre></div>\n")
}

/// Returns the page of one capture, or of several that were taken as one. `names` has the names of the captures,
/// `notes` how each of them ends, and `shift` is that of their timestamps, which the page shows as the captures have
/// them. Each flow belongs to a media of the session, and `contents` is what `scan` prints for the captures. Returns
/// `Err` if memory runs out.
///
/// The page has no script and loads no other file. Numbers are drawn at the place of their value, rounded down to a
/// tenth of an SVG unit. Characters of names that HTML would read as markup are escaped.
pub fn page_text(
    alloc: Global,
    names: &[FileName],
    notes: &[FileNote],
    shift: Shift,
    session: &Session,
    flows: &[FlowPage],
    contents: &str,
) -> Result<String, OutOfMemory>
    requires { AreOfMedia session.now flows.now }
    ensures { IfOk result (λ s. string_bytes s ≡ page_of names.now notes.now shift session.now flows.now contents.now) }
{
    let mut text = String::new(alloc);
    add_page_start(&mut text, names)?;
    add_notes(&mut text, names, notes)?;
    add_media_table(&mut text, alloc, session, flows)?;
    add_legend(&mut text)?;
    add_flow_parts(&mut text, alloc, shift, session, flows)?;
    add_contents_part(&mut text, contents)?;
    add_page_end(&mut text)?;
    Ok(text)
}
