//! The measurements of a run as tables.

ghost use Rattle.std.specs.Prelude.{◌≡◌, ◌++◌, IfOk, string_bytes};
ghost use Rattle.std.specs.List.{flat_map};
ghost use Rattle.timing_report.specs.Words.{group_name};
ghost use Rattle.flow_page.specs.Numbers.{level_rows, number_rows, numbers_open, numbers_table, run_open, run_packets};
ghost use Rattle.flow_page.specs.Numbers.{run_peaks, run_row, runs_open, runs_table, time_rows, type_row, types_open};
ghost use Rattle.flow_page.specs.Numbers.{types_table};

use crate::media::add_table_close;
use crate::shown::TypeShown;
use crate::words::Sign;
use flow_measure::{Gaps, MeasuredRun, RunNumbers, Summary};
use std::alloc::AllocError as OutOfMemory;
use std::fmt;
use timing_base::{Judged, Media};
use timing_report::{class_name, first_passing, group_name, kind_name};

/// A cell with a number, or an empty cell.
#[derive(Clone, Copy)]
struct CellIf {
    number: Option<u64>,
}

impl fmt::Display for CellIf {
    ghost use Rattle.std.specs.Prelude.{Some};
    ghost use Rattle.flow_page.specs.Numbers.{cell_if};

    ghost output = { λ cell. Some (cell_if cell.number) };

    fn fmt<W: fmt::Write>(&self, f: &mut fmt::Formatter<W>) -> fmt::Result {
        match self.number {
            None => f.write_str("<td></td>"),
            Some(number) => write!(f, "<td>{number}</td>"),
        }
    }
}

/// A row of the least, the greatest and the sum of a summary.
#[derive(Clone, Copy)]
struct LevelRow {
    name: &'static str,
    summary: Summary,
}

impl fmt::Display for LevelRow {
    ghost use Rattle.std.specs.Prelude.{Some};
    ghost use Rattle.flow_page.specs.Numbers.{level_row};

    ghost output = { λ row. Some (level_row row.name.now row.summary) };

    fn fmt<W: fmt::Write>(&self, f: &mut fmt::Formatter<W>) -> fmt::Result {
        let s = self.summary;
        writeln!(
            f,
            "<tr><th>{}</th><td>{}</td><td>{}</td><td></td><td></td><td>{}</td></tr>",
            self.name, s.least, s.greatest, s.sum
        )
    }
}

/// The least and the greatest number of a summary, as cells.
#[derive(Clone, Copy)]
struct ExtremeCells {
    summary: Summary,
}

impl fmt::Display for ExtremeCells {
    ghost use Rattle.std.specs.Prelude.{Some};
    ghost use Rattle.flow_page.specs.Numbers.{pair_cells};

    ghost output = { λ cells. Some (pair_cells cells.summary.least cells.summary.greatest) };

    #[tactic(auto, unfolding(crate::specs::Numbers::pair_cells))]
    fn fmt<W: fmt::Write>(&self, f: &mut fmt::Formatter<W>) -> fmt::Result {
        let s = self.summary;
        write!(f, "<td>{}</td><td>{}</td>", s.least, s.greatest)
    }
}

/// The first and the last number of a summary, as cells.
#[derive(Clone, Copy)]
struct EndCells {
    summary: Summary,
}

impl fmt::Display for EndCells {
    ghost use Rattle.std.specs.Prelude.{Some};
    ghost use Rattle.flow_page.specs.Numbers.{pair_cells};

    ghost output = { λ cells. Some (pair_cells cells.summary.first cells.summary.last) };

    #[tactic(auto, unfolding(crate::specs::Numbers::pair_cells))]
    fn fmt<W: fmt::Write>(&self, f: &mut fmt::Formatter<W>) -> fmt::Result {
        let s = self.summary;
        write!(f, "<td>{}</td><td>{}</td>", s.first, s.last)
    }
}

/// A row of a whole summary.
#[derive(Clone, Copy)]
struct SummaryRow {
    name: &'static str,
    summary: Summary,
}

impl fmt::Display for SummaryRow {
    ghost use Rattle.std.specs.Prelude.{Some};
    ghost use Rattle.flow_page.specs.Numbers.{summary_row};

    ghost output = { λ row. Some (summary_row row.name.now row.summary) };

    fn fmt<W: fmt::Write>(&self, f: &mut fmt::Formatter<W>) -> fmt::Result {
        let summary = self.summary;
        let extremes = ExtremeCells { summary };
        let ends = EndCells { summary };
        writeln!(
            f,
            "<tr><th>{}</th>{extremes}{ends}<td>{}</td></tr>",
            self.name, summary.sum
        )
    }
}

/// A row of a whole summary that is counted from the instant at which each frame or field begins.
#[derive(Clone, Copy)]
struct AfterRow {
    what: &'static str,
    /// "frame" or "field".
    group: &'static str,
    unit: &'static str,
    summary: Summary,
}

impl fmt::Display for AfterRow {
    ghost use Rattle.std.specs.Prelude.{Some};
    ghost use Rattle.flow_page.specs.Numbers.{after_row};

    ghost output = { λ row. Some (after_row row.what.now row.group.now row.unit.now row.summary) };

    #[tactic(auto, unfolding(crate::specs::Numbers::after_row))]
    fn fmt<W: fmt::Write>(&self, f: &mut fmt::Formatter<W>) -> fmt::Result {
        let summary = self.summary;
        let extremes = ExtremeCells { summary };
        let ends = EndCells { summary };
        writeln!(
            f,
            "<tr><th>{} after the {} begins, {}</th>{extremes}{ends}<td>{}</td></tr>",
            self.what, self.group, self.unit, summary.sum
        )
    }
}

/// The row of TR_OFFSET.
#[derive(Clone, Copy)]
struct TargetRow {
    target: u64,
}

impl fmt::Display for TargetRow {
    ghost use Rattle.std.specs.Prelude.{Some};
    ghost use Rattle.flow_page.specs.Numbers.{target_row};

    ghost output = { λ row. Some (target_row row.target) };

    fn fmt<W: fmt::Write>(&self, f: &mut fmt::Formatter<W>) -> fmt::Result {
        writeln!(
            f,
            "<tr><th>target of the first packet (TR_OFFSET), ns</th><td colspan=\"5\">{}</td></tr>",
            self.target
        )
    }
}

/// The row of the steps of the RTP timestamp; empty if there is only one frame or field.
#[derive(Clone, Copy)]
struct StepRow {
    step: Option<Summary>,
}

impl fmt::Display for StepRow {
    ghost use Rattle.std.specs.Prelude.{Some};
    ghost use Rattle.flow_page.specs.Numbers.{step_row};

    ghost output = { λ row. Some (step_row row.step) };

    fn fmt<W: fmt::Write>(&self, f: &mut fmt::Formatter<W>) -> fmt::Result {
        match self.step {
            None => Ok(()),
            Some(s) => writeln!(
                f,
                "<tr><th>step of the RTP timestamp, ticks</th><td>{}</td><td>{}</td><td></td><td></td><td></td></tr>",
                s.least, s.greatest
            ),
        }
    }
}

/// The row of the times between packets; empty if there is only one packet.
#[derive(Clone, Copy)]
struct GapRow {
    gap: Option<Gaps>,
}

impl fmt::Display for GapRow {
    ghost use Rattle.std.specs.Prelude.{Some};
    ghost use Rattle.flow_page.specs.Numbers.{gap_row};

    ghost output = { λ row. Some (gap_row row.gap) };

    fn fmt<W: fmt::Write>(&self, f: &mut fmt::Formatter<W>) -> fmt::Result {
        match self.gap {
            None => Ok(()),
            Some(gap) => {
                let row = LevelRow {
                    name: "from packet to packet, ns",
                    summary: gap.summary,
                };
                write!(f, "{row}")
            }
        }
    }
}

/// Returns the start of the table of summaries.
#[tactic(auto, unfolding(crate::specs::Numbers::numbers_open))]
fn numbers_open() -> &'static str
    ensures { result.now ≡ numbers_open }
{
    "<h3>Numbers</h3>\n<div class=\"scroll\"><table><thead><tr><th>of the run</th><th>least</th><th>greatest</th><th>first</th><th>last</th><th>sum</th></tr></thead><tbody>\n"
}

/// Adds the rows of the levels of bucket and buffer.
fn add_level_rows(text: &mut String, numbers: &RunNumbers) -> Result<(), OutOfMemory>
    ensures { IfOk result (λ _. string_bytes text.new ≡ string_bytes text.old ++ level_rows numbers.now) }
{
    let bucket = LevelRow {
        name: "packets in the bucket",
        summary: numbers.bucket,
    };
    let gapped = LevelRow {
        name: "packets in the buffer, gapped reads",
        summary: numbers.gapped.occupancy,
    };
    let linear = LevelRow {
        name: "packets in the buffer, linear reads",
        summary: numbers.linear.occupancy,
    };
    write!(text, "{bucket}{gapped}{linear}")
}

/// Adds the rows of the times of packets and of the RTP timestamps. `group` is "frame" or "field".
fn add_time_rows(
    text: &mut String,
    group: &'static str,
    numbers: &RunNumbers,
) -> Result<(), OutOfMemory>
    ensures { IfOk result (λ _. string_bytes text.new ≡ string_bytes text.old ++ time_rows group.now numbers.now) }
{
    let first = AfterRow {
        what: "first packet",
        group,
        unit: "ns",
        summary: numbers.first,
    };
    let target = TargetRow {
        target: numbers.target,
    };
    let last = AfterRow {
        what: "last packet",
        group,
        unit: "ns",
        summary: numbers.last,
    };
    let gap = GapRow { gap: numbers.gap };
    let step = StepRow { step: numbers.step };
    let offset = AfterRow {
        what: "RTP timestamp",
        group,
        unit: "ticks",
        summary: numbers.offset,
    };
    let latency = SummaryRow {
        name: "from RTP timestamp to first packet, ticks",
        summary: numbers.latency,
    };
    write!(text, "{first}{target}{last}{gap}{step}{offset}{latency}")
}

/// Adds the rows of summaries.
#[tactic(auto, unfolding(crate::specs::Numbers::number_rows))]
fn add_number_rows(
    text: &mut String,
    group: &'static str,
    numbers: &RunNumbers,
) -> Result<(), OutOfMemory>
    ensures { IfOk result (λ _. string_bytes text.new
        ≡ string_bytes text.old ++ number_rows group.now numbers.now) }
{
    add_level_rows(text, numbers)?;
    add_time_rows(text, group, numbers)
}

/// Adds the rows of summaries of a run of this media.
fn add_number_rows_of(
    text: &mut String,
    media: &Media,
    numbers: &RunNumbers,
) -> Result<(), OutOfMemory>
    ensures { IfOk result (λ _. string_bytes text.new
        ≡ string_bytes text.old ++ number_rows (group_name media.now.interlaced) numbers.now) }
{
    let group = group_name(media.interlaced);
    add_number_rows(text, group, numbers)
}

/// Adds the table of summaries of a run of this media.
pub(crate) fn add_numbers_table(
    text: &mut String,
    media: &Media,
    numbers: &RunNumbers,
) -> Result<(), OutOfMemory>
    ensures { IfOk result (λ _. string_bytes text.new
        ≡ string_bytes text.old ++ numbers_table media.now numbers.now) }
{
    text.push_str(numbers_open())?;
    add_number_rows_of(text, media, numbers)?;
    add_table_close(text)
}

/// Adds the start of the table of types. `group` is "frame" or "field".
#[tactic(auto, unfolding(crate::specs::Numbers::types_open))]
fn write_types_open(text: &mut String, group: &'static str) -> Result<(), OutOfMemory>
    ensures { IfOk result (λ _. string_bytes text.new ≡ string_bytes text.old ++ types_open group.now) }
{
    writeln!(
        text,
        "<div class=\"scroll\"><table><thead><tr><th>of the type</th><th>outcome</th><th>{group}s that break it</th><th>bucket at most</th><th>peak</th><th>packets above</th><th>first</th><th>buffer at most</th><th>peak</th><th>packets above</th><th>first</th><th>below 0</th><th>packets late</th><th>first</th><th>slack, ns</th></tr></thead><tbody>"
    )
}

/// Adds the start of the table of types of a run of this media.
fn add_types_open(text: &mut String, media: &Media) -> Result<(), OutOfMemory>
    ensures { IfOk result (λ _. string_bytes text.new
        ≡ string_bytes text.old ++ types_open (group_name media.now.interlaced)) }
{
    let group = group_name(media.interlaced);
    write_types_open(text, group)
}

/// The cells of a type for the bucket.
#[derive(Clone, Copy)]
struct BucketCells {
    shown: TypeShown,
}

impl fmt::Display for BucketCells {
    ghost use Rattle.std.specs.Prelude.{Some};
    ghost use Rattle.flow_page.specs.Numbers.{bucket_cells};

    ghost output = { λ cells. Some (bucket_cells cells.shown) };

    fn fmt<W: fmt::Write>(&self, f: &mut fmt::Formatter<W>) -> fmt::Result {
        let t = self.shown;
        let first = CellIf {
            number: t.first_bucket,
        };
        write!(
            f,
            "<td>{}</td><td>{}</td><td>{}</td>{first}",
            t.c_max, t.bucket_peak, t.above_bucket
        )
    }
}

/// The cells of a type for the buffer.
#[derive(Clone, Copy)]
struct BufferCells {
    shown: TypeShown,
}

impl fmt::Display for BufferCells {
    ghost use Rattle.std.specs.Prelude.{Some};
    ghost use Rattle.flow_page.specs.Numbers.{buffer_cells};

    ghost output = { λ cells. Some (buffer_cells cells.shown) };

    fn fmt<W: fmt::Write>(&self, f: &mut fmt::Formatter<W>) -> fmt::Result {
        let t = self.shown;
        let first = CellIf {
            number: t.first_over,
        };
        write!(
            f,
            "<td>{}</td><td>{}</td><td>{}</td>{first}<td>{}</td>",
            t.vrx_full, t.buffer_peak, t.above_buffer, t.below_buffer
        )
    }
}

/// The cells of a type for late packets.
#[derive(Clone, Copy)]
struct ReadCells {
    shown: TypeShown,
}

impl fmt::Display for ReadCells {
    ghost use Rattle.std.specs.Prelude.{Some};
    ghost use Rattle.flow_page.specs.Numbers.{read_cells};

    ghost output = { λ cells. Some (read_cells cells.shown) };

    fn fmt<W: fmt::Write>(&self, f: &mut fmt::Formatter<W>) -> fmt::Result {
        let t = self.shown;
        let first = CellIf {
            number: t.first_empty,
        };
        write!(f, "<td>{}</td>{first}<td>{}</td>", t.late, t.slack)
    }
}

/// Adds the row of a type.
fn add_type_row(text: &mut String, shown: &TypeShown) -> Result<(), OutOfMemory>
    ensures { IfOk result (λ _. string_bytes text.new ≡ string_bytes text.old ++ type_row shown.now) }
{
    let shown = *shown;
    let name = kind_name(shown.kind);
    let sign = Sign {
        verdict: shown.verdict,
    };
    let bucket = BucketCells { shown };
    let buffer = BufferCells { shown };
    let read = ReadCells { shown };
    writeln!(
        text,
        "<tr><th>{name}</th><td>{sign}</td><td>{}</td>{bucket}{buffer}{read}</tr>",
        shown.groups_broken
    )
}

/// Adds the rows of types.
fn add_type_rows(text: &mut String, types: &[TypeShown]) -> Result<(), OutOfMemory>
    ensures { IfOk result (λ _. string_bytes text.new ≡ string_bytes text.old ++ flat_map type_row types.now) }
{
    for shown in types {
        add_type_row(text, shown)?;
    }
    Ok(())
}

/// Adds the table of types of a run of this media.
pub(crate) fn add_types_table(
    text: &mut String,
    media: &Media,
    types: &[TypeShown],
) -> Result<(), OutOfMemory>
    ensures { IfOk result (λ _. string_bytes text.new
        ≡ string_bytes text.old ++ types_table media.now types.now) }
{
    add_types_open(text, media)?;
    add_type_rows(text, types)?;
    add_table_close(text)
}

/// Adds the start of the table of runs. `group` is "frame" or "field".
#[tactic(auto, unfolding(crate::specs::Numbers::runs_open))]
fn write_runs_open(text: &mut String, group: &'static str) -> Result<(), OutOfMemory>
    ensures { IfOk result (λ _. string_bytes text.new ≡ string_bytes text.old ++ runs_open group.now) }
{
    writeln!(
        text,
        "<div class=\"scroll\"><table><thead><tr><th>judged run</th><th>record</th><th>number</th><th>packets</th><th>in a {group}</th><th>{group}s</th><th>head</th><th>tail</th><th>class</th><th>bucket</th><th>buffer, gapped</th><th>buffer, linear</th></tr></thead><tbody>"
    )
}

/// Adds the start of the table of runs of this media.
fn add_runs_open(text: &mut String, media: &Media) -> Result<(), OutOfMemory>
    ensures { IfOk result (λ _. string_bytes text.new
        ≡ string_bytes text.old ++ runs_open (group_name media.now.interlaced)) }
{
    let group = group_name(media.interlaced);
    write_runs_open(text, group)
}

/// Adds the start of a run's row: its number, its first packet record, and the 32-bit sequence number of that packet.
fn add_run_open(text: &mut String, run: u64, from: u64, number: u32) -> Result<(), OutOfMemory>
    ensures { IfOk result (λ _. string_bytes text.new ≡ string_bytes text.old ++ run_open run from number) }
{
    write!(text, "<tr><th>{run}</th><td>{from}</td><td>{number}</td>")
}

/// Adds the packets of a run.
fn add_run_packets(text: &mut String, judged: &Judged) -> Result<(), OutOfMemory>
    ensures { IfOk result (λ _. string_bytes text.new ≡ string_bytes text.old ++ run_packets judged.now) }
{
    write!(
        text,
        "<td>{}</td><td>{}</td><td>{}</td><td>{}</td><td>{}</td>",
        judged.packets, judged.n, judged.frames, judged.head, judged.tail
    )
}

/// Adds the class and the peaks of a run.
fn add_run_peaks(text: &mut String, judged: &Judged) -> Result<(), OutOfMemory>
    ensures { IfOk result (λ _. string_bytes text.new ≡ string_bytes text.old ++ run_peaks judged.now) }
{
    let class = class_name(first_passing(judged));
    writeln!(
        text,
        "<td>{class}</td><td>{}</td><td>{}</td><td>{}</td></tr>",
        judged.bucket_peak, judged.gapped_peak, judged.linear_peak
    )
}

/// Adds the row of a run.
fn add_run_row(text: &mut String, run: &MeasuredRun) -> Result<(), OutOfMemory>
    ensures { IfOk result (λ _. string_bytes text.new ≡ string_bytes text.old ++ run_row run.now) }
{
    add_run_open(text, run.run, run.record, run.number)?;
    add_run_packets(text, &run.judged)?;
    add_run_peaks(text, &run.judged)
}

/// Adds the rows of runs.
fn add_run_rows(text: &mut String, runs: &[MeasuredRun]) -> Result<(), OutOfMemory>
    ensures { IfOk result (λ _. string_bytes text.new ≡ string_bytes text.old ++ flat_map run_row runs.now) }
{
    for run in runs {
        add_run_row(text, run)?;
    }
    Ok(())
}

/// Adds the table of runs of this media.
pub(crate) fn add_runs_table(
    text: &mut String,
    media: &Media,
    runs: &[MeasuredRun],
) -> Result<(), OutOfMemory>
    ensures { IfOk result (λ _. string_bytes text.new
        ≡ string_bytes text.old ++ runs_table media.now runs.now) }
{
    add_runs_open(text, media)?;
    add_run_rows(text, runs)?;
    add_table_close(text)
}
