//! Pictures of the levels of bucket and buffer.

ghost use Rattle.std.specs.Prelude.{◌≡◌, ◌≤◌, ◌^◌, ◌++◌, ◌∷◌, [], IfOk, string_bytes};
ghost use Rattle.std.specs.List.{flat_map};
ghost use Rattle.flow_page.specs.Levels.{across_group, across_of, base_lines, bucket_limit, buffer_limit, eye_columns};
ghost use Rattle.flow_page.specs.Levels.{eye_scene, eye_title, is_near, level_columns, level_detail};
ghost use Rattle.flow_page.specs.Levels.{level_figure, level_figures, level_lines, level_scene, level_summary};
ghost use Rattle.flow_page.specs.Levels.{each_words, level_extremes, level_title, place_across, place_noun};
ghost use Rattle.flow_page.specs.Levels.{level_words, limit_on, limit_words, line_name, run_columns, run_scene};
ghost use Rattle.flow_page.specs.Levels.{run_title, type_line};

use crate::chart::{Across, Limit, LineName, Scene, Unit, UnitAcross, add_curve_figure};
use crate::peaks::peak_of;
use crate::shown::{Curves, ShownRun, TypeShown};
use crate::words::Counted;
use flow_measure::{Extremes, RunNumbers, Summary, width_of};
use std::alloc::{AllocError as OutOfMemory, Global};
use std::fmt;
use timing_base::{Judged, Kind, Media};
use timing_report::{group_name, kind_name};

/// The level that a picture shows.
#[derive(Clone, Copy)]
enum Level {
    /// The bucket.
    Bucket,
    /// The buffer by gapped reads.
    Gapped,
    /// The buffer by linear reads.
    Linear,
}

/// The range of a picture.
#[derive(Clone, Copy)]
pub(crate) enum View {
    /// All packets of the run.
    WholeRun,
    /// One frame or field, with all of them overlaid.
    Eye,
}

/// A limit in packets, and the first packet that exceeds it, from 0.
#[derive(Clone, Copy)]
struct LimitOn {
    limit: u64,
    first: Option<u64>,
}

/// Returns the title of the picture over the whole run.
fn run_title(level: Level) -> &'static str
    ensures { result.now ≡ run_title level }
{
    match level {
        Level::Bucket => "Bucket over the capture",
        Level::Gapped => "Receiver buffer over the capture, gapped reads (N)",
        Level::Linear => "Receiver buffer over the capture, linear reads (NL, W)",
    }
}

/// The level that a picture of all frames or fields overlaid shows.
#[derive(Clone, Copy)]
struct EyeName {
    level: Level,
}

impl fmt::Display for EyeName {
    ghost use Rattle.std.specs.Prelude.{Some};
    ghost use Rattle.flow_page.specs.Levels.{eye_name};

    ghost output = { λ name. Some (eye_name name.level) };

    fn fmt<W: fmt::Write>(&self, f: &mut fmt::Formatter<W>) -> fmt::Result {
        match self.level {
            Level::Bucket => f.write_str("bucket"),
            Level::Gapped => f.write_str("buffer, gapped reads (N)"),
            Level::Linear => f.write_str("buffer, linear reads (NL, W)"),
        }
    }
}

/// Returns the title of the picture of all frames or fields overlaid. `group` is "frame" or "field".
fn eye_title(alloc: Global, group: &'static str, level: Level) -> Result<String, OutOfMemory>
    ensures { IfOk result (λ s. string_bytes s ≡ eye_title group.now level) }
{
    let name = EyeName { level };
    format!(in alloc; "One {group}, all over each other: {name}")
}

/// Returns the title of a picture.
fn level_title(
    alloc: Global,
    media: &Media,
    view: View,
    level: Level,
) -> Result<String, OutOfMemory>
    ensures { IfOk result (λ s. string_bytes s ≡ level_title media.now view level) }
{
    match view {
        View::WholeRun => String::from_str(alloc, run_title(level)),
        View::Eye => eye_title(alloc, group_name(media.interlaced), level),
    }
}

/// Returns what a place of a picture is called.
fn place_noun(view: View) -> &'static str
    ensures { result.now ≡ place_noun view }
{
    match view {
        View::WholeRun => "packet",
        View::Eye => "place",
    }
}

/// Returns the summary of a level.
fn level_summary(numbers: &RunNumbers, level: Level) -> Summary
    ensures { result ≡ level_summary numbers.now level }
{
    match level {
        Level::Bucket => numbers.bucket,
        Level::Gapped => numbers.gapped.occupancy,
        Level::Linear => numbers.linear.occupancy,
    }
}

/// Returns the columns of a level over the whole run.
fn run_columns(curves: &Curves, level: Level) -> &[Extremes]
    ensures { result.now ≡ run_columns curves.now level }
{
    match level {
        Level::Bucket => curves.bucket.as_slice(),
        Level::Gapped => curves.gapped.as_slice(),
        Level::Linear => curves.linear.as_slice(),
    }
}

/// Returns the columns of a level with all frames or fields overlaid.
fn eye_columns(curves: &Curves, level: Level) -> &[Extremes]
    ensures { result.now ≡ eye_columns curves.now level }
{
    match level {
        Level::Bucket => curves.bucket_eye.as_slice(),
        Level::Gapped => curves.gapped_eye.as_slice(),
        Level::Linear => curves.linear_eye.as_slice(),
    }
}

/// Returns the columns of a picture.
fn level_columns(curves: &Curves, view: View, level: Level) -> &[Extremes]
    ensures { result.now ≡ level_columns curves.now view level }
{
    match view {
        View::WholeRun => run_columns(curves, level),
        View::Eye => eye_columns(curves, level),
    }
}

/// Returns the limit of a type's bucket.
fn bucket_limit(shown: &TypeShown) -> LimitOn
    ensures { result ≡ bucket_limit shown.now }
{
    LimitOn {
        limit: shown.c_max,
        first: shown.first_bucket,
    }
}

/// Returns the limit of a type's buffer.
fn buffer_limit(shown: &TypeShown) -> LimitOn
    ensures { result ≡ buffer_limit shown.now }
{
    LimitOn {
        limit: shown.vrx_full,
        first: shown.first_over,
    }
}

/// Returns the limit of a type for a level, or `None` if the type isn't judged by that level.
fn limit_on(level: Level, shown: &TypeShown) -> Option<LimitOn>
    ensures { result ≡ limit_on level shown.now }
{
    match level {
        Level::Bucket => Some(bucket_limit(shown)),
        Level::Gapped => match shown.kind {
            Kind::N => Some(buffer_limit(shown)),
            Kind::NL => None,
            Kind::W => None,
        },
        Level::Linear => match shown.kind {
            Kind::N => None,
            Kind::NL => Some(buffer_limit(shown)),
            Kind::W => Some(buffer_limit(shown)),
        },
    }
}

/// Returns whether a limit is drawn. The limit of W's buffer is drawn only if a fourth of it is reached, since it would
/// flatten the curve.
fn is_near(level: Level, shown: &TypeShown) -> bool
    ensures { result ≡ is_near level shown.now }
{
    match level {
        Level::Bucket => true,
        Level::Gapped => true,
        Level::Linear => match shown.kind {
            Kind::N => true,
            Kind::NL => true,
            Kind::W => shown.vrx_full / 4 <= shown.buffer_peak,
        },
    }
}

/// Returns the name of a type's line.
pub(crate) fn line_name(kind: Kind) -> LineName
    ensures { result ≡ line_name kind }
{
    match kind {
        Kind::N => LineName::Narrow,
        Kind::NL => LineName::NarrowLinear,
        Kind::W => LineName::Wide,
    }
}

/// Adds the line of a type, if it has one.
fn add_type_line(lines: &mut Vec<Limit>, level: Level, shown: &TypeShown) -> Result<(), OutOfMemory>
    ensures { IfOk result (λ _. lines.new.items ≡ lines.old.items ++ type_line level shown.now) }
{
    if !is_near(level, shown) {
        return Ok(());
    }
    match limit_on(level, shown) {
        None => Ok(()),
        Some(on) => {
            lines.push(Limit {
                name: line_name(shown.kind),
                at: i128::from(on.limit),
            })?;
            Ok(())
        }
    }
}

/// Returns a list of one line.
pub(crate) fn one_line(alloc: Global, line: Limit) -> Result<Vec<Limit>, OutOfMemory>
    ensures { IfOk result (λ lines. lines.items ≡ line ∷ []) }
{
    let mut lines = Vec::new(alloc);
    lines.push(line)?;
    Ok(lines)
}

/// Returns the line of an empty buffer.
fn base_lines(alloc: Global, level: Level) -> Result<Vec<Limit>, OutOfMemory>
    ensures { IfOk result (λ lines. lines.items ≡ base_lines level) }
{
    let empty = Limit {
        name: LineName::Empty,
        at: 0,
    };
    match level {
        Level::Bucket => Ok(Vec::new(alloc)),
        Level::Gapped => one_line(alloc, empty),
        Level::Linear => one_line(alloc, empty),
    }
}

/// Returns the lines of the limits.
fn level_lines(alloc: Global, level: Level, types: &[TypeShown]) -> Result<Vec<Limit>, OutOfMemory>
    ensures { IfOk result (λ lines. lines.items ≡ level_lines level types.now) }
{
    let mut lines = base_lines(alloc, level)?;
    for shown in types {
        add_type_line(&mut lines, level, shown)?;
    }
    Ok(lines)
}

/// The text on the first packet above a limit; empty if there is none.
#[derive(Clone, Copy)]
struct FirstTold {
    first: Option<u64>,
}

impl fmt::Display for FirstTold {
    ghost use Rattle.std.specs.Prelude.{Some};
    ghost use Rattle.flow_page.specs.Levels.{first_told};

    ghost output = { λ told. Some (first_told told.first) };

    fn fmt<W: fmt::Write>(&self, f: &mut fmt::Formatter<W>) -> fmt::Result {
        match self.first {
            None => Ok(()),
            Some(first) => write!(f, ", above it first after packet {first}"),
        }
    }
}

/// Adds the limit of a type in words, if it has one.
fn add_limit_words(text: &mut String, level: Level, shown: &TypeShown) -> Result<(), OutOfMemory>
    ensures { IfOk result (λ _. string_bytes text.new ≡ string_bytes text.old ++ limit_words level shown.now) }
{
    match limit_on(level, shown) {
        None => Ok(()),
        Some(on) => {
            let name = kind_name(shown.kind);
            let first = FirstTold { first: on.first };
            write!(text, "; {name} at most {}{first}", on.limit)
        }
    }
}

/// Adds the limits of types in words.
fn add_all_limits(text: &mut String, level: Level, types: &[TypeShown]) -> Result<(), OutOfMemory>
    ensures { IfOk result (λ _. string_bytes text.new
        ≡ string_bytes text.old ++ flat_map (limit_words level) types.now) }
{
    for shown in types {
        add_limit_words(text, level, shown)?;
    }
    Ok(())
}

/// Returns the least and the greatest level in words, with the place of the greatest. `noun` is what one place is called.
fn level_extremes(
    alloc: Global,
    noun: &'static str,
    summary: Summary,
    across: Across,
    columns: &[Extremes],
) -> Result<String, OutOfMemory>
    ensures { IfOk result (λ s. string_bytes s ≡ level_extremes noun.now summary across columns.now) }
{
    let most = Counted {
        count: summary.greatest,
        noun: "packet",
    };
    let peak = peak_of(noun, across, summary.greatest, columns);
    format!(in alloc; "least {}, most {most}{peak}", summary.least)
}

/// Adds the packets or places per column.
fn add_each_words(text: &mut String, each: u64) -> Result<(), OutOfMemory>
    ensures { IfOk result (λ _. string_bytes text.new ≡ string_bytes text.old ++ each_words each) }
{
    write!(text, "; {each} to a mark")
}

/// Returns the least and the greatest level in words, with the place of the greatest, and the packets or places per
/// column.
fn level_words(
    alloc: Global,
    noun: &'static str,
    summary: Summary,
    across: Across,
    columns: &[Extremes],
) -> Result<String, OutOfMemory>
    ensures { IfOk result (λ s. string_bytes s ≡ level_words noun.now summary across columns.now) }
{
    let mut text = level_extremes(alloc, noun, summary, across, columns)?;
    add_each_words(&mut text, across.each)?;
    Ok(text)
}

/// Returns the text beside a picture.
fn level_detail(
    alloc: Global,
    view: View,
    level: Level,
    summary: Summary,
    across: Across,
    columns: &[Extremes],
    types: &[TypeShown],
) -> Result<String, OutOfMemory>
    ensures { IfOk result (λ s. string_bytes s ≡ level_detail view level summary across columns.now types.now) }
{
    let mut text = level_words(alloc, place_noun(view), summary, across, columns)?;
    add_all_limits(&mut text, level, types)?;
    Ok(text)
}

/// Returns `count` packets, frames or fields side by side, in the columns of a curve.
pub(crate) fn across_of(count: u64) -> Across
    ensures value { result ≡ across_of count }
    ensures few { result.count ≤ 2 ^ 60 }
{
    Across {
        start: 0,
        count: count.min(1 << 60),
        each: width_of(count, 1000),
    }
}

/// Returns the places of a frame or field side by side, in the columns of an eye. `n` is the packets per frame or
/// field.
fn across_group(n: u32) -> Across
    ensures value { result ≡ across_group n }
    ensures few { result.count ≤ 2 ^ 60 }
{
    Across {
        start: 0,
        count: u64::from(n),
        each: u64::from(n).div_ceil(500),
    }
}

/// Returns the scene of the whole run.
fn run_scene(judged: &Judged) -> Scene
    ensures value { result ≡ run_scene judged.now }
    ensures few { result.across.count ≤ 2 ^ 60 }
{
    Scene {
        wide: true,
        unit: Unit::Packets,
        along: UnitAcross::Packet,
        across: across_of(judged.packets),
        every: u64::from(judged.n),
        shade: None,
    }
}

/// Returns the unit of the places of a frame or field.
fn place_across(interlaced: bool) -> UnitAcross
    ensures { result ≡ place_across interlaced }
{
    if interlaced {
        UnitAcross::FieldPlace
    } else {
        UnitAcross::Place
    }
}

/// Returns the scene of all frames or fields overlaid.
fn eye_scene(media: &Media, judged: &Judged) -> Scene
    ensures value { result ≡ eye_scene media.now judged.now }
    ensures few { result.across.count ≤ 2 ^ 60 }
{
    Scene {
        wide: false,
        unit: Unit::Packets,
        along: place_across(media.interlaced),
        across: across_group(judged.n),
        every: 0,
        shade: None,
    }
}

/// Returns the scene of a picture.
fn level_scene(media: &Media, judged: &Judged, view: View) -> Scene
    ensures value { result ≡ level_scene media.now judged.now view }
    ensures few { result.across.count ≤ 2 ^ 60 }
{
    match view {
        View::WholeRun => run_scene(judged),
        View::Eye => eye_scene(media, judged),
    }
}

/// Adds the picture of a level.
fn add_level_figure(
    text: &mut String,
    alloc: Global,
    media: &Media,
    shown: &ShownRun,
    types: &[TypeShown],
    view: View,
    level: Level,
) -> Result<(), OutOfMemory>
    ensures { IfOk result (λ _. string_bytes text.new
        ≡ string_bytes text.old ++ level_figure media.now shown.now types.now view level) }
{
    let scene = level_scene(media, &shown.run.judged, view);
    let summary = level_summary(&shown.run.numbers, level);
    let columns = level_columns(&shown.curves, view, level);
    let title = level_title(alloc, media, view, level)?;
    let detail = level_detail(alloc, view, level, summary, scene.across, columns, types)?;
    let lines = level_lines(alloc, level, types)?;
    add_curve_figure(
        text,
        alloc,
        title.as_str(),
        detail.as_str(),
        scene,
        lines.as_slice(),
        columns,
    )
}

/// Adds the pictures of bucket and buffer with the same range.
pub(crate) fn add_level_figures(
    text: &mut String,
    alloc: Global,
    media: &Media,
    shown: &ShownRun,
    types: &[TypeShown],
    view: View,
) -> Result<(), OutOfMemory>
    ensures { IfOk result (λ _. string_bytes text.new
        ≡ string_bytes text.old ++ level_figures media.now shown.now types.now view) }
{
    add_level_figure(text, alloc, media, shown, types, view, Level::Bucket)?;
    add_level_figure(text, alloc, media, shown, types, view, Level::Gapped)?;
    add_level_figure(text, alloc, media, shown, types, view, Level::Linear)
}
