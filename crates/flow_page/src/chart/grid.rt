//! The lines behind the numbers, with ticks and units.

ghost use Rattle.std.specs.Prelude.{◌≡◌, ◌≤◌, ◌+◌, ◌++◌, ◌^◌, IfOk, pos, string_bytes};
ghost use Rattle.flow_page.specs.chart.Grid.{across_name, frame_rule, frame_rules, grid_line, grid_text, mark_across};
ghost use Rattle.flow_page.specs.chart.Grid.{mark_piece, marks_across, ns_name, number_piece, rule_piece, scale_of};
ghost use Rattle.flow_page.specs.chart.Grid.{scale_of_ns};
ghost use Rattle.flow_page.specs.chart.Grid.{shown, some_mark_across, step_across, tick_across, unit_name, units_piece};
ghost use Rattle.flow_page.specs.chart.Grid.{units_text};

use crate::chart::axis::{Axis, round_up};
use crate::chart::plot::{Across, Plot, Tenths};
use std::alloc::AllocError as OutOfMemory;

/// The unit of the numbers of an axis.
#[derive(Clone, Copy)]
pub enum Unit {
    /// Packets.
    Packets,
    /// Nanoseconds. They are printed as milliseconds or microseconds if each tick is a whole number of these.
    Nanoseconds,
    /// Ticks of 90 kHz.
    Ticks,
}

/// The unit of the places from left to right.
#[derive(Clone, Copy)]
pub enum UnitAcross {
    /// Judged packets, from 0.
    Packet,
    /// The packets of one frame, from 0.
    Place,
    /// The packets of one field, from 0.
    FieldPlace,
    /// Frames, from 0.
    Frame,
    /// Fields, from 0.
    Field,
    /// The packets in a bucket.
    Bucket,
    /// The packets in a buffer.
    Buffer,
    /// Nanoseconds from a packet to the next.
    Gap,
}

/// Returns the unit in which times are printed, in nanoseconds, for ticks `step` nanoseconds apart.
pub(crate) fn scale_of_ns(step: u64) -> u32
    ensures value { result ≡ scale_of_ns step }
    ensures some { 1 ≤ result }
{
    if step % 1_000_000 == 0 {
        1_000_000
    } else if step % 1000 == 0 {
        1000
    } else {
        1
    }
}

/// Returns the unit in which times are printed, in HTML, for ticks `step` nanoseconds apart.
pub(crate) fn ns_name(step: u64) -> &'static str
    ensures { result.now ≡ ns_name step }
{
    if step % 1_000_000 == 0 {
        "ms"
    } else if step % 1000 == 0 {
        "&#181;s"
    } else {
        "ns"
    }
}

impl Unit {
    /// Returns how many of the numbers make one of the printed unit, for ticks `step` apart.
    fn scale(self, step: u64) -> u32
        ensures value { result ≡ scale_of self step }
        ensures some { 1 ≤ result }
    {
        match self {
            Unit::Packets => 1,
            Unit::Nanoseconds => scale_of_ns(step),
            Unit::Ticks => 1,
        }
    }

    /// Returns the printed unit, in HTML, for ticks `step` apart.
    pub(crate) fn name(self, step: u64) -> &'static str
        ensures { result.now ≡ unit_name self step }
    {
        match self {
            Unit::Packets => "packets",
            Unit::Nanoseconds => ns_name(step),
            Unit::Ticks => "ticks of 90 kHz",
        }
    }
}

impl UnitAcross {
    /// Returns the printed unit.
    fn name(self) -> &'static str
        ensures { result.now ≡ across_name self }
    {
        match self {
            UnitAcross::Packet => "judged packet",
            UnitAcross::Place => "place in the frame",
            UnitAcross::FieldPlace => "place in the field",
            UnitAcross::Frame => "frame",
            UnitAcross::Field => "field",
            UnitAcross::Bucket => "packets in the bucket",
            UnitAcross::Buffer => "packets in the buffer",
            UnitAcross::Gap => "ns from packet to packet",
        }
    }
}

/// Returns the printed number of a tick.
#[tactic(auto, unfolding(crate::specs::chart::Grid::shown))]
pub(crate) fn shown(unit: Unit, axis: Axis, k: u32) -> i128
    ensures { result ≡ shown unit axis k }
{
    axis.tick(k) / i128::from(unit.scale(axis.step))
}

/// Writes a line across the panel.
#[tactic(auto, unfolding(crate::specs::chart::Grid::rule_piece))]
fn write_rule(text: &mut String, left: Tenths, y: Tenths, right: Tenths) -> Result<(), OutOfMemory>
    ensures { IfOk result (λ _. string_bytes text.new
        ≡ string_bytes text.old ++ rule_piece left.tenths y.tenths right.tenths) }
{
    write!(text, "<path class=\"ax\" d=\"M{left} {y}H{right}\"/>")
}

/// Writes a number to the left of its line.
#[tactic(auto, unfolding(crate::specs::chart::Grid::number_piece))]
fn write_number(
    text: &mut String,
    beside: Tenths,
    base: Tenths,
    number: i128,
) -> Result<(), OutOfMemory>
    ensures { IfOk result (λ _. string_bytes text.new
        ≡ string_bytes text.old ++ number_piece beside.tenths base.tenths number) }
{
    write!(
        text,
        "<text x=\"{beside}\" y=\"{base}\" text-anchor=\"end\">{number}</text>"
    )
}

/// Adds the line of a tick, with its number.
fn add_grid_line(text: &mut String, plot: Plot, unit: Unit, k: u32) -> Result<(), OutOfMemory>
    ensures { IfOk result (λ _. string_bytes text.new ≡ string_bytes text.old ++ grid_line plot unit k) }
{
    let number = plot.axis.tick(k);
    let (left, right, beside) = (plot.panel.left(), plot.panel.right(), plot.panel.beside());
    let (y, base) = (plot.y(number), plot.base(number));
    write_rule(text, left, y, right)?;
    write_number(text, beside, base, shown(unit, plot.axis, k))
}

/// Adds the lines of all ticks, from the low end up.
pub fn add_grid(text: &mut String, plot: Plot, unit: Unit) -> Result<(), OutOfMemory>
    ensures { IfOk result (λ _. string_bytes text.new ≡ string_bytes text.old ++ grid_text plot unit) }
{
    for k in 0..plot.axis.steps {
        add_grid_line(text, plot, unit, k)?;
    }
    add_grid_line(text, plot, unit, plot.axis.steps)
}

impl Across {
    /// Returns the distance of two ticks, in places.
    #[tactic(auto, unfolding(crate::specs::chart::Grid::step_across))]
    fn step(self) -> u64
        requires { self.count ≤ 2 ^ 60 }
        ensures value { result ≡ step_across self }
        ensures some { 1 ≤ result }
    {
        round_up(self.count.div_ceil(7))
    }

    /// Returns the place of a tick, counted from the left end. Ticks count from 0 at the first multiple of the step.
    #[tactic(auto, unfolding(crate::specs::chart::Grid::tick_across))]
    fn tick(self, k: u32) -> u128
        requires { self.count ≤ 2 ^ 60 }
        ensures { result ≡ tick_across self k }
    {
        let step = self.step();
        let first = (step - self.start % step) % step;
        u128::from(first) + u128::from(step) * u128::from(k)
    }
}

/// Writes the mark of a place with its number.
#[tactic(auto, unfolding(crate::specs::chart::Grid::mark_piece))]
fn write_mark(
    text: &mut String,
    x: Tenths,
    bottom: Tenths,
    base: Tenths,
    number: u128,
) -> Result<(), OutOfMemory>
    ensures { IfOk result (λ _. string_bytes text.new
        ≡ string_bytes text.old ++ mark_piece x.tenths bottom.tenths base.tenths number) }
{
    write!(
        text,
        "<path class=\"ax\" d=\"M{x} {bottom}v4\"/><text x=\"{x}\" y=\"{base}\" text-anchor=\"middle\">{number}</text>"
    )
}

/// Adds the mark of a place with its number.
fn add_mark_across(text: &mut String, plot: Plot, at: u128) -> Result<(), OutOfMemory>
    requires { at ≤ 2 ^ 64 }
    ensures { IfOk result (λ _. string_bytes text.new ≡ string_bytes text.old ++ mark_across plot at) }
{
    let (x, bottom, base) = (plot.x(at), plot.panel.bottom(), plot.panel.below(160));
    write_mark(text, x, bottom, base, u128::from(plot.across.start) + at)
}

/// Adds the mark of a tick, if it is within the picture.
fn add_some_mark_across(text: &mut String, plot: Plot, k: u32) -> Result<(), OutOfMemory>
    requires { plot.across.count ≤ 2 ^ 60 }
    ensures { IfOk result (λ _. string_bytes text.new ≡ string_bytes text.old ++ some_mark_across plot k) }
{
    let at = plot.across.tick(k);
    if at <= u128::from(plot.across.count) {
        add_mark_across(text, plot, at)
    } else {
        Ok(())
    }
}

/// Adds the marks of all ticks from left to right.
pub fn add_marks_across(text: &mut String, plot: Plot) -> Result<(), OutOfMemory>
    requires { plot.across.count ≤ 2 ^ 60 }
    ensures { IfOk result (λ _. string_bytes text.new ≡ string_bytes text.old ++ marks_across plot) }
{
    for k in 0..8u32 {
        add_some_mark_across(text, plot, k)?;
    }
    Ok(())
}

/// Writes the units.
#[tactic(auto, unfolding(crate::specs::chart::Grid::units_piece))]
fn write_units(
    text: &mut String,
    up: &str,
    right: Tenths,
    base: Tenths,
    along: &str,
) -> Result<(), OutOfMemory>
    ensures { IfOk result (λ _. string_bytes text.new
        ≡ string_bytes text.old ++ units_piece up.now right.tenths base.tenths along.now) }
{
    write!(
        text,
        "<text x=\"0\" y=\"12\">{up}</text><text x=\"{right}\" y=\"{base}\" text-anchor=\"end\">{along}</text>"
    )
}

/// Adds the units.
pub fn add_units(
    text: &mut String,
    plot: Plot,
    unit: Unit,
    across: UnitAcross,
) -> Result<(), OutOfMemory>
    ensures { IfOk result (λ _. string_bytes text.new ≡ string_bytes text.old ++ units_text plot unit across) }
{
    let (right, base) = (plot.panel.right(), plot.panel.below(310));
    write_units(text, unit.name(plot.axis.step), right, base, across.name())
}

/// Adds the line at the end of a frame or field.
fn add_frame_rule(text: &mut String, plot: Plot, every: u64, k: u64) -> Result<(), OutOfMemory>
    ensures { IfOk result (λ _. string_bytes text.new ≡ string_bytes text.old ++ frame_rule plot every k) }
{
    let x = plot.x(u128::from(every) * (u128::from(k) + 1));
    let (top, bottom) = (plot.panel.top(), plot.panel.bottom());
    write!(text, "<path class=\"fr\" d=\"M{x} {top}V{bottom}\"/>")
}

/// Adds the lines at the ends of frames or fields of `every` packets, if these are at least four SVG units wide.
pub fn add_frame_rules(text: &mut String, plot: Plot, every: u64) -> Result<(), OutOfMemory>
    ensures { IfOk result (λ _. string_bytes text.new ≡ string_bytes text.old ++ frame_rules plot every) }
{
    let least = (40 * u128::from(plot.across.count)).max(1);
    if u128::from(plot.panel.width) * u128::from(every) < least {
        return Ok(());
    }
    for k in 0..plot.across.count.saturating_sub(1) / every.max(1) {
        add_frame_rule(text, plot, every, k)?;
    }
    Ok(())
}
