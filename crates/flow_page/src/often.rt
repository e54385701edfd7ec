//! Histograms as pictures: of the packets in bucket and buffer, and of the times between packets.

ghost use Rattle.std.specs.Prelude.{◌≡◌, ◌++◌, IfOk, string_bytes};
ghost use Rattle.flow_page.specs.Shown.{kind_at};
ghost use Rattle.flow_page.specs.Often.{below_bars, bins_bars, class_bars, gap_detail, gap_figure, gaps_figure};
ghost use Rattle.flow_page.specs.Often.{held_in, next_class, often_detail, often_figure, often_from, often_kind, often_title};
ghost use Rattle.flow_page.specs.Often.{width_bars};

use crate::chart::{Bar, BarName, UnitAcross, add_bars_figure};
use crate::shown::kind_at;
use crate::words::Counted;
use flow_measure::{Bins, Gaps, KindNumbers, RunNumbers, Summary};
use std::alloc::{AllocError as OutOfMemory, Global};
use std::fmt;
use timing_base::Kind;
use timing_report::kind_name;

/// Returns the bar of the numbers below 0, or no bar if there can't be any.
fn below_bars(alloc: Global, signed: bool, below: u64) -> Result<Vec<Bar>, OutOfMemory>
    ensures { IfOk result (λ bars. bars.items ≡ below_bars signed below) }
{
    let mut bars = Vec::new(alloc);
    if !signed {
        return Ok(bars);
    }
    bars.push(Bar {
        name: BarName::Below,
        count: below,
    })?;
    Ok(bars)
}

/// Adds the bars of bins with this width.
fn add_width_bars(bars: &mut Vec<Bar>, width: u64, counts: &[u64]) -> Result<(), OutOfMemory>
    ensures { IfOk result (λ _. bars.new.items ≡ bars.old.items ++ width_bars width 0 counts.now) }
{
    for (k, count) in counts.iter().enumerate() {
        let first = k as u128 * u128::from(width);
        bars.push(Bar {
            name: BarName::From(first),
            count: *count,
        })?;
    }
    Ok(())
}

/// Returns all bars of bins.
fn bins_bars(alloc: Global, bins: &Bins, signed: bool) -> Result<Vec<Bar>, OutOfMemory>
    ensures { IfOk result (λ bars. bars.items ≡ bins_bars bins.now signed) }
{
    let mut bars = below_bars(alloc, signed, bins.below)?;
    add_width_bars(&mut bars, bins.width, bins.counts())?;
    bars.push(Bar {
        name: BarName::Above(bins.limit),
        count: bins.above,
    })?;
    Ok(bars)
}

/// Returns the first number of the next class.
fn next_class(first: u128) -> u128
    ensures { result ≡ next_class first }
{
    if first == 0 {
        1
    } else if first < 1 << 100 {
        2 * first
    } else {
        first
    }
}

/// Returns the bars of classes.
fn class_bars(alloc: Global, counts: &[u64]) -> Result<Vec<Bar>, OutOfMemory>
    ensures { IfOk result (λ bars. bars.items ≡ class_bars 0 counts.now) }
{
    let mut bars = Vec::new(alloc);
    let mut first = 0;
    for count in counts {
        bars.push(Bar {
            name: BarName::From(first),
            count: *count,
        })?;
        first = next_class(first);
    }
    Ok(bars)
}

/// Returns the title of the histogram of a type's bucket or buffer.
fn often_title(alloc: Global, what: &str, kind: Kind) -> Result<String, OutOfMemory>
    ensures { IfOk result (λ s. string_bytes s ≡ often_title what.now kind) }
{
    let name = kind_name(kind);
    format!(in alloc; "How often: {what}, {name}")
}

/// The text on how many of all packets are above a limit.
#[derive(Clone, Copy)]
struct AboveOf {
    above: u64,
    seen: u64,
}

impl fmt::Display for AboveOf {
    ghost use Rattle.std.specs.Prelude.{Some};
    ghost use Rattle.flow_page.specs.Often.{above_of};

    ghost output = { λ a. Some (above_of a.above a.seen) };

    #[tactic(auto, unfolding(crate::specs::Often::above_of))]
    fn fmt<W: fmt::Write>(&self, f: &mut fmt::Formatter<W>) -> fmt::Result {
        let packets = Counted {
            count: i128::from(self.seen),
            noun: "packet",
        };
        write!(f, "{} of {packets} above", self.above)
    }
}

/// The text on the first packet above a limit; empty if there is none.
#[derive(Clone, Copy)]
struct FirstAbove {
    first: Option<u64>,
}

impl fmt::Display for FirstAbove {
    ghost use Rattle.std.specs.Prelude.{Some};
    ghost use Rattle.flow_page.specs.Often.{first_above};

    ghost output = { λ above. Some (first_above above.first) };

    fn fmt<W: fmt::Write>(&self, f: &mut fmt::Formatter<W>) -> fmt::Result {
        match self.first {
            None => Ok(()),
            Some(first) => write!(f, ", first after packet {first}"),
        }
    }
}

/// The text on how many numbers are below 0; empty if there can't be any.
#[derive(Clone, Copy)]
struct BelowText {
    signed: bool,
    below: u64,
}

impl fmt::Display for BelowText {
    ghost use Rattle.std.specs.Prelude.{Some};
    ghost use Rattle.flow_page.specs.Often.{below_text};

    ghost output = { λ b. Some (below_text b.signed b.below) };

    fn fmt<W: fmt::Write>(&self, f: &mut fmt::Formatter<W>) -> fmt::Result {
        if self.signed {
            write!(f, ", {} below 0", self.below)
        } else {
            Ok(())
        }
    }
}

/// Returns the text beside a histogram: the greatest number, the limit, and the packets beyond it.
fn often_detail(
    alloc: Global,
    summary: Summary,
    first: Option<u64>,
    signed: bool,
    bins: &Bins,
) -> Result<String, OutOfMemory>
    ensures { IfOk result (λ s. string_bytes s ≡ often_detail summary first signed bins.now) }
{
    let above = AboveOf {
        above: bins.above,
        seen: bins.seen,
    };
    let first = FirstAbove { first };
    let below = BelowText {
        signed,
        below: bins.below,
    };
    format!(in alloc;
        "most {}, limit {}; {above}{first}{below}",
        summary.greatest, bins.limit
    )
}

/// Adds the histogram of a type's bucket or buffer. `signed` is whether numbers below 0 are possible, `summary`
/// that of the numbers, and `first` the first packet above the limit.
fn add_often_figure(
    text: &mut String,
    alloc: Global,
    what: &str,
    kind: Kind,
    along: UnitAcross,
    signed: bool,
    summary: Summary,
    first: Option<u64>,
    bins: &Bins,
) -> Result<(), OutOfMemory>
    ensures { IfOk result (λ _. string_bytes text.new
        ≡ string_bytes text.old ++ often_figure what.now kind along signed summary first bins.now) }
{
    let title = often_title(alloc, what, kind)?;
    let detail = often_detail(alloc, summary, first, signed, bins)?;
    let bars = bins_bars(alloc, bins, signed)?;
    add_bars_figure(
        text,
        alloc,
        title.as_str(),
        detail.as_str(),
        along,
        bins.seen,
        bars.as_slice(),
    )
}

/// Returns the occupancy of the buffer by the reads of a type.
fn held_in(numbers: &RunNumbers, kind: Kind) -> Summary
    ensures { result ≡ held_in numbers.now kind }
{
    match kind {
        Kind::N => numbers.gapped.occupancy,
        Kind::NL => numbers.linear.occupancy,
        Kind::W => numbers.linear.occupancy,
    }
}

/// Adds the two histograms of a type.
#[tactic(auto, unfolding(crate::specs::Often::often_kind))]
fn add_often_kind(
    text: &mut String,
    alloc: Global,
    numbers: &RunNumbers,
    kind: Kind,
    k: &KindNumbers,
) -> Result<(), OutOfMemory>
    ensures { IfOk result (λ _. string_bytes text.new
        ≡ string_bytes text.old ++ often_kind numbers.now kind k.now) }
{
    let held = held_in(numbers, kind);
    add_often_figure(
        text,
        alloc,
        "bucket",
        kind,
        UnitAcross::Bucket,
        false,
        numbers.bucket,
        k.first_bucket,
        &k.bucket,
    )?;
    add_often_figure(
        text,
        alloc,
        "buffer",
        kind,
        UnitAcross::Buffer,
        true,
        held,
        k.first_over,
        &k.buffer,
    )
}

/// Adds the two histograms of the type at this place of N, NL and W.
fn add_often_at(
    text: &mut String,
    alloc: Global,
    numbers: &RunNumbers,
    place: usize,
    k: &KindNumbers,
) -> Result<(), OutOfMemory>
    ensures { IfOk result (λ _. string_bytes text.new
        ≡ string_bytes text.old ++ often_kind numbers.now (kind_at place) k.now) }
{
    add_often_kind(text, alloc, numbers, kind_at(place), k)
}

/// Adds the histograms of types.
fn add_often(
    text: &mut String,
    alloc: Global,
    numbers: &RunNumbers,
    kinds: &[KindNumbers],
) -> Result<(), OutOfMemory>
    ensures { IfOk result (λ _. string_bytes text.new
        ≡ string_bytes text.old ++ often_from numbers.now 0 kinds.now) }
{
    for (place, k) in kinds.iter().enumerate() {
        add_often_at(text, alloc, numbers, place, k)?;
    }
    Ok(())
}

/// Adds the histograms of the types of a run.
pub(crate) fn add_often_of(
    text: &mut String,
    alloc: Global,
    numbers: &RunNumbers,
) -> Result<(), OutOfMemory>
    ensures { IfOk result (λ _. string_bytes text.new
        ≡ string_bytes text.old ++ often_from numbers.now 0 numbers.now.kinds) }
{
    add_often(text, alloc, numbers, numbers.kinds.as_slice())
}

/// Returns the text beside the histogram of the times between packets.
fn gap_detail(alloc: Global, summary: Summary) -> Result<String, OutOfMemory>
    ensures { IfOk result (λ s. string_bytes s ≡ gap_detail summary) }
{
    format!(in alloc;
        "least {}, most {} ns; each bar goes up to the double of where it begins",
        summary.least, summary.greatest
    )
}

/// Adds the histogram of the times between packets.
fn add_gaps(text: &mut String, alloc: Global, gaps: &Gaps) -> Result<(), OutOfMemory>
    ensures { IfOk result (λ _. string_bytes text.new ≡ string_bytes text.old ++ gaps_figure gaps.now) }
{
    let detail = gap_detail(alloc, gaps.summary)?;
    let bars = class_bars(alloc, gaps.classes.counts())?;
    add_bars_figure(
        text,
        alloc,
        "Time from packet to packet",
        detail.as_str(),
        UnitAcross::Gap,
        gaps.classes.seen,
        bars.as_slice(),
    )
}

/// Adds the histogram of the times between packets, if there are two packets.
pub(crate) fn add_gap_figure(
    text: &mut String,
    alloc: Global,
    gap: &Option<Gaps>,
) -> Result<(), OutOfMemory>
    ensures { IfOk result (λ _. string_bytes text.new ≡ string_bytes text.old ++ gap_figure gap.now) }
{
    match gap {
        None => Ok(()),
        Some(gaps) => add_gaps(text, alloc, gaps),
    }
}
