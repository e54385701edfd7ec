//! A judged run and its measurements as JSON.

ghost use Rattle.std.specs.Prelude.{◌≡◌, ◌++◌, IfOk, map, option_map, string_bytes};
ghost use Rattle.timing_report.specs.Outcomes.{verdict_on};
ghost use Rattle.flow_measure.specs.report.Json.{bins_text, breaks_text, gap_member, kind_at, kind_text, kinds_from, kinds_text, run_end, run_front, run_middle, result_text, run_rest, run_text, troff_text};
ghost use Rattle.flow_measure.specs.report.Told.{bins_told, gaps_told, kind_told, numbers_told, offsets_told, run_told};

use crate::report::pieces::{Held, Level, NumberIf, Outcome, Steps, Whole, counts_of, flag_name};
use crate::{Bins, Gaps, KindNumbers, MeasuredRun, RunNumbers, micros_of};
use offset_window::Window;
use std::alloc::{AllocError as OutOfMemory, Global};
use timing_base::{Judged, Kind, KindVerdict, Media};
use timing_report::json_report::comma_if;
use timing_report::{kind_name, verdict_on};

/// Returns bins as JSON. The count of numbers below 0 is included if it is given.
fn bins_of(alloc: Global, bins: &Bins, below: Option<u64>) -> Result<String, OutOfMemory>
    ensures { IfOk result (λ s. string_bytes s ≡ bins_text (bins_told bins.now) below) }
{
    let counts = counts_of(alloc, bins.counts())?;
    let below = NumberIf {
        key: "below",
        number: below,
    };
    format!(in alloc;
        "{{\"above\":{},{below}\"counts\":{counts},\"limit\":{},\"width\":{}}}",
        bins.above, bins.limit, bins.width
    )
}

/// Returns the times between packets as a member, empty if there is only one packet.
fn gap_member(alloc: Global, gap: Option<Gaps>) -> Result<String, OutOfMemory>
    ensures { IfOk result (λ s. string_bytes s ≡ gap_member (option_map gaps_told gap)) }
{
    match gap {
        None => Ok(String::new(alloc)),
        Some(gap) => {
            let classes = counts_of(alloc, gap.classes.counts())?;
            format!(in alloc;
                "\"gap\":{{\"classes\":{classes},\"greatest\":{},\"least\":{},\"sum\":{}}},",
                gap.summary.greatest, gap.summary.least, gap.summary.sum
            )
        }
    }
}

/// Returns the members for the first packet that breaks each limit, and for the count of broken frames or fields.
fn breaks_of(alloc: Global, numbers: &KindNumbers) -> Result<String, OutOfMemory>
    ensures { IfOk result (λ s. string_bytes s ≡ breaks_text (kind_told numbers.now)) }
{
    let bucket = NumberIf {
        key: "first_bucket",
        number: numbers.first_bucket,
    };
    let empty = NumberIf {
        key: "first_empty",
        number: numbers.first_empty,
    };
    let over = NumberIf {
        key: "first_over",
        number: numbers.first_over,
    };
    format!(in alloc;
        "{bucket}{empty}{over}\"frames_broken\":{}",
        numbers.groups_broken
    )
}

/// Returns the offsets with which the buffer would be kept as JSON. An end that is absent has no member.
fn troff_of(alloc: Global, troff: Window) -> Result<String, OutOfMemory>
    ensures { IfOk result (λ s. string_bytes s ≡ troff_text (offsets_told troff)) }
{
    match (micros_of(troff.lower), micros_of(troff.upper)) {
        (None, None) => String::from_str(alloc, "{}"),
        (None, Some(greatest)) => format!(in alloc; "{{\"greatest\":{greatest}}}"),
        (Some(least), None) => format!(in alloc; "{{\"least\":{least}}}"),
        (Some(least), Some(greatest)) => {
            format!(in alloc; "{{\"greatest\":{greatest},\"least\":{least}}}")
        }
    }
}

/// Returns whether a type passes, its violation if it fails, and the offsets with which its buffer would be kept.
fn result_of(
    alloc: Global,
    verdict: KindVerdict,
    numbers: &KindNumbers,
) -> Result<String, OutOfMemory>
    ensures { IfOk result (λ s. string_bytes s ≡ result_text verdict (kind_told numbers.now)) }
{
    let outcome = Outcome {
        verdict,
        place: numbers.named,
    };
    let troff = troff_of(alloc, numbers.troff)?;
    format!(in alloc; "{outcome},\"troff\":{troff}")
}

/// Returns a sender type of a judged run as JSON.
fn kind_of(
    alloc: Global,
    judged: &Judged,
    kind: Kind,
    numbers: &KindNumbers,
) -> Result<String, OutOfMemory>
    ensures { IfOk result (λ s. string_bytes s
        ≡ kind_text kind (verdict_on judged.now kind) (kind_told numbers.now)) }
{
    let bucket = bins_of(alloc, &numbers.bucket, None)?;
    let buffer = bins_of(alloc, &numbers.buffer, Some(numbers.buffer.below))?;
    let breaks = breaks_of(alloc, numbers)?;
    let ending = result_of(alloc, verdict_on(judged, kind), numbers)?;
    let name = kind_name(kind);
    format!(in alloc;
        "{{\"bucket\":{bucket},\"buffer\":{buffer},{breaks},{ending},\"type\":\"{name}\"}}"
    )
}

/// Returns the sender type at this place of N, NL and W, from 0.
fn kind_at(place: usize) -> Kind
    ensures { result ≡ kind_at place }
{
    match place {
        0 => Kind::N,
        1 => Kind::NL,
        _ => Kind::W,
    }
}

/// Adds a sender type of a judged run.
fn add_kind(
    text: &mut String,
    alloc: Global,
    judged: &Judged,
    kind: Kind,
    numbers: &KindNumbers,
) -> Result<(), OutOfMemory>
    ensures { IfOk result (λ _. string_bytes text.new ≡ string_bytes text.old
        ++ kind_text kind (verdict_on judged.now kind) (kind_told numbers.now)) }
{
    let piece = kind_of(alloc, judged, kind, numbers)?;
    text.push_str(piece.as_str())
}

/// Adds the sender types, separated by commas.
fn add_kinds(
    text: &mut String,
    alloc: Global,
    judged: &Judged,
    kinds: &[KindNumbers],
) -> Result<(), OutOfMemory>
    ensures { IfOk result (λ _. string_bytes text.new
        ≡ string_bytes text.old ++ kinds_from judged.now 0 (map kind_told kinds.now)) }
{
    for (index, numbers) in kinds.iter().enumerate() {
        text.push_str(comma_if(index > 0))?;
        add_kind(text, alloc, judged, kind_at(index), numbers)?;
    }
    Ok(())
}

/// Returns the types N, NL and W as a list.
fn kinds_of(alloc: Global, judged: &Judged, kinds: &[KindNumbers]) -> Result<String, OutOfMemory>
    ensures { IfOk result (λ s. string_bytes s ≡ kinds_text judged.now (map kind_told kinds.now)) }
{
    let mut text = String::from_str(alloc, "[")?;
    add_kinds(&mut text, alloc, judged, kinds)?;
    text.push_str("]")?;
    Ok(text)
}

/// Adds a judged run of this media.
pub(crate) fn add_run(
    text: &mut String,
    alloc: Global,
    media: &Media,
    run: &MeasuredRun,
) -> Result<(), OutOfMemory>
    ensures { IfOk result (λ _. string_bytes text.new
        ≡ string_bytes text.old ++ run_text media.now (run_told run.now)) }
{
    add_front(text, alloc, &run.judged, &run.numbers)?;
    add_middle(text, media, &run.judged, &run.numbers)?;
    add_rest(text, &run.judged, run)?;
    add_end(text, alloc, &run.judged, run)
}

/// Adds the members of a run from `bucket` to `gap`.
fn add_front(
    text: &mut String,
    alloc: Global,
    judged: &Judged,
    numbers: &RunNumbers,
) -> Result<(), OutOfMemory>
    ensures { IfOk result (λ _. string_bytes text.new
        ≡ string_bytes text.old ++ run_front judged.now (numbers_told numbers.now)) }
{
    let bucket = Level {
        summary: numbers.bucket,
    };
    let first = Whole {
        summary: numbers.first,
        target: Some(numbers.target),
    };
    let gap = gap_member(alloc, numbers.gap)?;
    write!(
        text,
        "{{\"bucket\":{bucket},\"first\":{first},\"frames\":{},{gap}",
        judged.frames
    )
}

/// Adds the members of a run from `gapped` to `latency`.
fn add_middle(
    text: &mut String,
    media: &Media,
    judged: &Judged,
    numbers: &RunNumbers,
) -> Result<(), OutOfMemory>
    ensures { IfOk result (λ _. string_bytes text.new
        ≡ string_bytes text.old ++ run_middle media.now judged.now (numbers_told numbers.now)) }
{
    let gapped = Held {
        buffer: numbers.gapped,
    };
    let interlaced = flag_name(media.interlaced);
    let last = Whole {
        summary: numbers.last,
        target: None,
    };
    let latency = Whole {
        summary: numbers.latency,
        target: None,
    };
    write!(
        text,
        "\"gapped\":{gapped},\"head\":{},\"interlaced\":{interlaced},\"last\":{last},\"latency\":{latency}",
        judged.head
    )
}

/// Adds the members of a run from `linear` to `packets`.
fn add_rest(text: &mut String, judged: &Judged, run: &MeasuredRun) -> Result<(), OutOfMemory>
    ensures { IfOk result (λ _. string_bytes text.new
        ≡ string_bytes text.old ++ run_rest judged.now (run_told run.now)) }
{
    let linear = Held {
        buffer: run.numbers.linear,
    };
    let offset = Whole {
        summary: run.numbers.offset,
        target: None,
    };
    write!(
        text,
        ",\"linear\":{linear},\"n\":{},\"number\":{},\"offset\":{offset},\"packets\":{}",
        judged.n, run.number, judged.packets
    )
}

/// Adds the members of a run from `record` to `types`.
fn add_end(
    text: &mut String,
    alloc: Global,
    judged: &Judged,
    run: &MeasuredRun,
) -> Result<(), OutOfMemory>
    ensures { IfOk result (λ _. string_bytes text.new
        ≡ string_bytes text.old ++ run_end judged.now (run_told run.now)) }
{
    let steps = Steps {
        step: run.numbers.step,
    };
    let types = kinds_of(alloc, judged, run.numbers.kinds.as_slice())?;
    write!(
        text,
        ",\"record\":{},\"run\":{},{steps}\"tail\":{},\"types\":{types}}}",
        run.record, run.run, judged.tail
    )
}
