//! Writes the text of one verdict: its line, and the lines of the sender types below it.

ghost use Rattle.std.specs.Prelude.{◌≡◌, ◌≤◌, ◌<◌, ◌++◌, IfOk, length, codes, string_bytes};
ghost use Rattle.timing_report.specs.Outcomes.{first_passing};
ghost use Rattle.timing_report.specs.Words.{class_name};
ghost use Rattle.timing_report.specs.Text.{ended, text_of_lines};
ghost use Rattle.timing_report.specs.Verdict.{unjudged_text, counts_text, places_text, judged_text, verdict_text, proof_text, outcome_text, type_text, type_lines, run_verdict_text, run_head, lines_below_run, run_lines, runs_lines, lines_below};

use crate::outcomes::{buffer_peak, first_passing, verdict_on};
use crate::words::{PacketFaultText, class_name, declared_name, group_name, kind_name, model_name};
use sender_params::Params;
use std::alloc::{AllocError as OutOfMemory, Global};
use std::fmt;
use timing_base::{
    FailProof, Judged, Kind, KindVerdict, Media, Run, RunVerdict, Unjudged, Verdict,
};

/// Returns the text of a verdict on a flow of this media, as it stands in the line of the report, without a newline.
/// Returns `Err` if memory runs out.
pub fn verdict_of(alloc: Global, media: &Media, verdict: &Verdict) -> Result<String, OutOfMemory>
    ensures { IfOk result (λ s. string_bytes s ≡ verdict_text media.now verdict.now) }
{
    let mut text = String::new(alloc);
    add_verdict(&mut text, media, verdict)?;
    Ok(text)
}

/// Adds the text of a verdict.
pub(crate) fn add_verdict(
    text: &mut String,
    media: &Media,
    verdict: &Verdict,
) -> Result<(), OutOfMemory>
    ensures { IfOk result (λ _. string_bytes text.new
        ≡ string_bytes text.old ++ verdict_text media.now verdict.now) }
{
    match verdict {
        Verdict::Unjudged(unjudged) => add_unjudged(text, *unjudged),
        Verdict::Judged(judged) => add_judged(text, media, judged),
        Verdict::Runs(runs) => {
            let count = runs.list.len();
            write!(text, "gaps {}, runs {count}", count - 1)
        }
    }
}

fn add_unjudged(text: &mut String, unjudged: Unjudged) -> Result<(), OutOfMemory>
    ensures { IfOk result (λ _. string_bytes text.new
        ≡ string_bytes text.old ++ unjudged_text unjudged) }
{
    match unjudged {
        Unjudged::Absent => text.push_str("absent"),
        Unjudged::NoWholeFrame { head } => write!(text, "no whole frame, head {head}"),
        Unjudged::Refused { rec, fault } => {
            let fault = PacketFaultText { fault };
            write!(text, "refused at record {rec}: {fault}")
        }
        Unjudged::Gap { rec, expected, got } => {
            write!(text, "gap at record {rec}: expected {expected}, got {got}")
        }
    }
}

fn add_judged(text: &mut String, media: &Media, judged: &Judged) -> Result<(), OutOfMemory>
    ensures { IfOk result (λ _. string_bytes text.new
        ≡ string_bytes text.old ++ judged_text media.now judged.now) }
{
    add_counts(text, media, judged)?;
    add_places(text, media, judged)
}

fn add_places(text: &mut String, media: &Media, judged: &Judged) -> Result<(), OutOfMemory>
    ensures { IfOk result (λ _. string_bytes text.new
        ≡ string_bytes text.old ++ places_text media.now judged.now) }
{
    let class = class_of(judged);
    let declared = declared_name(media.declared);
    write!(
        text,
        ", head {}, tail {}, class {class}, declared {declared}",
        judged.head, judged.tail
    )
}

fn add_counts(text: &mut String, media: &Media, judged: &Judged) -> Result<(), OutOfMemory>
    ensures { IfOk result (λ _. string_bytes text.new
        ≡ string_bytes text.old ++ counts_text media.now judged.now) }
{
    let group = group_name(media.interlaced);
    write!(
        text,
        "judged: {} per {group}, {} {group}s, {} packets",
        judged.n, judged.frames, judged.packets
    )
}

/// Returns the class of a judged run.
fn class_of(judged: &Judged) -> &'static str
    ensures { result.now ≡ class_name (first_passing judged.now) }
{
    class_name(first_passing(judged))
}

/// Adds the lines below the line of a flow.
pub(crate) fn add_lines_below(
    text: &mut String,
    media: &Media,
    verdict: &Verdict,
) -> Result<(), OutOfMemory>
    ensures { IfOk result (λ _. string_bytes text.new
        ≡ string_bytes text.old ++ text_of_lines (lines_below media.now verdict.now)) }
{
    match verdict {
        Verdict::Unjudged(_) => Ok(()),
        Verdict::Judged(judged) => add_types(text, "  ", media, judged),
        Verdict::Runs(runs) => add_runs(text, media, runs.list.as_slice()),
    }
}

/// Adds the lines of the three sender types, each behind the indentation `space`.
fn add_types(
    text: &mut String,
    space: &str,
    media: &Media,
    judged: &Judged,
) -> Result<(), OutOfMemory>
    ensures { IfOk result (λ _. string_bytes text.new
        ≡ string_bytes text.old ++ text_of_lines (type_lines space.now media.now judged.now)) }
{
    let params = Params::of(media, judged.n);
    add_type(text, space, &params, judged, Kind::N)?;
    add_type(text, space, &params, judged, Kind::NL)?;
    add_type(text, space, &params, judged, Kind::W)
}

fn add_type(
    text: &mut String,
    space: &str,
    params: &Params,
    judged: &Judged,
    kind: Kind,
) -> Result<(), OutOfMemory>
    requires { params.now.n ≡ judged.now.n }
    ensures { IfOk result (λ _. string_bytes text.new
        ≡ string_bytes text.old ++ ended (space.now ++ type_text params.now.media judged.now kind)) }
{
    let name = kind_name(kind);
    let outcome = Outcome {
        verdict: verdict_on(judged, kind),
    };
    writeln!(
        text,
        "{space}{name} {outcome}, bucket {} of {}, buffer {} of {}",
        judged.bucket_peak,
        params.c_max(kind),
        buffer_peak(judged, kind),
        params.vrx_full(kind)
    )
}

fn add_runs(text: &mut String, media: &Media, runs: &[Run]) -> Result<(), OutOfMemory>
    requires { length runs.now ≤ 1025 }
    ensures { IfOk result (λ _. string_bytes text.new
        ≡ string_bytes text.old ++ text_of_lines (runs_lines media.now 0 runs.now)) }
{
    for (index, run) in runs.iter().enumerate() {
        add_run(text, media, index, run)?;
    }
    Ok(())
}

/// Adds the line of a run and the lines below it; `index` counts runs from 0.
fn add_run(text: &mut String, media: &Media, index: usize, run: &Run) -> Result<(), OutOfMemory>
    requires { index < 1025 }
    ensures { IfOk result (λ _. string_bytes text.new
        ≡ string_bytes text.old ++ text_of_lines (run_lines media.now index run.now)) }
{
    add_run_head(text, index, run)?;
    add_run_verdict(text, media, &run.verdict)
}

/// Adds the text of the verdict on a run, and the lines of its types.
fn add_run_verdict(
    text: &mut String,
    media: &Media,
    verdict: &RunVerdict,
) -> Result<(), OutOfMemory>
    ensures { IfOk result (λ _. string_bytes text.new ≡ string_bytes text.old
        ++ (ended (run_verdict_text media.now verdict.now)
        ++ text_of_lines (lines_below_run media.now verdict.now))) }
{
    match verdict {
        RunVerdict::NoWholeFrame { head } => writeln!(text, "no whole frame, head {head}"),
        RunVerdict::Judged(judged) => add_judged_run(text, media, judged),
    }
}

fn add_judged_run(text: &mut String, media: &Media, judged: &Judged) -> Result<(), OutOfMemory>
    ensures { IfOk result (λ _. string_bytes text.new ≡ string_bytes text.old
        ++ (ended (judged_text media.now judged.now)
        ++ text_of_lines (type_lines (codes "    ") media.now judged.now))) }
{
    add_judged(text, media, judged)?;
    text.push_str("\n")?;
    add_types(text, "    ", media, judged)
}

/// Adds the line of a run up to its verdict; `index` counts runs from 0, the line from 1.
fn add_run_head(text: &mut String, index: usize, run: &Run) -> Result<(), OutOfMemory>
    requires { index < 1025 }
    ensures { IfOk result (λ _. string_bytes text.new
        ≡ string_bytes text.old ++ run_head index run.now) }
{
    let expected = Expected {
        number: run.expected,
    };
    write!(
        text,
        "  run {} from record {} number {}{expected}: ",
        index + 1,
        run.rec,
        run.number
    )
}

/// The extended sequence number that would have continued the run before, as the report writes it.
#[derive(Clone, Copy, Debug)]
struct Expected {
    number: Option<u32>,
}

impl fmt::Display for Expected {
    ghost use Rattle.std.specs.Prelude.{Some};
    ghost use Rattle.timing_report.specs.Verdict.{expected_text};

    ghost output = { λ expected. Some (expected_text expected.number) };

    fn fmt<W: fmt::Write>(&self, f: &mut fmt::Formatter<W>) -> fmt::Result {
        match self.number {
            None => Ok(()),
            Some(number) => write!(f, " expected {number}"),
        }
    }
}

/// The verdict on a sender type, as the report writes it.
#[derive(Clone, Copy, Debug)]
struct Outcome {
    verdict: KindVerdict,
}

impl fmt::Display for Outcome {
    ghost use Rattle.std.specs.Prelude.{Some};
    ghost use Rattle.timing_report.specs.Verdict.{outcome_text};

    ghost output = { λ outcome. Some (outcome_text outcome.verdict) };

    fn fmt<W: fmt::Write>(&self, f: &mut fmt::Formatter<W>) -> fmt::Result {
        match self.verdict {
            KindVerdict::Pass => f.write_str("pass"),
            KindVerdict::Fail(proof) => {
                let proof = ProofText { proof };
                write!(f, "fail {proof}")
            }
        }
    }
}

/// A violation, as the report writes it.
#[derive(Clone, Copy, Debug)]
struct ProofText {
    proof: FailProof,
}

impl fmt::Display for ProofText {
    ghost use Rattle.std.specs.Prelude.{Some};
    ghost use Rattle.timing_report.specs.Verdict.{proof_text};

    ghost output = { λ text. Some (proof_text text.proof) };

    fn fmt<W: fmt::Write>(&self, f: &mut fmt::Formatter<W>) -> fmt::Result {
        let FailProof {
            model,
            from,
            to,
            count,
            limit,
        } = self.proof;
        let model = model_name(model);
        write!(f, "{model} {from} to {to} count {count} limit {limit}")
    }
}
