//! What is known of the flows of a session.

ghost use Rattle.std.specs.Prelude.{◌≡◌, All, ℕ, List, IfOk, IfSome, None};
ghost use Rattle.timing_base.specs.Shifts.{FlowOptions};
ghost use Rattle.timing_base.specs.Media.{Media as MediaValue};
ghost use Rattle.timing_base.specs.declared.packet.FlowPacket.{FlowPacket as PacketValue};
ghost use Rattle.timing_measure.specs.Each.{AllPairs};
ghost use Rattle.timing_measure.specs.page.Ends.{IsRunOf};
ghost use Rattle.timing_explain.specs.Ends.{EndsKnown, HasRunOf, IsExplainEnd, shown_alone};
ghost use Rattle.timing_explain.specs.Known.{IsKnownFlow};

use crate::details::{DetailsMeter, LongestFound};
use flow_demux::MediaFlow;
use flow_findings::{KnownFlow, ShownRun};
use flow_measure::{MeasuredRun, MeasuredRuns, NumbersMeter};
use run_meter::Pair;
use std::alloc::{AllocError as OutOfMemory, Global};
use timing_base::Verdict;
use timing_measure::flows::{FlowEnd, FlowMeter, FlowOutput};

impl FlowOutput for LongestFound {
    ghost empty = { λ out. out.found ≡ None };

    fn empty(_alloc: Global) -> Result<LongestFound, OutOfMemory> {
        Ok(LongestFound::new())
    }
}

/// Returns the judged run with this number, counted from 1.
fn run_of(runs: &[MeasuredRun], number: u64) -> Option<MeasuredRun>
    ensures some { IfSome result (IsRunOf runs.now number) }
    ensures none { result ≡ None → All (λ run. run.run ≡ number → ⊥) runs.now }
{
    for run in runs {
        if run.run == number {
            return Some(*run);
        }
    }
    None
}

/// Returns the run that is shown of a flow with these judged runs: the longest one, which has details.
fn shown_of(longest: LongestFound, runs: &[MeasuredRun]) -> Option<ShownRun>
    ensures { HasRunOf longest.found runs.now result }
{
    let found = longest.found?;
    let run = run_of(runs, found.run)?;
    Some(ShownRun {
        run,
        details: found.details,
    })
}

/// Returns the run that is shown of a flow with this verdict; `None` if the flow isn't judged.
fn shown_alone(verdict: &Verdict, shown: Option<ShownRun>) -> Option<ShownRun>
    ensures { result ≡ shown_alone verdict.now shown }
{
    match verdict {
        Verdict::Unjudged(_) => None,
        Verdict::Judged(_) | Verdict::Runs(_) => shown,
    }
}

/// Returns what is known of a flow that has ended.
fn known_flow(end: FlowEnd<(MeasuredRuns, LongestFound)>) -> KnownFlow
    ensures { (m : MediaValue) (number : ℕ) (options : FlowOptions) (packets : List PacketValue)
        → IsExplainEnd m number options packets end → IsKnownFlow m number options packets result }
{
    let FlowEnd {
        media,
        packets,
        verdict,
        out,
        ..
    } = end;
    let (measured, longest) = out;
    let found = shown_of(longest, measured.runs.as_slice());
    let shown = shown_alone(&verdict, found);
    KnownFlow {
        media,
        verdict,
        packets,
        shown,
    }
}

/// Returns what is known of flows that have ended. Returns `Err` if memory runs out.
pub fn known_flows(
    alloc: Global,
    flows: Vec<
        MediaFlow<FlowMeter<Pair<NumbersMeter, DetailsMeter>, (MeasuredRuns, LongestFound)>>,
    >,
) -> Result<Vec<KnownFlow>, OutOfMemory>
    ensures { IfOk result (λ known. AllPairs EndsKnown flows.items known.items) }
{
    let mut known = Vec::new(alloc);
    for flow in flows {
        let MediaFlow { taker, .. } = flow;
        let end = taker.finish()?;
        known.push(known_flow(end))?;
    }
    Ok(known)
}
