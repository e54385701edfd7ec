//! The parts of a page for the flows of a session.

ghost use Rattle.std.specs.Prelude.{◌≡◌, All, ℕ, List, IfOk, IfSome, None};
ghost use Rattle.timing_base.specs.Shifts.{FlowOptions};
ghost use Rattle.timing_base.specs.Media.{Media as MediaValue};
ghost use Rattle.timing_base.specs.declared.packet.FlowPacket.{FlowPacket as PacketValue};
ghost use Rattle.timing_measure.specs.Each.{AllPairs};
ghost use Rattle.timing_measure.specs.page.Shown.{IsFlowPage};
ghost use Rattle.timing_measure.specs.page.Ends.{EndsPage, HasRunOf, IsPageEnd, IsRunOf};

use crate::flows::{FlowEnd, FlowMeter};
use crate::measured::measured_flow;
use flow_demux::MediaFlow;
use flow_measure::{MeasuredRun, MeasuredRuns, NumbersMeter};
use flow_page::drawing::{DrawingMeter, LongestRun};
use flow_page::{FlowPage, ShownRun};
use run_meter::Pair;
use std::alloc::{AllocError as OutOfMemory, Global};

/// Returns the judged run with this number, counted from 1.
fn run_of(runs: &[MeasuredRun], number: u64) -> Option<MeasuredRun>
    ensures some { IfSome result (IsRunOf runs.now number) }
    ensures none { result ≡ None → All (λ run. run.run ≡ number → ⊥) runs.now }
{
    for run in runs {
        if run.run == number {
            return Some(*run);
        }
    }
    None
}

/// Returns the run that is shown of a flow with these judged runs: the longest one, which was drawn.
fn shown_of(longest: LongestRun, runs: &[MeasuredRun]) -> Option<ShownRun>
    ensures { HasRunOf longest.drawn runs.now result }
{
    let LongestRun { drawn } = longest;
    let drawn = drawn?;
    let run = run_of(runs, drawn.run)?;
    Some(drawn.shown(run))
}

/// Returns the part of a page for a flow that has ended.
fn flow_page(alloc: Global, end: FlowEnd<(MeasuredRuns, LongestRun)>) -> FlowPage
    ensures { (m : MediaValue) (number : ℕ) (options : FlowOptions) (packets : List PacketValue)
        → IsPageEnd m number options packets end → IsFlowPage m number options packets result }
{
    let FlowEnd {
        media,
        packets,
        ssrc,
        verdict,
        out,
    } = end;
    let (out, longest) = out;
    let measured = FlowEnd {
        media,
        packets,
        ssrc,
        verdict,
        out,
    };
    let flow = measured_flow(alloc, measured);
    let shown = shown_of(longest, flow.runs.as_slice());
    FlowPage { flow, shown }
}

/// Returns the parts of a page for flows that have ended. Returns `Err` if memory runs out.
pub fn flow_pages(
    alloc: Global,
    flows: Vec<MediaFlow<FlowMeter<Pair<NumbersMeter, DrawingMeter>, (MeasuredRuns, LongestRun)>>>,
) -> Result<Vec<FlowPage>, OutOfMemory>
    ensures { IfOk result (λ pages. AllPairs EndsPage flows.items pages.items) }
{
    let mut pages = Vec::new(alloc);
    for flow in flows {
        let MediaFlow { taker, .. } = flow;
        let end = taker.finish()?;
        pages.push(flow_page(alloc, end))?;
    }
    Ok(pages)
}
