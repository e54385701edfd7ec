//! The numbers of the flows of a session.

ghost use Rattle.std.specs.Prelude.{◌≡◌, ℕ, List, IfOk};
ghost use Rattle.timing_base.specs.Shifts.{FlowOptions};
ghost use Rattle.timing_base.specs.Media.{Media as MediaValue};
ghost use Rattle.timing_base.specs.declared.packet.FlowPacket.{FlowPacket as PacketValue};
ghost use Rattle.timing_measure.specs.Each.{AllPairs};
ghost use Rattle.timing_measure.specs.Measured.{IsMeasuredFlow};
ghost use Rattle.timing_measure.specs.flows.Ends.{EndsMeasured, IsMeasuredEnd};

use crate::flows::{FlowEnd, FlowMeter};
use flow_demux::MediaFlow;
use flow_measure::{MeasuredFlow, MeasuredRun, MeasuredRuns, NumbersMeter};
use std::alloc::{AllocError as OutOfMemory, Global};
use timing_base::{FileNote, Items, Verdict};

/// The flows of media in captures that were taken as one, and how these end.
#[derive(Drop)]
pub struct MeasuredCaptures {
    /// How each capture ends, in their order.
    pub notes: Vec<FileNote>,
    /// The flow of each media, in their order.
    pub flows: Vec<MeasuredFlow>,
}

ghost use Rattle.timing_measure.specs.flows.Ends.{judged_alone};

/// Returns the judged runs of a flow with this verdict; none if the flow isn't judged.
fn judged_runs(alloc: Global, verdict: &Verdict, measured: MeasuredRuns) -> Items<MeasuredRun>
    ensures { result ≡ judged_alone verdict.now measured.runs.items }
{
    match verdict {
        Verdict::Unjudged(_) => Items::from_vec(Vec::new(alloc)),
        Verdict::Judged(_) | Verdict::Runs(_) => Items::from_vec(measured.runs),
    }
}

/// Returns the numbers of a flow that has ended.
pub fn measured_flow(alloc: Global, end: FlowEnd<MeasuredRuns>) -> MeasuredFlow
    ensures { (m : MediaValue) (number : ℕ) (options : FlowOptions) (packets : List PacketValue)
        → IsMeasuredEnd m number options packets end → IsMeasuredFlow m number options packets result }
{
    let FlowEnd {
        media,
        packets,
        ssrc,
        verdict,
        out,
    } = end;
    let runs = judged_runs(alloc, &verdict, out);
    MeasuredFlow {
        media,
        packets,
        ssrc,
        verdict,
        runs,
    }
}

/// Returns the numbers of flows that have ended. Returns `Err` if memory runs out.
pub fn measured_flows(
    alloc: Global,
    flows: Vec<MediaFlow<FlowMeter<NumbersMeter, MeasuredRuns>>>,
) -> Result<Vec<MeasuredFlow>, OutOfMemory>
    ensures { IfOk result (λ measured. AllPairs EndsMeasured flows.items measured.items) }
{
    let mut measured = Vec::new(alloc);
    for flow in flows {
        let MediaFlow { taker, .. } = flow;
        let end = taker.finish()?;
        measured.push(measured_flow(alloc, end))?;
    }
    Ok(measured)
}
