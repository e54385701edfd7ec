//! The conditions of the laws on numbers: all values of the program's types meet them. Each function is a theorem: it
//! changes nothing, and its clauses are proved.

ghost use Rattle.std.specs.Option.{IfSome};
ghost use Rattle.std.specs.Prelude.{◌<◌, ◌^◌, All, map};
ghost use Rattle.flow_measure.specs.report.Told.{bins_told, flow_told, gaps_told, kind_told, numbers_told, offsets_told};
ghost use Rattle.flow_measure.specs.report.Told.{place_told, run_told};
ghost use Rattle.measure_reader.specs.Fits.{FitsBins, FitsBuffer, FitsFlow, FitsGaps, FitsNumbers, FitsOffsets};
ghost use Rattle.measure_reader.specs.Fits.{FitsPlace, FitsRun, FitsSummary, FitsToldKind};
ghost use Rattle.table_reader.specs.Fits.{IsWord};

use flow_measure::{
    Bins, Buffer, Gaps, KindNumbers, MeasuredFlow, MeasuredRun, Place, RunNumbers, Summary,
};
use offset_window::Window;
use report_reader::limits::judged_fit;

/// The numbers of a list have 64 bits.
fn words_fit(words: &[u64])
    ensures { All IsWord words.now }
{
    let _count = words.len();
}

/// The numbers of a summary have 128 bits.
pub fn summaries_fit(summary: Summary)
    ensures { FitsSummary summary }
{}

/// The numbers of a buffer are those of their types.
pub fn buffers_fit(buffer: Buffer)
    ensures { FitsBuffer buffer }
{}

/// The numbers of a place have 64 bits.
pub fn places_fit(place: Place)
    ensures { FitsPlace (place_told place) }
{}

/// The ends of a window have 32 bits.
pub fn windows_fit(window: Window)
    ensures { FitsOffsets (offsets_told window) }
{}

/// The counts of a histogram have 64 bits.
pub fn bins_fit(bins: Bins)
    ensures { FitsBins (bins_told bins) }
{
    words_fit(bins.counts());
}

/// The numbers of the times between packets are those of their types.
pub fn gaps_fit(gaps: Gaps)
    ensures { FitsGaps (gaps_told gaps) }
{
    words_fit(gaps.classes.counts());
}

/// The place of a violation, if there is one, has numbers of 64 bits.
pub fn named_fit(named: Option<Place>)
    ensures { IfSome named (λ place. FitsPlace (place_told place)) }
{}

/// The numbers of a sender type have 64 bits.
pub fn kinds_fit(kind: KindNumbers)
    ensures { FitsToldKind (kind_told kind) }
{
    bins_fit(kind.bucket);
    bins_fit(kind.buffer);
    named_fit(kind.named);
    windows_fit(kind.troff);
}

/// The numbers of the steps of the RTP timestamp, if there are some, have 128 bits.
pub fn steps_fit(step: Option<Summary>)
    ensures { IfSome step FitsSummary }
{}

/// The numbers of the times between packets, if there are some, are those of their types.
pub fn maybe_gaps_fit(gap: Option<Gaps>)
    ensures { IfSome gap (λ gaps. FitsGaps (gaps_told gaps)) }
{
    if let Some(gaps) = gap {
        gaps_fit(gaps);
    }
}

/// The numbers of a run are those of their types.
pub fn numbers_fit(numbers: RunNumbers)
    ensures { FitsNumbers (numbers_told numbers) }
{
    summaries_fit(numbers.bucket);
    buffers_fit(numbers.gapped);
    buffers_fit(numbers.linear);
    kinds_fit(numbers.kinds[0]);
    kinds_fit(numbers.kinds[1]);
    kinds_fit(numbers.kinds[2]);
    summaries_fit(numbers.first);
    summaries_fit(numbers.last);
    steps_fit(numbers.step);
    summaries_fit(numbers.offset);
    summaries_fit(numbers.latency);
    maybe_gaps_fit(numbers.gap);
}

/// The numbers of a judged run are those of their types.
pub fn runs_fit(run: MeasuredRun)
    ensures { FitsRun (run_told run) }
{
    judged_fit(run.judged);
    numbers_fit(run.numbers);
}

/// The numbers of the judged runs of a flow are those of their types.
fn all_runs_fit(runs: &[MeasuredRun])
    ensures { All FitsRun (map run_told runs.now) }
{
    for index in 0..runs.len() {
        runs_fit(runs[index]);
    }
}

/// An SSRC, if there is one, has 32 bits.
pub fn ssrcs_fit(ssrc: Option<u32>)
    ensures { IfSome ssrc (λ ssrc. ssrc < 2 ^ 32) }
{}

/// The numbers of a flow are those of their types.
pub fn flows_fit(flow: &MeasuredFlow)
    ensures { FitsFlow (flow_told flow.now) }
{
    let _media = flow.media;
    let _packets = flow.packets;
    ssrcs_fit(flow.ssrc);
    all_runs_fit(flow.runs.as_slice());
}
