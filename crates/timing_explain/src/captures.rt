//! Reads the captures of a job.

ghost use Rattle.std.specs.Prelude.{◌≡◌, ◌≤◌, ℕ, List, IfErr, IfOk, length};
ghost use Rattle.timing_outside.specs.Shelves.{StaysAs};
ghost use Rattle.pcapng_reader.specs.Classic.{classic_texts};
ghost use Rattle.timing_steps.specs.Answers.{AreThere, AreTold, CaptureRose, OnReadFault};
ghost use Rattle.timing_explain.specs.Captures.{IsExplainIn, IsExplainOf, known_of};

use crate::details::{DetailsMeter, LongestFound};
use crate::flows::known_flows;
use crate::micros::Microseconds;
use capture_scan::{Found, Scan};
use flow_findings::{KnownCaptures, KnownFlow};
use flow_measure::{MeasuredRuns, NumbersMeter};
use run_meter::Pair;
use std::alloc::Global;
use timing_base::{CaptureJob, FileNote, Items, Media};
use timing_measure::both::Both;
use timing_measure::flows::take_flows;
use timing_outside::Shelf;
use timing_report::Input;
use timing_steps::Failure;

/// The captures of a job, after they were read as one.
#[derive(Drop)]
pub struct ExplainCaptures {
    /// How each capture ends, in their order.
    pub notes: Vec<FileNote>,
    /// What is known of the flow of each media, in their order.
    pub flows: Vec<KnownFlow>,
    /// What is known of the captures as a whole.
    pub known: KnownCaptures,
}

/// Returns what is known of captures with this result of a scan. `seq16` is whether the packets of their flows are
/// numbered by their 16-bit sequence numbers alone.
fn known_of(found: Found, micros: Microseconds, seq16: bool) -> KnownCaptures
    ensures { result ≡ known_of found micros seq16 }
{
    let Found {
        records,
        passed_over,
        streams,
        ..
    } = found;
    KnownCaptures {
        records,
        passed_over,
        streams: Items::from_vec(streams),
        whole_microseconds: micros.whole,
        seq16,
    }
}

/// Returns whether the packets of the flows are numbered by their 16-bit sequence numbers alone.
fn seq16_of(job: &CaptureJob) -> bool
    ensures { result ≡ job.now.options.seq16 }
{
    job.options.seq16
}

/// Opens and reads the captures of a job as one: the flows of these media, which count from `first` on, a scan, and
/// whether all timestamps are whole microseconds.
pub fn read_captures<H: Shelf>(
    alloc: Global,
    job: &CaptureJob,
    shelf: &mut H,
    media: &[Media],
    first: u32,
) -> Result<ExplainCaptures, Failure>
    requires few { length media.now ≤ 64 }
    requires low { first ≤ 64 }
    ensures told { IfOk result (λ read. (texts : List (List ℕ))
        → AreTold (classic_texts (H.text shelf.old)) job.now.captures texts
        → IsExplainIn job.now.options first media.now texts read) }
    ensures some { IfOk result (IsExplainOf job.now.options first media.now) }
    ensures cause { IfErr result (λ e. OnReadFault e (λ i. (number : ℕ) × (i ≡ Input.Capture number)
        × CaptureRose (H.faults shelf.old) (H.faults shelf.new) job.now.captures number)) }
    ensures there { IfOk result (λ _. AreThere (H.lacks shelf.old) job.now.captures) }
    ensures stays { StaysAs H.text H.lacks H.faults shelf.old shelf.new }
{
    let beside = Both {
        first: Scan::new(alloc),
        second: Microseconds::new(),
    };
    let taken = take_flows::<
        H,
        Pair<NumbersMeter, DetailsMeter>,
        (MeasuredRuns, LongestFound),
        Both<Scan, Microseconds>,
    >(alloc, job, shelf, media, first, beside)?;
    let flows = known_flows(alloc, taken.flows)?;
    let Both {
        first: scan,
        second: micros,
    } = taken.beside;
    let found = scan.finish(alloc)?;
    Ok(ExplainCaptures {
        notes: taken.notes,
        flows,
        known: known_of(found, micros, seq16_of(job)),
    })
}
