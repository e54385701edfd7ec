//! Reads the captures of a page.

ghost use Rattle.std.specs.Prelude.{◌≡◌, ◌≤◌, ℕ, List, IfErr, IfOk, length};
ghost use Rattle.timing_outside.specs.Shelves.{StaysAs};
ghost use Rattle.pcapng_reader.specs.Classic.{classic_texts};
ghost use Rattle.timing_steps.specs.Answers.{AreThere, AreTold, CaptureRose, OnReadFault};
ghost use Rattle.timing_measure.specs.page.Captures.{IsPageIn, IsPageOf};

use crate::flows::take_flows;
use crate::page::shown::flow_pages;
use capture_scan::{Found, Scan};
use flow_measure::{MeasuredRuns, NumbersMeter};
use flow_page::FlowPage;
use flow_page::drawing::{DrawingMeter, LongestRun};
use run_meter::Pair;
use std::alloc::Global;
use timing_base::{CaptureJob, FileNote, Media};
use timing_outside::Shelf;
use timing_report::Input;
use timing_steps::Failure;

/// The captures of a page, after they were read as one.
#[derive(Drop)]
pub struct PageCaptures {
    /// How each capture ends, in their order.
    pub notes: Vec<FileNote>,
    /// The flow of each media, in their order.
    pub flows: Vec<FlowPage>,
    /// The result of a scan of the captures.
    pub found: Found,
}

/// Opens and reads the captures of a job as one: the flows of these media, which count from `first` on, and a scan.
pub fn read_pages<H: Shelf>(
    alloc: Global,
    job: &CaptureJob,
    shelf: &mut H,
    media: &[Media],
    first: u32,
) -> Result<PageCaptures, Failure>
    requires few { length media.now ≤ 64 }
    requires low { first ≤ 64 }
    ensures told { IfOk result (λ read. (texts : List (List ℕ))
        → AreTold (classic_texts (H.text shelf.old)) job.now.captures texts
        → IsPageIn job.now.options first media.now texts read) }
    ensures some { IfOk result (IsPageOf job.now.options first media.now) }
    ensures cause { IfErr result (λ e. OnReadFault e (λ i. (number : ℕ) × (i ≡ Input.Capture number)
        × CaptureRose (H.faults shelf.old) (H.faults shelf.new) job.now.captures number)) }
    ensures there { IfOk result (λ _. AreThere (H.lacks shelf.old) job.now.captures) }
    ensures stays { StaysAs H.text H.lacks H.faults shelf.old shelf.new }
{
    let scan = Scan::new(alloc);
    let taken = take_flows::<H, Pair<NumbersMeter, DrawingMeter>, (MeasuredRuns, LongestRun), Scan>(
        alloc, job, shelf, media, first, scan,
    )?;
    let flows = flow_pages(alloc, taken.flows)?;
    let found = taken.beside.finish(alloc)?;
    Ok(PageCaptures {
        notes: taken.notes,
        flows,
        found,
    })
}
