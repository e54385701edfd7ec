//! Takes the flows of media from the packet records of captures.

ghost use Rattle.std.specs.Prelude.{◌≡◌, ◌≤◌, ◌^◌, [], ℕ, All, List, Option, None, IfErr, IfOk, length, true};
ghost use Rattle.timing_base.specs.Shifts.{Shift as ShiftValue};
ghost use Rattle.timing_base.specs.Media.{Media as MediaValue};
ghost use Rattle.timing_outside.specs.Shelves.{StaysAs};
ghost use Rattle.pcap_reader.specs.Taken.{TakesFew};
ghost use Rattle.pcapng_reader.specs.Classic.{classic_texts};
ghost use Rattle.timing_steps.specs.Answers.{AreThere, AreTold, CaptureRose, OnReadFault};
ghost use Rattle.timing_steps.specs.Taken.{TakesTexts};
ghost use Rattle.flow_demux.specs.Awaits.{AwaitsExpected};
ghost use Rattle.timing_measure.specs.flows.Meters.{HasRoom, expected_next};
ghost use Rattle.timing_measure.specs.flows.Taken.{AreMetered, AreTakenIn, AreTakenOf};

use crate::both::Both;
use crate::flows::flow::FlowMeter;
use crate::flows::output::FlowOutput;
use flow_demux::{Demux, MediaFlow};
use pcap_reader::Taker;
use run_meter::RunMeter;
use std::alloc::{AllocError as OutOfMemory, Global};
use timing_base::{CaptureJob, FileNote, FlowOptions, Media};
use timing_outside::Shelf;
use timing_report::Input;
use timing_steps::{Failure, TakenCaptures, take_captures};

/// The flows of captures that were taken as one.
#[derive(Drop)]
pub struct TakenFlows<M: Drop, O: Drop, B: Drop> {
    /// How each capture ends, in their order.
    pub notes: Vec<FileNote>,
    /// The flow of each media, in their order.
    pub flows: Vec<MediaFlow<FlowMeter<M, O>>>,
    /// The taker that was given the same records.
    pub beside: B,
}

/// Returns the flows of these media, which count from `first` on, before the first packet record. Returns `Err` if
/// memory runs out.
fn begin_flows<M: RunMeter<Out = O>, O: FlowOutput>(
    alloc: Global,
    media: &[Media],
    first: u32,
    options: FlowOptions,
) -> Result<Vec<MediaFlow<FlowMeter<M, O>>>, OutOfMemory>
    requires few { length media.now ≤ 64 }
    requires low { first ≤ 64 }
    requires begins { (past : M.Past) (out : O) (m : MediaValue) (shift : ShiftValue) → O.empty out
        → M.tells past out m shift [] None }
    ensures stands { IfOk result (λ flows.
        AreMetered M.WANTS_LEVELS M.stands M.tells options first media.now [] flows.items) }
    ensures room { IfOk result (λ flows. All (λ f. HasRoom (2 ^ 41) f.taker) flows.items) }
    ensures awaits { IfOk result (λ flows. All (AwaitsExpected expected_next) flows.items) }
{
    let mut flows = Vec::new(alloc);
    for (number, each) in media.iter().enumerate() {
        let out = O::empty(alloc)?;
        let meter = FlowMeter::new(alloc, each, first + number as u32, options, out);
        flows.push(MediaFlow::new(each, meter))?;
    }
    Ok(flows)
}

/// Opens the captures of a job and gives their packet records to a taker, as those of one. Returns how many there were
/// and how each capture ends, and the taker. The sources go back to the shelf.
fn take_by<H: Shelf, T: Taker<Stop = OutOfMemory> + Drop>(
    alloc: Global,
    job: &CaptureJob,
    shelf: &mut H,
    mut taker: T,
) -> Result<(TakenCaptures, T), Failure>
    requires room { T.room 1 (2 ^ 40) taker }
    ensures told { IfOk result (λ taken. (texts : List (List ℕ))
        → AreTold (classic_texts (H.text shelf.old)) job.now.captures texts
        → TakesTexts T.takes texts taker taken.1 taken.0) }
    ensures fed { IfOk result (λ taken. TakesFew T.takes (2 ^ 40) taker taken.1) }
    ensures cause { IfErr result (λ e. OnReadFault e (λ i. (number : ℕ) × (i ≡ Input.Capture number)
        × CaptureRose (H.faults shelf.old) (H.faults shelf.new) job.now.captures number)) }
    ensures there { IfOk result (λ _. AreThere (H.lacks shelf.old) job.now.captures) }
    ensures stays { StaysAs H.text H.lacks H.faults shelf.old shelf.new }
{
    let taken = take_captures(alloc, shelf, job.captures.as_slice(), &mut taker)?;
    Ok((taken, taker))
}

/// Opens the captures of a job, takes the flows of these media, which count from `first` on, from the packet records of
/// all captures as one, and gives the records to `beside` too. The sources go back to the shelf.
pub fn take_flows<
    H: Shelf,
    M: RunMeter<Out = O>,
    O: FlowOutput,
    B: Taker<Stop = OutOfMemory> + Drop,
>(
    alloc: Global,
    job: &CaptureJob,
    shelf: &mut H,
    media: &[Media],
    first: u32,
    beside: B,
) -> Result<TakenFlows<M, O, B>, Failure>
    requires few { length media.now ≤ 64 }
    requires low { first ≤ 64 }
    requires begins { (past : M.Past) (out : O) (m : MediaValue) (shift : ShiftValue) → O.empty out
        → M.tells past out m shift [] None }
    requires room { B.room 1 (2 ^ 40) beside }
    ensures told { IfOk result (λ taken. (texts : List (List ℕ))
        → AreTold (classic_texts (H.text shelf.old)) job.now.captures texts
        → AreTakenIn M.WANTS_LEVELS M.stands M.tells B.takes job.now.options first media.now texts beside taken) }
    ensures some { IfOk result (AreTakenOf M.WANTS_LEVELS M.stands M.tells job.now.options first media.now) }
    ensures cause { IfErr result (λ e. OnReadFault e (λ i. (number : ℕ) × (i ≡ Input.Capture number)
        × CaptureRose (H.faults shelf.old) (H.faults shelf.new) job.now.captures number)) }
    ensures there { IfOk result (λ _. AreThere (H.lacks shelf.old) job.now.captures) }
    ensures stays { StaysAs H.text H.lacks H.faults shelf.old shelf.new }
{
    let flows = begin_flows::<M, O>(alloc, media, first, job.options)?;
    let both = Both {
        first: Demux::new(alloc, flows)?,
        second: beside,
    };
    let (taken, both) = take_by(alloc, job, shelf, both)?;
    let Both {
        first: demux,
        second: beside,
    } = both;
    Ok(TakenFlows {
        notes: taken.notes,
        flows: demux.into_flows(),
        beside,
    })
}
