//! Takes the packets of a media's flow from the packet records of captures, in order. Each frame is parsed at most
//! once.

ghost use Rattle.std.specs.Prelude.{◌≡◌, ◌≤◌, ◌^◌, ℕ, List, IfErr, IfOk, length};
ghost use Rattle.timing_outside.specs.Shelves.{StaysAs};
ghost use Rattle.pcap_reader.specs.Taken.{TakesFew};
ghost use Rattle.pcapng_reader.specs.Classic.{classic_texts};
ghost use Rattle.timing_steps.specs.Answers.{AreThere, AreTold, CaptureRose, OnReadFault};
ghost use Rattle.timing_reach.specs.judged.Flows.{TakesIn};

use flow_demux::{FlowTaker, MediaFlow};
use std::alloc::Global;
use timing_base::{FileName, Media};
use timing_outside::Shelf;
use timing_report::Input;
use timing_steps::{Failure, take_captures};

/// Opens the captures of a job, gives the taker the flow of a media in all of them as one, and gives their sources back
/// to the shelf.
pub fn take_flow<H: Shelf, F: FlowTaker>(
    alloc: Global,
    shelf: &mut H,
    names: &[FileName],
    media: &Media,
    taker: F,
) -> Result<F, Failure>
    requires few { length names.now ≤ 16 }
    requires room { F.room (2 ^ 40) taker }
    ensures told { IfOk result (λ taken. (texts : List (List ℕ))
        → AreTold (classic_texts (H.text shelf.old)) names.now texts
        → TakesIn (F.takes media.now) texts taker taken) }
    ensures fed { IfOk result (λ taken. TakesFew (F.takes media.now) (2 ^ 40) taker taken) }
    ensures cause { IfErr result (λ e. OnReadFault e (λ i. (number : ℕ) × (i ≡ Input.Capture number)
        × CaptureRose (H.faults shelf.old) (H.faults shelf.new) names.now number)) }
    ensures there { IfOk result (λ _. AreThere (H.lacks shelf.old) names.now) }
    ensures stays { StaysAs H.text H.lacks H.faults shelf.old shelf.new }
{
    let mut flow = MediaFlow::new(media, taker);
    take_captures(alloc, shelf, names, &mut flow)?;
    let MediaFlow { taker, .. } = flow;
    Ok(taker)
}
