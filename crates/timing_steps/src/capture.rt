//! Reads the one capture of a job.

ghost use Rattle.std.specs.Prelude.{◌≡◌, ◌≤◌, ◌+◌, ◌^◌, ℕ, List, Some, IfOk, IfErr};
ghost use Rattle.timing_outside.specs.Causes.{Rose};
ghost use Rattle.timing_outside.specs.Shelves.{StaysAs};
ghost use Rattle.pcap_reader.specs.Taken.{TakesFew};
ghost use Rattle.pcapng_reader.specs.Classic.{classic_texts};
ghost use Rattle.timing_steps.specs.Answers.{OnReadFault};
ghost use Rattle.timing_steps.specs.Taken.{TakesText};

use crate::failure::Failure;
use crate::fetch::fetch_classic;
use crate::take::take_source;
use pcap_reader::{Taken, Taker};
use std::alloc::{AllocError as OutOfMemory, Global};
use timing_outside::Shelf;
use timing_report::Input;

/// Opens the one capture of a job, takes all its packet records, and gives its source back to the shelf.
pub fn take_capture<H: Shelf, T: Taker<Stop = OutOfMemory>>(
    alloc: Global,
    shelf: &mut H,
    name: &str,
    taker: &mut T,
) -> Result<Taken, Failure>
    requires room { T.room 1 (2 ^ 36) taker.old }
    ensures told { IfOk result (λ taken. (text : List ℕ)
        → classic_texts (H.text shelf.old) name.now ≡ Some text
        → TakesText T.takes text 0 taker.old taker.new taken) }
    ensures fed { IfOk result (λ _. TakesFew T.takes (2 ^ 36) taker.old taker.new) }
    ensures few { IfOk result (λ taken. taken.records ≤ 2 ^ 36) }
    ensures room { (count : ℕ) → IfOk result (λ taken. T.room 1 (taken.records + count) taker.old
        → T.room (taken.records + 1) count taker.new) }
    ensures cause { IfErr result (λ e. OnReadFault e (λ i. (i ≡ Input.Capture 0)
        × Rose (H.faults shelf.old name.now) (H.faults shelf.new name.now))) }
    ensures there { IfOk result (λ _. ¬ H.lacks shelf.old name.now) }
    ensures stays { StaysAs H.text H.lacks H.faults shelf.old shelf.new }
{
    match fetch_classic(alloc, shelf, name) {
        Ok(source) => take_source(alloc, shelf, source, 0, 0, taker),
        Err(fault) => Err(Failure::of_input(fault, Input::Capture(0))),
    }
}
