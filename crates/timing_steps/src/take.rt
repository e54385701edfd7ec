//! Takes the packet records of a capture from its source.

ghost use Rattle.std.specs.Prelude.{◌≡◌, ◌≢◌, ◌≤◌, ◌+◌, ◌^◌, ℕ, List, Some, IfOk, IfErr};
ghost use Rattle.timing_base.specs.declared.capture.FileNote.TheVariants as file_note;
ghost use Rattle.timing_base.specs.declared.capture.PcapFault.TheVariants as fault;
ghost use Rattle.timing_outside.specs.Causes.{Rose};
ghost use Rattle.timing_outside.specs.Shelves.{StaysAs};
ghost use Rattle.pcap_reader.specs.Taken.{TakesFew};
ghost use Rattle.pcapng_reader.specs.Sources.{faults_of, left_of, name_of};
ghost use Rattle.timing_steps.specs.Answers.{OnReadFault};
ghost use Rattle.timing_steps.specs.Taken.{TakesText};

use crate::failure::Failure;
use crate::fetch::give_back;
use pcap_reader::{MOST, PcapReader, Taken, Taker, take_records};
use pcapng_reader::Classic;
use std::alloc::{AllocError as OutOfMemory, Global};
use timing_outside::{Shelf, Source};
use timing_report::Input;

/// Takes the packet records of a capture, with `before` added to their numbers, and gives the source back to the shelf.
/// `number` is the number of the capture, from 0.
///
/// Returns `ReadFault` with that number if a read failed, and `OutOfMemory` if memory runs out.
pub fn take_source<H: Shelf, T: Taker<Stop = OutOfMemory>>(
    alloc: Global,
    shelf: &mut H,
    source: Classic<H::Source>,
    number: u32,
    before: u64,
    taker: &mut T,
) -> Result<Taken, Failure>
    requires fresh { faults_of H.Source.faults source ≡ 0 }
    requires before { before ≤ 2 ^ 41 }
    requires room { T.room (before + 1) (2 ^ 36) taker.old }
    ensures told { IfOk result (λ taken. (text : List ℕ) → left_of H.Source.left source ≡ Some text
        → TakesText T.takes text before taker.old taker.new taken) }
    ensures fed { IfOk result (λ _. TakesFew T.takes (2 ^ 36) taker.old taker.new) }
    ensures read { IfOk result (λ taken. taken.note ≢ file_note.Refused fault.ReadFault) }
    ensures few { IfOk result (λ taken. taken.records ≤ 2 ^ 36) }
    ensures room { (count : ℕ) → IfOk result (λ taken.
        T.room (before + 1) (taken.records + count) taker.old
        → T.room (before + taken.records + 1) count taker.new) }
    ensures cause { IfErr result (λ e. OnReadFault e (λ i. (i ≡ Input.Capture number)
        × Rose (H.faults shelf.old (name_of H.Source.name source))
        (H.faults shelf.new (name_of H.Source.name source)))) }
    ensures stays { StaysAs H.text H.lacks H.faults shelf.old shelf.new }
{
    match PcapReader::start(alloc, source, MOST) {
        Ok(mut reader) => {
            let taken = take_records(&mut reader, before, taker);
            give_back(shelf, reader.into_source());
            match taken {
                Ok(taken) => {
                    if taken.read_failed() {
                        Err(Failure::ReadFault(Input::Capture(number)))
                    } else {
                        Ok(taken)
                    }
                }
                Err(_) => Err(Failure::OutOfMemory),
            }
        }
        Err(source) => {
            give_back(shelf, source);
            Err(Failure::OutOfMemory)
        }
    }
}
