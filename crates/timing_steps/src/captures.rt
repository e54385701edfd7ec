//! Takes the packet records of several captures as those of one.

ghost use Rattle.std.specs.Prelude.{◌≡◌, ◌≤◌, ◌<◌, ◌+◌, ◌-◌, ◌*◌, ◌^◌, ℕ, List, All, Some, IfOk, IfErr, length};
ghost use Rattle.timing_outside.specs.Causes.{Rose};
ghost use Rattle.timing_outside.specs.Shelves.{StaysAs};
ghost use Rattle.pcap_reader.specs.Taken.{TakesFew};
ghost use Rattle.pcapng_reader.specs.Classic.{classic_texts};
ghost use Rattle.pcapng_reader.specs.Sources.{faults_of, left_of, name_of};
ghost use Rattle.timing_steps.specs.Answers.{AreThere, AreTold, CaptureRose, OnReadFault};
ghost use Rattle.timing_steps.specs.Fetched.{AreFetched};
ghost use Rattle.timing_steps.specs.Taken.{TakesNext, TakesTexts};

use crate::failure::Failure;
use crate::fetch::{fetch_captures, give_back};
use crate::take::take_source;
use pcap_reader::Taker;
use pcapng_reader::Classic;
use std::alloc::{AllocError as OutOfMemory, Global};
use timing_base::{FileName, FileNote};
use timing_outside::{Shelf, Source};
use timing_report::Input;

/// Captures that were taken as one.
#[derive(Drop)]
pub struct TakenCaptures {
    /// How each of them ends, in their order.
    pub notes: Vec<FileNote>,
    /// The number of their packet records.
    pub records: u64,
}

/// Takes the packet records of one more capture. Its first one follows the last one of the captures before.
fn take_next<H: Shelf, T: Taker<Stop = OutOfMemory>>(
    alloc: Global,
    shelf: &mut H,
    source: Classic<H::Source>,
    taken: &mut TakenCaptures,
    taker: &mut T,
) -> Result<(), Failure>
    requires fresh { faults_of H.Source.faults source ≡ 0 }
    requires few { length taken.old.notes.items < 16 }
    requires before { taken.old.records ≤ length taken.old.notes.items * 2 ^ 36 }
    requires room { T.room (taken.old.records + 1) (2 ^ 40 - taken.old.records) taker.old }
    ensures told { IfOk result (λ _. (text : List ℕ) → left_of H.Source.left source ≡ Some text
        → TakesNext T.takes text taker.old taker.new taken.old taken.new) }
    ensures count { IfOk result (λ _. length taken.new.notes.items
        ≡ length taken.old.notes.items + 1) }
    ensures few { IfOk result (λ _. taken.new.records ≤ length taken.new.notes.items * 2 ^ 36) }
    ensures room { IfOk result (λ _. T.room (taken.new.records + 1) (2 ^ 40 - taken.new.records) taker.new) }
    ensures fed { IfOk result (λ _. TakesFew T.takes (2 ^ 36) taker.old taker.new) }
    ensures cause { IfErr result (λ e. OnReadFault e (λ i.
        (i ≡ Input.Capture (length taken.old.notes.items))
        × Rose (H.faults shelf.old (name_of H.Source.name source))
        (H.faults shelf.new (name_of H.Source.name source)))) }
    ensures stays { StaysAs H.text H.lacks H.faults shelf.old shelf.new }
{
    let number = taken.notes.len() as u32;
    let next = take_source(alloc, shelf, source, number, taken.records, taker)?;
    taken.notes.push(next.note)?;
    taken.records += next.records;
    Ok(())
}

/// Takes the packet records of these sources one after the other, as those of one capture, and gives the sources back
/// to the shelf. After one that couldn't be read the others go back unread.
///
/// Returns `ReadFault` with the number of the first source of which a read failed, and `OutOfMemory` if memory runs
/// out.
pub fn take_sources<H: Shelf, T: Taker<Stop = OutOfMemory>>(
    alloc: Global,
    shelf: &mut H,
    sources: Vec<Classic<H::Source>>,
    taker: &mut T,
) -> Result<TakenCaptures, Failure>
    requires few { length sources.items ≤ 16 }
    requires fresh { All (λ source. faults_of H.Source.faults source ≡ 0) sources.items }
    requires room { T.room 1 (2 ^ 40) taker.old }
    ensures told { IfOk result (λ taken. (names texts : List (List ℕ))
        → AreFetched (name_of H.Source.name) (left_of H.Source.left) (faults_of H.Source.faults)
        (classic_texts (H.text shelf.old)) names sources.items
        → AreTold (classic_texts (H.text shelf.old)) names texts
        → TakesTexts T.takes texts taker.old taker.new taken) }
    ensures count { IfOk result (λ taken. length taken.notes.items ≡ length sources.items) }
    ensures fed { IfOk result (λ _. TakesFew T.takes (2 ^ 40) taker.old taker.new) }
    ensures cause { (names : List (List ℕ)) → AreFetched (name_of H.Source.name) (left_of H.Source.left)
        (faults_of H.Source.faults) (classic_texts (H.text shelf.old)) names sources.items
        → IfErr result (λ e. OnReadFault e (λ i. (number : ℕ) × (i ≡ Input.Capture number)
        × CaptureRose (H.faults shelf.old) (H.faults shelf.new) names number)) }
    ensures stays { StaysAs H.text H.lacks H.faults shelf.old shelf.new }
{
    let mut taken = TakenCaptures {
        notes: Vec::new(alloc),
        records: 0,
    };
    let mut outcome = Ok(());
    for source in sources {
        outcome = match outcome {
            Ok(()) => take_next(alloc, shelf, source, &mut taken, taker),
            Err(failure) => {
                give_back(shelf, source);
                Err(failure)
            }
        };
    }
    outcome?;
    Ok(taken)
}

/// Opens the captures with these names in order, then takes the packet records of all of them as those of one capture,
/// and gives their sources back to the shelf.
///
/// Returns `ReadFault` with the number of the first capture that can't be opened, or of which a read failed, and
/// `OutOfMemory` if memory runs out.
pub fn take_captures<H: Shelf, T: Taker<Stop = OutOfMemory>>(
    alloc: Global,
    shelf: &mut H,
    names: &[FileName],
    taker: &mut T,
) -> Result<TakenCaptures, Failure>
    requires few { length names.now ≤ 16 }
    requires room { T.room 1 (2 ^ 40) taker.old }
    ensures told { IfOk result (λ taken. (texts : List (List ℕ))
        → AreTold (classic_texts (H.text shelf.old)) names.now texts
        → TakesTexts T.takes texts taker.old taker.new taken) }
    ensures count { IfOk result (λ taken. length taken.notes.items ≡ length names.now) }
    ensures fed { IfOk result (λ _. TakesFew T.takes (2 ^ 40) taker.old taker.new) }
    ensures cause { IfErr result (λ e. OnReadFault e (λ i. (number : ℕ) × (i ≡ Input.Capture number)
        × CaptureRose (H.faults shelf.old) (H.faults shelf.new) names.now number)) }
    ensures there { IfOk result (λ _. AreThere (H.lacks shelf.old) names.now) }
    ensures stays { StaysAs H.text H.lacks H.faults shelf.old shelf.new }
{
    let sources = fetch_captures(alloc, shelf, names)?;
    take_sources(alloc, shelf, sources, taker)
}
