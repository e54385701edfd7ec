//! Reads the packet records of captures while text that is made of them is written.

ghost use Rattle.std.specs.Prelude.{◌≡◌, ◌≤◌, ◌<◌, ◌+◌, ◌-◌, ◌*◌, ◌^◌, ℕ, List, All, None, Some, IfErr, IfOk, length, map};
ghost use Rattle.timing_base.specs.Captures.{Record, joined, raised};
ghost use Rattle.timing_base.specs.declared.capture.FileNote.{FileNote as NoteValue};
ghost use Rattle.timing_base.specs.declared.capture.FileNote.TheVariants as file_note;
ghost use Rattle.timing_base.specs.declared.capture.PcapFault.TheVariants as fault;
ghost use Rattle.timing_outside.specs.Causes.{Rose};
ghost use Rattle.timing_outside.specs.Shelves.{StaysAs};
ghost use Rattle.pcap_reader.specs.Readers.{WillGive, end_note, frame_count, most_of, under};
ghost use Rattle.pcap_reader.specs.Records.{AreRecords, Records};
ghost use Rattle.pcap_reader.specs.Taken.{HasTaken};
ghost use Rattle.pcapng_reader.specs.Classic.{classic_texts};
ghost use Rattle.pcapng_reader.specs.Sources.{faults_of, left_of, name_of};
ghost use Rattle.timing_steps.specs.Answers.{AreThere, AreTold, CaptureRose};
ghost use Rattle.timing_steps.specs.Fetched.{AreFetched};
ghost use Rattle.timing_steps.specs.Ran.{Appended, output_of};
ghost use Rattle.timing_steps.specs.Streams.{OnFailure};
ghost use Rattle.timing_steps.specs.Taken.{TakesNext, TakesText, TakesTexts};
ghost use Rattle.timing_steps.specs.Printings.{Copies, CopiesSome, Stopped, StopsAt};

use crate::captures::TakenCaptures;
use crate::failure::Failure;
use crate::fetch::{fetch_captures, give_back};
use crate::printer::Printer;
use pcap_reader::{MOST, PcapReader, Step, Taken};
use pcapng_reader::Classic;
use std::alloc::Global;
use timing_base::{FileName, FileNote};
use timing_outside::{Shelf, Sink, Source};
use timing_report::Input;

/// Takes the packet records of a reader from its start, with `before` added to their numbers, and prints the text that is made of them.
/// Returns how many there are and how they end, also if a read failed. Returns `Err` if memory runs out or a write
/// fails.
fn print_records<S: Source, K: Sink, P: Printer>(
    reader: &mut PcapReader<S>,
    before: u64,
    printer: &mut P,
    out: &mut K,
) -> Result<Taken, Failure>
    requires fresh { end_note reader.old ≡ None }
    requires first { frame_count reader.old ≡ 0 }
    requires most { most_of reader.old ≤ 2 ^ 40 }
    requires before { before ≤ 2 ^ 41 }
    requires room { P.room (2 ^ 36 + 1) printer.old }
    ensures told { IfOk result (λ taken. (items : List Record) (end : _)
        → WillGive S.left reader.old items end
        → HasTaken (Copies P.goes_on (output_of K.Sink out.old out.new)) before printer.old printer.new taken.note taken.records
        items end) }
    ensures some { IfOk result (λ _. CopiesSome P.goes_on (output_of K.Sink out.old out.new)
        printer.old printer.new) }
    ensures few { IfOk result (λ taken. taken.records ≤ 2 ^ 36) }
    ensures room { (count : ℕ) → IfOk result (λ taken. P.room (taken.records + count) printer.old
        → P.room count printer.new) }
    ensures stopped { IfErr result (λ e. (items : List Record) (end : _)
        → WillGive S.left reader.old items end
        → Stopped P.goes_on P.holds P.text (output_of K.Sink out.old out.new) printer.old (map (raised before) items)) }
    ensures front { IfErr result (λ _. (front : List ℕ)
        × Appended (output_of K.Sink out.old out.new) front) }
    ensures cause { IfErr result (λ e. StopsAt (output_of K.Sink out.old out.new) e) }
    ensures later { K.faults out.old ≤ K.faults out.new }
    ensures name { S.name (under reader.new) ≡ S.name (under reader.old) }
    ensures later_source { S.faults (under reader.old) ≤ S.faults (under reader.new) }
    ensures failed { IfOk result (λ taken. taken.note ≡ file_note.Refused fault.ReadFault
        → Rose (S.faults (under reader.old)) (S.faults (under reader.new))) }
{
    let mut records = 0;
    loop {
        match reader.next() {
            Ok(Step::Frame { at, bytes }) => {
                records += 1;
                printer.take(before + records, at, bytes)?;
            }
            Ok(Step::End) => {
                return Ok(Taken {
                    note: FileNote::End,
                    records,
                });
            }
            Ok(Step::Cut { at }) => {
                return Ok(Taken {
                    note: FileNote::Cut { at },
                    records,
                });
            }
            Err(fault) => {
                return Ok(Taken {
                    note: FileNote::Refused(fault),
                    records,
                });
            }
        }
        printer.print(out)?;
    }
}

/// Takes the packet records of a capture, with `before` added to their numbers, prints the text that is made of them, and gives the source
/// back to the shelf. `number` is the number of the capture, from 0.
fn print_source<H: Shelf, K: Sink, P: Printer>(
    alloc: Global,
    shelf: &mut H,
    source: Classic<H::Source>,
    number: u32,
    before: u64,
    printer: &mut P,
    out: &mut K,
) -> Result<Taken, Failure>
    requires fresh { faults_of H.Source.faults source ≡ 0 }
    requires before { before ≤ 2 ^ 41 }
    requires room { P.room (2 ^ 36 + 1) printer.old }
    ensures told { IfOk result (λ taken. (text : List ℕ) → left_of H.Source.left source ≡ Some text
        → TakesText (Copies P.goes_on (output_of K.Sink out.old out.new)) text before printer.old printer.new taken) }
    ensures some { IfOk result (λ _. CopiesSome P.goes_on (output_of K.Sink out.old out.new)
        printer.old printer.new) }
    ensures few { IfOk result (λ taken. taken.records ≤ 2 ^ 36) }
    ensures room { (count : ℕ) → IfOk result (λ taken. P.room (taken.records + count) printer.old
        → P.room count printer.new) }
    ensures stopped { IfErr result (λ _. (text : List ℕ) (items : List Record) (end : NoteValue)
        → left_of H.Source.left source ≡ Some text → Records text (2 ^ 40) items end
        → Stopped P.goes_on P.holds P.text (output_of K.Sink out.old out.new) printer.old (map (raised before) items)) }
    ensures front { IfErr result (λ _. (front : List ℕ)
        × Appended (output_of K.Sink out.old out.new) front) }
    ensures cause { IfErr result (λ e. OnFailure (output_of K.Sink out.old out.new) e (λ i.
        (i ≡ Input.Capture number) × Rose (H.faults shelf.old (name_of H.Source.name source))
        (H.faults shelf.new (name_of H.Source.name source)))) }
    ensures later { K.faults out.old ≤ K.faults out.new }
    ensures stays { StaysAs H.text H.lacks H.faults shelf.old shelf.new }
{
    match PcapReader::start(alloc, source, MOST) {
        Ok(mut reader) => {
            let printed = print_records(&mut reader, before, printer, out);
            give_back(shelf, reader.into_source());
            match printed {
                Ok(taken) => {
                    if taken.read_failed() {
                        Err(Failure::ReadFault(Input::Capture(number)))
                    } else {
                        Ok(taken)
                    }
                }
                Err(failure) => Err(failure),
            }
        }
        Err(source) => {
            give_back(shelf, source);
            Err(Failure::OutOfMemory)
        }
    }
}

/// Takes the packet records of one more capture, and prints the text that is made of them. Its first packet record follows the last one of
/// the captures before.
fn print_next<H: Shelf, K: Sink, P: Printer>(
    alloc: Global,
    shelf: &mut H,
    source: Classic<H::Source>,
    done: &mut TakenCaptures,
    printer: &mut P,
    out: &mut K,
) -> Result<(), Failure>
    requires fresh { faults_of H.Source.faults source ≡ 0 }
    requires few { length done.old.notes.items < 16 }
    requires before { done.old.records ≤ length done.old.notes.items * 2 ^ 36 }
    requires room { P.room (2 ^ 41 - done.old.records) printer.old }
    ensures told { IfOk result (λ _. (text : List ℕ) → left_of H.Source.left source ≡ Some text
        → TakesNext (Copies P.goes_on (output_of K.Sink out.old out.new)) text printer.old printer.new done.old done.new) }
    ensures some { IfOk result (λ _. CopiesSome P.goes_on (output_of K.Sink out.old out.new)
        printer.old printer.new) }
    ensures count { IfOk result (λ _. length done.new.notes.items ≡ length done.old.notes.items + 1) }
    ensures few { IfOk result (λ _. done.new.records ≤ length done.new.notes.items * 2 ^ 36) }
    ensures room { IfOk result (λ _. P.room (2 ^ 41 - done.new.records) printer.new) }
    ensures stopped { IfErr result (λ _. (text : List ℕ) (items : List Record) (end : NoteValue)
        → left_of H.Source.left source ≡ Some text → Records text (2 ^ 40) items end
        → Stopped P.goes_on P.holds P.text (output_of K.Sink out.old out.new) printer.old (map (raised done.old.records) items)) }
    ensures front { IfErr result (λ _. (front : List ℕ)
        × Appended (output_of K.Sink out.old out.new) front) }
    ensures cause { IfErr result (λ e. OnFailure (output_of K.Sink out.old out.new) e (λ i.
        (i ≡ Input.Capture (length done.old.notes.items))
        × Rose (H.faults shelf.old (name_of H.Source.name source))
        (H.faults shelf.new (name_of H.Source.name source)))) }
    ensures later { K.faults out.old ≤ K.faults out.new }
    ensures stays { StaysAs H.text H.lacks H.faults shelf.old shelf.new }
{
    let number = done.notes.len() as u32;
    let taken = print_source(alloc, shelf, source, number, done.records, printer, out)?;
    done.notes.push(taken.note)?;
    done.records += taken.records;
    Ok(())
}

/// Takes the packet records of these sources one after the other, as those of one capture, prints the text that is made of them, and gives
/// the sources back to the shelf. After one that couldn't be read, or of which a text couldn't be written, the others go
/// back unread.
fn print_sources<H: Shelf, K: Sink, P: Printer>(
    alloc: Global,
    shelf: &mut H,
    sources: Vec<Classic<H::Source>>,
    printer: &mut P,
    out: &mut K,
) -> Result<TakenCaptures, Failure>
    requires few { length sources.items ≤ 16 }
    requires fresh { All (λ source. faults_of H.Source.faults source ≡ 0) sources.items }
    requires room { P.room (2 ^ 41) printer.old }
    ensures told { IfOk result (λ taken. (names texts : List (List ℕ))
        → AreFetched (name_of H.Source.name) (left_of H.Source.left) (faults_of H.Source.faults)
        (classic_texts (H.text shelf.old)) names sources.items
        → AreTold (classic_texts (H.text shelf.old)) names texts
        → TakesTexts (Copies P.goes_on (output_of K.Sink out.old out.new)) texts printer.old printer.new taken) }
    ensures some { IfOk result (λ _. CopiesSome P.goes_on (output_of K.Sink out.old out.new)
        printer.old printer.new) }
    ensures stopped { IfErr result (λ _. (names texts : List (List ℕ)) (files : List (List Record))
        (notes : List NoteValue)
        → AreFetched (name_of H.Source.name) (left_of H.Source.left) (faults_of H.Source.faults)
        (classic_texts (H.text shelf.old)) names sources.items
        → AreTold (classic_texts (H.text shelf.old)) names texts → AreRecords texts files notes
        → Stopped P.goes_on P.holds P.text (output_of K.Sink out.old out.new) printer.old (joined files)) }
    ensures front { IfErr result (λ _. (front : List ℕ)
        × Appended (output_of K.Sink out.old out.new) front) }
    ensures cause { (names : List (List ℕ)) → AreFetched (name_of H.Source.name) (left_of H.Source.left)
        (faults_of H.Source.faults) (classic_texts (H.text shelf.old)) names sources.items
        → IfErr result (λ e. OnFailure (output_of K.Sink out.old out.new) e (λ i. (number : ℕ)
        × (i ≡ Input.Capture number) × CaptureRose (H.faults shelf.old) (H.faults shelf.new) names number)) }
    ensures later { K.faults out.old ≤ K.faults out.new }
    ensures stays { StaysAs H.text H.lacks H.faults shelf.old shelf.new }
{
    let mut done = TakenCaptures {
        notes: Vec::new(alloc),
        records: 0,
    };
    let mut outcome = Ok(());
    for source in sources {
        outcome = match outcome {
            Ok(()) => print_next(alloc, shelf, source, &mut done, printer, out),
            Err(failure) => {
                give_back(shelf, source);
                Err(failure)
            }
        };
    }
    outcome?;
    Ok(done)
}

/// Opens the captures with these names in order, reads them as one, prints the text that is made of them, and gives their sources back to
/// the shelf. Returns how each capture ends.
///
/// Returns `ReadFault` with the number of the first capture that can't be opened, or of which a read failed, and `Err`
/// if memory runs out or a write fails.
pub fn print_captures<H: Shelf, K: Sink, P: Printer>(
    alloc: Global,
    shelf: &mut H,
    names: &[FileName],
    printer: &mut P,
    out: &mut K,
) -> Result<TakenCaptures, Failure>
    requires few { length names.now ≤ 16 }
    requires room { P.room (2 ^ 41) printer.old }
    ensures told { IfOk result (λ taken. (texts : List (List ℕ))
        → AreTold (classic_texts (H.text shelf.old)) names.now texts
        → TakesTexts (Copies P.goes_on (output_of K.Sink out.old out.new)) texts printer.old printer.new taken) }
    ensures some { IfOk result (λ _. CopiesSome P.goes_on (output_of K.Sink out.old out.new)
        printer.old printer.new) }
    ensures there { IfOk result (λ _. AreThere (H.lacks shelf.old) names.now) }
    ensures stopped { IfErr result (λ _. (texts : List (List ℕ)) (files : List (List Record)) (notes : List NoteValue)
        → AreTold (classic_texts (H.text shelf.old)) names.now texts → AreRecords texts files notes
        → Stopped P.goes_on P.holds P.text (output_of K.Sink out.old out.new) printer.old (joined files)) }
    ensures front { IfErr result (λ _. (front : List ℕ)
        × Appended (output_of K.Sink out.old out.new) front) }
    ensures cause { IfErr result (λ e. OnFailure (output_of K.Sink out.old out.new) e (λ i. (number : ℕ)
        × (i ≡ Input.Capture number) × CaptureRose (H.faults shelf.old) (H.faults shelf.new) names.now number)) }
    ensures later { K.faults out.old ≤ K.faults out.new }
    ensures stays { StaysAs H.text H.lacks H.faults shelf.old shelf.new }
{
    let sources = fetch_captures(alloc, shelf, names)?;
    print_sources(alloc, shelf, sources, printer, out)
}
