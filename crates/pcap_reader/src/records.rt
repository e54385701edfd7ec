//! The loop over the packet records of a capture.

ghost use Rattle.std.specs.Prelude.{◌≡◌, ◌≢◌, ◌≤◌, ◌<◌, ◌+◌, ◌-◌, ◌*◌, ◌^◌, ℕ, List, None, Some, true, false, IfOk, IfErr, MatchOption, MatchResult, map, length};
ghost use Rattle.timing_base.specs.Captures.{Record, raised};
ghost use Rattle.timing_base.specs.declared.capture.FileNote.TheVariants as file_note;
ghost use Rattle.timing_base.specs.declared.capture.PcapFault.TheVariants as fault;
ghost use Rattle.timing_outside.specs.Causes.{Rose};
ghost use Rattle.pcap_reader.specs.Readers.{WillGive, end_note, frame_count, most_of, under};
ghost use Rattle.pcap_reader.specs.Taken.{HasBegun, HasStopped, HasTaken, TakesFew, TakesNext};

use crate::reader::PcapReader;
use crate::run::take_run;
use crate::stage::Stage;
use crate::taker::Taker;
use timing_base::{FileNote, PcapFault};
use timing_outside::Source;

/// The result of reading all packet records of a capture.
#[derive(Clone, Copy, Debug, PartialEq, Eq)]
pub struct Taken {
    /// How the records end, or that a read failed.
    pub note: FileNote,
    /// The number of records that were taken. If a read failed, these are the ones before it.
    pub records: u64,
}

impl Taken {
    /// Returns whether a read failed before the records ended.
    #[inline]
    pub fn read_failed(&self) -> bool
        ensures failed { result ≡ true → self.now.note ≡ file_note.Refused fault.ReadFault }
        ensures whole { result ≡ false → self.now.note ≢ file_note.Refused fault.ReadFault }
    {
        match self.note {
            FileNote::Refused(PcapFault::ReadFault) => true,
            FileNote::Refused(_) | FileNote::End | FileNote::Cut { .. } => false,
        }
    }
}

/// Passes the next record to the taker, with its number raised by `before`. Returns how the records
/// end if there is none, and `Err` if the taker stops.
#[inline(always)]
fn take_next<S: Source, T: Taker>(
    reader: &mut PcapReader<S>,
    before: u64,
    number: u64,
    taker: &mut T,
) -> Result<Option<FileNote>, T::Stop>
    requires fresh { end_note reader.old ≡ None }
    requires number { number ≡ frame_count reader.old + 1 }
    requires within { number ≤ 2 ^ 37 }
    requires most { most_of reader.old ≤ 2 ^ 40 }
    requires before { before ≤ 2 ^ 41 }
    requires room { number ≤ 2 ^ 36 → T.room (before + number) 1 taker.old }
    ensures told { (items : List Record) (end : _) → WillGive S.left reader.old items end
        → MatchResult result
        (λ o. TakesNext (WillGive S.left reader.new) T.takes before taker.old taker.new o items end)
        (λ stop. T.stops taker.old taker.new stop (map (raised before) items)) }
    ensures fed { IfOk result (λ _. TakesFew T.takes 1 taker.old taker.new) }
    ensures stopped { IfErr result (λ stop. HasStopped T.stops taker.old taker.new stop) }
    ensures none { IfOk result (λ o. (note : _) → o ≡ Some note → taker.new ≡ taker.old) }
    ensures room { (count : ℕ) → IfOk result (λ o. o ≡ None
        → T.room (before + number) (count + 1) taker.old → T.room (before + number + 1) count taker.new) }
    ensures fresh { IfOk result (λ o. o ≡ None → end_note reader.new ≡ None) }
    ensures number { IfOk result (λ o. MatchOption o (frame_count reader.new ≡ number)
        (λ _. frame_count reader.new + 1 ≡ number)) }
    ensures within { 16 * frame_count reader.new ≤ most_of reader.new }
    ensures most { most_of reader.new ≡ most_of reader.old }
    ensures name { S.name (under reader.new) ≡ S.name (under reader.old) }
    ensures later { S.faults (under reader.old) ≤ S.faults (under reader.new) }
    ensures failed { IfOk result (λ o. o ≡ Some (file_note.Refused fault.ReadFault)
        → Rose (S.faults (under reader.old)) (S.faults (under reader.new))) }
{
    match reader.find() {
        Ok(head) => {
            taker.take(before + number, head.at, reader.frame(head))?;
            Ok(None)
        }
        Err(note) => Ok(Some(note)),
    }
}

/// Passes the records that are completely in the buffer to the taker, with their numbers raised by
/// `before`, up to the first that is incomplete or has a fault. Reads nothing. Returns `Err` if the
/// taker stops.
#[inline(always)]
fn take_held<S: Source, T: Taker>(
    reader: &mut PcapReader<S>,
    before: u64,
    taker: &mut T,
) -> Result<(), T::Stop>
    requires most { most_of reader.old ≤ 2 ^ 40 }
    requires before { before ≤ 2 ^ 41 }
    requires room { (count : ℕ) → frame_count reader.old + count ≤ 2 ^ 36
        → T.room (before + (frame_count reader.old + 1)) count taker.old }
    ensures told { (items : List Record) (end : _) → WillGive S.left reader.old items end
        → MatchResult result
        (λ _. HasBegun (WillGive S.left reader.new) T.takes before taker.old taker.new
        (frame_count reader.new - frame_count reader.old) items end)
        (λ stop. T.stops taker.old taker.new stop (map (raised before) items)) }
    ensures fed { IfOk result (λ _. TakesFew T.takes (frame_count reader.new - frame_count reader.old)
        taker.old taker.new) }
    ensures stopped { IfErr result (λ stop. HasStopped T.stops taker.old taker.new stop) }
    ensures room { (count : ℕ) → IfOk result (λ _.
        T.room (before + (frame_count reader.old + 1))
        (frame_count reader.new - frame_count reader.old + count) taker.old
        → T.room (before + (frame_count reader.new + 1)) count taker.new) }
    ensures counts { frame_count reader.old ≤ frame_count reader.new }
    ensures within { 16 * frame_count reader.new ≤ most_of reader.new }
    ensures fresh { end_note reader.new ≡ end_note reader.old }
    ensures most { most_of reader.new ≡ most_of reader.old }
    ensures source { under reader.new ≡ under reader.old }
{
    let Stage::Records(layout) = reader.window.stage else {
        return Ok(());
    };
    let number = reader.window.count + 1;
    let run = take_run(layout, reader.window.within(), before, number, taker)?;
    reader.window.pass_records(run.records, run.size);
    Ok(())
}

/// Passes all packet records of a new reader to the taker. `before` is the number of records in the
/// captures before this one, and is added to each record's number. Returns when the records end or
/// a read of the source fails; returns `Err` if the taker stops.
pub fn take_records<S: Source, T: Taker>(
    reader: &mut PcapReader<S>,
    before: u64,
    taker: &mut T,
) -> Result<Taken, T::Stop>
    requires fresh { end_note reader.old ≡ None }
    requires first { frame_count reader.old ≡ 0 }
    requires most { most_of reader.old ≤ 2 ^ 40 }
    requires before { before ≤ 2 ^ 41 }
    requires room { T.room (before + 1) (2 ^ 36) taker.old }

    // The records that the reader still had to give determine which were taken, how they end, and
    // at which of them the taker stopped.
    ensures told { (items : List Record) (end : _) → WillGive S.left reader.old items end
        → MatchResult result
        (λ taken. HasTaken T.takes before taker.old taker.new taken.note taken.records items end)
        (λ stop. T.stops taker.old taker.new stop (map (raised before) items)) }

    // If the contents of the source aren't known, it is still guaranteed that only its records were
    // taken, and that the taker stopped at one of them.
    ensures fed { IfOk result (λ _. TakesFew T.takes (2 ^ 36) taker.old taker.new) }
    ensures stopped { IfErr result (λ stop. HasStopped T.stops taker.old taker.new stop) }
    ensures few { IfOk result (λ taken. taken.records ≤ 2 ^ 36) }
    ensures room { (count : ℕ) → IfOk result (λ taken. T.room (before + 1) (taken.records + count) taker.old
        → T.room (before + taken.records + 1) count taker.new) }
    ensures name { S.name (under reader.new) ≡ S.name (under reader.old) }
    ensures later { S.faults (under reader.old) ≤ S.faults (under reader.new) }
    ensures failed { IfOk result (λ taken. taken.note ≡ file_note.Refused fault.ReadFault
        → Rose (S.faults (under reader.old)) (S.faults (under reader.new))) }
{
    loop {
        let number = reader.window.count + 1;
        if let Some(note) = take_next(reader, before, number, taker)? {
            return Ok(Taken {
                note,
                records: reader.window.count,
            });
        }
        take_held(reader, before, taker)?;
    }
}
