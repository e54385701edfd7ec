//! The intake of one file, which reads the file's packet records and sends the packets of the session's media to the
//! workers.

ghost use Rattle.std.specs.Prelude.{◌≡◌, ◌≤◌, ◌<◌, ◌+◌, ◌*◌, ◌^◌, ◌∷◌, [], ℕ, List, None, Some, Bool, IfErr, IfOk, MatchResult, if◌then◌else◌, length};
ghost use Rattle.timing_base.specs.Shifts.{FlowOptions};
ghost use Rattle.timing_base.specs.Captures.{IsStamp, Record};
ghost use Rattle.timing_base.specs.declared.capture.FileNote.{FileNote as NoteValue};
ghost use Rattle.timing_base.specs.declared.capture.FileNote.TheVariants as file_note;
ghost use Rattle.timing_base.specs.declared.capture.PcapFault.TheVariants as fault;
ghost use Rattle.timing_outside.specs.Causes.{Rose};
ghost use Rattle.pcap_reader.specs.Readers.{WillGive, under};
ghost use Rattle.pcap_reader.specs.Records.{Records};
ghost use Rattle.flow_worker.specs.Intakes.{AreOfFile, HasTold, HaveSentNothing};
ghost use Rattle.flow_worker.specs.Sending.{AreSame, BeginsFile, HasBegunFile, HasSentFile};
ghost use Rattle.flow_worker.specs.Settings.{IsIntake, setting_of};

use crate::outboxes::Outboxes;
use crate::routing::{Routing, deal, dealt_file};
use crate::setting::RunSetting;
use crate::upcoming::Upcoming;
use pcap_reader::{MOST, PcapReader, Taker, take_records};
use ruled_intake::{Halt, Lane, Raised, SendPass};
use std::alloc::{AllocError as OutOfMemory, Global};
use std::sync::Wait;
use timing_base::FileNote;
use timing_outside::{Gate, Source};

/// Result of an intake.
#[derive(Drop)]
pub struct IntakeDone<S: Source> {
    /// Source of the file.
    pub source: S,
    /// Passes of the lanes, in order.
    pub passes: Vec<SendPass>,
    /// How the packet records of the file end; `None` if memory ran out, in which case the halt was raised.
    pub note: Option<FileNote>,
}

/// Sorter of the packet records of a file. If the packet of a record belongs to a media of the session, it goes into
/// the batch for its lane.
struct Sorter<'a, R: Wait> {
    rt: &'a R,
    alloc: Global,
    routing: Routing<'a>,
    upcoming: Upcoming,
    outboxes: Outboxes<'a>,
}

impl<R: Wait> Taker for Sorter<'_, R> {
    ghost use Rattle.flow_worker.specs.Sorting.{HasRoom, LeavesOff, Sorts, leaves_before, leaves_later, room_less, sorts_more, sorts_none};

    /// Memory ran out.
    type Stop = OutOfMemory;

    ghost takes = { λ old new items. Sorts old new items };

    ghost stops = { λ old new _ items. LeavesOff old new items };

    ghost room = { λ number count s. HasRoom number count s };

    ghost none = { λ s. sorts_none s };

    ghost more = { λ x y z a b first second. sorts_more x y z a b first second };

    ghost ends = { λ x y z _ a b first second. leaves_later x y z a b first second };

    ghost halts = { λ x y _ a b left. leaves_before x y a b left };

    ghost less = { λ number few many s le room. room_less number few many s le room };

    #[inline(always)]
    fn take(&mut self, number: u64, at: u64, frame: &[u8]) -> Result<(), OutOfMemory> {
        // Most frames carry the packet that is expected in the flow with the next turn: these aren't parsed.
        if let Some(packet) = self.upcoming.take(number, at, frame) {
            let lane = self.routing.lane(&packet);
            return self.outboxes.put(self.rt, self.alloc, lane, packet);
        }
        self.take_other(number, at, frame)
    }
}

impl<R: Wait> Sorter<'_, R> {
    ghost use Rattle.flow_worker.specs.Expecting.{AreExpected};
    ghost use Rattle.flow_worker.specs.Sorting.{HasRoom, LeavesOff, Sorts};

    /// Takes a packet record, whatever its frame: parses it, and then expects the packet that follows. Returns `Err` if
    /// memory runs out.
    #[cold]
    #[inline(never)]
    fn take_other(&mut self, number: u64, at: u64, frame: &[u8]) -> Result<(), OutOfMemory>
        requires stamp { IsStamp at }
        requires room { HasRoom number 1 self.old }
        ensures room { (count : ℕ) → IfOk result (λ _. HasRoom number (count + 1) self.old
            → HasRoom (number + 1) count self.new) }
        ensures takes { IfOk result (λ _. Sorts self.old self.new
            (record { number = number; stamp = at; bytes = frame.now } ∷ [])) }
        ensures stops { IfErr result (λ _. LeavesOff self.old self.new
            (record { number = number; stamp = at; bytes = frame.now } ∷ [])) }
    {
        let Some(packet) = self.routing.packet(number, at, frame, &mut self.upcoming) else {
            return Ok(());
        };
        let lane = self.routing.lane(&packet);
        self.outboxes.put(self.rt, self.alloc, lane, packet)
    }

    /// Sends everything of a reader that hasn't returned a record: its packets, and the ends. Returns how the packet
    /// records end. Returns `Err` if memory runs out.
    fn send_file<S: Source>(&mut self, reader: &mut PcapReader<S>) -> Result<FileNote, OutOfMemory>
        requires begins { BeginsFile self.old.routing reader.old self.old.outboxes }
        requires expected { AreExpected self.old.routing.media.now self.old.upcoming }
        ensures same { AreSame self.old.outboxes self.new.outboxes }
        ensures told { (items : List Record) (end : _) → WillGive S.left reader.old items end
            → MatchResult result
            (λ note. HasSentFile self.old.routing self.new.outboxes note items end)
            (λ _. HasBegunFile self.old.routing self.new.outboxes items end) }
        ensures name { S.name (under reader.new) ≡ S.name (under reader.old) }
        ensures later { S.faults (under reader.old) ≤ S.faults (under reader.new) }
        ensures failed { IfOk result (λ note. note ≡ file_note.Refused fault.ReadFault
            → Rose (S.faults (under reader.old)) (S.faults (under reader.new))) }
    {
        let taken = take_records(reader, 0, self)?;
        self.outboxes
            .finish(self.rt, self.alloc, taken.note, taken.records)?;
        Ok(taken.note)
    }
}

/// Raises the halt since memory ran out, wakes the workers of these lanes, so that they see it, and returns the result
/// of the intake.
fn stop<'h, R: Wait, S: Source>(
    rt: &R,
    source: S,
    lanes: &'h [Lane],
    passes: Vec<SendPass>,
    halt: &'h Halt,
) -> (IntakeDone<S>, Option<Raised<'h>>)
    ensures source { result.0.source ≡ source }
    ensures passes { result.0.passes ≡ passes }
    ensures note { result.0.note ≡ None }
    ensures raised { result.1 ≡ Some (record { halt = halt.now; woken = lanes.now }) }
{
    let raised = halt.raise(rt, lanes);
    let done = IntakeDone {
        source,
        passes,
        note: None,
    };
    (done, Some(raised))
}

ghost use Rattle.flow_worker.specs.Expecting.{AreExpected};

/// Sends everything of a reader that hasn't returned a record, and returns the result of the intake.
fn take_file<'h, R: Wait, S: Source>(
    reader: PcapReader<S>,
    sorter: Sorter<'h, R>,
    halt: &'h Halt,
) -> (IntakeDone<S>, Option<Raised<'h>>)
    requires begins { BeginsFile sorter.routing reader sorter.outboxes }
    requires expected { AreExpected sorter.routing.media.now sorter.upcoming }
    ensures passes { AreOfFile sorter.entry.outboxes.file sorter.entry.outboxes.lanes.now result.0.passes.items }
    ensures told { (joined : Bool) (options : FlowOptions) (items : List Record) (end : _)
        → sorter.entry.routing.file ≡ (if joined then 0 else sorter.entry.outboxes.file)
        → WillGive S.left reader items end
        → HasTold (record { media = sorter.entry.routing.media.now; workers = sorter.entry.routing.lanes; joined = joined; options = options })
        sorter.entry.outboxes.file sorter.entry.outboxes.lanes.now
        (record { records = items; note = end }) result.0.note result.0.passes.items }
    ensures name { S.name result.0.source ≡ S.name (under reader) }
    ensures later { S.faults (under reader) ≤ S.faults result.0.source }
    ensures failed { result.0.note ≡ Some (file_note.Refused fault.ReadFault)
        → Rose (S.faults (under reader)) (S.faults result.0.source) }
    ensures halt { result.0.note ≡ None
        → result.1 ≡ Some (record { halt = halt.now; woken = sorter.entry.outboxes.lanes.now }) }
{
    let mut reader = reader;
    let mut sorter = sorter;
    let sent = sorter.send_file(&mut reader);
    let Sorter {
        rt,
        alloc: _,
        routing: _,
        upcoming: _,
        outboxes,
    } = sorter;
    let source = reader.into_source();
    let lanes = outboxes.lanes();
    let passes = outboxes.into_passes();
    match sent {
        Ok(note) => {
            let done = IntakeDone {
                source,
                passes,
                note: Some(note),
            };
            (done, None)
        }
        Err(_) => stop(rt, source, lanes, passes, halt),
    }
}

/// Reads a file, and sends each packet of a media of the session to the worker that `route` gives for the media and the
/// file, or for file 0 if the files are joined. It meets the gate as number `file` before its first read.
///
/// A batch is sent when it has 256 packets. At the end of the file the remaining packets are sent, in the order of the
/// lanes, and then an end to each lane, in the same order. If a read fails, the note is `Refused(ReadFault)`, and the
/// packets of all records before that were sent. If memory runs out, there is no note, and a first part was sent; the
/// halt is raised and the workers of all lanes were woken for it, which the second value shows.
///
/// An intake that is far ahead of a lane sleeps until the lane's worker, if it has begun, has taken some messages. If
/// the files are joined, an intake that is far ahead of its turn sleeps while the file before is being read. The caller
/// begins and ends the turn of the intake's own file.
///
/// The passes are those of the lanes, in order. The call may wait; its contract holds if it returns.
pub fn intake<'h, R: Wait, S: Source, G: Gate>(
    rt: &'h R,
    alloc: Global,
    run: &RunSetting<'h>,
    file: u32,
    source: S,
    passes: Vec<SendPass>,
    halt: &'h Halt,
    gate: &G,
) -> (IntakeDone<S>, Option<Raised<'h>>)
    requires limits { IsIntake run.now file }
    requires passes { HaveSentNothing file run.now.lanes.now passes.items }
    ensures passes { AreOfFile file run.now.lanes.now result.0.passes.items }
    ensures told { (text : List ℕ) (items : List Record) (end : NoteValue)
        → S.left source ≡ Some text → Records text (2 ^ 40) items end
        → HasTold (setting_of run.now) file run.now.lanes.now
        (record { records = items; note = end }) result.0.note result.0.passes.items }
    ensures name { S.name result.0.source ≡ S.name source }
    ensures later { S.faults source ≤ S.faults result.0.source }
    ensures failed { result.0.note ≡ Some (file_note.Refused fault.ReadFault)
        → Rose (S.faults source) (S.faults result.0.source) }
    ensures halt { result.0.note ≡ None
        → result.1 ≡ Some (record { halt = halt.now; woken = run.now.lanes.now }) }
{
    gate.meet(rt, u64::from(file));
    let outboxes = match Outboxes::new(alloc, file, run.lanes, passes, run.turn_before(file)) {
        Ok(outboxes) => outboxes,
        Err(passes) => return stop(rt, source, run.lanes, passes, halt),
    };
    let dealt_as = dealt_file(file, run.joined);
    let lane_count = run.lanes.len() as u32;
    let routing = Routing {
        media: run.media,
        file: dealt_as,
        lanes: lane_count,
        dealt: deal(dealt_as, run.media.len() as u32, lane_count),
    };
    match PcapReader::start(alloc, source, MOST) {
        Ok(reader) => {
            let sorter = Sorter {
                rt,
                alloc,
                routing,
                upcoming: Upcoming::new(),
                outboxes,
            };
            take_file(reader, sorter, halt)
        }
        Err(source) => stop(rt, source, run.lanes, outboxes.into_passes(), halt),
    }
}
