//! The lanes of a run, as the intake of one file sends to them.

ghost use Rattle.std.specs.Prelude.{◌≡◌, ◌≤◌, ◌<◌, ◌+◌, ◌^◌, ◌++◌, ◌∷◌, [], ℕ, IfOk, IfErr, MatchResult, OnErr, OnOk, length, slice_index_or};
ghost use Rattle.ruled_intake.specs.Lanes.{IsWithin, packets as packets_sent, sent_of};
ghost use Rattle.flow_worker.specs.Intakes.{HaveSent, HaveSentNothing};
ghost use Rattle.flow_worker.specs.Messages.{IsPrefix, batch, ending};

use crate::open_batch::OpenBatch;
use ruled_intake::{Batch, FileEnd, Lane, Message, Packet, SendPass, Turn};
use std::alloc::{AllocError as OutOfMemory, Global};
use std::sync::Wait;
use timing_base::{FileNote, Items};

/// Number of batches that are sent before the turn of a file. Workers hold them until the files before have ended.
const AHEAD_OF_TURN: u64 = 64;

/// Passes of a file for the lanes, and the batch that is being filled for each lane.
#[derive(Drop)]
pub struct Outboxes<'a> {
    /// File, counted from 0.
    file: u32,
    lanes: &'a [Lane],
    passes: Vec<SendPass>,
    batches: Vec<OpenBatch>,
    /// Turn of the file that is judged before, if files are joined.
    before: Option<&'a Turn>,
    /// Number of batches sent to all lanes.
    batches_sent: u64,
}

/// Returns `count` batches without packets. Returns `Err` if memory runs out.
fn open_batches(alloc: Global, count: usize) -> Result<Vec<OpenBatch>, OutOfMemory>
    ensures { IfOk result (λ batches. (length batches.items ≡ count)
        × ((w : ℕ) → slice_index_or batches.items w [] ≡ [])) }
{
    let mut batches = Vec::with_capacity(alloc, count)?;
    'lanes: for _ in 0..count {
        batches.push(OpenBatch::new(alloc)?)?;
    }
    Ok(batches)
}

impl<'a> Outboxes<'a> {
    ghost use Rattle.flow_worker.specs.Sending.{AreOutboxes, AreSame, HaveAllFew, HaveFew, Puts, Sends, SendsRest, Stays, open_for, sent_to, with_end, with_rest};

    /// Returns outboxes with a batch without packets for each lane. Returns `Err` with the passes if memory runs out.
    pub fn new(
        alloc: Global,
        file: u32,
        lanes: &'a [Lane],
        passes: Vec<SendPass>,
        before: Option<&'a Turn>,
    ) -> Result<Outboxes<'a>, Vec<SendPass>>
        requires { HaveSentNothing file lanes.now passes.items }
        ensures are { IfOk result AreOutboxes }
        ensures lanes { IfOk result (λ o. o.lanes.now ≡ lanes.now) }
        ensures file { IfOk result (λ o. o.file ≡ file) }
        ensures passes { IfOk result (λ o. o.passes ≡ passes) }
        ensures sent { IfOk result (λ o. (w : ℕ) → w < length lanes.now → sent_to o w ≡ []) }
        ensures batches { IfOk result (λ o. (w : ℕ) → open_for o w ≡ []) }
        ensures back { IfErr result (λ back. back ≡ passes) }
    {
        match open_batches(alloc, lanes.len()) {
            Ok(batches) => Ok(Outboxes {
                file,
                lanes,
                passes,
                batches,
                before,
                batches_sent: 0,
            }),
            Err(_) => Err(passes),
        }
    }

    /// Returns the lanes.
    pub fn lanes(&self) -> &'a [Lane]
        ensures { result.now ≡ self.now.lanes.now }
    {
        self.lanes
    }

    /// Returns the passes, in the order of the lanes.
    pub fn into_passes(self) -> Vec<SendPass>
        ensures { result ≡ self.entry.passes }
    {
        let Outboxes {
            file: _,
            lanes: _,
            passes,
            batches: _,
            before: _,
            batches_sent: _,
        } = self;
        passes
    }

    /// Sends a message to a lane. Returns `Err` if memory runs out; nothing was sent then.
    fn send<R: Wait>(&mut self, rt: &R, lane: usize, message: Message) -> Result<(), OutOfMemory>
        requires are { AreOutboxes self.old }
        requires lane { lane < length self.old.lanes.now }
        requires few { IsWithin (2 ^ 37) (sent_to self.old lane ++ message ∷ []) }
        ensures { MatchResult result (λ _. Sends self.old self.new lane message)
            (λ _. Stays self.old self.new) }
    {
        match self.lanes[lane].send(rt, &mut self.passes[lane], message) {
            Ok(()) => Ok(()),
            Err(_) => Err(OutOfMemory),
        }
    }

    /// Waits for the end of the file before, if this file is far ahead of its turn.
    fn wait_for_turn<R: Wait>(&self, rt: &R) {
        if self.batches_sent < AHEAD_OF_TURN {
            return;
        }
        if let Some(turn) = self.before {
            turn.wait_for_end(rt);
        }
    }

    /// Sends a batch to a lane. Then it waits if the lane's worker is far behind, or the file is far ahead of its turn.
    /// Returns `Err` if memory runs out; nothing was sent then.
    fn send_batch<R: Wait>(
        &mut self,
        rt: &R,
        lane: usize,
        packets: Items<Packet>,
    ) -> Result<(), OutOfMemory>
        requires are { AreOutboxes self.old }
        requires lane { lane < length self.old.lanes.now }
        requires some { 1 ≤ length packets }
        requires most { length packets ≤ 256 }
        requires few_messages { length (sent_to self.old lane) + 1 ≤ 2 ^ 37 }
        requires few_packets { packets_sent (sent_to self.old lane) + length packets ≤ 2 ^ 37 }
        ensures { MatchResult result (λ _. Sends self.old self.new lane (batch self.old.file packets))
            (λ _. Stays self.old self.new) }
    {
        let file = self.file;
        self.send(rt, lane, Message::Batch(Batch { file, packets }))?;
        self.lanes[lane].wait_for_room(rt, &mut self.passes[lane]);
        self.batches_sent = self.batches_sent.saturating_add(1);
        self.wait_for_turn(rt);
        Ok(())
    }

    /// Puts a packet into the batch for a lane, and sends the batch if that fills it. Returns `Err` if memory runs out;
    /// nothing was sent then.
    #[inline(always)]
    pub fn put<R: Wait>(
        &mut self,
        rt: &R,
        alloc: Global,
        lane: usize,
        packet: Packet,
    ) -> Result<(), OutOfMemory>
        requires are { AreOutboxes self.old }
        requires lane { lane < length self.old.lanes.now }
        requires few { HaveFew (2 ^ 36) self.old lane }
        ensures { MatchResult result (λ _. Puts self.old self.new lane packet)
            (λ _. Stays self.old self.new) }
    {
        match self.batches[lane].put(alloc, packet)? {
            Some(packets) => self.send_batch(rt, lane, packets),
            None => Ok(()),
        }
    }

    /// Sends the packets that don't fill a batch to a lane, if there are any. Returns `Err` if memory runs out; nothing
    /// was sent then.
    fn send_rest<R: Wait>(&mut self, rt: &R, alloc: Global, lane: usize) -> Result<(), OutOfMemory>
        requires are { AreOutboxes self.old }
        requires lane { lane < length self.old.lanes.now }
        requires few { HaveFew (2 ^ 36) self.old lane }
        ensures { MatchResult result (λ _. SendsRest self.old self.new lane)
            (λ _. Stays self.old self.new) }
    {
        match self.batches[lane].take(alloc) {
            Some(packets) => self.send_batch(rt, lane, packets),
            None => Ok(()),
        }
    }

    /// Sends the packets that don't fill a batch to each lane, in order. Returns `Err` if memory runs out.
    fn send_rests<R: Wait>(&mut self, rt: &R, alloc: Global) -> Result<(), OutOfMemory>
        requires are { AreOutboxes self.old }
        requires few { HaveAllFew (2 ^ 36) self.old }
        ensures same { AreSame self.old self.new }
        ensures ok { OnOk result ((w : ℕ) → w < length self.old.lanes.now
            → sent_to self.new w ≡ with_rest self.old w) }
        ensures err { OnErr result ((w : ℕ) → IsPrefix (sent_to self.new w) (with_rest self.old w)) }
    {
        for lane in 0..self.lanes.len() {
            self.send_rest(rt, alloc, lane)?;
        }
        Ok(())
    }

    /// Sends the end of the file to each lane, in order. Returns `Err` if memory runs out.
    fn send_ends<R: Wait>(
        &mut self,
        rt: &R,
        note: FileNote,
        records: u64,
    ) -> Result<(), OutOfMemory>
        requires are { AreOutboxes self.old }
        requires records { records < 2 ^ 37 }
        requires few { (w : ℕ) → w < length self.old.lanes.now
            → (length (sent_to self.old w) + 1 ≤ 2 ^ 37) × (packets_sent (sent_to self.old w) ≤ 2 ^ 37) }
        ensures same { AreSame self.old self.new }
        ensures ok { OnOk result ((w : ℕ) → w < length self.old.lanes.now
            → sent_to self.new w ≡ sent_to self.old w ++ ending self.old.file note records ∷ []) }
        ensures err { OnErr result ((w : ℕ) → IsPrefix (sent_to self.new w)
            (sent_to self.old w ++ ending self.old.file note records ∷ [])) }
    {
        let file = self.file;
        for lane in 0..self.lanes.len() {
            self.send(
                rt,
                lane,
                Message::End(FileEnd {
                    file,
                    note,
                    records,
                }),
            )?;
        }
        Ok(())
    }

    /// Sends the packets that don't fill a batch, and then the end of the file, each in the order of the lanes. Returns
    /// `Err` if memory runs out; a part was sent then.
    pub fn finish<R: Wait>(
        &mut self,
        rt: &R,
        alloc: Global,
        note: FileNote,
        records: u64,
    ) -> Result<(), OutOfMemory>
        requires are { AreOutboxes self.old }
        requires records { records < 2 ^ 37 }
        requires few { HaveAllFew (2 ^ 36) self.old }
        ensures same { AreSame self.old self.new }
        ensures ok { OnOk result ((w : ℕ) → w < length self.old.lanes.now
            → sent_to self.new w ≡ with_end self.old note records w) }
        ensures err { OnErr result ((w : ℕ) → w < length self.old.lanes.now
            → IsPrefix (sent_to self.new w) (with_end self.old note records w)) }
    {
        self.send_rests(rt, alloc)?;
        self.send_ends(rt, note, records)
    }
}
