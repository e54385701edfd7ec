//! The judges of a worker for one file, or for joined files.

ghost use Rattle.std.specs.Prelude.{◌≡◌, ◌≤◌, ◌<◌, ◌+◌, ◌^◌, ◌++◌, ◌∷◌, [], ℕ, Bool, List, All, IfOk, IfNone, IfSome, IsTrue, filter, length, map, true};
ghost use Rattle.timing_base.specs.declared.key.FlowKey.{FlowKey as KeyValue};
ghost use Rattle.timing_base.specs.declared.packet.FlowPacket.{FlowPacket as PacketValue};
ghost use Rattle.timing_base.specs.Keys.{keys_of_file};
ghost use Rattle.timing_base.specs.Routes.{route};
ghost use Rattle.fail_interval.specs.Stands.{StandsFor, Takes, count_fed};
ghost use Rattle.fail_interval.specs.States.{IsReading};
ghost use Rattle.timing_base.specs.Captures.{IsStamp};
ghost use Rattle.flow_worker.specs.Judging.{Expects};
ghost use Rattle.verdict_book.specs.Receipts.{IsOf, row_of};
ghost use Rattle.flow_worker.specs.Opening.{Setting};
ghost use Rattle.flow_worker.specs.Posting.{row_over};
ghost use Rattle.flow_worker.specs.Settings.{IsWorker};

use crate::setting::RunSetting;
use fail_interval::FlowJudge;
use ruled_intake::{Batch, Packet};
use std::alloc::{AllocError as OutOfMemory, Global};
use std::sync::Wait;
use timing_base::{FlowKey, FlowOptions, FlowPacket, Media, PacketFault, Row, Rtp, route};
use verdict_book::{Book, Receipt};

/// Judges by media of the session, in order. A media has a judge if its flow is the worker's own.
#[derive(Drop)]
pub struct Judges {
    places: Vec<Option<FlowJudge<()>>>,
}

impl Judges {
    ghost use Rattle.flow_worker.specs.Judging.{AreFed, Feeds, HaveRoom, IsDealt, batched, is_own};

    /// Returns the judges of this worker for a file, or for file 0 if files are joined. Returns `Err` if memory runs
    /// out.
    pub fn new(
        alloc: Global,
        run: &RunSetting<'_>,
        file: u32,
        worker: u32,
    ) -> Result<Judges, OutOfMemory>
        requires file { file < 16 }
        requires limits { IsWorker run.now worker }
        ensures fed { IfOk result (λ judges. (joined : Bool) → IsDealt joined file
            → AreFed (record { media = run.now.media.now; workers = length run.now.lanes.now; joined = joined; options = run.now.options })
            worker file (λ key. []) judges) }
    {
        let media = run.media;
        let mut places = Vec::new(alloc);
        for (number, each) in media.iter().enumerate() {
            let key = FlowKey {
                file,
                media: number as u32,
            };
            let own = route(key, media.len() as u32, run.lanes.len() as u32) == worker;
            places.push(own_judge(alloc, each, key, run.options, own))?;
        }
        Ok(Judges { places })
    }

    /// Feeds the packets of a file to the judges of their media, with `before` added to their packet records. Packets
    /// of a media without a judge are ignored. Returns `Err` if memory runs out; what the judges were fed is then
    /// unspecified.
    pub fn take(&mut self, packets: &[Packet], before: u64) -> Result<(), OutOfMemory>
        requires before { before ≤ 2 ^ 41 }
        requires room { HaveRoom (length packets.now) self.old }
        ensures feeds { IfOk result (λ _. Feeds before packets.now self.old self.new) }
        ensures room { IfOk result (λ _. (more : ℕ) → HaveRoom (length packets.now + more) self.old
            → HaveRoom more self.new) }
    {
        for packet in packets {
            self.feed(packet, before)?;
        }
        Ok(())
    }

    /// Feeds the packets of batches, one batch after the other, as [`Judges::take`] does.
    pub fn take_batches(&mut self, batches: Vec<Batch>, before: u64) -> Result<(), OutOfMemory>
        requires before { before ≤ 2 ^ 41 }
        requires room { HaveRoom (length (batched batches.items)) self.old }
        ensures feeds { IfOk result (λ _. Feeds before (batched batches.items) self.old self.new) }
    {
        for batch in &batches {
            self.take(batch.packets.as_slice(), before)?;
        }
        Ok(())
    }

    /// Feeds one packet to the judge of its media, if there is one.
    #[inline(always)]
    fn feed(&mut self, packet: &Packet, before: u64) -> Result<(), OutOfMemory>
        requires before { before ≤ 2 ^ 41 }
        requires room { HaveRoom 1 self.old }
        ensures feeds { IfOk result (λ _. Feeds before (packet.now ∷ []) self.old self.new) }
        ensures room { (more : ℕ) → HaveRoom (more + 1) self.old → HaveRoom more self.new }
    {
        let media = packet.media() as usize;
        if media >= self.places.len() {
            return Ok(());
        }
        let FlowPacket { rec, at, rtp } = packet.flow_packet();
        match &mut self.places[media] {
            Some(judge) => feed_next(judge, before + rec, at, rtp),
            None => Ok(()),
        }
    }

    /// Posts the results of the flows that have a judge, by media, and appends the receipts to a list. Returns `Err` if
    /// memory runs out.
    pub fn post<R: Wait>(
        self,
        rt: &R,
        book: &Book,
        receipts: &mut Vec<Receipt>,
    ) -> Result<(), OutOfMemory>
        ensures posted { All (IsOf book.now) receipts.old.items
            → All (IsOf book.now) receipts.new.items }
        ensures rows { IfOk result (λ _. (s : Setting) (worker file : ℕ)
            (fed : KeyValue → List PacketValue) → AreFed s worker file fed self
            → map row_of receipts.new.items ≡ map row_of receipts.old.items
            ++ map (λ key. row_over s key (fed key))
            (filter (is_own s worker) (keys_of_file file 0 (length s.media)))) }
    {
        let Judges { places } = self;
        for judge in places {
            if let Some(judge) = judge {
                let row = judge.finish(&mut ())?;
                post_row(rt, book, row, receipts)?;
            }
        }
        Ok(())
    }
}

/// Returns the judge of a flow if it is the worker's own.
fn own_judge(
    alloc: Global,
    media: &Media,
    key: FlowKey,
    options: FlowOptions,
    own: bool,
) -> Option<FlowJudge<()>>
    ensures judge { IfSome result (λ judge. IsTrue own × StandsFor media.now key options judge []) }
    ensures none { IfNone result (¬ IsTrue own) }
{
    if own {
        Some(FlowJudge::new(alloc, media, key, options))
    } else {
        None
    }
}

/// Returns whether this is the packet that the judge expects next.
#[inline(always)]
fn is_expected(judge: &FlowJudge<()>, rtp: Result<Rtp, PacketFault>) -> bool
    ensures { result ≡ true → Expects judge.now rtp }
{
    let Some(expected) = judge.expected() else {
        return false;
    };
    match rtp {
        Ok(rtp) => rtp == expected,
        Err(_) => false,
    }
}

/// Feeds a judge the next packet of its flow. In a judged run most packets are the expected ones: these are compared
/// once, and then only their packet records and capture timestamps are fed. Returns `Err` if memory runs out.
#[inline(always)]
fn feed_next(
    judge: &mut FlowJudge<()>,
    rec: u64,
    at: u64,
    rtp: Result<Rtp, PacketFault>,
) -> Result<(), OutOfMemory>
    requires stamp { IsStamp at }
    requires reading { IsReading rtp }
    requires few { count_fed judge.old < 2 ^ 41 }
    ensures { Takes judge.old judge.new (record { rec = rec; at = at; rtp = rtp }) result }
{
    if is_expected(judge, rtp) && judge.feed_judged(rec, at)? {
        return Ok(());
    }
    judge.feed(rec, at, rtp, &mut ())
}

/// Posts a result, and appends its receipt to a list. Returns `Err` if memory runs out.
fn post_row<R: Wait>(
    rt: &R,
    book: &Book,
    row: Row,
    receipts: &mut Vec<Receipt>,
) -> Result<(), OutOfMemory>
    ensures posted { All (IsOf book.now) receipts.old.items
        → All (IsOf book.now) receipts.new.items }
    ensures row { IfOk result (λ _. map row_of receipts.new.items
        ≡ map row_of receipts.old.items ++ row ∷ []) }
{
    let Ok(receipt) = book.post(rt, row) else {
        return Err(OutOfMemory);
    };
    receipts.push(receipt)?;
    Ok(())
}
