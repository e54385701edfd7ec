//! The intake of captures in memory; each message is compared.

ghost use Rattle.std.specs.Prelude.{◌≡◌, ◌≤◌, ◌∷◌, [], IfOk, length};
ghost use Rattle.flow_worker.specs.Intakes.{AreOfFile, HaveSentNothing};

use capture_gen::examples::{FRAME, HEAD, source_of};
use capture_gen::{capture_len, sdp_bytes, write_capture};
use flow_worker::{IntakeDone, RunSetting, intake};
use ruled_intake::{Closed, Halt, Lane, Message, NoLesson, SendPass, TakePass};
use sdp_reader::read_sdp;
use std::alloc::{AllocError, Global};
use std::process::Abort;
use std::slice;
use std::sync::Wait;
use std::test::Fail;
use timing_base::worked::undeclared_to;
use timing_base::{FileNote, FlowOptions, Media, PcapFault};
use timing_outside::{MemorySink, NoGate, Source};

// The generated capture of 13 frames of 20 packets: 261 packet records with the packet before them.
fn made(alloc: Global) -> Result<MemorySink, Fail> {
    let mut sink = MemorySink::new(alloc, capture_len(13, 0))?;
    write_capture(0, 13, 0, &mut sink)?;
    Ok(sink)
}

// A lane with one sender, for file 0.
fn one_lane(alloc: Global) -> Result<(Lane, Vec<SendPass>, TakePass), AllocError>
    ensures passes { IfOk result (λ made. HaveSentNothing 0 (made.0 ∷ []) made.1.items) }
    ensures lane { IfOk result (λ made. made.2.lane ≡ made.0) }
    ensures senders { IfOk result (λ made. made.2.senders ≡ 1) }
{
    Lane::new(alloc, 1)
}

// The intake of file 0, which doesn't raise the halt.
fn taken_in<R: Wait + Abort + AllocGlobal, S: Source>(
    rt: &R,
    media: &[Media],
    source: S,
    lanes: &[Lane],
    passes: Vec<SendPass>,
) -> IntakeDone<S>
    requires some_media { 1 ≤ length media.now }
    requires few_media { length media.now ≤ 64 }
    requires some_lanes { 1 ≤ length lanes.now }
    requires few_lanes { length lanes.now ≤ 16 }
    requires passes { HaveSentNothing 0 lanes.now passes.items }
    ensures passes { AreOfFile 0 lanes.now result.passes.items }
{
    let halt = Halt::new();
    let run = RunSetting {
        media,
        lanes,
        files: 1,
        joined: false,
        options: FlowOptions::NONE,
        turns: &[],
    };
    let (done, raised) = intake(rt, rt.alloc(), &run, 0, source, passes, &halt, &NoGate);
    assert!(rt; raised.is_none());
    assert!(rt; halt.raised().is_none());
    done
}

// Takes the first message of the lane.
fn take<R: Wait>(rt: &R, lane: &Lane, taker: &mut TakePass) -> Option<Message>
    requires lane { taker.old.lane ≡ lane.now }
    ensures lane { taker.new.lane ≡ taker.old.lane }
    ensures senders { taker.new.senders ≡ taker.old.senders }
{
    lane.take::<NoLesson, R>(rt, taker)
}

// Ends a lane with one sender.
fn close<R: Wait>(rt: &R, lane: Lane, passes: Vec<SendPass>, taker: TakePass) -> Closed
    requires passes { AreOfFile 0 (lane ∷ []) passes.items }
    requires lane { taker.lane ≡ lane }
    requires senders { taker.senders ≡ 1 }
{
    lane.close(rt, passes, taker)
}

// Asserts that a message is a batch of file 0, with the packets of a media in these packet records.
fn is_batch(rt: &impl Abort, message: Option<Message>, media: u32, records: &[u64]) {
    match &message {
        Some(Message::Batch(batch)) => {
            assert_eq!(rt; batch.file, 0);
            assert_eq!(rt; batch.packets.len(), records.len());
            for (packet, record) in batch.packets.as_slice().iter().zip(records) {
                assert_eq!(rt; packet.media(), media);
                assert_eq!(rt; packet.flow_packet().rec, *record);
            }
        }
        _ => panic!(rt; "no batch"),
    }
}

// Asserts that a message is the end of file 0, with this note and number of packet records.
fn is_end(rt: &impl Abort, message: Option<Message>, note: FileNote, records: u64) {
    match &message {
        Some(Message::End(end)) => {
            assert_eq!(rt; end.file, 0);
            assert_eq!(rt; end.note, note);
            assert_eq!(rt; end.records, records);
        }
        _ => panic!(rt; "no end"),
    }
}

#[test]
fn batches(rt: HostRuntime) -> Result<(), Fail> {
    let alloc = rt.alloc();
    let session = read_sdp(alloc, sdp_bytes())?;
    let media = session.media.as_slice();
    assert_eq!(rt; media.len(), 1);
    let source = source_of(alloc, made(alloc)?.bytes(), 65_536, &[])?;
    let (lane, passes, mut taker) = one_lane(alloc)?;
    let done = taken_in(&rt, media, source, slice::from_ref(&lane), passes);
    assert_eq!(rt; done.note, Some(FileNote::End));
    let first: Vec<u64> = (1..257).collect(alloc)?;
    is_batch(&rt, take(&rt, &lane, &mut taker), 0, &first);
    is_batch(
        &rt,
        take(&rt, &lane, &mut taker),
        0,
        &[257, 258, 259, 260, 261],
    );
    is_end(&rt, take(&rt, &lane, &mut taker), FileNote::End, 261);
    assert!(rt; take(&rt, &lane, &mut taker).is_none());
    let closed = close(&rt, lane, done.passes, taker);
    assert_eq!(rt; closed, Closed { sent: 3, taken: 3 });
    Ok(())
}

// The first read gives the capture header, 99 packet records and 48 bytes of the next one; the second read fails.
#[test]
fn failed_read(rt: HostRuntime) -> Result<(), Fail> {
    let alloc = rt.alloc();
    let session = read_sdp(alloc, sdp_bytes())?;
    let media = session.media.as_slice();
    assert_eq!(rt; media.len(), 1);
    let source = source_of(alloc, made(alloc)?.bytes(), 7200, &[2])?;
    let (lane, passes, mut taker) = one_lane(alloc)?;
    let done = taken_in(&rt, media, source, slice::from_ref(&lane), passes);
    let note = FileNote::Refused(PcapFault::ReadFault);
    assert_eq!(rt; done.note, Some(note));
    let before: Vec<u64> = (1..100).collect(alloc)?;
    is_batch(&rt, take(&rt, &lane, &mut taker), 0, &before);
    is_end(&rt, take(&rt, &lane, &mut taker), note, 99);
    assert!(rt; take(&rt, &lane, &mut taker).is_none());
    Ok(())
}

// A capture with a packet record for each of `ports`, to port 50000 + that number.
fn capture(alloc: Global, ports: &[u8]) -> Result<Vec<u8>, AllocError> {
    let mut text = Vec::from_slice(alloc, &HEAD)?;
    for more in ports {
        let mut frame = FRAME;
        frame[37] = more.saturating_add(0x50);
        for number in [1_600_000_000_u32, 1000, 56, 56] {
            text.extend_from_slice(&number.to_le_bytes())?;
        }
        text.extend_from_slice(&frame)?;
    }
    Ok(text)
}

// The fourth of five packet records belongs to no media.
#[test]
fn two_lanes(rt: HostRuntime) -> Result<(), Fail> {
    let alloc = rt.alloc();
    let media = [undeclared_to(50_000), undeclared_to(50_001)];
    let source = source_of(alloc, &capture(alloc, &[0, 1, 1, 9, 0])?, 65_536, &[])?;
    let (first, mut passes, mut first_taker) = one_lane(alloc)?;
    let (second, mut more, mut second_taker) = one_lane(alloc)?;
    passes.append(&mut more)?;
    let lanes = [first, second];
    let done = taken_in(&rt, &media, source, &lanes, passes);
    assert_eq!(rt; done.note, Some(FileNote::End));
    is_batch(&rt, take(&rt, &lanes[0], &mut first_taker), 0, &[1, 5]);
    is_end(
        &rt,
        take(&rt, &lanes[0], &mut first_taker),
        FileNote::End,
        5,
    );
    assert!(rt; take(&rt, &lanes[0], &mut first_taker).is_none());
    is_batch(&rt, take(&rt, &lanes[1], &mut second_taker), 1, &[2, 3]);
    is_end(
        &rt,
        take(&rt, &lanes[1], &mut second_taker),
        FileNote::End,
        5,
    );
    assert!(rt; take(&rt, &lanes[1], &mut second_taker).is_none());
    Ok(())
}
