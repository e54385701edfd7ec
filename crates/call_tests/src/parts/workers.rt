//! A worker over messages that are laid out by hand; each result is read from the book.

ghost use Rattle.std.specs.Prelude.{◌≡◌, ◌≤◌, ◌<◌, All, IfOk, IfSome, length, slice_index_or};
ghost use Rattle.ruled_intake.specs.Lanes.{AreSenders, LaneId};
ghost use Rattle.flow_worker.specs.Works.{HasTakenNothing};
ghost use Rattle.verdict_book.specs.Receipts.{IsOf};

use flow_worker::{RunSetting, work};
use ruled_intake::{Batch, FileEnd, Halt, Lane, Message, Packet, SendPass, TakePass};
use std::alloc::{AllocError, Global};
use std::process::Abort;
use std::sync::Wait;
use std::test::Fail;
use timing_base::worked::{reading, undeclared_to};
use timing_base::{
    FileNote, FlowKey, FlowOptions, FlowPacket, Items, PacketFault, Row, Shift, Unjudged, Verdict,
};
use timing_outside::NoGate;
use verdict_book::{Book, Receipt};

// The packet of a media with this number, in this packet record, without the marker.
fn packet(media: u32, rec: u32, number: u32) -> Packet {
    Packet::new(
        media,
        FlowPacket {
            rec: u64::from(rec),
            at: u64::from(rec) * 1000,
            rtp: Ok(reading(number, 1800, false)),
        },
    )
}

// A packet of a media, in this packet record, that is too short.
fn short(media: u32, rec: u32) -> Packet {
    Packet::new(
        media,
        FlowPacket {
            rec: u64::from(rec),
            at: u64::from(rec) * 1000,
            rtp: Err(PacketFault::Short),
        },
    )
}

// A batch of two packets of a file.
fn two(alloc: Global, file: u32, packets: [Packet; 2]) -> Result<Message, AllocError> {
    let packets = Vec::from_array(alloc, packets)?;
    Ok(Message::Batch(Batch {
        file,
        packets: Items::from_vec(packets),
    }))
}

// The end of a file with this many packet records.
fn end(file: u32, records: u32) -> Message {
    Message::End(FileEnd {
        file,
        note: FileNote::End,
        records: u64::from(records),
    })
}

// Sends a message by the first pass of a lane, and asserts that there is room and memory.
fn send_first<R: Wait + Abort>(rt: &R, lane: &Lane, passes: &mut Vec<SendPass>, message: Message)
    requires each { AreSenders lane.now passes.old.items }
    ensures each { AreSenders lane.now passes.new.items }
{
    assert!(rt; !passes.is_empty());
    let pass = &mut passes[0];
    assert!(rt; pass.has_room(&message));
    assert!(rt; lane.send(rt, pass, message).is_ok());
}

// Sends messages by the first pass of a lane.
fn send_all<R: Wait + Abort>(rt: &R, lane: &Lane, passes: Vec<SendPass>, messages: Vec<Message>)
    requires each { AreSenders lane.now passes.items }
{
    let mut passes = passes;
    for message in messages {
        send_first(rt, lane, &mut passes, message);
    }
}

/// The setting of a worker.
#[derive(Clone, Copy)]
struct Asked {
    /// Whether it is the last of three workers, and not the only one.
    third: bool,
    /// Whether the files are joined.
    joined: bool,
    /// Whether the halt is raised before it begins.
    halted: bool,
}

/// The receipts of one worker of these lanes, which takes the messages of its lane.
fn worked_on<R: Wait + Abort>(
    rt: &R,
    alloc: Global,
    asked: Asked,
    lanes: &[Lane],
    worker: u32,
    taker: TakePass,
    book: &Book,
) -> Option<Vec<Receipt>>
    requires worker { worker < length lanes.now }
    requires few { length lanes.now ≤ 16 }
    requires taker { (l : LaneId) → HasTakenNothing (slice_index_or lanes.now worker l) taker }
    ensures { IfSome result (λ receipts. All (IsOf book.now) receipts.items) }
{
    let halt = Halt::new();
    if asked.halted {
        halt.raise(rt, lanes);
    }
    let media = [undeclared_to(50_000); 2];
    let run = RunSetting {
        media: &media,
        lanes,
        files: 2,
        joined: asked.joined,
        options: FlowOptions {
            shift: Shift { tai: 37, delay: 0 },
            seq16: false,
        },
        turns: &[],
    };
    work(rt, alloc, &run, worker, taker, book, &halt, &NoGate).receipts
}

/// The receipts of a worker that takes these messages, with two media and two files.
fn worked<R: Wait + Abort>(
    rt: &R,
    alloc: Global,
    asked: Asked,
    messages: Vec<Message>,
    book: &Book,
) -> Result<Option<Vec<Receipt>>, AllocError>
    ensures { IfOk result (λ some. IfSome some (λ receipts. All (IsOf book.now) receipts.items)) }
{
    let (lane, passes, taker) = Lane::new(alloc, 1)?;
    send_all(rt, &lane, passes, messages);
    if asked.third {
        let (first, ..) = Lane::new(alloc, 1)?;
        let (second, ..) = Lane::new(alloc, 1)?;
        let lanes = [first, second, lane];
        Ok(worked_on(rt, alloc, asked, &lanes, 2, taker, book))
    } else {
        let lanes = [lane];
        Ok(worked_on(rt, alloc, asked, &lanes, 0, taker, book))
    }
}

// Asserts that a result is that of this flow, which isn't judged.
fn is_row(rt: &impl Abort, found: &Row, want: (u32, u32, Unjudged)) {
    let (file, media, why) = want;
    assert_eq!(rt; found.key, FlowKey { file, media });
    match &found.verdict {
        Verdict::Unjudged(unjudged) => assert_eq!(rt; *unjudged, why),
        _ => assert!(rt; false, "a judged flow"),
    }
}

// Asserts that the receipts are those of these results.
fn are_rows(
    rt: &impl Abort,
    book: &Book,
    receipts: Option<Vec<Receipt>>,
    want: &[(u32, u32, Unjudged)],
)
    requires { IfSome receipts (λ receipts. All (IsOf book.now) receipts.items) }
{
    let Some(receipts) = receipts else {
        assert!(rt; false, "there are receipts");
        return;
    };
    assert_eq!(rt; receipts.len(), want.len());
    for place in 0..want.len() {
        is_row(rt, book.read(&receipts[place]), want[place]);
    }
}

#[test]
fn files_each_for_itself(rt: HostRuntime) -> Result<(), Fail> {
    let alloc = rt.alloc();
    let book = Book::new(alloc)?;
    let mut messages = Vec::new(alloc);
    messages.push(two(alloc, 0, [packet(0, 1, 0), short(1, 2)])?)?;
    messages.push(two(alloc, 1, [packet(0, 1, 0), packet(0, 2, 1)])?)?;
    messages.push(end(1, 2))?;
    // Messages behind the end, and of a file and a media that don't exist.
    messages.push(two(alloc, 1, [short(0, 3), short(1, 4)])?)?;
    messages.push(two(alloc, 7, [short(0, 1), short(1, 2)])?)?;
    messages.push(two(alloc, 0, [packet(0, 3, 1), short(9, 4)])?)?;
    messages.push(two(alloc, 0, [packet(0, 5, 2), short(1, 6)])?)?;
    messages.push(end(0, 6))?;
    let asked = Asked {
        third: false,
        joined: false,
        halted: false,
    };
    let receipts = worked(&rt, alloc, asked, messages, &book)?;
    let want = [
        (0, 0, Unjudged::NoWholeFrame { head: 3 }),
        (
            0,
            1,
            Unjudged::Refused {
                rec: 2,
                fault: PacketFault::Short,
            },
        ),
        (1, 0, Unjudged::NoWholeFrame { head: 2 }),
        (1, 1, Unjudged::Absent),
    ];
    are_rows(&rt, &book, receipts, &want);
    Ok(())
}

// The second file comes first. The first file has 6 packet records, so that record 1 of the second is record 7 of both.
#[test]
fn second_file_waits_for_the_first(rt: HostRuntime) -> Result<(), Fail> {
    let alloc = rt.alloc();
    let book = Book::new(alloc)?;
    let mut messages = Vec::new(alloc);
    messages.push(two(alloc, 1, [short(0, 1), short(1, 2)])?)?;
    messages.push(end(1, 2))?;
    messages.push(two(alloc, 1, [short(1, 3), short(1, 4)])?)?;
    messages.push(two(alloc, 0, [packet(0, 3, 0), short(1, 5)])?)?;
    messages.push(end(0, 6))?;
    messages.push(two(alloc, 0, [short(0, 7), short(1, 8)])?)?;
    let asked = Asked {
        third: false,
        joined: true,
        halted: false,
    };
    let receipts = worked(&rt, alloc, asked, messages, &book)?;
    let want = [
        (
            0,
            0,
            Unjudged::Refused {
                rec: 7,
                fault: PacketFault::Short,
            },
        ),
        (
            0,
            1,
            Unjudged::Refused {
                rec: 5,
                fault: PacketFault::Short,
            },
        ),
    ];
    are_rows(&rt, &book, receipts, &want);
    Ok(())
}

// The third of three workers has only the flow of the first media of the second file.
#[test]
fn flows_of_others_are_passed_over(rt: HostRuntime) -> Result<(), Fail> {
    let alloc = rt.alloc();
    let book = Book::new(alloc)?;
    let mut messages = Vec::new(alloc);
    messages.push(two(alloc, 1, [packet(0, 1, 0), short(1, 2)])?)?;
    messages.push(two(alloc, 0, [short(0, 1), short(1, 2)])?)?;
    messages.push(end(0, 2))?;
    messages.push(end(1, 2))?;
    let asked = Asked {
        third: true,
        joined: false,
        halted: false,
    };
    let receipts = worked(&rt, alloc, asked, messages, &book)?;
    let want = [(1, 0, Unjudged::NoWholeFrame { head: 1 })];
    are_rows(&rt, &book, receipts, &want);
    Ok(())
}

// The end of a file is missing, and the halt is raised.
#[test]
fn halt_stops_without_receipts(rt: HostRuntime) -> Result<(), Fail> {
    let alloc = rt.alloc();
    let book = Book::new(alloc)?;
    let mut messages = Vec::new(alloc);
    messages.push(end(1, 2))?;
    let asked = Asked {
        third: false,
        joined: true,
        halted: true,
    };
    let receipts = worked(&rt, alloc, asked, messages, &book)?;
    assert!(rt; receipts.is_none());
    Ok(())
}
