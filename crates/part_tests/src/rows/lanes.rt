//! Lanes in one thread and between threads; each message is compared.

ghost use Rattle.std.specs.Prelude.{◌≡◌, length};
ghost use Rattle.ruled_intake.specs.Lanes.{AreSenders};

use super::compare::same;
use ruled_intake::{
    Batch, Closed, FileEnd, Halt, Lane, Message, NoLesson, Packet, Reading, SendPass, TakePass,
    Turn, Working,
};
use std::alloc::Global;
use std::process::Abort;
use std::sync::Wait;
use std::sync::atomic::{AtomicBool, AtomicU32, AtomicU64, Ordering};
use std::thread::Threads;
use std::{mem, slice, thread};
use timing_base::{FileNote, FlowPacket, Items, PacketFault, Rtp};

// The number of messages from which on the senders of a lane wait. It is a private constant of `ruled_intake`.
const LONG: u64 = 64;

// The message that a file ends, cut at this byte.
fn cut_at(file: u32, at: u64) -> Message {
    Message::End(FileEnd {
        file,
        note: FileNote::Cut { at },
        records: 0,
    })
}

// Asserts that a message is that of a file that is cut at this byte.
fn is_cut_at(rt: &impl Abort, message: Option<Message>, file: u32, at: u64) {
    let end = match &message {
        Some(Message::End(end)) => Some((end.file, end.note)),
        _ => None,
    };
    same(rt, &end, &Some((file, FileNote::Cut { at })));
}

// Sends a message by pass f of the lane, and asserts that there is room and memory.
fn send_by<R: Wait + Abort>(
    rt: &R,
    lane: &Lane,
    passes: &mut Vec<SendPass>,
    f: usize,
    message: Message,
)
    requires each { AreSenders lane.now passes.old.items }
    ensures each { AreSenders lane.now passes.new.items }
    ensures len { length passes.new.items ≡ length passes.old.items }
{
    assert!(rt; f < passes.len());
    let pass = &mut passes[f];
    assert!(rt; pass.has_room(&message));
    assert!(rt; lane.send(rt, pass, message).is_ok());
}

#[test]
fn lane_order(rt: HostRuntime) {
    let Ok((lane, mut passes, mut taker)) = Lane::new(rt.alloc(), 2) else {
        assert!(&rt; false, "there is memory");
        return;
    };
    send_by(&rt, &lane, &mut passes, 0, cut_at(0, 1));
    send_by(&rt, &lane, &mut passes, 0, cut_at(0, 2));
    send_by(&rt, &lane, &mut passes, 1, cut_at(1, 9));
    is_cut_at(&rt, lane.take::<NoLesson, _>(&rt, &mut taker), 0, 1);
    is_cut_at(&rt, lane.take::<NoLesson, _>(&rt, &mut taker), 0, 2);
    is_cut_at(&rt, lane.take::<NoLesson, _>(&rt, &mut taker), 1, 9);
    assert!(&rt; lane.take::<NoLesson, _>(&rt, &mut taker).is_none());
    let closed = lane.close(&rt, passes, taker);
    same(&rt, &closed, &Closed { sent: 3, taken: 3 });
}

// Sends 1,000 end messages of the next file.
fn send_ends<R: Wait + Abort>(rt: &R, lane: &Lane, pass: SendPass, files: &AtomicU32)
    requires { pass.lane ≡ lane.now }
{
    let mut pass = pass;
    let file = files.fetch_add(1, Ordering::SeqCst);
    for at in 1..1001 {
        let message = cut_at(file, at);
        assert!(rt; pass.has_room(&message));
        assert!(rt; lane.send(rt, &mut pass, message).is_ok());
    }
}

// Takes this many end messages of two files, and asserts that those of each file come in order.
fn take_ends<R: Wait + Abort>(rt: &R, lane: &Lane, taker: TakePass, count: u64)
    requires { taker.lane ≡ lane.now }
{
    let mut taker = taker;
    let mut last = [0u64; 2];
    let mut taken = 0u64;
    let halt = Halt::new();
    for _ in rt.forever() {
        if taken >= count {
            break;
        }
        let Some(message) = lane.take::<NoLesson, _>(rt, &mut taker) else {
            lane.wait_for_message(rt, &mut taker, &halt);
            continue;
        };
        taken = taken.wrapping_add(1);
        let Message::End(end) = message else {
            assert!(rt; false, "no end of a file");
            return;
        };
        let file = end.file as usize;
        assert!(rt; file < 2);
        let next = last[file].wrapping_add(1);
        same(rt, &end.note, &FileNote::Cut { at: next });
        last[file] = next;
    }
    same(rt, &last, &[1000, 1000]);
}

// Sends from one thread for each pass.
fn send_in_threads<R: Threads + Wait + Abort + Sync>(rt: &R, lane: &Lane, passes: Vec<SendPass>)
    requires { AreSenders lane.now passes.items }
{
    let files = AtomicU32::new(0);
    let files = &files;
    let sent = thread::map_vec(rt, passes, &|pass| send_ends(rt, lane, pass, files));
    assert!(rt; sent.is_ok());
}

// Two threads send, and the caller takes.
fn two_senders<R: Threads + Wait + Abort + Sync>(rt: &R, alloc: Global) {
    let Ok((lane, passes, taker)) = Lane::new(alloc, 2) else {
        assert!(rt; false, "there is memory");
        return;
    };
    let shared = &lane;
    thread::join(
        rt,
        ||
            requires { AreSenders shared.now passes.items }
        { send_in_threads(rt, shared, passes) },
        ||
            requires { taker.lane ≡ shared.now }
        { take_ends(rt, shared, taker, 2000) },
    );
}

#[test]
fn two_senders_1000(rt: HostRuntime) {
    two_senders(&rt, rt.alloc());
}

// A packet with values that follow from its file and its number, of media 0 to 6.
fn packet(file: u32, number: u32) -> Packet {
    let rtp = if number % 64 == 0 {
        Err(PacketFault::Short)
    } else {
        Ok(Rtp {
            number,
            timestamp: number / 20,
            marker: number % 20 == 0,
            pt: 96,
            ssrc: file,
        })
    };
    Packet::new(
        number % 7,
        FlowPacket {
            rec: u64::from(number),
            at: u64::from(number) * 1000,
            rtp,
        },
    )
}

// A batch of 256 packets of a file, the first of which has this number.
fn batch(alloc: Global, file: u32, first: u32) -> Option<Message> {
    let mut packets = Vec::with_capacity(alloc, 256).ok()?;
    for place in 0..256 {
        packets.push(packet(file, first.wrapping_add(place))).ok()?;
    }
    Some(Message::Batch(Batch {
        file,
        packets: Items::from_vec(packets),
    }))
}

const SENDERS: u32 = 16;

// The number of batches of one sender.
const BATCHES: u32 = 256;

// The counts of files and messages of several senders.
#[derive(Drop)]
struct Counts {
    // The next file.
    files: AtomicU32,
    // The messages that were sent.
    sent: AtomicU64,
}

// Sends the batches of the next file, and then its end. Waits for room before each message.
fn send_file<R: Wait + Abort>(rt: &R, alloc: Global, lane: &Lane, pass: SendPass, counts: &Counts)
    requires { pass.lane ≡ lane.now }
{
    let mut pass = pass;
    let file = counts.files.fetch_add(1, Ordering::SeqCst);
    for number in 0..BATCHES {
        let Some(message) = batch(alloc, file, number * 256) else {
            assert!(rt; false, "there is memory");
            return;
        };
        lane.wait_for_room(rt, &mut pass);
        assert!(rt; pass.has_room(&message));
        assert!(rt; lane.send(rt, &mut pass, message).is_ok());
        counts.sent.fetch_add(1, Ordering::SeqCst);
    }
    let message = cut_at(file, u64::from(BATCHES));
    lane.wait_for_room(rt, &mut pass);
    assert!(rt; pass.has_room(&message));
    assert!(rt; lane.send(rt, &mut pass, message).is_ok());
    counts.sent.fetch_add(1, Ordering::SeqCst);
}

// Asserts that a packet is the one of its file with its number.
fn is_packet(rt: &impl Abort, found: &Packet, file: u32, number: u32) {
    let wanted = packet(file, number);
    same(rt, &found.media(), &wanted.media());
    same(rt, &found.flow_packet(), &wanted.flow_packet());
}

// Asserts that the packets of a file continue at this number, and returns the number after them.
fn goes_on(rt: &impl Abort, batch: &Batch, first: u32) -> u32 {
    let mut number = first;
    for found in batch.packets.as_slice() {
        is_packet(rt, found, batch.file, number);
        number = number.wrapping_add(1);
    }
    number
}

// Takes the files of all senders, and asserts that the packets of each come in order, and that the lane is at most one
// message of each sender longer than `LONG`. Sleeps while there is no message.
fn take_files<R: Wait + Abort>(rt: &R, lane: &Lane, taker: TakePass, sent: &AtomicU64)
    requires { taker.lane ≡ lane.now }
{
    let mut taker = taker;
    let mut next = [0u32; 16];
    let mut ended = 0u32;
    let mut taken = 0u64;
    let halt = Halt::new();
    for _ in rt.forever() {
        if ended >= SENDERS {
            break;
        }
        let Some(message) = lane.take::<NoLesson, _>(rt, &mut taker) else {
            lane.wait_for_message(rt, &mut taker, &halt);
            continue;
        };
        taken = taken.wrapping_add(1);
        let ahead = sent.load(Ordering::SeqCst).saturating_sub(taken);
        assert!(rt; ahead <= LONG.wrapping_add(u64::from(SENDERS)));
        match &message {
            Message::Batch(batch) => {
                let file = batch.file as usize;
                assert!(rt; file < 16);
                next[file] = goes_on(rt, batch, next[file]);
            }
            Message::End(end) => {
                let file = end.file as usize;
                assert!(rt; file < 16);
                same(rt, &next[file], &(BATCHES * 256));
                ended = ended.wrapping_add(1);
            }
        }
    }
    assert!(rt; lane.take::<NoLesson, _>(rt, &mut taker).is_none());
}

// Sends the files from one thread for each pass.
fn send_files<R: Threads + Wait + Abort + Sync>(
    rt: &R,
    alloc: Global,
    lane: &Lane,
    passes: Vec<SendPass>,
    counts: &Counts,
)
    requires { AreSenders lane.now passes.items }
{
    let sent = thread::map_vec(
        rt,
        passes,
        &|pass| { send_file(rt, alloc, lane, pass, counts) },
    );
    assert!(rt; sent.is_ok());
}

// Sixteen threads send a file each, and another thread takes them.
fn sixteen_senders<R: Threads + Wait + Abort + Sync>(rt: &R, alloc: Global) {
    let Ok((lane, passes, taker)) = Lane::new(alloc, SENDERS) else {
        assert!(rt; false, "there is memory");
        return;
    };
    let counts = Counts {
        files: AtomicU32::new(0),
        sent: AtomicU64::new(0),
    };
    let (shared, counted) = (&lane, &counts);
    let working = lane.begin();
    thread::join(
        rt,
        ||
            requires { taker.lane ≡ shared.now }
        { take_files(rt, shared, taker, &counted.sent) },
        ||
            requires { AreSenders shared.now passes.items }
        { send_files(rt, alloc, shared, passes, counted) },
    );
    drop(working);
}

#[test]
fn million_packets_of_sixteen_senders(rt: HostRuntime) {
    sixteen_senders(&rt, rt.alloc());
}

#[test]
fn packet_has_40_bytes(rt: HostRuntime) {
    same(&rt, &mem::size_of::<Packet>(), &40);
}

#[test]
fn halt_is_seen_once_raised(rt: HostRuntime) {
    let halt = Halt::new();
    assert!(rt; halt.raised().is_none());
    halt.raise(&rt, &[]);
    assert!(rt; halt.raised().is_some());
}

// Sets `begun`, and then sleeps until it sees that the halt is raised.
fn sleep_until_raised<R: Wait>(
    rt: &R,
    lane: &Lane,
    taker: TakePass,
    halt: &Halt,
    begun: &AtomicBool,
)
    requires { taker.lane ≡ lane.now }
{
    let mut taker = taker;
    begun.store(true, Ordering::SeqCst);
    for _ in rt.forever() {
        if halt.raised().is_some() {
            break;
        }
        lane.wait_for_message(rt, &mut taker, halt);
    }
}

// Waits until the other thread has begun, and then gives it time to fall asleep.
fn let_sleep(begun: &AtomicBool) {
    for _ in 0..1_000_000 {
        if begun.load(Ordering::SeqCst) {
            break;
        }
        thread::yield_now();
    }
    for _ in 0..10_000 {
        thread::yield_now();
    }
}

// One thread sleeps, and another raises the halt.
fn sleeper_and_halt<R: Threads + Wait + Abort + Sync>(rt: &R, alloc: Global) {
    let Ok((lane, _passes, taker)) = Lane::new(alloc, 1) else {
        assert!(rt; false, "there is memory");
        return;
    };
    let halt = Halt::new();
    let begun = AtomicBool::new(false);
    let (shared, stop, flag) = (&lane, &halt, &begun);
    thread::join(
        rt,
        ||
            requires { taker.lane ≡ shared.now }
        { sleep_until_raised(rt, shared, taker, stop, flag) },
        || {
            let_sleep(flag);
            stop.raise(rt, slice::from_ref(shared));
        },
    );
    assert!(rt; halt.raised().is_some());
}

#[test]
fn sleeper_sees_the_halt(rt: HostRuntime) {
    sleeper_and_halt(&rt, rt.alloc());
}

// Sends this many end messages, counts each, and waits for room after it.
fn send_and_wait<R: Wait + Abort>(rt: &R, lane: &Lane, pass: SendPass, count: u64, sent: &AtomicU64)
    requires { pass.lane ≡ lane.now }
{
    let mut pass = pass;
    for at in 0..count {
        let message = cut_at(0, at);
        assert!(rt; pass.has_room(&message));
        assert!(rt; lane.send(rt, &mut pass, message).is_ok());
        sent.fetch_add(1, Ordering::SeqCst);
        lane.wait_for_room(rt, &mut pass);
    }
}

// Waits until the lane is long, gives the sender time to fall asleep, and ends without a take.
fn end_at_once(sent: &AtomicU64, working: Working<'_>) {
    for _ in 0..1_000_000 {
        if sent.load(Ordering::SeqCst) >= LONG {
            break;
        }
        thread::yield_now();
    }
    for _ in 0..10_000 {
        thread::yield_now();
    }
    drop(working);
}

// Asserts that the lane has exactly this many end messages, in order.
fn holds_ends<R: Wait + Abort>(rt: &R, lane: &Lane, taker: TakePass, count: u64)
    requires { taker.lane ≡ lane.now }
{
    let mut taker = taker;
    for at in 0..count {
        is_cut_at(rt, lane.take::<NoLesson, _>(rt, &mut taker), 0, at);
    }
    assert!(rt; lane.take::<NoLesson, _>(rt, &mut taker).is_none());
}

// One thread sends more messages than a lane may have, and another ends without a take.
fn sender_and_end<R: Threads + Wait + Abort + Sync>(rt: &R, alloc: Global) {
    let Ok((lane, mut passes, taker)) = Lane::new(alloc, 1) else {
        assert!(rt; false, "there is memory");
        return;
    };
    let Some(pass) = passes.pop() else {
        assert!(rt; false, "there is a pass");
        return;
    };
    let sent = AtomicU64::new(0);
    let (shared, counted) = (&lane, &sent);
    let working = lane.begin();
    thread::join(
        rt,
        || end_at_once(counted, working),
        ||
            requires { pass.lane ≡ shared.now }
        { send_and_wait(rt, shared, pass, 1000, counted) },
    );
    holds_ends(rt, &lane, taker, 1000);
}

#[test]
fn sleeping_sender_sees_the_end(rt: HostRuntime) {
    sender_and_end(&rt, rt.alloc());
}

// Gives the other thread time to fall asleep, sets `ending`, and ends the file.
fn end_file(reading: Reading<'_>, ending: &AtomicBool) {
    for _ in 0..10_000 {
        thread::yield_now();
    }
    ending.store(true, Ordering::SeqCst);
    drop(reading);
}

// One thread reads a file, and another waits for its end.
fn file_and_next<R: Threads + Wait + Abort + Sync>(rt: &R) {
    let turn = Turn::new();
    turn.wait_for_end(rt);
    let ending = AtomicBool::new(false);
    let (shared, flag) = (&turn, &ending);
    let reading = turn.begin();
    thread::join(
        rt,
        || end_file(reading, flag),
        || {
            shared.wait_for_end(rt);
            assert!(rt; flag.load(Ordering::SeqCst));
        },
    );
}

#[test]
fn next_file_waits_for_the_end(rt: HostRuntime) {
    file_and_next(&rt);
}
