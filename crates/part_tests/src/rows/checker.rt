//! Claims that are checked on captures laid out by hand.

ghost use Rattle.std.specs.Prelude.{◌≡◌, ◌≤◌, ◌+◌, ◌^◌, IfOk, length};
ghost use Rattle.interval_checker.specs.Readings.{HaveRoom};

use super::compare::{same, same_at};
use capture_gen::examples::{FRAME, HEAD, source_of};
use interval_checker::{Asked, CheckFault, Reading, read_sources};
use std::alloc::{AllocError, Global};
use std::process::Abort;
use std::test::Fail;
use timing_base::worked::{LATE, PLAIN};
use timing_base::{Broken, FailProof, FlowOptions, Kind, PacketFault, Unjudged};
use timing_outside::{MemorySource, OpenFault};

// Five of 20 packets at once: the bucket holds five, where C_MAX is four.
const BURST: FailProof = FailProof {
    model: Broken::Bucket,
    from: 0,
    to: 4,
    count: 5,
    limit: 4,
};

// The times at which the packets of a frame come.
#[derive(Clone, Copy)]
enum Sender {
    // The first five packets at once, all others 960,000 ns apart.
    Burst,
    // All packets 1,000,000 ns apart.
    Linear,
}

// The time at which this packet of a frame comes, in nanoseconds after the start of the frame.
fn nanos(sender: Sender, place: u8) -> u32 {
    match sender {
        Sender::Burst if place < 5 => 764_000,
        Sender::Burst => 764_000 + 960_000 * u32::from(place),
        Sender::Linear => 764_000 + 1_000_000 * u32::from(place),
    }
}

// Appends a packet record with this packet number, with or without the marker. Each `group` has an RTP timestamp of its
// own.
fn put(
    text: &mut Vec<u8>,
    seconds: u32,
    nanos: u32,
    number: u8,
    group: u8,
    marker: bool,
) -> Result<(), AllocError> {
    let mut bytes = FRAME;
    bytes[43] = if marker { 0xe0 } else { 0x60 };
    bytes[45] = number;
    bytes[47] = group;
    for number in [seconds, nanos, 56, 56] {
        text.extend_from_slice(&number.to_le_bytes())?;
    }
    text.extend_from_slice(&bytes)
}

// A capture of the packets with numbers from `from` up to, but not including, `to`. Number 0 ends the frame before; a
// frame has the numbers 1 to 20.
fn capture(alloc: Global, sender: Sender, from: u8, to: u8) -> Result<Vec<u8>, AllocError> {
    let mut text = Vec::from_slice(alloc, &HEAD)?;
    for number in from..to {
        if number == 0 {
            put(&mut text, 1_599_999_999, 999_000_000, 0, 0, true)?;
        } else {
            let nanos = nanos(sender, number - 1);
            put(&mut text, 1_600_000_000, nanos, number, 1, number == 20)?;
        }
    }
    Ok(text)
}

// Appends a source to a list.
fn add(sources: &mut Vec<MemorySource>, source: MemorySource) -> Result<(), OpenFault>
    ensures { IfOk result (λ _. length sources.new.items ≡ length sources.old.items + 1) }
{
    match sources.push(source) {
        Ok(()) => Ok(()),
        Err(_) => Err(OpenFault::OutOfMemory),
    }
}

/// The finding on a claim, or the reason why the sources weren't read.
type Said = Result<Result<bool, Unjudged>, CheckFault>;

// One reading, with what this claim needs.
fn reading(alloc: Global, run: u32, proof: &FailProof) -> Result<Vec<Reading>, AllocError>
    ensures { IfOk result (λ readings. HaveRoom (2 ^ 40) readings.items) }
{
    let mut asked = Asked::new(alloc);
    asked.ask(u64::from(run), proof)?;
    let mut readings = Vec::new(alloc);
    readings.push(Reading::new(&PLAIN, FlowOptions::NONE, asked))?;
    Ok(readings)
}

// The finding on a claim about this run of a narrow sender, in sources that are one capture, and the number of sources
// that come back.
fn said(
    alloc: Global,
    run: u32,
    proof: FailProof,
    sources: Vec<MemorySource>,
) -> Result<(usize, Said), OpenFault>
    requires { length sources.items ≤ 16 }
{
    let Ok(readings) = reading(alloc, run, &proof) else {
        return Err(OpenFault::OutOfMemory);
    };
    let (back, read) = read_sources(alloc, readings, sources);
    let said = match read {
        Ok(readings) => match readings.first() {
            Some(reading) => Ok(reading.answer(Kind::N, run, &proof)),
            None => Ok(Ok(false)),
        },
        Err(fault) => Err(fault),
    };
    Ok((back.len(), said))
}

// The finding on a claim about this run of a narrow sender, in one capture.
fn told(alloc: Global, text: Vec<u8>, run: u32, proof: FailProof) -> Result<Said, OpenFault> {
    let mut sources = Vec::new(alloc);
    add(&mut sources, source_of(alloc, &text, 100, &[])?)?;
    let (_, answer) = said(alloc, run, proof, sources)?;
    Ok(answer)
}

// A capture of these packet numbers has this finding on a claim about a run.
fn says(
    rt: &(impl Abort + AllocGlobal),
    (sender, from, to): (Sender, u8, u8),
    (run, proof): (u32, FailProof),
    want: Said,
) -> Result<(), Fail> {
    let text = capture(rt.alloc(), sender, from, to)?;
    let answer = told(rt.alloc(), text, run, proof)?;
    same_at(rt, &proof, &answer, &want);
    Ok(())
}

// A claim is confirmed; with any of its numbers changed by one, it isn't.
#[test]
fn verify_burst(rt: HostRuntime) -> Result<(), Fail> {
    let rows = [
        (Broken::Bucket, 0, 4, 5, 4, true),
        (Broken::Bucket, 0, 3, 5, 4, false),
        (Broken::Bucket, 0, 4, 5, 3, false),
        (Broken::Bucket, 0, 4, 5, 5, false),
        (Broken::Bucket, 0, 4, 4, 4, false),
        (Broken::Bucket, 0, 4, 6, 4, false),
        (Broken::Bucket, 1, 4, 5, 4, false),
        (Broken::Bucket, 0, 5, 5, 4, false),
        (Broken::Bucket, 5, 4, 5, 4, false),
        (Broken::Bucket, 0, 20, 5, 4, false),
        (Broken::Over, 0, 4, 5, 4, false),
        (Broken::Empty, 0, 4, 5, 4, false),
    ];
    for (model, from, to, count, limit, want) in rows {
        let proof = FailProof {
            model,
            from,
            to,
            count,
            limit,
        };
        says(&rt, (Sender::Burst, 0, 21), (0, proof), Ok(Ok(want)))?;
    }
    Ok(())
}

// The second gapped read is due 1,724,444 ns after the start of the frame, and the second packet comes at 1,764,000 ns.
#[test]
fn verify_empty(rt: HostRuntime) -> Result<(), Fail> {
    for (count, want) in [(1, true), (2, false), (0, false)] {
        let proof = FailProof { count, ..LATE };
        says(&rt, (Sender::Linear, 0, 21), (0, proof), Ok(Ok(want)))?;
    }
    Ok(())
}

#[test]
fn no_packets(rt: HostRuntime) -> Result<(), Fail> {
    let want = Ok(Err(Unjudged::Absent));
    says(&rt, (Sender::Burst, 0, 0), (0, BURST), want)
}

// All packets of a frame except the last one.
#[test]
fn no_marker(rt: HostRuntime) -> Result<(), Fail> {
    let want = Ok(Err(Unjudged::NoWholeFrame { head: 5 }));
    says(&rt, (Sender::Burst, 1, 6), (0, BURST), want)
}

// There is one run, with number 0.
#[test]
fn another_run(rt: HostRuntime) -> Result<(), Fail> {
    says(&rt, (Sender::Burst, 0, 21), (1, BURST), Ok(Ok(false)))
}

// Two packet records, the second with a capture timestamp one nanosecond before that of the first.
fn going_back(alloc: Global) -> Result<Vec<u8>, AllocError> {
    let mut text = Vec::from_slice(alloc, &HEAD)?;
    put(&mut text, 1_599_999_999, 999_000_000, 0, 0, true)?;
    put(&mut text, 1_599_999_999, 998_999_999, 1, 1, false)?;
    Ok(text)
}

#[test]
fn stamp_back(rt: HostRuntime) -> Result<(), Fail> {
    let text = going_back(rt.alloc())?;
    let want = Unjudged::Refused {
        rec: 2,
        fault: PacketFault::StampBack {
            before: 1_599_999_999_999_000_000,
            got: 1_599_999_999_998_999_999,
        },
    };
    same(&rt, &told(rt.alloc(), text, 0, BURST)?, &Ok(Err(want)));
    Ok(())
}

// Two captures that are one; the reads with these numbers of the second one fail.
fn joined(alloc: Global, fails: &[u32]) -> Result<Vec<MemorySource>, OpenFault>
    ensures { IfOk result (λ sources. length sources.items ≤ 16) }
{
    let first = capture(alloc, Sender::Burst, 0, 4)?;
    let second = capture(alloc, Sender::Burst, 4, 21)?;
    let mut sources = Vec::new(alloc);
    add(&mut sources, source_of(alloc, &first, 100, &[])?)?;
    add(&mut sources, source_of(alloc, &second, 100, fails)?)?;
    Ok(sources)
}

// Two such captures have this finding on the burst, and both sources come back.
fn both_say(rt: &impl Abort, alloc: Global, fails: &[u32], want: Said) -> Result<(), Fail> {
    let sources = joined(alloc, fails)?;
    same_at(rt, &fails, &said(alloc, 0, BURST, sources)?, &(2, want));
    Ok(())
}

#[test]
fn two_captures_are_one(rt: HostRuntime) -> Result<(), Fail> {
    both_say(&rt, rt.alloc(), &[], Ok(Ok(true)))
}

// If a read fails, its source is named, and all sources come back.
#[test]
fn failed_read_names_its_source(rt: HostRuntime) -> Result<(), Fail> {
    for number in 1..7 {
        let want = Err(CheckFault::ReadFault { source: 1 });
        both_say(&rt, rt.alloc(), &[number], want)?;
    }
    Ok(())
}
