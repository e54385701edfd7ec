//! pcapng files that are read in pieces, with reads that fail, and with long blocks.

use super::compare::{same, same_at};
use capture_gen::examples::{
    MICROS, NANOS, SECTION, as_pcapng, push_number, push_packet, source_of, without_interface,
};
use capture_gen::{capture_len, write_capture};
use pcapng_reader::Classic;
use std::alloc::{AllocError, Global};
use std::process::Abort;
use std::test::Fail;
use timing_outside::{MemorySink, Source};

const PIECES: [u32; 4] = [1, 7, 100, 65_536];

// The header of a packet record with 2^32 - 1 captured bytes.
const BAD: [u8; 16] = [0, 0, 0, 0, 0, 0, 0, 0, 255, 255, 255, 255, 0, 0, 0, 0];

// A packet record of four bytes, with the timestamp 3 seconds and 5 nanoseconds.
const RECORD: [u8; 20] = [3, 0, 0, 0, 5, 0, 0, 0, 4, 0, 0, 0, 4, 0, 0, 0, 1, 2, 3, 4];

// The capture of two frames as classic pcap: 24 bytes and 41 packet records of 72 bytes.
fn classic_capture(alloc: Global) -> Result<Vec<u8>, Fail> {
    let mut sink = MemorySink::new(alloc, capture_len(2, 0))?;
    write_capture(0, 2, 0, &mut sink)?;
    Ok(Vec::from_slice(alloc, sink.bytes())?)
}

// Reads a source to its end, at most `most` bytes in one read, and counts the reads that failed.
fn read_all<S: Source>(
    alloc: Global,
    source: &mut S,
    most: usize,
) -> Result<(Vec<u8>, u32), AllocError> {
    let mut text = Vec::new(alloc);
    let mut buf = vec![in alloc; 0u8; 4_096]?;
    let most = most.clamp(1, 4_096);
    let mut failed = 0u32;
    for _ in 0..10_000_000u32 {
        match source.read(&mut buf[..most]) {
            Ok(0) => break,
            Ok(count) => text.extend_from_slice(&buf[..count])?,
            Err(_) => failed = failed.saturating_add(1),
        }
    }
    Ok((text, failed))
}

// Read in pieces of this size, a file gives this classic capture, though the reads with these numbers fail.
fn gives_with(
    rt: &impl Abort,
    alloc: Global,
    (file, expected): (&[u8], &[u8]),
    piece: u32,
    fails: &[u32],
) -> Result<(), Fail> {
    let Ok(mut source) = Classic::wrap(alloc, source_of(alloc, file, piece, fails)?) else {
        return Err(AllocError.into());
    };
    let most = if piece == 7 { 1 } else { 4_096 };
    let (text, failed) = read_all(alloc, &mut source, most)?;
    same_at(rt, &piece, &text.as_slice(), &expected);
    assert!(rt; failed <= 2);
    Ok(())
}

// Asserts that a file gives this classic capture, read in pieces of each size, with some reads that fail.
fn gives(rt: &impl Abort, alloc: Global, file: &[u8], expected: &[u8]) -> Result<(), Fail> {
    gives_in(rt, alloc, &PIECES, file, expected)
}

// Asserts that a file gives this classic capture, read in pieces of these sizes, with some reads that fail.
fn gives_in(
    rt: &impl Abort,
    alloc: Global,
    pieces: &[u32],
    file: &[u8],
    expected: &[u8],
) -> Result<(), Fail> {
    for piece in pieces {
        for fails in [[0, 0], [1, 2], [2, 5]] {
            gives_with(rt, alloc, (file, expected), *piece, &fails)?;
        }
    }
    Ok(())
}

// The first `count` bytes.
fn front<'a>(rt: &impl Abort, text: &'a [u8], count: usize) -> &'a [u8] {
    assert!(rt; count <= text.len());
    &text[..count]
}

// As a pcapng file with this interface, in units of this many nanoseconds, the capture has this length and gives the
// same classic capture.
fn gives_as(
    rt: &impl Abort,
    alloc: Global,
    capture: &[u8],
    (interface, unit): (&[u8], u64),
    length: usize,
) -> Result<(), Fail> {
    let file = as_pcapng(alloc, capture, interface, unit)?;
    same(rt, &file.len(), &length);
    gives(rt, alloc, &file, capture)
}

// The interface with microseconds is 12 bytes shorter.
#[test]
fn pcapng_plain(rt: HostRuntime) -> Result<(), Fail> {
    let capture = classic_capture(rt.alloc())?;
    gives_as(&rt, rt.alloc(), &capture, (&NANOS, 1), 3_668)?;
    gives_as(&rt, rt.alloc(), &capture, (&MICROS, 1_000), 3_656)
}

#[test]
fn handed_through(rt: HostRuntime) -> Result<(), Fail> {
    let capture = classic_capture(rt.alloc())?;
    gives(&rt, rt.alloc(), &capture, &capture)?;
    gives(&rt, rt.alloc(), b"abc", b"abc")?;
    gives(&rt, rt.alloc(), b"", b"")
}

#[test]
fn pcapng_cut(rt: HostRuntime) -> Result<(), Fail> {
    let capture = classic_capture(rt.alloc())?;
    let file = as_pcapng(rt.alloc(), &capture, &NANOS, 1)?;
    let mut expected = Vec::from_slice(rt.alloc(), front(&rt, &capture, 2_904))?;
    expected.push(0)?;
    gives(&rt, rt.alloc(), front(&rt, &file, 3_600), &expected)
}

#[test]
fn pcapng_no_interface(rt: HostRuntime) -> Result<(), Fail> {
    let file = without_interface(rt.alloc())?;
    let expected = behind_head(rt.alloc(), &BAD)?;
    gives(&rt, rt.alloc(), &file, &expected)
}

// Blocks that are longer than the buffer: one that is skipped, and a packet.
fn long_file(alloc: Global) -> Result<Vec<u8>, AllocError> {
    let mut file = Vec::from_slice(alloc, &SECTION)?;
    file.extend_from_slice(&NANOS)?;
    push_number(&mut file, 10)?;
    push_number(&mut file, 400_012)?;
    for _ in 0..400_000 {
        file.push(9)?;
    }
    push_number(&mut file, 400_012)?;
    push_packet(&mut file, 0, 3_000_000_005, &[1, 2, 3, 4], 400_000)?;
    Ok(file)
}

// A classic capture with these bytes behind its header.
fn behind_head(alloc: Global, more: &[u8]) -> Result<Vec<u8>, AllocError> {
    let mut text = Vec::from_slice(alloc, &capture_gen::file_head())?;
    text.extend_from_slice(more)?;
    Ok(text)
}

// Only the packet's data is kept of the long blocks.
#[test]
fn long_blocks(rt: HostRuntime) -> Result<(), Fail> {
    let file = long_file(rt.alloc())?;
    let expected = behind_head(rt.alloc(), &RECORD)?;
    gives_in(&rt, rt.alloc(), &[1_000, 65_536], &file, &expected)
}
