//! Generated captures on a sink in memory, and sinks that fail.

use super::compare::{same, same_at};
use byteorder::{BigEndian, ByteOrder, LittleEndian};
use capture_gen::{capture_len, file_head, record_head, sdp_bytes, write_capture};
use std::alloc::Global;
use std::process::Abort;
use std::test::Fail;
use timing_outside::MemorySink;

// A capture in a sink that has exactly the room for it. Asserts what the calls require, since a proof does not follow
// the rows of a table.
fn made<R: Abort>(
    rt: &R,
    alloc: Global,
    number: u64,
    frames: u32,
    flaw: u32,
) -> Result<MemorySink, Fail> {
    assert!(rt; 1 <= frames);
    assert!(rt; frames <= 20_000);
    assert!(rt; flaw <= 4);
    let mut sink = MemorySink::new(alloc, capture_len(frames, flaw))?;
    write_capture(number, frames, flaw, &mut sink)?;
    Ok(sink)
}

// The bytes of a packet record of a capture, counted from 1.
fn record<'a>(rt: &impl Abort, capture: &'a [u8], record: usize) -> &'a [u8] {
    assert!(rt; 1 <= record);
    assert!(rt; record <= 20_000);
    let at = 24 + 72 * (record - 1);
    assert!(rt; at + 72 <= capture.len());
    &capture[at..at + 72]
}

// The whole seconds, the nanoseconds, the marker and the packet number of a packet record.
fn seen(rt: &impl Abort, capture: &[u8], number: usize) -> (u32, u32, bool, u32) {
    let record = record(rt, capture, number);
    assert!(rt; record.len() == 72);
    let seconds = LittleEndian::read_u32(record);
    let nanoseconds = LittleEndian::read_u32(&record[4..]);
    let sequence = BigEndian::read_u16(&record[60..]);
    let extended = BigEndian::read_u16(&record[70..]);
    let number = u32::from(extended) * 65_536 + u32::from(sequence);
    (seconds, nanoseconds, record[59] == 0xe0, number)
}

// The checksum of RFC 1950, section 8.2 (Adler-32).
fn adler32(bytes: &[u8]) -> u32 {
    let mut low = 1u32;
    let mut high = 0u32;
    for byte in bytes {
        low = (low % 65_521 + u32::from(*byte)) % 65_521;
        high = (high % 65_521 + low % 65_521) % 65_521;
    }
    high % 65_521 * 65_536 + low % 65_521
}

// A generated capture has this length in bytes.
fn has_length(
    rt: &impl Abort,
    alloc: Global,
    (frames, flaw): (u32, u32),
    expected: usize,
) -> Result<(), Fail> {
    let sink = made(rt, alloc, 7, frames, flaw)?;
    same_at(rt, &(frames, flaw), &sink.bytes().len(), &expected);
    Ok(())
}

#[test]
fn lengths(rt: HostRuntime) -> Result<(), Fail> {
    let rows = [
        // frames, length with flaw 0, 1 or 2, length with flaw 3 or 4
        (2, 2_976, 2_904),
        (3, 4_416, 4_344),
        (20_000, 28_800_096, 28_800_024),
    ];
    for (frames, whole, short) in rows {
        for flaw in 0..5 {
            let expected = if flaw < 3 { whole } else { short };
            has_length(&rt, rt.alloc(), (frames, flaw), expected)?;
        }
    }
    Ok(())
}

// A generated capture has this checksum.
fn has_checksum(
    rt: &impl Abort,
    alloc: Global,
    (number, frames, flaw): (u64, u32, u32),
    checksum: u32,
) -> Result<(), Fail> {
    let sink = made(rt, alloc, number, frames, flaw)?;
    same_at(rt, &(number, flaw), &adler32(sink.bytes()), &checksum);
    Ok(())
}

// The checksums are those of examples/plain.sdp and examples/plain.pcap, and of captures that a script in another
// language generated from the documented format.
#[test]
fn checksums(rt: HostRuntime) -> Result<(), Fail> {
    same(&rt, &adler32(sdp_bytes()), &0x0172_5f81);
    let rows = [
        // number, frames, flaw, checksum
        ((0, 2, 0), 0x8df3_750f),
        ((0, 2, 1), 0x4d5a_75ff),
        ((0, 2, 2), 0x054d_7ae1),
        ((0, 2, 3), 0xb115_6bd9),
        ((0, 2, 4), 0xfb77_6c75),
        ((1_234_567, 2, 0), 0x420b_d265),
        ((u64::MAX, 3, 0), 0x4209_785e),
    ];
    for (capture, checksum) in rows {
        has_checksum(&rt, rt.alloc(), capture, checksum)?;
    }
    Ok(())
}

// The bytes from `from` up to, but not including, `to` are these.
fn has_bytes(rt: &impl Abort, capture: &[u8], from: usize, to: usize, expected: &[u8]) {
    let bytes = capture.get(from..to);
    same_at(rt, &from, &bytes, &Some(expected));
}

#[test]
fn first_bytes(rt: HostRuntime) -> Result<(), Fail> {
    let sink = made(&rt, rt.alloc(), 0, 2, 0)?;
    let rows: [(usize, usize, &[u8]); 7] = [
        // from byte, to byte, the bytes there: the magic, two record headers, the Ethernet frame of the second record
        (0, 4, b"\x4d\x3c\xb2\xa1"),
        (24, 32, b"\xff\x0f\x5e\x5f\xc0\x87\x8b\x3b"),
        (32, 40, b"\x38\x00\x00\x00\x38\x00\x00\x00"),
        (96, 104, b"\x00\x10\x5e\x5f\x60\xa8\x0b\x00"),
        (
            112,
            126,
            b"\x01\x00\x5e\x00\x00\x01\x02\x00\x00\x00\x00\x01\x08\x00",
        ),
        (
            126,
            146,
            b"\x45\x00\x00\x2a\x00\x00\x40\x00\x40\x11\x00\x00\xc0\x00\x02\x01\xef\x00\x00\x01",
        ),
        (
            146,
            168,
            b"\xc3\x50\xc3\x50\x00\x16\x00\x00\x80\x60\x00\x01\x00\x00\x07\x08\x00\x00\x00\x01\x00\x00",
        ),
    ];
    for (from, to, expected) in rows {
        has_bytes(&rt, sink.bytes(), from, to, expected);
    }
    Ok(())
}

#[test]
fn heads(rt: HostRuntime) {
    let sparse = record_head(1_599_999_999_999_000_000, 56);
    let rows: [(&[u8], &[u8]); 3] = [
        (&file_head()[..4], b"\x4d\x3c\xb2\xa1"),
        (&sparse[..8], b"\xff\x0f\x5e\x5f\xc0\x87\x8b\x3b"),
        (&sparse[8..], b"\x38\x00\x00\x00\x38\x00\x00\x00"),
    ];
    for (got, expected) in rows {
        same(&rt, &got, &expected);
    }
}

#[test]
fn number_wraps(rt: HostRuntime) -> Result<(), Fail> {
    let sink = made(&rt, rt.alloc(), 4_294_967_295, 2, 0)?;
    for (number, expected) in [(1, 0xffff_ffff), (2, 0), (3, 1)] {
        same(&rt, &seen(&rt, sink.bytes(), number).3, &expected);
    }
    // Frame 0 starts 967,295 seconds after 1,600,000,000.
    same(&rt, &seen(&rt, sink.bytes(), 2).0, &1_600_967_295);
    Ok(())
}

// A packet record of a capture of two frames has these values.
fn has_record(
    rt: &impl Abort,
    alloc: Global,
    (flaw, number): (u32, usize),
    expected: (u32, u32, bool, u32),
) -> Result<(), Fail> {
    let sink = made(rt, alloc, 0, 2, flaw)?;
    let got = seen(rt, sink.bytes(), number);
    same_at(rt, &(flaw, number), &got, &expected);
    Ok(())
}

#[test]
fn flaws(rt: HostRuntime) -> Result<(), Fail> {
    let rows = [
        // flaw, record, nanoseconds of its capture timestamp, marker, packet number
        (0, 2, 764_000, false, 1),
        (0, 3, 1_724_000, false, 2),
        (0, 21, 19_004_000, true, 20),
        (0, 41, 39_004_000, true, 40),
        // 1: packets 1 to 4 of the last frame have the capture timestamp of packet 0
        (1, 3, 1_724_000, false, 2),
        (1, 22, 20_764_000, false, 21),
        (1, 23, 20_764_000, false, 22),
        (1, 26, 20_764_000, false, 25),
        (1, 27, 25_564_000, false, 26),
        // 2: 1,000,000 ns from packet to packet
        (2, 3, 1_764_000, false, 2),
        (2, 41, 39_764_000, true, 40),
        // 3: packet 10 of the last frame, number 31, is missing
        (3, 12, 10_364_000, false, 11),
        (3, 31, 29_404_000, false, 30),
        (3, 32, 31_324_000, false, 32),
        (3, 40, 39_004_000, true, 40),
        // 4: packet 18 of the last frame is its last one
        (4, 21, 19_004_000, true, 20),
        (4, 39, 37_084_000, false, 38),
        (4, 40, 38_044_000, true, 39),
    ];
    for (flaw, number, nanoseconds, marker, packet) in rows {
        let expected = (1_600_000_000, nanoseconds, marker, packet);
        has_record(&rt, rt.alloc(), (flaw, number), expected)?;
    }
    Ok(())
}

// The first 100 bytes of a capture are written to a sink that has room for no more.
fn fills(rt: &impl Abort, small: &mut MemorySink, whole: &[u8]) {
    assert!(rt; write_capture(0, 2, 0, small).is_err());
    same(rt, &Some(small.bytes()), &whole.get(..100));
}

#[test]
fn small_room(rt: HostRuntime) -> Result<(), Fail> {
    let whole = made(&rt, rt.alloc(), 0, 2, 0)?;
    let mut small = MemorySink::new(rt.alloc(), 100)?;
    fills(&rt, &mut small, whole.bytes());
    Ok(())
}
