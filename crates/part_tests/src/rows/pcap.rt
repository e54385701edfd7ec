//! Captures that are read in pieces, reads that fail, and the largest packet record.

use super::compare::{same, same_at};
use capture_gen::examples::source_of;
use pcap_reader::{MOST, PcapReader, Step};
use std::alloc::{AllocError, Global};
use std::process::Abort;
use std::test::Fail;
use timing_base::{FileNote, PcapFault};
use timing_outside::{MemorySource, OpenFault};

const SECOND: u64 = 1_000_000_000;

const PIECES: [u32; 4] = [1, 7, 100, 65_536];

// One packet to 239.0.0.1, port 50000, laid out by hand.
const FRAME: [u8; 56] = [
    0x01, 0x00, 0x5e, 0x00, 0x00, 0x01, 0x02, 0x00, 0x00, 0x00, 0x00, 0x01, 0x08, 0x00, // Ethernet
    0x45, 0x00, 0x00, 0x2a, 0x00, 0x00, 0x40, 0x00, 0x40, 0x11, 0x00, 0x00, // IPv4
    0xc0, 0x00, 0x02, 0x01, 0xef, 0x00, 0x00, 0x01, // addresses
    0xc3, 0x50, 0xc3, 0x50, 0x00, 0x16, 0x00, 0x00, // UDP
    0x80, 0x60, 0x00, 0x01, 0x00, 0x00, 0x07, 0x08, 0x00, 0x00, 0x00, 0x01, // RTP
    0x00, 0x00, // extended sequence number
];

// The byte order of the numbers of a capture, and the unit of its timestamps.
#[derive(Clone, Copy)]
enum Kind {
    LittleMicros,
    LittleNanos,
    BigMicros,
    BigNanos,
}

impl Kind {
    fn magic(self) -> [u8; 4] {
        match self {
            Kind::LittleMicros => [0xd4, 0xc3, 0xb2, 0xa1],
            Kind::LittleNanos => [0x4d, 0x3c, 0xb2, 0xa1],
            Kind::BigMicros => [0xa1, 0xb2, 0xc3, 0xd4],
            Kind::BigNanos => [0xa1, 0xb2, 0x3c, 0x4d],
        }
    }

    fn is_little(self) -> bool {
        match self {
            Kind::LittleMicros | Kind::LittleNanos => true,
            Kind::BigMicros | Kind::BigNanos => false,
        }
    }

    // A capture header: the magic, the version, zone, sigfigs, snaplen and link type.
    fn header(self, alloc: Global, minor: u8, link: u32) -> Result<Vec<u8>, AllocError> {
        let mut out = Vec::from_slice(alloc, &self.magic())?;
        let version = if self.is_little() {
            [2, 0, minor, 0]
        } else {
            [0, 2, 0, minor]
        };
        out.extend_from_slice(&version)?;
        for number in [0, 0, 262_144, link] {
            self.number(&mut out, number)?;
        }
        Ok(out)
    }

    fn number(self, out: &mut Vec<u8>, number: u32) -> Result<(), AllocError> {
        let bytes = if self.is_little() {
            number.to_le_bytes()
        } else {
            number.to_be_bytes()
        };
        out.extend_from_slice(&bytes)
    }

    // A record header with this capture timestamp in nanoseconds.
    fn head(self, out: &mut Vec<u8>, at: u64, captured: u32) -> Result<(), AllocError> {
        let fraction = match self {
            Kind::LittleMicros | Kind::BigMicros => at % SECOND / 1000,
            Kind::LittleNanos | Kind::BigNanos => at % SECOND,
        };
        self.number(out, (at / SECOND % (1 << 32)) as u32)?;
        self.number(out, fraction as u32)?;
        self.number(out, captured)?;
        self.number(out, captured)
    }
}

// The capture timestamp of a packet record, in a capture of two frames of 20 packets behind one head packet.
fn stamp(index: u8) -> u64 {
    let first = 1_600_000_000 * SECOND;
    if index == 0 {
        return first - 1_000_000;
    }
    let packet = u64::from(index - 1);
    first + 20_000_000 * (packet / 20) + 764_000 + 960_000 * (packet % 20)
}

// The frame of a packet record; the low byte of its sequence number is the index.
fn frame(index: u8) -> [u8; 56] {
    let mut bytes = FRAME;
    bytes[45] = index;
    bytes
}

// The capture of two frames: 41 packet records of 72 bytes.
fn capture(alloc: Global, kind: Kind) -> Result<Vec<u8>, AllocError> {
    let mut out = kind.header(alloc, 4, 1)?;
    for index in 0..41 {
        kind.head(&mut out, stamp(index), 56)?;
        out.extend_from_slice(&frame(index))?;
    }
    Ok(out)
}

// A reader of these bytes, which a source gives in pieces of this size; the reads with these numbers fail.
fn open(
    alloc: Global,
    text: &[u8],
    piece: u32,
    fails: &[u32],
    most: u64,
) -> Result<PcapReader<MemorySource>, OpenFault> {
    let source = source_of(alloc, text, piece, fails)?;
    match PcapReader::start(alloc, source, most.max(24).min(MOST)) {
        Ok(reader) => Ok(reader),
        Err(_) => Err(OpenFault::OutOfMemory),
    }
}

// The capture timestamp and the length of the next packet record, or how the records end.
fn sight(reader: &mut PcapReader<MemorySource>) -> Result<(u64, usize), FileNote> {
    match reader.next() {
        Ok(Step::Frame { at, bytes }) => Ok((at, bytes.len())),
        Ok(Step::End) => Err(FileNote::End),
        Ok(Step::Cut { at }) => Err(FileNote::Cut { at }),
        Err(fault) => Err(FileNote::Refused(fault)),
    }
}

// Read in pieces of any size, these bytes have the first `count` records of the capture of two frames, and this note.
fn has_records(
    rt: &(impl Abort + AllocGlobal),
    text: &[u8],
    count: u8,
    note: FileNote,
) -> Result<(), Fail> {
    for piece in PIECES {
        let mut reader = open(rt.alloc(), text, piece, &[], MOST)?;
        for index in 0..count {
            let want = Ok((stamp(index), 56));
            same_at(rt, &(index, piece), &sight(&mut reader), &want);
        }
        same_at(rt, &piece, &reader.note(), &None);
        same_at(rt, &piece, &sight(&mut reader), &Err(note));
        same_at(rt, &piece, &reader.note(), &Some(note));
    }
    Ok(())
}

// The next packet record has this capture timestamp and these bytes.
fn has_frame(rt: &impl Abort, reader: &mut PcapReader<MemorySource>, stamp: u64, frame: &[u8]) {
    match reader.next() {
        Ok(Step::Frame { at, bytes }) => {
            same(rt, &at, &stamp);
            assert!(rt; bytes == frame, "at {stamp}");
        }
        _ => panic!(rt; "no frame at {stamp}"),
    }
}

// The packet records end in this way, and every further call returns the same.
fn stays(rt: &impl Abort, reader: &mut PcapReader<MemorySource>, note: FileNote) {
    for _ in 0..2 {
        same(rt, &sight(reader), &Err(note));
    }
}

// A reader with a limit of 100 bytes in a record returns only the first one.
fn stops_behind_first(rt: &impl Abort, alloc: Global, text: &[u8]) -> Result<(), Fail> {
    for piece in PIECES {
        let mut reader = open(alloc, text, piece, &[], 100)?;
        has_frame(rt, &mut reader, 1_599_999_999_999_000_000, &frame(0));
        stays(rt, &mut reader, FileNote::Refused(PcapFault::TooLong));
    }
    Ok(())
}

#[test]
fn reader_stops(rt: HostRuntime) -> Result<(), Fail> {
    let text = capture(rt.alloc(), Kind::LittleNanos)?;
    stops_behind_first(&rt, rt.alloc(), &text)
}

// This many bytes, which count up to 250 and begin again.
fn counted(alloc: Global, count: u32) -> Result<Vec<u8>, AllocError> {
    let mut body = Vec::new(alloc);
    for place in 0..count {
        body.push((place % 251) as u8)?;
    }
    Ok(body)
}

// A capture of one packet record with these bytes, 7 seconds after 1970-01-01 00:00:00.
fn one_record(alloc: Global, body: &[u8]) -> Result<Vec<u8>, AllocError> {
    let mut text = Kind::LittleNanos.header(alloc, 4, 1)?;
    for number in [7, 0, 262_144, 262_144] {
        Kind::LittleNanos.number(&mut text, number)?;
    }
    text.extend_from_slice(body)?;
    Ok(text)
}

// Read in pieces of any size, the capture has one record with these bytes.
fn has_one(rt: &impl Abort, alloc: Global, text: &[u8], body: &[u8]) -> Result<(), Fail> {
    for piece in PIECES {
        let mut reader = open(alloc, text, piece, &[], MOST)?;
        has_frame(rt, &mut reader, 7 * SECOND, body);
        stays(rt, &mut reader, FileNote::End);
    }
    Ok(())
}

#[test]
fn largest_record(rt: HostRuntime) -> Result<(), Fail> {
    let body = counted(rt.alloc(), 262_144)?;
    let text = one_record(rt.alloc(), &body)?;
    has_one(&rt, rt.alloc(), &text, &body)
}

// The first `count` bytes of a header with this minor version and link type have this note.
fn has_header(
    rt: &(impl Abort + AllocGlobal),
    (count, minor, link): (usize, u8, u32),
    note: FileNote,
) -> Result<(), Fail> {
    let header = Kind::LittleNanos.header(rt.alloc(), minor, link)?;
    has_records(rt, header.get(..count).unwrap_or(&[]), 0, note)
}

#[test]
fn bad_headers(rt: HostRuntime) -> Result<(), Fail> {
    let rows = [
        // bytes, minor version, link type
        ((23, 4, 1), FileNote::Refused(PcapFault::BadMagic)),
        ((24, 3, 1), FileNote::Refused(PcapFault::BadVersion)),
        ((24, 4, 101), FileNote::Refused(PcapFault::BadLink)),
        ((24, 4, 0xf000_0001), FileNote::End),
    ];
    for (header, note) in rows {
        has_header(&rt, header, note)?;
    }
    Ok(())
}

// A packet record with a header of these numbers has this note.
fn has_head(
    rt: &(impl Abort + AllocGlobal),
    numbers: [u32; 4],
    note: FileNote,
) -> Result<(), Fail> {
    let mut text = Kind::LittleNanos.header(rt.alloc(), 4, 1)?;
    for number in numbers {
        Kind::LittleNanos.number(&mut text, number)?;
    }
    has_records(rt, &text, 0, note)
}

// A fraction of a billion nanoseconds, and more bytes than a packet record may have.
#[test]
fn bad_records(rt: HostRuntime) -> Result<(), Fail> {
    let stamp = FileNote::Refused(PcapFault::BadStamp { rec: 1 });
    has_head(&rt, [1_600_000_000, 1_000_000_000, 56, 56], stamp)?;
    let length = FileNote::Refused(PcapFault::BadLength { rec: 1 });
    let numbers = [1_599_999_999, 999_000_000, 262_145, 262_145];
    has_head(&rt, numbers, length)
}

// Read in pieces of any size, these bytes have the capture timestamps and frames of the capture of two frames.
fn has_frames(rt: &impl Abort, alloc: Global, text: &[u8]) -> Result<(), Fail> {
    for piece in PIECES {
        let mut reader = open(alloc, text, piece, &[], MOST)?;
        for index in 0..41 {
            has_frame(rt, &mut reader, stamp(index), &frame(index));
        }
        stays(rt, &mut reader, FileNote::End);
    }
    Ok(())
}

// The capture of two frames in this byte order and unit.
fn has_order(rt: &(impl Abort + AllocGlobal), kind: Kind) -> Result<(), Fail> {
    let text = capture(rt.alloc(), kind)?;
    has_records(rt, &text, 41, FileNote::End)?;
    has_frames(rt, rt.alloc(), &text)
}

#[test]
fn other_orders(rt: HostRuntime) -> Result<(), Fail> {
    let kinds = [
        Kind::LittleMicros,
        Kind::LittleNanos,
        Kind::BigMicros,
        Kind::BigNanos,
    ];
    for kind in kinds {
        has_order(&rt, kind)?;
    }
    Ok(())
}

#[test]
fn cut_capture(rt: HostRuntime) -> Result<(), Fail> {
    let text = capture(rt.alloc(), Kind::LittleNanos)?;
    same(&rt, &text.len(), &2976);
    let front = text.get(..2914).unwrap_or(&[]);
    has_records(&rt, front, 40, FileNote::Cut { at: 2904 })
}

#[test]
fn compressed_file(rt: HostRuntime) -> Result<(), Fail> {
    let mut text = [0; 100];
    text[0] = 0x1f;
    text[1] = 0x8b;
    has_records(&rt, &text, 0, FileNote::Refused(PcapFault::BadMagic))
}

// Two packet records are read, and then none, though the source has more.
fn stops_at_failure(rt: &impl Abort, reader: &mut PcapReader<MemorySource>) {
    same(rt, &sight(reader), &Ok((stamp(0), 56)));
    same(rt, &sight(reader), &Ok((stamp(1), 56)));
    for _ in 0..3 {
        same(
            rt,
            &sight(reader),
            &Err(FileNote::Refused(PcapFault::ReadFault)),
        );
    }
}

#[test]
fn failed_read(rt: HostRuntime) -> Result<(), Fail> {
    let text = capture(rt.alloc(), Kind::LittleNanos)?;
    stops_at_failure(&rt, &mut open(rt.alloc(), &text, 100, &[3], MOST)?);
    Ok(())
}
