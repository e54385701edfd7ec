ghost use Rattle.std.specs.Prelude.{◌≡◌, ◌≤◌, ◌^◌, None, IfOk};
ghost use Rattle.pcap_reader.specs.Readers.{end_note, frame_count, most_of};

use super::compare::{same, same_at};
use capture_gen::examples::{FRAME, HEAD, source_of};
use fail_interval::Bank;
use pcap_reader::{MOST, PcapReader, Taken, take_records};
use std::alloc::{AllocError, Global};
use std::process::Abort;
use std::test::Fail;
use timing_base::worked::undeclared_to;
use timing_base::{
    FileNote, FlowKey, FlowOptions, PacketFault, PcapFault, Row, Shift, Unjudged, Verdict,
};
use timing_outside::{MemorySource, OpenFault};

// A frame to port 50000 + `more`, with this packet number, with or without the marker. Each `group` has an RTP
// timestamp of its own.
pub fn frame(more: u8, number: u8, marker: bool, group: u8) -> [u8; 56] {
    let mut bytes = FRAME;
    bytes[37] = more.saturating_add(0x50);
    bytes[43] = if marker { 0xe0 } else { 0x60 };
    bytes[45] = number;
    bytes[47] = group;
    bytes
}

// Appends a packet record with the first `captured` bytes of a frame.
pub fn put(
    text: &mut Vec<u8>,
    nanos: u32,
    frame: &[u8; 56],
    captured: u8,
) -> Result<(), AllocError> {
    let captured = captured.min(56);
    for number in [1_600_000_000, nanos, u32::from(captured), 56] {
        text.extend_from_slice(&number.to_le_bytes())?;
    }
    text.extend_from_slice(&frame[..usize::from(captured)])
}

// Seven packet records: three packets to port 50000, the second with the marker; two to port 50001, the first of them
// too short; one to port 50009; and a frame that was cut within its ports.
fn capture(alloc: Global) -> Result<Vec<u8>, AllocError> {
    let mut text = Vec::from_slice(alloc, &HEAD)?;
    put(&mut text, 1000, &frame(0, 0, false, 0), 56)?;
    put(&mut text, 2000, &frame(1, 0, false, 0), 40)?;
    put(&mut text, 3000, &frame(9, 0, false, 0), 56)?;
    put(&mut text, 4000, &frame(0, 1, true, 0), 56)?;
    put(&mut text, 5000, &frame(1, 1, true, 0), 56)?;
    put(&mut text, 6000, &frame(0, 2, false, 0), 37)?;
    put(&mut text, 7000, &frame(0, 2, false, 1), 56)?;
    Ok(text)
}

// A reader of these bytes, which a source gives in pieces of 100 bytes; the reads with these numbers fail.
pub fn open(
    alloc: Global,
    text: &[u8],
    fails: &[u32],
) -> Result<PcapReader<MemorySource>, OpenFault>
    ensures fresh { IfOk result (λ reader. end_note reader ≡ None) }
    ensures first { IfOk result (λ reader. frame_count reader ≡ 0) }
    ensures most { IfOk result (λ reader. most_of reader ≤ 2 ^ 40) }
{
    let source = source_of(alloc, text, 100, fails)?;
    match PcapReader::start(alloc, source, MOST) {
        Ok(reader) => Ok(reader),
        Err(_) => Err(OpenFault::OutOfMemory),
    }
}

// The result of a bank for the media at ports 50000 to 50002, in file 2, after 100 packet records and these bytes.
fn taken(alloc: Global, text: &[u8], fails: &[u32]) -> Result<(Taken, Vec<Row>), OpenFault> {
    let all = [
        undeclared_to(50_000),
        undeclared_to(50_001),
        undeclared_to(50_002),
    ];
    let options = FlowOptions {
        shift: Shift { tai: 37, delay: 0 },
        seq16: false,
    };
    let mut bank = Bank::new(alloc, &all, 2, options)?;
    let mut reader = open(alloc, text, fails)?;
    let taken = take_records(&mut reader, 100, &mut bank)?;
    let mut rows = Vec::new(alloc);
    bank.finish(&mut rows)?;
    Ok((taken, rows))
}

// There are three results, one for each media of file 2.
fn has_keys(rt: &impl Abort, rows: &[Row]) {
    assert!(rt; rows.len() == 3);
    for (number, row) in rows.iter().enumerate() {
        let key = FlowKey {
            file: 2,
            media: number as u32,
        };
        same(rt, &row.key, &key);
    }
}

// These bytes have this note and number of packet records, and a result for each media.
fn comes_to(rt: &impl Abort, alloc: Global, text: &[u8], want: Taken) -> Result<(), Fail> {
    let (taken, rows) = taken(alloc, text, &[])?;
    same(rt, &taken, &want);
    has_keys(rt, &rows);
    Ok(())
}

#[test]
fn one_row_for_each_media(rt: HostRuntime) -> Result<(), Fail> {
    let text = capture(rt.alloc())?;
    let want = Taken {
        note: FileNote::End,
        records: 7,
    };
    comes_to(&rt, rt.alloc(), &text, want)
}

// The reason why this flow isn't judged.
fn reason(rows: &[Row], place: usize) -> Option<Unjudged> {
    match &rows.get(place)?.verdict {
        Verdict::Unjudged(unjudged) => Some(*unjudged),
        _ => None,
    }
}

// None of the flows is judged, for these reasons.
fn has_reasons(rt: &impl Abort, rows: &[Row], reasons: &[Unjudged]) {
    for (place, want) in reasons.iter().enumerate() {
        same_at(rt, &place, &reason(rows, place), &Some(*want));
    }
}

// The first media has two packets up to its only marker; the first packet of the second media is in record 102 and too
// short; the third media has no packet.
#[test]
fn each_media_has_its_own_packets(rt: HostRuntime) -> Result<(), Fail> {
    let text = capture(rt.alloc())?;
    let (_, rows) = taken(rt.alloc(), &text, &[])?;
    let want = [
        Unjudged::NoWholeFrame { head: 2 },
        Unjudged::Refused {
            rec: 102,
            fault: PacketFault::Short,
        },
        Unjudged::Absent,
    ];
    has_reasons(&rt, &rows, &want);
    Ok(())
}

#[test]
fn cut_capture(rt: HostRuntime) -> Result<(), Fail> {
    let text = capture(rt.alloc())?;
    let want = Taken {
        note: FileNote::Cut { at: 152 },
        records: 2,
    };
    comes_to(&rt, rt.alloc(), text.get(..200).unwrap_or(&[]), want)
}

// If the read with this number fails, the note is `ReadFault`.
fn fails_at(rt: &impl Abort, alloc: Global, text: &[u8], number: u32) -> Result<(), Fail> {
    let (taken, _) = taken(alloc, text, &[number])?;
    let want = FileNote::Refused(PcapFault::ReadFault);
    same_at(rt, &number, &taken.note, &want);
    Ok(())
}

#[test]
fn failed_read(rt: HostRuntime) -> Result<(), Fail> {
    let text = capture(rt.alloc())?;
    for number in 1..7 {
        fails_at(&rt, rt.alloc(), &text, number)?;
    }
    Ok(())
}
