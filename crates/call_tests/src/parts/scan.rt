//! A scan of a few packet records, laid out by hand.

ghost use Rattle.std.specs.Prelude.{◌≤◌};
ghost use Rattle.capture_scan.specs.Stands.{count_records};

use super::compare::same;
use capture_scan::{Found, Line, Packet, Scan, Seen, Span, Stream, UnreadTarget, look_at};
use std::alloc::Global;
use std::process::Abort;
use std::test::Fail;
use timing_base::{Address, Rtp, Target};

// A packet with the marker from 192.0.2.1 to 239.0.0.1, with the first line header of a field.
const FRAME: [u8; 62] = [
    0x01, 0x00, 0x5e, 0x00, 0x00, 0x01, // destination
    0x02, 0x00, 0x00, 0x00, 0x00, 0x01, // source
    0x08, 0x00, // IPv4
    0x45, 0x00, 0x00, 0x30, // version 4, 5 words, service, total length 48
    0x00, 0x00, 0x40, 0x00, // identification, DF, offset 0
    0x40, 0x11, 0x00, 0x00, // time to live, UDP, checksum
    0xc0, 0x00, 0x02, 0x01, // 192.0.2.1
    0xef, 0x00, 0x00, 0x01, // 239.0.0.1
    0x13, 0x88, 0xc3, 0x50, // ports 5000 and 50000
    0x00, 0x1c, 0x00, 0x00, // length 28, checksum
    0x80, 0xe0, 0x00, 0x08, // version 2; marker, payload type 96; sequence number 8
    0x00, 0x00, 0x07, 0x08, // timestamp 1800
    0x00, 0x00, 0x00, 0x01, // SSRC
    0x00, 0x01, // extended sequence number
    0x07, 0x80, 0x82, 0x1b, 0x00, 0x00, // line header: 1,920 bytes, line 539 of the second field; none of them follows
];

const SOURCE: Target = Target {
    address: Address { bits: 0xc000_0201 },
    port: 5000,
};

const TARGET: Target = Target {
    address: Address { bits: 0xef00_0001 },
    port: 50_000,
};

#[test]
fn sees_a_packet(rt: HostRuntime) {
    let packet = Packet {
        rec: 7,
        at: 70,
        source: SOURCE,
        target: TARGET,
        length: 48,
        rtp: Rtp {
            number: 65_544,
            timestamp: 1800,
            marker: true,
            pt: 96,
            ssrc: 1,
        },
        line: Some(Line {
            number: 539,
            second_field: true,
            fits: false,
        }),
    };
    same(&rt, &look_at(7, 70, &FRAME), &Seen::Read(packet));
}

// A scan, and the number of packet records that it was given.
#[derive(Drop)]
struct Counted {
    scan: Scan,
    records: u64,
    ghost counted: { count_records scan ≤ records },
}

impl Counted {
    fn new(alloc: Global) -> Counted {
        Counted {
            scan: Scan::new(alloc),
            records: 0,
        }
    }

    // Takes the next packet record. Asserts what `take` requires, since a proof does not count the calls.
    fn take(&mut self, rt: &impl Abort, at: u64, frame: &[u8]) -> Result<(), Fail> {
        assert!(rt; self.records < 1 << 41);
        self.records += 1;
        self.scan.take(self.records, at, frame)?;
        Ok(())
    }
}

// The result for five packet records: a packet, one with another SSRC, one that was cut, no frame, and a packet behind
// a lost one.
fn five_records(rt: &impl Abort, alloc: Global) -> Result<Found, Fail> {
    let mut other = FRAME;
    other[53] = 2; // SSRC
    let mut later = FRAME;
    later[45] = 10; // sequence number
    let mut counted = Counted::new(alloc);
    counted.take(rt, 10, &FRAME)?;
    counted.take(rt, 20, &other)?;
    counted.take(rt, 30, &FRAME[..40])?;
    counted.take(rt, 40, &FRAME[..0])?;
    counted.take(rt, 50, &later)?;
    let found = counted.scan.finish(alloc)?;
    Ok(found)
}

// The stream has two packets of 48 bytes, and one between them is lost.
fn check_stream(rt: &impl Abort, stream: &Stream) {
    same(rt, &stream.ssrc, &1);
    same(rt, &stream.packets, &2);
    same(rt, &stream.order.lost, &1);
    same(rt, &stream.bytes, &96);
}

fn check_found(rt: &impl Abort, found: &Found) {
    same(rt, &found.records, &5);
    same(
        rt,
        &found.span,
        &Some(Span {
            first: 10,
            last: 50,
        }),
    );
    same(rt, &found.passed_over.empty, &1);
    same(rt, &found.more, &0);
    same(rt, &found.streams.len(), &2);
    let Some(stream) = found.streams.first() else {
        panic!(rt; "no stream");
    };
    check_stream(rt, stream);
    let Some(unread) = found.unread.first() else {
        panic!(rt; "no unread packet");
    };
    same(
        rt,
        unread,
        &UnreadTarget {
            target: TARGET,
            packets: 1,
        },
    );
}

#[test]
fn scans_records(rt: HostRuntime) -> Result<(), Fail> {
    let found = five_records(&rt, rt.alloc())?;
    check_found(&rt, &found);
    Ok(())
}
