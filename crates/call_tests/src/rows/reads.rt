//! Reads of a capture or a report that fail, for each command except `check`.

use super::plain::{
    EXPLAINED, FIRST_FRAME, FRAMES, LISTED, MEASURED, PACKETS, SECOND_FRAME, WATCHED, WINDOW,
};
use crate::call::{ONE_WAY, PASS, Reads, Row, Step, WHOLE, hold};
use std::sync::Wait;
use std::test::Fail;
use std::thread::Threads;
use timing_report::{Input, Status};

#[test]
fn window_failing_reads(rt: HostRuntime) -> Result<(), Fail> {
    WINDOW.fails_by_reads(&rt, 30, 1000)
}

#[test]
fn shape_failing_reads(rt: HostRuntime) -> Result<(), Fail> {
    LISTED.fails_by_reads(&rt, 30, 1000)
}

#[test]
fn measure_failing_reads(rt: HostRuntime) -> Result<(), Fail> {
    MEASURED.fails_by_reads(&rt, 30, 1000)
}

// A read fails before the end of the first frame, at byte 1,536: nothing is printed.
#[test]
fn series_failing_reads(rt: HostRuntime) -> Result<(), Fail> {
    PACKETS.fails_by_reads(&rt, 16, 1000)
}

// A read fails behind the first frame: its row is printed.
const FAILS_BEHIND_FRAME: Row = Row {
    reads: Reads {
        piece: 100,
        fail: 17,
        ..WHOLE
    },
    status: Status::ReadFault(Input::Capture(0)),
    out: &[
        "run,group,record,stamp,first,last,timestamp,step,offset,latency,bucket,gapped_least,gapped,linear_least,linear\n1,0,2,1600000000000764000,764000,19004000,1800,,1663502088,-1663502020,1,1,1,1,1\n",
    ],
    err: "read fault: capture 1\n",
    ..FRAMES
};

static SERIES_FAILS_LATER: [Row; 2] = [
    FAILS_BEHIND_FRAME,
    Row {
        reads: Reads {
            piece: 100,
            fail: 30,
            ..WHOLE
        },
        ..FAILS_BEHIND_FRAME
    },
];

#[test]
fn series_failing_reads_later(rt: HostRuntime) -> Result<(), Fail> {
    hold(&rt, &SERIES_FAILS_LATER)
}

#[test]
fn explain_failing_reads(rt: HostRuntime) -> Result<(), Fail> {
    EXPLAINED.fails_by_reads(&rt, 30, 1000)
}

// A read fails before the end of the first frame, at byte 1,536: nothing is printed.
#[test]
fn watch_failing_reads(rt: HostRuntime) -> Result<(), Fail> {
    WATCHED.fails_by_reads(&rt, 16, 1000)
}

// A read fails behind the first frame: its line is printed.
const WATCH_FAILS_BEHIND_FRAME: Row = Row {
    reads: Reads {
        piece: 100,
        fail: 17,
        ..WHOLE
    },
    status: Status::ReadFault(Input::Capture(0)),
    out: &[FIRST_FRAME],
    err: "read fault: capture 1\n",
    ..WATCHED
};

// The 30th read has the last bytes, from 2,900 on, and the 31st finds the end of the capture.
static WATCH_FAILS_LATER: [Row; 3] = [
    WATCH_FAILS_BEHIND_FRAME,
    Row {
        reads: Reads {
            piece: 100,
            fail: 30,
            ..WHOLE
        },
        ..WATCH_FAILS_BEHIND_FRAME
    },
    Row {
        reads: Reads {
            piece: 100,
            fail: 31,
            ..WHOLE
        },
        out: &[FIRST_FRAME, SECOND_FRAME],
        ..WATCH_FAILS_BEHIND_FRAME
    },
];

#[test]
fn watch_failing_reads_later(rt: HostRuntime) -> Result<(), Fail> {
    hold(&rt, &WATCH_FAILS_LATER)
}

const SCANNED: Row = Row {
    line: "scan --json a.pcap",
    ways: ONE_WAY,
    out: &[
        "{\"end\":\"end\",\"first\":1599999999999000000,\"last\":1600000000039004000,\"more\":0,\"name\":\"a.pcap\",\"passed_over\":{\"broken\":0,\"empty\":0,\"fragment\":0,\"ipv6\":0,\"not_udp\":0,\"other\":0,\"tags\":0},\"records\":41,\"streams\":[{\"back\":0,\"bytes\":1722,\"first\":{\"record\":1,\"stamp\":1599999999999000000},\"frame\":{\"greatest\":20,\"least\":20},\"last\":{\"record\":41,\"stamp\":1600000000039004000},\"lost\":0,\"markers\":3,\"packets\":41,\"pt\":96,\"pts\":0,\"rate\":{\"steps\":2,\"ticks\":3600},\"same\":0,\"source\":\"192.0.2.1:50000\",\"ssrc\":\"00000001\",\"step\":{\"greatest\":1800,\"least\":1800},\"target\":\"239.0.0.1:50000\",\"wraps\":0}],\"unread\":[]}\n",
    ],
    ..PASS
};

#[test]
fn scan_failing_reads(rt: HostRuntime) -> Result<(), Fail> {
    SCANNED.fails_by_reads(&rt, 30, 1000)
}

// Two media on two paths: the plain capture, and that of the second path.
const PAIR: Row = Row {
    line: "skew --sdp p.sdp --media 1 --pair 2 a.pcap b.pcap",
    ways: ONE_WAY,
    sdp: &[Step::TwoPaths],
    second: &[Step::SecondPath],
    out: &[
        "file 1 end a.pcap\nfile 2 end b.pcap\npair 1.1 2.2: matched 40, first only 1, second only 0, repeated 0, unread 0\nleast 150 ns at records 1 and 1\ngreatest 900 ns at records 5 and 5\n",
    ],
    ..PASS
};

// Runs the comparison for each of the first 29 reads of the second capture, which fails; a read has 100 bytes.
fn second_reads_fail<R: AllocGlobal + Wait + Threads + Sync>(rt: &R) -> Result<(), Fail> {
    let mut row = Row {
        status: Status::ReadFault(Input::Capture(1)),
        out: &[],
        err: "read fault: capture 2\n",
        ..PAIR
    };
    row.second_reads.piece = 100;
    for number in 1..30 {
        row.second_reads.fail = number;
        row.holds(rt)?;
    }
    Ok(())
}

// If a read of each capture fails, the first capture is named.
const SKEW_FAILING_READS_BOTH: Row = Row {
    reads: Reads {
        piece: 100,
        fail: 7,
        ..WHOLE
    },
    second_reads: Reads {
        piece: 100,
        fail: 29,
        ..WHOLE
    },
    status: Status::ReadFault(Input::Capture(0)),
    out: &[],
    err: "read fault: capture 1\n",
    ..PAIR
};

const SKEW_FAILING_READS_FIRST: Row = Row {
    second_reads: Reads {
        piece: 100,
        fail: 1000,
        ..WHOLE
    },
    ..PAIR
};

#[test]
fn skew_failing_reads(rt: HostRuntime) -> Result<(), Fail> {
    second_reads_fail(&rt)?;
    SKEW_FAILING_READS_BOTH.holds(&rt)?;
    SKEW_FAILING_READS_FIRST.fails_by_reads(&rt, 30, 1000)
}

// The capture with a burst in its second frame, split in two; the second part begins within the first frame.
static VERIFY_JOINED_FAILING_READ: Row = Row {
    line: "verify --joined --sdp p.sdp --media 1 --type N --model Bucket --from 20 --to 24 --count 5 --limit 4 a.pcap b.pcap",
    ways: ONE_WAY,
    capture: &[Step::Made(1), Step::Part(0, 1464)],
    second: &[Step::Made(1), Step::Without(24, 1464)],
    second_reads: Reads {
        piece: 100,
        fail: 3,
        ..WHOLE
    },
    status: Status::ReadFault(Input::Capture(1)),
    out: &[],
    err: "read fault: capture 2\n",
    ..PASS
};

#[test]
fn verify_joined_failing_read(rt: HostRuntime) -> Result<(), Fail> {
    VERIFY_JOINED_FAILING_READ.holds(&rt)
}

// The report of a linear sender, in `b.pcap`: in one row its second read fails, in the other its fetch.
const FAILING_REPORT_READ: Row = Row {
    line: "verify-report --sdp p.sdp --report b.pcap a.pcap",
    ways: ONE_WAY,
    second: &[Step::Bytes(
        b"{\"flows\":[{\"file\":1,\"media\":1,\"types\":[{\"type\":\"N\",\"proof\":{\"count\":1,\"from\":1,\"limit\":2,\"model\":\"Empty\",\"to\":1}},{\"type\":\"NL\"}]}]}",
    )],
    second_reads: Reads {
        piece: 100,
        fail: 2,
        ..WHOLE
    },
    status: Status::ReadFault(Input::Report),
    out: &[],
    err: "read fault: report\n",
    ..PASS
};

const FAILING_REPORT_FETCH: Row = Row {
    second_reads: Reads {
        fetch_fails: true,
        ..WHOLE
    },
    ..FAILING_REPORT_READ
};

static FAILING_REPORT: [Row; 2] = [FAILING_REPORT_READ, FAILING_REPORT_FETCH];

#[test]
fn failing_report(rt: HostRuntime) -> Result<(), Fail> {
    hold(&rt, &FAILING_REPORT)
}
