//! Reads, fetches and writes of `check` that fail.

use crate::call::{
    CHECK_TWO, FEW_WAYS, HEADER, JOINED, NARROW, PASS, PLAIN, Reads, Row, SINKS, Sinks, Step,
    WHOLE, hold,
};
use sdp_reader::{SdpCause, SdpFault};
use std::sync::Wait;
use std::test::Fail;
use std::thread::Threads;
use timing_report::{Input, Status};

// An empty SDP.
const NO_TEXT: Row = Row {
    sdp: &[],
    status: Status::SdpRefused(SdpFault {
        line: 1,
        what: SdpCause::NoVersion,
    }),
    out: &[],
    err: "sdp refused: line 1 NoVersion\n",
    ..PASS
};

// Standard error has no room for its line.
static NO_ROOM_FOR_ERR: Row = Row {
    sinks: Sinks {
        room_for_err: 0,
        ..SINKS
    },
    err: "",
    ..NO_TEXT
};

#[test]
fn no_room_for_err(rt: HostRuntime) -> Result<(), Fail> {
    NO_ROOM_FOR_ERR.holds(&rt)
}

// The SDP is refused before the capture is fetched: in one row the first read of the capture would fail, in the other
// its fetch.
const SDP_REFUSED_FIRST_UNREADABLE: Row = Row {
    reads: Reads { fail: 1, ..WHOLE },
    ..NO_TEXT
};

const SDP_REFUSED_FIRST_UNFETCHED: Row = Row {
    reads: Reads {
        fail: 1,
        ..UNFETCHED
    },
    ..NO_TEXT
};

static SDP_REFUSED_FIRST: [Row; 2] = [SDP_REFUSED_FIRST_UNREADABLE, SDP_REFUSED_FIRST_UNFETCHED];

#[test]
fn sdp_refused_first(rt: HostRuntime) -> Result<(), Fail> {
    hold(&rt, &SDP_REFUSED_FIRST)
}

// An SDP that is too large is read up to one byte behind the limit, in 17 reads; an 18th would fail.
static SDP_TOO_LARGE: Row = Row {
    sdp: &[Step::Fill(b'x', 1_048_577)],
    sdp_reads: Reads { fail: 18, ..WHOLE },
    status: Status::SdpRefused(SdpFault {
        line: 0,
        what: SdpCause::TooLarge,
    }),
    err: "sdp refused: line 0 TooLarge\n",
    ..NO_TEXT
};

#[test]
fn sdp_too_large(rt: HostRuntime) -> Result<(), Fail> {
    SDP_TOO_LARGE.holds(&rt)
}

// The first capture can't be read, and nothing is printed.
const FIRST_FAILS: Row = Row {
    status: Status::ReadFault(Input::Capture(0)),
    out: &[],
    err: "read fault: capture 1\n",
    ..PASS
};

// The SDP can't be read.
const SDP_FAILS: Row = Row {
    status: Status::ReadFault(Input::Sdp),
    err: "read fault: sdp\n",
    ..FIRST_FAILS
};

// The second of two captures can't be read.
const SECOND_FAILS: Row = Row {
    line: CHECK_TWO,
    second: &[PLAIN],
    status: Status::ReadFault(Input::Capture(1)),
    err: "read fault: capture 2\n",
    ..FIRST_FAILS
};

// The file can't be fetched.
const UNFETCHED: Reads = Reads {
    fetch_fails: true,
    ..WHOLE
};

// All captures are fetched before the first one is read.
const FETCH_FAILS_SECOND: Row = Row {
    second_reads: UNFETCHED,
    ..SECOND_FAILS
};

const FETCH_FAILS_BEFORE_READS: Row = Row {
    reads: Reads { fail: 1, ..WHOLE },
    ..FETCH_FAILS_SECOND
};

const FETCH_FAILS_FIRST: Row = Row {
    reads: Reads {
        fail: 1,
        ..UNFETCHED
    },
    status: Status::ReadFault(Input::Capture(0)),
    err: "read fault: capture 1\n",
    ..FETCH_FAILS_SECOND
};

const FETCH_FAILS_DESCRIPTION: Row = Row {
    sdp_reads: UNFETCHED,
    status: Status::ReadFault(Input::Sdp),
    err: "read fault: sdp\n",
    ..FETCH_FAILS_FIRST
};

static FETCH_FAILS: [Row; 4] = [
    FETCH_FAILS_SECOND,
    FETCH_FAILS_BEFORE_READS,
    FETCH_FAILS_FIRST,
    FETCH_FAILS_DESCRIPTION,
];

#[test]
fn fetch_fails(rt: HostRuntime) -> Result<(), Fail> {
    hold(&rt, &FETCH_FAILS)
}

// The third read of 100 bytes fails.
const THIRD_FAILS: Reads = Reads {
    piece: 100,
    fail: 3,
    ..WHOLE
};

// If several captures fail, the first of them is named.
const FAILING_READS_SECOND: Row = Row {
    reads: Reads {
        piece: 100,
        ..WHOLE
    },
    second_reads: THIRD_FAILS,
    ..SECOND_FAILS
};

const FAILING_READS_SECOND_OF_JOINED: Row = Row {
    line: JOINED,
    ..FAILING_READS_SECOND
};

const FAILING_READS_BOTH: Row = Row {
    reads: THIRD_FAILS,
    status: Status::ReadFault(Input::Capture(0)),
    err: "read fault: capture 1\n",
    ..FAILING_READS_SECOND
};

const FAILING_READS_BOTH_OF_JOINED: Row = Row {
    line: JOINED,
    ..FAILING_READS_BOTH
};

static FAILING_READS: [Row; 4] = [
    FAILING_READS_SECOND,
    FAILING_READS_SECOND_OF_JOINED,
    FAILING_READS_BOTH,
    FAILING_READS_BOTH_OF_JOINED,
];

#[test]
fn failing_reads(rt: HostRuntime) -> Result<(), Fail> {
    hold(&rt, &FAILING_READS)
}

// Runs a check for each of the first `count` reads of the SDP, which fails; a read has 100 bytes.
fn sdp_reads_fail<R: AllocGlobal + Wait + Threads + Sync>(rt: &R, count: u32) -> Result<(), Fail> {
    let mut row = SDP_FAILS;
    row.sdp_reads.piece = 100;
    for number in 0..count {
        row.sdp_reads.fail = number.saturating_add(1);
        row.holds(rt)?;
    }
    Ok(())
}

// The SDP has 346 bytes: with reads of 100 bytes the fifth read finds its end.
const EACH_READ_OF_SDP_FAILS_SIXTH: Row = Row {
    sdp_reads: Reads {
        piece: 100,
        fail: 6,
        ..WHOLE
    },
    ..PASS
};

#[test]
fn each_read_of_sdp_fails(rt: HostRuntime) -> Result<(), Fail> {
    sdp_reads_fail(&rt, 5)?;
    EACH_READ_OF_SDP_FAILS_SIXTH.holds(&rt)
}

// With less room than the report needs a write fails, and a prefix of the report is written that fills the room.
fn rooms_fail<R: AllocGlobal + Wait + Threads + Sync>(rt: &R, len: usize) -> Result<(), Fail> {
    let mut row = Row {
        ways: FEW_WAYS,
        status: Status::WriteFault,
        err: "write fault\n",
        ..PASS
    };
    for room in 0..len {
        row.sinks.room = room;
        row.holds(rt)?;
    }
    Ok(())
}

// The length of the plain report in bytes.
const LEN: usize = HEADER.len() + NARROW.len() + 9;

const EACH_ROOM_ENOUGH: Row = Row {
    sinks: Sinks { room: LEN, ..SINKS },
    ..PASS
};

#[test]
fn each_room(rt: HostRuntime) -> Result<(), Fail> {
    rooms_fail(&rt, LEN)?;
    EACH_ROOM_ENOUGH.holds(&rt)
}

static FOURTH_WRITE_FAILS: Row = Row {
    sinks: Sinks {
        piece: 10,
        fail: 4,
        ..SINKS
    },
    status: Status::WriteFault,
    out: &["ST 2110-21 timing report\nfile "],
    err: "write fault\n",
    ..PASS
};

#[test]
fn fourth_write_fails(rt: HostRuntime) -> Result<(), Fail> {
    FOURTH_WRITE_FAILS.holds(&rt)
}

// With reads of 100 bytes the capture takes 30 reads, and one more that finds its end.
#[test]
fn each_read_fails(rt: HostRuntime) -> Result<(), Fail> {
    PASS.fails_by_reads(&rt, 31, 32)
}
