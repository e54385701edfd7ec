//! Standard output without room for the whole output, for each command except `check`.

use super::plain::{EXPLAINED, MEASURED, PACKETS, PAGE_LINE, WATCHED};
use crate::call::{ONE_WAY, PASS, Row, SINKS, Sinks, hold};
use std::test::Fail;
use timing_report::Status;

// Standard output has room for the first 8 bytes of a text that is written at once.
static MEASURE_WITHOUT_ROOM: Row = Row {
    sinks: Sinks { room: 8, ..SINKS },
    status: Status::WriteFault,
    out: &["{\"end\":\""],
    err: "write fault\n",
    ..MEASURED
};

#[test]
fn measure_without_room(rt: HostRuntime) -> Result<(), Fail> {
    MEASURE_WITHOUT_ROOM.holds(&rt)
}

// The write of the header fails, or that of a row. A prefix of the text is written.
const SERIES_WITHOUT_ROOM_HEADER: Row = Row {
    sinks: Sinks { room: 8, ..SINKS },
    status: Status::WriteFault,
    err: "write fault\n",
    ..PACKETS
};

const SERIES_WITHOUT_ROOM_ROW: Row = Row {
    sinks: Sinks { room: 100, ..SINKS },
    ..SERIES_WITHOUT_ROOM_HEADER
};

static SERIES_WITHOUT_ROOM: [Row; 2] = [SERIES_WITHOUT_ROOM_HEADER, SERIES_WITHOUT_ROOM_ROW];

#[test]
fn series_without_room(rt: HostRuntime) -> Result<(), Fail> {
    hold(&rt, &SERIES_WITHOUT_ROOM)
}

static PAGE_WITHOUT_ROOM: Row = Row {
    line: PAGE_LINE,
    ways: ONE_WAY,
    sinks: Sinks { room: 15, ..SINKS },
    status: Status::WriteFault,
    out: &["<!DOCTYPE html>"],
    err: "write fault\n",
    ..PASS
};

#[test]
fn page_without_room(rt: HostRuntime) -> Result<(), Fail> {
    PAGE_WITHOUT_ROOM.holds(&rt)
}

static EXPLAIN_WITHOUT_ROOM: Row = Row {
    sinks: Sinks { room: 17, ..SINKS },
    status: Status::WriteFault,
    out: &["1 239.0.0.1:50000"],
    err: "write fault\n",
    ..EXPLAINED
};

#[test]
fn explain_without_room(rt: HostRuntime) -> Result<(), Fail> {
    EXPLAIN_WITHOUT_ROOM.holds(&rt)
}

// The write of the first line fails, of the second, or of the report. A prefix of the text is written.
const WATCH_WITHOUT_ROOM_FIRST: Row = Row {
    sinks: Sinks { room: 8, ..SINKS },
    status: Status::WriteFault,
    err: "write fault\n",
    ..WATCHED
};

const WATCH_WITHOUT_ROOM_SECOND: Row = Row {
    sinks: Sinks { room: 200, ..SINKS },
    ..WATCH_WITHOUT_ROOM_FIRST
};

const WATCH_WITHOUT_ROOM_REPORT: Row = Row {
    sinks: Sinks { room: 400, ..SINKS },
    ..WATCH_WITHOUT_ROOM_FIRST
};

static WATCH_WITHOUT_ROOM: [Row; 3] = [
    WATCH_WITHOUT_ROOM_FIRST,
    WATCH_WITHOUT_ROOM_SECOND,
    WATCH_WITHOUT_ROOM_REPORT,
];

#[test]
fn watch_without_room(rt: HostRuntime) -> Result<(), Fail> {
    hold(&rt, &WATCH_WITHOUT_ROOM)
}

// No file is fetched.
const HELP_WITHOUT_ROOM: Row = Row {
    line: "help skew",
    ways: ONE_WAY,
    is_empty: true,
    sinks: Sinks { room: 8, ..SINKS },
    status: Status::WriteFault,
    out: &["skew --s"],
    err: "write fault\n",
    ..PASS
};

const SELFTEST_WITHOUT_ROOM: Row = Row {
    line: "selftest 2",
    out: &["flaw 0: "],
    ..HELP_WITHOUT_ROOM
};

static HELP_AND_SELFTEST_WITHOUT_ROOM: [Row; 2] = [HELP_WITHOUT_ROOM, SELFTEST_WITHOUT_ROOM];

#[test]
fn help_and_selftest_without_room(rt: HostRuntime) -> Result<(), Fail> {
    hold(&rt, &HELP_AND_SELFTEST_WITHOUT_ROOM)
}
