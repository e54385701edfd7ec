//! A row: a call of the program over files in memory, and its expected result.

use crate::call::answer::{SINKS, Sinks, answered};
use crate::call::bytes::{joined, part};
use crate::call::lines::{CHECK, HEADER, NARROW};
use crate::call::step::{PLAIN, Step, made};
use std::alloc::{AllocError, Global};
use std::sync::Wait;
use std::test::Fail;
use std::thread::Threads;
use timing_outside::{MemoryShelf, NoGate, ReadPlan};
use timing_report::{Input, Status};

/// The ways to run a check: on one thread, and with these numbers of workers.
pub const WAYS: &[&str] = &[
    "--serial",
    "--workers 1",
    "--workers 2",
    "--workers 3",
    "--workers 7",
    "--workers 16",
];

/// Fewer ways, for rows that take long.
pub const FEW_WAYS: &[&str] = &["--serial", "--workers 1", "--workers 3"];

/// Only the way that stands in the command line.
pub const ONE_WAY: &[&str] = &["--serial"];

/// The plan of the reads of a file.
#[derive(Clone, Copy)]
pub struct Reads {
    /// The greatest number of bytes of a read.
    pub piece: u32,
    /// The number of the read that fails, counted from 1, or 0 if none does.
    pub fail: u32,
    /// Whether fetching the file fails.
    pub fetch_fails: bool,
}

/// A plan where nothing fails, with reads of up to 65,536 bytes.
pub const WHOLE: Reads = Reads {
    piece: 65_536,
    fail: 0,
    fetch_fails: false,
};

/// A call of the program, and its expected result.
#[derive(Clone, Copy)]
pub struct Row {
    /// The arguments, separated by blanks.
    pub line: &'static str,
    /// The options that replace `--serial`, each in a run of its own.
    pub ways: &'static [&'static str],
    /// The steps that make `p.sdp`.
    pub sdp: &'static [Step],
    /// The plan of its reads.
    pub sdp_reads: Reads,
    /// The steps that make `a.pcap`.
    pub capture: &'static [Step],
    /// The plan of its reads.
    pub reads: Reads,
    /// The steps that make `b.pcap`.
    pub second: &'static [Step],
    /// The plan of its reads.
    pub second_reads: Reads,
    /// Whether the shelf has none of these files.
    pub is_empty: bool,
    /// The plan of the sinks.
    pub sinks: Sinks,
    /// The expected status.
    pub status: Status,
    /// The expected text on standard output, in pieces, as far as there is room.
    pub out: &'static [&'static str],
    /// The steps that make the file expected behind that text.
    pub file: &'static [Step],
    /// The expected text on standard error.
    pub err: &'static str,
}

/// The plain capture is judged in all ways, and passes.
pub const PASS: Row = Row {
    line: CHECK,
    ways: WAYS,
    sdp: &[Step::Described],
    sdp_reads: WHOLE,
    capture: &[PLAIN],
    reads: WHOLE,
    second: &[],
    second_reads: WHOLE,
    is_empty: false,
    sinks: SINKS,
    status: Status::Pass,
    out: &[HEADER, NARROW, "status 0\n"],
    file: &[],
    err: "",
};

/// Puts a file on a shelf.
fn put(
    alloc: Global,
    shelf: &mut MemoryShelf,
    name: &str,
    text: &[u8],
    reads: Reads,
) -> Result<(), AllocError> {
    let mut fails = Vec::new(alloc);
    if reads.fail > 0 {
        fails.push(reads.fail)?;
    }
    let plan = ReadPlan {
        fetch_fails: reads.fetch_fails,
        piece: reads.piece.max(1),
        fails,
    };
    capture_gen::examples::put(alloc, shelf, name, text, plan)
}

/// Makes a file by these steps, and puts it on a shelf.
pub fn shelve(
    alloc: Global,
    shelf: &mut MemoryShelf,
    name: &str,
    steps: &[Step],
    reads: Reads,
) -> Result<(), Fail> {
    let text = made(alloc, steps)?;
    Ok(put(alloc, shelf, name, &text, reads)?)
}

impl Row {
    /// Returns a shelf with the files of the row.
    pub fn shelf(&self, alloc: Global) -> Result<MemoryShelf, Fail> {
        let mut shelf = MemoryShelf::new(alloc);
        if !self.is_empty {
            shelve(alloc, &mut shelf, "p.sdp", self.sdp, self.sdp_reads)?;
            shelve(alloc, &mut shelf, "a.pcap", self.capture, self.reads)?;
            shelve(alloc, &mut shelf, "b.pcap", self.second, self.second_reads)?;
        }
        Ok(shelf)
    }

    /// Returns the expected text on standard output.
    fn text(&self, alloc: Global) -> Result<String, AllocError> {
        let mut text = String::new(alloc);
        for part in self.out {
            text.push_str(part)?;
        }
        Ok(text)
    }

    /// Returns all bytes expected on standard output.
    pub fn wanted(&self, alloc: Global) -> Result<Vec<u8>, Fail> {
        let text = self.text(alloc)?;
        let file = made(alloc, self.file)?;
        let len = text.len().min(self.sinks.room);
        Ok(joined(alloc, part(text.as_bytes(), 0, len), &file)?)
    }

    /// Runs the row in one way, and compares the result.
    fn holds_in<R: AllocGlobal + Wait + Threads + Sync>(
        &self,
        rt: &R,
        way: &str,
        wanted: &[u8],
    ) -> Result<(), Fail> {
        let line = self.line.replace(rt.alloc(), "--serial", way)?;
        let mut shelf = self.shelf(rt.alloc())?;
        let found = answered(rt, line.as_str(), self.sinks, &mut shelf, &NoGate)?;
        found.is(line.as_str(), (self.status, wanted, self.err))
    }

    /// Runs the row in each of its ways, and compares the results.
    pub fn holds<R: AllocGlobal + Wait + Threads + Sync>(&self, rt: &R) -> Result<(), Fail> {
        let wanted = self.wanted(rt.alloc())?;
        for way in self.ways {
            self.holds_in(rt, way, &wanted)?;
        }
        Ok(())
    }

    /// Returns the row with a failing read of its first capture, with reads of 100 bytes, and the result of that.
    fn failing(&self, number: u32) -> Row {
        Row {
            reads: Reads {
                piece: 100,
                fail: number,
                fetch_fails: false,
            },
            status: Status::ReadFault(Input::Capture(0)),
            out: &[],
            err: "read fault: capture 1\n",
            ..*self
        }
    }

    /// Runs the row once for each of the first `count` reads of the first capture, which fails; a read has 100 bytes.
    /// Then runs it with a failing read `past`, a number that isn't reached, with its own result.
    pub fn fails_by_reads<R: AllocGlobal + Wait + Threads + Sync>(
        &self,
        rt: &R,
        count: u32,
        past: u32,
    ) -> Result<(), Fail> {
        for number in 0..count {
            self.failing(number.saturating_add(1)).holds(rt)?;
        }
        let mut row = *self;
        row.reads.piece = 100;
        row.reads.fail = past;
        row.holds(rt)
    }
}

/// Runs rows, and compares the results.
pub fn hold<R: AllocGlobal + Wait + Threads + Sync>(rt: &R, rows: &[Row]) -> Result<(), Fail> {
    for row in rows {
        row.holds(rt)?;
    }
    Ok(())
}
