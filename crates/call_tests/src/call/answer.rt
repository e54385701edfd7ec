//! Calls of the program, and the comparison of their results.

use std::alloc::{AllocError, Global};
use std::fmt::Display;
use std::str;
use std::sync::Wait;
use std::test::Fail;
use std::thread::Threads;
use timing_outside::{Gate, MemorySink, Shelf, WritePlan};
use timing_report::Status;
use timing_top::run;

/// The plan of the sinks of a call.
#[derive(Clone, Copy)]
pub struct Sinks {
    /// The bytes that standard output has room for.
    pub room: usize,
    /// The bytes that standard error has room for.
    pub room_for_err: u64,
    /// The greatest number of bytes of a write on standard output.
    pub piece: u32,
    /// The number of the write on standard output that fails, counted from 1, or 0 if none does.
    pub fail: u32,
}

/// Sinks with room for everything, where no write fails.
pub const SINKS: Sinks = Sinks {
    room: 8192,
    room_for_err: 4096,
    piece: 65_536,
    fail: 0,
};

/// The status of a call, and its sinks.
#[derive(Drop)]
pub struct Outcome {
    /// The status.
    pub status: Status,
    /// Standard output.
    pub out: MemorySink,
    /// Standard error.
    pub err: MemorySink,
}

/// Returns a failure with this text if `is` is false.
fn holds<D: Display + Drop>(is: bool, otherwise: D) -> Result<(), Fail> {
    if is {
        Ok(())
    } else {
        Err(Fail::new(otherwise))
    }
}

/// Returns bytes as text, if they are UTF-8.
fn told(bytes: &[u8]) -> &str {
    str::from_utf8(bytes).unwrap_or("bytes that are no text")
}

impl Outcome {
    /// Returns a failure if the call of this command line didn't end with the expected status, or standard error
    /// differs.
    pub fn ended(&self, line: &str, wanted: (Status, &str)) -> Result<(), Fail> {
        let (status, err) = (self.status, self.err.bytes());
        holds(
            status == wanted.0,
            format_args!("{line}: ended with {status:?}"),
        )?;
        holds(
            err == wanted.1.as_bytes(),
            format_args!("{line}: on standard error: {}", told(err)),
        )
    }

    /// Returns a failure if the status, standard output or standard error isn't what was expected of this command line.
    pub fn is(&self, line: &str, wanted: (Status, &[u8], &str)) -> Result<(), Fail> {
        self.ended(line, (wanted.0, wanted.2))?;
        let out = self.out.bytes();
        holds(
            out == wanted.1,
            format_args!("{line}: on standard output: {}", told(out)),
        )
    }
}

/// Returns the arguments of a command line, which are separated by blanks.
fn words_of(alloc: Global, line: &str) -> Result<Vec<String>, AllocError> {
    let mut words = Vec::new(alloc);
    for word in line.split(' ') {
        if !word.is_empty() {
            words.push(String::from_str(alloc, word)?)?;
        }
    }
    Ok(words)
}

/// Returns a standard output with this plan.
fn sink_of(alloc: Global, sinks: Sinks) -> Result<MemorySink, AllocError> {
    let mut fails = Vec::new(alloc);
    if sinks.fail > 0 {
        fails.push(sinks.fail)?;
    }
    let piece = sinks.piece.max(1);
    MemorySink::with_plan(alloc, sinks.room as u64, WritePlan { piece, fails })
}

/// Runs a command line over a shelf.
pub fn answered<R: AllocGlobal + Wait + Threads + Sync, H: Shelf, G: Gate>(
    rt: &R,
    line: &str,
    sinks: Sinks,
    shelf: &mut H,
    gate: &G,
) -> Result<Outcome, AllocError>
where
    H::Source: Send,
{
    let alloc = rt.alloc();
    let words = words_of(alloc, line)?;
    let mut out = sink_of(alloc, sinks)?;
    let mut err = MemorySink::new(alloc, sinks.room_for_err)?;
    let status = run(rt, alloc, &words, shelf, &mut out, &mut err, gate);
    Ok(Outcome { status, out, err })
}
