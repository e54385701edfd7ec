//! The steps that make the files of a row.

use crate::call::bytes::{filled, joined, part, patched};
use capture_gen::examples::{described, second_path, two_paths};
use capture_gen::{capture_len, write_capture};
use std::alloc::{AllocError, Global};
use std::test::Fail;
use timing_outside::MemorySink;

/// A step that makes a file from the bytes of the steps before it; there are none at first.
#[derive(Clone, Copy)]
pub enum Step {
    /// A generated capture of two frames with this flaw, from 0 to 4.
    Made(u32),
    /// A generated capture of this many frames, from 1 to 20,000.
    Frames(u32),
    /// The capture of the second path.
    SecondPath,
    /// The plain SDP.
    Described,
    /// The SDP of media on two paths.
    TwoPaths,

    /// Appends these bytes.
    Bytes(&'static [u8]),
    /// Appends this byte this many times.
    Fill(u8, u32),

    /// Keeps only the bytes from the first number up to, but not including, the second.
    Part(usize, usize),
    /// Removes these bytes.
    Without(usize, usize),
    /// Overwrites the bytes from a place on.
    Patch(usize, &'static [u8]),
}

/// The plain capture: two frames of 20 packets, behind a packet with the marker of the frame before.
pub const PLAIN: Step = Step::Made(0);

/// Returns a generated capture of this many frames, with this flaw.
fn made_capture(alloc: Global, frames: u32, flaw: u32) -> Result<Vec<u8>, Fail> {
    if frames == 0 || frames > 20_000 || flaw > 4 {
        return Err(Fail::new("no capture is made so"));
    }
    let mut sink = MemorySink::new(alloc, capture_len(frames, flaw))?;
    write_capture(0, frames, flaw, &mut sink)?;
    Ok(Vec::from_slice(alloc, sink.bytes())?)
}

/// Returns the bytes of a step that begins a file.
fn begun(alloc: Global, step: Step) -> Result<Vec<u8>, AllocError> {
    match step {
        Step::SecondPath => second_path(alloc),
        Step::Described => described(alloc, "", ""),
        Step::TwoPaths => two_paths(alloc),
        _ => Ok(Vec::new(alloc)),
    }
}

/// Returns these bytes after a step.
fn formed(alloc: Global, step: Step, bytes: &[u8]) -> Result<Vec<u8>, AllocError> {
    match step {
        Step::Bytes(more) => joined(alloc, bytes, more),
        Step::Fill(byte, count) => filled(alloc, bytes, byte, count),
        Step::Part(from, to) => Vec::from_slice(alloc, part(bytes, from, to)),
        Step::Without(from, to) => {
            joined(alloc, part(bytes, 0, from), part(bytes, to, bytes.len()))
        }
        Step::Patch(at, with) => patched(alloc, bytes, at, with),
        _ => begun(alloc, step),
    }
}

/// Returns these bytes after a step, which may be a generated capture.
fn stepped(alloc: Global, step: Step, bytes: &[u8]) -> Result<Vec<u8>, Fail> {
    match step {
        Step::Made(flaw) => made_capture(alloc, 2, flaw),
        Step::Frames(frames) => made_capture(alloc, frames, 0),
        _ => Ok(formed(alloc, step, bytes)?),
    }
}

/// Returns the file that these steps make.
pub fn made(alloc: Global, steps: &[Step]) -> Result<Vec<u8>, Fail> {
    let mut bytes = Vec::new(alloc);
    for step in steps {
        bytes = stepped(alloc, *step, &bytes)?;
    }
    Ok(bytes)
}
