//! Explains a status on standard error, after its first line.

ghost use Rattle.std.specs.Prelude.{ℕ, List};
ghost use Rattle.std.specs.Io.KnownBytes.{Appends};

use crate::start::Arguments;
use std::alloc::{AllocError as OutOfMemory, Global};
use std::fs;
use std::rt::Files;
use timing_base::FileName;
use timing_outside::{FileShelf, Sink, put_all};
use timing_report::Status;
use timing_steps::Failure;
use timing_words::{Request, WordFault, read_words};
use usage_hints::{Ending, JoinedFlows, Refusal, hint, input_name};

/// The greatest size of joined captures that are read once more, in bytes of all of them.
const MOST: u64 = 17_179_869_184;

/// What keeps for a name why it couldn't be opened or read.
pub(crate) trait Causes {
    /// Returns the cause that was kept for a name, as text. Returns `Err` if memory runs out.
    fn cause_of(&self, alloc: Global, name: &str) -> Result<Option<String>, OutOfMemory>;
}

impl<R: Files + AllocGlobal + Drop> Causes for FileShelf<R> {
    fn cause_of(&self, alloc: Global, name: &str) -> Result<Option<String>, OutOfMemory> {
        match self.fault_of(name) {
            Some(fault) => Ok(Some(format!(in alloc; "{fault}")?)),
            None => Ok(None),
        }
    }
}

/// Returns how a run ended, with the name of the input that its status is about, the cause that was kept for it, and
/// its contents, and with the flows of joined captures that aren't judged.
fn ending_of<'a>(
    arguments: &'a Arguments,
    status: Status,
    name: &'a Option<String>,
    cause: &'a Option<String>,
    contents: &'a Option<Vec<u8>>,
    refusals: &'a [Refusal<'a>],
) -> Ending<'a> {
    let input = name.as_ref().map(|name| name.as_str());
    let cause = cause.as_ref().map(|cause| cause.as_str());
    let contents = contents.as_ref().map(|contents| contents.as_slice());
    Ending {
        words: &arguments.words,
        are_text: arguments.are_text,
        status,
        input,
        cause,
        contents,
        refusals,
    }
}

/// Returns the size of the regular file of this name, which can be read more than once, in bytes. Returns `None` if the
/// name isn't that of a regular file.
fn regular_size<R: Files>(rt: &R, name: &str) -> Option<u64> {
    match fs::metadata(rt, name) {
        Ok(metadata) if metadata.is_file() => Some(metadata.len()),
        _ => None,
    }
}

/// Returns whether this name is that of a regular file of at most 1,048,576 bytes.
fn is_read_again<R: Files>(rt: &R, name: &str) -> bool {
    match regular_size(rt, name) {
        Some(size) => size <= 1_048_576,
        None => false,
    }
}

/// Returns whether these captures are regular files, with at most 17,179,869,184 bytes in all.
fn are_read_again<R: Files>(rt: &R, captures: &[FileName]) -> bool {
    let mut room = MOST;
    for capture in captures {
        match regular_size(rt, capture.as_str()) {
            Some(size) if size <= room => room -= size,
            _ => return false,
        }
    }
    true
}

/// Returns the contents of an invalid session description, if it can be read once more.
fn contents_of<R: Files + AllocGlobal>(rt: &R, status: Status, name: &str) -> Option<Vec<u8>> {
    match status {
        Status::SdpRefused(_) if is_read_again(rt, name) => fs::read(rt, name).ok(),
        _ => None,
    }
}

/// Returns the request of these arguments, or `None` if they aren't one. Returns `Err` if memory runs out.
fn request_of(alloc: Global, words: &[String]) -> Result<Option<Request>, OutOfMemory> {
    match read_words(alloc, words) {
        Ok(request) => Ok(Some(request)),
        Err(WordFault::Usage) => Ok(None),
        Err(WordFault::OutOfMemory) => Err(OutOfMemory),
    }
}

/// Returns where flows of joined captures aren't judged any more, if the captures can be read once more. Returns `Err`
/// if memory runs out.
fn refusals_of<'a, R: Files + AllocGlobal>(
    rt: &R,
    status: Status,
    request: &'a Option<Request>,
) -> Result<Vec<Refusal<'a>>, OutOfMemory>
where
    R::File: Send,
{
    let flows = match (status, request) {
        (Status::NotAllJudged, Some(request)) => JoinedFlows::of(request),
        _ => None,
    };
    match flows {
        Some(flows) if are_read_again(rt, flows.captures()) => {
            match flows.refusals(rt.alloc(), &mut FileShelf::new(rt)) {
                Ok(refusals) => Ok(refusals),
                Err(Failure::OutOfMemory) => Err(OutOfMemory),
                Err(Failure::ReadFault(_) | Failure::WriteFault) => Ok(Vec::new(rt.alloc())),
            }
        }
        _ => Ok(Vec::new(rt.alloc())),
    }
}

/// Returns the text that is printed after the first line of a status. Returns `Err` if memory runs out.
fn explanation<R: Files + AllocGlobal, H: Causes>(
    rt: &R,
    arguments: &Arguments,
    status: Status,
    shelf: &H,
) -> Result<String, OutOfMemory>
where
    R::File: Send,
{
    let alloc = rt.alloc();
    let request = request_of(alloc, &arguments.words)?;
    let refusals = refusals_of(rt, status, &request)?;
    let name = input_name(alloc, &arguments.words, status)?;
    let (cause, contents) = match &name {
        Some(name) => (
            shelf.cause_of(alloc, name.as_str())?,
            contents_of(rt, status, name.as_str()),
        ),
        None => (None, None),
    };
    let ending = ending_of(arguments, status, &name, &cause, &contents, &refusals);
    hint(alloc, ending)
}

/// Explains a status on standard error, after its first line. An invalid session description is read once more for
/// that, and so are joined captures that aren't all judged, if they are regular files. If memory runs out or a write
/// fails, nothing more is printed.
pub(crate) fn explain_status<R: Files + AllocGlobal, H: Causes, K: Sink>(
    rt: &R,
    arguments: &Arguments,
    status: Status,
    shelf: &H,
    err: &mut K,
)
where
    R::File: Send,
    ensures { (more : List ℕ) × Appends (K.written err.old) (K.written err.new) more }
{
    if let Ok(text) = explanation(rt, arguments, status, shelf) {
        let _written = put_all(err, text.as_str().as_bytes());
    }
}
