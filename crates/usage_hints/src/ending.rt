//! The text that is printed after the line of a status.

ghost use Rattle.std.specs.Prelude.{◌≡◌, ◌≤◌, IfOk, length, string_bytes, true};
ghost use Rattle.std.specs.List.{list_all};
ghost use Rattle.usage_hints.specs.Lines.{ends_line, is_line_byte};

use crate::description::explained;
use crate::escape::shown;
use crate::joined::Refusal;
use crate::sdp::expected;
use crate::usage::{not_text_lines, usage_hint};
use sdp_reader::SdpFault;
use std::alloc::{AllocError as OutOfMemory, Global};
use timing_base::{FileName, ScanForm};
use timing_report::{Input, Status};
use timing_words::{Request, WordFault, read_words};

/// The greatest length of a hint, in bytes.
const MOST: usize = 4096;

/// The end of a run, and what is known of its cause.
#[derive(Clone, Copy)]
pub struct Ending<'a> {
    /// The arguments after the program's name. Empty if one of them isn't UTF-8.
    pub words: &'a [String],
    /// Whether all arguments are UTF-8.
    pub are_text: bool,
    /// The status of the run.
    pub status: Status,
    /// The name of the input that the status is about.
    pub input: Option<&'a str>,
    /// The reason why that input couldn't be opened or read.
    pub cause: Option<&'a str>,
    /// The contents of that input, if it is an invalid session description and could be read once more.
    pub contents: Option<&'a [u8]>,
    /// Where flows of joined captures aren't judged any more, if the captures could be read once more.
    pub refusals: &'a [Refusal<'a>],
}

/// Returns the session description of a request.
fn description_of(request: &Request) -> Option<&FileName> {
    match request {
        Request::Check(job) => Some(&job.sdp),
        Request::Verify(job) => Some(&job.sdp),
        Request::VerifyReport(job) => Some(&job.sdp),
        Request::Window(job) => Some(&job.sdp),
        Request::Shape(job) => Some(&job.flow.sdp),
        Request::Skew(job) => Some(&job.sdp),
        Request::Measure(job) => Some(&job.sdp),
        Request::Series(job) => Some(&job.flow.sdp),
        Request::Sdp(job) => Some(&job.sdp),
        Request::Page(job) => Some(&job.sdp),
        Request::Explain(job) => Some(&job.flows.sdp),
        Request::Watch(job) => Some(&job.flows.sdp),
        Request::SelfTest(_) | Request::Scan(_) | Request::Help(_) => None,
    }
}

/// Returns the report of a request.
fn report_of(request: &Request) -> Option<&FileName> {
    match request {
        Request::VerifyReport(job) => Some(&job.report),
        _ => None,
    }
}

/// Returns a capture of a request, counted from 0.
fn capture_of(request: &Request, file: u32) -> Option<&FileName> {
    match request {
        Request::Check(job) => job.captures.as_slice().get(file as usize),
        Request::Verify(job) => job.captures.as_slice().get(file as usize),
        Request::VerifyReport(job) => job.captures.as_slice().get(file as usize),
        Request::Skew(job) => job.captures.as_slice().get(file as usize),
        Request::Window(job) => job.captures.as_slice().get(file as usize),
        Request::Shape(job) => job.flow.captures.as_slice().get(file as usize),
        Request::Scan(job) => Some(&job.capture),
        Request::Measure(job) => job.captures.as_slice().get(file as usize),
        Request::Series(job) => job.flow.captures.as_slice().get(file as usize),
        Request::Page(job) => job.captures.as_slice().get(file as usize),
        Request::Explain(job) => job.flows.captures.as_slice().get(file as usize),
        Request::Watch(job) => job.flows.captures.as_slice().get(file as usize),
        Request::SelfTest(_) | Request::Sdp(_) | Request::Help(_) => None,
    }
}

/// Returns the input of a request that a status is about.
fn input_of(request: &Request, status: Status) -> Option<&FileName> {
    match status {
        Status::SdpRefused(_) | Status::ReadFault(Input::Sdp) => description_of(request),
        Status::ReportRefused | Status::ReadFault(Input::Report) => report_of(request),
        Status::ReadFault(Input::Capture(file)) => capture_of(request, file),
        _ => None,
    }
}

/// Returns whether a status is about an input.
fn names_input(status: Status) -> bool {
    matches!(
        status,
        Status::SdpRefused(_) | Status::ReadFault(_) | Status::ReportRefused
    )
}

/// Returns the name of the input that a status is about, as in the arguments: the session
/// description, the report or a capture. Returns `Err` if memory runs out.
pub fn input_name(
    alloc: Global,
    words: &[String],
    status: Status,
) -> Result<Option<String>, OutOfMemory> {
    if !names_input(status) {
        return Ok(None);
    }
    match read_words(alloc, words) {
        Ok(request) => match input_of(&request, status) {
            Some(name) => Ok(Some(String::from_str(alloc, name.as_str())?)),
            None => Ok(None),
        },
        Err(WordFault::Usage) => Ok(None),
        Err(WordFault::OutOfMemory) => Err(OutOfMemory),
    }
}

/// Returns an error of the system without the ` (os error 2)` or another such number at its end.
fn without_number(cause: &str) -> &str {
    match cause.split_once(" (os error ") {
        Some((text, _)) => text,
        None => cause,
    }
}

/// Returns what a name of an input may be meant as. `-` is a file of that name and not standard input.
/// An editor may have replaced two hyphens by a dash.
fn advice(name: &str) -> &'static str {
    if name == "-" {
        "; for standard input write /dev/stdin"
    } else if name.starts_with("\u{2013}") || name.starts_with("\u{2014}") {
        "; an option begins with two hyphens, --"
    } else {
        ""
    }
}

/// Returns the line of an input that couldn't be read.
fn read_line(alloc: Global, name: &str, cause: &str) -> Result<String, OutOfMemory> {
    let (shown, cause, advice) = (shown(alloc, name)?, without_number(cause), advice(name));
    format!(in alloc; "{shown}: {cause}{advice}\n")
}

/// Returns what is wrong with a session description: the invalid line itself if its contents are known,
/// and what is expected there.
fn description_text(
    alloc: Global,
    contents: Option<&[u8]>,
    fault: SdpFault,
) -> Result<String, OutOfMemory> {
    match contents {
        Some(contents) => explained(alloc, contents, fault),
        None => String::from_str(alloc, expected(fault.what)),
    }
}

/// Returns the line of an invalid session description.
fn description_line(
    alloc: Global,
    name: &str,
    contents: Option<&[u8]>,
    fault: SdpFault,
) -> Result<String, OutOfMemory> {
    let shown = shown(alloc, name)?;
    let text = description_text(alloc, contents, fault)?;
    if fault.line == 0 {
        format!(in alloc; "{shown}: {text}\n")
    } else {
        let line = fault.line;
        format!(in alloc; "{shown}: line {line}: {text}\n")
    }
}

/// Returns the line of an invalid report.
fn report_line(alloc: Global, name: &str) -> Result<String, OutOfMemory> {
    let shown = shown(alloc, name)?;
    format!(in alloc; "{shown}: expected a report as check --json prints it\n")
}

/// Returns the lines about the input of this name.
fn input_lines(alloc: Global, ending: Ending<'_>, name: &str) -> Result<String, OutOfMemory> {
    match (ending.status, ending.cause) {
        (Status::SdpRefused(fault), _) => { description_line(alloc, name, ending.contents, fault) }
        (Status::ReportRefused, _) => report_line(alloc, name),
        (Status::ReadFault(_), Some(cause)) => read_line(alloc, name, cause),
        (Status::ReadFault(_), None) => read_line(alloc, name, "it couldn't be read"),
        _ => Ok(String::new(alloc)),
    }
}

/// Returns the line about a draft without a video.
fn draft_line(alloc: Global, name: &str) -> Result<String, OutOfMemory> {
    let shown = shown(alloc, name)?;
    format!(in alloc;
        "{shown}: no raw video, or a malformed capture; what it holds: st2110_timing scan {shown}\n"
    )
}

/// Returns the capture of a request for the draft of a session description.
fn draft_of(request: &Request) -> Option<&FileName> {
    match request {
        Request::Scan(job) => match job.form {
            ScanForm::Draft => Some(&job.capture),
            ScanForm::Lines | ScanForm::Json => None,
        },
        _ => None,
    }
}

/// Returns the line that names the capture in which a flow of joined captures isn't judged any more.
fn refusal_line(alloc: Global, refusal: &Refusal<'_>) -> Result<String, OutOfMemory> {
    let shown = shown(alloc, refusal.capture)?;
    let media = u64::from(refusal.media) + 1;
    let (joined, record) = (refusal.joined, refusal.record);
    let advice = if refusal.is_earlier {
        "; expected the oldest capture first"
    } else {
        ""
    };
    format!(in alloc;
        "{shown}: media {media} isn't judged; record {joined} is record {record} of this capture{advice}\n"
    )
}

/// Returns the lines about flows of joined captures that aren't judged, as many as a hint can have.
fn refusal_lines(alloc: Global, refusals: &[Refusal<'_>]) -> Result<String, OutOfMemory> {
    let mut text = String::new(alloc);
    for refusal in refusals {
        let line = refusal_line(alloc, refusal)?;
        if text.len().saturating_add(line.len()) > MOST {
            return Ok(text);
        }
        text.push_str(line.as_str())?;
    }
    Ok(text)
}

/// Returns the lines about the end of a run without a verdict on every flow: of joined captures, or of
/// a `scan --draft` without a video or over a malformed capture. Returns an empty text otherwise, as the
/// output gives the reason.
fn unjudged_lines(alloc: Global, ending: Ending<'_>) -> Result<String, OutOfMemory> {
    if !ending.refusals.is_empty() {
        return refusal_lines(alloc, ending.refusals);
    }
    match read_words(alloc, ending.words) {
        Ok(request) => match draft_of(&request) {
            Some(name) => draft_line(alloc, name.as_str()),
            None => Ok(String::new(alloc)),
        },
        Err(WordFault::Usage) => Ok(String::new(alloc)),
        Err(WordFault::OutOfMemory) => Err(OutOfMemory),
    }
}

/// Returns the lines about the end of a run.
fn lines(alloc: Global, ending: Ending<'_>) -> Result<String, OutOfMemory> {
    match (ending.status, ending.input) {
        (Status::Usage, _) if ending.are_text => usage_hint(alloc, ending.words),
        (Status::Usage, _) => not_text_lines(alloc),
        (Status::NotAllJudged, _) => unjudged_lines(alloc, ending),
        (_, Some(name)) => input_lines(alloc, ending, name),
        _ => Ok(String::new(alloc)),
    }
}

/// Returns whether a text is empty or ends with a line feed.
fn ends_line(text: &str) -> bool
    ensures { result ≡ ends_line text.now }
{
    match text.as_bytes().last() {
        Some(byte) => *byte == 10,
        None => true,
    }
}

/// Returns whether no byte is an ASCII control character other than a line feed.
fn are_plain(bytes: &[u8]) -> bool
    ensures { result ≡ list_all is_line_byte bytes.now }
{
    bytes.iter().all(|b| *b == 10 || 32 <= *b && *b != 127)
}

/// Returns the lines to print after the line of a status, or an empty text if there is nothing to
/// add. Returns `Err` if memory runs out.
pub fn hint(alloc: Global, ending: Ending<'_>) -> Result<String, OutOfMemory>
    ensures few { IfOk result (λ s. length (string_bytes s) ≤ 4096) }
    ensures lines { IfOk result (λ s. ends_line (string_bytes s) ≡ true) }
    ensures plain { IfOk result (λ s. list_all is_line_byte (string_bytes s) ≡ true) }
{
    let text = lines(alloc, ending)?;
    if text.len() <= MOST && ends_line(text.as_str()) && are_plain(text.as_bytes()) {
        Ok(text)
    } else {
        Ok(String::new(alloc))
    }
}
