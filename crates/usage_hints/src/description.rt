//! An invalid line of a session description: the line itself, and what is wrong on it.
//!
//! The reader returns the line and the cause. Here the line is looked up, and for a cause that concerns
//! parameters the first parameter is named that it can be about. If none is found, the text is that of
//! the cause.

use crate::escape::shown;
use crate::sdp::expected;
use sdp_reader::bytes::{cut, field, strip, trim};
use sdp_reader::{Line, SdpCause, SdpFault, is_known, is_the, read_lines, video_of};
use std::alloc::{AllocError as OutOfMemory, Global};
use timing_words::number;

/// The greatest size of a session description, in bytes.
const LARGEST: usize = 1_048_576;

/// The greatest length of a line or parameter that is printed whole, in bytes.
const MOST: usize = 72;

/// One item of the list of an `a=fmtp:` line, as `width=1920`.
#[derive(Clone, Copy)]
struct Parameter<'a> {
    /// The line, counted from 1.
    line: u32,
    /// The item, without spaces and tabs around it.
    text: &'a [u8],
    /// The text before the first `=`, or the whole item.
    name: &'a [u8],
    /// The text after the first `=`, if there is one.
    value: Option<&'a [u8]>,
}

impl<'a> Parameter<'a> {
    /// Returns the parameter of one item.
    fn new(line: u32, piece: &'a [u8]) -> Parameter<'a> {
        let text = trim(piece);
        let (name, value) = match cut(b'=', text) {
            Some((name, value)) => (name, Some(value)),
            None => (text, None),
        };
        Parameter {
            line,
            text,
            name,
            value,
        }
    }

    /// Returns whether this is its name, ignoring ASCII case.
    fn is_named(&self, name: &[u8]) -> bool {
        self.name.eq_ignore_ascii_case(name)
    }

    /// Returns the value, if there is one and it is UTF-8.
    fn value_text(&self) -> Option<&'a str> {
        str::from_utf8(self.value?).ok()
    }

    /// Returns whether the value is a number from `low` to `high`, in at most 10 digits.
    fn is_within(&self, low: u64, high: u64) -> bool {
        match self.value_text() {
            Some(text) => text.len() <= 10 && number(text, low, high).is_ok(),
            None => false,
        }
    }

    /// Returns whether the value is the name of a sender type.
    fn is_type(&self) -> bool {
        matches!(self.value_text(), Some("2110TPN" | "2110TPNL" | "2110TPW"))
    }

    /// Returns the valid values of a parameter with an invalid one, in words. Returns `None` if the
    /// value is valid, for a frame rate, and for an unknown name.
    fn missed(&self) -> Option<&'static str> {
        if self.is_named(b"width") || self.is_named(b"height") {
            unless(self.is_within(1, 32_767), "1 to 32767")
        } else if self.is_named(b"interlace") || self.is_named(b"segmented") {
            unless(self.value.is_none(), "no value")
        } else if self.is_named(b"TP") {
            unless(self.is_type(), "2110TPN, 2110TPNL or 2110TPW")
        } else if self.is_named(b"TROFF") {
            unless(self.is_within(0, 1_000_000), "0 to 1000000")
        } else if self.is_named(b"CMAX") || self.is_named(b"MAXUDP") {
            unless(self.is_within(1, 65_535), "1 to 65535")
        } else {
            None
        }
    }
}

/// Returns the text, unless the condition is true.
fn unless(fits: bool, text: &'static str) -> Option<&'static str> {
    if fits { None } else { Some(text) }
}

/// Returns the list of a line `a=fmtp:FORMAT LIST`, or `None` for another line.
fn list_of<'a>(line: &Line<'a>, format: Option<u8>) -> Option<&'a [u8]> {
    let rest = strip(line.text, b"a=fmtp:")?;
    let (own, list) = field(b' ', rest);
    if is_the(format?, own) {
        Some(list)
    } else {
        None
    }
}

/// Appends the parameters of a line. Returns `Err` if memory runs out.
fn add_list<'a>(
    found: &mut Vec<Parameter<'a>>,
    line: &Line<'a>,
    format: Option<u8>,
) -> Result<(), OutOfMemory> {
    if let Some(list) = list_of(line, format) {
        for piece in list.split(|byte| *byte == b';') {
            found.push(Parameter::new(line.number, piece))?;
        }
    }
    Ok(())
}

/// Returns the parameters of the media section with this line, in order. Returns `Err` if memory runs
/// out.
fn parameters_around<'a>(
    alloc: Global,
    lines: &[Line<'a>],
    number: u32,
) -> Result<Vec<Parameter<'a>>, OutOfMemory> {
    let mut found = Vec::new(alloc);
    let mut format = None;
    for line in lines {
        match line.media_fields() {
            Some(_) if line.number > number => return Ok(found),
            Some(fields) => {
                found = Vec::new(alloc);
                format = video_of(fields).map(|video| video.format);
            }
            None => add_list(&mut found, line, format)?,
        }
    }
    Ok(found)
}

/// Returns the words of a text before its last space, or all of it if there is none.
fn without_last_word(text: &str) -> &str {
    match text.rsplit_once(" ") {
        Some((words, _)) => words,
        None => text,
    }
}

/// Returns a line or a parameter as it is printed: hidden characters are escaped, and if it has more than
/// 72 bytes, ` ..` replaces what follows the words within them.
fn printed(alloc: Global, text: &[u8]) -> Result<String, OutOfMemory> {
    match text.get(..MOST) {
        Some(front) if front.len() < text.len() => {
            let front = String::from_utf8_lossy(alloc, front)?;
            let words = shown(alloc, without_last_word(front.as_str()))?;
            format!(in alloc; "{words} ..")
        }
        _ => {
            let whole = String::from_utf8_lossy(alloc, text)?;
            shown(alloc, whole.as_str())
        }
    }
}

/// Returns the text about the first parameter of a line with an invalid value.
fn bad_value(
    alloc: Global,
    parameters: &[Parameter<'_>],
    line: u32,
) -> Result<Option<String>, OutOfMemory> {
    for parameter in parameters {
        if parameter.line == line {
            if let Some(range) = parameter.missed() {
                let item = printed(alloc, parameter.text)?;
                return Ok(Some(format!(in alloc; "invalid {item}; expected {range}")?));
            }
        }
    }
    Ok(None)
}

/// Returns the text about the frame rate of a line.
fn bad_rate(
    alloc: Global,
    parameters: &[Parameter<'_>],
    line: u32,
) -> Result<Option<String>, OutOfMemory> {
    for parameter in parameters {
        if parameter.line == line && parameter.is_named(b"exactframerate") {
            let item = printed(alloc, parameter.text)?;
            let expected = expected(SdpCause::BadRate);
            return Ok(Some(format!(in alloc; "invalid {item}; {expected}")?));
        }
    }
    Ok(None)
}

/// Returns whether a parameter of this name is among these.
fn has_name(parameters: &[Parameter<'_>], name: &[u8]) -> bool {
    parameters.iter().any(|parameter| parameter.is_named(name))
}

/// Returns the text about the first parameter of a line with the name of an earlier one.
fn repeated(
    alloc: Global,
    parameters: &[Parameter<'_>],
    line: u32,
) -> Result<Option<String>, OutOfMemory> {
    let mut seen = Vec::new(alloc);
    for parameter in parameters {
        if is_known(parameter.name) {
            if !has_name(seen.as_slice(), parameter.name) {
                seen.push(*parameter)?;
            } else if parameter.line == line {
                let name = printed(alloc, parameter.name)?;
                return Ok(Some(format!(in alloc;
                    "{name} is there twice in this video; expected each parameter at most once"
                )?));
            }
        }
    }
    Ok(None)
}

/// Returns the text about the required parameters that are missing.
fn missing(alloc: Global, parameters: &[Parameter<'_>]) -> Result<Option<String>, OutOfMemory> {
    let mut text = String::new(alloc);
    for name in ["width", "height", "exactframerate"] {
        if !has_name(parameters, name.as_bytes()) {
            text.push_str(if text.is_empty() { "missing " } else { ", " })?;
            text.push_str(name)?;
        }
    }
    if text.is_empty() {
        return Ok(None);
    }
    text.push_str(
        "; expected width, height and exactframerate, as in a=fmtp:96 width=1920; height=1080; exactframerate=50",
    )?;
    Ok(Some(text))
}

/// Returns the text about the parameter that a fault concerns, or `None` if it concerns none or none is
/// found.
fn about_parameter(
    alloc: Global,
    lines: &[Line<'_>],
    fault: SdpFault,
) -> Result<Option<String>, OutOfMemory> {
    let found = parameters_around(alloc, lines, fault.line)?;
    let parameters = found.as_slice();
    match fault.what {
        SdpCause::BadParameter => bad_value(alloc, parameters, fault.line),
        SdpCause::RepeatedParameter => repeated(alloc, parameters, fault.line),
        SdpCause::MissingParameter => missing(alloc, parameters),
        SdpCause::BadRate => bad_rate(alloc, parameters, fault.line),
        _ => Ok(None),
    }
}

/// Returns the text about a fault: the parameter that it concerns, or what is expected by its cause.
fn wrong(alloc: Global, lines: &[Line<'_>], fault: SdpFault) -> Result<String, OutOfMemory> {
    match about_parameter(alloc, lines, fault)? {
        Some(text) => Ok(text),
        None => String::from_str(alloc, expected(fault.what)),
    }
}

/// Returns the text of a line, if there is such a line and it isn't empty.
fn line_text<'a>(lines: &[Line<'a>], number: u32) -> Option<&'a [u8]> {
    for line in lines {
        if line.number == number && !line.text.is_empty() {
            return Some(line.text);
        }
    }
    None
}

/// Returns whether contents begin as a capture does: with the magic number of pcap in either byte order,
/// with microseconds or nanoseconds, or that of pcapng.
fn is_capture(contents: &[u8]) -> bool {
    contents.starts_with(b"\xa1\xb2\xc3\xd4")
        || contents.starts_with(b"\xd4\xc3\xb2\xa1")
        || contents.starts_with(b"\xa1\xb2\x3c\x4d")
        || contents.starts_with(b"\x4d\x3c\xb2\xa1")
        || contents.starts_with(b"\x0a\x0d\x0d\x0a")
}

/// Returns the text about the fault of a session description with these contents: the invalid line, and
/// what is wrong on it, or that it is a capture. Returns `Err` if memory runs out.
pub(crate) fn explained(
    alloc: Global,
    contents: &[u8],
    fault: SdpFault,
) -> Result<String, OutOfMemory> {
    if contents.len() > LARGEST {
        return String::from_str(alloc, expected(fault.what));
    }
    if is_capture(contents) {
        return String::from_str(
            alloc,
            "it begins as a capture does; expected a session description",
        );
    }
    let lines = read_lines(alloc, contents)?;
    let wrong = wrong(alloc, lines.as_slice(), fault)?;
    match line_text(lines.as_slice(), fault.line) {
        Some(text) => {
            let line = printed(alloc, text)?;
            format!(in alloc; "{line}: {wrong}")
        }
        None => Ok(wrong),
    }
}
