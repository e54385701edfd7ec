//! The values of options and positional arguments. Each function returns `Usage` if the text isn't
//! a value of its kind.

ghost use Rattle.std.specs.Prelude.{◌≡◌, ◌≤◌, ◌<◌, IfErr, IfOk, IfSome, None, Some, length, map};
ghost use Rattle.std.specs.Option.{option_map};
ghost use Rattle.std.specs.Char.{is_ascii_digit};
ghost use Rattle.std.specs.List.{list_all};
ghost use Rattle.timing_base.specs.Jobs.{AreInputs, IsChoice, IsEvery};
ghost use Rattle.timing_base.specs.Name.{is_file_name, is_name_byte};
ghost use Rattle.timing_words.specs.Answers.{Gives};
ghost use Rattle.timing_words.specs.Request as words;

use crate::line::WordFault;
use std::alloc::Global;
use timing_base::{Broken, FileName, Items, Kind, ScanForm};

/// Returns whether all bytes are decimal digits.
fn are_digits(bytes: &[u8]) -> bool
    ensures { result ≡ list_all is_ascii_digit bytes.now }
{
    bytes.iter().all(|b| b.is_ascii_digit())
}

/// Returns whether the text is 1 to 20 decimal digits.
fn is_numeral(text: &str) -> bool
    ensures { result ≡ words.is_numeral text.now }
{
    let digits = text.as_bytes();
    1 <= digits.len() && digits.len() <= 20 && are_digits(digits)
}

/// Returns the number of 1 to 20 decimal digits, if it is below 2^64.
fn written(text: &str) -> Option<u64>
    ensures { result ≡ words.written text.now }
{
    if !is_numeral(text) {
        return None;
    }
    text.parse::<u64>().ok()
}

/// Returns the number that 1 to 20 decimal digits give, if it is from `low` to `high`.
pub fn number(text: &str, low: u64, high: u64) -> Result<u64, WordFault>
    ensures value { Gives (words.number low high text.now) result }
    ensures least { IfOk result (λ n. low ≤ n) }
    ensures most { IfOk result (λ n. n ≤ high) }
{
    match written(text) {
        Some(n) if low <= n && n <= high => Ok(n),
        _ => Err(WordFault::Usage),
    }
}

/// Returns a count of packets, or the number of a packet: any number below 2^64.
pub fn count(text: &str) -> Result<u64, WordFault>
    ensures { Gives (words.count text.now) result }
{
    number(text, 0, u64::MAX)
}

/// Returns a media, counted from 1 to 64 in the text and from 0 in the result.
pub fn media(text: &str) -> Result<u32, WordFault>
    ensures value { Gives (words.media text.now) result }
    ensures few { IfOk result (λ n. n < 64) }
{
    let n = number(text, 1, 64)?;
    Ok((n - 1) as u32)
}

/// Returns the sender type of this name: `N`, `NL` or `W`.
pub fn kind_named(text: &str) -> Result<Kind, WordFault>
    ensures { Gives (words.kind_named text.now) result }
{
    match text {
        "N" => Ok(Kind::N),
        "NL" => Ok(Kind::NL),
        "W" => Ok(Kind::W),
        _ => Err(WordFault::Usage),
    }
}

/// Returns the limit of this name that a sender breaks: `Bucket`, `Over` or `Empty`.
pub fn model_named(text: &str) -> Result<Broken, WordFault>
    ensures { Gives (words.model_named text.now) result }
{
    match text {
        "Bucket" => Ok(Broken::Bucket),
        "Over" => Ok(Broken::Over),
        "Empty" => Ok(Broken::Empty),
        _ => Err(WordFault::Usage),
    }
}

/// Returns the seconds that are added to capture timestamps, 0 to 1,000; 0 without the option.
pub fn tai(text: Option<&str>) -> Result<u64, WordFault>
    ensures value { Gives (words.tai (option_map (λ s. s.now) text.entry)) result }
    ensures most { IfOk result (λ n. n ≤ 1000) }
{
    match text {
        Some(text) => number(text, 0, 1000),
        None => Ok(0),
    }
}

/// Returns the nanoseconds that are then subtracted from them, 0 to 999,999,999; 0 without the
/// option.
pub fn delay(text: Option<&str>) -> Result<u64, WordFault>
    ensures value { Gives (words.delay (option_map (λ s. s.now) text.entry)) result }
    ensures most { IfOk result (λ n. n ≤ 999999999) }
{
    match text {
        Some(text) => number(text, 0, 999_999_999),
        None => Ok(0),
    }
}

/// Returns the media that is judged alone, counted from 1 to 64 in the text and from 0 in the
/// result, or `None` without the option.
pub(crate) fn only_media(text: Option<&str>) -> Result<Option<u32>, WordFault>
    ensures value { Gives (words.only_media (option_map (λ s. s.now) text.entry)) result }
    ensures few { IfOk result IsChoice }
{
    match text {
        Some(text) => Ok(Some(media(text)?)),
        None => Ok(None),
    }
}

/// Returns the number of frames or fields in a stretch, 1 to 1,000,000, or `None` without the option.
pub fn every(text: Option<&str>) -> Result<Option<u32>, WordFault>
    ensures value { Gives (words.every (option_map (λ s. s.now) text.entry)) result }
    ensures is { IfOk result (λ e. IfSome e IsEvery) }
{
    match text {
        Some(text) => Ok(Some(number(text, 1, 1_000_000)? as u32)),
        None => Ok(None),
    }
}

/// Returns the number of workers of `check`, 1 to 16, or 0 for one thread. It is 4 without an
/// option. `--workers` and `--serial` exclude each other.
pub fn check_workers(text: Option<&str>, serial: bool) -> Result<u32, WordFault>
    ensures value { Gives (words.check_workers (option_map (λ s. s.now) text.entry) serial) result }
    ensures few { IfOk result (λ n. n ≤ 16) }
{
    match (text, serial) {
        (None, false) => Ok(4),
        (None, true) => Ok(0),
        (Some(text), false) => Ok(number(text, 1, 16)? as u32),
        (Some(_), true) => Err(WordFault::Usage),
    }
}

/// Returns the number of workers of `selftest`, 1 to 16, or 0 for one thread if the option is
/// missing.
pub(crate) fn test_workers(text: Option<&str>) -> Result<u32, WordFault>
    ensures value { Gives (words.test_workers (option_map (λ s. s.now) text.entry)) result }
    ensures few { IfOk result (λ n. n ≤ 16) }
{
    match text {
        Some(text) => Ok(number(text, 1, 16)? as u32),
        None => Ok(0),
    }
}

/// Returns the output form of `scan`. The two flags exclude each other.
pub(crate) fn scan_form(json: bool, draft: bool) -> Result<ScanForm, WordFault>
    ensures { Gives (words.scan_form json draft) result }
{
    match (json, draft) {
        (false, false) => Ok(ScanForm::Lines),
        (true, false) => Ok(ScanForm::Json),
        (false, true) => Ok(ScanForm::Draft),
        (true, true) => Err(WordFault::Usage),
    }
}

/// Returns whether no byte is a control character (below 32, or 127).
fn are_plain(bytes: &[u8]) -> bool
    ensures { result ≡ list_all is_name_byte bytes.now }
{
    bytes.iter().all(|b| 32 <= *b && *b != 127)
}

/// Returns whether the text can be a file name: 1 to 4,096 bytes without control characters.
fn is_file_name(text: &str) -> bool
    ensures { result ≡ is_file_name text.now }
{
    let bytes = text.as_bytes();
    1 <= bytes.len() && bytes.len() <= 4096 && are_plain(bytes)
}

/// Returns a file name: 1 to 4,096 bytes without control characters. Returns `OutOfMemory` if
/// memory runs out.
pub fn file_name(alloc: Global, text: &str) -> Result<FileName, WordFault>
    ensures { Gives (words.file_name text.now) result }
{
    if !is_file_name(text) {
        return Err(WordFault::Usage);
    }
    Ok(FileName::from_text(String::from_str(alloc, text)?))
}

/// Returns 1 to `most` file names. Returns `OutOfMemory` if memory runs out.
#[tactic(auto, using(crate::proofs::Checks::list_refused))]
pub(crate) fn file_names(
    alloc: Global,
    names: &[&str],
    most: usize,
) -> Result<Items<FileName>, WordFault>
    ensures names { Gives (words.file_names most (map (λ s. s.now) names.now)) result }
    ensures some { IfOk result (λ l. 1 ≤ length l) }
    ensures few { IfOk result (λ l. length l ≤ most) }
{
    if names.is_empty() || most < names.len() {
        return Err(WordFault::Usage);
    }
    let mut files = Vec::new(alloc);
    for name in names {
        let file = file_name(alloc, name)?;
        files.push(file)?;
    }
    Ok(Items::from_vec(files))
}

/// Returns one file name, or 1 to 16 if the captures are joined. Returns `OutOfMemory` if memory
/// runs out.
pub(crate) fn inputs(
    alloc: Global,
    names: &[&str],
    joined: bool,
) -> Result<Items<FileName>, WordFault>
    ensures names { Gives (words.inputs joined (map (λ s. s.now) names.now)) result }
    ensures are { IfOk result (AreInputs joined) }
{
    file_names(alloc, names, if joined { 16 } else { 1 })
}

/// Returns the only positional argument.
pub(crate) fn sole<'a>(names: &[&'a str]) -> Result<&'a str, WordFault>
    ensures one { IfOk result (λ s. words.sole (map (λ s. s.now) names.now) ≡ Some s.now) }
    ensures other { IfErr result (λ _. words.sole (map (λ s. s.now) names.now) ≡ None) }
{
    match names {
        [name] => Ok(*name),
        _ => Err(WordFault::Usage),
    }
}
