//! The reading of a command line as a request.

ghost use Rattle.std.specs.Prelude.{◌≡◌, IfErr, IfOk, None, Some, map, string_bytes};
ghost use Rattle.clap.specs.Words.{found_of};
ghost use Rattle.timing_words.specs.Answers.{Gives};
ghost use Rattle.timing_words.specs.Clap.{AreTexts, found_stands};
ghost use Rattle.timing_words.specs.Request.{asked, asked_by, help_asked, request};

use crate::command::Command;
use crate::jobs::{
    capture_job, check_job, explain_job, flow_job, report_job, scan_job, sdp_job, self_test_job,
    series_job, shape_job, skew_job, verify_job, watch_job,
};
use crate::line::{WordFault, cut};
use crate::request::Request;
use clap::ArgMatches;
use std::alloc::{AllocError as OutOfMemory, Global};

/// Returns the request of a command with these parsed arguments.
fn request_of(
    alloc: Global,
    command: Command,
    matches: &ArgMatches<'_>,
) -> Result<Request, WordFault>
    ensures { Gives (asked command (found_stands (found_of matches.now))) result }
{
    match command {
        Command::Check => Ok(Request::Check(check_job(alloc, matches)?)),
        Command::Verify => Ok(Request::Verify(verify_job(alloc, matches)?)),
        Command::VerifyReport => Ok(Request::VerifyReport(report_job(alloc, matches)?)),
        Command::SelfTest => Ok(Request::SelfTest(self_test_job(matches)?)),
        Command::Window => Ok(Request::Window(flow_job(alloc, matches)?)),
        Command::Shape => Ok(Request::Shape(shape_job(alloc, matches)?)),
        Command::Skew => Ok(Request::Skew(skew_job(alloc, matches)?)),
        Command::Scan => Ok(Request::Scan(scan_job(alloc, matches)?)),
        Command::Measure => Ok(Request::Measure(capture_job(alloc, matches)?)),
        Command::Series => Ok(Request::Series(series_job(alloc, matches)?)),
        Command::Sdp => Ok(Request::Sdp(sdp_job(alloc, matches)?)),
        Command::Page => Ok(Request::Page(capture_job(alloc, matches)?)),
        Command::Explain => Ok(Request::Explain(explain_job(alloc, matches)?)),
        Command::Watch => Ok(Request::Watch(watch_job(alloc, matches)?)),
    }
}

/// Returns the request of a command with these arguments after it.
#[tactic(auto, using(crate::proofs::Says::asked_line))]
fn read_rest(alloc: Global, command: Command, rest: &[&str]) -> Result<Request, WordFault>
    requires { AreTexts (map (λ s. s.now) rest.now) }
    ensures { Gives (asked_by command (map (λ s. s.now) rest.entry.now)) result }
{
    let matches = cut(alloc, command, rest)?;
    request_of(alloc, command, &matches)
}

/// Returns the arguments as slices. Returns `Err` if memory runs out.
fn texts_of(alloc: Global, words: &[String]) -> Result<Vec<&str>, OutOfMemory>
    ensures same { IfOk result (λ v. map (λ s. s.now) v.items ≡ map string_bytes words.now) }
    ensures texts { IfOk result (λ v. AreTexts (map (λ s. s.now) v.items)) }
{
    let mut texts = Vec::new(alloc);
    for word in words {
        texts.push(word.as_str())?;
    }
    Ok(texts)
}

/// Returns the request of the arguments after `help`.
fn read_help(rest: &[String]) -> Result<Request, WordFault>
    ensures { Gives (help_asked (map string_bytes rest.now)) result }
{
    match rest {
        [] => Ok(Request::Help(None)),
        [name] => match Command::named(name.as_str()) {
            Some(command) => Ok(Request::Help(Some(command))),
            None => Err(WordFault::Usage),
        },
        _ => Err(WordFault::Usage),
    }
}

/// Reads a command line, without the program's name, as a request.
///
/// Returns `Usage` if the command line is invalid, and `OutOfMemory` if memory runs out. Media
/// count from 1 in the arguments and from 0 in the request. `check` has 4 workers unless an option
/// sets another number.
pub fn read_words(alloc: Global, words: &[String]) -> Result<Request, WordFault>
    ensures asked { IfOk result (λ r. request (map string_bytes words.now) ≡ Some r) }
    ensures usage { IfErr result (λ e. e ≡ WordFault.Usage
        → request (map string_bytes words.now) ≡ None) }
{
    let Some((name, rest)) = words.split_first() else {
        return Err(WordFault::Usage);
    };
    if name.as_str() == "help" {
        return read_help(rest);
    }
    let Some(command) = Command::named(name.as_str()) else {
        return Err(WordFault::Usage);
    };
    let texts = texts_of(alloc, rest)?;
    read_rest(alloc, command, texts.as_slice())
}
