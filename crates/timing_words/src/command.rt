//! The commands, and the `clap` parser of each with its options, flags and positional arguments.

ghost use Rattle.std.specs.Prelude.{◌≡◌, ◌++◌, [], IfOk, List, false, true};
ghost use Rattle.clap.specs.Words.{app_of, rule_of};
ghost use Rattle.timing_words.specs.Clap.{app, bare, names_told, told};
ghost use Rattle.timing_words.specs.Line.{Sort};
ghost use Rattle.timing_words.specs.Sorts.{sorts_of};

use clap::{Arg, ArgAction};
use std::alloc::{AllocError as OutOfMemory, Global};

/// The id of the positional arguments.
pub(crate) const NAMES: &str = "names";

/// The commands. The first argument of a command line names one.
#[derive(Clone, Copy, Debug, PartialEq, Eq)]
pub enum Command {
    /// `check`: judges the flows of captures.
    Check,
    /// `verify`: checks one claimed violation.
    Verify,
    /// `verify-report`: checks each violation of a JSON report.
    VerifyReport,
    /// `selftest`: judges captures that it makes itself.
    SelfTest,
    /// `window`: prints the offsets with which a flow would keep the receiver buffer.
    Window,
    /// `shape`: delays a flow as little as the limits allow.
    Shape,
    /// `skew`: compares two flows packet by packet.
    Skew,
    /// `scan`: lists the contents of a capture.
    Scan,
    /// `measure`: prints how near each flow comes to its limits.
    Measure,
    /// `series`: prints the numbers of a flow as CSV.
    Series,
    /// `sdp`: prints how a session description is read.
    Sdp,
    /// `page`: prints the report of a capture as an HTML page.
    Page,
    /// `explain`: prints what is wrong with the flows of a capture, and what to do.
    Explain,
    /// `watch`: prints a line for each stretch of frames while captures are read.
    Watch,
}

impl Command {
    ghost use Rattle.timing_words.specs.Request.{command_named, sorts};

    /// Returns the command of this name, or `None` if there is none.
    pub fn named(text: &str) -> Option<Command>
        ensures { result ≡ command_named text.now }
    {
        match text {
            "check" => Some(Command::Check),
            "verify" => Some(Command::Verify),
            "verify-report" => Some(Command::VerifyReport),
            "selftest" => Some(Command::SelfTest),
            "window" => Some(Command::Window),
            "shape" => Some(Command::Shape),
            "skew" => Some(Command::Skew),
            "scan" => Some(Command::Scan),
            "measure" => Some(Command::Measure),
            "series" => Some(Command::Series),
            "sdp" => Some(Command::Sdp),
            "page" => Some(Command::Page),
            "explain" => Some(Command::Explain),
            "watch" => Some(Command::Watch),
            _ => None,
        }
    }

    /// Returns the parser of the command, with its options, flags and positional arguments. Returns
    /// `Err` if memory runs out.
    pub fn parser<'a>(self, alloc: Global) -> Result<clap::Command<'a>, OutOfMemory>
        ensures { IfOk result (λ c. app_of c ≡ app (sorts self)) }
    {
        match self {
            Command::Check => parser_of(
                alloc,
                &["sdp", "workers", "tai", "delay", "media"],
                &["serial", "json", "joined", "seq16"],
            ),
            Command::Verify => parser_of(
                alloc,
                &[
                    "sdp", "media", "type", "model", "from", "to", "count", "limit", "tai", "delay",
                ],
                &["joined", "seq16"],
            ),
            Command::VerifyReport => parser_of(
                alloc,
                &["sdp", "report", "tai", "delay", "media"],
                &["joined", "seq16"],
            ),
            Command::SelfTest => parser_of(alloc, &["workers"], &[]),
            Command::Window => parser_of(
                alloc,
                &["sdp", "media", "tai", "delay"],
                &["joined", "seq16"],
            ),
            Command::Shape => parser_of(
                alloc,
                &["sdp", "media", "type", "tai", "delay"],
                &["list", "joined", "seq16"],
            ),
            Command::Skew => parser_of(alloc, &["sdp", "media", "pair"], &[]),
            Command::Scan => parser_of(alloc, &[], &["json", "draft"]),
            Command::Measure => parser_of(
                alloc,
                &["sdp", "tai", "delay", "media"],
                &["joined", "seq16"],
            ),
            Command::Series => parser_of(
                alloc,
                &["sdp", "media", "tai", "delay"],
                &["frames", "joined", "seq16"],
            ),
            Command::Sdp => parser_of(alloc, &[], &["json"]),
            Command::Page => parser_of(
                alloc,
                &["sdp", "tai", "delay", "media"],
                &["joined", "seq16"],
            ),
            Command::Explain => parser_of(
                alloc,
                &["sdp", "tai", "delay", "media"],
                &["json", "joined", "seq16"],
            ),
            Command::Watch => parser_of(
                alloc,
                &["sdp", "tai", "delay", "media", "every"],
                &["joined", "seq16", "json"],
            ),
        }
    }
}

/// Returns an option if `valued`, otherwise a flag, which is an argument without a value.
fn arg_of<'a>(alloc: Global, valued: bool, name: &'static str) -> Arg<'a>
    ensures rule { rule_of result ≡ told valued name.now }
    ensures local { result.global ≡ false }
{
    let arg = Arg::new(alloc, name).long(name).action(ArgAction::Set);
    if valued { arg } else { arg.num_args(0) }
}

/// Returns the positional arguments, of which there may be any number.
fn names_arg<'a>(alloc: Global) -> Arg<'a>
    ensures rule { rule_of result ≡ names_told }
    ensures local { result.global ≡ false }
{
    Arg::new(alloc, NAMES).action(ArgAction::Append)
}

/// Adds options if `valued`, otherwise flags, to a parser. Returns `Err` if memory runs out.
fn taking<'a>(
    alloc: Global,
    parser: clap::Command<'a>,
    valued: bool,
    names: &[&'static str],
) -> Result<clap::Command<'a>, OutOfMemory>
    ensures { IfOk result (λ c. (taken : List Sort) → app_of parser.entry ≡ bare taken
        → app_of c ≡ bare (taken ++ sorts_of valued names.now)) }
{
    let mut parser = parser;
    for name in names {
        parser = parser.arg(arg_of(alloc, valued, name))?;
    }
    Ok(parser)
}

/// Returns the parser with these options and flags, and with positional arguments. Returns `Err` if
/// memory runs out.
fn parser_of<'a>(
    alloc: Global,
    options: &[&'static str],
    flags: &[&'static str],
) -> Result<clap::Command<'a>, OutOfMemory>
    ensures { IfOk result (λ c. app_of c ≡ app (sorts_of true options.now ++ sorts_of false flags.now)) }
{
    let parser = clap::Command::new(alloc, "command")
        .no_binary_name(true)
        .disable_help_flag(true);
    let parser = taking(alloc, parser, true, options)?;
    let parser = taking(alloc, parser, false, flags)?;
    parser.arg(names_arg(alloc))
}
