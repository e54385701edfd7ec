//! The mistakes of a command line, and their messages.

use crate::escape::{quoted, shown};
use crate::nearest::{nearest_command, nearest_first, nearest_option};
use crate::values::range;
use std::alloc::{AllocError as OutOfMemory, AllocFailed, Global};
use timing_words::{Command, help_text};

/// A mistake in a command line.
#[derive(Clone, Copy)]
pub(crate) enum Mistake<'a> {
    /// There is no argument.
    NoCommand,
    /// An argument isn't UTF-8.
    NotText,
    /// The first argument isn't a command.
    UnknownCommand(&'a str),
    /// The argument of `help` isn't a command.
    UnknownTopic(&'a str),
    /// The argument of `help` is `help`.
    HelpOfHelp,
    /// `help` has more than one argument.
    HelpOfMany,
    /// The command has no such option.
    UnknownOption(&'a str),
    /// The option has no value.
    NoValue(&'static str),
    /// The flag is given with a value.
    ValueOfFlag(&'static str),
    /// The option or flag is given twice.
    Repeated(&'static str),
    /// These two exclude each other.
    Exclusive(&'static str, &'static str),
    /// The value of this option is invalid.
    BadValue(&'static str, &'a str),
    /// The required option is missing.
    Missing(&'static str),
    /// No capture is given.
    NoCapture,
    /// `sdp` has no session description.
    NoDescription,
    /// `sdp` has more than one session description.
    TooManyDescriptions,
    /// There are more captures than this number, the most that the command takes.
    TooManyCaptures(usize),
    /// There is more than one capture, without `--joined`.
    TooManyUnjoined,
    /// This argument can't be a file name.
    BadName(&'a str),
    /// `selftest` doesn't have exactly one valid number of frames.
    BadFrames,
    /// Another mistake.
    Other,
}

/// The reason why reading a command line stopped.
pub(crate) enum Stop<'a> {
    /// The command line has this mistake.
    Mistake(Mistake<'a>),
    /// Memory ran out.
    OutOfMemory,
}

impl<'a> From<OutOfMemory> for Stop<'a> {
    fn from(_: OutOfMemory) -> Stop<'a> {
        Stop::OutOfMemory
    }
}

impl<'a, T: Drop> From<AllocFailed<T>> for Stop<'a> {
    fn from(_: AllocFailed<T>) -> Stop<'a> {
        Stop::OutOfMemory
    }
}

/// Returns whether other programs would take this argument as a request for help.
fn asks_help(word: &str) -> bool {
    matches!(word, "--help" | "-h" | "-help" | "-?")
}

/// Returns whether other programs would take this argument as a request for the version.
fn asks_version(word: &str) -> bool {
    matches!(word, "--version" | "-V" | "-version")
}

/// Returns whether other programs would take this argument as the output file.
fn asks_output(word: &str) -> bool {
    word.starts_with("-o") || matches!(word, "--out" | "--output")
}

/// Returns the name of the program and its version, as `help` prints them.
fn version(alloc: Global) -> Result<String, OutOfMemory> {
    let help = help_text(alloc, None)?;
    match help.as_str().split_once(":") {
        Some((version, _)) => String::from_str(alloc, version),
        None => String::from_str(alloc, "st2110_timing"),
    }
}

/// Returns the command line of `help` for a command.
fn help_call(alloc: Global, command: Option<Command>) -> Result<String, OutOfMemory> {
    match command {
        Some(command) => {
            let name = command.name();
            format!(in alloc; "st2110_timing help {name}")
        }
        None => String::from_str(alloc, "st2110_timing help"),
    }
}

/// Returns the message about an option of other programs, with what to use here, or `None` if it
/// isn't one of these.
fn usual_option(
    alloc: Global,
    command: Option<Command>,
    word: &str,
) -> Result<Option<String>, OutOfMemory> {
    if asks_help(word) {
        let call = help_call(alloc, command)?;
        let text = format!(in alloc; "{word} is no option; for help: {call}\n")?;
        return Ok(Some(text));
    }
    if asks_version(word) {
        let version = version(alloc)?;
        let text = format!(in alloc; "this is {version}; for help: st2110_timing help\n")?;
        return Ok(Some(text));
    }
    if asks_output(word) {
        let option = quoted(alloc, word)?;
        let text = format!(in alloc;
            "unknown option {option}; the output goes to standard output, so end the command with > FILE\n"
        )?;
        return Ok(Some(text));
    }
    Ok(None)
}

/// Returns the message about an unknown command, with the most similar one.
fn unknown_name(
    alloc: Global,
    word: &str,
    near: Option<&'static str>,
) -> Result<String, OutOfMemory> {
    let name = quoted(alloc, word)?;
    match near {
        Some(near) => format!(in alloc; "unknown command {name}; did you mean {near}?\n"),
        None => format!(in alloc; "unknown command {name}\n"),
    }
}

/// Returns the message about a first argument that isn't a command.
fn unknown_command(alloc: Global, word: &str) -> Result<String, OutOfMemory> {
    if let Some(text) = usual_option(alloc, None, word)? {
        return Ok(text);
    }
    let near = nearest_first(alloc, word)?;
    unknown_name(alloc, word, near)
}

/// Returns the message about an argument of `help` that isn't a command.
fn unknown_topic(alloc: Global, word: &str) -> Result<String, OutOfMemory> {
    if let Some(text) = usual_option(alloc, None, word)? {
        return Ok(text);
    }
    let near = nearest_command(alloc, word)?;
    unknown_name(alloc, word, near)
}

/// Returns the message about an unknown option of a command.
fn unknown_option(alloc: Global, command: Command, word: &str) -> Result<String, OutOfMemory> {
    if let Some(text) = usual_option(alloc, Some(command), word)? {
        return Ok(text);
    }
    let option = quoted(alloc, word)?;
    match nearest_option(alloc, command, word.trim_start_matches("-"))? {
        Some(near) => format!(in alloc; "unknown option {option}; did you mean --{near}?\n"),
        None => format!(in alloc; "unknown option {option}\n"),
    }
}

/// Returns the message about an option with an invalid value.
fn bad_value(alloc: Global, name: &'static str, value: &str) -> Result<String, OutOfMemory> {
    let range = range(name);
    let value = shown(alloc, value)?;
    format!(in alloc; "--{name} takes {range}, and not \"{value}\"\n")
}

/// Returns the message about too many captures.
fn too_many(alloc: Global, command: Command, most: usize) -> Result<String, OutOfMemory> {
    let name = command.name();
    if most == 1 {
        format!(in alloc; "{name} takes one capture\n")
    } else {
        format!(in alloc; "{name} takes at most {most} captures\n")
    }
}

/// Returns the message about a mistake in the arguments of a command.
fn mistake_in(
    alloc: Global,
    command: Command,
    mistake: Mistake<'_>,
) -> Result<String, OutOfMemory> {
    match mistake {
        Mistake::UnknownOption(word) => unknown_option(alloc, command, word),
        Mistake::NoValue(name) => {
            let range = range(name);
            format!(in alloc; "--{name} has no value; it takes {range}\n")
        }
        Mistake::ValueOfFlag(name) => format!(in alloc; "--{name} takes no value\n"),
        Mistake::Repeated(name) => format!(in alloc; "--{name} is there twice\n"),
        Mistake::Exclusive(one, other) => {
            format!(in alloc; "--{one} and --{other} exclude each other\n")
        }
        Mistake::BadValue(name, value) => bad_value(alloc, name, value),
        Mistake::Missing(name) => format!(in alloc; "--{name} is missing\n"),
        Mistake::NoCapture => String::from_str(alloc, "no capture is named\n"),
        Mistake::NoDescription => String::from_str(alloc, "no session description is named\n"),
        Mistake::TooManyDescriptions => {
            String::from_str(alloc, "sdp takes one session description\n")
        }
        Mistake::TooManyCaptures(most) => too_many(alloc, command, most),
        Mistake::TooManyUnjoined => {
            let name = command.name();
            format!(in alloc; "{name} takes one capture, and with --joined at most 16\n")
        }
        Mistake::BadName(name) => {
            let name = shown(alloc, name)?;
            format!(in alloc;
                "\"{name}\" is no name of a file: expected 1 to 4096 bytes and no control character\n"
            )
        }
        Mistake::BadFrames => String::from_str(
            alloc,
            "selftest takes one number, 2 to 20000 frames\n",
        ),
        _ => String::from_str(alloc, "the arguments are invalid\n"),
    }
}

/// Returns the message about a mistake in a command line without a valid command.
fn mistake_before(alloc: Global, mistake: Mistake<'_>) -> Result<String, OutOfMemory> {
    match mistake {
        Mistake::NoCommand => String::from_str(alloc, "no command is named\n"),
        Mistake::NotText => String::from_str(alloc, "an argument isn't UTF-8\n"),
        Mistake::UnknownCommand(word) => unknown_command(alloc, word),
        Mistake::UnknownTopic(word) => unknown_topic(alloc, word),
        Mistake::HelpOfHelp => {
            String::from_str(alloc, "help explains commands, and itself is none\n")
        }
        Mistake::HelpOfMany => String::from_str(alloc, "help takes at most one command\n"),
        _ => String::from_str(alloc, "the arguments are invalid\n"),
    }
}

/// Returns the message about a mistake, as a whole line. Returns `Err` if memory runs out.
pub(crate) fn mistake_line(
    alloc: Global,
    command: Option<Command>,
    mistake: Mistake<'_>,
) -> Result<String, OutOfMemory> {
    match command {
        Some(command) => mistake_in(alloc, command, mistake),
        None => mistake_before(alloc, mistake),
    }
}
