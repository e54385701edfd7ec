//! The first mistake of a command line, and the usage of its command.

use crate::fault::{Mistake, Stop, mistake_line};
use crate::options::{Choice, choices_of, commands};
use crate::parts::{Parts, parts_of};
use crate::values::{is_name, is_valid};
use std::alloc::{AllocError as OutOfMemory, Global};
use timing_words::{Command, may_be_missing, number, usage_of};

/// Returns `Err` if both of two options or flags are given.
fn exclude<'a>(parts: &Parts<'a>, one: &'static str, other: &'static str) -> Result<(), Stop<'a>> {
    if parts.has(one) && parts.has(other) {
        return Err(Stop::Mistake(Mistake::Exclusive(one, other)));
    }
    Ok(())
}

/// Returns `Err` for the first option with an invalid value.
fn test_values<'a>(alloc: Global, parts: &Parts<'a>) -> Result<(), Stop<'a>> {
    for used in parts.uses.as_slice() {
        if let Some(value) = used.value {
            if !is_valid(alloc, used.name, value)? {
                return Err(Stop::Mistake(Mistake::BadValue(used.name, value)));
            }
        }
    }
    Ok(())
}

/// Returns `Err` for the first required option that is missing.
fn test_presence<'a>(
    command: Command,
    choices: &[Choice],
    parts: &Parts<'a>,
) -> Result<(), Stop<'a>> {
    for choice in choices {
        if !may_be_missing(command, choice.name) && !parts.has(choice.name) {
            return Err(Stop::Mistake(Mistake::Missing(choice.name)));
        }
    }
    Ok(())
}

/// Returns the greatest number of captures that a command takes.
fn most_captures(command: Command, joined: bool) -> usize {
    match command {
        Command::Check | Command::VerifyReport => 16,
        Command::Skew => 2,
        Command::Scan => 1,
        _ => if joined { 16 } else { 1 },
    }
}

/// Returns the mistake of more captures than a command takes.
fn excess<'a>(command: Command, most: usize) -> Mistake<'a> {
    match command {
        Command::Scan => Mistake::TooManyCaptures(most),
        _ if most == 1 => Mistake::TooManyUnjoined,
        _ => Mistake::TooManyCaptures(most),
    }
}

/// Returns `Err` if there are too few or too many captures, or for the first that can't be a file
/// name.
fn test_captures<'a>(alloc: Global, command: Command, parts: &Parts<'a>) -> Result<(), Stop<'a>> {
    let names = parts.names.as_slice();
    let most = most_captures(command, parts.has("joined"));
    if names.is_empty() {
        return Err(Stop::Mistake(Mistake::NoCapture));
    }
    if names.len() > most {
        return Err(Stop::Mistake(excess(command, most)));
    }
    for name in names {
        if !is_name(alloc, name)? {
            return Err(Stop::Mistake(Mistake::BadName(*name)));
        }
    }
    Ok(())
}

/// Returns `Err` unless `sdp` has exactly one session description, which can be a file name.
fn test_description<'a>(alloc: Global, parts: &Parts<'a>) -> Result<(), Stop<'a>> {
    match parts.names.as_slice() {
        [] => Err(Stop::Mistake(Mistake::NoDescription)),
        [name] => {
            if is_name(alloc, name)? {
                Ok(())
            } else {
                Err(Stop::Mistake(Mistake::BadName(*name)))
            }
        }
        _ => Err(Stop::Mistake(Mistake::TooManyDescriptions)),
    }
}

/// Returns `Err` unless `selftest` has exactly one valid number of frames.
fn test_frames<'a>(parts: &Parts<'a>) -> Result<(), Stop<'a>> {
    match parts.names.as_slice() {
        [frames] if number(frames, 2, 20_000).is_ok() => Ok(()),
        _ => Err(Stop::Mistake(Mistake::BadFrames)),
    }
}

/// Returns `Err` for the first mistake in the arguments after a command.
fn test_command<'a>(alloc: Global, command: Command, words: &'a [String]) -> Result<(), Stop<'a>> {
    let choices = choices_of(alloc, command)?;
    let parts = parts_of(alloc, choices.as_slice(), words)?;
    exclude(&parts, "serial", "workers")?;
    exclude(&parts, "json", "draft")?;
    test_values(alloc, &parts)?;
    test_presence(command, choices.as_slice(), &parts)?;
    match command {
        Command::SelfTest => test_frames(&parts),
        Command::Sdp => test_description(alloc, &parts),
        _ => test_captures(alloc, command, &parts),
    }
}

/// Returns the first mistake in the arguments after a command.
fn mistake_after<'a>(
    alloc: Global,
    command: Command,
    words: &'a [String],
) -> Result<Mistake<'a>, OutOfMemory> {
    match test_command(alloc, command, words) {
        Ok(()) => Ok(Mistake::Other),
        Err(Stop::Mistake(mistake)) => Ok(mistake),
        Err(Stop::OutOfMemory) => Err(OutOfMemory),
    }
}

/// Returns the mistake in the arguments after `help`.
fn mistake_of_help(words: &[String]) -> Mistake<'_> {
    match words {
        [name] if name.as_str() == "help" => Mistake::HelpOfHelp,
        [name] => Mistake::UnknownTopic(name.as_str()),
        _ => Mistake::HelpOfMany,
    }
}

/// Returns the usage of a command, or all commands if none is known.
fn usage_lines(alloc: Global, command: Option<Command>) -> Result<String, OutOfMemory> {
    match command {
        Some(command) => {
            let usage = usage_of(alloc, command)?;
            format!(in alloc; "usage: st2110_timing {usage}\n")
        }
        None => {
            let mut text = String::from_str(alloc, "commands: ")?;
            for command in commands() {
                text.push_str(command.name())?;
                text.push_str(", ")?;
            }
            text.push_str("help\nfor their arguments: st2110_timing help\n")?;
            Ok(text)
        }
    }
}

/// Returns the message about a mistake, and the usage.
fn mistake_lines(
    alloc: Global,
    command: Option<Command>,
    mistake: Mistake<'_>,
) -> Result<String, OutOfMemory> {
    let line = mistake_line(alloc, command, mistake)?;
    let usage = usage_lines(alloc, command)?;
    format!(in alloc; "{line}{usage}")
}

/// Returns the message about an argument that isn't UTF-8. Returns `Err` if memory runs out.
pub(crate) fn not_text_lines(alloc: Global) -> Result<String, OutOfMemory> {
    mistake_lines(alloc, None, Mistake::NotText)
}

/// Returns the message about an invalid command line, given without the program's name: its first
/// mistake, and the usage of its command. Returns `Err` if memory runs out.
pub(crate) fn usage_hint(alloc: Global, words: &[String]) -> Result<String, OutOfMemory> {
    let Some((name, rest)) = words.split_first() else {
        return mistake_lines(alloc, None, Mistake::NoCommand);
    };
    if name.as_str() == "help" {
        return mistake_lines(alloc, None, mistake_of_help(rest));
    }
    match Command::named(name.as_str()) {
        Some(command) => {
            let mistake = mistake_after(alloc, command, rest)?;
            mistake_lines(alloc, Some(command), mistake)
        }
        None => mistake_lines(alloc, None, Mistake::UnknownCommand(name.as_str())),
    }
}
