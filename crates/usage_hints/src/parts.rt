//! The arguments after a command, separated into options, flags and positional arguments.

use crate::fault::{Mistake, Stop};
use crate::options::{Choice, choice_named};
use std::alloc::Global;

/// An option with its value, or a flag without one.
#[derive(Clone, Copy)]
pub(crate) struct Use<'a> {
    /// The name, without dashes.
    pub(crate) name: &'static str,
    /// The value; `None` for a flag.
    pub(crate) value: Option<&'a str>,
}

/// The arguments after a command.
#[derive(Drop)]
pub(crate) struct Parts<'a> {
    /// The options and flags, in order.
    pub(crate) uses: Vec<Use<'a>>,
    /// The positional arguments, in order.
    pub(crate) names: Vec<&'a str>,
}

impl<'a> Parts<'a> {
    /// Returns whether an option or flag is given.
    pub(crate) fn has(&self, name: &str) -> bool {
        for used in self.uses.as_slice() {
            if used.name == name {
                return true;
            }
        }
        false
    }

    /// Adds an option or flag. Returns `Err` if it is given already.
    fn add_use(&mut self, name: &'static str, value: Option<&'a str>) -> Result<(), Stop<'a>> {
        if self.has(name) {
            return Err(Stop::Mistake(Mistake::Repeated(name)));
        }
        self.uses.push(Use { name, value })?;
        Ok(())
    }
}

/// Returns whether an argument is read as an option: it begins with a dash and is longer than that.
fn is_dashed(word: &str) -> bool {
    word.len() > 1 && word.starts_with("-")
}

/// Returns whether an argument is meant as a negative number: a dash and then a digit.
fn is_negative(word: &str) -> bool {
    match word.as_bytes() {
        [b'-', digit, ..] => digit.is_ascii_digit(),
        _ => false,
    }
}

/// Returns the name and the value of an argument `--name` or `--name=value`.
fn name_and_value(word: &str) -> (&str, Option<&str>) {
    match word.split_once("=") {
        Some((name, value)) => (name, Some(value)),
        None => (word, None),
    }
}

/// Returns the option or flag that an argument names, and the value in that argument.
fn choice_in<'a>(choices: &[Choice], word: &'a str) -> Result<(Choice, Option<&'a str>), Stop<'a>> {
    let (dashed, value) = name_and_value(word);
    let found = match dashed.strip_prefix("--") {
        Some(name) => choice_named(choices, name),
        None => None,
    };
    match found {
        Some(choice) => Ok((choice, value)),
        None => Err(Stop::Mistake(Mistake::UnknownOption(dashed))),
    }
}

/// The meaning of the next argument.
#[derive(Clone, Copy)]
enum Next {
    /// An option, a flag or a positional argument.
    Any,
    /// The value of this option.
    Value(&'static str),
    /// A positional argument, because `--` was given.
    Name,
}

impl<'a> Parts<'a> {
    /// Takes an argument that begins with a dash.
    fn take_dashed(&mut self, choices: &[Choice], word: &'a str) -> Result<Next, Stop<'a>> {
        if word == "--" {
            return Ok(Next::Name);
        }
        let (choice, value) = choice_in(choices, word)?;
        match value {
            Some(_) if !choice.valued => Err(Stop::Mistake(Mistake::ValueOfFlag(choice.name))),
            None if choice.valued => Ok(Next::Value(choice.name)),
            value => {
                self.add_use(choice.name, value)?;
                Ok(Next::Any)
            }
        }
    }

    /// Takes an argument as the value of an option.
    fn take_value(&mut self, name: &'static str, word: &'a str) -> Result<Next, Stop<'a>> {
        if is_negative(word) {
            return Err(Stop::Mistake(Mistake::BadValue(name, word)));
        }
        if is_dashed(word) {
            return Err(Stop::Mistake(Mistake::NoValue(name)));
        }
        self.add_use(name, Some(word))?;
        Ok(Next::Any)
    }

    /// Takes an argument, and returns the meaning of the next one.
    fn take(&mut self, choices: &[Choice], next: Next, word: &'a str) -> Result<Next, Stop<'a>> {
        match next {
            Next::Value(name) => self.take_value(name, word),
            Next::Any if is_dashed(word) => self.take_dashed(choices, word),
            Next::Any | Next::Name => {
                self.names.push(word)?;
                Ok(next)
            }
        }
    }
}

/// Separates the arguments after a command as its parser does: before `--`, an argument that begins
/// with a dash is an option or flag.
pub(crate) fn parts_of<'a>(
    alloc: Global,
    choices: &[Choice],
    words: &'a [String],
) -> Result<Parts<'a>, Stop<'a>> {
    let mut parts = Parts {
        uses: Vec::new(alloc),
        names: Vec::new(alloc),
    };
    let mut next = Next::Any;
    for word in words {
        next = parts.take(choices, next, word.as_str())?;
    }
    match next {
        Next::Value(name) => Err(Stop::Mistake(Mistake::NoValue(name))),
        _ => Ok(parts),
    }
}
