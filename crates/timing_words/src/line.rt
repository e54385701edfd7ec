//! The arguments after a command, separated by `clap` into options, flags and positional arguments.

ghost use Rattle.std.specs.Prelude.{◌≡◌, IfOk, IfErr, None, map};
ghost use Rattle.clap.specs.Words.{found_of, kind_of};
ghost use Rattle.timing_words.specs.Clap.{AreTexts, IsLine};
ghost use Rattle.timing_words.specs.Line.{line};
ghost use Rattle.timing_words.specs.Request.{sorts};

use crate::command::Command;
use clap::error::ErrorKind;
use clap::{ArgMatches, Error};
use std::alloc::{AllocError as OutOfMemory, AllocFailed, Global};

/// The reason why a command line isn't read.
#[derive(Clone, Copy, Debug, PartialEq, Eq)]
pub enum WordFault {
    /// The command line is invalid.
    Usage,
    /// Memory ran out.
    OutOfMemory,
}

impl From<OutOfMemory> for WordFault {
    ghost use Rattle.timing_words.specs.declared.line.WordFault.{WordFault};

    ghost from_gives = { λ _ e. e ≡ WordFault.OutOfMemory };

    fn from(_: OutOfMemory) -> WordFault {
        WordFault::OutOfMemory
    }
}

impl<T: Drop> From<AllocFailed<T>> for WordFault {
    ghost use Rattle.timing_words.specs.declared.line.WordFault.{WordFault};

    ghost from_gives = { λ _ e. e ≡ WordFault.OutOfMemory };

    fn from(_: AllocFailed<T>) -> WordFault {
        WordFault::OutOfMemory
    }
}

/// Returns the fault of a `clap` error: memory ran out, or otherwise the command line is invalid.
fn fault_of(error: &Error) -> WordFault
    ensures { result ≡ WordFault.Usage → kind_of error.now ≡ ErrorKind.OutOfMemory → ⊥ }
{
    match error.kind() {
        ErrorKind::OutOfMemory => WordFault::OutOfMemory,
        _ => WordFault::Usage,
    }
}

/// Separates the arguments after a command into the options, flags and positional arguments that it
/// takes.
pub(crate) fn cut<'a>(
    alloc: Global,
    command: Command,
    words: &'a [&'a str],
) -> Result<ArgMatches<'a>, WordFault>
    requires texts { AreTexts (map (λ s. s.now) words.now) }
    ensures taken { IfOk result (λ m.
        IsLine (sorts command) (map (λ s. s.now) words.entry.now) (found_of m)) }
    ensures refused { IfErr result (λ e. e ≡ WordFault.Usage
        → line (sorts command) (map (λ s. s.now) words.entry.now) ≡ None) }
{
    let parser = command.parser(alloc)?;
    match parser.try_get_matches_from(words) {
        Ok(matches) => Ok(matches),
        Err(error) => Err(fault_of(&error)),
    }
}
