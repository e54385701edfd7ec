//! Suggestions for misspelled commands and options.

ghost use Rattle.std.specs.Prelude.{◌≡◌, ◌⊎◌, Contains, IfOk, IfSome, None, Some, codes};
ghost use Rattle.usage_hints.specs.Options.{IsCommandName, names_in, option_names};

use crate::options::{Choice, choices_of, commands};
use std::alloc::{AllocError as OutOfMemory, Global};
use strsim::osa_distance;
use timing_words::Command;

/// The greatest number of edits between similar names.
const MOST_EDITS: usize = 2;

/// The length in bytes from which an argument is similar to no name.
const LONG: usize = 32;

/// The name with the fewest edits so far.
#[derive(Clone, Copy)]
struct Nearest {
    name: Option<&'static str>,
    edits: usize,
}

/// Returns the greatest number of edits between an argument and a name that it is similar to: one for
/// every three bytes of the name, but at most two.
fn most_edits(name: &str) -> usize {
    (name.len() / 3).min(MOST_EDITS)
}

impl Nearest {
    /// Returns the state without a name.
    fn none() -> Nearest
        ensures { result.name ≡ None }
    {
        Nearest {
            name: None,
            edits: MOST_EDITS + 1,
        }
    }

    /// Returns the better of this and another name, if the argument is similar to that.
    fn or(self, alloc: Global, word: &str, name: &'static str) -> Result<Nearest, OutOfMemory>
        ensures { IfOk result (λ n. (n.name ≡ self.name) ⊎ (n.name ≡ Some name.entry)) }
    {
        let edits = osa_distance(alloc, word, name)?;
        if edits < self.edits && edits <= most_edits(name) {
            Ok(Nearest {
                name: Some(name),
                edits,
            })
        } else {
            Ok(self)
        }
    }
}

/// Returns the name among these commands that is most similar.
fn nearest_of(
    alloc: Global,
    commands: &[Command],
    word: &str,
) -> Result<Option<&'static str>, OutOfMemory>
    ensures { IfOk result (λ o. IfSome o (λ n. IsCommandName n.now)) }
{
    let mut nearest = Nearest::none();
    for command in commands {
        nearest = nearest.or(alloc, word, command.name())?;
    }
    Ok(nearest.name)
}

/// Returns the name among these options and flags that is most similar.
fn nearest_in(
    alloc: Global,
    choices: &[Choice],
    word: &str,
) -> Result<Option<&'static str>, OutOfMemory>
    ensures { IfOk result (λ o. IfSome o (λ n. Contains (names_in choices.now) n.now)) }
{
    let mut nearest = Nearest::none();
    for choice in choices {
        nearest = nearest.or(alloc, word, choice.name)?;
    }
    Ok(nearest.name)
}

/// Returns the command that is most similar to the argument: at most two edits away, and at most one
/// if its name has fewer than six characters. An edit adds, removes or changes a character, or swaps
/// two neighbouring ones. Returns `Err` if memory runs out.
pub fn nearest_command(alloc: Global, word: &str) -> Result<Option<&'static str>, OutOfMemory>
    ensures { IfOk result (λ o. IfSome o (λ n. IsCommandName n.now)) }
{
    if word.len() >= LONG {
        return Ok(None);
    }
    let commands = commands();
    nearest_of(alloc, &commands, word)
}

/// Returns the command that is most similar to a first argument, or otherwise `help` if that is
/// similar. Returns `Err` if memory runs out.
pub fn nearest_first(alloc: Global, word: &str) -> Result<Option<&'static str>, OutOfMemory>
    ensures { IfOk result (λ o. IfSome o (λ n. IsCommandName n.now ⊎ (n.now ≡ codes "help"))) }
{
    if word.len() >= LONG {
        return Ok(None);
    }
    if let Some(name) = nearest_command(alloc, word)? {
        return Ok(Some(name));
    }
    let nearest = Nearest::none().or(alloc, word, "help")?;
    Ok(nearest.name)
}

/// Returns the command's option or flag, without dashes, that is most similar to the argument.
/// Returns `Err` if memory runs out.
pub fn nearest_option(
    alloc: Global,
    command: Command,
    word: &str,
) -> Result<Option<&'static str>, OutOfMemory>
    ensures { IfOk result (λ o. IfSome o (λ n. Contains (option_names command) n.now)) }
{
    if word.len() >= LONG {
        return Ok(None);
    }
    let choices = choices_of(alloc, command)?;
    nearest_in(alloc, choices.as_slice(), word)
}
