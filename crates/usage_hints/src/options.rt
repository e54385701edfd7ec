//! The options and flags of a command, taken from its parser.

ghost use Rattle.std.specs.Prelude.{◌≡◌, IfOk, filter_map, map, option_map};
ghost use Rattle.clap.specs.Walk.{rule_of};
ghost use Rattle.timing_words.specs.Request.{sorts};
ghost use Rattle.usage_hints.specs.Options.{sort_in, sort_of};

use clap::Arg;
use std::alloc::{AllocError as OutOfMemory, Global};
use timing_words::Command;

/// An option, which takes a value, or a flag.
#[derive(Clone, Copy)]
pub(crate) struct Choice {
    /// The name, without dashes.
    pub(crate) name: &'static str,
    /// Whether it takes a value.
    pub(crate) valued: bool,
}

/// Returns the option or flag of a parser's argument, or `None` for the positional arguments.
fn choice_of(arg: &Arg<'static>) -> Option<Choice>
    ensures { option_map sort_of result ≡ sort_in (rule_of arg.now) }
{
    match arg.get_long() {
        Some(name) => Some(Choice {
            name,
            valued: arg.get_num_args().is_none(),
        }),
        None => None,
    }
}

/// Returns the options and flags among the arguments of a parser.
fn choices_in(alloc: Global, args: &[Arg<'static>]) -> Result<Vec<Choice>, OutOfMemory>
    ensures { IfOk result (λ v. map sort_of v.items ≡ filter_map (λ a. sort_in (rule_of a)) args.now) }
{
    let mut choices = Vec::new(alloc);
    for arg in args {
        if let Some(choice) = choice_of(arg) {
            choices.push(choice)?;
        }
    }
    Ok(choices)
}

/// Returns the options and flags of a command, in the order of its parser. Returns `Err` if memory
/// runs out.
pub(crate) fn choices_of(alloc: Global, command: Command) -> Result<Vec<Choice>, OutOfMemory>
    ensures { IfOk result (λ v. map sort_of v.items ≡ sorts command) }
{
    let parser: clap::Command<'static> = command.parser(alloc)?;
    choices_in(alloc, parser.get_arguments())
}

/// Returns the option or flag of this name.
pub(crate) fn choice_named(choices: &[Choice], name: &str) -> Option<Choice> {
    for choice in choices {
        if choice.name == name {
            return Some(*choice);
        }
    }
    None
}

/// Returns all commands, in the order of `help`.
pub(crate) fn commands() -> [Command; 14] {
    [
        Command::Check,
        Command::Verify,
        Command::VerifyReport,
        Command::SelfTest,
        Command::Window,
        Command::Shape,
        Command::Skew,
        Command::Scan,
        Command::Measure,
        Command::Series,
        Command::Sdp,
        Command::Page,
        Command::Explain,
        Command::Watch,
    ]
}
