//! `help`: prints the arguments of the commands.

ghost use Rattle.timing_steps.specs.Ran.{Ran, output_of};
ghost use Rattle.timing_top.specs.Asked.{FollowsHelp};

use std::alloc::Global;
use timing_outside::Sink;
use timing_report::Status;
use timing_steps::{Answer, Failure, conclude};
use timing_words::{Command, help_text};

/// Returns the answer of `help`, or of `help` with a command.
fn answer_help(alloc: Global, command: Option<Command>) -> Result<Answer, Failure>
    ensures { FollowsHelp command result }
{
    let text = help_text(alloc, command)?;
    Ok(Answer {
        text: text.into_bytes(),
        status: Status::Pass,
    })
}

/// Prints the arguments of all commands on `out`, or those of one command and more about it. Prints on `err` the reason
/// if there is no output. Reads nothing.
pub fn print_help<K: Sink>(
    alloc: Global,
    command: Option<Command>,
    out: &mut K,
    err: &mut K,
) -> Status
    ensures ran { Ran (FollowsHelp command) (λ i. ⊥)
        (output_of K.Sink out.old out.new)
        (output_of K.Sink err.old err.new) result }
{
    let outcome = answer_help(alloc, command);
    conclude(out, err, outcome)
}
