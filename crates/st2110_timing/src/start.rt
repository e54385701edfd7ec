//! Runs the arguments of the process.

ghost use Rattle.std.specs.Prelude.{◌≤◌, ℕ, List, IfOk};
ghost use Rattle.std.specs.Io.KnownBytes.{Appends};
ghost use Rattle.std.specs.Process.{exit_status};
ghost use Rattle.timing_outside.specs.Shelves.{StaysAs};
ghost use Rattle.timing_steps.specs.Answers.{seen_of};
ghost use Rattle.timing_steps.specs.Ran.{TellsLine, output_of};
ghost use Rattle.st2110_timing.specs.Started.{IsStarted};

use crate::ending::{Causes, explain_status};
use std::alloc::AllocError as OutOfMemory;
use std::env;
use std::io::ErrorKind;
use std::process::ExitCode;
use std::rt::{Env, Files};
use std::sync::Wait;
use std::thread::Threads;
use timing_outside::{Gate, Shelf, Sink, put_all};
use timing_report::Status;
use timing_top::run;

/// The arguments after the name of the program.
#[derive(Drop)]
pub(crate) struct Arguments {
    /// The arguments; none if one of them isn't UTF-8.
    pub(crate) words: Vec<String>,
    /// Whether all arguments are UTF-8.
    pub(crate) are_text: bool,
}

/// Returns the arguments after the name of the program. If one of them isn't UTF-8, no argument is returned, which is
/// an invalid command line. Returns `Err` if memory runs out.
fn read_arguments<R: Env + AllocGlobal>(rt: &R) -> Result<Arguments, OutOfMemory> {
    match env::args(rt) {
        Ok(args) => Ok(Arguments {
            words: args.skip(1).collect(rt.alloc())?,
            are_text: true,
        }),
        Err(fault) if fault.kind() == ErrorKind::OutOfMemory => Err(OutOfMemory),
        Err(_) => Ok(Arguments {
            words: Vec::new(rt.alloc()),
            are_text: false,
        }),
    }
}

/// Prints the line of a status on standard error. If a write fails, the rest is left out.
fn print_line<K: Sink>(err: &mut K, status: Status)
    ensures { TellsLine (output_of K.Sink err.old err.new) status }
{
    let line = status.error_line();
    let _written = put_all(err, line.as_str().as_bytes());
}

/// Runs the arguments of the process by [`run`], and then explains the status on standard error. Returns the code of
/// the status. If there is no memory for the arguments, the status is [`Status::OutOfMemory`].
pub(crate) fn start<
    R: Env + Files + AllocGlobal + Threads + Wait + Sync,
    H: Shelf + Causes,
    K: Sink,
    G: Gate,
>(rt: &R, shelf: &mut H, out: &mut K, err: &mut K, gate: &G) -> ExitCode
where
    R::File: Send,
    H::Source: Send,
    ensures started { IsStarted (seen_of H.Shelf shelf.old shelf.new)
        (output_of K.Sink out.old out.new)
        (output_of K.Sink err.old err.new)
        (exit_status result) }
    ensures stays { StaysAs H.text H.lacks H.faults shelf.old shelf.new }
{
    let Ok(arguments) = read_arguments(rt) else {
        print_line(err, Status::OutOfMemory);
        return ExitCode::from(Status::OutOfMemory.code());
    };
    let status = run(rt, rt.alloc(), &arguments.words, shelf, out, err, gate);
    explain_status(rt, &arguments, status, shelf, err);
    ExitCode::from(status.code())
}
