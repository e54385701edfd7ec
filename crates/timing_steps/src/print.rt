//! Ends a run: prints its answer on standard output, or the reason why there is none on standard error.

ghost use Rattle.std.specs.Prelude.{◌≡◌, ◌≤◌, Result};
ghost use Rattle.timing_steps.specs.Answers.{Answer as AnswerValue};
ghost use Rattle.timing_steps.specs.Ran.{Leaves, TellsLine, output_of};

use crate::answer::Answer;
use crate::failure::Failure;
use timing_outside::{Sink, put_all};
use timing_report::Status;

/// Prints an answer, and returns its status. If a write fails, the sink has a prefix of the answer that isn't the
/// whole. Without an answer nothing is printed.
fn print<K: Sink>(out: &mut K, outcome: Result<Answer, Failure>) -> Status
    ensures printed { Leaves (output_of K.Sink out.old out.new) outcome result }
    ensures later { K.faults out.old ≤ K.faults out.new }
{
    match outcome {
        Ok(answer) => match put_all(out, &answer.text) {
            Ok(()) => answer.status,
            Err(_) => Status::from(Failure::WriteFault),
        },
        Err(failure) => Status::from(failure),
    }
}

/// Prints the line of the status on standard error, if it has one. A write that fails there doesn't change the status.
fn tell<K: Sink>(err: &mut K, status: &Status)
    ensures line { TellsLine (output_of K.Sink err.old err.new) status.now }
    ensures later { K.faults err.old ≤ K.faults err.new }
{
    let line = status.error_line();
    let _ = put_all(err, line.as_str().as_bytes());
}

/// Ends a run: prints the answer on `out`, or on `err` the reason why there is none, and returns the status. If a write
/// on `out` fails, `out` has a prefix of the answer that isn't the whole, and the status is `WriteFault`.
pub fn conclude<K: Sink>(out: &mut K, err: &mut K, outcome: Result<Answer, Failure>) -> Status
    ensures printed { Leaves (output_of K.Sink out.old out.new) outcome result }
    ensures told { TellsLine (output_of K.Sink err.old err.new) result }
    ensures later_out { K.faults out.old ≤ K.faults out.new }
    ensures later_err { K.faults err.old ≤ K.faults err.new }
{
    let status = print(out, outcome);
    tell(err, &status);
    status
}
