//! The answer of a request.

use std::alloc::Global;
use std::marker::Model;
use timing_report::Status;

/// The answer of a request: the bytes on standard output, and the status. In contracts `text` is a list of bytes.
#[derive(Drop)]
pub struct Answer {
    /// The output, whole.
    pub text: Vec<u8>,
    /// The status with which the program ends.
    pub status: Status,
}

impl Model for Answer {
    ghost use Rattle.timing_steps.specs.Answers.{Answer as Seen};

    ghost Value = { Seen };

    ghost view = { λ answer. record { text = answer.text.items; status = answer.status } };
}

impl Answer {
    ghost use Rattle.std.specs.Prelude.{◌≡◌};
    ghost use Rattle.timing_steps.specs.Answers.{silent};

    /// Returns an answer without output.
    pub fn silent(alloc: Global, status: Status) -> Answer
        ensures { result ≡ silent status }
    {
        Answer {
            text: Vec::new(alloc),
            status,
        }
    }
}
