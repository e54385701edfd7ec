//! The reasons for which a run has no answer.

use std::alloc::{AllocError, AllocFailed};
use timing_outside::OpenFault;
use timing_report::{Input, Status};

/// The reason why a run has no answer, or only a prefix of it on its output.
#[derive(Clone, Copy)]
pub enum Failure {
    /// This input couldn't be opened, or a read of it failed.
    ReadFault(Input),
    /// A write on standard output failed.
    WriteFault,
    /// Memory ran out.
    OutOfMemory,
}

impl From<AllocError> for Failure {
    ghost use Rattle.std.specs.Prelude.{◌≡◌};
    ghost use Rattle.timing_steps.specs.declared.failure.Failure.TheVariants.{OutOfMemory};

    ghost from_gives = { λ _ e. e ≡ OutOfMemory };

    fn from(_: AllocError) -> Self {
        Failure::OutOfMemory
    }
}

impl<T: Drop> From<AllocFailed<T>> for Failure {
    ghost use Rattle.std.specs.Prelude.{◌≡◌};
    ghost use Rattle.timing_steps.specs.declared.failure.Failure.TheVariants.{OutOfMemory};

    ghost from_gives = { λ _ e. e ≡ OutOfMemory };

    fn from(_: AllocFailed<T>) -> Self {
        Failure::OutOfMemory
    }
}

impl From<Failure> for Status {
    ghost use Rattle.std.specs.Prelude.{◌≡◌};
    ghost use Rattle.timing_steps.specs.Ran.{status_of};

    ghost from_gives = { λ failure e. e ≡ status_of failure };

    fn from(failure: Failure) -> Self {
        match failure {
            Failure::ReadFault(input) => Status::ReadFault(input),
            Failure::WriteFault => Status::WriteFault,
            Failure::OutOfMemory => Status::OutOfMemory,
        }
    }
}

impl Failure {
    ghost use Rattle.std.specs.Prelude.{◌≡◌};
    ghost use Rattle.timing_steps.specs.Fetched.{unread};

    /// Returns the failure for an input that couldn't be opened or read.
    pub fn of_input(fault: OpenFault, input: Input) -> Failure
        ensures { result ≡ unread fault input }
    {
        match fault {
            OpenFault::Failed => Failure::ReadFault(input),
            OpenFault::OutOfMemory => Failure::OutOfMemory,
        }
    }
}
