//! A flag that stops the workers.

ghost use Rattle.std.specs.Prelude.{◌≡◌, IfSome};

use crate::lane::Lane;
use std::marker::Model;
use std::sync::{OnceLock, OnceToken, Wait};

/// A flag by which a reader of a capture that ran out of memory stops the workers. It isn't guaranteed when a worker
/// sees it.
#[derive(Drop)]
pub struct Halt {
    raised: OnceLock<()>,
}

impl Model for Halt {
    ghost use Rattle.ruled_intake.specs.Halts.{HaltId};

    ghost Value = { HaltId };

    ghost view = { λ halt. halt.raised.id };
}

/// Evidence that a halt was raised: only a thread that raised it, or saw it raised, has one. It has the lanes with the
/// workers that were woken for it; none if the halt was only seen raised.
#[derive(Drop)]
pub struct Raised<'a> {
    token: OnceToken<'a, ()>,
    woken: &'a [Lane],
}

impl<'a> Model for Raised<'a> {
    ghost use Rattle.ruled_intake.specs.Halts.{Raised as Seen};

    ghost Value = { Seen };

    ghost view = { λ raised. record { halt = raised.token.of; woken = raised.woken.now } };
}

impl Halt {
    /// Returns a flag that isn't raised.
    pub fn new() -> Halt {
        Halt {
            raised: OnceLock::new(),
        }
    }

    /// Raises the flag for good, and wakes the workers that sleep at these lanes. The call may wait for another thread
    /// that is raising it.
    pub fn raise<'a, R: Wait>(&'a self, rt: &R, lanes: &'a [Lane]) -> Raised<'a>
        ensures halt { result.halt ≡ self.now }
        ensures woken { result.woken ≡ lanes.now }
    {
        let token = self.raised.init(rt, || ());
        for lane in lanes {
            lane.wake();
        }
        Raised {
            token,
            woken: lanes,
        }
    }

    /// Returns evidence if the flag was seen raised, else `None`.
    pub fn raised(&self) -> Option<Raised<'_>>
        ensures { IfSome result (λ raised. raised.halt ≡ self.now) }
    {
        let token = self.raised.witness()?;
        Some(Raised { token, woken: &[] })
    }
}
