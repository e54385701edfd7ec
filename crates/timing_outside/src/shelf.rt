//! Shelves, which open inputs by name.
ghost use Rattle.std.specs.Prelude.{◌≡◌, ◌≤◌, ◌<◌, List, ℕ, Option, None, IfOk, IsErrOf};
ghost use Rattle.timing_outside.specs.Causes.{Rose};
ghost use Rattle.timing_outside.specs.Shelves.{StaysAs};

use crate::source::Source;
use std::alloc::AllocError as OutOfMemory;

/// The reason why a name couldn't be fetched.
#[derive(Clone, Copy, Debug, PartialEq, Eq)]
pub enum OpenFault {
    /// The input couldn't be opened, or there is none of this name.
    Failed,
    /// Memory ran out.
    OutOfMemory,
}

impl From<OutOfMemory> for OpenFault {
    ghost use Rattle.timing_outside.specs.declared.shelf.OpenFault.TheVariants.{OutOfMemory};

    ghost from_gives = { λ _ e. e ≡ OutOfMemory };

    fn from(_fault: OutOfMemory) -> OpenFault {
        OpenFault::OutOfMemory
    }
}

/// Contents that are opened by name.
pub trait Shelf {
    /// The source that the fetched contents are read from.
    type Source: Source;

    /// The contents of a name, if they are known.
    ghost text: { Self → List ℕ → Option (List ℕ) };

    /// The shelf states that there is no such name.
    ghost lacks: { Self → List ℕ → Type 0 };

    /// The number of faults of a name. It never decreases; at the end of 64 bits it counts as
    /// risen.
    ghost faults: { Self → List ℕ → ℕ };

    /// Opens the contents of a name, and returns a source at their start of which no read has
    /// failed. A name may be fetched again. Known contents don't change in between; others may.
    ///
    /// Returns `Failed` only if the count of this name rose, and always for a name that the shelf
    /// states isn't there. Returns `OutOfMemory` if memory runs out; the count may stay as it was.
    /// After either error the contents are unchanged.
    fn fetch(&mut self, name: &str) -> Result<Self::Source, OpenFault>
        ensures named { IfOk result (λ s. Self.Source.name s ≡ name.now) }
        ensures whole { IfOk result (λ s. Self.Source.left s ≡ text self.old name.now) }
        ensures fresh { IfOk result (λ s. Self.Source.faults s ≡ 0) }
        ensures missing { lacks self.old name.now → IsErrOf result OpenFault.Failed }
        ensures stays { StaysAs text lacks faults self.old self.new }
        ensures failed { IsErrOf result OpenFault.Failed
            → Rose (faults self.old name.now) (faults self.new name.now) };

    /// Takes a source back. If a read of it has failed, the count of its name rises. The contents
    /// are unchanged.
    fn give_back(&mut self, source: Self::Source)
        ensures raised { 0 < Self.Source.faults source
            → Rose (faults self.old (Self.Source.name source))
            (faults self.new (Self.Source.name source)) }
        ensures stays { StaysAs text lacks faults self.old self.new };
}
