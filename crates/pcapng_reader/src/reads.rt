//! The input of a converter.

ghost use Rattle.std.specs.Prelude.{◌≡◌, ◌≤◌, List, ℕ, Option};
ghost use Rattle.std.specs.Io.{ReadsAtMost};
ghost use Rattle.std.specs.Io.KnownBytes.{ReadConsumes};
ghost use Rattle.timing_outside.specs.Causes.{HasCause};

use timing_outside::{Failed, Source};

/// The reads of a source, without its other functions.
pub trait Reads {
    /// The bytes of the name, which a read doesn't change.
    ghost name: { Self → List ℕ };

    /// The bytes that are left, if they are known.
    ghost left: { Self → Option (List ℕ) };

    /// The number of reads that failed. It never decreases.
    ghost faults: { Self → ℕ };

    /// Reads the next bytes into the start of `buf`, and returns their number, as `read` of
    /// [`Source`].
    fn read_bytes(&mut self, buf: &mut [u8]) -> Result<usize, Failed>
        ensures same_name { name self.new ≡ name self.old }
        ensures bound { ReadsAtMost result buf.new }
        ensures bytes { ReadConsumes (left self.old) (left self.new) result buf.new }
        ensures cause { HasCause (faults self.old) (faults self.new) result };
}

impl<S: Source> Reads for S {
    ghost name = { λ s. S.name s };

    ghost left = { λ s. S.left s };

    ghost faults = { λ s. S.faults s };

    fn read_bytes(&mut self, buf: &mut [u8]) -> Result<usize, Failed> {
        self.read(buf)
    }
}
