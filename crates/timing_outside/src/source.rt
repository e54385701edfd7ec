//! Sources, which bytes are read from.
ghost use Rattle.std.specs.Prelude.{◌≡◌, ◌≤◌, List, ℕ, Option};
ghost use Rattle.std.specs.Io.{ReadsAtMost};
ghost use Rattle.std.specs.Io.KnownBytes.{ReadConsumes};
ghost use Rattle.timing_outside.specs.Causes.{HasCause};

/// The error of a read or write that failed.
#[derive(Clone, Copy, Debug, PartialEq, Eq)]
pub struct Failed;

/// An input with a name, which is read in pieces. Only what reads inputs on several threads also asks for `Send`.
pub trait Source: Drop {
    /// The bytes of the name, which a read doesn't change.
    ghost name: { Self → List ℕ };

    /// The bytes that are left, if they are known.
    ghost left: { Self → Option (List ℕ) };

    /// The number of reads that failed. It never decreases; at the end of 64 bits it counts as
    /// risen.
    ghost faults: { Self → ℕ };

    /// Reads the next bytes into the start of `buf`, and returns their number. If `buf` isn't
    /// empty, `Ok(0)` means the end of the input. The rest of `buf` may hold anything afterwards.
    ///
    /// Returns `Failed` only if the count of faults rose. Then no byte was consumed, the whole of
    /// `buf` may hold anything, and the next read begins at the same byte.
    fn read(&mut self, buf: &mut [u8]) -> Result<usize, Failed>
        ensures same_name { name self.new ≡ name self.old }
        ensures bound { ReadsAtMost result buf.new }
        ensures bytes { ReadConsumes (left self.old) (left self.new) result buf.new }
        ensures cause { HasCause (faults self.old) (faults self.new) result };
}
