//! Sinks, which bytes are written to.
ghost use Rattle.std.specs.Prelude.{◌≡◌, ◌≤◌, ◌<◌, List, ℕ, Option, IfOk, OnErr, length, take};
ghost use Rattle.std.specs.Io.KnownBytes.{WriteAppends};
ghost use Rattle.timing_outside.specs.Causes.{HasCause};
ghost use Rattle.timing_outside.specs.Written.{PutsAll};

use crate::source::Failed;

/// An output of bytes.
pub trait Sink {
    /// The bytes written so far, if they are known.
    ghost written: { Self → Option (List ℕ) };

    /// The number of writes that failed. It never decreases; at the end of 64 bits it counts as
    /// risen.
    ghost faults: { Self → ℕ };

    /// Appends the first bytes of `bytes`, at least one if there is one, and returns their number.
    ///
    /// Returns `Failed` only if the count of faults rose. Then nothing was appended, and the same
    /// bytes may be written again.
    fn write(&mut self, bytes: &[u8]) -> Result<usize, Failed>
        ensures bound { IfOk result (λ k. k ≤ length bytes.now) }
        ensures some { IfOk result (λ k. 0 < length bytes.now → 0 < k) }
        ensures bytes { WriteAppends (written self.old) (written self.new) result bytes.now }
        ensures cause { HasCause (faults self.old) (faults self.new) result };
}

/// Writes all of `bytes`, in as many writes as the sink needs. Allocates nothing.
///
/// Returns `Failed` only if the sink's count of faults rose. Then a prefix that is shorter than
/// `bytes` was appended. A call without bytes never fails.
pub fn put_all<K: Sink>(out: &mut K, bytes: &[u8]) -> Result<(), Failed>
    ensures bytes { PutsAll (K.written out.old) (K.written out.new) result bytes.now }
    ensures cause { HasCause (K.faults out.old) (K.faults out.new) result }
{
    let mut at = 0;
    while at < bytes.len() {
        at += out.write(&bytes[at..])?;
    }
    Ok(())
}
