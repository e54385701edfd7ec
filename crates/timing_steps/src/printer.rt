//! What makes text of packet records, which is printed while captures are read.

ghost use Rattle.std.specs.Prelude.{◌≡◌, ◌≤◌, ◌+◌, ◌++◌, ◌∷◌, [], ℕ, List, IfErr, IfOk, length};
ghost use Rattle.std.specs.Io.KnownBytes.{Appends};
ghost use Rattle.timing_base.specs.Captures.{IsStamp, Record};
ghost use Rattle.timing_outside.specs.Causes.{Rose};
ghost use Rattle.timing_outside.specs.Written.{AppendsFront};
ghost use Rattle.timing_steps.specs.declared.failure.Failure.TheVariants as failure;

use crate::failure::Failure;
use std::alloc::AllocError as OutOfMemory;
use timing_outside::Sink;

/// A taker of packet records that makes text of them. The text is written by `print`, between records.
pub trait Printer: Drop {
    /// The first became the second by these packet records and by this text, which was written, and by nothing else.
    ghost goes_on: { Self → Self → (written : List ℕ) → List Record → Type 0 };

    /// There is room for `count` more packet records.
    ghost room: { (count : ℕ) → Self → Type 0 };

    /// The text that isn't written yet.
    ghost text: { Self → List ℕ };

    /// A part of that text may be written, if a write of it fails.
    ghost holds: { Self → Type 0 };

    /// Takes the next packet record: its number, counted from 1, its capture timestamp in nanoseconds, and its captured
    /// bytes. Returns `Err` if memory runs out.
    fn take(&mut self, number: u64, at: u64, frame: &[u8]) -> Result<(), OutOfMemory>
        requires stamp { IsStamp at }
        requires short { length frame.now ≤ 262144 }
        requires room { room 1 self.old }
        ensures room { (count : ℕ) → IfOk result (λ _. room (count + 1) self.old → room count self.new) }
        ensures goes_on { IfOk result (λ _. goes_on self.old self.new []
            (record { number = number; stamp = at; bytes = frame.now } ∷ [])) };

    /// Writes the text that is ready. Returns `WriteFault` if a write fails; then a prefix of it was written.
    fn print<K: Sink>(&mut self, out: &mut K) -> Result<(), Failure>
        ensures room { (count : ℕ) → room count self.old → room count self.new }
        ensures goes_on { IfOk result (λ _. (written : List ℕ)
            × Appends (K.written out.old) (K.written out.new) written × goes_on self.old self.new written []) }
        ensures failed { IfErr result (λ e. (e ≡ failure.WriteFault) × Rose (K.faults out.old) (K.faults out.new)
            × holds self.old × AppendsFront (K.written out.old) (K.written out.new) (text self.old)) }
        ensures later { K.faults out.old ≤ K.faults out.new };

    /// Without a packet record and without text nothing changes.
    ghost none: { (x : Self) → goes_on x x [] [] };

    /// Two steps, one after the other, are one.
    ghost more: { (x y z : Self) (first second : List ℕ) (a b : List Record) → goes_on x y first a
        → goes_on y z second b → goes_on x z (first ++ second) (a ++ b) };

    /// Room for many packet records is room for fewer.
    ghost less: { (few many : ℕ) (x : Self) → few ≤ many → room many x → room few x };
}
