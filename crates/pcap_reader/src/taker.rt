//! Takers, which packet records are passed to.

ghost use Rattle.std.specs.Prelude.{◌≤◌, ◌+◌, ◌++◌, ◌∷◌, [], ℕ, List, IfErr, IfOk, length};
ghost use Rattle.timing_base.specs.Captures.{IsStamp, Record};

/// A consumer of the packet records of a capture, in order. It may stop before they end.
pub trait Taker {
    /// The reason why it stops.
    type Stop;

    /// These records and no others changed the first into the second.
    ghost takes: { Self → Self → List Record → Type 0 };

    /// The first stopped for this reason at one of these records, whatever follows that one, and is
    /// now the second.
    ghost stops: { Self → Self → Self.Stop → List Record → Type 0 };

    /// It has room for this many further records, of which the first has this number.
    ghost room: { (number count : ℕ) → Self → Type 0 };

    /// Takes the next packet record: its number, counted from 1, its capture timestamp in
    /// nanoseconds, and its captured bytes. Returns `Err` if it stops.
    fn take(&mut self, number: u64, at: u64, frame: &[u8]) -> Result<(), Self::Stop>
        requires stamp { IsStamp at }
        requires short { length frame.now ≤ 262144 }
        requires room { room number 1 self.old }
        ensures room { (count : ℕ) → IfOk result (λ _. room number (count + 1) self.old
            → room (number + 1) count self.new) }
        ensures takes { IfOk result (λ _. takes self.old self.new
            (record { number = number; stamp = at; bytes = frame.now } ∷ [])) }
        ensures stops { IfErr result (λ stop. stops self.old self.new stop
            (record { number = number; stamp = at; bytes = frame.now } ∷ [])) };

    /// Without a record nothing changes.
    ghost none: { (x : Self) → takes x x [] };

    /// Two lists of records, one after the other, are taken as one list.
    ghost more: { (x y z : Self) (a b : List Record) → takes x y a → takes y z b
        → takes x z (a ++ b) };

    /// Some records were taken, and it stopped at one of those after them.
    ghost ends: { (x y z : Self) (stop : Self.Stop) (a b : List Record) → takes x y a
        → stops y z stop b → stops x z stop (a ++ b) };

    /// Records after the one at which it stopped have no effect.
    ghost halts: { (x y : Self) (stop : Self.Stop) (a b : List Record) → stops x y stop a
        → stops x y stop (a ++ b) };

    /// Room for many records is room for fewer.
    ghost less: { (number few many : ℕ) (x : Self) → few ≤ many → room number many x
        → room number few x };
}
