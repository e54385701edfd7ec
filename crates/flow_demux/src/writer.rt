//! The trait of what makes text of the packets of a flow.

ghost use Rattle.std.specs.Prelude.{◌≡◌, ◌++◌, [], ℕ, List, IfOk, string_bytes};

use crate::taker::FlowTaker;
use std::alloc::AllocError as OutOfMemory;

/// A taker of the packets of a flow that makes text while it takes them.
pub trait FlowWriter: FlowTaker {
    /// The text that was made and not moved yet.
    ghost text: { Self → List ℕ };

    /// The text was moved, and the first became the second by nothing else.
    ghost moves: { Self → Self → Type 0 };

    /// Moves the text to the end of `to`. Returns `Err` if memory runs out; what was moved is then unspecified.
    fn move_text(&mut self, to: &mut String) -> Result<(), OutOfMemory>
        ensures expects { Self.expects self.new ≡ Self.expects self.old }
        ensures room { (count : ℕ) → Self.room count self.old → Self.room count self.new }
        ensures text { IfOk result (λ _. string_bytes to.new ≡ string_bytes to.old ++ text self.old) }
        ensures moves { IfOk result (λ _. moves self.old self.new) };
}
