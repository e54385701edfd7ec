//! Theorems about the definitions. Each function does nothing; its clauses are the theorem.

ghost use Rattle.std.specs.Prelude.{◌≡◌, ℕ, ℤ, List};
ghost use Rattle.timing_base.specs.Media.{IsMedia, Media};
ghost use Rattle.run_meter.specs.Levels.{IsLevel};
ghost use Rattle.run_meter.specs.declared.level.Level.{Level};

/// The level just after a packet is unique.
pub fn one_level()
    ensures { (m : Media) (n : ℕ) (stamps : List ℕ) (i : ℕ) (a b : Level)
        → IsLevel m n stamps i a → IsLevel m n stamps i b → a ≡ b }
{}
