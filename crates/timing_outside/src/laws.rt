//! Examples of the definitions, worked by hand. Each function does nothing; its clauses are what is
//! proved.

ghost use Rattle.std.specs.Prelude.{ℕ, ◌≡◌, ◌^◌, ◌-◌, List, [], ◌∷◌, true, false, Bool, Some, None, ⊤, codes};
ghost use Rattle.timing_outside.specs.Causes.{Rose};
ghost use Rattle.timing_outside.specs.Counts.{raised, raised_if, is_planned};
ghost use Rattle.timing_outside.specs.MemoryShelves.{plan_of, count_of, count_after, FetchFails};
ghost use Rattle.timing_outside.specs.Files as files;
ghost use Rattle.timing_outside.specs.Written.{AppendsFront};
ghost use Rattle.timing_outside.specs.declared.files.FileShelf.{FileShelf};
ghost use Rattle.timing_outside.specs.declared.memory_shelf.MemoryShelf.{MemoryShelf};
ghost use Rattle.timing_outside.specs.declared.plan.ReadPlan.{ReadPlan};

/// Worked by hand: raising a count adds one, except at the end of 64 bits.
pub fn raised_by_hand()
    ensures first { raised 0 ≡ 1 }
    ensures last { raised (2 ^ 64 - 1) ≡ 2 ^ 64 - 1 }
    ensures unfailed { raised_if false 7 ≡ 7 }
{}

/// Worked by hand: an unchanged count hasn't risen, except at the end of 64 bits.
pub fn rose_by_hand()
    ensures rose { Rose 7 8 }
    ensures same { ¬ Rose 7 7 }
    ensures full { Rose (2 ^ 64 - 1) (2 ^ 64 - 1) }
{}

/// Worked by hand: calls are numbered from 1.
pub fn planned_by_hand()
    ensures second { is_planned (2 ∷ 5 ∷ []) 2 ≡ true }
    ensures fifth { is_planned (2 ∷ 5 ∷ []) 5 ≡ true }
    ensures first { is_planned (2 ∷ 5 ∷ []) 1 ≡ false }
    ensures empty { is_planned [] 1 ≡ false }
{}

/// Worked by hand: the prefix that a failed write leaves is shorter than the text.
pub fn front_by_hand()
    ensures some { AppendsFront (Some (1 ∷ [])) (Some (1 ∷ 7 ∷ [])) (7 ∷ 8 ∷ []) }
    ensures whole { ¬ AppendsFront (Some (1 ∷ [])) (Some (1 ∷ 7 ∷ [])) (7 ∷ []) }
{}

/// A fetch fails if the name isn't there, or if its plan has it fail.
pub fn fetch_by_hand()
    ensures missing { (shelf : MemoryShelf) (name : List ℕ)
        → plan_of shelf name ≡ None → FetchFails shelf name }
    ensures planned { (shelf : MemoryShelf) (name : List ℕ) (plan : ReadPlan)
        → plan_of shelf name ≡ Some plan → plan.fetch_fails ≡ true → FetchFails shelf name }
    ensures given { (shelf : MemoryShelf) (name : List ℕ) (plan : ReadPlan)
        → plan_of shelf name ≡ Some plan → plan.fetch_fails ≡ false → ¬ FetchFails shelf name }
{}

/// Worked by hand: a name has failed three times, and then there is a call for the name `a`.
pub fn counts_by_hand()
    ensures failed { (shelf : MemoryShelf) → count_of shelf (codes "a") ≡ 3
        → count_after true shelf (codes "a") (codes "a") ≡ 4 }
    ensures succeeded { (shelf : MemoryShelf) → count_of shelf (codes "a") ≡ 3
        → count_after false shelf (codes "a") (codes "a") ≡ 3 }

    // Names that aren't there share one count. A name that is there has its own.
    ensures shared { (shelf : MemoryShelf) → plan_of shelf (codes "a") ≡ None
        → plan_of shelf (codes "b") ≡ None → count_of shelf (codes "b") ≡ 3
        → count_after true shelf (codes "a") (codes "b") ≡ 4 }
    ensures apart { (shelf : MemoryShelf) (plan : ReadPlan) → plan_of shelf (codes "b") ≡ Some plan
        → count_of shelf (codes "b") ≡ 3 → count_after true shelf (codes "a") (codes "b") ≡ 3 }
{}

/// Worked by hand: the file `b` has failed three times, and then a call for the name `a` fails.
pub fn files_by_hand()
    ensures failed { (shelf : FileShelf ⊤) → files.count_of shelf (codes "a") ≡ 3
        → files.count_after true shelf (codes "a") (codes "a") ≡ 4 }

    // A name that was fetched has its own count. All others share one.
    ensures apart { (shelf : FileShelf ⊤) → files.is_known shelf (codes "b") ≡ true
        → files.count_of shelf (codes "b") ≡ 3 → files.count_after true shelf (codes "a") (codes "b") ≡ 3 }
    ensures shared { (shelf : FileShelf ⊤) → files.is_known shelf (codes "a") ≡ false
        → files.is_known shelf (codes "b") ≡ false → files.count_of shelf (codes "b") ≡ 3
        → files.count_after true shelf (codes "a") (codes "b") ≡ 4 }
{}
