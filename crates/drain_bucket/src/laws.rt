//! Theorems about the model, for every list of capture timestamps. Each function does nothing; its clauses are the
//! theorem.

ghost use Rattle.std.specs.Prelude.{◌≡◌, [], ◌∷◌};
ghost use Rattle.drain_bucket.specs.Reich.{CountIsLoad};
ghost use Rattle.drain_bucket.specs.Word.{bucket_of};
ghost use Rattle.sender_params.specs.Worked.{hd_50};

/// The bucket at packet i is the greatest load of an interval that ends there (Reich's formula).
pub fn count_is_load()
    ensures { CountIsLoad }
{}

/// 1080p at 50 with 20 packets per frame; T_DRAIN is 909,090 10/11 ns. Five packets come at once, a sixth after two
/// ticks, and a seventh long after.
pub fn worked_by_hand()
    ensures first { bucket_of hd_50 20 (7 ∷ 7 ∷ 7 ∷ 7 ∷ 7 ∷ 2000007 ∷ 20000007 ∷ []) 0 ≡ 1 }
    ensures five { bucket_of hd_50 20 (7 ∷ 7 ∷ 7 ∷ 7 ∷ 7 ∷ 2000007 ∷ 20000007 ∷ []) 4 ≡ 5 }
    ensures sixth { bucket_of hd_50 20 (7 ∷ 7 ∷ 7 ∷ 7 ∷ 7 ∷ 2000007 ∷ 20000007 ∷ []) 5 ≡ 4 }
    ensures idle { bucket_of hd_50 20 (7 ∷ 7 ∷ 7 ∷ 7 ∷ 7 ∷ 2000007 ∷ 20000007 ∷ []) 6 ≡ 1 }

    // A tick exactly at an arrival comes before it: the 11th is 10,000,000 ns after the first packet.
    ensures tie { bucket_of hd_50 20 (7 ∷ 9999999 ∷ 10000007 ∷ []) 2 ≡ 1 }
    ensures no_tie { bucket_of hd_50 20 (7 ∷ 9999999 ∷ 10000006 ∷ []) 2 ≡ 2 }
{}
