//! Theorems about the window. Each function does nothing; its clauses are the theorem.

ghost use Rattle.std.specs.Prelude.{◌≡◌, ◌≤◌, ◌+◌, ◌-◌, ◌∷◌, ◌++◌, [], ℕ, ℤ, Bool, List, length, slice_index, replicate, Option, Some, None};
ghost use Rattle.fraction128.specs.Fractions.{whole};
ghost use Rattle.timing_base.specs.Media.{IsMedia, Media};
ghost use Rattle.timing_base.specs.declared.media.Kind.{Kind};
ghost use Rattle.timing_base.specs.declared.media.Kind.TheVariants.{N, NL, W};
ghost use Rattle.sender_params.specs.Keeps.{is_empty, is_over};
ghost use Rattle.sender_params.specs.Reads.{AreDue, anchor_of};
ghost use Rattle.sender_params.specs.Worked.{hd_50};
ghost use Rattle.offset_window.specs.Window.{IsWindow, Serves, held_with, is_empty_with};
ghost use Rattle.offset_window.specs.Window.{is_over_with, with_offset};
ghost use Rattle.offset_window.specs.Worked.{IsFromTo, each_after, late_group, so_late};
ghost use Rattle.offset_window.specs.declared.window.Window.{Window};
ghost use Rattle.offset_window.specs.declared.window.WindowEnd.TheVariants.{Absent, At};

/// Every list of packets has exactly one window.
pub fn one_window()
    ensures some { (m : Media) (n : ℕ) (stamps : List ℕ) (kind : Kind)
        → (w : Window) × IsWindow m n stamps kind w }
    ensures once { (m : Media) (n : ℕ) (stamps : List ℕ) (kind : Kind) (w other : Window)
        → IsWindow m n stamps kind w → IsWindow m n stamps kind other → w ≡ other }
{}

/// Every offset from the lower end on works for the lower end, and every offset up to the upper end for the upper end.
pub fn offsets_between_serve()
    ensures lower { (m : Media) (n : ℕ) (stamps : List ℕ) (kind : Kind) (w : Window)
        (micros other : ℕ) (binding : Option ℕ)
        → IsWindow m n stamps kind w → w.lower ≡ At micros binding → micros ≤ other
        → Serves (is_empty_with m n (anchor_of m (slice_index stamps 0)) stamps kind)
        (length stamps) other }
    ensures upper { (m : Media) (n : ℕ) (stamps : List ℕ) (kind : Kind) (w : Window)
        (micros other : ℕ) (binding : Option ℕ) → IsMedia m → 1 ≤ n
        → IsWindow m n stamps kind w → w.upper ≡ At micros binding → other ≤ micros
        → Serves (is_over_with m n (anchor_of m (slice_index stamps 0)) stamps kind)
        (length stamps) other }
{}

/// With the offset of TROFF, packets violate the buffer's model as the model itself defines it.
pub fn own_offset_is_the_model()
    ensures empty { (m : Media) (n : ℕ) (stamps : List ℕ) (kind : Kind) (micros i : ℕ)
        → m.troff ≡ Some micros
        → is_empty_with m n (anchor_of m (slice_index stamps 0)) stamps kind micros i
        ≡ is_empty m n stamps kind i }
    ensures over { (m : Media) (n : ℕ) (stamps : List ℕ) (kind : Kind) (micros i : ℕ)
        → m.troff ≡ Some micros
        → is_over_with m n (anchor_of m (slice_index stamps 0)) stamps kind micros i
        ≡ is_over m n stamps kind i }
{}

/// With any offset, the buffer just after packet i holds the packets up to i, less all reads that are due.
pub fn held_is_less_reads()
    ensures { (m : Media) (n : ℕ) (anchor : ℤ) (stamps : List ℕ) (gapped : Bool) (micros i count : ℕ)
        → AreDue (with_offset m micros) n anchor gapped (whole (slice_index stamps i)) count
        → held_with m n anchor stamps gapped micros i ≡ (i + 1) - count }
{}

/// A frame of a narrow sender at 50 with 20 packets per frame; VRX_FULL of N and NL is 8. With the offset 0 each packet
/// comes 764,000 ns after its gapped read, and each one from packet 8 on 8,444,000 ns after the gapped read eight
/// packets before: packet 8 is the first to limit the upper end. Relative to its linear read, each packet comes 40,000
/// ns earlier than the one before, so packet 19 limits the upper end of NL.
pub fn narrow_by_hand()
    ensures narrow { IsFromTo hd_50 20 (each_after 960000 20) N (At 764 (Some 0)) (At 8444 (Some 8)) }
    ensures linear { IsFromTo hd_50 20 (each_after 960000 20) NL (At 764 (Some 0)) (At 8004 (Some 19)) }
    ensures wide { IsFromTo hd_50 20 (each_after 960000 20) W (At 764 (Some 0)) (At 1000000 None) }
    ensures full { IsFromTo hd_50 20 (each_after 960000 8) N (At 764 (Some 0)) (At 1000000 None) }
{}

/// A frame of a linear sender. Relative to its gapped read, each packet comes 40,000 ns later than the one before, the
/// last 1,524,000 ns after it.
pub fn linear_by_hand()
    ensures narrow { IsFromTo hd_50 20 (each_after 1000000 20) N (At 1524 (Some 19)) (At 8764 (Some 8)) }
    ensures linear { IsFromTo hd_50 20 (each_after 1000000 20) NL (At 764 (Some 0)) (At 8764 (Some 8)) }
    ensures wide { IsFromTo hd_50 20 (each_after 1000000 20) W (At 764 (Some 0)) (At 1000000 None) }
{}

/// A packet at its read with the offset 0, and up to 1,001 ns after it. With the offset 1,000,000 the read of packet 1
/// is at 1,000,960,000 ns; if the packet comes one nanosecond later, no offset works.
pub fn lower_ends_by_hand()
    ensures none { IsFromTo hd_50 20 [] N (At 0 None) (At 1000000 None) }
    ensures early { IsFromTo hd_50 20 (so_late 0 ∷ []) N (At 0 None) (At 1000000 None) }
    ensures later { IsFromTo hd_50 20 (so_late 1 ∷ []) N (At 1 (Some 0)) (At 1000000 None) }
    ensures whole { IsFromTo hd_50 20 (so_late 1000 ∷ []) N (At 1 (Some 0)) (At 1000000 None) }
    ensures more { IsFromTo hd_50 20 (so_late 1001 ∷ []) N (At 2 (Some 0)) (At 1000000 None) }
    ensures last { IsFromTo hd_50 20 (so_late 764000 ∷ so_late 1000960000 ∷ []) N
        (At 1000000 (Some 1)) (At 1000000 None) }
    ensures absent { IsFromTo hd_50 20 (so_late 764000 ∷ so_late 1000960001 ∷ []) N
        Absent (At 1000000 None) }
{}

/// Nine packets at once: packet 8 overflows the buffer if it comes before read 0. In `every` packet 8 is late enough
/// for every offset, and in `last` one nanosecond too early.
pub fn upper_ends_by_hand()
    ensures absent { IsFromTo hd_50 20 (replicate 9 1599999999999999999) N (At 0 None) Absent }
    ensures least { IsFromTo hd_50 20 (replicate 9 (so_late 0)) N (At 0 None) (At 0 (Some 8)) }
    ensures under { IsFromTo hd_50 20 (replicate 9 (so_late 999)) N (At 1 (Some 0)) (At 0 (Some 8)) }
    ensures whole { IsFromTo hd_50 20 (replicate 9 (so_late 1000)) N (At 1 (Some 0)) (At 1 (Some 8)) }
    ensures last { IsFromTo hd_50 20 (replicate 8 (so_late 0) ++ so_late 999999999 ∷ []) N
        (At 992320 (Some 8)) (At 999999 (Some 8)) }
    ensures every { IsFromTo hd_50 20 (replicate 8 (so_late 0) ++ so_late 1000000000 ∷ []) N
        (At 992320 (Some 8)) (At 1000000 None) }
    ensures wide { IsFromTo hd_50 20 (replicate 9 (so_late 0)) W (At 0 None) (At 1000000 None) }
{}

/// Reads are counted from the frame of packet 0 as the video describes it: with TROFF=30000 a packet 30,764,000 ns
/// after the start of a frame belongs to that frame, whatever the offset. With one packet per frame, packet 1 comes
/// 765,000 ns after the start of its own.
pub fn groups_by_hand()
    ensures own_group { IsFromTo late_group 20 (so_late 30764000 ∷ []) N
        (At 30764 (Some 0)) (At 1000000 None) }
    ensures next_group { IsFromTo hd_50 1 (so_late 764000 ∷ so_late 20765000 ∷ []) N
        (At 765 (Some 1)) (At 1000000 None) }
{}
