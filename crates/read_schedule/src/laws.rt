//! Theorems about the reads, for every video. Each function does nothing; its clauses are the theorem.

ghost use Rattle.std.specs.Prelude.{◌≡◌, ◌≤◌, ◌<◌, ◌+◌, ◌-◌, ℕ, ℤ, pos, negsuc, Bool, true, false};
ghost use Rattle.std.specs.Prelude.{List, slice_index};
ghost use Rattle.fraction128.specs.Fractions.{Below, Fraction, scaled, whole};
ghost use Rattle.timing_base.specs.Media.{IsMedia, Media};
ghost use Rattle.sender_params.specs.Keeps.{held_at};
ghost use Rattle.sender_params.specs.Reads.{AreDue, anchor_of, read_of};
ghost use Rattle.sender_params.specs.Worked.{hd_25_interlaced, hd_50};
ghost use Rattle.read_schedule.specs.Stands.{is_on_time};
ghost use Rattle.read_schedule.specs.Worked.{with_troff};

/// Each read is before the next one, also across the end of a frame or field.
pub fn reads_rise()
    ensures { (m : Media) (n : ℕ) (anchor : ℤ) (gapped : Bool) (x : ℕ) → IsMedia m → 1 ≤ n
        → Below (read_of m n anchor gapped x) (read_of m n anchor gapped (x + 1)) }
{}

/// At each instant exactly one number of reads is due.
pub fn one_count()
    ensures some { (m : Media) (n : ℕ) (anchor : ℤ) (gapped : Bool) (t : Fraction)
        → IsMedia m → 1 ≤ n → 0 < t.den → (count : ℕ) × AreDue m n anchor gapped t count }
    ensures once { (m : Media) (n : ℕ) (anchor : ℤ) (gapped : Bool) (t : Fraction) (a b : ℕ)
        → AreDue m n anchor gapped t a → AreDue m n anchor gapped t b → a ≡ b }
{}

/// Just after packet i the buffer holds the packets up to i, less the reads that are due.
pub fn held_is_less_reads()
    ensures { (m : Media) (n : ℕ) (stamps : List ℕ) (gapped : Bool) (i count : ℕ)
        → AreDue m n (anchor_of m (slice_index stamps 0)) gapped (whole (slice_index stamps i)) count
        → held_at m n stamps gapped i ≡ (i + 1) - count }
{}

/// 1080p at 50 with 20 packets per frame: gapped read 19 of frame 0 is at 19,004,444 4/9 ns, linear
/// read 19 at 19,764,444 4/9 ns, and read 0 of the next frame at 20,764,444 4/9 ns.
pub fn frames_by_hand()
    ensures none { AreDue hd_50 20 (pos 0) true (whole 764444) 0 }
    ensures first { AreDue hd_50 20 (pos 0) true (whole 764445) 1 }
    ensures last { AreDue hd_50 20 (pos 0) true (whole 19004445) 20 }
    ensures gap { AreDue hd_50 20 (pos 0) true (whole 20764444) 20 }
    ensures next { AreDue hd_50 20 (pos 0) true (whole 20764445) 21 }
    ensures linear_before { AreDue hd_50 20 (pos 0) false (whole 19764444) 19 }
    ensures linear_last { AreDue hd_50 20 (pos 0) false (whole 19764445) 20 }
    ensures earlier_frame { AreDue hd_50 20 (negsuc 0) true (whole 764444) 20 }
{}

/// 1080 lines, interlaced, at 25 with 10 packets per field: gapped read 9 is at 18,062,222 2/9 ns,
/// and read 0 of the next field at 20,782,222 2/9 ns.
pub fn fields_by_hand()
    ensures before { AreDue hd_25_interlaced 10 (pos 0) true (whole 18062222) 9 }
    ensures last { AreDue hd_25_interlaced 10 (pos 0) true (whole 18062223) 10 }
    ensures gap { AreDue hd_25_interlaced 10 (pos 0) true (whole 20782222) 10 }
    ensures next { AreDue hd_25_interlaced 10 (pos 0) true (whole 20782223) 11 }
{}

/// With TROFF=1000 the reads of 1080p at 50 with 20 packets per frame are at whole nanoseconds:
/// read 0 at 1,000,000 ns, gapped read 1 at 1,960,000 ns.
pub fn on_time_by_hand()
    ensures before { AreDue with_troff 20 (pos 0) true (whole 999999) 0 }
    ensures here { AreDue with_troff 20 (pos 0) true (whole 1000000) 1 }
    ensures here_on_time { is_on_time with_troff 20 (pos 0) true 1000000 1 ≡ true }
    ensures after { is_on_time with_troff 20 (pos 0) true 1000001 1 ≡ false }
    ensures none_on_time { is_on_time with_troff 20 (pos 0) true 999999 0 ≡ false }
    ensures second { AreDue with_troff 20 (pos 0) true (whole 1960000) 2 }
    ensures second_on_time { is_on_time with_troff 20 (pos 0) true 1960000 2 ≡ true }
{}
