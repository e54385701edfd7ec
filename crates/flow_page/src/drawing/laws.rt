//! Theorems about the definitions of drawings. Each function does nothing: its clauses are what is proved.

ghost use Rattle.std.specs.Prelude.{◌≡◌, ℕ, ℤ, List, true, false};
ghost use Rattle.timing_base.specs.Media.{Media};
ghost use Rattle.timing_base.specs.declared.fail.Broken.TheVariants.{Bucket, Empty, Over};
ghost use Rattle.timing_base.specs.declared.media.Kind.TheVariants.{N, NL, W};
ghost use Rattle.flow_measure.specs.Metered.{AreBuckets};
ghost use Rattle.flow_measure.specs.Occupancy.{AreOccupancies};
ghost use Rattle.flow_page.specs.drawing.Drawn.{AreLevels, IsHeld, count_around, start_around};
ghost use Rattle.flow_page.specs.drawing.Worked.{burst_proof, each_packet, held, later_proof, laid_over};

/// The columns of two frames of two packets with the levels 1 and 2, and then 1 and 3. Each packet has a column of its
/// own. With both frames overlaid, the column of the first packets is from 1 to 1, and that of the last packets from 2
/// to 3.
pub fn levels_by_hand()
    ensures { AreLevels 2 4 held each_packet laid_over }
{}

/// The packets in the picture around a violation. If the violation ends with packet 24 of 40, all 40 packets are shown.
/// If it ends with packet 1,000 of 2,000, the 400 packets from 651 to 1,050 are shown. Of 1,010 packets, those from 651
/// on are shown.
pub fn regions_by_hand()
    ensures start { start_around burst_proof ≡ 0 }
    ensures count { count_around burst_proof 40 ≡ 40 }
    ensures later_start { start_around later_proof ≡ 651 }
    ensures later_count { count_around later_proof 2000 ≡ 400 }
    ensures at_the_end { count_around later_proof 1010 ≡ 359 }
{}

/// The level that is drawn around a violation: the bucket, or the buffer by the reads of the type. Those of N are gapped,
/// those of NL and W linear.
pub fn held_around_by_hand()
    ensures bucket { (m : Media) (n : ℕ) (stamps : List ℕ) (at : ℕ → ℤ) → IsHeld m n stamps N Bucket at
        → AreBuckets m n stamps at }
    ensures narrow { (m : Media) (n : ℕ) (stamps : List ℕ) (at : ℕ → ℤ) → IsHeld m n stamps N Over at
        → AreOccupancies m n stamps true at }
    ensures linear { (m : Media) (n : ℕ) (stamps : List ℕ) (at : ℕ → ℤ) → IsHeld m n stamps NL Over at
        → AreOccupancies m n stamps false at }
    ensures empty { (m : Media) (n : ℕ) (stamps : List ℕ) (at : ℕ → ℤ) → IsHeld m n stamps N Empty at
        → AreOccupancies m n stamps true at }
    ensures wide { (m : Media) (n : ℕ) (stamps : List ℕ) (at : ℕ → ℤ) → IsHeld m n stamps W Empty at
        → AreOccupancies m n stamps false at }
{}
