//! Theorems about the definitions: values worked by hand, and properties for all numbers. Each function does nothing:
//! its clauses are what is proved.

ghost use Rattle.std.specs.Prelude.{◌≡◌, ◌<◌, ◌≤◌, ◌+◌, ◌∷◌, [], ◌↔◌, ℕ, ℤ, pos, negsuc, ◌≤ℤ◌};
ghost use Rattle.std.specs.Prelude.{Bool, List, Option, Some, None, nat_lt, length, slice_index, true, false, ◌==◌, ◌||◌};
ghost use Rattle.std.specs.Prelude.{◌-◌, ◌*◌, ◌/◌, ◌^◌};
ghost use Rattle.flow_measure.specs.Bins.{AreBins, above_limit, below_zero, bin_count, bin_width, in_bin};
ghost use Rattle.flow_measure.specs.Classes.{AreClasses, in_class};
ghost use Rattle.flow_measure.specs.Columns.{AreColumns, AreCurve, AreEye, IsWidth, column_at, columns_of, greatest_at};
ghost use Rattle.flow_measure.specs.Columns.{least_at, places_in, strip_of, width_of};
ghost use Rattle.std.specs.Int.{int_max};
ghost use Rattle.timing_base.specs.Media.{IsMedia, Media};
ghost use Rattle.timing_base.specs.declared.media.Kind.{Kind};
ghost use Rattle.sender_params.specs.Keeps.{KeepsBuffer, held_at};
ghost use Rattle.sender_params.specs.Limits.{c_max_of, gapped_of, vrx_full_of};
ghost use Rattle.sender_params.specs.Ticks.{KeepsBucket, NeverFall};
ghost use Rattle.drain_bucket.specs.Word.{bucket_of};
ghost use Rattle.sender_params.specs.Worked.{hd_50, hd_59_94, linear_two};
ghost use Rattle.flow_measure.specs.Broken.{broken_groups};
ghost use Rattle.flow_measure.specs.Frames.{after_start, timestamp_latency, timestamp_offset, timestamp_step};
ghost use Rattle.flow_measure.specs.Occupancy.{AreOccupancies, IsPeak, buckets_of, late_of, margin_of};
ghost use Rattle.flow_measure.specs.Slope.{IsSlope, slope_between};
ghost use Rattle.vrx_buffer.specs.Occupancy.{IsOccupancy};
ghost use Rattle.flow_measure.specs.Stands.{Classifies, Counts, CountsBroken, DrawsCurve, DrawsEye, Summarizes};
ghost use Rattle.flow_measure.specs.declared.bins.Bins.{Bins};
ghost use Rattle.flow_measure.specs.declared.broken.BrokenGroups.{BrokenGroups};
ghost use Rattle.flow_measure.specs.declared.classes.Classes.{Classes};
ghost use Rattle.flow_measure.specs.declared.columns.curve.Curve.{Curve};
ghost use Rattle.flow_measure.specs.declared.columns.eye.Eye.{Eye};
ghost use Rattle.flow_measure.specs.declared.columns.slope.Slope.{Slope};
ghost use Rattle.flow_measure.specs.declared.summary.SummaryMeter.{SummaryMeter};
ghost use Rattle.flow_measure.specs.Summary.{IsGreatest, IsLeast, IsSummary};
ghost use Rattle.timing_base.specs.declared.media.Kind.TheVariants.{N, NL};
ghost use Rattle.flow_measure.specs.First.{IsFirst};
ghost use Rattle.flow_measure.specs.Gaps.{gap_after};
ghost use Rattle.flow_measure.specs.Groups.{firsts_of, lasts_of, step_after};
ghost use Rattle.flow_measure.specs.Kinds.{breaks, place_below};
ghost use Rattle.flow_measure.specs.Run.{IsBuffer, IsKind, IsMeasured, is_overfull, packets_of};
ghost use Rattle.flow_measure.specs.declared.numbers.Buffer.{Buffer};
ghost use Rattle.flow_measure.specs.declared.numbers.KindNumbers.{KindNumbers};
ghost use Rattle.flow_measure.specs.declared.numbers.RunNumbers.{RunNumbers};
ghost use Rattle.flow_measure.specs.Worked.{column, listed, naturals, place, summary};
ghost use Rattle.flow_measure.specs.declared.summary.Summary.{Summary};
ghost use Rattle.flow_measure.specs.declared.columns.Extremes.{Extremes};

/// The summary of 3, -5, 4, 4 and 0 has the sum 6. Without the 0, the least is the same, and the last is 4.
pub fn summaries_by_hand()
    ensures five { IsSummary (listed (pos 3 ∷ negsuc 4 ∷ pos 4 ∷ pos 4 ∷ pos 0 ∷ [])) 5
        (summary (negsuc 4) (pos 4) (pos 6) (pos 3) (pos 0)) }
    ensures four { IsSummary (listed (pos 3 ∷ negsuc 4 ∷ pos 4 ∷ pos 4 ∷ pos 0 ∷ [])) 4
        (summary (negsuc 4) (pos 4) (pos 6) (pos 3) (pos 4)) }
    ensures one { IsSummary (listed (negsuc 4 ∷ [])) 1
        (summary (negsuc 4) (negsuc 4) (negsuc 4) (negsuc 4) (negsuc 4)) }
{}

/// Widths of columns worked by hand. 40 numbers fit into 1,000 columns, one each. With at most 7 columns of 8 numbers
/// they take 5, and with at most 10 columns of 4 they take all 10. 41 numbers take 6 columns of 8, and the last of
/// these has one number. No number takes no column. As many numbers as columns take one column each, and one number
/// more doubles the width. The columns of an eye may be 6 numbers wide.
#[tactic(auto, unfolding(crate::specs::Columns::width_of))]
pub fn widths_by_hand()
    ensures fit { (width_of 40 1000 ≡ 1) × (columns_of 40 1000 ≡ 40) }
    ensures seven { (width_of 40 7 ≡ 8) × (columns_of 40 7 ≡ 5) }
    ensures ten { (width_of 40 10 ≡ 4) × (columns_of 40 10 ≡ 10) }
    ensures more { (width_of 41 10 ≡ 8) × (columns_of 41 10 ≡ 6) }
    ensures last { (i : ℕ) → places_in (λ i. i / width_of 41 10) 41 5 i → i ≡ 40 }
    ensures none { (width_of 0 7 ≡ 1) × (columns_of 0 7 ≡ 0) }
    ensures one { (width_of 1 7 ≡ 1) × (columns_of 1 7 ≡ 1) }
    ensures all { (width_of 7 7 ≡ 1) × (columns_of 7 7 ≡ 7) }
    ensures above { (width_of 8 7 ≡ 2) × (columns_of 8 7 ≡ 4) }
    ensures single { (width_of 5 1 ≡ 8) × (columns_of 5 1 ≡ 1) }
    ensures strip { (strip_of 40 7 ≡ 6) × (strip_of 40 1000 ≡ 1) }
{}

/// The width of a curve is the least power of two that makes at most `most` columns, and it is unique. The curve has
/// exactly the columns that all numbers need, at most `most`. If all columns are full, one more number leaves half of
/// them, rounded down, plus one.
pub fn widths_are_least()
    ensures width { (count most : ℕ) → 1 ≤ most → IsWidth count most (width_of count most) }
    ensures once { (count most w other : ℕ) → IsWidth count most w → IsWidth count most other → w ≡ other }
    ensures columns { (most : ℕ) (numbers : ℕ → ℤ) (count : ℕ) (columns : List Extremes) → 1 ≤ most
        → AreCurve most numbers count columns → length columns ≡ columns_of count most }
    ensures most { (most : ℕ) (numbers : ℕ → ℤ) (count : ℕ) (columns : List Extremes) → 1 ≤ most
        → AreCurve most numbers count columns → length columns ≤ most }
    ensures full { (most k : ℕ) → 1 ≤ most → columns_of (most * 2 ^ k + 1) most ≡ most / 2 + 1 }
{}

/// A curve and an eye worked by hand. Five numbers in at most two columns: four in the first, and the last alone. In
/// groups of two numbers, with at most two columns, the eye has one column of the numbers at even places, and one of
/// those at odd places.
pub fn columns_by_hand()
    ensures curve { AreCurve 2 (listed (pos 3 ∷ negsuc 4 ∷ pos 4 ∷ pos 2 ∷ pos 0 ∷ [])) 5
        (column (negsuc 4) (pos 4) ∷ column (pos 0) (pos 0) ∷ []) }
    ensures eye { AreEye 2 2 (listed (pos 3 ∷ negsuc 4 ∷ pos 4 ∷ pos 2 ∷ [])) 4
        (column (pos 3) (pos 4) ∷ column (negsuc 4) (pos 2) ∷ []) }
{}

/// Slopes worked by hand. From 0 to 2 and then from 10 to 13, over seven numbers: the numbers rise by 10, since they
/// scatter by at most 3. In the other order they fall by 10. From 0 to 10 and then from 10 to 13 the scatter hides the
/// rise, so there is no slope.
pub fn slopes_by_hand()
    ensures rises { slope_between (column (pos 0) (pos 2)) (column (pos 10) (pos 13)) 7
        ≡ Some (record { falls = false; by = 10; over = 7 }) }
    ensures falls { slope_between (column (pos 10) (pos 13)) (column (pos 0) (pos 2)) 7
        ≡ Some (record { falls = true; by = 10; over = 7 }) }
    ensures none { slope_between (column (pos 0) (pos 10)) (column (pos 10) (pos 13)) 7 ≡ None }
{}

/// The slope of given numbers is unique.
pub fn one_slope()
    ensures { (most : ℕ) (numbers : ℕ → ℤ) (count : ℕ) (s other : Option Slope)
        → IsSlope most numbers count s → IsSlope most numbers count other → s ≡ other }
{}

/// Bins worked by hand. The limits 4 and 63 have bins of width 1, and 64 has bins of width 2. A number equal to the
/// limit belongs to the last bin, and one more is above it.
pub fn bins_by_hand()
    ensures narrow { (bin_width 4 ≡ 1) × (bin_count 4 ≡ 5) }
    ensures full { (bin_width 63 ≡ 1) × (bin_count 63 ≡ 64) }
    ensures wide { (bin_width 64 ≡ 2) × (bin_count 64 ≡ 33) }
    ensures limit { in_bin 4 4 (listed (pos 4 ∷ pos 5 ∷ negsuc 0 ∷ pos 4 ∷ [])) 4 ≡ 2 }
    ensures above { above_limit 4 (listed (pos 4 ∷ pos 5 ∷ negsuc 0 ∷ pos 4 ∷ [])) 4 ≡ 1 }
    ensures below { below_zero (listed (pos 4 ∷ pos 5 ∷ negsuc 0 ∷ pos 4 ∷ [])) 4 ≡ 1 }
    ensures pairs { in_bin 64 1 (listed (pos 1 ∷ pos 2 ∷ pos 3 ∷ pos 4 ∷ [])) 4 ≡ 2 }
{}

/// Classes worked by hand. 0 is in class 0, 1 in class 1, 2 and 3 in class 2, and 4 in class 3. 960,000 is in class 20,
/// from 524,288 to 1,048,575, and 1,760,000 in class 21.
pub fn classes_by_hand()
    ensures zero { in_class 0 (naturals (0 ∷ 1 ∷ 0 ∷ [])) 3 ≡ 2 }
    ensures one { in_class 1 (naturals (0 ∷ 1 ∷ 2 ∷ [])) 3 ≡ 1 }
    ensures two { in_class 2 (naturals (1 ∷ 2 ∷ 3 ∷ 4 ∷ [])) 4 ≡ 2 }
    ensures frame { in_class 20 (naturals (960000 ∷ 524288 ∷ 524287 ∷ 1048575 ∷ [])) 4 ≡ 3 }
    ensures between { in_class 21 (naturals (1760000 ∷ 960000 ∷ [])) 2 ≡ 1 }
{}

/// The summary of given numbers is unique.
pub fn one_summary()
    ensures { (numbers : ℕ → ℤ) (count : ℕ) (s other : Summary)
        → IsSummary numbers count s → IsSummary numbers count other → s ≡ other }
{}

/// The list of columns of given numbers is unique.
pub fn one_list_of_columns()
    ensures { (column_of : ℕ → ℕ) (numbers : ℕ → ℤ) (count : ℕ) (columns other : List Extremes)
        → AreColumns column_of numbers count columns → AreColumns column_of numbers count other
        → columns ≡ other }
{}

/// No peak is hidden: the least number of all columns is the least of all numbers, and the greatest is the greatest, in
/// a curve and in an eye.
pub fn no_peak_is_hidden()
    ensures least { (column_of : ℕ → ℕ) (numbers : ℕ → ℤ) (count : ℕ) (columns : List Extremes) (s : Summary)
        → AreColumns column_of numbers count columns → IsSummary numbers count s
        → IsLeast (least_at columns) (λ c. c < length columns) s.least }
    ensures greatest { (column_of : ℕ → ℕ) (numbers : ℕ → ℤ) (count : ℕ) (columns : List Extremes) (s : Summary)
        → AreColumns column_of numbers count columns → IsSummary numbers count s
        → IsGreatest (greatest_at columns) (λ c. c < length columns) s.greatest }
{}

/// If all numbers fit into `most` columns, the curve is the numbers themselves.
pub fn what_fits_is_itself()
    ensures length { (most : ℕ) (numbers : ℕ → ℤ) (count : ℕ) (columns : List Extremes) → count ≤ most
        → AreCurve most numbers count columns → length columns ≡ count }
    ensures each { (most : ℕ) (numbers : ℕ → ℤ) (count i : ℕ) (columns : List Extremes)
        → count ≤ most → i < count → AreCurve most numbers count columns
        → column_at columns i ≡ column (numbers i) (numbers i) }
{}

/// The count above a limit is 0 exactly if no number is above the limit, and the count below 0 is 0 exactly if no
/// number is below 0.
pub fn none_above_is_none()
    ensures above { (limit : ℕ) (numbers : ℕ → ℤ) (count : ℕ) → (above_limit limit numbers count ≡ 0)
        ↔ ((i : ℕ) → i < count → numbers i ≤ℤ pos limit) }
    ensures below { (numbers : ℕ → ℤ) (count : ℕ) → (below_zero numbers count ≡ 0)
        ↔ ((i : ℕ) → i < count → pos 0 ≤ℤ numbers i) }
{}

/// Frame 80,000,000,000 at 50 frames per second: packets 764,000 and 19,004,000 ns after it begins, and a packet one
/// nanosecond before the next frame. At 60000/1001 frames per second, frame 1 begins at 16,683,333 1/3 ns, and times
/// from it are rounded down.
pub fn frames_by_hand()
    ensures first { after_start hd_50 (pos 80000000000) 0 1600000000000764000 ≡ pos 764000 }
    ensures last { after_start hd_50 (pos 80000000000) 0 1600000000019004000 ≡ pos 19004000 }
    ensures next { after_start hd_50 (pos 80000000000) 1 1600000000020764000 ≡ pos 764000 }
    ensures early { after_start hd_50 (pos 80000000000) 1 1600000000019999999 ≡ negsuc 0 }
    ensures whole { after_start hd_59_94 (pos 1) 0 16683334 ≡ pos 0 }
    ensures part { after_start hd_59_94 (pos 1) 0 16683333 ≡ negsuc 0 }
{}

/// The media clock at the start of that frame is 2,631,467,008 modulo 2^32. The RTP timestamps 1800 and 3600 are those
/// of that frame and of the next one.
pub fn timestamps_by_hand()
    ensures offset { timestamp_offset hd_50 (pos 80000000000) 0 1800 ≡ pos 1663502088 }
    ensures next { timestamp_offset hd_50 (pos 80000000000) 1 3600 ≡ pos 1663502088 }
    ensures own { timestamp_offset hd_50 (pos 80000000000) 0 2631467008 ≡ pos 0 }
    ensures behind { timestamp_offset hd_50 (pos 80000000000) 0 2631467007 ≡ negsuc 0 }
    ensures latency { timestamp_latency 1600000000000764000 1800 ≡ negsuc 1663502019 }
    ensures late { timestamp_latency 1600000000000764000 2631467008 ≡ pos 68 }
    ensures step { timestamp_step 1800 3600 ≡ 1800 }
    ensures turn { timestamp_step 4294967295 1 ≡ 2 }
{}

/// Margins worked by hand. Packet 0 arrives 444 4/9 ns before its read. Packet 1 of a linear sender arrives 39,555 5/9
/// ns before its gapped read is due, and 444 4/9 ns before its linear one.
pub fn margins_by_hand()
    ensures first { margin_of hd_50 20 linear_two true 0 ≡ pos 444 }
    ensures late { margin_of hd_50 20 linear_two true 1 ≡ negsuc 39555 }
    ensures linear { margin_of hd_50 20 linear_two false 1 ≡ pos 444 }
    ensures late_count { late_of hd_50 20 linear_two true ≡ 1 }
    ensures none { late_of hd_50 20 linear_two false ≡ 0 }
{}

/// Of three frames of two packets, the first has two broken packets and the last has one.
pub fn broken_by_hand()
    ensures three { broken_groups 2 (λ i. i == 0 || (i == 1 || i == 5)) 3 ≡ 2 }
    ensures two { broken_groups 2 (λ i. i == 0 || (i == 1 || i == 5)) 2 ≡ 1 }
{}

/// The bucket of a sender type keeps C_MAX exactly if no count is above it.
pub fn bucket_passes()
    ensures { (m : Media) (n : ℕ) (stamps : List ℕ) (kind : Kind) → NeverFall stamps
        → KeepsBucket m n stamps kind
        ↔ (above_limit (c_max_of m n kind) (buckets_of m n stamps) (length stamps) ≡ 0) }
{}

/// The buffer of a sender type neither underflows nor exceeds VRX_FULL exactly if no occupancy is above VRX_FULL and no
/// packet is late.
pub fn buffer_passes()
    ensures { (m : Media) (n : ℕ) (stamps : List ℕ) (kind : Kind) (occupancy : ℕ → ℤ)
        → IsMedia m → 1 ≤ n → NeverFall stamps
        → AreOccupancies m n stamps (gapped_of kind) occupancy
        → KeepsBuffer m n stamps kind
        ↔ ((above_limit (vrx_full_of m n kind) occupancy (length stamps) ≡ 0)
        × (late_of m n stamps (gapped_of kind) ≡ 0)) }
{}

/// The greatest count of the bucket is the peak in the report. The greatest occupancy is the peak of the buffer, or the
/// peak is 0 if that occupancy is below 0.
pub fn peaks_are_the_rows()
    ensures bucket { (m : Media) (n : ℕ) (stamps : List ℕ) (s : Summary) (p : ℕ)
        → IsSummary (buckets_of m n stamps) (length stamps) s
        → IsPeak (bucket_of m n stamps) (length stamps) p → s.greatest ≡ pos p }
    ensures buffer { (m : Media) (n : ℕ) (stamps : List ℕ) (gapped : Bool) (occupancy : ℕ → ℤ)
        (s : Summary) (p : ℕ)
        → AreOccupancies m n stamps gapped occupancy → IsSummary occupancy (length stamps) s
        → IsPeak (held_at m n stamps gapped) (length stamps) p → int_max (pos 0) s.greatest ≡ pos p }
{}

/// The occupancy at each packet exists and is unique.
pub fn one_occupancy()
    ensures some { (m : Media) (n : ℕ) (stamps : List ℕ) (gapped : Bool) (i : ℕ) → IsMedia m → 1 ≤ n
        → (x : ℤ) × IsOccupancy m n stamps gapped i x }
    ensures once { (m : Media) (n : ℕ) (stamps : List ℕ) (gapped : Bool) (i : ℕ) (x other : ℤ)
        → IsOccupancy m n stamps gapped i x → IsOccupancy m n stamps gapped i other → x ≡ other }
{}

/// The state of a meter depends only on the numbers that it was fed.
pub fn what_was_fed_decides()
    ensures summary { (m : SummaryMeter) (numbers others : ℕ → ℤ)
        → ((i : ℕ) → i < m.seen → others i ≡ numbers i) → Summarizes m numbers → Summarizes m others }
    ensures bins { (b : Bins) (numbers others : ℕ → ℤ)
        → ((i : ℕ) → i < b.seen → others i ≡ numbers i) → Counts b numbers → Counts b others }
    ensures classes { (c : Classes) (numbers others : ℕ → ℕ)
        → ((i : ℕ) → i < c.seen → others i ≡ numbers i) → Classifies c numbers → Classifies c others }
    ensures curve { (c : Curve ℤ) (numbers others : ℕ → ℤ) → ((i : ℕ) → i < c.seen → others i ≡ numbers i)
        → DrawsCurve (λ x. x) c numbers → DrawsCurve (λ x. x) c others }
    ensures eye { (e : Eye ℤ) (numbers others : ℕ → ℤ) → ((i : ℕ) → i < e.seen → others i ≡ numbers i)
        → DrawsEye (λ x. x) e numbers → DrawsEye (λ x. x) e others }
    ensures broken { (n seen : ℕ) (b : BrokenGroups) (broken others : ℕ → Bool)
        → ((i : ℕ) → i < seen → others i ≡ broken i) → CountsBroken n b broken seen → CountsBroken n b others seen }
{}

/// Violations and places worked by hand. Five packets at once are one more than C_MAX of type N at 50 frames per second
/// with 20 packets per frame. Packet 1 of a linear sender, a million nanoseconds after packet 0, breaks N alone, and is
/// packet record 3. Of two frames of two packets, the second begins with packet 2 and ends with packet 3.
pub fn runs_by_hand()
    ensures five { is_overfull hd_50 20 (7 ∷ 7 ∷ 7 ∷ 7 ∷ 7 ∷ []) N 4 ≡ true }
    ensures four { is_overfull hd_50 20 (7 ∷ 7 ∷ 7 ∷ 7 ∷ 7 ∷ []) N 3 ≡ false }
    ensures breaks { breaks (packets_of hd_50 20 linear_two (2 ∷ 3 ∷ []) (listed (pos 1 ∷ pos 0 ∷ [])) N) 1 ≡ true }
    ensures keeps { breaks (packets_of hd_50 20 linear_two (2 ∷ 3 ∷ []) (listed (pos 1 ∷ pos 1 ∷ [])) NL) 1 ≡ false }
    ensures named { place_below (naturals (2 ∷ 3 ∷ [])) (naturals linear_two) 2 (Some 1)
        ≡ Some (place 3 1600000000001764000) }
    ensures beyond { place_below (naturals (2 ∷ 3 ∷ [])) (naturals linear_two) 2 (Some 2) ≡ None }
    ensures gap { gap_after (naturals linear_two) 0 ≡ 1000000 }
    ensures begins { firsts_of 2 (naturals (10 ∷ 11 ∷ 20 ∷ 21 ∷ [])) 1 ≡ 20 }
    ensures ends { lasts_of 2 (naturals (10 ∷ 11 ∷ 20 ∷ 21 ∷ [])) 1 ≡ 21 }
    ensures step { step_after (naturals (1800 ∷ 3600 ∷ [])) 0 ≡ pos 1800 }
    ensures first { IsFirst (nat_lt 1) 4 (Some 2) }
    ensures none { IsFirst (nat_lt 9) 4 None }
{}

/// The bucket of a run passes for a type exactly if the measurements count no packet above C_MAX. The buffer passes
/// exactly if they count no packet above VRX_FULL and no late packet by the type's reads.
pub fn numbers_pass()
    ensures bucket { (m : Media) (n groups : ℕ) (stamps records : List ℕ) (occupancy : ℕ → ℤ) (kind : Kind)
        (named : Option ℕ) (k : KindNumbers) → NeverFall stamps
        → IsKind m n groups stamps records occupancy kind named k
        → KeepsBucket m n stamps kind ↔ (k.bucket.above ≡ 0) }
    ensures buffer { (m : Media) (n groups : ℕ) (stamps records : List ℕ) (occupancy : ℕ → ℤ) (kind : Kind)
        (named : Option ℕ) (k : KindNumbers) (b : Buffer) → IsMedia m → 1 ≤ n → NeverFall stamps
        → IsBuffer m n stamps (gapped_of kind) occupancy b
        → IsKind m n groups stamps records occupancy kind named k
        → KeepsBuffer m n stamps kind ↔ ((k.buffer.above ≡ 0) × (b.margins.late ≡ 0)) }
{}

/// The greatest values of a run are the peaks in the report. The peak is 0 for a buffer that never held a packet.
pub fn numbers_have_the_peaks()
    ensures bucket { (m : Media) (n groups : ℕ) (stamps records timestamps : List ℕ) (named : List (Option ℕ))
        (x : RunNumbers) (p : ℕ) → IsMeasured m n groups stamps records timestamps named x
        → IsPeak (bucket_of m n stamps) (length stamps) p → x.bucket.greatest ≡ pos p }
    ensures gapped { (m : Media) (n groups : ℕ) (stamps records timestamps : List ℕ) (named : List (Option ℕ))
        (x : RunNumbers) (p : ℕ) → IsMeasured m n groups stamps records timestamps named x
        → IsPeak (held_at m n stamps true) (length stamps) p
        → int_max (pos 0) x.gapped.occupancy.greatest ≡ pos p }
    ensures linear { (m : Media) (n groups : ℕ) (stamps records timestamps : List ℕ) (named : List (Option ℕ))
        (x : RunNumbers) (p : ℕ) → IsMeasured m n groups stamps records timestamps named x
        → IsPeak (held_at m n stamps false) (length stamps) p
        → int_max (pos 0) x.linear.occupancy.greatest ≡ pos p }
{}

/// The measurements of a run of complete frames or fields exist, if the run has at most 2^41 packets and no two
/// neighbours are 2^63 ns apart.
pub fn some_measure()
    ensures { (m : Media) (n groups : ℕ) (stamps records timestamps : List ℕ) (named : List (Option ℕ))
        → IsMedia m → 1 ≤ n → 1 ≤ groups → length stamps ≡ n * groups → 1 ≤ length stamps → length stamps ≤ 2 ^ 41
        → ((i : ℕ) → i < length stamps - 1 → gap_after (slice_index stamps) i < 2 ^ 63)
        → (x : RunNumbers) × IsMeasured m n groups stamps records timestamps named x }
{}

/// The measurements of a run are unique: summaries, steps, target, counts, first packets, places and offsets.
pub fn one_measure()
    ensures bucket { (m : Media) (n groups : ℕ) (stamps records timestamps : List ℕ) (named : List (Option ℕ))
        (x other : RunNumbers) → IsMeasured m n groups stamps records timestamps named x
        → IsMeasured m n groups stamps records timestamps named other → x.bucket ≡ other.bucket }
    ensures buffer { (m : Media) (n : ℕ) (stamps : List ℕ) (gapped : Bool) (occupancy others : ℕ → ℤ)
        (b other : Buffer) → IsBuffer m n stamps gapped occupancy b → IsBuffer m n stamps gapped others other
        → b ≡ other }
    ensures groups { (m : Media) (n groups : ℕ) (stamps records timestamps : List ℕ) (named : List (Option ℕ))
        (x other : RunNumbers) → IsMeasured m n groups stamps records timestamps named x
        → IsMeasured m n groups stamps records timestamps named other
        → (x.first ≡ other.first) × (x.last ≡ other.last) × (x.target ≡ other.target)
        × (x.step ≡ other.step) × (x.offset ≡ other.offset) × (x.latency ≡ other.latency) }
    ensures kind { (m : Media) (n groups : ℕ) (stamps records : List ℕ) (occupancy others : ℕ → ℤ)
        (kind : Kind) (named : Option ℕ) (k other : KindNumbers)
        → AreOccupancies m n stamps (gapped_of kind) occupancy
        → AreOccupancies m n stamps (gapped_of kind) others
        → IsKind m n groups stamps records occupancy kind named k
        → IsKind m n groups stamps records others kind named other
        → (k.groups_broken ≡ other.groups_broken) × (k.first_bucket ≡ other.first_bucket)
        × (k.first_over ≡ other.first_over) × (k.first_empty ≡ other.first_empty) × (k.named ≡ other.named)
        × (k.bucket.above ≡ other.bucket.above) × (k.buffer.above ≡ other.buffer.above)
        × (k.buffer.below ≡ other.buffer.below) × (k.troff ≡ other.troff) }
    ensures bins { (limit : ℕ) (numbers : ℕ → ℤ) (count : ℕ) (counts other : List ℕ)
        → AreBins limit numbers count counts → AreBins limit numbers count other → counts ≡ other }
    ensures classes { (numbers : ℕ → ℕ) (count : ℕ) (counts other : List ℕ)
        → AreClasses numbers count counts → AreClasses numbers count other → counts ≡ other }
{}
