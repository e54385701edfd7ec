//! Theorems about plans, for every list of arrivals, and the definitions on numbers worked by hand. Each function does
//! nothing; its clauses are the theorem.

ghost use Rattle.std.specs.Prelude.{◌≡◌, ◌≤◌, ◌<◌, ◌+◌, ℕ, List, Some, None, false, [], ◌∷◌, length, slice_index};
ghost use Rattle.timing_base.specs.Media.{IsMedia, Media};
ghost use Rattle.timing_base.specs.declared.media.Kind.{Kind};
ghost use Rattle.timing_base.specs.declared.media.Kind.TheVariants.{N, NL};
ghost use Rattle.sender_params.specs.Keeps.{held_at};
ghost use Rattle.sender_params.specs.Limits.{gapped_of, vrx_full_of};
ghost use Rattle.sender_params.specs.Ticks.{KeepsBucket};
ghost use Rattle.sender_params.specs.Worked.{at_once, described, hd_50};
ghost use Rattle.flow_shaper.specs.Bounds.{BoundAt, IsBound};
ghost use Rattle.flow_shaper.specs.Plan.{IsLeast, IsPlan, Shaped, load, models_of};
ghost use Rattle.flow_shaper.specs.Worked.{burst_shaped, even, first, hd_50_wide_bucket, narrow, small};
ghost use Rattle.flow_shaper.specs.declared.departure.Bound.{Bound};
ghost use Rattle.flow_shaper.specs.declared.departure.Bound.TheVariants.{Arrival, Bucket, Buffer, Order};

/// Every list of arrivals has exactly one plan in which each packet leaves as early as in any plan: the least plan.
pub fn least_plan()
    ensures some { (m : Media) (n : ℕ) (kind : Kind) (arrivals : List ℕ) → IsMedia m → 1 ≤ n
        → (departures : List ℕ) × Shaped m n kind arrivals departures }
    ensures once { (m : Media) (n : ℕ) (kind : Kind) (arrivals a b : List ℕ) (i : ℕ)
        → Shaped m n kind arrivals a → Shaped m n kind arrivals b → i < length arrivals
        → slice_index a i ≡ slice_index b i }
{}

/// In the least plan the first packet leaves when it comes.
pub fn first_leaves_as_it_comes()
    ensures { (m : Media) (n : ℕ) (kind : Kind) (arrivals departures : List ℕ) → IsMedia m → 1 ≤ n
        → Shaped m n kind arrivals departures → 0 < length arrivals
        → slice_index departures 0 ≡ slice_index arrivals 0 }
{}

/// The departures of the least plan, taken as the capture timestamps of a flow, keep the bucket within C_MAX of the
/// type, and the buffer holds no more than VRX_FULL just after any packet.
pub fn shaped_keeps()
    ensures bucket { (m : Media) (n : ℕ) (kind : Kind) (arrivals departures : List ℕ) → IsMedia m → 1 ≤ n
        → Shaped m n kind arrivals departures → KeepsBucket m n departures kind }
    ensures buffer { (m : Media) (n : ℕ) (kind : Kind) (arrivals departures : List ℕ) (i : ℕ)
        → IsMedia m → 1 ≤ n → Shaped m n kind arrivals departures → i < length departures
        → held_at m n departures (gapped_of kind) i ≤ vrx_full_of m n kind }
{}

/// In the least plan each packet leaves when it comes, or the bucket, the buffer or the packet before it delays it.
/// This holds for frames or fields of at most 262,144 packets, where T_DRAIN is at least a nanosecond.
pub fn some_bound()
    ensures { (m : Media) (n : ℕ) (kind : Kind) (arrivals departures : List ℕ) (i : ℕ) → IsMedia m
        → n ≤ 262144 → Shaped m n kind arrivals departures → i < length arrivals
        → (bound : Bound) × BoundAt m n kind arrivals departures i bound }
{}

/// Each condition of a plan alone, and at its limit, with a tick every 10 ns, a read every 100 ns, and C_MAX and
/// VRX_FULL as given.
pub fn plans_by_hand()
    ensures plan { IsPlan (small 9 9) (5 ∷ 7 ∷ []) (5 ∷ 7 ∷ []) }
    ensures too_few { IsPlan (small 9 9) (5 ∷ 7 ∷ []) (5 ∷ []) → ⊥ }
    ensures too_many { IsPlan (small 9 9) (5 ∷ []) (5 ∷ 7 ∷ []) → ⊥ }
    ensures too_early { IsPlan (small 9 9) (5 ∷ 7 ∷ []) (5 ∷ 6 ∷ []) → ⊥ }
    ensures falls { IsPlan (small 9 9) (5 ∷ 5 ∷ []) (7 ∷ 6 ∷ []) → ⊥ }
    ensures bucket { IsPlan (small 1 9) (5 ∷ 5 ∷ []) (5 ∷ 10 ∷ []) }
    ensures over_bucket { IsPlan (small 1 9) (5 ∷ 5 ∷ []) (5 ∷ 9 ∷ []) → ⊥ }
    ensures buffer { IsPlan (small 9 1) (5 ∷ 5 ∷ []) (5 ∷ 100 ∷ []) }
    ensures over_buffer { IsPlan (small 9 1) (5 ∷ 5 ∷ []) (5 ∷ 99 ∷ []) → ⊥ }
    ensures least { IsLeast (small 1 9) (5 ∷ 5 ∷ []) (5 ∷ 10 ∷ []) }
    ensures not_least { IsLeast (small 1 9) (5 ∷ 5 ∷ []) (5 ∷ 11 ∷ []) → ⊥ }
{}

/// The cause of a departure time: the first that holds, and the latest start of a full interval.
pub fn bounds_by_hand()
    ensures arrival { IsBound (small 1 9) (5 ∷ 12 ∷ []) (5 ∷ 12 ∷ []) 1 Arrival }
    ensures delayed { IsBound (small 1 9) (5 ∷ 5 ∷ []) (5 ∷ 10 ∷ []) 1 Arrival → ⊥ }
    ensures bucket { IsBound (small 1 9) (5 ∷ 5 ∷ []) (5 ∷ 10 ∷ []) 1 (Bucket 0) }
    ensures too_late { IsBound (small 1 9) (5 ∷ 5 ∷ []) (5 ∷ 11 ∷ []) 1 (Bucket 0) → ⊥ }
    ensures latest { IsBound (small 2 9) (0 ∷ 10 ∷ 10 ∷ 10 ∷ []) (0 ∷ 10 ∷ 10 ∷ 20 ∷ []) 3 (Bucket 1) }
    ensures not_latest { IsBound (small 2 9) (0 ∷ 10 ∷ 10 ∷ 10 ∷ []) (0 ∷ 10 ∷ 10 ∷ 20 ∷ []) 3
        (Bucket 0) → ⊥ }
    ensures buffer { IsBound (small 9 1) (5 ∷ 5 ∷ []) (5 ∷ 100 ∷ []) 1 (Buffer 0) }
    ensures buffer_too_late { IsBound (small 9 1) (5 ∷ 5 ∷ []) (5 ∷ 101 ∷ []) 1 (Buffer 0) → ⊥ }
    ensures another_read { IsBound (small 9 1) (5 ∷ 5 ∷ []) (5 ∷ 100 ∷ []) 1 (Buffer 1) → ⊥ }
    ensures both { IsBound (even 1 1) (5 ∷ 5 ∷ []) (5 ∷ 10 ∷ []) 1 (Bucket 0) }
    ensures bucket_first { IsBound (even 1 1) (5 ∷ 5 ∷ []) (5 ∷ 10 ∷ []) 1 (Buffer 0) → ⊥ }
    ensures order { IsBound (small 9 9) (7 ∷ 5 ∷ []) (7 ∷ 7 ∷ []) 1 Order }
    ensures apart { IsBound (small 9 9) (7 ∷ 5 ∷ []) (7 ∷ 8 ∷ []) 1 Order → ⊥ }
    ensures not_order { IsBound (small 1 9) (5 ∷ 5 ∷ []) (5 ∷ 10 ∷ []) 1 Order → ⊥ }
{}

/// 1080p at 50 with 20 packets per frame, as type N; C_MAX is 4. The last of five packets at once leaves 909,091 ns
/// later, at the first tick: the bucket from packet 0 on delays it.
pub fn burst_by_hand()
    ensures c_max { narrow.c_max ≡ 4 }
    ensures over { load narrow burst_shaped 0 4 (first + 909090) ≡ 5 }
    ensures full { load narrow burst_shaped 0 4 (first + 909091) ≡ 4 }
    ensures shaped { Shaped hd_50 20 N (at_once 5) burst_shaped }
    ensures bound { BoundAt hd_50 20 N (at_once 5) burst_shaped 4 (Bucket 0) }
{}

/// 1080p at 50 with 20 packets per frame and CMAX=100; VRX_FULL is 8. The last of nine packets at once waits for read
/// 0, which is 444 4/9 ns later, and the last of ten for read 1, 960,000 ns after read 0.
pub fn buffer_by_hand()
    ensures c_max { (models_of hd_50_wide_bucket 20 N first).c_max ≡ 100 }
    ensures vrx_full { (models_of hd_50_wide_bucket 20 N first).vrx_full ≡ 8 }
    ensures over { (models_of hd_50_wide_bucket 20 N first).held 8 (first + 444) ≡ 9 }
    ensures full { (models_of hd_50_wide_bucket 20 N first).held 8 (first + 445) ≡ 8 }
    ensures next_over { (models_of hd_50_wide_bucket 20 N first).held 9 (first + 960444) ≡ 9 }
    ensures next_full { (models_of hd_50_wide_bucket 20 N first).held 9 (first + 960445) ≡ 8 }
{}

/// 1080p at 50 with 20 packets per frame, as type NL with CMAX=100; VRX_FULL is 8. Of twelve packets at once, packets 8
/// to 11 wait for linear reads 0 to 3. Read 0 is 444 4/9 ns later, and each other read 1,000,000 ns after the one
/// before.
pub fn linear_buffer_by_hand()
    ensures over { (models_of (described 1080 false 50 1 (Some NL) None (Some 100)) 20 NL first).held
        8 (first + 444) ≡ 9 }
    ensures full { (models_of (described 1080 false 50 1 (Some NL) None (Some 100)) 20 NL first).held
        8 (first + 445) ≡ 8 }
    ensures tenth_over { (models_of (described 1080 false 50 1 (Some NL) None (Some 100)) 20 NL first).held
        9 (first + 1000444) ≡ 9 }
    ensures tenth_full { (models_of (described 1080 false 50 1 (Some NL) None (Some 100)) 20 NL first).held
        9 (first + 1000445) ≡ 8 }
    ensures eleventh_over { (models_of (described 1080 false 50 1 (Some NL) None (Some 100)) 20 NL first).held
        10 (first + 2000444) ≡ 9 }
    ensures eleventh_full { (models_of (described 1080 false 50 1 (Some NL) None (Some 100)) 20 NL first).held
        10 (first + 2000445) ≡ 8 }
    ensures last_over { (models_of (described 1080 false 50 1 (Some NL) None (Some 100)) 20 NL first).held
        11 (first + 3000444) ≡ 9 }
    ensures last_full { (models_of (described 1080 false 50 1 (Some NL) None (Some 100)) 20 NL first).held
        11 (first + 3000445) ≡ 8 }
{}
