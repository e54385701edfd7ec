//! Theorems about the model, for every list of capture timestamps that never go back. Each function does nothing; its
//! clauses are the theorem.

ghost use Rattle.std.specs.Prelude.{◌≡◌, ◌≤◌, ◌++◌, ◌∷◌, [], ℕ, List, length, true, false, Some, None};
ghost use Rattle.timing_base.specs.Media.{IsMedia, Media};
ghost use Rattle.timing_base.specs.declared.media.Kind.{Kind};
ghost use Rattle.timing_base.specs.declared.media.Kind.TheVariants.{N, NL, W};
ghost use Rattle.sender_params.specs.Keeps.{KeepsBuffer, held_at, is_empty, is_over};
ghost use Rattle.sender_params.specs.Ticks.{NeverFall};
ghost use Rattle.sender_params.specs.Worked.{at_once, hd_50, linear_two, sd_25_interlaced};
ghost use Rattle.vrx_buffer.specs.Faults.{BreaksNowhere, IsFirstFault, fault_at};
ghost use Rattle.sender_params.specs.declared.params.Params.{Params};
ghost use Rattle.vrx_buffer.specs.Quiet.{IsQuiet};
ghost use Rattle.vrx_buffer.specs.Stands.{StandsFor};
ghost use Rattle.vrx_buffer.specs.declared.vrx.Vrx.{Vrx};
ghost use Rattle.vrx_buffer.specs.declared.vrx.VrxFault.TheVariants.{Over, Empty};

/// No packet violates the model exactly if the buffer neither underflows nor holds more than VRX_FULL at any instant.
/// Of packets with the same capture timestamp, the last finds the buffer fullest. Reads after the last packet's own
/// read don't matter.
pub fn packets_are_instants()
    ensures packets { (m : Media) (n : ℕ) (stamps : List ℕ) (kind : Kind) → IsMedia m → 1 ≤ n
        → NeverFall stamps → BreaksNowhere m n stamps kind → KeepsBuffer m n stamps kind }
    ensures instants { (m : Media) (n : ℕ) (stamps : List ℕ) (kind : Kind) → IsMedia m → 1 ≤ n
        → NeverFall stamps → KeepsBuffer m n stamps kind → BreaksNowhere m n stamps kind }
{}

/// No packet has a fault exactly if none violates the model.
pub fn no_fault_is_no_break()
    ensures fault { (m : Media) (n : ℕ) (stamps : List ℕ) (kind : Kind)
        → IsFirstFault m n stamps kind None → BreaksNowhere m n stamps kind }
    ensures breaks { (m : Media) (n : ℕ) (stamps : List ℕ) (kind : Kind)
        → BreaksNowhere m n stamps kind → IsFirstFault m n stamps kind None }
{}

/// No packet violates the model in both ways.
pub fn over_is_in_time()
    ensures { (m : Media) (n : ℕ) (stamps : List ℕ) (kind : Kind) (i : ℕ) → IsMedia m → 1 ≤ n
        → is_over m n stamps kind i ≡ true → is_empty m n stamps kind i ≡ false }
{}

/// A quiet packet changes nothing: the state of the buffer is already that after the packet. It has no fault if no
/// packet before it violates the model.
pub fn quiet_changes_nothing()
    ensures stands { (params : Params) (v : Vrx) (stamps : List ℕ) (at : ℕ) → StandsFor params v stamps
        → IsQuiet params v stamps at → StandsFor params v (stamps ++ at ∷ []) }
    ensures none { (params : Params) (v : Vrx) (stamps : List ℕ) (at : ℕ) → StandsFor params v stamps
        → IsQuiet params v stamps at → BreaksNowhere params.media params.n stamps v.kind
        → fault_at params.media params.n (stamps ++ at ∷ []) v.kind (length stamps) ≡ None }
{}

/// 1080p at 50 with 20 packets per frame; VRX_FULL is 8 for N and NL and 720 for W. Nine packets at once are too many
/// for N and NL, eight aren't.
pub fn over_by_hand()
    ensures nine { fault_at hd_50 20 (at_once 9) N 8 ≡ Some (Over 8 9) }
    ensures eight { fault_at hd_50 20 (at_once 9) N 7 ≡ None }
    ensures nine_nl { fault_at hd_50 20 (at_once 9) NL 8 ≡ Some (Over 8 9) }
    ensures nine_w { fault_at hd_50 20 (at_once 9) W 8 ≡ None }
{}

/// A linear sender of two packets: packet 1 comes 1,000,000 ns after packet 0, after gapped read 1 and before linear
/// read 1. With the gapped reads the buffer is empty just after packet 1, which came too late for its own read.
pub fn schedules_by_hand()
    ensures gapped { fault_at hd_50 20 linear_two N 1 ≡ Some (Empty 1) }
    ensures gapped_held { held_at hd_50 20 linear_two true 1 ≡ 0 }
    ensures linear { fault_at hd_50 20 linear_two NL 1 ≡ None }
    ensures linear_held { held_at hd_50 20 linear_two false 1 ≡ 1 }
    ensures wide { fault_at hd_50 20 linear_two W 1 ≡ None }
{}

/// 576 lines, interlaced, at 25 with 10 packets per field: read 0 is at 1,664,000 ns. A packet at that instant is in
/// time, and a packet one nanosecond later is late. After either the buffer is empty.
pub fn on_its_read_by_hand()
    ensures before { held_at sd_25_interlaced 10 (1663999 ∷ []) true 0 ≡ 1 }
    ensures in_time { fault_at sd_25_interlaced 10 (1664000 ∷ []) N 0 ≡ None }
    ensures in_time_held { held_at sd_25_interlaced 10 (1664000 ∷ []) true 0 ≡ 0 }
    ensures late { fault_at sd_25_interlaced 10 (1664001 ∷ []) N 0 ≡ Some (Empty 0) }
{}
