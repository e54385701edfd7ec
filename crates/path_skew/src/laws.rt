//! Theorems about the definitions, and the definitions on flows worked by hand. Each function does nothing; its clauses
//! are the theorem.

ghost use Rattle.std.specs.Prelude.{◌≡◌, [], ◌∷◌, List, Option, Some, None, length, pos, negsuc};
ghost use Rattle.timing_base.specs.Examples.{unread};
ghost use Rattle.timing_base.specs.declared.packet.FlowPacket.{FlowPacket};
ghost use Rattle.path_skew.specs.declared.row.Extreme.{Extreme};
ghost use Rattle.path_skew.specs.Extremes.{IsGreatest, IsLeast};
ghost use Rattle.path_skew.specs.Examples.{at_records, came, four, three_later, told};
ghost use Rattle.path_skew.specs.Pair.{skew, skews};

use timing_base::PacketFault;

/// The least skew is that of a matched packet number, and no skew is below it; of equal skews it has the lowest packet
/// record in the first flow. The greatest skew likewise has none above it. There is no extreme exactly if no packet
/// number is matched.
pub fn extremes_are_extreme()
    ensures least { (first second : List FlowPacket) (e : Extreme)
        → (skew first second).least ≡ Some e → IsLeast (skews first second) e }
    ensures greatest { (first second : List FlowPacket) (e : Extreme)
        → (skew first second).greatest ≡ Some e → IsGreatest (skews first second) e }
    ensures no_least { (first second : List FlowPacket)
        → (skew first second).least ≡ None → (skew first second).matched ≡ 0 }
    ensures no_greatest { (first second : List FlowPacket)
        → (skew first second).greatest ≡ None → (skew first second).matched ≡ 0 }
    ensures none { (first second : List FlowPacket) → (skew first second).matched ≡ 0
        → skew first second ≡ record (skew first second) { least = None; greatest = None } }
{}

/// Worked by hand: two paths of one sender, either way round.
pub fn pair_by_hand()
    ensures pair { skew four three_later
        ≡ told 3 1 0 0 0 (at_records (pos 150) 1 1) (at_records (pos 900) 3 3) }
    ensures swapped { skew three_later four
        ≡ told 3 0 1 0 0 (at_records (negsuc 899) 3 3) (at_records (negsuc 149) 1 1) }
    ensures itself { skew four four ≡ told 4 0 0 0 0 (at_records (pos 0) 1 1) (at_records (pos 0) 1 1) }

    // Nothing is matched.
    ensures one { skew four [] ≡ told 0 4 0 0 0 None None }
    ensures other { skew [] four ≡ told 0 0 4 0 0 None None }
    ensures neither { skew [] [] ≡ told 0 0 0 0 0 None None }
    ensures apart { skew (came 1 0 6 ∷ []) (came 1 0 7 ∷ []) ≡ told 0 1 1 0 0 None None }
{}

/// Worked by hand: the packet records of the extremes, and packet numbers that come out of order.
pub fn extremes_by_hand()
    // Of equal skews, the one with the lower packet record in the first flow counts, whatever the packet numbers and
    // the packet records in the second flow.
    ensures equal { skew (came 3 10 9 ∷ came 5 20 8 ∷ []) (came 2 21 8 ∷ came 4 11 9 ∷ [])
        ≡ told 2 0 0 0 0 (at_records (pos 1) 3 4) (at_records (pos 1) 3 4) }

    // The skews differ by one nanosecond.
    ensures below { skew (came 3 10 9 ∷ came 5 20 8 ∷ []) (came 2 20 8 ∷ came 4 11 9 ∷ [])
        ≡ told 2 0 0 0 0 (at_records (pos 0) 5 2) (at_records (pos 1) 3 4) }
    ensures above { skew (came 3 10 9 ∷ came 5 20 8 ∷ []) (came 2 22 8 ∷ came 4 11 9 ∷ [])
        ≡ told 2 0 0 0 0 (at_records (pos 1) 3 4) (at_records (pos 2) 5 2) }

    // A negative and a positive skew.
    ensures across { skew (came 1 10 6 ∷ came 2 20 7 ∷ []) (came 1 9 6 ∷ came 2 21 7 ∷ [])
        ≡ told 2 0 0 0 0 (at_records (negsuc 0) 1 1) (at_records (pos 1) 2 2) }

    // The greatest packet number and the least.
    ensures wraps { skew (came 1 10 4294967295 ∷ came 2 20 0 ∷ []) (came 1 23 0 ∷ [])
        ≡ told 1 1 0 0 0 (at_records (pos 3) 2 1) (at_records (pos 3) 2 1) }
{}

/// Worked by hand: of packets with equal packet numbers in one flow, the first counts.
pub fn repeated_by_hand()
    ensures first { skew (came 1 10 6 ∷ came 2 90 6 ∷ []) (came 1 15 6 ∷ [])
        ≡ told 1 0 0 1 0 (at_records (pos 5) 1 1) (at_records (pos 5) 1 1) }
    ensures second { skew (came 1 10 6 ∷ []) (came 1 15 6 ∷ came 2 90 6 ∷ [])
        ≡ told 1 0 0 1 0 (at_records (pos 5) 1 1) (at_records (pos 5) 1 1) }
    ensures both { skew (came 1 10 6 ∷ came 2 90 6 ∷ came 3 95 6 ∷ []) (came 1 15 6 ∷ came 2 20 6 ∷ [])
        ≡ told 1 0 0 3 0 (at_records (pos 5) 1 1) (at_records (pos 5) 1 1) }

    // Other packets come between the repeated ones, and each packet number counts once.
    ensures between { skew (came 1 10 6 ∷ came 2 20 7 ∷ came 3 30 6 ∷ came 4 40 7 ∷ []) (came 1 50 8 ∷ [])
        ≡ told 0 2 1 2 0 None None }
{}

/// Worked by hand: a packet that couldn't be parsed counts as unread, and as nothing else.
pub fn unread_by_hand()
    ensures first { skew (unread 1 10 PacketFault.Short ∷ came 2 20 6 ∷ []) (came 1 21 6 ∷ [])
        ≡ told 1 0 0 0 1 (at_records (pos 1) 2 1) (at_records (pos 1) 2 1) }
    ensures second { skew (came 1 20 6 ∷ []) (unread 1 10 PacketFault.Version ∷ came 2 21 6 ∷ [])
        ≡ told 1 0 0 0 1 (at_records (pos 1) 1 2) (at_records (pos 1) 1 2) }
    ensures both { skew (unread 1 10 PacketFault.Short ∷ unread 2 20 PacketFault.Short ∷ [])
        (unread 1 10 PacketFault.Short ∷ []) ≡ told 0 0 0 0 3 None None }

    // Two of them aren't a repetition, nor is a packet with number 0 after one.
    ensures zero { skew (unread 1 10 PacketFault.Short ∷ came 2 20 0 ∷ []) (came 1 20 0 ∷ [])
        ≡ told 1 0 0 0 1 (at_records (pos 0) 2 1) (at_records (pos 0) 2 1) }
{}
