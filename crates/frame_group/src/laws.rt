//! Theorems about the definitions, and the definitions on flows worked by hand. Each function does nothing; its clauses
//! are the theorem.

ghost use Rattle.std.specs.Prelude.{◌≡◌, ◌++◌, ◌∷◌, [], None, Some, Ok, Err, true, false};
ghost use Rattle.timing_base.specs.Examples.{sent, sent_by, two_groups, equal_low_halves};
ghost use Rattle.timing_base.specs.Flows.{fault};
ghost use Rattle.frame_group.specs.Cuts.{answer_at};
ghost use Rattle.frame_group.specs.Expected.{expected_after};
ghost use Rattle.frame_group.specs.Sizes.{GroupsAreSized};

use timing_base::PacketFault;

/// While no packet of a flow has a fault, a frame or field has at most 262,144 packets, and all frames or fields of a
/// run have the size of its first.
pub fn groups_are_sized()
    ensures { GroupsAreSized }
{}

/// Worked by hand: a head of one packet, two frames of two, and a tail of one, with no gap and no fault.
pub fn groups_by_hand()
    ensures head { answer_at two_groups 96 0 ≡ Ok None }
    ensures first { answer_at two_groups 96 1 ≡ Ok None }
    ensures last { answer_at two_groups 96 2 ≡ Ok None }
    ensures next { answer_at two_groups 96 3 ≡ Ok None }
    ensures next_last { answer_at two_groups 96 4 ≡ Ok None }
    ensures tail { answer_at two_groups 96 5 ≡ Ok None }

    // A head goes on until a marker comes, and its last packet has the marker.
    ensures long_head { answer_at (sent 1 5 6 0 false ∷ sent 2 6 7 0 true ∷ []) 96 1 ≡ Ok None }
{}

/// Worked by hand: a gap, and the packet number that was expected.
pub fn cuts_by_hand()
    ensures before { answer_at equal_low_halves 96 1 ≡ Ok None }
    ensures at { answer_at equal_low_halves 96 2 ≡ Ok (Some 8) }
    ensures wraps { answer_at (sent 1 0 4294967295 0 true ∷ sent 2 0 0 1 true ∷ []) 96 1 ≡ Ok None }
    ensures wraps_not { answer_at (sent 1 0 4294967295 0 true ∷ sent 2 0 1 1 true ∷ []) 96 1
        ≡ Ok (Some 0) }

    // After a gap frames count anew, from the first marker after it.
    ensures anew { answer_at (two_groups ++ (sent 7 70 13 104 true ∷ sent 8 80 14 105 false
        ∷ sent 9 90 15 105 true ∷ [])) 96 8 ≡ Ok None }
{}

/// Worked by hand: the first fault is returned at its packet and at each later one, even if that has none or another.
pub fn faults_by_hand()
    ensures before { answer_at (sent 1 100 6 0 true ∷ sent 2 99 7 1 true ∷ []) 96 0
        ≡ Ok None }
    ensures at { answer_at (sent 1 100 6 0 true ∷ sent 2 99 7 1 true ∷ []) 96 1
        ≡ Err (PacketFault.StampBack 100 99) }
    ensures after { answer_at (sent 1 100 6 0 true ∷ sent 2 99 7 1 true
        ∷ sent 3 100 8 2 true ∷ []) 96 2 ≡ Err (PacketFault.StampBack 100 99) }
    ensures after_has_none { fault (sent 1 100 6 0 true ∷ sent 2 99 7 1 true
        ∷ sent 3 100 8 2 true ∷ []) 96 2 ≡ None }
    ensures after_another { answer_at (sent 1 100 6 0 true ∷ sent 2 99 7 1 true
        ∷ sent_by 8 3 100 8 2 true ∷ []) 96 2 ≡ Err (PacketFault.StampBack 100 99) }
    ensures payload { answer_at two_groups 97 5 ≡ Err PacketFault.PayloadType }

    // The second frame is too short, and the third would have the size of the second.
    ensures short { answer_at (sent 1 0 6 0 true ∷ sent 2 0 7 1 false ∷ sent 3 0 8 1 true
        ∷ sent 4 0 9 2 true ∷ sent 5 0 10 3 true ∷ []) 96 4 ≡ Err (PacketFault.FrameSize 2 1) }
{}

/// Worked by hand: after packet number 11, the tail of two frames, number 12 with the same RTP timestamp is expected.
/// No packet is expected before the first, after a marker and after a fault.
pub fn expected_by_hand()
    ensures tail { expected_after two_groups 96
        ≡ Some (record { number = 12; timestamp = 103; marker = false; pt = 96; ssrc = 7 }) }
    ensures wraps { expected_after (sent 1 0 4294967295 5 false ∷ []) 96
        ≡ Some (record { number = 0; timestamp = 5; marker = false; pt = 96; ssrc = 7 }) }

    // After a gap, the expected number follows that of the packet after the gap.
    ensures gap { expected_after (sent 1 0 6 5 false ∷ sent 2 0 9 5 false ∷ []) 96
        ≡ Some (record { number = 10; timestamp = 5; marker = false; pt = 96; ssrc = 7 }) }

    ensures first { expected_after [] 96 ≡ None }
    ensures marker { expected_after (sent 1 0 6 5 false ∷ sent 2 0 7 5 true ∷ []) 96 ≡ None }
    ensures fault { expected_after (sent 1 1 6 5 false ∷ sent 2 0 7 5 false ∷ []) 96 ≡ None }
    ensures earlier_fault { expected_after (sent 1 1 6 5 false ∷ sent 2 0 7 5 false
        ∷ sent 3 1 8 5 false ∷ []) 96 ≡ None }
    ensures payload { expected_after (sent 1 0 6 5 false ∷ []) 97 ≡ None }
{}
