//! Theorems about the definitions, and examples of them worked by hand. Each function does nothing;
//! its clauses are what is proved.

ghost use Rattle.std.specs.Prelude.{◌≡◌, ◌<◌, ◌≤◌, ◌*◌, ◌+◌, ◌%◌, ◌^◌, ◌++◌, ◌∷◌, [], ℕ, List, Some, None, true, false, length, codes, replicate};
ghost use Rattle.timing_base.specs.declared.packet.FlowPacket.{FlowPacket};
ghost use Rattle.timing_base.specs.Flows.{AreStamped, FirstFault, cuts, fault, fault_within, first_fault, is_cut, IsFirstFault, rtp, run_start, markers, markers_before};
ghost use Rattle.timing_base.specs.Judged.{absent, refused, gap, in_one_run, in_runs, no_whole_frame, whole_frames, judged};
ghost use Rattle.timing_base.specs.Grouped.{IsGroupedVerdict};
ghost use Rattle.timing_base.specs.Captures.{joined};
ghost use Rattle.timing_base.specs.Name.{is_file_name};
ghost use Rattle.timing_base.specs.Routes.{route};
ghost use Rattle.timing_base.specs.Keys.{key_of};
ghost use Rattle.timing_base.specs.Choices.{chosen, keys_chosen};
ghost use Rattle.timing_base.specs.Media.{Media as MediaValue};
ghost use Rattle.timing_base.specs.Addresses.{ipv4, address_text, is_same_address, octets_of};
ghost use Rattle.timing_base.specs.Targets.{is_same_target, target_text};
ghost use Rattle.timing_base.specs.Numbered.{AreRead, LosesNoRound, is_jump, missing, numbered, sequence};
ghost use Rattle.timing_base.specs.Shifts.{AreFlowOptions, FlowOptions, Shift, no_options, no_shift, shifted, unshifted};
ghost use Rattle.timing_base.specs.Examples.{by_sequence_numbers, captured, judged_twos, seconds_added, sent, sent_by, sent_as, unread, two_groups, equal_low_halves};

use crate::packet::PacketFault;

/// The first fault of a flow is that of the first packet that has a fault. There is none exactly if
/// no packet has one.
pub fn first_fault_is_least()
    ensures least { (packets : List FlowPacket) (pt : ℕ) (first : FirstFault)
        → first_fault packets pt ≡ Some first → IsFirstFault packets pt first }
    ensures none { (packets : List FlowPacket) (pt k : ℕ)
        → first_fault packets pt ≡ None → k < length packets → fault packets pt k ≡ None }
{}

/// What is judged of a flow is whole frames or fields of one size, at most 262,144 packets each,
/// with capture timestamps that never decrease and are below 2^62, whatever the options. A flow with gaps has 2 to 1,025
/// runs, of which only the first has no expected packet number.
pub fn judged_is_grouped()
    ensures { (packets : List FlowPacket) (pt : ℕ) (options : FlowOptions) → length packets < 2 ^ 41
        → AreFlowOptions options → AreStamped packets → IsGroupedVerdict (judged packets pt options) }
{}

/// Worked by hand: a timestamp after a shift, and the timestamp that has this one after the shift.
/// Seconds are added before nanoseconds are subtracted, and nothing falls below 0.
pub fn shifts_by_hand()
    ensures plain { shifted (record { tai = 37; delay = 0 }) 5 ≡ 37000000005 }
    ensures delayed { shifted (record { tai = 0; delay = 7 }) 10 ≡ 3 }
    ensures after_seconds { shifted (record { tai = 1; delay = 999999999 }) 5 ≡ 6 }
    ensures below_zero { shifted (record { tai = 0; delay = 7 }) 5 ≡ 0 }
    ensures back { unshifted (record { tai = 1; delay = 999999999 }) 6 ≡ 5 }
    ensures back_below_zero { unshifted (record { tai = 1; delay = 0 }) 6 ≡ 0 }
{}

/// A shift keeps the order of capture timestamps. A timestamp that is put back and shifted again is
/// the same, from the shifted timestamp of any capture on. Without options nothing changes.
pub fn shifts_keep_order()
    ensures rises { (shift : Shift) (a b : ℕ) → a ≤ b → shifted shift a ≤ shifted shift b }
    ensures again { (shift : Shift) (at stamp : ℕ) → shifted shift at ≤ stamp
        → shifted shift (unshifted shift stamp) ≡ stamp }
    ensures none { (at : ℕ) → shifted no_shift at ≡ at }
{}

/// Worked by hand: packets that are numbered by their sequence numbers alone. 65,546 and 131,083
/// have the sequence numbers 10 and 11.
pub fn numbers_by_hand()
    ensures first { numbered true (sent 1 0 65546 0 true ∷ []) ≡ sent 1 0 10 0 true ∷ [] }
    ensures next { numbered true (sent 1 0 65546 0 true ∷ sent 2 0 131083 1 true ∷ [])
        ≡ sent 1 0 10 0 true ∷ sent 2 0 11 1 true ∷ [] }
    ensures wraps { numbered true (sent 1 0 65535 0 true ∷ sent 2 0 0 1 true ∷ [])
        ≡ sent 1 0 65535 0 true ∷ sent 2 0 65536 1 true ∷ [] }

    // A packet that comes one late is counted as one 65,535 packets later.
    ensures swapped { numbered true (sent 1 0 10 0 true ∷ sent 2 0 9 1 true ∷ [])
        ≡ sent 1 0 10 0 true ∷ sent 2 0 65545 1 true ∷ [] }
    ensures unread { numbered true (sent 1 0 7 0 true ∷ unread 2 0 PacketFault.Short ∷ sent 3 0 8 1 true ∷ [])
        ≡ sent 1 0 7 0 true ∷ unread 2 0 PacketFault.Short ∷ sent 3 0 8 1 true ∷ [] }
    ensures as_they_are { numbered false (sent 1 0 65546 0 true ∷ []) ≡ sent 1 0 65546 0 true ∷ [] }

    // With the extended sequence number 0 in both, the flow has a gap at the wrap; counted, it has none.
    ensures gap { cuts (sent 1 0 65535 0 true ∷ sent 2 0 0 1 true ∷ []) 2 ≡ 1 ∷ [] }
    ensures no_gap { judged (sent 1 0 65535 0 true ∷ sent 2 0 0 1 true ∷ []) 96 by_sequence_numbers
        ≡ in_one_run (whole_frames record { n = 1; groups = 1; head = 1; tail = 0; stamps = 0 ∷ [] }) }
{}

/// Packets that are numbered by their sequence numbers keep these. Such a flow has a gap exactly
/// where a sequence number isn't the next one, and as many packets are missing there as by the
/// numbers in the bytes, up to a multiple of 65,536. So it has the same gaps wherever no multiple
/// of 65,536 packets is lost.
pub fn numbers_count_on()
    ensures sequences { (packets : List FlowPacket) (i : ℕ) → AreRead packets → i < length packets
        → sequence (rtp (numbered true packets) i).number ≡ sequence (rtp packets i).number }
    ensures gaps { (packets : List FlowPacket) (i : ℕ) → AreRead packets → i < length packets
        → is_cut (numbered true packets) i ≡ is_jump packets i }
    ensures missing { (packets : List FlowPacket) (i : ℕ) → AreRead packets → 0 < i → i < length packets
        → missing (numbered true packets) i % 2 ^ 16 ≡ missing packets i % 2 ^ 16 }
    ensures alike { (packets : List FlowPacket) → AreRead packets → LosesNoRound packets
        → cuts (numbered true packets) (length packets) ≡ cuts packets (length packets) }
{}

/// Worked by hand: the places of gaps and markers, and the start of a run.
pub fn places_by_hand()
    ensures no_cut { cuts two_groups 6 ≡ [] }
    ensures one_cut { cuts equal_low_halves 3 ≡ 2 ∷ [] }
    ensures wraps { cuts (sent 1 0 4294967295 0 true ∷ sent 2 0 0 1 true
        ∷ sent 3 0 1 2 true ∷ []) 3 ≡ [] }
    ensures falls { cuts (sent 1 0 6 0 true ∷ sent 2 0 9 1 true ∷ sent 3 0 2 2 true ∷ []) 3
        ≡ 1 ∷ 2 ∷ [] }
    ensures marks { markers two_groups 0 6 ≡ 0 ∷ 2 ∷ 4 ∷ [] }
    ensures before { markers_before two_groups 4 ≡ 0 ∷ 2 ∷ [] }
    ensures start { run_start equal_low_halves 2 ≡ 2 }
    ensures start_before { run_start equal_low_halves 1 ≡ 0 }
{}

/// Worked by hand: faults that a packet has by itself or compared with the first packet.
pub fn sender_faults_by_hand()
    ensures short { judged (unread 9 0 PacketFault.Short ∷ []) 96 no_options
        ≡ refused 9 PacketFault.Short }
    ensures version { judged (sent 1 0 6 0 true ∷ unread 2 0 PacketFault.Version ∷ []) 96 no_options
        ≡ refused 2 PacketFault.Version }
    ensures payload { judged (sent_as 97 1 0 6 0 true ∷ []) 96 no_options
        ≡ refused 1 PacketFault.PayloadType }
    ensures source { judged (sent 1 0 6 0 true ∷ sent_by 8 2 0 7 1 true
        ∷ sent 3 0 8 2 true ∷ []) 96 no_options
        ≡ refused 2 PacketFault.SecondSource }
    ensures smaller_source { judged (sent 1 0 6 0 true ∷ sent_by 6 2 0 7 1 true ∷ []) 96 no_options
        ≡ refused 2 PacketFault.SecondSource }

    // The third packet has the source of the second packet and not that of the first.
    ensures source_of_first { fault (sent 1 0 6 0 true ∷ sent_by 8 2 0 7 1 true
        ∷ sent_by 8 3 0 8 2 true ∷ []) 96 2 ≡ Some PacketFault.SecondSource }
{}

/// Worked by hand: faults that a packet has compared with the packet before. `fault_within 1`
/// allows one gap in a flow.
pub fn order_faults_by_hand()
    ensures number { fault_within 1 9 (sent 1 0 0 0 true ∷ sent 2 0 2 1 true
        ∷ sent 3 0 4 2 true ∷ []) 96 2 ≡ Some (PacketFault.Number 3 4) }
    ensures first_cut { fault_within 1 9 (sent 1 0 0 0 true ∷ sent 2 0 2 1 true ∷ []) 96 1 ≡ None }
    ensures after_last_cut { fault_within 1 9 (sent 1 0 0 0 true ∷ sent 2 0 2 1 true
        ∷ sent 3 0 3 2 true ∷ []) 96 2 ≡ None }
    ensures stamp_back { judged (sent 1 100 6 0 true ∷ sent 2 99 7 1 true ∷ []) 96 (seconds_added 3)
        ≡ refused 2 (PacketFault.StampBack 100 99) }
    ensures equal_stamps { fault (sent 1 100 6 0 true ∷ sent 2 100 7 1 true ∷ []) 96 1 ≡ None }
    ensures stamp_back_at_cut { judged (sent 1 100 6 0 true ∷ sent 2 99 8 1 true ∷ []) 96 no_options
        ≡ refused 2 (PacketFault.StampBack 100 99) }
    ensures no_marker { judged (sent 1 0 6 0 false ∷ sent 2 0 7 1 true ∷ []) 96 no_options
        ≡ refused 2 PacketFault.NoMarker }
    ensures timestamp_wraps { fault (sent 1 0 6 4294967295 true ∷ sent 2 0 7 0 true ∷ []) 96 1 ≡ None }
    ensures timestamp_falls { judged (sent 1 0 6 1 false ∷ sent 2 0 7 0 true ∷ []) 96 no_options
        ≡ refused 2 PacketFault.NoMarker }
    ensures no_marker_at_cut { fault (sent 1 0 6 0 false ∷ sent 2 0 8 1 true ∷ []) 96 1 ≡ None }
    ensures same_stamp { judged (sent 1 0 6 0 true ∷ sent 2 0 7 0 false ∷ []) 96 no_options
        ≡ refused 2 PacketFault.SameStamp }
    ensures same_stamp_at_cut { fault (sent 1 0 6 0 true ∷ sent 2 0 8 0 false ∷ []) 96 1 ≡ None }
{}

/// Worked by hand: faults of the size of a frame or field. `fault_within 9 3` allows three packets
/// in each.
pub fn size_faults_by_hand()
    ensures short { judged (sent 1 0 6 0 true ∷ sent 2 0 7 1 false ∷ sent 3 0 8 1 true
        ∷ sent 4 0 9 2 true ∷ []) 96 no_options ≡ refused 4 (PacketFault.FrameSize 2 1) }
    ensures long { judged (sent 1 0 6 0 true ∷ sent 2 0 7 1 false ∷ sent 3 0 8 1 true
        ∷ sent 4 0 9 2 false ∷ sent 5 0 10 2 false ∷ sent 6 0 11 2 true ∷ []) 96 no_options
        ≡ refused 6 (PacketFault.FrameSize 2 3) }

    // A tail is never longer than a whole frame or field, although it ends without a marker.
    ensures long_tail { judged (sent 1 0 6 0 true ∷ sent 2 0 7 1 false ∷ sent 3 0 8 1 true
        ∷ sent 4 0 9 2 false ∷ sent 5 0 10 2 false ∷ sent 6 0 11 2 false ∷ []) 96 no_options
        ≡ refused 6 (PacketFault.FrameSize 2 3) }
    ensures full_tail { first_fault (sent 1 0 6 0 true ∷ sent 2 0 7 1 false ∷ sent 3 0 8 1 true
        ∷ sent 4 0 9 2 false ∷ sent 5 0 10 2 false ∷ []) 96 ≡ None }

    // The first judged frame or field may have any size up to the limit.
    ensures too_large { fault_within 9 3 (sent 1 0 6 0 true ∷ sent 2 0 7 1 false
        ∷ sent 3 0 8 1 false ∷ sent 4 0 9 1 false ∷ sent 5 0 10 1 false ∷ []) 96 4
        ≡ Some PacketFault.FrameTooLarge }
    ensures large { fault_within 9 3 (sent 1 0 6 0 true ∷ sent 2 0 7 1 false
        ∷ sent 3 0 8 1 false ∷ sent 4 0 9 1 true ∷ []) 96 3 ≡ None }
    ensures long_head { fault_within 9 3 (sent 1 0 6 0 false ∷ sent 2 0 7 0 false
        ∷ sent 3 0 8 0 false ∷ sent 4 0 9 0 false ∷ sent 5 0 10 0 false ∷ []) 96 4 ≡ None }

    // After a gap, the first judged frame or field sets the size anew.
    ensures after_cut { first_fault (sent 1 0 6 0 true ∷ sent 2 0 7 1 false ∷ sent 3 0 8 1 true
        ∷ sent 4 0 90 2 true ∷ sent 5 0 91 3 true ∷ sent 6 0 92 4 true ∷ []) 96 ≡ None }
{}

/// Worked by hand: if a packet has two faults, the first in the order of [`PacketFault`] is
/// reported.
pub fn first_of_two_by_hand()
    ensures payload { judged (sent_by 8 1 0 6 0 true ∷ sent_as 97 2 0 7 1 true ∷ []) 96 no_options
        ≡ refused 2 PacketFault.PayloadType }
    ensures source { judged (sent 1 100 6 0 true ∷ sent_by 8 2 99 7 1 true ∷ []) 96 no_options
        ≡ refused 2 PacketFault.SecondSource }
    ensures number { fault_within 1 9 (sent 1 100 0 0 true ∷ sent 2 100 2 1 true
        ∷ sent 3 99 4 2 true ∷ []) 96 2 ≡ Some (PacketFault.Number 3 4) }
    ensures stamp_back { judged (sent 1 100 6 0 false ∷ sent 2 99 7 1 true ∷ []) 96 no_options
        ≡ refused 2 (PacketFault.StampBack 100 99) }
    ensures no_marker { judged (sent 1 0 6 0 true ∷ sent 2 0 7 1 false ∷ sent 3 0 8 1 true
        ∷ sent 4 0 9 2 false ∷ sent 5 0 10 2 false ∷ sent 6 0 11 3 false ∷ []) 96 no_options
        ≡ refused 6 PacketFault.NoMarker }
    ensures same_stamp { judged (sent 1 0 6 0 true ∷ sent 2 0 7 1 false ∷ sent 3 0 8 1 true
        ∷ sent 4 0 9 1 true ∷ []) 96 no_options ≡ refused 4 PacketFault.SameStamp }
{}

/// Worked by hand: flows of one run, with head and tail, and without a whole frame or field.
pub fn runs_by_hand()
    ensures absent { judged [] 96 no_options ≡ absent }
    ensures one_run { judged two_groups 96 (seconds_added 1) ≡ in_one_run
        (judged_twos 2 (1000000020 ∷ 1000000030 ∷ 1000000040 ∷ 1000000050 ∷ [])) }
    ensures long_head { judged (sent 1 5 6 0 false ∷ sent 2 6 7 0 true
        ∷ sent 3 7 8 1 true ∷ []) 96 no_options
        ≡ in_one_run (whole_frames record {
          n = 1;
          groups = 1;
          head = 2;
          tail = 0;
          stamps = 7 ∷ [];
        }) }
    ensures no_marker { judged (sent 1 0 6 0 false ∷ sent 2 0 7 0 false ∷ []) 96 no_options
        ≡ in_one_run (no_whole_frame 2) }
    ensures one_marker { judged (sent 1 0 6 0 true ∷ sent 2 0 7 1 false ∷ []) 96 no_options
        ≡ in_one_run (no_whole_frame 1) }
{}

/// Worked by hand: flows of two runs.
pub fn cut_flows_by_hand()
    ensures equal_low_halves { judged equal_low_halves 96 no_options ≡ in_runs (
        record { rec = 1; number = 6; expected = None; outcome = no_whole_frame 1 }
        ∷ record { rec = 3; number = 65544; expected = Some 8; outcome = no_whole_frame 1 }
        ∷ []) }
    ensures judged_first { judged (two_groups ++ sent 7 70 13 104 false ∷ []) 96 no_options
        ≡ in_runs (record {
          rec = 1;
          number = 6;
          expected = None;
          outcome = judged_twos 2 (20 ∷ 30 ∷ 40 ∷ 50 ∷ []);
        }
        ∷ record { rec = 7; number = 13; expected = Some 12; outcome = no_whole_frame 1 }
        ∷ []) }
{}

/// Worked by hand: a flow of three runs, of which only the second has a whole frame or field. The
/// packet number of the third run is lower than those before.
pub fn three_runs_by_hand()
    ensures { judged (sent 1 10 6 100 true ∷ sent 2 20 9 101 true ∷ sent 3 30 10 102 true
        ∷ sent 4 40 2 103 false ∷ []) 96 no_options
        ≡ in_runs (record { rec = 1; number = 6; expected = None; outcome = no_whole_frame 1 }
        ∷ record {
          rec = 2;
          number = 9;
          expected = Some 7;
          outcome = whole_frames record { n = 1; groups = 1; head = 1; tail = 0; stamps = 30 ∷ [] };
        }
        ∷ record { rec = 4; number = 2; expected = Some 11; outcome = no_whole_frame 1 }
        ∷ []) }
{}

/// Worked by hand: the second run is judged too and has its own head and tail. The added second
/// applies to its capture timestamps as to those of the first run.
pub fn second_run_by_hand()
    ensures { judged (two_groups ++ sent 7 70 20 104 true ∷ sent 8 80 21 105 false
        ∷ sent 9 90 22 105 true ∷ sent 10 100 23 106 false ∷ []) 96 (seconds_added 1)
        ≡ in_runs (record {
          rec = 1;
          number = 6;
          expected = None;
          outcome = judged_twos 2 (1000000020 ∷ 1000000030 ∷ 1000000040 ∷ 1000000050 ∷ []);
        }
        ∷ record {
          rec = 7;
          number = 20;
          expected = Some 12;
          outcome = judged_twos 1 (1000000080 ∷ 1000000090 ∷ []);
        }
        ∷ []) }
{}

/// Worked by hand: three captures, with two packet records, none and one, are joined to one with
/// three.
pub fn joined_by_hand()
    ensures three { joined ((captured 1 10 ∷ captured 2 20 ∷ []) ∷ [] ∷ (captured 1 5 ∷ []) ∷ [])
        ≡ captured 1 10 ∷ captured 2 20 ∷ captured 3 5 ∷ [] }
    ensures alone { joined ((captured 1 10 ∷ []) ∷ []) ≡ captured 1 10 ∷ [] }
    ensures none { joined [] ≡ [] }
{}

/// Worked by hand: with three media in each capture, media 1 of capture 2 is flow 7.
pub fn routes_by_hand()
    ensures four { route (record { file = 2; media = 1 }) 3 4 ≡ 3 }
    ensures seven { route (record { file = 2; media = 1 }) 3 7 ≡ 0 }
    ensures one { route (record { file = 2; media = 1 }) 3 1 ≡ 0 }
{}

/// Worked by hand: the media that are judged, and the keys of their flows. A chosen media keeps its
/// number in the session.
pub fn choices_by_hand()
    ensures all { (a b : MediaValue) → chosen None (a ∷ b ∷ []) ≡ a ∷ b ∷ [] }
    ensures second { (a b c : MediaValue) → chosen (Some 1) (a ∷ b ∷ c ∷ []) ≡ b ∷ [] }
    ensures past_the_end { (a b : MediaValue) → chosen (Some 2) (a ∷ b ∷ []) ≡ [] }
    ensures all_keys { (a b : MediaValue) → keys_chosen None false 2 (a ∷ b ∷ [])
        ≡ key_of 0 0 ∷ key_of 0 1 ∷ key_of 1 0 ∷ key_of 1 1 ∷ [] }
    ensures one_of_each_file { (a b : MediaValue) → keys_chosen (Some 1) false 2 (a ∷ b ∷ [])
        ≡ key_of 0 1 ∷ key_of 1 1 ∷ [] }
    ensures one_of_joined { (a b : MediaValue) → keys_chosen (Some 1) true 2 (a ∷ b ∷ []) ≡ key_of 0 1 ∷ [] }
    ensures no_key { (a b : MediaValue) → keys_chosen (Some 2) false 2 (a ∷ b ∷ []) ≡ [] }
{}

/// Worked by hand: the first octet of an address is its most significant one, so it is compared
/// first.
#[tactic(auto, using(crate::proofs::Numerals::written_out))]
pub fn addresses_by_hand()
    ensures group { ipv4 239 0 0 1 ≡ record { bits = 4009754625 } }
    ensures octets { octets_of (record { bits = 16909060 }) ≡ 1 ∷ 2 ∷ 3 ∷ 4 ∷ [] }
    ensures text { address_text (record { bits = 16909060 }) ≡ codes "1.2.3.4" }
    ensures least { address_text (ipv4 0 0 0 0) ≡ codes "0.0.0.0" }
    ensures greatest { address_text (record { bits = 4294967295 }) ≡ codes "255.255.255.255" }
    ensures order { (ipv4 1 2 3 4).bits < (ipv4 1 2 4 3).bits }
    ensures same { is_same_address (ipv4 1 2 3 4) (record { bits = 16909060 }) ≡ true }
    ensures turned { is_same_address (ipv4 1 2 3 4) (ipv4 4 3 2 1) ≡ false }
{}

/// Worked by hand: the printed form of a target, and targets that differ in one part.
#[tactic(auto, using(crate::proofs::Numerals::written_out))]
pub fn targets_by_hand()
    ensures text { target_text (record { address = ipv4 239 0 0 1; port = 50000 })
        ≡ codes "239.0.0.1:50000" }
    ensures greatest { target_text (record { address = ipv4 255 255 255 255; port = 65535 })
        ≡ codes "255.255.255.255:65535" }
    ensures same { is_same_target (record { address = ipv4 239 0 0 1; port = 9 })
        (record { address = record { bits = 4009754625 }; port = 9 }) ≡ true }
    ensures other_port { is_same_target (record { address = ipv4 239 0 0 1; port = 9 })
        (record { address = ipv4 239 0 0 1; port = 8 }) ≡ false }
    ensures other_address { is_same_target (record { address = ipv4 239 0 0 1; port = 9 })
        (record { address = ipv4 239 0 0 2; port = 9 }) ≡ false }
{}

/// An address has the octets that it was made of.
pub fn addresses_have_their_octets()
    ensures octets { (a b c d : ℕ) → a < 2 ^ 8 → b < 2 ^ 8 → c < 2 ^ 8 → d < 2 ^ 8
        → octets_of (ipv4 a b c d) ≡ a ∷ b ∷ c ∷ d ∷ [] }
{}

/// Worked by hand: a file name has at least 1 byte and no control character.
pub fn names_by_hand()
    ensures empty { is_file_name [] ≡ false }
    ensures space { is_file_name (32 ∷ []) ≡ true }
    ensures control { is_file_name (31 ∷ []) ≡ false }
    ensures tilde { is_file_name (97 ∷ 126 ∷ []) ≡ true }
    ensures delete { is_file_name (97 ∷ 127 ∷ []) ≡ false }
    ensures longest { is_file_name (replicate 4096 97) ≡ true }
    ensures too_long { is_file_name (replicate 4097 97) ≡ false }
{}
