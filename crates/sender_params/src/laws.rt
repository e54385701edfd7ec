//! The definitions on numbers worked by hand, and theorems about confirmed violations. Each function does nothing; its
//! clauses are the theorem.

ghost use Rattle.std.specs.Prelude.{◌≡◌, ◌∷◌, [], ℕ, List, true, false, pos, negsuc, Some, None, replicate};
ghost use Rattle.fraction128.specs.Fractions.{Below, scaled, whole};
ghost use Rattle.timing_base.specs.Media.{Media};
ghost use Rattle.timing_base.specs.declared.fail.FailProof.{FailProof};
ghost use Rattle.timing_base.specs.declared.media.Kind.{Kind};
ghost use Rattle.timing_base.specs.declared.fail.Broken.TheVariants.{Bucket, Over, Empty};
ghost use Rattle.timing_base.specs.declared.media.Kind.TheVariants.{N, NL, W};
ghost use Rattle.sender_params.specs.Times.{drain_time, frame_time, group_time};
ghost use Rattle.sender_params.specs.Times.{offset_time, read_step};
ghost use Rattle.sender_params.specs.Ticks.{KeepsBucket, NeverFall, load_of, ticks_of};
ghost use Rattle.sender_params.specs.Reads.{AreDue, anchor_of, read_of};
ghost use Rattle.sender_params.specs.Keeps.{Confirms, Keeps, KeepsBuffer};
ghost use Rattle.sender_params.specs.Keeps.{arrived_by_read, held_at, held_of, is_empty, is_over};
ghost use Rattle.sender_params.specs.Worked.{IsAt, IsTime, c_max_of_each, vrx_full_of_each};
ghost use Rattle.sender_params.specs.Worked.{at_once, described, fail, linear_two, video};
ghost use Rattle.sender_params.specs.Worked.{hd_50, hd_59_94, hd_25_interlaced, sd_25_interlaced};

/// 1080p at 50 with 20 packets per frame: T_RS is 960,000 ns, TR_OFFSET 764,444 4/9 ns and T_DRAIN
/// 909,090 10/11 ns. TROFF=700 is 700,000 ns.
pub fn times_by_hand()
    ensures frame { IsTime (frame_time hd_50) 20000000 1 }
    ensures group { IsTime (group_time hd_50) 20000000 1 }
    ensures gapped { IsTime (read_step hd_50 20 true) 960000 1 }
    ensures linear { IsTime (read_step hd_50 20 false) 1000000 1 }
    ensures offset { IsTime (offset_time hd_50) 6880000 9 }
    ensures drain { IsTime (drain_time hd_50 20) 10000000 11 }
    ensures troff { IsTime (offset_time (described 1080 false 50 1 (Some N) (Some 700) None)) 700000 1 }
{}

/// 1080p at 60000/1001 with 4320 packets per frame: T_FRAME is 16,683,333 1/3 ns, gapped T_RS 3,707 11/27 ns,
/// TR_OFFSET 637,674 2/27 ns and T_DRAIN 3,510 65/81 ns.
pub fn times_at_5994_by_hand()
    ensures frame { IsTime (frame_time hd_59_94) 50050000 3 }
    ensures group { IsTime (group_time hd_59_94) 50050000 3 }
    ensures gapped { IsTime (read_step hd_59_94 4320 true) 100100 27 }
    ensures linear { IsTime (read_step hd_59_94 4320 false) 625625 162 }
    ensures offset { IsTime (offset_time hd_59_94) 17217200 27 }
    ensures drain { IsTime (drain_time hd_59_94 4320) 284375 81 }
{}

/// Interlaced pictures with 10 packets per field at 25: T_GROUP is 20,000,000 ns, T_FRAME
/// 40,000,000 ns, linear T_RS 2,000,000 ns and T_DRAIN 1,818,181 9/11 ns.
pub fn interlaced_times_by_hand()
    ensures group { IsTime (group_time hd_25_interlaced) 20000000 1 }
    ensures frame { IsTime (frame_time hd_25_interlaced) 40000000 1 }
    ensures linear { IsTime (read_step hd_25_interlaced 10 false) 2000000 1 }
    ensures drain { IsTime (drain_time hd_25_interlaced 10) 20000000 11 }
{}

/// TR_OFFSET by height. Progressive pictures at 50: 764,444 4/9 ns from 1080 lines on, and 746,666 2/3 ns below.
/// Interlaced pictures at 25: 782,222 2/9 ns from 1080 lines on, 1,664,000 ns from 576 to 1079 lines, and 1,523,809
/// 11/21 ns below; with 480 lines at 30000/1001, 1,271,111 1/9 ns.
pub fn offsets_by_hand()
    ensures lines_2160 { IsTime (offset_time (video 2160 false 50 1)) 6880000 9 }
    ensures lines_1079 { IsTime (offset_time (video 1079 false 50 1)) 2240000 3 }
    ensures lines_720 { IsTime (offset_time (video 720 false 50 1)) 2240000 3 }
    ensures lines_480 { IsTime (offset_time (video 480 false 50 1)) 2240000 3 }
    ensures fields_2160 { IsTime (offset_time (video 2160 true 25 1)) 7040000 9 }
    ensures fields_1080 { IsTime (offset_time hd_25_interlaced) 7040000 9 }
    ensures fields_1079 { IsTime (offset_time (video 1079 true 25 1)) 1664000 1 }
    ensures fields_576 { IsTime (offset_time sd_25_interlaced) 1664000 1 }
    ensures fields_575 { IsTime (offset_time (video 575 true 25 1)) 32000000 21 }
    ensures fields_480 { IsTime (offset_time (video 480 true 30000 1001)) 11440000 9 }
{}

/// Gapped T_RS by height. Progressive pictures at 50 with 20 packets per frame: 960,000 ns. Interlaced pictures at 25
/// with 10 packets per field: 1,920,000 ns from 1080 lines on, 1,843,200 ns from 576 to 1079 lines, and 1,855,238 2/21
/// ns below; with 480 lines at 30000/1001, 1,547,577 7/9 ns.
pub fn steps_by_hand()
    ensures lines_2160 { IsTime (read_step (video 2160 false 50 1) 20 true) 960000 1 }
    ensures lines_720 { IsTime (read_step (video 720 false 50 1) 20 true) 960000 1 }
    ensures lines_480 { IsTime (read_step (video 480 false 50 1) 20 true) 960000 1 }
    ensures fields_2160 { IsTime (read_step (video 2160 true 25 1) 10 true) 1920000 1 }
    ensures fields_1080 { IsTime (read_step hd_25_interlaced 10 true) 1920000 1 }
    ensures fields_1079 { IsTime (read_step (video 1079 true 25 1) 10 true) 1843200 1 }
    ensures fields_576 { IsTime (read_step sd_25_interlaced 10 true) 1843200 1 }
    ensures fields_575 { IsTime (read_step (video 575 true 25 1) 10 true) 38960000 21 }
    ensures fields_480 { IsTime (read_step (video 480 true 30000 1001) 10 true) 13928200 9 }
{}

/// The limits of 1080p at 60000/1001 with 4320 packets per frame. At 50: with 20 packets per frame, where each limit is
/// its minimum, and on both sides of whole quotients, with 17,280 and 20,736 packets per frame and one less.
pub fn limits_by_hand()
    ensures bucket { c_max_of_each hd_59_94 4320 ≡ (6, 5, 16) }
    ensures buffer { vrx_full_of_each hd_59_94 4320 ≡ (9, 9, 863) }
    ensures bucket_least { c_max_of_each hd_50 20 ≡ (4, 4, 16) }
    ensures buffer_least { vrx_full_of_each hd_50 20 ≡ (8, 8, 720) }
    ensures bucket_whole { c_max_of_each hd_50 17280 ≡ (20, 20, 40) }
    ensures bucket_under { c_max_of_each hd_50 17279 ≡ (20, 19, 39) }
    ensures buffer_whole { vrx_full_of_each hd_50 17280 ≡ (32, 32, 2880) }
    ensures buffer_under { vrx_full_of_each hd_50 17279 ≡ (31, 31, 2879) }
    ensures narrow_whole { c_max_of_each hd_50 20736 ≡ (25, 24, 48) }
    ensures narrow_under { c_max_of_each hd_50 20735 ≡ (24, 23, 47) }
{}

/// The limits step at whole quotients. At 50 frames per second C_MAX is N * 50 / 41472 for N, N * 50 / 43200 for NL and
/// N * 50 / 21600 for W; VRX_FULL is N * 50 / 27000 for N and NL, and N / 6 for W. N is the number of packets per
/// frame.
pub fn steps_of_limits_by_hand()
    ensures narrow { c_max_of_each hd_50 41472 ≡ (50, 48, 96) }
    ensures narrow_under { c_max_of_each hd_50 41471 ≡ (49, 47, 95) }
    ensures linear { c_max_of_each hd_50 43200 ≡ (52, 50, 100) }
    ensures linear_under { c_max_of_each hd_50 43199 ≡ (52, 49, 99) }
    ensures wide { c_max_of_each hd_50 21600 ≡ (26, 25, 50) }
    ensures wide_under { c_max_of_each hd_50 21599 ≡ (26, 24, 49) }
    ensures buffer { vrx_full_of_each hd_50 29160 ≡ (54, 54, 4860) }
    ensures buffer_under { vrx_full_of_each hd_50 29159 ≡ (53, 53, 4859) }
{}

/// With G packets per field N is 2 * G. At 25 frames per second C_MAX of type N is G * 50 / 41472 from 1080 lines on.
/// With 576 to 1079 lines, where the active part is 576/625, it is G * 625 / 497664: 11 from G = 8,758.9 on. Below, at
/// 30000/1001 with 487/525, it is G * 625 / 417846: 13 from G = 8,691.2 on.
pub fn interlaced_steps_of_limits_by_hand()
    ensures lines_1080 { c_max_of_each hd_25_interlaced 41472 ≡ (50, 48, 96) }
    ensures lines_1080_under { c_max_of_each hd_25_interlaced 41471 ≡ (49, 47, 95) }
    ensures lines_576 { c_max_of_each sd_25_interlaced 8759 ≡ (11, 10, 20) }
    ensures lines_576_under { c_max_of_each sd_25_interlaced 8758 ≡ (10, 10, 20) }
    ensures lines_480 { c_max_of_each (video 480 true 30000 1001) 8692 ≡ (13, 12, 24) }
    ensures lines_480_under { c_max_of_each (video 480 true 30000 1001) 8691 ≡ (12, 12, 24) }
    ensures buffer { vrx_full_of_each hd_25_interlaced 29160 ≡ (54, 54, 4860) }
    ensures buffer_under { vrx_full_of_each hd_25_interlaced 29159 ≡ (53, 53, 4859) }
{}

/// CMAX=9 replaces the limit of the declared type only. Without it C_MAX is 4, 4 and 16.
pub fn cmax_by_hand()
    ensures narrow { c_max_of_each (described 1080 false 50 1 (Some N) None (Some 9)) 20 ≡ (9, 4, 16) }
    ensures linear { c_max_of_each (described 1080 false 50 1 (Some NL) None (Some 9)) 20 ≡ (4, 9, 16) }
    ensures wide { c_max_of_each (described 1080 false 50 1 (Some W) None (Some 9)) 20 ≡ (4, 4, 9) }
    ensures undeclared { c_max_of_each (described 1080 false 50 1 None None (Some 9)) 20 ≡ (4, 4, 16) }
    ensures no_cmax { c_max_of_each (described 1080 false 50 1 (Some W) None None) 20 ≡ (4, 4, 16) }
{}

/// The limits of interlaced pictures: 1080 lines at 25 with 8,640 packets per field, 576 lines at 25 with 9,000, and
/// 480 lines at 30000/1001 with 8,960. Their active parts differ.
pub fn interlaced_limits_by_hand()
    ensures bucket { c_max_of_each hd_25_interlaced 8640 ≡ (10, 10, 20) }
    ensures buffer { vrx_full_of_each hd_25_interlaced 8640 ≡ (16, 16, 1440) }
    ensures lines_576 { c_max_of_each sd_25_interlaced 9000 ≡ (11, 10, 20) }
    ensures lines_480 { c_max_of_each (video 480 true 30000 1001) 8960 ≡ (13, 12, 24) }
{}

/// The drain ticks of 1080p at 50 with 20 packets per frame: 4 within 3,840,000 ns, and the eleventh exactly 10,000,000
/// ns after the first packet. With 10 packets per field at 25, 5 ticks by then.
pub fn ticks_by_hand()
    ensures none { ticks_of hd_50 20 1600000000000764000 1600000000001673090 ≡ 0 }
    ensures one { ticks_of hd_50 20 1600000000000764000 1600000000001673091 ≡ 1 }
    ensures four { ticks_of hd_50 20 1600000000000764000 1600000000004604000 ≡ 4 }
    ensures before { ticks_of hd_50 20 7 10000006 ≡ 10 }
    ensures at_tick { ticks_of hd_50 20 7 10000007 ≡ 11 }
    ensures fields { ticks_of hd_25_interlaced 10 7 10000007 ≡ 5 }
{}

/// The loads of five packets at once and a sixth 2,000,000 ns after them. Ticks are counted from packet 0 on: in
/// `from_first` the first tick is between packets 1 and 2, which are 20,000 ns apart. No load is below 0.
pub fn loads_by_hand()
    ensures all { load_of hd_50 20 (7 ∷ 7 ∷ 7 ∷ 7 ∷ 7 ∷ 2000007 ∷ []) 0 4 ≡ 5 }
    ensures drained { load_of hd_50 20 (7 ∷ 7 ∷ 7 ∷ 7 ∷ 7 ∷ 2000007 ∷ []) 0 5 ≡ 4 }
    ensures alone { load_of hd_50 20 (7 ∷ 7 ∷ 7 ∷ 7 ∷ 7 ∷ 2000007 ∷ []) 5 5 ≡ 1 }
    ensures from_first { load_of hd_50 20 (7 ∷ 900007 ∷ 920007 ∷ []) 1 2 ≡ 1 }
    ensures idle { load_of hd_50 20 (7 ∷ 20000007 ∷ []) 0 1 ≡ 0 }
    ensures never_fall { NeverFall (7 ∷ 7 ∷ 8 ∷ []) }
    ensures falls { NeverFall (7 ∷ 8 ∷ 7 ∷ []) → ⊥ }
{}

/// The frame or field of a first packet. 1080p at 50, with a first packet 764,000 ns after 1,600,000,000 s: frame
/// 80,000,000,000. At 60000/1001, TAI second 1,601,600,000 begins frame 96,000,000,000; at 25 interlaced, 1,600,000,000
/// s begins field 80,000,000,000.
///
/// A first packet belongs to the nearest frame or field, and halfway to the later one: with TR_OFFSET 764,444 4/9 ns to
/// frame 1 from 10,764,445 ns on, and with TROFF=0 from 10,000,000 ns on. With TROFF=1000000 at 240, a packet at 0
/// belongs to the frame 240 before frame 0, or to the field 480 before field 0.
pub fn anchors_by_hand()
    ensures anchor { anchor_of hd_50 1600000000000764000 ≡ pos 80000000000 }
    ensures frame { anchor_of hd_59_94 1601600000000636674 ≡ pos 96000000000 }
    ensures field { anchor_of hd_25_interlaced 1600000000000782000 ≡ pos 80000000000 }
    ensures early { anchor_of hd_50 0 ≡ pos 0 }
    ensures nearest { anchor_of hd_50 10764444 ≡ pos 0 }
    ensures later { anchor_of hd_50 10764445 ≡ pos 1 }
    ensures no_tie { anchor_of (described 1080 false 50 1 None (Some 0) None) 9999999 ≡ pos 0 }
    ensures tie { anchor_of (described 1080 false 50 1 None (Some 0) None) 10000000 ≡ pos 1 }
    ensures frames { anchor_of (described 1080 false 240 1 None (Some 1000000) None) 0 ≡ negsuc 239 }
    ensures fields { anchor_of (described 1080 true 240 1 None (Some 1000000) None) 0 ≡ negsuc 479 }
{}

/// The reads of frame 80,000,000,000 at 50 with 20 packets per frame: gapped read 1 is 1,724,444 4/9 ns after its
/// start, linear read 1 is 1,764,444 4/9 ns after it, and read 20 is the first of the next frame. With 10 packets per
/// field at 25, read 10 is the first of the next field, 20,782,222 2/9 ns after second 1,600,000,000, and read 11 is
/// 1,920,000 ns later. A frame or field may begin before time 0.
pub fn reads_by_hand()
    ensures gapped { IsAt (read_of hd_50 20 (pos 80000000000) true 1) 14400000000015520000 9 }
    ensures linear { IsAt (read_of hd_50 20 (pos 80000000000) false 1) 14400000000015880000 9 }
    ensures next_frame { IsAt (read_of hd_50 20 (pos 80000000000) true 20) 14400000000186880000 9 }
    ensures next_field { IsAt (read_of hd_25_interlaced 10 (pos 80000000000) true 10)
        14400000000187040000 9 }
    ensures in_field { IsAt (read_of hd_25_interlaced 10 (pos 80000000000) true 11)
        14400000000204320000 9 }
    ensures before_0 { IsAt (read_of hd_50 20 (negsuc 0) true 20) 6880000 9 }
    ensures not_at_0 { Below (read_of hd_50 20 (negsuc 0) true 19) (whole 0) }
{}

/// A linear sender: packet 1 comes 1,000,000 ns after packet 0, after gapped read 1 and before linear read 1. By gapped
/// read 1 one packet had come. Packet 1 is late for type N only.
pub fn late_by_hand()
    ensures narrow { is_empty hd_50 20 linear_two N 1 ≡ true }
    ensures linear { is_empty hd_50 20 linear_two NL 1 ≡ false }
    ensures wide { is_empty hd_50 20 linear_two W 1 ≡ false }
    ensures count { arrived_by_read hd_50 20 linear_two N 1 ≡ 1 }
    ensures count_linear { arrived_by_read hd_50 20 linear_two NL 1 ≡ 2 }
    ensures count_wide { arrived_by_read hd_50 20 linear_two W 1 ≡ 2 }
{}

/// With one packet per frame, reads are counted on from the frame of packet 0. If packet 1 comes 444 4/9 ns before the
/// read of the next frame, one packet is held; if it comes 555 5/9 ns after that read, it is late, and none is held.
pub fn next_frame_by_hand()
    ensures held { held_at hd_50 1 (764000 ∷ 20764000 ∷ []) true 1 ≡ 1 }
    ensures in_time { is_empty hd_50 1 (764000 ∷ 20764000 ∷ []) N 1 ≡ false }
    ensures late { is_empty hd_50 1 (764000 ∷ 20765000 ∷ []) N 1 ≡ true }
    ensures none { held_at hd_50 1 (764000 ∷ 20765000 ∷ []) true 1 ≡ 0 }
    ensures count { arrived_by_read hd_50 1 (764000 ∷ 20765000 ∷ []) N 1 ≡ 1 }
{}

/// Occupancy of the virtual receiver buffer for the linear sender. At the instant of gapped read 1 one packet has come
/// and two reads are due, so the buffer underflows by one packet; just before, it doesn't. At the instant of packet 1
/// the buffer doesn't underflow, and just before it underflows by one.
pub fn held_by_hand()
    ensures at_read { held_of hd_50 20 linear_two true (scaled (pos 14400000000015520000) (1, 9))
        ≡ negsuc 0 }
    ensures before_read { held_of hd_50 20 linear_two true
        (scaled (pos 14400000000015519999) (1, 9)) ≡ pos 0 }
    ensures at_packet { held_of hd_50 20 linear_two true (whole 1600000000001764000) ≡ pos 0 }
    ensures before_packet { held_of hd_50 20 linear_two true (whole 1600000000001763999)
        ≡ negsuc 0 }
    ensures linear { held_of hd_50 20 linear_two false (whole 1600000000001764000) ≡ pos 1 }
{}

/// At the instant of gapped read 1 two reads are due. At packet 0 none is: read 0 is 444 4/9 ns later.
pub fn due_by_hand()
    ensures none { AreDue hd_50 20 (pos 80000000000) true (whole 1600000000000764000) 0 }
    ensures two { AreDue hd_50 20 (pos 80000000000) true
        (scaled (pos 14400000000015520000) (1, 9)) 2 }
    ensures fewer { AreDue hd_50 20 (pos 80000000000) true
        (scaled (pos 14400000000015520000) (1, 9)) 1 → ⊥ }
    ensures more { AreDue hd_50 20 (pos 80000000000) true
        (scaled (pos 14400000000015520000) (1, 9)) 3 → ⊥ }
{}

/// 576 lines, interlaced, at 25 with 10 packets per field: read 0 is at 1,664,000 ns. A packet at that instant isn't
/// late; a packet one nanosecond later is.
pub fn on_its_read_by_hand()
    ensures due { AreDue sd_25_interlaced 10 (pos 0) true (whole 1664000) 1 }
    ensures in_time { is_empty sd_25_interlaced 10 (1664000 ∷ []) N 0 ≡ false }
    ensures late { is_empty sd_25_interlaced 10 (1664001 ∷ []) N 0 ≡ true }
    ensures held { held_of sd_25_interlaced 10 (1664000 ∷ []) true (whole 1664000) ≡ pos 0 }
    ensures lacks { held_of sd_25_interlaced 10 (1664001 ∷ []) true (whole 1664000) ≡ negsuc 0 }
    ensures passes { Confirms sd_25_interlaced 10 (1664000 ∷ []) N (fail Empty 0 0 1 1) → ⊥ }
    ensures fails { Confirms sd_25_interlaced 10 (1664001 ∷ []) N (fail Empty 0 0 0 1) }
{}

/// 1080p at 50 with 20 packets per frame; C_MAX is 4 for N and NL, and 16 for W. Five packets at once violate the
/// bucket of N, also if they come after another packet. Four packets at once don't.
pub fn bucket_by_hand()
    ensures four { KeepsBucket hd_50 20 (at_once 4) N }
    ensures five { KeepsBucket hd_50 20 (at_once 5) N → ⊥ }
    ensures wide { KeepsBucket hd_50 20 (at_once 5) W }
    ensures later { KeepsBucket hd_50 20 (7 ∷ replicate 5 2000007) N → ⊥ }
{}

/// VRX_FULL of N and NL is 8: nine packets at once overflow the buffer, eight don't, and nine don't for W. Just after
/// packet 9, which comes between gapped and linear read 1, the buffer holds eight packets with the gapped reads and
/// nine with the linear ones. The linear sender's buffer underflows at gapped read 1.
pub fn buffer_by_hand()
    ensures held { held_at hd_50 20 (at_once 9) true 8 ≡ 9 }
    ensures over { is_over hd_50 20 (at_once 9) N 8 ≡ true }
    ensures full { is_over hd_50 20 (at_once 9) N 7 ≡ false }
    ensures wide { is_over hd_50 20 (at_once 9) W 8 ≡ false }
    ensures gapped { is_over hd_50 20 (1600000000000764000 ∷ replicate 9 1600000000001764000) N 9 ≡ false }
    ensures linear { is_over hd_50 20 (1600000000000764000 ∷ replicate 9 1600000000001764000) NL 9 ≡ true }
    ensures less_reads { held_at hd_50 20 linear_two true 1 ≡ 0 }
    ensures eight { KeepsBuffer hd_50 20 (at_once 8) N }
    ensures nine { KeepsBuffer hd_50 20 (at_once 9) N → ⊥ }
    ensures late { KeepsBuffer hd_50 20 linear_two N → ⊥ }
{}

/// For type N, four packets at once keep both limits, five at once violate the bucket, and a linear sender violates the
/// buffer.
pub fn keeps_by_hand()
    ensures four { Keeps hd_50 20 (at_once 4) N }
    ensures five { Keeps hd_50 20 (at_once 5) N → ⊥ }
    ensures linear { Keeps hd_50 20 linear_two N → ⊥ }
{}

/// For one model and one interval, a confirmed violation has only one count and one limit.
pub fn confirmed_once()
    ensures count { (m : Media) (n : ℕ) (stamps : List ℕ) (kind : Kind) (f g : FailProof)
        → Confirms m n stamps kind f → Confirms m n stamps kind g → f.model ≡ g.model
        → f.from ≡ g.from → f.to ≡ g.to → f.count ≡ g.count }
    ensures limit { (m : Media) (n : ℕ) (stamps : List ℕ) (kind : Kind) (f g : FailProof)
        → Confirms m n stamps kind f → Confirms m n stamps kind g → f.model ≡ g.model
        → f.from ≡ g.from → f.to ≡ g.to → f.limit ≡ g.limit }
{}

/// A violation of the bucket is confirmed only with the right interval, count and limit.
pub fn bucket_fails_by_hand()
    ensures five { Confirms hd_50 20 (at_once 5) N (fail Bucket 0 4 5 4) }
    ensures to { Confirms hd_50 20 (at_once 5) N (fail Bucket 0 3 5 4) → ⊥ }
    ensures from { Confirms hd_50 20 (at_once 5) N (fail Bucket 1 4 5 4) → ⊥ }
    ensures beyond { Confirms hd_50 20 (at_once 5) N (fail Bucket 0 5 6 4) → ⊥ }
    ensures limit { Confirms hd_50 20 (at_once 5) N (fail Bucket 0 4 5 3) → ⊥ }
    ensures wide { Confirms hd_50 20 (at_once 5) W (fail Bucket 0 4 5 4) → ⊥ }
    ensures four { Confirms hd_50 20 (at_once 5) N (fail Bucket 0 3 4 4) → ⊥ }
    ensures six { Confirms hd_50 20 (at_once 6) N (fail Bucket 0 5 6 4) }
    ensures less_count { Confirms hd_50 20 (at_once 6) N (fail Bucket 0 5 5 4) → ⊥ }
    ensures more_limit { Confirms hd_50 20 (at_once 6) N (fail Bucket 0 5 6 5) → ⊥ }
{}

/// Violations of the buffer: nine packets at once, and packet 1 of the linear sender. By the gapped read of packet 1,
/// one packet had come.
pub fn buffer_fails_by_hand()
    ensures over { Confirms hd_50 20 (at_once 9) N (fail Over 0 8 9 8) }
    ensures over_from { Confirms hd_50 20 (at_once 9) N (fail Over 1 8 9 8) → ⊥ }
    ensures full { Confirms hd_50 20 (at_once 9) N (fail Over 0 7 8 8) → ⊥ }
    ensures over_limit { Confirms hd_50 20 (at_once 9) N (fail Over 0 7 8 7) → ⊥ }
    ensures over_more_limit { Confirms hd_50 20 (at_once 10) N (fail Over 0 9 10 9) → ⊥ }
    ensures over_count { Confirms hd_50 20 (at_once 10) N (fail Over 0 9 9 8) → ⊥ }
    ensures over_beyond { Confirms hd_50 20 (at_once 9) N (fail Over 0 9 10 8) → ⊥ }
    ensures empty { Confirms hd_50 20 linear_two N (fail Empty 1 1 1 2) }
    ensures empty_from { Confirms hd_50 20 linear_two N (fail Empty 0 1 1 2) → ⊥ }
    ensures empty_count { Confirms hd_50 20 linear_two N (fail Empty 1 1 0 2) → ⊥ }
    ensures empty_limit { Confirms hd_50 20 linear_two N (fail Empty 1 1 1 3) → ⊥ }
    ensures empty_beyond { Confirms hd_50 20 linear_two N (fail Empty 2 2 2 3) → ⊥ }
    ensures in_time { Confirms hd_50 20 linear_two N (fail Empty 0 0 1 1) → ⊥ }
    ensures linear { Confirms hd_50 20 linear_two NL (fail Empty 1 1 1 2) → ⊥ }
{}

/// Two packets at once, after gapped reads 0 and 1: by read 1 neither had come.
pub fn two_late_by_hand()
    ensures none { Confirms hd_50 20 (replicate 2 1600000000001764000) N (fail Empty 1 1 0 2) }
    ensures more_count { Confirms hd_50 20 (replicate 2 1600000000001764000) N (fail Empty 1 1 1 2) → ⊥ }
    ensures less_limit { Confirms hd_50 20 (replicate 2 1600000000001764000) N (fail Empty 1 1 0 1) → ⊥ }
{}
