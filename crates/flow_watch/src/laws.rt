//! Theorems about the definitions. Each function does nothing: its clauses are what is proved.

ghost use Rattle.std.specs.Prelude.{◌≡◌, ◌↔◌, ◌++◌, ◌*◌, ℕ, List, codes, false, true, slice_index_or};
ghost use Rattle.timing_base.specs.Judged.{stamp_of};
ghost use Rattle.timing_base.specs.Shifts.{Shift};
ghost use Rattle.timing_base.specs.Media.{Media};
ghost use Rattle.timing_base.specs.Verdicts.{Judged};
ghost use Rattle.timing_base.specs.declared.packet.FlowPacket.{FlowPacket};
ghost use Rattle.timing_base.specs.declared.packet.PacketFault.TheVariants as fault;
ghost use Rattle.timing_base.specs.declared.row.KindVerdict.TheVariants as kind_verdict;
ghost use Rattle.timing_base.specs.declared.row.Unjudged.TheVariants as unjudged;
ghost use Rattle.sender_params.specs.Worked.{hd_25_interlaced, hd_50, hd_59_94};
ghost use Rattle.run_meter.specs.Runs.{IsJudgedOf, RunOf, stamps_of};
ghost use Rattle.flow_watch.specs.Lines.{gap_line, refused_line, stretch_line, waiting_line};
ghost use Rattle.flow_watch.specs.Stretches.{IsStretch};
ghost use Rattle.flow_watch.specs.Watched.{per_second};
ghost use Rattle.flow_watch.specs.Worked.{burst_frame, first_media, hundred, late_fields, nine_missing, plain_frame, second_media};
ghost use Rattle.flow_watch.specs.declared.stretch.Stretch.{Stretch};

/// The lines of stretches as text. The plain sender's packets come 960,000 ns apart, each 444 4/9 ns before its read:
/// bucket and buffers hold one packet. With five packets at one instant they hold five, which is more than C_MAX of N
/// and NL.
pub fn lines_by_hand()
    ensures plain { stretch_line (first_media false) plain_frame
        ≡ codes "1 run 1 frames 1 to 1 at 1600000000.019004000 bucket 1 of 4 4 16 gapped 1 to 1 late 0 "
        ++ codes "linear 1 to 1 late 0 N broken 0 NL broken 0 W broken 0\n" }
    ensures burst { stretch_line (first_media false) burst_frame
        ≡ codes "1 run 1 frames 2 to 2 at 1600000000.039004000 bucket 5 of 4 4 16 gapped 1 to 5 late 0 "
        ++ codes "linear 1 to 5 late 0 N broken 1 NL broken 1 W broken 0\n" }
    ensures fields { stretch_line (second_media false) late_fields
        ≡ codes "2 run 12 fields 3 to 52 at 37.000000001 bucket 3 of 4 4 16 gapped -2 to 0 late 7 "
        ++ codes "linear 1 to 1 late 0 N broken 5 NL broken 0 W broken 0\n" }
{}

/// The lines of a gap, of a wait, and of a flow that isn't judged any more.
pub fn events_by_hand()
    ensures gap { gap_line (first_media false) nine_missing ≡ codes "1 gap at record 41 expected 31 got 40\n" }
    ensures waiting { waiting_line (second_media false) hundred
        ≡ codes "2 waiting for a marker, 100 packets since record 3\n" }
    ensures refused { refused_line (first_media false) hd_50 (unjudged.Refused 7 fault.NoMarker)
        ≡ codes "1 refused at record 7: NoMarker\n" }
    ensures gaps { refused_line (first_media false) hd_50 (unjudged.Gap 9 5 8)
        ≡ codes "1 gap at record 9: expected 5, got 8\n" }
{}

/// The same lines as JSON.
pub fn objects_by_hand()
    ensures plain { stretch_line (first_media true) plain_frame
        ≡ codes "{\"broken\":{\"N\":0,\"NL\":0,\"W\":0},\"bucket\":1,\"c_max\":[4,4,16],\"event\":\"frames\",\"from\":1,"
        ++ (codes "\"gapped\":{\"greatest\":1,\"late\":0,\"least\":1},\"interlaced\":false,"
        ++ (codes "\"linear\":{\"greatest\":1,\"late\":0,\"least\":1},\"media\":1,\"run\":1,"
        ++ codes "\"stamp\":1600000000019004000,\"to\":1}\n")) }
    ensures gap { gap_line (first_media true) nine_missing
        ≡ codes "{\"event\":\"gap\",\"expected\":31,\"got\":40,\"media\":1,\"record\":41}\n" }
    ensures waiting { waiting_line (second_media true) hundred
        ≡ codes "{\"event\":\"waiting\",\"media\":2,\"packets\":100,\"record\":3}\n" }
    ensures refused { refused_line (first_media true) hd_50 (unjudged.Refused 7 fault.NoMarker)
        ≡ codes "{\"event\":\"refused\",\"fault\":\"NoMarker\",\"media\":1,\"record\":7,\"verdict\":\"refused\"}\n" }
{}

/// The frames or fields of one second: 50 frames at 50 frames per second, 60 at 60000/1001, and 50 fields at 25.
pub fn seconds_by_hand()
    ensures hd { per_second hd_50 ≡ 50 }
    ensures fraction { per_second hd_59_94 ≡ 60 }
    ensures fields { per_second hd_25_interlaced ≡ 50 }
{}

/// The counts of broken frames or fields of a stretch are 0 exactly for the types that pass, if the run ends with the
/// stretch.
pub fn zero_is_pass()
    ensures narrow { (m : Media) (shift : Shift) (r : RunOf) (packets : List FlowPacket) (values : Judged) (from : ℕ)
        (s : Stretch) → IsJudgedOf m shift r packets values
        → IsStretch m r.number r.n (stamps_of shift packets) from values.frames s
        → ((s.broken.narrow ≡ 0) ↔ (slice_index_or values.kinds 0 kind_verdict.Pass ≡ kind_verdict.Pass)) }
    ensures narrow_linear { (m : Media) (shift : Shift) (r : RunOf) (packets : List FlowPacket) (values : Judged)
        (from : ℕ) (s : Stretch) → IsJudgedOf m shift r packets values
        → IsStretch m r.number r.n (stamps_of shift packets) from values.frames s
        → ((s.broken.narrow_linear ≡ 0) ↔ (slice_index_or values.kinds 1 kind_verdict.Pass ≡ kind_verdict.Pass)) }
    ensures wide { (m : Media) (shift : Shift) (r : RunOf) (packets : List FlowPacket) (values : Judged) (from : ℕ)
        (s : Stretch) → IsJudgedOf m shift r packets values
        → IsStretch m r.number r.n (stamps_of shift packets) from values.frames s
        → ((s.broken.wide ≡ 0) ↔ (slice_index_or values.kinds 2 kind_verdict.Pass ≡ kind_verdict.Pass)) }
{}
