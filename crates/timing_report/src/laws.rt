//! Texts and statuses that are worked by hand, and a law. Each function is a theorem: it does nothing, and its clauses
//! are proved.

ghost use Rattle.std.specs.Prelude.{◌≡◌, ◌<◌, ◌++◌, ◌∷◌, [], List, All, Some, None, true, false, codes};
ghost use Rattle.timing_base.specs.declared.capture.FileNote.TheVariants as note;
ghost use Rattle.timing_base.specs.declared.capture.PcapFault.TheVariants as pcap;
ghost use Rattle.timing_base.specs.declared.fail.Broken.TheVariants as model;
ghost use Rattle.timing_base.specs.declared.media.Kind.TheVariants as kind;
ghost use Rattle.timing_base.specs.declared.packet.PacketFault.TheVariants as packet;
ghost use Rattle.timing_base.specs.declared.row.KindVerdict.TheVariants as kind_verdict;
ghost use Rattle.timing_base.specs.declared.row.Unjudged.TheVariants as unjudged;
ghost use Rattle.timing_base.specs.declared.row.Verdict.TheVariants as verdict;
ghost use Rattle.timing_base.specs.Jobs.{CheckJob, IsCheckJob};
ghost use Rattle.timing_base.specs.Media.{Media};
ghost use Rattle.timing_base.specs.declared.row.Row.{Row};
ghost use Rattle.timing_report.specs.Outcomes.{AreOfSession, AreRowsOf, status_of};
ghost use Rattle.timing_report.specs.Text.{file_text, report_text, text_of_lines};
ghost use Rattle.timing_report.specs.Verdict.{judged_text, lines_below, type_text, unjudged_text};
ghost use Rattle.timing_report.specs.Worked.{check_of, fail, first_flow, narrow, second_flow, two_frames, two_runs, wide};
ghost use Rattle.timing_base.specs.Examples.{plain_media as plain, video};
ghost use Rattle.timing_report.specs.Status.{code_of, error_line};
ghost use Rattle.timing_report.specs.Words.{ssrc_text};
ghost use Rattle.timing_report.specs.declared.status.Input.TheVariants.{Sdp, Report, Capture};
ghost use Rattle.timing_report.specs.declared.status.Status.TheVariants.{Pass, Fail, Usage, SdpRefused, NotAllJudged, ReadFault, WriteFault, OutOfMemory, ReportRefused};
ghost use Rattle.sdp_reader.specs.declared.fault.SdpCause.TheVariants as cause;

/// The exit statuses.
pub fn codes_by_hand()
    ensures pass { code_of Pass ≡ 0 }
    ensures fail { code_of Fail ≡ 1 }
    ensures usage { code_of Usage ≡ 2 }
    ensures sdp_refused { code_of (SdpRefused (record { line = 11; what = cause.SameTarget })) ≡ 3 }
    ensures not_all_judged { code_of NotAllJudged ≡ 4 }
    ensures read_fault { code_of (ReadFault Sdp) ≡ 5 }
    ensures write_fault { code_of WriteFault ≡ 6 }
    ensures out_of_memory { code_of OutOfMemory ≡ 7 }
    ensures report_refused { code_of ReportRefused ≡ 9 }
{}

/// The lines on standard error. Captures count from 0 in `Input`, and from 1 in the lines.
#[tactic(auto, unfolding(crate::proofs::Numerals::numerals))]
pub fn lines_by_hand()
    ensures usage { error_line Usage ≡ codes "usage: check, verify, verify-report or selftest\n" }
    ensures sdp_refused { error_line (SdpRefused (record { line = 11; what = cause.SameTarget }))
        ≡ codes "sdp refused: line 11 SameTarget\n" }
    ensures no_line { error_line (SdpRefused (record { line = 0; what = cause.NoVideo }))
        ≡ codes "sdp refused: line 0 NoVideo\n" }
    ensures sdp { error_line (ReadFault Sdp) ≡ codes "read fault: sdp\n" }
    ensures report { error_line (ReadFault Report) ≡ codes "read fault: report\n" }
    ensures first { error_line (ReadFault (Capture 0)) ≡ codes "read fault: capture 1\n" }
    ensures last { error_line (ReadFault (Capture 15)) ≡ codes "read fault: capture 16\n" }
    ensures write_fault { error_line WriteFault ≡ codes "write fault\n" }
    ensures out_of_memory { error_line OutOfMemory ≡ codes "out of memory\n" }
    ensures report_refused { error_line ReportRefused ≡ codes "report refused\n" }
{}

/// An SSRC in hexadecimal.
#[tactic(auto, unfolding(crate::proofs::Numerals::padded_numerals))]
pub fn ssrc_by_hand()
    ensures one { ssrc_text 1 ≡ codes "00000001" }
    ensures letters { ssrc_text 0xdeadbe0f ≡ codes "deadbe0f" }
{}

/// With the statuses 0, 1 and 4 nothing is printed on standard error.
pub fn no_lines_by_hand()
    ensures pass { error_line Pass ≡ [] }
    ensures fail { error_line Fail ≡ [] }
    ensures not_all_judged { error_line NotAllJudged ≡ [] }
{}

/// A whole report: two frames of 20 packets, each packet alone in the bucket and in the buffer.
#[tactic(auto, unfolding(crate::proofs::Numerals::numerals))]
pub fn plain_narrow_by_hand()
    ensures { report_text (check_of (codes "a.pcap")) (plain ∷ []) (note.End ∷ [])
        (first_flow (verdict.Judged narrow) ∷ [])
        ≡ codes "ST 2110-21 timing report\nfile 1 end a.pcap\n"
        ++ (codes "flow 1.1 239.0.0.1:50000 judged: 20 per frame, 2 frames, 40 packets, "
        ++ (codes "head 1, tail 0, class narrow, declared N\n"
        ++ (codes "  N pass, bucket 1 of 4, buffer 1 of 8\n"
        ++ (codes "  NL pass, bucket 1 of 4, buffer 1 of 8\n"
        ++ codes "  W pass, bucket 1 of 16, buffer 1 of 720\nstatus 0\n")))) }
{}

/// The lines of captures. Captures count from 0 in the arguments, and from 1 in the lines.
#[tactic(auto, unfolding(crate::proofs::Numerals::numerals))]
pub fn files_by_hand()
    ensures end { file_text 0 note.End (codes "a.pcap") ≡ codes "file 1 end a.pcap" }
    ensures cut { file_text 0 (note.Cut 2904) (codes "a.pcap")
        ≡ codes "file 1 cut at 2904 a.pcap" }
    ensures magic { file_text 15 (note.Refused pcap.BadMagic) (codes "x")
        ≡ codes "file 16 refused BadMagic x" }
    ensures version { file_text 0 (note.Refused pcap.BadVersion) (codes "x")
        ≡ codes "file 1 refused BadVersion x" }
    ensures link { file_text 0 (note.Refused pcap.BadLink) (codes "x")
        ≡ codes "file 1 refused BadLink x" }
    ensures stamp { file_text 0 (note.Refused (pcap.BadStamp 1)) (codes "x")
        ≡ codes "file 1 refused BadStamp at record 1 x" }
    ensures len { file_text 0 (note.Refused (pcap.BadLength 1)) (codes "x")
        ≡ codes "file 1 refused BadLength at record 1 x" }
    ensures long { file_text 0 (note.Refused pcap.TooLong) (codes "x")
        ≡ codes "file 1 refused TooLong x" }
{}

/// Flows that were not judged.
#[tactic(auto, unfolding(crate::proofs::Numerals::numerals))]
pub fn unjudged_by_hand()
    ensures absent { unjudged_text unjudged.Absent ≡ codes "absent" }
    ensures no_frame { unjudged_text (unjudged.NoWholeFrame 5) ≡ codes "no whole frame, head 5" }
    ensures gap { unjudged_text (unjudged.Gap 1026 2049 2050)
        ≡ codes "gap at record 1026: expected 2049, got 2050" }
    ensures short { unjudged_text (unjudged.Refused 1 packet.Short)
        ≡ codes "refused at record 1: Short" }
    ensures version { unjudged_text (unjudged.Refused 1 packet.Version)
        ≡ codes "refused at record 1: Version" }
    ensures payload { unjudged_text (unjudged.Refused 1 packet.PayloadType)
        ≡ codes "refused at record 1: PayloadType" }
    ensures source { unjudged_text (unjudged.Refused 2 packet.SecondSource)
        ≡ codes "refused at record 2: SecondSource" }
    ensures back { unjudged_text (unjudged.Refused 2
        (packet.StampBack 1599999999999000000 1599999999998999999))
        ≡ codes "refused at record 2: StampBack before 1599999999999000000 "
        ++ codes "got 1599999999998999999" }
    ensures marker { unjudged_text (unjudged.Refused 3 packet.NoMarker)
        ≡ codes "refused at record 3: NoMarker" }
    ensures same { unjudged_text (unjudged.Refused 3 packet.SameStamp)
        ≡ codes "refused at record 3: SameStamp" }
    ensures size { unjudged_text (unjudged.Refused 40 (packet.FrameSize 20 19))
        ≡ codes "refused at record 40: FrameSize want 20 got 19" }
    ensures large { unjudged_text (unjudged.Refused 262146 packet.FrameTooLarge)
        ≡ codes "refused at record 262146: FrameTooLarge" }
{}

/// Sender types: one too late for the gapped reads, five packets at once, and a C_MAX that the SDP gives for the
/// declared type alone.
#[tactic(auto, unfolding(crate::proofs::Numerals::numerals))]
pub fn types_by_hand()
    ensures late { type_text plain (two_frames 1 1 1 (fail model.Empty 1 1 1 2)
        kind_verdict.Pass kind_verdict.Pass) kind.N
        ≡ codes "N fail Empty 1 to 1 count 1 limit 2, bucket 1 of 4, buffer 1 of 8" }
    ensures five { type_text plain (two_frames 5 5 5 (fail model.Bucket 0 4 5 4)
        (fail model.Bucket 0 4 5 4) kind_verdict.Pass) kind.NL
        ≡ codes "NL fail Bucket 0 to 4 count 5 limit 4, bucket 5 of 4, buffer 5 of 8" }
    ensures wide { type_text plain (two_frames 5 5 5 (fail model.Bucket 0 4 5 4)
        (fail model.Bucket 0 4 5 4) kind_verdict.Pass) kind.W
        ≡ codes "W pass, bucket 5 of 16, buffer 5 of 720" }
    ensures over { type_text plain (two_frames 1 1 174 kind_verdict.Pass
        (fail model.Over 0 219 10 9) kind_verdict.Pass) kind.NL
        ≡ codes "NL fail Over 0 to 219 count 10 limit 9, bucket 1 of 4, buffer 174 of 8" }
    ensures declared { type_text (video false 50 (Some kind.N) (Some 1)) (two_frames 2 2 2
        (fail model.Bucket 0 1 2 1) kind_verdict.Pass kind_verdict.Pass) kind.N
        ≡ codes "N fail Bucket 0 to 1 count 2 limit 1, bucket 2 of 1, buffer 2 of 8" }
    ensures others { type_text (video false 50 (Some kind.N) (Some 1)) (two_frames 2 2 2
        (fail model.Bucket 0 1 2 1) kind_verdict.Pass kind_verdict.Pass) kind.NL
        ≡ codes "NL pass, bucket 2 of 4, buffer 2 of 8" }

    // The peak with the gapped reads counts for N alone.
    ensures peak_of_n { type_text plain (two_frames 1 0 1 kind_verdict.Pass
        kind_verdict.Pass kind_verdict.Pass) kind.N ≡ codes "N pass, bucket 1 of 4, buffer 0 of 8" }
    ensures peak_of_w { type_text plain (two_frames 1 0 1 kind_verdict.Pass
        kind_verdict.Pass kind_verdict.Pass) kind.W
        ≡ codes "W pass, bucket 1 of 16, buffer 1 of 720" }
{}

/// The line of a judged flow: its class, the declared type, and fields instead of frames.
#[tactic(auto, unfolding(crate::proofs::Numerals::numerals))]
pub fn judged_by_hand()
    ensures linear { judged_text plain (two_frames 1 1 1 (fail model.Empty 1 1 1 2)
        kind_verdict.Pass kind_verdict.Pass)
        ≡ codes "judged: 20 per frame, 2 frames, 40 packets, head 1, tail 0, "
        ++ codes "class narrow linear, declared N" }
    ensures wide { judged_text (video false 50 (Some kind.W) None) (two_frames 5 5 5
        (fail model.Bucket 20 24 5 4) (fail model.Bucket 20 24 5 4) kind_verdict.Pass)
        ≡ codes "judged: 20 per frame, 2 frames, 40 packets, head 1, tail 0, "
        ++ codes "class wide, declared W" }
    ensures none { judged_text (video false 50 None None) (two_frames 1 1 1
        (fail model.Empty 0 0 0 1) (fail model.Empty 0 0 0 1) (fail model.Empty 0 0 0 1))
        ≡ codes "judged: 20 per frame, 2 frames, 40 packets, head 1, tail 0, "
        ++ codes "class none, declared none" }
    ensures linear_declared { judged_text (video false 50 (Some kind.NL) None) narrow
        ≡ codes "judged: 20 per frame, 2 frames, 40 packets, head 1, tail 0, "
        ++ codes "class narrow, declared NL" }
    ensures fields { judged_text (video true 25 (Some kind.N) None)
        (record narrow { n = 10; frames = 4 })
        ≡ codes "judged: 10 per field, 4 fields, 40 packets, head 1, tail 0, "
        ++ codes "class narrow, declared N" }
{}

/// The lines below the line of a flow with two runs. Runs count from 1 there.
#[tactic(auto, unfolding(crate::proofs::Numerals::numerals))]
pub fn two_runs_by_hand()
    ensures { text_of_lines (lines_below plain
        (two_runs (record narrow { frames = 1; packets = 20; tail = 10 }) 32))
        ≡ codes "  run 1 from record 1 number 2: judged: 20 per frame, 1 frames, 20 packets, "
        ++ (codes "head 1, tail 10, class narrow, declared N\n"
        ++ (codes "    N pass, bucket 1 of 4, buffer 1 of 8\n"
        ++ (codes "    NL pass, bucket 1 of 4, buffer 1 of 8\n"
        ++ (codes "    W pass, bucket 1 of 16, buffer 1 of 720\n"
        ++ codes "  run 2 from record 32 number 34 expected 33: no whole frame, head 9\n")))) }
{}

/// The status of a report: by the declared type, or if none is declared, by any type.
pub fn statuses_by_hand()
    ensures passes { status_of (plain ∷ []) (note.End ∷ [])
        (first_flow (verdict.Judged narrow) ∷ []) ≡ Pass }
    ensures fails { status_of (plain ∷ []) (note.End ∷ []) (first_flow (verdict.Judged (two_frames
        1 1 1 (fail model.Empty 1 1 1 2) kind_verdict.Pass kind_verdict.Pass)) ∷ []) ≡ Fail }
    ensures other_declared { status_of (video false 50 (Some kind.W) None ∷ []) (note.End ∷ [])
        (first_flow (verdict.Judged (two_frames 5 5 5 (fail model.Bucket 20 24 5 4)
        (fail model.Bucket 20 24 5 4) kind_verdict.Pass)) ∷ []) ≡ Pass }
    ensures none_declared { status_of (video false 50 None None ∷ []) (note.End ∷ [])
        (first_flow (verdict.Judged (two_frames 5 5 5 (fail model.Bucket 20 24 5 4)
        (fail model.Bucket 20 24 5 4) kind_verdict.Pass)) ∷ []) ≡ Pass }
    ensures all_fail { status_of (video false 50 None None ∷ []) (note.End ∷ [])
        (first_flow (verdict.Judged (two_frames 1 1 1 (fail model.Empty 0 0 0 1)
        (fail model.Empty 0 0 0 1) (fail model.Empty 0 0 0 1))) ∷ []) ≡ Fail }
    ensures cut { status_of (plain ∷ []) (note.Cut 2904 ∷ [])
        (first_flow (verdict.Judged narrow) ∷ []) ≡ Pass }
    ensures refused { status_of (plain ∷ []) (note.Refused (pcap.BadStamp 42) ∷ [])
        (first_flow (verdict.Judged narrow) ∷ []) ≡ NotAllJudged }
    ensures absent { status_of (plain ∷ []) (note.End ∷ [])
        (first_flow (verdict.Unjudged unjudged.Absent) ∷ []) ≡ NotAllJudged }
    ensures in_runs { status_of (plain ∷ []) (note.End ∷ [])
        (first_flow (verdict.Runs []) ∷ []) ≡ NotAllJudged }

    // Each flow counts by the type that its own media declares. The second flow passes as W alone, which its media
    // declares. The first media declares N, which that flow would fail.
    ensures each_by_its_own { status_of (plain ∷ video false 50 (Some kind.W) None ∷ []) (note.End ∷ [])
        (first_flow (verdict.Judged narrow) ∷ second_flow (verdict.Judged wide) ∷ []) ≡ Pass }
    ensures not_by_the_others { status_of (plain ∷ video false 50 (Some kind.W) None ∷ []) (note.End ∷ [])
        (first_flow (verdict.Judged wide) ∷ second_flow (verdict.Judged narrow) ∷ []) ≡ Fail }

    // The first capture is read to its end, and the second is refused.
    ensures second_refused { status_of (plain ∷ []) (note.End ∷ note.Refused (pcap.BadStamp 42) ∷ [])
        (first_flow (verdict.Judged narrow) ∷ []) ≡ NotAllJudged }

    // A flow that was not judged decides the status even if another flow fails.
    ensures both { status_of (plain ∷ []) (note.End ∷ []) (first_flow (verdict.Judged (two_frames
        1 1 1 (fail model.Empty 1 1 1 2) kind_verdict.Pass kind_verdict.Pass))
        ∷ first_flow (verdict.Unjudged unjudged.Absent) ∷ []) ≡ NotAllJudged }
{}

/// Every result of a job is of one of its captures, at most 16, and of a media of its session.
pub fn rows_are_of_session()
    ensures { (job : CheckJob) (session : List Media) (rows : List Row)
        → IsCheckJob job → AreRowsOf job session rows
        → All (λ row. row.key.file < 16) rows × AreOfSession session rows }
{}
