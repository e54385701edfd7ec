//! Examples of JSON reports that are worked by hand, and the law that a report is read back. Each function is a
//! theorem: it does nothing, and its clauses are proved.

ghost use Rattle.std.specs.Prelude.{◌≡◌, ◌≤◌, ◌++◌, ◌∷◌, [], List, All, IsUtf8, length, None, true, codes};
ghost use Rattle.serde_json.specs.Written.{compact_text};
ghost use Rattle.timing_base.specs.Jobs.{CheckJob, IsCheckJob};
ghost use Rattle.timing_base.specs.Media.{Media, IsMedia, IsSession};
ghost use Rattle.timing_base.specs.declared.capture.FileNote.{FileNote};
ghost use Rattle.timing_base.specs.declared.row.Row.{Row};
ghost use Rattle.timing_base.specs.declared.capture.FileNote.TheVariants as note;
ghost use Rattle.timing_base.specs.declared.fail.Broken.TheVariants as model;
ghost use Rattle.timing_base.specs.declared.media.Kind.TheVariants as kind;
ghost use Rattle.timing_base.specs.declared.packet.PacketFault.TheVariants as packet;
ghost use Rattle.timing_base.specs.declared.row.KindVerdict.TheVariants as kind_verdict;
ghost use Rattle.timing_base.specs.declared.row.Unjudged.TheVariants as unjudged;
ghost use Rattle.timing_base.specs.declared.row.Verdict.TheVariants as verdict;
ghost use Rattle.timing_report.specs.Outcomes.{AreRowsOf};
ghost use Rattle.timing_report.specs.json_report.Fails.{FitsVerdict, fails_of};
ghost use Rattle.timing_report.specs.json_report.Reading.{IsReport};
ghost use Rattle.timing_report.specs.Worked.{check_of, fail, first_flow, narrow, two_frames, two_runs};
ghost use Rattle.timing_base.specs.Examples.{plain_media as plain, video};
ghost use Rattle.timing_report.specs.json_report.Json.{file_data, flow_data, json_text, object_of, type_data, unjudged_members};

/// The JSON of a sender type that fails.
#[tactic(auto, unfolding(crate::proofs::lemmas::json_report::Numerals::json_texts))]
pub fn failing_type_by_hand()
    ensures { compact_text (type_data plain (two_frames 1 1 1 (fail model.Empty 1 1 1 2)
        kind_verdict.Pass kind_verdict.Pass) kind.N)
        ≡ codes "{\"bucket_limit\":4,\"bucket_peak\":1,\"buffer_limit\":8,\"buffer_peak\":1,"
        ++ (codes "\"pass\":false,\"proof\":{\"count\":1,\"from\":1,\"limit\":2,\"model\":"
        ++ codes "\"Empty\",\"to\":1},\"type\":\"N\"}") }
{}

/// A whole JSON report, of a capture without packets.
#[tactic(auto, unfolding(crate::proofs::lemmas::json_report::Numerals::json_texts))]
pub fn json_absent_by_hand()
    ensures { json_text (check_of (codes "e.pcap")) (plain ∷ []) (note.End ∷ [])
        (first_flow (verdict.Unjudged unjudged.Absent) ∷ [])
        ≡ codes "{\"files\":[{\"end\":\"end\",\"name\":\"e.pcap\"}],\"flows\":[{\"file\":1,"
        ++ (codes "\"media\":1,\"target\":\"239.0.0.1:50000\",\"verdict\":\"absent\"}],"
        ++ codes "\"status\":4}\n") }
{}

/// The JSON of flows that were not judged.
#[tactic(auto, unfolding(crate::proofs::lemmas::json_report::Numerals::json_texts))]
pub fn unjudged_json_by_hand()
    ensures no_frame { compact_text (object_of (unjudged_members (unjudged.NoWholeFrame 5)))
        ≡ codes "{\"head\":5,\"verdict\":\"no whole frame\"}" }
    ensures refused { compact_text (object_of (unjudged_members
        (unjudged.Refused 40 (packet.FrameSize 20 19))))
        ≡ codes "{\"fault\":\"FrameSize want 20 got 19\",\"record\":40,\"verdict\":\"refused\"}" }
    ensures gap { compact_text (object_of (unjudged_members (unjudged.Gap 1026 2049 2050)))
        ≡ codes "{\"expected\":2049,\"got\":2050,\"record\":1026,\"verdict\":\"gap\"}" }
{}

/// File names with quotes and backslashes in JSON.
#[tactic(auto, unfolding(crate::proofs::lemmas::json_report::Numerals::json_texts))]
pub fn names_by_hand()
    ensures { compact_text (file_data (codes "a \"b\" \\ c") (note.Cut 2904))
        ≡ codes "{\"end\":\"cut at 2904\",\"name\":\"a \\\"b\\\" \\\\ c\"}" }
{}

/// The JSON of an interlaced flow with two runs. Its keys and those of its runs are in byte order.
#[tactic(auto, unfolding(crate::proofs::lemmas::json_report::Numerals::json_texts))]
pub fn runs_json_by_hand()
    ensures { compact_text (flow_data (video true 25 None None) (first_flow
        (two_runs (record narrow { n = 10; packets = 20; tail = 3; gapped_peak = 0 }) 25)))
        ≡ codes "{\"file\":1,\"media\":1,\"runs\":[{\"class\":\"narrow\",\"declared\":\"none\","
        ++ (codes "\"frames\":2,\"head\":1,\"interlaced\":true,\"n\":10,\"number\":2,"
        ++ (codes "\"packets\":20,\"record\":1,\"tail\":3,\"types\":["
        ++ (codes "{\"bucket_limit\":4,\"bucket_peak\":1,\"buffer_limit\":8,\"buffer_peak\":0,"
        ++ (codes "\"pass\":true,\"type\":\"N\"},"
        ++ (codes "{\"bucket_limit\":4,\"bucket_peak\":1,\"buffer_limit\":8,\"buffer_peak\":1,"
        ++ (codes "\"pass\":true,\"type\":\"NL\"},"
        ++ (codes "{\"bucket_limit\":16,\"bucket_peak\":1,\"buffer_limit\":720,\"buffer_peak\":1,"
        ++ (codes "\"pass\":true,\"type\":\"W\"}],\"verdict\":\"judged\"},"
        ++ (codes "{\"expected\":26,\"head\":9,\"number\":27,\"record\":25,"
        ++ (codes "\"verdict\":\"no whole frame\"}],"
        ++ codes "\"target\":\"239.0.0.1:50000\",\"verdict\":\"runs\"}")))))))))) }
{}

/// A JSON report that the program writes is read back as the violations of its flows, in their order, if it is not
/// longer than 16,777,216 bytes. The numbers of the results have 64 bits, as all in the program have.
pub fn fails_are_read_back()
    ensures { (job : CheckJob) (session : List Media) (notes : List FileNote) (rows : List Row)
        → IsCheckJob job → IsSession session → All IsMedia session → AreRowsOf job session rows
        → All (λ row. FitsVerdict row.verdict) rows → All IsUtf8 job.captures
        → length (json_text job session notes rows) ≤ 16777216
        → IsReport (json_text job session notes rows) (fails_of rows) }
{}
