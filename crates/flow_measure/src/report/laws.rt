//! Report texts worked by hand. Each function does nothing: its clauses are what is proved.

ghost use Rattle.std.specs.Prelude.{◌≡◌, ◌^◌, ◌++◌, ◌∷◌, [], List, None, Some, codes, neg_ℤ, pos};
ghost use Rattle.timing_base.specs.Examples.{plain_media};
ghost use Rattle.timing_base.specs.declared.capture.FileNote.TheVariants as note;
ghost use Rattle.timing_base.specs.declared.media.Kind.TheVariants as kind;
ghost use Rattle.timing_report.specs.Worked.{narrow, two_runs};
ghost use Rattle.flow_measure.specs.Worked.{summary};
ghost use Rattle.flow_measure.specs.report.Examples.{absent_flow, burst_fail, burst_kind, flow_of, linear_fail, linear_kind, plain_flow, plain_group, plain_packet, plain_session, refused_flow};
ghost use Rattle.flow_measure.specs.report.Json.{flow_text, kind_text, level_text, measure_json, run_text, troff_text};
ghost use Rattle.flow_measure.specs.report.Rows.{group_row_text, packet_row_text};
ghost use Rattle.flow_measure.specs.report.Told.{ToldRun};

/// The JSON of a capture with one flow, which is judged.
#[tactic(auto, unfolding(crate::proofs::lemmas::report::Numerals::measure_texts))]
pub fn plain_json_by_hand()
    ensures { measure_json (codes "a.pcap" ∷ []) (note.End ∷ []) plain_session (plain_flow ∷ [])
        ≡ codes "{\"end\":\"end\",\"flows\":[{\"media\":1,\"packets\":41,\"runs\":["
        ++ (codes "{\"bucket\":{\"greatest\":1,\"least\":1,\"sum\":40},"
        ++ (codes "\"first\":{\"first\":764000,\"greatest\":764000,\"last\":764000,\"least\":764000,"
        ++ (codes "\"sum\":1528000,\"target\":764444},\"frames\":2,"
        ++ (codes "\"gap\":{\"classes\":[0,0,0,0,0,0,0,0,0,0,0,0,0,0,0,0,0,0,0,0,38,1],"
        ++ (codes "\"greatest\":1760000,\"least\":960000,\"sum\":38240000},"
        ++ (codes "\"gapped\":{\"greatest\":1,\"late\":0,\"least\":1,\"slack\":444,\"sum\":40},"
        ++ (codes "\"head\":1,\"interlaced\":false,"
        ++ (codes "\"last\":{\"first\":19004000,\"greatest\":19004000,\"last\":19004000,"
        ++ (codes "\"least\":19004000,\"sum\":38008000},"
        ++ (codes "\"latency\":{\"first\":-1663502020,\"greatest\":-1663502020,\"last\":-1663502020,"
        ++ (codes "\"least\":-1663502020,\"sum\":-3327004040},"
        ++ (codes "\"linear\":{\"greatest\":1,\"late\":0,\"least\":1,\"slack\":444,\"sum\":40},"
        ++ (codes "\"n\":20,\"number\":0,"
        ++ (codes "\"offset\":{\"first\":1663502088,\"greatest\":1663502088,\"last\":1663502088,"
        ++ (codes "\"least\":1663502088,\"sum\":3327004176},"
        ++ (codes "\"packets\":40,\"record\":1,\"run\":1,\"step\":{\"greatest\":1800,\"least\":1800},"
        ++ (codes "\"tail\":0,\"types\":["
        ++ (codes "{\"bucket\":{\"above\":0,\"counts\":[0,40,0,0,0],\"limit\":4,\"width\":1},"
        ++ (codes "\"buffer\":{\"above\":0,\"below\":0,\"counts\":[0,40,0,0,0,0,0,0,0],\"limit\":8,"
        ++ (codes "\"width\":1},\"frames_broken\":0,\"pass\":true,\"troff\":{\"greatest\":8444,\"least\":764},\"type\":\"N\"},"
        ++ (codes "{\"bucket\":{\"above\":0,\"counts\":[0,40,0,0,0],\"limit\":4,\"width\":1},"
        ++ (codes "\"buffer\":{\"above\":0,\"below\":0,\"counts\":[0,40,0,0,0,0,0,0,0],\"limit\":8,"
        ++ (codes "\"width\":1},\"frames_broken\":0,\"pass\":true,\"troff\":{\"greatest\":8004,\"least\":764},\"type\":\"NL\"},"
        ++ (codes "{\"bucket\":{\"above\":0,\"counts\":[0,40,0,0,0,0,0,0,0,0,0,0,0,0,0,0,0],"
        ++ (codes "\"limit\":16,\"width\":1},"
        ++ (codes "\"buffer\":{\"above\":0,\"below\":0,\"counts\":[40,0,0,0,0,0,0,0,0,0,0,0,0,0,0,0,0,0,"
        ++ (codes "0,0,0,0,0,0,0,0,0,0,0,0,0,0,0,0,0,0,0,0,0,0,0,0,0,0,0,0,0,0,0,0,0,0,0,0,0,0,0,0,0,0,0],"
        ++ (codes "\"limit\":720,\"width\":12},\"frames_broken\":0,\"pass\":true,\"troff\":{\"greatest\":1000000,\"least\":764},\"type\":\"W\"}]}],"
        ++ (codes "\"ssrc\":\"00000001\",\"target\":\"239.0.0.1:50000\",\"verdict\":\"judged\"}],"
        ++ codes "\"name\":\"a.pcap\"}\n"))))))))))))))))))))))))))))) }
{}

/// The JSON of two captures that were taken as one. The second ends within the packet record at byte 40.
#[tactic(auto, unfolding(crate::proofs::lemmas::report::Numerals::measure_texts))]
pub fn joined_json_by_hand()
    ensures { measure_json (codes "a.pcap" ∷ codes "b.pcap" ∷ []) (note.End ∷ note.Cut 40 ∷ []) plain_session
        (absent_flow ∷ [])
        ≡ codes "{\"files\":[{\"end\":\"end\",\"name\":\"a.pcap\"},{\"end\":\"cut at 40\",\"name\":\"b.pcap\"}],"
        ++ codes "\"flows\":[{\"media\":1,\"packets\":0,\"target\":\"239.0.0.1:50000\",\"verdict\":\"absent\"}]}\n" }
{}

/// Type N of a flow with five packets at once in the second frame. The last of them breaks the limit of the bucket.
#[tactic(auto, unfolding(crate::proofs::lemmas::report::Numerals::measure_texts))]
pub fn burst_by_hand()
    ensures { kind_text kind.N burst_fail burst_kind
        ≡ codes "{\"bucket\":{\"above\":1,\"counts\":[0,36,1,1,1],\"limit\":4,\"width\":1},"
        ++ (codes "\"buffer\":{\"above\":0,\"below\":0,\"counts\":[0,36,1,1,1,1,0,0,0],\"limit\":8,"
        ++ (codes "\"width\":1},\"first_bucket\":24,\"frames_broken\":1,\"pass\":false,"
        ++ (codes "\"proof\":{\"count\":5,\"from\":20,\"limit\":4,\"model\":\"Bucket\",\"record\":26,"
        ++ codes "\"stamp\":1600000000020764000,\"to\":24},\"troff\":{\"greatest\":5404,\"least\":764},\"type\":\"N\"}"))) }
{}

/// Type N of a flow with linear pacing. All packets of each frame except the first arrive after their reads.
#[tactic(auto, unfolding(crate::proofs::lemmas::report::Numerals::measure_texts))]
pub fn linear_by_hand()
    ensures { kind_text kind.N linear_fail linear_kind
        ≡ codes "{\"bucket\":{\"above\":0,\"counts\":[0,40,0,0,0],\"limit\":4,\"width\":1},"
        ++ (codes "\"buffer\":{\"above\":0,\"below\":0,\"counts\":[38,2,0,0,0,0,0,0,0],\"limit\":8,"
        ++ (codes "\"width\":1},\"first_empty\":1,\"frames_broken\":2,\"pass\":false,"
        ++ (codes "\"proof\":{\"count\":1,\"from\":1,\"limit\":2,\"model\":\"Empty\",\"record\":3,"
        ++ codes "\"stamp\":1600000000001764000,\"to\":1},\"troff\":{\"greatest\":8764,\"least\":1524},\"type\":\"N\"}"))) }
{}

/// The offsets of a type: both, one that is absent, and none.
#[tactic(auto, unfolding(crate::proofs::lemmas::report::Numerals::measure_texts))]
pub fn offsets_by_hand()
    ensures both { troff_text (record { least = Some 764; greatest = Some 8444 })
        ≡ codes "{\"greatest\":8444,\"least\":764}" }
    ensures least { troff_text (record { least = Some 764; greatest = None }) ≡ codes "{\"least\":764}" }
    ensures greatest { troff_text (record { least = None; greatest = Some 0 }) ≡ codes "{\"greatest\":0}" }
    ensures none { troff_text (record { least = None; greatest = None }) ≡ codes "{}" }
{}

/// A flow that isn't judged has the members of its verdict, and no `runs`.
#[tactic(auto, unfolding(crate::proofs::lemmas::report::Numerals::measure_texts))]
pub fn unjudged_by_hand()
    ensures refused { flow_text plain_session refused_flow
        ≡ codes "{\"fault\":\"FrameSize want 20 got 19\",\"media\":1,\"packets\":40,\"record\":40,"
        ++ codes "\"ssrc\":\"00000001\",\"target\":\"239.0.0.1:50000\",\"verdict\":\"refused\"}" }
    ensures absent { flow_text plain_session absent_flow
        ≡ codes "{\"media\":1,\"packets\":0,\"target\":\"239.0.0.1:50000\",\"verdict\":\"absent\"}" }
{}

/// A flow with gaps lists its judged runs, and has no `runs` if none is judged.
#[tactic(auto, unfolding(crate::proofs::lemmas::report::Numerals::measure_texts))]
pub fn runs_by_hand()
    ensures one { (r : ToldRun) → flow_text plain_session (flow_of 40 (two_runs narrow 32) (r ∷ []))
        ≡ codes "{\"media\":1,\"packets\":40,\"runs\":[" ++ (run_text plain_media r
        ++ codes "],\"ssrc\":\"00000001\",\"target\":\"239.0.0.1:50000\",\"verdict\":\"runs\"}") }
    ensures none { flow_text plain_session (flow_of 40 (two_runs narrow 32) [])
        ≡ codes "{\"media\":1,\"packets\":40,\"ssrc\":\"00000001\",\"target\":\"239.0.0.1:50000\","
        ++ codes "\"verdict\":\"runs\"}" }
{}

/// Numbers of more than 64 bits are written in full.
#[tactic(auto, unfolding(crate::proofs::lemmas::report::Numerals::measure_texts))]
pub fn wide_numbers_by_hand()
    ensures { level_text (summary (neg_ℤ (pos (2 ^ 64))) (pos (2 ^ 64)) (pos (2 ^ 100)) (pos 0) (pos 0))
        ≡ codes "{\"greatest\":18446744073709551616,\"least\":-18446744073709551616,"
        ++ codes "\"sum\":1267650600228229401496703205376}" }
{}

/// The rows of the first packet and of two frames.
#[tactic(auto, unfolding(crate::proofs::lemmas::report::Numerals::measure_texts))]
pub fn rows_by_hand()
    ensures packet { packet_row_text plain_packet ≡ codes "1,0,2,1600000000000764000,0,0,1,1,1\n" }
    ensures group { group_row_text (plain_group 0 2 1600000000000764000 1800 None)
        ≡ codes "1,0,2,1600000000000764000,764000,19004000,1800,,1663502088,-1663502020,1,1,1,1,1\n" }
    ensures later { group_row_text (plain_group 1 22 1600000000020764000 3600 (Some 1800))
        ≡ codes "1,1,22,1600000000020764000,764000,19004000,3600,1800,1663502088,-1663502020,1,1,1,1,1\n" }
{}
