//! Laws of the JSON of `measure`. Each function is a theorem: it does nothing, and its clauses are proved.

ghost use Rattle.std.specs.Prelude.{◌≡◌, ◌++◌, ◌∷◌, ◌-◌, ◌^◌, [], Bool, List, None, Some, codes, negsuc, pos};
ghost use Rattle.timing_base.specs.Keys.{key_of, media_of};
ghost use Rattle.timing_base.specs.Media.{Media};
ghost use Rattle.timing_base.specs.declared.fail.Broken.TheVariants.{Bucket};
ghost use Rattle.timing_base.specs.declared.row.KindVerdict.TheVariants.{Fail};
ghost use Rattle.flow_measure.specs.declared.numbers.Buffer.{Buffer};
ghost use Rattle.flow_measure.specs.declared.summary.Summary.{Summary};
ghost use Rattle.flow_measure.specs.report.Examples.{plain_flow as told_by_hand};
ghost use Rattle.flow_measure.specs.report.Json.{buffer_text, flow_text, level_text, run_text};
ghost use Rattle.flow_measure.specs.report.Told.{ToldFlow, ToldRun};
ghost use Rattle.report_reader.specs.Pieces.{at_end};
ghost use Rattle.report_reader.specs.Reported.{FitsMedia};
ghost use Rattle.measure_reader.specs.Fits.{FitsBuffer, FitsFlow, FitsRun, FitsSummary};
ghost use Rattle.measure_reader.specs.Reading.{bins, buffer, counts, flow, kind, level, run, window};
ghost use Rattle.measure_reader.specs.Told.{buffer_read, flow_read, judged_in_one, level_read, run_read};
ghost use Rattle.measure_reader.specs.Worked.{plain_flow};

/// The JSON of a summary and of a buffer is read back as its numbers.
pub fn numbers_are_read_back()
    ensures level { (s : Summary) → FitsSummary s → level at_end (level_text s) ≡ Some (level_read s) }
    ensures buffer { (b : Buffer) → FitsBuffer b → buffer at_end (buffer_text b) ≡ Some (buffer_read b) }
{}

/// The JSON of a judged run is read back as its numbers.
pub fn runs_are_read_back()
    ensures { (media : Media) (r : ToldRun) → FitsRun r → run at_end (run_text media r) ≡ Some (run_read media r) }
{}

/// The JSON of a judged flow is read back: its media, its count of packets, its SSRC, its target, and all numbers of
/// its judged runs.
pub fn flows_are_read_back()
    ensures { (session : List Media) (f : ToldFlow) (in_one_run : Bool) → judged_in_one f.verdict ≡ Some in_one_run
        → FitsMedia (media_of session (key_of 0 f.media)) → FitsFlow f
        → flow at_end (flow_text session f) ≡ Some (flow_read (media_of session (key_of 0 f.media)) f in_one_run) }
{}

/// No two judged flows with different numbers have one text, whatever their descriptions are, nor do two judged runs.
pub fn one_text_has_one_flow()
    ensures flows { (session other_session : List Media) (f other : ToldFlow) (in_one_run other_in_one : Bool)
        → judged_in_one f.verdict ≡ Some in_one_run → judged_in_one other.verdict ≡ Some other_in_one
        → FitsMedia (media_of session (key_of 0 f.media)) → FitsMedia (media_of other_session (key_of 0 other.media))
        → FitsFlow f → FitsFlow other → flow_text session f ≡ flow_text other_session other
        → flow_read (media_of session (key_of 0 f.media)) f in_one_run
        ≡ flow_read (media_of other_session (key_of 0 other.media)) other other_in_one }
    ensures runs { (media other_media : Media) (r other : ToldRun) → FitsRun r → FitsRun other
        → run_text media r ≡ run_text other_media other → run_read media r ≡ run_read other_media other }
{}

/// The conditions of these laws hold of the flow that is worked by hand.
pub fn plain_flow_fits()
    ensures { FitsFlow told_by_hand }
{}

/// Worked by hand: the flow of two frames of 20 packets that `Worked` describes.
#[tactic(auto, unfolding(crate::proofs::Readers::readers))]
pub fn flow_by_hand()
    ensures { flow at_end (codes "{\"media\":1,\"packets\":41,\"runs\":["
        ++ (codes "{\"bucket\":{\"greatest\":1,\"least\":1,\"sum\":40},"
        ++ (codes "\"first\":{\"first\":764000,\"greatest\":764000,\"last\":764000,\"least\":764000,"
        ++ (codes "\"sum\":1528000,\"target\":764444},\"frames\":2,"
        ++ (codes "\"gap\":{\"classes\":[0,0,0,0,0,0,0,0,0,0,0,0,0,0,0,0,0,0,0,0,38,1],"
        ++ (codes "\"greatest\":1760000,\"least\":960000,\"sum\":38240000},"
        ++ (codes "\"gapped\":{\"greatest\":1,\"late\":0,\"least\":1,\"slack\":444,\"sum\":40},"
        ++ (codes "\"head\":1,\"interlaced\":false,"
        ++ (codes "\"last\":{\"first\":19004000,\"greatest\":19004000,\"last\":19004000,"
        ++ (codes "\"least\":19004000,\"sum\":38008000},"
        ++ (codes "\"latency\":{\"first\":-1663502020,\"greatest\":-1663502020,\"last\":-1663502020,"
        ++ (codes "\"least\":-1663502020,\"sum\":-3327004040},"
        ++ (codes "\"linear\":{\"greatest\":1,\"late\":0,\"least\":1,\"slack\":444,\"sum\":40},"
        ++ (codes "\"n\":20,\"number\":0,"
        ++ (codes "\"offset\":{\"first\":1663502088,\"greatest\":1663502088,\"last\":1663502088,"
        ++ (codes "\"least\":1663502088,\"sum\":3327004176},"
        ++ (codes "\"packets\":40,\"record\":1,\"run\":1,\"step\":{\"greatest\":1800,\"least\":1800},"
        ++ (codes "\"tail\":0,\"types\":["
        ++ (codes "{\"bucket\":{\"above\":0,\"counts\":[0,40,0,0,0],\"limit\":4,\"width\":1},"
        ++ (codes "\"buffer\":{\"above\":0,\"below\":0,\"counts\":[0,40,0,0,0,0,0,0,0],\"limit\":8,\"width\":1},"
        ++ (codes "\"frames_broken\":0,\"pass\":true,\"troff\":{\"greatest\":8444,\"least\":764},\"type\":\"N\"},"
        ++ (codes "{\"bucket\":{\"above\":0,\"counts\":[0,40,0,0,0],\"limit\":4,\"width\":1},"
        ++ (codes "\"buffer\":{\"above\":0,\"below\":0,\"counts\":[0,40,0,0,0,0,0,0,0],\"limit\":8,\"width\":1},"
        ++ (codes "\"frames_broken\":0,\"pass\":true,\"troff\":{\"greatest\":8004,\"least\":764},\"type\":\"NL\"},"
        ++ (codes "{\"bucket\":{\"above\":0,\"counts\":[0,40,0,0,0,0,0,0,0,0,0,0,0,0,0,0,0],"
        ++ (codes "\"limit\":16,\"width\":1},"
        ++ (codes "\"buffer\":{\"above\":0,\"below\":0,\"counts\":[40,0,0,0,0,0,0,0,0,0,0,0,0,0,0,0,0,0,"
        ++ (codes "0,0,0,0,0,0,0,0,0,0,0,0,0,0,0,0,0,0,0,0,0,0,0,0,0,0,0,0,0,0,0,0,0,0,0,0,0,0,0,0,0,0,0],"
        ++ (codes "\"limit\":720,\"width\":12},"
        ++ (codes "\"frames_broken\":0,\"pass\":true,\"troff\":{\"greatest\":1000000,\"least\":764},\"type\":\"W\"}]}],"
        ++ (codes "\"ssrc\":\"00000001\",\"target\":\"239.0.0.1:50000\",\"verdict\":"
        ++ codes "\"judged\"}")))))))))))))))))))))))))))))))
        ≡ Some plain_flow }
{}

/// Worked by hand: a type with five packets at once, the last of which breaks the limit of the bucket.
#[tactic(auto, unfolding(crate::proofs::Readers::readers))]
pub fn violation_by_hand()
    ensures { kind (codes "N") at_end (codes "{\"bucket\":{\"above\":1,\"counts\":[0,36,1,1,1],"
        ++ (codes "\"limit\":4,\"width\":1},"
        ++ (codes "\"buffer\":{\"above\":0,\"below\":2,\"counts\":[0,36,1,1,1,1,0,0,0],\"limit\":8,\"width\":1},"
        ++ (codes "\"first_bucket\":24,\"frames_broken\":1,\"pass\":false,"
        ++ (codes "\"proof\":{\"count\":5,\"from\":20,\"limit\":4,\"model\":\"Bucket\",\"record\":26,"
        ++ codes "\"stamp\":1600000000020764000,\"to\":24},\"troff\":{\"greatest\":5404},\"type\":\"N\"}")))))
        ≡ Some (record {
          bucket = record { above = 1; below = None; counts = 0 ∷ 36 ∷ 1 ∷ 1 ∷ 1 ∷ []; limit = 4; width = 1 };
          buffer = record {
            above = 0;
            below = Some 2;
            counts = 0 ∷ 36 ∷ 1 ∷ 1 ∷ 1 ∷ 1 ∷ 0 ∷ 0 ∷ 0 ∷ [];
            limit = 8;
            width = 1;
          };
          first_bucket = Some 24;
          first_empty = None;
          first_over = None;
          groups_broken = 1;
          outcome = Fail record { model = Bucket; from = 20; to = 24; count = 5; limit = 4 };
          place = Some (record { rec = 26; stamp = 1600000000020764000 });
          troff = record { least = None; greatest = Some 5404 };
        }) }
{}

/// Worked by hand: numbers of more than 64 bits and below 0, an empty list, and texts that aren't read.
#[tactic(auto, unfolding(crate::proofs::Readers::readers))]
pub fn pieces_by_hand()
    ensures wide { level at_end (codes "{\"greatest\":18446744073709551616,\"least\":-1,\"sum\":18446744073709551615}")
        ≡ Some (record { greatest = pos (2 ^ 64); least = negsuc 0; sum = pos (2 ^ 64 - 1) }) }
    ensures none { counts at_end (codes "[]") ≡ Some [] }
    ensures ends { window at_end (codes "{}") ≡ Some (record { least = None; greatest = None }) }

    // Members in another order, a list with a comma at its end, a histogram without its limit, and an end of a window
    // that isn't a number.
    ensures order { level at_end (codes "{\"least\":1,\"greatest\":2,\"sum\":3}") ≡ None }
    ensures comma { counts at_end (codes "[1,2,]") ≡ None }
    ensures limit { bins at_end (codes "{\"above\":0,\"counts\":[1],\"width\":1}") ≡ None }
    ensures word { window at_end (codes "{\"least\":absent}") ≡ None }
{}
