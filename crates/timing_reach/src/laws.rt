//! Laws of the definitions. Each function is a theorem: it does nothing, and its clauses are proved.

pub mod shapes;

ghost use Rattle.std.specs.Prelude.{◌≡◌, ◌^◌, ◌++◌, ◌∷◌, [], ℕ, List, All, None, codes, map, pos, negsuc, true, false};
ghost use Rattle.timing_base.specs.Shifts.{FlowOptions};
ghost use Rattle.timing_base.specs.Captures.{Record, joined};
ghost use Rattle.timing_base.specs.Jobs.{FlowJob, ScanJob, SdpJob, SkewJob};
ghost use Rattle.timing_base.specs.Judged.{FlowRun, in_one_run, in_runs, judged, no_whole_frame};
ghost use Rattle.timing_base.specs.Media.{IsMedia, Media};
ghost use Rattle.timing_base.specs.declared.capture.FileNote.{FileNote};
ghost use Rattle.timing_base.specs.declared.capture.FileNote.TheVariants as note;
ghost use Rattle.timing_base.specs.declared.media.Kind.TheVariants.{N, NL, W};
ghost use Rattle.timing_base.specs.declared.row.Verdict.TheVariants as verdict;
ghost use Rattle.fail_interval.specs.Row.{run_of};
ghost use Rattle.offset_window.specs.declared.window.WindowEnd.TheVariants.{Absent, At};
ghost use Rattle.path_skew.specs.Examples.{at_records, told};
ghost use Rattle.pcap_reader.specs.Records.{AreRecords, Records};
ghost use Rattle.sender_params.specs.Worked.{hd_50};
ghost use Rattle.timing_report.specs.declared.status.Status.TheVariants as status;
ghost use Rattle.timing_steps.specs.Answers.{Answer};
ghost use Rattle.timing_steps.specs.Flows.{no_such_media, not_judged};
ghost use Rattle.timing_steps.specs.Queries.{HasAnswer};
ghost use Rattle.timing_reach.specs.Asked.{OnRun};
ghost use Rattle.timing_reach.specs.Described.{HasDescription};
ghost use Rattle.timing_reach.specs.Scanned.{HasScan};
ghost use Rattle.timing_reach.specs.Skewed.{first_of, last_of, skew_query, skew_status, skewed};
ghost use Rattle.timing_reach.specs.Windows.{HasLines, window_line, window_query};
ghost use Rattle.timing_reach.specs.Worked.{bound_at, from_to, narrow_frame, pair_of};

/// The captures of `window` have exactly one answer, if the SDP has the media.
pub fn one_window_answer()
    ensures some { (job : FlowJob) (media : List Media) (texts : List (List ℕ))
        → (window_query job).early media ≡ None
        → (answer : Answer) × HasAnswer (window_query job) media texts answer }
    ensures once { (job : FlowJob) (media : List Media) (texts : List (List ℕ)) (a b : Answer)
        → HasAnswer (window_query job) media texts a → HasAnswer (window_query job) media texts b → a ≡ b }
{}

/// The answer of `window` on captures that are taken as one is that on one capture with their packet records, however
/// each of them ends.
pub fn windows_are_of_one()
    ensures { (job : FlowJob) (media : List Media) (texts : List (List ℕ)) (files : List (List Record))
        (notes : List FileNote) (one : List ℕ) (end : FileNote) (a b : Answer)
        → AreRecords texts files notes → Records one (2 ^ 40) (joined files) end
        → HasAnswer (window_query job) media texts a
        → HasAnswer (window_query job) media (one ∷ []) b → a ≡ b }
{}

/// The SDP of `sdp` has exactly one answer.
pub fn one_sdp_answer()
    ensures some { (job : SdpJob) (text : List ℕ) → (answer : Answer) × HasDescription job text answer }
    ensures once { (job : SdpJob) (text : List ℕ) (a b : Answer)
        → HasDescription job text a → HasDescription job text b → a ≡ b }
{}

/// The answer for a frame of a narrow sender, at 50 frames per second with 20 packets in a frame.
#[tactic(auto, unfolding(timing_report::proofs::Numerals::numerals))]
pub fn narrow_by_hand()
    ensures { (answer : Answer) → HasLines hd_50 narrow_frame answer → answer ≡ record {
      text = codes "N lower 764 at packet 0, upper 8444 at packet 8\n"
          ++ (codes "NL lower 764 at packet 0, upper 8004 at packet 19\n"
          ++ codes "W lower 764 at packet 0, upper 1000000\n");
      status = status.Pass;
    } }
{}

/// Lines with ends that no packet binds, and with ends that don't exist.
#[tactic(auto, unfolding(timing_report::proofs::Numerals::numerals))]
pub fn lines_by_hand()
    ensures every { window_line W (from_to (At 0 None) (At 1000000 None))
        ≡ codes "W lower 0, upper 1000000\n" }
    ensures late { window_line NL (from_to Absent (bound_at 19 8004))
        ≡ codes "NL lower none, upper 8004 at packet 19\n" }
    ensures early { window_line N (from_to (bound_at 0 1) Absent)
        ≡ codes "N lower 1 at packet 0, upper none\n" }
{}

/// A media that doesn't exist, a flow without packets, one without a whole frame, and one with gaps: its runs aren't
/// measured.
#[tactic(auto, unfolding(timing_report::proofs::Numerals::numerals))]
pub fn unjudged_by_hand()
    ensures no_media { no_such_media
        ≡ record { text = codes "no such media\n"; status = status.NotAllJudged } }
    ensures absent { (media : Media) (pt : ℕ) (options : FlowOptions)
        (answer : Answer) → OnRun media (HasLines media) (judged [] pt options) answer
        → answer ≡ record { text = codes "not judged: absent\n"; status = status.NotAllJudged } }
    ensures no_frame { (media : Media) (answer : Answer)
        → OnRun media (HasLines media) (in_one_run (no_whole_frame 5)) answer
        → answer ≡ record {
          text = codes "not judged: no whole frame, head 5\n";
          status = status.NotAllJudged;
        } }
    ensures runs { (media : Media) (runs : List FlowRun)
        (answer : Answer) → OnRun media (HasLines media) (in_runs runs) answer
        → answer ≡ not_judged media (verdict.Runs (map (run_of media) runs)) }
{}

/// The captures of `skew` have exactly one answer, if the SDP has both media.
pub fn one_skew_answer()
    ensures some { (job : SkewJob) (media : List Media) (texts : List (List ℕ)) → All IsMedia media
        → (skew_query job).early media ≡ None
        → (answer : Answer) × HasAnswer (skew_query job) media texts answer }
    ensures once { (job : SkewJob) (media : List Media) (texts : List (List ℕ)) (x y : Answer)
        → HasAnswer (skew_query job) media texts x → HasAnswer (skew_query job) media texts y → x ≡ y }
{}

/// A path and a longer one, in either order; and captures without a packet of the second flow.
#[tactic(auto, unfolding(timing_report::proofs::Numerals::numerals))]
pub fn skew_by_hand()
    ensures pair { skewed (pair_of 0 1 (codes "a.pcap") (codes "b.pcap"))
        (note.End ∷ note.End ∷ [])
        (told 40 1 0 0 0 (at_records (pos 150) 1 1) (at_records (pos 900) 5 5))
        ≡ record {
          text = codes "file 1 end a.pcap\nfile 2 end b.pcap\n"
              ++ (codes "pair 1.1 2.2: matched 40, first only 1, second only 0, repeated 0, unread 0\n"
              ++ (codes "least 150 ns at records 1 and 1\n"
              ++ codes "greatest 900 ns at records 5 and 5\n"));
          status = status.Pass;
        } }
    ensures swapped { skewed (pair_of 1 0 (codes "b.pcap") (codes "a.pcap"))
        (note.End ∷ note.Cut 100 ∷ [])
        (told 40 0 1 0 0 (at_records (negsuc 899) 5 5) (at_records (negsuc 149) 1 1))
        ≡ record {
          text = codes "file 1 end b.pcap\nfile 2 cut at 100 a.pcap\n"
              ++ (codes "pair 1.2 2.1: matched 40, first only 0, second only 1, repeated 0, unread 0\n"
              ++ (codes "least -900 ns at records 5 and 5\n"
              ++ codes "greatest -150 ns at records 1 and 1\n"));
          status = status.Pass;
        } }
    ensures unmatched { skewed (pair_of 0 1 (codes "a") (codes "b"))
        (note.End ∷ note.End ∷ []) (told 0 41 0 2 3 None None)
        ≡ record {
          text = codes "file 1 end a\nfile 2 end b\n"
              ++ codes "pair 1.1 2.2: matched 0, first only 41, second only 0, repeated 2, unread 3\n";
          status = status.NotAllJudged;
        } }
{}

/// The first flow is in the first capture and the second in the last. One match is enough for status 0, unless a
/// capture was refused.
pub fn pairs_by_hand()
    ensures first { (x y : List Record) → first_of (x ∷ y ∷ []) ≡ x }
    ensures last { (x y : List Record) → last_of (x ∷ y ∷ []) ≡ y }
    ensures alone { (x : List Record) → last_of (x ∷ []) ≡ x }
    ensures one { skew_status false (told 1 9 9 9 9 None None) ≡ status.Pass }
    ensures refused { skew_status true (told 40 0 0 0 0 None None) ≡ status.NotAllJudged }
{}

/// The contents of the capture of `scan` have exactly one answer.
pub fn one_scan_answer()
    ensures some { (job : ScanJob) (text : List ℕ) → (answer : Answer) × HasScan job text answer }
    ensures once { (job : ScanJob) (text : List ℕ) (a b : Answer)
        → HasScan job text a → HasScan job text b → a ≡ b }
{}
