//! Laws of the definitions of `shape`. Each function is a theorem: its clauses are proved.

ghost use Rattle.std.specs.Prelude.{◌≡◌, ◌≤◌, ◌^◌, ◌++◌, ◌∷◌, [], ℕ, List, All, Bool, None, true, false, codes, length};
ghost use Rattle.timing_base.specs.Shifts.{FlowOptions, Shift, no_shift};
ghost use Rattle.timing_base.specs.Captures.{Record, joined};
ghost use Rattle.timing_base.specs.Jobs.{ShapeJob};
ghost use Rattle.timing_base.specs.Judged.{JudgedRun, in_one_run, judged, whole_frames};
ghost use Rattle.timing_base.specs.Media.{IsMedia, Media};
ghost use Rattle.timing_base.specs.declared.capture.FileNote.{FileNote};
ghost use Rattle.timing_base.specs.declared.media.Kind.{Kind};
ghost use Rattle.timing_base.specs.declared.media.Kind.TheVariants.{N};
ghost use Rattle.pcap_reader.specs.Records.{AreRecords, Records};
ghost use Rattle.pcap_reader.specs.WrittenHeads.{file_head};
ghost use Rattle.sender_params.specs.Worked.{at_once, hd_50};
ghost use Rattle.timing_report.specs.declared.status.Status.TheVariants as status;
ghost use Rattle.timing_steps.specs.Answers.{Answer};
ghost use Rattle.udp_rtp.specs.Flow.{flow};
ghost use Rattle.timing_steps.specs.Queries.{HasAnswer};
ghost use Rattle.timing_reach.specs.Shaped.{shape_query};
ghost use Rattle.timing_reach.specs.ShapedAgain.{CanBeHeld, IsJudgedAs, came_at};
ghost use Rattle.timing_reach.specs.Shapes.{HasPlan, HasShape, shaped_capture};
ghost use Rattle.timing_reach.specs.WorkedShapes.{five_records, last_nanosecond, run_of_stamps, second_behind};
ghost use Rattle.timing_reach.specs.WorkedShapes.{second_behind_delayed, two_departures};

use flow_shaper::laws::burst_by_hand;

/// The captures of `shape` have exactly one answer, if the SDP has the media, and its media are within the limits of a
/// media.
pub fn one_shape_answer()
    ensures some { (job : ShapeJob) (media : List Media) (texts : List (List ℕ)) → All IsMedia media
        → (shape_query job).early media ≡ None
        → (answer : Answer) × HasAnswer (shape_query job) media texts answer }
    ensures once { (job : ShapeJob) (media : List Media) (texts : List (List ℕ)) (a b : Answer)
        → HasAnswer (shape_query job) media texts a → HasAnswer (shape_query job) media texts b → a ≡ b }
{}

/// The answer of `shape` on captures that are taken as one is that on one capture with their packet records, however
/// each of them ends.
pub fn shapes_are_of_one()
    ensures { (job : ShapeJob) (media : List Media) (texts : List (List ℕ)) (files : List (List Record))
        (notes : List FileNote) (one : List ℕ) (end : FileNote) (a b : Answer)
        → AreRecords texts files notes → Records one (2 ^ 40) (joined files) end
        → HasAnswer (shape_query job) media texts a
        → HasAnswer (shape_query job) media (one ∷ []) b → a ≡ b }
{}

/// A judged run has exactly one answer of `shape`, if its frames or fields have 1 to 262,144 packets.
pub fn one_answer_of_run()
    ensures some { (list : Bool) (shift : Shift) (kind : Kind) (m : Media) (items : List Record)
        (run : JudgedRun) → IsMedia m → 1 ≤ run.n → run.n ≤ 262144
        → (answer : Answer) × HasShape list shift kind m items run answer }
    ensures once { (list : Bool) (shift : Shift) (kind : Kind) (m : Media) (items : List Record)
        (run : JudgedRun) (a b : Answer) → HasShape list shift kind m items run a
        → HasShape list shift kind m items run b → a ≡ b }
{}

/// A capture of at most 2^40 bytes that `shape` wrote is read again whole with the same options. The flow in it is
/// judged in one run, with the same frames or fields between the same other packets, and its judged packets come when
/// the plan lets them leave.
pub fn shaped_is_read_back()
    ensures { (options : FlowOptions) (kind : Kind) (m : Media) (items : List Record) (run : JudgedRun)
        (answer : Answer) → All CanBeHeld items
        → judged (flow items m) m.pt options ≡ in_one_run (whole_frames run)
        → (plan : HasPlan false options.shift kind m items run answer) → length answer.text ≤ 2 ^ 40
        → IsJudgedAs options m answer.text (came_at run plan.departures) }
{}

/// Of five packets at once the last one is delayed, at 50 frames per second with 20 packets in a frame.
#[tactic(auto, unfolding(timing_report::proofs::Numerals::numerals))]
pub fn list_by_hand()
    ensures { (items : List Record) (answer : Answer)
        → HasShape true no_shift N hd_50 items (run_of_stamps (at_once 5)) answer
        → answer ≡ record {
          text = codes "packet 4 delayed 909091 ns by bucket from 0\n"
              ++ codes "delayed 1 of 5, greatest 909091 ns\n";
          status = status.Pass;
        } }
{
    burst_by_hand();
}

/// Of five packets in the last nanosecond that a capture can have the last one is late: no plan lets it leave in time.
#[tactic(auto, unfolding(timing_report::proofs::Numerals::numerals))]
pub fn late_by_hand()
    ensures { (list : Bool) (items : List Record) (answer : Answer)
        → HasShape list no_shift N hd_50 items (run_of_stamps (last_nanosecond 5)) answer
        → answer ≡ record { text = codes "not shaped: packet 4\n"; status = status.NotAllJudged } }
{}

/// A capture with a clock one second behind: the packet before the judged ones keeps its capture timestamp, each judged
/// one leaves as planned, and of the two behind them the first leaves no earlier than the last judged one. With a delay
/// of 7 ns, the judged ones and that first one leave 7 ns later by the clock of the capture.
pub fn capture_by_hand()
    ensures on_time { shaped_capture second_behind 1 two_departures five_records ≡ file_head
        ++ (5 ∷ 0 ∷ 0 ∷ 0 ∷ 9 ∷ 0 ∷ 0 ∷ 0 ∷ 1 ∷ 0 ∷ 0 ∷ 0 ∷ 1 ∷ 0 ∷ 0 ∷ 0 ∷ 0xaa ∷ []
        ++ (6 ∷ 0 ∷ 0 ∷ 0 ∷ 1 ∷ 0 ∷ 0 ∷ 0 ∷ 1 ∷ 0 ∷ 0 ∷ 0 ∷ 1 ∷ 0 ∷ 0 ∷ 0 ∷ 1 ∷ []
        ++ (7 ∷ 0 ∷ 0 ∷ 0 ∷ 2 ∷ 0 ∷ 0 ∷ 0 ∷ 2 ∷ 0 ∷ 0 ∷ 0 ∷ 2 ∷ 0 ∷ 0 ∷ 0 ∷ 2 ∷ 3 ∷ []
        ++ (7 ∷ 0 ∷ 0 ∷ 0 ∷ 2 ∷ 0 ∷ 0 ∷ 0 ∷ 1 ∷ 0 ∷ 0 ∷ 0 ∷ 1 ∷ 0 ∷ 0 ∷ 0 ∷ 4 ∷ []
        ++ 9 ∷ 0 ∷ 0 ∷ 0 ∷ 0 ∷ 0 ∷ 0 ∷ 0 ∷ 1 ∷ 0 ∷ 0 ∷ 0 ∷ 1 ∷ 0 ∷ 0 ∷ 0 ∷ 5 ∷ [])))) }
    ensures delayed { shaped_capture second_behind_delayed 1 two_departures five_records ≡ file_head
        ++ (5 ∷ 0 ∷ 0 ∷ 0 ∷ 9 ∷ 0 ∷ 0 ∷ 0 ∷ 1 ∷ 0 ∷ 0 ∷ 0 ∷ 1 ∷ 0 ∷ 0 ∷ 0 ∷ 0xaa ∷ []
        ++ (6 ∷ 0 ∷ 0 ∷ 0 ∷ 8 ∷ 0 ∷ 0 ∷ 0 ∷ 1 ∷ 0 ∷ 0 ∷ 0 ∷ 1 ∷ 0 ∷ 0 ∷ 0 ∷ 1 ∷ []
        ++ (7 ∷ 0 ∷ 0 ∷ 0 ∷ 9 ∷ 0 ∷ 0 ∷ 0 ∷ 2 ∷ 0 ∷ 0 ∷ 0 ∷ 2 ∷ 0 ∷ 0 ∷ 0 ∷ 2 ∷ 3 ∷ []
        ++ (7 ∷ 0 ∷ 0 ∷ 0 ∷ 9 ∷ 0 ∷ 0 ∷ 0 ∷ 1 ∷ 0 ∷ 0 ∷ 0 ∷ 1 ∷ 0 ∷ 0 ∷ 0 ∷ 4 ∷ []
        ++ 9 ∷ 0 ∷ 0 ∷ 0 ∷ 0 ∷ 0 ∷ 0 ∷ 0 ∷ 1 ∷ 0 ∷ 0 ∷ 0 ∷ 1 ∷ 0 ∷ 0 ∷ 0 ∷ 5 ∷ [])))) }
{}
