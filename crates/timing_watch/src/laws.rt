//! Laws of the definitions. Each function is a theorem: it does nothing, and its clauses are proved.

ghost use Rattle.std.specs.Prelude.{◌≡◌, ◌++◌, ◌∷◌, [], ℕ, All, List, None, Some};
ghost use Rattle.timing_base.specs.Captures.{Record};
ghost use Rattle.timing_base.specs.Jobs.{IsWatchJob, WatchJob};
ghost use Rattle.timing_base.specs.Media.{IsMedia, Media};
ghost use Rattle.timing_base.specs.Shifts.{FlowOptions};
ghost use Rattle.timing_base.specs.declared.capture.FileNote.{FileNote};
ghost use Rattle.timing_base.specs.declared.packet.FlowPacket.{FlowPacket};
ghost use Rattle.timing_base.specs.declared.row.Verdict.TheVariants as verdict;
ghost use Rattle.pcap_reader.specs.Records.{AreRecords};
ghost use Rattle.run_meter.specs.Runs.{OpenPart};
ghost use Rattle.fail_interval.specs.Worked.{headed_run, judged_run};
ghost use Rattle.flow_watch.specs.Watched.{groups_in, open_part};
ghost use Rattle.flow_watch.specs.Worked.{burst_frame, plain_frame};
ghost use Rattle.flow_watch.specs.declared.stretch.Stretch.{Stretch};
ghost use Rattle.timing_steps.specs.Answers.{Answer};
ghost use Rattle.timing_steps.specs.Queries.{HasAnswer};
ghost use Rattle.timing_watch.specs.Agreeing.{Agrees, AreAllStretches, ArePeaksOf, HasPeaksOf, IsOpenAfter};
ghost use Rattle.timing_watch.specs.Agreeing.{SaysResultIfAny, SaysSoFar, last_run_in, part_at};
ghost use Rattle.timing_watch.specs.Watched.{AddsPacket, IsLeftEnd, Watching};
ghost use Rattle.timing_watch.specs.Watches.{AreLines, AreLinesAfter, watch_query};
ghost use Rattle.timing_watch.specs.Worked.{burst_result};

/// The contents of the inputs of `watch` have an answer, if the job is within its limits, and the media are.
pub fn some_watch_answer()
    ensures { (job : WatchJob) (media : List Media) (texts : List (List ℕ)) (files : List (List Record))
        (notes : List FileNote)
        → IsWatchJob job → All IsMedia media → AreRecords texts files notes
        → (answer : Answer) × HasAnswer (watch_query job) media texts answer }
{}

/// The contents of the inputs of `watch` don't have two answers.
pub fn one_watch_answer()
    ensures { (job : WatchJob) (media : List Media) (texts : List (List ℕ)) (a b : Answer)
        → HasAnswer (watch_query job) media texts a → HasAnswer (watch_query job) media texts b → a ≡ b }
{}

/// The lines of packet records begin with the lines of the first of them: what was printed stays.
pub fn lines_only_grow()
    ensures { (job : WatchJob) (first : ℕ) (media : List Media) (items more : List Record) (text : List ℕ)
        → AreLines job first media (items ++ more) text
        → (before : List ℕ) × (rest : List ℕ) × (text ≡ before ++ rest) × AreLines job first media items before
        × AreLinesAfter job first media items more rest }
{}

/// The sender with five packets at one instant: its second frame is the only one that breaks N or NL. The line of that
/// frame agrees with the result, that of the first frame doesn't, and both together have its peaks. If a run without a
/// complete frame follows after a gap, no result is that of the last run.
pub fn agreement_by_hand()
    ensures burst { Agrees burst_result burst_frame }
    ensures earlier { Agrees burst_result plain_frame → ⊥ }
    ensures peaks { ArePeaksOf burst_result (plain_frame ∷ burst_frame ∷ []) }
    ensures one { last_run_in (verdict.Judged burst_result) ≡ Some burst_result }
    ensures gap { last_run_in (verdict.Runs (judged_run 1 0 None burst_result ∷ headed_run 43 42 (Some 41) 3 ∷ []))
        ≡ None }
{}

/// A line says what `check` says of the packets so far. In each line of a stretch the count of broken frames or fields
/// of a type is 0 exactly if the last run of the flow's packets passes it: of those up to the packet that adds the line,
/// if its frame or field completes the stretch, and of those before it, if it ends the run; at the end, of all packets.
pub fn lines_agree()
    ensures packet { (w : Watching) (m : Media) (options : FlowOptions) (before : List FlowPacket) (p : FlowPacket)
        (text : List ℕ) → AddsPacket w m options before p text → SaysSoFar w m options before p text }
    ensures end { (w : Watching) (m : Media) (options : FlowOptions) (packets : List FlowPacket) (text : List ℕ)
        → IsLeftEnd w m options packets text → SaysResultIfAny w m options packets text }
{}

/// A run keeps its packets while it goes on: when it had fewer complete frames or fields, it had their packets alone. So a
/// stretch as it was when it ended is the one in its line.
pub fn runs_grow()
    ensures { (m : Media) (options : FlowOptions) (before : List FlowPacket) (p : FlowPacket) (old new : OpenPart)
        → IsOpenAfter m options before old → IsOpenAfter m options (before ++ p ∷ []) new
        → part_at (groups_in (open_part old)) (open_part new) ≡ open_part old }
{}

/// The peaks of all stretches of a run together are those that `check` says of the packets so far: the greatest count of
/// the bucket, and the most packets in the buffer by gapped and by linear reads. The row has no least occupancy and no
/// number of late packets.
pub fn peaks_agree()
    ensures { (w : Watching) (m : Media) (options : FlowOptions) (packets : List FlowPacket) (part : OpenPart)
        (stretches : List Stretch)
        → IsOpenAfter m options packets part → AreAllStretches m options.shift (open_part part) stretches
        → HasPeaksOf w m options packets stretches }
{}
