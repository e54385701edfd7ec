//! Laws of the definitions. Each function is a theorem: it does nothing, and its clauses are proved.

ghost use Rattle.std.specs.Prelude.{◌≡◌, ◌<◌, ◌^◌, ◌∷◌, [], ℕ, All, List, length};
ghost use Rattle.timing_base.specs.Captures.{IsStamp, Record, joined};
ghost use Rattle.timing_base.specs.Jobs.{CaptureJob, IsCaptureJob};
ghost use Rattle.timing_base.specs.Media.{IsMedia, Media};
ghost use Rattle.timing_base.specs.declared.capture.FileNote.{FileNote};
ghost use Rattle.pcap_reader.specs.Records.{AreRecords};
ghost use Rattle.run_meter.specs.Runs.{JudgedPart};
ghost use Rattle.timing_steps.specs.Answers.{Answer};
ghost use Rattle.timing_steps.specs.Queries.{HasAnswer};
ghost use Rattle.timing_measure.specs.page.Pages.{page_query};
ghost use Rattle.flow_page.specs.drawing.Told.{IsLongest};
ghost use Rattle.timing_measure.specs.page.Worked.{part_of};

/// The contents of the inputs of `page` have an answer, if the media are within their limits and the packet records
/// have timestamps that a capture can have.
pub fn some_page_answer()
    ensures { (job : CaptureJob) (media : List Media) (texts : List (List ℕ)) (files : List (List Record))
        (notes : List FileNote)
        → IsCaptureJob job → All IsMedia media → AreRecords texts files notes → length (joined files) < 2 ^ 41
        → All (λ r. IsStamp r.stamp) (joined files)
        → (answer : Answer) × HasAnswer (page_query job) media texts answer }
{}

/// The contents of the inputs of `page` don't have two answers.
pub fn one_page_answer()
    ensures { (job : CaptureJob) (media : List Media) (texts : List (List ℕ)) (a b : Answer)
        → HasAnswer (page_query job) media texts a → HasAnswer (page_query job) media texts b → a ≡ b }
{}

/// If two judged runs are the longest, the first of them is shown.
pub fn first_of_the_longest()
    ensures one { (part : JudgedPart) → IsLongest (part_of 1 2 ∷ part_of 2 4 ∷ part_of 4 4 ∷ []) part
        → part ≡ part_of 2 4 }
    ensures there { IsLongest (part_of 1 2 ∷ part_of 2 4 ∷ part_of 4 4 ∷ []) (part_of 2 4) }
{}
