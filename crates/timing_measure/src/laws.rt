//! Laws of the definitions. Each function is a theorem: it does nothing, and its clauses are proved.

pub mod parts;

ghost use Rattle.std.specs.Prelude.{◌≡◌, ◌<◌, ◌^◌, ℕ, All, List, length};
ghost use Rattle.timing_base.specs.Captures.{IsStamp, Record, joined};
ghost use Rattle.timing_base.specs.Jobs.{CaptureJob, IsCaptureJob};
ghost use Rattle.timing_base.specs.Media.{IsMedia, Media};
ghost use Rattle.timing_base.specs.declared.capture.FileNote.{FileNote};
ghost use Rattle.pcap_reader.specs.Records.{AreRecords};
ghost use Rattle.timing_steps.specs.Answers.{Answer};
ghost use Rattle.timing_steps.specs.Queries.{HasAnswer};
ghost use Rattle.timing_measure.specs.Measures.{measure_query};

/// The contents of the inputs of `measure` have an answer, if the media are within their limits and the packet records
/// have timestamps that a capture can have.
pub fn some_measure_answer()
    ensures { (job : CaptureJob) (media : List Media) (texts : List (List ℕ)) (files : List (List Record))
        (notes : List FileNote)
        → IsCaptureJob job → All IsMedia media → AreRecords texts files notes → length (joined files) < 2 ^ 41
        → All (λ r. IsStamp r.stamp) (joined files)
        → (answer : Answer) × HasAnswer (measure_query job) media texts answer }
{}

/// The contents of the inputs of `measure` don't have two answers.
pub fn one_measure_answer()
    ensures { (job : CaptureJob) (media : List Media) (texts : List (List ℕ)) (a b : Answer)
        → HasAnswer (measure_query job) media texts a → HasAnswer (measure_query job) media texts b → a ≡ b }
{}
