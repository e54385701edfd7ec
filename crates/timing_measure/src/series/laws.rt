//! Laws of the definitions. Each function is a theorem: it does nothing, and its clauses are proved.

ghost use Rattle.std.specs.Prelude.{◌≡◌, ◌<◌, ◌^◌, ℕ, All, List, Some, length, slice_get};
ghost use Rattle.timing_base.specs.Captures.{IsStamp, Record, joined};
ghost use Rattle.timing_base.specs.Jobs.{SeriesJob};
ghost use Rattle.timing_base.specs.Media.{IsMedia, Media};
ghost use Rattle.timing_base.specs.Shifts.{AreFlowOptions};
ghost use Rattle.timing_base.specs.declared.capture.FileNote.{FileNote};
ghost use Rattle.pcap_reader.specs.Records.{AreRecords};
ghost use Rattle.timing_steps.specs.Answers.{Answer};
ghost use Rattle.timing_steps.specs.Queries.{HasAnswer};
ghost use Rattle.timing_measure.specs.series.Series.{series_query};

/// The contents of the inputs of `series` have an answer, if the SDP has the media of the job, it is within its limits,
/// and the packet records have timestamps that a capture can have.
pub fn some_series_answer()
    ensures { (job : SeriesJob) (media : List Media) (m : Media) (texts : List (List ℕ)) (files : List (List Record))
        (notes : List FileNote)
        → slice_get media job.flow.media ≡ Some m → IsMedia m → AreFlowOptions job.flow.options
        → AreRecords texts files notes → length (joined files) < 2 ^ 41 → All (λ r. IsStamp r.stamp) (joined files)
        → (answer : Answer) × HasAnswer (series_query job) media texts answer }
{}

/// The contents of the inputs of `series` don't have two answers.
pub fn one_series_answer()
    ensures { (job : SeriesJob) (media : List Media) (texts : List (List ℕ)) (a b : Answer)
        → HasAnswer (series_query job) media texts a → HasAnswer (series_query job) media texts b → a ≡ b }
{}
