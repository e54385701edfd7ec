//! Laws of the definitions. Each function is a theorem: it does nothing, and its clauses are proved.

ghost use Rattle.std.specs.Prelude.{◌≡◌, ◌⊎◌, [], ◌∷◌, ℕ, Bool, List, All, Option, Some, None, Result, Ok, Err, false, filter, ◌==◌, ◌≤◌, length, true, map};
ghost use Rattle.timing_base.specs.Examples.{plain_media};
ghost use Rattle.timing_words.specs.declared.request.Request.{Request};
ghost use Rattle.timing_words.specs.declared.request.Request.TheVariants as asks;
ghost use Rattle.sdp_reader.specs.Session.{session};
ghost use Rattle.capture_gen.specs.Sdp.{sdp_text};
ghost use Rattle.timing_report.specs.declared.status.Input.{Input as InputValue};
ghost use Rattle.timing_steps.specs.Answers.{Answer, AreTold, seen_of};
ghost use Rattle.timing_steps.specs.Queries.{FollowsQuery};
ghost use Rattle.timing_steps.specs.Ran.{Output, Ran};
ghost use Rattle.timing_steps.specs.declared.failure.Failure.{Failure};
ghost use Rattle.timing_steps.specs.declared.failure.Failure.TheVariants as failure;
ghost use Rattle.timing_top.specs.Asked.{Follows, InputRose, MeasuresBytes, names_of, seen};
ghost use Rattle.timing_top.specs.Headline.{Headline, NoRequest, with_workers};
ghost use Rattle.timing_top.specs.SelfTest.{HasSelfTest};
ghost use Rattle.timing_words.specs.Request.{request};
ghost use Rattle.timing_base.specs.Jobs.{CheckJob, IsCheckJob};
ghost use Rattle.timing_base.specs.Media.{Media, IsMedia};
ghost use Rattle.timing_top.specs.Report.{HasReport, check_query, rows, with_choice};
ghost use Rattle.timing_top.specs.Runs.{RanAs, prints_whole};
ghost use Rattle.timing_base.specs.Captures.{Record};
ghost use Rattle.timing_base.specs.declared.capture.FileNote.{FileNote};
ghost use Rattle.pcap_reader.specs.Records.{AreRecords};
ghost use Rattle.pcapng_reader.specs.Bytes.{AreBytes};
ghost use Rattle.timing_report.specs.json_report.Fails.{FitsVerdict, fails_of};
ghost use Rattle.timing_report.specs.json_report.Json.{json_text};
ghost use Rattle.timing_report.specs.json_report.Reading.{IsReport};
ghost use Rattle.timing_report.specs.declared.json_report.reading.ReportProof.{ReportProof};
ghost use Rattle.timing_report.specs.declared.status.Status.{Status};
ghost use Rattle.timing_report.specs.declared.status.Status.TheVariants as status;
ghost use Rattle.timing_top.specs.verify.Asked.{FindsOf, HasReported, asked, media_for};
ghost use Rattle.timing_top.specs.Exact.{IsExactRow};
ghost use Rattle.timing_top.specs.ReadBack.{IsReadable, reading_back};

use timing_outside::Shelf;

/// `selftest` has exactly one answer for each number of frames.
pub fn one_self_test()
    ensures some { (frames : ℕ) → (answer : Answer) × HasSelfTest frames answer }
    ensures once { (frames : ℕ) (a b : Answer)
        → HasSelfTest frames a → HasSelfTest frames b → a ≡ b }
{}

/// The SDP that `selftest` uses, `plain.sdp`, is read as the plain media, worked by hand.
pub fn plain_media_by_hand()
    ensures { session sdp_text ≡ Ok (plain_media ∷ []) }
{}

/// The contents of the inputs of a request define exactly one answer.
///
/// `some`: if the contents of all inputs that the request names are known, and none is lacking, there is an answer. For
/// `verify-report` this takes the contents of all its captures, though it reads only those that the violations of its
/// report need. For `measure`, `series`, `page` and `explain` the contents have to be bytes, as those of all files are,
/// and for these and `watch` the job has to be within its limits, as that of every command line is. `once`: there
/// aren't two answers. `failed`: without an answer memory ran out, or the status names an input with a count of faults
/// that rose.
pub fn one_answer()
    ensures some { (asked : Option Request) (texts : List ℕ → Option (List ℕ))
        (lacking : List ℕ → Bool) (before now : List ℕ → ℕ) (told : List (List ℕ))
        → All (λ name. lacking name ≡ false) (names_of asked)
        → AreTold texts (names_of asked) told → MeasuresBytes asked told
        → (answer : Answer) × Follows asked (seen texts lacking before now) (Ok answer) }
    ensures once { (asked : Option Request) (texts : List ℕ → Option (List ℕ))
        (lacking : List ℕ → Bool) (before now : List ℕ → ℕ) (told : List (List ℕ)) (a b : Answer)
        → AreTold texts (names_of asked) told
        → Follows asked (seen texts lacking before now) (Ok a)
        → Follows asked (seen texts lacking before now) (Ok b) → a ≡ b }
    ensures failed { (asked : Option Request) (texts : List ℕ → Option (List ℕ))
        (lacking : List ℕ → Bool) (before now : List ℕ → ℕ) (told : List (List ℕ)) (e : Failure)
        → AreTold texts (names_of asked) told
        → Follows asked (seen texts lacking before now) (Err e)
        → (e ≡ failure.OutOfMemory) ⊎ ((input : InputValue) × (e ≡ failure.ReadFault input)
        × InputRose asked (seen texts lacking before now) input) }
{}

/// The contents of an SDP and of captures have exactly one report.
pub fn one_report()
    ensures some { (job : CheckJob) (media : List Media) (texts : List (List ℕ))
        → (answer : Answer) × HasReport job media texts answer }
    ensures once { (job : CheckJob) (media : List Media) (texts : List (List ℕ)) (a b : Answer)
        → HasReport job media texts a → HasReport job media texts b → a ≡ b }
{}

/// The report of a chosen media has the results of this media that the report of all media has, under the same number,
/// and no others.
pub fn chosen_rows()
    ensures { (job : CheckJob) (number : ℕ) (media : List Media) (files : List (List Record)) → job.media ≡ None
        → rows (with_choice number job) media files ≡ filter (λ row. row.key.media == number) (rows job media files) }
{}

/// A sender type passes in a report exactly if no interval of judged packets has more packets than C_MAX plus the drain
/// ticks in it, and at every instant the receiver buffer holds between nothing and VRX_FULL. Each violation in the
/// report names an interval that its numbers confirm.
pub fn types_are_exact()
    ensures { (job : CheckJob) (media : List Media) (texts : List (List ℕ)) (answer : Answer)
        → IsCheckJob job → All IsMedia media → All AreBytes texts
        → length texts ≡ length job.captures → (h : HasReport job media texts answer)
        → All (IsExactRow job.joined job.options media h.files) (rows job media h.files) }
{}

/// The numbers in the results of captures have 64 bits, whatever the captures contain.
pub fn rows_have_words()
    ensures { (job : CheckJob) (media : List Media) (text : List ℕ → List ℕ)
        (files : List (List Record)) (notes : List FileNote) → IsReadable job media text
        → AreRecords (map text job.captures) files notes
        → All (λ row. FitsVerdict row.verdict) (rows job media files) }
{}

/// Every violation in the results of captures is confirmed by these captures.
pub fn rows_are_confirmed()
    ensures { (job : CheckJob) (media : List Media) (text : List ℕ → List ℕ) (name : List ℕ)
        (files : List (List Record)) (notes : List FileNote) → IsReadable job media text
        → AreRecords (map text job.captures) files notes
        → All (λ claim. FindsOf (media_for (reading_back job name) media claim.key)
        (reading_back job name) claim text (Ok true)) (fails_of (rows job media files)) }
{}

/// The JSON of results of captures is read back as their violations in order, if it isn't longer than a report may be.
/// `verify-report` over the same contents then ends with status 0, whatever the name of the report is.
pub fn json_verifies()
    ensures told { (job : CheckJob) (media : List Media) (text : List ℕ → List ℕ)
        (files : List (List Record)) (notes : List FileNote) → IsReadable job media text
        → AreRecords (map text job.captures) files notes
        → length (json_text job media notes (rows job media files)) ≤ 16777216
        → IsReport (json_text job media notes (rows job media files))
        (fails_of (rows job media files)) }
    ensures status { (job : CheckJob) (media : List Media) (text : List ℕ → List ℕ) (name : List ℕ)
        (files : List (List Record)) (notes : List FileNote) (claims : List ReportProof)
        (verified : Answer) → IsReadable job media text
        → AreRecords (map text job.captures) files notes
        → IsReport (json_text job media notes (rows job media files)) claims
        → HasReported (reading_back job name) media (asked job.media claims) text verified
        → verified.status ≡ status.Pass }
{}

/// A JSON report verifies. It is read back as the violations of its results in order; the captures of the report
/// confirm each of them; and `verify-report` over the same contents ends with status 0, whatever the name of the report
/// is.
pub fn report_verifies()
    ensures told { (job : CheckJob) (media : List Media) (text : List ℕ → List ℕ) (answer : Answer)
        → IsReadable job media text → job.json ≡ true → length answer.text ≤ 16777216
        → (h : HasReport job media (map text job.captures) answer)
        → IsReport answer.text (fails_of (rows job media h.files)) }
    ensures confirmed { (job : CheckJob) (media : List Media) (text : List ℕ → List ℕ)
        (name : List ℕ) (answer : Answer) → IsReadable job media text
        → (h : HasReport job media (map text job.captures) answer)
        → All (λ claim. FindsOf (media_for (reading_back job name) media claim.key)
        (reading_back job name) claim text (Ok true)) (fails_of (rows job media h.files)) }
    ensures status { (job : CheckJob) (media : List Media) (text : List ℕ → List ℕ)
        (name : List ℕ) (answer : Answer) (claims : List ReportProof) (verified : Answer)
        → IsReadable job media text → job.json ≡ true
        → HasReport job media (map text job.captures) answer → IsReport answer.text claims
        → HasReported (reading_back job name) media (asked job.media claims) text verified
        → verified.status ≡ status.Pass }
{}

/// No report, and no outcome of `check`, depends on the number of workers, over any shelf.
pub fn same_for_all_workers<H: Shelf>()
    ensures report { (job : CheckJob) (workers : ℕ) (media : List Media) (texts : List (List ℕ))
        (answer : Answer) → HasReport job media texts answer
        → HasReport (with_workers workers job) media texts answer }
    ensures follows { (job : CheckJob) (workers : ℕ) (old new : H) (outcome : Result Answer Failure)
        → FollowsQuery (check_query job) (seen_of H.Shelf old new) outcome
        → FollowsQuery (check_query (with_workers workers job)) (seen_of H.Shelf old new) outcome }
{}

/// For every request but `series`, and for an invalid command line, the clause `ran` of `crate::run` means that the
/// answer was printed whole, or nothing was, except if a write failed.
pub fn whole_or_nothing<H: Shelf>()
    ensures { (asked : Option Request) (old new : H) (out err : Output) (ends : Status) → prints_whole asked ≡ true
        → RanAs asked (seen_of H.Shelf old new) out err ends
        → Ran (Follows asked (seen_of H.Shelf old new)) (InputRose asked (seen_of H.Shelf old new)) out err ends }
{}

/// The output and status of a run of `check`, whatever the command line, the SDP and the bytes of the captures are,
/// over any shelf, with every number of workers and every interleaving of their threads; and the output and status for
/// an invalid command line.
///
/// The last premise of either clause is what the clause `ran` of `crate::run` states for every request but `series`
/// (`whole_or_nothing`).
pub fn headline<H: Shelf>()
    ensures check { (words : List (List ℕ)) (job : CheckJob) (sdp : List ℕ) (captures : List (List ℕ))
        (old new : H) (out err : Output) (ends : Status)
        → request words ≡ Some (asks.Check job)
        → H.text old job.sdp ≡ Some sdp
        → AreTold (H.text old) job.captures captures
        → All AreBytes captures
        → Ran (Follows (request words) (seen_of H.Shelf old new))
        (InputRose (request words) (seen_of H.Shelf old new)) out err ends
        → Headline job sdp captures (seen_of H.Shelf old new) out ends }
    ensures no_request { (words : List (List ℕ)) (old new : H) (out err : Output) (ends : Status)
        → request words ≡ None
        → Ran (Follows (request words) (seen_of H.Shelf old new))
        (InputRose (request words) (seen_of H.Shelf old new)) out err ends
        → NoRequest out ends }
{}
