//! Laws of the definitions. Each function is a theorem: it does nothing, and its clauses are proved.

ghost use Rattle.std.specs.Prelude.{◌≡◌, ℕ, Bool, List, All, None, Ok, Result, true, map, slice_get};
ghost use Rattle.timing_base.specs.Shifts.{FlowOptions};
ghost use Rattle.timing_base.specs.Jobs.{ReportJob, VerifyJob};
ghost use Rattle.timing_base.specs.Media.{Media};
ghost use Rattle.timing_base.specs.declared.row.Unjudged.{Unjudged};
ghost use Rattle.timing_report.specs.declared.json_report.reading.ReportProof.{ReportProof};
ghost use Rattle.timing_report.specs.declared.status.Status.TheVariants as status;
ghost use Rattle.timing_steps.specs.Answers.{Answer};
ghost use Rattle.timing_steps.specs.Queries.{HasAnswer};
ghost use Rattle.timing_top.specs.verify.Asked.{FindsOf, HasReported, media_for, not_there, verify_query};
ghost use Rattle.timing_top.specs.verify.Findings.{Finds};
ghost use Rattle.timing_top.specs.verify.Verified.{reported};

/// Captures have exactly one finding on a claim.
pub fn one_finding()
    ensures some { (media : Media) (claim : ReportProof) (options : FlowOptions) (texts : List (List ℕ))
        → (finding : Result Bool Unjudged) × Finds media claim options texts finding }
    ensures once { (media : Media) (claim : ReportProof) (options : FlowOptions) (texts : List (List ℕ))
        (a b : Result Bool Unjudged)
        → Finds media claim options texts a → Finds media claim options texts b → a ≡ b }
{}

/// The contents of the inputs of `verify` have exactly one answer, if the SDP has the media.
pub fn one_verified()
    ensures some { (job : VerifyJob) (media : List Media) (texts : List (List ℕ))
        → not_there (slice_get media job.media) ≡ None
        → (answer : Answer) × HasAnswer (verify_query job) media texts answer }
    ensures once { (job : VerifyJob) (media : List Media) (texts : List (List ℕ)) (a b : Answer)
        → HasAnswer (verify_query job) media texts a
        → HasAnswer (verify_query job) media texts b → a ≡ b }
{}

/// The contents of the inputs of `verify-report` have exactly one answer.
pub fn one_reported()
    ensures some { (job : ReportJob) (media : List Media) (claims : List ReportProof)
        (text : List ℕ → List ℕ) → (answer : Answer) × HasReported job media claims text answer }
    ensures once { (job : ReportJob) (media : List Media) (claims : List ReportProof)
        (text : List ℕ → List ℕ) (a b : Answer)
        → HasReported job media claims text a → HasReported job media claims text b → a ≡ b }
{}

/// If every violation of a report is confirmed, the answer has a line `confirmed` for each, and the status 0.
pub fn confirmed_report()
    ensures lines { (job : ReportJob) (media : List Media) (claims : List ReportProof)
        (text : List ℕ → List ℕ) (answer : Answer)
        → All (λ claim. FindsOf (media_for job media claim.key) job claim text (Ok true)) claims
        → HasReported job media claims text answer
        → answer ≡ reported (map (λ claim. record { claim = claim; finding = Ok true }) claims) }
    ensures status { (job : ReportJob) (media : List Media) (claims : List ReportProof)
        (text : List ℕ → List ℕ) (answer : Answer)
        → All (λ claim. FindsOf (media_for job media claim.key) job claim text (Ok true)) claims
        → HasReported job media claims text answer
        → answer.status ≡ status.Pass }
{}
