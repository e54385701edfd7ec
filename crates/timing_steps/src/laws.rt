//! Laws of the definitions. Each function is a theorem: it does nothing, and its clauses are proved.

ghost use Rattle.std.specs.Prelude.{◌≡◌, ⊤, List, ℕ, Result, Ok, Err};
ghost use Rattle.timing_report.specs.declared.status.Input.{Input};
ghost use Rattle.timing_report.specs.declared.status.Status.{Status};
ghost use Rattle.timing_report.specs.declared.status.Status.TheVariants as status;
ghost use Rattle.timing_steps.specs.Answers.{Answer};
ghost use Rattle.timing_steps.specs.Ran.{Appended, Broke, HasCause, IsAnswered, Leaves, Output};
ghost use Rattle.timing_steps.specs.declared.failure.Failure.{Failure};
ghost use Rattle.timing_steps.specs.declared.failure.Failure.TheVariants as failure;

/// The meaning of the status of a run, for every request.
///
/// - `read`: after a read fault, the outcome is that read fault, so that the count of faults of the named input rose.
/// - `write`: after a write fault, the count of faults of standard output rose, and a prefix of the answer stands there
///   that isn't the whole.
/// - `answered`: after the status of an answer, that answer is the outcome, and its whole text was printed.
pub fn statuses_have_causes()
    ensures read { (o : Output) (outcome : Result Answer Failure) (ends : Status) (input : Input)
        → Leaves o outcome ends → HasCause outcome (λ i. ⊤) → ends ≡ status.ReadFault input
        → outcome ≡ Err (failure.ReadFault input) }
    ensures write { (o : Output) (outcome : Result Answer Failure) (ends : Status)
        → Leaves o outcome ends → HasCause outcome (λ i. ⊤) → ends ≡ status.WriteFault
        → (answer : Answer) × (outcome ≡ Ok answer) × Broke o answer.text }
    ensures answered { (o : Output) (outcome : Result Answer Failure) (ends : Status)
        → Leaves o outcome ends → HasCause outcome (λ i. ⊤) → IsAnswered ends
        → (answer : Answer) × (outcome ≡ Ok answer) × (answer.status ≡ ends) × Appended o answer.text }
{}
