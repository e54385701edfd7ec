//! Laws of the definitions. Each function is a theorem: it does nothing, and its clauses are proved.

ghost use Rattle.std.specs.Prelude.{◌≡◌, ◌≤◌, ◌<◌, ◌^◌, ◌∷◌, [], ◌+ℤ◌, ℕ, ℤ, All, List, Some, false, length, pos, true};
ghost use Rattle.timing_base.specs.Captures.{IsStamp, Record, joined};
ghost use Rattle.timing_base.specs.Jobs.{ExplainJob, IsCaptureJob};
ghost use Rattle.timing_base.specs.Media.{IsMedia, Media};
ghost use Rattle.timing_base.specs.Shifts.{FlowOptions};
ghost use Rattle.timing_base.specs.declared.capture.FileNote.{FileNote};
ghost use Rattle.timing_base.specs.declared.packet.FlowPacket.{FlowPacket};
ghost use Rattle.flow_findings.specs.Details.{span_at};
ghost use Rattle.flow_findings.specs.Lists.{AreOfVerdict};
ghost use Rattle.flow_findings.specs.Numbers.{numbers_of};
ghost use Rattle.flow_findings.specs.declared.inputs.KnownFlow.{KnownFlow};
ghost use Rattle.flow_findings.specs.declared.inputs.ShownRun.{ShownRun};
ghost use Rattle.flow_measure.specs.Groups.{firsts_of, lasts_of, since_at};
ghost use Rattle.pcap_reader.specs.Records.{AreRecords};
ghost use Rattle.timing_steps.specs.Answers.{Answer};
ghost use Rattle.timing_steps.specs.Queries.{HasAnswer};
ghost use Rattle.timing_explain.specs.Explained.{explain_query};
ghost use Rattle.timing_explain.specs.Known.{IsKnownFlow};
ghost use Rattle.timing_explain.specs.Micros.{are_whole};

/// The contents of the inputs of `explain` have an answer, if the media are within their limits and the packet records
/// have timestamps that a capture can have.
pub fn some_explain_answer()
    ensures { (job : ExplainJob) (media : List Media) (texts : List (List ℕ)) (files : List (List Record))
        (notes : List FileNote)
        → IsCaptureJob job.flows → All IsMedia media → AreRecords texts files notes → length (joined files) < 2 ^ 41
        → All (λ r. IsStamp r.stamp) (joined files)
        → (answer : Answer) × HasAnswer (explain_query job) media texts answer }
{}

/// The contents of the inputs of `explain` don't have two answers.
pub fn one_explain_answer()
    ensures { (job : ExplainJob) (media : List Media) (texts : List (List ℕ)) (a b : Answer)
        → HasAnswer (explain_query job) media texts a → HasAnswer (explain_query job) media texts b → a ≡ b }
{}

/// The numbers of a run that is shown are those of its verdict: the sender type that its findings are about passes
/// exactly if the bucket never exceeds C_MAX and no packet breaks the buffer. So the laws of `flow_findings` on lists
/// hold for each flow that is explained.
pub fn numbers_are_of_the_verdict()
    ensures { (m : Media) (number : ℕ) (options : FlowOptions) (packets : List FlowPacket) (flow : KnownFlow)
        (s : ShownRun) → IsKnownFlow m number options packets flow → flow.shown ≡ Some s
        → AreOfVerdict (numbers_of m s) }
{}

/// The time from the first packet of a frame or field to its last, of which `span` is the greatest, is the difference
/// of these packets' times since the instant at which the frame or field begins, although both are rounded down.
pub fn span_is_a_difference()
    ensures { (m : Media) (anchor : ℤ) (n k : ℕ) (stamp : ℕ → ℕ)
        → IsMedia m → firsts_of n stamp k ≤ lasts_of n stamp k
        → since_at m anchor (lasts_of n stamp) k ≡ since_at m anchor (firsts_of n stamp) k +ℤ pos (span_at n stamp k) }
{}

/// 1,600,000,000.000764 s is a whole number of microseconds, and 444 ns later isn't one.
pub fn microseconds_by_hand()
    ensures whole { are_whole (record { number = 1; stamp = 1600000000000764000; bytes = [] } ∷ []) ≡ true }
    ensures one_is_not { are_whole (record { number = 1; stamp = 1600000000000764000; bytes = [] }
        ∷ record { number = 2; stamp = 1600000000000764444; bytes = [] } ∷ []) ≡ false }
    ensures none { are_whole [] ≡ true }
{}
