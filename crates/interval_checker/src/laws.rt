//! Theorems about the definition of an answer. Each function does nothing; its clauses are the theorem.

ghost use Rattle.std.specs.Prelude.{◌≡◌, ℕ, Bool, true, false, [], Result, Ok, Err};
ghost use Rattle.timing_base.specs.Judged.{FlowVerdict, judged};
ghost use Rattle.timing_base.specs.Media.{Media};
ghost use Rattle.timing_base.specs.declared.fail.Broken.TheVariants.{Bucket};
ghost use Rattle.timing_base.specs.declared.fail.FailProof.{FailProof};
ghost use Rattle.timing_base.specs.declared.media.Kind.{Kind};
ghost use Rattle.timing_base.specs.declared.media.Kind.TheVariants.{N};
ghost use Rattle.timing_base.specs.declared.packet.PacketFault.TheVariants.{StampBack};
ghost use Rattle.timing_base.specs.declared.row.Unjudged.{Unjudged};
ghost use Rattle.timing_base.specs.declared.row.Unjudged.TheVariants.{Absent, NoWholeFrame, Refused};
ghost use Rattle.sender_params.specs.Worked.{fail, hd_50};
ghost use Rattle.interval_checker.specs.Checked.{Says};
ghost use Rattle.timing_base.specs.Examples.{by_sequence_numbers};
ghost use Rattle.timing_base.specs.Shifts.{no_options};
ghost use Rattle.interval_checker.specs.Examples.{delayed, five_at_once, stamp_back, two_runs, wrapped};

/// For every verdict on a flow, run and violation, exactly one answer is right.
pub fn one_answer()
    ensures one { (m : Media) (kind : Kind) (f : FailProof) (run : ℕ) (verdict : FlowVerdict)
        → (answer : Result Bool Unjudged) × Says m kind f run verdict answer }
    ensures no_other { (m : Media) (kind : Kind) (f : FailProof) (run : ℕ) (verdict : FlowVerdict)
        (a b : Result Bool Unjudged) → Says m kind f run verdict a → Says m kind f run verdict b
        → a ≡ b }
{}

/// Five packets at once are one more than C_MAX of type N, and four of them aren't five. The flow has only run 0.
pub fn bucket_by_hand()
    ensures five { Says hd_50 N (fail Bucket 0 4 5 4) 0 (judged five_at_once 96 no_options) (Ok true) }
    ensures four { Says hd_50 N (fail Bucket 0 3 5 4) 0 (judged five_at_once 96 no_options) (Ok false) }
    ensures limit { Says hd_50 N (fail Bucket 0 4 5 3) 0 (judged five_at_once 96 no_options) (Ok false) }
    ensures no_run { Says hd_50 N (fail Bucket 0 4 5 4) 1 (judged five_at_once 96 no_options) (Ok false) }
{}

/// If a flow isn't judged, the answer is the reason; a run that doesn't exist confirms nothing.
pub fn unjudged_by_hand()
    ensures absent { Says hd_50 N (fail Bucket 0 4 5 4) 0 (judged [] 96 no_options) (Err Absent) }
    ensures refused { Says hd_50 N (fail Bucket 0 4 5 4) 0 (judged stamp_back 96 no_options)
        (Err (Refused 12 (StampBack 9 8))) }
    ensures first { Says hd_50 N (fail Bucket 0 4 5 4) 0 (judged two_runs 96 no_options)
        (Err (NoWholeFrame 1)) }
    ensures second { Says hd_50 N (fail Bucket 0 4 5 4) 1 (judged two_runs 96 no_options)
        (Err (NoWholeFrame 2)) }
    ensures third { Says hd_50 N (fail Bucket 0 4 5 4) 2 (judged two_runs 96 no_options) (Ok false) }
{}

/// If packets are numbered by sequence numbers alone, those of a frame go on from 65,535 to 0; else there is a gap.
pub fn numbers_by_hand()
    ensures counted { Says hd_50 N (fail Bucket 0 4 5 4) 0 (judged wrapped 96 by_sequence_numbers) (Ok true) }
    ensures as_sent { Says hd_50 N (fail Bucket 0 4 5 4) 0 (judged wrapped 96 no_options)
        (Err (NoWholeFrame 1)) }
{}

/// Whether a capture timestamp goes back is decided, and reported, without the shift, which makes both of these 0.
pub fn shift_by_hand()
    ensures judged { Says hd_50 N (fail Bucket 0 4 5 4) 0 (judged five_at_once 96 delayed) (Ok true) }
    ensures refused { Says hd_50 N (fail Bucket 0 4 5 4) 0 (judged stamp_back 96 delayed)
        (Err (Refused 12 (StampBack 9 8))) }
{}
