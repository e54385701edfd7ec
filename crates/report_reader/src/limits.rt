//! The conditions of the laws on numbers: all values of the program's types meet them. Each function is a theorem: it
//! does nothing, and its clauses are proved.

ghost use Rattle.std.specs.Option.{ForSome};
ghost use Rattle.timing_base.specs.Verdicts.{IsJudged};
ghost use Rattle.report_reader.specs.Reported.{FitsMedia, FitsNote, FitsReason};
ghost use Rattle.timing_report.specs.json_report.Fails.{FitsKind, FitsUnjudged, IsWord};
ghost use Rattle.timing_report.specs.Outcomes.{verdict_on};
ghost use Rattle.timing_base.specs.declared.media.Kind.TheVariants.{N, NL, W};

use timing_base::{FileNote, Judged, Media, Run, Unjudged};

/// The numbers of a note have 64 bits.
pub fn notes_fit(note: FileNote)
    ensures { FitsNote note }
{}

/// The numbers of a reason have 64 bits.
pub fn reasons_fit(reason: Unjudged)
    ensures { FitsUnjudged reason × FitsReason reason }
{}

/// The numbers of a judged run have 64 bits.
pub fn judged_fit(judged: Judged)
    ensures is { IsJudged judged }
    ensures frames { IsWord judged.frames }
    ensures packets { IsWord judged.packets }
    ensures head { IsWord judged.head }
    ensures tail { IsWord judged.tail }
    ensures bucket_peak { IsWord judged.bucket_peak }
    ensures gapped_peak { IsWord judged.gapped_peak }
    ensures linear_peak { IsWord judged.linear_peak }
    ensures n { FitsKind (verdict_on judged N) }
    ensures nl { FitsKind (verdict_on judged NL) }
    ensures w { FitsKind (verdict_on judged W) }
{}

/// The numbers of a run between gaps have 64 bits.
pub fn runs_fit(run: Run)
    ensures rec { IsWord run.rec }
    ensures number { IsWord run.number }
    ensures expected { ForSome run.expected IsWord }
{}

/// The address of a media has 32 bits, its port 16.
pub fn media_fit(media: Media)
    ensures { FitsMedia media }
{}
