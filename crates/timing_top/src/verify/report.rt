//! `verify-report`: checks each violation in a JSON report from the captures alone.

ghost use Rattle.std.specs.Prelude.{◌≡◌, ℕ, List, Some, IfOk, IfErr, MatchOption};
ghost use Rattle.timing_report.specs.json_report.Reading.{IsReport};
ghost use Rattle.timing_report.specs.declared.json_report.reading.ReportProof.{ReportProof as Claim};
ghost use Rattle.timing_outside.specs.Causes.{Rose};
ghost use Rattle.timing_outside.specs.Shelves.{StaysAs};
ghost use Rattle.timing_steps.specs.Answers.{Gives, OnReadFault, Yields, seen_of};
ghost use Rattle.timing_steps.specs.Ends.{EndsWith, HasStatus};
ghost use Rattle.timing_steps.specs.Ran.{HasCause, Ran, output_of};
ghost use Rattle.timing_top.specs.verify.Asked.{AnswersClaims, AnswersReport, AnswersSession, FollowsReport, ReportInputRose, asked};
ghost use Rattle.timing_top.specs.verify.Verified.{report_ends};

use crate::verify::needs::check_each;
use crate::verify::words::reported;
use std::alloc::Global;
use timing_base::{Media, ReportJob, Session};
use timing_outside::{Shelf, Sink};
use timing_report::json_report::{ReportError, ReportProof, read_json};
use timing_report::{Input, Status};
use timing_steps::{Answer, Failure, conclude, early_of_choice, fetch_front, fetch_session};

/// The greatest number of bytes that are read of a report: one more than a report may have.
const REPORT_MOST: usize = 16_777_217;

/// Returns the violations in the report with this name, or `None` if it isn't in the form of a report.
fn fetch_report<H: Shelf>(
    alloc: Global,
    shelf: &mut H,
    name: &str,
) -> Result<Option<Vec<ReportProof>>, Failure>
    ensures told { IfOk result (λ read. (text : List ℕ) → H.text shelf.old name.now ≡ Some text
        → MatchOption read ((claims : List Claim) → ¬ IsReport text claims)
        (λ claims. IsReport text claims.items)) }
    ensures cause { IfErr result (λ e. OnReadFault e (λ i. (i ≡ Input.Report)
        × Rose (H.faults shelf.old name.now) (H.faults shelf.new name.now))) }
    ensures there { IfOk result (λ _. ¬ H.lacks shelf.old name.now) }
    ensures stays { StaysAs H.text H.lacks H.faults shelf.old shelf.new }
{
    let bytes = match fetch_front(alloc, shelf, name, REPORT_MOST) {
        Ok(bytes) => bytes,
        Err(fault) => return Err(Failure::of_input(fault, Input::Report)),
    };
    match read_json(alloc, &bytes) {
        Ok(claims) => Ok(Some(claims)),
        Err(ReportError::Refused) => Ok(None),
        Err(ReportError::OutOfMemory) => Err(Failure::OutOfMemory),
    }
}

/// Returns the violations that are checked: all, or those of the chosen media.
fn asked(mut claims: Vec<ReportProof>, only: Option<u32>) -> Vec<ReportProof>
    ensures { result.items ≡ asked only claims.items }
{
    if let Some(number) = only {
        claims.retain(|claim| claim.key.media == number);
    }
    claims
}

/// Returns the answer on these violations of a report.
fn answer_on<H: Shelf>(
    alloc: Global,
    job: &ReportJob,
    shelf: &mut H,
    media: &[Media],
    claims: &[ReportProof],
) -> Result<Answer, Failure>
    ensures follows { Yields result (AnswersClaims job.now (seen_of H.Shelf shelf.old shelf.new) result
        media.now claims.now) }
    ensures answers { IfOk result (HasStatus report_ends) }
    ensures cause { HasCause result (ReportInputRose job.now (seen_of H.Shelf shelf.old shelf.new)) }
    ensures stays { StaysAs H.text H.lacks H.faults shelf.old shelf.new }
{
    let checked = check_each(alloc, job, shelf, media, claims)?;
    Ok(reported(alloc, &checked)?)
}

/// Returns the answer over a session of these media, which has the chosen one.
fn answer_over<H: Shelf>(
    alloc: Global,
    job: &ReportJob,
    shelf: &mut H,
    media: &[Media],
) -> Result<Answer, Failure>
    ensures follows { Yields result (AnswersReport job.now (seen_of H.Shelf shelf.old shelf.new) result media.now) }
    ensures answers { IfOk result (HasStatus report_ends) }
    ensures cause { HasCause result (ReportInputRose job.now (seen_of H.Shelf shelf.old shelf.new)) }
    ensures stays { StaysAs H.text H.lacks H.faults shelf.old shelf.new }
{
    match fetch_report(alloc, shelf, job.report.as_str())? {
        Some(claims) => {
            let claims = asked(claims, job.media);
            answer_on(alloc, job, shelf, media, &claims)
        }
        None => Ok(Answer::silent(alloc, Status::ReportRefused)),
    }
}

/// Returns the answer over a session. If it doesn't have the chosen media, the report isn't opened.
fn answer_session<H: Shelf>(
    alloc: Global,
    job: &ReportJob,
    shelf: &mut H,
    session: &Session,
) -> Result<Answer, Failure>
    ensures follows { Yields result (AnswersSession job.now (seen_of H.Shelf shelf.old shelf.new) result session.now) }
    ensures answers { IfOk result (HasStatus report_ends) }
    ensures cause { HasCause result (ReportInputRose job.now (seen_of H.Shelf shelf.old shelf.new)) }
    ensures stays { StaysAs H.text H.lacks H.faults shelf.old shelf.new }
{
    match early_of_choice(alloc, session, job.media)? {
        Some(answer) => Ok(answer),
        None => answer_over(alloc, job, shelf, session.media.as_slice()),
    }
}

/// Returns the answer of a job, or the reason why there is none. The violations that are checked are in the report's
/// order. The captures of a file are read once, for the first violation that needs them; none is read for a violation
/// with a flow that doesn't exist.
fn answer_report<H: Shelf>(alloc: Global, job: &ReportJob, shelf: &mut H) -> Result<Answer, Failure>
    ensures follows { FollowsReport job.now (seen_of H.Shelf shelf.old shelf.new) result }
    ensures answers { IfOk result (HasStatus report_ends) }
    ensures cause { HasCause result (ReportInputRose job.now (seen_of H.Shelf shelf.old shelf.new)) }
    ensures stays { StaysAs H.text H.lacks H.faults shelf.old shelf.new }
{
    match fetch_session(alloc, shelf, job.sdp.as_str())? {
        Ok(session) => answer_session(alloc, job, shelf, &session),
        Err(fault) => Ok(Answer::silent(alloc, Status::SdpRefused(fault))),
    }
}

/// Runs `verify-report`: checks each violation of the report, or each of the chosen media, and prints on `out` which of
/// them the captures confirm.
/// Prints on `err` the reason if there is no output.
pub fn verify_all<H: Shelf, K: Sink>(
    alloc: Global,
    job: &ReportJob,
    shelf: &mut H,
    out: &mut K,
    err: &mut K,
) -> Status
    ensures ran { Ran (FollowsReport job.now (seen_of H.Shelf shelf.old shelf.new))
        (ReportInputRose job.now (seen_of H.Shelf shelf.old shelf.new))
        (output_of K.Sink out.old out.new)
        (output_of K.Sink err.old err.new)
        result }
    ensures ends { EndsWith report_ends (output_of K.Sink out.old out.new) result }
    ensures stays { StaysAs H.text H.lacks H.faults shelf.old shelf.new }
{
    let outcome = answer_report(alloc, job, shelf);
    conclude(out, err, outcome)
}
