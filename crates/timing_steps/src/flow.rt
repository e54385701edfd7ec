//! The media that a job names, and the answer for a flow that isn't judged.

ghost use Rattle.std.specs.Prelude.{◌≡◌, IfOk, IfSome, None, Some, false, slice_get, true};
ghost use Rattle.timing_base.specs.Choices.{chosen, first_chosen};
ghost use Rattle.timing_steps.specs.Flows.{no_choice, no_media, no_such_media, not_judged};
ghost use Rattle.timing_steps.specs.Queries.{judged_ends};

use crate::answer::Answer;
use std::alloc::{AllocError as OutOfMemory, Global};
use timing_base::{Media, Session, Verdict};
use timing_report::{Status, verdict_of};

/// Returns the answer if the SDP doesn't have the media. Returns `Err` if memory runs out.
fn no_such_media(alloc: Global) -> Result<Answer, OutOfMemory>
    ensures { IfOk result (λ answer. answer ≡ no_such_media) }
{
    Ok(Answer {
        text: String::from_str(alloc, "no such media\n")?.into_bytes(),
        status: Status::NotAllJudged,
    })
}

/// Returns the answer that a session doesn't have the media with this number, counted from 0, or `None` if it has it.
/// Returns `Err` if memory runs out.
pub fn early_of_media(
    alloc: Global,
    session: &Session,
    number: u32,
) -> Result<Option<Answer>, OutOfMemory>
    ensures early { IfOk result (λ found. found ≡ no_media (slice_get session.now number)) }
    ensures ends { IfOk result (λ found. IfSome found (λ answer.
        judged_ends false answer.status ≡ true)) }
    ensures ends_check { IfOk result (λ found. IfSome found (λ answer.
        judged_ends true answer.status ≡ true)) }
{
    match session.media.as_slice().get(number as usize) {
        Some(_) => Ok(None),
        None => Ok(Some(no_such_media(alloc)?)),
    }
}

/// Returns the media with this number, counted from 0, of a session that has it.
#[tactic(auto, using(crate::proofs::Capturing::media_within, std::proofs::lemmas::Option::slice_get_read))]
pub fn media_of(session: &Session, number: u32) -> &Media
    requires has { no_media (slice_get session.now number) ≡ None }
    ensures found { slice_get session.now number ≡ Some result.now }
{
    &session.media.as_slice()[number as usize]
}

/// Returns the answer that a session doesn't have the chosen media, counted from 0, or `None` if it has it, or if no
/// media is chosen. Returns `Err` if memory runs out.
pub fn early_of_choice(
    alloc: Global,
    session: &Session,
    only: Option<u32>,
) -> Result<Option<Answer>, OutOfMemory>
    ensures early { IfOk result (λ found. found ≡ no_choice only session.now) }
    ensures ends { IfOk result (λ found. IfSome found (λ answer.
        judged_ends false answer.status ≡ true)) }
    ensures ends_check { IfOk result (λ found. IfSome found (λ answer.
        judged_ends true answer.status ≡ true)) }
{
    match only {
        Some(number) => early_of_media(alloc, session, number),
        None => Ok(None),
    }
}

/// Returns the media of a session that are judged: all, or the chosen one, counted from 0. There are none if the
/// session doesn't have the chosen one.
pub fn chosen_media(session: &Session, only: Option<u32>) -> &[Media]
    ensures { result.now ≡ chosen only session.now }
{
    let media = session.media.as_slice();
    match only {
        Some(number) => {
            let rest = &media[(number as usize).min(media.len())..];
            &rest[..rest.len().min(1)]
        }
        None => media,
    }
}

/// Returns the number of the first media that is judged, counted from 0.
pub fn first_chosen(only: Option<u32>) -> u32
    ensures { result ≡ first_chosen only }
{
    only.unwrap_or(0)
}

/// Returns the answer for a flow that isn't judged in one run. Returns `Err` if memory runs out.
pub fn not_judged(alloc: Global, media: &Media, verdict: &Verdict) -> Result<Answer, OutOfMemory>
    ensures { IfOk result (λ answer. answer ≡ not_judged media.now verdict.now) }
{
    let verdict = verdict_of(alloc, media, verdict)?;
    Ok(Answer {
        text: format!(in alloc; "not judged: {verdict}\n")?.into_bytes(),
        status: Status::NotAllJudged,
    })
}
