//! `shape`: delays the packets of a flow as little as the limits of a sender type allow.

mod copy;
mod delays;
mod kept;
mod leaver;
mod reading;
mod shaping;
mod walk;
mod words;

ghost use Rattle.std.specs.Prelude.{◌≡◌, ◌≤◌, ◌∷◌, [], Bool, List, None, Some, IfErr, IfOk, ℕ, false, slice_get, true};
ghost use Rattle.timing_base.specs.Captures.{Record};
ghost use Rattle.timing_base.specs.Judged.{judged};
ghost use Rattle.timing_outside.specs.Shelves.{StaysAs};
ghost use Rattle.pcapng_reader.specs.Classic.{classic_texts};
ghost use Rattle.udp_rtp.specs.Flow.{flow};
ghost use Rattle.timing_steps.specs.Answers.{AreThere, AreTold, CaptureRose, OnReadFault, seen_of};
ghost use Rattle.timing_steps.specs.Flows.{OnMedia, no_media};
ghost use Rattle.timing_steps.specs.Queries.{FollowsCaptures, judged_ends};
ghost use Rattle.timing_reach.specs.Asked.{OnRun};
ghost use Rattle.timing_reach.specs.Shaped.{shape_query};
ghost use Rattle.timing_reach.specs.Shapes.{HasShape};
ghost use Rattle.timing_reach.specs.shape.Readings.{AnswersSome, IsKeptFlow, IsKeptIn, IsRead};

use crate::judged::flows::take_flow;
use crate::shape::reading::{KeptFlow, Reading};
use crate::shape::shaping::shape_kept;
use std::alloc::{AllocError as OutOfMemory, Global};
use timing_base::{FileName, FlowOptions, Kind, Media, Session, ShapeJob, Verdict};
use timing_outside::{Shelf, Sink};
use timing_report::Input;
use timing_steps::{Answer, Command, Failure, early_of_media, media_of, not_judged};

/// Returns the answer for a flow that is kept: its shaped packets if it is judged in one run, else its verdict.
fn told_of(
    alloc: Global,
    media: &Media,
    kind: Kind,
    options: FlowOptions,
    kept: KeptFlow,
) -> Result<Answer, OutOfMemory>
    requires { (list : Bool) × IsRead media.now options list kept }
    ensures ends { IfOk result (λ answer. judged_ends false answer.status ≡ true) }
    ensures answers { IfOk result (λ answer. (list : Bool) (items : List Record)
        → IsKeptFlow media.now options list items kept
        → OnRun media.now (HasShape list options.shift kind media.now items)
        (judged (flow items media.now) media.now.pt options) answer) }
{
    let KeptFlow { verdict, packets } = kept;
    match &verdict {
        Verdict::Judged(judged) => shape_kept(alloc, media, kind, options.shift, judged, packets),
        verdict => not_judged(alloc, media, verdict),
    }
}

/// Opens the captures of a job, reads the flow in all of them as one, and keeps the packets while the flow is judged.
fn read<H: Shelf>(
    alloc: Global,
    job: &ShapeJob,
    shelf: &mut H,
    media: &Media,
) -> Result<KeptFlow, Failure>
    ensures told { IfOk result (λ kept. (texts : List (List ℕ))
        → AreTold (classic_texts (H.text shelf.old)) job.now.flow.captures texts
        → IsKeptIn media.now job.now.flow.options job.now.list texts kept) }
    ensures read { IfOk result (λ kept. IsRead media.now job.now.flow.options job.now.list kept) }
    ensures cause { IfErr result (λ e. OnReadFault e (λ i. (number : ℕ) × (i ≡ Input.Capture number)
        × CaptureRose (H.faults shelf.old) (H.faults shelf.new) job.now.flow.captures number)) }
    ensures there { IfOk result (λ _. AreThere (H.lacks shelf.old) job.now.flow.captures) }
    ensures stays { StaysAs H.text H.lacks H.faults shelf.old shelf.new }
{
    let flow = &job.flow;
    let reading = Reading::new(alloc, media, flow.media, flow.options, job.list)?;
    let reading = take_flow(alloc, shelf, flow.captures.as_slice(), media, reading)?;
    Ok(reading.finish()?)
}

/// Returns the answer for a flow that was read with this result.
fn answer_kept(
    alloc: Global,
    job: &ShapeJob,
    media: &Media,
    kept: KeptFlow,
) -> Result<Answer, OutOfMemory>
    requires { IsRead media.now job.now.flow.options job.now.list kept }
    ensures ends { IfOk result (λ answer. judged_ends false answer.status ≡ true) }
    ensures some { IfOk result (λ answer. AnswersSome job.now media.now answer) }
    ensures answers { IfOk result (λ answer. (items : List Record)
        → IsKeptFlow media.now job.now.flow.options job.now.list items kept
        → OnRun media.now (HasShape job.now.list job.now.flow.options.shift job.now.kind media.now items)
        (judged (flow items media.now) media.now.pt job.now.flow.options) answer) }
{
    let flow = &job.flow;
    told_of(alloc, media, job.kind, flow.options, kept)
}

/// Returns the answer for the flow of the media of a job, or the reason why there is none. The answer is that for the
/// packet records that were read, also if the contents of the captures aren't known.
fn answer_shape<H: Shelf>(
    alloc: Global,
    job: &ShapeJob,
    session: &Session,
    shelf: &mut H,
) -> Result<Answer, Failure>
    requires { no_media (slice_get session.now job.now.flow.media) ≡ None }
    ensures follows { FollowsCaptures (shape_query job.now) session.now
        (seen_of H.Shelf shelf.old shelf.new) result }
    ensures some { IfOk result (λ answer.
        OnMedia (slice_get session.now job.now.flow.media) (λ m. AnswersSome job.now m answer)) }
    ensures ends { IfOk result (λ answer. judged_ends false answer.status ≡ true) }
    ensures cause { IfErr result (λ e. OnReadFault e (λ i. (number : ℕ) × (i ≡ Input.Capture number)
        × CaptureRose (H.faults shelf.old) (H.faults shelf.new) job.now.flow.captures number)) }
    ensures stays { StaysAs H.text H.lacks H.faults shelf.old shelf.new }
{
    let flow = &job.flow;
    let media = media_of(session, flow.media);
    let kept = read(alloc, job, shelf, media)?;
    Ok(answer_kept(alloc, job, media, kept)?)
}

/// The command `shape`: prints the flow of a job as a capture in which its judged packets leave as early as the limits
/// of a sender type allow, or the list of those that are delayed.
#[derive(Drop)]
pub struct ShapeCommand {
    /// The flow, the sender type, and the form of the output.
    pub job: ShapeJob,
}

impl Command for ShapeCommand {
    ghost use Rattle.timing_reach.specs.Shaped.{shape_query};

    ghost query = { λ command. shape_query command.job };

    ghost streams = { false };

    fn sdp(&self) -> &FileName {
        let flow = &self.job.flow;
        &flow.sdp
    }

    fn early(&self, alloc: Global, session: &Session) -> Result<Option<Answer>, OutOfMemory> {
        let flow = &self.job.flow;
        early_of_media(alloc, session, flow.media)
    }

    fn answer<H: Shelf, K: Sink>(
        &self,
        alloc: Global,
        session: &Session,
        shelf: &mut H,
        _out: &mut K,
    ) -> Result<Answer, Failure> {
        answer_shape(alloc, &self.job, session, shelf)
    }
}
