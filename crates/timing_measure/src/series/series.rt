//! `series`: prints the rows of the judged runs of the flow of a job.

ghost use Rattle.std.specs.Prelude.{◌≡◌, ◌≤◌, ℕ, IfErr, IfOk, None, false, slice_get, true};
ghost use Rattle.timing_outside.specs.Shelves.{StaysAs};
ghost use Rattle.timing_steps.specs.Answers.{CaptureRose, seen_of};
ghost use Rattle.timing_steps.specs.Flows.{no_media};
ghost use Rattle.timing_steps.specs.Queries.{BeginsCaptures, FollowsCaptures, judged_ends};
ghost use Rattle.timing_steps.specs.Ran.{output_of};
ghost use Rattle.timing_steps.specs.Streams.{OnFailure, Rests};
ghost use Rattle.timing_measure.specs.series.Series.{series_query};

use crate::series::flow::SeriesFlow;
use crate::series::stream::copy_captures;
use std::alloc::{AllocError as OutOfMemory, Global};
use timing_base::{FileName, SeriesJob, Session};
use timing_outside::{Shelf, Sink};
use timing_report::Input;
use timing_steps::{Answer, Command, Failure, early_of_media, media_of};

/// Reads the captures of a job, and prints the rows of its flow meanwhile. Returns the rest of the answer that isn't
/// printed yet, or the reason why there is no answer, or not the whole.
fn answer_series<H: Shelf, K: Sink>(
    alloc: Global,
    job: &SeriesJob,
    session: &Session,
    shelf: &mut H,
    out: &mut K,
) -> Result<Answer, Failure>
    requires { no_media (slice_get session.now job.now.flow.media) ≡ None }
    ensures rests { Rests (output_of K.Sink out.old out.new)
        (FollowsCaptures (series_query job.now) session.now (seen_of H.Shelf shelf.old shelf.new))
        (BeginsCaptures (series_query job.now) session.now (seen_of H.Shelf shelf.old shelf.new)) result }
    ensures ends { IfOk result (λ rest. judged_ends false rest.status ≡ true) }
    ensures cause { IfErr result (λ e. OnFailure (output_of K.Sink out.old out.new) e (λ i.
        (number : ℕ) × (i ≡ Input.Capture number) × CaptureRose (H.faults shelf.old)
        (H.faults shelf.new) job.now.flow.captures number)) }
    ensures later { K.faults out.old ≤ K.faults out.new }
    ensures stays { StaysAs H.text H.lacks H.faults shelf.old shelf.new }
{
    let media = media_of(session, job.flow.media);
    let mut flow = SeriesFlow::new(alloc, media, job.flow.media, job.flow.options, job.frames)?;
    let taken = copy_captures(alloc, shelf, job.flow.captures.as_slice(), &mut flow, out)?;
    Ok(flow.finish(alloc, taken.notes.as_slice())?)
}

/// The command `series`: prints the rows of the judged runs of the flow of a job, while they are made.
#[derive(Drop)]
pub struct SeriesCommand {
    /// The flow, and whether there is a row for each packet or for each frame or field.
    pub job: SeriesJob,
}

impl Command for SeriesCommand {
    ghost use Rattle.timing_measure.specs.series.Series.{series_query};

    ghost query = { λ command. series_query command.job };

    ghost streams = { true };

    fn sdp(&self) -> &FileName {
        let flow = &self.job.flow;
        &flow.sdp
    }

    fn early(&self, alloc: Global, session: &Session) -> Result<Option<Answer>, OutOfMemory> {
        early_of_media(alloc, session, self.job.flow.media)
    }

    fn answer<H: Shelf, K: Sink>(
        &self,
        alloc: Global,
        session: &Session,
        shelf: &mut H,
        out: &mut K,
    ) -> Result<Answer, Failure> {
        answer_series(alloc, &self.job, session, shelf, out)
    }
}
