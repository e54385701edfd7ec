//! `watch`: prints the lines of the flows of a job while captures are read, and then the report.

ghost use Rattle.std.specs.Prelude.{◌≡◌, ◌≤◌, ℕ, IfErr, IfOk, None, length, true};
ghost use Rattle.timing_base.specs.Choices.{chosen};
ghost use Rattle.timing_outside.specs.Shelves.{StaysAs};
ghost use Rattle.timing_steps.specs.Answers.{CaptureRose, seen_of};
ghost use Rattle.timing_steps.specs.Flows.{no_choice};
ghost use Rattle.timing_steps.specs.Queries.{BeginsCaptures, FollowsCaptures, judged_ends};
ghost use Rattle.timing_steps.specs.Ran.{output_of};
ghost use Rattle.timing_steps.specs.Streams.{OnFailure, Rests};
ghost use Rattle.timing_watch.specs.Watches.{watch_query};

use crate::report::end_of;
use crate::watch::{Watch, Watched};
use std::alloc::{AllocError as OutOfMemory, Global};
use timing_base::{FileName, FileNote, Media, Session, WatchJob};
use timing_outside::{Shelf, Sink};
use timing_report::{Input, status_of};
use timing_steps::{
    Answer, Command, Failure, chosen_media, early_of_choice, first_chosen, print_captures,
};

/// Returns the rest of the answer: the lines that aren't printed yet, and the report. `notes` has how each capture
/// ends. Returns `Err` if memory runs out.
fn rest_of(
    alloc: Global,
    job: &WatchJob,
    session: &Session,
    notes: &[FileNote],
    watched: Watched,
) -> Result<Answer, OutOfMemory>
    requires { AreOfSession session.now watched.rows.items }
    ensures rest { IfOk result (λ answer. answer ≡ rest_of job.now session.now notes.now watched) }
    ensures ends { IfOk result (λ answer. judged_ends true answer.status ≡ true) }
{
    let Watched { rows, mut text } = watched;
    let end = end_of(alloc, job, session, notes, rows.as_slice())?;
    text.push_str(end.as_str())?;
    Ok(Answer {
        text: text.into_bytes(),
        status: status_of(session, notes, rows.as_slice()),
    })
}

ghost use Rattle.timing_report.specs.Outcomes.{AreOfSession};
ghost use Rattle.timing_watch.specs.making.Watches.{rest_of};

/// Returns the media of a session that a job watches: all, or the chosen one. They are at most 64.
fn watched_media<'a>(job: &WatchJob, session: &'a Session) -> &'a [Media]
    ensures are { result.now ≡ chosen job.now.flows.media session.now }
    ensures few { length result.now ≤ 64 }
{
    let count = session.media.len();
    prove!(count <= 64);
    chosen_media(session, job.flows.media)
}

/// Reads the captures of a job, and prints the lines of its flows meanwhile. Returns the rest of the answer that isn't
/// printed yet, or the reason why there is no answer, or not the whole.
fn answer_watch<H: Shelf, K: Sink>(
    alloc: Global,
    job: &WatchJob,
    session: &Session,
    shelf: &mut H,
    out: &mut K,
) -> Result<Answer, Failure>
    requires { no_choice job.now.flows.media session.now ≡ None }
    ensures rests { Rests (output_of K.Sink out.old out.new)
        (FollowsCaptures (watch_query job.now) session.now (seen_of H.Shelf shelf.old shelf.new))
        (BeginsCaptures (watch_query job.now) session.now (seen_of H.Shelf shelf.old shelf.new)) result }
    ensures ends { IfOk result (λ rest. judged_ends true rest.status ≡ true) }
    ensures cause { IfErr result (λ e. OnFailure (output_of K.Sink out.old out.new) e (λ i.
        (number : ℕ) × (i ≡ Input.Capture number) × CaptureRose (H.faults shelf.old)
        (H.faults shelf.new) job.now.flows.captures number)) }
    ensures later { K.faults out.old ≤ K.faults out.new }
    ensures stays { StaysAs H.text H.lacks H.faults shelf.old shelf.new }
{
    let flows = &job.flows;
    let media = watched_media(job, session);
    let mut watch = Watch::new(alloc, job, media, first_chosen(flows.media))?;
    let taken = print_captures(alloc, shelf, flows.captures.as_slice(), &mut watch, out)?;
    let watched = watch.finish()?;
    Ok(rest_of(alloc, job, session, taken.notes.as_slice(), watched)?)
}

/// The command `watch`: prints the lines of the flows of a job while they are made, and then the report.
#[derive(Drop)]
pub struct WatchCommand {
    /// The flows, and how their lines are made.
    pub job: WatchJob,
}

impl Command for WatchCommand {
    ghost use Rattle.timing_watch.specs.Watches.{watch_query};

    ghost query = { λ command. watch_query command.job };

    ghost streams = { true };

    fn sdp(&self) -> &FileName {
        let flows = &self.job.flows;
        &flows.sdp
    }

    fn early(&self, alloc: Global, session: &Session) -> Result<Option<Answer>, OutOfMemory> {
        early_of_choice(alloc, session, self.job.flows.media)
    }

    fn answer<H: Shelf, K: Sink>(
        &self,
        alloc: Global,
        session: &Session,
        shelf: &mut H,
        out: &mut K,
    ) -> Result<Answer, Failure> {
        answer_watch(alloc, &self.job, session, shelf, out)
    }
}
