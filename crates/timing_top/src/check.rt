//! `check`: judges the captures on one thread or with workers, and prints their report.

ghost use Rattle.std.specs.Io.KnownBytes.{Keeps};
ghost use Rattle.std.specs.Prelude.{◌≡◌, ◌+◌, ◌<◌, ◌≤◌, ◌^◌, ℕ, All, IfErr, IfOk, None, false, length, map, string_bytes, true};
ghost use Rattle.timing_base.specs.Choices.{chosen, first_chosen, row_from};
ghost use Rattle.timing_base.specs.Targets.{HaveOwnTargets};
ghost use Rattle.timing_outside.specs.Shelves.{StaysAs};
ghost use Rattle.timing_report.specs.Outcomes.{AreOfSession, status_of};
ghost use Rattle.timing_steps.specs.Answers.{CaptureRose, OnReadFault, seen_of};
ghost use Rattle.timing_steps.specs.Flows.{no_choice};
ghost use Rattle.timing_steps.specs.Queries.{FollowsCaptures, judged_ends};
ghost use Rattle.timing_steps.specs.Ran.{Output, output_of};
ghost use Rattle.timing_steps.specs.Runs.{BeforeEnd, EndsAs, RanAs};
ghost use Rattle.timing_top.specs.Report.{check_query, printed};

use crate::alone::Alone;
use crate::captures::Found;
use crate::many::judge_many;
use std::alloc::{AllocError as OutOfMemory, Global};
use std::sync::Wait;
use std::thread::Threads;
use timing_base::{CheckJob, FileName, Media, Row, Session};
use timing_outside::{Gate, Shelf, Sink};
use timing_report::json_report::json_of;
use timing_report::{Input, Status, status_of, text_of};
use timing_steps::{
    Answer, Command, Failure, begin, chosen_media, conclude, early_of_choice, fetch_captures,
    first_chosen,
};

/// Returns the report as text, or as JSON if the job asks for it.
fn text_on(
    alloc: Global,
    job: &CheckJob,
    session: &Session,
    found: &Found,
) -> Result<String, OutOfMemory>
    requires { AreOfSession session.now found.now.rows.items }
    ensures { IfOk result (λ s. string_bytes s
        ≡ printed job.now session.now found.now.notes.items found.now.rows.items) }
{
    if job.json {
        json_of(alloc, job, session, &found.notes, &found.rows)
    } else {
        text_of(alloc, job, session, &found.notes, &found.rows)
    }
}

/// Returns the answer of a job with judged captures: its report and the status. Returns `Err` if memory runs out.
fn report_on(
    alloc: Global,
    job: &CheckJob,
    session: &Session,
    found: &Found,
) -> Result<Answer, Failure>
    requires rows { AreOfSession session.now found.now.rows.items }
    ensures text { IfOk result (λ answer. answer.text
        ≡ printed job.now session.now found.now.notes.items found.now.rows.items) }
    ensures status { IfOk result (λ answer. answer.status
        ≡ status_of session.now found.now.notes.items found.now.rows.items) }
    ensures memory { IfErr result (λ e. e ≡ Failure.OutOfMemory) }
    ensures ends { IfOk result (λ answer. judged_ends true answer.status ≡ true) }
{
    Ok(Answer {
        text: text_on(alloc, job, session, found)?.into_bytes(),
        status: status_of(session, &found.notes, &found.rows),
    })
}

/// Returns the media of a session that a job judges. They are at most 64, and at least one if the session has the
/// chosen one.
fn judged_media<'a>(job: &CheckJob, session: &'a Session) -> &'a [Media]
    ensures are { result.now ≡ chosen job.now.media session.now }
    ensures few { length result.now ≤ 64 }
    ensures some { no_choice job.now.media session.now ≡ None → 1 ≤ length result.now }
{
    let count = session.media.len();
    prove!(count <= 64);
    chosen_media(session, job.media)
}

/// Counts the media of these results from this number on.
fn count_from(rows: &mut [Row], first: u32)
    requires few { All (λ row. first + row.key.media < 2 ^ 32) rows.old }
    ensures { rows.new ≡ map (row_from first) rows.old }
{
    for row in rows.iter_mut() {
        row.key.media = first + row.key.media;
    }
}

/// Returns the answer of a job with judged captures, if the media of the results count from the first one that was
/// judged. Returns `Err` if memory runs out.
fn report_chosen(
    alloc: Global,
    job: &CheckJob,
    session: &Session,
    mut found: Found,
) -> Result<Answer, Failure>
    requires few { length (chosen job.now.media session.now) ≤ 64 }
    requires rows { AreOfSession (chosen job.now.media session.now) found.rows.items }
    ensures text { IfOk result (λ answer. answer.text ≡ printed job.now session.now found.notes.items
        (map (row_from (first_chosen job.now.media)) found.rows.items)) }
    ensures status { IfOk result (λ answer. answer.status ≡ status_of session.now found.notes.items
        (map (row_from (first_chosen job.now.media)) found.rows.items)) }
    ensures memory { IfErr result (λ e. e ≡ Failure.OutOfMemory) }
    ensures ends { IfOk result (λ answer. judged_ends true answer.status ≡ true) }
{
    count_from(&mut found.rows, first_chosen(job.media));
    report_on(alloc, job, session, &found)
}

/// Returns the answer of a job over a session, judged on one thread, or the reason why there is none. All captures are
/// opened in order before the first one is read.
fn answer_alone<H: Shelf>(
    alloc: Global,
    job: &CheckJob,
    session: &Session,
    shelf: &mut H,
) -> Result<Answer, Failure>
    ensures follows { FollowsCaptures (check_query job.now) session.now
        (seen_of H.Shelf shelf.old shelf.new) result }
    ensures ends { IfOk result (λ answer. judged_ends true answer.status ≡ true) }
    ensures cause { IfErr result (λ e. OnReadFault e (λ i. (number : ℕ) × (i ≡ Input.Capture number)
        × CaptureRose (H.faults shelf.old) (H.faults shelf.new) job.now.captures number)) }
    ensures stays { StaysAs H.text H.lacks H.faults shelf.old shelf.new }
{
    let sources = fetch_captures(alloc, shelf, job.captures.as_slice())?;
    let media = judged_media(job, session);
    let alone = Alone {
        alloc,
        media,
        joined: job.joined,
        options: job.options,
    };
    let found = alone.judge(shelf, sources)?;
    report_chosen(alloc, job, session, found)
}

/// The command `check` on one thread, whatever number of workers the job has. It takes no handle for waiting.
#[derive(Drop)]
pub struct CheckCommand {
    /// The SDP and the captures, and how they are judged.
    pub job: CheckJob,
}

impl Command for CheckCommand {
    ghost use Rattle.timing_top.specs.Report.{check_query};

    ghost query = { λ command. check_query command.job };

    ghost streams = { false };

    fn sdp(&self) -> &FileName {
        let job = &self.job;
        &job.sdp
    }

    fn early(&self, alloc: Global, session: &Session) -> Result<Option<Answer>, OutOfMemory> {
        early_of_choice(alloc, session, self.job.media)
    }

    fn answer<H: Shelf, K: Sink>(
        &self,
        alloc: Global,
        session: &Session,
        shelf: &mut H,
        _out: &mut K,
    ) -> Result<Answer, Failure> {
        answer_alone(alloc, &self.job, session, shelf)
    }
}

/// Returns the answer of a job over a session, judged with its workers, or the reason why there is none.
fn answer_many<R: Threads + Wait + Sync, H: Shelf, G: Gate>(
    rt: &R,
    alloc: Global,
    job: &CheckJob,
    session: &Session,
    shelf: &mut H,
    gate: &G,
) -> Result<Answer, Failure>
where
    H::Source: Send,
    requires targets { HaveOwnTargets session.now }
    requires unsettled { no_choice job.now.media session.now ≡ None }
    ensures follows { FollowsCaptures (check_query job.now) session.now
        (seen_of H.Shelf shelf.old shelf.new) result }
    ensures ends { IfOk result (λ answer. judged_ends true answer.status ≡ true) }
    ensures cause { IfErr result (λ e. OnReadFault e (λ i. (number : ℕ) × (i ≡ Input.Capture number)
        × CaptureRose (H.faults shelf.old) (H.faults shelf.new) job.now.captures number)) }
    ensures stays { StaysAs H.text H.lacks H.faults shelf.old shelf.new }
{
    let sources = fetch_captures(alloc, shelf, job.captures.as_slice())?;
    let media = judged_media(job, session);
    let (joined, options, workers) = (job.joined, job.options, job.workers);
    let found = judge_many(
        rt, alloc, shelf, sources, media, joined, options, workers, gate,
    )?;
    report_chosen(alloc, job, session, found)
}

/// Returns the answer of `check` with workers, or the reason why there is none.
fn answer_check<R: Threads + Wait + Sync, H: Shelf, G: Gate>(
    rt: &R,
    alloc: Global,
    command: &CheckCommand,
    shelf: &mut H,
    gate: &G,
) -> Result<Answer, Failure>
where
    H::Source: Send,
    ensures stands { (o : Output) → Keeps o.old o.new → BeforeEnd false (check_query command.now.job)
        (seen_of H.Shelf shelf.old shelf.new) o result }
    ensures stays { StaysAs H.text H.lacks H.faults shelf.old shelf.new }
{
    match begin(alloc, command, shelf)? {
        Ok(session) => answer_many(rt, alloc, &command.job, &session, shelf, gate),
        Err(answer) => Ok(answer),
    }
}

/// Runs `check` with an intake thread for each capture, and with at most as many workers as the job has, at least one.
/// Prints what `run_command` prints of the command, in the same order. The call may wait for its threads; its clauses
/// hold if it returns.
///
/// It is a function beside `run_command`, since the method `answer` of a `Command` can't start threads.
pub fn check_many<R: Threads + Wait + Sync, H: Shelf, K: Sink, G: Gate>(
    rt: &R,
    alloc: Global,
    command: &CheckCommand,
    shelf: &mut H,
    out: &mut K,
    err: &mut K,
    gate: &G,
) -> Status
where
    H::Source: Send,
    ensures ran { RanAs false (check_query command.now.job) (seen_of H.Shelf shelf.old shelf.new)
        (output_of K.Sink out.old out.new)
        (output_of K.Sink err.old err.new)
        result }
    ensures ends { EndsAs false (check_query command.now.job) (output_of K.Sink out.old out.new) result }
    ensures stays { StaysAs H.text H.lacks H.faults shelf.old shelf.new }
{
    let outcome = answer_check(rt, alloc, command, shelf, gate);
    conclude(out, err, outcome)
}
