//! `measure`: prints the numbers of every judged run of every media of a job, or of the chosen media.

ghost use Rattle.std.specs.Prelude.{◌≡◌, ◌≤◌, ℕ, List, IfErr, IfOk, length, false, true};
ghost use Rattle.pcapng_reader.specs.Classic.{classic_texts};
ghost use Rattle.timing_outside.specs.Shelves.{StaysAs};
ghost use Rattle.timing_steps.specs.Answers.{AreThere, AreTold, CaptureRose, OnReadFault, seen_of};
ghost use Rattle.timing_steps.specs.Queries.{FollowsCaptures, judged_ends};
ghost use Rattle.timing_measure.specs.Measures.{AreFlows, measure_query};
ghost use Rattle.timing_measure.specs.flows.Taken.{AreCapturesIn, AreCapturesOf};

use crate::answer::measured;
use crate::both::Nothing;
use crate::flows::{judged_media, take_flows};
use crate::measured::{MeasuredCaptures, measured_flows};
use flow_measure::{MeasuredRuns, NumbersMeter};
use std::alloc::{AllocError as OutOfMemory, Global};
use timing_base::{CaptureJob, FileName, Media, Session};
use timing_outside::{Shelf, Sink};
use timing_report::Input;
use timing_steps::{Answer, Command, Failure, early_of_choice, first_chosen};

/// Returns the flows of these media, which count from `first` on, in the captures of a job as one.
fn read_flows<H: Shelf>(
    alloc: Global,
    job: &CaptureJob,
    shelf: &mut H,
    media: &[Media],
    first: u32,
) -> Result<MeasuredCaptures, Failure>
    requires few { length media.now ≤ 64 }
    requires low { first ≤ 64 }
    ensures told { IfOk result (λ captures. (texts : List (List ℕ))
        → AreTold (classic_texts (H.text shelf.old)) job.now.captures texts
        → AreCapturesIn (AreFlows job.now.options first media.now) texts captures) }
    ensures some { IfOk result (AreCapturesOf (AreFlows job.now.options first media.now)) }
    ensures cause { IfErr result (λ e. OnReadFault e (λ i. (number : ℕ) × (i ≡ Input.Capture number)
        × CaptureRose (H.faults shelf.old) (H.faults shelf.new) job.now.captures number)) }
    ensures there { IfOk result (λ _. AreThere (H.lacks shelf.old) job.now.captures) }
    ensures stays { StaysAs H.text H.lacks H.faults shelf.old shelf.new }
{
    let taken = take_flows::<H, NumbersMeter, MeasuredRuns, Nothing>(
        alloc, job, shelf, media, first, Nothing,
    )?;
    let flows = measured_flows(alloc, taken.flows)?;
    Ok(MeasuredCaptures {
        notes: taken.notes,
        flows,
    })
}

/// Reads the captures of a job, and returns the answer over all media of a session, or over the chosen one.
fn answer_measure<H: Shelf>(
    alloc: Global,
    job: &CaptureJob,
    session: &Session,
    shelf: &mut H,
) -> Result<Answer, Failure>
    ensures follows { FollowsCaptures (measure_query job.now) session.now
        (seen_of H.Shelf shelf.old shelf.new) result }
    ensures ends { IfOk result (λ answer. judged_ends false answer.status ≡ true) }
    ensures cause { IfErr result (λ e. OnReadFault e (λ i. (number : ℕ) × (i ≡ Input.Capture number)
        × CaptureRose (H.faults shelf.old) (H.faults shelf.new) job.now.captures number)) }
    ensures stays { StaysAs H.text H.lacks H.faults shelf.old shelf.new }
{
    let media = judged_media(job, session);
    let captures = read_flows(alloc, job, shelf, media, first_chosen(job.media))?;
    Ok(measured(alloc, job, session, &captures)?)
}

/// The command `measure`: prints the numbers of every judged run of every media of a job, or of the chosen media, as
/// one JSON value.
#[derive(Drop)]
pub struct MeasureCommand {
    /// The captures, and which media is chosen.
    pub job: CaptureJob,
}

impl Command for MeasureCommand {
    ghost use Rattle.timing_measure.specs.Measures.{measure_query};

    ghost query = { λ command. measure_query command.job };

    ghost streams = { false };

    fn sdp(&self) -> &FileName {
        let job = &self.job;
        &job.sdp
    }

    fn early(&self, alloc: Global, session: &Session) -> Result<Option<Answer>, OutOfMemory> {
        early_of_choice(alloc, session, self.job.media)
    }

    fn answer<H: Shelf, K: Sink>(
        &self,
        alloc: Global,
        session: &Session,
        shelf: &mut H,
        _out: &mut K,
    ) -> Result<Answer, Failure> {
        answer_measure(alloc, &self.job, session, shelf)
    }
}
