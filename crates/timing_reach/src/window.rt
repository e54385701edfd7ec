//! `window`: prints the offsets with which the receiver buffer of a flow would neither underflow nor overflow.

mod gauge;
mod meters;
mod reading;
mod windows;

ghost use Rattle.std.specs.Prelude.{◌≡◌, ◌∷◌, [], ℕ, List, None, Some, IfErr, IfOk, false, slice_get, true};
ghost use Rattle.timing_base.specs.Shifts.{FlowOptions as FlowOptionsValue};
ghost use Rattle.timing_base.specs.Judged.{judged};
ghost use Rattle.timing_base.specs.declared.packet.FlowPacket.{FlowPacket as PacketValue};
ghost use Rattle.timing_outside.specs.Shelves.{StaysAs};
ghost use Rattle.pcapng_reader.specs.Classic.{classic_texts};
ghost use Rattle.timing_steps.specs.Answers.{AreThere, AreTold, CaptureRose, OnReadFault, seen_of};
ghost use Rattle.timing_steps.specs.Flows.{no_media};
ghost use Rattle.timing_steps.specs.Queries.{FollowsCaptures, judged_ends};
ghost use Rattle.timing_reach.specs.Asked.{OnRun};
ghost use Rattle.timing_reach.specs.Windows.{HasLines, window_query};
ghost use Rattle.timing_reach.specs.window.Readings.{HasWindows, IsMeasured, IsMeasuredIn};

use crate::judged::flows::take_flow;
use crate::window::reading::{Measured, Reading};
use crate::window::windows::windowed;
use std::alloc::{AllocError as OutOfMemory, Global};
use timing_base::{FileName, FlowJob, Media, Session, Verdict};
use timing_outside::{Shelf, Sink};
use timing_report::Input;
use timing_steps::{Answer, Command, Failure, early_of_media, media_of, not_judged};

/// Returns the lines for a flow that is judged in one run, or the verdict on any other.
fn told_of(alloc: Global, media: &Media, measured: &Measured) -> Result<Answer, OutOfMemory>
    requires { HasWindows measured.now }
    ensures ends { IfOk result (λ answer. judged_ends false answer.status ≡ true) }
    ensures answers { IfOk result (λ answer. (options : FlowOptionsValue) (packets : List PacketValue)
        → IsMeasured media.now options packets measured.now
        → OnRun media.now (HasLines media.now) (judged packets media.now.pt options) answer) }
{
    match &measured.verdict {
        Verdict::Judged(_) => windowed(alloc, &measured.windows.unwrap()),
        verdict => not_judged(alloc, media, verdict),
    }
}

/// Opens the captures of a job, reads the flow in all of them as one, and measures the flow while it is judged.
fn measure<H: Shelf>(
    alloc: Global,
    job: &FlowJob,
    shelf: &mut H,
    media: &Media,
) -> Result<Measured, Failure>
    ensures told { IfOk result (λ measured. (texts : List (List ℕ))
        → AreTold (classic_texts (H.text shelf.old)) job.now.captures texts
        → IsMeasuredIn media.now job.now.options texts measured) }
    ensures windows { IfOk result (λ measured. HasWindows measured) }
    ensures cause { IfErr result (λ e. OnReadFault e (λ i. (number : ℕ) × (i ≡ Input.Capture number)
        × CaptureRose (H.faults shelf.old) (H.faults shelf.new) job.now.captures number)) }
    ensures there { IfOk result (λ _. AreThere (H.lacks shelf.old) job.now.captures) }
    ensures stays { StaysAs H.text H.lacks H.faults shelf.old shelf.new }
{
    let reading = Reading::new(alloc, media, job.media, job.options);
    let reading = take_flow(alloc, shelf, job.captures.as_slice(), media, reading)?;
    Ok(reading.finish()?)
}

/// Returns the answer for the flow of the media of a job, or the reason why there is none.
fn answer_window<H: Shelf>(
    alloc: Global,
    job: &FlowJob,
    session: &Session,
    shelf: &mut H,
) -> Result<Answer, Failure>
    requires { no_media (slice_get session.now job.now.media) ≡ None }
    ensures follows { FollowsCaptures (window_query job.now) session.now
        (seen_of H.Shelf shelf.old shelf.new) result }
    ensures ends { IfOk result (λ answer. judged_ends false answer.status ≡ true) }
    ensures cause { IfErr result (λ e. OnReadFault e (λ i. (number : ℕ) × (i ≡ Input.Capture number)
        × CaptureRose (H.faults shelf.old) (H.faults shelf.new) job.now.captures number)) }
    ensures stays { StaysAs H.text H.lacks H.faults shelf.old shelf.new }
{
    let media = media_of(session, job.media);
    let measured = measure(alloc, job, shelf, media)?;
    Ok(told_of(alloc, media, &measured)?)
}

/// The command `window`: prints, for each sender type, the offsets with which the receiver buffer of a flow would
/// neither underflow nor overflow.
#[derive(Drop)]
pub struct WindowCommand {
    /// The flow.
    pub job: FlowJob,
}

impl Command for WindowCommand {
    ghost use Rattle.timing_reach.specs.Windows.{window_query};

    ghost query = { λ command. window_query command.job };

    ghost streams = { false };

    fn sdp(&self) -> &FileName {
        let job = &self.job;
        &job.sdp
    }

    fn early(&self, alloc: Global, session: &Session) -> Result<Option<Answer>, OutOfMemory> {
        early_of_media(alloc, session, self.job.media)
    }

    fn answer<H: Shelf, K: Sink>(
        &self,
        alloc: Global,
        session: &Session,
        shelf: &mut H,
        _out: &mut K,
    ) -> Result<Answer, Failure> {
        answer_window(alloc, &self.job, session, shelf)
    }
}
