//! `page`: prints the report of the captures of a job as one page.

ghost use Rattle.std.specs.Prelude.{◌≡◌, ℕ, IfErr, IfOk, false, true};
ghost use Rattle.timing_outside.specs.Shelves.{StaysAs};
ghost use Rattle.timing_steps.specs.Answers.{CaptureRose, OnReadFault, seen_of};
ghost use Rattle.timing_steps.specs.Queries.{FollowsCaptures, judged_ends};
ghost use Rattle.timing_measure.specs.page.Pages.{page_query};

use crate::flows::judged_media;
use crate::page::answer::paged;
use crate::page::captures::read_pages;
use std::alloc::{AllocError as OutOfMemory, Global};
use timing_base::{CaptureJob, FileName, Session};
use timing_outside::{Shelf, Sink};
use timing_report::Input;
use timing_steps::{Answer, Command, Failure, early_of_choice, first_chosen};

/// Reads the captures of a job, and returns the answer over all media of a session, or over the chosen one.
fn answer_page<H: Shelf>(
    alloc: Global,
    job: &CaptureJob,
    session: &Session,
    shelf: &mut H,
) -> Result<Answer, Failure>
    ensures follows { FollowsCaptures (page_query job.now) session.now
        (seen_of H.Shelf shelf.old shelf.new) result }
    ensures ends { IfOk result (λ answer. judged_ends false answer.status ≡ true) }
    ensures cause { IfErr result (λ e. OnReadFault e (λ i. (number : ℕ) × (i ≡ Input.Capture number)
        × CaptureRose (H.faults shelf.old) (H.faults shelf.new) job.now.captures number)) }
    ensures stays { StaysAs H.text H.lacks H.faults shelf.old shelf.new }
{
    let media = judged_media(job, session);
    let captures = read_pages(alloc, job, shelf, media, first_chosen(job.media))?;
    Ok(paged(alloc, job, session, &captures)?)
}

/// The command `page`: prints the report of the captures of a job as one HTML page that needs no other file.
#[derive(Drop)]
pub struct PageCommand {
    /// The captures, and which media is chosen.
    pub job: CaptureJob,
}

impl Command for PageCommand {
    ghost use Rattle.timing_measure.specs.page.Pages.{page_query};

    ghost query = { λ command. page_query command.job };

    ghost streams = { false };

    fn sdp(&self) -> &FileName {
        let job = &self.job;
        &job.sdp
    }

    fn early(&self, alloc: Global, session: &Session) -> Result<Option<Answer>, OutOfMemory> {
        early_of_choice(alloc, session, self.job.media)
    }

    fn answer<H: Shelf, K: Sink>(
        &self,
        alloc: Global,
        session: &Session,
        shelf: &mut H,
        _out: &mut K,
    ) -> Result<Answer, Failure> {
        answer_page(alloc, &self.job, session, shelf)
    }
}
