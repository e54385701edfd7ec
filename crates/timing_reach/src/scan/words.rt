//! The output of `scan`, and its status.

ghost use Rattle.std.specs.Prelude.{◌≡◌, IfOk, true};
ghost use Rattle.capture_scan.specs.report.Contents.{contents_of};
ghost use Rattle.capture_scan.specs.report.Draft.{videos_of};
ghost use Rattle.timing_reach.specs.Scanned.{drafted, scan_ends, scan_status, scanned};

use crate::scan::Scanned;
use capture_scan::Found;
use capture_scan::report::{Draft, json_of, text_of};
use std::alloc::{AllocError as OutOfMemory, Global};
use std::slice::from_ref;
use timing_base::{FileNote, ScanForm, ScanJob};
use timing_report::{Status, any_refused};
use timing_steps::Answer;

/// Returns the status for this many streams, or videos of a draft, of a capture that ends in this way.
fn status_of(note: FileNote, told: usize) -> Status
    ensures status { result ≡ scan_status note told }
    ensures ends { scan_ends result ≡ true }
{
    if told == 0 || any_refused(&[note]) {
        Status::NotAllJudged
    } else {
        Status::Pass
    }
}

/// Returns the answer with the draft of the streams; without a video the output is empty.
fn drafted(alloc: Global, note: FileNote, found: &Found) -> Result<Answer, OutOfMemory>
    ensures { IfOk result (λ answer. answer ≡ drafted note (videos_of found.now.streams.items)) }
{
    let draft = Draft::of(alloc, found.streams.as_slice())?;
    let status = status_of(note, draft.videos.len());
    if draft.videos.is_empty() {
        return Ok(Answer::silent(alloc, status));
    }
    Ok(Answer {
        text: draft.text(alloc)?.into_bytes(),
        status,
    })
}

/// Returns the answer for a capture with this result, in the form of the job. Returns `Err` if memory runs out.
pub fn scanned(alloc: Global, job: &ScanJob, read: &Scanned) -> Result<Answer, OutOfMemory>
    ensures { IfOk result (λ answer. answer
        ≡ scanned job.now.form job.now.capture read.now.note (contents_of read.now.found)) }
{
    let note = read.note;
    let found = &read.found;
    let name = job.capture.as_str();
    let text = match job.form {
        ScanForm::Lines => text_of(alloc, from_ref(&job.capture), &[note], found)?,
        ScanForm::Json => json_of(alloc, name, note, found)?,
        ScanForm::Draft => return drafted(alloc, note, found),
    };
    Ok(Answer {
        text: text.into_bytes(),
        status: status_of(note, found.streams.len()),
    })
}
