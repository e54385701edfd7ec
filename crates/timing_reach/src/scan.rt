//! `scan`: lists the streams of a capture and what else it contains, without an SDP.

mod words;

ghost use Rattle.std.specs.Prelude.{◌≡◌, ℕ, List, Some, IfErr, IfOk};
ghost use Rattle.capture_scan.specs.report.Contents.{contents_of};
ghost use Rattle.timing_outside.specs.Causes.{Rose};
ghost use Rattle.timing_outside.specs.Shelves.{StaysAs};
ghost use Rattle.pcapng_reader.specs.Classic.{classic_texts};
ghost use Rattle.timing_steps.specs.Answers.{OnReadFault, seen_of};
ghost use Rattle.timing_steps.specs.Ends.{EndsWith, HasStatus};
ghost use Rattle.timing_steps.specs.Ran.{HasCause, Ran, output_of};
ghost use Rattle.timing_reach.specs.Scanned.{FollowsScan, ScanInputRose, scan_ends, scanned};
ghost use Rattle.timing_reach.specs.scan.Scanning.{IsScannedIn};

use crate::scan::words::scanned;
use capture_scan::{Found, Scan};
use std::alloc::Global;
use timing_base::{FileNote, ScanJob};
use timing_outside::{Shelf, Sink};
use timing_report::{Input, Status};
use timing_steps::{Answer, Failure, conclude, take_capture};

/// The result of a scan.
#[derive(Drop)]
pub struct Scanned {
    /// How the capture ends.
    pub note: FileNote,
    /// The streams of the capture, and what else it contains.
    pub found: Found,
}

/// Opens and reads the capture of a job.
fn read_capture<H: Shelf>(alloc: Global, job: &ScanJob, shelf: &mut H) -> Result<Scanned, Failure>
    ensures told { IfOk result (λ read. (text : List ℕ)
        → classic_texts (H.text shelf.old) job.now.capture ≡ Some text
        → IsScannedIn text read) }
    ensures cause { IfErr result (λ e. OnReadFault e (λ i. (i ≡ Input.Capture 0)
        × Rose (H.faults shelf.old job.now.capture) (H.faults shelf.new job.now.capture))) }
    ensures there { IfOk result (λ _. ¬ H.lacks shelf.old job.now.capture) }
    ensures stays { StaysAs H.text H.lacks H.faults shelf.old shelf.new }
{
    let mut scan = Scan::new(alloc);
    let taken = take_capture(alloc, shelf, job.capture.as_str(), &mut scan)?;
    let found = scan.finish(alloc)?;
    Ok(Scanned {
        note: taken.note,
        found,
    })
}

/// Returns the answer for a capture with this result.
fn answer_scanned(alloc: Global, job: &ScanJob, read: &Scanned) -> Result<Answer, Failure>
    ensures answered { IfOk result (HasStatus scan_ends) }
    ensures answers { IfOk result (λ answer. answer
        ≡ scanned job.now.form job.now.capture read.now.note (contents_of read.now.found)) }
    ensures cause { IfErr result (λ e. OnReadFault e (λ _. ⊥)) }
{
    Ok(scanned(alloc, job, read)?)
}

/// Returns the answer of a job, or the reason why there is none.
fn answer_scan<H: Shelf>(alloc: Global, job: &ScanJob, shelf: &mut H) -> Result<Answer, Failure>
    ensures follows { FollowsScan job.now (seen_of H.Shelf shelf.old shelf.new) result }
    ensures answers { IfOk result (HasStatus scan_ends) }
    ensures cause { HasCause result (ScanInputRose job.now (seen_of H.Shelf shelf.old shelf.new)) }
    ensures stays { StaysAs H.text H.lacks H.faults shelf.old shelf.new }
{
    let read = read_capture(alloc, job, shelf)?;
    answer_scanned(alloc, job, &read)
}

/// Runs `scan`: reads the capture once, and prints on `out` what it contains. Prints on `err` the reason if there is no
/// output.
pub fn scan_one<H: Shelf, K: Sink>(
    alloc: Global,
    job: &ScanJob,
    shelf: &mut H,
    out: &mut K,
    err: &mut K,
) -> Status
    ensures ran { Ran (FollowsScan job.now (seen_of H.Shelf shelf.old shelf.new))
        (ScanInputRose job.now (seen_of H.Shelf shelf.old shelf.new))
        (output_of K.Sink out.old out.new)
        (output_of K.Sink err.old err.new)
        result }
    ensures ends { EndsWith scan_ends (output_of K.Sink out.old out.new) result }
    ensures stays { StaysAs H.text H.lacks H.faults shelf.old shelf.new }
{
    let outcome = answer_scan(alloc, job, shelf);
    conclude(out, err, outcome)
}
