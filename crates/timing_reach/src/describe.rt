//! `sdp`: prints how a session description is read.

ghost use Rattle.std.specs.Prelude.{◌≡◌, ℕ, List, Some, IfErr, IfOk};
ghost use Rattle.timing_outside.specs.Causes.{Rose};
ghost use Rattle.timing_outside.specs.Shelves.{StaysAs};
ghost use Rattle.timing_steps.specs.Answers.{OnReadFault, seen_of};
ghost use Rattle.timing_steps.specs.Ran.{HasCause, Ran, output_of};
ghost use Rattle.sdp_notes.specs.Described.{described};
ghost use Rattle.sdp_notes.specs.Seen.{described_of};
ghost use Rattle.timing_reach.specs.Described.{EndsDescribed, FollowsSdp, HasDescribedStatus, SdpInputRose, status_told, told};

use sdp_notes::report::{json_of, text_of};
use sdp_notes::{Described, describe};
use sdp_reader::SdpFault;
use std::alloc::{AllocError as OutOfMemory, Global};
use timing_base::SdpJob;
use timing_outside::{Shelf, Sink};
use timing_report::{Input, Status};
use timing_steps::{Answer, Failure, conclude, fetch_front};

/// The greatest number of bytes that are read of an SDP: one more than an SDP may have.
const SDP_MOST: usize = 1_048_577;

/// Returns the status for a description with this fault, or without one.
fn status_told(fault: Option<SdpFault>) -> Status
    ensures { result ≡ status_told fault }
{
    match fault {
        Some(fault) => Status::SdpRefused(fault),
        None => Status::Pass,
    }
}

/// Returns the answer for a description that is read in this way. Returns `Err` if memory runs out.
fn told(alloc: Global, json: bool, description: &Described) -> Result<Answer, OutOfMemory>
    ensures { IfOk result (λ answer. answer ≡ told json (described_of description.now)) }
{
    let text = if json {
        json_of(alloc, description)?
    } else {
        text_of(alloc, description)?
    };
    Ok(Answer {
        text: text.into_bytes(),
        status: status_told(description.fault),
    })
}

/// Returns the answer for an SDP that begins with these bytes, at most `SDP_MOST`. Returns `Err` if memory runs out.
fn answer_bytes(alloc: Global, json: bool, bytes: &[u8]) -> Result<Answer, OutOfMemory>
    ensures { IfOk result (λ answer. answer ≡ told json (described bytes.now)) }
{
    let description = describe(alloc, bytes)?;
    told(alloc, json, &description)
}

/// Returns the first bytes of the SDP of a job.
fn read_description<H: Shelf>(
    alloc: Global,
    job: &SdpJob,
    shelf: &mut H,
) -> Result<Vec<u8>, Failure>
    ensures text { IfOk result (λ bytes. (text : List ℕ) → H.text shelf.old job.now.sdp ≡ Some text
        → described bytes.items ≡ described text) }
    ensures cause { IfErr result (λ e. OnReadFault e (λ i. (i ≡ Input.Sdp)
        × Rose (H.faults shelf.old job.now.sdp) (H.faults shelf.new job.now.sdp))) }
    ensures there { IfOk result (λ _. ¬ H.lacks shelf.old job.now.sdp) }
    ensures stays { StaysAs H.text H.lacks H.faults shelf.old shelf.new }
{
    match fetch_front(alloc, shelf, job.sdp.as_str(), SDP_MOST) {
        Ok(bytes) => Ok(bytes),
        Err(fault) => Err(Failure::of_input(fault, Input::Sdp)),
    }
}

/// Makes the answer of a job.
fn make_answer<H: Shelf>(alloc: Global, job: &SdpJob, shelf: &mut H) -> Result<Answer, Failure>
    ensures told { IfOk result (λ answer. (text : List ℕ) → H.text shelf.old job.now.sdp ≡ Some text
        → answer ≡ told job.now.json (described text)) }
    ensures answers { IfOk result HasDescribedStatus }
    ensures cause { IfErr result (λ e. OnReadFault e (λ i. (i ≡ Input.Sdp)
        × Rose (H.faults shelf.old job.now.sdp) (H.faults shelf.new job.now.sdp))) }
    ensures there { IfOk result (λ _. ¬ H.lacks shelf.old job.now.sdp) }
    ensures stays { StaysAs H.text H.lacks H.faults shelf.old shelf.new }
{
    let bytes = read_description(alloc, job, shelf)?;
    let answer = answer_bytes(alloc, job.json, &bytes)?;
    Ok(answer)
}

/// Returns the answer of a job, or the reason why there is none.
fn answer_sdp<H: Shelf>(alloc: Global, job: &SdpJob, shelf: &mut H) -> Result<Answer, Failure>
    ensures follows { FollowsSdp job.now (seen_of H.Shelf shelf.old shelf.new) result }
    ensures answers { IfOk result HasDescribedStatus }
    ensures cause { HasCause result (SdpInputRose job.now (seen_of H.Shelf shelf.old shelf.new)) }
    ensures stays { StaysAs H.text H.lacks H.faults shelf.old shelf.new }
{
    make_answer(alloc, job, shelf)
}

/// Runs `sdp`: reads the SDP, and prints on `out` how it is read, also if it is refused. Prints on `err` the fault of an
/// SDP that is refused, or the reason if there is no output.
pub fn sdp_one<H: Shelf, K: Sink>(
    alloc: Global,
    job: &SdpJob,
    shelf: &mut H,
    out: &mut K,
    err: &mut K,
) -> Status
    ensures ran { Ran (FollowsSdp job.now (seen_of H.Shelf shelf.old shelf.new))
        (SdpInputRose job.now (seen_of H.Shelf shelf.old shelf.new))
        (output_of K.Sink out.old out.new)
        (output_of K.Sink err.old err.new)
        result }
    ensures ends { EndsDescribed (output_of K.Sink out.old out.new) result }
    ensures stays { StaysAs H.text H.lacks H.faults shelf.old shelf.new }
{
    let outcome = answer_sdp(alloc, job, shelf);
    conclude(out, err, outcome)
}
