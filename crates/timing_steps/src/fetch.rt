//! Opens the inputs of a request: reads an SDP as a session, and opens captures as sources.

ghost use Rattle.std.specs.Prelude.{◌≡◌, ◌≤◌, ◌<◌, ℕ, List, All, Some, IfOk, IfErr, IsErrOf, length};
ghost use Rattle.timing_base.specs.Targets.{HaveOwnTargets};
ghost use Rattle.sdp_reader.specs.Session.{session};
ghost use Rattle.timing_outside.specs.Causes.{Rose};
ghost use Rattle.timing_outside.specs.Shelves.{StaysAs};
ghost use Rattle.pcapng_reader.specs.Classic.{classic_texts};
ghost use Rattle.pcapng_reader.specs.Sources.{faults_of, left_of, name_of};
ghost use Rattle.timing_steps.specs.Answers.{AreThere, CaptureRose, OnReadFault};
ghost use Rattle.timing_steps.specs.Fetched.{AreFetched};

use crate::failure::Failure;
use crate::text::fetch_front;
use pcapng_reader::Classic;
use sdp_reader::{SdpError, SdpFault, read_sdp};
use std::alloc::Global;
use timing_base::{FileName, Session};
use timing_outside::{OpenFault, Shelf};
use timing_report::Input;

/// The greatest number of bytes that are read of an SDP: one more than an SDP may have.
const SDP_MOST: usize = 1_048_577;

/// Returns the session of the SDP with this name, or the first fault of the SDP.
pub fn fetch_session<H: Shelf>(
    alloc: Global,
    shelf: &mut H,
    name: &str,
) -> Result<Result<Session, SdpFault>, Failure>
    ensures told { IfOk result (λ read. (text : List ℕ) → H.text shelf.old name.now ≡ Some text
        → session text ≡ read) }
    ensures targets { IfOk result (λ read. IfOk read (λ session. HaveOwnTargets session)) }
    ensures cause { IfErr result (λ e. OnReadFault e (λ i. (i ≡ Input.Sdp)
        × Rose (H.faults shelf.old name.now) (H.faults shelf.new name.now))) }
    ensures there { IfOk result (λ _. ¬ H.lacks shelf.old name.now) }
    ensures stays { StaysAs H.text H.lacks H.faults shelf.old shelf.new }
{
    let bytes = match fetch_front(alloc, shelf, name, SDP_MOST) {
        Ok(bytes) => bytes,
        Err(fault) => return Err(Failure::of_input(fault, Input::Sdp)),
    };
    match read_sdp(alloc, &bytes) {
        Ok(session) => Ok(Ok(session)),
        Err(SdpError::Refused(fault)) => Ok(Err(fault)),
        Err(SdpError::OutOfMemory) => Err(Failure::OutOfMemory),
    }
}

/// Opens an input as a classic capture, and returns its source at the start.
pub fn fetch_classic<H: Shelf>(
    alloc: Global,
    shelf: &mut H,
    name: &str,
) -> Result<Classic<H::Source>, OpenFault>
    ensures named { IfOk result (λ s. name_of H.Source.name s ≡ name.now) }
    ensures whole { IfOk result (λ s. left_of H.Source.left s
        ≡ classic_texts (H.text shelf.old) name.now) }
    ensures fresh { IfOk result (λ s. faults_of H.Source.faults s ≡ 0) }
    ensures missing { H.lacks shelf.old name.now → IsErrOf result OpenFault.Failed }
    ensures stays { StaysAs H.text H.lacks H.faults shelf.old shelf.new }
    ensures failed { IsErrOf result OpenFault.Failed
        → Rose (H.faults shelf.old name.now) (H.faults shelf.new name.now) }
{
    let source = shelf.fetch(name)?;
    match Classic::wrap(alloc, source) {
        Ok(classic) => Ok(classic),
        Err(source) => {
            shelf.give_back(source);
            Err(OpenFault::OutOfMemory)
        }
    }
}

/// Gives a source back to its shelf. If a read of it failed, the count of faults of its name rises.
pub fn give_back<H: Shelf>(shelf: &mut H, source: Classic<H::Source>)
    ensures raised { 0 < faults_of H.Source.faults source
        → Rose (H.faults shelf.old (name_of H.Source.name source))
        (H.faults shelf.new (name_of H.Source.name source)) }
    ensures stays { StaysAs H.text H.lacks H.faults shelf.old shelf.new }
{
    shelf.give_back(source.into_inner());
}

/// Opens the captures with these names in order, and appends their sources to a list. If one can't be opened, those
/// before it stay in the list.
fn fetch_each<H: Shelf>(
    alloc: Global,
    shelf: &mut H,
    names: &[FileName],
    sources: &mut Vec<Classic<H::Source>>,
) -> Result<(), Failure>
    requires few { length names.now ≤ 16 }
    requires none { length sources.old.items ≡ 0 }
    ensures fetched { IfOk result (λ _. AreFetched (name_of H.Source.name) (left_of H.Source.left)
        (faults_of H.Source.faults) (classic_texts (H.text shelf.old)) names.now sources.new.items) }
    ensures cause { IfErr result (λ e. OnReadFault e (λ i. (number : ℕ) × (i ≡ Input.Capture number)
        × CaptureRose (H.faults shelf.old) (H.faults shelf.new) names.now number)) }
    ensures there { IfOk result (λ _. AreThere (H.lacks shelf.old) names.now) }
    ensures stays { StaysAs H.text H.lacks H.faults shelf.old shelf.new }
{
    for number in 0..names.len() {
        let source = match fetch_classic(alloc, shelf, names[number].as_str()) {
            Ok(source) => source,
            Err(fault) => {
                return Err(Failure::of_input(fault, Input::Capture(number as u32)));
            }
        };
        if let Err(refused) = sources.push(source) {
            give_back(shelf, refused.value);
            return Err(Failure::OutOfMemory);
        }
    }
    Ok(())
}

/// Gives these sources back to their shelf. For each with a failed read, the count of faults of its name rises.
pub fn give_back_all<H: Shelf>(shelf: &mut H, sources: Vec<Classic<H::Source>>)
    ensures raised { All (λ source. 0 < faults_of H.Source.faults source
        → Rose (H.faults shelf.old (name_of H.Source.name source))
        (H.faults shelf.new (name_of H.Source.name source))) sources.items }
    ensures stays { StaysAs H.text H.lacks H.faults shelf.old shelf.new }
{
    for source in sources {
        give_back(shelf, source);
    }
}

/// Returns the sources of the captures with these names, in order, each at its start as a classic capture.
///
/// Returns `ReadFault` with the first one that can't be opened, and `OutOfMemory` if memory runs out. Then those before
/// it go back to the shelf.
pub fn fetch_captures<H: Shelf>(
    alloc: Global,
    shelf: &mut H,
    names: &[FileName],
) -> Result<Vec<Classic<H::Source>>, Failure>
    requires few { length names.now ≤ 16 }
    ensures fetched { IfOk result (λ sources. AreFetched (name_of H.Source.name) (left_of H.Source.left)
        (faults_of H.Source.faults) (classic_texts (H.text shelf.old)) names.now sources.items) }
    ensures cause { IfErr result (λ e. OnReadFault e (λ i. (number : ℕ) × (i ≡ Input.Capture number)
        × CaptureRose (H.faults shelf.old) (H.faults shelf.new) names.now number)) }
    ensures there { IfOk result (λ _. AreThere (H.lacks shelf.old) names.now) }
    ensures stays { StaysAs H.text H.lacks H.faults shelf.old shelf.new }
{
    let mut sources = Vec::new(alloc);
    match fetch_each(alloc, shelf, names, &mut sources) {
        Ok(()) => Ok(sources),
        Err(failure) => {
            give_back_all(shelf, sources);
            Err(failure)
        }
    }
}
