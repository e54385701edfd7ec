//! Reads the captures of two flows, and compares these.

ghost use Rattle.std.specs.Prelude.{◌≡◌, ◌≤◌, ◌<◌, ◌+◌, ◌*◌, ◌^◌, ℕ, List, All, Option, Some, IfOk, IfErr, length};
ghost use Rattle.timing_outside.specs.Causes.{Rose};
ghost use Rattle.timing_outside.specs.Shelves.{StaysAs};
ghost use Rattle.pcapng_reader.specs.Classic.{classic_texts};
ghost use Rattle.pcapng_reader.specs.Sources.{faults_of, left_of, name_of};
ghost use Rattle.timing_steps.specs.Answers.{AreThere, AreTold, CaptureRose, OnReadFault};
ghost use Rattle.timing_steps.specs.Fetched.{AreFetched};
ghost use Rattle.timing_reach.specs.skew.Comparing.{ComparesNext, IsComparedIn};
ghost use Rattle.timing_reach.specs.skew.Pairs.{pair_given};

use crate::skew::pairing::Pairing;
use path_skew::SkewRow;
use pcapng_reader::Classic;
use std::alloc::Global;
use timing_base::{FileNote, Media, SkewJob};
use timing_outside::{Shelf, Source};
use timing_report::Input;
use timing_steps::{Failure, fetch_captures, give_back, take_source};

/// The result of comparing two flows in the captures of a job.
#[derive(Drop)]
pub struct Compared {
    /// How each capture ends.
    pub notes: Vec<FileNote>,
    /// The comparison of the two flows.
    pub row: SkewRow,
}

/// Two flows, as far as their captures were read.
#[derive(Drop)]
struct Comparing {
    /// How each capture ends that was read.
    notes: Vec<FileNote>,
    pairing: Pairing,
}

/// Reads one more of `count` captures.
fn read_next<H: Shelf>(
    alloc: Global,
    shelf: &mut H,
    source: Classic<H::Source>,
    count: usize,
    comparing: &mut Comparing,
) -> Result<(), Failure>
    requires fresh { faults_of H.Source.faults source ≡ 0 }
    requires within { length comparing.old.notes.items < count }
    requires few { count ≤ 2 }
    requires given { pair_given comparing.old.pairing ≤ length comparing.old.notes.items * 2 ^ 36 }
    ensures told { IfOk result (λ _. (text : List ℕ) → left_of H.Source.left source ≡ Some text
        → ComparesNext text count comparing.old comparing.new) }
    ensures number { IfOk result (λ _. length comparing.new.notes.items
        ≡ length comparing.old.notes.items + 1) }
    ensures given { IfOk result (λ _. pair_given comparing.new.pairing
        ≤ length comparing.new.notes.items * 2 ^ 36) }
    ensures cause { IfErr result (λ e. OnReadFault e (λ i.
        (i ≡ Input.Capture (length comparing.old.notes.items))
        × Rose (H.faults shelf.old (name_of H.Source.name source))
        (H.faults shelf.new (name_of H.Source.name source)))) }
    ensures stays { StaysAs H.text H.lacks H.faults shelf.old shelf.new }
{
    let number = comparing.notes.len();
    comparing.pairing.turn(number, count);
    let taken = take_source(
        alloc,
        shelf,
        source,
        number as u32,
        0,
        &mut comparing.pairing,
    )?;
    comparing.notes.push(taken.note)?;
    Ok(())
}

/// Reads the captures in order, and compares the flow of one media in the first with that of another in the last. After
/// a capture that couldn't be read, the sources of the others go back to the shelf unread.
fn read_each<H: Shelf>(
    alloc: Global,
    shelf: &mut H,
    sources: Vec<Classic<H::Source>>,
    first: &Media,
    second: &Media,
) -> Result<Compared, Failure>
    requires few { length sources.items ≤ 2 }
    requires fresh { All (λ source. faults_of H.Source.faults source ≡ 0) sources.items }
    ensures told { IfOk result (λ compared. (texts : List ℕ → Option (List ℕ))
        (names read : List (List ℕ))
        → AreFetched (name_of H.Source.name) (left_of H.Source.left) (faults_of H.Source.faults)
        texts names sources.items
        → AreTold texts names read
        → IsComparedIn read first.now second.now compared) }
    ensures cause { (texts : List ℕ → Option (List ℕ)) (names : List (List ℕ))
        → AreFetched (name_of H.Source.name) (left_of H.Source.left) (faults_of H.Source.faults)
        texts names sources.items
        → IfErr result (λ e. OnReadFault e (λ i. (number : ℕ) × (i ≡ Input.Capture number)
        × CaptureRose (H.faults shelf.old) (H.faults shelf.new) names number)) }
    ensures stays { StaysAs H.text H.lacks H.faults shelf.old shelf.new }
{
    let count = sources.len();
    let mut comparing = Comparing {
        notes: Vec::new(alloc),
        pairing: Pairing::new(alloc, first, second),
    };
    let mut outcome = Ok(());
    for source in sources {
        outcome = match outcome {
            Ok(()) => read_next(alloc, shelf, source, count, &mut comparing),
            Err(failure) => {
                give_back(shelf, source);
                Err(failure)
            }
        };
    }
    outcome?;
    let Comparing { notes, pairing } = comparing;
    Ok(Compared {
        notes,
        row: pairing.finish(),
    })
}

/// Compares the flow of the first media in the first capture of a job with that of the second media in the last. All
/// captures are opened in order before the first one is read.
pub fn compare<H: Shelf>(
    alloc: Global,
    job: &SkewJob,
    shelf: &mut H,
    first: &Media,
    second: &Media,
) -> Result<Compared, Failure>
    ensures told { IfOk result (λ compared. (read : List (List ℕ))
        → AreTold (classic_texts (H.text shelf.old)) job.now.captures read
        → IsComparedIn read first.now second.now compared) }
    ensures cause { IfErr result (λ e. OnReadFault e (λ i. (number : ℕ) × (i ≡ Input.Capture number)
        × CaptureRose (H.faults shelf.old) (H.faults shelf.new) job.now.captures number)) }
    ensures there { IfOk result (λ _. AreThere (H.lacks shelf.old) job.now.captures) }
    ensures stays { StaysAs H.text H.lacks H.faults shelf.old shelf.new }
{
    let sources = fetch_captures(alloc, shelf, job.captures.as_slice())?;
    read_each(alloc, shelf, sources, first, second)
}
