//! Checks one claim over captures that are read for it.

ghost use Rattle.std.specs.Prelude.{◌≡◌, ◌≤◌, ℕ, List, IfOk, IfErr, length};
ghost use Rattle.timing_outside.specs.Shelves.{StaysAs};
ghost use Rattle.pcapng_reader.specs.Classic.{classic_texts};
ghost use Rattle.timing_steps.specs.Answers.{AreThere, AreTold};
ghost use Rattle.timing_top.specs.verify.Findings.{Finds};
ghost use Rattle.timing_top.specs.verify.Found.{FailedAmong};

use crate::verify::checked::Finding;
use crate::verify::read::{answer_of, read_captures};
use interval_checker::{Asked, Reading};
use std::alloc::Global;
use timing_base::{FileName, FlowOptions, Media};
use timing_outside::Shelf;
use timing_report::json_report::ReportProof;
use timing_steps::Failure;

/// Returns the finding on a claim, in the captures with these names as one classic capture. The captures are opened in
/// order, and their sources go back to the shelf. `ReadFault` names a capture that couldn't be read by its number among
/// these, from 0.
pub fn find<H: Shelf>(
    alloc: Global,
    shelf: &mut H,
    names: &[FileName],
    media: &Media,
    claim: &ReportProof,
    options: FlowOptions,
) -> Result<Finding, Failure>
    requires few { length names.now ≤ 16 }
    ensures told { IfOk result (λ finding. (texts : List (List ℕ))
        → AreTold (classic_texts (H.text shelf.old)) names.now texts
        → Finds media.now claim.now options texts finding) }
    ensures cause { IfErr result (FailedAmong (H.faults shelf.old) (H.faults shelf.new) names.now) }
    ensures there { IfOk result (λ _. AreThere (H.lacks shelf.old) names.now) }
    ensures stays { StaysAs H.text H.lacks H.faults shelf.old shelf.new }
{
    let mut asked = Asked::new(alloc);
    asked.ask(u64::from(claim.run), &claim.proof)?;
    let mut readings = Vec::new(alloc);
    readings.push(Reading::new(media, options, asked))?;
    let read = read_captures(alloc, shelf, names, readings)?;
    Ok(answer_of(&read, 0, claim))
}
