//! The reading of sources.

ghost use Rattle.std.specs.Prelude.{◌≡◌, ◌≤◌, ◌<◌, ◌+◌, ◌^◌, ◌∷◌, [], ℕ, List, Err, IfOk, IfErr, length};
ghost use Rattle.timing_base.specs.Captures.{Record, joined};
ghost use Rattle.pcap_reader.specs.Records.{AreRecords};
ghost use Rattle.timing_outside.specs.Causes.{Rose};
ghost use Rattle.interval_checker.specs.Checked.{IfReadFault};
ghost use Rattle.interval_checker.specs.Readings.{AreSame, HaveRead, HaveRoom};
ghost use Rattle.interval_checker.specs.Sources.{AreBack, RoseAt, TellTexts};
ghost use Rattle.interval_checker.specs.Taking.{Goes};

use crate::fault::CheckFault;
use crate::reading::Reading;
use crate::records::Checking;
use pcap_reader::{MOST, PcapReader, take_records};
use std::alloc::Global;
use timing_outside::Source;

/// Reads the sources once for all readings; their captures are taken as one. Of a truncated or malformed capture the
/// packet records before that place are taken.
///
/// Returns `ReadFault` only if a read of that source failed, and `OutOfMemory` if memory for the readers or for the
/// list of the sources runs out.
///
/// All sources come back in their order, whatever the result; each may have been read in part.
pub fn read_sources<S: Source>(
    alloc: Global,
    readings: Vec<Reading>,
    sources: Vec<S>,
) -> (Vec<S>, Result<Vec<Reading>, CheckFault>)
    requires few { length sources.items ≤ 16 }
    requires room { HaveRoom (2 ^ 40) readings.items }

    // If the contents of the sources are known, their packet records were read.
    ensures told { (texts : List (List ℕ)) (files : List (List Record)) (notes : List _)
        → TellTexts S.left sources.items texts → AreRecords texts files notes
        → HaveRead readings.items []
        → IfOk result.1 (λ read. HaveRead read.items (joined files)) }
    ensures same { IfOk result.1 (λ read. AreSame readings.items read.items) }

    // For every source, also one with unknown contents.
    ensures cause { IfReadFault result.1 (RoseAt S.faults sources.items result.0.items) }
    ensures back { AreBack S.name S.faults sources.items result.0.items }
{
    let mut back = match Vec::with_capacity(alloc, sources.len()) {
        Ok(back) => back,
        Err(_) => return (sources, Err(CheckFault::OutOfMemory)),
    };
    let mut checking = Checking { readings };
    let mut outcome = Ok(0);
    for source in sources {
        let number = back.len() as u32;
        let (source, taken) = read_source(alloc, source, number, outcome, &mut checking);
        // There is room for each.
        let _ = back.push(source);
        outcome = taken;
    }
    match outcome {
        Ok(_) => (back, Ok(checking.readings)),
        Err(fault) => (back, Err(fault)),
    }
}

/// Reads one more source, unless an earlier one failed. `outcome` has the number of packet records before it. Returns
/// the source, and the number of packet records with its own.
fn read_source<S: Source>(
    alloc: Global,
    source: S,
    number: u32,
    outcome: Result<u64, CheckFault>,
    checking: &mut Checking,
) -> (S, Result<u64, CheckFault>)
    requires before { IfOk outcome (λ before. before ≤ 2 ^ 40) }
    requires few { IfOk outcome (λ _. HaveRoom (2 ^ 36) checking.old.readings.items) }
    ensures told { (rest : List _) (all : List Record)
        → Goes S.left (source ∷ rest) all checking.old.readings.items outcome
        → Goes S.left rest all checking.new.readings.items result.1 }
    ensures same { IfOk result.1 (λ _. AreSame checking.old.readings.items checking.new.readings.items) }
    ensures few { IfOk result.1 (λ after. IfOk outcome (λ before. after ≤ before + 2 ^ 36)) }
    ensures room { (count : ℕ) → IfOk result.1 (λ _. HaveRoom (2 ^ 36 + count) checking.old.readings.items
        → HaveRoom count checking.new.readings.items) }
    ensures name { S.name result.0 ≡ S.name source }
    ensures later { S.faults source ≤ S.faults result.0 }
    ensures failed { IfReadFault result.1 (λ k. IfOk outcome (λ _. (k ≡ number)
        × Rose (S.faults source) (S.faults result.0))) }
    ensures kept { IfErr outcome (λ fault. result.1 ≡ Err fault) }
{
    let before = match outcome {
        Ok(before) => before,
        Err(fault) => return (source, Err(fault)),
    };
    match PcapReader::start(alloc, source, MOST) {
        Ok(mut reader) => {
            let after = match take_records(&mut reader, before, checking) {
                Ok(taken) => {
                    if taken.read_failed() {
                        Err(CheckFault::ReadFault { source: number })
                    } else {
                        // Of a truncated or malformed capture, the packet records before that place count.
                        Ok(before + taken.records)
                    }
                }
                Err(_) => unreachable!(),
            };
            (reader.into_source(), after)
        }
        Err(source) => (source, Err(CheckFault::OutOfMemory)),
    }
}
