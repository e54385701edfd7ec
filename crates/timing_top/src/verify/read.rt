//! Reads captures once for all claims on them.

ghost use Rattle.std.specs.Prelude.{◌≡◌, ◌≤◌, ◌<◌, ◌^◌, [], ℕ, List, IfOk, IfErr, Some, false, length, map, option_map, slice_get};
ghost use Rattle.timing_base.specs.Shifts.{FlowOptions};
ghost use Rattle.timing_base.specs.Media.{Media as MediaValue};
ghost use Rattle.timing_base.specs.Captures.{Record, joined};
ghost use Rattle.timing_outside.specs.Shelves.{StaysAs};
ghost use Rattle.pcap_reader.specs.Records.{AreRecords};
ghost use Rattle.pcapng_reader.specs.Classic.{classic_texts};
ghost use Rattle.interval_checker.specs.Readings.{AreSame, HaveRead, HaveRoom};
ghost use Rattle.timing_steps.specs.Answers.{AreThere, AreTold, seen_of};
ghost use Rattle.timing_top.specs.verify.Asked.{captures_of, file_count};
ghost use Rattle.timing_top.specs.verify.Findings.{Finds};
ghost use Rattle.timing_top.specs.verify.Found.{FailedAmong, IsReadFor, ReadAs, Serves, Tells, failure_of, key_at, numbered};

use crate::verify::asks::readings_of;
use crate::verify::checked::Finding;
use interval_checker::{CheckFault, Reading, read_sources};
use std::alloc::Global;
use timing_base::{FileName, Media, ReportJob};
use timing_outside::Shelf;
use timing_report::Input;
use timing_report::json_report::ReportProof;
use timing_steps::{Failure, fetch_captures, give_back_all};

/// Returns the failure for a fault of reading captures. A capture that couldn't be read has its number among them.
fn failure_of(fault: CheckFault) -> Failure
    ensures { result ≡ failure_of fault }
{
    match fault {
        CheckFault::ReadFault { source } => Failure::ReadFault(Input::Capture(source)),
        CheckFault::OutOfMemory => Failure::OutOfMemory,
    }
}

/// Reads the captures with these names, as one classic capture, once for all readings, which must not have begun. The
/// captures are opened in order, and their sources go back to the shelf. `ReadFault` names a capture that couldn't be
/// read by its number among these, from 0.
pub fn read_captures<H: Shelf>(
    alloc: Global,
    shelf: &mut H,
    names: &[FileName],
    readings: Vec<Reading>,
) -> Result<Vec<Reading>, Failure>
    requires few { length names.now ≤ 16 }
    requires none { HaveRead readings.items [] }
    requires room { HaveRoom (2 ^ 40) readings.items }
    ensures told { IfOk result (λ read. (texts : List (List ℕ))
        → AreTold (classic_texts (H.text shelf.old)) names.now texts
        → ReadAs read.items texts) }
    ensures same { IfOk result (λ read. AreSame readings.items read.items) }
    ensures cause { IfErr result (FailedAmong (H.faults shelf.old) (H.faults shelf.new) names.now) }
    ensures there { IfOk result (λ _. AreThere (H.lacks shelf.old) names.now) }
    ensures stays { StaysAs H.text H.lacks H.faults shelf.old shelf.new }
{
    let sources = fetch_captures(alloc, shelf, names)?;
    let (sources, read) = read_sources(alloc, readings, sources);
    give_back_all(shelf, sources);
    match read {
        Ok(readings) => Ok(readings),
        Err(fault) => Err(failure_of(fault)),
    }
}

/// Returns the reading with this number, from 0.
fn reading_at(readings: &[Reading], number: usize) -> Option<&Reading>
    ensures { option_map (λ reading. reading.now) result ≡ slice_get readings.now number }
{
    readings.get(number)
}

/// Returns the finding on a claim in the reading with this number, from 0.
pub fn answer_of(readings: &[Reading], number: usize, claim: &ReportProof) -> Finding
    ensures { (m : MediaValue) (options : FlowOptions) (texts : List (List ℕ)) (r : _)
        → slice_get readings.now number ≡ Some r → IsReadFor m options texts claim.now r
        → Finds m claim.now options texts result }
{
    match reading_at(readings, number) {
        Some(reading) => reading.answer(claim.kind, claim.run, &claim.proof),
        None => Ok(false),
    }
}

/// Returns the failure of reading one capture, under its number in the job.
fn numbered(number: u32, failure: Failure) -> Failure
    ensures { result ≡ numbered number failure }
{
    match failure {
        Failure::ReadFault(_) => Failure::ReadFault(Input::Capture(number)),
        other => other,
    }
}

/// Reads a file of a job: one capture, or all captures if they are joined.
fn read_there<H: Shelf>(
    alloc: Global,
    job: &ReportJob,
    shelf: &mut H,
    file: u32,
    readings: Vec<Reading>,
) -> Result<Vec<Reading>, Failure>
    requires within { file < file_count job.now }
    requires none { HaveRead readings.items [] }
    requires room { HaveRoom (2 ^ 40) readings.items }
    ensures tells { Tells (seen_of H.Shelf shelf.old shelf.new) job.now (captures_of job.now (key_at file))
        (λ text read. ReadAs read.items (map text (captures_of job.now (key_at file)))) result }
    ensures same { IfOk result (λ read. AreSame readings.items read.items) }
    ensures stays { StaysAs H.text H.lacks H.faults shelf.old shelf.new }
{
    let captures = job.captures.as_slice();
    if job.joined {
        return read_captures(alloc, shelf, captures, readings);
    }
    let number = file as usize;
    match read_captures(alloc, shelf, &captures[number..number + 1], readings) {
        Ok(read) => Ok(read),
        Err(failure) => Err(numbered(file, failure)),
    }
}

/// A file of a job that was read for all claims of a report.
#[derive(Drop)]
pub struct FileRead {
    /// The number of the file, from 0.
    pub file: u32,
    /// The readings of the flows, one for each media of the SDP.
    pub readings: Vec<Reading>,
}

/// Reads a file of a job for all claims of a report.
pub fn read_file<H: Shelf>(
    alloc: Global,
    job: &ReportJob,
    shelf: &mut H,
    media: &[Media],
    claims: &[ReportProof],
    file: u32,
) -> Result<FileRead, Failure>
    requires within { file < file_count job.now }
    ensures file { IfOk result (λ read. read.file ≡ file) }
    ensures tells { Tells (seen_of H.Shelf shelf.old shelf.new) job.now (captures_of job.now (key_at file))
        (λ text read. Serves job.now media.now claims.now text read) result }
    ensures stays { StaysAs H.text H.lacks H.faults shelf.old shelf.new }
{
    let readings = readings_of(alloc, media, claims, file, job.options)?;
    let readings = read_there(alloc, job, shelf, file, readings)?;
    Ok(FileRead { file, readings })
}
