//! Judges the captures of a job with intake threads and workers.

ghost use Rattle.std.specs.Prelude.{◌≡◌, ◌≤◌, ◌<◌, IfSome, Some, length, slice_index_or};
ghost use Rattle.timing_base.specs.Targets.{HaveOwnTargets};
ghost use Rattle.timing_base.specs.declared.capture.FileNote.TheVariants as file_note;
ghost use Rattle.timing_base.specs.declared.capture.PcapFault.TheVariants as fault;
ghost use Rattle.timing_outside.specs.Shelves.{StaysAs};
ghost use Rattle.fail_interval.specs.Rows.{rows_over};
ghost use Rattle.pcapng_reader.specs.Sources.{faults_of};
ghost use Rattle.timing_top.specs.Found.{AreReady, Judges};

use crate::captures::Found;
use flow_worker::crew::{Judged, judge_files};
use pcapng_reader::Classic;
use std::alloc::Global;
use std::sync::Wait;
use std::thread::Threads;
use timing_base::{FileNote, FlowOptions, Media, PcapFault};
use timing_outside::{Gate, Shelf};
use timing_report::Input;
use timing_steps::{Failure, give_back_all};

/// Returns the number of the first capture that couldn't be read, from 0. Returns `None` if there is none, or if memory
/// ran out in a capture before it.
fn first_unread(notes: &[Option<FileNote>]) -> Option<u32>
    requires few { length notes.now ≤ 16 }
    ensures { IfSome result (λ number. (number < length notes.now) × ((d : _)
        → slice_index_or notes.now number d ≡ Some (file_note.Refused fault.ReadFault))) }
{
    for number in 0..notes.len() {
        match notes[number] {
            Some(FileNote::Refused(PcapFault::ReadFault)) => return Some(number as u32),
            Some(_) => {}
            None => return None,
        }
    }
    None
}

/// Returns the number of workers of a run: at most as many as were asked for, as flows, and 16, and at least one. A
/// worker without a flow would have nothing to judge.
fn worker_count(asked: u32, captures: usize, media: usize, joined: bool) -> u32
    ensures some { 1 ≤ result }
    ensures few { result ≤ 16 }
    ensures most { 1 ≤ asked → result ≤ asked }
{
    let flows = if joined {
        media
    } else {
        captures.saturating_mul(media)
    };
    asked.max(1).min(flows.max(1).min(16) as u32)
}

/// Judges the media, in each capture by itself or in all of them as one, with at most this many workers, at least one.
///
/// Returns `ReadFault` with the first capture that couldn't be read, and `OutOfMemory` if memory runs out. The sources
/// go back to the shelf before, also if memory ran out in an intake.
pub fn judge_many<R: Threads + Wait + Sync, H: Shelf, G: Gate>(
    rt: &R,
    alloc: Global,
    shelf: &mut H,
    sources: Vec<Classic<H::Source>>,
    media: &[Media],
    joined: bool,
    options: FlowOptions,
    workers: u32,
    gate: &G,
) -> Result<Found, Failure>
where
    H::Source: Send,
    requires ready { AreReady (faults_of H.Source.faults) sources.items media.now }
    requires some { 1 ≤ length sources.items }
    requires some_media { 1 ≤ length media.now }
    requires targets { HaveOwnTargets media.now }
    ensures judged { Judges (rows_over joined options media.now) media.now
        H.Shelf H.Source.Source shelf.old shelf.new sources.items result }
    ensures stays { StaysAs H.text H.lacks H.faults shelf.old shelf.new }
{
    let workers = worker_count(workers, sources.len(), media.len(), joined);
    let Judged {
        sources,
        notes,
        found,
    } = judge_files(rt, alloc, sources, media, joined, options, workers, gate)?;
    give_back_all(shelf, sources);
    if let Some(number) = first_unread(&notes) {
        return Err(Failure::ReadFault(Input::Capture(number)));
    }
    match found {
        Some(found) => Ok(Found {
            notes: found.notes,
            rows: found.rows,
        }),
        None => Err(Failure::OutOfMemory),
    }
}
