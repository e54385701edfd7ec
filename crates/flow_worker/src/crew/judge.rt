//! All files of a run, read by intakes and judged by workers.

ghost use Rattle.std.specs.Prelude.{◌≡◌, ◌≤◌, if◌then◌else◌, ℕ, List, Some, IfOk, IfSome, All, length, map};
ghost use Rattle.timing_base.specs.Keys.{keys_of};
ghost use Rattle.timing_base.specs.Targets.{HaveOwnTargets};
ghost use Rattle.flow_worker.specs.crew.Gathering.{AreGathered, CanGather};
ghost use Rattle.fail_interval.specs.Found.{AreFound};
ghost use Rattle.fail_interval.specs.Rows.{rows_over};
ghost use Rattle.flow_worker.specs.crew.Judging.{AreBack, AreTexts, IsWhole, is_whole};
ghost use Rattle.flow_worker.specs.crew.Threads.{AreWorkJobs, AreWorked};
ghost use Rattle.flow_worker.specs.Settings.{setting_of};
ghost use Rattle.flow_worker.specs.crew.Reading.{AreIntakeJobs, AreRead, IsRun};

use crate::crew::close::close_all;
use crate::crew::columns::deal_all;
use crate::crew::ends::{Worked, take_posted, take_worked};
use crate::crew::gather::{gather, list_keys};
use crate::crew::jobs::{IntakeJob, Made, WorkJob, make_intakes, make_lanes, make_turns};
use crate::crew::reading::run_intakes;
use crate::crew::reads::{Read, take_read};
use crate::crew::threads::run_workers;
use crate::{IntakeDone, RunSetting, WorkDone};
use ruled_intake::Halt;
use std::alloc::{AllocError as OutOfMemory, Global};
use std::sync::Wait;
use std::thread::{self, Threads};
use timing_base::{FileNote, FlowOptions, Media, PcapFault, Row};
use timing_outside::{Gate, Source};
use verdict_book::{Book, Receipt};

/// Results of files that are whole.
#[derive(Drop)]
pub struct FoundWhole {
    /// How each file ends.
    pub notes: Vec<FileNote>,
    /// Results, by file and then by media.
    pub rows: Vec<Row>,
}

/// Result of a run.
#[derive(Drop)]
pub struct Judged<S: Source> {
    /// Sources, in the order in which they were given.
    pub sources: Vec<S>,
    /// How each file ends; `None` if memory ran out in its intake.
    pub notes: Vec<Option<FileNote>>,
    /// Results; `None` if a read failed or memory ran out.
    pub found: Option<FoundWhole>,
}

impl<S: Source> Judged<S> {
    ghost use Rattle.std.specs.Prelude.{None};

    /// Returns the result if memory ran out after the intakes.
    fn unfound(sources: Vec<S>, notes: Vec<Option<FileNote>>) -> Judged<S>
        ensures sources { result.sources.items ≡ sources.items }
        ensures notes { result.notes.items ≡ notes.items }
        ensures found { result.found ≡ None }
    {
        Judged {
            sources,
            notes,
            found: None,
        }
    }
}

/// Returns whether a file was read to its end, or to where it is truncated or malformed.
fn is_whole(note: FileNote) -> bool
    ensures { result ≡ is_whole note }
{
    match note {
        FileNote::Refused(PcapFault::ReadFault) => false,
        _ => true,
    }
}

/// Runs the intakes and the workers in parallel. Returns `Err` if memory runs out.
///
/// If no thread can be created, the intakes run first: `join` then runs its second closure first.
fn run_threads<R: Threads + Wait + Sync, S: Source + Send, G: Gate>(
    rt: &R,
    alloc: Global,
    run: &RunSetting<'_>,
    book: &Book,
    gate: &G,
    workers: Vec<WorkJob>,
    intakes: Vec<IntakeJob<S>>,
) -> Result<(Vec<WorkDone>, Vec<IntakeDone<S>>), OutOfMemory>
    requires run { IsRun run.now }
    requires workers { AreWorkJobs run.now.lanes.now workers.items }
    requires intakes { AreIntakeJobs run.now.lanes.now intakes.items }
    ensures worked { IfOk result (λ done. AreWorked (setting_of run.now) run.now.files book.now
        workers.items done.0.items) }
    ensures read { IfOk result (λ done. AreRead S.name S.left S.faults (setting_of run.now)
        run.now.lanes.now intakes.items done.1.items) }
{
    let halt = Halt::new();
    let stop = &halt;
    // The first closure makes the setting again from its parts: from a closure that captures a reference to a struct of
    // references the proof doesn't learn what the closure ensures.
    let RunSetting {
        media,
        lanes,
        files,
        joined,
        options,
        turns,
    } = *run;
    let (worked, read) = thread::join(
        rt,
        || -> Result<Vec<WorkDone>, OutOfMemory>
            requires { IsRun (record { media = media; lanes = lanes; files = files; joined = joined; options = options; turns = turns })
                × AreWorkJobs lanes.now workers.items }
            ensures { IfOk result (λ dones. AreWorked (record {
              media = media.entry.now;
              workers = length lanes.entry.now;
              joined = joined;
              options = options;
            }) files book.entry.now workers.items dones.items) }
        {
            let run = RunSetting {
                media,
                lanes,
                files,
                joined,
                options,
                turns,
            };
            run_workers(rt, alloc, &run, book, stop, gate, workers)
        },
        || -> Result<Vec<IntakeDone<S>>, OutOfMemory>
            requires { IsRun run.now × AreIntakeJobs run.now.lanes.now intakes.items }
            ensures { IfOk result (λ dones. AreRead S.name S.left S.faults (setting_of run.entry.now)
                run.entry.now.lanes.now intakes.items dones.items) }
        { run_intakes(rt, alloc, run, stop, gate, intakes).map_err(|_raised| OutOfMemory) },
    );
    Ok((worked?, read?))
}

/// Returns the number of files of the keys of a run: joined files are one.
fn file_count(run: &RunSetting<'_>) -> u32
    ensures { result ≡ (if run.now.joined then 1 else run.now.files) }
{
    if run.joined { 1 } else { run.files }
}

/// Returns the results that the workers posted. Returns `Err` if memory runs out, or if a worker has no receipts.
fn rows_on(
    alloc: Global,
    run: &RunSetting<'_>,
    book: &Book,
    posted: Vec<Option<Vec<Receipt>>>,
) -> Result<Vec<Row>, OutOfMemory>
    requires { CanGather book.now run.now posted.items }
    ensures { IfOk result (λ rows. AreGathered book.now run.now posted.items rows.items) }
{
    let media = run.media.len() as u32;
    let keys = list_keys(alloc, file_count(run), media)?;
    let queues = take_posted(alloc, posted)?;
    gather(alloc, book, &keys, media, run.lanes.len() as u32, queues)
}

/// Returns how the files end. Returns `Err` if memory runs out, or if a file isn't whole.
fn whole_notes(alloc: Global, ended: &[Option<FileNote>]) -> Result<Vec<FileNote>, OutOfMemory>
    ensures notes { IfOk result (λ notes. map Some notes.items ≡ ended.now) }
    ensures whole { IfOk result (λ notes. All IsWhole notes.items) }
{
    let mut notes = Vec::new(alloc);
    for end in ended.iter() {
        match *end {
            Some(note) if is_whole(note) => notes.push(note)?,
            _ => return Err(OutOfMemory),
        }
    }
    Ok(notes)
}

/// Returns the results of the files. Returns `Err` if memory runs out, if a file isn't whole, or if a worker has no
/// receipts.
fn find_whole(
    alloc: Global,
    run: &RunSetting<'_>,
    book: &Book,
    ended: &[Option<FileNote>],
    posted: Vec<Option<Vec<Receipt>>>,
) -> Result<FoundWhole, OutOfMemory>
    requires { CanGather book.now run.now posted.items }
    ensures notes { IfOk result (λ found. map Some found.notes.items ≡ ended.now) }
    ensures whole { IfOk result (λ found. All IsWhole found.notes.items) }
    ensures rows { IfOk result (λ found. AreGathered book.now run.now posted.items found.rows.items) }
{
    let notes = whole_notes(alloc, ended)?;
    let rows = rows_on(alloc, run, book, posted)?;
    Ok(FoundWhole { notes, rows })
}

/// Returns the results of the files, or `None` if one of them isn't whole or memory runs out.
fn found_whole(
    alloc: Global,
    run: &RunSetting<'_>,
    book: &Book,
    ended: &[Option<FileNote>],
    posted: Vec<Option<Vec<Receipt>>>,
) -> Option<FoundWhole>
    requires { CanGather book.now run.now posted.items }
    ensures notes { IfSome result (λ found. map Some found.notes.items ≡ ended.now) }
    ensures whole { IfSome result (λ found. All IsWhole found.notes.items) }
    ensures rows { IfSome result (λ found. AreGathered book.now run.now posted.items found.rows.items) }
{
    find_whole(alloc, run, book, ended, posted).ok()
}

/// Judges the media in files, each file by itself, or all as one if they are `joined`. Each file is read by an intake,
/// and the flows are dealt out to `workers` workers, all in parallel. Their packets are timed and numbered as the
/// options say.
///
/// After a failed read the other files are read to their ends. If memory runs out in an intake, or after the intakes,
/// the sources come back without results. Returns `Err` if memory runs out before; the sources are then gone. The call
/// may wait; its contract holds if it returns.
pub fn judge_files<R: Threads + Wait + Sync, S: Source + Send, G: Gate>(
    rt: &R,
    alloc: Global,
    sources: Vec<S>,
    media: &[Media],
    joined: bool,
    options: FlowOptions,
    workers: u32,
    gate: &G,
) -> Result<Judged<S>, OutOfMemory>
    requires some_files { 1 ≤ length sources.items }
    requires few_files { length sources.items ≤ 16 }
    requires some_media { 1 ≤ length media.now }
    requires few_media { length media.now ≤ 64 }
    requires targets { HaveOwnTargets media.now }
    requires some_workers { 1 ≤ workers }
    requires few_workers { workers ≤ 16 }
    ensures back { IfOk result (λ judged. AreBack S.name S.faults sources.items judged.notes.items
        judged.sources.items) }
    ensures notes { IfOk result (λ judged. IfSome judged.found (λ found.
        map Some found.notes.items ≡ judged.notes.items)) }
    ensures whole { IfOk result (λ judged. IfSome judged.found (λ found. All IsWhole found.notes.items)) }
    ensures keys { IfOk result (λ judged. IfSome judged.found (λ found. map (λ r. r.key) found.rows.items
        ≡ keys_of joined (length sources.items) (length media.now))) }
    ensures told { IfOk result (λ judged. IfSome judged.found (λ found. (texts : List (List ℕ))
        → AreTexts S.left texts sources.items
        → AreFound texts (rows_over joined options media.now) found.notes.items found.rows.items)) }
{
    let files = sources.len() as u32;
    let Made {
        lanes,
        workers: jobs,
        columns,
    } = make_lanes(alloc, files, workers)?;
    let intakes = make_intakes(alloc, sources, columns)?;
    let turns = make_turns(alloc, files)?;
    let book = Book::new(alloc)?;
    let run = RunSetting {
        media,
        lanes: &lanes,
        files,
        joined,
        options,
        turns: &turns,
    };
    let (worked, read) = run_threads(rt, alloc, &run, &book, gate, jobs, intakes)?;
    let Read {
        sources,
        notes,
        rows,
    } = take_read(alloc, read)?;
    let Ok(Worked { takers, posted }) = take_worked(alloc, worked) else {
        return Ok(Judged::unfound(sources, notes));
    };
    let Ok(senders) = deal_all(alloc, run.lanes.len(), rows) else {
        return Ok(Judged::unfound(sources, notes));
    };
    let found = found_whole(alloc, &run, &book, &notes, posted);
    close_all(rt, lanes, senders, takers);
    Ok(Judged {
        sources,
        notes,
        found,
    })
}
