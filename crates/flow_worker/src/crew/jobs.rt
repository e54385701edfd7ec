//! The lanes of a run, and the jobs of its workers and intakes.

ghost use Rattle.std.specs.Prelude.{◌≡◌, ◌≤◌, ◌<◌, ◌+◌, [], IfOk, length, map};
ghost use Rattle.flow_worker.specs.crew.Jobs.{AreIntakes, AreMade};

use crate::crew::columns::{deal, no_columns};
use ruled_intake::{Lane, SendPass, TakePass, Turn};
use std::alloc::{AllocError as OutOfMemory, Global};
use timing_outside::Source;

/// Job of the worker of a lane.
#[derive(Drop)]
pub struct WorkJob {
    /// Number of the worker, counted from 0.
    pub worker: u32,
    /// Pass of its lane.
    pub pass: TakePass,
}

/// Job of the intake of a file.
#[derive(Drop)]
pub struct IntakeJob<S: Source> {
    /// File, counted from 0.
    pub file: u32,
    /// Source of the file.
    pub source: S,
    /// Passes of all lanes, in order.
    pub passes: Vec<SendPass>,
}

/// Lanes of a run, one for each worker.
#[derive(Drop)]
pub struct Made {
    /// Lanes, in the order of the workers.
    pub lanes: Vec<Lane>,
    /// Jobs of the workers.
    pub workers: Vec<WorkJob>,
    /// Passes of each file for the lanes so far.
    pub columns: Vec<Vec<SendPass>>,
}

/// Makes the lane of one more worker, and deals its passes out to the files. Returns `Err` if memory runs out.
fn add_lane(alloc: Global, files: u32, worker: u32, made: &mut Made) -> Result<(), OutOfMemory>
    requires some_files { 1 ≤ files }
    requires few_files { files ≤ 16 }
    requires made { AreMade files worker made.old.lanes.items made.old.workers.items
        (map (λ c. c.items) made.old.columns.items) }
    ensures made { IfOk result (λ _. AreMade files (worker + 1) made.new.lanes.items
        made.new.workers.items (map (λ c. c.items) made.new.columns.items)) }
{
    let (lane, passes, pass) = Lane::new(alloc, files)?;
    made.lanes.push(lane)?;
    made.workers.push(WorkJob { worker, pass })?;
    deal(&mut made.columns, passes)
}

/// Makes a lane for each worker, with a pass for each file. Returns `Err` if memory runs out.
pub fn make_lanes(alloc: Global, files: u32, workers: u32) -> Result<Made, OutOfMemory>
    requires some_files { 1 ≤ files }
    requires few_files { files ≤ 16 }
    ensures made { IfOk result (λ made. AreMade files workers made.lanes.items made.workers.items
        (map (λ c. c.items) made.columns.items)) }
{
    let mut made = Made {
        lanes: Vec::new(alloc),
        workers: Vec::new(alloc),
        columns: no_columns(alloc, files as usize)?,
    };
    for worker in 0..workers {
        add_lane(alloc, files, worker, &mut made)?;
    }
    Ok(made)
}

/// Makes the job of each file's intake, with its source and its passes. Returns `Err` if memory runs out.
pub fn make_intakes<S: Source>(
    alloc: Global,
    sources: Vec<S>,
    columns: Vec<Vec<SendPass>>,
) -> Result<Vec<IntakeJob<S>>, OutOfMemory>
    requires columns { length sources.items ≡ length columns.items }
    requires few { length sources.items ≤ 16 }
    ensures { IfOk result (λ jobs. AreIntakes sources.items (map (λ c. c.items) columns.items) jobs.items) }
{
    let mut jobs = Vec::new(alloc);
    let mut columns = columns.into_iter();
    let mut file = 0;
    for source in sources {
        let Some(passes) = columns.next() else {
            unreachable!()
        };
        jobs.push(IntakeJob {
            file,
            source,
            passes,
        })?;
        file += 1;
    }
    Ok(jobs)
}

/// Returns the turns of `files` files that aren't read yet. Returns `Err` if memory runs out.
pub fn make_turns(alloc: Global, files: u32) -> Result<Vec<Turn>, OutOfMemory>
    ensures { IfOk result (λ turns. length turns.items ≡ files) }
{
    let mut turns = Vec::new(alloc);
    for _ in 0..files {
        turns.push(Turn::new())?;
    }
    Ok(turns)
}
