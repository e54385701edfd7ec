//! The workers of a run, in parallel.

ghost use Rattle.std.specs.Prelude.{IfOk};
ghost use Rattle.flow_worker.specs.Settings.{setting_of};
ghost use Rattle.flow_worker.specs.crew.Reading.{IsRun};
ghost use Rattle.flow_worker.specs.crew.Threads.{AreWorkJobs, AreWorked, HasWorked, IsWorkJob};

use crate::crew::jobs::WorkJob;
use crate::{RunSetting, WorkDone, work};
use ruled_intake::Halt;
use std::alloc::{AllocError as OutOfMemory, Global};
use std::sync::Wait;
use std::thread::{self, Threads};
use timing_outside::Gate;
use verdict_book::Book;

/// Runs the workers, each on a thread of its own if one can be created. Returns `Err` if memory runs out.
pub fn run_workers<R: Threads + Wait + Sync, G: Gate>(
    rt: &R,
    alloc: Global,
    run: &RunSetting<'_>,
    book: &Book,
    halt: &Halt,
    gate: &G,
    jobs: Vec<WorkJob>,
) -> Result<Vec<WorkDone>, OutOfMemory>
    requires run { IsRun run.now }
    requires jobs { AreWorkJobs run.now.lanes.now jobs.items }
    ensures { IfOk result (λ dones. AreWorked (setting_of run.now) run.now.files book.now
        jobs.items dones.items) }
{
    let one = |job: WorkJob| -> WorkDone
        requires { IsRun run.now × IsWorkJob run.now.lanes.now job }
        ensures { HasWorked (setting_of run.entry.now) run.entry.now.files book.entry.now job result }
    {
        let WorkJob { worker, pass } = job;
        work(rt, alloc, run, worker, pass, book, halt, gate)
    };
    thread::map_vec(rt, jobs, &one)
}
