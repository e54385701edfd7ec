//! The intakes of a run, in parallel.

ghost use Rattle.std.specs.Prelude.{◌≡◌, IfErr, IfOk};
ghost use Rattle.flow_worker.specs.Settings.{setting_of};
ghost use Rattle.flow_worker.specs.crew.Reading.{AreIntakeJobs, AreRead, HasRead, IsIntakeJob, IsRun};

use crate::crew::jobs::IntakeJob;
use crate::{IntakeDone, RunSetting, intake};
use ruled_intake::{Halt, Raised};
use std::alloc::Global;
use std::sync::Wait;
use std::thread::{self, Threads};
use timing_outside::{Gate, Source};

/// Runs the intake of a job, in the turn of its file.
fn read_one<R: Wait, S: Source, G: Gate>(
    rt: &R,
    alloc: Global,
    run: &RunSetting<'_>,
    halt: &Halt,
    gate: &G,
    job: IntakeJob<S>,
) -> IntakeDone<S>
    requires run { IsRun run.now }
    requires job { IsIntakeJob run.now.lanes.now job }
    ensures { HasRead S.name S.left S.faults (setting_of run.now) run.now.lanes.now job result }
{
    let IntakeJob {
        file,
        source,
        passes,
    } = job;
    let reading = run.begin_turn(file);
    let (done, _raised) = intake(rt, alloc, run, file, source, passes, halt, gate);
    drop(reading);
    done
}

/// Runs the intakes, each on a thread of its own if one can be created. Returns `Err` if memory runs out. The halt is
/// then raised, since an intake that didn't run sends no end, and the workers of all lanes were woken for it.
pub fn run_intakes<'h, R: Threads + Wait + Sync, S: Source + Send, G: Gate>(
    rt: &R,
    alloc: Global,
    run: &RunSetting<'h>,
    halt: &'h Halt,
    gate: &G,
    jobs: Vec<IntakeJob<S>>,
) -> Result<Vec<IntakeDone<S>>, Raised<'h>>
    requires run { IsRun run.now }
    requires jobs { AreIntakeJobs run.now.lanes.now jobs.items }
    ensures read { IfOk result (λ dones. AreRead S.name S.left S.faults (setting_of run.now)
        run.now.lanes.now jobs.items dones.items) }
    ensures raised { IfErr result (λ raised. raised ≡ record { halt = halt.now; woken = run.now.lanes.now }) }
{
    let one = |job: IntakeJob<S>| -> IntakeDone<S>
        requires { IsRun run.now × IsIntakeJob run.now.lanes.now job }
        ensures { HasRead S.name S.left S.faults (setting_of run.entry.now) run.entry.now.lanes.now job result }
    { read_one(rt, alloc, run, halt, gate, job) };
    match thread::map_vec(rt, jobs, &one) {
        Ok(dones) => Ok(dones),
        Err(_) => Err(halt.raise(rt, run.lanes)),
    }
}
