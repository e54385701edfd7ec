//! The results of the workers of a run, in order.

ghost use Rattle.std.specs.Prelude.{◌≡◌, Some, IfOk, map};
ghost use Rattle.std.specs.Vec.Iter.{into_iter_items};
ghost use Rattle.flow_worker.specs.crew.Ends.{receipts_in};

use crate::WorkDone;
use ruled_intake::TakePass;
use std::alloc::{AllocError as OutOfMemory, Global};
use std::vec::IntoIter;
use verdict_book::Receipt;

/// Results of the workers, in order.
#[derive(Drop)]
pub struct Worked {
    /// Passes of the workers' lanes.
    pub takers: Vec<TakePass>,
    /// Receipts of each worker; `None` if memory ran out.
    pub posted: Vec<Option<Vec<Receipt>>>,
}

/// Takes the results of the workers apart. Returns `Err` if memory runs out.
pub fn take_worked(alloc: Global, dones: Vec<WorkDone>) -> Result<Worked, OutOfMemory>
    ensures takers { IfOk result (λ worked. worked.takers.items ≡ map (λ d. d.pass) dones.items) }
    ensures posted { IfOk result (λ worked. worked.posted.items ≡ map (λ d. d.receipts) dones.items) }
{
    let mut worked = Worked {
        takers: Vec::new(alloc),
        posted: Vec::new(alloc),
    };
    for done in dones {
        worked.takers.push(done.pass)?;
        worked.posted.push(done.receipts)?;
    }
    Ok(worked)
}

/// Returns the receipts of all workers. Returns `Err` if memory runs out, or if a worker has none.
pub fn take_posted(
    alloc: Global,
    posted: Vec<Option<Vec<Receipt>>>,
) -> Result<Vec<IntoIter<Receipt>>, OutOfMemory>
    ensures { IfOk result (λ queues. map receipts_in posted.items
        ≡ map (λ q. Some (into_iter_items q)) queues.items) }
{
    let mut queues = Vec::new(alloc);
    for each in posted {
        let Some(receipts) = each else {
            return Err(OutOfMemory);
        };
        queues.push(receipts.into_iter())?;
    }
    Ok(queues)
}
