//! The output of the meters of a flow's runs, before the first run.

ghost use Rattle.std.specs.Prelude.{◌≡◌, [], IfOk, None};

use flow_measure::MeasuredRuns;
use flow_page::drawing::LongestRun;
use std::alloc::{AllocError as OutOfMemory, Global};

/// The output that the meters of a flow's runs write, one after the other.
pub trait FlowOutput: Drop {
    /// No meter has written anything.
    ghost empty: { Self → Type 0 };

    /// Returns the output before the first run. Returns `Err` if memory runs out.
    fn empty(alloc: Global) -> Result<Self, OutOfMemory>
        ensures { IfOk result empty };
}

impl FlowOutput for MeasuredRuns {
    ghost empty = { λ out. out.runs.items ≡ [] };

    fn empty(alloc: Global) -> Result<MeasuredRuns, OutOfMemory> {
        Ok(MeasuredRuns::new(alloc))
    }
}

impl FlowOutput for LongestRun {
    ghost empty = { λ out. out.drawn ≡ None };

    fn empty(_alloc: Global) -> Result<LongestRun, OutOfMemory> {
        Ok(LongestRun::new())
    }
}

impl<A: FlowOutput, B: FlowOutput> FlowOutput for (A, B) {
    ghost empty = { λ out. A.empty out.0 × B.empty out.1 };

    fn empty(alloc: Global) -> Result<(A, B), OutOfMemory> {
        Ok((A::empty(alloc)?, B::empty(alloc)?))
    }
}
