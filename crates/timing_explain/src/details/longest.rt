//! The details of the longest run of a flow.

ghost use Rattle.std.specs.Prelude.{◌≡◌, None, Some};

use flow_findings::RunDetails;

/// A judged run with its details.
#[derive(Clone, Copy)]
pub struct FoundRun {
    /// The number of the run among all runs of the flow, judged or not, from 1.
    pub run: u64,
    /// The count of its judged packets.
    pub packets: u64,
    /// Its details.
    pub details: RunDetails,
}

/// The complete run with the most judged packets; of equal ones the first.
#[derive(Clone, Copy)]
pub struct LongestFound {
    /// The run; `None` before the first run.
    pub found: Option<FoundRun>,
}

impl LongestFound {
    ghost use Rattle.timing_explain.specs.details.Longest.{longer};

    /// Returns no run, before the first one.
    pub fn new() -> LongestFound
        ensures { result.found ≡ None }
    {
        LongestFound { found: None }
    }

    /// Takes the next run of the flow: it replaces one that has fewer packets.
    pub fn take(&mut self, run: FoundRun)
        ensures { self.new.found ≡ Some (longer self.old.found run) }
    {
        self.found = Some(longer(self.found, run));
    }
}

ghost use Rattle.timing_explain.specs.details.Longest.{longer};

/// Returns the run with more packets; of equal ones the one before.
fn longer(before: Option<FoundRun>, run: FoundRun) -> FoundRun
    ensures { result ≡ longer before run }
{
    match before {
        None => run,
        Some(found) => {
            if found.packets < run.packets {
                run
            } else {
                found
            }
        }
    }
}
