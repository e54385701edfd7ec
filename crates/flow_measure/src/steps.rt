//! The steps from the RTP timestamp of each frame or field to that of the next.

ghost use Rattle.std.specs.Prelude.{◌≡◌, ◌<◌, ◌≤◌, ◌+◌, ◌-◌, ◌^◌, ℕ, MatchOption};

use crate::frames::step_of;
use crate::summary::{Summary, SummaryMeter};

/// A meter of the steps from each RTP timestamp so far to the next, in ticks of 90 kHz.
#[derive(Clone, Copy)]
pub struct StepMeter {
    /// The count of frames or fields fed.
    pub seen: u64,
    /// The RTP timestamp of the last one; 0 before the first.
    last: u32,
    summary: SummaryMeter,
    ghost few: { seen ≤ 2 ^ 41 },
    ghost summary_is: { summary.seen ≡ seen - 1 },
}

impl StepMeter {
    ghost use Rattle.flow_measure.specs.Fed.{MeasuresSteps};
    ghost use Rattle.flow_measure.specs.Groups.{step_after};
    ghost use Rattle.flow_measure.specs.Summary.{IsSummary};

    /// Returns the meter before the first frame or field.
    pub fn new() -> StepMeter
        ensures seen { result.seen ≡ 0 }
        ensures stands { (timestamp : ℕ → ℕ) → MeasuresSteps result timestamp }
    {
        StepMeter {
            seen: 0,
            last: 0,
            summary: SummaryMeter::new(),
        }
    }

    /// Takes the RTP timestamp of the next frame or field.
    pub fn feed(&mut self, ticks: u32)
        requires few { self.old.seen < 2 ^ 41 }
        ensures seen { self.new.seen ≡ self.old.seen + 1 }

        // Whatever frames or fields the meter was fed before, this one now follows them.
        ensures stands { (timestamp : ℕ → ℕ) → MeasuresSteps self.old timestamp → timestamp self.old.seen ≡ ticks
            → MeasuresSteps self.new timestamp }
    {
        if self.seen == 0 {
            self.seen = 1;
            self.last = ticks;
            return;
        }
        let step = step_of(self.last, ticks);
        self.summary.feed(i128::from(step));
        self.seen += 1;
        self.last = ticks;
    }

    /// Returns the summary of the steps, or `None` if there are fewer than two frames or fields.
    pub fn finish(&self) -> Option<Summary>
        ensures { (timestamp : ℕ → ℕ) → MeasuresSteps self.now timestamp
            → MatchOption result (self.now.seen - 1 ≡ 0) (IsSummary (step_after timestamp) (self.now.seen - 1)) }
    {
        self.summary.finish()
    }
}
