//! The occupancy of the receiver buffer by the reads of one schedule.

ghost use Rattle.std.specs.Prelude.{◌≡◌, ◌<◌, ◌≤◌, ◌+◌, ◌^◌, ℕ, Bool, MatchOption};

use crate::margin::Margins;
use crate::numbers::Buffer;
use crate::summary::SummaryMeter;
use vrx_buffer::Held;

/// A meter of the receiver buffer just after each packet so far, by the reads of one schedule.
#[derive(Clone, Copy)]
pub struct BufferMeter {
    /// The occupancy, in packets; below 0 if the reads are ahead.
    pub occupancy: SummaryMeter,
    /// The count of packets that arrived after their own reads.
    late: u64,
    ghost late_few: { late ≤ occupancy.seen },
}

impl BufferMeter {
    ghost use Rattle.std.specs.Prelude.{ℤ};
    ghost use Rattle.flow_measure.specs.Fed.{CountsLate};
    ghost use Rattle.flow_measure.specs.Stands.{Summarizes};
    ghost use Rattle.flow_measure.specs.Summary.{IsSummary};
    ghost use Rattle.flow_measure.specs.Counts.{count_of};

    /// Returns the meter before the first packet.
    pub fn new() -> BufferMeter
        ensures seen { result.occupancy.seen ≡ 0 }
        ensures occupancy { (numbers : ℕ → ℤ) → Summarizes result.occupancy numbers }
        ensures late { (late : ℕ → Bool) → CountsLate result late }
    {
        BufferMeter {
            occupancy: SummaryMeter::new(),
            late: 0,
        }
    }

    /// Takes the next `times` packets. The buffer is at `held` just after each of them.
    #[inline(always)]
    pub fn feed(&mut self, held: Held, times: u64)
        requires some { 1 ≤ times }
        requires few { self.old.occupancy.seen + times ≤ 2 ^ 41 }
        ensures seen { self.new.occupancy.seen ≡ self.old.occupancy.seen + times }

        // Whatever packets the meter was fed before, these packets now follow them.
        ensures occupancy { (numbers : ℕ → ℤ) → Summarizes self.old.occupancy numbers
            → ((j : ℕ) → j < times → numbers (self.old.occupancy.seen + j) ≡ held.occupancy)
            → Summarizes self.new.occupancy numbers }
        ensures late { (late : ℕ → Bool) → CountsLate self.old late
            → ((j : ℕ) → j < times → late (self.old.occupancy.seen + j) ≡ held.late)
            → CountsLate self.new late }
    {
        self.occupancy.feed_often(i128::from(held.occupancy), times);
        if held.late {
            self.late += times;
        }
    }

    /// Returns the numbers of the buffer, or `None` if there is no packet. `slack` is the number of nanoseconds by
    /// which all packets may be later.
    pub fn finish(&self, slack: i128) -> Option<Buffer>
        ensures { (numbers : ℕ → ℤ) (late : ℕ → Bool) → Summarizes self.now.occupancy numbers → CountsLate self.now late
            → MatchOption result (self.now.occupancy.seen ≡ 0) (λ b.
            IsSummary numbers self.now.occupancy.seen b.occupancy × (b.margins.slack ≡ slack)
            × (b.margins.late ≡ count_of late self.now.occupancy.seen)) }
    {
        let occupancy = self.occupancy.finish()?;
        Some(Buffer {
            occupancy,
            margins: Margins {
                slack,
                late: self.late,
            },
        })
    }
}
