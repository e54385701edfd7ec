//! The capture timestamps that a claim needs.

ghost use Rattle.std.specs.Prelude.{◌≤◌, ◌<◌, ℕ};
ghost use Rattle.timing_base.specs.Captures.{IsStamp};

use crate::asked::Asked;
use timing_base::FailProof;

/// Capture timestamps of five packets among those after the first marker of a run, in nanoseconds, as the capture has
/// them.
#[derive(Clone, Copy, Debug, PartialEq, Eq)]
pub struct Sample {
    /// Capture timestamp of packet 0.
    pub first: u64,
    /// Capture timestamp of the first packet of the claimed interval.
    pub from: u64,
    /// Capture timestamp of the last packet of the claimed interval.
    pub to: u64,
    /// Capture timestamp of the last of as many packets as the claimed count.
    pub last_counted: u64,
    /// Capture timestamp of the packet after those.
    pub behind: u64,
    ghost from_later: { first ≤ from },
    ghost to_later: { first ≤ to },
    ghost from_stamp: { IsStamp from },
    ghost to_stamp: { IsStamp to },
    ghost counted_stamp: { IsStamp last_counted },
    ghost behind_stamp: { IsStamp behind },
}

impl Sample {
    ghost use Rattle.interval_checker.specs.Asking.{AreKept, IsAsked};
    ghost use Rattle.interval_checker.specs.Samples.{IsSample};

    /// Returns the capture timestamps that a claimed violation by a run needs, of those kept. The timestamp of a packet
    /// that didn't come is unspecified.
    pub fn of(asked: &Asked, run: u64, proof: &FailProof) -> Sample
        ensures { (stamps : ℕ → ℕ) (count : ℕ) → AreKept asked.now run stamps count
            → IsAsked asked.now run proof.now
            → ((k : ℕ) → k < count → stamps 0 ≤ stamps k)
            → IsSample proof.now stamps count result }
    {
        let first = asked.stamp(run, 0);
        Sample {
            first,
            from: asked.stamp(run, proof.from).max(first),
            to: asked.stamp(run, proof.to).max(first),
            last_counted: asked.stamp(run, proof.count.saturating_sub(1)),
            behind: asked.stamp(run, proof.count),
        }
    }
}
