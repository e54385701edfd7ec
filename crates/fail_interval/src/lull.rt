//! A quiet period: packets that change no peak and no verdict.

ghost use Rattle.std.specs.Prelude.{◌≡◌, ◌≤◌, ◌↔◌, IsTrue};

use read_schedule::Between;

/// A quiet period of a run. As long as it lasts, a packet raises no peak and changes no verdict if its instant is
/// within `gapped` and `linear` and the bucket holds at most `brim` packets after it. The reads due at such a packet
/// needn't be counted.
#[derive(Clone, Copy)]
pub struct Lull {
    /// Last judged packet of the run for which it holds, counted from 1; 0 if it is over.
    pub until: u64,
    /// Threshold of the bucket: the most packets that it may hold.
    pub brim: u64,
    /// Instants at which it holds with the gapped reads.
    pub gapped: Between,
    /// Instants at which it holds with the linear reads.
    pub linear: Between,
    ghost some: { 1 ≤ until → 1 ≤ brim },
}

impl Lull {
    ghost use Rattle.fail_interval.specs.Lulls.{Holds};

    /// Returns a quiet period that is over.
    pub fn over() -> Lull
        ensures until { result.until ≡ 0 }
        ensures brim { result.brim ≡ 0 }
    {
        Lull {
            until: 0,
            brim: 0,
            gapped: Between::nothing(),
            linear: Between::nothing(),
        }
    }

    /// Returns whether the quiet period holds for judged packet `number`, counted from 1. `at` is the packet's instant
    /// in nanoseconds of TAI, and `count` the number of packets in the bucket after it.
    #[inline(always)]
    pub fn holds(&self, number: u64, count: u64, at: u64) -> bool
        requires { 1 ≤ number }
        ensures { IsTrue result ↔ Holds self.now number count at }
    {
        // A count of one packet is always within the threshold.
        number <= self.until
            && (count == 1 || count <= self.brim)
            && self.gapped.holds(at)
            && self.linear.holds(at)
    }
}
