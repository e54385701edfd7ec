//! The leaky bucket.

ghost use Rattle.std.specs.Prelude.{◌≡◌, ◌≤◌, ◌<◌, ◌+◌, ◌^◌, ◌++◌, ◌∷◌, [], ℕ, List};

use fraction128::Clock;
use sender_params::Params;

/// Latest capture timestamp, in nanoseconds of TAI.
const LATEST: u64 = (1 << 62) - 1;

/// State of the bucket between two packets of one flow.
#[derive(Clone, Copy, Debug, PartialEq, Eq)]
pub struct Bucket {
    /// Capture timestamp of the first packet, in nanoseconds of TAI.
    pub origin: u64,
    /// Packets in the bucket just after the last arrival.
    pub count: u64,
    /// Latest start of an interval that shows the count: the packets from `begin`, counted from 0, to the last one,
    /// less the drain ticks after packet `begin`, are `count`.
    pub begin: u64,
    /// Number of packets fed.
    pub seen: u64,
    /// Greatest count after any packet; 0 before the first.
    pub peak: u64,
    /// Capture timestamp of the last packet, in nanoseconds of TAI; 0 before the first.
    last: u64,
    /// First tick after an instant that isn't later than `last`. Ticks were counted up to that instant.
    next: Clock,
    ghost count_within: { count ≤ peak },
    ghost begin_within: { begin ≤ seen },
    ghost peak_within: { peak ≤ seen },
    ghost last_within: { last < 2 ^ 62 },
}

impl Bucket {
    ghost use Rattle.drain_bucket.specs.Stands.{CanFollow, StandsFor};
    ghost use Rattle.sender_params.specs.declared.params.Params.{Params as ParamsValue};

    /// Returns the empty bucket of a flow. Its first packet comes at `origin`, in nanoseconds of TAI.
    pub fn new(params: &Params, origin: u64) -> Bucket
        ensures origin { result.origin ≡ origin }
        ensures stands { StandsFor params.now result [] }
    {
        Bucket {
            origin,
            count: 0,
            begin: 0,
            seen: 0,
            peak: 0,
            last: 0,
            next: Clock::start(&params.drain, origin.min(LATEST)),
        }
    }

    /// Drains the bucket up to `at`, in nanoseconds of TAI, puts one packet in, and returns the count in packets. A
    /// tick exactly at an arrival comes before it, and a tick on an empty bucket is lost (SMPTE ST 2110-21, network
    /// compatibility model).
    ///
    /// The caller must feed capture timestamps that never go back, the first of them `origin`, and the same `Params` at
    /// each call: for others the result is not guaranteed. If a packet comes more than T_DRAIN after one that found the
    /// bucket empty, it finds the bucket empty too, and its ticks are counted only at the next packet that comes
    /// sooner.
    #[inline(always)]
    pub fn feed(&mut self, params: &Params, at: u64) -> u64
        requires begun { self.old.origin ≤ at }
        requires in_time { at < 2 ^ 62 }
        requires few { self.old.seen < 2 ^ 41 }

        ensures count { result ≡ self.new.count }
        ensures origin { self.new.origin ≡ self.old.origin }
        ensures seen { self.new.seen ≡ self.old.seen + 1 }

        // The bucket was then fed the packets before and this one.
        ensures stands { (stamps : List ℕ) → StandsFor params.now self.old stamps
            → CanFollow self.old stamps at
            → StandsFor params.now self.new (stamps ++ at ∷ []) }
    {
        if self.count == 1 && at > self.last + params.drain.whole {
            self.begin = self.seen;
            self.seen += 1;
            self.last = at;
            return 1;
        }
        if at < self.next.due {
            self.feed_before_tick(at);
            return self.count;
        }
        self.feed_by_ticks(params, at);
        self.count
    }

    /// Puts in the next packet, which comes before the next tick: no tick lies between the last packet and it.
    #[inline(always)]
    fn feed_before_tick(&mut self, at: u64)
        requires early { at < self.old.next.due }
        requires in_time { at < 2 ^ 62 }
        requires few { self.old.seen < 2 ^ 41 }
        ensures origin { self.new.origin ≡ self.old.origin }
        ensures seen { self.new.seen ≡ self.old.seen + 1 }
        ensures stands { (params : ParamsValue) (stamps : List ℕ) → StandsFor params self.old stamps
            → CanFollow self.old stamps at
            → StandsFor params self.new (stamps ++ at ∷ []) }
    {
        let count = self.count + 1;
        self.count = count;
        self.seen += 1;
        self.last = at;
        self.peak = self.peak.max(count);
    }

    /// Puts in the next packet, after it counted the ticks between the last packet and this one.
    #[inline(never)]
    fn feed_by_ticks(&mut self, params: &Params, at: u64)
        requires in_time { at < 2 ^ 62 }
        requires few { self.old.seen < 2 ^ 41 }
        ensures origin { self.new.origin ≡ self.old.origin }
        ensures seen { self.new.seen ≡ self.old.seen + 1 }
        ensures stands { (stamps : List ℕ) → StandsFor params.now self.old stamps
            → CanFollow self.old stamps at
            → StandsFor params.now self.new (stamps ++ at ∷ []) }
    {
        let mut next = self.next;
        next.advance(&params.drain, self.last);
        let drained = next.advance(&params.drain, at);
        let left = self.count.saturating_sub(drained);
        if left == 0 {
            self.begin = self.seen;
        }
        self.next = next;
        self.last = at;
        self.count = left + 1;
        self.seen += 1;
        self.peak = self.peak.max(self.count);
    }
}
