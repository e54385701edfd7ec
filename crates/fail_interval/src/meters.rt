//! The meters of one run: the state of both models of SMPTE ST 2110-21 for its judged packets.

ghost use Rattle.std.specs.Prelude.{◌≡◌, ◌≤◌, ◌<◌, ◌^◌, ◌++◌, ◌∷◌, [], ℕ, List, length};
ghost use Rattle.fail_interval.specs.SoFar.{AreStamps};
ghost use Rattle.fail_interval.specs.Row.{judged_values};
ghost use Rattle.run_meter.specs.Levels.{IsLevel};

use crate::kind::KindMeter;
use crate::lull::Lull;
use drain_bucket::Bucket;
use read_schedule::{Between, Schedule};
use run_meter::Level;
use sender_params::Params;
use timing_base::{Judged, Kind};
use vrx_buffer::{Held, VrxFault};

/// Peaks and verdicts of both models for the judged packets of one run.
#[derive(Clone, Copy)]
pub struct RunMeters {
    gapped: Schedule,
    linear: Schedule,
    bucket: Bucket,
    narrow: KindMeter,
    narrow_linear: KindMeter,
    wide: KindMeter,
    lull: Lull,
}

impl RunMeters {
    ghost use Rattle.fail_interval.specs.Lulls.{Holds, IsLull};
    ghost use Rattle.fail_interval.specs.Meters.{AreFed, CanFollow, IsWithin, StandsFor, TakesNext};
    ghost use Rattle.sender_params.specs.declared.params.Params.{Params as ParamsValue};

    /// Returns the meters before the first packet, which comes at `origin`, in nanoseconds of TAI.
    pub fn new(params: &Params, origin: u64) -> RunMeters
        requires { origin < 2 ^ 62 }
        ensures origin { result.bucket.origin ≡ origin }
        ensures stands { StandsFor params.now result [] }
    {
        let n0 = params.anchor(origin);
        RunMeters {
            bucket: Bucket::new(params, origin),
            gapped: Schedule::new(params, true, n0),
            linear: Schedule::new(params, false, n0),
            narrow: KindMeter::new(params, Kind::N),
            narrow_linear: KindMeter::new(params, Kind::NL),
            wide: KindMeter::new(params, Kind::W),
            lull: Lull::over(),
        }
    }

    /// Takes the next judged packet, which comes at `at`, in nanoseconds of TAI.
    #[inline(always)]
    pub fn feed(&mut self, params: &Params, at: u64)
        requires { ∥ ((stamps : List ℕ) × CanFollow params.now self.old stamps at) ∥₁ }
        ensures origin { self.new.bucket.origin ≡ self.old.bucket.origin }
        ensures stands { (stamps : List ℕ) → CanFollow params.now self.old stamps at
            → StandsFor params.now self.new (stamps ++ at ∷ []) }
    {
        self.bucket.feed(params, at);
        if self.lull.holds(self.bucket.seen, self.bucket.count, at) {
            self.pass(at);
        } else {
            self.tell(params, at);
        }
    }

    /// Takes the next judged packet as [`RunMeters::feed`] does, and returns the state of the models just after it.
    #[inline(always)]
    pub fn feed_level(&mut self, params: &Params, at: u64) -> Level
        requires { ∥ ((stamps : List ℕ) × CanFollow params.now self.old stamps at) ∥₁ }
        ensures origin { self.new.bucket.origin ≡ self.old.bucket.origin }
        ensures stands { (stamps : List ℕ) → CanFollow params.now self.old stamps at
            → StandsFor params.now self.new (stamps ++ at ∷ []) }
        ensures level { (stamps : List ℕ) → CanFollow params.now self.old stamps at
            → IsLevel params.now.media params.now.n (stamps ++ at ∷ []) (length stamps) result }
    {
        let packet = self.bucket.seen;
        self.feed(params, at);
        let gapped = self.gapped.advance(at);
        let linear = self.linear.advance(at);
        Level {
            bucket: self.bucket.count,
            gapped: Held::after(packet, gapped),
            linear: Held::after(packet, linear),
        }
    }

    /// Takes the next judged packet in a quiet period. The bucket has already taken it. No other meter changes.
    #[inline(always)]
    fn pass(&mut self, at: u64)
        requires lull { Holds self.old.lull self.old.bucket.seen self.old.bucket.count at }
        requires in_time { at < 2 ^ 62 }
        ensures bucket { self.new.bucket ≡ self.old.bucket }
        ensures takes { (params : ParamsValue) → TakesNext params self.old self.new at }
    {
        self.lull.gapped.go_on(at);
        self.lull.linear.go_on(at);
    }

    /// Takes the next judged packet outside a quiet period. The bucket has already taken it.
    #[cold]
    #[inline(never)]
    fn tell(&mut self, params: &Params, at: u64)
        requires { IsWithin self.old.bucket at }
        ensures bucket { self.new.bucket ≡ self.old.bucket }
        ensures takes { TakesNext params.now self.old self.new at }
    {
        let gapped = self.gapped.advance(at);
        let linear = self.linear.advance(at);
        self.narrow.feed(params, &self.bucket, gapped);
        self.narrow_linear.feed(params, &self.bucket, linear);
        self.wide.feed(params, &self.bucket, linear);
        self.lull = self.next_lull(at);
    }

    /// Returns the quiet period from the next packet on, after one that came at `last`.
    fn next_lull(&self, last: u64) -> Lull
        ensures { (params : ParamsValue) (stamps : List ℕ) → AreFed params self.now stamps
            → IsLull params self.now.bucket.origin (length stamps) self.now.narrow self.now.narrow_linear
            self.now.wide result }
    {
        let seen = self.bucket.seen;
        let gapped_read = seen.saturating_sub(self.narrow.vrx.peak);
        let linear_read = seen.saturating_sub(self.narrow_linear.vrx.peak);
        let breaks = both_break(self.narrow_linear.vrx.fault, self.wide.vrx.fault);
        let gapped = calm(
            &self.gapped,
            gapped_read,
            seen,
            last,
            self.narrow.vrx.fault.is_some(),
        );
        let linear = calm(&self.linear, linear_read, seen, last, breaks);
        let until = seen.saturating_add(gapped.lasts.min(linear.lasts));
        let brim = self
            .narrow
            .brim()
            .min(self.narrow_linear.brim())
            .min(self.wide.brim());
        if brim == 0 {
            return Lull::over();
        }
        Lull {
            until,
            brim,
            gapped,
            linear,
        }
    }

    /// Returns the number of packets taken.
    pub fn seen(&self) -> u64
        ensures { (params : ParamsValue) (stamps : List ℕ) → StandsFor params self.now stamps
            → result ≡ length stamps }
    {
        self.bucket.seen
    }

    /// Returns the verdict on a run of `frames` complete frames or fields, with a head of `head` packets and no tail.
    pub fn judged(&self, params: &Params, frames: u64, head: u64) -> Judged
        ensures { (stamps : List ℕ) → StandsFor params.now self.now stamps
            → result ≡ judged_values params.now.media (record {
              n = params.now.n;
              groups = frames;
              head = head;
              tail = 0;
              stamps = stamps;
            }) }
    {
        Judged {
            n: params.n,
            frames,
            packets: self.bucket.seen,
            head,
            tail: 0,
            bucket_peak: self.bucket.peak,
            gapped_peak: self.narrow.vrx.peak,
            linear_peak: self.narrow_linear.vrx.peak,
            kinds: [
                self.narrow.verdict,
                self.narrow_linear.verdict,
                self.wide.verdict,
            ],
        }
    }
}

ghost use Rattle.std.specs.Prelude.{ℤ, Bool, false, None};
ghost use Rattle.timing_base.specs.Media.{Media as MediaValue};
ghost use Rattle.read_schedule.specs.Between.{IsFrom, IsUpTo};
ghost use Rattle.read_schedule.specs.Stands.{StandsBy};

/// Returns whether both buffers have a fault.
fn both_break(first: Option<VrxFault>, second: Option<VrxFault>) -> bool
    ensures first { first ≡ None → result ≡ false }
    ensures second { second ≡ None → result ≡ false }
{
    first.is_some() && second.is_some()
}

/// Returns the instants from read `early` on, after a packet that came at `last`. If `breaks` is `false`, they end with
/// read `late`.
fn calm(schedule: &Schedule, early: u64, late: u64, last: u64, breaks: bool) -> Between
    ensures due { (m : MediaValue) (n : ℕ) (anchor : ℤ) (gapped : Bool) (at left : ℕ)
        → StandsBy m n anchor gapped schedule.now at → left ≤ result.lasts
        → IsFrom m n anchor gapped early left result }
    ensures ahead { (m : MediaValue) (n : ℕ) (anchor : ℤ) (gapped : Bool) (at left : ℕ)
        → StandsBy m n anchor gapped schedule.now at → left ≤ result.lasts
        → breaks ≡ false → IsUpTo m n anchor gapped late left result }
{
    if breaks {
        schedule.after(early)
    } else {
        schedule.between(early, late, last)
    }
}
