//! Measurements of packets against the limits of one sender type.

ghost use Rattle.std.specs.Prelude.{◌≡◌, ◌<◌, ◌≤◌, ◌+◌, ◌*◌, ◌^◌, ℕ, Option};

use crate::bins::Bins;
use crate::broken::{BrokenGroups, either};
use crate::first::first_with;
use crate::numbers::{KindNumbers, Place};
use offset_window::Window;
use sender_params::Params;
use timing_base::Kind;
use vrx_buffer::Held;

/// A meter of the packets so far of one run against the limits of one sender type.
#[derive(Clone, Copy)]
pub struct KindMeter {
    /// The histogram of the bucket, in packets, up to C_MAX.
    pub bucket: Bins,
    buffer: Bins,
    /// The count of frames or fields that have a packet that breaks a limit.
    pub broken: BrokenGroups,
    first_bucket: Option<u64>,
    first_over: Option<u64>,
    first_empty: Option<u64>,
    /// The place in the capture of the first packet that breaks a limit.
    named: Option<Place>,
    ghost buffer_is: { buffer.seen ≡ bucket.seen },
}

impl KindMeter {
    ghost use Rattle.sender_params.specs.Limits.{c_max_of, vrx_full_of};
    ghost use Rattle.flow_measure.specs.Fed.{AreLike, MeasuresKind, StandsAt};
    ghost use Rattle.flow_measure.specs.First.{IsFirst};
    ghost use Rattle.flow_measure.specs.Kinds.{AreKindNumbers, Packets, breaks};

    /// Returns the meter of a sender type before the first packet.
    pub fn new(params: &Params, kind: Kind) -> KindMeter
        ensures seen { result.bucket.seen ≡ 0 }
        ensures whole { result.broken.whole ≡ 0 }
        ensures stands { let m = params.now.media in let n = params.now.n in (packets : Packets)
            → MeasuresKind n (c_max_of m n kind) (vrx_full_of m n kind) result packets }
    {
        KindMeter {
            bucket: Bins::new(params.c_max(kind)),
            buffer: Bins::new(params.vrx_full(kind)),
            broken: BrokenGroups::new(),
            first_bucket: None,
            first_over: None,
            first_empty: None,
            named: None,
        }
    }

    /// Takes the next `times` packets, which belong to one frame or field. `bucket` is the count of the bucket just
    /// after each packet, and `held` the buffer just after each packet by the reads of the type. The first of them
    /// stands at `place` in the capture.
    pub fn feed(&mut self, bucket: u64, held: Held, times: u64, place: Place)
        requires few { self.old.bucket.seen + times ≤ 2 ^ 41 }
        requires some { 1 ≤ times }
        ensures whole { self.new.broken.whole ≡ self.old.broken.whole }
        ensures seen { self.new.bucket.seen ≡ self.old.bucket.seen + times }

        // Whatever packets the meter was fed before, these packets now follow them.
        ensures stands { (n c_max full : ℕ) (packets : Packets) → MeasuresKind n c_max full self.old packets
            → AreLike c_max full packets self.old.bucket.seen (self.old.bucket.seen + times) bucket held
            → StandsAt packets self.old.bucket.seen place → MeasuresKind n c_max full self.new packets }
    {
        let packet = self.bucket.seen;
        let bucket = i128::from(bucket);
        let occupancy = i128::from(held.occupancy);
        let overfull = self.bucket.is_above(bucket);
        let over = self.buffer.is_above(occupancy);
        self.bucket.feed(bucket, times);
        self.buffer.feed(occupancy, times);
        self.first_bucket = first_with(self.first_bucket, packet, times, overfull);
        self.first_over = first_with(self.first_over, packet, times, over);
        self.first_empty = first_with(self.first_empty, packet, times, held.late);
        let broken = either(either(overfull, over), held.late);
        self.named = named_with(self.named, place, broken);
        self.broken.feed(broken, times);
    }

    /// Completes the frame or field of the last packet.
    #[inline(always)]
    pub fn end_group(&mut self)
        requires { self.old.broken.whole < 2 ^ 63 }
        ensures whole { self.new.broken.whole ≡ self.old.broken.whole + 1 }
        ensures seen { self.new.bucket.seen ≡ self.old.bucket.seen }
        ensures stands { (n c_max full : ℕ) (packets : Packets) → MeasuresKind n c_max full self.old packets
            → self.old.bucket.seen ≡ self.old.broken.whole * n + n → MeasuresKind n c_max full self.new packets }
    {
        self.broken.end_group();
    }

    /// Returns the measurements of the type, with the offsets that its packets would keep the buffer with. Its
    /// `groups_broken` counts complete frames or fields only.
    pub fn finish(&self, troff: Window) -> KindNumbers
        ensures troff { result.troff ≡ troff }
        ensures numbers { (n c_max full : ℕ) (named : Option ℕ) (packets : Packets) → MeasuresKind n c_max full self.now packets
            → IsFirst (breaks packets) self.now.bucket.seen named
            → AreKindNumbers n self.now.broken.whole self.now.bucket.seen c_max full named packets result }
    {
        KindNumbers {
            groups_broken: self.broken.count(),
            bucket: self.bucket,
            buffer: self.buffer,
            first_bucket: self.first_bucket,
            first_over: self.first_over,
            first_empty: self.first_empty,
            named: self.named,
            troff,
        }
    }
}

ghost use Rattle.flow_measure.specs.Kinds.{place_with};

/// Returns the place of the first broken packet, including a packet at `place` that may be broken.
#[inline(always)]
fn named_with(named: Option<Place>, place: Place, broken: bool) -> Option<Place>
    ensures { result ≡ place_with named place broken }
{
    if !broken {
        return named;
    }
    match named {
        None => Some(place),
        Some(_) => named,
    }
}
