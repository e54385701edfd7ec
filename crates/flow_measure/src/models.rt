//! The levels of the two models at each packet, and the packets against the limits of the three sender types.

ghost use Rattle.std.specs.Prelude.{◌≡◌, ◌<◌, ◌≤◌, ◌+◌, ◌*◌, ◌^◌, ℕ};

use crate::buffer::BufferMeter;
use crate::kind::KindMeter;
use crate::numbers::Place;
use crate::summary::SummaryMeter;
use run_meter::Level;
use sender_params::Params;
use timing_base::Kind;
use vrx_buffer::Held;

/// A meter of the packets so far of one run: the levels of the two models, and the packets against the limits of the
/// types N, NL and W.
///
/// The last packets of a frame or field that have equal levels are kept waiting, and are fed to the meters together.
#[derive(Clone, Copy)]
pub struct ModelMeters {
    /// The count of the bucket just after each packet, in packets.
    pub bucket: SummaryMeter,
    /// The buffer by gapped reads.
    pub gapped: BufferMeter,
    /// The buffer by linear reads.
    pub linear: BufferMeter,
    /// The measurements against type N.
    pub narrow: KindMeter,
    /// The measurements against type NL.
    pub narrow_linear: KindMeter,
    /// The measurements against type W.
    pub wide: KindMeter,
    /// The level of each waiting packet.
    level: Level,
    /// The place in the capture of the first waiting packet.
    place: Place,
    /// The count of waiting packets.
    pub waits: u64,
    ghost few: { bucket.seen + waits ≤ 2 ^ 41 },
    ghost gapped_is: { gapped.occupancy.seen ≡ bucket.seen },
    ghost linear_is: { linear.occupancy.seen ≡ bucket.seen },
    ghost narrow_is: { narrow.bucket.seen ≡ bucket.seen },
    ghost narrow_linear_is: { narrow_linear.bucket.seen ≡ bucket.seen },
    ghost wide_is: { wide.bucket.seen ≡ bucket.seen },
    ghost narrow_linear_whole: { narrow_linear.broken.whole ≡ narrow.broken.whole },
    ghost wide_whole: { wide.broken.whole ≡ narrow.broken.whole },
}

impl ModelMeters {
    ghost use Rattle.timing_base.specs.declared.media.Kind.{Kind as KindValue};
    ghost use Rattle.sender_params.specs.Limits.{c_max_of, vrx_full_of};
    ghost use Rattle.flow_measure.specs.Fed.{Finds, MeasuresType};
    ghost use Rattle.flow_measure.specs.Kinds.{Packets};

    /// Returns the meter before the first packet.
    pub fn new(params: &Params) -> ModelMeters
        ensures seen { result.bucket.seen ≡ 0 }
        ensures none { result.waits ≡ 0 }
        ensures whole { result.narrow.broken.whole ≡ 0 }
        ensures stands { let m = params.now.media in let n = params.now.n in (kind : KindValue) (packets : Packets)
            → MeasuresType kind n (c_max_of m n kind) (vrx_full_of m n kind) result packets }
    {
        let held = Held {
            occupancy: 0,
            late: false,
        };
        ModelMeters {
            bucket: SummaryMeter::new(),
            gapped: BufferMeter::new(),
            linear: BufferMeter::new(),
            narrow: KindMeter::new(params, Kind::N),
            narrow_linear: KindMeter::new(params, Kind::NL),
            wide: KindMeter::new(params, Kind::W),
            level: Level {
                bucket: 0,
                gapped: held,
                linear: held,
            },
            place: Place {
                record: 0,
                stamp: 0,
            },
            waits: 0,
        }
    }

    /// Takes the next packet, its levels, and its place in the capture.
    #[inline(always)]
    pub fn feed(&mut self, level: Level, place: Place)
        requires few { self.old.bucket.seen + self.old.waits < 2 ^ 41 }
        ensures seen { self.new.bucket.seen + self.new.waits ≡ self.old.bucket.seen + self.old.waits + 1 }
        ensures whole { self.new.narrow.broken.whole ≡ self.old.narrow.broken.whole }

        // Whatever packets the meters were fed before, this packet now follows them.
        ensures stands { (kind : KindValue) (n c_max full : ℕ) (packets : Packets)
            → MeasuresType kind n c_max full self.old packets
            → Finds kind c_max full packets (self.old.bucket.seen + self.old.waits) level place
            → MeasuresType kind n c_max full self.new packets }
    {
        if self.waits > 0 && level == self.level {
            self.waits += 1;
            return;
        }
        self.turn_to(level, place);
    }

    /// Feeds the waiting packets to the meters, and lets the next packet, with its levels and its place, wait.
    #[inline(never)]
    fn turn_to(&mut self, level: Level, place: Place)
        requires few { self.old.bucket.seen + self.old.waits < 2 ^ 41 }
        ensures seen { self.new.bucket.seen + self.new.waits ≡ self.old.bucket.seen + self.old.waits + 1 }
        ensures whole { self.new.narrow.broken.whole ≡ self.old.narrow.broken.whole }
        ensures stands { (kind : KindValue) (n c_max full : ℕ) (packets : Packets)
            → MeasuresType kind n c_max full self.old packets
            → Finds kind c_max full packets (self.old.bucket.seen + self.old.waits) level place
            → MeasuresType kind n c_max full self.new packets }
    {
        self.settle();
        self.level = level;
        self.place = place;
        self.waits = 1;
    }

    /// Feeds the waiting packets to the meters.
    #[inline(always)]
    fn settle(&mut self)
        ensures seen { self.new.bucket.seen ≡ self.old.bucket.seen + self.old.waits }
        ensures none { self.new.waits ≡ 0 }
        ensures whole { self.new.narrow.broken.whole ≡ self.old.narrow.broken.whole }
        ensures stands { (kind : KindValue) (n c_max full : ℕ) (packets : Packets)
            → MeasuresType kind n c_max full self.old packets → MeasuresType kind n c_max full self.new packets }
    {
        if self.waits == 0 {
            return;
        }
        let Level {
            bucket,
            gapped,
            linear,
        } = self.level;
        let times = self.waits;
        self.bucket.feed_often(i128::from(bucket), times);
        self.gapped.feed(gapped, times);
        self.linear.feed(linear, times);
        self.narrow.feed(bucket, gapped, times, self.place);
        self.narrow_linear.feed(bucket, linear, times, self.place);
        self.wide.feed(bucket, linear, times, self.place);
        self.waits = 0;
    }

    /// Completes the frame or field of the last packet. After it no packet waits.
    #[cold]
    #[inline(never)]
    pub fn end_group(&mut self)
        requires { self.old.narrow.broken.whole < 2 ^ 63 }
        ensures seen { self.new.bucket.seen ≡ self.old.bucket.seen + self.old.waits }
        ensures none { self.new.waits ≡ 0 }
        ensures whole { self.new.narrow.broken.whole ≡ self.old.narrow.broken.whole + 1 }
        ensures stands { (kind : KindValue) (n c_max full : ℕ) (packets : Packets)
            → MeasuresType kind n c_max full self.old packets
            → self.old.bucket.seen + self.old.waits ≡ self.old.narrow.broken.whole * n + n
            → MeasuresType kind n c_max full self.new packets }
    {
        self.settle();
        self.narrow.end_group();
        self.narrow_linear.end_group();
        self.wide.end_group();
    }
}
