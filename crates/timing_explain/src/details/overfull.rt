//! The packets of a run after which the bucket exceeds C_MAX of a sender type.

ghost use Rattle.std.specs.Prelude.{◌≡◌, ◌<◌, ◌+◌, ◌*◌, ◌^◌, ℕ, ℤ, pos};
ghost use Rattle.timing_base.specs.Media.{Media};
ghost use Rattle.sender_params.specs.Limits.{c_max_of};

use flow_findings::Overfull;
use flow_measure::{BrokenGroups, Place};
use sender_params::Params;
use timing_base::Kind;

/// A counter of the packets of a run so far after which the bucket exceeds C_MAX of one sender type.
#[derive(Clone, Copy)]
pub struct OverfullMeter {
    /// C_MAX, in packets.
    c_max: u64,
    /// The count of frames or fields that have such a packet.
    pub groups: BrokenGroups,
    /// The place in the capture of the first such packet.
    first: Option<Place>,
}

impl OverfullMeter {
    ghost use Rattle.timing_explain.specs.details.Overfull.{CountsOverfull, FindsOverfull};

    /// Returns the counter before the first packet.
    pub fn new(params: &Params, kind: Kind) -> OverfullMeter
        ensures whole { result.groups.whole ≡ 0 }
        ensures stands { let m = params.now.media in let n = params.now.n in (bucket : ℕ → ℤ) (rec stamp : ℕ → ℕ)
            → CountsOverfull n (c_max_of m n kind) result bucket rec stamp 0 }
    {
        OverfullMeter {
            c_max: params.c_max(kind),
            groups: BrokenGroups::new(),
            first: None,
        }
    }

    /// Takes the next packet, after which the bucket holds so many packets. It stands at `place` in the capture.
    #[inline(always)]
    pub fn feed(&mut self, held: u64, place: Place)
        ensures whole { self.new.groups.whole ≡ self.old.groups.whole }

        // Whatever packets the counter was fed before, this packet now follows them.
        ensures stands { (n c_max : ℕ) (bucket : ℕ → ℤ) (rec stamp : ℕ → ℕ) (seen : ℕ)
            → CountsOverfull n c_max self.old bucket rec stamp seen
            → bucket seen ≡ pos held → rec seen ≡ place.«record» → stamp seen ≡ place.stamp
            → CountsOverfull n c_max self.new bucket rec stamp (seen + 1) }
    {
        let exceeds = self.c_max < held;
        self.groups.feed(exceeds, 1);
        self.first = first_with(self.first, place, exceeds);
    }

    /// Completes the frame or field of the last packet.
    pub fn end_group(&mut self)
        requires { self.old.groups.whole < 2 ^ 63 }
        ensures whole { self.new.groups.whole ≡ self.old.groups.whole + 1 }
        ensures stands { (n c_max : ℕ) (bucket : ℕ → ℤ) (rec stamp : ℕ → ℕ) (seen : ℕ)
            → CountsOverfull n c_max self.old bucket rec stamp seen → seen ≡ self.old.groups.whole * n + n
            → CountsOverfull n c_max self.new bucket rec stamp seen }
    {
        self.groups.end_group();
    }

    /// Returns how many complete frames or fields have such a packet, and the place in the capture of the first one.
    pub fn finish(&self) -> Overfull
        ensures { (n c_max : ℕ) (bucket : ℕ → ℤ) (rec stamp : ℕ → ℕ) (seen : ℕ)
            → CountsOverfull n c_max self.now bucket rec stamp seen
            → FindsOverfull n c_max bucket rec stamp seen self.now.groups.whole result }
    {
        Overfull {
            groups: self.groups.count(),
            first: self.first,
        }
    }
}

ghost use Rattle.flow_measure.specs.Kinds.{place_with};

/// Returns the place of the first packet that exceeds C_MAX, including a packet at `place` that may exceed it.
#[inline(always)]
fn first_with(first: Option<Place>, place: Place, exceeds: bool) -> Option<Place>
    ensures { result ≡ place_with first place exceeds }
{
    if !exceeds {
        return first;
    }
    match first {
        None => Some(place),
        Some(_) => first,
    }
}

/// The counters of the types N, NL and W.
#[derive(Clone, Copy)]
pub struct OverfullMeters {
    /// The counter of type N.
    pub narrow: OverfullMeter,
    /// The counter of type NL.
    pub narrow_linear: OverfullMeter,
    /// The counter of type W.
    pub wide: OverfullMeter,
    ghost same_linear: { narrow_linear.groups.whole ≡ narrow.groups.whole },
    ghost same_wide: { wide.groups.whole ≡ narrow.groups.whole },
}

impl OverfullMeters {
    ghost use Rattle.timing_explain.specs.details.Overfull.{CountAll, FindAll};

    /// Returns the counters before the first packet.
    pub fn new(params: &Params) -> OverfullMeters
        ensures whole { result.narrow.groups.whole ≡ 0 }
        ensures stands { (bucket : ℕ → ℤ) (rec stamp : ℕ → ℕ)
            → CountAll params.now.media params.now.n result bucket rec stamp 0 }
    {
        OverfullMeters {
            narrow: OverfullMeter::new(params, Kind::N),
            narrow_linear: OverfullMeter::new(params, Kind::NL),
            wide: OverfullMeter::new(params, Kind::W),
        }
    }

    /// Takes the next packet, after which the bucket holds so many packets. It stands at `place` in the capture.
    #[inline(always)]
    pub fn feed(&mut self, held: u64, place: Place)
        ensures whole { self.new.narrow.groups.whole ≡ self.old.narrow.groups.whole }
        ensures stands { (m : Media) (n : ℕ) (bucket : ℕ → ℤ) (rec stamp : ℕ → ℕ) (seen : ℕ)
            → CountAll m n self.old bucket rec stamp seen
            → bucket seen ≡ pos held → rec seen ≡ place.«record» → stamp seen ≡ place.stamp
            → CountAll m n self.new bucket rec stamp (seen + 1) }
    {
        self.narrow.feed(held, place);
        self.narrow_linear.feed(held, place);
        self.wide.feed(held, place);
    }

    /// Completes the frame or field of the last packet.
    pub fn end_group(&mut self)
        requires { self.old.narrow.groups.whole < 2 ^ 63 }
        ensures whole { self.new.narrow.groups.whole ≡ self.old.narrow.groups.whole + 1 }
        ensures stands { (m : Media) (n : ℕ) (bucket : ℕ → ℤ) (rec stamp : ℕ → ℕ) (seen : ℕ)
            → CountAll m n self.old bucket rec stamp seen → seen ≡ self.old.narrow.groups.whole * n + n
            → CountAll m n self.new bucket rec stamp seen }
    {
        self.narrow.end_group();
        self.narrow_linear.end_group();
        self.wide.end_group();
    }

    /// Returns the packets that exceed C_MAX of N, NL and W, in this order.
    pub fn finish(&self) -> [Overfull; 3]
        ensures { (m : Media) (n : ℕ) (bucket : ℕ → ℤ) (rec stamp : ℕ → ℕ) (seen : ℕ)
            → CountAll m n self.now bucket rec stamp seen
            → FindAll m n bucket rec stamp seen self.now.narrow.groups.whole result }
    {
        [
            self.narrow.finish(),
            self.narrow_linear.finish(),
            self.wide.finish(),
        ]
    }
}
