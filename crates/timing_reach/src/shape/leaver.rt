//! Computes when the judged packets of a flow leave.

ghost use Rattle.std.specs.Prelude.{◌≡◌, ◌≤◌, ◌<◌, ◌+◌, ◌-◌, ◌^◌, [], ℕ, List, IfOk};
ghost use Rattle.timing_base.specs.Shifts.{shifted, unshifted};
ghost use Rattle.timing_base.specs.Captures.{IsStamp};
ghost use Rattle.timing_reach.specs.Shapes.{end_of};

use flow_shaper::{Departure, Late, Shaper};
use sender_params::Params;
use timing_base::{Judged, Kind, Media, Shift};

/// The last timestamp that a capture can have, a nanosecond before 2^32 seconds.
const LAST: u64 = 4_294_967_295_999_999_999;

/// The judged packets of a flow, as far as they left.
#[derive(Clone, Copy)]
pub struct Leaver {
    params: Params,
    shaper: Shaper,
    /// The shift of every capture timestamp.
    shift: Shift,
    ghost ends: { shaper.end ≡ end_of shift },
}

impl Leaver {
    ghost use Rattle.timing_reach.specs.shape.Leaving.{HasLet, Leaves, Part, count_left};

    /// Returns a leaver before the first packet of a run that was judged with this result. `first` is the capture
    /// timestamp of that packet in nanoseconds, as it stands in the capture.
    pub fn new(media: &Media, judged: &Judged, kind: Kind, first: u64, shift: Shift) -> Leaver
        requires { IsStamp first }
        ensures none { count_left result ≡ 0 }
        ensures stands { HasLet (record {
          media = media.now;
          n = judged.now.n;
          kind = kind;
          shift = shift;
          origin = shifted shift first;
        }) result [] [] }
    {
        let params = Params::of(media, judged.n);
        let origin = shift.stamp(first);
        let end = shift.stamp(LAST) + 1;
        Leaver {
            params,
            shaper: Shaper::new(kind, params.anchor(origin), origin, end),
            shift,
        }
    }

    /// Lets the next packet leave as early as in any plan, and returns its departure in nanoseconds, after the shift.
    /// `at` is its capture timestamp in nanoseconds, as it stands in the capture. Returns `Err` if it can't leave in
    /// time.
    #[inline(always)]
    pub fn leave(&mut self, at: u64) -> Result<Departure, Late>
        requires stamp { IsStamp at }
        requires few { count_left self.old < 2 ^ 41 }
        ensures shift { self.new.shift ≡ self.old.shift }
        ensures count { count_left self.new ≤ count_left self.old + 1 }
        ensures in_time { IfOk result (λ departure. departure.at < end_of self.new.shift) }
        ensures leaves { (w : Part) (stamps departures : List ℕ) → HasLet w self.old stamps departures
            → Leaves w self.new stamps departures (shifted w.shift at) result }
    {
        self.shaper.feed(&self.params, self.shift.stamp(at))
    }

    /// Returns by how many nanoseconds a packet is delayed that leaves at this departure. `at` is its capture timestamp
    /// in nanoseconds, as it stands in the capture.
    #[inline(always)]
    pub fn delay(&self, at: u64, departure: u64) -> u64
        requires { IsStamp at }
        ensures { result ≡ departure - shifted self.now.shift at }
    {
        departure.saturating_sub(self.shift.stamp(at))
    }

    /// Returns the capture timestamp with which a packet leaves at this departure, in nanoseconds.
    #[inline(always)]
    pub fn captured(&self, departure: u64) -> u64
        requires { departure < end_of self.now.shift }
        ensures is { result ≡ unshifted self.now.shift departure }
        ensures stamp { IsStamp result }
    {
        self.shift.captured(departure)
    }
}
