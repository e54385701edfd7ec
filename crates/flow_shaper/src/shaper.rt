//! The shaper of a flow.

ghost use Rattle.std.specs.Prelude.{◌≡◌, ◌≢◌, ◌≤◌, ◌<◌, ◌+◌, ◌^◌, ◌++◌, ◌∷◌, [], ℕ, List, length};
ghost use Rattle.std.specs.Prelude.{pos, negsuc, ◌≤ℤ◌, Some, None, Err, IfOk};
ghost use Rattle.std.specs.Option.{ForSome};
ghost use Rattle.sender_params.specs.Limits.{c_max_of, vrx_full_of};
ghost use Rattle.sender_params.specs.Reads.{anchor_of};
ghost use Rattle.flow_shaper.specs.declared.departure.Bound.TheVariants.{Arrival, Order};

use crate::departure::{Bound, Departure, Late};
use crate::meters::Meters;
use sender_params::Params;
use timing_base::Kind;

/// State of the shaping of one flow for one sender type, between two packets.
#[derive(Clone, Copy, Debug, PartialEq, Eq)]
pub struct Shaper {
    /// Sender type, which sets C_MAX, VRX_FULL and the schedule of the reads.
    pub kind: Kind,
    /// Frame or field of the first packet, counted from the epoch.
    pub n0: i128,
    /// Capture timestamp of the first packet, in nanoseconds of TAI.
    pub origin: u64,
    /// Instant before which each packet has to leave, in nanoseconds of TAI.
    pub end: u64,
    /// Number of packets that left.
    pub seen: u64,
    /// State of both models; `None` before the first packet.
    meters: Option<Meters>,
    /// Packet that couldn't leave in time.
    late: Option<Late>,
    ghost n0_low: { negsuc 479 ≤ℤ n0 },
    ghost n0_high: { n0 ≤ℤ pos (2 ^ 42) },
    ghost begins: { origin < end },
    ghost ends: { end ≤ 2 ^ 62 },
    ghost few: { ForSome meters (λ m. m.count ≤ seen) },
}

impl Shaper {
    ghost use Rattle.sender_params.specs.declared.params.Params.{Params};
    ghost use Rattle.flow_shaper.specs.Bounds.{BoundAt};
    ghost use Rattle.flow_shaper.specs.Choice.{Chooses, HavePassed, HaveStarted};
    ghost use Rattle.flow_shaper.specs.Stands.{CanFollow, HasStopped, NoneInTime, StandsFor};
    ghost use Rattle.flow_shaper.specs.declared.departure.Late.{Late};
    ghost use Rattle.flow_shaper.specs.declared.meters.Meters.{Meters};

    /// Returns the shaper of a flow. Its first packet came at `a0` and belongs to frame or field `n0`; all packets have
    /// to leave before `end`. `a0` and `end` are in nanoseconds of TAI.
    pub fn new(kind: Kind, n0: i128, a0: u64, end: u64) -> Shaper
        requires low { negsuc 479 ≤ℤ n0 }
        requires high { n0 ≤ℤ pos (2 ^ 42) }
        requires begins { a0 < end }
        requires ends { end ≤ 2 ^ 62 }

        ensures kind { result.kind ≡ kind }
        ensures origin { result.origin ≡ a0 }
        ensures end { result.end ≡ end }
        ensures seen { result.seen ≡ 0 }
        ensures stands { (params : Params) → n0 ≡ anchor_of params.media a0
            → StandsFor params result [] [] }
    {
        Shaper {
            kind,
            n0,
            origin: a0,
            end,
            seen: 0,
            meters: None,
            late: None,
        }
    }

    /// Returns the departure time of the packet that came at `at`, both in nanoseconds of TAI, and its cause. Returns
    /// `Err` if the packet can't leave before the end; every later call then returns the same error.
    ///
    /// The packet leaves as early as in any plan. In a plan no packet leaves before it came nor before the packet
    /// before it, the bucket never holds more than C_MAX packets, and the virtual receiver buffer never more than
    /// VRX_FULL (SMPTE ST 2110-21; this project's profile). The ticks and reads stay those of the first arrival.
    ///
    /// The caller must feed capture timestamps that never go back, the first of them `origin`, and the same `Params` at
    /// each call: for others the result is not guaranteed.
    #[inline(always)]
    pub fn feed(&mut self, params: &Params, at: u64) -> Result<Departure, Late>
        requires in_time { at < self.old.end }
        requires few { self.old.seen < 2 ^ 41 }

        ensures kind { self.new.kind ≡ self.old.kind }
        ensures origin { self.new.origin ≡ self.old.origin }
        ensures end { self.new.end ≡ self.old.end }
        ensures seen { self.new.seen ≤ self.old.seen + 1 }
        ensures in_time { IfOk result (λ d. d.at < self.old.end) }

        // For any packets before and their departures: this packet leaves at that instant, or it can't leave in time in
        // any plan.
        ensures bound { (arrivals departures : List ℕ)
            → StandsFor params.now self.old arrivals departures → CanFollow self.old arrivals at
            → IfOk result (λ d. BoundAt params.now.media params.now.n self.old.kind
            (arrivals ++ at ∷ []) (departures ++ d.at ∷ []) (length arrivals) d.bound) }
        ensures order { (arrivals departures : List ℕ)
            → StandsFor params.now self.old arrivals departures → CanFollow self.old arrivals at
            → IfOk result (λ d. d.bound ≢ Order) }
        ensures late { (arrivals departures : List ℕ)
            → StandsFor params.now self.old arrivals departures → CanFollow self.old arrivals at
            → (late : Late) → result ≡ Err late
            → (late.packet ≡ length arrivals)
            × NoneInTime params.now self.old (arrivals ++ at ∷ []) (length arrivals) }

        // The shaper was then fed this packet too, or it has stopped for good.
        ensures stands { (arrivals departures : List ℕ)
            → StandsFor params.now self.old arrivals departures → CanFollow self.old arrivals at
            → IfOk result (λ d. StandsFor params.now self.new
            (arrivals ++ at ∷ []) (departures ++ d.at ∷ [])) }
        ensures stops { (late : Late) → result ≡ Err late → HasStopped self.new late }
        ensures stopped { (late : Late) → HasStopped self.old late
            → (result ≡ Err late) × (self.new ≡ self.old) }
    {
        if let Some(late) = self.late {
            return Err(late);
        }
        let departure = self.next(params, at);
        if departure.at >= self.end {
            let late = Late { packet: self.seen };
            self.late = Some(late);
            return Err(late);
        }
        self.pass(params, departure.at);
        Ok(departure)
    }

    /// Returns the departure time of the next packet, which came at `at`, and its cause. The first packet leaves when
    /// it comes.
    #[inline(always)]
    fn next(&self, params: &Params, at: u64) -> Departure
        ensures first { self.now.meters ≡ None → (result.at ≡ at) × (result.bound ≡ Arrival) }
        ensures later { (meters : Meters) → self.now.meters ≡ Some meters
            → Chooses meters (c_max_of params.now.media params.now.n self.now.kind)
            (vrx_full_of params.now.media params.now.n self.now.kind) self.now.seen at result }
    {
        match &self.meters {
            Some(meters) => meters.next(params, self.kind, self.seen, at),
            None => Departure {
                at,
                bound: Bound::Arrival,
            },
        }
    }

    /// Notes that the next packet leaves at `at`.
    #[inline(always)]
    fn pass(&mut self, params: &Params, at: u64)
        requires in_time { at < self.old.end }
        requires few { self.old.seen < 2 ^ 41 }
        ensures kind { self.new.kind ≡ self.old.kind }
        ensures n0 { self.new.n0 ≡ self.old.n0 }
        ensures origin { self.new.origin ≡ self.old.origin }
        ensures end { self.new.end ≡ self.old.end }
        ensures seen { self.new.seen ≡ self.old.seen + 1 }
        ensures late { self.new.late ≡ self.old.late }
        ensures first { self.old.meters ≡ None
            → (meters : Meters) × (self.new.meters ≡ Some meters)
            × HaveStarted params.now self.old.kind self.old.n0 at meters }
        ensures later { (before : Meters) → self.old.meters ≡ Some before
            → (meters : Meters) × (self.new.meters ≡ Some meters)
            × HavePassed params.now (vrx_full_of params.now.media params.now.n self.old.kind) before meters
            self.old.seen at }
    {
        let packet = self.seen;
        self.seen = packet + 1;
        if let Some(meters) = &mut self.meters {
            meters.pass(params, self.kind, packet, at);
            return;
        }
        self.begin(params, at);
    }

    /// Starts both models with the first packet, which leaves at `at`.
    #[cold]
    #[inline(never)]
    fn begin(&mut self, params: &Params, at: u64)
        requires in_time { at < self.old.end }
        requires seen { 1 ≤ self.old.seen }
        ensures kind { self.new.kind ≡ self.old.kind }
        ensures n0 { self.new.n0 ≡ self.old.n0 }
        ensures origin { self.new.origin ≡ self.old.origin }
        ensures end { self.new.end ≡ self.old.end }
        ensures seen { self.new.seen ≡ self.old.seen }
        ensures late { self.new.late ≡ self.old.late }
        ensures starts { (meters : Meters) × (self.new.meters ≡ Some meters)
            × HaveStarted params.now self.old.kind self.old.n0 at meters }
    {
        self.meters = Some(Meters::start(params, self.kind, self.n0, at));
    }
}
