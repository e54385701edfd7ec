//! Both models after the last departure.

ghost use Rattle.std.specs.Prelude.{◌≡◌, ◌≤◌, ◌<◌, ◌+◌, ◌-◌, ◌^◌, ℕ, pos, negsuc, ◌≤ℤ◌, Some, None};
ghost use Rattle.fraction128.specs.Clocks.{StandsAt};
ghost use Rattle.sender_params.specs.Limits.{c_max_of, gapped_of, vrx_full_of};

use crate::departure::{Bound, Departure};
use fraction128::Clock;
use read_schedule::{NextRead, Schedule};
use sender_params::Params;
use timing_base::Kind;

/// State of both models just after a packet left.
#[derive(Clone, Copy, Debug, PartialEq, Eq)]
pub struct Meters {
    /// Departure time of the packet, in nanoseconds of TAI.
    pub last: u64,
    /// Packets in the bucket.
    pub count: u64,
    /// Latest packet for which the packets from it up to the last one, less the drain ticks after it, are `count`.
    pub begin: u64,
    /// Next drain tick.
    tick: Clock,
    /// Schedule of the reads.
    schedule: Schedule,
    /// Next read after the packet left, or after an earlier packet left as long as no packet may have to wait for a
    /// read.
    read: NextRead,
}

impl Meters {
    ghost use Rattle.flow_shaper.specs.Choice.{Chooses, HasDrained, HavePassed, HaveStarted};
    ghost use Rattle.read_schedule.specs.Stands.{IsNextAfter, MovesTo, Tells};

    /// Returns the state after the first packet, which leaves when it comes, at `at`. It belongs to frame or field
    /// `n0`.
    pub fn start(params: &Params, kind: Kind, n0: i128, at: u64) -> Meters
        requires low { negsuc 479 ≤ℤ n0 }
        requires high { n0 ≤ℤ pos (2 ^ 42) }
        requires in_time { at < 2 ^ 62 }
        ensures { HaveStarted params.now kind n0 at result }
    {
        let mut schedule = Schedule::new(params, is_gapped(kind), n0);
        let read = schedule.next_after(at);
        Meters {
            last: at,
            count: 1,
            begin: 0,
            tick: Clock::start(&params.drain, at),
            schedule,
            read,
        }
    }

    /// Returns the departure time of the next packet, `packet`, which came at `at`, and its cause.
    #[inline(always)]
    pub fn next(&self, params: &Params, kind: Kind, packet: u64, at: u64) -> Departure
        ensures { Chooses self.now (c_max_of params.now.media params.now.n kind)
            (vrx_full_of params.now.media params.now.n kind) packet at result }
    {
        let vrx_full = params.vrx_full(kind);
        let tick = self.next_tick(params.c_max(kind));
        let read = self.next_read(vrx_full, packet);
        let earliest = at.max(self.last);
        let departs = earliest.max(tick.unwrap_or(0)).max(read.unwrap_or(0));
        let bound = if departs == at {
            Bound::Arrival
        } else if tick == Some(departs) {
            Bound::Bucket { from: self.begin }
        } else if read == Some(departs) {
            Bound::Buffer {
                read: packet.saturating_sub(vrx_full),
            }
        } else {
            Bound::Order
        };
        Departure { at: departs, bound }
    }

    /// Returns the instant of the tick for which the next packet has to wait, if the bucket is full.
    fn next_tick(&self, c_max: u64) -> Option<u64>
        ensures full { c_max ≤ self.now.count → result ≡ Some self.now.tick.due }
        ensures room { self.now.count < c_max → result ≡ None }
    {
        if self.count >= c_max {
            Some(self.tick.due)
        } else {
            None
        }
    }

    /// Returns the instant of the read for which packet `packet` has to wait, if the buffer is full.
    fn next_read(&self, vrx_full: u64, packet: u64) -> Option<u64>
        ensures full { self.now.read.number + vrx_full ≤ packet → result ≡ Some self.now.read.at }
        ensures room { packet < self.now.read.number + vrx_full → result ≡ None }
    {
        if packet >= vrx_full && packet - vrx_full >= self.read.number {
            Some(self.read.at)
        } else {
            None
        }
    }

    /// Notes that packet `packet` leaves at `at`.
    #[inline(always)]
    pub fn pass(&mut self, params: &Params, kind: Kind, packet: u64, at: u64)
        requires in_time { at < 2 ^ 62 }
        requires few { self.old.count ≤ packet }
        requires few_packets { packet < 2 ^ 41 }
        ensures few { self.new.count ≤ packet + 1 }
        ensures passed { HavePassed params.now (vrx_full_of params.now.media params.now.n kind) self.old self.new
            packet at }
    {
        self.drain(params, packet, at);
        self.last = at;
        self.look(params.vrx_full(kind), packet + 1);
    }

    /// Counts the reads up to the last departure if packet `packet` may have to wait for the next of them. Else it
    /// finds room, however many reads have passed since they were counted.
    #[inline(always)]
    fn look(&mut self, full: u64, packet: u64)
        requires { self.old.last < 2 ^ 62 }
        ensures last { self.new.last ≡ self.old.last }
        ensures count { self.new.count ≡ self.old.count }
        ensures begin { self.new.begin ≡ self.old.begin }
        ensures tick { self.new.tick ≡ self.old.tick }
        ensures room { packet < self.old.read.number + full
            → (self.new.read ≡ self.old.read) × (self.new.schedule ≡ self.old.schedule) }
        ensures read { self.old.read.number + full ≤ packet
            → Tells IsNextAfter self.old.schedule self.old.last self.new.read }
        ensures reads { self.old.read.number + full ≤ packet
            → MovesTo self.old.schedule self.new.schedule self.old.last }
    {
        if packet >= full && packet - full >= self.read.number {
            self.look_again();
        }
    }

    /// Counts the reads up to the last departure.
    #[cold]
    #[inline(never)]
    fn look_again(&mut self)
        requires { self.old.last < 2 ^ 62 }
        ensures last { self.new.last ≡ self.old.last }
        ensures count { self.new.count ≡ self.old.count }
        ensures begin { self.new.begin ≡ self.old.begin }
        ensures tick { self.new.tick ≡ self.old.tick }
        ensures read { Tells IsNextAfter self.old.schedule self.old.last self.new.read }
        ensures reads { MovesTo self.old.schedule self.new.schedule self.old.last }
    {
        self.read = self.schedule.next_after(self.last);
    }

    /// Takes a packet out of the bucket for each tick up to `at`, and puts packet `packet` in.
    #[inline(always)]
    fn drain(&mut self, params: &Params, packet: u64, at: u64)
        requires in_time { at < 2 ^ 62 }
        requires few { self.old.count ≤ packet }
        requires few_packets { packet < 2 ^ 41 }
        ensures few { self.new.count ≤ packet + 1 }
        ensures read { self.new.read ≡ self.old.read }
        ensures schedule { self.new.schedule ≡ self.old.schedule }
        ensures drained { (origin before : ℕ) → before ≤ at
            → StandsAt params.now.drain self.old.tick origin before
            → HasDrained params.now self.old self.new packet origin before at }
    {
        let drained = self.tick.advance(&params.drain, at);
        let left = self.count.saturating_sub(drained);
        self.begin = begin_of(left, self.begin, packet);
        self.count = left + 1;
    }
}

/// Returns the packet from which on the bucket's count is counted just after packet `packet` came. `left` packets were
/// in the bucket just before.
fn begin_of(left: u64, begin: u64, packet: u64) -> u64
    ensures fresh { left ≡ 0 → result ≡ packet }
    ensures kept { 0 < left → result ≡ begin }
{
    if left == 0 { packet } else { begin }
}

/// Returns whether the reads of this sender type are gapped.
fn is_gapped(kind: Kind) -> bool
    ensures { result ≡ gapped_of kind }
{
    kind == Kind::N
}
