//! Counts the packets of a stream, one by one.

ghost use Rattle.std.specs.Prelude.{◌≡◌, ◌<◌, ◌+◌, ◌^◌, ◌++◌, ◌∷◌, [], ℕ, Bool, List, Some, IfSome, if◌then◌else◌};
ghost use Rattle.capture_scan.specs.Counting.{lines_with, order_next, pace_next, pace_with, range_next};
ghost use Rattle.capture_scan.specs.Few.{IsFew};
ghost use Rattle.capture_scan.specs.Streams.{arrival, goes_back, is_same, jump, range_from, size, step, wraps_alone};

use crate::mark::Mark;
use crate::packet::{Line, Packet};
use crate::stream::{Arrival, Lines, Order, Pace, Range, Rate, Stream};

/// Returns 1 if the test is true, else 0.
#[inline(always)]
fn one_if(test: bool) -> u64
    ensures { result ≡ (if test then 1 else 0) }
{
    if test { 1 } else { 0 }
}

/// Returns the number of sequence numbers that are skipped from `before` to `number`, modulo 2^16.
#[inline(always)]
fn jump(before: u32, number: u32) -> u32
    ensures jump { result ≡ jump (before, number) }
    ensures short { result < 2 ^ 16 }
{
    (number % 65_536 + 65_536 - (before % 65_536 + 1)) % 65_536
}

/// Returns whether the sequence number goes from 65,535 to 0 and the extended sequence number stays the same.
#[inline(always)]
fn wraps_alone(before: u32, number: u32) -> bool
    ensures { result ≡ wraps_alone (before, number) }
{
    before % 65_536 == 65_535 && number % 65_536 == 0 && before / 65_536 == number / 65_536
}

impl Order {
    /// Returns the order after one more packet number, which follows `before`.
    #[inline(always)]
    fn next(self, before: u32, number: u32) -> Order
        requires lost { self.lost < 2 ^ 63 }
        requires back { self.back < 2 ^ 63 }
        requires same { self.same < 2 ^ 63 }
        requires wraps { self.wraps < 2 ^ 63 }
        ensures { result ≡ order_next self (before, number) }
    {
        // Most packets come in order.
        if u64::from(number) == u64::from(before) + 1 {
            return self;
        }
        let jump = jump(before, number);
        let lost = if jump < 32_768 { jump } else { 0 };
        Order {
            lost: self.lost + u64::from(lost),
            back: self.back + one_if(32_767 < jump && jump < 65_535),
            same: self.same + one_if(jump == 65_535),
            wraps: self.wraps + one_if(wraps_alone(before, number)),
        }
    }
}

impl Range {
    /// Returns the range of one number.
    fn of(x: u64) -> Range
        ensures { result ≡ range_from x [] }
    {
        Range {
            least: x,
            greatest: x,
        }
    }

    /// Returns the range with one more number.
    fn next(self, x: u64) -> Range
        ensures { result ≡ range_next self x }
    {
        Range {
            least: self.least.min(x),
            greatest: self.greatest.max(x),
        }
    }
}

/// Returns the ticks of the RTP timestamp from one mark to the next, modulo 2^32.
fn step(before: Mark, mark: Mark) -> u64
    ensures step { result ≡ step (before, mark) }
    ensures short { result < 2 ^ 32 }
{
    (u64::from(mark.timestamp) + 0x1_0000_0000 - u64::from(before.timestamp)) % 0x1_0000_0000
}

impl Pace {
    /// Returns the pace after one more mark, which follows `before`.
    fn next(pace: Option<Pace>, before: Mark, mark: Mark) -> Pace
        requires later { before.place < mark.place }
        requires few { IfSome pace (λ p. p.rate.steps < 2 ^ 63) }
        requires ticks { IfSome pace (λ p. p.rate.ticks < 2 ^ 127) }
        ensures { result ≡ pace_next pace (before, mark) }
    {
        let size = mark.place - before.place;
        let step = step(before, mark);
        match pace {
            Some(pace) => Pace {
                frame: pace.frame.next(size),
                step: pace.step.next(step),
                rate: Rate {
                    ticks: pace.rate.ticks + u128::from(step),
                    steps: pace.rate.steps + 1,
                },
            },
            None => Pace {
                frame: Range::of(size),
                step: Range::of(step),
                rate: Rate {
                    ticks: u128::from(step),
                    steps: 1,
                },
            },
        }
    }

    /// Counts one more packet. `before` is the last mark before it, and `mark` its own if it has the marker.
    #[inline(always)]
    fn count(pace: &mut Option<Pace>, before: Option<Mark>, mark: Option<Mark>)
        requires later { IfSome before (λ b. IfSome mark (λ m. b.place < m.place)) }
        requires few { IfSome pace.old (λ p. p.rate.steps < 2 ^ 63) }
        requires ticks { IfSome pace.old (λ p. p.rate.ticks < 2 ^ 127) }
        ensures { pace.new ≡ pace_with pace.old before mark }
    {
        if let (Some(before), Some(mark)) = (before, mark) {
            *pace = Some(Pace::next(*pace, before, mark));
        }
    }
}

impl Lines {
    /// Returns the lines after one more packet, which may have a line header.
    #[inline(always)]
    fn with(lines: Option<Lines>, line: Option<Line>) -> Option<Lines>
        ensures { result ≡ lines_with lines line }
    {
        match (lines, line) {
            (Some(lines), Some(line)) => Some(Lines {
                greatest: lines.greatest.max(line.number),
                second_field: lines.second_field || line.second_field,
                fits: lines.fits && line.fits,
            }),
            (None, Some(line)) => Some(Lines {
                greatest: line.number,
                second_field: line.second_field,
                fits: line.fits,
            }),
            (lines, None) => lines,
        }
    }
}

impl Arrival {
    /// Returns the packet record and the capture timestamp of a packet.
    #[inline(always)]
    fn of(packet: &Packet) -> Arrival
        ensures { result ≡ arrival packet.now }
    {
        Arrival {
            rec: packet.rec,
            at: packet.at,
        }
    }
}

/// The numbers of a stream, and the values with which the next packet is compared.
#[derive(Clone, Copy)]
pub struct Counter {
    /// The numbers of the packets that were counted.
    pub stream: Stream,
    /// The number of the last packet: extended sequence number and sequence number.
    number: u32,
    /// The last packet with the marker.
    mark: Option<Mark>,
    ghost few: { IsFew stream mark },
}

impl Counter {
    ghost use Rattle.capture_scan.specs.Stands.{Counts};
    ghost use Rattle.capture_scan.specs.declared.packet.Packet.{Packet as Counted};

    /// Returns the counter of a stream with this first packet.
    pub fn first(packet: &Packet) -> Counter
        ensures counts { Counts result (packet.now ∷ []) }
        ensures one { result.stream.packets ≡ 1 }
    {
        let rtp = packet.rtp;
        Counter {
            stream: Stream {
                source: packet.source,
                target: packet.target,
                ssrc: rtp.ssrc,
                pt: rtp.pt,
                pts: 0,
                packets: 1,
                markers: one_if(rtp.marker),
                first: Arrival::of(packet),
                last: Arrival::of(packet),
                bytes: u64::from(packet.length),
                order: Order {
                    lost: 0,
                    back: 0,
                    same: 0,
                    wraps: 0,
                },
                pace: None,
                lines: Lines::with(None, packet.line),
            },
            number: rtp.number,
            mark: Mark::of(0, rtp),
        }
    }

    /// Counts one more packet.
    pub fn take(&mut self, packet: &Packet)
        requires few { self.old.stream.packets < 2 ^ 41 }
        ensures counts { (ps : List Counted) → Counts self.old ps
            → Counts self.new (ps ++ packet.now ∷ []) }
        ensures packets { self.new.stream.packets ≡ self.old.stream.packets + 1 }
    {
        let rtp = packet.rtp;
        let stream = &mut self.stream;
        let mark = Mark::of(stream.packets, rtp);
        stream.pts += one_if(rtp.pt != stream.pt);
        stream.packets += 1;
        stream.markers += one_if(rtp.marker);
        stream.last = Arrival::of(packet);
        stream.bytes += u64::from(packet.length);
        stream.order = stream.order.next(self.number, rtp.number);
        Pace::count(&mut stream.pace, self.mark, mark);
        stream.lines = Lines::with(stream.lines, packet.line);
        self.number = rtp.number;
        self.mark = Mark::last(self.mark, mark);
    }
}
