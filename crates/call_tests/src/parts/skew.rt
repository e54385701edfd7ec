//! Two flows, from their packets to the comparison.

ghost use Rattle.std.specs.Prelude.{◌≡◌, ◌<◌, ◌^◌};
ghost use Rattle.path_skew.specs.Stands.{count_first, count_second};

use super::compare::same;
use path_skew::{Extreme, Skew, SkewRow};
use std::alloc::Global;
use std::process::Abort;
use timing_base::worked::reading;
use timing_base::{FlowPacket, PacketFault};

// Two flows, and the number of packets of each that were taken.
#[derive(Drop)]
struct Pair {
    skew: Skew,
    firsts: u64,
    seconds: u64,
    ghost counted_first: { count_first skew ≡ firsts },
    ghost counted_second: { count_second skew ≡ seconds },
}

// A packet in this packet record, with this capture timestamp and packet number.
fn came(rec: u64, at: u64, number: u32) -> FlowPacket {
    let rtp = Ok(reading(number, 0, false));
    FlowPacket { rec, at, rtp }
}

// A packet that wasn't read as RTP.
fn unread(rec: u64, at: u64, fault: PacketFault) -> FlowPacket {
    let rtp = Err(fault);
    FlowPacket { rec, at, rtp }
}

// A skew, and the packet records of its packets.
fn extreme(skew: i64, first_rec: u64, second_rec: u64) -> Option<Extreme> {
    Some(Extreme {
        skew,
        first_rec,
        second_rec,
    })
}

impl Pair {
    fn new(alloc: Global) -> Pair {
        Pair {
            skew: Skew::new(alloc),
            firsts: 0,
            seconds: 0,
        }
    }

    // Asserts what the call requires, since a proof does not follow the packets of a loop.
    fn first(&mut self, rt: &impl Abort, packet: FlowPacket) {
        assert!(rt; packet.at < 1 << 62);
        assert!(rt; self.firsts < 1 << 41);
        self.skew.first(packet).expect(rt, "there is memory");
        self.firsts += 1;
    }

    fn second(&mut self, rt: &impl Abort, packet: FlowPacket) {
        assert!(rt; packet.at < 1 << 62);
        assert!(rt; self.seconds < 1 << 41);
        self.skew.second(packet).expect(rt, "there is memory");
        self.seconds += 1;
    }

    fn finish(self) -> SkewRow {
        let Pair { skew, .. } = self;
        skew.finish()
    }
}

// Two packets of each flow, one of which isn't read.
fn with_unread(rt: &impl Abort, pair: &mut Pair) {
    pair.first(rt, unread(1, 10, PacketFault::Short));
    pair.first(rt, came(2, 20, 7));
    pair.second(rt, came(4, 40, 6));
    pair.second(rt, unread(5, 50, PacketFault::Version));
}

// Number 7 of the second flow twice, and number 6 of the first flow twice; one more packet isn't read.
fn with_repeated(rt: &impl Abort, pair: &mut Pair) {
    pair.second(rt, came(9, 60, 7));
    pair.second(rt, came(11, 61, 7));
    pair.first(rt, came(12, 70, 6));
    pair.first(rt, came(13, 75, 6));
    pair.first(rt, unread(14, 80, PacketFault::Short));
}

#[test]
fn unread_and_repeated(rt: HostRuntime) {
    let mut pair = Pair::new(rt.alloc());
    with_unread(&rt, &mut pair);
    with_repeated(&rt, &mut pair);
    let row = SkewRow {
        matched: 2,
        first_only: 0,
        second_only: 0,
        repeated: 2,
        unread: 3,
        least: extreme(-30, 12, 4),
        greatest: extreme(40, 2, 9),
    };
    same(&rt, &pair.finish(), &row);
}

const MANY: u32 = 100_000;

// The packet number of packet i of a flow.
#[derive(Clone, Copy)]
enum Numbers {
    Rising,
    Falling,
    // Rising numbers above and falling ones below, in turn.
    Alternating,
    // The high half stays 0.
    Low,
    // Pairs far from all others, with equal low digits.
    Apart,
    // Each far from the one before.
    Turned,
}

fn number(numbers: Numbers, i: u32) -> u32 {
    match numbers {
        Numbers::Rising => i,
        Numbers::Falling => u32::MAX - i,
        Numbers::Alternating => {
            if i % 2 == 0 {
                (1 << 31) ^ i
            } else {
                (1u32 << 30).saturating_sub(i)
            }
        }
        Numbers::Low => i % 65_536,
        Numbers::Apart => i / 2 << 15 | i % 2 * 31,
        Numbers::Turned => i.reverse_bits(),
    }
}

// The comparison of two flows with these numbers; the second is 3 ns later, and 5 ns from packet 50,000 on.
fn many(rt: &impl Abort, alloc: Global, numbers: Numbers) -> SkewRow {
    let mut pair = Pair::new(alloc);
    for i in 0..MANY {
        let at = 4_444 * u64::from(i);
        pair.first(rt, came(u64::from(i) + 1, at, number(numbers, i)));
    }
    for i in 0..MANY {
        let at = 4_444 * u64::from(i) + if i < 50_000 { 3 } else { 5 };
        pair.second(rt, came(u64::from(i) + 1, at, number(numbers, i)));
    }
    pair.finish()
}

// The comparison if every number is matched or repeated.
fn matched(matched: u64) -> SkewRow {
    SkewRow {
        matched,
        first_only: 0,
        second_only: 0,
        repeated: 200_000 - 2 * matched.min(100_000),
        unread: 0,
        least: extreme(3, 1, 1),
        greatest: extreme(5, 50_001, 50_001),
    }
}

#[test]
fn many_in_order(rt: HostRuntime) {
    same(
        &rt,
        &many(&rt, rt.alloc(), Numbers::Rising),
        &matched(100_000),
    );
    same(&rt, &many(&rt, rt.alloc(), Numbers::Low), &matched(65_536));
}

#[test]
fn many_out_of_order(rt: HostRuntime) {
    same(
        &rt,
        &many(&rt, rt.alloc(), Numbers::Falling),
        &matched(100_000),
    );
    same(
        &rt,
        &many(&rt, rt.alloc(), Numbers::Alternating),
        &matched(100_000),
    );
}

#[test]
fn many_far_apart(rt: HostRuntime) {
    same(
        &rt,
        &many(&rt, rt.alloc(), Numbers::Apart),
        &matched(100_000),
    );
    same(
        &rt,
        &many(&rt, rt.alloc(), Numbers::Turned),
        &matched(100_000),
    );
}
