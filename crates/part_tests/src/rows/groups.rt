//! The grouper, packet by packet, with values worked by hand.

ghost use Rattle.std.specs.Prelude.{◌≡◌, ◌≤◌, ◌<◌, ◌^◌};
ghost use Rattle.frame_group.specs.Stands.{count_fed};

use super::compare::{same, same_at};
use frame_group::Grouper;
use std::process::Abort;
use timing_base::worked::reading;
use timing_base::{PacketFault, Rtp};

/// A grouper, and the number of packets that it was fed.
#[derive(Clone, Copy)]
struct Flow {
    grouper: Grouper,
    count: u64,
    ghost counted: { count_fed grouper ≡ count },
}

impl Flow {
    fn new() -> Flow {
        Flow {
            grouper: Grouper::new(96),
            count: 0,
        }
    }

    /// Asserts what `feed` requires, since a proof does not follow the packets of a loop.
    fn feed(&mut self, rt: &impl Abort, at: u64, rtp: Rtp) -> Result<Option<u32>, PacketFault> {
        assert!(rt; self.count < 1 << 41);
        let answer = self.grouper.feed(at, rtp);
        self.count += 1;
        answer
    }
}

/// The time in nanoseconds at which frame 0 begins, in a capture with this packet number in its head.
fn start(number: u32) -> u64
    ensures some { 1000000 ≤ result }
    ensures few { result < 2 ^ 62 }
{
    (1_600_000_000 + u64::from(number % 1_000_000)) * 1_000_000_000
}

/// Feeds a packet with the marker 1 ms before frame 0.
fn feed_head(rt: &impl Abort, flow: &mut Flow, number: u32) {
    let answer = flow.feed(rt, start(number) - 1_000_000, reading(number, 0, true));
    same(rt, &answer, &Ok(None));
}

/// Feeds this many packets after the head, with numbers in order, in frames of 20 ms and 20 packets each.
fn feed_frames(rt: &impl Abort, flow: &mut Flow, number: u32, count: u32) {
    for j in 0..count {
        let at = start(number)
            + 20_000_000 * u64::from(j / 20)
            + 764_000
            + 960_000 * u64::from(j % 20);
        let next = number.wrapping_add(1).wrapping_add(j);
        let timestamp = (1 + j / 20).wrapping_mul(1800);
        let last = j % 20 == 19;
        let answer = flow.feed(rt, at, reading(next, timestamp, last));
        same_at(rt, &j, &answer, &Ok(None));
    }
}

#[test]
fn number_wraps(rt: HostRuntime) {
    let mut flow = Flow::new();
    feed_head(&rt, &mut flow, 4_294_967_295);
    feed_frames(&rt, &mut flow, 4_294_967_295, 40);
}

#[test]
fn second_source(rt: HostRuntime) {
    let mut flow = Flow::new();
    feed_head(&rt, &mut flow, 0);
    let other = Rtp {
        ssrc: 2,
        ..reading(1, 1800, false)
    };
    same(
        &rt,
        &flow.feed(&rt, start(0) + 764_000, other),
        &Err(PacketFault::SecondSource),
    );
}

#[test]
fn stamp_back(rt: HostRuntime) {
    let mut flow = Flow::new();
    let first = flow.feed(&rt, 1_599_999_999_999_000_000, reading(0, 0, true));
    same(&rt, &first, &Ok(None));
    let want = PacketFault::StampBack {
        before: 1_599_999_999_999_000_000,
        got: 1_599_999_999_998_999_999,
    };
    let second = flow.feed(&rt, 1_599_999_999_998_999_999, reading(1, 1800, false));
    same(&rt, &second, &Err(want));
    let third = flow.feed(&rt, 1_599_999_999_999_000_000, reading(2, 1800, false));
    same(&rt, &third, &Err(want));
}

#[test]
fn short_frame(rt: HostRuntime) {
    let mut flow = Flow::new();
    feed_head(&rt, &mut flow, 0);
    feed_frames(&rt, &mut flow, 0, 38);
    let answer = flow.feed(&rt, start(0) + 38_044_000, reading(39, 3600, true));
    same(
        &rt,
        &answer,
        &Err(PacketFault::FrameSize { want: 20, got: 19 }),
    );
}

#[test]
fn equal_low_halves(rt: HostRuntime) {
    let mut flow = Flow::new();
    feed_head(&rt, &mut flow, 6);
    feed_frames(&rt, &mut flow, 6, 1);
    let answer = flow.feed(&rt, start(6) + 1_724_000, reading(65_544, 1800, false));
    same(&rt, &answer, &Ok(Some(8)));
}

#[test]
fn too_many_gaps(rt: HostRuntime) {
    let mut flow = Flow::new();
    same(
        &rt,
        &flow.feed(&rt, start(0), reading(0, 0, false)),
        &Ok(None),
    );
    for j in 1..1025_u32 {
        same_at(
            &rt,
            &j,
            &flow.feed(&rt, start(0), reading(2 * j, 0, false)),
            &Ok(Some(2 * j - 1)),
        );
    }
    let want = PacketFault::Number {
        expected: 2049,
        got: 2050,
    };
    same(
        &rt,
        &flow.feed(&rt, start(0), reading(2050, 0, false)),
        &Err(want),
    );
}

#[test]
fn frame_too_large(rt: HostRuntime) {
    let mut flow = Flow::new();
    same(
        &rt,
        &flow.feed(&rt, start(0), reading(0, 0, true)),
        &Ok(None),
    );
    for j in 0..262_144_u32 {
        let answer = flow.feed(&rt, start(0), reading(j + 1, 1800, false));
        same_at(&rt, &j, &answer, &Ok(None));
    }
    let answer = flow.feed(&rt, start(0), reading(262_145, 1800, false));
    same(&rt, &answer, &Err(PacketFault::FrameTooLarge));
}
