//! Rounding down, and the instants of a series.

use super::compare::{same, same_at};
use fraction128::{Clock, Line, floor_of, floor_signed};

// T_DRAIN of 1080p at 50 with 20 packets per frame is 10,000,000 / 11 ns: drain ticks before and after 3,840,000 ns.
#[test]
fn floors(rt: HostRuntime) {
    same(&rt, &floor_of(3_840_000, 11, 10_000_000), &4);
    same(&rt, &floor_signed(7, 2), &3);
    same(&rt, &floor_signed(-7, 2), &-4);
}

// Instants 10,000,000 / 11 ns apart from 7 on, each counted once: none before the first, two steps, and jumps over
// several instants.
#[test]
fn instants(rt: HostRuntime) {
    let line = Line::of(10_000_000, 11);
    let mut clock = Clock::start(&line, 7);
    let rows = [
        // time, instants since the time before
        (7, 0),
        (909_097, 0),
        (909_098, 1),
        (2_727_279, 1),
        (2_727_280, 1),
        (10_000_006, 7),
        (10_000_007, 1),
        (20_000_000_000_007, 21_999_989),
        (20_000_000_909_097, 0),
        (20_000_000_909_098, 1),
    ];
    for (t, count) in rows {
        assert!(rt; t < 1 << 62);
        same_at(&rt, &t, &clock.advance(&line, t), &count);
    }
}
