//! The shaper, with values worked by hand, and departures that are checked against the whole list.

ghost use Rattle.std.specs.Prelude.{◌<◌, ◌≤◌, ◌^◌};

use super::compare::{same, same_at};
use flow_shaper::{Bound, Departure, Late, Shaper};
use read_schedule::Schedule;
use sender_params::Params;
use sender_params::worked::video;
use std::alloc::Global;
use std::process::Abort;
use std::test::Fail;
use timing_base::Kind;

// 764,000 ns after 1,600,000,000 s.
const FIRST: u64 = 1_600_000_000_000_764_000;

const END: u64 = 4_294_967_296_000_000_000;

// 1080p at 50 with 20 packets per frame, declared narrow, as in the plain SDP.
fn plain() -> Params {
    Params::of(&video(1080, false, 50, 1), 20)
}

// 1080p at 50 with 20 packets per frame, declared narrow, with CMAX=100.
fn wide_bucket() -> Params {
    let mut media = video(1080, false, 50, 1);
    media.cmax = Some(100);
    Params::of(&media, 20)
}

// The arrivals of two frames of a sender with gapped reads; the first `at_once` packets of the first frame come at
// once.
fn stamp(packet: u64, at_once: u64) -> u64 {
    let (frame, place) = (packet / 20, packet % 20);
    if packet < at_once {
        FIRST
    } else {
        FIRST
            .saturating_add(frame.saturating_mul(20_000_000))
            .saturating_add(960_000 * place)
    }
}

fn shaper(params: &Params, end: u64) -> Shaper
    requires begins { 1600000000000764000 < end }
    requires ends { end ≤ 2 ^ 62 }
{
    Shaper::new(Kind::N, params.anchor(FIRST), FIRST, end)
}

// Asserts what `feed` requires, since a proof does not follow the packets of a loop.
fn fed(rt: &impl Abort, params: &Params, shaper: &mut Shaper, at: u64) -> Result<Departure, Late> {
    assert!(rt; at < shaper.end);
    assert!(rt; shaper.seen < 1 << 41);
    shaper.feed(params, at)
}

// The departures of two frames: these packets are delayed, all others leave at their arrival.
fn leaves(rt: &impl Abort, params: &Params, at_once: u64, delayed: &[(u64, u64, Bound)]) {
    let mut shaper = shaper(params, END);
    for packet in 0..40 {
        let at = stamp(packet, at_once);
        let row = delayed.iter().find(|(number, _, _)| *number == packet);
        let (delay, bound) = row.map_or((0, Bound::Arrival), |(_, delay, bound)| (*delay, *bound));
        let departure = Departure {
            at: at.saturating_add(delay),
            bound,
        };
        same_at(
            rt,
            &packet,
            &fed(rt, params, &mut shaper, at),
            &Ok(departure),
        );
    }
}

#[test]
fn shape_burst(rt: HostRuntime) {
    leaves(&rt, &plain(), 5, &[(4, 909_091, Bound::Bucket { from: 0 })]);
}

#[test]
fn shape_buffer(rt: HostRuntime) {
    let delayed = [
        (8, 445, Bound::Buffer { read: 0 }),
        (9, 960_445, Bound::Buffer { read: 1 }),
        (10, 1_920_445, Bound::Buffer { read: 2 }),
        (11, 2_880_445, Bound::Buffer { read: 3 }),
    ];
    leaves(&rt, &wide_bucket(), 12, &delayed);
}

// Packets that keep the limits aren't delayed.
#[test]
fn plain_narrow(rt: HostRuntime) {
    leaves(&rt, &plain(), 1, &[]);
    leaves(&rt, &plain(), 4, &[]);
}

// Whether the buffer is within its limit of type N at packet i, which leaves at `at`.
fn keeps_buffer(rt: &impl Abort, params: &Params, i: u64, at: u64) -> bool {
    assert!(rt; at < 1 << 62);
    assert!(rt; i < 1 << 41);
    let due = Schedule::new(params, true, params.anchor(FIRST)).advance(at);
    (i + 1).saturating_sub(due.count) <= params.vrx_full(Kind::N)
}

// Whether every interval that ends with packet i, which leaves at `at`, is within the bucket's limit of type N.
fn keeps_bucket(rt: &impl Abort, params: &Params, departures: &[u64], i: u64, at: u64) -> bool {
    assert!(rt; FIRST <= at && at < 1 << 62);
    assert!(rt; i < 1 << 41);
    let ticks = params.ticks(FIRST, at);
    let mut keeps = true;
    for (j, from) in departures.iter().enumerate() {
        let (j, from) = (j as u64, *from);
        assert!(rt; FIRST <= from && from < 1 << 62);
        let drained = ticks.saturating_sub(params.ticks(FIRST, from));
        if j <= i {
            let load = u128::from(i - j + 1).saturating_sub(drained);
            keeps &= load <= u128::from(params.c_max(Kind::N));
        }
    }
    keeps
}

// Whether these departures keep the limits of type N, counted from the whole list.
fn keeps_limits(rt: &impl Abort, params: &Params, departures: &[u64]) -> bool {
    let mut keeps = true;
    for (i, at) in departures.iter().enumerate() {
        keeps &= keeps_buffer(rt, params, i as u64, *at);
        keeps &= keeps_bucket(rt, params, departures, i as u64, *at);
    }
    keeps
}

// The departures keep the limits; if the last one is later than its arrival, one nanosecond earlier wouldn't. Returns
// whether it is later.
fn is_least_at(rt: &impl Abort, params: &Params, departures: &mut [u64], at: u64) -> bool {
    same_at(rt, &at, &keeps_limits(rt, params, departures), &true);
    assert!(rt; departures.len() > 0);
    let (place, last) = (departures.len() - 1, departures[departures.len() - 1]);
    if last <= at {
        return false;
    }
    departures[place] = last - 1;
    same_at(rt, &at, &keeps_limits(rt, params, departures), &false);
    departures[place] = last;
    true
}

// Each departure of two frames is the least one, and `count` of them are later than their arrivals.
fn is_least(
    rt: &impl Abort,
    alloc: Global,
    params: &Params,
    at_once: u64,
    count: u64,
) -> Result<(), Fail> {
    let mut shaper = shaper(params, END);
    let mut departures = Vec::new(alloc);
    let mut delayed: u64 = 0;
    for packet in 0..40 {
        let at = stamp(packet, at_once);
        let departure = fed(rt, params, &mut shaper, at).ok().ok_or("late")?;
        departures.push(departure.at)?;
        let is_delayed = is_least_at(rt, params, &mut departures, at);
        delayed = delayed.saturating_add(u64::from(is_delayed));
    }
    same(rt, &delayed, &count);
    Ok(())
}

// A burst of a whole frame, held back by the bucket alone, and by the buffer alone.
#[test]
fn one_nanosecond_earlier(rt: HostRuntime) -> Result<(), Fail> {
    is_least(&rt, rt.alloc(), &plain(), 5, 1)?;
    is_least(&rt, rt.alloc(), &plain(), 20, 16)?;
    is_least(&rt, rt.alloc(), &wide_bucket(), 20, 12)
}

// The fifth packet would leave 909,091 ns after the first.
#[test]
fn late_at_the_end(rt: HostRuntime) {
    let params = plain();
    let mut in_time = shaper(&params, FIRST + 909_092);
    let mut late = shaper(&params, FIRST + 909_091);
    for packet in 0..4 {
        let departure = Departure {
            at: FIRST,
            bound: Bound::Arrival,
        };
        same_at(
            &rt,
            &packet,
            &fed(&rt, &params, &mut in_time, FIRST),
            &Ok(departure),
        );
        same_at(
            &rt,
            &packet,
            &fed(&rt, &params, &mut late, FIRST),
            &Ok(departure),
        );
    }
    let departure = Departure {
        at: FIRST + 909_091,
        bound: Bound::Bucket { from: 0 },
    };
    same(&rt, &fed(&rt, &params, &mut in_time, FIRST), &Ok(departure));
    same(
        &rt,
        &fed(&rt, &params, &mut late, FIRST),
        &Err(Late { packet: 4 }),
    );
    let stopped = late;
    for after in [0, 1, 909_090] {
        let answer = fed(&rt, &params, &mut late, FIRST + after);
        same_at(&rt, &after, &answer, &Err(Late { packet: 4 }));
        same_at(&rt, &after, &late, &stopped);
    }
}
