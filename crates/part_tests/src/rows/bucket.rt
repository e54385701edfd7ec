//! The leaky bucket, with values worked by hand.

use super::compare::{same, same_at};
use drain_bucket::Bucket;
use sender_params::Params;
use sender_params::worked::video;
use std::process::Abort;
use timing_base::Kind;

const FIRST: u64 = 1_600_000_000_000_764_000;

// 1080p at 50 with 20 packets per frame: T_DRAIN is 909,090 10/11 ns.
fn plain() -> Params {
    Params::of(&video(1080, false, 50, 1), 20)
}

// Asserts what `feed` requires, since a proof does not follow the rows of a table.
fn fed(rt: &impl Abort, params: &Params, bucket: &mut Bucket, at: u64) -> u64 {
    assert!(rt; bucket.origin <= at);
    assert!(rt; at < 1 << 62);
    assert!(rt; bucket.seen < 1 << 41);
    bucket.feed(params, at)
}

// Feeds a packet of the plain video that comes `late` nanoseconds after the first one.
fn fed_late(rt: &impl Abort, bucket: &mut Bucket, late: u64) -> u64 {
    fed(rt, &plain(), bucket, FIRST.saturating_add(late))
}

#[test]
fn plain_narrow(rt: HostRuntime) {
    let mut bucket = Bucket::new(&plain(), FIRST);
    for frame in 0..2 {
        for place in 0..20 {
            let late = 20_000_000 * frame + 960_000 * place;
            same_at(&rt, &late, &fed_late(&rt, &mut bucket, late), &1);
        }
    }
    same(&rt, &bucket.peak, &1);
    same(&rt, &bucket.seen, &40);
    same(&rt, &plain().c_max(Kind::N), &4);
}

// 1080i at 25 with 10 packets per field: T_DRAIN is 1,818,181 9/11 ns.
#[test]
fn interlaced_narrow(rt: HostRuntime) {
    let params = Params::of(&video(1080, true, 25, 1), 10);
    let first = 1_600_000_000_000_782_000;
    let mut bucket = Bucket::new(&params, first);
    for field in 0..4 {
        for place in 0..10 {
            let at = first + 20_000_000 * field + 1_920_000 * place;
            same_at(&rt, &at, &fed(&rt, &params, &mut bucket, at), &1);
        }
    }
    same(&rt, &bucket.peak, &1);
    same(&rt, &bucket.seen, &40);
}

// 1080p at 60000/1001 with 4320 packets per frame: T_DRAIN is 284,375/81 ns. The two frames start at TAI second
// 1,601,600,000, where frame 96,000,000,000 begins. Each packet comes 1,000 ns before its gapped read, rounded down.
// T_FRAME is 450,450,000/27 ns, TR_OFFSET 17,217,200/27 ns and T_RS 100,100/27 ns.
#[test]
fn usual_equipment(rt: HostRuntime) {
    let params = Params::of(&video(1080, false, 60_000, 1001), 4320);
    let mut bucket = Bucket::new(&params, 1_601_600_000_000_636_674);
    for packet in 0..8640 {
        let (frame, place) = (packet / 4320, packet % 4320);
        let read = (450_450_000 * frame + 17_217_200 + 100_100 * place) / 27;
        let at = 1_601_600_000_000_000_000 + read - 1_000;
        same_at(&rt, &packet, &fed(&rt, &params, &mut bucket, at), &1);
    }
    same(&rt, &bucket.peak, &1);
    same(&rt, &bucket.seen, &8640);
    same(&rt, &params.c_max(Kind::N), &6);
    same(&rt, &params.c_max(Kind::NL), &5);
    same(&rt, &params.c_max(Kind::W), &16);
}

// Feeds packets of the plain video, and asserts the count and the first packet of the burst after each.
fn fed_rows(rt: &impl Abort, bucket: &mut Bucket, rows: &[(u64, u64, u64)]) {
    for (late, count, begin) in rows {
        same_at(rt, &late, &fed_late(rt, bucket, *late), count);
        same_at(rt, &late, &bucket.begin, begin);
    }
}

#[test]
fn five_at_once(rt: HostRuntime) {
    let rows = [
        // nanoseconds after the first packet, count, begin
        (0, 1, 0),
        (0, 2, 0),
        (0, 3, 0),
        (0, 4, 0),
        (0, 5, 0),
        (4_800_000, 1, 5),
    ];
    let mut bucket = Bucket::new(&plain(), FIRST);
    fed_rows(&rt, &mut bucket, &rows);
    same(&rt, &bucket.peak, &5);
    same(&rt, &bucket.seen, &6);
}

#[test]
fn four_at_once(rt: HostRuntime) {
    let rows = [
        (0, 1, 0),
        (0, 2, 0),
        (0, 3, 0),
        (0, 4, 0),
        (3_840_000, 1, 4),
    ];
    let mut bucket = Bucket::new(&plain(), FIRST);
    fed_rows(&rt, &mut bucket, &rows);
    same(&rt, &bucket.peak, &4);
}

#[test]
fn burst_in_second_frame(rt: HostRuntime) {
    let mut bucket = Bucket::new(&plain(), FIRST);
    for place in 0..20 {
        same_at(
            &rt,
            &place,
            &fed_late(&rt, &mut bucket, 960_000 * place),
            &1,
        );
        same_at(&rt, &place, &bucket.begin, &place);
    }
    for count in 1..6 {
        same(&rt, &fed_late(&rt, &mut bucket, 20_000_000), &count);
        same(&rt, &bucket.begin, &20);
    }
    same(&rt, &bucket.peak, &5);
}

// The drain ticks come 909,090 10/11 and 1,818,181 9/11 ns after the first packet. The second packet finds the bucket
// empty, the third comes less than a tick later, and the fourth just after the next tick.
#[test]
fn ticks_after_spaced(rt: HostRuntime) {
    let rows = [
        // nanoseconds after the first packet, count, begin
        (0, 1, 0),
        (909_091, 1, 1),
        (1_818_181, 2, 1),
        (1_818_182, 2, 1),
        (10_000_000, 1, 4),
        (20_000_000, 1, 5),
        (20_000_000, 2, 5),
    ];
    let mut bucket = Bucket::new(&plain(), FIRST);
    fed_rows(&rt, &mut bucket, &rows);
    same(&rt, &bucket.peak, &2);
    same(&rt, &bucket.seen, &7);
}
