//! Schedules of reads: one that is advanced and one that is made anew for each packet agree; and values worked by hand.

ghost use Rattle.std.specs.Prelude.{◌≤◌, ◌*◌};

use super::compare::{same, same_at};
use read_schedule::{Due, NextRead, Schedule};
use sender_params::Params;
use sender_params::worked::video;
use std::process::Abort;

// 764,000 ns after 1,600,000,000 s, where frame 80,000,000,000 begins at 50 frames per second.
const FIRST: u64 = 1_600_000_000_000_764_000;

const FRAME: i128 = 80_000_000_000;

// Asserts what the calls require, since a proof does not follow the rows of a table.
fn advanced(
    rt: &impl Abort,
    params: &Params,
    (gapped, n0): (bool, i128),
    schedule: &mut Schedule,
    at: u64,
) -> Due {
    assert!(rt; at < 1 << 62);
    assert!(rt; n0 >= -480 && n0 <= 1 << 42);
    let due = schedule.advance(at);
    let counted = Schedule::new(params, gapped, n0).advance(at);
    same_at(rt, &at, &counted, &due);
    due
}

// Gapped read 1 is due 1,724,444 4/9 ns after the start of the frame, before packet 1 at 1,764,000 ns; linear read 1 at
// 1,764,444 4/9 ns, after it.
#[test]
fn linear_sender(rt: HostRuntime) {
    let params = Params::of(&video(1080, false, 50, 1), 20);
    let rows = [(true, 2), (false, 1)];
    for (gapped, count) in rows {
        let mut schedule = Schedule::new(&params, gapped, FRAME);
        let due = advanced(&rt, &params, (gapped, FRAME), &mut schedule, FIRST);
        same(&rt, &due.count, &0);
        let at = FIRST + 1_000_000;
        let due = advanced(&rt, &params, (gapped, FRAME), &mut schedule, at);
        same(&rt, &due.count, &count);
        same(&rt, &due.on_time, &false);
    }
}

// Gapped read 0 is due 444 4/9 ns after the first packet, and read 1 is due 960,000 ns after read 0.
#[test]
fn next_reads(rt: HostRuntime) {
    let params = Params::of(&video(1080, false, 50, 1), 20);
    let mut schedule = Schedule::new(&params, true, FRAME);
    let rows = [
        // nanoseconds after the first packet; number and time of the next read, in nanoseconds
        (0, 0, 445),
        (444, 0, 445),
        (445, 1, 960_445),
        (18_240_444, 19, 18_240_445),
        (18_240_445, 20, 20_000_445),
    ];
    for (late, number, next) in rows {
        assert!(rt; late < 1 << 40 && next < 1 << 40);
        let read = schedule.next_after(FIRST + late);
        let at = FIRST + next;
        same_at(&rt, &late, &read, &NextRead { number, at });
    }
}

// Gapped reads 0 and 1 are due 444 4/9 and 960,444 4/9 ns after the first packet, and 20 reads are a frame. Read 1
// leaves 444 ns to a packet that comes 960,001 ns after the first one, and 5 ns to one that comes 439 ns later; a
// quarter of these, rounded up, isn't used.
#[test]
fn spans(rt: HostRuntime) {
    let params = Params::of(&video(1080, false, 50, 1), 20);
    let schedule = Schedule::new(&params, true, FRAME);
    let rows = [
        // the last packet, the packets of the span and its last instant, in nanoseconds after the first packet
        (0, 19, 960_425),
        (439, 3, 960_441),
    ];
    for (last, lasts, end) in rows {
        assert!(rt; last < 1 << 40 && end < 1 << 40);
        let mut span = schedule.between(0, 1, FIRST + last);
        same(&rt, &span.lasts, &lasts);
        same(&rt, &span.holds(FIRST + 444), &false);
        same(&rt, &span.holds(FIRST + 445), &true);
        same(&rt, &span.holds(FIRST + end + 1), &false);
        // (what `go_on` requires)
        assert!(rt; span.holds(FIRST + end));
        span.go_on(FIRST + end);
        same(&rt, &span.holds(FIRST + 960_445), &false);
        same(&rt, &span.holds(FIRST + 960_446), &true);
        same(&rt, &span.holds(FIRST + end + 960_001), &true);
        same(&rt, &span.holds(FIRST + end + 960_002), &false);
    }
}

// With TROFF=700 each packet comes exactly at its gapped read; one nanosecond later it would be late.
#[test]
fn on_its_read(rt: HostRuntime) {
    let mut media = video(1080, false, 50, 1);
    media.troff = Some(700);
    let params = Params::of(&media, 20);
    let first = 1_600_000_000_000_700_000;
    for late in 0..2 {
        let mut schedule = Schedule::new(&params, true, FRAME);
        for packet in 0..20 {
            let at = first + 960_000 * packet + late;
            let due = advanced(&rt, &params, (true, FRAME), &mut schedule, at);
            same_at(&rt, &at, &due.count, &(packet + 1));
            same_at(&rt, &at, &due.on_time, &(late == 0));
        }
    }
}

// 1080p at 60000/1001 with 4320 packets per frame, from TAI second 1,601,600,000 on, where frame 96,000,000,000 begins.
// Each packet comes 1,000 ns before its gapped read, rounded down.
#[test]
fn usual_equipment(rt: HostRuntime) {
    let params = Params::of(&video(1080, false, 60_000, 1001), 4320);
    let n0 = 96_000_000_000;
    let mut schedule = Schedule::new(&params, true, n0);
    for packet in 0..8640 {
        let (frame, place) = (packet / 4320, packet % 4320);
        let read = (450_450_000 * frame + 17_217_200 + 100_100 * place) / 27;
        let at = 1_601_600_000_000_000_000 + read - 1_000;
        let due = advanced(&rt, &params, (true, n0), &mut schedule, at);
        same_at(&rt, &packet, &due.count, &packet);
    }
}

// After long pauses and bursts the reads that are due are those of a new schedule, for odd rates and for reads that
// begin before 0.
#[test]
fn carried_as_counted(rt: HostRuntime) {
    let videos = [
        (1080, false, 60_000, 1001, 4320),
        (480, true, 30_000, 1001, 7),
        (720, false, 240, 1, 3),
        (576, true, 1, 1001, 1),
    ];
    for (height, interlaced, p, q, n) in videos {
        assert!(rt; height >= 1 && height <= 32767);
        assert!(rt; q >= 1 && q <= 1001);
        assert!(rt; p >= 1 && p <= 240 * q);
        assert!(rt; n >= 1 && n <= 262_144);
        let params = Params::of(&video(height, interlaced, p, q), n);
        for gapped in [true, false] {
            let mut schedule = Schedule::new(&params, gapped, -3);
            let mut at: u64 = 0;
            for step in 0..400u64 {
                let pause = if step % 50 == 49 {
                    7_777_777_777
                } else {
                    step * step
                };
                at = at.saturating_add(pause * 13);
                advanced(&rt, &params, (gapped, -3), &mut schedule, at);
            }
        }
    }
}
