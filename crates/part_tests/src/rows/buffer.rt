//! The virtual receiver buffer, with values worked by hand.

ghost use Rattle.std.specs.Prelude.{◌≤◌, ◌*◌};

use super::compare::{same, same_at};
use read_schedule::Schedule;
use sender_params::Params;
use sender_params::worked::video;
use std::process::Abort;
use timing_base::Kind;
use vrx_buffer::{Vrx, VrxFault};

// At 50 frames per second, frame 80,000,000,000 begins with TAI second 1,600,000,000.
const SECOND: u64 = 1_600_000_000_000_000_000;

const FIRST: u64 = SECOND + 764_000;

const KINDS: [Kind; 3] = [Kind::N, Kind::NL, Kind::W];

// 1080p at 50 with 20 packets per frame.
fn plain() -> Params {
    Params::of(&video(1080, false, 50, 1), 20)
}

// A buffer, the number of packets that it was fed, and the schedule of the reads that are due.
#[derive(Clone, Copy)]
struct Flow {
    buffer: Vrx,
    seen: u64,
    schedule: Schedule,
}

// The buffer and the schedule of a flow that begins at `first`.
fn started(rt: &impl Abort, params: &Params, kind: Kind, first: u64) -> Flow {
    assert!(rt; first < 1 << 62);
    Flow {
        buffer: Vrx::new(kind),
        seen: 0,
        schedule: Schedule::new(params, kind == Kind::N, params.anchor(first)),
    }
}

// Asserts what the calls require, since a proof does not follow the rows of a table.
fn fed(rt: &impl Abort, params: &Params, flow: &mut Flow, at: u64) -> Option<VrxFault> {
    assert!(rt; at < 1 << 62);
    assert!(rt; flow.seen < 1 << 41);
    let due = flow.schedule.advance(at);
    let packet = flow.seen;
    flow.seen += 1;
    flow.buffer.feed_due(params, packet, due)
}

// The buffer after two frames of 20 packets; the first packet comes `first` after the start of the frame, and each
// other one `step` after the one before.
fn after(rt: &impl Abort, params: &Params, kind: Kind, first: u64, step: u64) -> Vrx {
    let mut flow = started(rt, params, kind, first);
    for frame in 0..2 {
        for place in 0..20u64 {
            let late = 20_000_000u64.saturating_mul(frame);
            let late = late.saturating_add(place.saturating_mul(step));
            fed(rt, params, &mut flow, first.saturating_add(late));
        }
    }
    same(rt, &flow.seen, &40);
    flow.buffer
}

// For two frames of packets `step` apart, the buffer of each type has this fault and this peak.
fn comes_to(
    rt: &impl Abort,
    params: &Params,
    (first, step): (u64, u64),
    rows: &[(Kind, Option<VrxFault>, u64)],
) {
    for (kind, fault, peak) in rows {
        let vrx = after(rt, params, *kind, first, step);
        same_at(rt, kind, &(vrx.fault, vrx.peak), &(*fault, *peak));
    }
}

// The first packet of two frames comes after its read.
fn is_late(rt: &impl Abort, params: &Params, first: u64) {
    for kind in &KINDS {
        let vrx = after(rt, params, *kind, first, 960_000);
        same_at(rt, kind, &vrx.fault, &Some(VrxFault::Empty { packet: 0 }));
    }
}

#[test]
fn plain_narrow(rt: HostRuntime) {
    let rows = [(Kind::N, None, 1), (Kind::NL, None, 1), (Kind::W, None, 1)];
    comes_to(&rt, &plain(), (FIRST, 960_000), &rows)
}

#[test]
fn linear_sender(rt: HostRuntime) {
    let empty = Some(VrxFault::Empty { packet: 1 });
    let rows = [(Kind::N, empty, 1), (Kind::NL, None, 1), (Kind::W, None, 1)];
    comes_to(&rt, &plain(), (FIRST, 1_000_000), &rows)
}

#[test]
fn five_at_once(rt: HostRuntime) {
    for kind in KINDS {
        let mut flow = started(&rt, &plain(), kind, FIRST);
        for place in 0..20 {
            let at = if place < 5 {
                FIRST
            } else {
                FIRST + 960_000 * place
            };
            same(&rt, &fed(&rt, &plain(), &mut flow, at), &None);
        }
        same(&rt, &flow.buffer.peak, &5);
    }
}

// The plain sender with TROFF=700.
fn early_reads() -> Params {
    let mut media = video(1080, false, 50, 1);
    media.troff = Some(700);
    Params::of(&media, 20)
}

// Each packet comes exactly at its gapped read.
#[test]
fn on_its_read(rt: HostRuntime) {
    let rows = [(Kind::N, None, 0), (Kind::NL, None, 1), (Kind::W, None, 1)];
    comes_to(&rt, &early_reads(), (SECOND + 700_000, 960_000), &rows)
}

#[test]
fn one_ns_late(rt: HostRuntime) {
    is_late(&rt, &early_reads(), SECOND + 700_001)
}

// Read 0 is due at 746,666 2/3 ns.
#[test]
fn height_720(rt: HostRuntime) {
    is_late(&rt, &Params::of(&video(720, false, 50, 1), 20), FIRST)
}

#[test]
fn interlaced_narrow(rt: HostRuntime) {
    let params = Params::of(&video(1080, true, 25, 1), 10);
    for kind in KINDS {
        let mut flow = started(&rt, &params, kind, SECOND + 782_000);
        for field in 0..4 {
            for place in 0..10 {
                let at = SECOND + 782_000 + 20_000_000 * field + 1_920_000 * place;
                same_at(&rt, &at, &fed(&rt, &params, &mut flow, at), &None);
            }
        }
        same(&rt, &flow.buffer.peak, &1);
        same(&rt, &flow.seen, &40);
    }
}

// 1080p at 60000/1001 with 4320 packets per frame, from TAI second 1,601,600,000 on, where frame 96,000,000,000 begins.
// Each packet comes 1,000 ns before its gapped read, rounded down.
#[test]
fn usual_equipment(rt: HostRuntime) {
    let params = Params::of(&video(1080, false, 60_000, 1001), 4320);
    let over = Some(VrxFault::Over {
        packet: 219,
        held: 10,
    });
    let rows = [
        (Kind::N, None, 1),
        (Kind::NL, over, 174),
        (Kind::W, None, 174),
    ];
    for (kind, fault, peak) in rows {
        let mut flow = started(&rt, &params, kind, 1_601_600_000_000_636_674);
        for packet in 0..8640 {
            let (frame, place) = (packet / 4320, packet % 4320);
            let read = (450_450_000 * frame + 17_217_200 + 100_100 * place) / 27;
            fed(
                &rt,
                &params,
                &mut flow,
                1_601_600_000_000_000_000 + read - 1_000,
            );
        }
        same(&rt, &flow.buffer.fault, &fault);
        same(&rt, &flow.buffer.peak, &peak);
    }
}
