//! The judge of one flow, from its packets to its result, with values worked by hand.

ghost use Rattle.std.specs.Prelude.{◌≡◌, ◌≤◌, ◌<◌, ◌*◌, ◌^◌};
ghost use Rattle.fail_interval.specs.Stands.{count_fed};

use super::compare::same;
use fail_interval::FlowJudge;
use sender_params::worked::video;
use std::alloc::Global;
use std::process::Abort;
use timing_base::worked::{NARROW, reading};
use timing_base::{
    Broken, FailProof, FlowKey, FlowOptions, Judged, Kind, KindVerdict, Media, PacketFault, Row,
    Rtp, Run, RunVerdict, Shift, Unjudged, Verdict,
};

const KEY: FlowKey = FlowKey { file: 0, media: 0 };

// A judge, and the number of packets that it was fed; their packet records count from 1.
#[derive(Drop)]
struct Flow {
    judge: FlowJudge<()>,
    count: u64,
    ghost counted: { count_fed judge ≡ count },
}

impl Flow {
    fn new(alloc: Global, media: &Media) -> Flow {
        Flow::later(alloc, media, Shift::NONE)
    }

    // A judge for capture timestamps with this shift.
    fn later(alloc: Global, media: &Media, shift: Shift) -> Flow {
        let options = FlowOptions {
            shift,
            seq16: false,
        };
        Flow {
            judge: FlowJudge::new(alloc, media, KEY, options),
            count: 0,
        }
    }

    // Asserts what `feed` requires, since a proof does not follow the packets of a loop.
    fn feed(&mut self, rt: &impl Abort, at: u64, rtp: Rtp) {
        assert!(rt; at < 4_294_967_296_000_000_000);
        assert!(rt; self.count < 1 << 41);
        let answer = self.judge.feed(self.count + 1, at, Ok(rtp), &mut ());
        self.count += 1;
        assert!(rt; answer.is_ok());
    }

    fn finish(self, rt: &impl Abort) -> Row {
        let Flow { judge, .. } = self;
        row_of(rt, judge)
    }
}

fn row_of(rt: &impl Abort, judge: FlowJudge<()>) -> Row {
    judge.finish(&mut ()).expect(rt, "there is memory")
}

fn judged(row: &Row) -> Option<Judged> {
    match &row.verdict {
        Verdict::Judged(judged) => Some(*judged),
        _ => None,
    }
}

fn unjudged(row: &Row) -> Option<Unjudged> {
    match &row.verdict {
        Verdict::Unjudged(unjudged) => Some(*unjudged),
        _ => None,
    }
}

// The flow isn't judged, for this reason.
fn comes_to_none(rt: &impl Abort, flow: Flow, want: Unjudged) {
    same(rt, &unjudged(&flow.finish(rt)), &Some(want));
}

// A capture: a packet with the marker 1 ms before the first frame, and a frame every 20 ms.
#[derive(Clone, Copy)]
struct Made {
    // The start of the first frame, in seconds.
    start: u32,
    // The seconds by which the capture timestamps are too low.
    tai: u64,
    // The number of the packet with the marker.
    number: u32,
    // The packets in a frame.
    size: u32,
    // The time from the start of a frame to its first packet, in nanoseconds.
    first: u32,
    // The time from one packet to the next, in microseconds.
    step: u16,
    // In the frame `bunched` the packets up to `up_to` come with the first.
    bunched: u32,
    up_to: u32,
}

const PLAIN: Made = Made {
    start: 1_600_000_000,
    tai: 0,
    number: 0,
    size: 20,
    first: 764_000,
    step: 960,
    bunched: 0,
    up_to: 0,
};

impl Made {
    // The time at which a packet comes, in nanoseconds.
    fn stamp(&self, group: u32, place: u32) -> u64 {
        let steps = if group == self.bunched && place <= self.up_to {
            0
        } else {
            place
        };
        1_000_000_000 * u64::from(self.start)
            + 20_000_000 * u64::from(group)
            + u64::from(self.first)
            + 1_000 * u64::from(self.step) * u64::from(steps)
    }

    fn feed_head(&self, rt: &impl Abort, flow: &mut Flow) {
        let at = (1_000_000_000 * u64::from(self.start)).saturating_sub(1_000_000);
        flow.feed(rt, at, reading(self.number, 0, true));
    }

    // Feeds the packets from `from` up to, but not including, `to`, counted after the head.
    fn feed(&self, rt: &impl Abort, flow: &mut Flow, from: u32, to: u32) {
        assert!(rt; self.size > 0);
        for j in from..to {
            let group = j / self.size;
            let place = j % self.size;
            let next = self.number.wrapping_add(1).wrapping_add(j);
            let timestamp = group.wrapping_add(1).wrapping_mul(1800);
            let rtp = reading(next, timestamp, place == self.size - 1);
            flow.feed(rt, self.stamp(group, place), rtp);
        }
    }

    // The head and this many packets to this media have this result.
    fn comes_to(&self, rt: &impl Abort, alloc: Global, media: &Media, count: u32, want: Judged) {
        assert!(rt; self.tai <= 1000);
        let shift = Shift {
            tai: self.tai,
            delay: 0,
        };
        let mut flow = Flow::later(alloc, media, shift);
        self.feed_head(rt, &mut flow);
        self.feed(rt, &mut flow, 0, count);
        same(rt, &judged(&flow.finish(rt)), &Some(want));
    }
}

// The result of this many frames in which every type passes.
fn passes(frames: u64) -> Judged
    requires { frames < 2 ^ 32 }
{
    Judged {
        frames,
        packets: 20 * frames,
        ..NARROW
    }
}

fn fail(model: Broken, from: u64, to: u64, count: u64, limit: u64) -> KindVerdict {
    KindVerdict::Fail(FailProof {
        model,
        from,
        to,
        count,
        limit,
    })
}

// 1080p at 50, declared narrow.
fn plain() -> Media {
    video(1080, false, 50, 1)
}

#[test]
fn plain_narrow(rt: HostRuntime) {
    PLAIN.comes_to(&rt, rt.alloc(), &plain(), 40, passes(2))
}

#[test]
fn linear_sender(rt: HostRuntime) {
    let made = Made {
        step: 1_000,
        ..PLAIN
    };
    let want = Judged {
        kinds: [
            fail(Broken::Empty, 1, 1, 1, 2),
            KindVerdict::Pass,
            KindVerdict::Pass,
        ],
        ..passes(2)
    };
    made.comes_to(&rt, rt.alloc(), &plain(), 40, want)
}

// The result of two frames with five packets at once, the first of which is this one.
fn five_from(first: u64) -> Judged
    requires { first < 2 ^ 32 }
{
    let bucket = fail(Broken::Bucket, first, first + 4, 5, 4);
    Judged {
        bucket_peak: 5,
        gapped_peak: 5,
        linear_peak: 5,
        kinds: [bucket, bucket, KindVerdict::Pass],
        ..passes(2)
    }
}

#[test]
fn five_at_once(rt: HostRuntime) {
    let made = Made { up_to: 4, ..PLAIN };
    made.comes_to(&rt, rt.alloc(), &plain(), 40, five_from(0))
}

#[test]
fn four_at_once(rt: HostRuntime) {
    let made = Made { up_to: 3, ..PLAIN };
    let want = Judged {
        bucket_peak: 4,
        gapped_peak: 4,
        linear_peak: 4,
        ..passes(2)
    };
    made.comes_to(&rt, rt.alloc(), &plain(), 40, want)
}

#[test]
fn burst_in_second_frame(rt: HostRuntime) {
    let made = Made {
        bunched: 1,
        up_to: 4,
        ..PLAIN
    };
    made.comes_to(&rt, rt.alloc(), &plain(), 40, five_from(20))
}

// The verdicts don't depend on the declared type.
#[test]
fn declared_wide(rt: HostRuntime) {
    let made = Made {
        bunched: 1,
        up_to: 4,
        ..PLAIN
    };
    let media = Media {
        declared: Some(Kind::W),
        ..plain()
    };
    made.comes_to(&rt, rt.alloc(), &media, 40, five_from(20))
}

// 1080p at 50, declared narrow, with TROFF=700.
fn early_reads() -> Media {
    Media {
        troff: Some(700),
        ..plain()
    }
}

#[test]
fn on_its_read(rt: HostRuntime) {
    let made = Made {
        first: 700_000,
        ..PLAIN
    };
    let want = Judged {
        gapped_peak: 0,
        ..passes(2)
    };
    made.comes_to(&rt, rt.alloc(), &early_reads(), 40, want)
}

// The result of two frames in which each packet comes just after its gapped read.
fn all_late() -> Judged {
    let late = fail(Broken::Empty, 0, 0, 0, 1);
    Judged {
        gapped_peak: 0,
        kinds: [late, late, late],
        ..passes(2)
    }
}

#[test]
fn one_ns_late(rt: HostRuntime) {
    let made = Made {
        first: 700_001,
        ..PLAIN
    };
    made.comes_to(&rt, rt.alloc(), &early_reads(), 40, all_late())
}

#[test]
fn height_720(rt: HostRuntime) {
    PLAIN.comes_to(&rt, rt.alloc(), &video(720, false, 50, 1), 40, all_late())
}

#[test]
fn cmax_of_declared(rt: HostRuntime) {
    let made = Made { up_to: 1, ..PLAIN };
    let media = Media {
        cmax: Some(1),
        ..plain()
    };
    let want = Judged {
        bucket_peak: 2,
        gapped_peak: 2,
        linear_peak: 2,
        kinds: [
            fail(Broken::Bucket, 0, 1, 2, 1),
            KindVerdict::Pass,
            KindVerdict::Pass,
        ],
        ..passes(2)
    };
    made.comes_to(&rt, rt.alloc(), &media, 40, want)
}

#[test]
fn number_wraps(rt: HostRuntime) {
    let made = Made {
        start: 1_600_967_295,
        number: 4_294_967_295,
        ..PLAIN
    };
    made.comes_to(&rt, rt.alloc(), &plain(), 40, passes(2))
}

#[test]
fn last_second(rt: HostRuntime) {
    let made = Made {
        start: 4_294_967_295,
        tai: 1000,
        ..PLAIN
    };
    made.comes_to(&rt, rt.alloc(), &plain(), 40, passes(2))
}

#[test]
fn cut_capture(rt: HostRuntime) {
    let want = Judged {
        tail: 19,
        ..passes(1)
    };
    PLAIN.comes_to(&rt, rt.alloc(), &plain(), 39, want)
}

#[test]
fn interlaced_narrow(rt: HostRuntime) {
    let made = Made {
        size: 10,
        first: 782_000,
        step: 1_920,
        ..PLAIN
    };
    let want = Judged {
        n: 10,
        frames: 4,
        ..passes(2)
    };
    made.comes_to(&rt, rt.alloc(), &video(1080, true, 25, 1), 40, want)
}

// Two frames from TAI second 1,601,600,000 on, where frame 96,000,000,000 begins. Each packet comes 1,000 ns before its
// gapped read, rounded down. T_FRAME is 450,450,000/27 ns, TR_OFFSET 17,217,200/27 ns and T_RS 100,100/27 ns.
#[test]
fn usual_equipment(rt: HostRuntime) {
    let begin: u64 = 1_601_600_000_000_000_000 - 37_000_000_000;
    let shift = Shift { tai: 37, delay: 0 };
    let mut flow = Flow::later(rt.alloc(), &video(1080, false, 60_000, 1001), shift);
    flow.feed(&rt, begin + 636_674 - 1_000_000, reading(0, 0, true));
    for j in 0..8640_u32 {
        let late = 450_450_000 * u64::from(j / 4320) + 17_217_200 + 100_100 * u64::from(j % 4320);
        let rtp = reading(j + 1, 1500 * (1 + j / 4320), j % 4320 == 4319);
        flow.feed(&rt, begin + late / 27 - 1_000, rtp);
    }
    let want = Judged {
        n: 4320,
        frames: 2,
        packets: 8640,
        head: 1,
        tail: 0,
        bucket_peak: 1,
        gapped_peak: 1,
        linear_peak: 174,
        kinds: [
            KindVerdict::Pass,
            fail(Broken::Over, 0, 219, 10, 9),
            KindVerdict::Pass,
        ],
    };
    same(&rt, &judged(&flow.finish(&rt)), &Some(want));
}

#[test]
fn no_packets(rt: HostRuntime) {
    let flow = Flow::new(rt.alloc(), &plain());
    comes_to_none(&rt, flow, Unjudged::Absent)
}

#[test]
fn no_marker(rt: HostRuntime) {
    let mut flow = Flow::new(rt.alloc(), &plain());
    for number in 0..5 {
        flow.feed(&rt, 7, reading(number, 7, false));
    }
    comes_to_none(&rt, flow, Unjudged::NoWholeFrame { head: 5 })
}

// The result of a flow with this first fault, in this packet record.
fn refused(rec: u64, fault: PacketFault) -> Unjudged {
    Unjudged::Refused { rec, fault }
}

#[test]
fn short_frame(rt: HostRuntime) {
    let mut flow = Flow::new(rt.alloc(), &plain());
    PLAIN.feed_head(&rt, &mut flow);
    PLAIN.feed(&rt, &mut flow, 0, 38);
    flow.feed(&rt, PLAIN.stamp(1, 18), reading(39, 3600, true));
    let want = refused(40, PacketFault::FrameSize { want: 20, got: 19 });
    comes_to_none(&rt, flow, want)
}

// The packets after the fault are ignored.
#[test]
fn second_source(rt: HostRuntime) {
    let mut flow = Flow::new(rt.alloc(), &plain());
    PLAIN.feed_head(&rt, &mut flow);
    let other = Rtp {
        ssrc: 2,
        ..reading(1, 1800, false)
    };
    flow.feed(&rt, PLAIN.stamp(0, 0), other);
    PLAIN.feed(&rt, &mut flow, 1, 40);
    comes_to_none(&rt, flow, refused(2, PacketFault::SecondSource))
}

// The timestamps in a fault are those of the capture, whatever the shift.
#[test]
fn stamp_back(rt: HostRuntime) {
    let shift = Shift {
        tai: 1000,
        delay: 7,
    };
    let mut flow = Flow::later(rt.alloc(), &plain(), shift);
    PLAIN.feed_head(&rt, &mut flow);
    flow.feed(&rt, 1_599_999_999_998_999_999, reading(1, 1800, false));
    let want = PacketFault::StampBack {
        before: 1_599_999_999_999_000_000,
        got: 1_599_999_999_998_999_999,
    };
    comes_to_none(&rt, flow, refused(2, want))
}

#[test]
fn captured_at_40(rt: HostRuntime) {
    let mut judge = FlowJudge::new(rt.alloc(), &plain(), KEY, FlowOptions::NONE);
    let answer = judge.feed(1, 7, Err(PacketFault::Short), &mut ());
    assert!(rt; answer.is_ok());
    let want = refused(1, PacketFault::Short);
    same(&rt, &unjudged(&row_of(&rt, judge)), &Some(want));
}

#[test]
fn frame_too_large(rt: HostRuntime) {
    let mut flow = Flow::new(rt.alloc(), &plain());
    flow.feed(&rt, 7, reading(0, 0, true));
    for j in 0..262_145_u32 {
        flow.feed(&rt, 7, reading(j + 1, 1800, false));
    }
    let want = refused(262_146, PacketFault::FrameTooLarge);
    comes_to_none(&rt, flow, want)
}

#[test]
fn too_many_gaps(rt: HostRuntime) {
    let mut flow = Flow::new(rt.alloc(), &plain());
    for j in 0..1026_u32 {
        flow.feed(&rt, 7, reading(2 * j, 0, false));
    }
    let want = Unjudged::Gap {
        rec: 1026,
        expected: 2049,
        got: 2050,
    };
    comes_to_none(&rt, flow, want)
}

// The runs in a result.
fn runs(row: &Row) -> &[Run] {
    match &row.verdict {
        Verdict::Runs(runs) => runs.list.as_slice(),
        _ => &[],
    }
}

// The flow has these runs.
fn comes_to_runs(rt: &impl Abort, flow: Flow, want: &[Run]) {
    same(rt, &runs(&flow.finish(rt)), &want);
}

#[test]
fn two_runs(rt: HostRuntime) {
    let made = Made {
        start: 1_600_000_002,
        number: 2,
        ..PLAIN
    };
    let mut flow = Flow::new(rt.alloc(), &plain());
    made.feed_head(&rt, &mut flow);
    made.feed(&rt, &mut flow, 0, 30);
    made.feed(&rt, &mut flow, 31, 40);
    let first = Run {
        rec: 1,
        number: 2,
        expected: None,
        verdict: RunVerdict::Judged(Judged {
            tail: 10,
            ..passes(1)
        }),
    };
    let second = Run {
        rec: 32,
        number: 34,
        expected: Some(33),
        verdict: RunVerdict::NoWholeFrame { head: 9 },
    };
    comes_to_runs(&rt, flow, &[first, second]);
}

#[test]
fn equal_low_halves(rt: HostRuntime) {
    let mut flow = Flow::new(rt.alloc(), &plain());
    flow.feed(&rt, 7, reading(6, 0, true));
    flow.feed(&rt, 7, reading(7, 1800, false));
    flow.feed(&rt, 7, reading(65_544, 1800, false));
    let first = Run {
        rec: 1,
        number: 6,
        expected: None,
        verdict: RunVerdict::NoWholeFrame { head: 1 },
    };
    let second = Run {
        rec: 3,
        number: 65_544,
        expected: Some(8),
        verdict: RunVerdict::NoWholeFrame { head: 1 },
    };
    comes_to_runs(&rt, flow, &[first, second]);
}
