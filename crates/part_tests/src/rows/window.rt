//! The windows of offsets, with values worked by hand, and checked against offsets that are tried one by one.

use super::compare::same;
use offset_window::{Window, WindowEnd, WindowMeter};
use read_schedule::{Due, Schedule};
use sender_params::Params;
use sender_params::worked::video;
use std::alloc::{AllocError, Global};
use std::process::Abort;
use std::test::Fail;
use timing_base::{Kind, Media};

const KINDS: [Kind; 3] = [Kind::N, Kind::NL, Kind::W];

// TAI second 1,600,000,000, at which a frame at 50 and a field at 25 begin.
const SECOND: u64 = 1_600_000_000_000_000_000;

// The times at which the packets of some frames come, in nanoseconds.
#[derive(Clone, Copy)]
struct Sent {
    // From the start of a frame to its packet 0.
    first: u64,
    groups: u64,
    // The packets in a frame.
    packets: u64,
    // From a packet to the next.
    step: u64,
    // In the frame `bunched` the first `at_once` packets come with packet 0.
    bunched: u64,
    at_once: u64,
}

// Two frames of a narrow sender, with 20 packets per frame.
const PLAIN: Sent = Sent {
    first: 764_000,
    groups: 2,
    packets: 20,
    step: 960_000,
    bunched: 0,
    at_once: 0,
};

impl Sent {
    // The time at which this packet of a frame comes.
    fn stamp(&self, group: u64, place: u64) -> u64 {
        let bunched = group == self.bunched && place < self.at_once;
        let steps = if bunched { 0 } else { place };
        let begin = SECOND.saturating_add(group.saturating_mul(20_000_000));
        let late = steps.saturating_mul(self.step).saturating_add(self.first);
        begin.saturating_add(late)
    }

    fn put_group(&self, stamps: &mut Vec<u64>, group: u64) -> Result<(), AllocError> {
        for place in 0..self.packets {
            stamps.push(self.stamp(group, place))?;
        }
        Ok(())
    }

    fn stamps(&self, alloc: Global) -> Result<Vec<u64>, AllocError> {
        let mut stamps = Vec::new(alloc);
        for group in 0..self.groups {
            self.put_group(&mut stamps, group)?;
        }
        Ok(stamps)
    }
}

// 1080p at 50.
fn plain() -> Media {
    video(1080, false, 50, 1)
}

// The number of the frame of the first packet. Asserts what the calls require, since a proof does not follow the
// elements of a list.
fn anchor(rt: &impl Abort, params: &Params, stamps: &[u64]) -> i128 {
    let first = stamps.first().copied().unwrap_or(0);
    assert!(rt; first < 1 << 62);
    params.anchor(first)
}

fn window(rt: &impl Abort, params: &Params, kind: Kind, stamps: &[u64]) -> Window {
    let n0 = anchor(rt, params, stamps);
    assert!(rt; n0 >= -480 && n0 <= 1 << 42);
    let mut meter = WindowMeter::new(params, kind, n0);
    for at in stamps {
        assert!(rt; *at < 1 << 62);
        assert!(rt; meter.seen < 1 << 40);
        meter.feed(params, *at);
    }
    meter.finish()
}

// An end at this offset, which this packet binds.
fn bound(micros: u32, packet: u64) -> WindowEnd {
    WindowEnd::At {
        micros,
        binding: Some(packet),
    }
}

// An end at this offset, bound by none.
fn free(micros: u32) -> WindowEnd {
    WindowEnd::At {
        micros,
        binding: None,
    }
}

// These packets, at 50 with 20 packets per frame, have these windows of N, NL and W.
fn try_windows(
    rt: &impl Abort,
    alloc: Global,
    sent: &Sent,
    windows: [(WindowEnd, WindowEnd); 3],
) -> Result<(), AllocError> {
    let params = Params::of(&plain(), 20);
    let stamps = sent.stamps(alloc)?;
    for (kind, (lower, upper)) in KINDS.into_iter().zip(windows) {
        let window = window(rt, &params, kind, stamps.as_slice());
        same(rt, &window, &Window { lower, upper });
    }
    Ok(())
}

#[test]
fn window_plain(rt: HostRuntime) -> Result<(), Fail> {
    let windows = [
        (bound(764, 0), bound(8444, 8)),
        (bound(764, 0), bound(8004, 19)),
        (bound(764, 0), free(1_000_000)),
    ];
    try_windows(&rt, rt.alloc(), &PLAIN, windows)?;
    Ok(())
}

#[test]
fn window_linear(rt: HostRuntime) -> Result<(), Fail> {
    let sent = Sent {
        step: 1_000_000,
        ..PLAIN
    };
    let windows = [
        (bound(1524, 19), bound(8764, 8)),
        (bound(764, 0), bound(8764, 8)),
        (bound(764, 0), free(1_000_000)),
    ];
    try_windows(&rt, rt.alloc(), &sent, windows)?;
    Ok(())
}

// A packet a second late, and nine of them a nanosecond before their frame.
#[test]
fn no_window(rt: HostRuntime) {
    let params = Params::of(&plain(), 20);
    let late = window(&rt, &params, Kind::N, &[SECOND, SECOND + 1_000_960_001]);
    same(&rt, &late.lower, &WindowEnd::Absent);
    same(&rt, &late.upper, &free(1_000_000));
    let early = window(&rt, &params, Kind::NL, &[SECOND - 1; 9]);
    same(&rt, &early.lower, &free(0));
    same(&rt, &early.upper, &WindowEnd::Absent);
}

// The way in which a packet violates the buffer model.
#[derive(Clone, Copy)]
enum Fault {
    Empty,
    Over,
}

impl Fault {
    // The offset with which no packet does so, if there is one.
    fn mildest(self) -> u32 {
        match self {
            Fault::Empty => 1_000_000,
            Fault::Over => 0,
        }
    }

    // The next offset with which a packet may do so, if there is one.
    fn beyond(self, micros: u32) -> Option<u32> {
        match self {
            Fault::Empty => micros.checked_sub(1),
            Fault::Over if micros < 1_000_000 => Some(micros + 1),
            Fault::Over => None,
        }
    }
}

// A flow, with packets that are tried with single offsets.
#[derive(Clone, Copy)]
struct Flow<'a> {
    media: Media,
    params: Params,
    kind: Kind,
    n0: i128,
    stamps: &'a [u64],
}

impl Flow<'_> {
    // The numbers of the sender with this offset.
    fn with(&self, rt: &impl Abort, micros: u32) -> Params {
        assert!(rt; micros <= 1_000_000);
        let mut media = self.media;
        media.troff = Some(micros);
        Params::of(&media, self.params.n())
    }

    // The reads that are due at `at` with these numbers.
    fn due(&self, rt: &impl Abort, with: &Params, at: u64) -> Due {
        assert!(rt; self.n0 >= -480 && self.n0 <= 1 << 42);
        assert!(rt; at < 1 << 62);
        Schedule::new(with, self.kind == Kind::N, self.n0).advance(at)
    }

    // Whether packet i, which came at `at`, violates the buffer model with these numbers.
    fn is_broken(&self, rt: &impl Abort, with: &Params, fault: Fault, i: u64, at: u64) -> bool {
        assert!(rt; i < 1 << 41);
        let due = self.due(rt, with, at);
        match fault {
            Fault::Empty => due.count > i + 1 || due.count == i + 1 && !due.on_time,
            Fault::Over => (i + 1).saturating_sub(due.count) > self.params.vrx_full(self.kind),
        }
    }

    // The first packet that violates the buffer model with this offset.
    fn first_broken(&self, rt: &impl Abort, fault: Fault, micros: u32) -> Option<u64> {
        let with = self.with(rt, micros);
        let mut i = 0u64;
        for at in self.stamps {
            if self.is_broken(rt, &with, fault, i, *at) {
                return Some(i);
            }
            i = i.saturating_add(1);
        }
        None
    }

    // With the offset of an end no packet violates the buffer model; with the next one the packet that binds does.
    fn check_end(&self, rt: &impl Abort, fault: Fault, end: WindowEnd) {
        match end {
            WindowEnd::Absent => {
                let broken = self.first_broken(rt, fault, fault.mildest());
                assert!(rt; broken.is_some());
            }
            WindowEnd::At { micros, binding } => {
                same(rt, &self.first_broken(rt, fault, micros), &None);
                match fault.beyond(micros) {
                    None => same(rt, &binding, &None),
                    Some(other) => {
                        assert!(rt; binding.is_some());
                        same(rt, &self.first_broken(rt, fault, other), &binding);
                    }
                }
            }
        }
    }
}

// Compares the windows of a flow with offsets that are tried.
fn check_windows(rt: &impl Abort, media: &Media, n: u32, stamps: &[u64]) {
    assert!(rt; n >= 1 && n <= 262_144);
    let params = Params::of(media, n);
    for kind in KINDS {
        let window = window(rt, &params, kind, stamps);
        let flow = Flow {
            media: *media,
            params,
            kind,
            n0: anchor(rt, &params, stamps),
            stamps,
        };
        flow.check_end(rt, Fault::Empty, window.lower);
        flow.check_end(rt, Fault::Over, window.upper);
    }
}

// The plain sender, a linear one, bursts, packets exactly at their reads, and packets a nanosecond later.
#[test]
fn as_tried(rt: HostRuntime) -> Result<(), Fail> {
    let burst = |bunched: u64, at_once: u64| Sent {
        bunched,
        at_once,
        ..PLAIN
    };
    let rows = [
        PLAIN,
        Sent { groups: 1, ..PLAIN },
        Sent {
            step: 1_000_000,
            ..PLAIN
        },
        burst(0, 2),
        burst(0, 4),
        burst(0, 5),
        burst(1, 5),
        burst(0, 12),
        Sent {
            first: 700_000,
            ..PLAIN
        },
        Sent {
            first: 700_001,
            ..PLAIN
        },
    ];
    for sent in rows {
        let stamps = sent.stamps(rt.alloc())?;
        check_windows(&rt, &plain(), 20, stamps.as_slice());
        check_windows(&rt, &video(720, false, 50, 1), 20, stamps.as_slice());
    }
    Ok(())
}

// Fields of an interlaced video, with TROFF and without.
#[test]
fn fields_as_tried(rt: HostRuntime) -> Result<(), Fail> {
    let sent = Sent {
        first: 782_000,
        groups: 4,
        packets: 10,
        step: 1_920_000,
        ..PLAIN
    };
    let stamps = sent.stamps(rt.alloc())?;
    for height in [1080, 576, 480] {
        assert!(rt; height >= 1 && height <= 32767);
        let mut media = video(height, true, 25, 1);
        check_windows(&rt, &media, 10, stamps.as_slice());
        media.troff = Some(30_000);
        check_windows(&rt, &media, 10, stamps.as_slice());
    }
    Ok(())
}

// 1080p at 60000/1001 with 4,320 packets per frame, two frames from the one that begins at TAI second 1,601,600,000 on.
// Each packet comes 1,000 ns before its gapped read, rounded down, which is 4,500 reads after that of the frame before.
#[test]
fn usual_equipment(rt: HostRuntime) -> Result<(), Fail> {
    let mut stamps = Vec::new(rt.alloc());
    for packet in 0..8640u64 {
        let steps = 172 + packet / 4320 * 4500 + packet % 4320;
        stamps.push(1_601_600_000_000_000_000 + steps * 100_100_000 / 27_000 - 1_000)?;
    }
    check_windows(
        &rt,
        &video(1080, false, 60_000, 1001),
        4320,
        stamps.as_slice(),
    );
    Ok(())
}
