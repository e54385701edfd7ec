//! Lets the judged packets of a kept flow leave as planned, and makes the output.

ghost use Rattle.std.specs.Prelude.{◌≡◌, ◌≤◌, ◌^◌, [], List, All, IfOk, false, length, true};
ghost use Rattle.timing_base.specs.Captures.{IsStamp};
ghost use Rattle.timing_steps.specs.Queries.{judged_ends};
ghost use Rattle.timing_reach.specs.Shapes.{HasShape};
ghost use Rattle.timing_reach.specs.shape.Leaving.{HasLet, IsFit, Part, count_left};
ghost use Rattle.timing_reach.specs.shape.Shaping.{CanShape, Departs, IsShapeOf, ListsSo, in_tai};
ghost use Rattle.timing_reach.specs.shape.Walking.{CanSkip, CanWalk};
ghost use Rattle.timing_reach.specs.declared.shape.kept.Kept.TheVariants.{Capture, Stamps};

use crate::shape::delays::Delays;
use crate::shape::kept::Kept;
use crate::shape::leaver::Leaver;
use crate::shape::walk::Walk;
use crate::shape::words::not_shaped;
use flow_shaper::Late;
use std::alloc::{AllocError as OutOfMemory, Global};
use timing_base::{Judged, Kind, Media, Shift};
use timing_report::Status;
use timing_steps::Answer;

/// Returns the answer with the list of the delayed packets. `stamps` are the capture timestamps of the judged packets
/// in nanoseconds, as they stand in the capture.
fn list_delays(alloc: Global, mut leaver: Leaver, stamps: &[u64]) -> Result<Answer, OutOfMemory>
    requires none { count_left leaver ≡ 0 }
    requires stamps { All IsStamp stamps.now }
    requires few { length stamps.now ≤ 2 ^ 41 }
    ensures ends { IfOk result (λ answer. judged_ends false answer.status ≡ true) }
    ensures lists { IfOk result (λ answer. (w : Part) → HasLet w leaver [] []
        → IsFit w.origin (in_tai w.shift stamps.now)
        → ListsSo w (in_tai w.shift stamps.now) answer) }
{
    let mut delays = Delays::new(alloc);
    for (packet, at) in stamps.iter().enumerate() {
        match leaver.leave(*at) {
            Ok(departure) => {
                let delay = leaver.delay(*at, departure.at);
                delays.add(packet as u64, delay, departure.bound)?;
            }
            Err(late) => return not_shaped(alloc, late.packet),
        }
    }
    delays.finish(stamps.len() as u64)
}

/// Lets the next `count` packets of a capture leave, and returns the capture timestamp of the last one, in nanoseconds.
/// Returns `Err` with the first packet that can't leave in time.
fn depart(walk: &mut Walk, mut leaver: Leaver, count: u64) -> Result<u64, Late>
    requires none { count_left leaver ≡ 0 }
    requires few { count ≤ 2 ^ 41 }
    requires can { CanSkip count walk.old }
    ensures stamp { IfOk result IsStamp }
    ensures can { IfOk result (λ _. CanWalk walk.new) }
    ensures departs { Departs count leaver walk.old walk.new result }
{
    let mut left = 0;
    for _ in 0..count {
        let departure = leaver.leave(walk.stamp())?;
        left = leaver.captured(departure.at);
        walk.restamp(left);
        walk.pass();
    }
    Ok(left)
}

/// Returns the list of the delayed packets of a flow that was judged with this result, from the capture timestamps of
/// its packets.
fn shape_list(
    alloc: Global,
    media: &Media,
    kind: Kind,
    shift: Shift,
    judged: &Judged,
    stamps: Vec<u64>,
) -> Result<Answer, OutOfMemory>
    requires { CanShape media.now shift judged.now (Stamps stamps) }
    ensures ends { IfOk result (λ answer. judged_ends false answer.status ≡ true) }
    ensures shape { IfOk result (λ answer. IsShapeOf media.now kind shift judged.now (Stamps stamps) answer) }
{
    let head = judged.head as usize;
    let judged_stamps = &stamps[head..head + judged.packets as usize];
    let leaver = Leaver::new(media, judged, kind, judged_stamps[0], shift);
    list_delays(alloc, leaver, judged_stamps)
}

/// Returns the capture of a flow that was judged with this result, from its packets as the bytes of a capture.
fn shape_capture(
    alloc: Global,
    media: &Media,
    kind: Kind,
    shift: Shift,
    judged: &Judged,
    bytes: Vec<u8>,
) -> Result<Answer, OutOfMemory>
    requires { CanShape media.now shift judged.now (Capture bytes) }
    ensures ends { IfOk result (λ answer. judged_ends false answer.status ≡ true) }
    ensures shape { IfOk result (λ answer. IsShapeOf media.now kind shift judged.now (Capture bytes) answer) }
{
    let mut walk = Walk::new(bytes);
    walk.skip(judged.head);
    let leaver = Leaver::new(media, judged, kind, walk.stamp(), shift);
    match depart(&mut walk, leaver, judged.packets) {
        Ok(left) => walk.hold_back(left),
        Err(late) => return not_shaped(alloc, late.packet),
    }
    Ok(Answer {
        text: walk.bytes,
        status: Status::Pass,
    })
}

/// Returns the answer for a flow that was judged with this result, from its packets. Returns `Err` if memory runs out.
pub fn shape_kept(
    alloc: Global,
    media: &Media,
    kind: Kind,
    shift: Shift,
    judged: &Judged,
    packets: Kept,
) -> Result<Answer, OutOfMemory>
    requires { CanShape media.now shift judged.now packets }
    ensures ends { IfOk result (λ answer. judged_ends false answer.status ≡ true) }
    ensures shape { IfOk result (λ answer. IsShapeOf media.now kind shift judged.now packets answer) }
{
    match packets {
        Kept::Stamps(stamps) => shape_list(alloc, media, kind, shift, judged, stamps),
        Kept::Capture(bytes) => shape_capture(alloc, media, kind, shift, judged, bytes),
    }
}
