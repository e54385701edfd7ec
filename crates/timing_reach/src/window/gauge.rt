//! Measures the judged packets of a flow while it is read.

ghost use Rattle.std.specs.Prelude.{◌≡◌, ◌≤◌, ◌<◌, ◌+◌, ◌^◌, ◌++◌, ◌∷◌, [], ℕ, List, All, IfOk, length};
ghost use Rattle.timing_base.specs.Shifts.{Shift as ShiftValue};
ghost use Rattle.timing_base.specs.Captures.{IsStamp};
ghost use Rattle.timing_base.specs.Flows.{read_or_zeros};
ghost use Rattle.timing_base.specs.Media.{Media as MediaValue};
ghost use Rattle.fail_interval.specs.SoFar.{Groups, SoFar, groups_first, groups_next, outcome_of, so_far_next};

use crate::window::meters::WindowMeters;
use crate::window::windows::Windows;
use sender_params::Params;
use std::alloc::{AllocError as OutOfMemory, Global};
use timing_base::{FlowPacket, Media, Shift};

/// The greatest number of packets in a frame or field (this project's profile).
const MOST: usize = 262_144;

/// Returns whether a packet has the marker. A packet that wasn't read as RTP has none.
#[inline]
fn is_last_of_group(packet: &FlowPacket) -> bool
    ensures { result ≡ (read_or_zeros packet.now.rtp).marker }
{
    match packet.rtp {
        Ok(rtp) => rtp.marker,
        Err(_) => false,
    }
}

/// The packets of a first frame or field so far.
#[derive(Drop)]
struct FirstGroup {
    /// Their arrivals, in nanoseconds of TAI.
    stamps: Vec<u64>,
    ghost most: { length stamps.items ≤ 262144 },
    ghost early: { All (λ at. at < 2 ^ 62) stamps.items },
}

impl FirstGroup {
    ghost use Rattle.timing_reach.specs.window.Gauging.{HasPushed};

    /// Returns no packets.
    fn new(alloc: Global) -> FirstGroup
        ensures { result.stamps.items ≡ [] }
    {
        FirstGroup {
            stamps: Vec::new(alloc),
        }
    }

    /// Takes the next packet, and returns whether it did: it doesn't if there are `MOST` packets already. Returns `Err`
    /// if memory runs out.
    #[cold]
    #[inline(never)]
    fn push(&mut self, at: u64) -> Result<bool, OutOfMemory>
        requires { at < 2 ^ 62 }
        ensures { IfOk result (HasPushed at self.old.stamps.items self.new.stamps.items) }
    {
        if self.stamps.len() >= MOST {
            return Ok(false);
        }
        self.stamps.push(at)?;
        Ok(true)
    }
}

/// A flow with a whole frame or field.
#[derive(Clone, Copy)]
struct GroupGauge {
    params: Params,
    /// The meters, with all packets behind the first marker.
    meters: WindowMeters,
    /// The meters at the last marker.
    at_marker: WindowMeters,
}

impl GroupGauge {
    ghost use Rattle.timing_reach.specs.window.Gauging.{IsMetered, count_seen};

    /// Returns the gauge after the last packet of the first frame or field.
    #[cold]
    #[inline(never)]
    fn first(media: &Media, group: &FirstGroup) -> GroupGauge
        requires { 1 ≤ length group.now.stamps.items }
        ensures seen { count_seen result.meters ≡ length group.now.stamps.items }
        ensures stands { (head : ℕ)
            → IsMetered media.now result (groups_first head group.now.stamps.items) }
    {
        let params = Params::of(media, group.stamps.len() as u32);
        let meters = WindowMeters::of(&params, group.stamps.as_slice());
        GroupGauge {
            params,
            meters,
            at_marker: meters,
        }
    }

    /// Takes the next packet, which came at `at`, in nanoseconds of TAI.
    #[inline(always)]
    fn feed(&mut self, at: u64, marker: bool)
        requires in_time { at < 2 ^ 62 }
        requires few { count_seen self.old.meters < 2 ^ 40 }
        ensures seen { count_seen self.new.meters ≡ count_seen self.old.meters + 1 }
        ensures stands { (m : MediaValue) (so_far : Groups) → IsMetered m self.old so_far
            → IsMetered m self.new (groups_next so_far at marker) }
    {
        self.meters.feed(&self.params, at);
        if marker {
            self.at_marker = self.meters;
        }
    }
}

/// The part of a flow that is being measured.
#[derive(Drop)]
enum Part {
    /// No packet has had the marker yet.
    Head,
    /// The first frame or field isn't whole. Its size isn't known yet, so its arrivals are kept.
    First(FirstGroup),
    /// The first frame or field is whole.
    Groups(GroupGauge),
    /// The first frame or field has more than 262,144 packets, so that the flow isn't judged.
    TooLarge,
}

impl Part {
    ghost use Rattle.timing_reach.specs.window.Gauging.{AreWindowsIn, HasCome, count_kept};

    /// Takes the next packet, which came at `at`, in nanoseconds of TAI; `last` if it has the marker. Returns `Err` if
    /// memory runs out, which it can only for the arrivals of the first frame or field.
    #[inline(always)]
    fn feed(&mut self, alloc: Global, media: &Media, at: u64, last: bool) -> Result<(), OutOfMemory>
        requires in_time { at < 2 ^ 62 }
        requires few { count_kept self.old < 2 ^ 40 }
        ensures kept { IfOk result (λ _. count_kept self.new ≤ count_kept self.old + 1) }
        ensures comes { IfOk result (λ _. (so_far : SoFar) → HasCome media.now self.old so_far
            → HasCome media.now self.new (so_far_next so_far at last)) }
    {
        match self {
            Part::Groups(groups) => groups.feed(at, last),
            Part::First(group) => {
                if !group.push(at)? {
                    *self = Part::TooLarge;
                } else if last {
                    *self = Part::Groups(GroupGauge::first(media, group));
                }
            }
            Part::Head => {
                if last {
                    *self = Part::First(FirstGroup::new(alloc));
                }
            }
            Part::TooLarge => {}
        }
        Ok(())
    }

    /// Returns the windows of the packets up to the last marker, if the flow has a whole frame or field.
    fn windows(&self) -> Option<Windows>
        ensures { (m : MediaValue) (so_far : SoFar) → HasCome m self.now so_far
            → AreWindowsIn m (outcome_of so_far) result }
    {
        match self {
            Part::Groups(groups) => Some(groups.at_marker.finish()),
            Part::Head | Part::First(_) | Part::TooLarge => None,
        }
    }
}

/// The gauge of a flow, which is passed its packets in order.
#[derive(Drop)]
pub struct Gauge {
    alloc: Global,
    media: Media,
    /// The shift of every capture timestamp.
    shift: Shift,
    part: Part,
}

impl Gauge {
    ghost use Rattle.timing_base.specs.Judged.{run_outcome};
    ghost use Rattle.timing_reach.specs.window.Gauging.{AreWindowsIn, IsGauged, Passes, count_gauged};

    /// Returns the gauge of this media before the first packet, with the shift of every capture timestamp.
    pub fn new(alloc: Global, media: &Media, shift: Shift) -> Gauge
        ensures kept { count_gauged result ≡ 0 }
        ensures stands { IsGauged media.now shift result [] }
    {
        Gauge {
            alloc,
            media: *media,
            shift,
            part: Part::Head,
        }
    }

    /// Takes the next packet of the flow. Returns `Err` if memory runs out.
    #[inline(always)]
    pub fn pass(&mut self, packet: &FlowPacket) -> Result<(), OutOfMemory>
        requires stamp { IsStamp packet.now.at }
        requires few { count_gauged self.old < 2 ^ 40 }
        ensures kept { IfOk result (λ _. count_gauged self.new ≤ count_gauged self.old + 1) }
        ensures passes { IfOk result (λ _. Passes packet.now self.old self.new) }
    {
        let at = self.shift.stamp(packet.at);
        self.part
            .feed(self.alloc, &self.media, at, is_last_of_group(packet))
    }

    /// Returns the windows of the judged packets, if the flow ends here and has a whole frame or field.
    pub fn windows(&self) -> Option<Windows>
        ensures { (m : MediaValue) (shift : ShiftValue) (packets : List _) → IsGauged m shift self.now packets
            → AreWindowsIn m (run_outcome packets shift 0 (length packets)) result }
    {
        self.part.windows()
    }
}
