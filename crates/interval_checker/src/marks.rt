//! The markers of a run, and the faults that a packet has by them.

ghost use Rattle.std.specs.Prelude.{◌≡◌, ◌≤◌, ◌<◌, ◌+◌, ◌-◌, ◌++◌, ◌∷◌, [], ℕ, List, None};
ghost use Rattle.std.specs.Option.{ForSome};
ghost use Rattle.timing_base.specs.declared.packet.FlowPacket.{FlowPacket};
ghost use Rattle.timing_base.specs.Flows.{has_marker, markers_before, size_fault};
ghost use Rattle.timing_base.specs.Grouped.{IsSized};

use timing_base::PacketFault;

/// Maximum number of packets in a frame or field.
const MOST_IN_GROUP: u64 = 262_144;

/// Markers of a run that has at least one, by the positions of their packets in the flow, counted from 0.
#[derive(Clone, Copy, Debug, PartialEq, Eq)]
pub struct Marks {
    /// Packet with the first marker.
    pub first: u64,
    /// Packet with the last marker so far.
    pub last: u64,
    /// Packets per frame or field: those after the first marker up to the second. `None` if there is only one marker.
    pub size: Option<u32>,
    ghost order: { first ≤ last },
    ghost some: { ForSome size (λ n. 1 ≤ n) },
    ghost most: { ForSome size (λ n. n ≤ 262144) },
}

impl Marks {
    ghost use Rattle.interval_checker.specs.Markers.{AreMarks};

    /// Returns the markers of a run with its first marker at this packet.
    pub fn first(place: u64) -> Marks
        ensures is { AreMarks (place ∷ []) result }
        ensures first { result.first ≡ place }
        ensures last { result.last ≡ place }
    {
        Marks {
            first: place,
            last: place,
            size: None,
        }
    }

    /// Returns the fault of packet `place` by the size of its frame or field: it ends too early, or gets too large.
    pub fn fault(&self, place: u64, marker: bool) -> Option<PacketFault>
        ensures is { (packets : List FlowPacket) → AreMarks (markers_before packets place) self.now
            → IsSized place (markers_before packets place) → has_marker packets place ≡ marker
            → result ≡ size_fault 262144 packets place }
        ensures fits { result ≡ None → self.now.size ≡ None → place ≤ self.now.last + 262144 }
    {
        let got = place.saturating_sub(self.last);
        match self.size {
            None => {
                if got > MOST_IN_GROUP {
                    Some(PacketFault::FrameTooLarge)
                } else {
                    None
                }
            }
            Some(size) => other_size(size, got, marker),
        }
    }

    /// Returns the markers with one more, at a later packet.
    pub fn with(self, place: u64) -> Marks
        requires later { self.last < place }
        requires fits { self.size ≡ None → place ≤ self.last + 262144 }
        ensures is { (marks : List ℕ) → AreMarks marks self → AreMarks (marks ++ place ∷ []) result }
        ensures first { result.first ≡ self.first }
        ensures last { result.last ≡ place }
    {
        let size = match self.size {
            None => (place - self.last) as u32,
            Some(size) => size,
        };
        Marks {
            first: self.first,
            last: place,
            size: Some(size),
        }
    }
}

ghost use Rattle.std.specs.Prelude.{◌==◌, ◌&&◌, ◌||◌, nat_lt};
ghost use Rattle.timing_base.specs.Flows.{fault_if};
ghost use Rattle.timing_base.specs.declared.packet.PacketFault.TheVariants.{FrameSize};

/// Returns the fault of packet `got` of a frame or field, counted from 1, if frames or fields have `size` packets.
fn other_size(size: u32, got: u64, marker: bool) -> Option<PacketFault>
    requires { size ≤ 262144 }
    ensures { result ≡ fault_if ((marker && nat_lt got size) || (got == size + 1)) (FrameSize size got) }
{
    let want = u64::from(size);
    if got > want + 1 || (got <= want && !(marker && got < want)) {
        return None;
    }
    Some(PacketFault::FrameSize {
        want: size,
        got: got as u32,
    })
}
