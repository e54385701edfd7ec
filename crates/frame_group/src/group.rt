//! The frame or field to which the next packet of a run belongs, if a marker came before it.

ghost use Rattle.std.specs.Prelude.{◌≡◌, ◌≤◌, ◌<◌, ◌+◌, ◌^◌, ◌++◌, ◌∷◌, [], ℕ, List, None, true, false};
ghost use Rattle.std.specs.Option.{ForSome};
ghost use Rattle.timing_base.specs.declared.packet.FlowPacket.{FlowPacket};
ghost use Rattle.timing_base.specs.Flows.{has_marker, markers_before, size_fault};

use timing_base::PacketFault;

/// Maximum number of packets in a frame or field.
const MOST_IN_GROUP: u32 = 262_144;

/// State of a frame or field before one of its packets.
#[derive(Clone, Copy, Debug, PartialEq, Eq)]
pub struct Group {
    /// Frames or fields before it in its run, without the head.
    pub frame: u64,
    /// Packets that it has so far.
    pub place: u32,
    /// Maximum number of its packets: that of the first frame or field of the run; for the first itself, 262,144.
    pub most: u32,
    ghost within: { place ≤ most },
    ghost few: { most ≤ 262144 },
}

impl Group {
    ghost use Rattle.frame_group.specs.Marks.{IsGroup, IsIn};

    /// Returns the first frame or field of a run, after the marker that ends the head.
    fn first() -> Group
        ensures is { (i : ℕ) → IsGroup (i ∷ []) (i + 1) result }
        ensures frame { result.frame ≡ 0 }
    {
        Group {
            frame: 0,
            place: 0,
            most: MOST_IN_GROUP,
        }
    }

    /// Returns the fault of the next packet by the size of its frame or field: it isn't that of the first one, or the
    /// first one gets too large. `last` is the marker of the packet.
    #[inline(always)]
    fn fault(&self, last: bool) -> Option<PacketFault>
        ensures is { (packets : List FlowPacket) (i : ℕ)
            → IsGroup (markers_before packets i) i self.now → has_marker packets i ≡ last
            → result ≡ size_fault 262144 packets i }
        ensures fits { result ≡ None → self.now.place < self.now.most }
    {
        let got = self.place + 1;
        if self.frame == 0 {
            return if got > self.most {
                Some(PacketFault::FrameTooLarge)
            } else {
                None
            };
        }
        if got > self.most || (last && got < self.most) {
            return Some(PacketFault::FrameSize {
                want: self.most,
                got,
            });
        }
        None
    }

    /// Returns the state after the next packet. `last` is the marker of the packet.
    fn after(self, last: bool) -> Group
        requires fits { self.place < self.most }
        requires few { self.frame < 2 ^ 62 }
        ensures last { (marks : List ℕ) (i : ℕ) → IsGroup marks i self → last ≡ true
            → IsGroup (marks ++ i ∷ []) (i + 1) result }
        ensures other { (marks : List ℕ) (i : ℕ) → IsGroup marks i self → last ≡ false
            → IsGroup marks (i + 1) result }
        ensures frame { result.frame ≤ self.frame + 1 }
    {
        let size = self.place + 1;
        if !last {
            return Group {
                frame: self.frame,
                place: size,
                most: self.most,
            };
        }
        Group {
            frame: self.frame + 1,
            place: 0,
            most: if self.frame == 0 { size } else { self.most },
        }
    }

    /// Counts the next packet, which isn't the last of its frame or field.
    #[inline(always)]
    pub fn go_on_in(group: &mut Option<Group>)
        requires fits { ForSome group.old (λ g. g.place < g.most) }
        ensures is { (marks : List ℕ) (i : ℕ) → IsIn marks i group.old → IsIn marks (i + 1) group.new }
        ensures frame { (n : ℕ) → ForSome group.old (λ g. g.frame < n)
            → ForSome group.new (λ g. g.frame < n + 1) }
    {
        if let Some(group) = group {
            group.place += 1;
        }
    }

    /// Returns the fault of the next packet by the size of its frame or field; `None` before the first marker of a run.
    #[inline(always)]
    pub fn fault_in(group: Option<Group>, last: bool) -> Option<PacketFault>
        ensures is { (packets : List FlowPacket) (i : ℕ)
            → IsIn (markers_before packets i) i group → has_marker packets i ≡ last
            → result ≡ size_fault 262144 packets i }
        ensures fits { result ≡ None → ForSome group (λ g. g.place < g.most) }
    {
        match group {
            None => None,
            Some(group) => group.fault(last),
        }
    }

    /// Returns the state after the next packet. It is `None` before the first marker of a run.
    pub fn after_in(group: Option<Group>, last: bool) -> Option<Group>
        requires fits { ForSome group (λ g. g.place < g.most) }
        requires few { ForSome group (λ g. g.frame < 2 ^ 62) }
        ensures last { (marks : List ℕ) (i : ℕ) → IsIn marks i group → last ≡ true
            → IsIn (marks ++ i ∷ []) (i + 1) result }
        ensures other { (marks : List ℕ) (i : ℕ) → IsIn marks i group → last ≡ false
            → IsIn marks (i + 1) result }
        ensures frame { (n : ℕ) → ForSome group (λ g. g.frame < n)
            → ForSome result (λ g. g.frame < n + 1) }
    {
        match group {
            None if last => Some(Group::first()),
            None => None,
            Some(group) => Some(group.after(last)),
        }
    }
}
