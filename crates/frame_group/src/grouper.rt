//! The check of a flow's packets, one by one.

ghost use Rattle.std.specs.Prelude.{◌≡◌, ◌≤◌, ◌<◌, ◌+◌, ◌^◌, ◌++◌, ◌∷◌, [], ℕ, List, Ok, None, Some, true, false, length, IfOk, IfSome};
ghost use Rattle.std.specs.Option.{ForSome};
ghost use Rattle.timing_base.specs.declared.packet.FlowPacket.{FlowPacket};
ghost use Rattle.timing_base.specs.Flows.{cuts, fault, fault_if, first_fault, first_of, is_second_source, markers_before, order_fault};
ghost use Rattle.timing_base.specs.declared.packet.PacketFault.TheVariants.{SecondSource};
ghost use Rattle.frame_group.specs.Cuts.{answer_at, cut_at};
ghost use Rattle.frame_group.specs.Expected.{after, expected_after, going_on, last_number_of, next_packet};

use crate::before::Before;
use crate::group::Group;
use timing_base::{PacketFault, Rtp};

/// State of the check between two packets of a flow.
#[derive(Clone, Copy, Debug, PartialEq, Eq)]
pub struct Grouper {
    pt: u8,
    fed: u64,
    before: Option<Before>,
    cuts: u64,
    group: Option<Group>,
    /// First fault of the flow. If there is one, the other fields are unused, and `before` is `None`.
    fault: Option<PacketFault>,
    ghost sound: { ForSome before (λ _. fault ≡ None) },
    ghost few_cuts: { cuts ≤ fed },
    ghost few_groups: { ForSome group (λ g. g.frame < fed) },
}

impl Grouper {
    ghost use Rattle.frame_group.specs.Marks.{IsIn};
    ghost use Rattle.frame_group.specs.Reads.{GoesAfter, IsAfter, IsRead, after_number};
    ghost use Rattle.frame_group.specs.Stands.{count_fed, expected_of, Keeps, StandsFor};

    /// Returns the state before the first packet of a flow. `pt` is the payload type of its media.
    pub fn new(pt: u8) -> Grouper
        ensures fed { count_fed result ≡ 0 }
        ensures stands { StandsFor pt result [] }
    {
        Grouper {
            pt,
            fed: 0,
            before: None,
            cuts: 0,
            group: None,
            fault: None,
        }
    }

    /// Returns the packet number that was expected if there is a gap before the next packet, else `None`.
    #[inline(always)]
    fn cut(&self, rtp: Rtp) -> Option<u32>
        ensures { (packets : List FlowPacket) (i at : ℕ) → Keeps packets i self.now
            → IsRead packets i at rtp → result ≡ cut_at packets i }
    {
        match self.before {
            None => None,
            Some(before) => before.cut(rtp),
        }
    }

    /// Returns the fault of the next packet by the packets before it, if there are any.
    #[inline(always)]
    fn earlier_fault(&self, at: u64, rtp: Rtp, cut: Option<u32>) -> Option<PacketFault>
        ensures { (packets : List FlowPacket) (i : ℕ) → Keeps packets i self.now
            → IsRead packets i at rtp → cut ≡ cut_at packets i
            → result ≡ first_of (fault_if (is_second_source packets i) SecondSource)
            (order_fault 1024 packets i) }
    {
        match self.before {
            None => None,
            Some(before) => before.fault(at, rtp, cut, self.cuts),
        }
    }

    /// Returns the fault of the next packet. `cut` is the result of `cut`, and `group` that of `group_at`.
    #[inline(always)]
    fn fault_at(
        &self,
        at: u64,
        rtp: Rtp,
        cut: Option<u32>,
        group: Option<Group>,
    ) -> Option<PacketFault>
        ensures is { (packets : List FlowPacket) (i : ℕ) → Keeps packets i self.now
            → IsRead packets i at rtp → cut ≡ cut_at packets i
            → IsIn (markers_before packets i) i group
            → result ≡ fault packets self.now.pt i }
        ensures fits { result ≡ None → ForSome group (λ g. g.place < g.most) }
    {
        if rtp.pt != self.pt {
            return Some(PacketFault::PayloadType);
        }
        if let Some(fault) = self.earlier_fault(at, rtp, cut) {
            return Some(fault);
        }
        Group::fault_in(group, rtp.marker)
    }

    /// Returns the frame or field to which the next packet belongs; `None` at a gap, where a run begins.
    fn group_at(&self, cut: Option<u32>) -> Option<Group>
        ensures is { (packets : List FlowPacket) (i : ℕ) → Keeps packets i self.now
            → cut ≡ cut_at packets i → IsIn (markers_before packets i) i result }
        ensures few { ForSome result (λ g. g.frame < self.now.fed) }
    {
        match cut {
            Some(_) => None,
            None => self.group,
        }
    }

    /// Returns the data that the packet after the next one is compared with.
    fn before_later(&self, at: u64, rtp: Rtp) -> Before
        ensures { (packets : List FlowPacket) (i : ℕ) → Keeps packets i self.now
            → IsRead packets i at rtp → IsAfter packets (i + 1) result }
    {
        let source = match self.before {
            None => rtp.ssrc,
            Some(before) => before.source,
        };
        Before {
            at,
            number: rtp.number,
            timestamp: rtp.timestamp,
            marker: rtp.marker,
            source,
        }
    }

    /// Returns the number of gaps of the flow, with that of the next packet.
    fn cuts_with(&self, cut: Option<u32>) -> u64
        requires { self.now.fed < 2 ^ 41 }
        ensures are { (packets : List FlowPacket) (i : ℕ) → Keeps packets i self.now
            → cut ≡ cut_at packets i → result ≡ length (cuts packets (i + 1)) }
        ensures few { result ≤ self.now.fed + 1 }
    {
        match cut {
            Some(_) => self.cuts + 1,
            None => self.cuts,
        }
    }

    /// Takes the next packet, which has no fault. `cut` is the result of `cut`, and `group` that of `group_at`.
    fn pass(&mut self, at: u64, rtp: Rtp, cut: Option<u32>, group: Option<Group>)
        requires few { self.old.fed < 2 ^ 41 }
        requires fits { ForSome group (λ g. g.place < g.most) }
        requires few_groups { ForSome group (λ g. g.frame < self.old.fed) }
        requires sound { self.old.fault ≡ None }
        ensures keeps { (packets : List FlowPacket) (i : ℕ) → Keeps packets i self.old
            → IsRead packets i at rtp → cut ≡ cut_at packets i
            → IsIn (markers_before packets i) i group → Keeps packets (i + 1) self.new }
        ensures pt { self.new.pt ≡ self.old.pt }
        ensures fed { self.new.fed ≡ self.old.fed + 1 }
        ensures fault { self.new.fault ≡ self.old.fault }
    {
        let before = self.before_later(at, rtp);
        let cuts = self.cuts_with(cut);
        self.fed += 1;
        self.before = Some(before);
        self.cuts = cuts;
        self.group = Group::after_in(group, rtp.marker);
    }

    /// Returns whether the next packet continues a frame or field, with the RTP timestamp of the packet before and no
    /// marker, and has no fault, as most do.
    #[inline(always)]
    fn goes_on(&self, at: u64, rtp: Rtp) -> bool
        ensures cut { result ≡ true → (packets : List FlowPacket) (i stamp : ℕ)
            → Keeps packets i self.now → IsRead packets i stamp rtp → None ≡ cut_at packets i }
        ensures sound { result ≡ true → (packets : List FlowPacket) (i : ℕ)
            → Keeps packets i self.now → IsRead packets i at rtp
            → fault packets self.now.pt i ≡ None }
        ensures fits { result ≡ true → ForSome self.now.group (λ g. g.place < g.most) }
        ensures after { result ≡ true → GoesAfter self.now.before rtp }
        ensures fault { result ≡ true → self.now.fault ≡ None }
    {
        let Some(before) = self.before else {
            return false;
        };
        if self.group.is_none() {
            return false;
        }
        if before.marker || rtp.marker || rtp.timestamp != before.timestamp {
            return false;
        }
        if self.cut(rtp).is_some() {
            return false;
        }
        self.fault_at(at, rtp, None, self.group).is_none()
    }

    /// Takes the next packet, for which `goes_on` returned `true`.
    #[inline(always)]
    fn go_on(&mut self, at: u64, rtp: Rtp)
        requires few { self.old.fed < 2 ^ 41 }
        requires fits { ForSome self.old.group (λ g. g.place < g.most) }
        requires after { GoesAfter self.old.before rtp }
        ensures keeps { (packets : List FlowPacket) (i : ℕ) → Keeps packets i self.old
            → IsRead packets i at rtp → None ≡ cut_at packets i → Keeps packets (i + 1) self.new }
        ensures expects { expected_of self.new ≡ after_number rtp.number (expected_of self.old) }
        ensures pt { self.new.pt ≡ self.old.pt }
        ensures fed { self.new.fed ≡ self.old.fed + 1 }
        ensures fault { self.new.fault ≡ self.old.fault }
    {
        Before::go_on(&mut self.before, at, rtp);
        Group::go_on_in(&mut self.group);
        self.fed += 1;
    }

    /// Returns the next packet if it continues its frame or field, as most do: with the next packet number, the same
    /// RTP timestamp and no marker. Returns `None` before the first packet, after one with the marker, and after a
    /// fault.
    #[inline(always)]
    pub fn expected(&self) -> Option<Rtp>
        ensures follows { (pt : ℕ) (packets : List FlowPacket) → StandsFor pt self.now packets
            → result ≡ expected_after packets pt }
        ensures is { result ≡ expected_of self.now }
    {
        let Some(before) = self.before else {
            return None;
        };
        if before.marker {
            return None;
        }
        Some(Rtp {
            number: before.number.wrapping_add(1),
            timestamp: before.timestamp,
            marker: false,
            pt: self.pt,
            ssrc: before.source,
        })
    }

    /// Returns the packet number of the last packet, or `None` before the first packet and after a fault.
    #[inline(always)]
    pub fn last_number(&self) -> Option<u32>
        ensures { (pt : ℕ) (packets : List FlowPacket) → StandsFor pt self.now packets
            → first_fault packets pt ≡ None → result ≡ last_number_of packets }
    {
        match self.before {
            None => None,
            Some(before) => Some(before.number),
        }
    }

    /// Takes the next packet as [`Grouper::feed`] does if it continues a frame or field, with the RTP timestamp of the
    /// packet before and no marker, and has no fault, as most do. Returns whether it was taken; if not, nothing
    /// changes, and the caller passes the packet to `feed`. `at` is in nanoseconds.
    #[inline(always)]
    pub fn feed_on(&mut self, at: u64, rtp: Rtp) -> bool
        requires few { count_fed self.old < 2 ^ 41 }

        ensures other { result ≡ false → self.new ≡ self.old }
        ensures fed { result ≡ true → count_fed self.new ≡ count_fed self.old + 1 }
        ensures unmarked { result ≡ true → rtp.marker ≡ false }
        ensures next { result ≡ true → expected_of self.new ≡ after_number rtp.number (expected_of self.old) }

        // The packet has no gap before it and no fault, in every flow that begins with the packets fed and this one.
        ensures answer { result ≡ true → (pt : ℕ) (packets rest : List FlowPacket) (rec : ℕ)
            → StandsFor pt self.old packets → Ok None ≡ answer_at
            (packets ++ record { rec = rec; at = at; rtp = Ok rtp } ∷ rest) pt (length packets) }

        // The grouper was then fed the packets before and this one.
        ensures stands { result ≡ true → (pt : ℕ) (packets : List FlowPacket) (rec : ℕ)
            → StandsFor pt self.old packets
            → StandsFor pt self.new (packets ++ record { rec = rec; at = at; rtp = Ok rtp } ∷ []) }
    {
        if !self.goes_on(at, rtp) {
            return false;
        }
        self.go_on(at, rtp);
        true
    }

    /// Takes the packet that [`Grouper::expected`] returns, captured at `at` in nanoseconds, as [`Grouper::feed`] does,
    /// if it continues a frame or field and has no fault. Returns whether it was taken; if not, nothing changes.
    /// Returns `false` if no packet is expected.
    #[inline(always)]
    pub fn feed_expected(&mut self, at: u64) -> bool
        requires few { count_fed self.old < 2 ^ 41 }

        ensures other { result ≡ false → self.new ≡ self.old }
        ensures fed { result ≡ true → count_fed self.new ≡ count_fed self.old + 1 }
        ensures expects { result ≡ true → (pt : ℕ) (packets : List FlowPacket) → StandsFor pt self.old packets
            → expected_after packets pt ≡ Some (going_on packets pt (length packets)) }
        ensures next { result ≡ true → expected_of self.new ≡ after (expected_of self.old) }

        // The packet has no gap before it and no fault, in every flow that begins with the packets fed and this one.
        ensures answer { result ≡ true → (pt : ℕ) (packets rest : List FlowPacket) (rec : ℕ)
            → StandsFor pt self.old packets → Ok None ≡ answer_at
            (packets ++ next_packet packets pt rec at ∷ rest) pt (length packets) }

        // The grouper was then fed the packets before and the expected one.
        ensures stands { result ≡ true → (pt : ℕ) (packets : List FlowPacket) (rec : ℕ)
            → StandsFor pt self.old packets
            → StandsFor pt self.new (packets ++ next_packet packets pt rec at ∷ []) }
    {
        let Some(expected) = self.expected() else {
            return false;
        };
        self.feed_on(at, expected)
    }

    /// Takes the next packet of the flow, captured at `at` in nanoseconds. If there is a gap before it, returns the
    /// packet number that was expected. Returns `Err` with the packet's fault if it has one: the first in the order of
    /// [`PacketFault`]. After a fault, every later call returns the same fault.
    ///
    /// A packet that couldn't be parsed (`Short` or `Version`) must not be fed, nor any packet after it.
    pub fn feed(&mut self, at: u64, rtp: Rtp) -> Result<Option<u32>, PacketFault>
        requires few { count_fed self.old < 2 ^ 41 }

        ensures fed { count_fed self.new ≡ count_fed self.old + 1 }

        // The gap before the packet, or its fault, in every flow that begins with the packets fed and this one.
        ensures answer { (pt : ℕ) (packets rest : List FlowPacket) (rec : ℕ)
            → StandsFor pt self.old packets
            → result ≡ answer_at
            (packets ++ record { rec = rec; at = at; rtp = Ok rtp } ∷ rest) pt (length packets) }

        // The grouper was then fed the packets before and this one.
        ensures stands { (pt : ℕ) (packets : List FlowPacket) (rec : ℕ)
            → StandsFor pt self.old packets
            → StandsFor pt self.new (packets ++ record { rec = rec; at = at; rtp = Ok rtp } ∷ []) }
    {
        if let Some(fault) = self.fault {
            self.fed += 1;
            return Err(fault);
        }
        let cut = self.cut(rtp);
        let group = self.group_at(cut);
        if let Some(fault) = self.fault_at(at, rtp, cut, group) {
            self.fed += 1;
            self.before = None;
            self.fault = Some(fault);
            return Err(fault);
        }
        self.pass(at, rtp, cut, group);
        Ok(cut)
    }
}
