//! The packet before, and the faults that a packet has by comparison with it.

ghost use Rattle.std.specs.Prelude.{◌≡◌, ◌≤◌, ◌<◌, ◌+◌, ◌^◌, ℕ, List, false, length};
ghost use Rattle.timing_base.specs.declared.packet.FlowPacket.{FlowPacket};
ghost use Rattle.timing_base.specs.declared.packet.PacketFault.TheVariants.{SecondSource, NoMarker, SameStamp};
ghost use Rattle.timing_base.specs.Flows.{cuts, fault_if, first_of, is_cut, is_second_source, lacks_marker, order_fault, repeats_timestamp};
ghost use Rattle.frame_group.specs.Cuts.{cut_at};

use timing_base::{PacketFault, Rtp};

/// Maximum number of gaps in a flow.
const MOST_CUTS: u64 = 1024;

/// Data that the next packet is compared with: the packet before it, and the source of the flow's first packet.
#[derive(Clone, Copy, Debug, PartialEq, Eq)]
pub struct Before {
    /// Capture timestamp of the packet before, in nanoseconds.
    pub at: u64,
    /// Packet number of the packet before.
    pub number: u32,
    /// SSRC of the flow's first packet.
    // It stands right before `timestamp`, so that both are read from memory as one number.
    pub source: u32,
    /// RTP timestamp of the packet before, in ticks of 90 kHz.
    pub timestamp: u32,
    /// RTP marker of the packet before.
    pub marker: bool,
}

impl Before {
    ghost use Rattle.frame_group.specs.Reads.{IsRead, IsAfter, ComesAfter, GoesAfter, after_number, expected_by};

    /// Replaces the packet before by the next one, which continues its frame or field.
    #[inline(always)]
    pub fn go_on(before: &mut Option<Before>, at: u64, rtp: Rtp)
        requires { GoesAfter before.old rtp }
        ensures comes { (packets : List FlowPacket) (i : ℕ) → ComesAfter packets i before.old
            → IsRead packets i at rtp → ComesAfter packets (i + 1) before.new }
        ensures expects { (pt : ℕ) → expected_by pt before.new ≡ after_number rtp.number (expected_by pt before.old) }
    {
        if let Some(before) = before {
            before.at = at;
            before.number = rtp.number;
        }
    }

    /// Returns the packet number that was expected if there is a gap before the next packet, else `None`.
    #[inline(always)]
    pub fn cut(&self, rtp: Rtp) -> Option<u32>
        ensures { (packets : List FlowPacket) (i at : ℕ) → IsAfter packets i self.now
            → IsRead packets i at rtp → result ≡ cut_at packets i }
    {
        let expected = self.number.wrapping_add(1);
        if rtp.number == expected {
            None
        } else {
            Some(expected)
        }
    }

    /// Returns whether the SSRC of the next packet isn't that of the flow's first.
    #[inline(always)]
    fn is_second_source(&self, rtp: Rtp) -> bool
        ensures { (packets : List FlowPacket) (i at : ℕ) → IsAfter packets i self.now
            → IsRead packets i at rtp → result ≡ is_second_source packets i }
    {
        rtp.ssrc != self.source
    }

    /// Returns the fault of the next packet by its RTP timestamp. There must be no gap before the packet.
    #[inline(always)]
    fn timestamp_fault(&self, rtp: Rtp) -> Option<PacketFault>
        ensures { (packets : List FlowPacket) (i at : ℕ) → IsAfter packets i self.now
            → IsRead packets i at rtp → is_cut packets i ≡ false
            → result ≡ first_of (fault_if (lacks_marker packets i) NoMarker)
            (fault_if (repeats_timestamp packets i) SameStamp) }
    {
        let is_same = rtp.timestamp == self.timestamp;
        if self.marker != is_same {
            return None;
        }
        Some(if is_same {
            PacketFault::SameStamp
        } else {
            PacketFault::NoMarker
        })
    }

    /// Returns the fault of the next packet by comparison with the packet before: one gap too many, a capture timestamp
    /// that goes back, or a frame or field that ends without the marker or goes on after it. `cut` is the result of
    /// [`Before::cut`], and `so_far` the number of gaps before.
    #[inline(always)]
    fn order_fault(&self, at: u64, rtp: Rtp, cut: Option<u32>, so_far: u64) -> Option<PacketFault>
        ensures { (packets : List FlowPacket) (i : ℕ) → IsAfter packets i self.now
            → IsRead packets i at rtp → cut ≡ cut_at packets i → so_far ≡ length (cuts packets i)
            → result ≡ order_fault 1024 packets i }
    {
        match cut {
            Some(expected) if so_far >= MOST_CUTS => Some(PacketFault::Number {
                expected,
                got: rtp.number,
            }),
            _ if at < self.at => Some(PacketFault::StampBack {
                before: self.at,
                got: at,
            }),
            Some(_) => None,
            None => self.timestamp_fault(rtp),
        }
    }

    /// Returns the fault of the next packet by the packets before it: a second source, or a fault by comparison with
    /// the packet before. `cut` is the result of [`Before::cut`], and `so_far` the number of gaps before.
    #[inline(always)]
    pub fn fault(&self, at: u64, rtp: Rtp, cut: Option<u32>, so_far: u64) -> Option<PacketFault>
        ensures { (packets : List FlowPacket) (i : ℕ) → IsAfter packets i self.now
            → IsRead packets i at rtp → cut ≡ cut_at packets i → so_far ≡ length (cuts packets i)
            → result ≡ first_of (fault_if (is_second_source packets i) SecondSource)
            (order_fault 1024 packets i) }
    {
        if self.is_second_source(rtp) {
            return Some(PacketFault::SecondSource);
        }
        self.order_fault(at, rtp, cut, so_far)
    }
}
