//! The packet before, and the faults that a packet has by comparison with it.

ghost use Rattle.std.specs.Prelude.{◌≡◌, ◌≤◌, ◌<◌, ◌^◌, ℕ, List, None, true, false, length};
ghost use Rattle.timing_base.specs.declared.packet.FlowPacket.{FlowPacket};
ghost use Rattle.timing_base.specs.declared.packet.PacketFault.TheVariants.{NoMarker, SameStamp};
ghost use Rattle.timing_base.specs.Flows.{cuts, fault_if, first_of, is_cut, is_second_source, lacks_marker, order_fault, repeats_timestamp};

use timing_base::{PacketFault, Rtp};

/// Maximum number of gaps in a flow.
const MOST_CUTS: u64 = 1024;

/// Data that the next packet is compared with: the packet before it, and the source of the flow's first packet.
#[derive(Clone, Copy, Debug, PartialEq, Eq)]
pub struct Before {
    /// Capture timestamp of the packet before, in nanoseconds, as the capture has it.
    pub at: u64,
    /// RTP header of the packet before.
    pub rtp: Rtp,
    /// SSRC of the flow's first packet.
    pub source: u32,
}

impl Before {
    ghost use Rattle.interval_checker.specs.Packets.{IsAfter, IsRead};

    /// Returns whether there is a gap before the next packet.
    pub fn is_cut(&self, rtp: Rtp) -> bool
        ensures { (packets : List FlowPacket) (i at : ℕ) → IsAfter packets i self.now
            → IsRead packets i at rtp → result ≡ is_cut packets i }
    {
        rtp.number != self.rtp.number.wrapping_add(1)
    }

    /// Returns whether the SSRC of the next packet isn't that of the flow's first.
    pub fn is_second_source(&self, rtp: Rtp) -> bool
        ensures { (packets : List FlowPacket) (i at : ℕ) → IsAfter packets i self.now
            → IsRead packets i at rtp → result ≡ is_second_source packets i }
    {
        rtp.ssrc != self.source
    }

    /// Returns the fault of the next packet by its RTP timestamp. There must be no gap before the packet.
    fn timestamp_fault(&self, rtp: Rtp) -> Option<PacketFault>
        ensures { (packets : List FlowPacket) (i at : ℕ) → IsAfter packets i self.now
            → IsRead packets i at rtp → is_cut packets i ≡ false
            → result ≡ first_of (fault_if (lacks_marker packets i) NoMarker)
            (fault_if (repeats_timestamp packets i) SameStamp) }
    {
        let is_same = rtp.timestamp == self.rtp.timestamp;
        if self.rtp.marker != is_same {
            return None;
        }
        Some(if is_same {
            PacketFault::SameStamp
        } else {
            PacketFault::NoMarker
        })
    }

    /// Returns the fault of the next packet by comparison with the packet before: one gap too many, a capture timestamp
    /// that goes back, or a frame or field that ends without the marker or goes on after it. `cut` is whether there is
    /// a gap before the packet, and `so_far` the number of gaps before.
    pub fn fault(&self, at: u64, rtp: Rtp, cut: bool, so_far: u64) -> Option<PacketFault>
        ensures is { (packets : List FlowPacket) (i : ℕ) → IsAfter packets i self.now
            → IsRead packets i at rtp → cut ≡ is_cut packets i → so_far ≡ length (cuts packets i)
            → result ≡ order_fault 1024 packets i }
        ensures few { result ≡ None → cut ≡ true → so_far < 1024 }
        ensures ordered { result ≡ None → self.now.at ≤ at }
    {
        if cut && so_far >= MOST_CUTS {
            return Some(PacketFault::Number {
                expected: self.rtp.number.wrapping_add(1),
                got: rtp.number,
            });
        }
        if at < self.at {
            return Some(PacketFault::StampBack {
                before: self.at,
                got: at,
            });
        }
        if cut {
            return None;
        }
        self.timestamp_fault(rtp)
    }
}
