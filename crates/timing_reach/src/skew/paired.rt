//! One of two flows that are compared, and its packets in a capture.

ghost use Rattle.std.specs.Prelude.{◌≡◌, ◌∷◌, [], None, IfSome};
ghost use Rattle.std.specs.List.{cons_option};
ghost use Rattle.std.specs.Option.{ForSome};
ghost use Rattle.timing_base.specs.Captures.{IsStamp};
ghost use Rattle.timing_base.specs.Targets.{target_of};
ghost use Rattle.udp_rtp.specs.Flow.{flow_packet};
ghost use Rattle.timing_reach.specs.skew.Awaits.{AwaitsAt};

use timing_base::{FlowPacket, Media};
use udp_rtp::{Awaited, packet_of};

/// One of two flows that are compared.
#[derive(Drop)]
pub struct PairedFlow {
    /// The media of the flow.
    pub media: Media,
    /// Whether the flow is in the capture that is being read.
    pub is_here: bool,
    /// The packet that is expected next, as the bytes of a frame that carries it; or nothing.
    awaited: Awaited,
    ghost awaits: { AwaitsAt (target_of media) awaited },
}

impl PairedFlow {
    ghost use Rattle.timing_reach.specs.skew.Paired.{IsSameFlow, packets_in};

    /// Returns the flow without a packet, and without a capture that contains it.
    pub fn new(media: &Media) -> PairedFlow
        ensures { result.media ≡ media.now }
    {
        PairedFlow {
            media: *media,
            is_here: false,
            awaited: Awaited::nothing(),
        }
    }

    /// Returns the packet of the flow that is in this packet record, from its frame. The next expected packet is then
    /// the one after it.
    #[cold]
    #[inline(never)]
    fn read_packet(&mut self, number: u64, at: u64, frame: &[u8]) -> Option<FlowPacket>
        ensures same { IsSameFlow self.old self.new }
        ensures packet { result
            ≡ flow_packet self.old.media (record { number = number; stamp = at; bytes = frame.now }) }
    {
        let packet = packet_of(&self.media, number, at, frame);
        if let Some(FlowPacket { rtp: Ok(rtp), .. }) = packet {
            self.awaited = Awaited::after(self.media.target(), rtp);
        }
        packet
    }

    /// Returns the expected packet if the flow is in this capture and the frame carries it, without parsing the frame.
    /// Otherwise nothing changes.
    #[inline(always)]
    pub fn next_packet(&mut self, number: u64, at: u64, frame: &[u8]) -> Option<FlowPacket>
        requires stamp { IsStamp at }
        ensures same { IsSameFlow self.old self.new }
        ensures other { result ≡ None → self.new ≡ self.old }
        ensures packets { IfSome result (λ packet. packet ∷ []
            ≡ packets_in self.old (record { number = number; stamp = at; bytes = frame.now } ∷ [])) }
        ensures stamp { ForSome result (λ packet. IsStamp packet.at) }
    {
        if !self.is_here || !self.awaited.is_in(frame) {
            return None;
        }
        let packet = FlowPacket {
            rec: number,
            at,
            rtp: Ok(self.awaited.packet()),
        };
        self.awaited.go_on();
        Some(packet)
    }

    /// Returns the packet of the flow that is in this packet record, if the flow is in this capture. Most packets are
    /// the expected ones.
    #[inline(always)]
    pub fn packet_in(&mut self, number: u64, at: u64, frame: &[u8]) -> Option<FlowPacket>
        requires stamp { IsStamp at }
        ensures same { IsSameFlow self.old self.new }
        ensures packets { cons_option result []
            ≡ packets_in self.old (record { number = number; stamp = at; bytes = frame.now } ∷ []) }
        ensures stamp { ForSome result (λ packet. IsStamp packet.at) }
    {
        if !self.is_here {
            return None;
        }
        match self.next_packet(number, at, frame) {
            Some(packet) => Some(packet),
            None => self.read_packet(number, at, frame),
        }
    }
}
