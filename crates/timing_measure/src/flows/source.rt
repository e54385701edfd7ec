//! The SSRC of a flow.

ghost use Rattle.std.specs.Prelude.{◌≡◌, ◌++◌, ◌∷◌, [], List};
ghost use Rattle.timing_base.specs.declared.packet.FlowPacket.{FlowPacket as PacketValue};
ghost use Rattle.timing_measure.specs.Measured.{first_source};

use timing_base::FlowPacket;

/// Returns the SSRC so far; if no packet was read as RTP yet, that of this packet.
#[inline(always)]
pub fn source_with(before: Option<u32>, packet: &FlowPacket) -> Option<u32>
    ensures { (packets : List PacketValue) → before ≡ first_source packets
        → result ≡ first_source (packets ++ packet.now ∷ []) }
{
    match before {
        Some(source) => Some(source),
        None => match packet.rtp {
            Ok(rtp) => Some(rtp.ssrc),
            Err(_) => None,
        },
    }
}
