//! The packets of a media's flow.

ghost use Rattle.std.specs.Prelude.{◌≡◌};
ghost use Rattle.udp_rtp.specs.Flow.{flow_packet};

use crate::frame::datagram;
use crate::rtp::read_rtp;
use timing_base::{FlowPacket, Media};

/// Returns the packet of a media's flow in an Ethernet frame, or `None` if the frame's target isn't
/// that of the media.
///
/// `rec` is the number of the packet record, counted from 1, and `at` its capture timestamp in
/// nanoseconds.
pub fn packet_of(media: &Media, rec: u64, at: u64, frame: &[u8]) -> Option<FlowPacket>
    ensures { result
        ≡ flow_packet media.now (record { number = rec; stamp = at; bytes = frame.now }) }
{
    let datagram = datagram(frame)?;
    if datagram.target != media.target() {
        return None;
    }
    Some(FlowPacket {
        rec,
        at,
        rtp: read_rtp(datagram.payload),
    })
}
