//! The key by which packets are grouped into streams.

ghost use Rattle.std.specs.Prelude.{◌≡◌};
ghost use Rattle.capture_scan.specs.Scans.{stream_key};

use crate::packet::Packet;
use timing_base::Target;

/// A stream: the address and the port that its packets go to, and their SSRC.
#[derive(Clone, Copy, PartialEq, Eq, Hash)]
pub struct StreamKey {
    /// The destination address and port.
    pub target: Target,
    /// The synchronization source (RFC 3550, section 5.1).
    pub ssrc: u32,
}

impl StreamKey {
    /// Returns the stream of a packet.
    #[inline(always)]
    pub fn of(packet: &Packet) -> StreamKey
        ensures { result ≡ stream_key packet.now }
    {
        StreamKey {
            target: packet.target,
            ssrc: packet.rtp.ssrc,
        }
    }
}
