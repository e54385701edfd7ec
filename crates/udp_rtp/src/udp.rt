//! UDP datagrams.

use std::marker::Model;
use timing_base::Target;

/// A UDP datagram over IPv4: where it goes and where it came from, its lengths, and its payload.
#[derive(Debug, Drop)]
pub struct Datagram<'a> {
    /// The destination address and port.
    pub target: Target,
    /// The source address and port.
    pub source: Target,
    /// The total length of IPv4, in bytes.
    pub length: u16,
    /// The bytes of payload by the UDP length, whether or not they were captured; 0 if the UDP
    /// length wasn't captured.
    pub stated: u16,
    /// The UDP payload, as far as it was captured.
    pub payload: &'a [u8],
}

impl<'a> Model for Datagram<'a> {
    ghost use Rattle.udp_rtp.specs.Frames.{Datagram as Seen};

    ghost Value = { Seen };

    ghost view = { λ d. record {
      target = d.target;
      source = d.source;
      length = d.length;
      stated = d.stated;
      payload = d.payload.now;
    } };
}
