//! The packet numbers of a flow.

ghost use Rattle.std.specs.Prelude.{◌≡◌, None};
ghost use Rattle.timing_base.specs.Numbered.{counted};
ghost use Rattle.interval_checker.specs.Numbers.{next_last, next_packet};

use timing_base::{FlowPacket, Rtp};

/// Numbering of the packets of a flow: by the numbers in their bytes, or counted on by RTP sequence numbers alone.
#[derive(Clone, Copy, Debug, PartialEq, Eq)]
pub struct Numbers {
    /// Whether packets are numbered by their RTP sequence numbers alone.
    seq16: bool,
    /// The counted number of the last packet that was read, if packets are counted.
    last: Option<u32>,
}

impl Numbers {
    /// Returns the numbering before the first packet.
    pub fn new(seq16: bool) -> Numbers
        ensures seq16 { result.seq16 ≡ seq16 }
        ensures last { result.last ≡ None }
    {
        Numbers { seq16, last: None }
    }

    /// Returns the next packet of the flow with its number. A packet that couldn't be read has none.
    #[inline]
    pub fn number(&mut self, packet: FlowPacket) -> FlowPacket
        ensures at { result.at ≡ packet.at }
        ensures number { result ≡ next_packet self.old.seq16 self.old.last packet }
        ensures seq16 { self.new.seq16 ≡ self.old.seq16 }
        ensures last { self.new.last ≡ next_last self.old.seq16 self.old.last packet }
    {
        if !self.seq16 {
            return packet;
        }
        match packet.rtp {
            Err(_) => packet,
            Ok(rtp) => {
                let number = counted(self.last, rtp.number);
                self.last = Some(number);
                FlowPacket {
                    rec: packet.rec,
                    at: packet.at,
                    rtp: Ok(Rtp { number, ..rtp }),
                }
            }
        }
    }
}

/// Returns the number of a packet, counted on from that of the last packet by the RTP sequence number, which is the
/// lower half of `number`.
fn counted(last: Option<u32>, number: u32) -> u32
    ensures { result ≡ counted last number }
{
    let sequence = number % 65_536;
    match last {
        None => sequence,
        Some(last) => last.wrapping_add((sequence + 65_536 - last % 65_536) % 65_536),
    }
}
