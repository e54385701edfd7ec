//! The numbers by which the packets of a flow are judged.

ghost use Rattle.std.specs.Prelude.{◌≡◌, ◌<◌, ◌^◌};
ghost use Rattle.timing_base.specs.Numbered.{counted};
ghost use Rattle.frame_group.specs.Expected.{raise_of, with_number};

use timing_base::Rtp;

/// RTP sequence numbers: 0 to 65,535.
const SEQUENCE_NUMBERS: u32 = 0x1_0000;

/// The numbering of a flow's packets: as in their bytes, or counted by their sequence numbers alone.
#[derive(Clone, Copy, Debug, PartialEq, Eq)]
pub struct Counting {
    /// Whether the numbers are counted.
    pub seq16: bool,
    /// What the judged number of the last packet is above that in its bytes, modulo 2^32; 0 if numbers aren't counted.
    raise: u32,
    ghost few: { raise < 2 ^ 32 },
}

impl Counting {
    ghost use Rattle.fail_interval.specs.Counting.{own_of};

    /// Returns the numbering before the first packet.
    pub fn new(seq16: bool) -> Counting
        ensures seq16 { result.seq16 ≡ seq16 }
        ensures raise { result.raise ≡ 0 }
    {
        Counting { seq16, raise: 0 }
    }

    /// Returns the next packet with its counted number. `last` is the counted number of the packet before.
    pub fn count(&mut self, last: Option<u32>, rtp: Rtp) -> Rtp
        ensures seq16 { self.new.seq16 ≡ self.old.seq16 }
        ensures counted { result ≡ with_number (counted last rtp.number) rtp }
        ensures raise { self.new.raise ≡ raise_of result.number rtp.number }
        ensures few { rtp.number < 2 ^ 32 }
    {
        let number = counted(last, rtp.number);
        self.raise = number.wrapping_sub(rtp.number);
        renumbered(rtp, number)
    }

    /// Returns a packet with this judged number as it stands in the bytes of its frame.
    #[inline(always)]
    pub fn own(&self, rtp: Rtp) -> Rtp
        ensures { result ≡ own_of self.now rtp }
    {
        renumbered(rtp, rtp.number.wrapping_sub(self.raise))
    }
}

/// Returns the counted number of a packet with this number in its bytes. `last` is the counted number of the packet
/// before.
fn counted(last: Option<u32>, number: u32) -> u32
    ensures { result ≡ counted last number }
{
    match last {
        None => number % SEQUENCE_NUMBERS,
        Some(last) => last.wrapping_add(number.wrapping_sub(last) % SEQUENCE_NUMBERS),
    }
}

/// Returns the packet with this number.
#[inline(always)]
fn renumbered(rtp: Rtp, number: u32) -> Rtp
    ensures { result ≡ with_number number rtp }
{
    Rtp {
        number,
        timestamp: rtp.timestamp,
        marker: rtp.marker,
        pt: rtp.pt,
        ssrc: rtp.ssrc,
    }
}
