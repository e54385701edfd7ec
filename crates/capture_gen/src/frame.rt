//! The packets of a frame of video, and the packet before the first frame.

ghost use Rattle.std.specs.Prelude.{◌≡◌, ◌<◌, ◌+◌, ◌%◌, ◌^◌};
ghost use Rattle.timing_outside.specs.Causes.{HasCause};
ghost use Rattle.timing_outside.specs.Written.{PutsAll};
ghost use Rattle.capture_gen.specs.Capture.{start, head_packet};

use crate::flaw::Flaw;
use crate::packet::Packet;
use timing_outside::{Failed, Sink, put_all};

/// The number of packets in a complete frame.
const PACKETS: u32 = 20;

/// The time from a frame to the next, in nanoseconds.
const FRAME_NANOSECONDS: u64 = 20_000_000;

/// The time from the start of a frame to its first packet, in nanoseconds.
const FIRST_NANOSECONDS: u64 = 764_000;

/// The RTP timestamp's step from a frame to the next, in ticks of 90 kHz.
const FRAME_TICKS: u32 = 1800;

/// Returns the second in which frame 0 starts, in nanoseconds since 1970-01-01 00:00:00.
fn start(number: u64) -> u64
    ensures { result ≡ start number }
{
    (1_600_000_000 + number % 1_000_000) * 1_000_000_000
}

/// Returns the packet number of the packet `after` places behind the first of a capture.
fn packet_number(number: u64, after: u32) -> u32
    ensures { result ≡ (number + after) % 2 ^ 32 }
{
    let first = (number % (1 << 32)) as u32;
    first.wrapping_add(after)
}

/// Returns the first packet of the capture made from this number. It ends a frame before the
/// capture.
pub fn head(number: u64) -> Packet
    ensures { result ≡ head_packet number }
{
    Packet {
        at: start(number) - 1_000_000,
        timestamp: 0,
        marker: true,
        number: packet_number(number, 0),
    }
}

/// One frame of a capture.
#[derive(Clone, Copy, Debug)]
pub struct Frame {
    /// The number that the capture is made from.
    pub number: u64,
    /// The flaw of the capture.
    pub flaw: Flaw,
    /// The frame's place in the capture, counted from 0.
    pub index: u32,
    /// Whether it is the capture's last frame.
    pub last: bool,
}

impl Frame {
    ghost use Rattle.capture_gen.specs.Capture.{packet_of};
    ghost use Rattle.capture_gen.specs.Writing.{place_bytes, frame_bytes};

    /// Returns the packet at this place of the frame, counted from 0.
    fn packet(&self, place: u32) -> Packet
        requires early { self.now.index < 20000 }
        requires within { place < 20 }
        ensures { result ≡ packet_of self.now place }
    {
        let late = if self.flaw.is_bunched(self.last, place) {
            0
        } else {
            self.flaw.spacing() * u64::from(place)
        };
        Packet {
            at: start(self.number)
                + FRAME_NANOSECONDS * u64::from(self.index)
                + FIRST_NANOSECONDS
                + late,
            timestamp: FRAME_TICKS * (self.index + 1),
            marker: place == self.flaw.marked_place(self.last),
            number: packet_number(self.number, 1 + PACKETS * self.index + place),
        }
    }

    /// Writes the packet record of the packet at this place, unless the packet is left out. Returns
    /// `Err` if a write fails.
    fn put_place<K: Sink>(&self, place: u32, out: &mut K) -> Result<(), Failed>
        requires early { self.now.index < 20000 }
        requires within { place < 20 }
        ensures bytes { PutsAll (K.written out.old) (K.written out.new) result
            (place_bytes self.now place) }
        ensures cause { HasCause (K.faults out.old) (K.faults out.new) result }
    {
        if self.flaw.is_left_out(self.last, place) {
            return Ok(());
        }
        put_all(out, &self.packet(place).record())
    }

    /// Writes the packet records of the frame. Returns `Err` if a write fails.
    pub fn put<K: Sink>(&self, out: &mut K) -> Result<(), Failed>
        requires { self.now.index < 20000 }
        ensures bytes { PutsAll (K.written out.old) (K.written out.new) result
            (frame_bytes self.now) }
        ensures cause { HasCause (K.faults out.old) (K.faults out.new) result }
    {
        for place in 0..PACKETS {
            self.put_place(place, out)?;
        }
        Ok(())
    }
}
