//! The writing of a whole capture to a sink.

ghost use Rattle.std.specs.Prelude.{ℕ, ◌≡◌, ◌≤◌, ◌+◌, ◌-◌, ◌*◌, nat_le, if◌then◌else◌, length};
ghost use Rattle.timing_outside.specs.Causes.{HasCause};
ghost use Rattle.timing_outside.specs.Written.{PutsAll};
ghost use Rattle.capture_gen.specs.Capture.{capture};
ghost use Rattle.capture_gen.specs.Writing.{frames_bytes};

use crate::flaw::Flaw;
use crate::frame::{Frame, head};
use pcap_reader::file_head;
use timing_outside::{Failed, Sink, put_all};

/// The size of the file header, in bytes.
const FILE_HEAD_LEN: u64 = 24;

/// The size of a packet record with its header, in bytes.
const RECORD_LEN: u64 = 72;

/// Returns the size of a capture of this many frames, in bytes: 24, and 72 for each packet. Flaws 3
/// and 4 leave out one packet.
pub fn capture_len(frames: u32, flaw: u32) -> u64
    requires some { 1 ≤ frames }
    requires few { frames ≤ 20000 }
    requires known { flaw ≤ 4 }

    ensures value { result ≡ 24 + 72 * (1 + 20 * frames) - (if nat_le 3 flaw then 72 else 0) }

    // The size doesn't depend on the number that the capture is made from.
    ensures counts { (number : ℕ) → length (capture number frames flaw) ≡ result }
{
    let left_out = if flaw >= 3 { 1 } else { 0 };
    FILE_HEAD_LEN + RECORD_LEN * (1 + 20 * u64::from(frames) - left_out)
}

/// Writes the packet records of all frames.
fn put_frames<K: Sink>(number: u64, frames: u32, flaw: Flaw, out: &mut K) -> Result<(), Failed>
    requires { frames ≤ 20000 }
    ensures bytes { PutsAll (K.written out.old) (K.written out.new) result
        (frames_bytes number frames flaw) }
    ensures cause { HasCause (K.faults out.old) (K.faults out.new) result }
{
    for index in 0..frames {
        let frame = Frame {
            number,
            flaw,
            index,
            last: index + 1 == frames,
        };
        frame.put(out)?;
    }
    Ok(())
}

/// Writes the capture made from this number: the file header, a packet that ends a frame before the
/// capture, and then `frames` frames of 20 packets.
///
/// - Capture timestamps: frame 0 starts 1,600,000,000 seconds plus `number` modulo 1,000,000
///   seconds after 1970, and each other frame 20 ms after the one before. The packet before frame 0
///   comes 1 ms before its start. Packet 0 of a frame comes 764,000 ns after the start of the
///   frame, and the others 960,000 ns apart.
/// - Packet numbers start with `number` and are modulo 2^32.
/// - RTP timestamps don't follow the capture timestamps. They are 0 before frame 0, and
///   `1800 * (k + 1)` in frame k.
/// - The packet before frame 0 and packet 19 of each frame have the marker.
///
/// The flaw is one of these:
///
/// - 0: none;
/// - 1: packets 1 to 4 of the last frame have the capture timestamp of its packet 0;
/// - 2: the packets of each frame come 1,000,000 ns apart;
/// - 3: packet 10 of the last frame is left out;
/// - 4: packet 19 of the last frame is left out, and packet 18 has the marker.
///
/// Returns `Err` if a write fails. Then a prefix that is shorter than the capture was written.
pub fn write_capture<K: Sink>(
    number: u64,
    frames: u32,
    flaw: u32,
    out: &mut K,
) -> Result<(), Failed>
    requires some { 1 ≤ frames }
    requires few { frames ≤ 20000 }
    requires known { flaw ≤ 4 }

    ensures bytes { PutsAll (K.written out.old) (K.written out.new) result
        (capture number frames flaw) }
    ensures cause { HasCause (K.faults out.old) (K.faults out.new) result }
{
    put_all(out, &file_head())?;
    put_all(out, &head(number).record())?;
    put_frames(number, frames, Flaw::of(flaw), out)
}
