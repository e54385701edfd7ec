//! A capture as usual equipment sends it.

ghost use Rattle.std.specs.Prelude.{◌≡◌, ◌<◌, ◌≤◌, ◌+◌, ◌*◌, ◌^◌};

use crate::packet::Packet;
use pcap_reader::file_head;
use std::alloc::{AllocError, Global};

/// The number of packets in each frame.
const PACKETS: u32 = 4320;

/// The capture timestamp that packet 0 of the first frame would have if read 0 were due at the
/// start of the frame: 1 microsecond before second 1,601,600,000 of TAI, by a clock that is 37 s
/// behind.
const START: u64 = 1_601_600_000_000_000_000 - 37_000_000_000 - 1_000;

/// Returns the time from the start to a read, in nanoseconds. A frame of 1,001 / 60,000 s has 4,500
/// read instants, including those without a packet.
fn read_nanos(read: u32) -> u64
    requires { read ≤ 9000 }
    ensures { result < 2 ^ 30 }
{
    u64::from(read) * 100_100_000 / 27_000
}

/// Returns a packet of frame 0 or 1, counted from 0 in its frame.
fn packet(frame: u32, place: u32) -> Packet
    requires early { frame ≤ 1 }
    requires within { place < 4320 }
    ensures { result.at < 2 ^ 32 * 1000000000 }
{
    Packet {
        at: START + read_nanos(4500 * frame + 172 + place),
        timestamp: 1501 * (frame + 1),
        marker: place + 1 == PACKETS,
        number: 1 + PACKETS * frame + place,
    }
}

/// Appends the packet records of a frame. Returns `Err` if memory runs out.
fn add_frame(out: &mut Vec<u8>, frame: u32) -> Result<(), AllocError>
    requires { frame ≤ 1 }
{
    for place in 0..PACKETS {
        out.extend_from_slice(&packet(frame, place).record())?;
    }
    Ok(())
}

/// Returns a capture of two frames of 4,320 packets at 60000/1001 frames per second, after a packet
/// with the marker. The capture timestamps are 37 s behind TAI, and each packet comes 1,000 ns
/// before its gapped read. Returns `Err` if memory runs out.
pub fn usual_equipment(alloc: Global) -> Result<Vec<u8>, AllocError> {
    let mut out = Vec::from_slice(alloc, &file_head())?;
    let head = Packet {
        at: START + read_nanos(172) - 1_000_000,
        timestamp: 0,
        marker: true,
        number: 0,
    };
    out.extend_from_slice(&head.record())?;
    add_frame(&mut out, 0)?;
    add_frame(&mut out, 1)?;
    Ok(out)
}
