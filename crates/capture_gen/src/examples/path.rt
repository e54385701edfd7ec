//! A capture of the plain packets on a second path.

ghost use Rattle.std.specs.Prelude.{◌<◌, ◌^◌};

use crate::examples::spread::{BEFORE, NARROW};
use crate::packet::Packet;
use pcap_reader::file_head;
use std::alloc::{AllocError, Global};

/// The number of plain packets without the last one.
const PACKETS: u8 = 40;

/// The place of the address's last byte in a packet record.
const ADDRESS_END: usize = 49;

/// Returns a plain packet, counted from 0 with the one before the frames.
fn plain_packet(number: u8) -> Packet
    ensures { result.at < 2 ^ 61 }
{
    match number.checked_sub(1) {
        None => BEFORE,
        Some(place) => NARROW.packet(place / NARROW.packets, place % NARROW.packets),
    }
}

/// Returns the delay of a packet on the second path, in nanoseconds.
fn lateness(number: u8) -> u64
    ensures { result < 1000 }
{
    if number == 4 { 900 } else { 150 }
}

/// Returns the capture of a second path: all plain packets except the last, sent to 239.0.0.2. Each
/// comes 150 ns later than on the first path, the packet with number 4 900 ns later. Returns `Err`
/// if memory runs out.
pub fn second_path(alloc: Global) -> Result<Vec<u8>, AllocError> {
    let mut out = Vec::from_slice(alloc, &file_head())?;
    for number in 0..PACKETS {
        let packet = plain_packet(number);
        let late = Packet {
            at: packet.at + lateness(number),
            ..packet
        };
        let mut record = late.record();
        record[ADDRESS_END] = 2;
        out.extend_from_slice(&record)?;
    }
    Ok(out)
}
