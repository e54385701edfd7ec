//! Captures by the spacing of their packets.

ghost use Rattle.std.specs.Prelude.{◌≡◌, ◌<◌, ◌*◌, ◌^◌};

use crate::packet::Packet;
use pcap_reader::file_head;
use std::alloc::{AllocError, Global};

/// The second in which the first frame begins, in nanoseconds since 1970-01-01 00:00:00.
const START: u64 = 1_600_000_000 * 1_000_000_000;

/// A capture of groups of packets, which are the frames or fields of a video, after one packet that
/// ends the frame before them.
#[derive(Clone, Copy, Debug)]
pub struct Spread {
    /// The capture timestamp of packet 0 of group 0, in nanoseconds after second 1,600,000,000.
    pub first: u32,
    /// The number of groups.
    pub groups: u8,
    /// The number of packets in each group.
    pub packets: u8,
    /// The time from a group to the next, in nanoseconds.
    pub group_nanos: u32,
    /// The time from a packet to the next of its group, in nanoseconds.
    pub packet_nanos: u32,
    /// The group in which some packets come together with packet 0, counted from 0.
    pub bunched: u8,
    /// The number of packets of that group that come together, including packet 0.
    pub at_once: u8,
}

/// The plain capture: two frames of 20 packets at 50 frames per second, from a narrow sender.
pub const NARROW: Spread = Spread {
    first: 764_000,
    groups: 2,
    packets: 20,
    group_nanos: 20_000_000,
    packet_nanos: 960_000,
    bunched: 0,
    at_once: 1,
};

/// The packet before the groups.
pub const BEFORE: Packet = Packet {
    at: START - 1_000_000,
    timestamp: 0,
    marker: true,
    number: 0,
};

impl Spread {
    ghost use Rattle.capture_gen.specs.Spreads.{instant, packet_at};

    /// Returns the capture timestamp of a packet, in nanoseconds since 1970-01-01 00:00:00. Groups,
    /// and packets of a group (`place`), count from 0.
    fn instant(&self, group: u8, place: u8) -> u64
        ensures value { result ≡ instant self.now group place }
        ensures fits { result < 2 ^ 61 }
    {
        let late = if group == self.bunched && place < self.at_once {
            0
        } else {
            u64::from(self.packet_nanos) * u64::from(place)
        };
        START + u64::from(self.first) + u64::from(self.group_nanos) * u64::from(group) + late
    }

    /// Returns a packet of a group. Groups, and packets of a group (`place`), count from 0.
    pub fn packet(&self, group: u8, place: u8) -> Packet
        ensures value { result ≡ packet_at self.now group place }
        ensures fits { result.at < 2 ^ 61 }
    {
        Packet {
            at: self.instant(group, place),
            timestamp: 1800 * (u32::from(group) + 1),
            marker: u32::from(place) + 1 == u32::from(self.packets),
            number: 1 + u32::from(self.packets) * u32::from(group) + u32::from(place),
        }
    }

    /// Appends the packet records of a group. Returns `Err` if memory runs out.
    fn add_group(&self, out: &mut Vec<u8>, group: u8) -> Result<(), AllocError> {
        for place in 0..self.packets {
            out.extend_from_slice(&self.packet(group, place).record())?;
        }
        Ok(())
    }

    /// Returns the whole capture. Returns `Err` if memory runs out.
    pub fn capture(&self, alloc: Global) -> Result<Vec<u8>, AllocError> {
        let mut out = Vec::from_slice(alloc, &file_head())?;
        out.extend_from_slice(&BEFORE.record())?;
        for group in 0..self.groups {
            self.add_group(&mut out, group)?;
        }
        Ok(out)
    }
}
