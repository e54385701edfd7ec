//! The packets of a file for the media of a session, and their lanes.

ghost use Rattle.std.specs.Prelude.{◌≡◌, ◌≤◌, ◌<◌, ◌^◌, IfSome, if◌then◌else◌, length};
ghost use Rattle.timing_base.specs.Captures.{IsStamp};
ghost use Rattle.flow_worker.specs.Opening.{packet_from};
ghost use Rattle.flow_worker.specs.Sending.{AreDealt};
ghost use Rattle.flow_worker.specs.Targeted.{media_to};

use crate::upcoming::Upcoming;
use ruled_intake::Packet;
use timing_base::{FlowKey, FlowPacket, Media, Target, route};
use udp_rtp::{datagram, read_rtp};

/// Media of a session, and the distribution of their packets in one file among lanes.
#[derive(Clone, Copy)]
pub struct Routing<'a> {
    /// Media of the session.
    pub media: &'a [Media],
    /// File, counted from 0; 0 if the files are joined.
    pub file: u32,
    /// Number of lanes.
    pub lanes: u32,
    /// Lane of each media, by the media's number.
    pub dealt: [u32; 64],
}

/// Returns the file by which a packet's flow is dealt out: the packet's own, or 0 if the files are joined.
pub fn dealt_file(file: u32, joined: bool) -> u32
    ensures { result ≡ (if joined then 0 else file) }
{
    if joined { 0 } else { file }
}

/// Returns the lane of each media of a file, by the media's number.
pub fn deal(file: u32, media: u32, lanes: u32) -> [u32; 64]
    requires file { file < 16 }
    requires few_media { media ≤ 64 }
    requires some_lanes { 1 ≤ lanes }
    requires few_lanes { lanes ≤ 16 }
    ensures { AreDealt file media lanes media result }
{
    let mut dealt = [0; 64];
    for number in 0..media {
        let key = FlowKey {
            file,
            media: number,
        };
        dealt[number as usize] = route(key, media, lanes);
    }
    dealt
}

/// Returns the number of the first of these media with the target.
#[inline(always)]
fn find_media(media: &[Media], target: Target) -> Option<u32>
    requires { length media.now ≤ 64 }
    ensures { result ≡ media_to target 0 media.now }
{
    for (number, each) in media.iter().enumerate() {
        if target == each.target() {
            return Some(number as u32);
        }
    }
    None
}

impl Routing<'_> {
    ghost use Rattle.flow_worker.specs.Expecting.{AreExpected};
    ghost use Rattle.flow_worker.specs.Sending.{IsRouting, route_of};

    /// Returns the packet of a record for the first media to which it goes, if there is one, and notes which packet is
    /// expected next of the media. `number` is the packet record, counted from 1, `at` its capture timestamp in
    /// nanoseconds, and `frame` its Ethernet frame.
    pub fn packet(
        &self,
        number: u64,
        at: u64,
        frame: &[u8],
        upcoming: &mut Upcoming,
    ) -> Option<Packet>
        requires media { length self.now.media.now ≤ 64 }
        requires number { number < 2 ^ 37 }
        requires at { IsStamp at }
        ensures packet { result ≡ packet_from 0 self.now.media.now
            (record { number = number; stamp = at; bytes = frame.now }) }
        ensures media { IfSome result (λ packet. packet.media < length self.now.media.now) }
        ensures expected { AreExpected self.now.media.now upcoming.old
            → AreExpected self.now.media.now upcoming.new }
    {
        let datagram = datagram(frame)?;
        let media = find_media(self.media, datagram.target)?;
        let rtp = read_rtp(datagram.payload);
        upcoming.learn(media, datagram.target, rtp);
        let packet = FlowPacket {
            rec: number,
            at,
            rtp,
        };
        Some(Packet::new(media, packet))
    }

    /// Returns the lane of a packet, counted from 0.
    #[inline(always)]
    pub fn lane(&self, packet: &Packet) -> usize
        requires routing { IsRouting self.now }
        requires media { packet.now.media < length self.now.media.now }
        ensures lane { result ≡ route_of self.now packet.now }
        ensures within { result < self.now.lanes }
    {
        self.dealt[packet.media() as usize] as usize
    }
}
