//! The packets that a lane carries.

ghost use Rattle.std.specs.Prelude.{◌≡◌, ◌<◌, ◌^◌};
ghost use Rattle.timing_base.specs.Captures.{IsStamp};
ghost use Rattle.ruled_intake.specs.Packets.{IsReading, flow_packet, packet_of};

use std::marker::Model;
use timing_base::{FlowPacket, PacketFault, Rtp};

/// Reason why a packet couldn't be parsed.
#[derive(Clone, Copy, Debug, PartialEq, Eq)]
enum Unread {
    /// The payload ends before the extended sequence number does.
    Short,
    /// The RTP version isn't 2.
    Version,
}

/// Packet of one media of a capture. It takes 40 bytes: its fields lie in this order.
#[derive(Clone, Copy, Debug)]
pub struct Packet {
    rec: u64,
    at: u64,
    media: u32,
    rtp: Result<Rtp, Unread>,
}

impl Model for Packet {
    ghost use Rattle.ruled_intake.specs.Packets.{Packet as Seen, IsPacket};

    ghost Value = { Seen };

    ghost use Rattle.ruled_intake.specs.Readings.{reading_of, unread_of, unread_of-reading_of};

    ghost view = { λ p. record { media = p.media; rec = p.rec; at = p.at; rtp = reading_of p.rtp } };

    ghost invariant = { λ p. IsPacket (record { media = p.media; rec = p.rec; at = p.at; rtp = reading_of p.rtp }) };

    ghost inverse = { λ p. record { rec = p.rec; at = p.at; media = p.media; rtp = unread_of p.rtp } };

    ghost inverse_ok = { λ p h i. record { rec = p.rec; at = p.at; media = p.media; rtp = unread_of-reading_of p.rtp i } };
}

impl Packet {
    /// Returns the packet of a media, counted from 0. The packet record must be below 2^37, and a parse fault must be
    /// `Short` or `Version`.
    pub fn new(media: u32, packet: FlowPacket) -> Packet
        requires rec { packet.rec < 2 ^ 37 }
        requires at { IsStamp packet.at }
        requires rtp { IsReading packet.rtp }
        ensures value { result ≡ packet_of media packet }
    {
        let rtp = match packet.rtp {
            Ok(rtp) => Ok(rtp),
            Err(PacketFault::Short) => Err(Unread::Short),
            Err(_) => Err(Unread::Version),
        };
        Packet {
            rec: packet.rec,
            at: packet.at,
            media,
            rtp,
        }
    }

    /// Returns the media, counted from 0.
    pub fn media(&self) -> u32
        ensures value { result ≡ self.now.media }
    {
        self.media
    }

    /// Returns the packet as its flow has it.
    pub fn flow_packet(&self) -> FlowPacket
        ensures value { result ≡ flow_packet self.now }
        ensures rec { result.rec < 2 ^ 37 }
        ensures at { IsStamp result.at }
        ensures rtp { IsReading result.rtp }
    {
        let rtp = match self.rtp {
            Ok(rtp) => Ok(rtp),
            Err(Unread::Short) => Err(PacketFault::Short),
            Err(Unread::Version) => Err(PacketFault::Version),
        };
        FlowPacket {
            rec: self.rec,
            at: self.at,
            rtp,
        }
    }
}
