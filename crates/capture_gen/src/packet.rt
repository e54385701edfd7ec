//! A packet, and the bytes of its packet record.

ghost use Rattle.std.specs.Prelude.{◌≡◌, ◌<◌, ◌*◌, ◌^◌, ◌++◌};

use byteorder::{BigEndian, ByteOrder};
use pcap_reader::record_head;

/// The captured and original length of each packet, in bytes: that of its Ethernet frame.
const ETHERNET_LEN: u32 = 56;

/// The headers that all packets share: Ethernet II with the type IPv4 (14 bytes), IPv4 of total
/// length 42 from 192.0.2.1 to 239.0.0.1 (20 bytes), and UDP of length 22 between ports 50000 (8
/// bytes).
const SHARED_HEADERS: [u8; 42] = [
    0x01, 0x00, 0x5e, 0x00, 0x00, 0x01, 0x02, 0x00, 0x00, 0x00, 0x00, 0x01, 0x08, 0x00, 0x45, 0x00,
    0x00, 0x2a, 0x00, 0x00, 0x40, 0x00, 0x40, 0x11, 0x00, 0x00, 0xc0, 0x00, 0x02, 0x01, 0xef, 0x00,
    0x00, 0x01, 0xc3, 0x50, 0xc3, 0x50, 0x00, 0x16, 0x00, 0x00,
];

/// The fields in which a packet differs from the others of its flow.
#[derive(Clone, Copy, Debug)]
pub struct Packet {
    /// The capture timestamp, in nanoseconds since 1970-01-01 00:00:00.
    pub at: u64,
    /// The RTP timestamp, in ticks of 90 kHz.
    pub timestamp: u32,
    /// Whether it is the last packet of its frame.
    pub marker: bool,
    /// The packet number: the extended sequence number times 65,536, plus the RTP sequence number.
    pub number: u32,
}

impl Packet {
    ghost use Rattle.capture_gen.specs.Packets.{extended_number, record_of, rtp_header};

    /// Returns the RTP header and the extended sequence number (RFC 3550, section 5.1; RFC 4175,
    /// section 4.2).
    fn rtp(&self) -> [u8; 14]
        ensures { result ≡ rtp_header self.now ++ extended_number self.now }
    {
        let number = self.number;
        let mut rtp = [0; 14];
        rtp[0] = 0x80;
        rtp[1] = if self.marker { 0xe0 } else { 0x60 };
        BigEndian::write_u16(&mut rtp[2..], (number % 65_536) as u16);
        BigEndian::write_u32(&mut rtp[4..], self.timestamp);
        BigEndian::write_u32(&mut rtp[8..], 1);
        BigEndian::write_u16(&mut rtp[12..], (number / 65_536) as u16);
        rtp
    }

    /// Returns the packet record of the packet.
    pub fn record(&self) -> [u8; 72]
        requires { self.now.at < 2 ^ 32 * 1000000000 }
        ensures { result ≡ record_of self.now }
    {
        let mut record = [0; 72];
        record[..16].copy_from_slice(&record_head(self.at, ETHERNET_LEN));
        record[16..58].copy_from_slice(&SHARED_HEADERS);
        record[58..].copy_from_slice(&self.rtp());
        record
    }
}
