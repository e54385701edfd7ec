//! Frames and payloads laid out by hand, and the flow in packet records.

ghost use Rattle.std.specs.Prelude.{◌≡◌, map, IfOk};
ghost use Rattle.udp_rtp.specs.Flow.{flow};

use super::compare::{same, same_at};
use std::alloc::{AllocError, Global};
use std::process::Abort;
use timing_base::worked::PLAIN;
use timing_base::{FlowPacket, Media, PacketFault, Rtp};
use udp_rtp::{datagram, packet_of, read_rtp};

// The first packet of a capture, laid out by hand: an RTP packet with the marker to 239.0.0.1.
const FRAME: [u8; 56] = [
    0x01, 0x00, 0x5e, 0x00, 0x00, 0x01, // destination
    0x02, 0x00, 0x00, 0x00, 0x00, 0x01, // source
    0x08, 0x00, // IPv4
    0x45, 0x00, 0x00, 0x2a, // version 4, 5 words, service, total length 42
    0x00, 0x00, 0x40, 0x00, // identification, DF, offset 0
    0x40, 0x11, 0x00, 0x00, // time to live, UDP, checksum
    0xc0, 0x00, 0x02, 0x01, // 192.0.2.1
    0xef, 0x00, 0x00, 0x01, // 239.0.0.1
    0xc3, 0x50, 0xc3, 0x50, // ports 50000
    0x00, 0x16, 0x00, 0x00, // length 22, checksum
    0x80, 0xe0, 0x00, 0x08, // version 2; marker, payload type 96; sequence number 8
    0x00, 0x00, 0x07, 0x08, // timestamp 1800
    0x00, 0x00, 0x00, 0x01, // SSRC
    0x00, 0x01, // extended sequence number
];

// A VLAN tag with VLAN 5 and priority 3.
const TAG: [u8; 4] = [0x81, 0x00, 0x60, 0x05];

const READ: Rtp = Rtp {
    number: 65_544,
    timestamp: 1800,
    marker: true,
    pt: 96,
    ssrc: 1,
};

// The frame with another byte at this place.
fn with(place: usize, byte: u8) -> [u8; 56] {
    let mut frame = FRAME;
    if let Some(old) = frame.get_mut(place) {
        *old = byte;
    }
    frame
}

// The result of reading a frame that goes to the media.
fn reading_of(frame: &[u8]) -> Option<Result<Rtp, PacketFault>> {
    packet_of(&PLAIN, 1, 0, frame).map(|packet| packet.rtp)
}

#[test]
fn shows_each_part(rt: HostRuntime) {
    let Some(seen) = datagram(&FRAME) else {
        panic!(rt; "no datagram");
    };
    same(&rt, &seen.target, &PLAIN.target());
    same(&rt, &seen.payload, &(&FRAME[42..]));
    same(&rt, &read_rtp(seen.payload), &Ok(READ));
}

// No datagram is found in these bytes.
fn is_ignored(rt: &impl Abort, frame: &[u8]) {
    same_at(rt, &frame, &datagram(frame).is_none(), &true);
}

// The frame with two tags before the type field.
fn with_two_tags() -> [u8; 64] {
    let mut frame = [0; 64];
    frame[..12].copy_from_slice(&FRAME[..12]);
    frame[12..16].copy_from_slice(&TAG);
    frame[16..20].copy_from_slice(&TAG);
    frame[20..].copy_from_slice(&FRAME[12..]);
    frame
}

#[test]
fn ignored_frames(rt: HostRuntime) {
    let rows = [
        // place, and the byte there
        (14, 0x44), // a header of four words
        (14, 0x65), // version 6
        (13, 0x06), // another type
        (23, 6), // TCP
        (20, 0x20), // the first fragment
        (21, 0x01), // the last fragment
    ];
    for (place, byte) in rows {
        is_ignored(&rt, &with(place, byte));
    }
    is_ignored(&rt, &FRAME[..37]);
    is_ignored(&rt, &FRAME[..0]);
    is_ignored(&rt, &with_two_tags());
}

// The frame goes to the media, and its packet is too short.
fn is_short(rt: &impl Abort, frame: &[u8]) {
    let want = Some(Err(PacketFault::Short));
    same_at(rt, &frame, &reading_of(frame), &want);
}

#[test]
fn short_packets(rt: HostRuntime) {
    // A length of 7, 15 sources, and an extension: its header is the two bytes of the extended sequence number, and is
    // cut.
    for (place, byte) in [(39, 7), (42, 0x8f), (42, 0x90)] {
        is_short(&rt, &with(place, byte));
    }
    is_short(&rt, &FRAME[..38]);

    // A header extension of 65,535 words, which the payload does not have.
    let past = [
        0x90, 0xe0, 0x00, 0x08, 0x00, 0x00, 0x07, 0x08, 0x00, 0x00, 0x00, 0x01, // fixed header
        0xbe, 0xde, 0xff, 0xff, // the extension's head
        0x00, 0x01, 0x00, 0x01,
    ];
    same(&rt, &read_rtp(&past), &Err(PacketFault::Short));
}

#[test]
fn captured_at_40(rt: HostRuntime) {
    is_short(&rt, &FRAME[..40]);
}

#[test]
fn big_payload(rt: HostRuntime) {
    // 1,200 more bytes of payload, eight of which were captured.
    let mut frame = [0; 64];
    frame[..56].copy_from_slice(&FRAME);
    frame[16] = 0x04; // total length 1242
    frame[17] = 0xda;
    frame[38] = 0x04; // UDP length 1222
    frame[39] = 0xc6;
    let Some(seen) = datagram(&frame) else {
        panic!(rt; "no datagram");
    };
    same(&rt, &seen.payload.len(), &22);
    same(&rt, &reading_of(&frame), &Some(Ok(READ)));
}

// A tag before the type field; the other byte orders are those of captures.
#[test]
fn other_orders(rt: HostRuntime) {
    let mut tagged = [0; 60];
    tagged[..12].copy_from_slice(&FRAME[..12]);
    tagged[12..16].copy_from_slice(&TAG);
    tagged[16..].copy_from_slice(&FRAME[12..]);
    same(&rt, &reading_of(&tagged), &Some(Ok(READ)));
}

#[test]
fn names_each_fault(rt: HostRuntime) {
    let packet = &FRAME[42..];
    let mut version_1 = [0; 14];
    version_1.copy_from_slice(packet);
    version_1[0] = 0x40;
    let rows = [
        (&packet[..11], PacketFault::Short),
        (&packet[..13], PacketFault::Short),
        (&version_1[..11], PacketFault::Short),
        (&version_1[..12], PacketFault::Version),
        (&version_1[..], PacketFault::Version),
    ];
    for (bytes, fault) in rows {
        same_at(&rt, &bytes.len(), &read_rtp(bytes), &Err(fault));
    }
}

// The flow of a media in packet records, given by number, capture timestamp and frame.
#[tactic(auto, using(std::proofs::lemmas::Grind::common_steps, udp_rtp::proofs::Flows::flow_steps))]
fn packets_of(
    alloc: Global,
    media: &Media,
    records: &[(u64, u64, &[u8])],
) -> Result<Vec<FlowPacket>, AllocError>
    ensures { IfOk result (λ packets. packets.items
        ≡ flow (map (λ r. record { number = r.0; stamp = r.1; bytes = r.2.now }) records.now)
        media.now) }
{
    let mut packets = Vec::new(alloc);
    for record in records {
        if let Some(packet) = packet_of(media, record.0, record.1, record.2) {
            packets.push(packet)?;
        }
    }
    Ok(packets)
}

fn packet_at(rec: u64, at: u64, rtp: Result<Rtp, PacketFault>) -> FlowPacket {
    FlowPacket { rec, at, rtp }
}

#[test]
fn flow_of_records(rt: HostRuntime) {
    let other_port = with(37, 0x51);
    let other_group = with(33, 0x02);
    let records = [
        (1, 500, &FRAME[..]),
        (2, 510, &other_port[..]),
        (3, 505, &FRAME[..40]),
        (4, 520, &other_group[..]),
        (5, 530, &FRAME[..30]),
        (6, 540, &FRAME[..]),
    ];
    let Ok(packets) = packets_of(rt.alloc(), &PLAIN, &records) else {
        panic!(rt; "out of memory");
    };
    let want = [
        packet_at(1, 500, Ok(READ)),
        packet_at(3, 505, Err(PacketFault::Short)),
        packet_at(6, 540, Ok(READ)),
    ];
    same(&rt, &packets.as_slice(), &want.as_slice());
}
