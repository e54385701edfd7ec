//! Examples of the definition of a capture, worked by hand. Each function does nothing; its clauses
//! are what is proved.

ghost use Rattle.std.specs.Prelude.{◌≡◌, [], ◌∷◌, true, false, length, map, take, drop};
ghost use Rattle.capture_gen.specs.Capture.{capture, frame_of, head_packet, packet_of, packets, packets_of, start};
ghost use Rattle.capture_gen.specs.Flaws.{flaw_of};
ghost use Rattle.pcap_reader.specs.WrittenHeads.{file_head};
ghost use Rattle.capture_gen.specs.Packets.{extended_number, record_of, rtp_header};
ghost use Rattle.capture_gen.specs.Sdp.{sdp_text};

/// Worked by hand: the file header, with the magic of little-endian nanosecond captures, version
/// 2.4, no zone, no sigfigs, snaplen 262,144, Ethernet; and the 346 bytes of the session
/// description.
pub fn file_by_hand()
    ensures head { file_head
        ≡ 0x4d ∷ 0x3c ∷ 0xb2 ∷ 0xa1 ∷ 0x02 ∷ 0x00 ∷ 0x04 ∷ 0x00
        ∷ 0x00 ∷ 0x00 ∷ 0x00 ∷ 0x00 ∷ 0x00 ∷ 0x00 ∷ 0x00 ∷ 0x00
        ∷ 0x00 ∷ 0x00 ∷ 0x04 ∷ 0x00 ∷ 0x01 ∷ 0x00 ∷ 0x00 ∷ 0x00 ∷ [] }
    ensures sdp { length sdp_text ≡ 346 }
{}

/// Worked by hand: the record headers of the first two packets of the capture made from the number
/// 0.
#[tactic(auto, unfolding(crate::specs::Packets::record_of))]
pub fn record_heads_by_hand()
    // 1,599,999,999 seconds and 999,000,000 nanoseconds, and twice the length 56.
    ensures head { take 16 (record_of (head_packet 0))
        ≡ 0xff ∷ 0x0f ∷ 0x5e ∷ 0x5f ∷ 0xc0 ∷ 0x87 ∷ 0x8b ∷ 0x3b
        ∷ 0x38 ∷ 0x00 ∷ 0x00 ∷ 0x00 ∷ 0x38 ∷ 0x00 ∷ 0x00 ∷ 0x00 ∷ [] }
    // 1,600,000,000 seconds and 764,000 nanoseconds.
    ensures first { take 16 (record_of (packet_of (frame_of 0 2 (flaw_of 0) 0) 0))
        ≡ 0x00 ∷ 0x10 ∷ 0x5e ∷ 0x5f ∷ 0x60 ∷ 0xa8 ∷ 0x0b ∷ 0x00
        ∷ 0x38 ∷ 0x00 ∷ 0x00 ∷ 0x00 ∷ 0x38 ∷ 0x00 ∷ 0x00 ∷ 0x00 ∷ [] }
{}

/// Worked by hand: the Ethernet frame of the second packet of the capture made from the number 0,
/// with packet number 1, RTP timestamp 1800, and no marker.
#[tactic(auto, unfolding(crate::specs::Packets::record_of))]
pub fn ethernet_frame_by_hand()
    ensures { drop 16 (record_of (packet_of (frame_of 0 2 (flaw_of 0) 0) 0))
        ≡ 0x01 ∷ 0x00 ∷ 0x5e ∷ 0x00 ∷ 0x00 ∷ 0x01
        ∷ 0x02 ∷ 0x00 ∷ 0x00 ∷ 0x00 ∷ 0x00 ∷ 0x01 ∷ 0x08 ∷ 0x00
        ∷ 0x45 ∷ 0x00 ∷ 0x00 ∷ 0x2a ∷ 0x00 ∷ 0x00 ∷ 0x40 ∷ 0x00 ∷ 0x40 ∷ 0x11 ∷ 0x00 ∷ 0x00
        ∷ 0xc0 ∷ 0x00 ∷ 0x02 ∷ 0x01 ∷ 0xef ∷ 0x00 ∷ 0x00 ∷ 0x01
        ∷ 0xc3 ∷ 0x50 ∷ 0xc3 ∷ 0x50 ∷ 0x00 ∷ 0x16 ∷ 0x00 ∷ 0x00
        ∷ 0x80 ∷ 0x60 ∷ 0x00 ∷ 0x01 ∷ 0x00 ∷ 0x00 ∷ 0x07 ∷ 0x08 ∷ 0x00 ∷ 0x00 ∷ 0x00 ∷ 0x01
        ∷ 0x00 ∷ 0x00 ∷ [] }
{}

/// Worked by hand: packet number 65,544 has the halves 1 and 8. The marker sets the highest bit of
/// the second byte.
pub fn numbers_by_hand()
    ensures sequence { take 2 (drop 2 (rtp_header (head_packet 65544))) ≡ 0x00 ∷ 0x08 ∷ [] }
    ensures extended { extended_number (head_packet 65544) ≡ 0x00 ∷ 0x01 ∷ [] }
    ensures marker { take 2 (rtp_header (head_packet 65544)) ≡ 0x80 ∷ 0xe0 ∷ [] }
{}

/// Worked by hand: frame 0 made from the number 999,999 starts 1,600,999,999 seconds after 1970,
/// and that from 1,000,000 again at 1,600,000,000. The RTP timestamp of frame 1 is 1,800 ticks
/// above that of frame 0.
pub fn starts_by_hand()
    ensures last { start 999999 ≡ 1600999999000000000 }
    ensures again { start 1000000 ≡ 1600000000000000000 }
    ensures head { (head_packet 1000003).at ≡ 1600000002999000000 }
    ensures first { (packet_of (frame_of 1000003 2 (flaw_of 0) 0) 0).at ≡ 1600000003000764000 }
    ensures number { (packet_of (frame_of 1000003 2 (flaw_of 0) 1) 0).number ≡ 1000024 }
    ensures second_stamp { (packet_of (frame_of 0 2 (flaw_of 0) 1) 0).at ≡ 1600000000020764000 }
    ensures second_timestamp { (packet_of (frame_of 0 2 (flaw_of 0) 1) 0).timestamp ≡ 3600 }
{}

/// Worked by hand: packet numbers continue with 0 after 2^32 - 1.
pub fn numbers_wrap()
    ensures head { (head_packet 4294967295).number ≡ 0xffffffff }
    ensures first { (packet_of (frame_of 4294967295 2 (flaw_of 0) 0) 0).number ≡ 0 }
    ensures second { (packet_of (frame_of 4294967295 2 (flaw_of 0) 0) 1).number ≡ 1 }
{}

/// Worked by hand: the effect of each flaw on the last of two frames made from the number 0, and on
/// the frame before.
#[tactic(auto, unfolding(crate::specs::Capture::packets_of))]
pub fn flaws_by_hand()
    // Five packets of the last frame come at once, and the next 4,800,000 ns after them.
    ensures burst { map (λ p. p.at) (take 6 (packets_of (frame_of 0 2 (flaw_of 1) 1)))
        ≡ 1600000000020764000 ∷ 1600000000020764000 ∷ 1600000000020764000 ∷ 1600000000020764000
        ∷ 1600000000020764000 ∷ 1600000000025564000 ∷ [] }
    ensures before_burst { map (λ p. p.at) (take 2 (packets_of (frame_of 0 2 (flaw_of 1) 0)))
        ≡ 1600000000000764000 ∷ 1600000000001724000 ∷ [] }

    ensures slow { map (λ p. p.at) (take 2 (packets_of (frame_of 0 2 (flaw_of 2) 0)))
        ≡ 1600000000000764000 ∷ 1600000000001764000 ∷ [] }

    // Packet number 31 is left out.
    ensures gap { map (λ p. p.number) (drop 8 (packets_of (frame_of 0 2 (flaw_of 3) 1)))
        ≡ 29 ∷ 30 ∷ 32 ∷ 33 ∷ 34 ∷ 35 ∷ 36 ∷ 37 ∷ 38 ∷ 39 ∷ 40 ∷ [] }
    ensures before_gap { length (packets_of (frame_of 0 2 (flaw_of 3) 0)) ≡ 20 }

    // Packet number 39 is the last one, with the marker.
    ensures short { map (λ p. p.number) (drop 17 (packets_of (frame_of 0 2 (flaw_of 4) 1)))
        ≡ 38 ∷ 39 ∷ [] }
    ensures marked { map (λ p. p.marker) (drop 17 (packets_of (frame_of 0 2 (flaw_of 4) 1)))
        ≡ false ∷ true ∷ [] }
    ensures before_short { map (λ p. p.marker) (drop 17 (packets_of (frame_of 0 2 (flaw_of 4) 0)))
        ≡ false ∷ false ∷ true ∷ [] }
{}

/// Worked by hand: a capture of two frames has 2,976 bytes, or 2,904 with flaw 3 or 4.
#[tactic(auto, unfolding(crate::specs::Capture::capture, crate::specs::Capture::packets, crate::specs::Capture::packets_of, crate::specs::Packets::record_of))]
pub fn lengths_by_hand()
    ensures whole { length (capture 0 2 0) ≡ 2976 }
    ensures gap { length (capture 0 2 3) ≡ 2904 }
    ensures short { length (capture 0 2 4) ≡ 2904 }
{}
