//! Theorems about the definitions, and examples of them worked by hand. Each function does nothing;
//! its clauses are what is proved.

ghost use Rattle.std.specs.Prelude.{◌≡◌, ◌+◌, ◌++◌, [], ◌∷◌, ℕ, true, false, List, min, length, take, drop, replicate};
ghost use Rattle.timing_base.specs.Addresses.{ipv4};
ghost use Rattle.timing_base.specs.Captures.{Record};
ghost use Rattle.timing_base.specs.Media.{Media};
ghost use Rattle.timing_base.specs.Targets.{target_of};
ghost use Rattle.timing_base.specs.declared.packet.FlowPacket.{FlowPacket};
ghost use Rattle.timing_base.specs.declared.packet.PacketFault.TheVariants.{Short, Version};
ghost use Rattle.timing_base.specs.declared.packet.Rtp.{Rtp};
ghost use Rattle.timing_base.specs.declared.target.Target.{Target};
ghost use Rattle.udp_rtp.specs.Awaited.{awaited, awaited_after, awaited_of};
ghost use Rattle.udp_rtp.specs.declared.awaited.Awaited.{Awaited};
ghost use Rattle.udp_rtp.specs.Carried.{carries};
ghost use Rattle.udp_rtp.specs.Numbers.{number16};
ghost use Rattle.udp_rtp.specs.Classes.{class_of};
ghost use Rattle.udp_rtp.specs.declared.class.FrameClass.TheVariants.{Broken, Empty, Fragment, Ipv6, NotUdp, Other, Tags};
ghost use Rattle.udp_rtp.specs.Frames.{Datagram, datagram_at, datagram_of, frame_reading, payload_at};
ghost use Rattle.udp_rtp.specs.Reading.{reading};
ghost use Rattle.udp_rtp.specs.Flow.{flow, flow_packet};
ghost use Rattle.udp_rtp.specs.Examples.{macs, ip_type, tag, ip, plain_ip, udp, rtp, extended, source, extension};
ghost use Rattle.udp_rtp.specs.Examples.{packet, plain_packet, frame_of, frame_with, group, stating, to_group};
ghost use Rattle.udp_rtp.specs.Examples.{arp_type, broken_frame, fragment_frame, ipv6_type, provider_tag, tcp_frame, ten};
ghost use Rattle.udp_rtp.specs.TwoFlows.{next_port};

/// One more packet record adds its packet to the end of the flow, or leaves the flow unchanged if
/// it has none.
pub fn flow_of_one_more()
    ensures append { (media : Media) (records : List Record) (r : Record)
        → flow (records ++ r ∷ []) media ≡ flow records media ++ flow (r ∷ []) media }
    ensures kept { (media : Media) (records : List Record) (r : Record) (p : FlowPacket)
        → flow_packet media r ≡ Some p
        → flow (records ++ r ∷ []) media ≡ flow records media ++ p ∷ [] }
    ensures passed_over { (media : Media) (records : List Record) (r : Record)
        → flow_packet media r ≡ None → flow (records ++ r ∷ []) media ≡ flow records media }
{}

/// The payload of a UDP header at u is the bytes from u + 8 up to the end of the frame or u plus
/// the UDP length, whichever is smaller.
pub fn payload_ends_with_the_first()
    ensures { (frame : List ℕ) (u : ℕ) → payload_at frame u
        ≡ drop (u + 8) (take (min (length frame) (u + number16 frame (u + 4))) frame) }
{}

/// Worked by hand: Ethernet frames with a datagram.
pub fn datagrams_by_hand()
    ensures plain { datagram_of (frame_of plain_ip) ≡ Some (to_group packet) }

    // The source port is another one, 5000.
    ensures other_source { datagram_of
        (macs ++ ip_type ++ plain_ip ++ (0x13 ∷ 0x88 ∷ drop 2 (udp 22)) ++ packet)
        ≡ Some (record (to_group packet) { source = record { address = ipv4 192 0 2 1; port = 5000 } }) }

    // One tag; one word of IPv4 options; without the flag DF; with the reserved flag.
    ensures tagged { datagram_of (macs ++ tag ++ ip_type ++ plain_ip ++ udp 22 ++ packet)
        ≡ Some (to_group packet) }
    ensures options { datagram_of (frame_of (ip 0x46 0x40 0 17 ++ source)) ≡ Some (to_group packet) }
    ensures allowed { datagram_of (frame_of (ip 0x45 0x00 0 17)) ≡ Some (to_group packet) }

    ensures reserved { datagram_of (frame_of (ip 0x45 0x80 0 17)) ≡ Some (to_group packet) }

    // The UDP length ends the payload after 12 bytes, and after none. Then it exceeds the captured
    // bytes.
    ensures twelve { datagram_of (macs ++ ip_type ++ plain_ip ++ udp 20 ++ packet)
        ≡ Some (stating 12 (rtp 0x80 0x60)) }
    ensures eight { datagram_of (macs ++ ip_type ++ plain_ip ++ udp 8 ++ packet)
        ≡ Some (stating 0 []) }
    ensures seven { datagram_of (macs ++ ip_type ++ plain_ip ++ udp 7 ++ packet)
        ≡ Some (stating 0 []) }
    ensures cut_54 { datagram_of (take 54 (frame_of plain_ip)) ≡ Some (to_group (rtp 0x80 0x60)) }

    // The frame ends behind the UDP length, within it, and right after the ports.
    ensures cut_41 { datagram_of (take 41 (frame_of plain_ip)) ≡ Some (to_group []) }
    ensures cut_40 { datagram_of (take 40 (frame_of plain_ip)) ≡ Some (to_group []) }
    ensures cut_39 { datagram_of (take 39 (frame_of plain_ip)) ≡ Some (stating 0 []) }
    ensures cut_38 { datagram_of (take 38 (frame_of plain_ip)) ≡ Some (stating 0 []) }
    ensures tagged_42 { datagram_of (take 42 (macs ++ tag ++ ip_type ++ plain_ip ++ udp 22))
        ≡ Some (stating 0 []) }
{}

/// Worked by hand: Ethernet frames without a datagram.
pub fn no_datagrams_by_hand()
    ensures cut_37 { datagram_of (take 37 (frame_of plain_ip)) ≡ None }
    ensures tagged_41 { datagram_of (take 41 (macs ++ tag ++ ip_type ++ plain_ip ++ udp 22))
        ≡ None }
    ensures options_cut { datagram_of (take 41 (frame_of (ip 0x46 0x40 0 17 ++ source))) ≡ None }
    ensures empty { datagram_of [] ≡ None }

    // The type of IPv6; that type behind a tag; two tags.
    ensures ipv6 { datagram_of (macs ++ (0x86 ∷ 0xdd ∷ []) ++ plain_ip ++ udp 22 ++ packet) ≡ None }
    ensures tagged { datagram_of (macs ++ tag ++ (0x86 ∷ 0xdd ∷ []) ++ plain_ip ++ udp 22 ++ packet)
        ≡ None }
    ensures two_tags { datagram_of (macs ++ tag ++ tag ++ ip_type ++ plain_ip ++ udp 22 ++ packet)
        ≡ None }

    // Version 6, an IHL of 4, and TCP.
    ensures version { datagram_of (frame_of (ip 0x65 0x40 0 17)) ≡ None }
    ensures words { datagram_of (frame_of (ip 0x44 0x40 0 17)) ≡ None }
    ensures protocol { datagram_of (frame_of (ip 0x45 0x40 0 6)) ≡ None }

    // The first fragment, and later ones.
    ensures first { datagram_of (frame_of (ip 0x45 0x20 0 17)) ≡ None }
    ensures later { datagram_of (frame_of (ip 0x45 0x00 1 17)) ≡ None }
    ensures last { datagram_of (frame_of (ip 0x45 0x10 0 17)) ≡ None }
{}

/// Worked by hand: Ethernet frames without a datagram, of each class, on both sides of its limits.
pub fn classes_by_hand()
    ensures empty { class_of [] ≡ Empty }

    // Two tags, and the tag of a provider's bridge, alone and behind another tag.
    ensures two_tags { class_of (macs ++ tag ++ tag ++ ip_type ++ plain_ip) ≡ Tags }
    ensures provider { class_of (macs ++ provider_tag ++ ip_type ++ plain_ip) ≡ Tags }
    ensures behind { class_of (macs ++ tag ++ provider_tag ++ ipv6_type) ≡ Tags }

    // IPv6, also behind a tag, and with nothing behind its type.
    ensures ipv6 { class_of (macs ++ ipv6_type ++ ten) ≡ Ipv6 }
    ensures tagged_ipv6 { class_of (macs ++ tag ++ ipv6_type ++ ten) ≡ Ipv6 }
    ensures type_alone { class_of (macs ++ ipv6_type) ≡ Ipv6 }

    // Another type, also behind a tag; a frame that ends within its type, or within the type behind a tag.
    ensures arp { class_of (macs ++ arp_type ++ ten) ≡ Other }
    ensures tagged_arp { class_of (macs ++ tag ++ arp_type ++ ten) ≡ Other }
    ensures short { class_of (take 13 (frame_of plain_ip)) ≡ Other }
    ensures tagged_short { class_of (take 17 (macs ++ tag ++ ip_type)) ≡ Other }

    // TCP; of a header with 19 captured bytes the protocol isn't read.
    ensures tcp { class_of tcp_frame ≡ NotUdp }
    ensures tagged_tcp { class_of (macs ++ tag ++ ip_type ++ ip 0x45 0x40 0 6) ≡ NotUdp }
    ensures tcp_header { class_of (take 34 tcp_frame) ≡ NotUdp }
    ensures tcp_cut { class_of (take 33 tcp_frame) ≡ Broken }

    // The first fragment of several and a later one; a fragment of TCP counts as not UDP.
    ensures first { class_of fragment_frame ≡ Fragment }
    ensures later { class_of (frame_of (ip 0x45 0x00 1 17)) ≡ Fragment }
    ensures tcp_fragment { class_of (frame_of (ip 0x45 0x20 0 6)) ≡ NotUdp }

    // Version 6 in an IPv4 header, a header of four words, and a frame that ends before its ports.
    ensures version { class_of broken_frame ≡ Broken }
    ensures words { class_of (frame_of (ip 0x44 0x40 0 17)) ≡ Broken }
    ensures cut { class_of (take 37 (frame_of plain_ip)) ≡ Broken }
{}

/// Worked by hand: the datagram of a frame, or the class of a frame that has none.
pub fn frames_by_hand()
    ensures datagram { frame_reading (frame_of plain_ip) ≡ Ok (to_group packet) }
    ensures tcp { frame_reading tcp_frame ≡ Err NotUdp }
    ensures empty { frame_reading [] ≡ Err Empty }
{}

/// A frame with a datagram is of class `Broken`, the last one. A class before it applies only to
/// frames without a datagram.
pub fn datagrams_are_no_class()
    ensures { (frame : List ℕ) (d : Datagram) → datagram_of frame ≡ Some d → class_of frame ≡ Broken }
{}

/// Worked by hand: payloads with packet number 65,544, RTP timestamp 1800, source 1 and payload
/// type 96.
pub fn readings_by_hand()
    ensures plain { reading packet
        ≡ Ok (record { number = 65544; timestamp = 1800; marker = false; pt = 96; ssrc = 1 }) }
    ensures marker { reading (rtp 0x80 0xe0 ++ extended)
        ≡ Ok (record { number = 65544; timestamp = 1800; marker = true; pt = 96; ssrc = 1 }) }

    // Padding is ignored, and so are one contributing source, 15 of them, an extension of one word,
    // and a source with an extension.
    ensures padding { reading (rtp 0xa0 0x60 ++ extended) ≡ reading packet }
    ensures sources { reading (rtp 0x81 0x60 ++ source ++ extended) ≡ reading packet }
    ensures extension { reading (rtp 0x90 0x60 ++ extension ++ extended) ≡ reading packet }
    ensures most_sources { reading (rtp 0x8f 0x60 ++ replicate 60 0x11 ++ extended)
        ≡ reading packet }
    ensures both { reading (rtp 0x91 0x60 ++ source ++ extension ++ extended) ≡ reading packet }

    // An extension of 256 words: both bytes of its length count.
    ensures long_extension { reading
        (rtp 0x90 0x60 ++ (0xbe ∷ 0xde ∷ 1 ∷ 0 ∷ []) ++ replicate 1024 0x51 ++ extended)
        ≡ reading packet }
    ensures long_extension_cut { reading
        (rtp 0x90 0x60 ++ (0xbe ∷ 0xde ∷ 1 ∷ 0 ∷ []) ++ replicate 1023 0x51 ++ extended)
        ≡ Err Short }

    // A payload of fewer than 12 bytes is `Short`, whatever its version.
    ensures eleven { reading (take 11 (rtp 0x40 0x60)) ≡ Err Short }
    ensures version { reading (rtp 0x40 0x60) ≡ Err Version }
    ensures empty { reading [] ≡ Err Short }

    // The extended sequence number is missing or incomplete.
    ensures fixed { reading (rtp 0x80 0x60) ≡ Err Short }
    ensures thirteen { reading (take 13 packet) ≡ Err Short }
    ensures sources_past { reading (rtp 0x8f 0x60 ++ extended) ≡ Err Short }
    ensures extension_past { reading (rtp 0x90 0x60 ++ (0 ∷ 0 ∷ 0 ∷ 1 ∷ []) ++ extended)
        ≡ Err Short }
    ensures head_cut { reading (rtp 0x90 0x60 ++ (0 ∷ 0 ∷ [])) ≡ Err Short }
{}

/// Worked by hand: three packet records. The second goes to another port than the media's, and the
/// third ends after its ports.
pub fn flow_by_hand()
    ensures { (media : Media) → target_of media ≡ group
        → flow (record { number = 7; stamp = 100; bytes = frame_of plain_ip }
        ∷ record {
          number = 8;
          stamp = 90;
          bytes = macs ++ ip_type ++ plain_ip ++ (0 ∷ 1 ∷ 0 ∷ 1 ∷ []);
        }
        ∷ record { number = 9; stamp = 80; bytes = take 38 (frame_of plain_ip) } ∷ []) media
        ≡ record { rec = 7; at = 100; rtp = reading packet }
        ∷ record { rec = 9; at = 80; rtp = Err Short } ∷ [] }
{}

/// If an Ethernet frame carries a packet to a target, its datagram goes to that target, and that
/// packet is what is read from its payload. So a packet record of this frame has that packet in the
/// flow of each media of this target.
pub fn carried_is_read()
    ensures datagram { (target : Target) (p : Rtp) (frame : List ℕ) → carries target p frame ≡ true
        → datagram_of frame ≡ Some (record (datagram_at frame 14) { target = target; payload = payload_at frame 34 }) }
    ensures read { (target : Target) (p : Rtp) (frame : List ℕ) → carries target p frame ≡ true
        → reading (payload_at frame 34) ≡ Ok p }
    ensures packet { (media : Media) (p : Rtp) (r : Record)
        → carries (target_of media) p r.bytes ≡ true
        → flow_packet media r ≡ Some (record { rec = r.number; at = r.stamp; rtp = Ok p }) }
{}

/// Worked by hand: an Ethernet frame to 239.0.0.1, port 50000, with RTP packet 65,544, and the
/// packets that it carries.
pub fn carried_by_hand()
    ensures plain { carries group plain_packet (frame_of plain_ip) ≡ true }

    // Without the flag DF, and with the reserved flag. The source port is ignored, and so is what
    // follows the extended sequence number.
    ensures allowed { carries group plain_packet (frame_of (ip 0x45 0x00 0 17)) ≡ true }
    ensures reserved { carries group plain_packet (frame_of (ip 0x45 0x80 0 17)) ≡ true }
    ensures other_source { carries group plain_packet
        (frame_with plain_ip (0x13 ∷ 0x88 ∷ drop 2 (udp 22)) packet) ≡ true }
    ensures longer { carries group plain_packet
        (frame_with plain_ip (udp 25) (packet ++ 7 ∷ 8 ∷ 9 ∷ [])) ≡ true }

    // Another port and another address; a tag, options, another type and another protocol.
    ensures port { carries next_port plain_packet (frame_of plain_ip) ≡ false }
    ensures address { carries (record { address = ipv4 239 0 0 2; port = 50000 }) plain_packet
        (frame_of plain_ip) ≡ false }
    ensures tagged { carries group plain_packet
        (macs ++ tag ++ ip_type ++ plain_ip ++ udp 22 ++ packet) ≡ false }
    ensures options { carries group plain_packet (frame_of (ip 0x46 0x40 0 17 ++ source)) ≡ false }
    ensures ipv6 { carries group plain_packet
        (macs ++ (0x86 ∷ 0xdd ∷ []) ++ plain_ip ++ udp 22 ++ packet) ≡ false }
    ensures protocol { carries group plain_packet (frame_of (ip 0x45 0x40 0 6)) ≡ false }

    // The flag MF, and the lowest and the highest bit of the fragment offset.
    ensures first { carries group plain_packet (frame_of (ip 0x45 0x20 0 17)) ≡ false }
    ensures later { carries group plain_packet (frame_of (ip 0x45 0x00 1 17)) ≡ false }
    ensures last { carries group plain_packet (frame_of (ip 0x45 0x10 0 17)) ≡ false }

    // The UDP length excludes the last byte of the extended sequence number; the frame ends before
    // it.
    ensures stated { carries group plain_packet (frame_with plain_ip (udp 21) packet) ≡ false }
    ensures cut_55 { carries group plain_packet (take 55 (frame_of plain_ip)) ≡ false }
    ensures empty { carries group plain_packet [] ≡ false }

    // Padding, an extension, a contributing source, and version 1.
    ensures padding { carries group plain_packet
        (frame_with plain_ip (udp 22) (rtp 0xa0 0x60 ++ extended)) ≡ false }
    ensures extension { carries group plain_packet
        (frame_with plain_ip (udp 22) (rtp 0x90 0x60 ++ extended)) ≡ false }
    ensures sources { carries group plain_packet
        (frame_with plain_ip (udp 22) (rtp 0x81 0x60 ++ extended)) ≡ false }
    ensures version { carries group plain_packet
        (frame_with plain_ip (udp 22) (rtp 0x40 0x60 ++ extended)) ≡ false }

    // Only the frame has the marker; only the packet has it; both have it.
    ensures marked { carries group plain_packet
        (frame_with plain_ip (udp 22) (rtp 0x80 0xe0 ++ extended)) ≡ false }
    ensures unmarked { carries group
        (record { number = 65544; timestamp = 1800; marker = true; pt = 96; ssrc = 1 })
        (frame_of plain_ip) ≡ false }
    ensures both { carries group
        (record { number = 65544; timestamp = 1800; marker = true; pt = 96; ssrc = 1 })
        (frame_with plain_ip (udp 22) (rtp 0x80 0xe0 ++ extended)) ≡ false }

    // Payload type 224 doesn't exist; it would be the byte of type 96 with the marker.
    ensures no_type { carries group
        (record { number = 65544; timestamp = 1800; marker = false; pt = 224; ssrc = 1 })
        (frame_with plain_ip (udp 22) (rtp 0x80 0xe0 ++ extended)) ≡ false }

    // The next packet number, the next high half of it, and another RTP timestamp, payload type and
    // source.
    ensures next { carries group
        (record { number = 65545; timestamp = 1800; marker = false; pt = 96; ssrc = 1 })
        (frame_of plain_ip) ≡ false }
    ensures high { carries group
        (record { number = 131080; timestamp = 1800; marker = false; pt = 96; ssrc = 1 })
        (frame_of plain_ip) ≡ false }
    ensures timestamp { carries group
        (record { number = 65544; timestamp = 1801; marker = false; pt = 96; ssrc = 1 })
        (frame_of plain_ip) ≡ false }
    ensures other_type { carries group
        (record { number = 65544; timestamp = 1800; marker = false; pt = 97; ssrc = 1 })
        (frame_of plain_ip) ≡ false }
    ensures ssrc { carries group
        (record { number = 65544; timestamp = 1800; marker = false; pt = 96; ssrc = 2 })
        (frame_of plain_ip) ≡ false }
{}

/// Worked by hand: expected packets.
pub fn awaited_by_hand()
    // 239.0.0.1 and port 50000; version 2, payload type 96, packet number 65,544 (0x1_0008), RTP
    // timestamp 1800 (0x708) and source 1.
    ensures numbers { (a : Awaited) → a.destination ≡ 0xef0000010000c350 → a.head ≡ 0x80600008 → a.timestamp ≡ 0x708
        → a.rest ≡ 0x0708000000010001 → awaited a ≡ Some (group, plain_packet) }
    ensures nothing { (a : Awaited) → a.destination ≡ 0xef0000010001c350 → awaited a ≡ None }

    // A packet without the marker, with it, and with a payload type of 8 bits.
    ensures unmarked { awaited_of group (Some plain_packet) ≡ Some (group, plain_packet) }
    ensures marked { awaited_of group
        (Some (record { number = 65544; timestamp = 1800; marker = true; pt = 96; ssrc = 1 })) ≡ None }
    ensures no_type { awaited_of group
        (Some (record { number = 65544; timestamp = 1800; marker = false; pt = 128; ssrc = 1 })) ≡ None }

    // The next number; and a number after which the low half starts again.
    ensures next { awaited_after (Some (group, plain_packet)) ≡ Some (
      group,
      record { number = 65545; timestamp = 1800; marker = false; pt = 96; ssrc = 1 },
    ) }
    ensures last_half { awaited_after (Some (
      group,
      record { number = 131071; timestamp = 1800; marker = false; pt = 96; ssrc = 1 },
    )) ≡ None }
{}
