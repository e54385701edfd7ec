//! Laws of the definitions, and frames and lists that are worked by hand. Each function is a theorem: it does nothing,
//! and its clauses are proved.

ghost use Rattle.std.specs.Prelude.{◌≡◌, nat_eq, [], ◌∷◌, ◌++◌, ◌*◌, ◌+◌, ◌-◌, ◌^◌, true, false, ℕ, List, Some, None};
ghost use Rattle.std.specs.Prelude.{Ok, length, map, filter, take, drop};
ghost use Rattle.std.specs.List.{sum_by};
ghost use Rattle.timing_base.specs.Addresses.{ipv4};
ghost use Rattle.timing_base.specs.Captures.{Record};
ghost use Rattle.timing_base.specs.Media.{Media};
ghost use Rattle.timing_base.specs.Targets.{target_of};
ghost use Rattle.udp_rtp.specs.Examples.{extension, frame_of, frame_with, group, ip, ip_type, macs, packet, plain_ip};
ghost use Rattle.udp_rtp.specs.Examples.{rtp, sender, source, tag, tcp_frame, udp};
ghost use Rattle.udp_rtp.specs.Flow.{flow};
ghost use Rattle.udp_rtp.specs.declared.class.FrameClass.TheVariants.{NotUdp};
ghost use Rattle.capture_scan.specs.Examples.{came, frame_of_reads, frame_on, further_header, last_header, line_header};
ghost use Rattle.capture_scan.specs.Examples.{line_with, one_of_each, order_with, pace_with, plain_at, read_with};
ghost use Rattle.capture_scan.specs.Examples.{records_from, samples, second_header, short_header};
ghost use Rattle.capture_scan.specs.Frames.{first_line, seen};
ghost use Rattle.capture_scan.specs.Groups.{count_more, told};
ghost use Rattle.capture_scan.specs.Scans.{as_flow_packet, count_passed, is_from, more_packets, more_unread, packets};
ghost use Rattle.capture_scan.specs.Scans.{packets_of, passed_over, span_of, stream_to, streams, unread};
ghost use Rattle.capture_scan.specs.Scans.{unread_targets};
ghost use Rattle.capture_scan.specs.Streams.{lines_of, order_of, pace_of, stream_of};
ghost use Rattle.capture_scan.specs.declared.packet.Seen.TheVariants as seen_as;

/// The result of reading a packet record: an RTP packet, one with a payload that is too short, and a frame without a
/// target.
pub fn seen_by_hand()
    ensures read { seen (record { number = 7; stamp = 100; bytes = frame_of plain_ip })
        ≡ seen_as.Read (plain_at 7 100) }
    ensures tagged { seen (record {
      number = 7;
      stamp = 100;
      bytes = macs ++ tag ++ ip_type ++ plain_ip ++ udp 22 ++ packet;
    }) ≡ seen_as.Read (plain_at 7 100) }
    ensures options { seen (record {
      number = 7;
      stamp = 100;
      bytes = frame_of (ip 0x46 0x40 0 17 ++ source);
    }) ≡ seen_as.Read (plain_at 7 100) }
    ensures short { seen (record { number = 7; stamp = 100; bytes = take 55 (frame_of plain_ip) })
        ≡ seen_as.Unread group }
    ensures version { seen (record {
      number = 7;
      stamp = 100;
      bytes = frame_with plain_ip (udp 22) (rtp 0x40 0x60 ++ 0 ∷ 1 ∷ []);
    }) ≡ seen_as.Unread group }
    ensures tcp { seen (record { number = 7; stamp = 100; bytes = tcp_frame })
        ≡ seen_as.PassedOver NotUdp }

    // The source port is another one, 5000.
    ensures sender { seen (record {
      number = 7;
      stamp = 100;
      bytes = frame_with plain_ip (0x13 ∷ 0x88 ∷ drop 2 (udp 22)) packet;
    }) ≡ seen_as.Read (record (plain_at 7 100) {
      source = record { address = ipv4 192 0 2 1; port = 5000 };
    }) }
{}

/// Line headers: line 1,079 of the first field and line 539 of the second; one with a byte missing, in the frame or by
/// the UDP length; and one behind a header extension. The first ones have 1,920 bytes of line data: 12 bytes of RTP, 2
/// of extended sequence number, 6 of line header and 1,920 make 1,940 bytes of UDP data.
pub fn lines_by_hand()
    ensures first { first_line 1940 (packet ++ line_header) ≡ Some (line_with 1079 false true) }
    ensures second { first_line 1940 (packet ++ second_header) ≡ Some (line_with 539 true true) }
    ensures first_alone { first_line 1946 (packet ++ line_header ++ second_header)
        ≡ Some (line_with 1079 false true) }
    ensures cut { first_line 1940 (packet ++ take 5 line_header) ≡ None }
    ensures none { first_line 1940 packet ≡ None }
    ensures extension { first_line 1948 (rtp 0x90 0x60 ++ extension ++ 0 ∷ 1 ∷ [] ++ second_header)
        ≡ Some (line_with 539 true true) }
    ensures stated { seen (record { number = 1; stamp = 10; bytes = frame_on 27 line_header })
        ≡ seen_as.Read (plain_at 1 10) }

    // The greatest line number, any line of a second field, and whether all line headers fit raw video.
    ensures lines { lines_of (line_with 3 false true ∷ line_with 9 true true ∷ line_with 5 false true ∷ [])
        ≡ Some (record { greatest = 9; second_field = true; fits = true }) }
    ensures misfit { lines_of (line_with 3 false true ∷ line_with 9 false false ∷ line_with 5 false true ∷ [])
        ≡ Some (record { greatest = 9; second_field = false; fits = false }) }
    ensures no_lines { lines_of [] ≡ None }
{}

/// Line headers that fit raw video, and some that don't: one of 1,920 bytes that ends with the UDP data, and one byte
/// behind its end; line numbers 4,319 and 4,320; audio samples (L24) in its place; and one of 100 bytes in a frame that
/// was captured only up to the line header, with UDP lengths of 128 (8 of UDP, 12 of RTP, 2, 6 and 100) and 127.
pub fn fits_by_hand()
    ensures all { first_line 1940 (packet ++ line_header) ≡ Some (line_with 1079 false true) }
    ensures one_less { first_line 1939 (packet ++ line_header) ≡ Some (line_with 1079 false false) }
    ensures last { first_line 20 (packet ++ last_header) ≡ Some (line_with 4319 false true) }
    ensures further { first_line 20 (packet ++ further_header) ≡ Some (line_with 4320 false false) }
    ensures audio { first_line 302 (packet ++ samples) ≡ Some (line_with 22253 false false) }
    ensures cut { seen (record { number = 1; stamp = 10; bytes = frame_on 128 short_header })
        ≡ seen_as.Read (record (plain_at 1 10) { line = Some (line_with 1079 false true) }) }
    ensures short { seen (record { number = 1; stamp = 10; bytes = frame_on 127 short_header })
        ≡ seen_as.Read (record (plain_at 1 10) { line = Some (line_with 1079 false false) }) }
{}

/// Orders of sequence numbers.
pub fn orders_by_hand()
    ensures one { order_of (7 ∷ []) ≡ order_with 0 0 0 0 }
    ensures in_order { order_of (7 ∷ 8 ∷ 9 ∷ []) ≡ order_with 0 0 0 0 }

    // At a wrap the extended sequence number is counted up, or isn't; or the sequence number 0 is lost.
    ensures carried { order_of (65534 ∷ 65535 ∷ 65536 ∷ []) ≡ order_with 0 0 0 0 }
    ensures not_carried { order_of (65534 ∷ 65535 ∷ 0 ∷ 1 ∷ []) ≡ order_with 0 0 0 1 }
    ensures passed { order_of (65535 ∷ 1 ∷ []) ≡ order_with 1 0 0 0 }

    // One packet is missing; two arrive in the wrong order; one arrives twice.
    ensures lost { order_of (7 ∷ 9 ∷ 10 ∷ []) ≡ order_with 1 0 0 0 }
    ensures turned { order_of (7 ∷ 9 ∷ 8 ∷ 10 ∷ []) ≡ order_with 2 1 0 0 }
    ensures twice { order_of (7 ∷ 7 ∷ 8 ∷ []) ≡ order_with 0 0 1 0 }

    // The greatest jump that counts as a loss, and the greatest and the least that go back.
    ensures farthest { order_of (0 ∷ 32768 ∷ []) ≡ order_with 32767 0 0 0 }
    ensures too_far { order_of (0 ∷ 32769 ∷ []) ≡ order_with 0 1 0 0 }
    ensures one_back { order_of (1 ∷ 0 ∷ []) ≡ order_with 0 1 0 0 }

    // The extended sequence number doesn't count.
    ensures other_high { order_of (7 ∷ 65544 ∷ []) ≡ order_with 0 0 0 0 }
{}

/// Paces: three packets with the marker, and two others between the first and the second.
pub fn paces_by_hand()
    ensures three { pace_of (read_with 100 true ∷ read_with 200 false ∷ read_with 200 false
        ∷ read_with 200 true ∷ read_with 500 true ∷ []) ≡ Some (pace_with 1 3 100 300 400 2) }
    ensures behind { pace_of (read_with 100 false ∷ read_with 100 true ∷ read_with 200 true
        ∷ read_with 300 false ∷ []) ≡ Some (pace_with 1 1 100 100 100 1) }
    ensures one { pace_of (read_with 100 false ∷ read_with 100 true ∷ read_with 200 false ∷ []) ≡ None }

    // Two frames of 20 packets behind a packet with the marker, at 50 frames per second; and the same with one packet
    // lost.
    ensures plain { pace_of (read_with 0 true ∷ frame_of_reads 19 1800 ++ frame_of_reads 19 3600)
        ≡ Some (pace_with 20 20 1800 1800 3600 2) }
    ensures gap { pace_of (read_with 0 true ∷ frame_of_reads 19 1800 ++ frame_of_reads 18 3600)
        ≡ Some (pace_with 19 20 1800 1800 3600 2) }

    // The RTP timestamp wraps, and stays the same.
    ensures wraps { pace_of (read_with 4294967196 true ∷ read_with 200 true ∷ read_with 200 true ∷ [])
        ≡ Some (pace_with 1 1 0 300 300 2) }
{}

/// Eight packet records, one of each class and one RTP packet.
pub fn records_by_hand()
    ensures passed_over { passed_over (one_of_each 1)
        ≡ record { empty = 1; tags = 1; ipv6 = 1; other = 1; not_udp = 1; fragment = 1; broken = 1 } }
    ensures packets { packets (one_of_each 1) ≡ plain_at 8 80 ∷ [] }
    ensures unread { unread (one_of_each 1) ≡ [] }
    ensures span { span_of (one_of_each 1) ≡ Some (record { first = 10; last = 80 }) }
    ensures none { span_of [] ≡ None }

    // An unread packet between two RTP packets.
    ensures short { packets (records_from 1 (frame_of plain_ip ∷ take 55 (frame_of plain_ip)
        ∷ frame_of plain_ip ∷ [])) ≡ plain_at 1 10 ∷ plain_at 3 30 ∷ [] }
    ensures unread_one { unread (records_from 1 (frame_of plain_ip ∷ take 55 (frame_of plain_ip)
        ∷ frame_of plain_ip ∷ [])) ≡ group ∷ [] }
{}

/// Streams: two senders to one target. The one with SSRC 2 begins first and is listed first.
pub fn streams_by_hand()
    ensures two { streams (came 1 2 7 false ∷ came 2 1 7 true ∷ came 3 2 8 true ∷ came 4 2 10 true ∷ [])
        ≡ record {
          source = sender;
          target = group;
          ssrc = 2;
          pt = 96;
          pts = 0;
          packets = 3;
          markers = 2;
          first = record { rec = 1; at = 1 };
          last = record { rec = 4; at = 4 };
          bytes = 126;
          order = order_with 1 0 0 0;
          pace = Some (pace_with 1 1 0 0 0 1);
          lines = None;
        }
        ∷ record {
          source = sender;
          target = group;
          ssrc = 1;
          pt = 96;
          pts = 0;
          packets = 1;
          markers = 1;
          first = record { rec = 2; at = 2 };
          last = record { rec = 2; at = 2 };
          bytes = 42;
          order = order_with 0 0 0 0;
          pace = None;
          lines = None;
        } ∷ [] }
    ensures no_more { more_packets (came 1 2 7 false ∷ came 2 1 7 true ∷ []) ≡ 0 }
    ensures none { streams [] ≡ [] }

    // With one listed key, the items of the second and of the third key count as more; with two, those of the third.
    ensures told { told nat_eq (λ k. k) 1 (5 ∷ 6 ∷ 5 ∷ 7 ∷ 6 ∷ []) ≡ 5 ∷ [] }
    ensures more { count_more nat_eq (λ k. k) 1 (5 ∷ 6 ∷ 5 ∷ 7 ∷ 6 ∷ []) ≡ 3 }
    ensures two_told { told nat_eq (λ k. k) 2 (5 ∷ 6 ∷ 5 ∷ 7 ∷ 6 ∷ []) ≡ 5 ∷ 6 ∷ [] }
    ensures two_more { count_more nat_eq (λ k. k) 2 (5 ∷ 6 ∷ 5 ∷ 7 ∷ 6 ∷ []) ≡ 1 }

    // Unread packets to two targets.
    ensures unread { unread_targets (group ∷ sender ∷ group ∷ [])
        ≡ record { target = group; packets = 2 } ∷ record { target = sender; packets = 1 } ∷ [] }
{}

/// The packets of a stream are those packets of the flow of a media with its target that are read as RTP with its SSRC.
pub fn streams_are_flows()
    ensures { (media : Media) (ssrc : ℕ) (records : List Record)
        → map as_flow_packet (packets_of (packets records) (stream_to (target_of media) ssrc))
        ≡ filter (is_from ssrc) (flow records media) }
{}

/// Each packet record counts once: in its class, in its stream, at its target, or in `more`.
pub fn records_count_once()
    ensures { (records : List Record) → count_passed (passed_over records)
        + (sum_by (λ s. s.packets) (streams (packets records))
        + (sum_by (λ u. u.packets) (unread_targets (unread records))
        + (more_packets (packets records) + more_unread (unread records)))) ≡ length records }
{}
