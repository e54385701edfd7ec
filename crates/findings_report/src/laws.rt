//! Sentences, lines and JSON that are worked by hand. Each function is a theorem: it does nothing, and its clauses are
//! proved.

ghost use Rattle.std.specs.Prelude.{◌≡◌, ◌++◌, ◌∷◌, [], None, Some, codes, map, neg_ℤ, pos};
ghost use Rattle.timing_base.specs.Examples.{plain_media};
ghost use Rattle.timing_base.specs.declared.capture.FileNote.TheVariants.{Cut, End};
ghost use Rattle.timing_base.specs.declared.media.Kind.TheVariants.{N, W};
ghost use Rattle.timing_base.specs.declared.packet.PacketFault.TheVariants.{NoMarker};
ghost use Rattle.sender_params.specs.Worked.{hd_25_interlaced};
ghost use Rattle.flow_findings.specs.Worked.{all_late, burst_found, found_of, in_short, late_found, offsets, rate_50, some_passed_over, steps, target_at, unjudged_of};
ghost use Rattle.flow_findings.specs.declared.finding.Finding.TheVariants as finding;
ghost use Rattle.flow_findings.specs.declared.finding.Refusal.TheVariants.{Fault, Gap};
ghost use Rattle.findings_report.specs.Json.{explained_json};
ghost use Rattle.findings_report.specs.Text.{explained_text, sentence, setting_of};
ghost use Rattle.findings_report.specs.Times.{epoch_text, micro_sign, signed_time_text, tenths_text, time_text};

/// Times: 18,240,000 ns are 18.24 ms, and so on, without zeros at the end.
#[tactic(auto, unfolding(crate::proofs::Numerals::explained_texts))]
pub fn times_by_hand()
    ensures milli { map time_text (18240000 ∷ 20000000 ∷ 3632334 ∷ 1000001 ∷ [])
        ≡ codes "18.24 ms" ∷ codes "20 ms" ∷ codes "3.632334 ms" ∷ codes "1.000001 ms" ∷ [] }
    ensures micro { map time_text (637674 ∷ 444 ∷ 5300 ∷ 0 ∷ [])
        ≡ (codes "637.674 " ++ micro_sign) ∷ (codes "0.444 " ++ micro_sign) ∷ (codes "5.3 " ++ micro_sign)
        ∷ (codes "0 " ++ micro_sign) ∷ [] }
    ensures second { map time_text (1000000000 ∷ 2500000000 ∷ 1000000010 ∷ [])
        ≡ codes "1 s" ∷ codes "2.5 s" ∷ codes "1.00000001 s" ∷ [] }
    ensures signed { signed_time_text (neg_ℤ (pos 5300000)) ≡ codes "-5.3 ms" }
    ensures epoch { epoch_text 1600000000020764000 ≡ codes "1600000000.020764000" }
    ensures tenths { tenths_text 123 ≡ codes "12.3" }
{}

/// The whole text of a burst of five packets, and of RTP timestamps that aren't the media clock's.
#[tactic(auto, unfolding(crate::proofs::Numerals::explained_texts))]
pub fn burst_text_by_hand()
    ensures { explained_text (codes "a.pcap" ∷ []) (End ∷ []) (plain_media ∷ [])
        (found_of (Some W) (burst_found ∷ finding.Unlocked (pos 1663502088) ∷ []) ∷ [])
        ≡ codes "1 239.0.0.1:50000 declared N class wide: burst\n"
        ++ (codes "  burst: the bucket holds up to 5 packets, N allows 4: 1 packet in 1 of 2 frames, first record 26 at "
        ++ (codes "1600000000.020764000. A frame is sent within 18.24 ms of its 20 ms.\n"
        ++ (codes "  do: space the packets of a frame evenly. If the capturing host makes the timestamps in software, "
        ++ (codes "capture with the network card's first.\n"
        ++ (codes "  unlocked: RTP timestamps differ from the media clock by 1663502088 ticks. No limit of ST 2110-21 "
        ++ (codes "depends on it.\n"
        ++ codes "  do: lock the sender's RTP clock to PTP if receivers need it.\n")))))) }
{}

/// The whole text of capture timestamps in UTC, by which all packets are late.
#[tactic(auto, unfolding(crate::proofs::Numerals::explained_texts))]
pub fn utc_text_by_hand()
    ensures { explained_text (codes "a.pcap" ∷ []) (End ∷ []) (plain_media ∷ [])
        (found_of None (finding.Utc (pos 3330000) ∷ finding.Phase all_late ∷ []) ∷ [])
        ≡ codes "1 239.0.0.1:50000 declared N class none: utc\n"
        ++ (codes "  utc: RTP timestamps are 37 s ahead of the capture's timestamps, so these count in UTC.\n"
        ++ (codes "  do: add --tai 37.\n"
        ++ (codes "  phase: 40 of 40 packets come after their read, by up to 3.632334 ms. With an offset (TROFF) of 4271 to "
        ++ (codes "10676 " ++ (micro_sign ++ (codes " the buffer would pass; the description's is 637.674 "
        ++ (micro_sign ++ (codes ".\n"
        ++ (codes "  do: see the findings above first; else align the sender to the epoch or declare its TROFF, or give "
        ++ codes "--delay for a known delay of the capture.\n"))))))))) }
{}

/// The whole text of a media that is absent in three captures, of which the second one ends within a packet record.
#[tactic(auto, unfolding(crate::proofs::Numerals::explained_texts))]
pub fn absent_text_by_hand()
    ensures { explained_text (codes "a.pcap" ∷ codes "b.pcap" ∷ codes "c.pcap" ∷ []) (End ∷ Cut 3232 ∷ End ∷ [])
        (plain_media ∷ []) (unjudged_of (finding.Absent some_passed_over 1 ∷ []) ∷ [])
        ≡ codes "file 2 cut at 3232 b.pcap\n" ++ (codes "1 239.0.0.1:50000 declared N: absent\n"
        ++ (codes "  absent: no packet comes to this target. The capture has 1 stream. Passed over: 5 (IPv6). "
        ++ (codes "Passed over: 2 (neither IPv4 nor IPv6).\n"
        ++ (codes "  do: capture the right port or VLAN, and join the group. IPv6 and double VLAN tags aren't read.\n")))) }
{}

/// The sentences of the other findings on a flow as a whole and on its gaps.
#[tactic(auto, unfolding(crate::proofs::Numerals::explained_texts))]
pub fn flow_sentences_by_hand()
    ensures elsewhere { sentence (setting_of plain_media None) (finding.Elsewhere (target_at 1 50002) 41)
        ≡ codes "no packet comes to this target, but 41 packets to 239.0.0.1:50002, "
        ++ codes "which the description doesn't have." }
    ensures refused { sentence (setting_of plain_media None) (finding.Refused 7 (Fault NoMarker))
        ≡ codes "the flow is refused at record 7: NoMarker. None of its packets is judged." }
    ensures gap { sentence (setting_of plain_media None) (finding.Refused 9 (Gap 12 15))
        ≡ codes "the flow is refused at record 9: expected 12, got 15, one gap more than is allowed. "
        ++ codes "None of its packets is judged." }
    ensures unmarked { map (λ markers. sentence (setting_of hd_25_interlaced None) (finding.Unmarked 41 markers))
        (Some 1 ∷ Some 0 ∷ None ∷ []) ≡ codes "41 packets with 1 marker: no whole field."
        ∷ codes "41 packets with 0 markers: no whole field." ∷ codes "41 packets: no whole field." ∷ [] }
    ensures wrap { sentence (setting_of plain_media None) (finding.Wrap 1)
        ≡ codes "the sequence number wraps and the extended sequence number stays 0, at 1 gap." }
    ensures loss { sentence (setting_of plain_media None) (finding.Loss 2 12)
        ≡ codes "missing packets: 12, in 2 gaps." }
    ensures order { sentence (setting_of plain_media None) (finding.Order 1)
        ≡ codes "packet numbers go back, at 1 gap." }
{}

/// The sentences of the other findings on the run that is shown.
#[tactic(auto, unfolding(crate::proofs::Numerals::explained_texts))]
pub fn run_sentences_by_hand()
    ensures rate { sentence (setting_of plain_media (Some (in_short None)))
        (finding.Rate rate_50 (Some (steps 1501 1502)) (Some 16683333))
        ≡ codes "the description has 50 frames per second. RTP timestamps go on by 1501 to 1502 ticks. "
        ++ codes "On average a frame comes every 16.683333 ms." }
    ensures tai_twice { sentence (setting_of plain_media (Some (in_short None)))
        (finding.TaiTwice (neg_ℤ (pos 3330000)))
        ≡ codes "RTP timestamps are 37 s behind the capture's timestamps, so these count in TAI without --tai." }
    ensures pacing { sentence (setting_of plain_media (Some (in_short None)))
        (finding.Pacing (record {
          late = 3;
          above = 2;
          slack = neg_ℤ (pos 5300);
          offsets = offsets (Some 9) None;
          target = 764444;
        }))
        ≡ codes "3 of 40 packets come after their read, by up to 5.3 " ++ (micro_sign ++ (codes ". "
        ++ (codes "2 of 40 packets come so early that the buffer holds more than N allows. "
        ++ (codes "No offset (TROFF) serves all packets: none is late from 9 " ++ (micro_sign
        ++ (codes " on, and even with 0 s packets are too early; the description's is 764.444 "
        ++ (micro_sign ++ codes "."))))))) }
    ensures any { map (λ b. sentence (setting_of plain_media (Some (in_short None))) (finding.Pacing b))
        (record { late = 0; above = 1; slack = pos 0; offsets = offsets (Some 0) None; target = 0 }
        ∷ record { late = 1; above = 0; slack = neg_ℤ (pos 1000); offsets = offsets None (Some 9); target = 0 } ∷ [])
        ≡ (codes "1 of 40 packets come so early that the buffer holds more than N allows. "
        ++ (codes "No offset (TROFF) serves all packets: none is late with any, and even with 0 s packets are too early; "
        ++ (codes "the description's is 0 " ++ (micro_sign ++ codes "."))))
        ∷ (codes "1 of 40 packets come after their read, by up to 1 " ++ (micro_sign ++ (codes ". "
        ++ (codes "No offset (TROFF) serves all packets: even with 1 s packets are late, and none is too early up to 9 "
        ++ (micro_sign ++ (codes "; the description's is 0 " ++ (micro_sign ++ codes ".")))))))
        ∷ [] }
    ensures drift { map (λ t. sentence (setting_of plain_media (Some (in_short None))) (finding.Drift t))
        (pos 123 ∷ neg_ℤ (pos 10) ∷ []) ≡ codes "frames come later and later, by 12.3 ppm."
        ∷ codes "frames come earlier and earlier, by 1.0 ppm." ∷ [] }
    ensures rare { sentence (setting_of plain_media (Some (in_short None))) (finding.Rare 2 250 17)
        ≡ codes "N breaks in 2 of 250 frames, first in frame 17." }
    ensures pass { sentence (setting_of plain_media (Some (in_short (Some N)))) (finding.Pass 1 4 1 8 (pos 444))
        ≡ codes "N passes: the bucket holds up to 1 of 4 packets, the buffer up to 1 of 8, and each packet could come "
        ++ (codes "0.444 " ++ (micro_sign ++ codes " later.")) }
    ensures microseconds { sentence (setting_of plain_media (Some (in_short (Some N)))) (finding.Microseconds 909090)
        ≡ codes "every capture timestamp is a whole microsecond, and the bucket drains a packet every 909.09 "
        ++ (micro_sign ++ codes ".") }
{}

/// The whole JSON of the burst, and of a media that is absent in two captures.
#[tactic(auto, unfolding(crate::proofs::Numerals::explained_texts))]
pub fn json_by_hand()
    ensures burst { explained_json (codes "a.pcap" ∷ []) (End ∷ []) (plain_media ∷ [])
        (found_of (Some W) (burst_found ∷ finding.Phase late_found ∷ []) ∷ [])
        ≡ codes "{\"end\":\"end\",\"flows\":[{\"class\":\"wide\",\"declared\":\"N\",\"findings\":["
        ++ (codes "{\"finding\":\"burst\",\"greatest\":5,\"groups\":1,\"limit\":4,\"packets\":1,\"period\":20000000,"
        ++ (codes "\"record\":26,\"span\":18240000,\"stamp\":1600000000020764000},"
        ++ (codes "{\"above\":0,\"finding\":\"phase\",\"late\":38,\"slack\":-759556,\"target\":764444,"
        ++ (codes "\"troff\":{\"greatest\":8764,\"least\":1524}}],\"media\":1,\"runs\":{\"all\":1,\"judged\":1},"
        ++ codes "\"target\":\"239.0.0.1:50000\"}],\"name\":\"a.pcap\"}\n")))) }
    ensures absent { explained_json (codes "a.pcap" ∷ codes "b.pcap" ∷ []) (End ∷ End ∷ []) (plain_media ∷ [])
        (unjudged_of (finding.Absent some_passed_over 1 ∷ []) ∷ [])
        ≡ codes "{\"files\":[{\"end\":\"end\",\"name\":\"a.pcap\"},{\"end\":\"end\",\"name\":\"b.pcap\"}],\"flows\":["
        ++ (codes "{\"declared\":\"N\",\"findings\":[{\"finding\":\"absent\",\"passed_over\":{\"ipv6\":5,\"other\":2},"
        ++ codes "\"streams\":1}],\"media\":1,\"target\":\"239.0.0.1:50000\"}]}\n") }
{}
