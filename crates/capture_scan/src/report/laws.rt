//! Texts of scans that are worked by hand, and laws of drafts. Each function is a theorem: it does nothing, and its
//! clauses are proved.

ghost use Rattle.std.specs.Prelude.{◌≡◌, ◌≤◌, ◌*◌, ◌++◌, ◌∷◌, [], All, List, None, Ok, Some, codes, false, is_none, length, map, not, true};
ghost use Rattle.std.specs.List.{list_any};
ghost use Rattle.sdp_reader.specs.Session.{session};
ghost use Rattle.capture_scan.specs.report.ReadBack.{HasBits, HaveOwnTargets, IsDrafted, media_of};
ghost use Rattle.capture_scan.specs.declared.stream.Lines.{Lines};
ghost use Rattle.capture_scan.specs.declared.stream.Pace.{Pace};
ghost use Rattle.capture_scan.specs.declared.stream.Stream.{Stream};
ghost use Rattle.capture_scan.specs.declared.report.draft.DraftVideo.{DraftVideo};
ghost use Rattle.timing_base.specs.declared.capture.FileNote.TheVariants as note;
ghost use Rattle.capture_scan.specs.report.Draft.{draft_text, has_fields, height_of, is_added, is_height_guessed, is_raw, seen_height, video_of, videos_of};
ghost use Rattle.capture_scan.specs.report.Examples.{empty_contents, fields_to, frames_to, guessed_of_frames, mixed_contents, plain_contents, plain_stream, stream_of_478, stream_of_audio, stream_of_fields, ticks_in};
ghost use Rattle.capture_scan.specs.report.Json.{json_text};
ghost use Rattle.capture_scan.specs.report.Text.{contents_text, heading};
ghost use Rattle.capture_scan.specs.report.Rates.{denominator, drafted_rate, exact, faster, is_known, is_within, nearest, numerator, rate_text, ratio_with, slowed, slowest};

/// The whole JSON of a capture with one stream.
#[tactic(auto, unfolding(crate::proofs::lemmas::report::Numerals::scan_texts))]
pub fn plain_json_by_hand()
    ensures { json_text (codes "a.pcap") note.End plain_contents
        ≡ codes "{\"end\":\"end\",\"first\":1599999999999000000,\"last\":1600000000039004000,"
        ++ (codes "\"more\":0,\"name\":\"a.pcap\",\"passed_over\":{\"broken\":0,\"empty\":0,"
        ++ (codes "\"fragment\":0,\"ipv6\":0,\"not_udp\":0,\"other\":0,\"tags\":0},\"records\":41,"
        ++ (codes "\"streams\":[{\"back\":0,\"bytes\":1722,\"first\":{\"record\":1,"
        ++ (codes "\"stamp\":1599999999999000000},\"frame\":{\"greatest\":20,\"least\":20},"
        ++ (codes "\"last\":{\"record\":41,\"stamp\":1600000000039004000},\"lost\":0,\"markers\":3,"
        ++ (codes "\"packets\":41,\"pt\":96,\"pts\":0,\"rate\":{\"steps\":2,\"ticks\":3600},\"same\":0,"
        ++ (codes "\"source\":\"192.0.2.1:50000\",\"ssrc\":\"00000001\","
        ++ (codes "\"step\":{\"greatest\":1800,\"least\":1800},\"target\":\"239.0.0.1:50000\","
        ++ codes "\"wraps\":0}],\"unread\":[]}\n")))))))) }
{}

/// The whole JSON of a capture without packet records.
#[tactic(auto, unfolding(crate::proofs::lemmas::report::Numerals::scan_texts))]
pub fn empty_json_by_hand()
    ensures { json_text (codes "e.pcap") (note.Cut 24) empty_contents
        ≡ codes "{\"end\":\"cut at 24\",\"more\":0,\"name\":\"e.pcap\",\"passed_over\":{\"broken\":0,"
        ++ (codes "\"empty\":0,\"fragment\":0,\"ipv6\":0,\"not_udp\":0,\"other\":0,\"tags\":0},"
        ++ codes "\"records\":0,\"streams\":[],\"unread\":[]}\n") }
{}

/// The eighths of a tick of each known rate: the rate times the ticks of a frame is 90,000 ticks per second.
pub fn known_rates_by_hand()
    ensures { map (λ r. r.eighths * numerator r) (slowest ∷ faster) ≡ map (λ r. 720000 * denominator r) (slowest ∷ faster) }
{}

/// The nearest rates: of a mean step of 1501.5 ticks, of one half-way between 1501.5 and 1500 ticks and of one below
/// that, of fields of 1501.5 ticks, and of steps that are longer or shorter than those of all known rates.
pub fn nearest_by_hand()
    ensures near { nearest false (ticks_in 3003 2) ≡ slowed 60 12012 }
    ensures half_way { nearest false (ticks_in 6003 4) ≡ slowed 60 12012 }
    ensures below { nearest false (ticks_in 6002 4) ≡ exact 60 12000 }
    ensures fields { nearest true (ticks_in 3003 2) ≡ slowed 30 24024 }
    ensures long { nearest false (ticks_in 90000 1) ≡ slowest }
    ensures short { nearest false (ticks_in 1 1) ≡ exact 120 6000 }
{}

/// The texts of frame rates.
#[tactic(auto, unfolding(crate::proofs::lemmas::report::Numerals::scan_texts))]
pub fn rates_by_hand()
    ensures film { rate_text (slowed 24 30030) ≡ codes "23.98 frames per second (24000/1001)" }
    ensures video { rate_text (slowed 60 12012) ≡ codes "59.94 frames per second (60000/1001)" }
    ensures fast { rate_text (slowed 120 6006) ≡ codes "119.88 frames per second (120000/1001)" }
    ensures whole { rate_text (exact 50 14400) ≡ codes "50 frames per second" }
{}

/// The frame rate of a draft. `whole` to `fields`: known rates. `low` to `higher`: 50 frames per second has steps of
/// 1,800 ticks, and is taken for means of which these are 99 to 101 hundredths. The others aren't within a hundredth of
/// any known rate: 12.5 frames per second, of frames and of fields; 2.4; 374 ticks, which would be above 240 frames per
/// second; and 0 ticks.
#[tactic(auto, unfolding(crate::proofs::lemmas::report::Numerals::scan_texts))]
pub fn drafted_rates_by_hand()
    ensures whole { drafted_rate false (ticks_in 3600 2) ≡ ratio_with 50 1 }
    ensures slowed { drafted_rate false (ticks_in 3003 2) ≡ ratio_with 60000 1001 }
    ensures fields { drafted_rate true (ticks_in 3003 2) ≡ ratio_with 30000 1001 }
    ensures low { is_known false (ticks_in 180000 99) ≡ true }
    ensures lower { is_known false (ticks_in 180001 99) ≡ false }
    ensures high { is_known false (ticks_in 180000 101) ≡ true }
    ensures higher { is_known false (ticks_in 179999 101) ≡ false }
    ensures slow { drafted_rate false (ticks_in 14400 2) ≡ ratio_with 25 2 }
    ensures slow_fields { drafted_rate true (ticks_in 7200 2) ≡ ratio_with 25 2 }
    ensures above { drafted_rate false (ticks_in 1500000 40) ≡ ratio_with 12 5 }
    ensures fast { drafted_rate false (ticks_in 374 1) ≡ ratio_with 120 1 }
    ensures none { drafted_rate false (ticks_in 0 1) ≡ ratio_with 120 1 }
{}

/// A rate with a denominator above 1001 in lowest terms isn't measured: of a step of 7207 ticks the nearest rate is
/// 24000/1001.
#[tactic(auto, unfolding(crate::proofs::lemmas::report::Numerals::scan_texts))]
pub fn long_denominator_by_hand()
    ensures { drafted_rate false (ticks_in 7207 1) ≡ ratio_with 24000 1001 }
{}

/// The height of a draft. `fields` and `over_frame`: fields with lines numbered within the field, or over the whole
/// frame. `frames`: whole frames. `near` and `fewer`: up to four lines fewer than a height in use, and five fewer.
/// `near_fields` and `others`: the same for fields, heights not in use, and fields that would make more than 2,160
/// lines. `greatest`: the greatest line number. `no_line`: no line header. `guessed`: which heights are guesses.
pub fn heights_by_hand()
    ensures fields { map fields_to (539 ∷ 287 ∷ 242 ∷ 239 ∷ []) ≡ 1080 ∷ 576 ∷ 486 ∷ 480 ∷ [] }
    ensures over_frame { map fields_to (1079 ∷ 575 ∷ 485 ∷ 479 ∷ []) ≡ 1080 ∷ 576 ∷ 486 ∷ 480 ∷ [] }
    ensures frames { map frames_to (2159 ∷ 1079 ∷ 719 ∷ 479 ∷ []) ≡ 2160 ∷ 1080 ∷ 720 ∷ 480 ∷ [] }
    ensures near { map frames_to (2155 ∷ 1075 ∷ 715 ∷ 571 ∷ 481 ∷ 475 ∷ []) ≡ 2160 ∷ 1080 ∷ 720 ∷ 576 ∷ 486 ∷ 480 ∷ [] }
    ensures fewer { map frames_to (1074 ∷ 480 ∷ 474 ∷ []) ≡ 1075 ∷ 481 ∷ 475 ∷ [] }
    ensures near_fields { map fields_to (537 ∷ 538 ∷ 237 ∷ 1077 ∷ []) ≡ 1080 ∷ 1080 ∷ 480 ∷ 1080 ∷ [] }
    ensures others { map fields_to (599 ∷ 1080 ∷ 1079 ∷ []) ≡ 1200 ∷ 1081 ∷ 1080 ∷ [] }
    ensures greatest { map frames_to (32767 ∷ []) ≡ 32767 ∷ [] }
    ensures no_line { height_of None ≡ 1080 }
    ensures guessed { map guessed_of_frames (1079 ∷ 1078 ∷ 599 ∷ []) ≡ false ∷ true ∷ true ∷ [] }
{}

/// The whole draft of one stream.
#[tactic(auto, unfolding(crate::proofs::lemmas::report::Numerals::scan_texts))]
pub fn plain_draft_by_hand()
    ensures { draft_text (videos_of plain_contents.streams)
        ≡ codes "v=0\no=- 0 0 IN IP4 0.0.0.0\ns=draft\nt=0 0\n"
        ++ (codes "m=video 50000 RTP/AVP 96\ni=guessed: width, lines not captured\n"
        ++ (codes "c=IN IP4 239.0.0.1/32\na=rtpmap:96 raw/90000\n"
        ++ codes "a=fmtp:96 width=1920; height=1080; exactframerate=50; \n")) }
{}

/// The draft of a stream of fields, and of a second stream to the same target, which adds no video.
#[tactic(auto, unfolding(crate::proofs::lemmas::report::Numerals::scan_texts))]
pub fn fields_draft_by_hand()
    ensures { draft_text (videos_of (stream_of_fields ∷ plain_stream ∷ []))
        ≡ codes "v=0\no=- 0 0 IN IP4 0.0.0.0\ns=draft\nt=0 0\n"
        ++ (codes "m=video 50000 RTP/AVP 96\ni=guessed: width\n"
        ++ (codes "c=IN IP4 239.0.0.1/32\na=rtpmap:96 raw/90000\n"
        ++ codes "a=fmtp:96 width=1920; height=1080; exactframerate=30000/1001; interlace; \n")) }
{}

/// The draft of a stream of audio, which adds no video, and of a stream with 478 lines seen, at 12.5 frames per second.
#[tactic(auto, unfolding(crate::proofs::lemmas::report::Numerals::scan_texts))]
pub fn guessed_draft_by_hand()
    ensures { draft_text (videos_of (stream_of_audio ∷ stream_of_478 ∷ []))
        ≡ codes "v=0\no=- 0 0 IN IP4 0.0.0.0\ns=draft\nt=0 0\n"
        ++ (codes "m=video 50000 RTP/AVP 96\ni=guessed: width, height, rate\n"
        ++ (codes "c=IN IP4 239.0.0.1/32\na=rtpmap:96 raw/90000\n"
        ++ codes "a=fmtp:96 width=720; height=480; exactframerate=25/2; \n")) }
{}

/// The whole text of a capture with one stream.
#[tactic(auto, unfolding(crate::proofs::lemmas::report::Numerals::scan_texts))]
pub fn plain_text_by_hand()
    ensures { contents_text (codes "a.pcap" ∷ []) (note.End ∷ []) plain_contents
        ≡ codes "capture a.pcap: end, 41 records, 1 streams\n"
        ++ (codes "stream 1 from    192.0.2.1:50000 to 239.0.0.1:50000, ssrc 00000001, "
        ++ (codes "payload type 96 but for 0\n"
        ++ (codes "stream 1 packets 41 in records 1 to 41, 3 with the marker, 1722 bytes\n"
        ++ (codes "stream 1 rate    50 frames per second, steps of 1800 to 1800 ticks\n"
        ++ (codes "stream 1 frame   20 to 20 packets\n"
        ++ (codes "stream 1 lost    0 of 41 sent (0.00 %), 0 back, 0 repeated, "
        ++ (codes "0 wraps without the extended number\n"
        ++ codes "stream 1 lines   not seen: no line header was captured\n"))))))) }
{}

/// The whole text of a capture with frames without a target, unread packets, packets of streams that aren't listed, and
/// a stream of fields with a lost packet.
#[tactic(auto, unfolding(crate::proofs::lemmas::report::Numerals::scan_texts))]
pub fn mixed_text_by_hand()
    ensures { contents_text (codes "b.pcap" ∷ []) (note.Cut 2904 ∷ []) mixed_contents
        ≡ codes "capture b.pcap: cut at 2904, 51 records, 1 streams\n"
        ++ (codes "passed over 2: more than one VLAN tag, or a provider's\n"
        ++ (codes "passed over 1: IPv6\n"
        ++ (codes "unread 3: UDP to 239.0.0.1:50000 that isn't RTP with an extended sequence number\n"
        ++ (codes "more 5: packets of further streams and targets\n"
        ++ (codes "stream 1 from    192.0.2.1:50000 to 239.0.0.1:50000, ssrc 00000001, "
        ++ (codes "payload type 96 but for 0\n"
        ++ (codes "stream 1 packets 40 in records 1 to 41, 3 with the marker, 1722 bytes\n"
        ++ (codes "stream 1 rate    29.97 frames per second (30000/1001), steps of 1501 to 1502 ticks\n"
        ++ (codes "stream 1 frame   19 to 20 packets\n"
        ++ (codes "stream 1 lost    1 of 41 sent (2.43 %), 0 back, 0 repeated, "
        ++ (codes "0 wraps without the extended number\n"
        ++ codes "stream 1 lines   540 in each of two fields\n"))))))))))) }
{}

/// The whole text of two captures that were taken as one and have no packet record, and the first lines of two captures
/// with 41 packet records and one stream between them.
#[tactic(auto, unfolding(crate::proofs::lemmas::report::Numerals::scan_texts))]
pub fn two_captures_by_hand()
    ensures empty { contents_text (codes "a.pcap" ∷ codes "b.pcap" ∷ []) (note.End ∷ note.Cut 24 ∷ []) empty_contents
        ≡ codes "capture a.pcap: end\ncapture b.pcap: cut at 24\nall captures: 0 records, 0 streams\n" }
    ensures first { heading (codes "a.pcap" ∷ codes "b.pcap" ∷ []) (note.Cut 1500 ∷ note.End ∷ []) plain_contents
        ≡ codes "capture a.pcap: cut at 1500\ncapture b.pcap: end\nall captures: 41 records, 1 streams\n" }
{}

/// The list of guesses is exact. The rate is a guess if no known rate has a step within a hundredth of the mean. The
/// height is a guess if line headers were captured and the lines seen aren't a height in use; if it isn't a guess, it
/// is the lines seen. `lines not captured` stands there if no line header was captured.
pub fn guesses_are_exact()
    ensures rate { (s : Stream) (pace : Pace) → s.pace ≡ Some pace
        → (video_of s).guesses.rate ≡ not (list_any (is_within (has_fields s.lines) pace.rate) (slowest ∷ faster)) }
    ensures height { (s : Stream) → (video_of s).guesses.height ≡ is_height_guessed s.lines }
    ensures seen { (s : Stream) (lines : Lines) → s.lines ≡ Some lines → (video_of s).guesses.height ≡ false
        → (video_of s).height ≡ seen_height lines }
    ensures lines { (s : Stream) → (video_of s).guesses.lines ≡ is_none s.lines }
{}

/// A stream with a line header that doesn't fit raw video has no video.
pub fn other_streams_have_no_video()
    ensures { (videos : List DraftVideo) (s : Stream) → is_raw s.lines ≡ false → is_added videos s ≡ false }
{}

/// A draft is read back as the media that it was made from: address, port, payload type, sizes, rate and `interlace` of
/// each video, and no sender type. This holds of 1 to 64 videos with values in the ranges of an SDP and different
/// targets.
pub fn drafts_are_read_back()
    ensures { (videos : List DraftVideo) → All IsDrafted videos → HaveOwnTargets videos → 1 ≤ length videos
        → length videos ≤ 64 → session (draft_text videos) ≡ Ok (media_of videos) }
{}

/// The videos of streams have different targets, and are at most 64.
pub fn drafts_have_own_targets()
    ensures own { (streams : List Stream) → HaveOwnTargets (videos_of streams) }
    ensures few { (streams : List Stream) → length (videos_of streams) ≤ 64 }
{}

/// The draft of streams is read back as their videos, if it has at least one.
pub fn streams_are_read_back()
    ensures { (streams : List Stream) → All HasBits streams → 1 ≤ length (videos_of streams)
        → session (draft_text (videos_of streams)) ≡ Ok (media_of (videos_of streams)) }
{}
