//! Theorems about the definition, and examples of it worked by hand. Each function does nothing;
//! its clauses are what is proved.

ghost use Rattle.std.specs.Prelude.{◌≡◌, ◌<◌, ◌≤◌, ℕ, List, [], ◌∷◌, ◌++◌, All, map, length, replicate, Some, None, Ok, Err, codes, true, false};
ghost use Rattle.std.specs.Fmt.{decimal};
ghost use Rattle.timing_base.specs.Media.{IsMedia, Media};
ghost use Rattle.timing_base.specs.Addresses.{ipv4};
ghost use Rattle.timing_base.specs.Targets.{HaveOwnTargets};
ghost use Rattle.sdp_reader.specs.Bytes.{before, after, number};
ghost use Rattle.sdp_reader.specs.Examples.{line, fault, item, causes, part, lost_part, raw_0, one_part, one_media};
ghost use Rattle.sdp_reader.specs.Fault.{number_of, fault_text, comes_before, least};
ghost use Rattle.sdp_reader.specs.Lines.{TextLine, lines, line_faults, version_faults, video_of};
ghost use Rattle.sdp_reader.specs.Parameters.{items_of, list_of, value_size, value_offset, value_limit, value_rate, value_kind, cause_of, repeated_faults, item_named};
ghost use Rattle.sdp_reader.specs.Parts.{own_lines, connection_line, counting, address_of, is_raw_map, connection_faults, is_missing, faults_at, media_of};
ghost use Rattle.sdp_reader.specs.Session.{session, answer, faults, lines_before, media_in, raw_parts, target_faults, too_many_faults, StandsOn};
ghost use Rattle.sdp_reader.specs.declared.fault.SdpCause.TheVariants.{NotText, NoVersion, BadLine, BadMedia, NoConnection, BadAddress, BadParameter, RepeatedParameter, MissingParameter, BadRate, Segmented, ExtendedUdp, SameTarget, TooManyMedia, NoVideo, TooLarge};
ghost use Rattle.sdp_reader.specs.declared.fault.SdpFault.{SdpFault};
ghost use Rattle.sdp_reader.specs.declared.parameter.Name.TheVariants as name;

use timing_base::Kind;

/// The reported fault is on its line, and no other comes before it: none is on an earlier line, or
/// on the same line with a cause of a lower number.
pub fn told_fault_is_first()
    ensures stands { (ls : List TextLine) (f : SdpFault) → least (faults ls) ≡ Some f
        → StandsOn f.what ls f.line }
    ensures first { (ls : List TextLine) (f g : SdpFault) → least (faults ls) ≡ Some f
        → StandsOn g.what ls g.line → comes_before g f ≡ false }
    ensures none { (ls : List TextLine) (g : SdpFault) → least (faults ls) ≡ None
        → ¬ StandsOn g.what ls g.line }
{}

/// A session has one media for each raw part, in order.
pub fn each_part_has_a_media()
    ensures { (bytes : List ℕ) (media : List Media) → session bytes ≡ Ok media
        → map media_of (raw_parts (lines bytes)) ≡ map (λ m. Some m) media }
{}

/// No two media of a session have the same target.
pub fn targets_are_own()
    ensures { (bytes : List ℕ) (media : List Media) → session bytes ≡ Ok media
        → HaveOwnTargets media }
{}

/// The quantities of each media of a session are within their limits.
pub fn media_are_within()
    ensures { (bytes : List ℕ) (media : List Media) → session bytes ≡ Ok media
        → All IsMedia media }
{}

/// The media of a session are those that its lines describe.
pub fn accepted_media_are_described()
    ensures { (bytes : List ℕ) (media : List Media) → session bytes ≡ Ok media
        → media ≡ media_in (lines bytes) }
{}

/// A session description of more than 1,048,576 bytes is too large, whatever it contains.
pub fn size_is_limited()
    ensures above { (bytes : List ℕ) → 1048576 < length bytes
        → session bytes ≡ Err (fault 0 TooLarge) }
    ensures within { (bytes : List ℕ) → length bytes ≤ 1048576
        → session bytes ≡ answer (lines bytes) }
{}

/// Worked by hand: the numbers of the causes, which of two faults comes first, and the printed
/// form.
pub fn faults_by_hand()
    ensures numbers { map number_of (NotText ∷ NoVersion ∷ BadLine ∷ BadMedia ∷ NoConnection
        ∷ BadAddress ∷ BadParameter ∷ RepeatedParameter ∷ MissingParameter ∷ BadRate ∷ Segmented
        ∷ ExtendedUdp ∷ SameTarget ∷ TooManyMedia ∷ NoVideo ∷ TooLarge ∷ [])
        ≡ 1 ∷ 2 ∷ 3 ∷ 4 ∷ 5 ∷ 6 ∷ 7 ∷ 8 ∷ 9 ∷ 10 ∷ 11 ∷ 12 ∷ 13 ∷ 14 ∷ 15 ∷ 17 ∷ [] }
    ensures line { least (fault 8 NotText ∷ fault 7 TooManyMedia ∷ fault 9 NoVersion ∷ [])
        ≡ Some (fault 7 TooManyMedia) }
    ensures cause { least (fault 7 BadRate ∷ fault 7 BadParameter ∷ fault 7 Segmented ∷ [])
        ≡ Some (fault 7 BadParameter) }
    ensures text { (n : ℕ) → fault_text (fault n SameTarget)
        ≡ codes "line " ++ (decimal n ++ codes " SameTarget") }
{}

/// Worked by hand: a number has 1 to 10 digits, and a text is split at the first of a byte.
pub fn bytes_by_hand()
    ensures numbers { map number (codes "0" ∷ codes "0000000007" ∷ codes "9999999999" ∷ [])
        ≡ Some 0 ∷ Some 7 ∷ Some 9999999999 ∷ [] }
    ensures others { map number (codes "" ∷ codes "00000000007" ∷ codes "+7" ∷ codes "7 "
        ∷ codes "/" ∷ codes ":" ∷ [])
        ≡ None ∷ None ∷ None ∷ None ∷ None ∷ None ∷ [] }
    ensures before { before 61 (codes "a=b=c") ≡ codes "a" }
    ensures after { after 61 (codes "a=b=c") ≡ codes "b=c" }
    ensures nowhere { before 61 (codes "abc") ≡ codes "abc" }
    ensures nothing { after 61 (codes "abc") ≡ [] }
{}

/// Worked by hand: a line ends with LF or CR LF, and spaces and tabs at its end are dropped.
pub fn lines_by_hand()
    ensures several { lines (codes "v=0\r\n\n s=x \t\nt=") ≡ line 1 (codes "v=0") ∷ line 2 []
        ∷ line 3 (codes " s=x") ∷ line 4 (codes "t=") ∷ [] }
    ensures ended { lines (codes "v=0\n") ≡ line 1 (codes "v=0") ∷ [] }

    // Only one CR directly before an LF is dropped.
    ensures kept { lines (codes "a\r\r\nb\r \nc\r") ≡ line 1 (codes "a\r") ∷ line 2 (codes "b\r")
        ∷ line 3 (codes "c\r") ∷ [] }
{}

/// Worked by hand: the faults of single lines.
pub fn line_faults_by_hand()
    ensures good { map line_faults (line 7 [] ∷ line 7 (codes "a=") ∷ line 7 (codes "z= x")
        ∷ line 7 (codes "m=audio x") ∷ line 7 (codes "m=videos") ∷ line 7 (codes "m=VIDEO")
        ∷ line 7 (codes "m=video\t1") ∷ line 7 (codes "m=video 1 RTP/AVP 0") ∷ [])
        ≡ [] ∷ [] ∷ [] ∷ [] ∷ [] ∷ [] ∷ [] ∷ [] ∷ [] }
    ensures no_text { map line_faults (line 7 (115 ∷ 61 ∷ 0 ∷ []) ∷ line 8 (codes "s=\rx") ∷ [])
        ≡ (fault 7 NotText ∷ []) ∷ (fault 8 NotText ∷ []) ∷ [] }
    ensures begun_badly { map line_faults (line 7 (codes "A=") ∷ line 7 (codes "`=")
        ∷ line 7 (codes "{=") ∷ line 7 (codes "a") ∷ line 7 (codes "a =x") ∷ [])
        ≡ (fault 7 BadLine ∷ []) ∷ (fault 7 BadLine ∷ []) ∷ (fault 7 BadLine ∷ [])
        ∷ (fault 7 BadLine ∷ []) ∷ (fault 7 BadLine ∷ []) ∷ [] }
    ensures bad_media { map line_faults (line 7 (codes "m=video")
        ∷ line 8 (codes "m=video  1 RTP/AVP 0") ∷ [])
        ≡ (fault 7 BadMedia ∷ []) ∷ (fault 8 BadMedia ∷ []) ∷ [] }
    ensures both { line_faults (line 7 (0 ∷ [])) ≡ fault 7 NotText ∷ fault 7 BadLine ∷ [] }

    // The first line that isn't empty has to be the version.
    ensures version { version_faults (line 1 [] ∷ line 2 (codes "v=0") ∷ []) ≡ [] }
    ensures other { version_faults (line 1 [] ∷ line 2 (codes "v=00") ∷ [])
        ≡ fault 2 NoVersion ∷ [] }
    ensures empty { version_faults (line 1 [] ∷ line 2 [] ∷ []) ≡ fault 1 NoVersion ∷ [] }
{}

/// Worked by hand: the fields of a video line.
pub fn video_lines_by_hand()
    ensures least { video_of (codes "video 1 RTP/AVP 0")
        ≡ Some (record { port = 1; format = 0 }) }
    ensures most { video_of (codes "video 65535 RTP/AVP 127 98 x")
        ≡ Some (record { port = 65535; format = 127 }) }
    ensures ports { map video_of (codes "video 0 RTP/AVP 0" ∷ codes "video 65536 RTP/AVP 0"
        ∷ codes "video 1/2 RTP/AVP 0" ∷ [])
        ≡ None ∷ None ∷ None ∷ [] }
    ensures formats { map video_of (codes "video 1 RTP/AVP 128" ∷ codes "video 1 RTP/AVP 0x"
        ∷ codes "video 1 RTP/AVP" ∷ [])
        ≡ None ∷ None ∷ None ∷ [] }
    ensures others { map video_of (codes "audio 1 RTP/AVP 0" ∷ codes "video 1 rtp/avp 0"
        ∷ codes "video 1 RTP/SAVP 0" ∷ [])
        ≡ None ∷ None ∷ None ∷ [] }
{}

/// Worked by hand: addresses, and which connection applies.
pub fn connections_by_hand()
    ensures good { map address_of (line 7 (codes "c=IN IP4 0.0.0.0")
        ∷ line 7 (codes "c=IN IP4 1.2.3.4") ∷ line 7 (codes "c=IN IP4 001.2.3.4/0")
        ∷ line 7 (codes "c=IN IP4 255.255.255.255/255") ∷ [])
        ≡ Some (ipv4 0 0 0 0) ∷ Some (ipv4 1 2 3 4) ∷ Some (ipv4 1 2 3 4)
        ∷ Some (ipv4 255 255 255 255) ∷ [] }
    ensures octets { map address_of (line 7 (codes "c=IN IP4 256.2.3.4")
        ∷ line 7 (codes "c=IN IP4 1.256.3.4") ∷ line 7 (codes "c=IN IP4 1.2.256.4")
        ∷ line 7 (codes "c=IN IP4 1.2.3.256")
        ∷ line 7 (codes "c=IN IP4 1.2.3.0004") ∷ [])
        ≡ None ∷ None ∷ None ∷ None ∷ None ∷ [] }
    ensures forms { map address_of (line 7 (codes "c=IN IP4 1.2.3")
        ∷ line 7 (codes "c=IN IP4 1.2.3.4.5") ∷ line 7 (codes "c=IN IP4 1.2.3.4/")
        ∷ line 7 (codes "c=IN IP4 1.2.3.4/256")
        ∷ line 7 (codes "c=IN IP4 1.2.3.4/1/2") ∷ line 7 (codes "c=IN IP6 ::1") ∷ [])
        ≡ None ∷ None ∷ None ∷ None ∷ None ∷ None ∷ [] }

    // The first `c=` line of the part applies, otherwise that of the session.
    ensures first { connection_line (line 7 (codes "a=x") ∷ line 8 (codes "c=x")
        ∷ line 9 (codes "c=y") ∷ [])
        ≡ Some (line 8 (codes "c=x")) }
    ensures own { counting (Some (line 8 (codes "c=x"))) (Some (line 3 (codes "c=y")))
        ≡ Some (line 8 (codes "c=x")) }
    ensures of_session { counting None (Some (line 3 (codes "c=y"))) ≡ Some (line 3 (codes "c=y")) }
    ensures absent { connection_faults 7 None ≡ fault 7 NoConnection ∷ [] }
    ensures bad { connection_faults 7 (Some (line 3 (codes "c=y"))) ≡ fault 3 BadAddress ∷ [] }
{}

/// Worked by hand: the parameters of a list.
pub fn parameters_by_hand()
    ensures items { items_of 7 (codes " WIDTH=5 ;; Tp=a=b;foo;\tHeight")
        ≡ item name.Width (Some (codes "5")) ∷ item name.Tp (Some (codes "a=b"))
        ∷ item name.Height None ∷ [] }
    ensures names { items_of 7 (codes "ExactFrameRate;Interlace;SEGMENTED;troff;Cmax;maxUdp")
        ≡ item name.ExactFrameRate None ∷ item name.Interlace None ∷ item name.Segmentation None
        ∷ item name.Troff None ∷ item name.Cmax None ∷ item name.MaxUdp None ∷ [] }

    // Only spaces and tabs around an item are dropped, so `width ` is no known name.
    ensures blanks { items_of 7 (codes "width =5;height= 5")
        ≡ item name.Height (Some (codes " 5")) ∷ [] }
    ensures lists { map (list_of 96) (line 7 (codes "a=fmtp:096 x y")
        ∷ line 7 (codes "a=fmtp:97 x") ∷ line 7 (codes "a=fmtp:96") ∷ [])
        ≡ codes "x y" ∷ [] ∷ [] ∷ [] }
    ensures first { item_named name.Height (item name.Width (Some (codes "5"))
        ∷ item name.Height (Some (codes "6")) ∷ item name.Height (Some (codes "7")) ∷ [])
        ≡ Some (item name.Height (Some (codes "6"))) }
    ensures repeated { repeated_faults (item name.Width (Some (codes "5"))
        ∷ item name.Height (Some (codes "5")) ∷ item name.Width None ∷ [])
        ≡ fault 7 RepeatedParameter ∷ [] }
    ensures once { repeated_faults (map (λ n. item n None) (name.Width ∷ name.Height
        ∷ name.ExactFrameRate ∷ name.Interlace ∷ name.Segmentation ∷ name.Tp ∷ name.Troff
        ∷ name.Cmax ∷ name.MaxUdp ∷ []))
        ≡ [] }
{}

/// Worked by hand: the ranges of sizes, offsets and limits.
pub fn numbers_by_hand()
    ensures width { causes name.Width (codes "0" ∷ codes "1" ∷ codes "32767" ∷ codes "32768" ∷ [])
        ≡ Some BadParameter ∷ None ∷ None ∷ Some BadParameter ∷ [] }
    ensures height { causes name.Height (codes "0" ∷ codes "1" ∷ codes "32767" ∷ codes "32768" ∷ [])
        ≡ Some BadParameter ∷ None ∷ None ∷ Some BadParameter ∷ [] }
    ensures troff { causes name.Troff (codes "0" ∷ codes "1000000" ∷ codes "1000001" ∷ [])
        ≡ None ∷ None ∷ Some BadParameter ∷ [] }
    ensures cmax { causes name.Cmax (codes "0" ∷ codes "1" ∷ codes "65535" ∷ codes "65536" ∷ [])
        ≡ Some BadParameter ∷ None ∷ None ∷ Some BadParameter ∷ [] }
    ensures max_udp { causes name.MaxUdp (codes "0" ∷ codes "1" ∷ codes "1460" ∷ codes "1461"
        ∷ codes "65535" ∷ codes "65536" ∷ [])
        ≡ Some BadParameter ∷ None ∷ None ∷ Some ExtendedUdp ∷ Some ExtendedUdp
        ∷ Some BadParameter ∷ [] }
    ensures size { value_size (item name.Width (Some (codes "0000032767"))) ≡ Some 32767 }
    ensures offset { value_offset (item name.Troff (Some (codes "25"))) ≡ Some 25 }
    ensures limit { value_limit (item name.Cmax (Some (codes "7"))) ≡ Some 7 }
    ensures without { map (λ n. cause_of n (item n None)) (name.Width ∷ name.Height
        ∷ name.Troff ∷ name.Cmax ∷ name.MaxUdp ∷ [])
        ≡ Some BadParameter ∷ Some BadParameter ∷ Some BadParameter ∷ Some BadParameter
        ∷ Some BadParameter ∷ [] }
{}

/// Worked by hand: rates, sender types, and names without a value.
pub fn values_by_hand()
    ensures rates { map value_rate (item name.ExactFrameRate (Some (codes "50"))
        ∷ item name.ExactFrameRate (Some (codes "60000/1001")) ∷ [])
        ≡ Some (record { p = 50; q = 1 }) ∷ Some (record { p = 60000; q = 1001 }) ∷ [] }

    // The rate is at most 240 frames per second.
    ensures fast { causes name.ExactFrameRate (codes "240" ∷ codes "241" ∷ codes "240240/1001"
        ∷ codes "240241/1001" ∷ [])
        ≡ None ∷ Some BadRate ∷ None ∷ Some BadRate ∷ [] }
    ensures slow { causes name.ExactFrameRate (codes "0" ∷ codes "1/1001" ∷ codes "1/1002"
        ∷ codes "1/0" ∷ codes "1/" ∷ [])
        ≡ Some BadRate ∷ None ∷ Some BadRate ∷ Some BadRate ∷ Some BadRate ∷ [] }
    ensures kinds { map value_kind (item name.Tp (Some (codes "2110TPN"))
        ∷ item name.Tp (Some (codes "2110TPNL")) ∷ item name.Tp (Some (codes "2110TPW"))
        ∷ item name.Tp (Some (codes "2110tpn")) ∷ [])
        ≡ Some Kind.N ∷ Some Kind.NL ∷ Some Kind.W ∷ None ∷ [] }
    ensures kind_bad { causes name.Tp (codes "2110TPW" ∷ codes "2110" ∷ [])
        ≡ None ∷ Some BadParameter ∷ [] }
    ensures interlace { cause_of name.Interlace (item name.Interlace None) ≡ None }
    ensures segmented { cause_of name.Segmentation (item name.Segmentation None)
        ≡ Some Segmented }
    ensures valued { map (λ n. cause_of n (item n (Some [])))
        (name.Interlace ∷ name.Segmentation ∷ [])
        ≡ Some BadParameter ∷ Some BadParameter ∷ [] }
    ensures no_rate { cause_of name.ExactFrameRate (item name.ExactFrameRate None)
        ≡ Some BadRate }
{}

/// Worked by hand: raw parts, missing parameters, and targets.
pub fn parts_by_hand()
    ensures maps { map (is_raw_map 96) (line 7 (codes "a=rtpmap:96 raw/90000")
        ∷ line 7 (codes "a=rtpmap:096 RAW/90000") ∷ line 7 (codes "a=rtpmap:97 raw/90000")
        ∷ line 7 (codes "a=rtpmap:96 raw/90000/2") ∷ [])
        ≡ true ∷ true ∷ false ∷ false ∷ [] }
    ensures own { own_lines (line 7 (codes "a=x") ∷ line 8 (codes "m=audio")
        ∷ line 9 (codes "a=y") ∷ [])
        ≡ line 7 (codes "a=x") ∷ [] }

    // An invalid parameter isn't missing.
    ensures nothing_missing { is_missing (item name.Width None ∷ item name.Height None
        ∷ item name.ExactFrameRate None ∷ [])
        ≡ false }
    ensures missing { map is_missing ((item name.Height None ∷ item name.ExactFrameRate None ∷ [])
        ∷ (item name.Width None ∷ item name.ExactFrameRate None ∷ [])
        ∷ (item name.Width None ∷ item name.Height None ∷ []) ∷ [])
        ≡ true ∷ true ∷ true ∷ [] }
    ensures on_head { faults_at 5 (Some (line 2 (codes "c=IN IP4 1.2.3.4"))) []
        ≡ fault 5 MissingParameter ∷ [] }
    ensures same { target_faults (part 3 (ipv4 1 2 3 1) 9 ∷ part 7 (ipv4 1 2 3 2) 9 ∷ part 11 (ipv4 1 2 3 1) 9 ∷ [])
        ≡ fault 11 SameTarget ∷ [] }
    ensures others { target_faults (part 3 (ipv4 1 2 3 1) 9 ∷ part 7 (ipv4 1 2 3 2) 9 ∷ part 11 (ipv4 1 2 3 1) 8 ∷ []) ≡ [] }
    ensures lost { target_faults (lost_part 3 ∷ lost_part 7 ∷ []) ≡ [] }
    ensures most { too_many_faults (replicate 64 (part 3 (ipv4 1 2 3 1) 9)) ≡ [] }
    ensures more { too_many_faults (replicate 64 (part 3 (ipv4 1 2 3 1) 9) ++ part 7 (ipv4 1 2 3 1) 9 ∷ part 8 (ipv4 1 2 3 1) 9 ∷ [])
        ≡ fault 7 TooManyMedia ∷ [] }
{}

/// Worked by hand: invalid session descriptions.
pub fn refused_by_hand()
    ensures empty { session [] ≡ Err (fault 1 NoVersion) }
    ensures no_video { session (codes "v=0") ≡ Err (fault 0 NoVideo) }
    ensures second_line { session (codes "v=0\nA=x\n") ≡ Err (fault 2 BadLine) }

    // The single CR is on an earlier line than the `A=`.
    ensures first_line { session (codes "v=0\r\n\ns=\rx\nA=x\n") ≡ Err (fault 3 NotText) }
    ensures no_port { session (codes "v=0\nm=video 0 RTP/AVP 96\n") ≡ Err (fault 2 BadMedia) }
    ensures no_connection { session (codes "v=0\nm=video 1 RTP/AVP 96\na=rtpmap:96 raw/90000\n")
        ≡ Err (fault 2 NoConnection) }

    // The session's connection is a fault only if it applies to a raw part.
    ensures bad_address { session (codes "v=0\nc=x\nm=video 1 RTP/AVP 96\na=rtpmap:96 raw/90000\n")
        ≡ Err (fault 2 BadAddress) }
    ensures passed_over { session (codes "v=0\nc=x\nm=video 1 RTP/AVP 96\n")
        ≡ Err (fault 0 NoVideo) }
{}

/// Worked by hand: session descriptions with an invalid raw part.
pub fn parts_refused_by_hand()
    ensures bad_parameter { session (one_part (codes "; TROFF=1000001"))
        ≡ Err (fault 5 BadParameter) }
    ensures repeated { session (one_part (codes "\na=fmtp:96 WIDTH=7"))
        ≡ Err (fault 6 RepeatedParameter) }
    ensures extended { session (one_part (codes "; MAXUDP=1461")) ≡ Err (fault 5 ExtendedUdp) }
    ensures segmented { session (one_part (codes "; MAXUDP=1461; segmented"))
        ≡ Err (fault 5 Segmented) }
    ensures same_target { session (one_part (codes "\nm=video 9 RTP/AVP 0"
        ++ raw_0 (codes "width=7; height=5; exactframerate=1")))
        ≡ Err (fault 6 SameTarget) }
    ensures missing { session (one_part (codes "\nm=video 9 RTP/AVP 0"
        ++ raw_0 (codes "width=7; height=5")))
        ≡ Err (fault 6 MissingParameter) }
{}

/// Worked by hand: valid session descriptions.
pub fn accepted_by_hand()
    ensures one { session (one_part (codes "; TP=2110TPW\n"))
        ≡ Ok (one_media (Some Kind.W) ∷ []) }

    // The second raw part has a connection of its own, and the audio section is ignored.
    ensures two { session (one_part (codes "\nm=audio 1\nc=x\nm=video 9 RTP/AVP 0\nc=IN IP4 1.2.3.5"
        ++ raw_0 (codes "interlace; CMAX=4; TROFF=6; width=1; height=2; exactframerate=50")))
        ≡ Ok (one_media None ∷ record {
          line = 8;
          address = ipv4 1 2 3 5;
          port = 9;
          pt = 0;
          width = 1;
          height = 2;
          interlaced = true;
          p = 50;
          q = 1;
          declared = None;
          troff = Some 6;
          cmax = Some 4;
        } ∷ []) }
{}

/// Worked by hand: the media that the lines before one describe. The second part begins on line 6 and
/// its parameters are on line 8; no media is described before its last line.
pub fn media_before_by_hand()
    ensures all { media_in (lines (one_part (codes "\nm=video 9 RTP/AVP 0"
        ++ raw_0 (codes "width=7; height=5")))) ≡ one_media None ∷ [] }
    ensures first { media_in (lines_before 6 (lines (one_part (codes "\nx"))))
        ≡ one_media None ∷ [] }
    ensures cut { media_in (lines_before 5 (lines (one_part (codes "\nx")))) ≡ [] }
    ensures whole { media_in (lines_before 0 (lines (one_part (codes "")))) ≡ [] }

    // The fault on line 6 isn't one of the media of line 3.
    ensures later { media_in (lines_before 6 (lines (one_part (codes "\na=fmtp:96 TP=x"))))
        ≡ one_media None ∷ [] }
{}
