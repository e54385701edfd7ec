//! Laws of the definitions, and examples that are worked by hand. Each function is a theorem: it does nothing, and its
//! clauses are proved.

ghost use Rattle.std.specs.Prelude.{◌≡◌, ◌++◌, ◌∷◌, [], List, Ok, Err, None, Some, codes, drop, false, map, replicate, take, true, ℕ};
ghost use Rattle.timing_base.specs.Media.{Media};
ghost use Rattle.sdp_reader.specs.Bytes.{number};
ghost use Rattle.sdp_reader.specs.Lines.{lines};
ghost use Rattle.sdp_reader.specs.Parameters.{table_name};
ghost use Rattle.sdp_reader.specs.Session.{session};
ghost use Rattle.sdp_reader.specs.declared.fault.SdpCause.TheVariants.{MissingParameter, TooLarge};
ghost use Rattle.sdp_reader.specs.declared.fault.SdpFault.{SdpFault};
ghost use Rattle.sdp_notes.specs.Described.{described};
ghost use Rattle.sdp_notes.specs.Examples.{hd_video, notes_with};
ghost use Rattle.sdp_notes.specs.Near.{DifferInOnePlace, is_within_an_edit, meant};
ghost use Rattle.sdp_notes.specs.Notes.{comma, near, near_notes, not_raw, notes_on, other_format, other_section, unknown};
ghost use Rattle.sdp_notes.specs.declared.note.Attribute.TheVariants.{Fmtp, RtpMap};
ghost use Rattle.sdp_notes.specs.report.Json.{described_json};
ghost use Rattle.sdp_notes.specs.report.Text.{described_text, note_text, shown};
ghost use Rattle.sdp_notes.specs.report.Times.{frame_ns, greatest_step, group_ns, least_step, offset_ns};

/// The media and the fault are those with which the description is read: of a session the media, else the fault.
pub fn read_as_a_session()
    ensures media { (bytes : List ℕ) (media : List Media) → session bytes ≡ Ok media
        → (described bytes).media ≡ media }
    ensures accepted { (bytes : List ℕ) (media : List Media) → session bytes ≡ Ok media
        → (described bytes).fault ≡ None }
    ensures refused { (bytes : List ℕ) (fault : SdpFault) → session bytes ≡ Err fault
        → (described bytes).fault ≡ Some fault }
{}

/// The first 1,048,577 bytes of a description are enough: of more nothing is read.
pub fn front_is_enough()
    ensures { (bytes : List ℕ) → described (take 1048577 bytes) ≡ described bytes }
{}

/// A text is within an edit of another exactly if they differ in one place at most, by at most one byte of each.
pub fn near_is_one_edit()
    ensures differ { (one other : List ℕ) → is_within_an_edit one other ≡ true → DifferInOnePlace one other }
    ensures edit { (one other : List ℕ) → DifferInOnePlace one other → is_within_an_edit one other ≡ true }
{}

/// Worked by hand: names that are near a known one. `widht` differs in two bytes, and `TCS` has two more than TP in
/// other places; a name of one letter is near TP, which has two.
pub fn near_by_hand()
    ensures one_more { map meant (codes "exactframerates" ∷ codes "interlaced" ∷ codes "TPP" ∷ [])
        ≡ Some (codes "exactframerate") ∷ Some (codes "interlace") ∷ Some (codes "TP") ∷ [] }
    ensures one_less { map meant (codes "idth" ∷ codes "exactframrate" ∷ codes "T" ∷ [])
        ≡ Some (codes "width") ∷ Some (codes "exactframerate") ∷ Some (codes "TP") ∷ [] }
    ensures another { map meant (codes "hei9ht" ∷ codes "CMIX" ∷ codes "PP" ∷ [])
        ≡ Some (codes "height") ∷ Some (codes "CMAX") ∷ Some (codes "TP") ∷ [] }
    ensures blanks { map meant (codes "TP " ∷ codes "max udp" ∷ codes "T\tROFF" ∷ [])
        ≡ Some (codes "TP") ∷ Some (codes "MAXUDP") ∷ Some (codes "TROFF") ∷ [] }
    ensures case { map meant (codes "troffs" ∷ codes "SEGMENTS" ∷ codes "Segment ed" ∷ [])
        ≡ Some (codes "TROFF") ∷ None ∷ Some (codes "segmented") ∷ [] }
    ensures none { map meant (codes "" ∷ codes "widht" ∷ codes "TCS" ∷ codes "PAR" ∷ codes "SSN"
        ∷ codes "depth" ∷ codes "TSMODE" ∷ codes "sampling" ∷ [])
        ≡ None ∷ None ∷ None ∷ None ∷ None ∷ None ∷ None ∷ None ∷ [] }

    // A name that is known has no note, and one that is far from each has none.
    ensures known { map (near_notes 7) (codes "tp" ∷ codes "PM" ∷ codes "colorimetry" ∷ [])
        ≡ [] ∷ [] ∷ [] ∷ [] }
    ensures note { near_notes 7 (codes "TP ") ≡ near 7 (codes "TP ") (codes "TP") ∷ [] }
{}

/// Worked by hand: the notes on a list of parameters. Unknown names come first, then the notes on each parameter.
pub fn parameters_by_hand()
    ensures known { notes_with (codes "width=1920; HEIGHT=1080;exactframerate=50; TP=x") ≡ [] }
    ensures unknown { notes_with (codes "sampling=a=b; depth=10;; PM")
        ≡ unknown 3 (codes "sampling" ∷ codes "depth" ∷ codes "PM" ∷ []) ∷ [] }
    ensures comma { notes_with (codes "width=1920, height=1080; exactframerates=50")
        ≡ unknown 3 (codes "exactframerates" ∷ []) ∷ comma 3 (codes "height")
        ∷ near 3 (codes "exactframerates") (codes "exactframerate") ∷ [] }
    ensures several { notes_with (codes "depth=8,TP =2110TPN , x=1,cmax=4")
        ≡ unknown 3 (codes "depth" ∷ []) ∷ comma 3 (codes "TP ") ∷ comma 3 (codes "cmax") ∷ [] }
    ensures no_name { notes_with (codes "chroma-position=0,1") ≡ unknown 3 (codes "chroma-position" ∷ []) ∷ [] }
{}

/// Worked by hand: the notes on sections and their lines.
pub fn sections_by_hand()
    ensures audio { notes_on (lines (codes "v=0\nm=audio 5004 RTP/AVP 97\na=fmtp:97 width\n"))
        ≡ other_section 2 (codes "audio") ∷ [] }
    ensures ancillary { notes_on (lines (codes "m=video 9 RTP/AVP 100\na=rtpmap:100 smpte291/90000\na=fmtp:100 x"))
        ≡ not_raw 1 100 ∷ [] }
    ensures formats { notes_with (codes "width=1\na=rtpmap:97 raw/90000\na=fmtp:97 x\na=fmtp:96 y")
        ≡ other_format 4 RtpMap ∷ other_format 5 Fmtp ∷ unknown 6 (codes "y" ∷ []) ∷ [] }

    // An invalid video line is a fault and has no note; lines before the first section have none.
    ensures bad_media { notes_on (lines (codes "a=fmtp:96 x\nm=video 0 RTP/AVP 96\na=fmtp:96 x")) ≡ [] }
{}

/// Worked by hand: times and steps. At 50 frames per second a frame is 20 ms, of 1,800 ticks, and 43/1125 of it are
/// 764,444.4 ns. At 60000/1001 the step is 1,501.5 ticks. At 25 interlaced a field is 20 ms.
pub fn times_by_hand()
    ensures frame { map frame_ns (hd_video false 50 1 ∷ hd_video false 60000 1001 ∷ hd_video true 25 1 ∷ [])
        ≡ 20000000 ∷ 16683333 ∷ 40000000 ∷ [] }
    ensures group { map group_ns (hd_video false 50 1 ∷ hd_video false 60000 1001 ∷ hd_video true 25 1 ∷ [])
        ≡ 20000000 ∷ 16683333 ∷ 20000000 ∷ [] }
    ensures offset { map offset_ns (hd_video false 50 1 ∷ hd_video false 60000 1001 ∷ hd_video true 25 1 ∷ [])
        ≡ 764444 ∷ 637674 ∷ 782222 ∷ [] }
    ensures least { map least_step (hd_video false 50 1 ∷ hd_video false 60000 1001 ∷ hd_video true 25 1 ∷ [])
        ≡ 1800 ∷ 1501 ∷ 1800 ∷ [] }
    ensures greatest { map greatest_step (hd_video false 50 1 ∷ hd_video false 60000 1001 ∷ hd_video true 25 1 ∷ [])
        ≡ 1800 ∷ 1502 ∷ 1800 ∷ [] }
{}

/// Worked by hand: bytes as they are printed.
#[tactic(auto, unfolding(crate::proofs::Numerals::note_texts))]
pub fn bytes_by_hand()
    ensures plain { shown (codes " TP~") ≡ codes " TP~" }
    ensures others { shown (27 ∷ 34 ∷ 92 ∷ 233 ∷ 9 ∷ 127 ∷ []) ≡ codes "\\x1b\\x22\\x5c\\xe9\\x09\\x7f" }
{}

/// Worked by hand: the text of a description that is refused, with one video before its fault.
#[tactic(auto, unfolding(crate::proofs::Numerals::note_texts))]
pub fn text_by_hand()
    ensures { described_text (record {
      media = hd_video false 60000 1001 ∷ [];
      notes = unknown 8 (codes "depth" ∷ codes "TP " ∷ []) ∷ near 8 (codes "TP ") (codes "TP") ∷ [];
      fault = Some (record { line = 11; what = MissingParameter });
    }) ≡ codes "media 1 239.0.0.1:50000 line 5, payload type 96, 1920x1080 progressive, rate 60000/1001, "
        ++ (codes "declared N, TROFF none, CMAX none\n  frame 16683333 ns, TR_OFFSET 637674 ns, RTP step 1501 to 1502\n"
        ++ (codes "line 8 passed over: \"depth\", \"TP \"\nline 8 \"TP \": did you mean TP?\n"
        ++ codes "refused: line 11 MissingParameter\n")) }
{}

/// Worked by hand: the lines of the other notes.
#[tactic(auto, unfolding(crate::proofs::Numerals::note_texts))]
pub fn notes_by_hand()
    ensures section { note_text (other_section 5 (codes "audio")) ≡ codes "line 5 passed over: audio\n" }
    ensures not_raw { note_text (not_raw 12 100)
        ≡ codes "line 12 passed over: video, without a=rtpmap:100 raw/90000\n" }
    ensures other_format { map note_text (other_format 8 Fmtp ∷ other_format 9 RtpMap ∷ [])
        ≡ codes "line 8 passed over: a=fmtp of another format\n"
        ∷ codes "line 9 passed over: a=rtpmap of another format\n" ∷ [] }
    ensures comma { note_text (comma 11 (codes "TROFF"))
        ≡ codes "line 11 comma before \"TROFF\": expected a semicolon\n" }
{}

/// Worked by hand: the JSON of an interlaced video and of each kind of note.
#[tactic(auto, unfolding(crate::proofs::Numerals::note_texts))]
pub fn json_by_hand()
    ensures { described_json (record {
      media = hd_video true 25 1 ∷ [];
      notes = other_section 1 (codes "audio") ∷ other_format 2 Fmtp ∷ near 3 (codes "TP ") (codes "TP") ∷ [];
      fault = Some (record { line = 0; what = TooLarge });
    }) ≡ codes "{\"fault\":{\"cause\":\"TooLarge\",\"line\":0},\"media\":[{\"declared\":\"N\",\"field\":20000000,"
        ++ (codes "\"frame\":40000000,\"height\":1080,\"interlaced\":true,\"line\":5,\"media\":1,\"offset\":782222,"
        ++ (codes "\"pt\":96,\"rate\":\"25\",\"step\":{\"greatest\":1800,\"least\":1800},\"target\":\"239.0.0.1:50000\","
        ++ (codes "\"width\":1920}],\"notes\":[{\"line\":1,\"section\":\"audio\",\"what\":\"section\"},"
        ++ (codes "{\"attribute\":\"fmtp\",\"line\":2,\"what\":\"other_format\"},"
        ++ codes "{\"line\":3,\"meant\":\"TP\",\"name\":\"TP \",\"what\":\"near\"}]}\n")))) }
{}
