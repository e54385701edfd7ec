//! Theorems about the definition of a capture's packet records, for all contents, and examples
//! worked by hand. Each function does nothing; its clauses are what is proved.

ghost use Rattle.std.specs.Prelude.{◌≡◌, ◌≢◌, ◌^◌, ◌+◌, ◌*◌, ℕ, List, [], ◌∷◌, ◌++◌, take, drop, Ok, Err};
ghost use Rattle.timing_base.specs.Captures.{Record};
ghost use Rattle.timing_base.specs.declared.capture.PcapFault.TheVariants.{ReadFault, BadMagic, BadVersion, BadLink, BadStamp, BadLength, TooLong};
ghost use Rattle.timing_base.specs.declared.capture.FileNote.{FileNote};
ghost use Rattle.timing_base.specs.declared.capture.FileNote.TheVariants.{End, Cut, Refused};
ghost use Rattle.pcap_reader.specs.Records.{Records};
ghost use Rattle.pcap_reader.specs.Examples.{little_micros, little_nanos, big_micros, big_nanos, little_record, big_record, changed, head, zero_bytes, one_byte, most_bytes, too_many_bytes, last_micro, million, last_nano, milliard};

/// For any file contents there are a list of packet records and a note of how they end.
pub fn some_list()
    ensures { (text : List ℕ) (most : ℕ)
        → (items : List Record) × (end : FileNote) × Records text most items end }
{}

/// No file contents have two such lists or two such notes.
pub fn only_list()
    ensures items { (text : List ℕ) (most : ℕ) (xs ys : List Record) (d e : FileNote)
        → Records text most xs d → Records text most ys e → xs ≡ ys }
    ensures note { (text : List ℕ) (most : ℕ) (xs ys : List Record) (d e : FileNote)
        → Records text most xs d → Records text most ys e → d ≡ e }
{}

/// The note is never a failed read.
pub fn ends_by_itself()
    ensures { (text : List ℕ) (most : ℕ) (items : List Record) (note : FileNote)
        → Records text most items note → note ≢ Refused ReadFault }
{}

/// Worked by hand: complete captures, of all byte orders and units.
pub fn worked_whole()
    ensures none { Records little_nanos 24 [] End }
    ensures little_nanos { Records (little_nanos ++ little_record) 43
        (record { number = 1; stamp = 3000000005; bytes = 7 ∷ 8 ∷ 9 ∷ [] } ∷ []) End }
    ensures little_micros { Records (little_micros ++ little_record) 43
        (record { number = 1; stamp = 3000005000; bytes = 7 ∷ 8 ∷ 9 ∷ [] } ∷ []) End }
    ensures big_nanos { Records (big_nanos ++ big_record) 41
        (record { number = 1; stamp = 3000000005; bytes = 7 ∷ [] } ∷ []) End }
    ensures big_micros { Records (big_micros ++ (big_record ++ big_record)) (2 ^ 40)
        (record { number = 1; stamp = 3000005000; bytes = 7 ∷ [] }
        ∷ record { number = 2; stamp = 3000005000; bytes = 7 ∷ [] } ∷ []) End }

    // Fractions of 999,999 microseconds and of 999,999,999 nanoseconds.
    ensures last_micro { Records (little_micros ++ (head last_micro one_byte ++ 7 ∷ [])) 41
        (record { number = 1; stamp = 3999999000; bytes = 7 ∷ [] } ∷ []) End }
    ensures last_nano { Records (little_nanos ++ (head last_nano one_byte ++ 7 ∷ [])) 41
        (record { number = 1; stamp = 3999999999; bytes = 7 ∷ [] } ∷ []) End }

    // Only the low 16 bits of the link type count, which is 0xf0000001 here.
    ensures high_link { Records (changed 23 0xf0 little_nanos) 24 [] End }
{}

/// Worked by hand: truncated captures.
pub fn worked_cut()
    ensures in_head { Records (little_nanos ++ take 15 little_record) (2 ^ 40) [] (Cut 24) }
    ensures in_bytes { Records (little_nanos ++ (little_record ++ take 18 little_record)) (2 ^ 40)
        (record { number = 1; stamp = 3000000005; bytes = 7 ∷ 8 ∷ 9 ∷ [] } ∷ []) (Cut 43) }

    // A packet record may have 262,144 captured bytes. Here they are missing.
    ensures most_bytes { Records (little_nanos ++ head zero_bytes most_bytes) (24 + 16 + 262144) []
        (Cut 24) }
{}

/// Worked by hand: invalid captures, each with its first fault.
pub fn worked_refused()
    ensures short { Records (take 23 little_nanos) (2 ^ 40) [] (Refused BadMagic) }
    ensures magic { Records (drop 1 little_nanos ++ little_record) (2 ^ 40) [] (Refused BadMagic) }
    ensures major { Records (changed 4 0 little_nanos) (2 ^ 40) [] (Refused BadVersion) }
    ensures minor { Records (changed 6 3 little_nanos) (2 ^ 40) [] (Refused BadVersion) }

    // The link types 101 and 257; the low byte of the second is 1. Then two faults at once.
    ensures link { Records (changed 20 101 little_nanos) (2 ^ 40) [] (Refused BadLink) }
    ensures second_byte { Records (changed 21 1 little_nanos) (2 ^ 40) [] (Refused BadLink) }
    ensures version_and_link { Records (changed 6 3 (changed 20 101 little_nanos)) (2 ^ 40) []
        (Refused BadVersion) }

    // The fraction is a whole second, alone and with 262,145 captured bytes, and those alone.
    ensures nanos { Records (little_nanos ++ head milliard one_byte) 24 [] (Refused (BadStamp 1)) }
    ensures micros { Records (little_micros ++ head million one_byte) (2 ^ 40) []
        (Refused (BadStamp 1)) }
    ensures fraction_and_length { Records (little_nanos ++ head milliard too_many_bytes) 24 []
        (Refused (BadStamp 1)) }
    ensures length { Records (little_nanos ++ (little_record ++ head zero_bytes too_many_bytes)) 43
        (record { number = 1; stamp = 3000000005; bytes = 7 ∷ 8 ∷ 9 ∷ [] } ∷ [])
        (Refused (BadLength 2)) }

    // A record that ends at byte 43 is within a greatest length of 43, as above, and exceeds one of
    // 42.
    ensures long { Records (little_nanos ++ little_record) 42 [] (Refused TooLong) }
    ensures long_before_cut { Records (little_nanos ++ take 18 little_record) 42 []
        (Refused TooLong) }
    ensures most_bytes_too_long { Records (little_nanos ++ head zero_bytes most_bytes)
        (24 + 16 + 262143) [] (Refused TooLong) }
{}
