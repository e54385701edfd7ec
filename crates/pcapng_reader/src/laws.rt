//! Theorems about the definition of the classic form, and examples of it worked by hand. Each
//! function does nothing; its clauses are what is proved.
#![tactic(auto, unfolding(crate::specs::Classic::classic, crate::specs::Classic::blocks, crate::specs::Classic::options))]

ghost use Rattle.std.specs.Prelude.{◌≡◌, ◌^◌, ℕ, List, [], ◌∷◌, ◌++◌, length, take, drop, map, All, true, Option, Some, None};
ghost use Rattle.pcap_reader.specs.WrittenHeads.{file_head};
ghost use Rattle.pcapng_reader.specs.declared.block.Interface.{Interface};
ghost use Rattle.pcapng_reader.specs.declared.block.Order.TheVariants.{Little};
ghost use Rattle.pcapng_reader.specs.Bytes.{AreBytes};
ghost use Rattle.pcapng_reader.specs.Classic.{Section, begins_section, number, broken, gives, add_interface, packet_by, classic, classic_texts};
ghost use Rattle.pcapng_reader.specs.Examples.{micro_interface, micro_packet, nano_packet, of_second, bare_nano_record, bare_micro_record};
ghost use Rattle.pcapng_reader.specs.Examples.{big_interface_with, big_resolution, big_offset, big_comment, big_nano_packet};
ghost use Rattle.pcapng_reader.specs.Examples.{little_section, big_section, little_interface, big_interface, interface_with, resolution, offset, comment, last_option, nano_interface, packet_at, little_packet, big_packet, other_block, nano_record, micro_record, bad, untold, changed, Gives};

/// Worked by hand: complete files.
pub fn worked_whole()
    ensures little { Gives (little_section ++ (nano_interface ++ little_packet)) nano_record }
    ensures big { Gives (big_section ++ (big_interface ++ big_packet)) micro_record }
    ensures two { Gives (little_section ++ (nano_interface ++ (little_packet ++ little_packet)))
        (nano_record ++ nano_record) }

    // Any other block gives nothing, and neither does a section without packets.
    ensures other { Gives (little_section ++ (nano_interface ++ (other_block ++ little_packet)))
        nano_record }
    ensures section { Gives little_section [] }

    // After a section header of the other byte order, the blocks are in that order.
    ensures orders { Gives (little_section ++ (nano_interface ++ (little_packet
        ++ (big_section ++ (big_interface ++ big_packet))))) (nano_record ++ micro_record) }

    // A file that isn't pcapng is its own classic form. So are fewer than the first four bytes of
    // one.
    ensures classic { classic nano_record ≡ nano_record }
    ensures front { classic (take 3 little_section) ≡ take 3 little_section }
    ensures none { classic [] ≡ [] }

    // A name without contents has none in classic form.
    ensures texts { (texts : List ℕ → Option (List ℕ)) (name : List ℕ) → texts name ≡ None
        → classic_texts texts name ≡ None }
    ensures text { (texts : List ℕ → Option (List ℕ)) (name text : List ℕ)
        → texts name ≡ Some text → classic_texts texts name ≡ Some (classic text) }
{}

/// Worked by hand: truncated files end with one byte more.
pub fn worked_cut()
    ensures head { Gives (little_section ++ take 11 little_interface) (0 ∷ []) }
    ensures body { Gives (little_section ++ (nano_interface ++ take 35 little_packet)) (0 ∷ []) }
    ensures only_head { Gives (take 4 little_section) (0 ∷ []) }
    ensures behind { Gives (little_section ++ (nano_interface ++ (little_packet ++ take 1 little_packet)))
        (nano_record ++ 0 ∷ []) }

    // A missing end of a block comes before an invalid version, and after an invalid length or byte
    // order.
    ensures version { Gives (take 27 (changed 12 2 little_section)) (0 ∷ []) }
    ensures length { Gives (take 27 (changed 4 29 little_section)) bad }
    ensures order { Gives (take 27 (changed 8 0x4c little_section)) bad }
{}

/// Worked by hand: byte orders and total lengths, on both sides of their limits.
pub fn worked_lengths()
    ensures order { Gives (changed 8 0x4c little_section) bad }
    ensures multiple { Gives (little_section ++ changed 4 21 little_interface) bad }
    ensures other_least { Gives (little_section ++ 5 ∷ 0 ∷ 0 ∷ 0 ∷ 12 ∷ 0 ∷ 0 ∷ 0 ∷ 12 ∷ 0 ∷ 0 ∷ 0 ∷ []) [] }
    ensures other_short { Gives (little_section ++ 5 ∷ 0 ∷ 0 ∷ 0 ∷ 8 ∷ 0 ∷ 0 ∷ 0 ∷ 8 ∷ 0 ∷ 0 ∷ 0 ∷ []) bad }
    ensures section_short { Gives (changed 4 24 little_section) bad }
    ensures interface_least { Gives (little_section ++ little_interface) [] }
    ensures interface_short { Gives (little_section ++ changed 4 16 little_interface) bad }
    ensures packet_least { Gives (little_section ++ (nano_interface
        ++ (6 ∷ 0 ∷ 0 ∷ 0 ∷ 32 ∷ 0 ∷ 0 ∷ 0 ∷ 0 ∷ 0 ∷ 0 ∷ 0 ∷ 0 ∷ 0 ∷ 0 ∷ 0 ∷ 7 ∷ 0 ∷ 0 ∷ 0 ∷ 0 ∷ 0 ∷ 0 ∷ 0
        ∷ 0 ∷ 0 ∷ 0 ∷ 0 ∷ 32 ∷ 0 ∷ 0 ∷ 0 ∷ [])))
        (0 ∷ 0 ∷ 0 ∷ 0 ∷ 7 ∷ 0 ∷ 0 ∷ 0 ∷ 0 ∷ 0 ∷ 0 ∷ 0 ∷ 0 ∷ 0 ∷ 0 ∷ 0 ∷ []) }
    ensures packet_short { Gives (little_section ++ (nano_interface ++ changed 4 28 little_packet)) bad }
{}

/// Worked by hand: complete blocks that are malformed.
pub fn worked_broken()
    ensures ends { Gives (little_section ++ (nano_interface ++ changed 32 40 little_packet)) bad }
    ensures section_ends { Gives (changed 24 32 little_section) bad }
    ensures other_ends { Gives (little_section ++ changed 12 20 other_block) bad }
    ensures version { Gives (changed 12 2 little_section) bad }
    ensures minor { Gives (changed 14 2 little_section) [] }
    ensures undescribed { Gives (little_section ++ little_packet) bad }
    ensures second { Gives (little_section ++ (nano_interface ++ changed 8 1 little_packet)) bad }
    ensures captured { Gives (little_section ++ (nano_interface ++ changed 20 5 little_packet)) bad }
    ensures fits { Gives (little_section ++ (nano_interface ++ changed 20 4 little_packet))
        (changed 8 4 (changed 12 4 nano_record) ++ 0 ∷ []) }

    // A section header removes the interfaces before it. After a malformed block there is no
    // output.
    ensures forgets { Gives (little_section ++ (nano_interface ++ (little_section ++ little_packet))) bad }
    ensures ended { Gives (little_section ++ (little_packet ++ little_section)) bad }
{}

/// Worked by hand: the options of an interface.
pub fn worked_options()
    ensures none { Gives (little_section ++ (little_interface ++ packet_at (0 ∷ 0 ∷ 0 ∷ 0 ∷ []) (0xc5 ∷ 0xc6 ∷ 0x2d ∷ 0 ∷ [])))
        micro_record }
    ensures passed { Gives (little_section ++ (interface_with 36 (comment ++ resolution 9) ++ little_packet))
        nano_record }
    ensures ended { Gives (little_section ++ (interface_with 32 (resolution 9 ++ last_option) ++ little_packet))
        nano_record }

    // The first option of its kind counts, if it is before the end of the options.
    ensures first { Gives (little_section ++ (interface_with 36 (resolution 9 ++ resolution 6) ++ little_packet))
        nano_record }
    ensures behind { Gives (little_section ++ (interface_with 32 (last_option ++ resolution 9)
        ++ packet_at (0 ∷ 0 ∷ 0 ∷ 0 ∷ []) (0xc5 ∷ 0xc6 ∷ 0x2d ∷ 0 ∷ []))) micro_record }
    ensures first_offset { Gives (little_section
        ++ (interface_with 52 (resolution 9 ++ (offset 0 ++ offset 1)) ++ little_packet)) nano_record }

    // Lengths, and an option that exceeds the block. After the end of the options nothing is read.
    ensures resolution { Gives (little_section ++ interface_with 28 (changed 2 2 (resolution 9))) bad }
    ensures second_resolution { Gives (little_section
        ++ interface_with 36 (resolution 9 ++ changed 2 2 (resolution 9))) bad }
    ensures offset { Gives (little_section ++ interface_with 32 (changed 2 7 (offset 0))) bad }
    ensures past { Gives (little_section ++ interface_with 28 (changed 2 5 comment)) bad }
    ensures whole { Gives (little_section ++ interface_with 28 (changed 2 4 comment)) [] }
    ensures last { Gives (little_section ++ interface_with 24 (changed 2 9 last_option)) [] }
{}

/// Worked by hand: two interfaces in one section, each with its own unit and link type. One
/// instant, 3 seconds and 5 microseconds, gives equal packet records for both.
pub fn worked_interfaces()
    ensures units { Gives (little_section ++ (nano_interface ++ (micro_interface
        ++ (nano_packet ++ of_second micro_packet)))) (micro_record ++ micro_record) }
    ensures untold_unit { Gives (little_section ++ (nano_interface ++ (little_interface
        ++ (of_second micro_packet ++ nano_packet)))) (micro_record ++ micro_record) }
    ensures changed_round { Gives (little_section ++ (micro_interface ++ (nano_interface
        ++ (micro_packet ++ of_second nano_packet)))) (micro_record ++ micro_record) }

    // A unit of 2^-10 seconds can't be represented. The packet records before it are given.
    ensures binary { Gives (little_section ++ (nano_interface ++ (interface_with 28 (resolution 0x8a)
        ++ (nano_packet ++ of_second nano_packet)))) (micro_record ++ untold) }

    // Link type 257 isn't Ethernet, although its low byte is 1. Neither is 256, which is 1 in the
    // other byte order.
    ensures link { Gives (little_section ++ (changed 9 1 nano_interface ++ little_packet)) bare_nano_record }
    ensures big_link { Gives (big_section ++ (changed 8 1 big_interface ++ big_packet)) bare_micro_record }
    ensures swapped_link { Gives (big_section ++ (changed 8 1 (changed 9 0 big_interface) ++ big_packet))
        bare_micro_record }
    ensures links { Gives (little_section ++ (changed 9 1 nano_interface ++ (micro_interface
        ++ (nano_packet ++ of_second micro_packet)))) (bare_micro_record ++ micro_record) }
{}

/// Worked by hand: the options of an interface in a big-endian section.
pub fn worked_big_options()
    ensures resolution { Gives (big_section ++ (big_interface_with 28 (big_resolution 9) ++ big_nano_packet))
        micro_record }
    ensures passed { Gives (big_section ++ (big_interface_with 36 (big_comment ++ big_resolution 9)
        ++ big_nano_packet)) micro_record }
    ensures ended { Gives (big_section ++ (big_interface_with 32 (big_resolution 9 ++ last_option)
        ++ big_nano_packet)) micro_record }
    ensures offset { Gives (big_section ++ (big_interface_with 40 (big_offset 0 ++ big_resolution 9)
        ++ big_nano_packet)) micro_record }
    ensures offset_one { Gives (big_section ++ (big_interface_with 40 (big_resolution 9 ++ big_offset 1)
        ++ big_nano_packet)) untold }
    ensures length { Gives (big_section ++ big_interface_with 28 (changed 3 2 (big_resolution 9))) bad }
    ensures little { Gives (big_section ++ big_interface_with 28 (resolution 9)) bad }
{}

/// Worked by hand: offsets of 2^32 and 2^56 seconds, with zeros in the low 32 bits, and of -1
/// second can't be represented.
pub fn worked_offsets()
    ensures high { Gives (little_section
        ++ (interface_with 40 (resolution 9 ++ changed 8 1 (offset 0)) ++ little_packet)) untold }
    ensures big_high { Gives (big_section
        ++ (big_interface_with 40 (big_resolution 9 ++ changed 7 1 (big_offset 0)) ++ big_nano_packet)) untold }
    ensures highest { Gives (little_section
        ++ (interface_with 40 (resolution 9 ++ changed 11 1 (offset 0)) ++ little_packet)) untold }
    ensures below { Gives (little_section ++ (interface_with 40 (resolution 9
        ++ 14 ∷ 0 ∷ 8 ∷ 0 ∷ 255 ∷ 255 ∷ 255 ∷ 255 ∷ 255 ∷ 255 ∷ 255 ∷ 255 ∷ []) ++ little_packet)) untold }
{}

/// Worked by hand: timestamps that can't be represented, on both sides of the limits.
pub fn worked_late()
    ensures last { Gives (little_section
        ++ (nano_interface ++ packet_at (0xff ∷ 0xc9 ∷ 0x9a ∷ 0x3b ∷ []) (255 ∷ 255 ∷ 255 ∷ 255 ∷ [])))
        (255 ∷ 255 ∷ 255 ∷ 255 ∷ 0xff ∷ 0xc9 ∷ 0x9a ∷ 0x3b ∷ 3 ∷ 0 ∷ 0 ∷ 0 ∷ 3 ∷ 0 ∷ 0 ∷ 0 ∷ 7 ∷ 8 ∷ 9 ∷ []) }
    ensures past { Gives (little_section
        ++ (nano_interface ++ packet_at (0 ∷ 0xca ∷ 0x9a ∷ 0x3b ∷ []) (0 ∷ 0 ∷ 0 ∷ 0 ∷ []))) untold }
    ensures seconds { Gives (little_section
        ++ (interface_with 28 (resolution 0) ++ packet_at (0 ∷ 0 ∷ 0 ∷ 0 ∷ []) (255 ∷ 255 ∷ 255 ∷ 255 ∷ [])))
        (255 ∷ 255 ∷ 255 ∷ 255 ∷ 0 ∷ 0 ∷ 0 ∷ 0 ∷ 3 ∷ 0 ∷ 0 ∷ 0 ∷ 3 ∷ 0 ∷ 0 ∷ 0 ∷ 7 ∷ 8 ∷ 9 ∷ []) }
    ensures seconds_past { Gives (little_section
        ++ (interface_with 28 (resolution 0) ++ packet_at (1 ∷ 0 ∷ 0 ∷ 0 ∷ []) (0 ∷ 0 ∷ 0 ∷ 0 ∷ []))) untold }
    ensures finer { Gives (little_section ++ (interface_with 28 (resolution 10) ++ little_packet)) untold }
    ensures binary { Gives (little_section ++ (interface_with 28 (resolution 128) ++ little_packet)) untold }
    ensures offset { Gives (little_section
        ++ (interface_with 40 (resolution 9 ++ offset 1) ++ little_packet)) untold }

    // This fault comes before another link type, and after a malformed block.
    ensures link { Gives (little_section
        ++ (changed 8 2 (interface_with 28 (resolution 10)) ++ little_packet)) untold }
    ensures broken { Gives (little_section
        ++ (interface_with 28 (resolution 10) ++ changed 32 40 little_packet)) bad }
    ensures captured { Gives (little_section
        ++ (interface_with 28 (resolution 10) ++ changed 20 5 little_packet)) bad }
    ensures other { Gives (little_section ++ (changed 8 2 nano_interface ++ (little_packet ++ little_packet)))
        (3 ∷ 0 ∷ 0 ∷ 0 ∷ 5 ∷ 0 ∷ 0 ∷ 0 ∷ 0 ∷ 0 ∷ 0 ∷ 0 ∷ 0 ∷ 0 ∷ 0 ∷ 0 ∷ 3 ∷ 0 ∷ 0 ∷ 0 ∷ 5 ∷ 0 ∷ 0 ∷ 0 ∷ 0 ∷ 0 ∷ 0 ∷ 0
        ∷ 0 ∷ 0 ∷ 0 ∷ 0 ∷ []) }
{}

/// Limits that are too large for files laid out by hand.
pub fn limits()
    ensures interfaces { (s : Section) (i : Interface) → length s.interfaces ≡ 1023
        → add_interface s (Some i)
        ≡ gives [] (record { order = s.order; interfaces = s.interfaces ++ i ∷ [] }) }
    ensures too_many { (s : Section) (i : Interface) → length s.interfaces ≡ 1024
        → add_interface s (Some i) ≡ broken }
    ensures captured { (s : Section) (i : Interface) (block : List ℕ)
        → number Little 4 20 block ≡ 262145 → packet_by (Some i) Little s block ≡ broken }
    ensures most { (s : Section) (block : List ℕ) → length block ≡ 262176
        → number Little 4 20 block ≡ 262144 → number Little 4 12 block ≡ 0 → number Little 4 16 block ≡ 5
        → packet_by (Some (record { offset = 0; link = 1; resolution = 9 })) Little s block
        ≡ gives (0 ∷ 0 ∷ 0 ∷ 0 ∷ 5 ∷ 0 ∷ 0 ∷ 0 ∷ 0 ∷ 0 ∷ 4 ∷ 0 ∷ 0 ∷ 0 ∷ 4 ∷ 0 ∷ take 262144 (drop 28 block)) s }
    ensures text { (text more : List ℕ) → length text ≡ 2 ^ 41 → begins_section text ≡ true
        → classic (text ++ more) ≡ classic text }
{}

/// If each number of a file is a byte, below 256, so is each of its classic form.
pub fn bytes_stay_bytes()
    ensures one { (text : List ℕ) → AreBytes text → AreBytes (classic text) }
    ensures each { (texts : List (List ℕ)) → All AreBytes texts → All AreBytes (map classic texts) }
{}
