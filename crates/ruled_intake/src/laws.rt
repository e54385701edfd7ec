//! Theorems about the definitions of a lane, and their values on lists worked by hand. Each function does nothing; its
//! clauses are the theorem.

ghost use Rattle.std.specs.Prelude.{◌≡◌, ℕ, List, [], ◌∷◌, length, sum_by};
ghost use Rattle.timing_base.specs.declared.packet.FlowPacket.{FlowPacket};
ghost use Rattle.ruled_intake.specs.declared.rule.Entry.{Entry};
ghost use Rattle.ruled_intake.specs.Examples.{cut_at, three_entries, two_packets};
ghost use Rattle.ruled_intake.specs.Lanes.{IsPrefix, Sender, all_sent, messages, of, packets, sent_of};
ghost use Rattle.ruled_intake.specs.Packets.{flow_packet, packet_of};

/// If the messages of each sender are what it sent, there are as many messages as all senders sent: each came once.
pub fn each_comes_once()
    ensures { (entries : List Entry) (senders : List Sender)
        → ((f : ℕ) → of f entries ≡ sent_of senders f)
        → length entries ≡ sum_by length (all_sent senders) }
{}

/// A packet that goes through a lane is as its flow has it.
pub fn packet_is_kept()
    ensures { (media : ℕ) (p : FlowPacket) → flow_packet (packet_of media p) ≡ p }
{}

/// Worked by hand: the messages of two senders, and of a third that doesn't exist.
pub fn senders_by_hand()
    ensures first { of 0 three_entries ≡ two_packets ∷ cut_at 0 40 ∷ [] }
    ensures second { of 1 three_entries ≡ cut_at 1 24 ∷ [] }
    ensures third { of 2 three_entries ≡ [] }
    ensures whole { messages three_entries ≡ two_packets ∷ cut_at 1 24 ∷ cut_at 0 40 ∷ [] }
{}

/// Worked by hand: the number of packets of messages.
pub fn packets_by_hand()
    ensures two { packets (messages three_entries) ≡ 2 }
    ensures none { packets (of 1 three_entries) ≡ 0 }
{}

/// Worked by hand: the first message of a sender is a prefix of its two messages; the second isn't.
pub fn prefixes_by_hand()
    ensures first { IsPrefix (two_packets ∷ []) (of 0 three_entries) }
    ensures second { ¬ IsPrefix (cut_at 0 40 ∷ []) (of 0 three_entries) }
{}
