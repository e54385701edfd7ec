//! Theorems about the definitions. Each function does nothing; its clauses are the theorem.

ghost use Rattle.std.specs.Prelude.{◌≡◌, ◌∷◌, [], List};
ghost use Rattle.timing_base.specs.Targets.{target_of};
ghost use Rattle.timing_base.specs.declared.packet.FlowPacket.{FlowPacket};
ghost use Rattle.udp_rtp.specs.Examples.{group};
ghost use Rattle.udp_rtp.specs.TwoFlows.{first_capture, next_port, packet_at};
ghost use Rattle.flow_demux.specs.Takings.{TakesAll};
ghost use Rattle.flow_demux.specs.Worked.{Keeps};
ghost use Rattle.flow_demux.specs.declared.media_flow.MediaFlow.{MediaFlow};

/// Worked by hand, with takers that keep the packets of their flow: each has the packets of its own media and no
/// others.
pub fn two_media_by_hand()
    ensures { (a b c d : MediaFlow (List FlowPacket)) → target_of a.media ≡ group → target_of b.media ≡ next_port
        → a.taker ≡ [] → b.taker ≡ [] → TakesAll Keeps (a ∷ b ∷ []) (c ∷ d ∷ []) first_capture
        → (c.taker ≡ packet_at 4 130 ∷ packet_at 5 140 ∷ []) × (d.taker ≡ packet_at 1 100 ∷ []) }
{}

/// Worked by hand: two media with the same target have the same packets.
pub fn one_target_by_hand()
    ensures { (a b c d : MediaFlow (List FlowPacket)) → target_of a.media ≡ group → target_of b.media ≡ group
        → a.taker ≡ [] → b.taker ≡ [] → TakesAll Keeps (a ∷ b ∷ []) (c ∷ d ∷ []) first_capture
        → (c.taker ≡ packet_at 4 130 ∷ packet_at 5 140 ∷ [])
        × (d.taker ≡ packet_at 4 130 ∷ packet_at 5 140 ∷ []) }
{}
