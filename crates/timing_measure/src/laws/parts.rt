//! Examples of judged runs that are worked by hand. Each function is a theorem: it does nothing, and its clauses are
//! proved.

ghost use Rattle.std.specs.Prelude.{◌≡◌, ◌∷◌, [], Some, None, true, false, map};
ghost use Rattle.timing_base.specs.Examples.{plain_media, sent, sent_by, two_groups, unread};
ghost use Rattle.timing_base.specs.Numbered.{numbered};
ghost use Rattle.timing_base.specs.Shifts.{no_shift};
ghost use Rattle.timing_base.specs.declared.packet.PacketFault.TheVariants.{Short};
ghost use Rattle.run_meter.specs.Runs.{JudgedPart};
ghost use Rattle.fail_interval.specs.Parts.{judged_parts};
ghost use Rattle.timing_measure.specs.Measured.{first_source};

/// A head of one packet, two frames of two, and a tail of one: the four packets between are judged, as run 1.
pub fn one_part_by_hand()
    ensures number { map (λ (part : JudgedPart). part.number)
        (judged_parts plain_media two_groups (record { tai = 37; delay = 5 }))
        ≡ 1 ∷ [] }
    ensures first { map (λ (part : JudgedPart). part.first)
        (judged_parts plain_media two_groups (record { tai = 37; delay = 5 }))
        ≡ sent 1 10 6 100 true ∷ [] }
    ensures packets { map (λ (part : JudgedPart). part.packets)
        (judged_parts plain_media two_groups (record { tai = 37; delay = 5 }))
        ≡ (sent 2 20 7 101 false ∷ sent 3 30 8 101 true ∷ sent 4 40 9 102 false
        ∷ sent 5 50 10 102 true ∷ []) ∷ [] }
{}

/// A run without a whole frame, and behind a gap a head of one packet and one frame: only run 2 is judged.
pub fn later_part_by_hand()
    ensures number { map (λ (part : JudgedPart). part.number) (judged_parts plain_media
        (sent 1 10 6 100 true ∷ sent 2 20 7 101 false ∷ sent 3 30 9 101 true ∷ sent 4 40 10 102 false
        ∷ sent 5 50 11 102 true ∷ []) no_shift)
        ≡ 2 ∷ [] }
    ensures first { map (λ (part : JudgedPart). part.first) (judged_parts plain_media
        (sent 1 10 6 100 true ∷ sent 2 20 7 101 false ∷ sent 3 30 9 101 true ∷ sent 4 40 10 102 false
        ∷ sent 5 50 11 102 true ∷ []) no_shift)
        ≡ sent 3 30 9 101 true ∷ [] }
    ensures packets { map (λ (part : JudgedPart). part.packets) (judged_parts plain_media
        (sent 1 10 6 100 true ∷ sent 2 20 7 101 false ∷ sent 3 30 9 101 true ∷ sent 4 40 10 102 false
        ∷ sent 5 50 11 102 true ∷ []) no_shift)
        ≡ (sent 4 40 10 102 false ∷ sent 5 50 11 102 true ∷ []) ∷ [] }
{}

/// A flow with a fault has no judged run, and neither has one without packets. The SSRC is that of the first packet
/// that was read as RTP.
pub fn no_part_by_hand()
    ensures faulty { judged_parts plain_media (unread 1 10 Short ∷ []) no_shift ≡ [] }
    ensures absent { judged_parts plain_media [] no_shift ≡ [] }
    ensures source { first_source (unread 1 10 Short ∷ sent_by 9 2 20 7 101 false ∷ sent 3 30 8 101 true ∷ [])
        ≡ Some 9 }
    ensures none { first_source (unread 1 10 Short ∷ []) ≡ None }
{}

/// A sender leaves the extended number 0, so that packet number 0 follows 65,535. Counted by sequence numbers alone it
/// is 65,536, and the frame of two packets behind the head is judged. By the numbers as they are, a gap is between the
/// two, and no run has a whole frame.
pub fn counted_part_by_hand()
    ensures counted { map (λ (part : JudgedPart). part.packets) (judged_parts plain_media (numbered true
        (sent 1 10 65534 100 true ∷ sent 2 20 65535 101 false ∷ sent 3 30 0 101 true ∷ [])) no_shift)
        ≡ (sent 2 20 65535 101 false ∷ sent 3 30 65536 101 true ∷ []) ∷ [] }
    ensures as_numbered { judged_parts plain_media (numbered false
        (sent 1 10 65534 100 true ∷ sent 2 20 65535 101 false ∷ sent 3 30 0 101 true ∷ [])) no_shift ≡ [] }
{}
