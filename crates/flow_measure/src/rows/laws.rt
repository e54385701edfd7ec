//! Theorems about the definitions of rows. Each function does nothing: its clauses are what is proved.

ghost use Rattle.std.specs.Prelude.{◌≡◌, ◌+◌, ◌*◌, [], true, false, None, Some};
ghost use Rattle.timing_base.specs.Examples.{sent};
ghost use Rattle.timing_base.specs.Shifts.{no_shift};
ghost use Rattle.sender_params.specs.Worked.{hd_50};
ghost use Rattle.flow_measure.specs.report.Examples.{plain_packet};
ghost use Rattle.flow_measure.specs.rows.Rows.{IsPacketRow, ends_group, step_before, step_from};

/// A row of 1080p at 50 frames per second with 20 packets per frame. The first packet arrives 764,000 ns after the
/// frame begins. The bucket then holds 1 packet. No read is due yet, gapped or linear, so the buffer holds 1 packet.
pub fn first_of_a_run()
    ensures row { IsPacketRow hd_50 no_shift 1 20 [] (sent 2 1600000000000764000 1 1800 false) plain_packet }
{}

/// The last packet of a frame and the steps of RTP timestamps. Of 20 packets per frame, the packet after 19 ends the
/// frame, and the packet after 18 doesn't. RTP timestamps from 1800 on that advance by 1800 give no step for the first
/// frame, and 1800 for the next one, also across the wrap at 2^32.
pub fn groups_by_hand()
    ensures goes { ends_group 20 18 ≡ false }
    ensures ends { ends_group 20 19 ≡ true }
    ensures first { step_before (λ k. 1800 + 1800 * k) 0 ≡ None }
    ensures later { step_before (λ k. 1800 + 1800 * k) 1 ≡ Some 1800 }
    ensures turns { step_from (Some 4294966396) 900 ≡ Some 1800 }
{}
