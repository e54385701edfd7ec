//! The occupancy of the buffer just after a packet, which may be negative.

ghost use Rattle.std.specs.Prelude.{◌≡◌, ◌<◌, ◌≤◌, ◌^◌, ℕ, List, Bool, slice_index};
ghost use Rattle.timing_base.specs.Media.{IsMedia, Media};
ghost use Rattle.sender_params.specs.Reads.{anchor_of};
ghost use Rattle.read_schedule.specs.Stands.{IsDueAt};
ghost use Rattle.vrx_buffer.specs.Occupancy.{IsOccupancy, is_late};

use crate::vrx::comes_late;
use read_schedule::Due;

/// State of the buffer just after a packet came, by the reads of one schedule.
#[derive(Clone, Copy, Debug, PartialEq, Eq)]
pub struct Held {
    /// Packets up to this one, less all reads that are due; negative if the reads are more.
    pub occupancy: i64,
    /// Whether the packet came after its own read.
    pub late: bool,
}

impl Held {
    /// Returns the state after packet `packet`, counted from 0. `due` is what is due at its instant (SMPTE ST 2110-21,
    /// virtual receiver buffer). A packet and a read at the same instant both count (this project's profile).
    #[inline(always)]
    pub fn after(packet: u64, due: Due) -> Held
        requires packet { packet < 2 ^ 41 }
        requires few { due.count ≤ 2 ^ 63 }

        ensures occupancy { (m : Media) (n : ℕ) (stamps : List ℕ) (gapped : Bool)
            → IsDueAt m n (anchor_of m (slice_index stamps 0)) gapped (slice_index stamps packet) due
            → IsOccupancy m n stamps gapped packet result.occupancy }
        ensures late { (m : Media) (n : ℕ) (stamps : List ℕ) (gapped : Bool) → IsMedia m → 1 ≤ n
            → IsDueAt m n (anchor_of m (slice_index stamps 0)) gapped (slice_index stamps packet) due
            → result.late ≡ is_late m n stamps gapped packet }
    {
        Held {
            occupancy: (i128::from(packet + 1) - i128::from(due.count)) as i64,
            late: comes_late(packet, due),
        }
    }
}
