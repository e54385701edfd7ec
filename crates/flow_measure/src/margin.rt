//! The margin by which packets arrive before their own reads.

ghost use Rattle.std.specs.Prelude.{◌≡◌, ◌<◌, ◌≤◌, ◌+◌, ◌*◌, ◌^◌, ◌++◌, ◌∷◌, [], max, ℕ, Bool, List, length};
ghost use Rattle.std.specs.Prelude.{negsuc, pos, ◌≤ℤ◌};

use crate::frames::floor_difference;
use crate::groups::{GROUPS_BEFORE, lifted};
use sender_params::{Params, sizes_of};

/// The common margin of all packets, and the count of late packets.
#[derive(Clone, Copy, Debug, PartialEq, Eq)]
pub struct Margins {
    /// The nanoseconds by which all packets may be later before one is late, rounded down; below 0 if one is late.
    pub slack: i128,
    /// The count of packets that arrive after their own reads.
    pub late: u64,
}

/// A meter of the margin of the packets so far of one run, by the reads of one schedule. Its times are in fractions of
/// a nanosecond, 1 / `den`, from 0 of TAI on.
#[derive(Clone, Copy)]
pub struct MarginMeter {
    /// The count of these fractions in a nanosecond.
    pub den: u64,
    /// The time from one read of a frame or field to the next.
    pub step: u64,
    /// The time that remains of a frame or field after one step for each of its reads.
    pub turn: u128,
    /// The latest instant at which the next packet has no less margin than the packets so far; 0 before the first
    /// packet.
    pub latest: u128,
    ghost den_small: { den < 2 ^ 48 },
    ghost step_small: { step < 2 ^ 51 },
    ghost turn_small: { turn ≤ 2 ^ 69 },
}

impl MarginMeter {
    ghost use Rattle.timing_base.specs.Media.{Media};
    ghost use Rattle.sender_params.specs.Reads.{anchor_of};
    ghost use Rattle.std.specs.Prelude.{slice_index};
    ghost use Rattle.flow_measure.specs.Margins.{Times, read_in};
    ghost use Rattle.flow_measure.specs.Occupancy.{IsSlack};

    /// Returns the meter before the first packet: of the gapped reads if `gapped`, else of the linear ones.
    pub fn new(params: &Params, gapped: bool) -> MarginMeter
        ensures latest { result.latest ≡ 0 }
        ensures stands { Times params.now.media params.now.n gapped result [] 0 }
    {
        let sizes = sizes_of(params, gapped);
        MarginMeter {
            den: sizes.den as u64,
            step: sizes.step as u64,
            turn: sizes.group - u128::from(params.n()) * sizes.step,
            latest: 0,
        }
    }

    /// Takes the packet that arrived at `at`, in nanoseconds of TAI. After the last packet of a frame or field, the
    /// caller calls `end_group` next.
    #[inline(always)]
    pub fn feed(&mut self, at: u64)
        requires in_time { at < 2 ^ 62 }
        requires room { self.old.latest < 2 ^ 120 }
        ensures room { self.new.latest ≤ max self.old.latest (2 ^ 110) + 2 ^ 51 }
        ensures step { self.new.step ≡ self.old.step }
        ensures turn { self.new.turn ≡ self.old.turn }

        // Whatever packets the meter was fed before, this packet now follows them.
        ensures stands { (m : Media) (n : ℕ) (gapped : Bool) (stamps : List ℕ) (passed : ℕ)
            → Times m n gapped self.old stamps passed → passed ≡ read_in n self.old (length stamps)
            → Times m n gapped self.new (stamps ++ at ∷ []) (passed + self.old.step) }
    {
        let reached = u128::from(at) * u128::from(self.den);
        self.latest = self.latest.max(reached) + u128::from(self.step);
    }

    /// Completes the frame or field of the last packet.
    #[inline(always)]
    pub fn end_group(&mut self)
        requires { self.old.latest < 2 ^ 121 }
        ensures room { self.new.latest ≤ self.old.latest + 2 ^ 69 }
        ensures step { self.new.step ≡ self.old.step }
        ensures turn { self.new.turn ≡ self.old.turn }
        ensures stands { (m : Media) (n : ℕ) (gapped : Bool) (stamps : List ℕ) (passed : ℕ)
            → Times m n gapped self.old stamps passed → 0 < length stamps
            → Times m n gapped self.new stamps (passed + self.old.turn) }
    {
        self.latest += self.turn;
    }

    /// Returns by how many nanoseconds all packets may be later before one is late, rounded down, after `groups`
    /// complete frames or fields. `n0` is the number of the first packet's frame or field, counted from the epoch.
    pub fn slack(&self, params: &Params, gapped: bool, n0: i128, groups: u64) -> i128
        requires low { negsuc 479 ≤ℤ n0 }
        requires high { n0 ≤ℤ pos (2 ^ 42) }
        requires few { groups ≤ 2 ^ 41 }
        requires room { self.now.latest < 2 ^ 121 }
        ensures { let m = params.now.media in let n = params.now.n in (stamps : List ℕ) (passed : ℕ)
            → Times m n gapped self.now stamps passed → 0 < length stamps → length stamps ≡ n * groups
            → n0 ≡ anchor_of m (slice_index stamps 0)
            → passed ≡ read_in n self.now (length stamps)
            → IsSlack m n stamps gapped result }
    {
        let sizes = sizes_of(params, gapped);
        let next = (lifted(n0) + u128::from(groups)) * sizes.group + sizes.offset;
        let latest = self.latest + u128::from(GROUPS_BEFORE) * sizes.group;
        floor_difference(next, latest, sizes.den)
    }
}
