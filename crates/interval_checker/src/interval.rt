//! The check of a claimed violation by judged packets.

ghost use Rattle.std.specs.Prelude.{◌≡◌, ◌≤◌, ◌<◌, ◌-◌, ◌↔◌, ◌^◌, ℕ, List, IsTrue, length, slice_index};
ghost use Rattle.timing_base.specs.declared.fail.Broken.TheVariants.{Bucket, Over, Empty};
ghost use Rattle.sender_params.specs.Keeps.{BreaksLimit, Confirms, arrived_by_read, held_at};
ghost use Rattle.sender_params.specs.Limits.{gapped_of};
ghost use Rattle.sender_params.specs.Reads.{anchor_of};
ghost use Rattle.sender_params.specs.Ticks.{load_of};
ghost use Rattle.interval_checker.specs.Samples.{AreSampled};
ghost use Rattle.interval_checker.specs.Schedule.{AreReads};

use crate::claim::Claim;
use crate::reads::Reads;
use crate::sample::Sample;
use sender_params::Params;
use timing_base::{Broken, Kind};

/// Returns whether `count` judged packets, in frames or fields of `size`, confirm the claim.
pub fn is_confirmed(claim: &Claim, size: u32, count: u64, sample: &Sample) -> bool
    requires some { 1 ≤ size }
    requires most { size ≤ 262144 }
    ensures { (stamps : List ℕ) → length stamps ≡ count
        → AreSampled claim.now.proof claim.now.shift stamps sample.now
        → IsTrue result ↔ Confirms claim.now.media size stamps claim.now.kind claim.now.proof }
{
    if claim.proof.to < claim.proof.from || claim.proof.to >= count {
        return false;
    }
    let params = Params::of(&claim.media, size);
    match claim.proof.model {
        Broken::Bucket => breaks_bucket(claim, &params, sample),
        Broken::Over => breaks_over(claim, &params, sample),
        Broken::Empty => breaks_empty(claim, &params, sample),
    }
}

/// Returns whether the interval has the claimed count of packets less drain ticks, and this is above the limit.
fn breaks_bucket(claim: &Claim, params: &Params, sample: &Sample) -> bool
    requires order { claim.now.proof.from ≤ claim.now.proof.to }
    requires few { claim.now.proof.to < 2 ^ 64 - 1 }
    ensures { (stamps : List ℕ) → claim.now.proof.to < length stamps
        → AreSampled claim.now.proof claim.now.shift stamps sample.now
        → IsTrue result
        ↔ BreaksLimit params.now.media params.now.n stamps claim.now.kind claim.now.proof Bucket }
{
    if claim.proof.limit != params.c_max(claim.kind) {
        return false;
    }
    if claim.proof.limit >= claim.proof.count {
        return false;
    }
    u128::from(claim.proof.count) == load(claim, params, sample)
}

/// Returns the number of packets of the interval, less the drain ticks after its first packet.
fn load(claim: &Claim, params: &Params, sample: &Sample) -> u128
    requires order { claim.now.proof.from ≤ claim.now.proof.to }
    requires few { claim.now.proof.to < 2 ^ 64 - 1 }
    ensures { (stamps : List ℕ) → claim.now.proof.to < length stamps
        → AreSampled claim.now.proof claim.now.shift stamps sample.now
        → result ≡ load_of params.now.media params.now.n stamps claim.now.proof.from claim.now.proof.to }
{
    let first = claim.shift.stamp(sample.first);
    let before = params.ticks(first, claim.shift.stamp(sample.from));
    let now = params.ticks(first, claim.shift.stamp(sample.to));
    let packets = u128::from(claim.proof.to - claim.proof.from + 1);
    packets.saturating_sub(now.saturating_sub(before))
}

/// Returns the reads of the type's schedule.
fn reads(claim: &Claim, params: &Params, sample: &Sample) -> Reads
    ensures { (stamps : List ℕ) → 0 < length stamps
        → AreSampled claim.now.proof claim.now.shift stamps sample.now
        → AreReads params.now.media params.now.n
        (anchor_of params.now.media (slice_index stamps 0)) (gapped_of claim.now.kind) result }
{
    let gapped = match claim.kind {
        Kind::N => true,
        Kind::NL | Kind::W => false,
    };
    Reads::of(params, gapped, claim.shift.stamp(sample.first))
}

/// Returns whether the buffer holds the claimed count just after the last packet of the interval, and this is above the
/// limit.
fn breaks_over(claim: &Claim, params: &Params, sample: &Sample) -> bool
    requires few { claim.now.proof.to < 2 ^ 64 - 1 }
    ensures { (stamps : List ℕ) → claim.now.proof.to < length stamps
        → AreSampled claim.now.proof claim.now.shift stamps sample.now
        → IsTrue result
        ↔ BreaksLimit params.now.media params.now.n stamps claim.now.kind claim.now.proof Over }
{
    if claim.proof.limit != params.vrx_full(claim.kind) {
        return false;
    }
    if claim.proof.from != 0 {
        return false;
    }
    if claim.proof.limit >= claim.proof.count {
        return false;
    }
    is_held(claim, params, sample)
}

/// Returns whether the buffer holds the claimed count, which isn't 0, just after the last packet of the interval. That
/// is so if `to + 1 - count` reads are due then: the last of these reads is due, and the next one isn't.
fn is_held(claim: &Claim, params: &Params, sample: &Sample) -> bool
    requires few { claim.now.proof.to < 2 ^ 64 - 1 }
    requires some { 1 ≤ claim.now.proof.count }
    ensures { (stamps : List ℕ) → claim.now.proof.to < length stamps
        → AreSampled claim.now.proof claim.now.shift stamps sample.now
        → IsTrue result ↔ (claim.now.proof.count
        ≡ held_at params.now.media params.now.n stamps (gapped_of claim.now.kind) claim.now.proof.to) }
{
    if claim.proof.count > claim.proof.to + 1 {
        return false;
    }
    let reads = reads(claim, params, sample);
    let at = claim.shift.stamp(sample.to);
    let due = claim.proof.to + 1 - claim.proof.count;
    if due > 0 && !reads.is_due(due - 1, at) {
        return false;
    }
    !reads.is_due(due, at)
}

/// Returns whether the claimed count of packets came by the read of the packet, and this is below the limit.
fn breaks_empty(claim: &Claim, params: &Params, sample: &Sample) -> bool
    requires few { claim.now.proof.to < 2 ^ 64 - 1 }
    ensures { (stamps : List ℕ) → claim.now.proof.to < length stamps
        → AreSampled claim.now.proof claim.now.shift stamps sample.now
        → IsTrue result
        ↔ BreaksLimit params.now.media params.now.n stamps claim.now.kind claim.now.proof Empty }
{
    if claim.proof.limit != claim.proof.to + 1 {
        return false;
    }
    if claim.proof.from != claim.proof.to {
        return false;
    }
    if claim.proof.count >= claim.proof.limit {
        return false;
    }
    has_arrived(claim, params, sample)
}

/// Returns whether the claimed count of packets, at most the number before the packet, came by its read: the last of
/// them did, and the next packet didn't.
fn has_arrived(claim: &Claim, params: &Params, sample: &Sample) -> bool
    requires few { claim.now.proof.count ≤ claim.now.proof.to }
    ensures { (stamps : List ℕ) → claim.now.proof.to < length stamps
        → AreSampled claim.now.proof claim.now.shift stamps sample.now
        → IsTrue result ↔ (claim.now.proof.count
        ≡ arrived_by_read params.now.media params.now.n stamps claim.now.kind claim.now.proof.to) }
{
    let reads = reads(claim, params, sample);
    let last_counted = claim.shift.stamp(sample.last_counted);
    if claim.proof.count > 0 && reads.is_before(claim.proof.to, last_counted) {
        return false;
    }
    reads.is_before(claim.proof.to, claim.shift.stamp(sample.behind))
}
