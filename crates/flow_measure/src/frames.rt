//! Frames or fields against the frame grid from the epoch, and RTP timestamps against the media clock.

ghost use Rattle.std.specs.Prelude.{◌≡◌, ◌<◌, ◌≤◌, ◌^◌, pos, negsuc, neg_ℤ, ◌≤ℤ◌, ◌<ℤ◌, ◌-ℤ◌};
ghost use Rattle.fraction128.specs.Fractions.{floor_of_signed};
ghost use Rattle.flow_measure.specs.Frames.{after_start, frame_start, timestamp_latency, timestamp_offset};
ghost use Rattle.flow_measure.specs.Frames.{timestamp_step, wrapped};

use crate::groups::{GROUPS_BEFORE, lifted};
use fraction128::floor_signed;
use sender_params::Params;

/// The number of values of an RTP timestamp: it counts ticks modulo 2^32.
const TURN: i128 = 1 << 32;

/// Half of `TURN`.
const HALF_TURN: i128 = 1 << 31;

/// The ticks of the 90 kHz media clock in `NANOS` nanoseconds.
const TICKS: u128 = 9;

/// The nanoseconds in which the media clock ticks `TICKS` times.
const NANOS: u128 = 100_000;

/// The instant at which a frame or field begins: `(num - before) / den` nanoseconds of TAI.
#[derive(Clone, Copy)]
struct Start {
    /// The numerator, counted from `GROUPS_BEFORE` frames or fields before 0 of TAI.
    num: u128,
    /// The numerator of `GROUPS_BEFORE` frames or fields.
    before: u128,
    /// The common denominator.
    den: u128,
}

/// Returns the time from the instant at which the k-th judged frame or field begins to `at`, in nanoseconds, rounded
/// down; below 0 if `at` is earlier. `at` is nanoseconds of TAI, `k` counts from 0, and `n0` is the number of the first
/// packet's frame or field, counted from the epoch.
pub fn since_start(params: &Params, n0: i128, k: u64, at: u64) -> i128
    requires low { negsuc 479 ≤ℤ n0 }
    requires high { n0 ≤ℤ pos (2 ^ 42) }
    requires few { k < 2 ^ 41 }
    requires in_time { at < 2 ^ 62 }
    ensures value { result ≡ after_start params.now.media n0 k at }
    ensures low { neg_ℤ (pos (2 ^ 84)) ≤ℤ result }
    ensures high { result ≤ℤ pos (2 ^ 84) }
{
    let start = start_of(params, n0, k);
    let reached = u128::from(at) * start.den + start.before;
    floor_difference(reached, start.num, start.den)
}

/// Returns by how many ticks of 90 kHz an RTP timestamp exceeds the media clock at the instant at which the k-th judged
/// frame or field begins: -2^31 to 2^31 - 1. `k` counts from 0, and `n0` is the number of the first packet's frame or
/// field, counted from the epoch.
pub fn offset_of(params: &Params, n0: i128, k: u64, timestamp: u32) -> i128
    requires low { negsuc 479 ≤ℤ n0 }
    requires high { n0 ≤ℤ pos (2 ^ 42) }
    requires few { k < 2 ^ 41 }
    ensures value { result ≡ timestamp_offset params.now.media n0 k timestamp }
    ensures low { neg_ℤ (pos (2 ^ 31)) ≤ℤ result }
    ensures high { result <ℤ pos (2 ^ 31) }
{
    let start = start_of(params, n0, k);
    let clock = floor_difference(start.num * TICKS, start.before * TICKS, start.den * NANOS);
    wrap(i128::from(timestamp) - clock)
}

/// Returns by how many ticks of 90 kHz the media clock at `at`, in nanoseconds of TAI, exceeds an RTP timestamp: -2^31
/// to 2^31 - 1.
pub fn latency_of(at: u64, timestamp: u32) -> i128
    requires { at < 2 ^ 62 }
    ensures value { result ≡ timestamp_latency at timestamp }
    ensures low { neg_ℤ (pos (2 ^ 31)) ≤ℤ result }
    ensures high { result <ℤ pos (2 ^ 31) }
{
    wrap((u128::from(at) * TICKS / NANOS) as i128 - i128::from(timestamp))
}

/// Returns the ticks of 90 kHz from one RTP timestamp to the next, modulo 2^32.
pub fn step_of(before: u32, timestamp: u32) -> u32
    ensures { result ≡ timestamp_step before timestamp }
{
    timestamp.wrapping_sub(before)
}

/// Returns the instant at which the k-th judged frame or field begins. `n0` is the number of the first packet's frame
/// or field, counted from the epoch.
fn start_of(params: &Params, n0: i128, k: u64) -> Start
    requires low { negsuc 479 ≤ℤ n0 }
    requires high { n0 ≤ℤ pos (2 ^ 42) }
    requires few { k < 2 ^ 41 }
    ensures num { (frame_start params.now.media n0 k).num ≡ pos result.num -ℤ pos result.before }
    ensures den { (frame_start params.now.media n0 k).den ≡ result.den }
    ensures num_small { result.num < 2 ^ 83 }
    ensures before_small { result.before < 2 ^ 49 }
    ensures den_some { 1 ≤ result.den }
    ensures den_small { result.den < 2 ^ 19 }
{
    let (num, den) = params.group();
    Start {
        num: (lifted(n0) + u128::from(k)) * num,
        before: u128::from(GROUPS_BEFORE) * num,
        den,
    }
}

/// Returns `(up - down) / den`, rounded towards minus infinity.
pub(crate) fn floor_difference(up: u128, down: u128, den: u128) -> i128
    requires some { 1 ≤ den }
    requires up_small { up < 2 ^ 124 }
    requires down_small { down < 2 ^ 124 }
    ensures value { result ≡ floor_of_signed (pos up -ℤ pos down) den }
    ensures low { neg_ℤ (pos down) ≤ℤ result }
    ensures high { result ≤ℤ pos up }
{
    floor_signed(up as i128 - down as i128, den)
}

/// Reduces a difference of RTP timestamps modulo 2^32 to -2^31 to 2^31 - 1.
fn wrap(difference: i128) -> i128
    requires low { neg_ℤ (pos (2 ^ 100)) ≤ℤ difference }
    requires high { difference ≤ℤ pos (2 ^ 100) }
    ensures value { result ≡ wrapped difference }
    ensures low { neg_ℤ (pos (2 ^ 31)) ≤ℤ result }
    ensures high { result <ℤ pos (2 ^ 31) }
{
    (difference + HALF_TURN).rem_euclid(TURN) - HALF_TURN
}
