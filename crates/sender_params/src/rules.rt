//! The limits and times of SMPTE ST 2110-21 for one video.

ghost use Rattle.std.specs.Prelude.{◌≡◌, ◌≤◌, ◌<◌, ◌*◌, ◌/◌, ◌^◌, max};
ghost use Rattle.timing_base.specs.Media.{IsMedia};
ghost use Rattle.sender_params.specs.Limits.{c_max_by_rate, c_max_of, or_declared, vrx_full_of};
ghost use Rattle.sender_params.specs.Times.{active_part, groups_of};
ghost use Rattle.sender_params.specs.Times.{offset_part, offset_time, group_time};
ghost use Rattle.sender_params.specs.Times.{drain_time, per_frame_of, read_step};

use fraction128::Line;
use timing_base::{Kind, Media};

/// Nanoseconds in a second.
const SECOND: u64 = 1_000_000_000;

/// The limits of one sender type, in packets.
#[derive(Clone, Copy, Debug, PartialEq, Eq)]
pub struct Limits {
    /// C_MAX of the bucket.
    pub c_max: u64,
    /// VRX_FULL of the virtual receiver buffer.
    pub vrx_full: u64,
}

impl Limits {
    /// Returns the limits of both models.
    pub fn of(media: &Media, n: u32, kind: Kind) -> Limits
        requires { n ≤ 262144 }
        ensures c_max { result.c_max ≡ c_max_of media.now n kind }
        ensures vrx_full { result.vrx_full ≡ vrx_full_of media.now n kind }
    {
        Limits {
            c_max: c_max(media, n, kind),
            vrx_full: vrx_full(media, n, kind),
        }
    }
}

/// A fraction that isn't negative.
#[derive(Clone, Copy, Debug, PartialEq, Eq)]
pub struct Ratio {
    /// Numerator.
    pub num: u64,
    /// Denominator.
    pub den: u64,
}

impl Ratio {
    /// Returns the numerator and the denominator.
    pub fn pair(self) -> (u128, u128)
        ensures num { result.0 ≡ self.num }
        ensures den { result.1 ≡ self.den }
    {
        (u128::from(self.num), u128::from(self.den))
    }
}

/// Returns the number of groups per frame: 2 fields if interlaced, else 1 frame.
pub fn groups(media: &Media) -> u32
    ensures value { result ≡ groups_of media.now }
    ensures some { 1 ≤ result }
    ensures most { result ≤ 2 }
{
    if media.interlaced { 2 } else { 1 }
}

/// Returns R_ACTIVE, the part of the frame time in which a gapped sender sends.
pub fn active(media: &Media) -> Ratio
    ensures num { result.num ≡ (active_part media.now).0 }
    ensures den { result.den ≡ (active_part media.now).1 }
    ensures num_some { 487 ≤ result.num }
    ensures num_most { result.num ≤ 1080 }
    ensures den_some { 525 ≤ result.den }
    ensures den_most { result.den ≤ 1125 }
{
    if !media.interlaced || media.height >= 1080 {
        Ratio {
            num: 1080,
            den: 1125,
        }
    } else if media.height >= 576 {
        Ratio { num: 576, den: 625 }
    } else {
        Ratio { num: 487, den: 525 }
    }
}

/// Returns the part of T_FRAME from the start of each frame or field to its first read.
fn offset_share(media: &Media) -> Ratio
    ensures num { result.num ≡ (offset_part media.now).0 }
    ensures den { result.den ≡ (offset_part media.now).1 }
    ensures num_most { result.num ≤ 43 }
    ensures den_some { 525 ≤ result.den }
    ensures den_most { result.den ≤ 1125 }
{
    match (media.interlaced, media.height) {
        (false, 1080..) => Ratio { num: 43, den: 1125 },
        (false, _) => Ratio { num: 28, den: 750 },
        (true, 1080..) => Ratio { num: 22, den: 1125 },
        (true, 576..1080) => Ratio { num: 26, den: 625 },
        (true, _) => Ratio { num: 20, den: 525 },
    }
}

/// Returns TR_OFFSET in nanoseconds, the time from the start of each frame or field to its first read: TROFF if given,
/// else a part of T_FRAME.
pub fn offset(media: &Media) -> Ratio
    ensures num { result.num ≡ (offset_time media.now).0 }
    ensures den { result.den ≡ (offset_time media.now).1 }
    ensures some { 1 ≤ result.den }
    ensures num_small { result.num < 2 ^ 46 }
    ensures den_small { result.den < 2 ^ 29 }
    ensures within { result.num * (group_time media.now).1
        ≤ 480 * (result.den * (group_time media.now).0) }
{
    let media = *media;
    match media.troff {
        Some(micros) => Ratio {
            num: 1000 * u64::from(micros),
            den: 1,
        },
        None => {
            let share = offset_share(&media);
            Ratio {
                num: share.num * (u64::from(media.q) * SECOND),
                den: share.den * u64::from(media.p),
            }
        }
    }
}

/// Returns T_RS in nanoseconds, the time from one read to the next within a frame or field.
pub fn step(media: &Media, n: u32, gapped: bool) -> Ratio
    requires some { 1 ≤ n }
    requires most { n ≤ 262144 }
    ensures num { result.num ≡ (read_step media.now n gapped).0 }
    ensures den { result.den ≡ (read_step media.now n gapped).1 }
    ensures some { 1 ≤ result.den }
    ensures num_small { result.num < 2 ^ 50 }
    ensures den_small { result.den < 2 ^ 48 }
{
    let media = *media;
    let per_frame = u64::from(per_frame(&media, n));
    let frame = u64::from(media.q) * SECOND;
    if gapped {
        let active = active(&media);
        Ratio {
            num: frame * active.num,
            den: u64::from(media.p) * active.den * per_frame,
        }
    } else {
        Ratio {
            num: frame,
            den: u64::from(media.p) * per_frame,
        }
    }
}

/// Returns the number of packets per frame. `n` is the number per frame or field.
pub fn per_frame(media: &Media, n: u32) -> u32
    requires { n ≤ 262144 }
    ensures value { result ≡ per_frame_of media.now n }
    ensures some { 1 ≤ n → 1 ≤ result }
    ensures most { result ≤ 524288 }
{
    groups(media) * n
}

/// Returns the number of packets in `q` seconds, where `p / q` is the frame rate.
fn rate(media: &Media, n: u32) -> u64
    requires { n ≤ 262144 }
    ensures value { result ≡ per_frame_of media.now n * media.now.p }
    ensures small { result < 2 ^ 37 }
{
    let media = *media;
    u64::from(per_frame(&media, n)) * u64::from(media.p)
}

/// Returns the greater of `least` and `rate / (by * q)`, rounded down. `rate` is the number of packets in `q` seconds.
fn limit(least: u64, rate: u64, by: u64, q: u32) -> u64
    requires some { 1 ≤ by }
    requires some_q { 1 ≤ q }
    requires small { by < 2 ^ 32 }
    ensures { result ≡ max least (rate / (by * q)) }
{
    (rate / (by * u64::from(q))).max(least)
}

/// Returns C_MAX by the packet rate, in packets, without CMAX.
fn bucket_limit(media: &Media, n: u32, kind: Kind) -> u64
    requires { n ≤ 262144 }
    ensures { result ≡ c_max_by_rate media.now n kind }
{
    let media = *media;
    let rate = rate(&media, n);
    match kind {
        Kind::N => {
            let active = active(&media);
            limit(4, rate * active.den, 43_200 * active.num, media.q)
        }
        Kind::NL => limit(4, rate, 43_200, media.q),
        Kind::W => limit(16, rate, 21_600, media.q),
    }
}

/// Returns CMAX, if given, for the declared type, and `limit` for the other types.
fn declared_limit(declared: Option<Kind>, cmax: Option<u32>, kind: Kind, limit: u64) -> u64
    ensures { result ≡ or_declared declared cmax kind limit }
{
    if declared == Some(kind) {
        cmax.map_or(limit, u64::from)
    } else {
        limit
    }
}

/// Returns C_MAX, in packets.
fn c_max(media: &Media, n: u32, kind: Kind) -> u64
    requires { n ≤ 262144 }
    ensures { result ≡ c_max_of media.now n kind }
{
    let limit = bucket_limit(media, n, kind);
    declared_limit(media.declared, media.cmax, kind, limit)
}

/// Returns VRX_FULL, in packets.
fn vrx_full(media: &Media, n: u32, kind: Kind) -> u64
    requires { n ≤ 262144 }
    ensures { result ≡ vrx_full_of media.now n kind }
{
    let media = *media;
    let rate = rate(&media, n);
    match kind {
        Kind::N | Kind::NL => limit(8, rate, 27_000, media.q),
        Kind::W => limit(720, rate, 300, media.q),
    }
}

/// Returns the drain ticks: T_DRAIN from one to the next, in nanoseconds.
pub fn drain(media: &Media, n: u32) -> Line
    requires some { 1 ≤ n }
    requires most { n ≤ 262144 }
    ensures media { IsMedia media.now }
    ensures num { result.num ≡ (drain_time media.now n).0 }
    ensures den { result.den ≡ (drain_time media.now n).1 }
    ensures slow { result.den * 4 < result.num }
{
    let media = *media;
    Line::of(
        10 * u64::from(media.q) * SECOND,
        11 * u64::from(media.p) * u64::from(per_frame(&media, n)),
    )
}
