//! The limits and times of one sender.

ghost use Rattle.std.specs.Prelude.{◌≡◌, ◌≤◌, ◌<◌, ◌^◌, ◌*◌, true};
ghost use Rattle.std.specs.Prelude.{false, pos, negsuc, ◌≤ℤ◌, ◌<ℤ◌, ◌-ℤ◌};
ghost use Rattle.fraction128.specs.Fractions.{floor_of_signed};
ghost use Rattle.timing_base.specs.Media.{IsMedia};
ghost use Rattle.timing_base.specs.declared.media.Kind.TheVariants.{N, NL, W};
ghost use Rattle.sender_params.specs.Limits.{c_max_of, vrx_full_of};
ghost use Rattle.sender_params.specs.Reads.{anchor_of};
ghost use Rattle.sender_params.specs.Ticks.{ticks_of};
ghost use Rattle.sender_params.specs.Times.{drain_time, frame_time, group_time, offset_time};
ghost use Rattle.sender_params.specs.Times.{read_step};

use crate::rules::{self, Limits, Ratio};
use fraction128::{Line, floor_of, floor_signed};
use timing_base::{Kind, Media};

/// Limits and times of a sender of `media` with `n` packets per frame or field.
#[derive(Clone, Copy, Debug, PartialEq, Eq)]
pub struct Params {
    /// The video.
    pub media: Media,
    /// Packets per frame or field: 1 to 262,144.
    pub n: u32,
    /// Drain ticks of the bucket: T_DRAIN from one to the next, in nanoseconds.
    pub drain: Line,
    narrow: Limits,
    narrow_linear: Limits,
    wide: Limits,
    offset: Ratio,
    gapped: Ratio,
    linear: Ratio,
    ghost media_is: { IsMedia media },
    ghost n_some: { 1 ≤ n },
    ghost n_most: { n ≤ 262144 },
    ghost narrow_c_max: { narrow.c_max ≡ c_max_of media n N },
    ghost narrow_vrx_full: { narrow.vrx_full ≡ vrx_full_of media n N },
    ghost narrow_linear_c_max: { narrow_linear.c_max ≡ c_max_of media n NL },
    ghost narrow_linear_vrx_full: { narrow_linear.vrx_full ≡ vrx_full_of media n NL },
    ghost wide_c_max: { wide.c_max ≡ c_max_of media n W },
    ghost wide_vrx_full: { wide.vrx_full ≡ vrx_full_of media n W },
    ghost drain_num: { drain.num ≡ (drain_time media n).0 },
    ghost drain_den: { drain.den ≡ (drain_time media n).1 },
    ghost offset_num: { offset.num ≡ (offset_time media).0 },
    ghost offset_den: { offset.den ≡ (offset_time media).1 },
    ghost gapped_num: { gapped.num ≡ (read_step media n true).0 },
    ghost gapped_den: { gapped.den ≡ (read_step media n true).1 },
    ghost linear_num: { linear.num ≡ (read_step media n false).0 },
    ghost linear_den: { linear.den ≡ (read_step media n false).1 },
    ghost drain_slow: { drain.den * 4 < drain.num },
    ghost offset_some: { 1 ≤ offset.den },
    ghost offset_within: { offset.num * (group_time media).1
        ≤ 480 * (offset.den * (group_time media).0) },
    ghost offset_num_small: { offset.num < 2 ^ 46 },
    ghost offset_den_small: { offset.den < 2 ^ 29 },
    ghost gapped_some: { 1 ≤ gapped.den },
    ghost gapped_num_small: { gapped.num < 2 ^ 50 },
    ghost gapped_den_small: { gapped.den < 2 ^ 48 },
    ghost linear_some: { 1 ≤ linear.den },
    ghost linear_num_small: { linear.num < 2 ^ 50 },
    ghost linear_den_small: { linear.den < 2 ^ 48 },
}

impl Params {
    /// Returns the limits and times of a sender of `media` with `n` packets per frame or field.
    pub fn of(media: &Media, n: u32) -> Params
        requires some { 1 ≤ n }
        requires most { n ≤ 262144 }
        ensures media { result.media ≡ media.now }
        ensures n { result.n ≡ n }
    {
        Params {
            media: *media,
            n,
            drain: rules::drain(media, n),
            narrow: Limits::of(media, n, Kind::N),
            narrow_linear: Limits::of(media, n, Kind::NL),
            wide: Limits::of(media, n, Kind::W),
            offset: rules::offset(media),
            gapped: rules::step(media, n, true),
            linear: rules::step(media, n, false),
        }
    }

    /// Returns C_MAX of this sender type, in packets, rounded down. CMAX in the SDP replaces that of the declared type
    /// only.
    pub fn c_max(&self, kind: Kind) -> u64
        ensures { result ≡ c_max_of self.now.media self.now.n kind }
    {
        self.limits(kind).c_max
    }

    /// Returns VRX_FULL of this sender type, in packets, rounded down.
    pub fn vrx_full(&self, kind: Kind) -> u64
        ensures { result ≡ vrx_full_of self.now.media self.now.n kind }
    {
        self.limits(kind).vrx_full
    }

    /// Returns the limits of this sender type.
    fn limits(&self, kind: Kind) -> Limits
        ensures c_max { result.c_max ≡ c_max_of self.now.media self.now.n kind }
        ensures vrx_full { result.vrx_full ≡ vrx_full_of self.now.media self.now.n kind }
    {
        match kind {
            Kind::N => self.narrow,
            Kind::NL => self.narrow_linear,
            Kind::W => self.wide,
        }
    }

    /// Returns TR_OFFSET in nanoseconds, as numerator and denominator: the time from the start of each frame or field
    /// to its first read. TROFF in the SDP replaces it.
    pub(crate) fn offset(&self) -> (u128, u128)
        ensures num { result.0 ≡ (offset_time self.now.media).0 }
        ensures den { result.1 ≡ (offset_time self.now.media).1 }
        ensures some { 1 ≤ result.1 }
        ensures num_small { result.0 < 2 ^ 46 }
        ensures within { let group = group_time self.now.media in
            result.0 * group.1 ≤ 480 * (result.1 * group.0) }
        ensures den_small { result.1 < 2 ^ 29 }
    {
        self.offset.pair()
    }

    /// Returns T_FRAME in nanoseconds, as numerator and denominator.
    fn frame(&self) -> (u128, u128)
        ensures num { result.0 ≡ (frame_time self.now.media).0 }
        ensures den { result.1 ≡ (frame_time self.now.media).1 }
        ensures some { 1 ≤ result.1 }
        ensures num_small { result.0 < 2 ^ 40 }
        ensures den_small { result.1 < 2 ^ 18 }
    {
        let media = self.media;
        (u128::from(media.q) * 1_000_000_000, u128::from(media.p))
    }

    /// Returns T_GROUP in nanoseconds, as numerator and denominator: the time from one frame or field to the next.
    pub fn group(&self) -> (u128, u128)
        ensures num { result.0 ≡ (group_time self.now.media).0 }
        ensures den { result.1 ≡ (group_time self.now.media).1 }
        ensures some_num { 1 ≤ result.0 }
        ensures slow { result.1 * 1000000000 ≤ 480 * result.0 }
        ensures some { 1 ≤ result.1 }
        ensures num_small { result.0 < 2 ^ 40 }
        ensures den_small { result.1 < 2 ^ 19 }
    {
        let (num, den) = self.frame();
        (num, u128::from(rules::groups(&self.media)) * den)
    }

    /// Returns T_RS of the gapped or the linear schedule in nanoseconds, as numerator and denominator: the time from
    /// one read to the next within a frame or field.
    pub(crate) fn step(&self, gapped: bool) -> (u128, u128)
        ensures num { result.0 ≡ (read_step self.now.media self.now.n gapped).0 }
        ensures den { result.1 ≡ (read_step self.now.media self.now.n gapped).1 }
        ensures some { 1 ≤ result.1 }
        ensures num_small { result.0 < 2 ^ 50 }
        ensures den_small { result.1 < 2 ^ 48 }
    {
        if gapped {
            self.gapped.pair()
        } else {
            self.linear.pair()
        }
    }

    /// Returns the number of packets per frame or field.
    pub fn n(&self) -> u32
        ensures value { result ≡ self.now.n }
        ensures some { 1 ≤ result }
        ensures most { result ≤ 262144 }
    {
        self.n
    }

    /// Returns the number of drain ticks after `a0` and up to `at`, both in nanoseconds of TAI. The ticks are at `a0` +
    /// T_DRAIN, `a0` + 2 T_DRAIN and so on; a tick exactly at `at` counts.
    pub fn ticks(&self, a0: u64, at: u64) -> u128
        requires order { a0 ≤ at }
        requires small { at < 2 ^ 62 }
        ensures value { result ≡ ticks_of self.now.media self.now.n a0 at }
        ensures small { result < 2 ^ 60 }
    {
        floor_of(
            u128::from(at - a0),
            u128::from(self.drain.den),
            u128::from(self.drain.num),
        )
    }

    /// Returns the number of the frame or field to which a first packet at `a0`, in nanoseconds of TAI, is nearest,
    /// counted from the epoch. The packet is at most half of T_GROUP from the first read of that frame or field.
    /// Halfway between two first reads, the later frame or field counts.
    pub fn anchor(&self, a0: u64) -> i128
        requires { a0 < 2 ^ 62 }
        ensures value { result ≡ anchor_of self.now.media a0 }
        ensures low { negsuc 479 ≤ℤ result }
        ensures high { result <ℤ pos (2 ^ 42) }
    {
        let (offset, per) = self.offset();
        let (group, rate) = self.group();
        let up = u128::from(a0) * per * rate * 2 + per * group;
        floor_difference(up, offset * rate * 2, per * group * 2)
    }
}

/// Returns `(up - down) / den`, rounded towards minus infinity.
fn floor_difference(up: u128, down: u128, den: u128) -> i128
    requires some { 1 ≤ den }
    requires small { den < 2 ^ 80 }
    requires low { down ≤ 480 * den }
    requires high { up < 2 ^ 42 * den }
    ensures value { result ≡ floor_of_signed (pos up -ℤ pos down) den }
    ensures low { negsuc 479 ≤ℤ result }
    ensures high { result <ℤ pos (2 ^ 42) }
{
    floor_signed(up as i128 - down as i128, den)
}
