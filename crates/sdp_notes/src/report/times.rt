//! The times of a video that don't depend on the number of its packets.

ghost use Rattle.std.specs.Prelude.{◌≡◌, ◌≤◌, ◌<◌, ◌^◌};
ghost use Rattle.sdp_notes.specs.report.Times.{frame_ns, greatest_step, group_ns, groups_in_q, least_step, offset_ns};

use sender_params::{groups_per_frame, tr_offset};
use timing_base::Media;

/// Nanoseconds in a second.
const SECOND: u64 = 1_000_000_000;

/// Ticks of RTP timestamps in a second.
const TICKS: u64 = 90_000;

/// Returns T_FRAME in nanoseconds.
pub(crate) fn frame_ns(media: &Media) -> u64
    ensures { result ≡ frame_ns media.now }
{
    let media = *media;
    u64::from(media.q) * SECOND / u64::from(media.p)
}

/// Returns the number of frames or fields in `q` seconds.
fn groups_in_q(media: &Media) -> u64
    ensures value { result ≡ groups_in_q media.now }
    ensures some { 1 ≤ result }
    ensures small { result < 2 ^ 32 }
{
    let video = *media;
    u64::from(video.p) * u64::from(groups_per_frame(media))
}

/// Returns the time of a field of an interlaced video, or of a frame of a progressive one, in nanoseconds.
pub(crate) fn group_ns(media: &Media) -> u64
    ensures { result ≡ group_ns media.now }
{
    let video = *media;
    u64::from(video.q) * SECOND / groups_in_q(media)
}

/// Returns TR_OFFSET in nanoseconds.
pub(crate) fn offset_ns(media: &Media) -> u64
    ensures { result ≡ offset_ns media.now }
{
    let offset = tr_offset(media);
    offset.num / offset.den
}

/// Returns the step of the RTP timestamp from one frame or field to the next, in ticks.
pub(crate) fn least_step(media: &Media) -> u64
    ensures { result ≡ least_step media.now }
{
    let video = *media;
    TICKS * u64::from(video.q) / groups_in_q(media)
}

/// Returns the same step rounded up, in ticks.
pub(crate) fn greatest_step(media: &Media) -> u64
    ensures { result ≡ greatest_step media.now }
{
    let video = *media;
    let groups = groups_in_q(media);
    (TICKS * u64::from(video.q) + groups - 1) / groups
}
