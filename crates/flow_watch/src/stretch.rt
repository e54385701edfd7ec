//! A stretch of the frames or fields of a judged run.

ghost use Rattle.std.specs.Prelude.{◌≡◌, ◌≤◌};
ghost use Rattle.flow_watch.specs.Watched.{per_second};
ghost use Rattle.flow_watch.specs.making.Stretches.{IsJoinedStretch, groups_of};

use crate::peaks::Peaks;
use sender_params::groups_per_frame;
use timing_base::Media;

/// A number for each sender type of SMPTE ST 2110-21.
#[derive(Clone, Copy, Debug, PartialEq, Eq)]
pub struct PerType {
    /// The number for narrow senders (N).
    pub narrow: u64,
    /// The number for narrow linear senders (NL).
    pub narrow_linear: u64,
    /// The number for wide senders (W).
    pub wide: u64,
}

/// A stretch of the frames of a judged run, or of its fields if the video is interlaced.
#[derive(Clone, Copy, Debug, PartialEq, Eq)]
pub struct Stretch {
    /// The position of the run among all runs of the flow, judged or not, counted from 1.
    pub run: u64,
    /// The first frame or field of the stretch, counted from 1 in the run.
    pub from: u64,
    /// The last frame or field of the stretch, counted from 1 in the run.
    pub to: u64,
    /// The capture timestamp of the last packet, which has the marker, in nanoseconds of TAI.
    pub stamp: u64,
    /// C_MAX, in packets.
    pub c_max: PerType,
    /// The extremes of both models over the packets of the stretch.
    pub peaks: Peaks,
    /// The frames or fields of the run, up to the last one of the stretch, that break a limit of the type.
    pub broken: PerType,
}

impl Stretch {
    /// Returns the number of its frames or fields.
    pub fn groups(&self) -> u64
        ensures { result ≡ groups_of self.now }
    {
        self.to.saturating_sub(self.from).saturating_add(1)
    }

    /// Returns this stretch and the next one of its run as one.
    pub(crate) fn joined(self, next: Stretch) -> Stretch
        ensures { IsJoinedStretch self next result }
    {
        Stretch {
            run: self.run,
            from: self.from,
            to: next.to,
            stamp: next.stamp,
            c_max: self.c_max,
            peaks: self.peaks.joined(next.peaks),
            broken: next.broken,
        }
    }
}

/// Returns the number of frames or fields of a video in one second, rounded up.
pub fn groups_per_second(media: &Media) -> u32
    ensures value { result ≡ per_second media.now }
    ensures some { 1 ≤ result }
{
    (groups_per_frame(media) * media.p).div_ceil(media.q)
}
