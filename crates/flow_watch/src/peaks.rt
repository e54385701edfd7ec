//! The extremes of the bucket and of the receiver buffer over packets.

ghost use Rattle.std.specs.Prelude.{◌≡◌, max};
ghost use Rattle.std.specs.Int.{int_max, int_min};
ghost use Rattle.flow_watch.specs.making.Peaks.{IsJoined, IsOfOne, late_with, range_of};

use run_meter::Level;
use vrx_buffer::Held;

/// The occupancy of the receiver buffer just after each of some packets, by the reads of one schedule (SMPTE ST
/// 2110-21).
#[derive(Clone, Copy, Debug, PartialEq, Eq)]
pub struct BufferRange {
    /// The least occupancy, in packets; below 0 if the reads are ahead.
    pub least: i64,
    /// The greatest occupancy, in packets; below 0 if the reads are ahead.
    pub greatest: i64,
    /// The packets that came after their own reads.
    pub late: u64,
}

impl BufferRange {
    /// Returns the range of one packet, with the buffer at `held` just after it.
    #[inline(always)]
    fn of(held: Held) -> BufferRange
        ensures { result ≡ range_of held }
    {
        BufferRange {
            least: held.occupancy,
            greatest: held.occupancy,
            late: u64::from(held.late),
        }
    }

    /// Returns the range of these packets and of others.
    #[inline(always)]
    fn joined(self, other: BufferRange) -> BufferRange
        ensures least { result.least ≡ int_min self.least other.least }
        ensures greatest { result.greatest ≡ int_max self.greatest other.greatest }
        ensures late { result.late ≡ late_with self.late other.late }
    {
        BufferRange {
            least: self.least.min(other.least),
            greatest: self.greatest.max(other.greatest),
            late: self.late.saturating_add(other.late),
        }
    }
}

/// The extremes of both models just after each of some packets (SMPTE ST 2110-21).
#[derive(Clone, Copy, Debug, PartialEq, Eq)]
pub struct Peaks {
    /// The greatest count of the bucket, in packets.
    pub bucket: u64,
    /// The receiver buffer by the gapped reads (N).
    pub gapped: BufferRange,
    /// The receiver buffer by the linear reads (NL and W).
    pub linear: BufferRange,
}

impl Peaks {
    /// Returns the peaks of one packet, with both models at `level` just after it.
    #[inline(always)]
    pub(crate) fn of(level: Level) -> Peaks
        ensures { IsOfOne level result }
    {
        Peaks {
            bucket: level.bucket,
            gapped: BufferRange::of(level.gapped),
            linear: BufferRange::of(level.linear),
        }
    }

    /// Returns the peaks of these packets and of others.
    #[inline(always)]
    pub(crate) fn joined(self, other: Peaks) -> Peaks
        ensures { IsJoined self other result }
    {
        Peaks {
            bucket: self.bucket.max(other.bucket),
            gapped: self.gapped.joined(other.gapped),
            linear: self.linear.joined(other.linear),
        }
    }
}
