//! Packets with the marker, by their places in a stream.

ghost use Rattle.std.specs.Prelude.{◌≡◌};
ghost use Rattle.capture_scan.specs.Counting.{mark_next, mark_of};

use timing_base::Rtp;

/// A packet with the marker.
#[derive(Clone, Copy)]
pub struct Mark {
    /// The place of the packet in its stream, counted from 0.
    pub place: u64,
    /// The RTP timestamp, in ticks of 90 kHz.
    pub timestamp: u32,
}

impl Mark {
    /// Returns the mark of a packet at this place, if it has the marker.
    #[inline(always)]
    pub fn of(place: u64, rtp: Rtp) -> Option<Mark>
        ensures { result ≡ mark_of place rtp }
    {
        if rtp.marker {
            Some(Mark {
                place,
                timestamp: rtp.timestamp,
            })
        } else {
            None
        }
    }

    /// Returns the last mark: `mark` if there is one, else `before`.
    #[inline(always)]
    pub fn last(before: Option<Mark>, mark: Option<Mark>) -> Option<Mark>
        ensures { result ≡ mark_next before mark }
    {
        if mark.is_some() { mark } else { before }
    }
}
