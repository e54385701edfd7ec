//! The packet records of captures, taken by readings.

use crate::reading::Reading;
use pcap_reader::Taker;
use std::convert::Infallible;
use udp_rtp::datagram;

/// The readings of some flows of the same captures.
#[derive(Drop)]
pub struct Checking {
    /// Readings, each of one flow.
    pub readings: Vec<Reading>,
}

impl Taker for Checking {
    ghost use Rattle.interval_checker.specs.Taking.{FeedsOn, HasRoom, NeverStops, feeds_more, feeds_none, room_less};

    /// It never stops before the end of the records.
    type Stop = Infallible;

    ghost takes = { FeedsOn };

    ghost stops = { NeverStops };

    ghost room = { HasRoom };

    ghost none = { feeds_none };

    ghost more = { feeds_more };

    ghost ends = { λ _ _ _ _ _ _ _ h. h };

    ghost halts = { λ _ _ _ _ _ h. h };

    ghost less = { room_less };

    #[inline]
    fn take(&mut self, number: u64, at: u64, frame: &[u8]) -> Result<(), Infallible> {
        let Some(datagram) = datagram(frame) else {
            return Ok(());
        };
        for reading in self.readings.iter_mut() {
            reading.take(number, at, &datagram);
        }
        Ok(())
    }
}
