//! The drawing of the longest run of a flow.

ghost use Rattle.std.specs.Prelude.{◌≡◌, None, Some};

use crate::{Curves, Region, ShownRun};
use flow_measure::MeasuredRun;
use timing_base::Items;

/// The drawing of a judged run.
#[derive(Drop)]
pub struct DrawnRun {
    /// The number of the run among all runs of the flow, judged or not, from 1.
    pub run: u64,
    /// The count of its judged packets.
    pub packets: u64,
    /// The capture timestamp of its first judged packet, in nanoseconds of TAI.
    pub first_at: u64,
    /// The capture timestamp of its last judged packet, in nanoseconds of TAI.
    pub last_at: u64,
    /// The columns over the run.
    pub curves: Curves,
    /// The packets around the violation of each type that fails.
    pub regions: Items<Region>,
}

impl DrawnRun {
    /// Returns the run with these measurements and this drawing.
    pub fn shown(self, run: MeasuredRun) -> ShownRun
        ensures run { result.run ≡ run }
        ensures first { result.first_at ≡ self.first_at }
        ensures last { result.last_at ≡ self.last_at }
        ensures curves { result.curves ≡ self.curves }
        ensures regions { result.regions ≡ self.regions }
    {
        ShownRun {
            run,
            first_at: self.first_at,
            last_at: self.last_at,
            curves: self.curves,
            regions: self.regions,
        }
    }
}

/// The drawing of the complete run with the most judged packets; of equal ones the first.
#[derive(Drop)]
pub struct LongestRun {
    /// The drawing; `None` before the first run.
    pub drawn: Option<DrawnRun>,
}

impl LongestRun {
    ghost use Rattle.flow_page.specs.drawing.drawing.Longest.{is_shorter};

    /// Returns no drawing, before the first run.
    pub fn new() -> LongestRun
        ensures { result.drawn ≡ None }
    {
        LongestRun { drawn: None }
    }

    /// Replaces the drawing by that of another run.
    pub fn put(&mut self, drawn: DrawnRun)
        ensures { self.new.drawn ≡ Some drawn }
    {
        self.drawn = Some(drawn);
    }

    /// Returns whether no run is drawn yet, or a run of `packets` packets is longer than the one drawn.
    pub fn is_shorter(&self, packets: u64) -> bool
        ensures { result ≡ is_shorter self.now.drawn packets }
    {
        match &self.drawn {
            None => true,
            Some(drawn) => drawn.packets < packets,
        }
    }
}
