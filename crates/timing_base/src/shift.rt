//! How the packets of a flow are timed and numbered: the options that all commands share.

use std::marker::Model;

/// What is added to each capture timestamp, and what is then subtracted.
#[derive(Clone, Copy, Debug, PartialEq, Eq)]
pub struct Shift {
    /// The seconds that are added, 0 to 1,000.
    pub tai: u64,
    /// The nanoseconds that are then subtracted, 0 to 999,999,999.
    pub delay: u64,
}

impl Model for Shift {
    ghost use Rattle.timing_base.specs.Shifts.{IsShift, Shift as Seen};

    ghost Value = { Seen };

    ghost view = { λ shift. record { tai = shift.tai; delay = shift.delay } };

    ghost invariant = { λ shift. IsShift (view shift) };

    ghost inverse = { λ shift. record { tai = shift.tai; delay = shift.delay } };
}

impl Shift {
    ghost use Rattle.std.specs.Prelude.{◌≡◌, ◌<◌, ◌*◌, ◌^◌};
    ghost use Rattle.timing_base.specs.Shifts.{shifted, unshifted};

    /// No shift.
    pub const NONE: Shift = Shift { tai: 0, delay: 0 };

    /// Returns a capture timestamp in nanoseconds after the shift, 0 if it would be below 0.
    #[inline(always)]
    pub fn stamp(self, at: u64) -> u64
        requires { at < 2 ^ 32 * 10 ^ 9 }
        ensures is { result ≡ shifted self at }
        ensures early { result < 2 ^ 62 }
    {
        (at + self.tai * 1_000_000_000).saturating_sub(self.delay)
    }

    /// Returns the capture timestamp in nanoseconds that has this one after the shift, 0 if it
    /// would be below 0.
    #[inline(always)]
    pub fn captured(self, stamp: u64) -> u64
        requires { stamp < 2 ^ 63 }
        ensures { result ≡ unshifted self stamp }
    {
        (stamp + self.delay).saturating_sub(self.tai * 1_000_000_000)
    }
}

/// The options of a flow.
#[derive(Clone, Copy, Debug, PartialEq, Eq)]
pub struct FlowOptions {
    /// The shift of its capture timestamps.
    pub shift: Shift,
    /// Whether its packets are numbered by their RTP sequence numbers alone.
    pub seq16: bool,
}

impl Model for FlowOptions {
    ghost use Rattle.timing_base.specs.Shifts.{AreFlowOptions, FlowOptions as Seen};

    ghost Value = { Seen };

    ghost view = { λ options. record { shift = options.shift; seq16 = options.seq16 } };

    ghost invariant = { λ options. AreFlowOptions (view options) };

    ghost inverse = { λ options. record { shift = options.shift; seq16 = options.seq16 } };
}

impl FlowOptions {
    /// No option.
    pub const NONE: FlowOptions = FlowOptions {
        shift: Shift::NONE,
        seq16: false,
    };
}
