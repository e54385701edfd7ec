//! The meters of the three sender types.

ghost use Rattle.std.specs.Prelude.{◌≡◌, ◌≤◌, ◌<◌, ◌+◌, ◌^◌, ◌++◌, ◌∷◌, [], ℕ, ℤ, List, length, slice_index};
ghost use Rattle.std.specs.Prelude.{All, pos, negsuc, ◌≤ℤ◌};
ghost use Rattle.sender_params.specs.Reads.{anchor_of};

use crate::window::windows::Windows;
use offset_window::WindowMeter;
use sender_params::Params;
use timing_base::Kind;

/// The windows of the packets of a flow so far, for each sender type.
#[derive(Clone, Copy)]
pub struct WindowMeters {
    /// The meter of type N.
    pub narrow: WindowMeter,
    /// The meter of type NL.
    pub narrow_linear: WindowMeter,
    /// The meter of type W.
    pub wide: WindowMeter,
    ghost same_linear: { narrow_linear.seen ≡ narrow.seen },
    ghost same_wide: { wide.seen ≡ narrow.seen },
}

impl WindowMeters {
    ghost use Rattle.sender_params.specs.declared.params.Params.{Params};
    ghost use Rattle.timing_reach.specs.window.Gauging.{AreFed, count_seen};
    ghost use Rattle.timing_reach.specs.Windows.{AreWindowsOf};

    /// Returns the meters before the first packet of a flow; `n0` is the number of the frame or field of that packet.
    pub fn new(params: &Params, n0: i128) -> WindowMeters
        requires low { negsuc 479 ≤ℤ n0 }
        requires high { n0 ≤ℤ pos (2 ^ 42) }
        ensures seen { count_seen result ≡ 0 }
        ensures stands { AreFed params.now n0 result [] }
    {
        WindowMeters {
            narrow: WindowMeter::new(params, Kind::N, n0),
            narrow_linear: WindowMeter::new(params, Kind::NL, n0),
            wide: WindowMeter::new(params, Kind::W, n0),
        }
    }

    /// Returns the meters of packets with these arrivals, in nanoseconds of TAI.
    pub fn of(params: &Params, stamps: &[u64]) -> WindowMeters
        requires some { 1 ≤ length stamps.now }
        requires few { length stamps.now < 2 ^ 40 }
        requires early { All (λ at. at < 2 ^ 62) stamps.now }
        ensures seen { count_seen result ≡ length stamps.now }
        ensures stands { AreFed params.now (anchor_of params.now.media (slice_index stamps.now 0))
            result stamps.now }
    {
        let mut meters = WindowMeters::new(params, params.anchor(stamps[0]));
        for at in stamps {
            meters.feed(params, *at);
        }
        meters
    }

    /// Adds the packet that came at `at`, in nanoseconds of TAI.
    #[inline(always)]
    pub fn feed(&mut self, params: &Params, at: u64)
        requires in_time { at < 2 ^ 62 }
        requires few { count_seen self.old < 2 ^ 40 }
        ensures seen { count_seen self.new ≡ count_seen self.old + 1 }
        ensures stands { (n0 : ℤ) (stamps : List ℕ) → AreFed params.now n0 self.old stamps
            → AreFed params.now n0 self.new (stamps ++ at ∷ []) }
    {
        self.narrow.feed(params, at);
        self.narrow_linear.feed(params, at);
        self.wide.feed(params, at);
    }

    /// Returns the windows of the packets that were added.
    pub fn finish(&self) -> Windows
        ensures { (params : Params) (stamps : List ℕ)
            → AreFed params (anchor_of params.media (slice_index stamps 0)) self.now stamps
            → AreWindowsOf params.media params.n stamps result }
    {
        Windows {
            narrow: self.narrow.finish(),
            narrow_linear: self.narrow_linear.finish(),
            wide: self.wide.finish(),
        }
    }
}
