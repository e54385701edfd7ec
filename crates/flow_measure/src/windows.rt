//! The offsets with which the packets of a run would keep the receiver buffer, for each sender type.

ghost use Rattle.std.specs.Prelude.{◌≡◌, ◌≤◌, ◌<◌, ◌+◌, ◌^◌, ◌++◌, ◌∷◌, [], ℕ, ℤ, List, pos, negsuc, ◌≤ℤ◌};
ghost use Rattle.sender_params.specs.Reads.{anchor_of};

use offset_window::WindowMeter;
use sender_params::Params;
use timing_base::Kind;

/// A meter of the offsets with which the packets so far of one run would keep the buffer, for each sender type.
#[derive(Clone, Copy)]
pub struct WindowMeters {
    /// The window of type N.
    pub narrow: WindowMeter,
    /// The window of type NL.
    pub narrow_linear: WindowMeter,
    /// The window of type W.
    pub wide: WindowMeter,
    ghost same_linear: { narrow_linear.seen ≡ narrow.seen },
    ghost same_wide: { wide.seen ≡ narrow.seen },
}

impl WindowMeters {
    ghost use Rattle.timing_base.specs.declared.media.Kind.{Kind as KindValue};
    ghost use Rattle.offset_window.specs.Stands.{StandsFor};
    ghost use Rattle.flow_measure.specs.Offsets.{MeasuresWindows, window_in};

    /// Returns the meter before the first packet.
    pub fn new(params: &Params) -> WindowMeters
        ensures seen { result.narrow.seen ≡ 0 }
        ensures stands { MeasuresWindows params.now.media params.now.n result [] }
    {
        WindowMeters::starting_with(params, 0)
    }

    /// Returns the meter of a run with a first packet of frame or field `n0`, counted from the epoch, before that packet.
    fn starting_with(params: &Params, n0: i128) -> WindowMeters
        requires low { negsuc 479 ≤ℤ n0 }
        requires high { n0 ≤ℤ pos (2 ^ 42) }
        ensures seen { result.narrow.seen ≡ 0 }
        ensures stands { (kind : KindValue) → StandsFor params.now kind n0 (window_in kind result) [] }
    {
        WindowMeters {
            narrow: WindowMeter::new(params, Kind::N, n0),
            narrow_linear: WindowMeter::new(params, Kind::NL, n0),
            wide: WindowMeter::new(params, Kind::W, n0),
        }
    }

    /// Takes the next packet, which came at `at`, in nanoseconds of TAI.
    #[inline(always)]
    pub fn feed(&mut self, params: &Params, at: u64)
        requires in_time { at < 2 ^ 62 }
        requires few { self.old.narrow.seen < 2 ^ 41 }
        ensures seen { self.new.narrow.seen ≡ self.old.narrow.seen + 1 }

        // Whatever packets the meter was fed before, this packet now follows them.
        ensures stands { (stamps : List ℕ) → MeasuresWindows params.now.media params.now.n self.old stamps
            → MeasuresWindows params.now.media params.now.n self.new (stamps ++ at ∷ []) }
    {
        if self.narrow.seen == 0 {
            self.start(params, at);
        }
        self.put(params, at);
    }

    /// Starts with the run's first packet, which belongs to the nearest frame or field of the grid from the epoch.
    #[cold]
    #[inline(never)]
    fn start(&mut self, params: &Params, at: u64)
        requires { at < 2 ^ 62 }
        ensures seen { self.new.narrow.seen ≡ 0 }
        ensures stands { (kind : KindValue)
            → StandsFor params.now kind (anchor_of params.now.media at) (window_in kind self.new) [] }
    {
        *self = WindowMeters::starting_with(params, params.anchor(at));
    }

    /// Puts the next packet into the window of each type.
    #[inline(always)]
    fn put(&mut self, params: &Params, at: u64)
        requires in_time { at < 2 ^ 62 }
        requires few { self.old.narrow.seen < 2 ^ 41 }
        ensures seen { self.new.narrow.seen ≡ self.old.narrow.seen + 1 }
        ensures stands { (kind : KindValue) (anchor : ℤ) (stamps : List ℕ)
            → StandsFor params.now kind anchor (window_in kind self.old) stamps
            → StandsFor params.now kind anchor (window_in kind self.new) (stamps ++ at ∷ []) }
    {
        self.narrow.feed(params, at);
        self.narrow_linear.feed(params, at);
        self.wide.feed(params, at);
    }
}
