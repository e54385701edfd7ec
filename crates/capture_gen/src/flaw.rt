//! Flaws of made captures.

ghost use Rattle.std.specs.Prelude.{◌≡◌, ◌≤◌};

/// The flaw of a capture. The variants are numbered 0 to 4 in this order.
#[derive(Clone, Copy, Debug)]
pub enum Flaw {
    /// No flaw.
    Clean,
    /// Packets 1 to 4 of the last frame have the capture timestamp of packet 0.
    Burst,
    /// The packets of each frame come 1,000,000 ns apart instead of 960,000 ns.
    Slow,
    /// Packet 10 of the last frame is left out.
    Gap,
    /// Packet 19 of the last frame is left out, and packet 18 has the marker.
    Short,
}

impl Flaw {
    ghost use Rattle.capture_gen.specs.Flaws.{flaw_of, spacing, is_bunched, is_left_out, marked_place};

    /// Returns the flaw with this number.
    pub fn of(number: u32) -> Flaw
        requires { number ≤ 4 }
        ensures { result ≡ flaw_of number }
    {
        match number {
            0 => Flaw::Clean,
            1 => Flaw::Burst,
            2 => Flaw::Slow,
            3 => Flaw::Gap,
            _ => Flaw::Short,
        }
    }

    /// Returns the time from one packet of a frame to the next, in nanoseconds.
    pub fn spacing(self) -> u64
        ensures { result ≡ spacing self }
    {
        match self {
            Flaw::Slow => 1_000_000,
            _ => 960_000,
        }
    }

    /// Returns whether the packet at this place has the capture timestamp of packet 0. `last` is
    /// true for the last frame of the capture.
    pub fn is_bunched(self, last: bool, place: u32) -> bool
        ensures { result ≡ is_bunched self last place }
    {
        match self {
            Flaw::Burst => last && place <= 4,
            _ => false,
        }
    }

    /// Returns whether the packet at this place is left out.
    pub fn is_left_out(self, last: bool, place: u32) -> bool
        ensures { result ≡ is_left_out self last place }
    {
        match self {
            Flaw::Gap => last && place == 10,
            Flaw::Short => last && place == 19,
            _ => false,
        }
    }

    /// Returns the place of the packet with the marker.
    pub fn marked_place(self, last: bool) -> u32
        ensures { result ≡ marked_place self last }
    {
        match self {
            Flaw::Short if last => 18,
            _ => 19,
        }
    }
}
