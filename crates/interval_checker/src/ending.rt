//! The end of a run.

ghost use Rattle.std.specs.Prelude.{◌≤◌};

/// Complete frames or fields of a run.
#[derive(Clone, Copy, Debug, PartialEq, Eq)]
pub struct Frames {
    /// Packets per frame or field.
    pub size: u32,
    /// Packets of all of them.
    pub count: u64,
    ghost some: { 1 ≤ size },
    ghost most: { size ≤ 262144 },
}

/// Contents of a run that has ended.
#[derive(Clone, Copy, Debug, PartialEq, Eq)]
pub enum Ending {
    /// No complete frame or field; `head` is the number of packets up to and including the first marker, or of all
    /// packets if there is no marker.
    NoWholeFrame { head: u64 },
    /// Complete frames or fields.
    WholeFrames(Frames),
}
