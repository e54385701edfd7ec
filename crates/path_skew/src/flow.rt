//! The counts of a flow.

/// Counts of the packets of one flow, and the position of its last packet number.
#[derive(Clone, Copy, Debug)]
pub struct Flow {
    /// Number of different packet numbers.
    pub numbers: u64,
    /// Packets with a packet number that came before.
    pub repeated: u64,
    /// Packets that couldn't be parsed.
    pub unread: u64,
    /// Position of the page of its last packet number, counted from 0.
    pub near: usize,
}

impl Flow {
    ghost use Rattle.std.specs.Prelude.{◌≡◌};

    /// Returns the counts of a flow without packets.
    pub fn new() -> Flow
        ensures numbers { result.numbers ≡ 0 }
        ensures repeated { result.repeated ≡ 0 }
        ensures unread { result.unread ≡ 0 }
    {
        Flow {
            numbers: 0,
            repeated: 0,
            unread: 0,
            near: 0,
        }
    }
}
