//! How far a reader has come, and the header of a packet record.

use crate::layout::Layout;
use timing_base::FileNote;

/// How far a reader has come.
#[derive(Clone, Copy, Debug)]
pub enum Stage {
    /// The file header wasn't read yet.
    Header,
    /// The file header was read; the next is a packet record.
    Records(Layout),
    /// The records have ended in this way.
    Ended(FileNote),
}

/// The header of a packet record.
#[derive(Clone, Copy, Debug)]
pub struct Head {
    /// The capture timestamp, in nanoseconds since 1970-01-01 00:00:00.
    pub at: u64,
    /// The captured length, in bytes.
    pub captured: usize,
}
