//! The window and its ends.

/// One end of a window.
#[derive(Clone, Copy, Debug, PartialEq, Eq)]
pub enum WindowEnd {
    /// No offset from 0 to 1,000,000 microseconds works.
    Absent,
    /// Last offset that works on this side.
    At {
        /// Offset in microseconds: 0 to 1,000,000.
        micros: u32,
        /// First packet, counted from 0, that violates the model with the next offset; `None` if there is no next
        /// offset.
        binding: Option<u64>,
    },
}

/// Offsets with which no packet violates the buffer's model.
#[derive(Clone, Copy, Debug, PartialEq, Eq)]
pub struct Window {
    /// Smallest offset with which no packet comes after its own read.
    pub lower: WindowEnd,
    /// Greatest offset with which the buffer never holds more than VRX_FULL packets.
    pub upper: WindowEnd,
}
