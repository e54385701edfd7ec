//! The reasons why sources aren't read to their ends.

/// Reason why the packets of the sources weren't all taken.
#[derive(Clone, Copy, Debug, PartialEq, Eq)]
pub enum CheckFault {
    /// A read of this source failed. Sources count from 0.
    ReadFault { source: u32 },
    /// Memory ran out.
    OutOfMemory,
}
