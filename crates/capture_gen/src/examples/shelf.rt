//! Contents on a shelf.

use std::alloc::{AllocError, Global};
use timing_outside::{MemoryShelf, ReadPlan};

/// Puts a copy of these bytes on a shelf under this name, in place of any that were there. Returns
/// `Err` if memory runs out.
pub fn put(
    alloc: Global,
    shelf: &mut MemoryShelf,
    name: &str,
    text: &[u8],
    plan: ReadPlan,
) -> Result<(), AllocError> {
    shelf.put(
        String::from_str(alloc, name)?,
        Vec::from_slice(alloc, text)?,
        plan,
    )
}
