//! Writes a flow as a capture.

ghost use Rattle.std.specs.Prelude.{◌≡◌, ◌≤◌, ◌++◌, IfOk, length};
ghost use Rattle.timing_base.specs.Captures.{IsStamp};
ghost use Rattle.pcap_reader.specs.WrittenHeads.{file_head, record_head};

use pcap_reader::{file_head, record_head};
use std::alloc::{AllocError as OutOfMemory, Global};

/// Returns a capture without packet records. Returns `Err` if memory runs out.
pub fn begin(alloc: Global) -> Result<Vec<u8>, OutOfMemory>
    ensures { IfOk result (λ bytes. bytes.items ≡ file_head) }
{
    Vec::from_slice(alloc, &file_head())
}

/// Adds the packet record of a frame with this capture timestamp, in nanoseconds. Returns `Err` if memory runs out.
#[inline(always)]
pub fn add_record(bytes: &mut Vec<u8>, at: u64, frame: &[u8]) -> Result<(), OutOfMemory>
    requires stamp { IsStamp at }
    requires short { length frame.now ≤ 262144 }
    ensures { IfOk result (λ _. bytes.new.items
        ≡ bytes.old.items ++ (record_head at (length frame.now) ++ frame.now)) }
{
    bytes.extend_from_slice(&record_head(at, frame.len() as u32))?;
    bytes.extend_from_slice(frame)?;
    Ok(())
}
