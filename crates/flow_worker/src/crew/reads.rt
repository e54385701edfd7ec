//! The results of the intakes of a run, in order.

ghost use Rattle.std.specs.Prelude.{◌≡◌, IfOk, map};

use crate::IntakeDone;
use ruled_intake::SendPass;
use std::alloc::{AllocError as OutOfMemory, Global};
use timing_base::FileNote;
use timing_outside::Source;

/// Results of the intakes.
#[derive(Drop)]
pub struct Read<S: Source> {
    /// Sources of the files.
    pub sources: Vec<S>,
    /// How each file ends; `None` if memory ran out in its intake.
    pub notes: Vec<Option<FileNote>>,
    /// Passes of each file.
    pub rows: Vec<Vec<SendPass>>,
}

/// Takes the results of the intakes apart. Returns `Err` if memory runs out.
pub fn take_read<S: Source>(
    alloc: Global,
    dones: Vec<IntakeDone<S>>,
) -> Result<Read<S>, OutOfMemory>
    ensures sources { IfOk result (λ read. read.sources.items ≡ map (λ d. d.source) dones.items) }
    ensures notes { IfOk result (λ read. read.notes.items ≡ map (λ d. d.note) dones.items) }
    ensures rows { IfOk result (λ read. read.rows.items ≡ map (λ d. d.passes) dones.items) }
{
    let mut read = Read {
        sources: Vec::new(alloc),
        notes: Vec::new(alloc),
        rows: Vec::new(alloc),
    };
    for done in dones {
        read.sources.push(done.source)?;
        read.notes.push(done.note)?;
        read.rows.push(done.passes)?;
    }
    Ok(read)
}
