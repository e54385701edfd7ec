//! The source of contents that were fetched from a `MemoryShelf`.
ghost use Rattle.std.specs.Prelude.{◌≡◌, ◌≤◌, ◌<◌, length, min, Some, IfOk, is_err, nat_lt};
ghost use Rattle.std.specs.Io.{ReadsAtMost};
ghost use Rattle.std.specs.Io.KnownBytes.{ReadConsumes};
ghost use Rattle.timing_outside.specs.Causes.{HasCause};
ghost use Rattle.timing_outside.specs.Counts.{raised, raised_if};

use crate::plan::{ReadPlan, is_among};
use crate::source::{Failed, Source};
use crate::text::Text;
use std::alloc::{AllocError as OutOfMemory, Global};

/// Contents that were fetched from a `MemoryShelf`: a copy of the bytes, and the plan of the reads.
#[derive(Drop)]
pub struct MemorySource {
    name: String,
    text: Text,
    piece: u32,
    fails: Vec<u32>,
    reads: u64,
    faults: u64,
    ghost some: { 1 ≤ piece },
}

impl MemorySource {
    ghost use Rattle.timing_outside.specs.MemorySources.{name_of, faults_of, Begins, Follows};

    /// Returns a source at the start of a copy of these bytes, with a copy of this plan. Returns
    /// `Err` if memory runs out.
    pub(crate) fn copy(
        alloc: Global,
        name: &str,
        bytes: &[u8],
        plan: &ReadPlan,
    ) -> Result<MemorySource, OutOfMemory>
        ensures begins { IfOk result (λ s. Begins s name.now bytes.now) }
        ensures follows { IfOk result (λ s. Follows s plan.now) }
    {
        Ok(MemorySource {
            name: String::from_str(alloc, name)?,
            text: Text::new(Vec::from_slice(alloc, bytes)?),
            piece: plan.piece,
            fails: Vec::from_slice(alloc, &plan.fails)?,
            reads: 0,
            faults: 0,
        })
    }

    /// Returns the name under which it was fetched.
    pub(crate) fn name(&self) -> &str
        ensures { result.now ≡ name_of self.now }
    {
        self.name.as_str()
    }

    /// Returns whether a read has failed.
    pub(crate) fn has_failed(&self) -> bool
        ensures { result ≡ nat_lt 0 (faults_of self.now) }
    {
        self.faults > 0
    }
}

impl Source for MemorySource {
    ghost use Rattle.timing_outside.specs.MemorySources.{name_of, left_of, piece_of, reads_of, faults_of, read_fails, SamePlan};

    ghost name = { λ s. name_of s };

    ghost left = { λ s. Some (left_of s) };

    ghost faults = { λ s. faults_of s };

    /// Reads as many bytes as the buffer, the plan and the rest allow. Returns `Failed` exactly if
    /// the number of this read is in the plan.
    fn read(&mut self, buf: &mut [u8]) -> Result<usize, Failed>
        ensures same_name { name_of self.new ≡ name_of self.old }
        ensures bound { ReadsAtMost result buf.new }
        ensures bytes { ReadConsumes (Some (left_of self.old)) (Some (left_of self.new))
            result buf.new }
        ensures cause { HasCause (faults_of self.old) (faults_of self.new) result }

        ensures exact { is_err result ≡ read_fails self.old }
        ensures most { IfOk result (λ k. k
            ≡ min (min (length buf.old) (piece_of self.old)) (length (left_of self.old))) }
        ensures plan { SamePlan self.old self.new }
        ensures reads { reads_of self.new ≡ raised (reads_of self.old) }
        ensures faults { faults_of self.new ≡ raised_if (is_err result) (faults_of self.old) }
    {
        self.reads = self.reads.saturating_add(1);
        if is_among(&self.fails, self.reads) {
            self.faults = self.faults.saturating_add(1);
            return Err(Failed);
        }
        Ok(self.text.give(self.piece as usize, buf))
    }
}
