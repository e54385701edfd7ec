//! Contents in memory that never fail.
ghost use Rattle.std.specs.Prelude.{◌≡◌, ◌≤◌, ◌<◌, ◌&&◌, ℕ, List, [], length, min, cond, is_ok, Some, IsOk, IfOk, IsErrOf, string_bytes};
ghost use Rattle.std.specs.Str.{bytes_eq};
ghost use Rattle.std.specs.Io.{ReadsAtMost};
ghost use Rattle.std.specs.Io.KnownBytes.{ReadConsumes};
ghost use Rattle.timing_outside.specs.Causes.{Rose, HasCause};

use crate::shelf::{OpenFault, Shelf};
use crate::source::{Failed, Source};
use crate::text::Text;
use std::alloc::{AllocError as OutOfMemory, Global};
use std::collections::BTreeMap;

/// Contents in memory by name. A name that wasn't put has empty contents, and nothing fails.
#[derive(Drop)]
pub struct SteadyShelf {
    alloc: Global,
    entries: BTreeMap<String, Vec<u8>>,
}

/// Contents that were fetched from a `SteadyShelf`: a copy of the bytes.
#[derive(Drop)]
pub struct SteadySource {
    name: String,
    text: Text,
}

impl SteadyShelf {
    ghost use Rattle.timing_outside.specs.SteadyShelves.{bytes_of};

    /// Returns a shelf on which the contents of every name are empty.
    pub fn new(alloc: Global) -> SteadyShelf
        ensures { (n : List ℕ) → bytes_of result n ≡ [] }
    {
        SteadyShelf {
            alloc,
            entries: BTreeMap::new(alloc),
        }
    }

    /// Puts contents on the shelf under this name, in place of any that were there. Returns `Err`
    /// if memory runs out; then nothing has changed.
    #[tactic(auto, using(std::proofs::lemmas::Map::Text::text_keys))]
    pub fn put(&mut self, name: String, bytes: Vec<u8>) -> Result<(), OutOfMemory>
        ensures { (n : List ℕ) → bytes_of self.new n
            ≡ cond (is_ok result && bytes_eq (string_bytes name) n)
            bytes.items (bytes_of self.old n) }
    {
        self.entries.insert(name, bytes)?;
        Ok(())
    }

    /// Returns a copy of the contents of this name. Returns `Err` if memory runs out.
    fn copy(&self, name: &str) -> Result<Vec<u8>, OutOfMemory>
        ensures { IfOk result (λ bytes. bytes.items ≡ bytes_of self.now name.now) }
    {
        match self.entries.get(name) {
            Some(bytes) => Vec::from_slice(self.alloc, bytes),
            None => Ok(Vec::new(self.alloc)),
        }
    }
}

impl Shelf for SteadyShelf {
    ghost use Rattle.timing_outside.specs.SteadyShelves.{bytes_of, name_of, left_of};

    type Source = SteadySource;

    ghost text = { λ s n. Some (bytes_of s n) };

    ghost lacks = { λ s n. ⊥ };

    ghost faults = { λ s n. 0 };

    /// Returns a source with a copy of the contents. Never returns `Failed`.
    fn fetch(&mut self, name: &str) -> Result<SteadySource, OpenFault>
        ensures named { IfOk result (λ s. name_of s ≡ name.now) }
        ensures whole { IfOk result (λ s. left_of s ≡ bytes_of self.old name.now) }
        ensures texts { (n : List ℕ) → bytes_of self.new n ≡ bytes_of self.old n }

        ensures never { ¬ (IsErrOf result OpenFault.Failed) }
    {
        Ok(SteadySource {
            name: String::from_str(self.alloc, name)?,
            text: Text::new(self.copy(name)?),
        })
    }

    /// Does nothing, because no read fails.
    fn give_back(&mut self, _source: SteadySource)
        ensures { (n : List ℕ) → bytes_of self.new n ≡ bytes_of self.old n }
    {}
}

impl Source for SteadySource {
    ghost use Rattle.timing_outside.specs.SteadyShelves.{name_of, left_of};

    ghost name = { λ s. name_of s };

    ghost left = { λ s. Some (left_of s) };

    ghost faults = { λ s. 0 };

    /// Reads as many bytes as the buffer and the rest allow. Never fails.
    fn read(&mut self, buf: &mut [u8]) -> Result<usize, Failed>
        ensures same_name { name_of self.new ≡ name_of self.old }
        ensures bound { ReadsAtMost result buf.new }
        ensures bytes { ReadConsumes (Some (left_of self.old)) (Some (left_of self.new))
            result buf.new }

        ensures never { IsOk result }
        ensures most { IfOk result (λ k. k ≡ min (length buf.old) (length (left_of self.old))) }
    {
        Ok(self.text.give(buf.len(), buf))
    }
}
