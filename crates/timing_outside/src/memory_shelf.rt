//! Contents in memory that fail by plan.
ghost use Rattle.std.specs.Prelude.{◌≡◌, ◌≤◌, ◌<◌, ◌^◌, ◌&&◌, ◌↔◌, ℕ, List, Bool, true, cond, is_ok, Option, Some, None, IfOk, IsErrOf, string_bytes, nat_lt};
ghost use Rattle.std.specs.Str.{bytes_eq};
ghost use Rattle.timing_outside.specs.Causes.{Rose};
ghost use Rattle.timing_outside.specs.Counts.{has_failed};

use crate::memory_source::MemorySource;
use crate::plan::ReadPlan;
use crate::shelf::{OpenFault, Shelf};
use std::alloc::{AllocError as OutOfMemory, Global};
use std::collections::BTreeMap;

/// The contents of one name, its plan and its count of faults.
#[derive(Drop)]
pub(crate) struct Entry {
    bytes: Vec<u8>,
    plan: ReadPlan,
    faults: u64,
    ghost within: { faults < 2 ^ 64 },
}

/// Contents in memory by name, each with a plan of what fails.
///
/// Each name that is there has a count of faults of its own. All other names share one count.
#[derive(Drop)]
pub struct MemoryShelf {
    alloc: Global,
    entries: BTreeMap<String, Entry>,
    others: u64,
}

impl MemoryShelf {
    ghost use Rattle.timing_outside.specs.MemoryShelves.{bytes_of, plan_of, count_of, count_after, FetchFails, IsOpened};

    /// Returns an empty shelf without faults.
    pub fn new(alloc: Global) -> MemoryShelf
        ensures texts { (n : List ℕ) → bytes_of result n ≡ None }
        ensures plans { (n : List ℕ) → plan_of result n ≡ None }
        ensures counts { (n : List ℕ) → count_of result n ≡ 0 }
    {
        MemoryShelf {
            alloc,
            entries: BTreeMap::new(alloc),
            others: 0,
        }
    }

    /// Puts contents on the shelf under this name, in place of any that were there. Returns `Err`
    /// if memory runs out; then nothing has changed. No count changes: a new name starts with the
    /// count of the names that aren't there.
    #[tactic(auto, using(std::proofs::lemmas::Map::Text::text_keys))]
    pub fn put(&mut self, name: String, bytes: Vec<u8>, plan: ReadPlan) -> Result<(), OutOfMemory>
        ensures texts { (n : List ℕ) → bytes_of self.new n
            ≡ cond (is_ok result && bytes_eq (string_bytes name) n)
            (Some bytes.items) (bytes_of self.old n) }
        ensures plans { (n : List ℕ) → plan_of self.new n
            ≡ cond (is_ok result && bytes_eq (string_bytes name) n)
            (Some plan) (plan_of self.old n) }
        ensures counts { (n : List ℕ) → count_of self.new n ≡ count_of self.old n }
    {
        let faults = self.faults_of(name.as_str());
        self.entries.insert(
            name,
            Entry {
                bytes,
                plan,
                faults,
            },
        )?;
        Ok(())
    }

    /// Returns the number of faults of this name.
    fn faults_of(&self, name: &str) -> u64
        ensures { result ≡ count_of self.now name.now }
    {
        match self.entries.get(name) {
            Some(entry) => entry.faults,
            None => self.others,
        }
    }

    /// Counts a fault of this name.
    #[tactic(auto, using(std::proofs::lemmas::Map::Text::text_keys))]
    fn raise(&mut self, name: &str)
        ensures texts { (n : List ℕ) → bytes_of self.new n ≡ bytes_of self.old n }
        ensures plans { (n : List ℕ) → plan_of self.new n ≡ plan_of self.old n }
        ensures counts { (n : List ℕ) → count_of self.new n ≡ count_after true self.old name.now n }
    {
        match self.entries.get_mut(name) {
            Some(entry) => entry.faults = entry.faults.saturating_add(1),
            None => self.others = self.others.saturating_add(1),
        }
    }

    /// Returns a source of the contents of this name, if it can be fetched.
    fn open(&self, name: &str) -> Result<MemorySource, OpenFault>
        ensures opened { IfOk result (λ s. IsOpened s self.now name.now) }
        ensures exact { IsErrOf result OpenFault.Failed ↔ FetchFails self.now name.now }
    {
        match self.entries.get(name) {
            Some(entry) if !entry.plan.fetch_fails => {
                Ok(MemorySource::copy(self.alloc, name, &entry.bytes, &entry.plan)?)
            }
            _ => Err(OpenFault::Failed),
        }
    }
}

impl Shelf for MemoryShelf {
    ghost use Rattle.timing_outside.specs.MemorySources.{name_of, left_of, faults_of};
    ghost use Rattle.timing_outside.specs.MemoryShelves.{bytes_of, plan_of, count_of, count_after, FetchFails, IsOpened};

    type Source = MemorySource;

    ghost text = { λ s n. bytes_of s n };

    ghost lacks = { λ s n. plan_of s n ≡ None };

    ghost faults = { λ s n. count_of s n };

    /// Returns a source with a copy of the contents. Returns `Failed`, and counts that, exactly if
    /// the name isn't there or its plan has the fetch fail.
    fn fetch(&mut self, name: &str) -> Result<MemorySource, OpenFault>
        ensures named { IfOk result (λ s. name_of s ≡ name.now) }
        ensures whole { IfOk result (λ s. Some (left_of s) ≡ bytes_of self.old name.now) }
        ensures fresh { IfOk result (λ s. faults_of s ≡ 0) }
        ensures missing { plan_of self.old name.now ≡ None → IsErrOf result OpenFault.Failed }
        ensures lacks { (n : List ℕ) → plan_of self.old n ≡ None → plan_of self.new n ≡ None }
        ensures texts { (n : List ℕ) → bytes_of self.new n ≡ bytes_of self.old n }
        ensures later { (n : List ℕ) → count_of self.old n ≤ count_of self.new n }
        ensures failed { IsErrOf result OpenFault.Failed
            → Rose (count_of self.old name.now) (count_of self.new name.now) }

        ensures exact { IsErrOf result OpenFault.Failed ↔ FetchFails self.old name.now }
        ensures opened { IfOk result (λ s. IsOpened s self.old name.now) }
        ensures plans { (n : List ℕ) → plan_of self.new n ≡ plan_of self.old n }
        ensures counts { (n : List ℕ) → count_of self.new n
            ≡ count_after (has_failed result) self.old name.now n }
    {
        let opened = self.open(name);
        if let Err(OpenFault::Failed) = opened {
            self.raise(name);
        }
        opened
    }

    /// Counts a fault of the source's name if a read of the source has failed.
    fn give_back(&mut self, source: MemorySource)
        ensures raised { 0 < faults_of source
            → Rose (count_of self.old (name_of source)) (count_of self.new (name_of source)) }
        ensures lacks { (n : List ℕ) → plan_of self.old n ≡ None → plan_of self.new n ≡ None }
        ensures texts { (n : List ℕ) → bytes_of self.new n ≡ bytes_of self.old n }
        ensures later { (n : List ℕ) → count_of self.old n ≤ count_of self.new n }

        ensures plans { (n : List ℕ) → plan_of self.new n ≡ plan_of self.old n }
        ensures counts { (n : List ℕ) → count_of self.new n
            ≡ count_after (nat_lt 0 (faults_of source)) self.old (name_of source) n }
    {
        if source.has_failed() {
            self.raise(source.name());
        }
    }
}
