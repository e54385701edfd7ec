//! The packets of a capture that aren't read as RTP.

ghost use Rattle.std.specs.Prelude.{◌≡◌, ◌≤◌, ◌<◌, ◌+◌, ◌^◌, ◌++◌, ◌∷◌, [], ℕ, All, List, None, Some, IfOk, IfSome};
ghost use Rattle.std.specs.Prelude.{OnOk, true};
ghost use Rattle.indexmap.specs.IndexMap.{get, values};
ghost use Rattle.timing_base.specs.Targets.{is_same_target};

use crate::found::UnreadTarget;
use indexmap::IndexMap;
use std::alloc::{AllocError as OutOfMemory, Global};
use timing_base::Target;

/// The greatest number of targets that are listed.
const MOST: usize = 1024;

/// The targets of some unread packets, in the order of their first ones.
#[derive(Drop)]
pub struct Unread {
    counts: IndexMap<Target, u64>,
    /// The index of the target of the last packet, counted from 0.
    near: usize,
    /// The number of packets that were taken.
    pub taken: u64,
    /// The number of those that go to further targets.
    pub more: u64,
    ghost few: { All (λ n. n ≤ taken) (values counts) },
    ghost few_more: { more ≤ taken },
}

impl Unread {
    ghost use Rattle.capture_scan.specs.Places.{HasTarget};
    ghost use Rattle.capture_scan.specs.Scans.{unread_targets};
    ghost use Rattle.capture_scan.specs.Stands.{HaveMissed};
    ghost use Rattle.timing_base.specs.declared.target.Target.{Target as Missed};

    /// Returns no unread packet.
    pub fn new(alloc: Global) -> Unread
        ensures none { HaveMissed result [] }
        ensures taken { result.taken ≡ 0 }
    {
        Unread {
            counts: IndexMap::new(alloc),
            near: 0,
            taken: 0,
            more: 0,
        }
    }

    /// Returns whether this is the target of the last packet.
    #[inline(always)]
    fn is_near(&self, target: Target) -> bool
        ensures { result ≡ true → HasTarget self.now target self.now.near }
    {
        match self.counts.get_index(self.near) {
            Some((&other, _)) => other == target,
            None => false,
        }
    }

    /// Returns the index of a target.
    #[inline(always)]
    fn place_of(&self, target: Target) -> Option<usize>
        ensures some { IfSome result (HasTarget self.now target) }
        ensures none { result ≡ None → get is_same_target self.now.counts target ≡ None }
    {
        if self.is_near(target) {
            return Some(self.near);
        }
        self.counts.get_index_of(&target)
    }

    /// Begins a target with its first packet, if fewer than 1,024 are listed; else counts the packet in `more`. Returns
    /// `Err` if memory runs out.
    #[cold]
    #[inline(never)]
    fn begin(&mut self, target: Target) -> Result<(), OutOfMemory>
        requires absent { get is_same_target self.old.counts target ≡ None }
        requires few { self.old.more < self.old.taken }
        requires room { self.old.taken ≤ 2 ^ 41 }
        ensures taken { self.new.taken ≡ self.old.taken }
        ensures stands { OnOk result ((ts : List Missed) → HaveMissed self.old ts
            → HaveMissed self.new (ts ++ target ∷ [])) }
    {
        if self.counts.len() >= MOST {
            self.more += 1;
            return Ok(());
        }
        let place = self.counts.len();
        self.counts.insert(target, 1)?;
        self.near = place;
        Ok(())
    }

    /// Takes an unread packet to a target. Returns `Err` if memory runs out; which packets are counted is not
    /// guaranteed from then on.
    pub fn take(&mut self, target: Target) -> Result<(), OutOfMemory>
        requires few { self.old.taken < 2 ^ 41 }
        ensures taken { self.new.taken ≡ self.old.taken + 1 }
        ensures stands { OnOk result ((ts : List Missed) → HaveMissed self.old ts
            → HaveMissed self.new (ts ++ target ∷ [])) }
    {
        self.taken += 1;
        match self.place_of(target) {
            Some(place) => {
                self.near = place;
                let (_, count) = self.counts.pair_mut(place);
                *count += 1;
                Ok(())
            }
            None => self.begin(target),
        }
    }

    /// Returns the targets, in the order of their first unread packets. Returns `Err` if memory runs out.
    pub fn finish(&self, alloc: Global) -> Result<Vec<UnreadTarget>, OutOfMemory>
        ensures { IfOk result (λ list. (ts : List Missed) → HaveMissed self.now ts
            → list.items ≡ unread_targets ts) }
    {
        let mut targets = Vec::new(alloc);
        for (target, count) in self.counts.iter() {
            targets.push(UnreadTarget {
                target: *target,
                packets: *count,
            })?;
        }
        Ok(targets)
    }
}
