//! The data of a flow that claims ask for, and what is kept of it.

ghost use Rattle.std.specs.Prelude.{◌≡◌, ◌<◌, ◌-◌, ◌==◌, ◌&&◌, ℕ, None, Some, IfOk, OnOk, IsSome};
ghost use Rattle.timing_base.specs.Captures.{IsStamp};

use crate::ending::Ending;
use std::alloc::{AllocError as OutOfMemory, Global};
use std::collections::HashMap;
use timing_base::FailProof;

/// Capture timestamp of a packet.
#[derive(Clone, Copy, Debug, PartialEq, Eq)]
pub struct Stamp {
    /// Nanoseconds, as the capture has them.
    pub at: u64,
    ghost stamp: { IsStamp at },
}

/// Data that claims ask for: the end of each run, and the capture timestamps of a few of its packets. Runs count from
/// 0, and packets from 0 after the first marker of their run.
#[derive(Drop)]
pub struct Asked {
    /// Capture timestamp of each packet asked for, by its run and its position in the run; 0 before it comes.
    stamps: HashMap<(u64, u64), Stamp>,
    /// End of each run asked for; `NoWholeFrame` until the run has ended.
    endings: HashMap<u64, Ending>,
}

impl Asked {
    ghost use Rattle.interval_checker.specs.Asking.{AsksNoLess, IsAsked, ending_of, if_asked, stamp_of};

    /// Returns a value that asks for nothing.
    pub fn new(alloc: Global) -> Asked {
        Asked {
            stamps: HashMap::new(alloc),
            endings: HashMap::new(alloc),
        }
    }

    /// Asks for the capture timestamp of a packet, which is then 0. Returns `Err` if memory runs out.
    fn ask_stamp(&mut self, run: u64, place: u64) -> Result<(), OutOfMemory>
        ensures there { OnOk result (IsSome (stamp_of self.new run place)) }
        ensures no_less { AsksNoLess self.old self.new }
        ensures endings { (r : ℕ) → ending_of self.new r ≡ ending_of self.old r }
    {
        self.stamps.insert((run, place), Stamp { at: 0 })?;
        Ok(())
    }

    /// Asks for the end of a run. Returns `Err` if memory runs out.
    fn ask_ending(&mut self, run: u64) -> Result<(), OutOfMemory>
        ensures there { OnOk result (IsSome (ending_of self.new run)) }
        ensures no_less { AsksNoLess self.old self.new }
    {
        self.endings.insert(run, Ending::NoWholeFrame { head: 0 })?;
        Ok(())
    }

    /// Asks for the data that a claimed violation by a run needs. Returns `Err` if memory runs out.
    pub fn ask(&mut self, run: u64, proof: &FailProof) -> Result<(), OutOfMemory>
        ensures asked { OnOk result (IsAsked self.new run proof.now) }
        ensures no_less { AsksNoLess self.old self.new }
    {
        self.ask_ending(run)?;
        let before = proof.count.saturating_sub(1);
        self.ask_stamp(run, 0)?;
        self.ask_stamp(run, proof.from)?;
        self.ask_stamp(run, proof.to)?;
        self.ask_stamp(run, before)?;
        self.ask_stamp(run, proof.count)
    }

    /// Notes the capture timestamp of a packet of a run, if it was asked for.
    #[inline]
    pub fn came(&mut self, run: u64, place: u64, at: u64)
        requires stamp { IsStamp at }
        ensures stamps { (r p : ℕ) → stamp_of self.new r p
            ≡ if_asked (run == r && place == p) at (stamp_of self.old r p) }
        ensures endings { (r : ℕ) → ending_of self.new r ≡ ending_of self.old r }
    {
        if self.stamps.contains_key(&(run, place)) {
            // Only a new key takes memory.
            let _ = self.stamps.insert((run, place), Stamp { at });
        }
    }

    /// Notes the end of a run, if it was asked for.
    pub fn over(&mut self, run: u64, ending: Ending)
        ensures endings { (r : ℕ) → ending_of self.new r ≡ if_asked (run == r) ending (ending_of self.old r) }
        ensures stamps { (r p : ℕ) → stamp_of self.new r p ≡ stamp_of self.old r p }
    {
        if self.endings.contains_key(&run) {
            let _ = self.endings.insert(run, ending);
        }
    }

    /// Returns the end of a run, if it was asked for; `NoWholeFrame` until the run has ended.
    pub fn ending(&self, run: u64) -> Option<Ending>
        ensures { result ≡ ending_of self.now run }
    {
        self.endings.get(&run).copied()
    }

    /// Returns the capture timestamp of a packet that was asked for and came; for others it isn't specified.
    pub fn stamp(&self, run: u64, place: u64) -> u64
        ensures stamp { IsStamp result }
        ensures here { (at : ℕ) → stamp_of self.now run place ≡ Some at → result ≡ at }
    {
        match self.stamps.get(&(run, place)) {
            Some(stamp) => stamp.at,
            None => 0,
        }
    }
}
