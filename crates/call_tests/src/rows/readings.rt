//! A capture that changes after it was fetched: each command reads it once, and its answer is that for the bytes that
//! it read.

ghost use Rattle.std.specs.Prelude.{◌≡◌, IfSome};
ghost use Rattle.timing_outside.specs.MemorySources.{faults_of, name_of};

use super::plain::{EXPLAINED, FRAMES, LISTED, MEASURED, PACKETS, SHAPED, WATCHED, WINDOW};
use crate::call::{Outcome, Row, Step, UntoldSource, WHOLE, Watch, answered, shelve};
use std::process::Abort;
use std::sync::Wait;
use std::test::Fail;
use std::thread::Threads;
use timing_outside::{MemoryShelf, MemorySource, NoGate, OpenFault, Shelf};

// A source without a watch on its reads.
type Untold = UntoldSource<Unwatched>;

#[derive(Drop)]
struct Unwatched;

impl Watch for Unwatched {
    fn before(&mut self, _taken: usize, asked: usize) -> usize {
        asked
    }
}

// A shelf with contents that contracts don't know: from its second fetch on the capture has other contents.
#[derive(Drop)]
struct ChangingShelf {
    inner: MemoryShelf,
    later: MemoryShelf,
    fetched: u32,
}

impl ChangingShelf {
    // The later contents, if this is the capture and it was fetched before.
    fn later_of(&mut self, name: &str) -> Option<MemorySource>
        ensures stays { self.new.inner ≡ self.old.inner }
        ensures named { IfSome result (λ s. name_of s ≡ name.now) }
        ensures fresh { IfSome result (λ s. faults_of s ≡ 0) }
    {
        if name != "a.pcap" {
            return None;
        }
        self.fetched = self.fetched.saturating_add(1);
        if self.fetched == 1 {
            return None;
        }
        self.later.fetch(name).ok()
    }
}

impl Shelf for ChangingShelf {
    ghost use Rattle.std.specs.Prelude.{None};
    ghost use Rattle.timing_outside.specs.MemoryShelves.{count_of};

    type Source = Untold;

    ghost text = { λ s n. None };

    ghost lacks = { λ s n. ⊥ };

    ghost faults = { λ s n. count_of s.inner n };

    fn fetch(&mut self, name: &str) -> Result<Untold, OpenFault> {
        let first = self.inner.fetch(name)?;
        let later = self.later_of(name);
        Ok(UntoldSource {
            inner: later.unwrap_or(first),
            taken: 0,
            watch: Unwatched,
        })
    }

    fn give_back(&mut self, source: Untold) {
        let UntoldSource { inner, .. } = source;
        self.inner.give_back(inner);
    }
}

// A row with a capture that has other contents after it was fetched.
#[derive(Clone, Copy)]
struct Changing {
    row: Row,
    later: &'static [Step],
    // The expected number of its fetches.
    fetched: u32,
}

impl Changing {
    // Runs the row, and compares how it ends and the number of fetches.
    fn ended<R: Abort + AllocGlobal + Wait + Threads + Sync>(
        &self,
        rt: &R,
    ) -> Result<Outcome, Fail> {
        let alloc = rt.alloc();
        let (row, line) = (&self.row, self.row.line);
        let mut shelf = ChangingShelf {
            inner: row.shelf(alloc)?,
            later: MemoryShelf::new(alloc),
            fetched: 0,
        };
        shelve(alloc, &mut shelf.later, "a.pcap", self.later, WHOLE)?;
        let found = answered(rt, line, row.sinks, &mut shelf, &NoGate)?;
        found.ended(line, (row.status, row.err))?;
        assert_eq!(rt; shelf.fetched, self.fetched, "{line}");
        Ok(found)
    }

    // Compares the output, too.
    fn holds<R: Abort + AllocGlobal + Wait + Threads + Sync>(&self, rt: &R) -> Result<(), Fail> {
        let found = self.ended(rt)?;
        let wanted = self.row.wanted(rt.alloc())?;
        found.is(self.row.line, (self.row.status, &wanted, self.row.err))
    }
}

// Each command reads the capture once: a second fetch would find nothing, as with a pipe.
const MEASURED_ONCE: Changing = Changing {
    row: MEASURED,
    later: &[],
    fetched: 1,
};

const PACKETS_ONCE: Changing = Changing {
    row: PACKETS,
    ..MEASURED_ONCE
};

const FRAMES_ONCE: Changing = Changing {
    row: FRAMES,
    ..MEASURED_ONCE
};

const WINDOW_ONCE: Changing = Changing {
    row: WINDOW,
    ..MEASURED_ONCE
};

const LISTED_ONCE: Changing = Changing {
    row: LISTED,
    ..MEASURED_ONCE
};

const SHAPED_ONCE: Changing = Changing {
    row: SHAPED,
    ..MEASURED_ONCE
};

const EXPLAINED_ONCE: Changing = Changing {
    row: EXPLAINED,
    ..MEASURED_ONCE
};

const WATCHED_ONCE: Changing = Changing {
    row: WATCHED,
    ..MEASURED_ONCE
};

static ONCE: [Changing; 8] = [
    MEASURED_ONCE,
    PACKETS_ONCE,
    FRAMES_ONCE,
    WINDOW_ONCE,
    LISTED_ONCE,
    SHAPED_ONCE,
    EXPLAINED_ONCE,
    WATCHED_ONCE,
];

#[test]
fn read_once(rt: HostRuntime) -> Result<(), Fail> {
    for row in &ONCE {
        row.holds(&rt)?;
    }
    Ok(())
}
