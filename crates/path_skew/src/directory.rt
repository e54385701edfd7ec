//! The positions of the pages.

ghost use Rattle.std.specs.Prelude.{◌≡◌, ◌≢◌, ◌↔◌, ◌++◌, ◌∷◌, [], length, slice_get, Some, true, OnErr, OnOk, IfOk, IfSome, IfNone};
ghost use Rattle.path_skew.specs.Search.{Ends, Enters, GoesOn, IsEnd, IsFound, IsLinked, below, with_below};

use std::alloc::{AllocError as OutOfMemory, Global};

/// A page, and the entries below it. The first entry is below no other, so position 0 means that there is none.
#[derive(Clone, Copy, Debug)]
pub struct Entry {
    /// Page number.
    page: u32,
    /// Position at which a search goes on if its next digit is 0.
    zero: u32,
    /// Position at which a search goes on if its next digit is 1.
    one: u32,
}

impl Entry {
    /// Returns the position at which a search with these digits left goes on, or 0 if it ends.
    #[inline(always)]
    fn below(&self, digits: u32) -> u32
        ensures { result ≡ below self.now digits }
    {
        if digits % 2 == 0 { self.zero } else { self.one }
    }

    /// Returns the entry with `place` as the position at which a search with these digits left goes on.
    fn with_below(self, digits: u32, place: u32) -> Entry
        ensures { result ≡ with_below self digits place }
    {
        if digits % 2 == 0 {
            Entry {
                zero: place,
                ..self
            }
        } else {
            Entry { one: place, ..self }
        }
    }
}

/// Position at which a search ended, and the digits that it had left.
#[derive(Clone, Copy, Debug)]
struct End {
    place: usize,
    digits: u32,
}

/// Pages in the order in which they came, in a digital search tree. A search begins at the first entry and goes on
/// below it by the binary digits of the page number, from the lowest on. So it passes at most as many entries as a page
/// number has digits, whatever pages there are.
#[derive(Drop)]
pub struct Directory {
    /// Entries. Those below an entry come after it.
    entries: Vec<Entry>,
    ghost linked: { IsLinked entries.items },
    ghost found: { ∥ IsFound entries.items ∥₁ },
}

impl Directory {
    ghost use Rattle.path_skew.specs.Listed.{pages_of};

    /// Returns an empty directory.
    pub fn new(alloc: Global) -> Directory
        ensures { pages_of result ≡ [] }
    {
        Directory {
            entries: Vec::new(alloc),
        }
    }

    /// Returns whether page number `page` is at this position.
    #[inline(always)]
    pub fn is_at(&self, place: usize, page: u32) -> bool
        ensures { (result ≡ true) ↔ (slice_get (pages_of self.now) place ≡ Some page) }
    {
        match self.entries.get(place) {
            Some(entry) => entry.page == page,
            None => false,
        }
    }

    /// Returns the position at which the search for a page goes on from here, or `None` if it ends.
    #[inline(always)]
    fn next(&self, at: End, page: u32) -> Option<usize>
        ensures on { IfSome result (GoesOn self.now.entries.items page at.place at.digits) }
        ensures end { IfNone result (Ends self.now.entries.items page at.place at.digits) }
    {
        let entry = self.entries.get(at.place)?;
        let below = entry.below(at.digits);
        if entry.page == page || below == 0 {
            return None;
        }
        Some(below as usize)
    }

    /// Returns where the search for a page ends: at the page, or at the entry below which it belongs.
    fn find(&self, page: u32) -> End
        ensures { IsEnd self.now.entries.items page result.place result.digits }
    {
        let mut at = End {
            place: 0,
            digits: page,
        };
        while let Some(place) = self.next(at, page) {
            at = End {
                place,
                digits: at.digits / 2,
            };
        }
        at
    }

    /// Adds a page that isn't there, below the entry at which the search for it ended, and returns its position.
    ///
    /// Returns `Err` if memory runs out; nothing changes then.
    fn add(&mut self, end: End, page: u32) -> Result<usize, OutOfMemory>
        requires end { IsEnd self.old.entries.items page end.place end.digits }
        requires other { slice_get (pages_of self.old) end.place ≢ Some page }
        ensures at { IfOk result (λ place. place ≡ length (pages_of self.old)) }
        ensures pages { OnOk result (pages_of self.new ≡ pages_of self.old ++ page ∷ []) }
        ensures kept { OnErr result (pages_of self.new ≡ pages_of self.old) }
    {
        let place = self.entries.len();
        let Ok(link) = u32::try_from(place) else {
            return Err(OutOfMemory);
        };
        self.entries.push(Entry {
            page,
            zero: 0,
            one: 0,
        })?;
        if end.place < place {
            self.entries[end.place] = self.entries[end.place].with_below(end.digits, link);
        }
        Ok(place)
    }

    /// Returns the position of a page, which is appended if it isn't there.
    ///
    /// Returns `Err` if memory runs out; nothing changes then.
    pub fn enter(&mut self, page: u32) -> Result<usize, OutOfMemory>
        ensures enters { IfOk result (Enters (pages_of self.old) (pages_of self.new) page) }
        ensures kept { OnErr result (pages_of self.new ≡ pages_of self.old) }
    {
        let end = self.find(page);
        if self.is_at(end.place, page) {
            return Ok(end.place);
        }
        self.add(end, page)
    }
}
