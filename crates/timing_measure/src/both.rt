//! Two takers that are given the same packet records.

ghost use Rattle.std.specs.Prelude.{⊤};

use pcap_reader::Taker;
use std::alloc::AllocError as OutOfMemory;

/// A taker that keeps nothing of its packet records.
#[derive(Clone, Copy)]
pub struct Nothing;

/// Two takers that are given the same packet records, in one pass.
#[derive(Drop)]
pub struct Both<A: Drop, B: Drop> {
    /// The taker that is given each record first.
    pub first: A,
    /// The other taker.
    pub second: B,
}

impl<A: Taker<Stop = OutOfMemory> + Drop, B: Taker<Stop = OutOfMemory> + Drop> Taker
    for Both<A, B> {
    ghost use Rattle.pcap_reader.specs.Taken.{StopsAnyhow};

    /// Memory ran out.
    type Stop = OutOfMemory;

    ghost takes = { λ old new items. A.takes old.first new.first items × B.takes old.second new.second items };

    ghost stops = { StopsAnyhow };

    ghost room = { λ number count x. A.room number count x.first × B.room number count x.second };

    ghost none = { λ x. (A.none x.first, B.none x.second) };

    ghost more = { λ x y z a b to on. (
      A.more x.first y.first z.first a b to.0 on.0,
      B.more x.second y.second z.second a b to.1 on.1,
    ) };

    ghost ends = { λ _ _ _ _ _ _ _ _. tt };

    ghost halts = { λ _ _ _ _ _ _. tt };

    ghost less = { λ number few many x le room. (
      A.less number few many x.first le room.0,
      B.less number few many x.second le room.1,
    ) };

    #[inline(always)]
    fn take(&mut self, number: u64, at: u64, frame: &[u8]) -> Result<(), OutOfMemory> {
        self.first.take(number, at, frame)?;
        self.second.take(number, at, frame)
    }
}

impl Taker for Nothing {
    ghost use Rattle.pcap_reader.specs.Taken.{StopsAnyhow};

    /// Memory ran out; this never happens.
    type Stop = OutOfMemory;

    ghost takes = { λ _ _ _. ⊤ };

    ghost stops = { StopsAnyhow };

    ghost room = { λ _ _ _. ⊤ };

    ghost none = { λ _. tt };

    ghost more = { λ _ _ _ _ _ _ _. tt };

    ghost ends = { λ _ _ _ _ _ _ _ _. tt };

    ghost halts = { λ _ _ _ _ _ _. tt };

    ghost less = { λ _ _ _ _ _ _. tt };

    #[inline(always)]
    fn take(&mut self, _number: u64, _at: u64, _frame: &[u8]) -> Result<(), OutOfMemory> {
        Ok(())
    }
}
