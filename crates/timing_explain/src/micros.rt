//! Whether capture timestamps are whole microseconds.

ghost use Rattle.std.specs.Prelude.{◌≡◌, ⊤, true};

use pcap_reader::Taker;
use std::alloc::AllocError as OutOfMemory;

/// The nanoseconds of a microsecond.
const MICROSECOND: u64 = 1000;

/// A taker that compares the capture timestamps of its packet records with whole microseconds.
#[derive(Clone, Copy)]
pub struct Microseconds {
    /// Whether the timestamp of each record so far is a whole number of microseconds.
    pub whole: bool,
}

impl Microseconds {
    /// Returns the taker before the first packet record.
    pub fn new() -> Microseconds
        ensures { result.whole ≡ true }
    {
        Microseconds { whole: true }
    }
}

impl Taker for Microseconds {
    ghost use Rattle.pcap_reader.specs.Taken.{StopsAnyhow};
    ghost use Rattle.timing_explain.specs.Micros.{Takes, takes_more, takes_none};

    /// Memory ran out; this never happens.
    type Stop = OutOfMemory;

    ghost takes = { Takes };

    ghost stops = { StopsAnyhow };

    ghost room = { λ _ _ _. ⊤ };

    ghost none = { takes_none };

    ghost more = { takes_more };

    ghost ends = { λ _ _ _ _ _ _ _ _. tt };

    ghost halts = { λ _ _ _ _ _ _. tt };

    ghost less = { λ _ _ _ _ _ _. tt };

    #[inline(always)]
    fn take(&mut self, _number: u64, at: u64, _frame: &[u8]) -> Result<(), OutOfMemory> {
        self.whole = self.whole && at % MICROSECOND == 0;
        Ok(())
    }
}
