//! The summary of whole numbers.

ghost use Rattle.std.specs.Prelude.{◌≡◌, ◌<◌, ◌≤◌, ◌+◌, ◌*◌, ◌^◌, ℕ, ℤ, pos, neg_ℤ, ◌≤ℤ◌, ◌*ℤ◌, MatchOption};
ghost use Rattle.std.specs.Int.{int_max, int_min};

/// The summary of whole numbers, of which there is at least one. It has their unit.
#[derive(Clone, Copy)]
pub struct Summary {
    /// The least of them.
    pub least: i128,
    /// The greatest of them.
    pub greatest: i128,
    /// Their sum.
    pub sum: i128,
    /// The first one.
    pub first: i128,
    /// The last one.
    pub last: i128,
}

impl Summary {
    /// Returns the summary of one number.
    fn of(number: i128) -> Summary
        ensures least { result.least ≡ number }
        ensures greatest { result.greatest ≡ number }
        ensures sum { result.sum ≡ number }
        ensures first { result.first ≡ number }
        ensures last { result.last ≡ number }
    {
        Summary {
            least: number,
            greatest: number,
            sum: number,
            first: number,
            last: number,
        }
    }
}

/// A meter of the summary of the numbers so far.
#[derive(Clone, Copy)]
pub struct SummaryMeter {
    /// The count of numbers fed.
    pub seen: u64,
    /// Their summary; that of a single 0 before the first number.
    so_far: Summary,
    ghost few: { seen ≤ 2 ^ 41 },
    ghost sum_low: { neg_ℤ (pos (seen * 2 ^ 84)) ≤ℤ so_far.sum },
    ghost sum_high: { so_far.sum ≤ℤ pos (seen * 2 ^ 84) },
}

impl SummaryMeter {
    ghost use Rattle.flow_measure.specs.Stands.{Summarizes};
    ghost use Rattle.flow_measure.specs.Summary.{IsSummary};

    /// Returns the meter before the first number.
    pub fn new() -> SummaryMeter
        ensures seen { result.seen ≡ 0 }
        ensures stands { (numbers : ℕ → ℤ) → Summarizes result numbers }
    {
        SummaryMeter {
            seen: 0,
            so_far: Summary::of(0),
        }
    }

    /// Takes the next number.
    #[inline(always)]
    pub fn feed(&mut self, number: i128)
        requires low { neg_ℤ (pos (2 ^ 84)) ≤ℤ number }
        requires high { number ≤ℤ pos (2 ^ 84) }
        requires few { self.old.seen < 2 ^ 41 }
        ensures seen { self.new.seen ≡ self.old.seen + 1 }

        // Whatever numbers the meter was fed before, this number now follows them.
        ensures stands { (numbers : ℕ → ℤ) → Summarizes self.old numbers
            → numbers self.old.seen ≡ number → Summarizes self.new numbers }
    {
        if self.seen == 0 {
            self.seen = 1;
            self.so_far = Summary::of(number);
            return;
        }
        self.seen += 1;
        lessen(&mut self.so_far.least, number);
        raise(&mut self.so_far.greatest, number);
        self.so_far.sum += number;
        self.so_far.last = number;
    }

    /// Takes the next `times` numbers, which all equal `number`.
    pub(crate) fn feed_often(&mut self, number: i128, times: u64)
        requires low { neg_ℤ (pos (2 ^ 84)) ≤ℤ number }
        requires high { number ≤ℤ pos (2 ^ 84) }
        requires some { 1 ≤ times }
        requires few { self.old.seen + times ≤ 2 ^ 41 }
        ensures seen { self.new.seen ≡ self.old.seen + times }

        // Whatever numbers the meter was fed before, `times` copies of `number` now follow them.
        ensures stands { (numbers : ℕ → ℤ) → Summarizes self.old numbers
            → ((j : ℕ) → j < times → numbers (self.old.seen + j) ≡ number) → Summarizes self.new numbers }
    {
        self.feed(number);
        let more = times - 1;
        self.so_far.sum += product(number, more);
        self.seen += more;
    }

    /// Returns the summary of the numbers fed, or `None` if there is none.
    pub fn finish(&self) -> Option<Summary>
        ensures { (numbers : ℕ → ℤ) → Summarizes self.now numbers
            → MatchOption result (self.now.seen ≡ 0) (IsSummary numbers self.now.seen) }
    {
        (self.seen > 0).then_some(self.so_far)
    }
}

/// Returns `number` times `times`.
fn product(number: i128, times: u64) -> i128
    requires low { neg_ℤ (pos (2 ^ 84)) ≤ℤ number }
    requires high { number ≤ℤ pos (2 ^ 84) }
    requires few { times ≤ 2 ^ 41 }
    ensures value { result ≡ number *ℤ pos times }
    ensures low { neg_ℤ (pos (times * 2 ^ 84)) ≤ℤ result }
    ensures high { result ≤ℤ pos (times * 2 ^ 84) }
{
    number * i128::from(times)
}

/// Lowers `least` to `number` if that is less.
#[inline(always)]
pub fn lessen(least: &mut i128, number: i128)
    ensures { least.new ≡ int_min least.old number }
{
    if number < *least {
        *least = number;
    }
}

/// Raises `greatest` to `number` if that is greater.
#[inline(always)]
pub fn raise(greatest: &mut i128, number: i128)
    ensures { greatest.new ≡ int_max greatest.old number }
{
    if *greatest < number {
        *greatest = number;
    }
}
