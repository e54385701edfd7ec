//! Histogram of whole numbers up to a limit.

ghost use Rattle.std.specs.Prelude.{◌≡◌, ◌<◌, ◌≤◌, ◌+◌, ◌/◌, ◌^◌, ℕ, ℤ, length, sum};
ghost use Rattle.flow_measure.specs.Bins.{bin_width};

/// The greatest number of bins.
const MOST: usize = 64;

/// The bin of a number, or the side on which it lies outside all bins.
#[derive(Clone, Copy)]
enum Place {
    /// Below 0.
    Below,
    /// The index of the bin, from 0.
    Bin(usize),
    /// Above the limit.
    Above,
}

/// The histogram of the numbers so far: a count for each bin up to a limit, and the counts of the numbers outside all
/// bins.
#[derive(Clone, Copy)]
pub struct Bins {
    /// The greatest number that belongs to a bin.
    pub limit: u64,
    /// The numbers per bin: bin b takes the numbers from b * `width` to (b + 1) * `width` - 1, if they aren't above
    /// `limit`.
    pub width: u64,
    counts: [u64; MOST],
    /// The count of numbers above the limit.
    pub above: u64,
    /// The count of numbers below 0.
    pub below: u64,
    /// The count of numbers fed.
    pub seen: u64,
    ghost width_is: { width ≡ bin_width limit },
    ghost few: { seen ≤ 2 ^ 41 },
    ghost all_counted: { sum counts + above + below ≡ seen },
    ghost whole: { length counts ≡ 64 },
}

impl Bins {
    ghost use Rattle.flow_measure.specs.Bins.{AreBins, above_limit, below_zero, is_above};
    ghost use Rattle.flow_measure.specs.Places.{IsWithin, place_of};
    ghost use Rattle.flow_measure.specs.Stands.{Counts};
    ghost use Rattle.flow_measure.specs.Told.{bin_counts};

    /// Returns empty bins for a limit. There are at most 64 bins, as narrow as that allows.
    pub fn new(limit: u64) -> Bins
        ensures limit { result.limit ≡ limit }
        ensures width { result.width ≡ bin_width limit }
        ensures seen { result.seen ≡ 0 }
        ensures stands { (numbers : ℕ → ℤ) → Counts result numbers }
    {
        Bins {
            limit,
            width: limit / MOST as u64 + 1,
            counts: [0; MOST],
            above: 0,
            below: 0,
            seen: 0,
        }
    }

    /// Counts the next `times` numbers, which all equal `number`.
    #[inline(always)]
    pub fn feed(&mut self, number: i128, times: u64)
        requires few { self.old.seen + times ≤ 2 ^ 41 }
        ensures limit { self.new.limit ≡ self.old.limit }
        ensures seen { self.new.seen ≡ self.old.seen + times }

        // Whatever numbers the bins were fed before, `times` copies of `number` now follow them.
        ensures stands { (numbers : ℕ → ℤ) → Counts self.old numbers
            → ((j : ℕ) → j < times → numbers (self.old.seen + j) ≡ number) → Counts self.new numbers }
    {
        let place = self.place_of(number);
        self.seen += times;
        match place {
            Place::Below => self.below += times,
            Place::Bin(bin) => self.counts[bin] += times,
            Place::Above => self.above += times,
        }
    }

    /// Returns whether a number is above the limit.
    #[inline(always)]
    pub fn is_above(&self, number: i128) -> bool
        ensures { result ≡ is_above self.now.limit number }
    {
        number > i128::from(self.limit)
    }

    /// Returns the bin of a number, or the side on which it lies outside.
    #[inline(always)]
    fn place_of(&self, number: i128) -> Place
        ensures value { result ≡ place_of self.now.limit number }
        ensures within { IsWithin result }
    {
        if number < 0 {
            Place::Below
        } else if number > i128::from(self.limit) {
            Place::Above
        } else {
            Place::Bin(self.bin_of(number as u64))
        }
    }

    /// Returns the index of the bin of a number that isn't above the limit.
    #[inline(always)]
    fn bin_of(&self, number: u64) -> usize
        requires { number ≤ self.now.limit }
        ensures value { result ≡ number / self.now.width }
        ensures within { result < 64 }
    {
        (number / self.width) as usize
    }

    /// Returns the count of each bin, in order, up to the bin of the limit.
    pub fn counts(&self) -> &[u64]
        ensures value { result.now ≡ bin_counts self.now }
        ensures bins { (numbers : ℕ → ℤ) → Counts self.now numbers
            → AreBins self.now.limit numbers self.now.seen result.now }
        ensures above { (numbers : ℕ → ℤ) → Counts self.now numbers
            → self.now.above ≡ above_limit self.now.limit numbers self.now.seen }
        ensures below { (numbers : ℕ → ℤ) → Counts self.now numbers
            → self.now.below ≡ below_zero numbers self.now.seen }

        // Each number is counted exactly once.
        ensures all { (numbers : ℕ → ℤ) → Counts self.now numbers
            → sum result.now + self.now.above + self.now.below ≡ self.now.seen }
    {
        &self.counts[..self.bin_of(self.limit) + 1]
    }
}
