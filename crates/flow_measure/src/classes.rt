//! Histogram of whole numbers, in classes that double.

ghost use Rattle.std.specs.Prelude.{◌≡◌, ◌<◌, ◌≤◌, ◌+◌, ◌^◌, ℕ, length as list_length, max, sum, true};
ghost use Rattle.flow_measure.specs.Classes.{is_in_class};

/// The greatest number of classes: class 63 ends with 2^63 - 1.
const MOST: usize = 64;

/// The histogram of the numbers so far. Class 0 takes zeros, and class c, from 1 on, takes the numbers from 2^(c - 1)
/// to 2^c - 1.
#[derive(Clone, Copy)]
pub struct Classes {
    counts: [u64; MOST],
    /// The number of classes up to the last one that has a number.
    length: usize,
    /// The count of numbers fed.
    pub seen: u64,
    ghost within: { length ≤ 64 },
    ghost few: { seen ≤ 2 ^ 41 },
    ghost all_counted: { sum counts ≡ seen },
    ghost whole: { list_length counts ≡ 64 },
}

impl Classes {
    ghost use Rattle.flow_measure.specs.Classes.{AreClasses};
    ghost use Rattle.flow_measure.specs.Stands.{Classifies};
    ghost use Rattle.flow_measure.specs.Told.{class_counts};

    /// Returns the classes before the first number.
    pub fn new() -> Classes
        ensures seen { result.seen ≡ 0 }
        ensures stands { (numbers : ℕ → ℕ) → Classifies result numbers }
    {
        Classes {
            counts: [0; MOST],
            length: 0,
            seen: 0,
        }
    }

    /// Counts the next number.
    #[inline(always)]
    pub fn feed(&mut self, number: u64)
        requires small { number < 2 ^ 63 }
        requires few { self.old.seen < 2 ^ 41 }
        ensures seen { self.new.seen ≡ self.old.seen + 1 }

        // Whatever numbers the classes were fed before, this number now follows them.
        ensures stands { (numbers : ℕ → ℕ) → Classifies self.old numbers
            → numbers self.old.seen ≡ number → Classifies self.new numbers }
    {
        let class = class_of(number);
        self.counts[class] += 1;
        reach(&mut self.length, class + 1);
        self.seen += 1;
    }

    /// Returns the count of each class, in order, up to the last class that has a number.
    pub fn counts(&self) -> &[u64]
        ensures value { result.now ≡ class_counts self.now }
        ensures classes { (numbers : ℕ → ℕ) → Classifies self.now numbers
            → AreClasses numbers self.now.seen result.now }

        // Each number is counted exactly once.
        ensures all { (numbers : ℕ → ℕ) → Classifies self.now numbers
            → sum result.now ≡ self.now.seen }
    {
        &self.counts[..self.length]
    }
}

/// Raises a length to at least `least`.
#[inline(always)]
fn reach(length: &mut usize, least: usize)
    ensures { length.new ≡ max length.old least }
{
    if *length < least {
        *length = least;
    }
}

/// Returns the class of a number.
fn class_of(number: u64) -> usize
    requires { number < 2 ^ 63 }
    ensures class { is_in_class result number ≡ true }
    ensures within { result < 64 }
{
    match number {
        0 => 0,
        _ => number.ilog2() as usize + 1,
    }
}
