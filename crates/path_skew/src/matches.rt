//! The packet numbers in both flows.

ghost use Rattle.std.specs.Prelude.{◌≡◌, ◌<◌, ◌+◌, ◌^◌, ◌-ℤ◌, pos, ◌++◌, ◌∷◌, List, None, Some};
ghost use Rattle.path_skew.specs.Pair.{earlier_of, falling, record_cmp, rising};
ghost use Rattle.std.specs.Ordering.{is_gt};
ghost use Rattle.path_skew.specs.declared.row.Extreme.{Extreme};

use crate::arrival::Arrival;
use crate::row::Extreme;

/// Skews of the matched packet numbers so far: how many there are, and the extreme ones.
#[derive(Clone, Copy, Debug)]
pub struct Matches {
    /// Number of matched packet numbers.
    pub matched: u64,
    /// Least skew, if a packet number is matched.
    pub least: Option<Extreme>,
    /// Greatest skew, if a packet number is matched.
    pub greatest: Option<Extreme>,
}

impl Matches {
    ghost use Rattle.path_skew.specs.Holds.{HoldsSkews};

    /// Returns the skews before any packet number is matched.
    pub fn new() -> Matches
        ensures none { result.matched ≡ 0 }
        ensures least { result.least ≡ None }
        ensures greatest { result.greatest ≡ None }
    {
        Matches {
            matched: 0,
            least: None,
            greatest: None,
        }
    }

    /// Adds one more packet number, by its first packets in both flows.
    #[inline(always)]
    pub fn put(&mut self, first: Arrival, second: Arrival)
        requires { self.old.matched < 2 ^ 62 }
        ensures count { self.new.matched ≡ self.old.matched + 1 }

        // For any position of the skew among the others.
        ensures holds { (before after : List Extreme) → HoldsSkews self.old (before ++ after)
            → HoldsSkews self.new (before ++ record {
              skew = pos second.at -ℤ pos first.at;
              first_rec = first.rec;
              second_rec = second.rec;
            } ∷ after) }
    {
        let extreme = extreme_of(first, second);
        self.matched += 1;
        keep_least(extreme, &mut self.least);
        keep_greatest(extreme, &mut self.greatest);
    }
}

/// Returns the skew of a packet number, by its first packets in both flows.
#[inline(always)]
fn extreme_of(first: Arrival, second: Arrival) -> Extreme
    ensures { result ≡ record {
      skew = pos second.at -ℤ pos first.at;
      first_rec = first.rec;
      second_rec = second.rec;
    } }
{
    Extreme {
        skew: second.at as i64 - first.at as i64,
        first_rec: first.rec,
        second_rec: second.rec,
    }
}

/// Returns whether an extreme comes after another of equal skew, by their packet records.
#[inline(always)]
fn is_later(extreme: &Extreme, other: &Extreme) -> bool
    ensures { result ≡ is_gt (record_cmp extreme.now other.now) }
{
    extreme.first_rec > other.first_rec
        || extreme.first_rec == other.first_rec && extreme.second_rec > other.second_rec
}

/// Returns whether an extreme comes after another in the order that begins with the least skew.
#[inline(always)]
fn is_above(extreme: &Extreme, other: &Extreme) -> bool
    ensures { result ≡ is_gt (rising extreme.now other.now) }
{
    extreme.skew > other.skew || extreme.skew == other.skew && is_later(extreme, other)
}

/// Returns whether an extreme comes after another in the order that begins with the greatest skew.
#[inline(always)]
fn is_below(extreme: &Extreme, other: &Extreme) -> bool
    ensures { result ≡ is_gt (falling extreme.now other.now) }
{
    extreme.skew < other.skew || extreme.skew == other.skew && is_later(extreme, other)
}

/// Keeps the least skew. Of equal skews, the one with the lowest packet records stays.
#[inline(always)]
fn keep_least(extreme: Extreme, least: &mut Option<Extreme>)
    ensures { least.new ≡ Some (earlier_of rising extreme least.old) }
{
    if let Some(before) = least
        && is_above(&extreme, before)
    {
        return;
    }
    *least = Some(extreme);
}

/// Keeps the greatest skew. Of equal skews, the one with the lowest packet records stays.
#[inline(always)]
fn keep_greatest(extreme: Extreme, greatest: &mut Option<Extreme>)
    ensures { greatest.new ≡ Some (earlier_of falling extreme greatest.old) }
{
    if let Some(before) = greatest
        && is_below(&extreme, before)
    {
        return;
    }
    *greatest = Some(extreme);
}
