//! Columns of consecutive numbers. The width of a column doubles while numbers arrive.

ghost use Rattle.std.specs.Prelude.{◌≡◌, ◌<◌, ◌≤◌, ◌+◌, ◌*◌, ◌-◌, ◌/◌, ◌^◌, ℕ, ℤ, IfOk, length, vec_len};
ghost use Rattle.flow_measure.specs.Columns.{width_of};
ghost use Rattle.flow_measure.specs.Extremes.{extremes_of, joined, only};

use super::{Column, Extremes, Integer, Slope, listed};
use std::alloc::{AllocError, Global};
use timing_base::Items;

/// The curve of the numbers so far: columns of one width, of which only the last may hold fewer numbers. If no column
/// is left for the next number, neighbours are joined in pairs and the width doubles, so the count of numbers need not
/// be known in advance.
#[derive(Drop)]
pub struct Curve<N> {
    /// The greatest number of columns.
    pub most: u32,
    /// The count of numbers fed.
    pub seen: u64,
    /// The numbers that each column takes.
    width: u64,
    /// The numbers for which the last column still has room.
    room: u64,
    /// The count of columns that have a number.
    begun: usize,
    /// The columns; those without a number are 0.
    columns: Vec<Column<N>>,
    ghost few: { seen ≤ 2 ^ 41 },
    ghost most_some: { 1 ≤ most },
    ghost width_is: { width ≡ width_of seen most },
    ghost width_some: { 1 ≤ width },
    ghost width_few: { width ≤ 2 ^ 42 },
    ghost filled: { seen + room ≡ begun * width },
    ghost room_few: { room < width },
    ghost begun_most: { begun ≤ most },
    ghost columns_most: { vec_len columns ≡ most },
}

impl<N: Integer> Curve<N> {
    ghost use Rattle.flow_measure.specs.Columns.{AreCurve, column_at};
    ghost use Rattle.flow_measure.specs.Slope.{IsSlope};
    ghost use Rattle.flow_measure.specs.Stands.{DrawsCurve, curve_columns};

    /// Returns an empty curve of at most `most` columns. Returns `Err` if memory runs out.
    pub fn new(alloc: Global, most: u32) -> Result<Curve<N>, AllocError>
        requires { 1 ≤ most }
        ensures most { IfOk result (λ c. c.most ≡ most) }
        ensures seen { IfOk result (λ c. c.seen ≡ 0) }
        ensures draws { IfOk result (λ c. (numbers : ℕ → ℤ) → DrawsCurve N.value c numbers) }
    {
        Ok(Curve {
            most,
            seen: 0,
            width: 1,
            room: 0,
            begun: 0,
            columns: vec![in alloc; Column::of(N::ZERO); most as usize]?,
        })
    }

    /// Returns how many numbers each column takes at present.
    pub fn width(&self) -> u64
        ensures { result ≡ width_of self.now.seen self.now.most }
    {
        self.width
    }

    /// Takes the next number. It allocates no memory.
    #[inline(always)]
    pub fn feed(&mut self, number: N)
        requires few { self.old.seen < 2 ^ 41 }
        ensures most { self.new.most ≡ self.old.most }
        ensures seen { self.new.seen ≡ self.old.seen + 1 }

        // Whatever numbers the curve was fed before, this number now follows them.
        ensures draws { (numbers : ℕ → ℤ) → DrawsCurve N.value self.old numbers
            → numbers self.old.seen ≡ N.value number → DrawsCurve N.value self.new numbers }
    {
        if self.room > 0 {
            self.widen(number);
        } else {
            self.open(number);
        }
    }

    /// Adds the next number to the last column.
    #[inline(always)]
    fn widen(&mut self, number: N)
        requires few { self.old.seen < 2 ^ 41 }
        requires room { 0 < self.old.room }
        ensures most { self.new.most ≡ self.old.most }
        ensures seen { self.new.seen ≡ self.old.seen + 1 }
        ensures draws { (numbers : ℕ → ℤ) → DrawsCurve N.value self.old numbers
            → numbers self.old.seen ≡ N.value number → DrawsCurve N.value self.new numbers }
    {
        let last = self.begun - 1;
        self.columns[last] = self.columns[last].joined(Column::of(number));
        self.room -= 1;
        self.seen += 1;
    }

    /// Takes the next number if all columns that have begun are full.
    #[cold]
    #[inline(never)]
    fn open(&mut self, number: N)
        requires few { self.old.seen < 2 ^ 41 }
        requires full { self.old.room ≡ 0 }
        ensures most { self.new.most ≡ self.old.most }
        ensures seen { self.new.seen ≡ self.old.seen + 1 }
        ensures draws { (numbers : ℕ → ℤ) → DrawsCurve N.value self.old numbers
            → numbers self.old.seen ≡ N.value number → DrawsCurve N.value self.new numbers }
    {
        if self.begun < self.columns.len() {
            self.begin(number);
        } else {
            self.double(number);
        }
    }

    /// Begins a column with the next number.
    fn begin(&mut self, number: N)
        requires few { self.old.seen < 2 ^ 41 }
        requires full { self.old.room ≡ 0 }
        requires more { self.old.begun < self.old.most }
        ensures most { self.new.most ≡ self.old.most }
        ensures seen { self.new.seen ≡ self.old.seen + 1 }
        ensures draws { (numbers : ℕ → ℤ) → DrawsCurve N.value self.old numbers
            → numbers self.old.seen ≡ N.value number → DrawsCurve N.value self.new numbers }
    {
        self.columns[self.begun] = Column::of(number);
        self.begun += 1;
        self.room = self.width - 1;
        self.seen += 1;
    }

    /// Doubles the width and takes the next number, if no column is left for it.
    fn double(&mut self, number: N)
        requires few { self.old.seen < 2 ^ 41 }
        requires full { self.old.room ≡ 0 }
        requires none { self.old.begun ≡ self.old.most }
        ensures most { self.new.most ≡ self.old.most }
        ensures seen { self.new.seen ≡ self.old.seen + 1 }
        ensures draws { (numbers : ℕ → ℤ) → DrawsCurve N.value self.old numbers
            → numbers self.old.seen ≡ N.value number → DrawsCurve N.value self.new numbers }
    {
        let pairs = self.columns.len() / 2;
        self.join();
        self.columns[pairs] = self.behind(number);
        self.begun = pairs + 1;
        self.seen += 1;
        self.width *= 2;
        self.room = self.begun as u64 * self.width - self.seen;
    }

    /// Joins neighbours in pairs. A last column without a neighbour stays as it is.
    fn join(&mut self)
        ensures most { self.new.most ≡ self.old.most }
        ensures seen { self.new.seen ≡ self.old.seen }
        ensures width { self.new.width ≡ self.old.width }
        ensures room { self.new.room ≡ self.old.room }
        ensures begun { self.new.begun ≡ self.old.begun }
        ensures joined { (k : ℕ) → 2 * k + 1 < self.old.most → column_at (curve_columns N.value self.new) k
            ≡ joined (column_at (curve_columns N.value self.old) (2 * k))
            (column_at (curve_columns N.value self.old) (2 * k + 1)) }
        ensures alone { (k : ℕ) → 2 * k + 1 ≡ self.old.most → column_at (curve_columns N.value self.new) (2 * k)
            ≡ column_at (curve_columns N.value self.old) (2 * k) }
    {
        for pair in 0..self.columns.len() / 2 {
            self.columns[pair] = self.columns[2 * pair].joined(self.columns[2 * pair + 1]);
        }
    }

    /// Returns the column that follows the pairs: the next number, with the last column if that one has no neighbour.
    fn behind(&self, number: N) -> Column<N>
        ensures odd { 2 * (self.now.most / 2) + 1 ≡ self.now.most → extremes_of N.value result
            ≡ joined (column_at (curve_columns N.value self.now) (2 * (self.now.most / 2))) (only (N.value number)) }
        ensures even { 2 * (self.now.most / 2) ≡ self.now.most → extremes_of N.value result ≡ only (N.value number) }
    {
        let last = Column::of(number);
        match self.columns.get(2 * (self.columns.len() / 2)) {
            Some(alone) => alone.joined(last),
            None => last,
        }
    }

    /// Copies the state of another curve, which was fed the same numbers and then possibly more. It allocates no
    /// memory, and copies only the columns that changed since.
    pub fn keep(&mut self, other: &Curve<N>)
        requires { self.old.most ≡ other.now.most }
        ensures most { self.new.most ≡ self.old.most }
        ensures seen { self.new.seen ≡ other.now.seen }
        ensures draws { (numbers : ℕ → ℤ) → DrawsCurve N.value self.old numbers
            → self.old.seen ≤ other.now.seen → DrawsCurve N.value other.now numbers
            → DrawsCurve N.value self.new numbers }
    {
        for column in self.unchanged_in(other)..other.begun {
            self.columns[column] = other.columns[column];
        }
        self.seen = other.seen;
        self.width = other.width;
        self.room = other.room;
        self.begun = other.begun;
    }

    /// Returns how many of the first columns are unchanged in another curve, which was fed the same numbers and then
    /// possibly more: all but the last if the widths are equal, else none.
    fn unchanged_in(&self, other: &Curve<N>) -> usize
        ensures same { self.now.width ≡ other.now.width → result ≡ self.now.begun - 1 }
        ensures doubled { ¬ (self.now.width ≡ other.now.width) → result ≡ 0 }
    {
        if self.width == other.width {
            self.begun.saturating_sub(1)
        } else {
            0
        }
    }

    /// Returns the slope of the numbers from the first column to the last full one. Returns `None` if the slope doesn't
    /// exceed the scatter within these columns, or if there are fewer numbers than columns.
    pub fn slope(&self) -> Option<Slope>
        requires { 2 ≤ self.now.most }
        ensures { (numbers : ℕ → ℤ) → DrawsCurve N.value self.now numbers
            → IsSlope self.now.most numbers self.now.seen result }
    {
        if self.seen < u64::from(self.most) {
            return None;
        }
        let last = self.full() - 1;
        Slope::between(
            self.columns[0].extremes(),
            self.columns[last].extremes(),
            last as u64 * self.width,
        )
    }

    /// Returns how many columns are full.
    fn full(&self) -> usize
        ensures value { result ≡ self.now.seen / self.now.width }
        ensures most { result ≤ self.now.begun }
    {
        if self.room == 0 {
            self.begun
        } else {
            self.begun - 1
        }
    }

    /// Returns the columns of the numbers fed, in order. Returns `Err` if memory runs out.
    pub fn finish(&self, alloc: Global) -> Result<Items<Extremes>, AllocError>
        ensures curve { IfOk result (λ list. (numbers : ℕ → ℤ) → DrawsCurve N.value self.now numbers
            → AreCurve self.now.most numbers self.now.seen list) }
        ensures most { IfOk result (λ list. length list ≤ self.now.most) }
    {
        let list = listed(alloc, &self.columns[..self.begun])?;
        Ok(Items::from_vec(list))
    }
}
