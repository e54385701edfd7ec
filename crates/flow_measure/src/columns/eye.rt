//! Columns of groups of numbers that are overlaid.

ghost use Rattle.std.specs.Prelude.{◌≡◌, ◌<◌, ◌≤◌, ◌+◌, ◌*◌, ◌-◌, ◌%◌, ◌^◌, ℕ, ℤ, IfOk, length, min, vec_len};
ghost use Rattle.std.specs.Int.{div_ceil};
ghost use Rattle.flow_measure.specs.Columns.{strip_of};
ghost use Rattle.flow_measure.specs.Extremes.{extremes_of, joined, only};

use super::{Column, Extremes, Integer, listed};
use std::alloc::{AllocError, Global};
use timing_base::Items;

/// The eye of the numbers so far, which arrive in groups of one size: the columns of all groups overlaid, as in an eye
/// diagram.
#[derive(Drop)]
pub struct Eye<N> {
    /// The numbers per group.
    pub group: u64,
    /// The greatest number of columns.
    pub most: u32,
    /// The count of numbers fed.
    pub seen: u64,
    /// The numbers of a group that each column takes; the last column may take fewer.
    width: u64,
    /// The count of numbers before the current group.
    before: u64,
    /// The count of columns that have a number of the current group.
    opened: usize,
    /// The numbers of the current group for which the last of these columns still has room.
    room: u64,
    /// The count of columns that have a number.
    begun: usize,
    /// The columns; those without a number are 0.
    columns: Vec<Column<N>>,
    ghost few: { seen ≤ 2 ^ 41 },
    ghost group_some: { 1 ≤ group },
    ghost group_small: { group < 2 ^ 41 },
    ghost width_is: { width ≡ strip_of group most },
    ghost width_some: { 1 ≤ width },
    ghost whole: { before % group ≡ 0 },
    ghost filled: { seen + room ≡ before + min (opened * width) group },
    ghost room_few: { (opened - 1) * width + room ≤ min (opened * width) group },
    ghost opened_begun: { opened ≤ begun },
    ghost begun_most: { begun ≤ vec_len columns },
    ghost columns_are: { vec_len columns ≡ div_ceil group width },
    ghost columns_most: { vec_len columns ≤ most },
}

impl<N: Integer> Eye<N> {
    ghost use Rattle.flow_measure.specs.Columns.{AreEye, column_at};
    ghost use Rattle.flow_measure.specs.Stands.{DrawsEye, eye_columns};

    /// Returns an empty eye for groups of `group` numbers, with at most `most` columns. Returns `Err` if memory runs
    /// out.
    pub fn new(alloc: Global, group: u64, most: u32) -> Result<Eye<N>, AllocError>
        requires some { 1 ≤ group }
        requires small { group < 2 ^ 41 }
        requires some_columns { 1 ≤ most }
        ensures group { IfOk result (λ e. e.group ≡ group) }
        ensures most { IfOk result (λ e. e.most ≡ most) }
        ensures seen { IfOk result (λ e. e.seen ≡ 0) }
        ensures draws { IfOk result (λ e. (numbers : ℕ → ℤ) → DrawsEye N.value e numbers) }
    {
        let width = group.div_ceil(u64::from(most));
        let count = group.div_ceil(width) as usize;
        Ok(Eye {
            group,
            most,
            seen: 0,
            width,
            before: 0,
            opened: 0,
            room: 0,
            begun: 0,
            columns: vec![in alloc; Column::of(N::ZERO); count]?,
        })
    }

    /// Takes the next number. It allocates no memory.
    #[inline(always)]
    pub fn feed(&mut self, number: N)
        requires few { self.old.seen < 2 ^ 41 }
        ensures group { self.new.group ≡ self.old.group }
        ensures most { self.new.most ≡ self.old.most }
        ensures seen { self.new.seen ≡ self.old.seen + 1 }

        // Whatever numbers the eye was fed before, this number now follows them.
        ensures draws { (numbers : ℕ → ℤ) → DrawsEye N.value self.old numbers
            → numbers self.old.seen ≡ N.value number → DrawsEye N.value self.new numbers }
    {
        if self.room > 0 {
            self.widen(number);
        } else {
            self.open(number);
        }
    }

    /// Adds the next number to the current column.
    #[inline(always)]
    fn widen(&mut self, number: N)
        requires few { self.old.seen < 2 ^ 41 }
        requires room { 0 < self.old.room }
        ensures group { self.new.group ≡ self.old.group }
        ensures most { self.new.most ≡ self.old.most }
        ensures seen { self.new.seen ≡ self.old.seen + 1 }
        ensures draws { (numbers : ℕ → ℤ) → DrawsEye N.value self.old numbers
            → numbers self.old.seen ≡ N.value number → DrawsEye N.value self.new numbers }
    {
        let last = self.opened - 1;
        self.columns[last] = self.columns[last].joined(Column::of(number));
        self.room -= 1;
        self.seen += 1;
    }

    /// Takes the next number if the current column is full.
    #[inline(never)]
    fn open(&mut self, number: N)
        requires few { self.old.seen < 2 ^ 41 }
        requires full { self.old.room ≡ 0 }
        ensures group { self.new.group ≡ self.old.group }
        ensures most { self.new.most ≡ self.old.most }
        ensures seen { self.new.seen ≡ self.old.seen + 1 }
        ensures draws { (numbers : ℕ → ℤ) → DrawsEye N.value self.old numbers
            → numbers self.old.seen ≡ N.value number → DrawsEye N.value self.new numbers }
    {
        self.turn();
        self.begin(number);
    }

    /// Begins the next group if the current one is complete.
    fn turn(&mut self)
        requires full { self.old.room ≡ 0 }
        ensures group { self.new.group ≡ self.old.group }
        ensures most { self.new.most ≡ self.old.most }
        ensures seen { self.new.seen ≡ self.old.seen }
        ensures room { self.new.room ≡ 0 }
        ensures more { self.new.opened < vec_len self.new.columns }
        ensures draws { (numbers : ℕ → ℤ) → DrawsEye N.value self.old numbers → DrawsEye N.value self.new numbers }
    {
        if self.opened == self.columns.len() {
            self.before = self.seen;
            self.opened = 0;
        }
    }

    /// Adds the next number to the next column.
    fn begin(&mut self, number: N)
        requires few { self.old.seen < 2 ^ 41 }
        requires full { self.old.room ≡ 0 }
        requires more { self.old.opened < vec_len self.old.columns }
        ensures group { self.new.group ≡ self.old.group }
        ensures most { self.new.most ≡ self.old.most }
        ensures seen { self.new.seen ≡ self.old.seen + 1 }
        ensures draws { (numbers : ℕ → ℤ) → DrawsEye N.value self.old numbers
            → numbers self.old.seen ≡ N.value number → DrawsEye N.value self.new numbers }
    {
        self.columns[self.opened] = self.widened(number);
        self.room = self.width.min(self.group - self.opened as u64 * self.width) - 1;
        self.opened += 1;
        self.begun = self.begun.max(self.opened);
        self.seen += 1;
    }

    /// Returns the next column with the next number added.
    fn widened(&self, number: N) -> Column<N>
        requires { self.now.opened < vec_len self.now.columns }
        ensures fresh { self.now.begun ≤ self.now.opened → extremes_of N.value result ≡ only (N.value number) }
        ensures begun { self.now.opened < self.now.begun → extremes_of N.value result
            ≡ joined (column_at (eye_columns N.value self.now) self.now.opened) (only (N.value number)) }
    {
        let next = Column::of(number);
        if self.opened < self.begun {
            self.columns[self.opened].joined(next)
        } else {
            next
        }
    }

    /// Copies the state of another eye with groups of the same size and the same greatest number of columns. It
    /// allocates no memory.
    pub fn keep(&mut self, other: &Eye<N>)
        requires group { self.old.group ≡ other.now.group }
        requires most { self.old.most ≡ other.now.most }
        ensures group { self.new.group ≡ self.old.group }
        ensures most { self.new.most ≡ self.old.most }
        ensures seen { self.new.seen ≡ other.now.seen }
        ensures draws { (numbers : ℕ → ℤ) → DrawsEye N.value other.now numbers → DrawsEye N.value self.new numbers }
    {
        self.columns.copy_from_slice(&other.columns);
        self.seen = other.seen;
        self.before = other.before;
        self.opened = other.opened;
        self.room = other.room;
        self.begun = other.begun;
    }

    /// Returns the columns of the numbers fed, in order. Returns `Err` if memory runs out.
    pub fn finish(&self, alloc: Global) -> Result<Items<Extremes>, AllocError>
        ensures eye { IfOk result (λ list. (numbers : ℕ → ℤ) → DrawsEye N.value self.now numbers
            → AreEye self.now.group self.now.most numbers self.now.seen list) }
        ensures most { IfOk result (λ list. length list ≤ self.now.most) }
    {
        let list = listed(alloc, &self.columns[..self.begun])?;
        Ok(Items::from_vec(list))
    }
}
