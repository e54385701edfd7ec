//! The reads that are due, counted on along capture timestamps that never go back.

ghost use Rattle.std.specs.Prelude.{◌≡◌, ◌≤◌, ◌<◌, ◌+◌, ◌-◌, ◌*◌, ◌/◌, ◌%◌, ◌^◌, ◌↔◌, ℕ, IsTrue, false};
ghost use Rattle.read_schedule.specs.Parts.{ArePast, parts_at};

use crate::between::Between;
use crate::grid::{BEFORE, Grid};
use sender_params::Params;

/// An instant later than every capture timestamp: that of a read that is never due, and of the last due read if none is
/// due.
const NEVER: u64 = 1 << 63;

/// Number of reads that a schedule counts one by one. If more are due, it divides.
const FEW: u64 = 64;

/// A duration, in nanoseconds and parts of one.
#[derive(Clone, Copy, Debug, PartialEq, Eq)]
struct Span {
    whole: u64,
    part: u64,
}

/// An instant, rounded up to whole nanoseconds, and the number of parts by which it was rounded up.
#[derive(Clone, Copy, Debug, PartialEq, Eq)]
struct Rounded {
    at: u64,
    slack: u64,
}

/// The reads that are due at an instant.
#[derive(Clone, Copy, Debug, PartialEq, Eq)]
pub struct Due {
    /// Number of reads that are due. A read exactly at the instant counts.
    pub count: u64,
    /// Whether the last of them is exactly at the instant.
    pub on_time: bool,
}

/// The first read that isn't due yet.
#[derive(Clone, Copy, Debug, PartialEq, Eq)]
pub struct NextRead {
    /// Number of the read, counted from 0, which is the number of reads that are due.
    pub number: u64,
    /// First whole nanosecond of TAI at which it is due. A value of 2^62 or more only means that it isn't due before
    /// 2^62.
    pub at: u64,
}

/// The due reads of one schedule, for capture timestamps that never go back.
#[derive(Clone, Copy, Debug, PartialEq, Eq)]
pub struct Schedule {
    grid: Grid,
    /// Time from one read of a frame or field to the next.
    step: Span,
    /// Time from the last read of a frame or field to the first of the next.
    turn: Span,
    /// About the time of `FEW` reads, in whole nanoseconds.
    long: u64,
    /// Number of reads that are due.
    passed: u64,
    /// Position of the next read in its frame or field, counted from 0.
    place: u64,
    /// Instant of the next read, which isn't due yet.
    next: Rounded,
    /// Instant of the last due read.
    last: Rounded,
    ghost step_some: { 1 ≤ step.whole },
    ghost step_small: { step.whole < 2 ^ 51 },
    ghost step_is: { step.whole * grid.den + step.part ≡ grid.step },
    ghost step_left: { step.part < grid.den },
    ghost turn_some: { 1 ≤ turn.whole },
    ghost turn_small: { turn.whole ≤ 2 ^ 40 },
    ghost turn_is: { turn.whole * grid.den + turn.part + (grid.n - 1) * grid.step ≡ grid.group },
    ghost turn_left: { turn.part < grid.den },
    ghost within: { place < grid.n },
    ghost place_is: { passed % grid.n ≡ place },
    ghost few: { passed ≤ next.at },
    ghost passed_few: { passed ≤ 2 ^ 63 },
    ghost next_left: { next.slack < grid.den },
    ghost next_low: { next.at * grid.den ≤ parts_at grid passed + next.slack },
    ghost next_is: { next.at < 2 ^ 63 → next.at * grid.den ≡ parts_at grid passed + next.slack },
    ghost last_left: { last.slack < grid.den },
    ghost none_last: { passed ≡ 0 → last.at ≡ 2 ^ 63 },
    ghost last_is: { 1 ≤ passed
        → last.at * grid.den ≡ parts_at grid (passed - 1) + last.slack },
}

impl Schedule {
    ghost use Rattle.std.specs.Prelude.{ℤ, pos, negsuc, ◌≤ℤ◌, Bool};
    ghost use Rattle.timing_base.specs.Media.{Media};
    ghost use Rattle.read_schedule.specs.Between.{IsFrom, IsUpTo};
    ghost use Rattle.read_schedule.specs.Stands.{CatchesUp, IsDueAt, IsNextAfter, LeadsTo, MovesTo, StandsBy, Tells, left_of};

    /// Returns the gapped or the linear schedule of a sender. Read 0 is of frame or field `n0`, counted from the epoch.
    /// No read is due yet.
    pub fn new(params: &Params, gapped: bool, n0: i128) -> Schedule
        requires low { negsuc 479 ≤ℤ n0 }
        requires high { n0 ≤ℤ pos (2 ^ 42) }
        ensures { (at : ℕ) → StandsBy params.now.media params.now.n n0 gapped result at }
    {
        Schedule::start(Grid::of(params, gapped, n0))
    }

    /// Returns the reads that are due at `at`, in nanoseconds of TAI. Divides only if the schedule is many reads
    /// behind.
    ///
    /// The caller must pass capture timestamps that never go back: for others the result is not guaranteed.
    #[inline(always)]
    pub fn advance(&mut self, at: u64) -> Due
        requires { at < 2 ^ 62 }
        ensures few { result.count ≤ 2 ^ 63 }
        ensures due { Tells IsDueAt self.old at result }
        ensures stands { MovesTo self.old self.new at }
    {
        let t = at + BEFORE;
        self.catch_up(t);
        Due {
            count: self.passed,
            on_time: self.is_at(t),
        }
    }

    /// Returns the first read that isn't due at `at`, in nanoseconds of TAI. Divides only if the schedule is many reads
    /// behind.
    ///
    /// The caller must pass capture timestamps that never go back: for others the result is not guaranteed.
    #[inline(always)]
    pub fn next_after(&mut self, at: u64) -> NextRead
        requires { at < 2 ^ 62 }
        ensures next { Tells IsNextAfter self.old at result }
        ensures stands { MovesTo self.old self.new at }
    {
        self.catch_up(at + BEFORE);
        NextRead {
            number: self.passed,
            at: self.next.at.saturating_sub(BEFORE),
        }
    }

    /// Returns the instants from read `early` on and before read `late`, for packets after one that came at `last`.
    ///
    /// They last until one of the two reads reaches the end of its frame or field. Each packet costs one nanosecond of
    /// them, so they last for at most three quarters as many packets as there are nanoseconds between the next packet,
    /// if it comes T_RS after the last, and read `late`. The other quarter is left for packets that come later.
    pub fn between(&self, early: u64, late: u64, last: u64) -> Between
        ensures lasts { result.lasts ≤ left_of self.now early }
        ensures from { (m : Media) (n : ℕ) (anchor : ℤ) (gapped : Bool) (at left : ℕ)
            → StandsBy m n anchor gapped self.now at → left ≤ left_of self.now early
            → IsFrom m n anchor gapped early left result }
        ensures up_to { (m : Media) (n : ℕ) (anchor : ℤ) (gapped : Bool) (at left : ℕ)
            → StandsBy m n anchor gapped self.now at → left ≤ result.lasts
            → IsUpTo m n anchor gapped late left result }
    {
        let from = self.first_due(early);
        let to = self.first_due(late);
        let step = self.step.whole + 1;
        let slack = to.saturating_sub(last.saturating_add(step));
        let lasts = self
            .reads_left(early)
            .min(self.reads_left(late))
            .min(slack - slack.div_ceil(4));
        Between::of(
            from,
            to.saturating_sub(from).saturating_sub(lasts),
            step,
            lasts,
        )
    }

    /// Returns the instants from read `early` on, until that read reaches the end of its frame or field.
    pub fn after(&self, early: u64) -> Between
        ensures lasts { result.lasts ≤ left_of self.now early }
        ensures from { (m : Media) (n : ℕ) (anchor : ℤ) (gapped : Bool) (at left : ℕ)
            → StandsBy m n anchor gapped self.now at → left ≤ left_of self.now early
            → IsFrom m n anchor gapped early left result }
    {
        let step = self.step.whole + 1;
        Between::of(self.first_due(early), NEVER, step, self.reads_left(early))
    }

    /// Returns the number of reads of the frame or field from this one on.
    fn reads_left(&self, read: u64) -> u64
        ensures { result ≡ left_of self.now read }
    {
        self.grid.n - read % self.grid.n
    }

    /// Returns the first whole nanosecond of TAI at which a read is due, or 0 if it is due before 0. A result of 2^62
    /// or more only means that the read isn't due before 2^62.
    fn first_due(&self, read: u64) -> u64
        ensures due { (at : ℕ) → at < 2 ^ 62 → result ≤ at
            → parts_at self.now.grid read ≤ (result + 2 ^ 49) * self.now.grid.den }
        ensures ahead { 1 ≤ result
            → (result + 2 ^ 49) * self.now.grid.den < parts_at self.now.grid read + self.now.grid.den }
        ensures small { result < 2 ^ 63 }
    {
        rounded_up(self.grid.instant(read), self.grid.den)
            .at
            .saturating_sub(BEFORE)
    }

    /// Returns the schedule with no read due.
    fn start(grid: Grid) -> Schedule
        ensures grid { result.grid ≡ grid }
        ensures passed { result.passed ≡ 0 }
    {
        let turn = grid.turn();
        let step = u128::from(grid.step);
        Schedule {
            grid,
            step: spread(step, grid.den),
            turn: spread(turn, grid.den),
            long: grid.step / grid.den * FEW,
            passed: 0,
            place: 0,
            next: rounded_up(grid.start, grid.den),
            last: Rounded {
                at: NEVER,
                slack: 0,
            },
        }
    }

    /// Returns the time from the next read to the one after it, in the same frame or field.
    #[inline(always)]
    fn step_ahead(&self) -> Span
        requires few { self.now.passed < 2 ^ 63 }
        requires within { self.now.place + 1 < self.now.grid.n }
        ensures { LeadsTo self.now (self.now.place + 1) result }
    {
        self.step
    }

    /// Returns the time from the next read, which is the last of its frame or field, to the one after it.
    #[inline(always)]
    fn turn_ahead(&self) -> Span
        requires few { self.now.passed < 2 ^ 63 }
        requires last { self.now.place + 1 ≡ self.now.grid.n }
        ensures { LeadsTo self.now 0 result }
    {
        self.turn
    }

    /// Counts the next read as due. `t` is its instant or later.
    #[inline(always)]
    fn pass(&mut self, t: u64)
        requires due { self.old.next.at ≤ t }
        requires in_time { t < 2 ^ 63 }
        ensures grid { self.new.grid ≡ self.old.grid }
        ensures passed { self.new.passed ≡ self.old.passed + 1 }
        ensures later { self.old.next.at < self.new.next.at }
    {
        if self.place + 1 == self.grid.n {
            return self.pass_last(t);
        }
        let span = self.step_ahead();
        self.last = self.next;
        self.next = later(self.next, span, self.grid.den);
        self.place += 1;
        self.passed += 1;
    }

    /// Counts the next read, the last of its frame or field, as due.
    #[cold]
    #[inline(never)]
    fn pass_last(&mut self, t: u64)
        requires due { self.old.next.at ≤ t }
        requires in_time { t < 2 ^ 63 }
        requires last { self.old.place + 1 ≡ self.old.grid.n }
        ensures grid { self.new.grid ≡ self.old.grid }
        ensures passed { self.new.passed ≡ self.old.passed + 1 }
        ensures later { self.old.next.at < self.new.next.at }
    {
        let span = self.turn_ahead();
        self.last = self.next;
        self.next = later(self.next, span, self.grid.den);
        self.place = 0;
        self.passed += 1;
    }

    /// Counts all reads up to `t` as due, by a division.
    #[cold]
    #[inline(never)]
    fn seek(&mut self, t: u64)
        requires in_time { t < 2 ^ 63 }
        ensures grid { self.new.grid ≡ self.old.grid }
        ensures due { ArePast self.old.grid self.new.passed t }
    {
        let passed = self.grid.count(t);
        self.passed = passed;
        self.place = passed % self.grid.n;
        self.next = rounded_up(self.grid.instant(passed), self.grid.den);
        self.last = if passed == 0 {
            Rounded {
                at: NEVER,
                slack: 0,
            }
        } else {
            rounded_up(self.grid.instant(passed - 1), self.grid.den)
        };
    }

    /// Counts all reads up to `t` as due if they are many; else does nothing.
    fn hurry(&mut self, t: u64)
        requires in_time { t < 2 ^ 63 }
        ensures grid { self.new.grid ≡ self.old.grid }
        ensures due { (x : ℕ) → x < self.new.passed
            → (x < self.old.passed → parts_at self.old.grid x ≤ t * self.old.grid.den)
            → parts_at self.old.grid x ≤ t * self.old.grid.den }
    {
        if t.saturating_sub(self.next.at) > self.long {
            self.seek(t);
        }
    }

    /// Counts all reads up to `t` as due, many or few.
    #[inline(never)]
    fn race(&mut self, t: u64)
        requires in_time { t < 2 ^ 63 }
        ensures { CatchesUp self.old self.new t }
    {
        self.hurry(t);
        while t >= self.next.at {
            self.pass(t);
        }
    }

    /// Counts all reads up to `t` as due, which mostly are none or one.
    #[inline(always)]
    fn catch_up(&mut self, t: u64)
        requires in_time { t < 2 ^ 63 }
        ensures { CatchesUp self.old self.new t }
    {
        if t < self.next.at {
            return;
        }
        self.pass(t);
        if t < self.next.at {
            return;
        }
        self.race(t);
    }

    /// Returns whether the last due read is exactly at `t`.
    fn is_at(&self, t: u64) -> bool
        requires in_time { t < 2 ^ 63 }
        ensures none { self.now.passed ≡ 0 → result ≡ false }
        ensures some { 1 ≤ self.now.passed → IsTrue result
            ↔ (t * self.now.grid.den ≡ parts_at self.now.grid (self.now.passed - 1)) }
    {
        self.last == Rounded { at: t, slack: 0 }
    }
}

/// Returns a number of parts as a duration. A nanosecond has `den` parts.
fn spread(parts: u128, den: u64) -> Span
    requires some { 1 ≤ den }
    requires den_small { den < 2 ^ 48 }
    requires slow { den ≤ parts }
    requires small { parts < 2 ^ 63 * den }
    ensures is { result.whole * den + result.part ≡ parts }
    ensures left { result.part < den }
    ensures some { 1 ≤ result.whole }
    ensures most { result.whole * den ≤ parts }
{
    let den = u128::from(den);
    Span {
        whole: (parts / den) as u64,
        part: (parts % den) as u64,
    }
}

/// Returns the instant so many parts after 0, rounded up to whole nanoseconds. If that is 2^63 or later, returns
/// `NEVER`.
fn rounded_up(parts: u128, den: u64) -> Rounded
    requires some { 1 ≤ den }
    requires den_small { den < 2 ^ 48 }
    requires small { parts < 2 ^ 127 }
    ensures low { result.at * den ≤ parts + result.slack }
    ensures is { result.at < 2 ^ 63 → result.at * den ≡ parts + result.slack }
    ensures left { result.slack < den }
    ensures most { result.at ≤ 2 ^ 63 }
{
    let den = u128::from(den);
    if parts > u128::from(NEVER) * den {
        return Rounded {
            at: NEVER,
            slack: 0,
        };
    }
    let at = (parts + den - 1) / den;
    Rounded {
        at: at as u64,
        slack: (at * den - parts) as u64,
    }
}

/// Returns the instant `span` later. The code has no branch that depends on the parts.
fn later(before: Rounded, span: Span, den: u64) -> Rounded
    requires slack { before.slack < den }
    requires part { span.part < den }
    requires den_small { den < 2 ^ 48 }
    requires in_time { before.at < 2 ^ 63 }
    requires small { span.whole < 2 ^ 52 }
    ensures is { result.at * den + before.slack
        ≡ before.at * den + (span.whole * den + span.part) + result.slack }
    ensures left { result.slack < den }
    ensures low { before.at + span.whole ≤ result.at }
    ensures high { result.at ≤ before.at + span.whole + 1 }
{
    let carry = before.slack < span.part;
    let more = if carry { den } else { 0 };
    Rounded {
        at: before.at + span.whole + u64::from(carry),
        slack: before.slack + more - span.part,
    }
}
