//! A clock that counts the instants of a line, without a division in the usual case.

ghost use Rattle.std.specs.Prelude.{◌≡◌, ◌≤◌, ◌<◌, ◌+◌, ◌*◌, ◌^◌, ℕ};

/// A line of instants, each `num / den` after the one before, for example in nanoseconds. The step
/// is at least 1.
#[derive(Clone, Copy, Debug, PartialEq, Eq)]
pub struct Line {
    /// The numerator.
    pub num: u64,
    /// The denominator.
    pub den: u64,
    /// `num / den`, rounded down.
    pub whole: u64,
    /// The remainder of `num / den`, in parts of `1 / den`.
    pub part: u64,
    ghost some: { 1 ≤ den },
    ghost slow: { den ≤ num },
    ghost num_small: { num < 2 ^ 50 },
    ghost den_small: { den < 2 ^ 48 },
    ghost whole_some: { 1 ≤ whole },
    ghost whole_small: { whole < 2 ^ 50 },
    ghost part_small: { part < den },
    ghost split: { whole * den + part ≡ num },
}

impl Line {
    /// Returns the line with the step `num / den`.
    pub fn of(num: u64, den: u64) -> Line
        requires some { 1 ≤ den }
        requires slow { den ≤ num }
        requires num_small { num < 2 ^ 50 }
        requires den_small { den < 2 ^ 48 }
        ensures num { result.num ≡ num }
        ensures den { result.den ≡ den }
    {
        Line {
            num,
            den,
            whole: num / den,
            part: num % den,
        }
    }
}

/// The next instant of a line. Contracts name the line and its origin.
#[derive(Clone, Copy, Debug, PartialEq, Eq)]
pub struct Clock {
    /// The next instant, rounded up to a whole number.
    pub due: u64,
    /// The amount by which it was rounded up, in parts of `1 / den`.
    pub slack: u64,
    ghost due_small: { due < 2 ^ 63 },
    ghost slack_small: { slack < 2 ^ 48 },
}

impl Clock {
    ghost use Rattle.fraction128.specs.Clocks.{HasPassed, StandsAfter, StandsAt, passed_by};

    /// Returns the clock before the first instant of a line that begins at `origin`.
    pub fn start(line: &Line, origin: u64) -> Clock
        requires { origin < 2 ^ 62 }
        ensures { StandsAt line.now result origin origin }
    {
        let (more, slack) = round_up(line.num, line.den);
        Clock {
            due: origin + more,
            slack,
        }
    }

    /// Advances the clock to `t`, and returns the number of instants after the previous `t` and up
    /// to this one, inclusive. Not guaranteed if `line` isn't the line of the start, or if `t` is
    /// below the previous one.
    #[inline(always)]
    pub fn advance(&mut self, line: &Line, t: u64) -> u64
        requires { t < 2 ^ 62 }

        // If the clock was at a time up to `t`, the count is exact, and the clock is now at `t`.
        ensures passed { (origin before : ℕ) → before ≤ t → StandsAt line.now self.old origin before
            → HasPassed line.now self.new origin before t result }
        ensures small { result < 2 ^ 63 }
    {
        if t < self.due {
            return 0;
        }
        self.pass(line, t);
        if t < self.due {
            return 1;
        }
        self.pass(line, t);
        if t < self.due {
            return 2;
        }
        // A copy, so that the clock itself can stay in registers.
        let mut far = *self;
        let more = far.leap(line, t);
        *self = far;
        2 + more
    }

    /// Passes the next instant, which is at `t` or before.
    fn pass(&mut self, line: &Line, t: u64)
        requires due { self.old.due ≤ t }
        requires in_time { t < 2 ^ 62 }
        ensures { (origin count : ℕ) → StandsAfter line.now self.old origin count
            → StandsAfter line.now self.new origin (count + 1) }
    {
        let (more, slack) = lessen(self.slack, line.part, line.den);
        self.due += line.whole + more;
        self.slack = slack;
    }

    /// Passes all instants up to `t`, at least one, and returns their number.
    #[cold]
    #[inline(never)]
    fn leap(&mut self, line: &Line, t: u64) -> u64
        requires due { self.old.due ≤ t }
        requires in_time { t < 2 ^ 62 }
        ensures next { (origin count : ℕ) → StandsAfter line.now self.old origin count
            → StandsAfter line.now self.new origin (count + result) }
        ensures passed { (origin count : ℕ) → StandsAfter line.now self.old origin count
            → count + result ≤ passed_by line.now origin t }
        ensures ahead { t < self.new.due }
        ensures small { result < 2 ^ 62 + 2 ^ 48 }
    {
        let over = u128::from(t - self.due) * u128::from(line.den) + u128::from(self.slack);
        let (more, rest) = divide(over, line.num);
        let (ahead, slack) = round_up(line.num - rest, line.den);
        self.due = t + ahead;
        self.slack = slack;
        1 + more
    }
}

/// Subtracts `part` from `slack`, and adds `den` first if `slack` is smaller. Returns the number of
/// times that `den` was added, 0 or 1, and the difference. Written so that it needs no branch.
fn lessen(slack: u64, part: u64, den: u64) -> (u64, u64)
    requires part { part < den }
    requires slack { slack < 2 ^ 48 }
    requires den_small { den < 2 ^ 48 }
    ensures whole { slack + result.0 * den ≡ part + result.1 }
    ensures left { slack < den → result.1 < den }
    ensures small { result.1 < 2 ^ 48 }
    ensures once { result.0 ≤ 1 }
{
    let carry = slack < part;
    let more = if carry { den } else { 0 };
    (u64::from(carry), slack + more - part)
}

/// Returns `parts / den`, rounded up, and the amount that was added for it, in parts of `1 / den`.
fn round_up(parts: u64, den: u64) -> (u64, u64)
    requires some { 1 ≤ den }
    requires some_parts { 1 ≤ parts }
    requires small { parts < 2 ^ 50 }
    ensures whole { result.0 * den ≡ parts + result.1 }
    ensures slack { result.1 < den }
    ensures some { 1 ≤ result.0 }
    ensures small { result.0 ≤ parts }
{
    let whole = (parts - 1) / den + 1;
    (whole, whole * den - parts)
}

/// Returns `x / num` and `x % num`. If `x` fits 64 bits, there is no 128-bit division.
fn divide(x: u128, num: u64) -> (u64, u64)
    requires some { 1 ≤ num }
    requires fits { x < 2 ^ 64 * num }
    ensures whole { result.0 * num + result.1 ≡ x }
    ensures left { result.1 < num }
{
    if x < 1 << 64 {
        (x as u64 / num, x as u64 % num)
    } else {
        ((x / u128::from(num)) as u64, (x % u128::from(num)) as u64)
    }
}
