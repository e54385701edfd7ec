//! Times in sentences.

ghost use Rattle.std.specs.Prelude.{◌≡◌};
ghost use Rattle.findings_report.specs.Times.{micro_sign};

use std::fmt;

/// Returns the sign of a microsecond.
pub(crate) fn micro_sign() -> &'static str
    ensures { result.now ≡ micro_sign }
{
    "µs"
}

/// A number below 1,000 as three digits.
#[derive(Clone, Copy)]
struct Three {
    number: u64,
}

impl fmt::Display for Three {
    ghost use Rattle.std.specs.Prelude.{Some};
    ghost use Rattle.findings_report.specs.Times.{three};

    ghost output = { λ digits. Some (three digits.number) };

    fn fmt<W: fmt::Write>(&self, f: &mut fmt::Formatter<W>) -> fmt::Result {
        let number = self.number;
        write!(
            f,
            "{}{}{}",
            number / 100 % 10,
            number / 10 % 10,
            number % 10
        )
    }
}

/// A number below 1,000 as three digits, without zeros at the end.
#[derive(Clone, Copy)]
struct Trimmed {
    number: u64,
}

impl fmt::Display for Trimmed {
    ghost use Rattle.std.specs.Prelude.{Some};
    ghost use Rattle.findings_report.specs.Times.{trimmed};

    ghost output = { λ digits. Some (trimmed digits.number) };

    fn fmt<W: fmt::Write>(&self, f: &mut fmt::Formatter<W>) -> fmt::Result {
        let number = self.number;
        let three = Three { number };
        if number % 100 == 0 {
            write!(f, "{}", number / 100 % 10)
        } else if number % 10 == 0 {
            write!(f, "{}{}", number / 100 % 10, number / 10 % 10)
        } else {
            write!(f, "{three}")
        }
    }
}

/// Thousandths as decimals; empty if they are 0.
#[derive(Clone, Copy)]
struct Thousandths {
    number: u64,
}

impl fmt::Display for Thousandths {
    ghost use Rattle.std.specs.Prelude.{Some};
    ghost use Rattle.findings_report.specs.Times.{thousandths};

    ghost output = { λ decimals. Some (thousandths decimals.number) };

    fn fmt<W: fmt::Write>(&self, f: &mut fmt::Formatter<W>) -> fmt::Result {
        let last = Trimmed {
            number: self.number % 1000,
        };
        if self.number % 1000 == 0 {
            Ok(())
        } else {
            write!(f, ".{last}")
        }
    }
}

/// Millionths as decimals; empty if they are 0.
#[derive(Clone, Copy)]
struct Millionths {
    number: u64,
}

impl fmt::Display for Millionths {
    ghost use Rattle.std.specs.Prelude.{Some};
    ghost use Rattle.findings_report.specs.Times.{millionths};

    ghost output = { λ decimals. Some (millionths decimals.number) };

    fn fmt<W: fmt::Write>(&self, f: &mut fmt::Formatter<W>) -> fmt::Result {
        let fewer = Thousandths {
            number: self.number / 1000,
        };
        let first = Three {
            number: self.number / 1000 % 1000,
        };
        let last = Trimmed {
            number: self.number % 1000,
        };
        if self.number % 1000 == 0 {
            write!(f, "{fewer}")
        } else {
            write!(f, ".{first}{last}")
        }
    }
}

/// Billionths as decimals; empty if they are 0.
#[derive(Clone, Copy)]
struct Billionths {
    number: u64,
}

impl fmt::Display for Billionths {
    ghost use Rattle.std.specs.Prelude.{Some};
    ghost use Rattle.findings_report.specs.Times.{billionths};

    ghost output = { λ decimals. Some (billionths decimals.number) };

    fn fmt<W: fmt::Write>(&self, f: &mut fmt::Formatter<W>) -> fmt::Result {
        let fewer = Millionths {
            number: self.number / 1000,
        };
        let first = Three {
            number: self.number / 1_000_000 % 1000,
        };
        let second = Three {
            number: self.number / 1000 % 1000,
        };
        let last = Trimmed {
            number: self.number % 1000,
        };
        if self.number % 1000 == 0 {
            write!(f, "{fewer}")
        } else {
            write!(f, ".{first}{second}{last}")
        }
    }
}

/// A time: in microseconds below a millisecond, in milliseconds below a second, else in seconds.
#[derive(Clone, Copy)]
pub(crate) struct TimeText {
    /// Nanoseconds.
    pub(crate) ns: u64,
}

impl fmt::Display for TimeText {
    ghost use Rattle.std.specs.Prelude.{Some};
    ghost use Rattle.findings_report.specs.Times.{time_text};

    ghost output = { λ time. Some (time_text time.ns) };

    fn fmt<W: fmt::Write>(&self, f: &mut fmt::Formatter<W>) -> fmt::Result {
        let ns = self.ns;
        if ns < 1_000_000 {
            let (decimals, unit) = (Thousandths { number: ns }, micro_sign());
            write!(f, "{}{decimals} {unit}", ns / 1000)
        } else if ns < 1_000_000_000 {
            let decimals = Millionths { number: ns };
            write!(f, "{}{decimals} ms", ns / 1_000_000)
        } else {
            let decimals = Billionths { number: ns };
            write!(f, "{}{decimals} s", ns / 1_000_000_000)
        }
    }
}

/// A time that may be below 0.
#[derive(Clone, Copy)]
pub(crate) struct SignedTimeText {
    /// Nanoseconds.
    pub(crate) ns: i64,
}

impl fmt::Display for SignedTimeText {
    ghost use Rattle.std.specs.Prelude.{Some};
    ghost use Rattle.findings_report.specs.Times.{signed_time_text};

    ghost output = { λ time. Some (signed_time_text time.ns) };

    fn fmt<W: fmt::Write>(&self, f: &mut fmt::Formatter<W>) -> fmt::Result {
        let time = TimeText {
            ns: self.ns.unsigned_abs(),
        };
        if self.ns < 0 {
            write!(f, "-{time}")
        } else {
            write!(f, "{time}")
        }
    }
}

/// A capture timestamp in seconds of the epoch, with nine decimals.
#[derive(Clone, Copy)]
pub(crate) struct Epoch {
    /// Nanoseconds.
    pub(crate) ns: u64,
}

impl fmt::Display for Epoch {
    ghost use Rattle.std.specs.Prelude.{Some};
    ghost use Rattle.findings_report.specs.Times.{epoch_text};

    ghost output = { λ epoch. Some (epoch_text epoch.ns) };

    fn fmt<W: fmt::Write>(&self, f: &mut fmt::Formatter<W>) -> fmt::Result {
        let milli = Three {
            number: self.ns / 1_000_000 % 1000,
        };
        let micro = Three {
            number: self.ns / 1000 % 1000,
        };
        let nano = Three {
            number: self.ns % 1000,
        };
        write!(f, "{}.{milli}{micro}{nano}", self.ns / 1_000_000_000)
    }
}

/// Tenths of a number, with one decimal.
#[derive(Clone, Copy)]
pub(crate) struct Tenths {
    pub(crate) tenths: u64,
}

impl fmt::Display for Tenths {
    ghost use Rattle.std.specs.Prelude.{Some};
    ghost use Rattle.findings_report.specs.Times.{tenths_text};

    ghost output = { λ number. Some (tenths_text number.tenths) };

    fn fmt<W: fmt::Write>(&self, f: &mut fmt::Formatter<W>) -> fmt::Result {
        write!(f, "{}.{}", self.tenths / 10, self.tenths % 10)
    }
}
