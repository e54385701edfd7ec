//! Times in words.

ghost use Rattle.std.specs.Prelude.{◌≡◌};
ghost use Rattle.flow_page.specs.Times.{file_time};

use crate::chart::{ns_name, scale_of_ns};
use std::fmt;
use timing_base::Shift;

/// The last three digits of a number.
#[derive(Clone, Copy)]
struct Three {
    number: u128,
}

impl fmt::Display for Three {
    ghost use Rattle.std.specs.Prelude.{Some};
    ghost use Rattle.flow_page.specs.Times.{three};

    ghost output = { λ digits. Some (three digits.number) };

    fn fmt<W: fmt::Write>(&self, f: &mut fmt::Formatter<W>) -> fmt::Result {
        let number = self.number;
        write!(
            f,
            "{}{}{}",
            number / 100 % 10,
            number / 10 % 10,
            number % 10
        )
    }
}

/// Three decimals; empty if all are 0.
#[derive(Clone, Copy)]
struct Decimals {
    number: u128,
}

impl fmt::Display for Decimals {
    ghost use Rattle.std.specs.Prelude.{Some};
    ghost use Rattle.flow_page.specs.Times.{decimals};

    ghost output = { λ d. Some (decimals d.number) };

    fn fmt<W: fmt::Write>(&self, f: &mut fmt::Formatter<W>) -> fmt::Result {
        let digits = Three {
            number: self.number % 1000,
        };
        if self.number % 1000 == 0 {
            Ok(())
        } else {
            write!(f, ".{digits}")
        }
    }
}

/// Three more decimals; empty if all are 0.
#[derive(Clone, Copy)]
struct MoreDecimals {
    number: u128,
}

impl fmt::Display for MoreDecimals {
    ghost use Rattle.std.specs.Prelude.{Some};
    ghost use Rattle.flow_page.specs.Times.{more_decimals};

    ghost output = { λ more. Some (more_decimals more.number) };

    fn fmt<W: fmt::Write>(&self, f: &mut fmt::Formatter<W>) -> fmt::Result {
        let digits = Three {
            number: self.number % 1000,
        };
        if self.number % 1000 == 0 {
            Ok(())
        } else {
            write!(f, "{digits}")
        }
    }
}

/// A time in microseconds, without its unit.
#[derive(Clone, Copy)]
pub(crate) struct Micro {
    /// Nanoseconds.
    pub(crate) ns: u128,
}

impl fmt::Display for Micro {
    ghost use Rattle.std.specs.Prelude.{Some};
    ghost use Rattle.flow_page.specs.Times.{micro_text};

    ghost output = { λ time. Some (micro_text time.ns) };

    fn fmt<W: fmt::Write>(&self, f: &mut fmt::Formatter<W>) -> fmt::Result {
        let decimals = Decimals { number: self.ns };
        write!(f, "{}{decimals}", self.ns / 1000)
    }
}

/// A time in milliseconds, without its unit.
#[derive(Clone, Copy)]
struct Milli {
    /// Nanoseconds.
    ns: u128,
}

impl fmt::Display for Milli {
    ghost use Rattle.std.specs.Prelude.{Some};
    ghost use Rattle.flow_page.specs.Times.{milli_text};

    ghost output = { λ time. Some (milli_text time.ns) };

    fn fmt<W: fmt::Write>(&self, f: &mut fmt::Formatter<W>) -> fmt::Result {
        let digits = Three {
            number: self.ns / 1000 % 1000,
        };
        let more = MoreDecimals { number: self.ns };
        if self.ns % 1_000_000 == 0 {
            write!(f, "{}", self.ns / 1_000_000)
        } else {
            write!(f, "{}.{digits}{more}", self.ns / 1_000_000)
        }
    }
}

/// A time in a unit of 1,000,000, 1,000 or 1 ns, without its unit.
#[derive(Clone, Copy)]
struct InUnit {
    scale: u32,
    /// Nanoseconds.
    ns: u128,
}

impl fmt::Display for InUnit {
    ghost use Rattle.std.specs.Prelude.{Some};
    ghost use Rattle.flow_page.specs.Times.{in_unit};

    ghost output = { λ time. Some (in_unit time.scale time.ns) };

    #[tactic(auto, unfolding(crate::specs::Times::in_unit))]
    fn fmt<W: fmt::Write>(&self, f: &mut fmt::Formatter<W>) -> fmt::Result {
        let milli = Milli { ns: self.ns };
        let micro = Micro { ns: self.ns };
        if self.scale == 1_000_000 {
            write!(f, "{milli}")
        } else if self.scale == 1000 {
            write!(f, "{micro}")
        } else {
            write!(f, "{}", self.ns)
        }
    }
}

/// A minus sign for a number below 0.
#[derive(Clone, Copy)]
pub(crate) struct Minus {
    pub(crate) number: i128,
}

impl fmt::Display for Minus {
    ghost use Rattle.std.specs.Prelude.{Some};
    ghost use Rattle.flow_page.specs.Times.{minus_of};

    ghost output = { λ minus. Some (minus_of minus.number) };

    fn fmt<W: fmt::Write>(&self, f: &mut fmt::Formatter<W>) -> fmt::Result {
        if self.number < 0 {
            f.write_str("-")
        } else {
            Ok(())
        }
    }
}

/// A time in the unit of an axis, without the unit.
#[derive(Clone, Copy)]
pub(crate) struct TimeNumber {
    /// The distance of two ticks of the axis, in nanoseconds.
    pub(crate) step: u64,
    /// Nanoseconds.
    pub(crate) ns: i128,
}

impl fmt::Display for TimeNumber {
    ghost use Rattle.std.specs.Prelude.{Some};
    ghost use Rattle.flow_page.specs.Times.{time_number};

    ghost output = { λ time. Some (time_number time.step time.ns) };

    #[tactic(auto, unfolding(crate::specs::Times::time_number))]
    fn fmt<W: fmt::Write>(&self, f: &mut fmt::Formatter<W>) -> fmt::Result {
        let minus = Minus { number: self.ns };
        let time = InUnit {
            scale: scale_of_ns(self.step),
            ns: self.ns.unsigned_abs(),
        };
        write!(f, "{minus}{time}")
    }
}

/// A time in the unit of an axis, with the unit in HTML.
#[derive(Clone, Copy)]
pub(crate) struct TimeText {
    pub(crate) number: TimeNumber,
}

impl fmt::Display for TimeText {
    ghost use Rattle.std.specs.Prelude.{Some};
    ghost use Rattle.flow_page.specs.Times.{time_text};

    ghost output = { λ time. Some (time_text time.number.step time.number.ns) };

    #[tactic(auto, unfolding(crate::specs::Times::time_text))]
    fn fmt<W: fmt::Write>(&self, f: &mut fmt::Formatter<W>) -> fmt::Result {
        let unit = ns_name(self.number.step);
        write!(f, "{} {unit}", self.number)
    }
}

/// A time in a sentence, with its unit in HTML: milliseconds, or microseconds if it is shorter than one millisecond.
#[derive(Clone, Copy)]
pub(crate) struct SpanText {
    /// Nanoseconds.
    pub(crate) ns: u128,
}

impl fmt::Display for SpanText {
    ghost use Rattle.std.specs.Prelude.{Some};
    ghost use Rattle.flow_page.specs.Times.{span_text};

    ghost output = { λ span. Some (span_text span.ns) };

    #[tactic(auto, unfolding(crate::specs::Times::span_text))]
    fn fmt<W: fmt::Write>(&self, f: &mut fmt::Formatter<W>) -> fmt::Result {
        let milli = Milli { ns: self.ns };
        let micro = Micro { ns: self.ns };
        if self.ns < 1_000_000 {
            write!(f, "{micro} &#181;s")
        } else {
            write!(f, "{milli} ms")
        }
    }
}

/// A capture timestamp in seconds of the epoch, with nine decimals.
#[derive(Clone, Copy)]
pub(crate) struct Epoch {
    /// Nanoseconds.
    pub(crate) ns: u128,
}

impl fmt::Display for Epoch {
    ghost use Rattle.std.specs.Prelude.{Some};
    ghost use Rattle.flow_page.specs.Times.{epoch_text};

    ghost output = { λ epoch. Some (epoch_text epoch.ns) };

    #[tactic(auto, unfolding(crate::specs::Times::epoch_text))]
    fn fmt<W: fmt::Write>(&self, f: &mut fmt::Formatter<W>) -> fmt::Result {
        let milli = Three {
            number: self.ns / 1_000_000 % 1000,
        };
        let micro = Three {
            number: self.ns / 1000 % 1000,
        };
        let nano = Three {
            number: self.ns % 1000,
        };
        write!(f, "{}.{milli}{micro}{nano}", self.ns / 1_000_000_000)
    }
}

/// Thousandths of a number, with three decimals.
#[derive(Clone, Copy)]
pub(crate) struct Thousandths {
    pub(crate) thousandths: u128,
}

impl fmt::Display for Thousandths {
    ghost use Rattle.std.specs.Prelude.{Some};
    ghost use Rattle.flow_page.specs.Times.{thousandths_text};

    ghost output = { λ number. Some (thousandths_text number.thousandths) };

    #[tactic(auto, unfolding(crate::specs::Times::thousandths_text))]
    fn fmt<W: fmt::Write>(&self, f: &mut fmt::Formatter<W>) -> fmt::Result {
        let digits = Three {
            number: self.thousandths % 1000,
        };
        write!(f, "{}.{digits}", self.thousandths / 1000)
    }
}

/// Returns a capture timestamp as the file has it, in nanoseconds, from the one after the shift.
pub(crate) fn file_time(shift: Shift, stamp: u64) -> u128
    ensures { result ≡ file_time shift stamp }
{
    let later = u128::from(stamp) + u128::from(shift.delay);
    later.saturating_sub(u128::from(shift.tai) * 1_000_000_000)
}
