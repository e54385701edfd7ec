//! The results of the sender types in words.

ghost use Rattle.std.specs.Prelude.{◌≡◌, ◌++◌, IfOk, string_bytes, unsigned_abs};
ghost use Rattle.std.specs.List.{flat_map};
ghost use Rattle.flow_page.specs.Words.{noun_end, type_words};

use crate::shown::TypeShown;
use crate::times::{Epoch, Micro, Minus, SpanText, file_time};
use flow_measure::Place;
use std::alloc::AllocError as OutOfMemory;
use std::fmt;
use timing_base::{FailProof, KindVerdict, Shift};
use timing_report::kind_name;

/// Pass or fail, as a sign and a word.
#[derive(Clone, Copy)]
pub(crate) struct Sign {
    pub(crate) verdict: KindVerdict,
}

impl fmt::Display for Sign {
    ghost use Rattle.std.specs.Prelude.{Some};
    ghost use Rattle.flow_page.specs.Words.{sign_text};

    ghost output = { λ sign. Some (sign_text sign.verdict) };

    fn fmt<W: fmt::Write>(&self, f: &mut fmt::Formatter<W>) -> fmt::Result {
        match self.verdict {
            KindVerdict::Pass => f.write_str("<span class=\"pass\">&#10003; pass</span>"),
            KindVerdict::Fail(_) => f.write_str("<span class=\"fail\">&#10007; fail</span>"),
        }
    }
}

/// A count with its noun.
#[derive(Clone, Copy)]
pub(crate) struct Counted {
    pub(crate) count: i128,
    /// The noun in the singular.
    pub(crate) noun: &'static str,
}

/// Returns the plural ending of a noun with this count.
fn noun_end(count: i128) -> &'static str
    ensures { result.now ≡ noun_end count }
{
    if count == 1 { "" } else { "s" }
}

impl fmt::Display for Counted {
    ghost use Rattle.std.specs.Prelude.{Some};
    ghost use Rattle.flow_page.specs.Words.{counted};

    ghost output = { λ c. Some (counted c.count c.noun.now) };

    #[tactic(auto, unfolding(crate::specs::Words::counted))]
    fn fmt<W: fmt::Write>(&self, f: &mut fmt::Formatter<W>) -> fmt::Result {
        let end = noun_end(self.count);
        write!(f, "{} {}{end}", self.count, self.noun)
    }
}

/// The text on how many packets exceed a limit and which is the first; empty if there is none.
#[derive(Clone, Copy)]
struct Above {
    what: &'static str,
    count: u64,
    first: Option<u64>,
}

impl fmt::Display for Above {
    ghost use Rattle.std.specs.Prelude.{Some};
    ghost use Rattle.flow_page.specs.Words.{above_text};

    ghost output = { λ above. Some (above_text above.what.now above.count above.first) };

    fn fmt<W: fmt::Write>(&self, f: &mut fmt::Formatter<W>) -> fmt::Result {
        match self.first {
            None => Ok(()),
            Some(first) => {
                let packets = Counted {
                    count: i128::from(self.count),
                    noun: "packet",
                };
                write!(
                    f,
                    "; after {packets} the {} is above its limit, first after packet {first}",
                    self.what
                )
            }
        }
    }
}

/// The text on the greatest lateness of a packet.
#[derive(Clone, Copy)]
struct Worst {
    late: Late,
}

impl fmt::Display for Worst {
    ghost use Rattle.std.specs.Prelude.{Some};
    ghost use Rattle.flow_page.specs.Words.{worst_text};

    ghost output = { λ worst. Some (worst_text worst.late.slack) };

    #[tactic(auto, unfolding(crate::specs::Words::worst_text))]
    fn fmt<W: fmt::Write>(&self, f: &mut fmt::Formatter<W>) -> fmt::Result {
        let span = SpanText {
            ns: lateness(self.late.slack),
        };
        write!(f, ", at worst {span} late")
    }
}

/// Returns the absolute value of a slack, in nanoseconds.
fn lateness(slack: i128) -> u128
    ensures { result ≡ unsigned_abs slack }
{
    slack.unsigned_abs()
}

/// The text on how many packets are late and which is the first; empty if there is none.
#[derive(Clone, Copy)]
struct Late {
    late: u64,
    slack: i128,
    first: Option<u64>,
}

impl fmt::Display for Late {
    ghost use Rattle.std.specs.Prelude.{Some};
    ghost use Rattle.flow_page.specs.Words.{late_text};

    ghost output = { λ l. Some (late_text l.late l.slack l.first) };

    fn fmt<W: fmt::Write>(&self, f: &mut fmt::Formatter<W>) -> fmt::Result {
        match self.first {
            None => Ok(()),
            Some(first) => {
                let packets = Counted {
                    count: i128::from(self.late),
                    noun: "packet",
                };
                let worst = Worst { late: *self };
                write!(
                    f,
                    "; {packets} too late for the reads, first packet {first}{worst}"
                )
            }
        }
    }
}

/// The text on the place in the capture of the last packet of a violation.
#[derive(Clone, Copy)]
struct Named {
    to: u64,
    shift: Shift,
    place: Option<Place>,
}

impl fmt::Display for Named {
    ghost use Rattle.std.specs.Prelude.{Some};
    ghost use Rattle.flow_page.specs.Words.{named_text};

    ghost output = { λ named. Some (named_text named.to named.shift named.place) };

    fn fmt<W: fmt::Write>(&self, f: &mut fmt::Formatter<W>) -> fmt::Result {
        match self.place {
            None => Ok(()),
            Some(place) => {
                let epoch = Epoch {
                    ns: file_time(self.shift, place.stamp),
                };
                write!(
                    f,
                    ". Packet {}, with which the verdict's fail ends, is record {}, capture timestamp {epoch}",
                    self.to, place.record
                )
            }
        }
    }
}

/// The text on the slack of a type that passes.
#[derive(Clone, Copy)]
struct Later {
    slack: i128,
}

impl fmt::Display for Later {
    ghost use Rattle.std.specs.Prelude.{Some};
    ghost use Rattle.flow_page.specs.Words.{later_text};

    ghost output = { λ l. Some (later_text l.slack) };

    #[tactic(auto, unfolding(crate::specs::Words::later_text))]
    fn fmt<W: fmt::Write>(&self, f: &mut fmt::Formatter<W>) -> fmt::Result {
        let minus = Minus { number: self.slack };
        let span = SpanText {
            ns: lateness(self.slack),
        };
        write!(f, "; each packet may come {minus}{span} later")
    }
}

/// The text on the slack of a type that passes, or on how it fails.
#[derive(Clone, Copy)]
struct Outcome {
    shown: TypeShown,
    /// "frame" or "field".
    group: &'static str,
    shift: Shift,
}

impl fmt::Display for Outcome {
    ghost use Rattle.std.specs.Prelude.{Some};
    ghost use Rattle.flow_page.specs.Words.{outcome_words};

    ghost output = { λ o. Some (outcome_words o.shown o.group.now o.shift o.shown.verdict) };

    fn fmt<W: fmt::Write>(&self, f: &mut fmt::Formatter<W>) -> fmt::Result {
        match self.shown.verdict {
            KindVerdict::Pass => {
                let later = Later {
                    slack: self.shown.slack,
                };
                write!(f, "{later}")
            }
            KindVerdict::Fail(proof) => {
                let breaks = Breaks {
                    shown: self.shown,
                    group: self.group,
                    shift: self.shift,
                    proof,
                };
                write!(f, "{breaks}")
            }
        }
    }
}

/// The text on how many frames or fields break a type.
#[derive(Clone, Copy)]
struct BrokenText {
    shown: TypeShown,
    group: &'static str,
}

impl fmt::Display for BrokenText {
    ghost use Rattle.std.specs.Prelude.{Some};
    ghost use Rattle.flow_page.specs.Words.{broken_text};

    ghost output = { λ b. Some (broken_text b.shown b.group.now) };

    #[tactic(auto, unfolding(crate::specs::Words::broken_text))]
    fn fmt<W: fmt::Write>(&self, f: &mut fmt::Formatter<W>) -> fmt::Result {
        let groups = Counted {
            count: i128::from(self.shown.groups),
            noun: self.group,
        };
        write!(f, "; broken by {} of {groups}", self.shown.groups_broken)
    }
}

/// The text on the packets that exceed the limits of bucket and buffer.
#[derive(Clone, Copy)]
struct OverText {
    shown: TypeShown,
}

impl fmt::Display for OverText {
    ghost use Rattle.std.specs.Prelude.{Some};
    ghost use Rattle.flow_page.specs.Words.{over_text};

    ghost output = { λ over. Some (over_text over.shown) };

    #[tactic(auto, unfolding(crate::specs::Words::over_text))]
    fn fmt<W: fmt::Write>(&self, f: &mut fmt::Formatter<W>) -> fmt::Result {
        let bucket = Above {
            what: "bucket",
            count: self.shown.above_bucket,
            first: self.shown.first_bucket,
        };
        let buffer = Above {
            what: "buffer",
            count: self.shown.above_buffer,
            first: self.shown.first_over,
        };
        write!(f, "{bucket}{buffer}")
    }
}

/// The text on the offsets with which the buffer would pass, beside that of the SDP, or that there is none.
#[derive(Clone, Copy)]
struct Offsets {
    /// Microseconds.
    least: Option<u32>,
    /// Microseconds.
    greatest: Option<u32>,
    /// The offset of the SDP in nanoseconds.
    offset: u64,
}

impl fmt::Display for Offsets {
    ghost use Rattle.std.specs.Prelude.{Some};
    ghost use Rattle.flow_page.specs.Words.{offsets_text};

    ghost output = { λ o. Some (offsets_text o.least o.greatest o.offset) };

    fn fmt<W: fmt::Write>(&self, f: &mut fmt::Formatter<W>) -> fmt::Result {
        let offset = Micro {
            ns: u128::from(self.offset),
        };
        match (self.least, self.greatest) {
            (Some(least), Some(greatest)) if least <= greatest => write!(
                f,
                ". With an offset of {least} to {greatest} &#181;s its buffer would pass; the description's is {offset} &#181;s"
            ),
            _ => f.write_str(". With no offset would its buffer pass"),
        }
    }
}

/// The text on the offsets of a type whose bucket passes and whose buffer doesn't; empty if its bucket doesn't.
#[derive(Clone, Copy)]
struct TroffWords {
    shown: TypeShown,
}

impl fmt::Display for TroffWords {
    ghost use Rattle.std.specs.Prelude.{Some};
    ghost use Rattle.flow_page.specs.Words.{troff_words};

    ghost output = { λ t. Some (troff_words t.shown) };

    #[tactic(auto, unfolding(crate::specs::Words::troff_words))]
    fn fmt<W: fmt::Write>(&self, f: &mut fmt::Formatter<W>) -> fmt::Result {
        let offsets = Offsets {
            least: self.shown.least,
            greatest: self.shown.greatest,
            offset: self.shown.offset,
        };
        if self.shown.above_bucket == 0 {
            write!(f, "{offsets}")
        } else {
            Ok(())
        }
    }
}

/// The text on how a type fails.
#[derive(Clone, Copy)]
struct Breaks {
    shown: TypeShown,
    group: &'static str,
    shift: Shift,
    proof: FailProof,
}

impl fmt::Display for Breaks {
    ghost use Rattle.std.specs.Prelude.{Some};
    ghost use Rattle.flow_page.specs.Words.{breaks_text};

    ghost output = { λ b. Some (breaks_text b.shown b.group.now b.shift b.proof) };

    fn fmt<W: fmt::Write>(&self, f: &mut fmt::Formatter<W>) -> fmt::Result {
        let t = self.shown;
        let broken = BrokenText {
            shown: t,
            group: self.group,
        };
        let over = OverText { shown: t };
        let late = Late {
            late: t.late,
            slack: t.slack,
            first: t.first_empty,
        };
        let named = Named {
            to: self.proof.to,
            shift: self.shift,
            place: t.named,
        };
        let troff = TroffWords { shown: t };
        write!(f, "{broken}{over}{late}{named}{troff}")
    }
}

/// The peaks and the limits of a type.
#[derive(Clone, Copy)]
struct Peaks {
    shown: TypeShown,
}

impl fmt::Display for Peaks {
    ghost use Rattle.std.specs.Prelude.{Some};
    ghost use Rattle.flow_page.specs.Words.{peaks_words};

    ghost output = { λ peaks. Some (peaks_words peaks.shown) };

    fn fmt<W: fmt::Write>(&self, f: &mut fmt::Formatter<W>) -> fmt::Result {
        let t = self.shown;
        write!(
            f,
            "</b>: bucket {} of {}, buffer {} of {}",
            t.bucket_peak, t.c_max, t.buffer_peak, t.vrx_full
        )
    }
}

/// Adds the result of a type in words.
fn add_type_words(
    text: &mut String,
    shown: &TypeShown,
    group: &'static str,
    shift: Shift,
) -> Result<(), OutOfMemory>
    ensures { IfOk result (λ _. string_bytes text.new
        ≡ string_bytes text.old ++ type_words shown.now group.now shift) }
{
    let shown = *shown;
    let sign = Sign {
        verdict: shown.verdict,
    };
    let name = kind_name(shown.kind);
    let peaks = Peaks { shown };
    let outcome = Outcome {
        shown,
        group,
        shift,
    };
    writeln!(text, "<li>{sign} <b>{name}{peaks}{outcome}.</li>")
}

/// Adds the results of types in words.
pub(crate) fn add_words(
    text: &mut String,
    types: &[TypeShown],
    group: &'static str,
    shift: Shift,
) -> Result<(), OutOfMemory>
    ensures { IfOk result (λ _. string_bytes text.new
        ≡ string_bytes text.old ++ flat_map (λ t. type_words t group.now shift) types.now) }
{
    for shown in types {
        add_type_words(text, shown, group, shift)?;
    }
    Ok(())
}
