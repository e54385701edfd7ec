//! The lines of a flow as text.

ghost use Rattle.std.specs.Prelude.{◌≡◌, ◌++◌, IfOk, string_bytes};
ghost use Rattle.flow_watch.specs.Lines.{refused_text};

use crate::form::{Gap, LineForm, Waiting};
use crate::peaks::{BufferRange, Peaks};
use crate::stretch::{PerType, Stretch};
use std::alloc::{AllocError as OutOfMemory, Global};
use std::fmt;
use timing_base::{Media, Unjudged, Verdict};
use timing_report::{group_name, verdict_of};

/// The last three decimal digits of a number.
#[derive(Clone, Copy)]
struct Three {
    number: u64,
}

impl fmt::Display for Three {
    ghost use Rattle.std.specs.Prelude.{Some};
    ghost use Rattle.flow_watch.specs.Lines.{three};

    ghost output = { λ t. Some (three t.number) };

    fn fmt<W: fmt::Write>(&self, f: &mut fmt::Formatter<W>) -> fmt::Result {
        let number = self.number;
        write!(
            f,
            "{}{}{}",
            number / 100 % 10,
            number / 10 % 10,
            number % 10
        )
    }
}

/// A capture timestamp in seconds, with nine decimals.
#[derive(Clone, Copy)]
struct Seconds {
    /// Nanoseconds.
    stamp: u64,
}

impl fmt::Display for Seconds {
    ghost use Rattle.std.specs.Prelude.{Some};
    ghost use Rattle.flow_watch.specs.Lines.{seconds_text};

    ghost output = { λ t. Some (seconds_text t.stamp) };

    fn fmt<W: fmt::Write>(&self, f: &mut fmt::Formatter<W>) -> fmt::Result {
        let milli = Three {
            number: self.stamp / 1_000_000 % 1000,
        };
        let micro = Three {
            number: self.stamp / 1000 % 1000,
        };
        let nano = Three {
            number: self.stamp % 1000,
        };
        write!(f, "{}.{milli}{micro}{nano}", self.stamp / 1_000_000_000)
    }
}

/// The occupancy of the buffer and its late packets.
#[derive(Clone, Copy)]
struct RangeText {
    range: BufferRange,
}

impl fmt::Display for RangeText {
    ghost use Rattle.std.specs.Prelude.{Some};
    ghost use Rattle.flow_watch.specs.Lines.{range_text};

    ghost output = { λ t. Some (range_text t.range) };

    fn fmt<W: fmt::Write>(&self, f: &mut fmt::Formatter<W>) -> fmt::Result {
        let BufferRange {
            least,
            greatest,
            late,
        } = self.range;
        write!(f, "{least} to {greatest} late {late}")
    }
}

/// The peaks of a stretch, with C_MAX of each type.
#[derive(Clone, Copy)]
struct PeaksText {
    peaks: Peaks,
    c_max: PerType,
}

impl fmt::Display for PeaksText {
    ghost use Rattle.std.specs.Prelude.{Some};
    ghost use Rattle.flow_watch.specs.Lines.{peaks_text};

    ghost output = { λ t. Some (peaks_text t.peaks t.c_max) };

    fn fmt<W: fmt::Write>(&self, f: &mut fmt::Formatter<W>) -> fmt::Result {
        let PerType {
            narrow,
            narrow_linear,
            wide,
        } = self.c_max;
        let gapped = RangeText {
            range: self.peaks.gapped,
        };
        let linear = RangeText {
            range: self.peaks.linear,
        };
        write!(
            f,
            "bucket {} of {narrow} {narrow_linear} {wide} gapped {gapped} linear {linear}",
            self.peaks.bucket
        )
    }
}

/// The frames or fields that break each type.
#[derive(Clone, Copy)]
struct BrokenText {
    broken: PerType,
}

impl fmt::Display for BrokenText {
    ghost use Rattle.std.specs.Prelude.{Some};
    ghost use Rattle.flow_watch.specs.Lines.{broken_text};

    ghost output = { λ t. Some (broken_text t.broken) };

    fn fmt<W: fmt::Write>(&self, f: &mut fmt::Formatter<W>) -> fmt::Result {
        let PerType {
            narrow,
            narrow_linear,
            wide,
        } = self.broken;
        write!(
            f,
            "N broken {narrow} NL broken {narrow_linear} W broken {wide}"
        )
    }
}

/// The place of a stretch: its media, its run, its frames or fields, and the capture timestamp of its last packet.
#[derive(Clone, Copy)]
struct PlaceText {
    form: LineForm,
    stretch: Stretch,
}

impl fmt::Display for PlaceText {
    ghost use Rattle.std.specs.Prelude.{Some};
    ghost use Rattle.flow_watch.specs.Lines.{place_text};

    ghost output = { λ t. Some (place_text t.form t.stretch) };

    fn fmt<W: fmt::Write>(&self, f: &mut fmt::Formatter<W>) -> fmt::Result {
        let group = group_name(self.form.interlaced);
        let at = Seconds {
            stamp: self.stretch.stamp,
        };
        write!(
            f,
            "{} run {} {group}s {} to {} at {at}",
            self.form.number(),
            self.stretch.run,
            self.stretch.from,
            self.stretch.to
        )
    }
}

/// The line of a stretch, without its end.
#[derive(Clone, Copy)]
pub(crate) struct StretchText {
    pub(crate) form: LineForm,
    pub(crate) stretch: Stretch,
}

impl fmt::Display for StretchText {
    ghost use Rattle.std.specs.Prelude.{Some};
    ghost use Rattle.flow_watch.specs.Lines.{stretch_text};

    ghost output = { λ t. Some (stretch_text t.form t.stretch) };

    fn fmt<W: fmt::Write>(&self, f: &mut fmt::Formatter<W>) -> fmt::Result {
        let place = PlaceText {
            form: self.form,
            stretch: self.stretch,
        };
        let peaks = PeaksText {
            peaks: self.stretch.peaks,
            c_max: self.stretch.c_max,
        };
        let broken = BrokenText {
            broken: self.stretch.broken,
        };
        write!(f, "{place} {peaks} {broken}")
    }
}

/// The line of a gap, without its end.
#[derive(Clone, Copy)]
pub(crate) struct GapText {
    pub(crate) form: LineForm,
    pub(crate) gap: Gap,
}

impl fmt::Display for GapText {
    ghost use Rattle.std.specs.Prelude.{Some};
    ghost use Rattle.flow_watch.specs.Lines.{gap_text};

    ghost output = { λ t. Some (gap_text t.form t.gap) };

    fn fmt<W: fmt::Write>(&self, f: &mut fmt::Formatter<W>) -> fmt::Result {
        let Gap { rec, expected, got } = self.gap;
        write!(
            f,
            "{} gap at record {rec} expected {expected} got {got}",
            self.form.number()
        )
    }
}

/// The line of a run without a complete frame or field, without its end.
#[derive(Clone, Copy)]
pub(crate) struct WaitingText {
    pub(crate) form: LineForm,
    pub(crate) waiting: Waiting,
}

impl fmt::Display for WaitingText {
    ghost use Rattle.std.specs.Prelude.{Some};
    ghost use Rattle.flow_watch.specs.Lines.{waiting_text};

    ghost output = { λ t. Some (waiting_text t.form t.waiting) };

    fn fmt<W: fmt::Write>(&self, f: &mut fmt::Formatter<W>) -> fmt::Result {
        let Waiting { packets, rec } = self.waiting;
        write!(
            f,
            "{} waiting for a marker, {packets} packets since record {rec}",
            self.form.number()
        )
    }
}

/// Adds the line of a flow of this media that isn't judged, for this reason. `number` is the number of the media,
/// counted from 0.
pub(crate) fn add_refused(
    alloc: Global,
    text: &mut String,
    number: u32,
    media: &Media,
    reason: Unjudged,
) -> Result<(), OutOfMemory>
    ensures { IfOk result (λ _. string_bytes text.new
        ≡ string_bytes text.old ++ refused_text number media.now reason) }
{
    let verdict = verdict_of(alloc, media, &Verdict::Unjudged(reason))?;
    let number = u64::from(number) + 1;
    writeln!(text, "{number} {verdict}")
}
