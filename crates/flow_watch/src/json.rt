//! The lines of a flow as JSON objects.

ghost use Rattle.std.specs.Prelude.{◌≡◌, ◌++◌, IfOk, string_bytes};
ghost use Rattle.flow_watch.specs.Objects.{refused_object};

use crate::form::{Gap, LineForm, Waiting};
use crate::peaks::BufferRange;
use crate::stretch::{PerType, Stretch};
use std::alloc::{AllocError as OutOfMemory, Global};
use std::fmt;
use timing_base::Unjudged;
use timing_report::json_report::{Object, add_value, put_unjudged};

/// The numbers of N, NL and W as an object.
#[derive(Clone, Copy)]
struct TypesObject {
    numbers: PerType,
}

impl fmt::Display for TypesObject {
    ghost use Rattle.std.specs.Prelude.{Some};
    ghost use Rattle.flow_watch.specs.Objects.{types_object};

    ghost output = { λ o. Some (types_object o.numbers) };

    fn fmt<W: fmt::Write>(&self, f: &mut fmt::Formatter<W>) -> fmt::Result {
        let PerType {
            narrow,
            narrow_linear,
            wide,
        } = self.numbers;
        write!(f, "{{\"N\":{narrow},\"NL\":{narrow_linear},\"W\":{wide}}}")
    }
}

/// The numbers of N, NL and W, in this order, as a list.
#[derive(Clone, Copy)]
struct TypesList {
    numbers: PerType,
}

impl fmt::Display for TypesList {
    ghost use Rattle.std.specs.Prelude.{Some};
    ghost use Rattle.flow_watch.specs.Objects.{types_list};

    ghost output = { λ o. Some (types_list o.numbers) };

    fn fmt<W: fmt::Write>(&self, f: &mut fmt::Formatter<W>) -> fmt::Result {
        let PerType {
            narrow,
            narrow_linear,
            wide,
        } = self.numbers;
        write!(f, "[{narrow},{narrow_linear},{wide}]")
    }
}

/// The occupancy of the buffer and its late packets as an object.
#[derive(Clone, Copy)]
struct RangeObject {
    range: BufferRange,
}

impl fmt::Display for RangeObject {
    ghost use Rattle.std.specs.Prelude.{Some};
    ghost use Rattle.flow_watch.specs.Objects.{range_object};

    ghost output = { λ o. Some (range_object o.range) };

    fn fmt<W: fmt::Write>(&self, f: &mut fmt::Formatter<W>) -> fmt::Result {
        let BufferRange {
            least,
            greatest,
            late,
        } = self.range;
        write!(
            f,
            "{{\"greatest\":{greatest},\"late\":{late},\"least\":{least}}}"
        )
    }
}

/// The members of a stretch up to its first frame or field.
#[derive(Clone, Copy)]
struct StretchFront {
    stretch: Stretch,
}

impl fmt::Display for StretchFront {
    ghost use Rattle.std.specs.Prelude.{Some};
    ghost use Rattle.flow_watch.specs.Objects.{stretch_front};

    ghost output = { λ o. Some (stretch_front o.stretch) };

    fn fmt<W: fmt::Write>(&self, f: &mut fmt::Formatter<W>) -> fmt::Result {
        let broken = TypesObject {
            numbers: self.stretch.broken,
        };
        let c_max = TypesList {
            numbers: self.stretch.c_max,
        };
        write!(
            f,
            "{{\"broken\":{broken},\"bucket\":{},\"c_max\":{c_max},\"event\":\"frames\",\"from\":{}",
            self.stretch.peaks.bucket, self.stretch.from
        )
    }
}

/// The members of a stretch about its buffer.
#[derive(Clone, Copy)]
struct StretchBuffer {
    interlaced: bool,
    stretch: Stretch,
}

impl fmt::Display for StretchBuffer {
    ghost use Rattle.std.specs.Prelude.{Some};
    ghost use Rattle.flow_watch.specs.Objects.{stretch_buffer};

    ghost output = { λ o. Some (stretch_buffer o.interlaced o.stretch) };

    fn fmt<W: fmt::Write>(&self, f: &mut fmt::Formatter<W>) -> fmt::Result {
        let gapped = RangeObject {
            range: self.stretch.peaks.gapped,
        };
        let linear = RangeObject {
            range: self.stretch.peaks.linear,
        };
        let interlaced = if self.interlaced { "true" } else { "false" };
        write!(
            f,
            ",\"gapped\":{gapped},\"interlaced\":{interlaced},\"linear\":{linear}"
        )
    }
}

/// A stretch as an object.
#[derive(Clone, Copy)]
pub(crate) struct StretchObject {
    pub(crate) form: LineForm,
    pub(crate) stretch: Stretch,
}

impl fmt::Display for StretchObject {
    ghost use Rattle.std.specs.Prelude.{Some};
    ghost use Rattle.flow_watch.specs.Objects.{stretch_object};

    ghost output = { λ o. Some (stretch_object o.form o.stretch) };

    fn fmt<W: fmt::Write>(&self, f: &mut fmt::Formatter<W>) -> fmt::Result {
        let front = StretchFront {
            stretch: self.stretch,
        };
        let buffer = StretchBuffer {
            interlaced: self.form.interlaced,
            stretch: self.stretch,
        };
        write!(
            f,
            "{front}{buffer},\"media\":{},\"run\":{},\"stamp\":{},\"to\":{}}}",
            self.form.number(),
            self.stretch.run,
            self.stretch.stamp,
            self.stretch.to
        )
    }
}

/// A gap as an object.
#[derive(Clone, Copy)]
pub(crate) struct GapObject {
    pub(crate) form: LineForm,
    pub(crate) gap: Gap,
}

impl fmt::Display for GapObject {
    ghost use Rattle.std.specs.Prelude.{Some};
    ghost use Rattle.flow_watch.specs.Objects.{gap_object};

    ghost output = { λ o. Some (gap_object o.form o.gap) };

    fn fmt<W: fmt::Write>(&self, f: &mut fmt::Formatter<W>) -> fmt::Result {
        let Gap { rec, expected, got } = self.gap;
        write!(
            f,
            "{{\"event\":\"gap\",\"expected\":{expected},\"got\":{got},\"media\":{},\"record\":{rec}}}",
            self.form.number()
        )
    }
}

/// A run without a complete frame or field as an object.
#[derive(Clone, Copy)]
pub(crate) struct WaitingObject {
    pub(crate) form: LineForm,
    pub(crate) waiting: Waiting,
}

impl fmt::Display for WaitingObject {
    ghost use Rattle.std.specs.Prelude.{Some};
    ghost use Rattle.flow_watch.specs.Objects.{waiting_object};

    ghost output = { λ o. Some (waiting_object o.form o.waiting) };

    fn fmt<W: fmt::Write>(&self, f: &mut fmt::Formatter<W>) -> fmt::Result {
        let Waiting { packets, rec } = self.waiting;
        write!(
            f,
            "{{\"event\":\"waiting\",\"media\":{},\"packets\":{packets},\"record\":{rec}}}",
            self.form.number()
        )
    }
}

/// Adds the line of a flow that isn't judged, for this reason. `number` is the number of its media, counted from 0.
pub(crate) fn add_refused(
    alloc: Global,
    text: &mut String,
    number: u32,
    reason: Unjudged,
) -> Result<(), OutOfMemory>
    ensures { IfOk result (λ _. string_bytes text.new
        ≡ string_bytes text.old ++ refused_object number reason) }
{
    let mut object = Object::new(alloc);
    object.put_text("event", "refused")?;
    object.put_count("media", u64::from(number) + 1)?;
    put_unjudged(&mut object, alloc, reason)?;
    add_value(text, alloc, &object.into_value())?;
    text.push_str("\n")
}
