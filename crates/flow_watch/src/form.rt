//! How the lines of a flow are written.

ghost use Rattle.std.specs.Prelude.{◌≡◌, ◌+◌, ◌++◌, IfOk, string_bytes};
ghost use Rattle.flow_watch.specs.Lines.{gap_line, refused_line, stretch_line, waiting_line};

use crate::json::{self, GapObject, StretchObject, WaitingObject};
use crate::stretch::Stretch;
use crate::text::{self, GapText, StretchText, WaitingText};
use std::alloc::{AllocError as OutOfMemory, Global};
use timing_base::{Media, Unjudged};

/// The media of a flow, and how the lines of the flow are written.
#[derive(Clone, Copy, Debug, PartialEq, Eq)]
pub struct LineForm {
    /// The number of the media in the session, counted from 0.
    pub media: u32,
    /// Whether its video is interlaced: then fields are counted instead of frames.
    pub interlaced: bool,
    /// Whether each line is a JSON object.
    pub json: bool,
}

/// A gap in the packet numbers of a flow.
#[derive(Clone, Copy, Debug, PartialEq, Eq)]
pub struct Gap {
    /// The packet record of the first packet after the gap, counted from 1.
    pub rec: u64,
    /// The packet number that was expected.
    pub expected: u32,
    /// The packet number of that packet.
    pub got: u32,
}

/// A run that has no complete frame or field yet.
#[derive(Clone, Copy, Debug, PartialEq, Eq)]
pub struct Waiting {
    /// The packets of the run so far.
    pub packets: u64,
    /// The packet record of the first of them, counted from 1.
    pub rec: u64,
}

impl LineForm {
    /// Returns the number of the media, counted from 1.
    pub(crate) fn number(&self) -> u64
        ensures { result ≡ self.now.media + 1 }
    {
        u64::from(self.media) + 1
    }

    /// Adds the line of a stretch. Returns `Err` if memory runs out.
    pub fn add_stretch(&self, text: &mut String, stretch: &Stretch) -> Result<(), OutOfMemory>
        ensures { IfOk result (λ _. string_bytes text.new
            ≡ string_bytes text.old ++ stretch_line self.now stretch.now) }
    {
        let stretch = *stretch;
        if self.json {
            let object = StretchObject {
                form: *self,
                stretch,
            };
            writeln!(text, "{object}")
        } else {
            let line = StretchText {
                form: *self,
                stretch,
            };
            writeln!(text, "{line}")
        }
    }

    /// Adds the line of a gap. Returns `Err` if memory runs out.
    pub fn add_gap(&self, text: &mut String, gap: Gap) -> Result<(), OutOfMemory>
        ensures { IfOk result (λ _. string_bytes text.new ≡ string_bytes text.old ++ gap_line self.now gap) }
    {
        if self.json {
            let object = GapObject { form: *self, gap };
            writeln!(text, "{object}")
        } else {
            let line = GapText { form: *self, gap };
            writeln!(text, "{line}")
        }
    }

    /// Adds the line of a run without a complete frame or field. Returns `Err` if memory runs out.
    pub fn add_waiting(&self, text: &mut String, waiting: Waiting) -> Result<(), OutOfMemory>
        ensures { IfOk result (λ _. string_bytes text.new
            ≡ string_bytes text.old ++ waiting_line self.now waiting) }
    {
        if self.json {
            let object = WaitingObject {
                form: *self,
                waiting,
            };
            writeln!(text, "{object}")
        } else {
            let line = WaitingText {
                form: *self,
                waiting,
            };
            writeln!(text, "{line}")
        }
    }

    /// Adds the line of a flow of this media that isn't judged, for this reason. Returns `Err` if memory runs out.
    pub fn add_refused(
        &self,
        alloc: Global,
        text: &mut String,
        media: &Media,
        reason: Unjudged,
    ) -> Result<(), OutOfMemory>
        ensures { IfOk result (λ _. string_bytes text.new
            ≡ string_bytes text.old ++ refused_line self.now media.now reason) }
    {
        if self.json {
            json::add_refused(alloc, text, self.media, reason)
        } else {
            text::add_refused(alloc, text, self.media, media, reason)
        }
    }
}
