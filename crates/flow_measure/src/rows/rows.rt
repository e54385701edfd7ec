//! The rows of the judged runs of a flow, as text.

ghost use Rattle.std.specs.Prelude.{◌≡◌};
ghost use Rattle.flow_measure.specs.rows.Rows.{header_text};

use crate::report::{RowText, group_header, packet_header};

/// Returns the header line: that of frame rows if `frames`, else that of packet rows.
pub fn header(frames: bool) -> &'static str
    ensures { result.now ≡ header_text frames }
{
    if frames {
        group_header()
    } else {
        packet_header()
    }
}

/// The rows of the judged runs of a flow, as lines. The caller may remove lines from the text between calls.
#[derive(Drop)]
pub struct Rows {
    /// The lines, after the text that was there before the first row.
    pub text: Vec<u8>,
    /// Whether there is a row per frame or field, instead of one per packet.
    pub frames: bool,
    /// The memory into which the next row is written.
    pub(crate) row: RowText,
}

impl Rows {
    /// Returns an empty list of rows, which will be appended to `text`: one per frame or field if `frames`, else one
    /// per packet.
    pub fn new(text: Vec<u8>, frames: bool) -> Rows
        ensures text { result.text ≡ text }
        ensures frames { result.frames ≡ frames }
    {
        Rows {
            text,
            frames,
            row: RowText::new(),
        }
    }
}
