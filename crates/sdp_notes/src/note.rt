//! What is noted on the lines of a session description.

/// An attribute of a media section that names a format.
#[derive(Clone, Copy, Debug, PartialEq, Eq)]
pub enum Attribute {
    /// `a=rtpmap:FORMAT ENCODING`
    RtpMap,
    /// `a=fmtp:FORMAT LIST`
    Fmtp,
}

/// What the reader passes over in a line, or what looks like a mistake in it. Lines count from 1.
#[derive(Debug, Drop)]
pub enum Note<'a> {
    /// A media section of another kind than `video`.
    Section {
        /// The line that begins the section.
        line: u32,
        /// The kind: the first field after `m=`.
        kind: &'a [u8],
    },
    /// A video section without `a=rtpmap:FORMAT raw/90000` for its format.
    NotRaw {
        /// The line that begins the section.
        line: u32,
        /// The format, an RTP payload type.
        format: u8,
    },
    /// An attribute of a section of raw video, for another format than the section's.
    OtherFormat {
        /// The line.
        line: u32,
        /// The attribute.
        attribute: Attribute,
    },
    /// Parameters that the reader doesn't know.
    Unknown {
        /// The line.
        line: u32,
        /// The names, in order; at least one.
        names: Vec<&'a [u8]>,
    },
    /// A parameter that the reader doesn't know, with nearly the name of one that it knows.
    Near {
        /// The line.
        line: u32,
        /// The name.
        name: &'a [u8],
        /// The name of the known parameter.
        known: &'static str,
    },
    /// A comma in a parameter, with what looks like a parameter behind it.
    Comma {
        /// The line.
        line: u32,
        /// The name behind the comma.
        name: &'a [u8],
    },
}
