//! The faults of a session description, and their printed form.

ghost use Rattle.std.specs.Prelude.{◌≡◌};
ghost use Rattle.sdp_reader.specs.Fault.{number_of, name_of, comes_before, first_of};

use std::alloc::AllocError;
use std::fmt;

/// The reason why a session description is refused. The causes have the numbers 1 to 15 and 17, in
/// this order.
///
/// `NoConnection` to `TooManyMedia` concern raw parts only: video sections that map their format to
/// `raw/90000`. The known parameters are width, height, exactframerate, interlace, segmented, TP,
/// TROFF, CMAX and MAXUDP; all others are ignored.
#[derive(Clone, Copy, Debug, PartialEq, Eq)]
pub enum SdpCause {
    /// The line has a byte 0, or a CR that isn't directly before an LF.
    NotText,
    /// The first line that isn't empty isn't `v=0`. If all lines are empty, the fault is on line 1.
    NoVersion,
    /// The line isn't empty, and doesn't begin with a letter a to z and `=`.
    BadLine,
    /// The first field of an `m=` line is `video`, and the line isn't
    /// `m=video PORT RTP/AVP FORMAT`.
    BadMedia,
    /// Neither the part nor the session has a `c=` line.
    NoConnection,
    /// The `c=` line that applies isn't `c=IN IP4 A.B.C.D` or `c=IN IP4 A.B.C.D/TTL`.
    BadAddress,
    /// A parameter other than exactframerate has an invalid value.
    BadParameter,
    /// An earlier parameter of the part has the same name.
    RepeatedParameter,
    /// The part has no width, height or exactframerate. An invalid one isn't missing.
    MissingParameter,
    /// The parameter exactframerate has an invalid value.
    BadRate,
    /// The parameter segmented is there, with or without interlace: pictures are sent in segments
    /// (PsF).
    Segmented,
    /// The parameter MAXUDP is above 1,460 bytes.
    ExtendedUdp,
    /// An earlier raw part has the same address and port.
    SameTarget,
    /// The part is the 65th raw part.
    TooManyMedia,
    /// No line has a fault, and there is no raw part.
    NoVideo,
    /// The session description has more than 1,048,576 bytes.
    TooLarge,
}

impl SdpCause {
    /// Returns the number of the cause. If a line has several causes, the one with the lowest
    /// number is reported.
    fn number(self) -> u32
        ensures { result ≡ number_of self }
    {
        match self {
            SdpCause::NotText => 1,
            SdpCause::NoVersion => 2,
            SdpCause::BadLine => 3,
            SdpCause::BadMedia => 4,
            SdpCause::NoConnection => 5,
            SdpCause::BadAddress => 6,
            SdpCause::BadParameter => 7,
            SdpCause::RepeatedParameter => 8,
            SdpCause::MissingParameter => 9,
            SdpCause::BadRate => 10,
            SdpCause::Segmented => 11,
            SdpCause::ExtendedUdp => 12,
            SdpCause::SameTarget => 13,
            SdpCause::TooManyMedia => 14,
            SdpCause::NoVideo => 15,
            SdpCause::TooLarge => 17,
        }
    }

    /// Returns the name of the cause, as printed in messages.
    pub fn name(self) -> &'static str
        ensures { result.now ≡ name_of self }
    {
        match self {
            SdpCause::NotText => "NotText",
            SdpCause::NoVersion => "NoVersion",
            SdpCause::BadLine => "BadLine",
            SdpCause::BadMedia => "BadMedia",
            SdpCause::NoConnection => "NoConnection",
            SdpCause::BadAddress => "BadAddress",
            SdpCause::BadParameter => "BadParameter",
            SdpCause::RepeatedParameter => "RepeatedParameter",
            SdpCause::MissingParameter => "MissingParameter",
            SdpCause::BadRate => "BadRate",
            SdpCause::Segmented => "Segmented",
            SdpCause::ExtendedUdp => "ExtendedUdp",
            SdpCause::SameTarget => "SameTarget",
            SdpCause::TooManyMedia => "TooManyMedia",
            SdpCause::NoVideo => "NoVideo",
            SdpCause::TooLarge => "TooLarge",
        }
    }
}

/// A fault of a session description: the invalid line and the cause.
#[derive(Clone, Copy, Debug, PartialEq, Eq)]
pub struct SdpFault {
    /// The line, counted from 1, or 0 for a fault of the session description as a whole.
    pub line: u32,
    /// The cause.
    pub what: SdpCause,
}

impl fmt::Display for SdpFault {
    ghost use Rattle.std.specs.Prelude.{Some};
    ghost use Rattle.sdp_reader.specs.Fault.{fault_text};

    ghost output = { λ fault. Some (fault_text fault) };

    fn fmt<W: fmt::Write>(&self, f: &mut fmt::Formatter<W>) -> fmt::Result {
        write!(f, "line {} {}", self.line, self.what.name())
    }
}

/// Returns whether the first fault is on an earlier line, or on the same line and its cause has a
/// lower number.
fn comes_before(one: SdpFault, other: SdpFault) -> bool
    ensures { result ≡ comes_before one other }
{
    one.line < other.line || (one.line == other.line && one.what.number() < other.what.number())
}

/// Returns the first of two possible faults, by line and then by cause.
pub(crate) fn first_of(one: Option<SdpFault>, other: Option<SdpFault>) -> Option<SdpFault>
    ensures { result ≡ first_of one other }
{
    match (one, other) {
        (Some(f), Some(g)) => if comes_before(g, f) { Some(g) } else { Some(f) },
        (Some(f), None) => Some(f),
        (None, g) => g,
    }
}

/// The reason why there is no session.
#[derive(Clone, Copy, Debug, PartialEq, Eq)]
pub enum SdpError {
    /// The session description is invalid; this is its first fault.
    Refused(SdpFault),
    /// Memory ran out. The session description may be valid or not.
    OutOfMemory,
}

impl From<AllocError> for SdpError {
    ghost use Rattle.sdp_reader.specs.declared.fault.SdpError.TheVariants.{OutOfMemory};

    ghost from_gives = { λ _ e. e ≡ OutOfMemory };

    fn from(_: AllocError) -> Self {
        SdpError::OutOfMemory
    }
}
