//! Faults of a capture, and the ways in which its packet records end.

/// The reason why the packet records of a capture end before the file does. The variants are
/// numbered 1 to 7 in this order. `rec` is the number of the packet record, counted from 1.
#[derive(Clone, Copy, Debug, PartialEq, Eq)]
pub enum PcapFault {
    /// A read failed.
    ReadFault,
    /// The file doesn't begin with a file header of a known kind.
    BadMagic,
    /// The version of the format is not 2.4.
    BadVersion,
    /// The link type isn't Ethernet.
    BadLink,
    /// The fractional part of the capture timestamp of a packet record is a second or more.
    BadStamp { rec: u64 },
    /// The captured length of a packet record is above 262,144 bytes.
    BadLength { rec: u64 },
    /// The packet records exceed the greatest length of a capture.
    TooLong,
}

/// The way in which the packet records of a capture end.
#[derive(Clone, Copy, Debug, PartialEq, Eq)]
pub enum FileNote {
    /// The capture ends after a complete packet record.
    End,
    /// The capture ends within the packet record that starts at this byte, counted from 0.
    Cut { at: u64 },
    /// The file header or the next packet record has this fault, or a read failed (`ReadFault`).
    Refused(PcapFault),
}
