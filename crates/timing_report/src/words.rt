//! The words of the reports: sender types, classes, models, frame or field, SSRCs, and the faults of packets and
//! captures.

ghost use Rattle.std.specs.Prelude.{◌≡◌};
ghost use Rattle.timing_report.specs.Words.{kind_name, declared_name, class_name, model_name, group_name};

use std::fmt;
use timing_base::{Broken, FileNote, Kind, PacketFault, PcapFault};

/// Returns the name of a sender type.
pub fn kind_name(kind: Kind) -> &'static str
    ensures { result.now ≡ kind_name kind }
{
    match kind {
        Kind::N => "N",
        Kind::NL => "NL",
        Kind::W => "W",
    }
}

/// Returns the name of the type that the SDP declares, or `none`.
pub fn declared_name(declared: Option<Kind>) -> &'static str
    ensures { result.now ≡ declared_name declared }
{
    match declared {
        Some(kind) => kind_name(kind),
        None => "none",
    }
}

/// Returns the class of a flow, by the first type that passes.
pub fn class_name(passing: Option<Kind>) -> &'static str
    ensures { result.now ≡ class_name passing }
{
    match passing {
        Some(Kind::N) => "narrow",
        Some(Kind::NL) => "narrow linear",
        Some(Kind::W) => "wide",
        None => "none",
    }
}

/// Returns the name of the model that a violation is of: the leaky bucket, or the receiver buffer (overflow or
/// underflow).
pub fn model_name(model: Broken) -> &'static str
    ensures { result.now ≡ model_name model }
{
    match model {
        Broken::Bucket => "Bucket",
        Broken::Over => "Over",
        Broken::Empty => "Empty",
    }
}

/// Returns `field` if the video is interlaced, else `frame`.
pub fn group_name(interlaced: bool) -> &'static str
    ensures { result.now ≡ group_name interlaced }
{
    if interlaced { "field" } else { "frame" }
}

/// An SSRC, as eight lower-case hexadecimal digits.
#[derive(Clone, Copy, Debug)]
pub struct SsrcText {
    /// The synchronization source (RFC 3550, section 5.1).
    pub ssrc: u32,
}

impl fmt::Display for SsrcText {
    ghost use Rattle.std.specs.Prelude.{Some};
    ghost use Rattle.timing_report.specs.Words.{ssrc_text};

    ghost output = { λ text. Some (ssrc_text text.ssrc) };

    fn fmt<W: fmt::Write>(&self, f: &mut fmt::Formatter<W>) -> fmt::Result {
        write!(f, "{:08x}", self.ssrc)
    }
}

/// The fault of a packet, as the report writes it: its name, and its numbers. Capture timestamps are nanoseconds.
#[derive(Clone, Copy, Debug)]
pub struct PacketFaultText {
    /// The fault.
    pub fault: PacketFault,
}

impl fmt::Display for PacketFaultText {
    ghost use Rattle.std.specs.Prelude.{Some};
    ghost use Rattle.timing_report.specs.Words.{packet_fault_text};

    ghost output = { λ text. Some (packet_fault_text text.fault) };

    fn fmt<W: fmt::Write>(&self, f: &mut fmt::Formatter<W>) -> fmt::Result {
        match self.fault {
            PacketFault::Short => f.write_str("Short"),
            PacketFault::Version => f.write_str("Version"),
            PacketFault::PayloadType => f.write_str("PayloadType"),
            PacketFault::SecondSource => f.write_str("SecondSource"),
            PacketFault::Number { .. } => f.write_str("Number"),
            PacketFault::StampBack { before, got } => {
                write!(f, "StampBack before {before} got {got}")
            }
            PacketFault::NoMarker => f.write_str("NoMarker"),
            PacketFault::SameStamp => f.write_str("SameStamp"),
            PacketFault::FrameSize { want, got } => write!(f, "FrameSize want {want} got {got}"),
            PacketFault::FrameTooLarge => f.write_str("FrameTooLarge"),
        }
    }
}

/// The fault of a capture, as the report writes it: its name, and the packet record, counted from 1.
#[derive(Clone, Copy, Debug)]
struct PcapFaultText {
    fault: PcapFault,
}

impl fmt::Display for PcapFaultText {
    ghost use Rattle.std.specs.Prelude.{Some};
    ghost use Rattle.timing_report.specs.Words.{pcap_fault_text};

    ghost output = { λ text. Some (pcap_fault_text text.fault) };

    fn fmt<W: fmt::Write>(&self, f: &mut fmt::Formatter<W>) -> fmt::Result {
        match self.fault {
            PcapFault::ReadFault => f.write_str("ReadFault"),
            PcapFault::BadMagic => f.write_str("BadMagic"),
            PcapFault::BadVersion => f.write_str("BadVersion"),
            PcapFault::BadLink => f.write_str("BadLink"),
            PcapFault::BadStamp { rec } => write!(f, "BadStamp at record {rec}"),
            PcapFault::BadLength { rec } => write!(f, "BadLength at record {rec}"),
            PcapFault::TooLong => f.write_str("TooLong"),
        }
    }
}

/// The way in which a capture ends, as the report writes it. A cut is named by its byte offset, from 0.
#[derive(Clone, Copy, Debug)]
pub struct NoteText {
    /// The end of the capture.
    pub note: FileNote,
}

impl fmt::Display for NoteText {
    ghost use Rattle.std.specs.Prelude.{Some};
    ghost use Rattle.timing_report.specs.Words.{note_text};

    ghost output = { λ text. Some (note_text text.note) };

    fn fmt<W: fmt::Write>(&self, f: &mut fmt::Formatter<W>) -> fmt::Result {
        match self.note {
            FileNote::End => f.write_str("end"),
            FileNote::Cut { at } => write!(f, "cut at {at}"),
            FileNote::Refused(fault) => {
                let fault = PcapFaultText { fault };
                write!(f, "refused {fault}")
            }
        }
    }
}
