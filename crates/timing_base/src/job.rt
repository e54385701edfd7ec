//! The jobs that a command line requests.

use crate::fail::FailProof;
use crate::list::Items;
use crate::media::Kind;
use crate::name::FileName;
use crate::shift::FlowOptions;
use std::marker::Model;

/// The command `check`: judges the flows of captures.
#[derive(Debug, Drop)]
pub struct CheckJob {
    /// The file name of the session description.
    pub sdp: FileName,
    /// The capture files, 1 to 16.
    pub captures: Items<FileName>,
    /// The number of workers, 0 to 16; 0 is one thread for all.
    pub workers: u32,
    /// How the packets of its flows are timed and numbered.
    pub options: FlowOptions,
    /// Whether the report is printed as JSON.
    pub json: bool,
    /// Whether the captures are taken as one, in the order of the arguments.
    pub joined: bool,
    /// The media that is judged alone, counted from 0, at most 63, or `None` for all media.
    pub media: Option<u32>,
}

impl Model for CheckJob {
    ghost use Rattle.timing_base.specs.Jobs.{CheckJob as Seen, IsCheckJob};

    ghost Value = { Seen };

    ghost view = { λ job. record {
      sdp = job.sdp;
      captures = job.captures;
      workers = job.workers;
      options = job.options;
      json = job.json;
      joined = job.joined;
      media = job.media;
    } };

    ghost invariant = { λ job. IsCheckJob (view job) };
}

/// The command `verify`: checks one claimed violation from the capture alone.
#[derive(Debug, Drop)]
pub struct VerifyJob {
    /// The file name of the session description.
    pub sdp: FileName,
    /// The media, counted from 0, at most 63.
    pub media: u32,
    /// The sender type with the broken limit.
    pub kind: Kind,
    /// The claimed violation.
    pub proof: FailProof,
    /// How the packets of the flow are timed and numbered.
    pub options: FlowOptions,
    /// The capture files: exactly one, or 1 to 16 if they are joined.
    pub captures: Items<FileName>,
    /// Whether the captures are taken as one, in the order of the arguments.
    pub joined: bool,
}

impl Model for VerifyJob {
    ghost use Rattle.timing_base.specs.Jobs.{VerifyJob as Seen, IsVerifyJob};

    ghost Value = { Seen };

    ghost view = { λ job. record {
      sdp = job.sdp;
      media = job.media;
      kind = job.kind;
      proof = job.proof;
      options = job.options;
      captures = job.captures;
      joined = job.joined;
    } };

    ghost invariant = { λ job. IsVerifyJob (view job) };
}

/// The command `verify-report`: checks each violation of a JSON report from the captures alone.
#[derive(Debug, Drop)]
pub struct ReportJob {
    /// The file name of the session description.
    pub sdp: FileName,
    /// The file name of the JSON report.
    pub report: FileName,
    /// How the packets of its flows are timed and numbered.
    pub options: FlowOptions,
    /// The capture files, 1 to 16.
    pub captures: Items<FileName>,
    /// Whether the captures are taken as one, in the order of the arguments.
    pub joined: bool,
    /// The media that is judged alone, counted from 0, at most 63, or `None` for all media.
    pub media: Option<u32>,
}

impl Model for ReportJob {
    ghost use Rattle.timing_base.specs.Jobs.{ReportJob as Seen, IsReportJob};

    ghost Value = { Seen };

    ghost view = { λ job. record {
      sdp = job.sdp;
      report = job.report;
      options = job.options;
      captures = job.captures;
      joined = job.joined;
      media = job.media;
    } };

    ghost invariant = { λ job. IsReportJob (view job) };
}

/// The command `selftest`: runs the analyser over captures that it makes itself.
#[derive(Clone, Copy, Debug, PartialEq, Eq)]
pub struct SelfTestJob {
    /// The number of frames in each capture, 2 to 20,000.
    pub frames: u32,
    /// The number of workers, 0 to 16; 0 is one thread for all.
    pub workers: u32,
}

impl Model for SelfTestJob {
    ghost use Rattle.timing_base.specs.Jobs.{SelfTestJob as Seen, IsSelfTestJob};

    ghost Value = { Seen };

    ghost view = { λ job. record { frames = job.frames; workers = job.workers } };

    ghost invariant = { λ job. IsSelfTestJob (view job) };

    ghost inverse = { λ job. record { frames = job.frames; workers = job.workers } };
}

/// One flow of one capture, or of joined captures.
#[derive(Debug, Drop)]
pub struct FlowJob {
    /// The file name of the session description.
    pub sdp: FileName,
    /// The media, counted from 0, at most 63.
    pub media: u32,
    /// How the packets of the flow are timed and numbered.
    pub options: FlowOptions,
    /// The capture files: exactly one, or 1 to 16 if they are joined.
    pub captures: Items<FileName>,
    /// Whether the captures are taken as one, in the order of the arguments.
    pub joined: bool,
}

impl Model for FlowJob {
    ghost use Rattle.timing_base.specs.Jobs.{FlowJob as Seen, IsFlowJob};

    ghost Value = { Seen };

    ghost view = { λ job. record {
      sdp = job.sdp;
      media = job.media;
      options = job.options;
      captures = job.captures;
      joined = job.joined;
    } };

    ghost invariant = { λ job. IsFlowJob (view job) };
}

/// The command `shape`: delays the packets of a flow until they keep the limits of a sender type.
#[derive(Debug, Drop)]
pub struct ShapeJob {
    /// The flow.
    pub flow: FlowJob,
    /// The sender type with the limits to be kept.
    pub kind: Kind,
    /// Whether the delays are printed as a list instead of the delayed capture.
    pub list: bool,
}

impl Model for ShapeJob {
    ghost use Rattle.timing_base.specs.Jobs.{ShapeJob as Seen};

    ghost Value = { Seen };

    ghost view = { λ job. record { flow = job.flow; kind = job.kind; list = job.list } };
}

/// The command `skew`: compares two flows packet by packet, by their packet numbers.
#[derive(Debug, Drop)]
pub struct SkewJob {
    /// The file name of the session description.
    pub sdp: FileName,
    /// The media of the first flow, counted from 0, at most 63.
    pub media: u32,
    /// The media of the second flow, counted from 0, at most 63.
    pub pair: u32,
    /// The capture of the first flow and that of the second, or one capture with both.
    pub captures: Items<FileName>,
}

impl Model for SkewJob {
    ghost use Rattle.timing_base.specs.Jobs.{SkewJob as Seen, IsSkewJob};

    ghost Value = { Seen };

    ghost view = { λ job. record { sdp = job.sdp; media = job.media; pair = job.pair; captures = job.captures } };

    ghost invariant = { λ job. IsSkewJob (view job) };
}

/// The flows of one capture, or of joined captures: of all media, or of one.
#[derive(Debug, Drop)]
pub struct CaptureJob {
    /// The file name of the session description.
    pub sdp: FileName,
    /// How the packets of its flows are timed and numbered.
    pub options: FlowOptions,
    /// The capture files: exactly one, or 1 to 16 if they are joined.
    pub captures: Items<FileName>,
    /// Whether the captures are taken as one, in the order of the arguments.
    pub joined: bool,
    /// The media that is judged alone, counted from 0, at most 63, or `None` for all media.
    pub media: Option<u32>,
}

impl Model for CaptureJob {
    ghost use Rattle.timing_base.specs.Jobs.{CaptureJob as Seen, IsCaptureJob};

    ghost Value = { Seen };

    ghost view = { λ job. record {
      sdp = job.sdp;
      options = job.options;
      captures = job.captures;
      joined = job.joined;
      media = job.media;
    } };

    ghost invariant = { λ job. IsCaptureJob (view job) };
}

/// The command `explain`: prints what is wrong with the flows of captures, and what to do.
#[derive(Debug, Drop)]
pub struct ExplainJob {
    /// The flows.
    pub flows: CaptureJob,
    /// Whether the output is JSON.
    pub json: bool,
}

impl Model for ExplainJob {
    ghost use Rattle.timing_base.specs.Jobs.{ExplainJob as Seen};

    ghost Value = { Seen };

    ghost view = { λ job. record { flows = job.flows; json = job.json } };
}

/// The command `watch`: prints a line for each stretch of frames while captures are read, and then the report.
#[derive(Debug, Drop)]
pub struct WatchJob {
    /// The flows.
    pub flows: CaptureJob,
    /// The number of frames (fields of an interlaced video) in a stretch, 1 to 1,000,000, or `None` for those of one
    /// second.
    pub every: Option<u32>,
    /// Whether the lines and the report are JSON.
    pub json: bool,
}

impl Model for WatchJob {
    ghost use Rattle.timing_base.specs.Jobs.{WatchJob as Seen, IsWatchJob};

    ghost Value = { Seen };

    ghost view = { λ job. record { flows = job.flows; every = job.every; json = job.json } };

    ghost invariant = { λ job. IsWatchJob (view job) };
}

/// The command `series`: prints the numbers of a flow as CSV.
#[derive(Debug, Drop)]
pub struct SeriesJob {
    /// The flow.
    pub flow: FlowJob,
    /// Whether there is a line for each frame (field of an interlaced video) instead of each
    /// packet.
    pub frames: bool,
}

impl Model for SeriesJob {
    ghost use Rattle.timing_base.specs.Jobs.{SeriesJob as Seen};

    ghost Value = { Seen };

    ghost view = { λ job. record { flow = job.flow; frames = job.frames } };
}

/// The form in which the contents of a capture are printed.
#[derive(Clone, Copy, Debug, PartialEq, Eq)]
pub enum ScanForm {
    /// Lines of text.
    Lines,
    /// One JSON value.
    Json,
    /// The draft of a session description.
    Draft,
}

/// The command `scan`: lists the contents of a capture.
#[derive(Debug, Drop)]
pub struct ScanJob {
    /// The capture file.
    pub capture: FileName,
    /// The form of the output.
    pub form: ScanForm,
}

impl Model for ScanJob {
    ghost use Rattle.timing_base.specs.Jobs.{ScanJob as Seen};

    ghost Value = { Seen };

    ghost view = { λ job. record { capture = job.capture; form = job.form } };
}

/// The command `sdp`: prints how a session description is read.
#[derive(Debug, Drop)]
pub struct SdpJob {
    /// The file name of the session description.
    pub sdp: FileName,
    /// Whether the output is JSON.
    pub json: bool,
}

impl Model for SdpJob {
    ghost use Rattle.timing_base.specs.Jobs.{SdpJob as Seen};

    ghost Value = { Seen };

    ghost view = { λ job. record { sdp = job.sdp; json = job.json } };
}
