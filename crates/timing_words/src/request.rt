//! The requests that a command line can make.

use crate::command::Command;
use timing_base::{
    CaptureJob, CheckJob, ExplainJob, FlowJob, ReportJob, ScanJob, SdpJob, SelfTestJob, SeriesJob,
    ShapeJob, SkewJob, VerifyJob, WatchJob,
};

/// The request of a command line.
#[derive(Debug, Drop)]
pub enum Request {
    /// The command `check`.
    Check(CheckJob),
    /// The command `verify`.
    Verify(VerifyJob),
    /// The command `verify-report`.
    VerifyReport(ReportJob),
    /// The command `selftest`.
    SelfTest(SelfTestJob),
    /// The command `window`.
    Window(FlowJob),
    /// The command `shape`.
    Shape(ShapeJob),
    /// The command `skew`.
    Skew(SkewJob),
    /// The command `scan`.
    Scan(ScanJob),
    /// The command `measure`.
    Measure(CaptureJob),
    /// The command `series`.
    Series(SeriesJob),
    /// The command `sdp`.
    Sdp(SdpJob),
    /// The command `page`.
    Page(CaptureJob),
    /// The command `explain`.
    Explain(ExplainJob),
    /// The command `watch`.
    Watch(WatchJob),
    /// The command `help`: the arguments of all commands, or more of this one.
    Help(Option<Command>),
}
