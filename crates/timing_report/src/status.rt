//! The end of a run of the program: the exit status, and the first line on standard error.

ghost use Rattle.std.specs.Prelude.{◌≡◌, ◌≤◌, ◌+◌, ◌++◌, length, codes};
ghost use Rattle.std.specs.Fmt.{decimal};
ghost use Rattle.sdp_reader.specs.Fault.{fault_text};
ghost use Rattle.timing_report.specs.Status.{code_of, error_line};

use arrayvec::ArrayString;
use itoa::Buffer;
use sdp_reader::SdpFault;

/// An input that the command line names.
#[derive(Clone, Copy, Debug, PartialEq, Eq)]
pub enum Input {
    /// The session description (SDP).
    Sdp,
    /// The report that `verify-report` reads.
    Report,
    /// A capture, counted from 0.
    Capture(u32),
}

/// The way a run of the program ended.
#[derive(Clone, Copy, Debug, PartialEq, Eq)]
pub enum Status {
    /// The report was printed, every flow was judged as one run, no capture is malformed, and each flow passes its
    /// declared type (if none is declared: some type).
    ///
    /// For the other commands:
    ///
    /// - `verify`, `verify-report`: every violation was confirmed.
    /// - `window`, `shape`, `selftest`, `help`: the output was printed.
    /// - `skew`: the output was printed, the two flows have a packet number in common, and no capture is malformed.
    /// - `scan`: the output was printed, a stream was found (with `--draft`: one with a video), and the capture isn't
    ///   malformed.
    /// - `measure`, `series`, `page`: the output was printed, a run was judged, and the capture isn't malformed; with
    ///   `series` the flow has no fault either.
    Pass,
    /// The report was printed, every flow was judged as one run, no capture is malformed, and some flow fails its
    /// declared type (if none is declared: all types). For `verify` and `verify-report`: a violation was not confirmed.
    Fail,
    /// The command line is invalid.
    Usage,
    /// The session description (SDP) is invalid.
    SdpRefused(SdpFault),
    /// The output was printed, and a flow wasn't judged as one run, or a capture is malformed.
    ///
    /// For the other commands:
    ///
    /// - `verify`, `verify-report`: the flow or the run of a violation wasn't judged.
    /// - `window`, `shape`: the SDP doesn't have the media, its flow wasn't judged as one run, or with `shape` a packet
    ///   can't be delayed so far.
    /// - `skew`: the SDP doesn't have a media, the two flows have no packet number in common, or a capture is
    ///   malformed.
    /// - `scan`: no stream was found (with `--draft`: none with a video), or the capture is malformed.
    /// - `measure`, `series`, `page`: no run was judged, or the capture is malformed; with `series` also if the flow
    ///   has a fault, or the SDP doesn't have the media.
    NotAllJudged,
    /// This input couldn't be opened, or a read of it failed.
    ReadFault(Input),
    /// A write on standard output failed; what was written is a prefix of the output.
    WriteFault,
    /// Memory ran out.
    OutOfMemory,
    /// The report that `verify-report` reads is not in the form of a report.
    ReportRefused,
}

impl Status {
    /// Returns the exit status of the process.
    pub fn code(&self) -> u8
        ensures { result ≡ code_of self.now }
    {
        match self {
            Status::Pass => 0,
            Status::Fail => 1,
            Status::Usage => 2,
            Status::SdpRefused(_) => 3,
            Status::NotAllJudged => 4,
            Status::ReadFault(_) => 5,
            Status::WriteFault => 6,
            Status::OutOfMemory => 7,
            Status::ReportRefused => 9,
        }
    }

    /// Returns the first line on standard error with its newline, or an empty string for `Pass`, `Fail` and
    /// `NotAllJudged`. It is built without allocation, so that `OutOfMemory` can be reported too.
    pub fn error_line(&self) -> ArrayString<80>
        ensures { result.bytes ≡ error_line self.now }
    {
        match self {
            Status::Pass => ArrayString::new(),
            Status::Fail => ArrayString::new(),
            Status::NotAllJudged => ArrayString::new(),
            Status::Usage => line("usage: check, verify, verify-report or selftest\n"),
            Status::SdpRefused(fault) => fault_line(fault),
            Status::ReadFault(Input::Sdp) => line("read fault: sdp\n"),
            Status::ReadFault(Input::Report) => line("read fault: report\n"),
            Status::ReadFault(Input::Capture(file)) => capture_line(*file),
            Status::WriteFault => line("write fault\n"),
            Status::OutOfMemory => line("out of memory\n"),
            Status::ReportRefused => line("report refused\n"),
        }
    }
}

fn line(text: &str) -> ArrayString<80>
    requires { length text.now ≤ 80 }
    ensures { result.bytes ≡ text.now }
{
    let mut line = ArrayString::new();
    line.push_str(text);
    line
}

fn capture_line(file: u32) -> ArrayString<80>
    ensures { result.bytes ≡ codes "read fault: capture " ++ (decimal (file + 1) ++ codes "\n") }
{
    let mut line = line("read fault: capture ");
    let mut buffer = Buffer::new();
    line.push_str(buffer.format(u64::from(file) + 1));
    line.push_str("\n");
    line
}

fn fault_line(fault: &SdpFault) -> ArrayString<80>
    ensures { result.bytes ≡ codes "sdp refused: " ++ (fault_text fault.now ++ codes "\n") }
{
    let mut line = line("sdp refused: line ");
    let mut buffer = Buffer::new();
    line.push_str(buffer.format(fault.line));
    line.push_str(" ");
    line.push_str(fault.what.name());
    line.push_str("\n");
    line
}
