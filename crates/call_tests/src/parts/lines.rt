//! Command lines and the requests that they are read as, worked by hand.

use super::compare::{same, same_at};
use std::alloc::{AllocError, Global};
use std::process::Abort;
use std::test::Fail;
use timing_base::{
    CaptureJob, CheckJob, ExplainJob, FailProof, FileName, FlowJob, FlowOptions, Items, ReportJob,
    ScanJob, SdpJob, SelfTestJob, SeriesJob, ShapeJob, SkewJob, VerifyJob, WatchJob,
};
use timing_words::{Command, Request, WordFault, read_words};

// The arguments of a line, which are separated by bars.
fn words_of(alloc: Global, line: &str) -> Result<Vec<String>, AllocError> {
    let mut words = Vec::new(alloc);
    for word in line.split('|') {
        let word = String::from_str(alloc, word)?;
        words.push(word)?;
    }
    Ok(words)
}

fn files(alloc: Global, items: &Items<FileName>) -> Result<String, AllocError> {
    let mut text = String::new(alloc);
    for file in items.as_slice() {
        text.push_str(" ")?;
        text.push_str(file.as_str())?;
    }
    Ok(text)
}

/// How packets are timed and numbered: the seconds, the nanoseconds if there are any, and whether numbers are counted.
fn shown_options(alloc: Global, options: FlowOptions) -> Result<String, AllocError> {
    let (tai, delay) = (options.shift.tai, options.shift.delay);
    match (delay, options.seq16) {
        (0, false) => format!(in alloc; "{tai}"),
        (_, false) => format!(in alloc; "{tai} less {delay}"),
        (0, true) => format!(in alloc; "{tai} counted"),
        (_, true) => format!(in alloc; "{tai} less {delay} counted"),
    }
}

/// The media that is judged alone, counted from 0, or nothing.
fn shown_only(alloc: Global, only: Option<u32>) -> Result<String, AllocError> {
    match only {
        Some(number) => format!(in alloc; " media {number}"),
        None => Ok(String::new(alloc)),
    }
}

/// Whether the captures are joined, and their names.
fn shown_inputs(
    alloc: Global,
    joined: bool,
    captures: &Items<FileName>,
) -> Result<String, AllocError> {
    let captures = files(alloc, captures)?;
    let joined = if joined { " joined" } else { "" };
    format!(in alloc; "{joined}:{captures}")
}

/// The fields of a `check`.
fn shown_check(alloc: Global, job: &CheckJob) -> Result<String, AllocError> {
    let captures = files(alloc, &job.captures)?;
    let sdp = job.sdp.as_str();
    let workers = job.workers;
    let options = shown_options(alloc, job.options)?;
    let only = shown_only(alloc, job.media)?;
    let (json, joined) = (job.json, job.joined);
    format!(in alloc; "check {sdp} {workers} {options} {json} {joined}{only}:{captures}")
}

/// The numbers of a violation.
fn shown_proof(alloc: Global, proof: &FailProof) -> Result<String, AllocError> {
    let (model, from, to) = (proof.model, proof.from, proof.to);
    let (count, limit) = (proof.count, proof.limit);
    format!(in alloc; "{model:?} {from} {to} {count} {limit}")
}

/// The fields of a `verify`.
fn shown_verify(alloc: Global, job: &VerifyJob) -> Result<String, AllocError> {
    let captures = files(alloc, &job.captures)?;
    let proof = shown_proof(alloc, &job.proof)?;
    let sdp = job.sdp.as_str();
    let (media, kind, joined) = (job.media, job.kind, job.joined);
    let options = shown_options(alloc, job.options)?;
    format!(in alloc; "verify {sdp} {media} {kind:?} {proof} {options} {joined}:{captures}")
}

/// The fields of a `verify-report`.
fn shown_report(alloc: Global, job: &ReportJob) -> Result<String, AllocError> {
    let captures = files(alloc, &job.captures)?;
    let (sdp, report) = (job.sdp.as_str(), job.report.as_str());
    let joined = job.joined;
    let options = shown_options(alloc, job.options)?;
    let only = shown_only(alloc, job.media)?;
    format!(in alloc; "report {sdp} {report} {options} {joined}{only}:{captures}")
}

/// The fields of a `selftest`.
fn shown_self_test(alloc: Global, job: &SelfTestJob) -> Result<String, AllocError> {
    let (frames, workers) = (job.frames, job.workers);
    format!(in alloc; "selftest {frames} {workers}")
}

/// The fields of a `window`.
fn shown_window(alloc: Global, job: &FlowJob) -> Result<String, AllocError> {
    let (sdp, media) = (job.sdp.as_str(), job.media);
    let options = shown_options(alloc, job.options)?;
    let inputs = shown_inputs(alloc, job.joined, &job.captures)?;
    format!(in alloc; "window {sdp} {media} {options}{inputs}")
}

/// The fields of a `shape`.
fn shown_shape(alloc: Global, job: &ShapeJob) -> Result<String, AllocError> {
    let (sdp, media) = (job.flow.sdp.as_str(), job.flow.media);
    let options = shown_options(alloc, job.flow.options)?;
    let inputs = shown_inputs(alloc, job.flow.joined, &job.flow.captures)?;
    let (kind, list) = (job.kind, job.list);
    format!(in alloc; "shape {sdp} {media} {kind:?} {options} {list}{inputs}")
}

/// The fields of a `skew`.
fn shown_skew(alloc: Global, job: &SkewJob) -> Result<String, AllocError> {
    let captures = files(alloc, &job.captures)?;
    let sdp = job.sdp.as_str();
    let (media, pair) = (job.media, job.pair);
    format!(in alloc; "skew {sdp} {media} {pair}:{captures}")
}

/// The fields of a `scan`.
fn shown_scan(alloc: Global, job: &ScanJob) -> Result<String, AllocError> {
    let (capture, form) = (job.capture.as_str(), job.form);
    format!(in alloc; "scan {form:?}: {capture}")
}

/// The fields of a `series`.
fn shown_series(alloc: Global, job: &SeriesJob) -> Result<String, AllocError> {
    let (sdp, media, frames) = (job.flow.sdp.as_str(), job.flow.media, job.frames);
    let options = shown_options(alloc, job.flow.options)?;
    let inputs = shown_inputs(alloc, job.flow.joined, &job.flow.captures)?;
    format!(in alloc; "series {sdp} {media} {options} {frames}{inputs}")
}

/// The fields of a `measure` or a `page`.
fn shown_capture(alloc: Global, command: &str, job: &CaptureJob) -> Result<String, AllocError> {
    let sdp = job.sdp.as_str();
    let options = shown_options(alloc, job.options)?;
    let only = shown_only(alloc, job.media)?;
    let inputs = shown_inputs(alloc, job.joined, &job.captures)?;
    format!(in alloc; "{command} {sdp} {options}{only}{inputs}")
}

/// The fields of an `explain`.
fn shown_explain(alloc: Global, job: &ExplainJob) -> Result<String, AllocError> {
    let flows = shown_capture(alloc, "explain", &job.flows)?;
    if job.json {
        format!(in alloc; "{flows} as JSON")
    } else {
        Ok(flows)
    }
}

/// The fields of a `watch`.
fn shown_watch(alloc: Global, job: &WatchJob) -> Result<String, AllocError> {
    let flows = shown_capture(alloc, "watch", &job.flows)?;
    let (every, json) = (job.every, job.json);
    format!(in alloc; "{flows} every {every:?} {json}")
}

/// The fields of an `sdp`.
fn shown_sdp(alloc: Global, job: &SdpJob) -> Result<String, AllocError> {
    let (sdp, json) = (job.sdp.as_str(), job.json);
    format!(in alloc; "sdp {sdp} {json}")
}

/// The command that help is asked about.
fn shown_help(alloc: Global, command: Option<Command>) -> Result<String, AllocError> {
    format!(in alloc; "help {command:?}")
}

/// The fields of a request: file names, then numbers, then flags, then captures.
fn shown(alloc: Global, request: &Request) -> Result<String, AllocError> {
    match request {
        Request::Check(job) => shown_check(alloc, job),
        Request::Verify(job) => shown_verify(alloc, job),
        Request::VerifyReport(job) => shown_report(alloc, job),
        Request::SelfTest(job) => shown_self_test(alloc, job),
        Request::Window(job) => shown_window(alloc, job),
        Request::Shape(job) => shown_shape(alloc, job),
        Request::Skew(job) => shown_skew(alloc, job),
        Request::Scan(job) => shown_scan(alloc, job),
        Request::Measure(job) => shown_capture(alloc, "measure", job),
        Request::Series(job) => shown_series(alloc, job),
        Request::Sdp(job) => shown_sdp(alloc, job),
        Request::Page(job) => shown_capture(alloc, "page", job),
        Request::Explain(job) => shown_explain(alloc, job),
        Request::Watch(job) => shown_watch(alloc, job),
        Request::Help(command) => shown_help(alloc, *command),
    }
}

// The request that arguments are read as, or the error.
fn read(alloc: Global, words: &[String]) -> Result<String, AllocError> {
    match read_words(alloc, words) {
        Ok(request) => shown(alloc, &request),
        Err(WordFault::Usage) => String::from_str(alloc, "Usage"),
        Err(WordFault::OutOfMemory) => String::from_str(alloc, "OutOfMemory"),
    }
}

// The arguments are a usage error.
fn are_none(rt: &impl Abort, alloc: Global, words: &[String]) {
    same(rt, &read_words(alloc, words).err(), &Some(WordFault::Usage));
}

#[test]
fn no_words(rt: HostRuntime) {
    are_none(&rt, rt.alloc(), &[]);
}

// The arguments of a line are read as this request.
fn is_read(rt: &impl Abort, alloc: Global, line: &str, want: &str) -> Result<(), AllocError> {
    let words = words_of(alloc, line)?;
    let got = read(alloc, &words)?;
    same_at(rt, &line, &got.as_str(), &want);
    Ok(())
}

// Each row has a command line and the request that it is read as. The rows are one text, since a proof would take a
// list of them apart.
fn are_read(rt: &impl Abort, alloc: Global, rows: &str) -> Result<(), AllocError> {
    for row in rows.lines() {
        let (line, want) = row.split_once(" => ").unwrap_or((row, ""));
        is_read(rt, alloc, line, want)?;
    }
    Ok(())
}

static ROWS: &str = concat!(
    // both forms of an option, in any order, and after names
    "check|--sdp|p|c => check p 4 0 false false: c\n",
    "check|--sdp=p|c => check p 4 0 false false: c\n",
    "check|c|--sdp|p => check p 4 0 false false: c\n",
    "check|c|--sdp=p|d => check p 4 0 false false: c d\n",
    "check|--sdp=a=b|c => check a=b 4 0 false false: c\n",
    "check|--sdp|a=b|c => check a=b 4 0 false false: c\n",
    "check|--sdp=--x|c => check --x 4 0 false false: c\n",
    "check|--sdp=-|c => check - 4 0 false false: c\n",
    "check|--sdp|-|- => check - 4 0 false false: -\n",
    "check|--sdp|check|check => check check 4 0 false false: check\n",
    // `--`
    "check|--sdp|p|--|c => check p 4 0 false false: c\n",
    "check|--sdp|p|--|--json => check p 4 0 false false: --json\n",
    "check|--sdp|p|--|--|-h => check p 4 0 false false: -- -h\n",
    "check|--sdp|p|c|--|--sdp|d => check p 4 0 false false: c --sdp d\n",
    "check|--sdp|p|c|-- => check p 4 0 false false: c\n",
    "check|--sdp|p|-- => Usage\n",
    "check|--|--sdp|p|c => Usage\n",
    "check|--sdp|--|p|c => Usage\n",
    // a value of the wrong form
    "check|--sdp|-p|c => Usage\n",
    "check|--sdp|--json|c => Usage\n",
    "check|c|--sdp => Usage\n",
    "check|--sdp=|c => Usage\n",
    "check|--sdp||c => Usage\n",
    "check|--sdp|p| => Usage\n",
    // an option that stands twice
    "check|--sdp|p|--sdp|p|c => Usage\n",
    "check|--sdp=p|c|--sdp=q => Usage\n",
    "check|--sdp|p|--serial|--serial|c => Usage\n",
    "check|--sdp|p|--json|c|--json => Usage\n",
    "check|--sdp|p|--joined|--joined|c => Usage\n",
    // flags
    "check|--sdp|p|--serial|c => check p 0 0 false false: c\n",
    "check|--sdp|p|--json|c => check p 4 0 true false: c\n",
    "check|--sdp|p|--joined|c|d => check p 4 0 false true: c d\n",
    "check|--json|--joined|--serial|c|--sdp|p => check p 0 0 true true: c\n",
    "check|--sdp|p|--serial=|c => Usage\n",
    "check|--sdp|p|--serial=true|c => Usage\n",
    "check|--sdp|p|--serial|true|c => check p 0 0 false false: true c\n",
    // options that the command does not have
    "check|--sdp|p|--list|c => Usage\n",
    "check|--sdp|p|--ser|c => Usage\n",
    "check|--sd|p|c => Usage\n",
    "check|--SDP|p|c => Usage\n",
    "check|-sdp|p|c => Usage\n",
    "check|--sdp|p|---json|c => Usage\n",
    "check|--sdp|p|--=x|c => Usage\n",
    "check|--sdp|p|--names|c => Usage\n",
    "check|--sdp|p|-é|c => Usage\n",
    "check|--sdp|p|--help|c => Usage\n",
    "check|--sdp|p|-h|c => Usage\n",
    "check|--sdp|p|--version|c => Usage\n",
    "check|--sdp|p|-V|c => Usage\n",
    "check|help => Usage\n",
    // commands
    " => Usage\n",
    "judge => Usage\n",
    "--help => Usage\n",
    "--version => Usage\n",
    "-h => Usage\n",
    "Check|--sdp|p|c => Usage\n",
    "chec|--sdp|p|c => Usage\n",
    "--sdp|p|check|c => Usage\n",
    "check => Usage\n",
    // numbers
    "check|--sdp|p|--workers|1|c => check p 1 0 false false: c\n",
    "check|--sdp|p|--workers=16|c => check p 16 0 false false: c\n",
    "check|--sdp|p|--workers|0|c => Usage\n",
    "check|--sdp|p|--workers|17|c => Usage\n",
    "check|--sdp|p|--workers|00000000000000000002|c => check p 2 0 false false: c\n",
    "check|--sdp|p|--workers|000000000000000000002|c => Usage\n",
    "check|--sdp|p|--workers|+2|c => Usage\n",
    "check|--sdp|p|--workers=-2|c => Usage\n",
    "check|--sdp|p|--workers=|c => Usage\n",
    "check|--sdp|p|--workers|2 |c => Usage\n",
    "check|--sdp|p|--workers|0x2|c => Usage\n",
    "check|--sdp|p|--tai|0|c => check p 4 0 false false: c\n",
    "check|--sdp|p|--tai|37|c => check p 4 37 false false: c\n",
    "check|--sdp|p|--tai|1000|c => check p 4 1000 false false: c\n",
    "check|--sdp|p|--tai|1001|c => Usage\n",
    "check|--sdp|p|--tai|18446744073709551616|c => Usage\n",
    "check|--sdp|p|--delay|0|c => check p 4 0 false false: c\n",
    "check|--sdp|p|--delay|999999999|--tai|1|c => check p 4 1 less 999999999 false false: c\n",
    "check|--sdp|p|--delay=00000000000000000001|c => check p 4 0 less 1 false false: c\n",
    "check|--sdp|p|--delay|1000000000|c => Usage\n",
    "check|--sdp|p|--delay|1|--delay|1|c => Usage\n",
    "check|--sdp|p|--delay=-1|c => Usage\n",
    "check|--seq16|--sdp|p|c => check p 4 0 counted false false: c\n",
    "check|--seq16|--delay=7|--tai=37|--sdp|p|c => check p 4 37 less 7 counted false false: c\n",
    "check|--sdp|p|--seq16=1|c => Usage\n",
    "check|--sdp|p|--seq16|--seq16|c => Usage\n",
    "check|--sdp|p|--media|1|c => check p 4 0 false false media 0: c\n",
    "check|--joined|--media=64|--sdp|p|c|d => check p 4 0 false true media 63: c d\n",
    "check|--sdp|p|--media|0|c => Usage\n",
    "check|--sdp|p|--media|65|c => Usage\n",
    "check|--sdp|p|--media|+1|c => Usage\n",
    "check|--sdp|p|--media=|c => Usage\n",
    "check|--sdp|p|--media|1|--media|1|c => Usage\n",
    // options that exclude each other, and missing ones
    "check|--sdp|p|--workers|2|--serial|c => Usage\n",
    "check|--serial|--sdp|p|c|--workers=2 => Usage\n",
    "check|c => Usage\n",
    "check|--json|c => Usage\n",
    // file names
    "check|--sdp|p|é b => check p 4 0 false false: é b\n",
    "check|--sdp|p|a\u{7f} => Usage\n",
    "check|--sdp|p|c|c|c|c|c|c|c|c|c|c|c|c|c|c|c|c => check p 4 0 false false: c c c c c c c c c c c c c c c c\n",
    "check|--sdp|p|c|c|c|c|c|c|c|c|c|c|c|c|c|c|c|c|c => Usage\n",
    // the forms of a scan
    "scan|c => scan Lines: c\n",
    "scan|c|--json => scan Json: c\n",
    "scan|--draft|--|-c => scan Draft: -c\n",
    "scan|--json|--draft|c => Usage\n",
    "scan|--draft=x|c => Usage\n",
    "scan|--seq16|c => Usage\n",
    "scan|--joined|c|d => Usage\n",
    "scan|--media|1|c => Usage\n",
    // measure
    "measure|--sdp|p|c => measure p 0: c\n",
    "measure|c|--tai=37|--sdp=p => measure p 37: c\n",
    "measure|c|--delay=5|--seq16|--sdp=p => measure p 0 less 5 counted: c\n",
    "measure|--sdp|p|--media|1|c => measure p 0 media 0: c\n",
    "measure|--sdp|p|--media|64|c => measure p 0 media 63: c\n",
    "measure|--sdp|p|--media|65|c => Usage\n",
    "measure|--joined|--sdp|p|c|d => measure p 0 joined: c d\n",
    "measure|--joined|--sdp|p|c => measure p 0 joined: c\n",
    "measure|--joined|--sdp|p => Usage\n",
    "measure|--joined|--sdp|p|c|c|c|c|c|c|c|c|c|c|c|c|c|c|c|c => measure p 0 joined: c c c c c c c c c c c c c c c c\n",
    "measure|--joined|--sdp|p|c|c|c|c|c|c|c|c|c|c|c|c|c|c|c|c|c => Usage\n",
    "measure|--sdp|p|--tai|1001|c => Usage\n",
    "measure|--sdp|p|c|d => Usage\n",
    "measure|c => Usage\n",
    // series
    "series|--sdp|p|--media|1|c => series p 0 0 false: c\n",
    "series|--frames|c|--tai=37|--media=64|--sdp=p => series p 63 37 true: c\n",
    "series|--seq16|c|--delay=5|--media=64|--sdp=p => series p 63 0 less 5 counted false: c\n",
    "series|--sdp|p|--media|65|c => Usage\n",
    "series|--sdp|p|c => Usage\n",
    "series|--sdp|p|--media|1|--frames=1|c => Usage\n",
    "series|--sdp|p|--media|1|c|d => Usage\n",
    "series|--sdp|p|--media|1|c|--joined|d => series p 0 0 false joined: c d\n",
    "series|--sdp|p|--media|1|--joined|c|c|c|c|c|c|c|c|c|c|c|c|c|c|c|c|c => Usage\n",
    // page
    "page|--sdp|p|c => page p 0: c\n",
    "page|c|--tai=37|--sdp=p => page p 37: c\n",
    "page|c|--tai=37|--delay=1|--sdp=p|--seq16 => page p 37 less 1 counted: c\n",
    "page|--sdp|p|--json|c => Usage\n",
    "page|--sdp|p|c|d => Usage\n",
    "page|--sdp|p|--joined|c|d => page p 0 joined: c d\n",
    "page|--sdp|p|--media=2|--joined|c|d => page p 0 media 1 joined: c d\n",
    "page|--sdp|p|--media|0|c => Usage\n",
    "page|--sdp|p|--joined=1|c => Usage\n",
    // watch
    "watch|--sdp|p|c => watch p 0: c every None false\n",
    "watch|c|--tai=37|--every|25|--sdp=p|--json => watch p 37: c every Some(25) true\n",
    "watch|--sdp|p|--joined|--media=2|c|d => watch p 0 media 1 joined: c d every None false\n",
    "watch|--sdp|p|--every|0|c => Usage\n",
    "watch|--sdp|p|--every|1000001|c => Usage\n",
    "watch|--sdp|p|c|d => Usage\n",
);

// File names with a line end.
static CUT_NAMES: [&str; 2] = ["check|--sdp|p|a\nb", "check|--sdp|a\nb|c"];

// The command lines of the commands except `check`.
static OTHER_ROWS: &str = concat!(
    // verify
    "verify|--sdp|p|--media|1|--type|N|--model|Bucket|--from|20|--to|24|--count|5|--limit|4|c => verify p 0 N Bucket 20 24 5 4 0 false: c\n",
    "verify|c|--limit=18446744073709551615|--count=0|--to=1|--from=0|--model=Over|--type=NL|--media=64|--sdp=p|--tai=9 => verify p 63 NL Over 0 1 0 18446744073709551615 9 false: c\n",
    "verify|--sdp|p|--media|1|--type|N|--model|Over|--from|1|--to|1|--count|1|--limit|2|--seq16|--delay|3|c => verify p 0 N Over 1 1 1 2 0 less 3 counted false: c\n",
    "verify|--joined|--sdp|p|--media|2|--type|W|--model|Empty|--from|1|--to|1|--count|1|--limit|2|c|d => verify p 1 W Empty 1 1 1 2 0 true: c d\n",
    "verify|--sdp|p|--media|2|--type|W|--model|Empty|--from|1|--to|1|--count|1|--limit|2|c|d => Usage\n",
    "verify|--sdp|p|--media|0|--type|N|--model|Over|--from|1|--to|1|--count|1|--limit|2|c => Usage\n",
    "verify|--sdp|p|--media|65|--type|N|--model|Over|--from|1|--to|1|--count|1|--limit|2|c => Usage\n",
    "verify|--sdp|p|--media|1|--type|n|--model|Over|--from|1|--to|1|--count|1|--limit|2|c => Usage\n",
    "verify|--sdp|p|--media|1|--type|N|--model|over|--from|1|--to|1|--count|1|--limit|2|c => Usage\n",
    "verify|--sdp|p|--media|1|--type|N|--model|Over|--from|1|--to|1|--count|1|--limit|18446744073709551616|c => Usage\n",
    "verify|--sdp|p|--media|1|--type|N|--model|Over|--from|1|--to|1|--count|1|c => Usage\n",
    "verify|--sdp|p|--media|1|--type|N|--model|Over|--from|1|--to|1|--count|1|--limit|2 => Usage\n",
    "verify|--sdp|p|--media|1|--type|N|--model|Over|--from|1|--to|2|--count|3|--limit|4|c => verify p 0 N Over 1 2 3 4 0 false: c\n",
    "verify|--media|1|--type|N|--model|Over|--from|1|--to|2|--count|3|--limit|4|c => Usage\n",
    "verify|--sdp|p|--type|N|--model|Over|--from|1|--to|2|--count|3|--limit|4|c => Usage\n",
    "verify|--sdp|p|--media|1|--model|Over|--from|1|--to|2|--count|3|--limit|4|c => Usage\n",
    "verify|--sdp|p|--media|1|--type|N|--from|1|--to|2|--count|3|--limit|4|c => Usage\n",
    "verify|--sdp|p|--media|1|--type|N|--model|Over|--to|2|--count|3|--limit|4|c => Usage\n",
    "verify|--sdp|p|--media|1|--type|N|--model|Over|--from|1|--count|3|--limit|4|c => Usage\n",
    "verify|--sdp|p|--media|1|--type|N|--model|Over|--from|1|--to|2|--limit|4|c => Usage\n",
    "verify|--sdp|p|--media|1|--type|N|--model|Over|--from|18446744073709551616|--to|2|--count|3|--limit|4|c => Usage\n",
    "verify|--sdp|p|--media|1|--type|N|--model|Over|--from|1|--to|18446744073709551616|--count|3|--limit|4|c => Usage\n",
    "verify|--sdp|p|--media|1|--type|N|--model|Over|--from|1|--to|2|--count|18446744073709551616|--limit|4|c => Usage\n",
    "verify|--sdp|p|--media|1|--type|N|--model|Over|--from|1|--to|18446744073709551615|--count|3|--limit|4|c => verify p 0 N Over 1 18446744073709551615 3 4 0 false: c\n",
    "verify|--sdp|p|--media|1|--type|WW|--model|Over|--from|1|--to|2|--count|3|--limit|4|c => Usage\n",
    "verify|--sdp|p|--media|1|--type|N|--model|Linear|--from|1|--to|2|--count|3|--limit|4|c => Usage\n",
    "verify|--sdp|p|--media|1|--type|N|--model|Over|--from|1|--to|2|--count|3|--limit|4|--tai|1001|c => Usage\n",
    "verify|--sdp|p|--media|1|--type|N|--model|Over|--from|1|--to|2|--count|3|--limit|4|--json|c => Usage\n",
    "verify|--sdp|p|--media|1|--type|N|--model|Over|--from|1|--to|2|--count|3|--limit|4|--limit|4|c => Usage\n",
    "verify|--sdp|p|--media|1|--type|N|--model|Over|--from|1|--to|2|--count|3|--limit|4|--joined|c|c|c|c|c|c|c|c|c|c|c|c|c|c|c|c => verify p 0 N Over 1 2 3 4 0 true: c c c c c c c c c c c c c c c c\n",
    "verify|--sdp|p|--media|1|--type|N|--model|Over|--from|1|--to|2|--count|3|--limit|4|--joined|c|c|c|c|c|c|c|c|c|c|c|c|c|c|c|c|c => Usage\n",
    "verify|--sdp|p|--media|1|--type|N|--model|Over|--from|1|--to|2|--count|3|--limit|4|--joined => Usage\n",
    // verify-report
    "verify-report|--sdp|p|--report|r|c => report p r 0 false: c\n",
    "verify-report|--joined|--tai=5|--report=r|--sdp=p|c|d => report p r 5 true: c d\n",
    "verify-report|--delay=5|--report=r|--seq16|--sdp=p|c => report p r 0 less 5 counted false: c\n",
    "verify-report|--sdp|p|c => Usage\n",
    "verify-report|--sdp|p|--report|r|--json|c => Usage\n",
    "verify-report|--sdp|p|--report|r|c|c|c|c|c|c|c|c|c|c|c|c|c|c|c|c => report p r 0 false: c c c c c c c c c c c c c c c c\n",
    "verify-report|--sdp|p|--report|r|c|c|c|c|c|c|c|c|c|c|c|c|c|c|c|c|c => Usage\n",
    "verify-report|--sdp|p|--report|r => Usage\n",
    "verify-report|--report|r|c => Usage\n",
    "verify-report|--sdp|p|--report=|c => Usage\n",
    "verify-report|--sdp|p|--report|r|--report|r|c => Usage\n",
    "verify-report|--sdp|p|--report|r|--tai|1001|c => Usage\n",
    "verify-report|--sdp|p|--report|-|- => report p - 0 false: -\n",
    "verify-report|--sdp|p|--report|r|--media|3|c|d => report p r 0 false media 2: c d\n",
    "verify-report|--sdp|p|--report|r|--media|65|c => Usage\n",
    // selftest
    "selftest|2 => selftest 2 0\n",
    "selftest|--workers|3|20000 => selftest 20000 3\n",
    "selftest|2|3 => Usage\n",
    "selftest => Usage\n",
    "selftest|--serial|2 => Usage\n",
    "selftest|00002|--workers=16 => selftest 2 16\n",
    "selftest|--workers|17|2 => Usage\n",
    "selftest|--workers|0|2 => Usage\n",
    "selftest|+2 => Usage\n",
    "selftest|- => Usage\n",
    "selftest|--sdp|p|2 => Usage\n",
    "selftest|--|2 => selftest 2 0\n",
    // window, shape and skew
    "window|--sdp|p|--media|3|--tai|1|c => window p 2 1: c\n",
    "window|--sdp|p|--media|3|--delay|2|--seq16|c => window p 2 0 less 2 counted: c\n",
    "window|--sdp|p|--media|3|c|d => Usage\n",
    "window|--sdp|p|--media|64|c => window p 63 0: c\n",
    "window|--sdp|p|--media|0|c => Usage\n",
    "window|--sdp|p|--media|65|c => Usage\n",
    "window|--sdp|p|--media|1|--|-c => window p 0 0: -c\n",
    "window|--sdp|p|--media|1 => Usage\n",
    "window|--sdp|p|c => Usage\n",
    "window|--media|1|c => Usage\n",
    "window|--sdp|p|--media|1|--tai|1001|c => Usage\n",
    "window|--sdp|p|--media|1|--joined|c => window p 0 0 joined: c\n",
    "window|--joined|--sdp|p|--media|1|c|d => window p 0 0 joined: c d\n",
    "window|--joined|--sdp|p|--media|1|c|c|c|c|c|c|c|c|c|c|c|c|c|c|c|c => window p 0 0 joined: c c c c c c c c c c c c c c c c\n",
    "window|--joined|--sdp|p|--media|1|c|c|c|c|c|c|c|c|c|c|c|c|c|c|c|c|c => Usage\n",
    "window|--joined|--sdp|p|c|d => Usage\n",
    "shape|--sdp|p|--media|1|--type|NL|--list|c => shape p 0 NL 0 true: c\n",
    "shape|--sdp|p|--media|1|c => Usage\n",
    "shape|--tai=1000|c|--type=W|--media=2|--sdp=p => shape p 1 W 1000 false: c\n",
    "shape|--seq16|--delay=9|c|--type=W|--media=2|--sdp=p => shape p 1 W 0 less 9 counted false: c\n",
    "shape|--sdp|p|--media|1|--type|w|c => Usage\n",
    "shape|--sdp|p|--type|N|c => Usage\n",
    "shape|--media|1|--type|N|c => Usage\n",
    "shape|--sdp|p|--media|1|--type|N => Usage\n",
    "shape|--sdp|p|--media|1|--type|N|c|d => Usage\n",
    "shape|--joined|--sdp|p|--media|1|--type|N|--list|c|d => shape p 0 N 0 true joined: c d\n",
    "shape|--sdp|p|--media|1|--type|N|--list|--list|c => Usage\n",
    "shape|--sdp|p|--media|1|--type|N|--list=yes|c => Usage\n",
    "skew|--sdp|p|--media|1|--pair|2|c => skew p 0 1: c\n",
    "skew|--sdp|p|--media|1|--pair|2|c|d|e => Usage\n",
    "skew|--sdp|p|--media|64|--pair|64|c|d => skew p 63 63: c d\n",
    "skew|--sdp|p|--media|1|--pair|0|c => Usage\n",
    "skew|--sdp|p|--media|1|--pair|65|c => Usage\n",
    "skew|--sdp|p|--media|1|c => Usage\n",
    "skew|--sdp|p|--pair|1|c => Usage\n",
    "skew|--media|1|--pair|2|c => Usage\n",
    "skew|--sdp|p|--media|1|--pair|2 => Usage\n",
    "skew|--sdp|p|--media|1|--pair|2|--tai|3|c => Usage\n",
    "skew|--sdp|p|--media|1|--pair|2|--delay|3|c => Usage\n",
    "skew|--sdp|p|--media|1|--pair|2|--seq16|c => Usage\n",
    "skew|--sdp|p|--media|1|--pair|2|--joined|c|d => Usage\n",
    // explain
    "explain|--sdp|p|c => explain p 0: c\n",
    "explain|c|--json|--tai=37|--sdp=p => explain p 37: c as JSON\n",
    "explain|--seq16|--delay|5|--media|2|--sdp|p|c => explain p 0 less 5 counted media 1: c\n",
    "explain|--joined|--sdp|p|c|d => explain p 0 joined: c d\n",
    "explain|--sdp|p|c|d => Usage\n",
    "explain|--json|--json|--sdp|p|c => Usage\n",
    "explain|--serial|--sdp|p|c => Usage\n",
    "explain|c => Usage\n",
    // help
    "help => help None\n",
    "help|skew => help Some(Skew)\n",
    "help|verify-report => help Some(VerifyReport)\n",
    "help|series => help Some(Series)\n",
    "help|page => help Some(Page)\n",
    "help|explain => help Some(Explain)\n",
    "help|watch => help Some(Watch)\n",
    "help|nothing => Usage\n",
    "help|help => Usage\n",
    "help| => Usage\n",
    "help|check|more => Usage\n",
    "help|-- => Usage\n",
    "help|--|check => Usage\n",
    "help|--json => Usage\n",
    "check|help => Usage\n",
    "--help => Usage\n",
    "Help => Usage\n",
);

#[test]
fn lines(rt: HostRuntime) -> Result<(), AllocError> {
    are_read(&rt, rt.alloc(), ROWS)?;
    for line in &CUT_NAMES {
        is_read(&rt, rt.alloc(), line, "Usage")?;
    }
    Ok(())
}

#[test]
fn lines_of_other_commands(rt: HostRuntime) -> Result<(), AllocError> {
    are_read(&rt, rt.alloc(), OTHER_ROWS)
}

// A `check` of a capture with a name of this many letters.
fn long_name(alloc: Global, letters: u32) -> Result<Vec<String>, AllocError> {
    let mut line = String::from_str(alloc, "check|--sdp|p|")?;
    for _ in 0..letters {
        line.push_str("c")?;
    }
    words_of(alloc, &line)
}

#[test]
fn long_names(rt: HostRuntime) -> Result<(), Fail> {
    let words = long_name(rt.alloc(), 4096)?;
    assert!(rt; read_words(rt.alloc(), &words).is_ok());
    let words = long_name(rt.alloc(), 4097)?;
    are_none(&rt, rt.alloc(), &words);
    Ok(())
}
