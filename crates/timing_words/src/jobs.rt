//! The jobs of the commands, made from parsed arguments. Each function returns `Usage` if an
//! argument is missing or invalid, and `OutOfMemory` if memory runs out.

ghost use Rattle.std.specs.Prelude.{◌≡◌, IfErr, IfOk, None, Some, ◌<◌, ◌≤◌, length};
ghost use Rattle.clap.specs.Words.{found_of};
ghost use Rattle.timing_base.specs.Jobs.{AreInputs};
ghost use Rattle.timing_words.specs.Answers.{Gives};
ghost use Rattle.timing_words.specs.Clap.{found_stands};
ghost use Rattle.timing_words.specs.Request as words;

use crate::command::NAMES;
use crate::line::WordFault;
use crate::values::{
    check_workers, count, delay, every, file_name, file_names, inputs, kind_named, media,
    model_named, number, only_media, scan_form, sole, tai, test_workers,
};
use clap::ArgMatches;
use std::alloc::Global;
use timing_base::{
    CaptureJob, CheckJob, ExplainJob, FailProof, FileName, FlowJob, FlowOptions, Items, ReportJob,
    ScanJob, SdpJob, SelfTestJob, SeriesJob, ShapeJob, Shift, SkewJob, VerifyJob, WatchJob,
};

/// Returns the value of a required option.
fn given<'a>(matches: &ArgMatches<'a>, name: &str) -> Result<&'a str, WordFault>
    ensures given { IfOk result (λ s.
        (found_stands (found_of matches.now)).value name.now ≡ Some s.now) }
    ensures missing { IfErr result (λ _.
        (found_stands (found_of matches.now)).value name.now ≡ None) }
{
    matches.get_str(name).ok_or(WordFault::Usage)
}

/// Returns the value of a required option as a file name.
fn given_file(alloc: Global, matches: &ArgMatches<'_>, name: &str) -> Result<FileName, WordFault>
    ensures { Gives (words.given name.now (found_stands (found_of matches.now)) words.file_name) result }
{
    file_name(alloc, given(matches, name)?)
}

/// Returns the value of a required option as a media, counted from 0.
fn given_media(matches: &ArgMatches<'_>, name: &str) -> Result<u32, WordFault>
    ensures gives { Gives (words.given name.now (found_stands (found_of matches.now)) words.media)
        result }
    ensures few { IfOk result (λ n. n < 64) }
{
    media(given(matches, name)?)
}

/// Returns the positional arguments as 1 to `most` file names.
fn captures(
    alloc: Global,
    matches: &ArgMatches<'_>,
    most: usize,
) -> Result<Items<FileName>, WordFault>
    ensures gives { Gives (words.file_names most (found_stands (found_of matches.now)).names)
        result }
    ensures some { IfOk result (λ l. 1 ≤ length l) }
    ensures few { IfOk result (λ l. length l ≤ most) }
{
    match matches.get_raw(NAMES) {
        Some(names) => file_names(alloc, names, most),
        None => Err(WordFault::Usage),
    }
}

/// Returns the positional arguments as one file name, or as 1 to 16 if the captures are joined.
fn capture_or_joined(
    alloc: Global,
    matches: &ArgMatches<'_>,
    joined: bool,
) -> Result<Items<FileName>, WordFault>
    ensures gives { Gives (words.inputs joined (found_stands (found_of matches.now)).names) result }
    ensures are { IfOk result (AreInputs joined) }
{
    match matches.get_raw(NAMES) {
        Some(names) => inputs(alloc, names, joined),
        None => Err(WordFault::Usage),
    }
}

/// Returns the only positional argument.
fn sole_name<'a>(matches: &ArgMatches<'a>) -> Result<&'a str, WordFault>
    ensures one { IfOk result (λ s.
        words.sole (found_stands (found_of matches.now)).names ≡ Some s.now) }
    ensures other { IfErr result (λ _.
        words.sole (found_stands (found_of matches.now)).names ≡ None) }
{
    match matches.get_raw(NAMES) {
        Some(names) => sole(names),
        None => Err(WordFault::Usage),
    }
}

/// Returns how the packets of a flow are timed and numbered.
fn flow_options(matches: &ArgMatches<'_>) -> Result<FlowOptions, WordFault>
    ensures { Gives (words.options_asked (found_stands (found_of matches.now))) result }
{
    let tai = tai(matches.get_str("tai"))?;
    let delay = delay(matches.get_str("delay"))?;
    Ok(FlowOptions {
        shift: Shift { tai, delay },
        seq16: matches.contains_id("seq16"),
    })
}

/// Returns the job of `check`.
pub(crate) fn check_job(alloc: Global, matches: &ArgMatches<'_>) -> Result<CheckJob, WordFault>
    ensures { Gives (words.check_asked (found_stands (found_of matches.now))) result }
{
    let sdp = given_file(alloc, matches, "sdp")?;
    let serial = matches.contains_id("serial");
    let workers = check_workers(matches.get_str("workers"), serial)?;
    let options = flow_options(matches)?;
    let media = only_media(matches.get_str("media"))?;
    let captures = captures(alloc, matches, 16)?;
    Ok(CheckJob {
        sdp,
        captures,
        workers,
        options,
        json: matches.contains_id("json"),
        joined: matches.contains_id("joined"),
        media,
    })
}

/// Returns the violation that `verify` is to check.
fn fail_proof(matches: &ArgMatches<'_>) -> Result<FailProof, WordFault>
    ensures { Gives (words.proof_asked (found_stands (found_of matches.now))) result }
{
    Ok(FailProof {
        model: model_named(given(matches, "model")?)?,
        from: count(given(matches, "from")?)?,
        to: count(given(matches, "to")?)?,
        count: count(given(matches, "count")?)?,
        limit: count(given(matches, "limit")?)?,
    })
}

/// Returns the job of `verify`.
pub(crate) fn verify_job(alloc: Global, matches: &ArgMatches<'_>) -> Result<VerifyJob, WordFault>
    ensures { Gives (words.verify_asked (found_stands (found_of matches.now))) result }
{
    let sdp = given_file(alloc, matches, "sdp")?;
    let media = given_media(matches, "media")?;
    let kind = kind_named(given(matches, "type")?)?;
    let proof = fail_proof(matches)?;
    let options = flow_options(matches)?;
    let joined = matches.contains_id("joined");
    let captures = capture_or_joined(alloc, matches, joined)?;
    Ok(VerifyJob {
        sdp,
        media,
        kind,
        proof,
        options,
        captures,
        joined,
    })
}

/// Returns the job of `verify-report`.
pub(crate) fn report_job(alloc: Global, matches: &ArgMatches<'_>) -> Result<ReportJob, WordFault>
    ensures { Gives (words.report_asked (found_stands (found_of matches.now))) result }
{
    let sdp = given_file(alloc, matches, "sdp")?;
    let report = given_file(alloc, matches, "report")?;
    let options = flow_options(matches)?;
    let media = only_media(matches.get_str("media"))?;
    let captures = captures(alloc, matches, 16)?;
    Ok(ReportJob {
        sdp,
        report,
        options,
        captures,
        joined: matches.contains_id("joined"),
        media,
    })
}

/// Returns the job of `selftest`.
pub(crate) fn self_test_job(matches: &ArgMatches<'_>) -> Result<SelfTestJob, WordFault>
    ensures { Gives (words.self_test_asked (found_stands (found_of matches.now))) result }
{
    let frames = number(sole_name(matches)?, 2, 20_000)? as u32;
    let workers = test_workers(matches.get_str("workers"))?;
    Ok(SelfTestJob { frames, workers })
}

/// Returns the job of `window`, and the flow of `shape` and `series`.
pub(crate) fn flow_job(alloc: Global, matches: &ArgMatches<'_>) -> Result<FlowJob, WordFault>
    ensures { Gives (words.flow_asked (found_stands (found_of matches.now))) result }
{
    let sdp = given_file(alloc, matches, "sdp")?;
    let media = given_media(matches, "media")?;
    let options = flow_options(matches)?;
    let joined = matches.contains_id("joined");
    let captures = capture_or_joined(alloc, matches, joined)?;
    Ok(FlowJob {
        sdp,
        media,
        options,
        captures,
        joined,
    })
}

/// Returns the job of `shape`.
pub(crate) fn shape_job(alloc: Global, matches: &ArgMatches<'_>) -> Result<ShapeJob, WordFault>
    ensures { Gives (words.shape_asked (found_stands (found_of matches.now))) result }
{
    let flow = flow_job(alloc, matches)?;
    let kind = kind_named(given(matches, "type")?)?;
    Ok(ShapeJob {
        flow,
        kind,
        list: matches.contains_id("list"),
    })
}

/// Returns the job of `skew`.
pub(crate) fn skew_job(alloc: Global, matches: &ArgMatches<'_>) -> Result<SkewJob, WordFault>
    ensures { Gives (words.skew_asked (found_stands (found_of matches.now))) result }
{
    let sdp = given_file(alloc, matches, "sdp")?;
    let first = given_media(matches, "media")?;
    let second = given_media(matches, "pair")?;
    let captures = captures(alloc, matches, 2)?;
    Ok(SkewJob {
        sdp,
        media: first,
        pair: second,
        captures,
    })
}

/// Returns the job of `scan`.
pub(crate) fn scan_job(alloc: Global, matches: &ArgMatches<'_>) -> Result<ScanJob, WordFault>
    ensures { Gives (words.scan_asked (found_stands (found_of matches.now))) result }
{
    let form = scan_form(matches.contains_id("json"), matches.contains_id("draft"))?;
    let capture = file_name(alloc, sole_name(matches)?)?;
    Ok(ScanJob { capture, form })
}

/// Returns the job of `measure` or `page`, and the flows of `explain` or `watch`.
pub(crate) fn capture_job(alloc: Global, matches: &ArgMatches<'_>) -> Result<CaptureJob, WordFault>
    ensures { Gives (words.capture_asked (found_stands (found_of matches.now))) result }
{
    let sdp = given_file(alloc, matches, "sdp")?;
    let options = flow_options(matches)?;
    let media = only_media(matches.get_str("media"))?;
    let joined = matches.contains_id("joined");
    let captures = capture_or_joined(alloc, matches, joined)?;
    Ok(CaptureJob {
        sdp,
        options,
        captures,
        joined,
        media,
    })
}

/// Returns the job of `explain`.
pub(crate) fn explain_job(alloc: Global, matches: &ArgMatches<'_>) -> Result<ExplainJob, WordFault>
    ensures { Gives (words.explain_asked (found_stands (found_of matches.now))) result }
{
    let flows = capture_job(alloc, matches)?;
    let json = matches.contains_id("json");
    Ok(ExplainJob { flows, json })
}

/// Returns the job of `watch`.
pub(crate) fn watch_job(alloc: Global, matches: &ArgMatches<'_>) -> Result<WatchJob, WordFault>
    ensures { Gives (words.watch_asked (found_stands (found_of matches.now))) result }
{
    let flows = capture_job(alloc, matches)?;
    let every = every(matches.get_str("every"))?;
    let json = matches.contains_id("json");
    Ok(WatchJob { flows, every, json })
}

/// Returns the job of `series`.
pub(crate) fn series_job(alloc: Global, matches: &ArgMatches<'_>) -> Result<SeriesJob, WordFault>
    ensures { Gives (words.series_asked (found_stands (found_of matches.now))) result }
{
    let flow = flow_job(alloc, matches)?;
    let frames = matches.contains_id("frames");
    Ok(SeriesJob { flow, frames })
}

/// Returns the job of `sdp`.
pub(crate) fn sdp_job(alloc: Global, matches: &ArgMatches<'_>) -> Result<SdpJob, WordFault>
    ensures { Gives (words.sdp_asked (found_stands (found_of matches.now))) result }
{
    let sdp = file_name(alloc, sole_name(matches)?)?;
    let json = matches.contains_id("json");
    Ok(SdpJob { sdp, json })
}
