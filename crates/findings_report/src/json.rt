//! Writes the findings as JSON.

ghost use Rattle.std.specs.Prelude.{◌≡◌, ◌++◌, ◌<◌, ◌∷◌, [], IfOk, codes, length, map, string_bytes};
ghost use Rattle.serde_json.specs.Data.{put as with_member, string};
ghost use Rattle.serde_json.specs.View.{view};
ghost use Rattle.timing_base.specs.Targets.{target_text};
ghost use Rattle.timing_report.specs.json_report.Json.{file_data, file_members, files_data, list_of, object_of};
ghost use Rattle.timing_report.specs.json_report.Members.{Puts, members};
ghost use Rattle.findings_report.specs.Flows.{AreOfSession};
ghost use Rattle.findings_report.specs.Json.{absent_members, all_data, buffer_members, burst_counts, burst_times, capture_members, class_members, count_members, explained_data, explained_json, finding_data, flow_data, media_members, number_members, numbers_members, offsets_data, pass_members, passed_over_members, place_members, rate_members, refusal_members, runs_data, runs_members, signed, steps_members};
ghost use Rattle.flow_findings.specs.Words.{finding_name};

use crate::sentences::RateText;
use capture_scan::PassedOver;
use flow_findings::{
    BrokenBuffer, DescribedRate, Explained, ExplainedRun, Finding, Offsets, Refusal, RunCounts,
    Steps,
};
use flow_measure::Place;
use serde_json::Value;
use std::alloc::{AllocError as OutOfMemory, Global};
use timing_base::{FileName, FileNote, FlowKey, Media, Session, Target};
use timing_report::json_report::Object;
use timing_report::{NoteText, PacketFaultText, class_name, declared_name, media_of};

/// Adds a whole number that may be below 0.
fn put_signed(object: &mut Object, key: &str, number: i64) -> Result<(), OutOfMemory>
    ensures { IfOk result (λ _. members object.new ≡ with_member key.now (signed number) (members object.old)) }
{
    object.put(key, Value::from(number))
}

/// Adds a number, if there is one.
fn put_number(object: &mut Object, key: &str, number: Option<u64>) -> Result<(), OutOfMemory>
    ensures { IfOk result (λ _. Puts (number_members key.now number) object.old object.new) }
{
    match number {
        Some(number) => object.put_count(key, number),
        None => Ok(()),
    }
}

/// Adds an offset in microseconds, if there is one.
fn put_micros(object: &mut Object, key: &str, micros: Option<u32>) -> Result<(), OutOfMemory>
    ensures { IfOk result (λ _. Puts (number_members key.now micros) object.old object.new) }
{
    match micros {
        Some(micros) => object.put_count(key, u64::from(micros)),
        None => Ok(()),
    }
}

/// Adds a count, if it isn't 0.
fn put_some(object: &mut Object, key: &str, count: u64) -> Result<(), OutOfMemory>
    ensures { IfOk result (λ _. Puts (count_members key.now count) object.old object.new) }
{
    if count == 0 {
        Ok(())
    } else {
        object.put_count(key, count)
    }
}

/// Returns the JSON of the classes of frames without a target.
fn passed_over_value(alloc: Global, classes: &PassedOver) -> Result<Value, OutOfMemory>
    ensures { IfOk result (λ value. view value ≡ object_of (passed_over_members classes.now)) }
{
    let mut object = Object::new(alloc);
    put_some(&mut object, "broken", classes.broken)?;
    put_some(&mut object, "empty", classes.empty)?;
    put_some(&mut object, "fragment", classes.fragment)?;
    put_some(&mut object, "ipv6", classes.ipv6)?;
    put_some(&mut object, "not_udp", classes.not_udp)?;
    put_some(&mut object, "other", classes.other)?;
    put_some(&mut object, "tags", classes.tags)?;
    Ok(object.into_value())
}

/// Adds an address and a port.
fn put_target(object: &mut Object, alloc: Global, target: Target) -> Result<(), OutOfMemory>
    ensures { IfOk result (λ _. members object.new
        ≡ with_member (codes "target") (string (target_text target)) (members object.old)) }
{
    object.put("target", Value::from(format!(in alloc; "{target}")?))
}

/// Adds why a flow is refused.
fn put_refusal(object: &mut Object, alloc: Global, cause: Refusal) -> Result<(), OutOfMemory>
    ensures { IfOk result (λ _. Puts (refusal_members cause) object.old object.new) }
{
    match cause {
        Refusal::Fault(fault) => {
            let fault = PacketFaultText { fault };
            object.put("fault", Value::from(format!(in alloc; "{fault}")?))
        }
        Refusal::Gap { expected, got } => {
            object.put_count("expected", u64::from(expected))?;
            object.put_count("got", u64::from(got))
        }
    }
}

/// Adds the least and the greatest step of the RTP timestamp, if there is one.
fn put_steps(object: &mut Object, steps: Option<Steps>) -> Result<(), OutOfMemory>
    ensures { IfOk result (λ _. Puts (steps_members steps) object.old object.new) }
{
    match steps {
        None => Ok(()),
        Some(steps) => {
            put_signed(object, "step_greatest", steps.greatest)?;
            put_signed(object, "step_least", steps.least)
        }
    }
}

/// Adds the numbers of `rate`.
fn put_rate(
    object: &mut Object,
    alloc: Global,
    described: DescribedRate,
    steps: Option<Steps>,
    period: Option<u64>,
) -> Result<(), OutOfMemory>
    ensures { IfOk result (λ _. Puts (rate_members described steps period) object.old object.new) }
{
    let rate = RateText { rate: described };
    object.put("described", Value::from(format!(in alloc; "{rate}")?))?;
    put_number(object, "period", period)?;
    put_steps(object, steps)
}

/// Adds the place in the capture of a packet.
fn put_place(object: &mut Object, place: Place) -> Result<(), OutOfMemory>
    ensures { IfOk result (λ _. Puts (place_members place) object.old object.new) }
{
    object.put_count("record", place.record)?;
    object.put_count("stamp", place.stamp)
}

/// Returns the JSON of the offsets that would serve.
fn offsets_value(alloc: Global, offsets: Offsets) -> Result<Value, OutOfMemory>
    ensures { IfOk result (λ value. view value ≡ offsets_data offsets) }
{
    let mut object = Object::new(alloc);
    put_micros(&mut object, "greatest", offsets.greatest)?;
    put_micros(&mut object, "least", offsets.least)?;
    Ok(object.into_value())
}

/// Adds the numbers of `phase` and `pacing`.
fn put_buffer(object: &mut Object, alloc: Global, buffer: &BrokenBuffer) -> Result<(), OutOfMemory>
    ensures { IfOk result (λ _. Puts (buffer_members buffer.now) object.old object.new) }
{
    object.put_count("above", buffer.above)?;
    object.put_count("late", buffer.late)?;
    put_signed(object, "slack", buffer.slack)?;
    object.put_count("target", buffer.target)?;
    object.put("troff", offsets_value(alloc, buffer.offsets)?)
}

/// Adds the numbers of `absent`.
fn put_absent(
    object: &mut Object,
    alloc: Global,
    passed_over: &PassedOver,
    streams: u64,
) -> Result<(), OutOfMemory>
    ensures { IfOk result (λ _. Puts (absent_members passed_over.now streams) object.old object.new) }
{
    let passed_over = passed_over_value(alloc, passed_over)?;
    object.put("passed_over", passed_over)?;
    object.put_count("streams", streams)
}

/// Adds the counts of `burst`.
fn put_burst_counts(
    object: &mut Object,
    greatest: u64,
    limit: u64,
    packets: u64,
    groups: u64,
) -> Result<(), OutOfMemory>
    ensures { IfOk result (λ _. Puts (burst_counts greatest limit packets groups) object.old object.new) }
{
    object.put_count("greatest", greatest)?;
    object.put_count("groups", groups)?;
    object.put_count("limit", limit)?;
    object.put_count("packets", packets)
}

/// Adds the times of `burst`.
fn put_burst_times(
    object: &mut Object,
    first: Place,
    span: u64,
    period: u64,
) -> Result<(), OutOfMemory>
    ensures { IfOk result (λ _. Puts (burst_times first span period) object.old object.new) }
{
    object.put_count("period", period)?;
    object.put_count("span", span)?;
    put_place(object, first)
}

/// Adds the numbers of `pass`.
fn put_pass(
    object: &mut Object,
    bucket: u64,
    bucket_limit: u64,
    buffer: u64,
    buffer_limit: u64,
    slack: i64,
) -> Result<(), OutOfMemory>
    ensures { IfOk result (λ _. Puts (pass_members bucket bucket_limit buffer buffer_limit slack)
        object.old object.new) }
{
    object.put_count("bucket", bucket)?;
    object.put_count("bucket_limit", bucket_limit)?;
    object.put_count("buffer", buffer)?;
    object.put_count("buffer_limit", buffer_limit)?;
    put_signed(object, "slack", slack)
}

/// Adds the numbers of a finding.
fn put_numbers(object: &mut Object, alloc: Global, finding: &Finding) -> Result<(), OutOfMemory>
    ensures { IfOk result (λ _. Puts (numbers_members finding.now) object.old object.new) }
{
    match finding {
        Finding::Elsewhere { target, packets } => {
            object.put_count("packets", *packets)?;
            put_target(object, alloc, *target)
        }
        Finding::Absent {
            passed_over,
            streams,
        } => put_absent(object, alloc, passed_over, *streams),
        Finding::Refused { rec, cause } => {
            object.put_count("record", *rec)?;
            put_refusal(object, alloc, *cause)
        }
        Finding::Unmarked { packets, markers } => {
            object.put_count("packets", *packets)?;
            put_number(object, "markers", *markers)
        }
        Finding::Wrap { gaps } => object.put_count("gaps", *gaps),
        Finding::Loss { gaps, missing } => {
            object.put_count("gaps", *gaps)?;
            object.put_count("missing", *missing)
        }
        Finding::Order { gaps } => object.put_count("gaps", *gaps),
        Finding::Rate {
            described,
            steps,
            period,
        } => put_rate(object, alloc, *described, *steps, *period),
        Finding::Utc { offset } => put_signed(object, "offset", *offset),
        Finding::TaiTwice { offset } => put_signed(object, "offset", *offset),
        Finding::Burst {
            greatest,
            limit,
            packets,
            groups,
            first,
            span,
            period,
        } => {
            put_burst_counts(object, *greatest, *limit, *packets, *groups)?;
            put_burst_times(object, *first, *span, *period)
        }
        Finding::Phase(buffer) => put_buffer(object, alloc, buffer),
        Finding::Pacing(buffer) => put_buffer(object, alloc, buffer),
        Finding::Drift { ppm10 } => put_signed(object, "ppm10", *ppm10),
        Finding::Rare {
            broken,
            groups,
            first,
        } => {
            object.put_count("broken", *broken)?;
            object.put_count("first", *first)?;
            object.put_count("groups", *groups)
        }
        Finding::Pass {
            bucket,
            bucket_limit,
            buffer,
            buffer_limit,
            slack,
        } => put_pass(
            object,
            *bucket,
            *bucket_limit,
            *buffer,
            *buffer_limit,
            *slack,
        ),
        Finding::Microseconds { drain } => object.put_count("drain", *drain),
        Finding::Unlocked { offset } => put_signed(object, "offset", *offset),
    }
}

/// Returns the JSON of a finding.
fn finding_value(alloc: Global, finding: &Finding) -> Result<Value, OutOfMemory>
    ensures { IfOk result (λ value. view value ≡ finding_data finding.now) }
{
    let mut object = Object::new(alloc);
    object.put_text("finding", finding.name())?;
    put_numbers(&mut object, alloc, finding)?;
    Ok(object.into_value())
}

/// Returns the JSON of findings.
fn finding_values(alloc: Global, findings: &[Finding]) -> Result<Value, OutOfMemory>
    ensures { IfOk result (λ value. view value ≡ list_of (map finding_data findings.now)) }
{
    let mut values = Vec::with_capacity(alloc, findings.len())?;
    for finding in findings {
        values.push(finding_value(alloc, finding)?)?;
    }
    Ok(Value::Array(values))
}

/// Adds the class of the run that is shown, if there is one.
fn put_class(object: &mut Object, shown: Option<ExplainedRun>) -> Result<(), OutOfMemory>
    ensures { IfOk result (λ _. Puts (class_members shown) object.old object.new) }
{
    match shown {
        None => Ok(()),
        Some(run) => object.put_text("class", class_name(run.class)),
    }
}

/// Returns the JSON of the counts of runs.
fn runs_value(alloc: Global, runs: RunCounts) -> Result<Value, OutOfMemory>
    ensures { IfOk result (λ value. view value ≡ runs_data runs) }
{
    let mut object = Object::new(alloc);
    object.put_count("all", runs.all)?;
    object.put_count("judged", runs.judged)?;
    Ok(object.into_value())
}

/// Adds the counts of runs, if a packet came.
fn put_runs(object: &mut Object, alloc: Global, runs: Option<RunCounts>) -> Result<(), OutOfMemory>
    ensures { IfOk result (λ _. Puts (runs_members runs) object.old object.new) }
{
    match runs {
        None => Ok(()),
        Some(runs) => object.put("runs", runs_value(alloc, runs)?),
    }
}

/// Adds the number, the target and the declared type of the media with this index, from 0.
fn put_media(
    object: &mut Object,
    alloc: Global,
    media: &Media,
    index: u32,
) -> Result<(), OutOfMemory>
    ensures { IfOk result (λ _. Puts (media_members media.now index) object.old object.new) }
{
    object.put_text("declared", declared_name(media.declared))?;
    object.put_count("media", u64::from(index) + 1)?;
    put_target(object, alloc, media.target())
}

/// Returns the JSON of a flow of this media.
fn flow_value(alloc: Global, media: &Media, flow: &Explained) -> Result<Value, OutOfMemory>
    ensures { IfOk result (λ value. view value ≡ flow_data media.now flow.now) }
{
    let mut object = Object::new(alloc);
    put_media(&mut object, alloc, media, flow.media)?;
    put_class(&mut object, flow.shown)?;
    put_runs(&mut object, alloc, flow.runs)?;
    object.put("findings", finding_values(alloc, flow.findings.as_slice())?)?;
    Ok(object.into_value())
}

/// Returns the JSON of a flow of the session.
fn explained_value(alloc: Global, session: &Session, flow: &Explained) -> Result<Value, OutOfMemory>
    requires { flow.now.media < length session.now }
    ensures { IfOk result (λ value. view value ≡ explained_data session.now flow.now) }
{
    let key = FlowKey {
        file: 0,
        media: flow.media,
    };
    flow_value(alloc, media_of(session, key), flow)
}

/// Returns the JSON of flows of the session.
fn explained_values(
    alloc: Global,
    session: &Session,
    flows: &[Explained],
) -> Result<Value, OutOfMemory>
    requires { AreOfSession session.now flows.now }
    ensures { IfOk result (λ value. view value ≡ list_of (map (explained_data session.now) flows.now)) }
{
    let mut values = Vec::with_capacity(alloc, flows.len())?;
    for flow in flows {
        values.push(explained_value(alloc, session, flow)?)?;
    }
    Ok(Value::Array(values))
}

/// Adds how a capture ends, and its name.
fn put_file(
    object: &mut Object,
    alloc: Global,
    name: &str,
    note: FileNote,
) -> Result<(), OutOfMemory>
    ensures { IfOk result (λ _. Puts (file_members name.now note) object.old object.new) }
{
    let note = NoteText { note };
    object.put("end", Value::from(format!(in alloc; "{note}")?))?;
    object.put_text("name", name)
}

/// Returns the JSON of a capture.
fn file_value(alloc: Global, name: &str, note: FileNote) -> Result<Value, OutOfMemory>
    ensures { IfOk result (λ value. view value ≡ file_data name.now note) }
{
    let mut object = Object::new(alloc);
    put_file(&mut object, alloc, name, note)?;
    Ok(object.into_value())
}

/// Returns the JSON of captures.
fn files_value(
    alloc: Global,
    captures: &[FileName],
    notes: &[FileNote],
) -> Result<Value, OutOfMemory>
    ensures { IfOk result (λ value. view value ≡ list_of (files_data captures.now notes.now)) }
{
    let mut values = Vec::new(alloc);
    for (file, name) in captures.iter().enumerate() {
        let Some(note) = notes.get(file) else {
            break;
        };
        values.push(file_value(alloc, name.as_str(), *note)?)?;
    }
    Ok(Value::Array(values))
}

/// Adds the captures: the members of a single one, else a list of them.
fn put_captures(
    object: &mut Object,
    alloc: Global,
    captures: &[FileName],
    notes: &[FileNote],
) -> Result<(), OutOfMemory>
    ensures { IfOk result (λ _. Puts (capture_members captures.now notes.now) object.old object.new) }
{
    match (captures, notes) {
        ([name], [note, ..]) => put_file(object, alloc, name.as_str(), *note),
        _ => object.put("files", files_value(alloc, captures, notes)?),
    }
}

/// Returns the findings on flows as one JSON value and a newline. `captures` are the names of the captures, and `notes`
/// has how each ends. The keys of each object stand in byte order.
///
/// These keys may be missing:
///
/// - `end` and `name`, which a single capture has, or `files`, which several have;
/// - `class` of a flow, if no run is judged, and `runs`, if no packet came;
/// - `markers` of `unmarked`, if the stream isn't among those that a scan lists;
/// - each class of `passed_over` that is 0, and `least` and `greatest` of `troff`, if there is no such offset;
/// - `step_least`, `step_greatest` and `period` of `rate`, for one frame or field.
///
/// Returns `Err` if memory runs out.
pub fn json_of(
    alloc: Global,
    captures: &[FileName],
    notes: &[FileNote],
    session: &Session,
    flows: &[Explained],
) -> Result<String, OutOfMemory>
    requires { AreOfSession session.now flows.now }
    ensures { IfOk result (λ s. string_bytes s
        ≡ explained_json captures.now notes.now session.now flows.now) }
{
    let value = value_of(alloc, captures, notes, session, flows)?;
    let mut text = value.to_string(alloc)?;
    text.push_str("\n")?;
    Ok(text)
}

/// Returns the whole as a JSON value.
fn value_of(
    alloc: Global,
    captures: &[FileName],
    notes: &[FileNote],
    session: &Session,
    flows: &[Explained],
) -> Result<Value, OutOfMemory>
    requires { AreOfSession session.now flows.now }
    ensures { IfOk result (λ value. view value
        ≡ all_data captures.now notes.now session.now flows.now) }
{
    let mut object = Object::new(alloc);
    put_captures(&mut object, alloc, captures, notes)?;
    object.put("flows", explained_values(alloc, session, flows)?)?;
    Ok(object.into_value())
}
