//! Writes the report as JSON: a value for each capture and each flow, and the text of all of them.

ghost use Rattle.std.specs.Prelude.{◌≡◌, ◌++◌, IfOk, map, codes, string_bytes, false};
ghost use Rattle.serde_json.specs.View.{view, items_of};
ghost use Rattle.serde_json.specs.Written.{compact_text, comma_if, items_text, has_float};
ghost use Rattle.timing_base.specs.declared.row.Unjudged.TheVariants.{Refused, Gap};
ghost use Rattle.timing_report.specs.json_report.Members.{Puts};
ghost use Rattle.std.specs.Fmt.{decimal};
ghost use Rattle.timing_report.specs.Outcomes.{AreOfSession};
ghost use Rattle.timing_report.specs.Status.{code_of};
ghost use Rattle.timing_report.specs.json_report.Json.{list_of, proof_data, outcome_members, type_data, types_data, interlaced_members, judged_numbers, judged_words, judged_members, no_whole_frame_members, unjudged_members, run_verdict_members, expected_members, run_members, run_data, verdict_members, key_members, flow_data, row_data, file_data, files_data, json_text};

use crate::json_report::object::Object;
use crate::{
    NoteText, PacketFaultText, Status, buffer_peak, class_name, declared_name, first_passing,
    kind_name, media_of, model_name, status_of, verdict_on,
};
use sender_params::Params;
use serde_json::Value;
use std::alloc::{AllocError as OutOfMemory, Global};
use timing_base::{
    CheckJob, FailProof, FileName, FileNote, FlowKey, Judged, Kind, KindVerdict, Media,
    PacketFault, Row, Run, RunVerdict, Session, Unjudged, Verdict,
};

/// Returns the JSON of a violation.
fn proof_value(alloc: Global, proof: &FailProof) -> Result<Value, OutOfMemory>
    ensures { IfOk result (λ value. view value ≡ proof_data proof.now) }
{
    let mut object = Object::new(alloc);
    object.put_count("count", proof.count)?;
    object.put_count("from", proof.from)?;
    object.put_count("limit", proof.limit)?;
    object.put_text("model", model_name(proof.model))?;
    object.put_count("to", proof.to)?;
    Ok(object.into_value())
}

/// Adds whether a type passes, and if it fails, the violation.
fn put_outcome(object: &mut Object, alloc: Global, verdict: KindVerdict) -> Result<(), OutOfMemory>
    ensures { IfOk result (λ _. Puts (outcome_members verdict) object.old object.new) }
{
    match verdict {
        KindVerdict::Pass => object.put_flag("pass", true),
        KindVerdict::Fail(proof) => {
            object.put_flag("pass", false)?;
            object.put("proof", proof_value(alloc, &proof)?)
        }
    }
}

/// Returns the JSON of a sender type.
fn type_value(
    alloc: Global,
    params: &Params,
    judged: &Judged,
    kind: Kind,
) -> Result<Value, OutOfMemory>
    requires { params.now.n ≡ judged.now.n }
    ensures { IfOk result (λ value. view value ≡ type_data params.now.media judged.now kind) }
{
    let mut object = Object::new(alloc);
    object.put_count("bucket_limit", params.c_max(kind))?;
    object.put_count("bucket_peak", judged.bucket_peak)?;
    object.put_count("buffer_limit", params.vrx_full(kind))?;
    object.put_count("buffer_peak", buffer_peak(judged, kind))?;
    object.put_text("type", kind_name(kind))?;
    put_outcome(&mut object, alloc, verdict_on(judged, kind))?;
    Ok(object.into_value())
}

/// Returns the JSON of the types N, NL and W.
fn types_value(alloc: Global, params: &Params, judged: &Judged) -> Result<Value, OutOfMemory>
    requires { params.now.n ≡ judged.now.n }
    ensures { IfOk result (λ value. view value ≡ types_data params.now.media judged.now) }
{
    let mut types = Vec::with_capacity(alloc, 3)?;
    for kind in [Kind::N, Kind::NL, Kind::W] {
        types.push(type_value(alloc, params, judged, kind)?)?;
    }
    Ok(Value::Array(types))
}

/// Adds the numbers of a judged run.
fn put_judged_numbers(object: &mut Object, judged: &Judged) -> Result<(), OutOfMemory>
    ensures { IfOk result (λ _. Puts (judged_numbers judged.now) object.old object.new) }
{
    object.put_count("frames", judged.frames)?;
    object.put_count("head", judged.head)?;
    object.put_count("n", u64::from(judged.n))?;
    object.put_count("packets", judged.packets)?;
    object.put_count("tail", judged.tail)
}

/// Adds the class, the declared type and the results for each type of a judged run.
fn put_judged_words(
    object: &mut Object,
    alloc: Global,
    media: &Media,
    judged: &Judged,
) -> Result<(), OutOfMemory>
    ensures { IfOk result (λ _. Puts (judged_words media.now judged.now) object.old object.new) }
{
    object.put_text("class", class_name(first_passing(judged)))?;
    object.put_text("declared", declared_name(media.declared))?;
    let params = Params::of(media, judged.n);
    object.put("types", types_value(alloc, &params, judged)?)?;
    object.put_text("verdict", "judged")?;
    put_interlaced(object, media.interlaced)
}

/// Adds `interlaced` if the media is interlaced.
fn put_interlaced(object: &mut Object, interlaced: bool) -> Result<(), OutOfMemory>
    ensures { IfOk result (λ _. Puts (interlaced_members interlaced) object.old object.new) }
{
    if interlaced {
        object.put_flag("interlaced", true)
    } else {
        Ok(())
    }
}

/// Adds the members of a judged run.
fn put_judged(
    object: &mut Object,
    alloc: Global,
    media: &Media,
    judged: &Judged,
) -> Result<(), OutOfMemory>
    ensures { IfOk result (λ _. Puts (judged_members media.now judged.now) object.old object.new) }
{
    put_judged_numbers(object, judged)?;
    put_judged_words(object, alloc, media, judged)
}

/// Adds the members of a run without a whole frame or field.
fn put_no_whole_frame(object: &mut Object, head: u64) -> Result<(), OutOfMemory>
    ensures { IfOk result (λ _. Puts (no_whole_frame_members head) object.old object.new) }
{
    object.put_count("head", head)?;
    object.put_text("verdict", "no whole frame")
}

/// Adds the members of a flow that was not judged, as the JSON report has them. Returns `Err` if memory runs out.
pub fn put_unjudged(
    object: &mut Object,
    alloc: Global,
    unjudged: Unjudged,
) -> Result<(), OutOfMemory>
    ensures { IfOk result (λ _. Puts (unjudged_members unjudged) object.old object.new) }
{
    match unjudged {
        Unjudged::Absent => object.put_text("verdict", "absent"),
        Unjudged::NoWholeFrame { head } => put_no_whole_frame(object, head),
        Unjudged::Refused { rec, fault } => put_refused(object, alloc, rec, fault),
        Unjudged::Gap { rec, expected, got } => put_gap(object, rec, expected, got),
    }
}

fn put_refused(
    object: &mut Object,
    alloc: Global,
    rec: u64,
    fault: PacketFault,
) -> Result<(), OutOfMemory>
    ensures { IfOk result (λ _. Puts (unjudged_members (Refused rec fault)) object.old object.new) }
{
    let fault = PacketFaultText { fault };
    let fault = format!(in alloc; "{fault}")?;
    object.put("fault", Value::from(fault))?;
    object.put_count("record", rec)?;
    object.put_text("verdict", "refused")
}

fn put_gap(object: &mut Object, rec: u64, expected: u32, got: u32) -> Result<(), OutOfMemory>
    ensures { IfOk result (λ _. Puts (unjudged_members (Gap rec expected got)) object.old object.new) }
{
    object.put_count("expected", u64::from(expected))?;
    object.put_count("got", u64::from(got))?;
    object.put_count("record", rec)?;
    object.put_text("verdict", "gap")
}

/// Adds the members of the verdict on a run between gaps.
fn put_run_verdict(
    object: &mut Object,
    alloc: Global,
    media: &Media,
    verdict: &RunVerdict,
) -> Result<(), OutOfMemory>
    ensures { IfOk result (λ _. Puts (run_verdict_members media.now verdict.now) object.old object.new) }
{
    match verdict {
        RunVerdict::NoWholeFrame { head } => put_no_whole_frame(object, *head),
        RunVerdict::Judged(judged) => put_judged(object, alloc, media, judged),
    }
}

/// Adds the extended sequence number that would have continued the run before. The first run has none.
fn put_expected(object: &mut Object, expected: Option<u32>) -> Result<(), OutOfMemory>
    ensures { IfOk result (λ _. Puts (expected_members expected) object.old object.new) }
{
    match expected {
        None => Ok(()),
        Some(number) => object.put_count("expected", u64::from(number)),
    }
}

/// Adds the first packet record and extended sequence number of a run, and the number that was expected there.
fn put_run(object: &mut Object, run: &Run) -> Result<(), OutOfMemory>
    ensures { IfOk result (λ _. Puts (run_members run.now) object.old object.new) }
{
    object.put_count("number", u64::from(run.number))?;
    object.put_count("record", run.rec)?;
    put_expected(object, run.expected)
}

/// Returns the JSON of a run between gaps.
fn run_value(alloc: Global, media: &Media, run: &Run) -> Result<Value, OutOfMemory>
    ensures { IfOk result (λ value. view value ≡ run_data media.now run.now) }
{
    let mut object = Object::new(alloc);
    put_run(&mut object, run)?;
    put_run_verdict(&mut object, alloc, media, &run.verdict)?;
    Ok(object.into_value())
}

/// Returns the JSON of the runs between gaps.
fn runs_value(alloc: Global, media: &Media, runs: &[Run]) -> Result<Value, OutOfMemory>
    ensures { IfOk result (λ value. view value ≡ list_of (map (run_data media.now) runs.now)) }
{
    let mut values = Vec::with_capacity(alloc, runs.len())?;
    for run in runs {
        values.push(run_value(alloc, media, run)?)?;
    }
    Ok(Value::Array(values))
}

/// Adds the members of a verdict.
fn put_verdict(
    object: &mut Object,
    alloc: Global,
    media: &Media,
    verdict: &Verdict,
) -> Result<(), OutOfMemory>
    ensures { IfOk result (λ _. Puts (verdict_members media.now verdict.now) object.old object.new) }
{
    match verdict {
        Verdict::Unjudged(unjudged) => put_unjudged(object, alloc, *unjudged),
        Verdict::Judged(judged) => put_judged(object, alloc, media, judged),
        Verdict::Runs(runs) => {
            object.put("runs", runs_value(alloc, media, runs.list.as_slice())?)?;
            object.put_text("verdict", "runs")
        }
    }
}

/// Adds the members that name a flow.
fn put_key(
    object: &mut Object,
    alloc: Global,
    media: &Media,
    key: FlowKey,
) -> Result<(), OutOfMemory>
    ensures { IfOk result (λ _. Puts (key_members media.now key) object.old object.new) }
{
    let target = media.target();
    let target = format!(in alloc; "{target}")?;
    object.put_count("file", u64::from(key.file) + 1)?;
    object.put_count("media", u64::from(key.media) + 1)?;
    object.put("target", Value::from(target))
}

/// Returns the JSON of a flow of this media.
fn flow_value(alloc: Global, media: &Media, row: &Row) -> Result<Value, OutOfMemory>
    ensures { IfOk result (λ value. view value ≡ flow_data media.now row.now) }
{
    let mut object = Object::new(alloc);
    put_key(&mut object, alloc, media, row.key)?;
    put_verdict(&mut object, alloc, media, &row.verdict)?;
    Ok(object.into_value())
}

/// Returns the JSON of a capture.
fn file_value(alloc: Global, name: &str, note: &FileNote) -> Result<Value, OutOfMemory>
    ensures { IfOk result (λ value. view value ≡ file_data name.now note.now) }
{
    let note = NoteText { note: *note };
    let note = format!(in alloc; "{note}")?;
    let mut object = Object::new(alloc);
    object.put("end", Value::from(note))?;
    object.put_text("name", name)?;
    Ok(object.into_value())
}

/// Returns the JSON of the captures.
fn files_value(
    alloc: Global,
    captures: &[FileName],
    notes: &[FileNote],
) -> Result<Value, OutOfMemory>
    ensures { IfOk result (λ value. view value ≡ list_of (files_data captures.now notes.now)) }
{
    let mut values = Vec::new(alloc);
    for (file, name) in captures.iter().enumerate() {
        let Some(note) = notes.get(file) else {
            break;
        };
        values.push(file_value(alloc, name.as_str(), note)?)?;
    }
    Ok(Value::Array(values))
}

/// Returns the report of a job as JSON, with its newline. `notes` has how each capture ends, and `rows` the results of
/// the flows, in their order.
///
/// Returns `Err` if memory runs out. The value of each flow is freed before the next one is made.
pub fn json_of(
    alloc: Global,
    job: &CheckJob,
    session: &Session,
    notes: &[FileNote],
    rows: &[Row],
) -> Result<String, OutOfMemory>
    requires { AreOfSession session.now rows.now }
    ensures { IfOk result (λ s. string_bytes s
        ≡ json_text job.now session.now notes.now rows.now) }
{
    let mut text = String::new(alloc);
    text.push_str("{\"files\":")?;
    add_files(&mut text, alloc, job.captures.as_slice(), notes)?;
    text.push_str(",\"flows\":[")?;
    add_flows(&mut text, alloc, session, rows)?;
    add_status(&mut text, status_of(session, notes, rows))?;
    Ok(text)
}

/// Adds the text after the flows.
fn add_status(text: &mut String, status: Status) -> Result<(), OutOfMemory>
    ensures { IfOk result (λ _. string_bytes text.new ≡ string_bytes text.old
        ++ (codes "]" ++ (codes ",\"status\":"
        ++ (decimal (code_of status) ++ (codes "}" ++ codes "\n"))))) }
{
    writeln!(text, "],\"status\":{}}}", status.code())
}

/// Adds the text of the captures.
fn add_files(
    text: &mut String,
    alloc: Global,
    captures: &[FileName],
    notes: &[FileNote],
) -> Result<(), OutOfMemory>
    ensures { IfOk result (λ _. string_bytes text.new ≡ string_bytes text.old
        ++ compact_text (list_of (files_data captures.now notes.now))) }
{
    let files = files_value(alloc, captures, notes)?;
    add_value(text, alloc, &files)
}

/// Adds the text of a JSON value without floating-point numbers. Returns `Err` if memory runs out.
pub fn add_value(text: &mut String, alloc: Global, value: &Value) -> Result<(), OutOfMemory>
    requires { has_float (view value.now) ≡ false }
    ensures { IfOk result (λ _. string_bytes text.new
        ≡ string_bytes text.old ++ compact_text (view value.now)) }
{
    let piece = value.to_string(alloc)?;
    text.push_str(piece.as_str())
}

/// Adds the text of the flows, without the bracket at their end.
fn add_flows(
    text: &mut String,
    alloc: Global,
    session: &Session,
    rows: &[Row],
) -> Result<(), OutOfMemory>
    requires { AreOfSession session.now rows.now }
    ensures { IfOk result (λ _. string_bytes text.new ++ codes "]" ≡ string_bytes text.old
        ++ items_text false (items_of (map (row_data session.now) rows.now))) }
{
    for (index, row) in rows.iter().enumerate() {
        text.push_str(comma_if(index > 0))?;
        add_flow(text, alloc, media_of(session, row.key), row)?;
    }
    Ok(())
}

/// Returns a comma if another value stands before, else an empty string.
pub fn comma_if(later: bool) -> &'static str
    ensures { result.now ≡ comma_if later }
{
    if later { "," } else { "" }
}

/// Adds the text of a flow of this media.
fn add_flow(text: &mut String, alloc: Global, media: &Media, row: &Row) -> Result<(), OutOfMemory>
    ensures { IfOk result (λ _. string_bytes text.new
        ≡ string_bytes text.old ++ compact_text (flow_data media.now row.now)) }
{
    let flow = flow_value(alloc, media, row)?;
    add_value(text, alloc, &flow)
}
