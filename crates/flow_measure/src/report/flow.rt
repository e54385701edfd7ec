//! A measured flow as JSON.

ghost use Rattle.std.specs.Prelude.{◌≡◌, ◌++◌, IfOk, map, string_bytes};
ghost use Rattle.serde_json.specs.View.{view};
ghost use Rattle.timing_report.specs.json_report.Json.{object_of, unjudged_members};
ghost use Rattle.timing_report.specs.json_report.Members.{Puts};
ghost use Rattle.flow_measure.specs.report.Json.{flow_front, flow_members, judged_text, runs_member, ssrc_members, unjudged_text, verdict_flow};
ghost use Rattle.flow_measure.specs.report.Told.{flow_told, run_told};

use crate::report::run::add_run;
use crate::{MeasuredFlow, MeasuredRun};
use serde_json::Value;
use std::alloc::{AllocError as OutOfMemory, Global};
use std::fmt;
use timing_base::{Media, Unjudged, Verdict};
use timing_report::SsrcText;
use timing_report::json_report::{Object, add_value, comma_if, put_unjudged};

/// Adds a flow of this media.
pub(crate) fn add_flow(
    text: &mut String,
    alloc: Global,
    media: &Media,
    flow: &MeasuredFlow,
) -> Result<(), OutOfMemory>
    ensures { IfOk result (λ _. string_bytes text.new
        ≡ string_bytes text.old ++ verdict_flow media.now (flow_told flow.now) flow.now.verdict) }
{
    match &flow.verdict {
        Verdict::Unjudged(unjudged) => add_unjudged(text, alloc, media, flow, *unjudged),
        Verdict::Judged(_) => add_judged(text, alloc, media, flow, "judged"),
        Verdict::Runs(_) => add_judged(text, alloc, media, flow, "runs"),
    }
}

/// Adds a flow of this media that isn't judged.
fn add_unjudged(
    text: &mut String,
    alloc: Global,
    media: &Media,
    flow: &MeasuredFlow,
    unjudged: Unjudged,
) -> Result<(), OutOfMemory>
    ensures { IfOk result (λ _. string_bytes text.new
        ≡ string_bytes text.old ++ unjudged_text media.now (flow_told flow.now) unjudged) }
{
    let value = unjudged_value(alloc, media, flow, unjudged)?;
    add_value(text, alloc, &value)
}

/// Returns a flow that isn't judged as a JSON value.
fn unjudged_value(
    alloc: Global,
    media: &Media,
    flow: &MeasuredFlow,
    unjudged: Unjudged,
) -> Result<Value, OutOfMemory>
    ensures { IfOk result (λ value. view value
        ≡ object_of (flow_members media.now (flow_told flow.now) ++ unjudged_members unjudged)) }
{
    let mut object = Object::new(alloc);
    put_flow(&mut object, alloc, media, flow)?;
    put_unjudged(&mut object, alloc, unjudged)?;
    Ok(object.into_value())
}

/// Adds the members that name a flow, and its count of packets.
fn put_flow(
    object: &mut Object,
    alloc: Global,
    media: &Media,
    flow: &MeasuredFlow,
) -> Result<(), OutOfMemory>
    ensures { IfOk result (λ _. Puts (flow_members media.now (flow_told flow.now)) object.old object.new) }
{
    let target = media.target();
    let target = format!(in alloc; "{target}")?;
    let number = u64::from(flow.media) + 1;
    object.put_count("media", number)?;
    object.put_count("packets", flow.packets)?;
    object.put("target", Value::from(target))?;
    put_ssrc(object, alloc, flow.ssrc)
}

/// Adds the SSRC, if there is one.
fn put_ssrc(object: &mut Object, alloc: Global, ssrc: Option<u32>) -> Result<(), OutOfMemory>
    ensures { IfOk result (λ _. Puts (ssrc_members ssrc) object.old object.new) }
{
    match ssrc {
        None => Ok(()),
        Some(ssrc) => {
            let ssrc = SsrcText { ssrc };
            let ssrc = format!(in alloc; "{ssrc}")?;
            object.put("ssrc", Value::from(ssrc))
        }
    }
}

/// Adds a judged flow of this media. `word` is its verdict.
fn add_judged(
    text: &mut String,
    alloc: Global,
    media: &Media,
    flow: &MeasuredFlow,
    word: &str,
) -> Result<(), OutOfMemory>
    ensures { IfOk result (λ _. string_bytes text.new
        ≡ string_bytes text.old ++ judged_text media.now (flow_told flow.now) word.now) }
{
    add_flow_front(text, flow)?;
    add_runs_member(text, alloc, media, flow.runs.as_slice())?;
    let ssrc = Source { ssrc: flow.ssrc };
    let target = media.target();
    write!(
        text,
        "{ssrc}\"target\":\"{target}\",\"verdict\":\"{word}\"}}"
    )
}

/// Adds the members of a flow before its runs.
fn add_flow_front(text: &mut String, flow: &MeasuredFlow) -> Result<(), OutOfMemory>
    ensures { IfOk result (λ _. string_bytes text.new
        ≡ string_bytes text.old ++ flow_front (flow_told flow.now)) }
{
    let number = u64::from(flow.media) + 1;
    write!(text, "{{\"media\":{number},\"packets\":{},", flow.packets)
}

/// The SSRC of a flow as a member, empty if there is none.
#[derive(Clone, Copy)]
struct Source {
    ssrc: Option<u32>,
}

impl fmt::Display for Source {
    ghost use Rattle.std.specs.Prelude.{Some};
    ghost use Rattle.flow_measure.specs.report.Json.{ssrc_member};

    ghost output = { λ source. Some (ssrc_member source.ssrc) };

    fn fmt<W: fmt::Write>(&self, f: &mut fmt::Formatter<W>) -> fmt::Result {
        match self.ssrc {
            None => Ok(()),
            Some(ssrc) => {
                let ssrc = SsrcText { ssrc };
                write!(f, "\"ssrc\":\"{ssrc}\",")
            }
        }
    }
}

/// Adds the judged runs of a flow, separated by commas, if there is one.
fn add_runs_member(
    text: &mut String,
    alloc: Global,
    media: &Media,
    runs: &[MeasuredRun],
) -> Result<(), OutOfMemory>
    ensures { IfOk result (λ _. string_bytes text.new
        ≡ string_bytes text.old ++ runs_member media.now (map run_told runs.now)) }
{
    if runs.is_empty() {
        return Ok(());
    }
    text.push_str("\"runs\":[")?;
    for (index, run) in runs.iter().enumerate() {
        text.push_str(comma_if(index > 0))?;
        add_run(text, alloc, media, run)?;
    }
    write!(text, "],")
}
