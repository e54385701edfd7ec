//! Reads the violations of a JSON report.

ghost use Rattle.std.specs.Prelude.{◌≡◌, ◌≤◌, ◌++◌, List, Some, None, IfOk, IsErrOf, option_map, length};
ghost use Rattle.serde_json.specs.View.{view, items_view};
ghost use Rattle.timing_report.specs.declared.json_report.reading.ReportProof.{ReportProof};
ghost use Rattle.timing_report.specs.declared.json_report.reading.ReportError.TheVariants.{Refused};
ghost use Rattle.timing_report.specs.json_report.Reading.{number_in, place_in, text_in, kind_named, model_named, proof_of, proof_in, type_of, told, types_from, types_in, run_of, runs_from, runs_of, runs_in, key_of, flow_of, flows_from, IsReport};

use serde_json::Value;
use std::alloc::{AllocError, Global};
use timing_base::{Broken, FailProof, FlowKey, Kind};

/// A violation in a report.
#[derive(Clone, Copy, Debug, PartialEq, Eq)]
pub struct ReportProof {
    /// The flow; its capture and its media count from 0.
    pub key: FlowKey,
    /// The run of the flow, counted from 0.
    pub run: u32,
    /// The sender type that fails.
    pub kind: Kind,
    /// The violation.
    pub proof: FailProof,
}

/// The reason why a report is not read.
#[derive(Clone, Copy, Debug, PartialEq, Eq)]
pub enum ReportError {
    /// The bytes are not in the form of a report.
    Refused,
    /// Memory ran out before it was known whether the bytes are a report.
    OutOfMemory,
}

impl From<AllocError> for ReportError {
    ghost use Rattle.std.specs.Prelude.{◌≡◌};
    ghost use Rattle.timing_report.specs.declared.json_report.reading.ReportError.TheVariants.{OutOfMemory};

    ghost from_gives = { λ _ e. e ≡ OutOfMemory };

    fn from(_: AllocError) -> Self {
        ReportError::OutOfMemory
    }
}

/// The greatest length of a report, in bytes.
const MOST_BYTES: usize = 16_777_216;

/// The greatest number of runs of a flow: 1,024 gaps, and one.
const MOST_RUNS: usize = 1025;

/// Returns the number of a member.
fn number_in(object: &Value, key: &str) -> Option<u64>
    ensures { result ≡ number_in key.now (view object.now) }
{
    object.get(key)?.as_u64()
}

/// Returns the text of a member.
fn text_in<'a>(object: &'a Value, key: &str) -> Option<&'a str>
    ensures { option_map (λ text. text.now) result ≡ text_in key.now (view object.now) }
{
    object.get(key)?.as_str()
}

/// Returns the position that a member gives: there from 1 to `most`, here from 0.
fn place_in(object: &Value, key: &str, most: u32) -> Option<u32>
    ensures { result ≡ place_in key.now most (view object.now) }
{
    let number = number_in(object, key)?;
    if number < 1 || number > u64::from(most) {
        return None;
    }
    Some((number - 1) as u32)
}

/// Returns the sender type with this name.
fn kind_named(name: &str) -> Option<Kind>
    ensures { result ≡ kind_named name.now }
{
    match name {
        "N" => Some(Kind::N),
        "NL" => Some(Kind::NL),
        "W" => Some(Kind::W),
        _ => None,
    }
}

/// Returns the model with this name.
fn model_named(name: &str) -> Option<Broken>
    ensures { result ≡ model_named name.now }
{
    match name {
        "Bucket" => Some(Broken::Bucket),
        "Over" => Some(Broken::Over),
        "Empty" => Some(Broken::Empty),
        _ => None,
    }
}

/// Returns the violation in an object.
fn proof_of(object: &Value) -> Option<FailProof>
    ensures { result ≡ proof_of (view object.now) }
{
    let model = model_named(text_in(object, "model")?)?;
    let from = number_in(object, "from")?;
    let to = number_in(object, "to")?;
    let count = number_in(object, "count")?;
    let limit = number_in(object, "limit")?;
    Some(FailProof {
        model,
        from,
        to,
        count,
        limit,
    })
}

/// Returns the violation of a type, if it has one. The outer `None` stands for a malformed one.
fn proof_in(object: &Value) -> Option<Option<FailProof>>
    ensures { result ≡ proof_in (view object.now) }
{
    match object.get("proof") {
        None => Some(None),
        Some(proof) => Some(Some(proof_of(proof)?)),
    }
}

/// Returns a type, and its violation, if it has one.
fn type_of(object: &Value) -> Option<(Kind, Option<FailProof>)>
    ensures { result ≡ type_of (view object.now) }
{
    let kind = kind_named(text_in(object, "type")?)?;
    let proof = proof_in(object)?;
    Some((kind, proof))
}

/// Returns the flow that an object names.
fn key_of(flow: &Value) -> Option<FlowKey>
    ensures { result ≡ key_of (view flow.now) }
{
    let file = place_in(flow, "file", 16)?;
    let media = place_in(flow, "media", 64)?;
    Some(FlowKey { file, media })
}

/// Adds the violation of a type, if it has one.
fn add_told(
    proofs: &mut Vec<ReportProof>,
    key: FlowKey,
    run: u32,
    kind: Kind,
    proof: Option<FailProof>,
) -> Result<(), AllocError>
    ensures { IfOk result (λ _. proofs.new.items ≡ proofs.old.items ++ told key run kind proof) }
{
    match proof {
        None => Ok(()),
        Some(proof) => Ok(proofs.push(ReportProof {
            key,
            run,
            kind,
            proof,
        })?),
    }
}

/// Adds the violations in an array of types.
fn add_types(
    proofs: &mut Vec<ReportProof>,
    key: FlowKey,
    run: u32,
    types: &[Value],
) -> Result<(), ReportError>
    ensures told { IfOk result (λ _. option_map (λ more. proofs.old.items ++ more)
        (types_from key run (items_view types.now)) ≡ Some proofs.new.items) }
    ensures refused { IsErrOf result Refused → types_from key run (items_view types.now) ≡ None }
{
    for value in types {
        let Some((kind, proof)) = type_of(value) else {
            return Err(ReportError::Refused);
        };
        add_told(proofs, key, run, kind, proof)?;
    }
    Ok(())
}

/// Adds the violations in the types of a flow or of a run.
fn add_types_in(
    proofs: &mut Vec<ReportProof>,
    key: FlowKey,
    run: u32,
    object: &Value,
) -> Result<(), ReportError>
    ensures told { IfOk result (λ _. option_map (λ more. proofs.old.items ++ more)
        (types_in key run (view object.now)) ≡ Some proofs.new.items) }
    ensures refused { IsErrOf result Refused → types_in key run (view object.now) ≡ None }
{
    let Some(types) = object.get("types") else {
        return Ok(());
    };
    let Some(types) = types.as_array() else {
        return Err(ReportError::Refused);
    };
    add_types(proofs, key, run, types.as_slice())
}

/// Adds the violations of a run, which has to be an object.
fn add_run(
    proofs: &mut Vec<ReportProof>,
    key: FlowKey,
    run: u32,
    value: &Value,
) -> Result<(), ReportError>
    ensures told { IfOk result (λ _. option_map (λ more. proofs.old.items ++ more)
        (run_of key run (view value.now)) ≡ Some proofs.new.items) }
    ensures refused { IsErrOf result Refused → run_of key run (view value.now) ≡ None }
{
    if !value.is_object() {
        return Err(ReportError::Refused);
    }
    add_types_in(proofs, key, run, value)
}

/// Adds the violations in an array of runs.
fn add_runs(proofs: &mut Vec<ReportProof>, key: FlowKey, runs: &[Value]) -> Result<(), ReportError>
    requires { length runs.now ≤ 1025 }
    ensures told { IfOk result (λ _. option_map (λ more. proofs.old.items ++ more)
        (runs_from key 0 (items_view runs.now)) ≡ Some proofs.new.items) }
    ensures refused { IsErrOf result Refused → runs_from key 0 (items_view runs.now) ≡ None }
{
    for (run, value) in runs.iter().enumerate() {
        add_run(proofs, key, run as u32, value)?;
    }
    Ok(())
}

/// Adds the violations in an array of runs, and refuses more than `MOST_RUNS` of them.
#[tactic(auto, using(crate::proofs::lemmas::json_report::Items::items_counted))]
fn add_runs_of(
    proofs: &mut Vec<ReportProof>,
    key: FlowKey,
    runs: &[Value],
) -> Result<(), ReportError>
    ensures told { IfOk result (λ _. option_map (λ more. proofs.old.items ++ more)
        (runs_of key (items_view runs.now)) ≡ Some proofs.new.items) }
    ensures refused { IsErrOf result Refused → runs_of key (items_view runs.now) ≡ None }
{
    if runs.len() > MOST_RUNS {
        return Err(ReportError::Refused);
    }
    add_runs(proofs, key, runs)
}

/// Adds the violations in the runs of a flow.
fn add_runs_in(proofs: &mut Vec<ReportProof>, key: FlowKey, flow: &Value) -> Result<(), ReportError>
    ensures told { IfOk result (λ _. option_map (λ more. proofs.old.items ++ more)
        (runs_in key (view flow.now)) ≡ Some proofs.new.items) }
    ensures refused { IsErrOf result Refused → runs_in key (view flow.now) ≡ None }
{
    let Some(runs) = flow.get("runs") else {
        return Ok(());
    };
    let Some(runs) = runs.as_array() else {
        return Err(ReportError::Refused);
    };
    add_runs_of(proofs, key, runs.as_slice())
}

/// Adds the violations of a flow.
fn add_flow(proofs: &mut Vec<ReportProof>, flow: &Value) -> Result<(), ReportError>
    ensures told { IfOk result (λ _. option_map (λ more. proofs.old.items ++ more)
        (flow_of (view flow.now)) ≡ Some proofs.new.items) }
    ensures refused { IsErrOf result Refused → flow_of (view flow.now) ≡ None }
{
    let Some(key) = key_of(flow) else {
        return Err(ReportError::Refused);
    };
    add_types_in(proofs, key, 0, flow)?;
    add_runs_in(proofs, key, flow)
}

/// Adds the violations in an array of flows.
fn add_flows(proofs: &mut Vec<ReportProof>, flows: &[Value]) -> Result<(), ReportError>
    ensures told { IfOk result (λ _. option_map (λ more. proofs.old.items ++ more)
        (flows_from (items_view flows.now)) ≡ Some proofs.new.items) }
    ensures refused { IsErrOf result Refused → flows_from (items_view flows.now) ≡ None }
{
    for flow in flows {
        add_flow(proofs, flow)?;
    }
    Ok(())
}

/// Returns the violations in a JSON report, flow by flow: first those in the types of the flow, then those in its runs,
/// in the order of the text.
///
/// Returns `Refused` if the bytes are not in the form of a report, and `OutOfMemory` if memory runs out.
pub fn read_json(alloc: Global, bytes: &[u8]) -> Result<Vec<ReportProof>, ReportError>
    ensures told { IfOk result (λ proofs. IsReport bytes.now proofs.items) }
    ensures refused { IsErrOf result Refused
        → (proofs : List ReportProof) → ¬ IsReport bytes.now proofs }
{
    if bytes.len() > MOST_BYTES {
        return Err(ReportError::Refused);
    }
    let report = match Value::from_slice(alloc, bytes) {
        Ok(report) => report,
        Err(error) => {
            return Err(if error.is_memory() {
                ReportError::OutOfMemory
            } else {
                ReportError::Refused
            });
        }
    };
    let Some(flows) = report.get("flows").and_then(Value::as_array) else {
        return Err(ReportError::Refused);
    };
    let mut proofs = Vec::new(alloc);
    add_flows(&mut proofs, flows.as_slice())?;
    Ok(proofs)
}
