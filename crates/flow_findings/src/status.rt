//! The exit status of `explain`.

ghost use Rattle.std.specs.Prelude.{◌≡◌, ◌<◌, length};
ghost use Rattle.std.specs.List.{list_all, list_any};
ghost use Rattle.timing_report.specs.Outcomes.{declared_passes, passes};
ghost use Rattle.flow_findings.specs.Statuses.{AreKnownOf, a_run_fails, explained_status, flow_fails, has_judged, run_fails};

use crate::findings::have_no_frame;
use crate::inputs::KnownFlow;
use timing_base::{
    FileNote, FlowKey, Judged, Kind, KindVerdict, Run, RunVerdict, Session, Verdict,
};
use timing_report::{Status, any_refused, media_of, verdict_on};

/// Returns whether a run of the flow is judged.
fn has_judged(verdict: &Verdict) -> bool
    ensures { result ≡ has_judged verdict.now }
{
    match verdict {
        Verdict::Unjudged(_) => false,
        Verdict::Judged(_) => true,
        Verdict::Runs(runs) => !have_no_frame(runs.list.as_slice()),
    }
}

/// Returns whether a run of each flow is judged.
fn all_judged(flows: &[KnownFlow]) -> bool
    ensures { result ≡ list_all (λ flow. has_judged flow.verdict) flows.now }
{
    flows.iter().all(|flow| has_judged(&flow.verdict))
}

/// Returns whether a judged run passes as this type.
fn passes(judged: &Judged, kind: Kind) -> bool
    ensures { result ≡ passes judged.now kind }
{
    matches!(verdict_on(judged, kind), KindVerdict::Pass)
}

/// Returns whether the declared type passes, or if none is declared, any of the three.
fn declared_passes(declared: Option<Kind>, judged: &Judged) -> bool
    ensures { result ≡ declared_passes declared judged.now }
{
    match declared {
        Some(kind) => passes(judged, kind),
        None => passes(judged, Kind::N) || passes(judged, Kind::NL) || passes(judged, Kind::W),
    }
}

/// Returns whether a run is judged, and fails the declared type.
fn run_fails(declared: Option<Kind>, run: &Run) -> bool
    ensures { result ≡ run_fails declared run.now.verdict }
{
    match &run.verdict {
        RunVerdict::NoWholeFrame { .. } => false,
        RunVerdict::Judged(judged) => !declared_passes(declared, judged),
    }
}

/// Returns whether one of these runs is judged, and fails the declared type.
fn one_fails(declared: Option<Kind>, runs: &[Run]) -> bool
    ensures { result ≡ list_any (λ run. run_fails declared run.verdict) runs.now }
{
    runs.iter().any(|run| run_fails(declared, run))
}

/// Returns whether a judged run of the flow fails the declared type.
fn a_run_fails(declared: Option<Kind>, verdict: &Verdict) -> bool
    ensures { result ≡ a_run_fails declared verdict.now }
{
    match verdict {
        Verdict::Unjudged(_) => false,
        Verdict::Judged(judged) => !declared_passes(declared, judged),
        Verdict::Runs(runs) => one_fails(declared, runs.list.as_slice()),
    }
}

/// Returns whether a judged run of a flow of the session fails the declared type of its media.
fn flow_fails(session: &Session, flow: &KnownFlow) -> bool
    requires { flow.now.media < length session.now }
    ensures { result ≡ flow_fails session.now flow.now }
{
    let key = FlowKey {
        file: 0,
        media: flow.media,
    };
    let media = *media_of(session, key);
    a_run_fails(media.declared, &flow.verdict)
}

/// Returns whether a judged run of one of the flows fails the declared type of its media.
fn any_fails(session: &Session, flows: &[KnownFlow]) -> bool
    requires { AreKnownOf session.now flows.now }
    ensures { result ≡ list_any (flow_fails session.now) flows.now }
{
    for flow in flows {
        if flow_fails(session, flow) {
            return true;
        }
    }
    false
}

/// Returns the status of `explain`: `NotAllJudged` if a flow has no judged run, or a capture was refused as malformed;
/// else `Fail` if a judged run fails the declared type of its media (if none is declared: all three types); else
/// `Pass`. `notes` has how each capture ends.
pub fn status_of(session: &Session, notes: &[FileNote], flows: &[KnownFlow]) -> Status
    requires { AreKnownOf session.now flows.now }
    ensures { result ≡ explained_status session.now notes.now flows.now }
{
    if any_refused(notes) || !all_judged(flows) {
        Status::NotAllJudged
    } else if any_fails(session, flows) {
        Status::Fail
    } else {
        Status::Pass
    }
}
