//! A flow with its findings.

ghost use Rattle.std.specs.Prelude.{◌≡◌, ◌<◌, IfOk, length, not};
ghost use Rattle.std.specs.List.{count_by};
ghost use Rattle.std.specs.Option.{option_map};
ghost use Rattle.flow_findings.specs.Findings.{explained, has_no_frame, judged_of, media_at, runs_of, shown_in_short, unjudged_runs};

use crate::finding::Finding;
use crate::findings::findings_of;
use crate::inputs::{KnownCaptures, KnownFlow, ShownRun};
use crate::numbers::kind_of;
use std::alloc::{AllocError as OutOfMemory, Global};
use timing_base::{FlowKey, Items, Kind, Media, Run, RunVerdict, Session, Unjudged, Verdict};
use timing_report::{first_passing, media_of};

/// The run that is shown, in short.
#[derive(Clone, Copy, Debug, PartialEq, Eq)]
pub struct ExplainedRun {
    /// The class: the first of N, NL and W that passes.
    pub class: Option<Kind>,
    /// The sender type that the findings are of.
    pub kind: Kind,
    /// The count of judged frames or fields.
    pub groups: u64,
    /// The count of judged packets.
    pub packets: u64,
}

/// How many runs of a flow are judged, of how many. A flow that is refused has none.
#[derive(Clone, Copy, Debug, PartialEq, Eq)]
pub struct RunCounts {
    /// The count of judged runs.
    pub judged: u64,
    /// The count of all runs.
    pub all: u64,
}

/// A flow with its findings.
#[derive(Drop)]
pub struct Explained {
    /// The index of its media, from 0.
    pub media: u32,
    /// Its runs; `None` if no packet came.
    pub runs: Option<RunCounts>,
    /// The run that is shown; `None` if no run is judged.
    pub shown: Option<ExplainedRun>,
    /// The findings, in order; the first is the headline.
    pub findings: Items<Finding>,
}

/// Returns the media of a flow.
fn media_at<'a>(session: &'a Session, flow: &KnownFlow) -> &'a Media
    requires { flow.now.media < length session.now }
    ensures { result.now ≡ media_at session.now flow.now }
{
    let key = FlowKey {
        file: 0,
        media: flow.media,
    };
    media_of(session, key)
}

/// Returns a run of this media in short.
fn in_short(media: &Media, shown: &ShownRun) -> ExplainedRun
    ensures { result ≡ shown_in_short media.now shown.now }
{
    let judged = shown.run.judged;
    ExplainedRun {
        class: first_passing(&judged),
        kind: kind_of(media.declared, &judged),
        groups: judged.frames,
        packets: judged.packets,
    }
}

/// Returns the run that is shown in short, if there is one.
fn shown_in_short(media: &Media, shown: &Option<ShownRun>) -> Option<ExplainedRun>
    ensures { result ≡ option_map (shown_in_short media.now) shown.now }
{
    match shown {
        None => None,
        Some(shown) => Some(in_short(media, shown)),
    }
}

/// Returns how many of these runs are judged.
fn judged_runs(runs: &[Run]) -> u64
    ensures { result ≡ count_by (λ run. not (has_no_frame run.verdict)) runs.now }
{
    let mut judged = 0;
    for run in runs {
        match run.verdict {
            RunVerdict::NoWholeFrame { .. } => {}
            RunVerdict::Judged(_) => judged += 1,
        }
    }
    judged
}

/// Returns how many runs of a flow that isn't judged are judged, of how many; `None` if no packet came.
fn unjudged_runs(unjudged: Unjudged) -> Option<RunCounts>
    ensures { result ≡ unjudged_runs unjudged }
{
    match unjudged {
        Unjudged::Absent => None,
        Unjudged::NoWholeFrame { .. } => Some(RunCounts { judged: 0, all: 1 }),
        Unjudged::Refused { .. } | Unjudged::Gap { .. } => Some(RunCounts { judged: 0, all: 0 }),
    }
}

/// Returns how many runs of a flow are judged, of how many; `None` if no packet came.
fn runs_of(verdict: &Verdict) -> Option<RunCounts>
    ensures { result ≡ runs_of verdict.now }
{
    match verdict {
        Verdict::Unjudged(unjudged) => unjudged_runs(*unjudged),
        Verdict::Judged(_) => Some(RunCounts { judged: 1, all: 1 }),
        Verdict::Runs(runs) => Some(RunCounts {
            judged: judged_runs(runs.list.as_slice()),
            all: runs.list.len() as u64,
        }),
    }
}

/// Returns a flow of the session with all its findings. Returns `Err` if memory runs out.
pub fn explain(
    alloc: Global,
    session: &Session,
    captures: &KnownCaptures,
    flow: &KnownFlow,
) -> Result<Explained, OutOfMemory>
    requires { flow.now.media < length session.now }
    ensures { IfOk result (λ e. e ≡ explained session.now captures.now flow.now) }
{
    let media = media_at(session, flow);
    let findings = findings_of(alloc, session, media, captures, flow)?;
    Ok(Explained {
        media: flow.media,
        runs: runs_of(&flow.verdict),
        shown: shown_in_short(media, &flow.shown),
        findings: Items::from_vec(findings),
    })
}
