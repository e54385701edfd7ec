//! The result of a judged run for each sender type, and the status of a report.

ghost use Rattle.std.specs.Prelude.{◌≡◌, ◌<◌, length};
ghost use Rattle.std.specs.List.{list_any, list_all};
ghost use Rattle.timing_report.specs.Outcomes.{verdict_on, passes, first_passing, buffer_peak, is_refused, is_judged, declared_passes, verdict_fails, fails, AreOfSession, status_of};
ghost use Rattle.timing_base.specs.Keys.{media_of};

use crate::status::Status;
use timing_base::{
    FileNote, FlowKey, Judged, Kind, KindVerdict, Media, PcapFault, Row, Session, Verdict,
};

/// Returns the verdict on one sender type.
pub fn verdict_on(judged: &Judged, kind: Kind) -> KindVerdict
    ensures { result ≡ verdict_on judged.now kind }
{
    let [n, nl, w] = judged.kinds;
    match kind {
        Kind::N => n,
        Kind::NL => nl,
        Kind::W => w,
    }
}

/// Returns whether a judged run passes as this type.
fn passes(judged: &Judged, kind: Kind) -> bool
    ensures { result ≡ passes judged.now kind }
{
    matches!(verdict_on(judged, kind), KindVerdict::Pass)
}

/// Returns the first type in the order N, NL, W that passes.
pub fn first_passing(judged: &Judged) -> Option<Kind>
    ensures { result ≡ first_passing judged.now }
{
    if passes(judged, Kind::N) {
        Some(Kind::N)
    } else if passes(judged, Kind::NL) {
        Some(Kind::NL)
    } else if passes(judged, Kind::W) {
        Some(Kind::W)
    } else {
        None
    }
}

/// Returns the most packets that the virtual receiver buffer held: with the gapped reads for N, with the linear reads
/// for NL and W.
pub fn buffer_peak(judged: &Judged, kind: Kind) -> u64
    ensures { result ≡ buffer_peak judged.now kind }
{
    match kind {
        Kind::N => judged.gapped_peak,
        Kind::NL => judged.linear_peak,
        Kind::W => judged.linear_peak,
    }
}

/// Returns the media of a flow.
pub fn media_of(session: &Session, key: FlowKey) -> &Media
    requires { key.media < length session.now }
    ensures { result.now ≡ media_of session.now key }
{
    &session.media.as_slice()[key.media as usize]
}

/// Returns the status of a report: `NotAllJudged` if a flow was not judged as one run, or a capture was refused as
/// malformed; else `Fail` if a flow fails its declared type (if none is declared: all three types); else `Pass`.
pub fn status_of(session: &Session, notes: &[FileNote], rows: &[Row]) -> Status
    requires { AreOfSession session.now rows.now }
    ensures { result ≡ status_of session.now notes.now rows.now }
{
    if any_refused(notes) || !all_judged(rows) {
        Status::NotAllJudged
    } else if any_fails(session, rows) {
        Status::Fail
    } else {
        Status::Pass
    }
}

/// Returns whether a capture was refused since it is malformed. A failed read doesn't count.
pub fn any_refused(notes: &[FileNote]) -> bool
    ensures { result ≡ list_any is_refused notes.now }
{
    notes.iter().any(is_refused)
}

fn is_refused(note: &FileNote) -> bool
    ensures { result ≡ is_refused note.now }
{
    match note {
        FileNote::Refused(fault) => !matches!(fault, PcapFault::ReadFault),
        FileNote::End | FileNote::Cut { .. } => false,
    }
}

fn all_judged(rows: &[Row]) -> bool
    ensures { result ≡ list_all (λ row. is_judged row.verdict) rows.now }
{
    rows.iter()
        .all(|row| matches!(row.verdict, Verdict::Judged(_)))
}

fn any_fails(session: &Session, rows: &[Row]) -> bool
    requires { AreOfSession session.now rows.now }
    ensures { result ≡ list_any (fails session.now) rows.now }
{
    for row in rows {
        if verdict_fails(media_of(session, row.key), &row.verdict) {
            return true;
        }
    }
    false
}

/// Returns whether a flow that was judged as one run fails its declared type.
fn verdict_fails(media: &Media, verdict: &Verdict) -> bool
    ensures { result ≡ verdict_fails media.now verdict.now }
{
    match verdict {
        Verdict::Unjudged(_) | Verdict::Runs(_) => false,
        Verdict::Judged(judged) => !declared_passes(media.declared, judged),
    }
}

/// Returns whether the declared type passes, or if none is declared, any of the three.
fn declared_passes(declared: Option<Kind>, judged: &Judged) -> bool
    ensures { result ≡ declared_passes declared judged.now }
{
    match declared {
        Some(kind) => passes(judged, kind),
        None => passes(judged, Kind::N) || passes(judged, Kind::NL) || passes(judged, Kind::W),
    }
}
