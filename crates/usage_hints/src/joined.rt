//! Where the flows of joined captures aren't judged any more.
//!
//! A report numbers the packet records of joined captures on from capture to capture. To name the
//! capture of such a record, and the number of the record there, the captures are judged once more.

ghost use Rattle.std.specs.Prelude.{◌≡◌, ◌≤◌, IfSome, length};
ghost use Rattle.fail_interval.specs.BankStands.{records};
ghost use Rattle.usage_hints.specs.Places.{IsPlace};

use fail_interval::Bank;
use std::alloc::Global;
use timing_base::{
    CaptureJob, FileName, FlowJob, FlowOptions, Items, Media, PacketFault, Row, Session, Unjudged,
    Verdict,
};
use timing_outside::Shelf;
use timing_report::Input;
use timing_steps::{
    Failure, chosen_media, fetch_classic, fetch_session, first_chosen, take_source,
};
use timing_words::Request;

/// The flows of several captures that a request takes as one.
#[derive(Clone, Copy)]
pub struct JoinedFlows<'a> {
    /// The session description.
    sdp: &'a FileName,
    /// The captures in their order.
    captures: &'a [FileName],
    /// How the packets of the flows are timed and numbered.
    options: FlowOptions,
    /// The media that is judged alone, counted from 0, or `None` for all media.
    media: Option<u32>,
    ghost few: { length captures.now ≤ 16 },
}

/// A packet record from which on a flow of joined captures isn't judged.
#[derive(Clone, Copy)]
pub struct Refusal<'a> {
    /// The capture that has the record.
    pub capture: &'a str,
    /// The media of the flow, counted from 0.
    pub media: u32,
    /// The number of the record among those of all captures, counted from 1.
    pub joined: u64,
    /// Its number in the capture, counted from 1.
    pub record: u64,
    /// Whether its capture timestamp is below that of the flow's packet before, and it isn't in the first
    /// capture.
    pub is_earlier: bool,
}

/// Returns the flows of all media, or of the chosen one, of these captures if they are several.
fn several<'a>(
    sdp: &'a FileName,
    captures: &'a Items<FileName>,
    options: FlowOptions,
    media: Option<u32>,
) -> Option<JoinedFlows<'a>>
    requires few { length captures.now ≤ 16 }
{
    if captures.len() < 2 {
        return None;
    }
    Some(JoinedFlows {
        sdp,
        captures: captures.as_slice(),
        options,
        media,
    })
}

/// Returns the flows of a job over captures that are joined if they are several.
fn of_captures(job: &CaptureJob) -> Option<JoinedFlows<'_>> {
    several(&job.sdp, &job.captures, job.options, job.media)
}

/// Returns the flow of a job over captures that are joined if they are several.
fn of_flow(job: &FlowJob) -> Option<JoinedFlows<'_>> {
    several(&job.sdp, &job.captures, job.options, Some(job.media))
}

/// A packet record of one of joined captures.
#[derive(Clone, Copy)]
struct Place {
    /// The capture, counted from 0.
    capture: usize,
    /// The number of the record in the capture, counted from 1.
    number: u64,
}

/// Returns the place of a record by its number among those of all captures, counted from 1. `starts` has
/// for each capture the number of records before it.
fn place_of(starts: &[u64], joined: u64) -> Option<Place>
    ensures { IfSome result (λ place.
        IsPlace starts.now (length starts.now) joined place.capture place.number) }
{
    let mut found = None;
    for capture in 0..starts.len() {
        let before = starts[capture];
        if before < joined {
            found = Some(Place {
                capture,
                number: joined - before,
            });
        }
    }
    found
}

/// Returns the number of the record from which on a flow isn't judged, counted from 1. Returns `None` if
/// there is none.
fn end_of(verdict: &Verdict) -> Option<u64> {
    match verdict {
        Verdict::Unjudged(Unjudged::Refused { rec, .. } | Unjudged::Gap { rec, .. }) => Some(*rec),
        _ => None,
    }
}

/// Returns whether a flow isn't judged because a capture timestamp is below the one before.
fn goes_back(verdict: &Verdict) -> bool {
    matches!(
        verdict,
        Verdict::Unjudged(Unjudged::Refused {
            fault: PacketFault::StampBack { .. },
            ..
        })
    )
}

/// Feeds the packet records of captures to a bank as those of one, and returns for each capture the
/// number of records before it.
fn take_joined<H: Shelf>(
    alloc: Global,
    shelf: &mut H,
    captures: &[FileName],
    bank: &mut Bank,
) -> Result<Vec<u64>, Failure>
    requires few { length captures.now ≤ 16 }
    requires none { records bank.old ≡ 0 }
{
    let mut starts = Vec::new(alloc);
    let mut before = 0;
    for number in 0..captures.len() {
        let source = match fetch_classic(alloc, shelf, captures[number].as_str()) {
            Ok(source) => source,
            Err(fault) => {
                return Err(Failure::of_input(fault, Input::Capture(number as u32)));
            }
        };
        let taken = take_source(alloc, shelf, source, number as u32, before, bank)?;
        starts.push(before)?;
        before += taken.records;
    }
    Ok(starts)
}

/// Returns the media of a session that are judged, at most 64.
fn judged_media(session: &Session, only: Option<u32>) -> &[Media]
    ensures { length result.now ≤ 64 }
{
    let count = session.media.len();
    prove!(count <= 64);
    chosen_media(session, only)
}

impl<'a> JoinedFlows<'a> {
    /// Returns the flows of a request that judges several captures as one. Returns `None` for another
    /// request.
    pub fn of(request: &'a Request) -> Option<JoinedFlows<'a>> {
        match request {
            Request::Check(job) if job.joined => {
                several(&job.sdp, &job.captures, job.options, job.media)
            }
            Request::Window(job) => of_flow(job),
            Request::Shape(job) => of_flow(&job.flow),
            Request::Series(job) => of_flow(&job.flow),
            Request::Measure(job) | Request::Page(job) => of_captures(job),
            Request::Explain(job) => of_captures(&job.flows),
            Request::Watch(job) => of_captures(&job.flows),
            Request::Check(_)
            | Request::Verify(_)
            | Request::VerifyReport(_)
            | Request::SelfTest(_)
            | Request::Scan(_)
            | Request::Sdp(_)
            | Request::Skew(_)
            | Request::Help(_) => None,
        }
    }

    /// Returns the captures in their order.
    pub fn captures(&self) -> &'a [FileName] {
        self.captures
    }

    /// Returns where a flow with this result isn't judged any more. `starts` has for each capture the
    /// number of records before it. Returns `None` for a flow that is judged, or that has no packet.
    fn refusal_of(&self, row: &Row, starts: &[u64]) -> Option<Refusal<'a>> {
        let joined = end_of(&row.verdict)?;
        let place = place_of(starts, joined)?;
        let capture = self.captures.get(place.capture)?;
        Some(Refusal {
            capture: capture.as_str(),
            media: row.key.media.saturating_add(first_chosen(self.media)),
            joined,
            record: place.number,
            is_earlier: place.capture > 0 && goes_back(&row.verdict),
        })
    }

    /// Judges the flows once more, and returns where those end that aren't judged to the end of the
    /// captures, by rising media.
    ///
    /// Returns `ReadFault` with an input that couldn't be read, and `OutOfMemory` if memory runs out. If
    /// the session description isn't valid any more, nothing is returned.
    pub fn refusals<H: Shelf>(
        &self,
        alloc: Global,
        shelf: &mut H,
    ) -> Result<Vec<Refusal<'a>>, Failure> {
        let mut found = Vec::new(alloc);
        let Ok(session) = fetch_session(alloc, shelf, self.sdp.as_str())? else {
            return Ok(found);
        };
        let media = judged_media(&session, self.media);
        let mut bank = Bank::new(alloc, media, 0, self.options)?;
        let starts = take_joined(alloc, shelf, self.captures, &mut bank)?;
        let mut rows = Vec::new(alloc);
        bank.finish(&mut rows)?;
        for row in rows.iter() {
            if let Some(refusal) = self.refusal_of(row, starts.as_slice()) {
                found.push(refusal)?;
            }
        }
        Ok(found)
    }
}
