//! `selftest`: judges captures that the program generates, in the way of `check`.

ghost use Rattle.std.specs.Prelude.{◌≡◌, ◌≤◌, ◌<◌, [], ◌∷◌, IfOk, IfErr, codes, false, length, string_bytes};
ghost use Rattle.timing_base.specs.Shifts.{no_options};
ghost use Rattle.timing_base.specs.Media.{Media as MediaValue};
ghost use Rattle.timing_base.specs.declared.capture.FileNote.{FileNote as Note};
ghost use Rattle.timing_base.specs.declared.row.Row.{Row as RowValue};
ghost use Rattle.timing_base.specs.Targets.{HaveOwnTargets};
ghost use Rattle.timing_outside.specs.Shelves.{StaysAs};
ghost use Rattle.timing_outside.specs.SteadyShelves.{bytes_of};
ghost use Rattle.fail_interval.specs.Rows.{rows_over};
ghost use Rattle.pcapng_reader.specs.Sources.{faults_of};
ghost use Rattle.timing_steps.specs.Ran.{Ran, output_of};
ghost use Rattle.capture_gen.specs.Capture.{capture};
ghost use Rattle.capture_gen.specs.Sdp.{sdp_text};
ghost use Rattle.timing_report.specs.Outcomes.{AreOfSession};
ghost use Rattle.timing_top.specs.Asked.{FollowsSelfTest};
ghost use Rattle.timing_top.specs.Found.{AreReady, Judges};
ghost use Rattle.timing_top.specs.SelfTest.{HasLine, flaw_line};

use crate::alone::Alone;
use crate::captures::Found;
use crate::many::judge_many;
use capture_gen::{capture_len, sdp_bytes, write_capture};
use pcapng_reader::Classic;
use std::alloc::{AllocError as OutOfMemory, Global};
use std::sync::Wait;
use std::thread::Threads;
use timing_base::{FileName, FlowOptions, Media, SelfTestJob, Session};
use timing_outside::{Gate, MemorySink, Shelf, Sink, SteadyShelf};
use timing_report::{Status, status_of, verdict_of};
use timing_steps::{Answer, Failure, conclude, fetch_captures, fetch_session};

/// The number of flaws that a generated capture can have, with flaw 0, which is none.
const FLAWS: u32 = 5;

/// Returns the capture that is generated from its number of frames, with this flaw.
///
/// Returns `Err` if memory runs out. The sink allocates the length of the capture at once, so that no later write
/// fails.
fn made(alloc: Global, frames: u32, flaw: u32) -> Result<Vec<u8>, OutOfMemory>
    requires some { 1 ≤ frames }
    requires few { frames ≤ 20000 }
    requires known { flaw ≤ 4 }
    ensures { IfOk result (λ bytes. bytes.items ≡ capture frames frames flaw) }
{
    let mut sink = MemorySink::new(alloc, capture_len(frames, flaw))?;
    match write_capture(u64::from(frames), frames, flaw, &mut sink) {
        Ok(()) => Vec::from_slice(alloc, sink.bytes()),
        Err(_) => Err(OutOfMemory),
    }
}

/// Returns a shelf with the SDP `plain.sdp` and the capture with this flaw.
fn shelf_with(alloc: Global, frames: u32, flaw: u32) -> Result<SteadyShelf, OutOfMemory>
    requires some { 1 ≤ frames }
    requires few { frames ≤ 20000 }
    requires known { flaw ≤ 4 }
    ensures sdp { IfOk result (λ shelf. bytes_of shelf (codes "plain.sdp") ≡ sdp_text) }
    ensures capture { IfOk result (λ shelf. bytes_of shelf (codes "made.pcap")
        ≡ capture frames frames flaw) }
{
    let mut shelf = SteadyShelf::new(alloc);
    let sdp = Vec::from_slice(alloc, sdp_bytes())?;
    shelf.put(String::from_str(alloc, "plain.sdp")?, sdp)?;
    let capture = made(alloc, frames, flaw)?;
    shelf.put(String::from_str(alloc, "made.pcap")?, capture)?;
    Ok(shelf)
}

/// Judges the media, in each capture by itself, with this many workers; on one thread if `workers` is 0.
fn judge_made<R: Threads + Wait + Sync, H: Shelf, G: Gate>(
    rt: &R,
    alloc: Global,
    shelf: &mut H,
    sources: Vec<Classic<H::Source>>,
    media: &[Media],
    workers: u32,
    gate: &G,
) -> Result<Found, Failure>
where
    H::Source: Send,
    requires ready { AreReady (faults_of H.Source.faults) sources.items media.now }
    requires some { 1 ≤ length sources.items }
    requires some_media { 1 ≤ length media.now }
    requires targets { HaveOwnTargets media.now }
    requires few_workers { workers ≤ 16 }
    ensures judged { Judges (rows_over false no_options media.now) media.now
        H.Shelf H.Source.Source shelf.old shelf.new sources.items result }
    ensures stays { StaysAs H.text H.lacks H.faults shelf.old shelf.new }
{
    if workers == 0 {
        let alone = Alone {
            alloc,
            media,
            joined: false,
            options: FlowOptions::NONE,
        };
        alone.judge(shelf, sources)
    } else {
        judge_many(
            rt,
            alloc,
            shelf,
            sources,
            media,
            false,
            FlowOptions::NONE,
            workers,
            gate,
        )
    }
}

/// Returns the line for a session of one media and one capture.
fn text_on(
    alloc: Global,
    flaw: u32,
    session: &Session,
    found: &Found,
) -> Result<String, OutOfMemory>
    requires one_media { length session.now ≡ 1 }
    requires one_row { length found.now.rows.items ≡ 1 }
    requires of_session { AreOfSession session.now found.now.rows.items }
    ensures { IfOk result (λ s. (media : MediaValue) (note : Note) (row : RowValue)
        → session.now ≡ media ∷ [] → found.now.notes.items ≡ note ∷ []
        → found.now.rows.items ≡ row ∷ [] → string_bytes s ≡ flaw_line flaw media note row) }
{
    let media = &session.media.as_slice()[0];
    let verdict = verdict_of(alloc, media, &found.rows[0].verdict)?;
    let status = status_of(session, &found.notes, &found.rows).code();
    format!(in alloc; "flaw {flaw}: {verdict}; status {status}\n")
}

/// Returns the line of the capture with this flaw. Returns `Err` if memory runs out.
fn line_of<R: Threads + Wait + Sync, G: Gate>(
    rt: &R,
    alloc: Global,
    frames: u32,
    flaw: u32,
    workers: u32,
    gate: &G,
) -> Result<String, Failure>
    requires some { 1 ≤ frames }
    requires few { frames ≤ 20000 }
    requires known { flaw ≤ 4 }
    requires few_workers { workers ≤ 16 }
    ensures line { IfOk result (λ s. HasLine frames flaw (string_bytes s)) }
    ensures memory { IfErr result (λ e. e ≡ Failure.OutOfMemory) }
{
    let mut shelf = shelf_with(alloc, frames, flaw)?;
    let Ok(session) = fetch_session(alloc, &mut shelf, "plain.sdp")? else {
        unreachable!()
    };
    let captures = [FileName::from_text(String::from_str(alloc, "made.pcap")?)];
    let sources = fetch_captures(alloc, &mut shelf, &captures)?;
    let media = session.media.as_slice();
    let found = match judge_made(rt, alloc, &mut shelf, sources, media, workers, gate) {
        Ok(found) => found,
        Err(failure) => return Err(failure),
    };
    Ok(text_on(alloc, flaw, &session, &found)?)
}

/// Returns the answer of `selftest` with this many frames and workers: a line for each flaw. Only one capture is in
/// memory at a time.
fn answer_self_test<R: Threads + Wait + Sync, G: Gate>(
    rt: &R,
    alloc: Global,
    frames: u32,
    workers: u32,
    gate: &G,
) -> Result<Answer, Failure>
    requires some { 1 ≤ frames }
    requires few { frames ≤ 20000 }
    requires few_workers { workers ≤ 16 }
    ensures { FollowsSelfTest frames result }
{
    let mut text = String::new(alloc);
    for flaw in 0..FLAWS {
        text.push_str(line_of(rt, alloc, frames, flaw, workers, gate)?.as_str())?;
    }
    Ok(Answer {
        text: text.into_bytes(),
        status: Status::Pass,
    })
}

/// Runs `selftest`: judges a generated capture for each flaw, with the workers of the job, and prints a line for each
/// on `out`. Prints on `err` the reason if there is no output. Reads nothing. The call may wait for its threads; its
/// clauses hold if it returns.
pub fn self_test<R: Threads + Wait + Sync, K: Sink, G: Gate>(
    rt: &R,
    alloc: Global,
    job: &SelfTestJob,
    out: &mut K,
    err: &mut K,
    gate: &G,
) -> Status
    ensures ran { Ran (FollowsSelfTest job.now.frames) (λ i. ⊥)
        (output_of K.Sink out.old out.new)
        (output_of K.Sink err.old err.new) result }
{
    let outcome = answer_self_test(rt, alloc, job.frames, job.workers, gate);
    conclude(out, err, outcome)
}
