//! From the arguments of a command line to the output and the status.

ghost use Rattle.std.specs.Prelude.{Some, map, string_bytes};
ghost use Rattle.timing_outside.specs.Shelves.{StaysAs};
ghost use Rattle.timing_steps.specs.Answers.{seen_of};
ghost use Rattle.timing_steps.specs.Ran.{output_of};
ghost use Rattle.timing_words.specs.Request.{request};
ghost use Rattle.timing_top.specs.Ends.{Ends};
ghost use Rattle.timing_top.specs.Runs.{RanAs};

use crate::check::{CheckCommand, check_many};
use crate::help::print_help;
use crate::self_tests::self_test;
use crate::verify::{VerifyCommand, verify_all};
use std::alloc::Global;
use std::sync::Wait;
use std::thread::Threads;
use timing_explain::ExplainCommand;
use timing_measure::{MeasureCommand, PageCommand, SeriesCommand};
use timing_outside::{Gate, Shelf, Sink};
use timing_reach::{ShapeCommand, SkewCommand, WindowCommand, scan_one, sdp_one};
use timing_report::Status;
use timing_steps::{Answer, Failure, conclude, run_command};
use timing_watch::WatchCommand;
use timing_words::{Request, WordFault, read_words};

/// Runs the command of a request. `check` runs on one thread if the job has 0 workers.
fn serve<R: Threads + Wait + Sync, H: Shelf, K: Sink, G: Gate>(
    rt: &R,
    alloc: Global,
    request: Request,
    shelf: &mut H,
    out: &mut K,
    err: &mut K,
    gate: &G,
) -> Status
where
    H::Source: Send,
    ensures ran { RanAs (Some request) (seen_of H.Shelf shelf.old shelf.new)
        (output_of K.Sink out.old out.new)
        (output_of K.Sink err.old err.new)
        result }
    ensures ends { Ends (Some request) (output_of K.Sink out.old out.new) result }
    ensures stays { StaysAs H.text H.lacks H.faults shelf.old shelf.new }
{
    match request {
        Request::Check(job) => {
            let command = CheckCommand { job };
            if command.job.workers == 0 {
                run_command(alloc, &command, shelf, out, err)
            } else {
                check_many(rt, alloc, &command, shelf, out, err, gate)
            }
        }
        Request::Verify(job) => run_command(alloc, &VerifyCommand { job }, shelf, out, err),
        Request::VerifyReport(job) => verify_all(alloc, &job, shelf, out, err),
        Request::SelfTest(job) => self_test(rt, alloc, &job, out, err, gate),
        Request::Window(job) => run_command(alloc, &WindowCommand { job }, shelf, out, err),
        Request::Shape(job) => run_command(alloc, &ShapeCommand { job }, shelf, out, err),
        Request::Scan(job) => scan_one(alloc, &job, shelf, out, err),
        Request::Sdp(job) => sdp_one(alloc, &job, shelf, out, err),
        Request::Skew(job) => run_command(alloc, &SkewCommand { job }, shelf, out, err),
        Request::Measure(job) => run_command(alloc, &MeasureCommand { job }, shelf, out, err),
        Request::Series(job) => run_command(alloc, &SeriesCommand { job }, shelf, out, err),
        Request::Page(job) => run_command(alloc, &PageCommand { job }, shelf, out, err),
        Request::Explain(job) => run_command(alloc, &ExplainCommand { job }, shelf, out, err),
        Request::Watch(job) => run_command(alloc, &WatchCommand { job }, shelf, out, err),
        Request::Help(command) => print_help(alloc, command, out, err),
    }
}

/// Runs the command line `words`, without the name of the program, and returns the status.
///
/// The answer is printed on `out`, whole or not at all, except if a write fails: then `out` has a prefix of it. If
/// there is no answer, `err` has one line with the reason. Only `series` and `watch` print while they read; if that
/// fails, `out` may have a prefix of their output.
///
/// The output depends neither on the number of workers nor on the interleaving of their threads. With workers the call
/// waits for its threads; its clauses hold if it returns.
pub fn run<R: Wait + Threads + Sync, H: Shelf, K: Sink, G: Gate>(
    rt: &R,
    alloc: Global,
    words: &[String],
    shelf: &mut H,
    out: &mut K,
    err: &mut K,
    gate: &G,
) -> Status
where
    H::Source: Send,
    // The answer that the contents of the inputs define was printed, with its status. Or it wasn't, and the status
    // gives the reason: a read of an input failed and the count of its faults rose, a write failed, or memory ran out.
    // Then nothing was printed, or a prefix of the answer if a write failed; `series` and `watch` may also leave a
    // prefix with the other two. What this means for `check` in the terms of the standard is the law `laws::headline`.
    ensures ran { RanAs (request (map string_bytes words.now)) (seen_of H.Shelf shelf.old shelf.new)
        (output_of K.Sink out.old out.new)
        (output_of K.Sink err.old err.new)
        result }

    // Also for contents that aren't known: the status is one that the request may end with, and with 2, 3, 5, 7 and 9
    // nothing was printed. For `series` and `watch` this holds with 3, and with 5 if the status names the SDP; for
    // `sdp` it holds with all of them but 3.
    ensures ends { Ends (request (map string_bytes words.now)) (output_of K.Sink out.old out.new) result }
    ensures stays { StaysAs H.text H.lacks H.faults shelf.old shelf.new }
{
    match read_words(alloc, words) {
        Ok(request) => serve(rt, alloc, request, shelf, out, err, gate),
        Err(WordFault::Usage) => conclude(out, err, Ok(Answer::silent(alloc, Status::Usage))),
        Err(WordFault::OutOfMemory) => conclude(out, err, Err(Failure::OutOfMemory)),
    }
}
