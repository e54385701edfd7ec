//! `st2110_timing`: judges the timing of video senders from captures, after SMPTE ST 2110-21:2017.
//!
//! `start` runs the arguments of the process by [`timing_top::run`], which does the work. Here it gets files, the
//! standard streams, and a gate that is always open.
#![tactic(auto)]

mod ending;
mod start;
mod stream;

use crate::start::start;
use crate::stream::{Stream, null_devices};
use std::process::ExitCode;
use timing_outside::{FileShelf, NoGate, StdSink};

fn main(rt: HostRuntime) -> ExitCode {
    let _streams = null_devices(&rt);
    let mut out = StdSink::new(&rt, Stream::Out(rt.stdout()));
    let mut err = StdSink::new(&rt, Stream::Err(rt.stderr()));
    start(&rt, &mut FileShelf::new(&rt), &mut out, &mut err, &NoGate)
}
