//! The flows of the media that are watched, and their lines that aren't printed yet.

ghost use Rattle.std.specs.Prelude.{◌≡◌, ◌≤◌, ◌+◌, ◌^◌, ◌++◌, ◌∷◌, [], ℕ, List, IfErr, IfOk, length, string_bytes};
ghost use Rattle.flow_demux.specs.Rooms.{IsReady};
ghost use Rattle.std.specs.Io.KnownBytes.{Appends};
ghost use Rattle.timing_outside.specs.Causes.{Rose};
ghost use Rattle.timing_outside.specs.Written.{AppendsFront};
ghost use Rattle.timing_steps.specs.declared.failure.Failure.TheVariants as failure;
ghost use Rattle.timing_watch.specs.making.Flows.{expected_next};

use crate::begin::begin_flow;
use crate::flow::WatchFlow;
use flow_demux::{Demux, MediaFlow};
use std::alloc::{AllocError as OutOfMemory, Global};
use timing_base::{Media, Row, WatchJob};
use timing_outside::{Sink, put_all};
use timing_steps::{Failure, Printer};

/// The flows of the media that are watched, over the packet records of captures that are taken as one.
#[derive(Drop)]
pub struct Watch {
    alloc: Global,
    demux: Demux<WatchFlow>,
    /// The lines that aren't printed yet.
    text: String,
    ghost ready: { IsReady expected_next demux },
}

/// What is left of flows that have ended.
#[derive(Drop)]
pub struct Watched {
    /// The results of the flows, in the order of their media.
    pub rows: Vec<Row>,
    /// The lines that aren't printed yet.
    pub text: String,
}

impl Watch {
    ghost use Rattle.timing_watch.specs.making.Watches.{EndsWatch, GoesOn, HasRoom, HoldsText, StandsFor, text_of};

    /// Returns the flows of these media, which count from `first` on, before the first packet record. Returns `Err` if
    /// memory runs out.
    pub fn new(
        alloc: Global,
        job: &WatchJob,
        media: &[Media],
        first: u32,
    ) -> Result<Watch, OutOfMemory>
        requires few { length media.now ≤ 64 }
        requires low { first ≤ 64 }
        ensures room { IfOk result (HasRoom (2 ^ 41)) }
        ensures stands { IfOk result (λ x. StandsFor job.now first media.now [] x []) }
    {
        let mut flows = Vec::new(alloc);
        for (number, each) in media.iter().enumerate() {
            flows.push(begin_flow(alloc, job, each, first + number as u32))?;
        }
        Ok(Watch {
            alloc,
            demux: Demux::new(alloc, flows)?,
            text: String::new(alloc),
        })
    }

    /// Ends the flows. Returns `Err` if memory runs out.
    pub fn finish(self) -> Result<Watched, OutOfMemory>
        ensures { IfOk result (EndsWatch self) }
    {
        let Watch {
            alloc,
            demux,
            mut text,
            ..
        } = self;
        let mut rows = Vec::new(alloc);
        for flow in demux.into_flows() {
            let MediaFlow { taker, .. } = flow;
            let (row, lines) = taker.finish()?;
            rows.push(row)?;
            text.push_str(lines.as_str())?;
        }
        Ok(Watched { rows, text })
    }

    /// Writes all lines.
    #[cold]
    #[inline(never)]
    fn print_all<K: Sink>(&mut self, out: &mut K) -> Result<(), Failure>
        requires some { HoldsText self.old }
        ensures room { (count : ℕ) → HasRoom count self.old → HasRoom count self.new }
        ensures printed { IfOk result (λ _. Appends (K.written out.old) (K.written out.new) (text_of self.old)
            × GoesOn self.old self.new (text_of self.old) []) }
        ensures failed { IfErr result (λ e. (e ≡ failure.WriteFault)
            × Rose (K.faults out.old) (K.faults out.new)
            × AppendsFront (K.written out.old) (K.written out.new) (text_of self.old)) }
        ensures later { K.faults out.old ≤ K.faults out.new }
    {
        match put_all(out, self.text.as_str().as_bytes()) {
            Ok(()) => {
                self.text.clear();
                Ok(())
            }
            Err(_) => Err(Failure::WriteFault),
        }
    }
}

impl Printer for Watch {
    ghost use Rattle.timing_watch.specs.making.Watches.{GoesOn, HasRoom, HoldsText, goes_more, goes_none, less_room, text_of};

    ghost goes_on = { GoesOn };

    ghost room = { HasRoom };

    ghost text = { text_of };

    ghost holds = { HoldsText };

    ghost none = { goes_none };

    ghost more = { goes_more };

    ghost less = { less_room };

    #[inline(always)]
    fn take(&mut self, number: u64, at: u64, frame: &[u8]) -> Result<(), OutOfMemory> {
        self.demux.take(number, at, frame)?;
        self.demux.move_texts(&mut self.text)
    }

    #[inline(always)]
    fn print<K: Sink>(&mut self, out: &mut K) -> Result<(), Failure> {
        if self.text.is_empty() {
            return Ok(());
        }
        self.print_all(out)
    }
}
