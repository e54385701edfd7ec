//! The flow of a job, with the rows of its judged runs that aren't written yet.

ghost use Rattle.std.specs.Prelude.{◌≡◌, ◌≤◌, ◌+◌, ◌^◌, ◌∷◌, [], ℕ, List, IfErr, IfOk, length};
ghost use Rattle.std.specs.Io.KnownBytes.{Appends};
ghost use Rattle.timing_base.specs.Captures.{IsStamp};
ghost use Rattle.timing_outside.specs.Causes.{Rose};
ghost use Rattle.timing_outside.specs.Written.{AppendsFront};
ghost use Rattle.timing_steps.specs.declared.failure.Failure.TheVariants as failure;

use fail_interval::Metered;
use flow_demux::MediaFlow;
use flow_measure::rows::{Rows, RowsMeter, header};
use std::alloc::{AllocError as OutOfMemory, Global};
use timing_base::{FileNote, FlowKey, FlowOptions, Media, Verdict};
use timing_outside::{Sink, put_all};
use timing_report::{Status, any_refused};
use timing_steps::{Answer, Failure, not_judged};

/// The flow of a job, which is judged while it is read, with the rows of its judged runs that aren't written yet.
#[derive(Drop)]
pub struct SeriesFlow {
    /// The flow, with its judge and its rows.
    pub flow: MediaFlow<Metered<RowsMeter, Rows>>,
    /// The bytes of the header while it waits for the first row; 0 once it is written.
    pub waiting: usize,
}

ghost use Rattle.timing_measure.specs.series.Status.{series_status};

/// Returns the status for the rows of a flow with this verdict, of captures that end in these ways.
fn status_of(notes: &[FileNote], verdict: &Verdict) -> Status
    ensures { result ≡ series_status notes.now verdict.now }
{
    if any_refused(notes) {
        return Status::NotAllJudged;
    }
    match verdict {
        Verdict::Unjudged(_) => Status::NotAllJudged,
        Verdict::Judged(_) | Verdict::Runs(_) => Status::Pass,
    }
}

impl SeriesFlow {
    ghost use Rattle.timing_measure.specs.series.Stands.{HasRoom, HoldsNoText, HoldsText, PoursOn, StandsFor, TakesOn};
    ghost use Rattle.timing_measure.specs.series.Stands.{text_of};
    ghost use Rattle.timing_measure.specs.series.Ends.{EndsSeries};

    /// Returns the flow before the first packet record. Rows are frames or fields if `frames` is true,
    /// else packets. Returns `Err` if memory runs out.
    pub fn new(
        alloc: Global,
        media: &Media,
        number: u32,
        options: FlowOptions,
        frames: bool,
    ) -> Result<SeriesFlow, OutOfMemory>
        ensures room { IfOk result (HasRoom (2 ^ 41)) }
        ensures stands { IfOk result (λ x. StandsFor frames media.now number options [] x []) }
    {
        let mut text = Vec::new(alloc);
        text.extend_from_slice(header(frames).as_bytes())?;
        let key = FlowKey {
            file: 0,
            media: number,
        };
        let waiting = text.len();
        let rows = Rows::new(text, frames);
        Ok(SeriesFlow {
            flow: MediaFlow::new(media, Metered::new(alloc, media, key, options, rows)),
            waiting,
        })
    }

    /// Takes the next packet record. Returns `Err` if memory runs out.
    #[inline(always)]
    pub fn take(&mut self, number: u64, at: u64, frame: &[u8]) -> Result<(), OutOfMemory>
        requires stamp { IsStamp at }
        requires short { length frame.now ≤ 262144 }
        requires room { HasRoom 1 self.old }
        ensures room { (count : ℕ) → IfOk result (λ _. HasRoom (count + 1) self.old → HasRoom count self.new) }
        ensures takes { IfOk result (λ _. TakesOn self.old self.new
            (record { number = number; stamp = at; bytes = frame.now } ∷ [])) }
    {
        self.flow.take_record(number, at, frame)
    }

    /// Writes the rows that were made since the last call, the first of them behind the header, so that none waits.
    /// Returns `Err` if a write fails; then a prefix of them was written.
    #[inline(always)]
    pub fn pour<K: Sink>(&mut self, out: &mut K) -> Result<(), Failure>
        ensures room { (count : ℕ) → HasRoom count self.old → HasRoom count self.new }
        ensures poured { IfOk result (λ _. (poured : List ℕ)
            × Appends (K.written out.old) (K.written out.new) poured × PoursOn self.old self.new poured) }
        ensures none { IfOk result (λ _. HoldsNoText self.new) }
        ensures failed { IfErr result (λ e. (e ≡ failure.WriteFault)
            × Rose (K.faults out.old) (K.faults out.new)
            × HoldsText self.old × AppendsFront (K.written out.old) (K.written out.new) (text_of self.old)) }
        ensures later { K.faults out.old ≤ K.faults out.new }
    {
        if self.flow.taker.out.text.len() <= self.waiting {
            return Ok(());
        }
        self.pour_all(out)
    }

    /// Writes all text that isn't written yet.
    #[cold]
    #[inline(never)]
    fn pour_all<K: Sink>(&mut self, out: &mut K) -> Result<(), Failure>
        requires some { HoldsText self.old }
        ensures room { (count : ℕ) → HasRoom count self.old → HasRoom count self.new }
        ensures poured { IfOk result (λ _. Appends (K.written out.old) (K.written out.new) (text_of self.old)
            × PoursOn self.old self.new (text_of self.old)) }
        ensures none { IfOk result (λ _. HoldsNoText self.new) }
        ensures failed { IfErr result (λ e. (e ≡ failure.WriteFault)
            × Rose (K.faults out.old) (K.faults out.new)
            × AppendsFront (K.written out.old) (K.written out.new) (text_of self.old)) }
        ensures later { K.faults out.old ≤ K.faults out.new }
    {
        let text = &mut self.flow.taker.out.text;
        match put_all(out, text) {
            Ok(()) => {
                text.clear();
                self.waiting = 0;
                Ok(())
            }
            Err(_) => Err(Failure::WriteFault),
        }
    }

    /// Returns the rest of the answer for captures that end in these ways, behind what was written. Returns `Err` if
    /// memory runs out.
    pub fn finish(self, alloc: Global, notes: &[FileNote]) -> Result<Answer, OutOfMemory>
        ensures { IfOk result (EndsSeries notes.now self) }
    {
        let SeriesFlow { flow, waiting } = self;
        let MediaFlow { media, taker, .. } = flow;
        let (row, rows) = taker.finish()?;
        if 0 < waiting && rows.text.len() <= waiting {
            return not_judged(alloc, &media, &row.verdict);
        }
        Ok(Answer {
            text: rows.text,
            status: status_of(notes, &row.verdict),
        })
    }
}
