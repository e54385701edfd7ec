//! The flow of a media, with its lines that aren't printed yet.

ghost use Rattle.std.specs.Prelude.{◌≡◌, ◌≤◌, ◌+◌, ◌^◌, ◌++◌, [], ℕ, List, IfOk, string_bytes, true};
ghost use Rattle.timing_base.specs.Shifts.{FlowOptions as FlowOptionsValue};
ghost use Rattle.timing_base.specs.Media.{IsMedia, Media as MediaValue};
ghost use Rattle.timing_base.specs.declared.packet.FlowPacket.{FlowPacket as PacketValue};

use fail_interval::{Metered, RunSoFar};
use flow_demux::{FlowTaker, FlowWriter};
use flow_watch::{Gap, LineForm, Waiting, WatchLines, WatchMeter};
use std::alloc::{AllocError as OutOfMemory, Global};
use timing_base::{FlowKey, FlowOptions, FlowPacket, Media, Row, Rtp, Unjudged};

/// The nanoseconds of a second.
const SECOND: u64 = 1_000_000_000;

/// The taker of the packets of a flow: its judge with the meters of its runs, and the lines of the flow that weren't
/// moved yet.
#[derive(Drop)]
pub struct WatchFlow {
    alloc: Global,
    media: Media,
    /// The judge, and the meters of the runs.
    metered: Metered<WatchMeter, WatchLines>,
    /// The lines that weren't moved yet.
    text: String,
    /// The position of the open run among all runs, counted from 1; 0 before the first packet.
    run: u64,
    /// The packets before the open run.
    before: u64,
    /// The capture timestamp of the run's first packet, or of the packet of the last line that said that the run waits
    /// for a marker.
    since: u64,
    /// Whether a packet had a fault. No line follows then.
    refused: bool,
    ghost media_is: { IsMedia media },
}

impl WatchFlow {
    ghost use Rattle.timing_watch.specs.Watched.{AreFlowLines, IsLeftEnd, Watching};
    ghost use Rattle.timing_watch.specs.making.Flows.{HasRoom, StandsFor, expected_next};
    ghost use Rattle.timing_watch.specs.making.Steps.{AddsRefusal, AddsWaiting, BeginsRun, HasTaken, MovesStretches, TookPacket};
    ghost use Rattle.timing_base.specs.Keys.{key_of};
    ghost use Rattle.fail_interval.specs.Row.{row};

    /// Returns the taker of the flow of a media before the first packet, without a line. `number` is that of the media,
    /// counted from 0. A complete stretch has `every` frames or fields. With `json` each line is a JSON object.
    pub fn new(
        alloc: Global,
        media: &Media,
        number: u32,
        options: FlowOptions,
        every: u32,
        json: bool,
    ) -> WatchFlow
        requires { 1 ≤ every }
        ensures room { HasRoom (2 ^ 41) result }
        ensures text { string_bytes result.text ≡ [] }
        ensures stands { StandsFor (record {
          form = record { media = number; interlaced = media.now.interlaced; json = json };
          every = every;
        }) media.now options result [] }
    {
        let key = FlowKey {
            file: 0,
            media: number,
        };
        let form = LineForm {
            media: number,
            interlaced: media.interlaced,
            json,
        };
        let lines = WatchLines::new(alloc, form, every);
        WatchFlow {
            alloc,
            media: *media,
            metered: Metered::new(alloc, media, key, options, lines),
            text: String::new(alloc),
            run: 0,
            before: 0,
            since: 0,
            refused: false,
        }
    }

    /// Moves the lines of complete stretches behind the others.
    fn add_stretches(&mut self) -> Result<(), OutOfMemory>
        ensures { IfOk result (λ _. MovesStretches self.old self.new) }
    {
        let lines = &mut self.metered.out.text;
        if lines.is_empty() {
            return Ok(());
        }
        self.text.push_str(lines.as_str())?;
        lines.clear();
        Ok(())
    }

    /// Adds the line of what is left of the last stretch, and that of a flow that isn't judged any more, for this
    /// reason.
    fn add_refusal(&mut self, reason: Unjudged) -> Result<(), OutOfMemory>
        ensures { IfOk result (λ _. AddsRefusal reason self.old self.new) }
    {
        self.refused = true;
        let form = self.metered.out.form;
        if let Some(left) = self.metered.out.open {
            form.add_stretch(&mut self.text, &left)?;
        }
        form.add_refused(self.alloc, &mut self.text, &self.media, reason)
    }

    /// Begins a run with a packet that came at `at`, and adds the line of the gap before it, if there is one.
    fn begin_run(&mut self, run: RunSoFar, at: u64) -> Result<(), OutOfMemory>
        ensures { IfOk result (λ _. BeginsRun run at self.old self.new) }
    {
        self.run = run.run;
        self.before = self.metered.judge.fed().saturating_sub(1);
        self.since = at;
        let form = self.metered.out.form;
        match run.expected {
            None => Ok(()),
            Some(expected) => {
                let gap = Gap {
                    rec: run.rec,
                    expected,
                    got: run.number,
                };
                form.add_gap(&mut self.text, gap)
            }
        }
    }

    /// Adds the line that a run waits for a marker, if a second is over at `at`.
    fn add_waiting(&mut self, run: RunSoFar, at: u64) -> Result<(), OutOfMemory>
        ensures { IfOk result (λ _. AddsWaiting run at self.old self.new) }
    {
        if run.whole || at < self.since.saturating_add(SECOND) {
            return Ok(());
        }
        self.since = at;
        let form = self.metered.out.form;
        let waiting = Waiting {
            packets: self.metered.judge.fed().saturating_sub(self.before),
            rec: run.rec,
        };
        form.add_waiting(&mut self.text, waiting)
    }

    /// Adds the lines of a packet that was taken, and came at `at`.
    fn add_lines(&mut self, at: u64) -> Result<(), OutOfMemory>
        ensures expects { IfOk result (λ _. expected_next self.new ≡ expected_next self.old) }
        ensures room { (count : ℕ) → IfOk result (λ _. HasRoom count self.old → HasRoom count self.new) }
        ensures adds { IfOk result (λ _. (w : Watching) (m : MediaValue) (options : FlowOptionsValue)
            (packets : List PacketValue) (p : PacketValue) → p.at ≡ at → HasTaken w m options self.old packets p
            → TookPacket w m options self.old self.new packets p) }
    {
        if self.refused {
            return Ok(());
        }
        self.add_stretches()?;
        if let Some(reason) = self.metered.judge.refusal() {
            return self.add_refusal(reason);
        }
        match self.metered.judge.open_run() {
            None => Ok(()),
            Some(run) if run.run != self.run => self.begin_run(run, at),
            Some(run) => self.add_waiting(run, at),
        }
    }

    /// Ends the flow. Returns its result, and the lines that weren't moved yet, with that of what is left of the last
    /// stretch. Returns `Err` if memory runs out.
    pub fn finish(self) -> Result<(Row, String), OutOfMemory>
        ensures row { IfOk result (λ told. (w : Watching) (m : MediaValue) (options : FlowOptionsValue)
            (packets : List PacketValue) → StandsFor w m options self packets
            → told.0 ≡ row packets (key_of 0 w.form.media) m options) }
        ensures text { IfOk result (λ told. (w : Watching) (m : MediaValue) (options : FlowOptionsValue)
            (packets : List PacketValue) → StandsFor w m options self packets → string_bytes self.text ≡ []
            → IsLeftEnd w m options packets (string_bytes told.1)) }
    {
        let WatchFlow {
            metered,
            mut text,
            ..
        } = self;
        let (row, lines) = metered.finish()?;
        text.push_str(lines.text.as_str())?;
        Ok((row, text))
    }
}

impl FlowTaker for WatchFlow {
    ghost use Rattle.timing_watch.specs.making.Flows.{HasRoom, TakesOn, expected_next, room_less};
    ghost use Rattle.timing_watch.specs.making.Flows.{takes_more, takes_none, takes_other};

    ghost takes = { TakesOn };

    ghost room = { HasRoom };

    ghost expects = { expected_next };

    ghost none = { takes_none };

    ghost other = { takes_other };

    ghost more = { takes_more };

    ghost less = { room_less };

    #[inline(always)]
    fn expected(&self) -> Option<Rtp> {
        self.metered.expected()
    }

    #[inline(always)]
    fn take_next(&mut self, packet: &FlowPacket, frame: &[u8]) -> Result<bool, OutOfMemory> {
        if !self.metered.take_next(packet, frame)? {
            return Ok(false);
        }
        self.add_lines(packet.at)?;
        Ok(true)
    }

    #[inline(always)]
    fn take(&mut self, packet: &FlowPacket, frame: &[u8]) -> Result<(), OutOfMemory> {
        self.metered.take(packet, frame)?;
        self.add_lines(packet.at)
    }
}

impl FlowWriter for WatchFlow {
    ghost use Rattle.timing_watch.specs.making.Flows.{MovesText, text_in};

    ghost text = { text_in };

    ghost moves = { MovesText };

    #[inline(always)]
    fn move_text(&mut self, to: &mut String) -> Result<(), OutOfMemory> {
        if self.text.is_empty() {
            return Ok(());
        }
        to.push_str(self.text.as_str())?;
        self.text.clear();
        Ok(())
    }
}
