//! A flow so far, in which no packet has a fault.

ghost use Rattle.std.specs.Prelude.{◌≡◌, ◌≤◌, ◌<◌, ◌+◌, ◌*◌, ◌^◌, ◌++◌, ◌∷◌, [], ℕ, List, length, Ok, None, Some, OnOk, IfOk, true, false};
ghost use Rattle.timing_base.specs.Shifts.{IsShift, Shift as ShiftValue};
ghost use Rattle.timing_base.specs.Captures.{IsStamp};
ghost use Rattle.timing_base.specs.Flows.{first_fault_below};
ghost use Rattle.timing_base.specs.declared.packet.FlowPacket.{FlowPacket};
ghost use Rattle.timing_base.specs.declared.packet.Rtp.{Rtp as RtpValue};
ghost use Rattle.timing_base.specs.Judged.{judged_as_numbered};
ghost use Rattle.frame_group.specs.Cuts.{cut_at};
ghost use Rattle.frame_group.specs.Expected.{expected_after, last_number_of};
ghost use Rattle.timing_base.specs.Media.{Media as MediaValue};
ghost use Rattle.fail_interval.specs.Row.{verdict_of};
ghost use Rattle.fail_interval.specs.SoFar.{SoFar, in_head, outcome_of, so_far_next};
ghost use Rattle.run_meter.specs.Runs.{JudgedPart, told_of};
ghost use Rattle.fail_interval.specs.Metered.{Heads, TellsOf};
ghost use Rattle.fail_interval.specs.Parts.{judged_parts};

use crate::current::RunSoFar;
use crate::run::RunJudge;
use crate::shift::NanosecondShift;
use frame_group::Grouper;
use run_meter::{RunHead, RunMeter, RunPacket};
use std::alloc::{AllocError as OutOfMemory, Global};
use std::mem;
use timing_base::{
    Items, Media, PacketFault, Rtp, Run, RunVerdict, Runs, Shift, Unjudged, Verdict,
};

/// A run between gaps that hasn't ended.
#[derive(Drop)]
pub struct OpenRun<M: Drop> {
    /// Packet record of the first packet, counted from 1.
    pub rec: u64,
    /// Packet number of the first packet.
    pub number: u32,
    /// Packet number that would have continued the run before; `None` for the first run.
    pub expected: Option<u32>,
    /// Judge of the run.
    pub judge: RunJudge<M>,
}

impl<M: RunMeter> OpenRun<M> {
    ghost use Rattle.fail_interval.specs.Runs.{StandsFor as RunStandsFor};
    ghost use Rattle.fail_interval.specs.Telling.{TellsOver};

    /// Returns a run of one packet, with this head. `expected` is the packet number that would have continued the run
    /// before. Returns `Err` if memory runs out.
    fn start(
        alloc: Global,
        media: &Media,
        expected: Option<u32>,
        run: RunHead,
        packet: RunPacket,
        marker: bool,
        out: &mut M::Out,
    ) -> Result<OpenRun<M>, OutOfMemory>
        ensures rec { IfOk result (λ open_run. open_run.rec ≡ run.rec) }
        ensures number { IfOk result (λ open_run. open_run.number ≡ run.number) }
        ensures expected { IfOk result (λ open_run. open_run.expected ≡ expected) }
        ensures judge { IfOk result (λ open_run. RunStandsFor media.now open_run.judge
            (so_far_next (in_head 0) packet.at marker)) }
        ensures tells { M.WANTS_LEVELS ≡ true → IfOk result (λ open_run. (past : M.Past) (shift : ShiftValue)
            (first : FlowPacket) (over : List JudgedPart) → packet ≡ told_of shift first → Heads first run
            → M.tells past out.old media.now shift over None
            → TellsOf M.stands M.tells past media.now shift run.run first over open_run.judge out.new [] []) }
    {
        let mut judge = RunJudge::new();
        judge.feed(alloc, media, &run, packet, marker, out)?;
        Ok(OpenRun {
            rec: run.rec,
            number: run.number,
            expected,
            judge,
        })
    }

    /// Ends the run, and returns its result. Returns `Err` if memory runs out.
    fn close(self, out: &mut M::Out) -> Result<Run, OutOfMemory>
        ensures run { IfOk result (λ run. (m : MediaValue) (so_far : SoFar) → RunStandsFor m self.judge so_far
            → run ≡ record {
              rec = self.rec;
              number = self.number;
              expected = self.expected;
              verdict = run_verdict_of m (outcome_of so_far);
            }) }
        ensures tells { IfOk result (λ _. TellsOver M.stands M.tells self out.old out.new) }
    {
        let OpenRun {
            rec,
            number,
            expected,
            judge,
        } = self;
        Ok(Run {
            rec,
            number,
            expected,
            verdict: judge.close(out)?,
        })
    }
}

/// State of a flow in which no packet so far has a fault.
#[derive(Drop)]
pub struct Flow<M: Drop> {
    alloc: Global,
    media: Media,
    /// Shift of the capture timestamps.
    shift: NanosecondShift,
    grouper: Grouper,
    /// Runs before the open one. If there are any, there is room for one more.
    done: Vec<Run>,
    /// Run that hasn't ended; `None` before the first packet.
    open: Option<OpenRun<M>>,
}

impl<M: RunMeter> Flow<M> {
    ghost use Rattle.fail_interval.specs.Flowing.{CanGoOn, ComesNext, EndsBy, HasRoom, StandsFor, Took, TookExpected};
    ghost use Rattle.fail_interval.specs.Flowing.{IsClosed, OpensAt, StartsAt, flow_expects};
    ghost use Rattle.fail_interval.specs.Current.{last_run};
    ghost use Rattle.fail_interval.specs.Telling.{FlowTells, TellsAt, TellsClosed, TellsExpected, TellsTook};

    /// Returns the flow before its first packet.
    pub fn new(alloc: Global, media: &Media, shift: Shift) -> Flow<M>
        requires { IsShift shift }
        ensures media { result.media ≡ media.now }
        ensures shift { result.shift ≡ shift }
        ensures stands { StandsFor result [] }
        ensures tells { (past : M.Past) (out : M.Out) → M.tells past out media.now shift [] None
            → FlowTells M.stands M.tells past result [] out }
    {
        Flow {
            alloc,
            media: *media,
            shift: NanosecondShift::of(shift),
            grouper: Grouper::new(media.pt),
            done: Vec::new(alloc),
            open: None,
        }
    }

    /// Returns the packet number of the last packet; `None` before the first packet.
    pub fn last_number(&self) -> Option<u32>
        ensures { (packets : List FlowPacket) → StandsFor self.now packets → result ≡ last_number_of packets }
    {
        self.grouper.last_number()
    }

    /// Returns the open run; `None` before the first packet.
    pub fn open_run(&self) -> Option<RunSoFar>
        ensures { (packets : List FlowPacket) → StandsFor self.now packets → result ≡ last_run packets }
    {
        match &self.open {
            None => None,
            Some(open) => Some(RunSoFar {
                run: self.done.len() as u64 + 1,
                rec: open.rec,
                number: open.number,
                expected: open.expected,
                whole: open.judge.has_groups(),
            }),
        }
    }

    /// Ends the open run, if there is one. Returns `Err` if memory runs out.
    fn close(&mut self, out: &mut M::Out) -> Result<(), OutOfMemory>
        ensures media { self.new.media ≡ self.old.media }
        ensures shift { self.new.shift ≡ self.old.shift }
        ensures grouper { self.new.grouper ≡ self.old.grouper }
        ensures done { (m : MediaValue) → OnOk result (IsClosed m self.old.done.items self.old.open
            self.new.done.items) }
        ensures room { OnOk result (HasRoom self.old → HasRoom self.new) }
        ensures tells { OnOk result (TellsClosed M.stands M.tells self.old.open out.old out.new) }
    {
        let over = mem::replace(&mut self.open, None);
        if let Some(open) = over {
            self.done.push(open.close(out)?)?;
            self.done.reserve(1)?;
        }
        Ok(())
    }

    /// Begins a run with the next packet, at a gap or at the start of the flow. Returns `Err` if memory runs out.
    #[cold]
    #[inline(never)]
    fn begin(
        &mut self,
        expected: Option<u32>,
        number: u32,
        packet: RunPacket,
        marker: bool,
        out: &mut M::Out,
    ) -> Result<(), OutOfMemory>
        ensures media { self.new.media ≡ self.old.media }
        ensures shift { self.new.shift ≡ self.old.shift }
        ensures grouper { self.new.grouper ≡ self.old.grouper }
        ensures room { OnOk result (HasRoom self.old → HasRoom self.new) }
        ensures begins { (packets : List FlowPacket) (i : ℕ) (so_far : SoFar) (rtp : RtpValue)
            → ComesNext packets self.old.shift i packet.rec packet.at rtp
            → number ≡ rtp.number → marker ≡ rtp.marker
            → expected ≡ cut_at packets i
            → StartsAt packets i self.old.open
            → OpensAt self.old.media self.old.shift packets i so_far self.old.done.items self.old.open
            → OnOk result (OpensAt self.new.media self.new.shift packets (i + 1)
            (so_far_next (in_head 0) packet.at rtp.marker) self.new.done.items self.new.open) }
        ensures tells { M.WANTS_LEVELS ≡ true → (past : M.Past) (packets : List FlowPacket) (i : ℕ) (so_far : SoFar)
            (rtp : RtpValue) → ComesNext packets self.old.shift i packet.rec packet.at rtp
            → number ≡ rtp.number → marker ≡ rtp.marker → packet.timestamp ≡ rtp.timestamp
            → StartsAt packets i self.old.open
            → OpensAt self.old.media self.old.shift packets i so_far self.old.done.items self.old.open
            → first_fault_below packets self.old.media.pt i ≡ None
            → TellsAt M.stands M.tells past self.old.media self.old.shift packets i self.old.open out.old
            → OnOk result (TellsAt M.stands M.tells past self.new.media self.new.shift packets (i + 1) self.new.open
            out.new) }
    {
        self.close(out)?;
        let run = RunHead {
            run: self.done.len() as u64 + 1,
            rec: packet.rec,
            number,
        };
        let open = OpenRun::start(self.alloc, &self.media, expected, run, packet, marker, out)?;
        self.open = Some(open);
        Ok(())
    }

    /// Returns the next packet if it continues its frame or field without a marker, as most do.
    #[inline(always)]
    pub fn expected(&self) -> Option<Rtp>
        ensures follows { (packets : List FlowPacket) → StandsFor self.now packets
            → result ≡ expected_after packets self.now.media.pt }
        ensures is { result ≡ flow_expects self.now }
    {
        self.grouper.expected()
    }

    /// Takes the expected packet, captured at `at` in nanoseconds, if it continues a judged run and has no fault.
    /// Returns whether it was taken; if not, nothing changes. Returns `Err` if memory runs out.
    #[inline(always)]
    pub fn feed_judged(&mut self, rec: u64, at: u64) -> Result<bool, OutOfMemory>
        requires { ∥ ((packets : List FlowPacket) × CanGoOn self.old packets at) ∥₁ }
        ensures media { self.new.media ≡ self.old.media }
        ensures shift { self.new.shift ≡ self.old.shift }
        ensures other { result ≡ Ok false → self.new ≡ self.old }
        ensures goes_on { result ≡ Ok true → TookExpected self.old self.new at }
        ensures tells { result ≡ Ok true → M.WANTS_LEVELS ≡ true
            → TellsExpected M.stands M.tells self.old self.new rec at }
    {
        match &mut self.open {
            Some(open) => {
                if !open.judge.has_groups() {
                    return Ok(false);
                }
                if !self.grouper.feed_expected(at) {
                    return Ok(false);
                }
                let packet = RunPacket {
                    rec,
                    at: self.shift.stamp(at),
                    timestamp: timestamp_of(self.grouper.expected()),
                };
                open.judge.feed_whole(packet)?;
                Ok(true)
            }
            None => Ok(false),
        }
    }

    /// Takes the next packet, which was parsed, if it continues a run with the RTP timestamp of the packet before and
    /// no marker, as most do. Returns whether it was taken; if not, nothing changes. Returns `Err` if memory runs out.
    #[inline(always)]
    pub fn feed_on(
        &mut self,
        rec: u64,
        at: u64,
        rtp: Rtp,
        out: &mut M::Out,
    ) -> Result<bool, OutOfMemory>
        requires { ∥ ((packets : List FlowPacket) × CanGoOn self.old packets at) ∥₁ }
        ensures media { self.new.media ≡ self.old.media }
        ensures shift { self.new.shift ≡ self.old.shift }
        ensures other { result ≡ Ok false → self.new ≡ self.old }
        ensures out { result ≡ Ok false → out.new ≡ out.old }
        ensures goes_on { result ≡ Ok true
            → Took self.old self.new (record { rec = rec; at = at; rtp = Ok rtp }) }
        ensures tells { result ≡ Ok true → M.WANTS_LEVELS ≡ true → TellsTook M.stands M.tells self.old self.new
            out.old out.new (record { rec = rec; at = at; rtp = Ok rtp }) }
    {
        match &mut self.open {
            Some(open) => {
                if !self.grouper.feed_on(at, rtp) {
                    return Ok(false);
                }
                let run = RunHead {
                    run: self.done.len() as u64 + 1,
                    rec: open.rec,
                    number: open.number,
                };
                let packet = RunPacket {
                    rec,
                    at: self.shift.stamp(at),
                    timestamp: rtp.timestamp,
                };
                open.judge
                    .feed(self.alloc, &self.media, &run, packet, rtp.marker, out)?;
                Ok(true)
            }
            None => Ok(false),
        }
    }

    /// Takes the next packet, which was parsed, or returns its fault. Returns `Err` if memory runs out.
    pub fn feed(
        &mut self,
        rec: u64,
        at: u64,
        rtp: Rtp,
        out: &mut M::Out,
    ) -> Result<Option<PacketFault>, OutOfMemory>
        requires { ∥ ((packets : List FlowPacket) × CanGoOn self.old packets at) ∥₁ }
        ensures media { self.new.media ≡ self.old.media }
        ensures shift { self.new.shift ≡ self.old.shift }
        ensures goes_on { result ≡ Ok None
            → Took self.old self.new (record { rec = rec; at = at; rtp = Ok rtp }) }
        ensures tells { result ≡ Ok None → M.WANTS_LEVELS ≡ true → TellsTook M.stands M.tells self.old self.new
            out.old out.new (record { rec = rec; at = at; rtp = Ok rtp }) }
        ensures ends { (fault : _) → result ≡ Ok (Some fault)
            → EndsBy self.old (record { rec = rec; at = at; rtp = Ok rtp }) fault }
        ensures out { (fault : _) → result ≡ Ok (Some fault) → out.new ≡ out.old }
    {
        let cut = match self.grouper.feed(at, rtp) {
            Ok(cut) => cut,
            Err(fault) => return Ok(Some(fault)),
        };
        let packet = RunPacket {
            rec,
            at: self.shift.stamp(at),
            timestamp: rtp.timestamp,
        };
        if cut.is_none() {
            if let Some(open) = &mut self.open {
                let run = RunHead {
                    run: self.done.len() as u64 + 1,
                    rec: open.rec,
                    number: open.number,
                };
                open.judge
                    .feed(self.alloc, &self.media, &run, packet, rtp.marker, out)?;
                return Ok(None);
            }
        }
        self.begin(cut, rtp.number, packet, rtp.marker, out)?;
        Ok(None)
    }

    /// Ends the flow, and returns the verdict on it. Returns `Err` if memory runs out.
    pub fn verdict(self, out: &mut M::Out) -> Result<Verdict, OutOfMemory>
        requires { ∥ ((packets : List FlowPacket) × StandsFor self packets) ∥₁ }
        ensures verdict { IfOk result (λ verdict. (packets : List FlowPacket) → StandsFor self packets
            → verdict ≡ verdict_of self.media (judged_as_numbered packets self.media.pt self.shift)) }
        ensures tells { IfOk result (λ _. (past : M.Past) (packets : List FlowPacket) → StandsFor self packets
            → FlowTells M.stands M.tells past self packets out.old
            → M.tells past out.new self.media self.shift (judged_parts self.media packets self.shift) None) }
    {
        let Flow { mut done, open, .. } = self;
        let open = match open {
            Some(open) => open,
            None => return Ok(Verdict::Unjudged(Unjudged::Absent)),
        };
        let over = open.close(out)?;
        if done.is_empty() {
            return Ok(one_run(over.verdict));
        }
        // Its room was reserved at the last gap.
        let _ = done.push(over);
        Ok(Verdict::Runs(Runs {
            list: Items::from_vec(done),
        }))
    }
}

ghost use Rattle.timing_base.specs.Judged.{RunOutcome};
ghost use Rattle.fail_interval.specs.Row.{one_run_verdict, run_verdict_of};

/// Returns the RTP timestamp of the packet that is expected next, which is that of the packet before; 0 if none is
/// expected.
#[inline(always)]
fn timestamp_of(expected: Option<Rtp>) -> u32
    ensures { (rtp : RtpValue) → expected ≡ Some rtp → result ≡ rtp.timestamp }
{
    match expected {
        Some(rtp) => rtp.timestamp,
        None => 0,
    }
}

/// Returns the verdict on a flow without a gap.
fn one_run(verdict: RunVerdict) -> Verdict
    ensures { (m : MediaValue) (outcome : RunOutcome) → verdict ≡ run_verdict_of m outcome
        → result ≡ one_run_verdict m outcome }
{
    match verdict {
        RunVerdict::NoWholeFrame { head } => Verdict::Unjudged(Unjudged::NoWholeFrame { head }),
        RunVerdict::Judged(judged) => Verdict::Judged(judged),
    }
}
