//! The judge of one flow.

ghost use Rattle.std.specs.Prelude.{◌≡◌, ◌≤◌, ◌<◌, ◌+◌, ◌^◌, ◌++◌, ◌∷◌, [], ℕ, List, Ok, Err, None, IfOk, IsErr, OnErr, OnOk, length, true, false};
ghost use Rattle.timing_base.specs.Flows.{first_fault};
ghost use Rattle.timing_base.specs.Shifts.{FlowOptions as FlowOptionsValue, Shift as ShiftValue};
ghost use Rattle.frame_group.specs.Expected.{expected_by_options, last_number_of};
ghost use Rattle.timing_base.specs.Captures.{IsStamp};
ghost use Rattle.timing_base.specs.declared.packet.FlowPacket.{FlowPacket};
ghost use Rattle.timing_base.specs.declared.key.FlowKey.{FlowKey as KeyValue};
ghost use Rattle.timing_base.specs.Media.{Media as MediaValue};
ghost use Rattle.fail_interval.specs.Row.{row};
ghost use Rattle.fail_interval.specs.States.{IsKnown, IsReading};

use crate::counting::Counting;
use crate::current::RunSoFar;
use crate::flow::Flow;
use run_meter::RunMeter;
use std::alloc::{AllocError as OutOfMemory, Global};
use timing_base::{FlowKey, FlowOptions, Media, PacketFault, Row, Rtp, Unjudged, Verdict};

/// State after the packets so far.
#[derive(Drop)]
enum State<M: Drop> {
    /// No packet has a fault.
    Going(Flow<M>),
    /// A packet has a fault: the first fault, and its packet record, counted from 1.
    Refused { rec: u64, fault: PacketFault },
    /// Memory ran out.
    Spent,
}

impl<M: RunMeter> State<M> {
    ghost use Rattle.fail_interval.specs.Flowing.{CanGoOn};
    ghost use Rattle.fail_interval.specs.Goings.{CountsOn, GoesAsExpected, GoesBy, GoesOn, Refuses, StateTakes};
    ghost use Rattle.fail_interval.specs.Measured.{StateTellsTaken};
    ghost use Rattle.fail_interval.specs.Current.{open_run_of, refusal_of};
    ghost use Rattle.fail_interval.specs.States.{IsAt};
    ghost use Rattle.fail_interval.specs.Telling.{TellsExpected, TellsTook};
    ghost use Rattle.fail_interval.specs.declared.flow.Flow.{Flow as FlowValue};
    ghost use Rattle.fail_interval.specs.declared.judge.State.TheVariants.{Going, Spent};

    /// Returns the judged number of the last packet, or `None` before the first packet and after a fault.
    fn last_number(&self) -> Option<u32>
        ensures { (media : MediaValue) (shift : ShiftValue) (packets : List FlowPacket)
            → IsAt media shift packets self.now → first_fault packets media.pt ≡ None
            → result ≡ last_number_of packets }
    {
        match self {
            State::Going(flow) => flow.last_number(),
            _ => None,
        }
    }

    /// Returns the open run, or `None` before the first packet and after a fault.
    fn open_run(&self) -> Option<RunSoFar>
        ensures { (media : MediaValue) (shift : ShiftValue) (packets : List FlowPacket)
            → IsAt media shift packets self.now → result ≡ open_run_of packets media.pt }
    {
        match self {
            State::Going(flow) => flow.open_run(),
            _ => None,
        }
    }

    /// Returns the reason why the flow isn't judged, or `None` if no packet has a fault.
    fn refusal(&self) -> Option<Unjudged>
        ensures { (media : MediaValue) (shift : ShiftValue) (packets : List FlowPacket)
            → IsAt media shift packets self.now → result ≡ refusal_of packets media.pt }
    {
        match self {
            State::Refused { rec, fault } => Some(unjudged_by(*rec, *fault)),
            _ => None,
        }
    }

    /// Returns the next packet with its judged number.
    #[inline(always)]
    fn count(&self, counting: &mut Counting, rtp: Rtp) -> Rtp
        ensures { CountsOn counting.old counting.new self.now rtp result }
    {
        if !counting.seq16 {
            return rtp;
        }
        counting.count(self.last_number(), rtp)
    }

    /// Takes the expected packet, captured at `at` in nanoseconds, if it continues a judged run and has no fault.
    /// Returns whether it was taken; if not, nothing changes. Returns `Err` if memory runs out.
    #[inline(always)]
    fn feed_judged(&mut self, rec: u64, at: u64) -> Result<bool, OutOfMemory>
        requires { (flow : FlowValue M) → self.old ≡ Going flow
            → ∥ ((packets : List FlowPacket) × CanGoOn flow packets at) ∥₁ }
        ensures other { result ≡ Ok false → self.new ≡ self.old }
        ensures goes_on { result ≡ Ok true → GoesAsExpected self.old self.new at }
        ensures tells { result ≡ Ok true → M.WANTS_LEVELS ≡ true
            → GoesBy (λ flow later. TellsExpected M.stands M.tells flow later rec at) self.old self.new }
        ensures spent { self.old ≡ Spent → result ≡ Ok false }
    {
        match self {
            State::Going(flow) => flow.feed_judged(rec, at),
            _ => Ok(false),
        }
    }

    /// Takes the next packet if it continues its frame or field without a marker, as most do. Returns whether it was
    /// taken; if not, nothing changes. Returns `Err` if memory runs out.
    #[inline(always)]
    fn feed_on(
        &mut self,
        rec: u64,
        at: u64,
        rtp: Rtp,
        out: &mut M::Out,
    ) -> Result<bool, OutOfMemory>
        requires { (flow : FlowValue M) → self.old ≡ Going flow
            → ∥ ((packets : List FlowPacket) × CanGoOn flow packets at) ∥₁ }
        ensures other { result ≡ Ok false → self.new ≡ self.old }
        ensures out { result ≡ Ok false → out.new ≡ out.old }
        ensures goes_on { result ≡ Ok true → GoesOn self.old self.new rec at rtp }
        ensures tells { result ≡ Ok true → M.WANTS_LEVELS ≡ true
            → GoesBy (λ flow later. TellsTook M.stands M.tells flow later out.old out.new (record {
              rec = rec;
              at = at;
              rtp = Ok rtp;
            })) self.old self.new }
        ensures others { ((flow : FlowValue M) → self.old ≡ Going flow → ⊥) → result ≡ Ok false }
    {
        match self {
            State::Going(flow) => flow.feed_on(rec, at, rtp, out),
            _ => Ok(false),
        }
    }

    /// Takes the next packet, which was parsed, with its judged number. Returns `Err` if memory runs out, or ran out
    /// before.
    #[inline(always)]
    fn feed(&mut self, rec: u64, at: u64, rtp: Rtp, out: &mut M::Out) -> Result<(), OutOfMemory>
        requires stamp { IsStamp at }
        requires known { (flow : FlowValue M) → self.old ≡ Going flow
            → ∥ ((packets : List FlowPacket) × CanGoOn flow packets at) ∥₁ }
        ensures takes { (fed : ℕ) → fed < 2 ^ 41
            → StateTakes fed self.old self.new (record { rec = rec; at = at; rtp = Ok rtp }) result }
        ensures tells { M.WANTS_LEVELS ≡ true → (fed : ℕ) → fed < 2 ^ 41
            → StateTellsTaken M.stands M.tells fed self.old self.new out.old out.new (record {
              rec = rec;
              at = at;
              rtp = Ok rtp;
            }) result }
    {
        match self.feed_on(rec, at, rtp, out) {
            Ok(true) => return Ok(()),
            Ok(false) => {}
            Err(refused) => {
                self.spend();
                return Err(refused);
            }
        }
        // A copy of its own, so that a usual packet is never written to memory.
        let other = Rtp {
            number: rtp.number,
            timestamp: rtp.timestamp,
            marker: rtp.marker,
            pt: rtp.pt,
            ssrc: rtp.ssrc,
        };
        self.feed_other(rec, at, other, out)
    }

    /// Takes the next packet, which was parsed, with its judged number. It may begin or end a frame or field, or have a
    /// fault.
    #[cold]
    #[inline(never)]
    fn feed_other(
        &mut self,
        rec: u64,
        at: u64,
        rtp: Rtp,
        out: &mut M::Out,
    ) -> Result<(), OutOfMemory>
        requires stamp { IsStamp at }
        requires known { (flow : FlowValue M) → self.old ≡ Going flow
            → ∥ ((packets : List FlowPacket) × CanGoOn flow packets at) ∥₁ }
        ensures takes { (fed : ℕ) → fed < 2 ^ 41
            → StateTakes fed self.old self.new (record { rec = rec; at = at; rtp = Ok rtp }) result }
        ensures tells { M.WANTS_LEVELS ≡ true → (fed : ℕ) → fed < 2 ^ 41
            → StateTellsTaken M.stands M.tells fed self.old self.new out.old out.new (record {
              rec = rec;
              at = at;
              rtp = Ok rtp;
            }) result }
    {
        let step = match self {
            State::Going(flow) => flow.feed(rec, at, rtp, out),
            State::Refused { .. } => return Ok(()),
            State::Spent => return Err(OutOfMemory),
        };
        match step {
            Ok(fault) => match fault {
                None => Ok(()),
                Some(fault) => self.refuse(rec, fault),
            },
            Err(refused) => {
                self.spend();
                Err(refused)
            }
        }
    }

    /// Notes the fault of a packet, unless an earlier one has a fault. Returns `Err` if memory ran out before.
    #[cold]
    #[inline(never)]
    fn refuse(&mut self, rec: u64, fault: PacketFault) -> Result<(), OutOfMemory>
        ensures { Refuses self.old self.new rec fault result }
    {
        match self {
            State::Going(_) => {
                *self = State::Refused { rec, fault };
                Ok(())
            }
            State::Refused { .. } => Ok(()),
            State::Spent => Err(OutOfMemory),
        }
    }

    /// Notes that memory ran out.
    #[cold]
    #[inline(never)]
    fn spend(&mut self)
        ensures { self.new ≡ Spent }
    {
        *self = State::Spent;
    }
}

/// The judge of one flow. It gets the flow's packets one by one and in order.
#[derive(Drop)]
pub struct FlowJudge<M: Drop> {
    key: FlowKey,
    /// Number of packets fed.
    fed: u64,
    /// Numbers by which the packets are judged.
    counting: Counting,
    state: State<M>,
    ghost known: { ∥ IsKnown fed state ∥₁ },
}

impl<M: RunMeter> FlowJudge<M> {
    ghost use Rattle.fail_interval.specs.Stands.{IsSpent, StandsFor, Takes, TakesExpected, count_fed, expected_of};
    ghost use Rattle.fail_interval.specs.Measured.{JudgeTells, TellsGoingOn, TellsOfAll, TellsTaken};
    ghost use Rattle.fail_interval.specs.Current.{open_run_of, refusal_of};
    ghost use Rattle.timing_base.specs.Numbered.{numbered};

    /// Returns the judge of the flow with this key, this media and these options, before the first packet. The shift
    /// changes the capture timestamps of judged packets, but not those in a reported fault.
    pub fn new(alloc: Global, media: &Media, key: FlowKey, options: FlowOptions) -> FlowJudge<M>
        ensures fed { count_fed result ≡ 0 }
        ensures stands { StandsFor media.now key options result [] }
        ensures tells { (past : M.Past) (out : M.Out) → M.tells past out media.now options.shift [] None
            → JudgeTells M.stands M.tells past media.now options [] result out }
    {
        FlowJudge {
            key,
            fed: 0,
            counting: Counting::new(options.seq16),
            state: State::Going(Flow::new(alloc, media, options.shift)),
        }
    }

    /// Returns the number of packets fed so far.
    #[inline(always)]
    pub fn fed(&self) -> u64
        ensures is { result ≡ count_fed self.now }
        ensures count { (media : MediaValue) (key : KeyValue) (options : FlowOptionsValue) (packets : List FlowPacket)
            → StandsFor media key options self.now packets → result ≡ length packets }
    {
        self.fed
    }

    /// Returns the run that hasn't ended. Returns `None` before the first packet, and after a fault.
    pub fn open_run(&self) -> Option<RunSoFar>
        ensures { (media : MediaValue) (key : KeyValue) (options : FlowOptionsValue) (packets : List FlowPacket)
            → StandsFor media key options self.now packets
            → result ≡ open_run_of (numbered options.seq16 packets) media.pt }
    {
        self.state.open_run()
    }

    /// Returns the reason why the flow isn't judged any more, which is the first fault of a packet. Returns `None` if no
    /// packet has one.
    pub fn refusal(&self) -> Option<Unjudged>
        ensures { (media : MediaValue) (key : KeyValue) (options : FlowOptionsValue) (packets : List FlowPacket)
            → StandsFor media key options self.now packets
            → result ≡ refusal_of (numbered options.seq16 packets) media.pt }
    {
        self.state.refusal()
    }

    /// Returns the next packet of the flow if it continues its frame or field, as most do: with the next packet number
    /// as it stands in the bytes of its frame, the same RTP timestamp and no marker. Returns `None` before the first
    /// packet, after one with the marker, and after a fault.
    #[inline(always)]
    pub fn expected(&self) -> Option<Rtp>
        ensures follows { (media : MediaValue) (key : KeyValue) (options : FlowOptionsValue) (packets : List FlowPacket)
            → StandsFor media key options self.now packets → result ≡ expected_by_options options packets media.pt }
        ensures is { result ≡ expected_of self.now }
    {
        match &self.state {
            State::Going(flow) => Some(self.counting.own(flow.expected()?)),
            _ => None,
        }
    }

    /// Takes the packet that [`FlowJudge::expected`] returns, captured at `at` in nanoseconds, as [`FlowJudge::feed`]
    /// does.
    ///
    /// The packet is taken, and the result is `true`, if the first frame or field of its run is complete and the packet
    /// has no fault. Else the result is `false`, nothing changes, and the caller passes the packet to `feed`. The
    /// result is also `false` if no packet is expected, or if memory ran out before. Returns `Err` if memory runs out;
    /// the packet then counts as fed, and every later call of `feed` returns `Err` too.
    #[inline(always)]
    pub fn feed_judged(&mut self, rec: u64, at: u64) -> Result<bool, OutOfMemory>
        requires stamp { IsStamp at }
        requires few { count_fed self.old < 2 ^ 41 }

        ensures fed { OnErr result (count_fed self.new ≡ count_fed self.old + 1) }
        ensures other { result ≡ Ok false → self.new ≡ self.old }
        ensures took { result ≡ Ok true → TakesExpected self.old self.new at }
        ensures tells { result ≡ Ok true → M.WANTS_LEVELS ≡ true
            → TellsGoingOn M.stands M.tells self.old self.new rec at }
        ensures spends { OnErr result (IsSpent self.new) }
        ensures stays { IsSpent self.old → result ≡ Ok false }
    {
        match self.state.feed_judged(rec, at) {
            Ok(true) => {
                self.fed += 1;
                Ok(true)
            }
            Ok(false) => Ok(false),
            Err(refused) => {
                self.fed += 1;
                self.state.spend();
                Err(refused)
            }
        }
    }

    /// Takes the next packet of the flow: its packet record, counted from 1, its capture timestamp in nanoseconds, and
    /// its RTP header or the reason why that couldn't be parsed.
    ///
    /// Returns `Err` if memory runs out. Every later call then returns `Err` too, and [`FlowJudge::finish`] doesn't
    /// return the flow's result.
    #[inline(always)]
    pub fn feed(
        &mut self,
        rec: u64,
        at: u64,
        rtp: Result<Rtp, PacketFault>,
        out: &mut M::Out,
    ) -> Result<(), OutOfMemory>
        requires stamp { IsStamp at }
        requires reading { IsReading rtp }
        requires few { count_fed self.old < 2 ^ 41 }

        ensures takes { Takes self.old self.new (record { rec = rec; at = at; rtp = rtp }) result }

        // Holds only for a meter that wants levels.
        ensures tells { M.WANTS_LEVELS ≡ true → TellsTaken M.stands M.tells self.old self.new out.old out.new (record {
          rec = rec;
          at = at;
          rtp = rtp;
        }) result }
    {
        // The cases are split here, so that the usual one goes on with the packet itself.
        match rtp {
            Ok(read) => self.feed_read(rec, at, read, out),
            Err(fault) => self.feed_unread(rec, at, fault),
        }
    }

    /// Takes the next packet, which was parsed.
    #[inline(always)]
    fn feed_read(
        &mut self,
        rec: u64,
        at: u64,
        rtp: Rtp,
        out: &mut M::Out,
    ) -> Result<(), OutOfMemory>
        requires stamp { IsStamp at }
        requires few { count_fed self.old < 2 ^ 41 }

        ensures takes { Takes self.old self.new (record { rec = rec; at = at; rtp = Ok rtp }) result }
        ensures tells { M.WANTS_LEVELS ≡ true → TellsTaken M.stands M.tells self.old self.new out.old out.new (record {
          rec = rec;
          at = at;
          rtp = Ok rtp;
        }) result }
    {
        let judged = self.state.count(&mut self.counting, rtp);
        self.fed += 1;
        self.state.feed(rec, at, judged, out)
    }

    /// Takes the next packet, which couldn't be parsed: that is its fault.
    #[inline(always)]
    fn feed_unread(&mut self, rec: u64, at: u64, fault: PacketFault) -> Result<(), OutOfMemory>
        requires stamp { IsStamp at }
        requires few { count_fed self.old < 2 ^ 41 }

        ensures takes { Takes self.old self.new (record { rec = rec; at = at; rtp = Err fault }) result }
        ensures tells { (out : M.Out) → TellsTaken M.stands M.tells self.old self.new out out (record {
          rec = rec;
          at = at;
          rtp = Err fault;
        }) result }
    {
        self.fed += 1;
        self.state.refuse(rec, fault)
    }

    /// Ends the flow, and returns its result. Returns `Err` if memory runs out.
    pub fn finish(self, out: &mut M::Out) -> Result<Row, OutOfMemory>
        ensures row { IfOk result (λ told. (media : MediaValue) (key : KeyValue) (options : FlowOptionsValue)
            (packets : List FlowPacket) → StandsFor media key options self packets
            → told ≡ row packets key media options) }
        ensures tells { IfOk result (λ _. (past : M.Past) (media : MediaValue) (key : KeyValue)
            (options : FlowOptionsValue) (packets : List FlowPacket) → StandsFor media key options self packets
            → JudgeTells M.stands M.tells past media options packets self out.old
            → TellsOfAll M.tells past media options packets out.new) }
    {
        let FlowJudge { key, state, .. } = self;
        let verdict = match state {
            State::Going(flow) => flow.verdict(out)?,
            State::Refused { rec, fault } => refusal(rec, fault),
            State::Spent => Verdict::Unjudged(Unjudged::Absent),
        };
        Ok(Row { key, verdict })
    }
}

ghost use Rattle.timing_base.specs.Judged.{refusal};
ghost use Rattle.fail_interval.specs.Current.{unjudged_by};
ghost use Rattle.fail_interval.specs.Row.{verdict_of};

/// Returns the reason for a fault: one gap too many is reported as a gap, each other fault as itself.
fn unjudged_by(rec: u64, fault: PacketFault) -> Unjudged
    ensures { result ≡ unjudged_by rec fault }
{
    match fault {
        PacketFault::Number { expected, got } => Unjudged::Gap { rec, expected, got },
        fault => Unjudged::Refused { rec, fault },
    }
}

/// Returns the verdict for a fault.
fn refusal(rec: u64, fault: PacketFault) -> Verdict
    ensures { (media : MediaValue) → result ≡ verdict_of media (refusal rec fault) }
{
    Verdict::Unjudged(unjudged_by(rec, fault))
}
