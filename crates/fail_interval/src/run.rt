//! The state of one run between gaps.

ghost use Rattle.std.specs.Prelude.{◌≡◌, ◌≤◌, ◌<◌, ◌+◌, ◌^◌, ◌++◌, ◌∷◌, [], ◌-◌, if◌then◌else◌, ℕ, List, None, Some, IfOk, length, true, false};
ghost use Rattle.timing_base.specs.Shifts.{Shift};
ghost use Rattle.timing_base.specs.Media.{Media as MediaValue};
ghost use Rattle.fail_interval.specs.SoFar.{AreStamps, Groups, SoFar, groups_first, groups_next};
ghost use Rattle.fail_interval.specs.SoFar.{in_first, in_groups, in_head, outcome_of, so_far_next};
ghost use Rattle.fail_interval.specs.Row.{judged_values, run_verdict_of};
ghost use Rattle.timing_base.specs.declared.packet.FlowPacket.{FlowPacket};
ghost use Rattle.run_meter.specs.Runs.{AreWhole, JudgedPart, RunOf, part_of, stamps_of, told_of};
ghost use Rattle.run_meter.specs.declared.run.RunHead.{RunHead as HeadValue};
ghost use Rattle.fail_interval.specs.Metered.{AreJudged, HaveWhole, Heads, IsTold, Keeps, TellsNext, TellsOf};
ghost use Rattle.fail_interval.specs.Parts.{part_by, run_by};

use crate::first::{FirstGroup, meter_first};
use crate::meters::RunMeters;
use run_meter::{RunHead, RunMeter, RunPacket};
use sender_params::Params;
use std::alloc::{AllocError as OutOfMemory, Global};
use timing_base::{Judged, Media, RunVerdict};

/// State of a run with at least one complete frame or field.
#[derive(Drop)]
pub struct WholeGroups<M: Drop> {
    params: Params,
    /// Packets up to and including the first marker.
    head: u64,
    /// Complete frames or fields.
    groups: u64,
    /// Meters of all packets after the first marker.
    meters: RunMeters,
    /// Verdict on the complete frames or fields, without a tail.
    judged: Judged,
    /// Meter that measures the run besides the verdict.
    meter: M,
}

impl<M: RunMeter> WholeGroups<M> {
    ghost use Rattle.fail_interval.specs.Groups.{CanGoOn, IsWhole};
    ghost use Rattle.fail_interval.specs.Meters.{CanFollow, StandsFor as MetersStandFor};

    /// Returns the state after the last packet of the first frame or field. Returns `Err` if memory runs out, as all
    /// calls here do.
    fn first(
        alloc: Global,
        media: &Media,
        run: &RunHead,
        head: u64,
        first: &FirstGroup,
        out: &mut M::Out,
    ) -> Result<WholeGroups<M>, OutOfMemory>
        requires some { 1 ≤ length first.now.stamps.items }
        requires most { length first.now.stamps.items ≤ 262144 }
        requires fit { AreStamps first.now.stamps.items }
        ensures whole { IfOk result (λ groups. IsWhole media.now groups (groups_first head first.now.stamps.items)) }
        ensures told { IfOk result (λ groups. (past : M.Past) (shift : Shift) (opening : FlowPacket)
            (over : List JudgedPart) (packets : List FlowPacket) → Heads opening run.now
            → Keeps shift first.now packets → M.tells past out.old media.now shift over None
            → M.stands groups.meter media.now shift (run_by run.now.run opening groups.params.n) packets packets
            × M.tells past out.new media.now shift over (Some (record {
              run = run_by run.now.run opening groups.params.n;
              packets = packets;
            }))) }
    {
        let params = Params::of(media, first.stamps.len() as u32);
        let mut meter = M::begin(alloc, &params, run, out)?;
        let meters = meter_first(&params, first, &mut meter)?;
        meter.commit(&params, out)?;
        Ok(WholeGroups {
            params,
            head,
            groups: 1,
            meters,
            judged: meters.judged(&params, 1, head),
            meter,
        })
    }

    /// Feeds the next packet to the meters.
    #[inline(always)]
    fn put(&mut self, packet: RunPacket) -> Result<(), OutOfMemory>
        requires { ∥ ((stamps : List ℕ) × CanFollow self.old.params self.old.meters stamps packet.at) ∥₁ }
        ensures params { self.new.params ≡ self.old.params }
        ensures head { self.new.head ≡ self.old.head }
        ensures groups { self.new.groups ≡ self.old.groups }
        ensures judged { self.new.judged ≡ self.old.judged }
        ensures meters { (stamps : List ℕ) → CanFollow self.old.params self.old.meters stamps packet.at
            → MetersStandFor self.old.params self.new.meters (stamps ++ packet.at ∷ []) }
        ensures told { M.WANTS_LEVELS ≡ true → IfOk result (λ _. (shift : Shift) (r : RunOf) (p : FlowPacket)
            (fed committed : List FlowPacket)
            → CanFollow self.old.params self.old.meters (stamps_of shift fed) packet.at
            → r.n ≡ self.old.params.n → packet ≡ told_of shift p
            → M.stands self.old.meter self.old.params.media shift r fed committed
            → M.stands self.new.meter self.old.params.media shift r (fed ++ p ∷ []) committed) }
    {
        if M::WANTS_LEVELS {
            let level = self.meters.feed_level(&self.params, packet.at);
            self.meter.feed(&self.params, packet, level)
        } else {
            self.meters.feed(&self.params, packet.at);
            Ok(())
        }
    }

    /// Takes the next packet, which doesn't end its frame or field.
    #[inline(always)]
    fn feed_within(&mut self, packet: RunPacket) -> Result<(), OutOfMemory>
        requires { ∥ ((m : MediaValue) × (so_far : Groups) × CanGoOn m self.old so_far packet.at false) ∥₁ }
        ensures whole { (m : MediaValue) (so_far : Groups) → CanGoOn m self.old so_far packet.at false
            → IsWhole m self.new (groups_next so_far packet.at false) }
        ensures told { M.WANTS_LEVELS ≡ true → IfOk result (λ _. (m : MediaValue) (so_far : Groups) (shift : Shift)
            (number : ℕ) (first p : FlowPacket) (fed committed : List FlowPacket)
            → CanGoOn m self.old so_far packet.at false
            → so_far.stamps ≡ stamps_of shift fed → packet ≡ told_of shift p
            → M.stands self.old.meter m shift (run_by number first self.old.params.n) fed committed
            → M.stands self.new.meter m shift (run_by number first self.new.params.n) (fed ++ p ∷ []) committed) }
        ensures n { self.new.params.n ≡ self.old.params.n }
    {
        self.put(packet)
    }

    /// Takes the next packet, with the marker if it ends its frame or field.
    #[inline(always)]
    fn feed(&mut self, packet: RunPacket, marker: bool, out: &mut M::Out) -> Result<(), OutOfMemory>
        requires { ∥ ((m : MediaValue) × (so_far : Groups) × CanGoOn m self.old so_far packet.at marker) ∥₁ }
        ensures whole { IfOk result (λ _. (m : MediaValue) (so_far : Groups)
            → CanGoOn m self.old so_far packet.at marker
            → IsWhole m self.new (groups_next so_far packet.at marker)) }
        ensures told { M.WANTS_LEVELS ≡ true → IfOk result (λ _. (past : M.Past) (m : MediaValue) (so_far : Groups)
            (shift : Shift) (number : ℕ) (first p : FlowPacket) (over : List JudgedPart)
            (fed committed : List FlowPacket) → CanGoOn m self.old so_far packet.at marker
            → so_far.stamps ≡ stamps_of shift fed → packet ≡ told_of shift p
            → (marker ≡ true → AreWhole so_far.n (fed ++ p ∷ []))
            → M.stands self.old.meter m shift (run_by number first self.old.params.n) fed committed
            → M.tells past out.old m shift over (Some (record {
              run = run_by number first self.old.params.n;
              packets = committed;
            }))
            → M.stands self.new.meter m shift (run_by number first self.new.params.n) (fed ++ p ∷ [])
            (if marker then fed ++ p ∷ [] else committed)
            × M.tells past out.new m shift over (Some (record {
              run = run_by number first self.new.params.n;
              packets = if marker then fed ++ p ∷ [] else committed;
            }))) }
    {
        self.put(packet)?;
        if marker {
            self.end_group(out)?;
        }
        Ok(())
    }

    /// Ends a frame or field: the verdict is then on all packets so far.
    #[cold]
    #[inline(never)]
    fn end_group(&mut self, out: &mut M::Out) -> Result<(), OutOfMemory>
        requires { self.old.groups < 2 ^ 62 }
        ensures params { self.new.params ≡ self.old.params }
        ensures head { self.new.head ≡ self.old.head }
        ensures groups { self.new.groups ≡ self.old.groups + 1 }
        ensures meters { self.new.meters ≡ self.old.meters }
        ensures judged { (stamps : List ℕ) → MetersStandFor self.old.params self.old.meters stamps
            → self.new.judged ≡ judged_values self.old.params.media (record {
              n = self.old.params.n;
              groups = self.old.groups + 1;
              head = self.old.head;
              tail = 0;
              stamps = stamps;
            }) }
        ensures told { IfOk result (λ _. (shift : Shift) (r : RunOf) (fed committed : List FlowPacket)
            → r.n ≡ self.old.params.n → AreWhole r.n fed
            → M.stands self.old.meter self.old.params.media shift r fed committed
            → M.stands self.new.meter self.old.params.media shift r fed fed) }
        ensures tells { IfOk result (λ _. (past : M.Past) (shift : Shift) (r : RunOf) (over : List JudgedPart)
            (fed committed : List FlowPacket) → r.n ≡ self.old.params.n → AreWhole r.n fed
            → M.stands self.old.meter self.old.params.media shift r fed committed
            → M.tells past out.old self.old.params.media shift over (Some (record { run = r; packets = committed }))
            → M.tells past out.new self.old.params.media shift over (Some (record { run = r; packets = fed }))) }
    {
        self.groups += 1;
        self.judged = self.meters.judged(&self.params, self.groups, self.head);
        self.meter.commit(&self.params, out)
    }

    /// Returns the number of packets after the last marker.
    fn tail(&self) -> u64
        ensures { (m : MediaValue) (so_far : Groups) → IsWhole m self.now so_far
            → result ≡ length so_far.stamps - length so_far.whole }
    {
        self.meters.seen().saturating_sub(self.judged.packets)
    }

    /// Returns the verdict on the run if it ends here.
    fn judged(&self) -> Judged
        ensures { (m : MediaValue) (so_far : Groups) → IsWhole m self.now so_far
            → result ≡ judged_values m (record {
              n = so_far.n;
              groups = so_far.groups;
              head = so_far.head;
              tail = length so_far.stamps - length so_far.whole;
              stamps = so_far.whole;
            }) }
    {
        let mut judged = self.judged;
        judged.tail = self.tail();
        judged
    }

    /// Ends the run, and returns the verdict on it.
    fn close(self, out: &mut M::Out) -> Result<Judged, OutOfMemory>
        ensures judged { IfOk result (λ judged. (m : MediaValue) (so_far : Groups) → IsWhole m self so_far
            → judged ≡ judged_values m (record {
              n = so_far.n;
              groups = so_far.groups;
              head = so_far.head;
              tail = length so_far.stamps - length so_far.whole;
              stamps = so_far.whole;
            })) }
        ensures tells { IfOk result (λ judged. (past : M.Past) (m : MediaValue) (so_far : Groups) (shift : Shift)
            (number : ℕ) (first : FlowPacket) (over : List JudgedPart) (fed committed : List FlowPacket)
            → IsWhole m self so_far
            → AreJudged shift so_far committed
            → M.stands self.meter m shift (run_by number first self.params.n) fed committed
            → M.tells past out.old m shift over (Some (record {
              run = run_by number first self.params.n;
              packets = committed;
            }))
            → M.tells past out.new m shift (over ++ part_of (run_by number first self.params.n) judged committed ∷ [])
            None) }
    {
        let judged = self.judged();
        let WholeGroups { params, meter, .. } = self;
        meter.close(&params, &judged, out)?;
        Ok(judged)
    }
}

/// State of one run between gaps.
#[derive(Drop)]
pub enum RunJudge<M: Drop> {
    /// No packet has the marker yet; `packets` have come.
    Head { packets: u64 },
    /// The first frame or field isn't complete. Its number of packets isn't known yet, so its packets are kept.
    First { head: u64, group: FirstGroup },
    /// The first frame or field is complete.
    Groups(WholeGroups<M>),
}

impl<M: RunMeter> RunJudge<M> {
    ghost use Rattle.fail_interval.specs.Runs.{CanGoOn as CanTake, IsOpenTo, IsWholeFirst, StandsFor, TakesNext};
    ghost use Rattle.fail_interval.specs.Runs.{has_groups};
    ghost use Rattle.fail_interval.specs.declared.run.RunJudge.TheVariants.{First, Groups as GroupsValue, Head};
    ghost use Rattle.fail_interval.specs.declared.run.WholeGroups.{WholeGroups as WholeGroupsValue};

    /// Returns the run before its first packet.
    pub fn new() -> RunJudge<M>
        ensures stands { (m : MediaValue) → StandsFor m result (in_head 0) }
        ensures is { result ≡ Head 0 }
    {
        RunJudge::Head { packets: 0 }
    }

    /// Returns whether the first frame or field is complete.
    #[inline(always)]
    pub fn has_groups(&self) -> bool
        ensures { result ≡ has_groups self.now }
    {
        match self {
            RunJudge::Groups(_) => true,
            RunJudge::First { .. } | RunJudge::Head { .. } => false,
        }
    }

    /// Takes the next packet, which has no marker, after the first frame or field is complete. Returns `Err` if memory
    /// runs out.
    #[inline(always)]
    pub fn feed_whole(&mut self, packet: RunPacket) -> Result<(), OutOfMemory>
        requires whole { has_groups self.old ≡ true }
        requires next { ∥ ((m : MediaValue) × (so_far : SoFar) × CanTake m self.old so_far packet.at false) ∥₁ }
        ensures takes { IfOk result (λ _. (m : MediaValue) (so_far : SoFar)
            → CanTake m self.old so_far packet.at false
            → StandsFor m self.new (so_far_next so_far packet.at false)) }
        ensures tells { M.WANTS_LEVELS ≡ true → (m : MediaValue) (head : HeadValue) (out : M.Out)
            → TellsNext M.stands M.tells m self.old self.new out out head packet false result }
    {
        if let RunJudge::Groups(groups) = self {
            groups.feed_within(packet)?;
        }
        Ok(())
    }

    /// Takes the next packet of this run. Returns `Err` if memory runs out.
    #[inline(always)]
    pub fn feed(
        &mut self,
        alloc: Global,
        media: &Media,
        run: &RunHead,
        packet: RunPacket,
        marker: bool,
        out: &mut M::Out,
    ) -> Result<(), OutOfMemory>
        requires { IsOpenTo media.now self.old packet.at marker }
        ensures takes { TakesNext media.now self.old self.new packet.at marker result }
        ensures tells { M.WANTS_LEVELS ≡ true
            → TellsNext M.stands M.tells media.now self.old self.new out.old out.new run.now packet marker result }
    {
        if let RunJudge::Groups(groups) = self {
            return groups.feed(packet, marker, out);
        }
        self.feed_early(alloc, media, run, packet, marker, out)
    }

    /// Takes the next packet, before the first frame or field is complete. Returns `Err` if memory runs out.
    #[cold]
    #[inline(never)]
    fn feed_early(
        &mut self,
        alloc: Global,
        media: &Media,
        run: &RunHead,
        packet: RunPacket,
        marker: bool,
        out: &mut M::Out,
    ) -> Result<(), OutOfMemory>
        requires early { (groups : WholeGroupsValue M) → self.old ≡ GroupsValue groups → ⊥ }
        requires next { IsOpenTo media.now self.old packet.at marker }
        ensures takes { TakesNext media.now self.old self.new packet.at marker result }
        ensures tells { M.WANTS_LEVELS ≡ true
            → TellsNext M.stands M.tells media.now self.old self.new out.old out.new run.now packet marker result }
    {
        match self {
            RunJudge::Groups(_) => {}
            RunJudge::First { group, .. } => {
                group.push(packet, M::WANTS_LEVELS)?;
                if marker {
                    self.begin_groups(alloc, media, run, out)?;
                }
            }
            RunJudge::Head { packets } => {
                *packets += 1;
                if marker {
                    self.begin_first(alloc);
                }
            }
        }
        Ok(())
    }

    /// Ends the head of the run, since the first marker came.
    #[cold]
    #[inline(never)]
    fn begin_first(&mut self, alloc: Global)
        ensures takes { (m : MediaValue) (packets : ℕ) → self.old ≡ Head packets
            → StandsFor m self.new (in_first packets []) }
        ensures told { (m : MediaValue) (shift : Shift) (number : ℕ) (first : FlowPacket) (packets : ℕ)
            → self.old ≡ Head packets → IsTold M.stands m shift number first self.new [] [] }
    {
        if let RunJudge::Head { packets } = self {
            *self = RunJudge::First {
                head: *packets,
                group: FirstGroup::new(alloc),
            };
        }
    }

    /// Begins the judgement, since the second marker came: the first frame or field is complete. Returns `Err` if
    /// memory runs out.
    #[cold]
    #[inline(never)]
    fn begin_groups(
        &mut self,
        alloc: Global,
        media: &Media,
        run: &RunHead,
        out: &mut M::Out,
    ) -> Result<(), OutOfMemory>
        requires { IsWholeFirst self.old }
        ensures takes { IfOk result (λ _. (head : ℕ) (group : _) → self.old ≡ First head group
            → StandsFor media.now self.new (in_groups (groups_first head group.stamps.items))) }
        ensures tells { IfOk result (λ _. (past : M.Past) (shift : Shift) (first : FlowPacket) (over : List JudgedPart)
            (packets : List FlowPacket) (head : ℕ) (group : _) → self.old ≡ First head group → Heads first run.now
            → Keeps shift group packets → M.tells past out.old media.now shift over None
            → TellsOf M.stands M.tells past media.now shift run.now.run first over self.new out.new packets packets) }
    {
        if let RunJudge::First { head, group } = self {
            *self = RunJudge::Groups(WholeGroups::first(alloc, media, run, *head, group, out)?);
        }
        Ok(())
    }

    /// Ends the run, and returns the verdict on it. Returns `Err` if memory runs out.
    pub fn close(self, out: &mut M::Out) -> Result<RunVerdict, OutOfMemory>
        ensures verdict { IfOk result (λ verdict. (m : MediaValue) (so_far : SoFar) → StandsFor m self so_far
            → verdict ≡ run_verdict_of m (outcome_of so_far)) }
        ensures tells { IfOk result (λ _. (past : M.Past) (m : MediaValue) (shift : Shift) (number : ℕ)
            (first : FlowPacket) (over : List JudgedPart) (so_far : SoFar) (fed committed : List FlowPacket)
            → StandsFor m self so_far
            → HaveWhole shift so_far committed
            → TellsOf M.stands M.tells past m shift number first over self out.old fed committed
            → M.tells past out.new m shift (over ++ part_by m number first committed (outcome_of so_far)) None) }
    {
        match self {
            RunJudge::Head { packets } => Ok(RunVerdict::NoWholeFrame { head: packets }),
            RunJudge::First { head, .. } => Ok(RunVerdict::NoWholeFrame { head }),
            RunJudge::Groups(groups) => Ok(RunVerdict::Judged(groups.close(out)?)),
        }
    }
}
