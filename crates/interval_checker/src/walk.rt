//! The packets of a flow so far, in which no packet has a fault.

ghost use Rattle.std.specs.Prelude.{◌≡◌, ◌≤◌, ◌<◌, ◌+◌, ◌-◌, ◌^◌, ◌++◌, ◌∷◌, ◌==◌, ◌&&◌, [], ℕ, List, None, Some, Err, true, false, length, map, IsSome, OnOk, IfErr, MatchOption};
ghost use Rattle.std.specs.Option.{ForSome};
ghost use Rattle.timing_base.specs.Shifts.{Shift};
ghost use Rattle.timing_base.specs.Captures.{IsStamp};
ghost use Rattle.timing_base.specs.Flows.{cuts, fault, first_of, has_marker, is_cut, is_second_source, last_place, order_fault, size_fault};
ghost use Rattle.timing_base.specs.Judged.{RunOutcome as OutcomeValue, judged_as_numbered, run_outcome, runs_between};
ghost use Rattle.timing_base.specs.declared.fail.FailProof.{FailProof as ProofValue};
ghost use Rattle.timing_base.specs.declared.packet.FlowPacket.{FlowPacket as PacketValue};
ghost use Rattle.interval_checker.specs.Checked.{IsRefused, Says, SaysAt, SaysOutcome};

use crate::asked::Asked;
use crate::before::Before;
use crate::claim::Claim;
use crate::ending::{Ending, Frames};
use crate::interval::is_confirmed;
use crate::marks::Marks;
use crate::sample::Sample;
use timing_base::{FlowPacket, PacketFault, Rtp, Unjudged};

/// State of the check between two packets of a flow, for all claims.
#[derive(Drop)]
pub struct Walk {
    /// Number of packets that came.
    fed: u64,
    before: Option<Before>,
    /// Gaps before the open run, which is its number, counted from 0.
    cuts: u64,
    /// First packet of the open run, counted from 0.
    start: u64,
    /// Markers of the open run, if it has one.
    marks: Option<Marks>,
    /// Data that was asked for, and what is kept of it so far.
    asked: Asked,
    ghost few_cuts: { cuts ≤ 1024 },
    ghost marked: { ForSome marks (λ m. m.last < fed) },
}

impl Walk {
    ghost use Rattle.interval_checker.specs.Asking.{AsksNoLess, EndsAs, EndsAt, IsAsked, if_asked, ending_of, stamp_of};
    ghost use Rattle.interval_checker.specs.Faulty.{read_fault};
    ghost use Rattle.interval_checker.specs.Markers.{AreMarked};
    ghost use Rattle.interval_checker.specs.Packets.{IsAfter, IsRead};
    ghost use Rattle.interval_checker.specs.declared.marks.Marks.{Marks as MarksValue};
    ghost use Rattle.interval_checker.specs.Walks.{Keeps, StandsFor, asked_of, count_fed};

    /// Returns the state before the first packet.
    pub fn new(asked: Asked) -> Walk
        ensures fed { count_fed result ≡ 0 }
        ensures asked { asked_of result ≡ asked }
        ensures stands { (pt : ℕ) (shift : Shift) → StandsFor pt shift result [] }
    {
        Walk {
            fed: 0,
            before: None,
            cuts: 0,
            start: 0,
            marks: None,
            asked,
        }
    }

    /// Takes the next packet. Returns `Err` with the reason why the flow isn't judged, whatever packets follow, if the
    /// packet has a fault. The state is then unspecified.
    pub fn feed(&mut self, pt: u8, packet: FlowPacket) -> Result<(), Unjudged>
        requires few { count_fed self.old < 2 ^ 41 }
        requires stamp { IsStamp packet.at }
        ensures fed { count_fed self.new ≤ count_fed self.old + 1 }
        ensures asked { AsksNoLess (asked_of self.old) (asked_of self.new) }
        ensures goes_on { (shift : Shift) (packets : List PacketValue) → StandsFor pt shift self.old packets
            → OnOk result (StandsFor pt shift self.new (packets ++ packet ∷ [])) }
        ensures ends { (shift : Shift) (packets rest : List PacketValue) → StandsFor pt shift self.old packets
            → IfErr result (IsRefused (judged_as_numbered (packets ++ packet ∷ rest) pt shift)) }
    {
        let fault = match packet.rtp {
            Ok(rtp) => self.step(pt, packet.at, rtp),
            Err(fault) => Some(fault),
        };
        match fault {
            None => Ok(()),
            Some(fault) => Err(refusal(packet.rec, fault)),
        }
    }

    /// Takes the next packet, which was parsed, or returns its fault.
    fn step(&mut self, pt: u8, at: u64, rtp: Rtp) -> Option<PacketFault>
        requires few { count_fed self.old < 2 ^ 41 }
        requires stamp { IsStamp at }
        ensures fed { count_fed self.new ≤ count_fed self.old + 1 }
        ensures asked { AsksNoLess (asked_of self.old) (asked_of self.new) }
        ensures goes_on { (shift : Shift) (packets : List PacketValue) (i : ℕ)
            → Keeps pt shift packets i (cuts packets i) self.old
            → IsRead packets i at rtp → i < length packets → result ≡ None
            → Keeps pt shift packets (i + 1) (cuts packets (i + 1)) self.new }
        ensures ends { (shift : Shift) (packets : List PacketValue) (i : ℕ)
            → Keeps pt shift packets i (cuts packets i) self.old
            → IsRead packets i at rtp → i < length packets
            → result ≡ fault packets pt i }
    {
        let cut = self.is_cut(rtp);
        if let Some(fault) = self.fault(pt, at, rtp, cut) {
            return Some(fault);
        }
        self.enter(cut);
        if let Some(fault) = self.group_fault(rtp.marker) {
            return Some(fault);
        }
        self.pass(at, rtp);
        None
    }

    /// Returns whether there is a gap before the next packet.
    fn is_cut(&self, rtp: Rtp) -> bool
        ensures is { (pt : ℕ) (shift : Shift) (packets : List PacketValue) (i at : ℕ)
            → Keeps pt shift packets i (cuts packets i) self.now
            → IsRead packets i at rtp → result ≡ is_cut packets i }
        ensures begun { result ≡ true → IsSome self.now.before }
    {
        match self.before {
            None => false,
            Some(before) => before.is_cut(rtp),
        }
    }

    /// Returns the fault of the next packet by itself and by the packets before it, except for the size of its frame or
    /// field.
    fn fault(&self, pt: u8, at: u64, rtp: Rtp, cut: bool) -> Option<PacketFault>
        ensures is { (shift : Shift) (packets : List PacketValue) (i : ℕ)
            → Keeps pt shift packets i (cuts packets i) self.now
            → IsRead packets i at rtp → cut ≡ is_cut packets i
            → result ≡ first_of (read_fault pt rtp (is_second_source packets i))
            (order_fault 1024 packets i) }
        ensures few { result ≡ None → cut ≡ true → IsSome self.now.before → self.now.cuts < 1024 }
        ensures ordered { result ≡ None → ForSome self.now.before (λ b. b.at ≤ at) }
    {
        if rtp.pt != pt {
            return Some(PacketFault::PayloadType);
        }
        match self.before {
            None => None,
            Some(before) => {
                if before.is_second_source(rtp) {
                    return Some(PacketFault::SecondSource);
                }
                before.fault(at, rtp, cut, self.cuts)
            }
        }
    }

    /// Returns the fault of the next packet by the size of its frame or field; `None` before the first marker of a run.
    fn group_fault(&self, marker: bool) -> Option<PacketFault>
        ensures is { (pt : ℕ) (shift : Shift) (packets : List PacketValue) (i : ℕ)
            → Keeps pt shift packets i (cuts packets (i + 1)) self.now
            → has_marker packets i ≡ marker → result ≡ size_fault 262144 packets i }
        ensures fits { result ≡ None → ForSome self.now.marks
            (λ m. m.size ≡ None → self.now.fed ≤ m.last + 262144) }
    {
        match self.marks {
            None => None,
            Some(marks) => marks.fault(self.fed, marker),
        }
    }

    /// Ends the open run and begins another, since there is a gap before the next packet.
    #[cold]
    #[inline(never)]
    fn cut(&mut self)
        requires few { self.old.cuts < 1024 }
        ensures fed { self.new.fed ≡ self.old.fed }
        ensures before { self.new.before ≡ self.old.before }
        ensures asked { AsksNoLess (asked_of self.old) (asked_of self.new) }
        ensures keeps { (pt : ℕ) (shift : Shift) (packets : List PacketValue) (i : ℕ)
            → Keeps pt shift packets i (cuts packets i) self.old → is_cut packets i ≡ true
            → Keeps pt shift packets i (cuts packets (i + 1)) self.new }
    {
        let ending = self.ending_here();
        self.asked.over(self.cuts, ending);
        self.cuts += 1;
        self.start = self.fed;
        self.marks = None;
    }

    /// Opens the run of the next packet: if there is a gap before it, the run before ends.
    #[inline]
    fn enter(&mut self, cut: bool)
        requires few { cut ≡ true → self.old.cuts < 1024 }
        ensures fed { self.new.fed ≡ self.old.fed }
        ensures before { self.new.before ≡ self.old.before }
        ensures asked { AsksNoLess (asked_of self.old) (asked_of self.new) }
        ensures keeps { (pt : ℕ) (shift : Shift) (packets : List PacketValue) (i : ℕ)
            → Keeps pt shift packets i (cuts packets i) self.old → cut ≡ is_cut packets i
            → Keeps pt shift packets i (cuts packets (i + 1)) self.new }
    {
        if cut {
            self.cut();
        }
    }

    /// Returns the data that the packet after the next one is compared with.
    #[inline]
    fn next_before(&self, at: u64, rtp: Rtp) -> Before
        ensures at { result.at ≡ at }
        ensures after { (pt : ℕ) (shift : Shift) (packets : List PacketValue) (i : ℕ) (places : List ℕ)
            → Keeps pt shift packets i places self.now
            → IsRead packets i at rtp → IsAfter packets (i + 1) result }
    {
        let source = match self.before {
            None => rtp.ssrc,
            Some(before) => before.source,
        };
        Before { at, rtp, source }
    }

    /// Returns the markers with the next packet, which may have one.
    #[inline]
    fn next_marks(&self, marker: bool) -> Option<Marks>
        requires few { self.now.fed < 2 ^ 41 }
        requires fits { ForSome self.now.marks
            (λ m. m.size ≡ None → self.now.fed ≤ m.last + 262144) }
        ensures marked { ForSome result (λ m. m.last < self.now.fed + 1) }
        ensures begins { (m : MarksValue) → self.now.marks ≡ None → result ≡ Some m
            → m.first ≡ self.now.fed }
        ensures goes_on { (m o : MarksValue) → self.now.marks ≡ Some o → result ≡ Some m
            → m.first ≡ o.first }
        ensures here { (marks : List ℕ) → AreMarked marks self.now.marks → marker ≡ true
            → AreMarked (marks ++ self.now.fed ∷ []) result }
        ensures other { marker ≡ false → result ≡ self.now.marks }
    {
        if !marker {
            return self.marks;
        }
        match self.marks {
            None => Some(Marks::first(self.fed)),
            Some(marks) => Some(marks.with(self.fed)),
        }
    }

    /// Notes the capture timestamp of the next packet, if it comes after the first marker of its run and is asked for.
    #[inline]
    fn keep(&mut self, at: u64)
        requires few { self.old.fed < 2 ^ 41 }
        requires stamp { IsStamp at }
        ensures fed { self.new.fed ≡ self.old.fed }
        ensures before { self.new.before ≡ self.old.before }
        ensures cuts { self.new.cuts ≡ self.old.cuts }
        ensures start { self.new.start ≡ self.old.start }
        ensures marks { self.new.marks ≡ self.old.marks }
        ensures asked { AsksNoLess (asked_of self.old) (asked_of self.new) }
        ensures endings { (r : ℕ) → ending_of (asked_of self.new) r ≡ ending_of (asked_of self.old) r }
        ensures none { self.old.marks ≡ None
            → (r p : ℕ) → stamp_of (asked_of self.new) r p ≡ stamp_of (asked_of self.old) r p }
        ensures some { (o : MarksValue) → self.old.marks ≡ Some o
            → (r p : ℕ) → stamp_of (asked_of self.new) r p
            ≡ if_asked (self.old.cuts == r && self.old.fed - (o.first + 1) == p) at (stamp_of (asked_of self.old) r p) }
    {
        if let Some(marks) = self.marks {
            self.asked.came(self.cuts, self.fed - (marks.first + 1), at);
        }
    }

    /// Takes the next packet, which has no fault, into the open run.
    #[inline]
    fn pass(&mut self, at: u64, rtp: Rtp)
        requires few { count_fed self.old < 2 ^ 41 }
        requires stamp { IsStamp at }
        requires fits { ForSome self.old.marks (λ m. m.size ≡ None → self.old.fed ≤ m.last + 262144) }
        ensures fed { count_fed self.new ≡ count_fed self.old + 1 }
        ensures asked { AsksNoLess (asked_of self.old) (asked_of self.new) }
        ensures keeps { (pt : ℕ) (shift : Shift) (packets : List PacketValue) (i : ℕ)
            → Keeps pt shift packets i (cuts packets (i + 1)) self.old
            → IsRead packets i at rtp → i < length packets
            → fault packets pt i ≡ None
            → Keeps pt shift packets (i + 1) (cuts packets (i + 1)) self.new }
    {
        let before = self.next_before(at, rtp);
        let marks = self.next_marks(rtp.marker);
        self.keep(at);
        self.fed += 1;
        self.before = Some(before);
        self.marks = marks;
    }

    /// Returns the end of the open run if it ends here.
    fn ending_here(&self) -> Ending
        ensures { (pt : ℕ) (shift : Shift) (packets : List PacketValue) (i : ℕ) (places : List ℕ)
            → Keeps pt shift packets i places self.now
            → EndsAs (asked_of self.now) self.now.cuts shift
            (run_outcome packets shift (last_place (0 ∷ places)) i) result }
    {
        let fed = self.fed;
        match self.marks {
            None => Ending::NoWholeFrame {
                head: fed.saturating_sub(self.start),
            },
            Some(marks) => match marks.size {
                None => Ending::NoWholeFrame {
                    head: (marks.first + 1).saturating_sub(self.start),
                },
                Some(size) => Ending::WholeFrames(Frames {
                    size,
                    count: marks.last - marks.first,
                }),
            },
        }
    }

    /// Returns the end of a run that was asked for if the flow ends here, or `None` if the flow has no such run.
    fn ending(&self, run: u64) -> Option<Ending>
        ensures { (pt : ℕ) (shift : Shift) (f : ProofValue) (packets : List PacketValue) (i : ℕ) (places : List ℕ)
            → Keeps pt shift packets i places self.now → IsAsked (asked_of self.now) run f
            → MatchOption result
            (length (map (λ r. r.outcome) (runs_between packets shift i 0 places)) ≤ run)
            (EndsAt (asked_of self.now) run shift
            (map (λ r. r.outcome) (runs_between packets shift i 0 places)) run) }
    {
        if run == self.cuts {
            return Some(self.ending_here());
        }
        if run < self.cuts {
            return self.asked.ending(run);
        }
        None
    }

    /// Returns the answer on a claim on this run, which ends with `ending`.
    fn answer(&self, claim: &Claim, run: u64, ending: Ending) -> Result<bool, Unjudged>
        ensures { (o : OutcomeValue) → IsAsked (asked_of self.now) run claim.now.proof
            → EndsAs (asked_of self.now) run claim.now.shift o ending
            → SaysOutcome claim.now.media claim.now.kind claim.now.proof o result }
    {
        match ending {
            Ending::NoWholeFrame { head } => Err(Unjudged::NoWholeFrame { head }),
            Ending::WholeFrames(frames) => {
                let sample = Sample::of(&self.asked, run, &claim.proof);
                Ok(is_confirmed(claim, frames.size, frames.count, &sample))
            }
        }
    }

    /// Returns the answer on a claim on a run of the flow, if the flow ends here.
    fn answer_here(&self, claim: &Claim) -> Result<bool, Unjudged>
        ensures { (pt : ℕ) (packets : List PacketValue) (i : ℕ) (places : List ℕ)
            → Keeps pt claim.now.shift packets i places self.now
            → IsAsked (asked_of self.now) claim.now.run claim.now.proof
            → SaysAt claim.now.media claim.now.kind claim.now.proof
            (map (λ r. r.outcome) (runs_between packets claim.now.shift i 0 places))
            claim.now.run result }
    {
        let run = u64::from(claim.run);
        match self.ending(run) {
            None => Ok(false),
            Some(ending) => self.answer(claim, run, ending),
        }
    }

    /// Returns the answer on a claim that was asked for, if the flow ends here.
    pub fn finish(&self, claim: &Claim) -> Result<bool, Unjudged>
        ensures { (packets : List PacketValue) → StandsFor claim.now.media.pt claim.now.shift self.now packets
            → IsAsked (asked_of self.now) claim.now.run claim.now.proof
            → Says claim.now.media claim.now.kind claim.now.proof claim.now.run
            (judged_as_numbered packets claim.now.media.pt claim.now.shift) result }
    {
        if self.fed == 0 {
            return Err(Unjudged::Absent);
        }
        self.answer_here(claim)
    }
}

ghost use Rattle.timing_base.specs.Judged.{refusal as refusal_of};

/// Returns the reason for a fault: one gap too many is reported as a gap, each other fault as itself.
fn refusal(rec: u64, fault: PacketFault) -> Unjudged
    ensures { IsRefused (refusal_of rec fault) result }
{
    match fault {
        PacketFault::Number { expected, got } => Unjudged::Gap { rec, expected, got },
        fault => Unjudged::Refused { rec, fault },
    }
}
