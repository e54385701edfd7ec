//! The skew of two flows.

ghost use Rattle.std.specs.Prelude.{◌≡◌, ◌≤◌, ◌<◌, ◌+◌, ◌^◌, ◌++◌, ◌∷◌, [], false, true, List, Ok, Err, IsErr, IfOk, OnErr, OnOk};
ghost use Rattle.timing_base.specs.declared.packet.FlowPacket.{FlowPacket};
ghost use Rattle.path_skew.specs.Kept.{count_given};
ghost use Rattle.path_skew.specs.Pair.{skew};

use crate::arrival::Arrival;
use crate::flow::Flow;
use crate::matches::Matches;
use crate::pages::{Found, Pages, Side};
use crate::row::SkewRow;
use std::alloc::{AllocError as OutOfMemory, Global};
use timing_base::{FlowPacket, PacketFault, Rtp};

/// Two flows that carry the same packets on two paths. The packets of each flow are given in order; those of the two
/// flows may be interleaved in any way.
#[derive(Drop)]
pub struct Skew {
    /// Counts of the first flow.
    first: Flow,
    /// Counts of the second flow.
    second: Flow,
    /// Packet numbers of both flows.
    pages: Pages,
    /// Skews of the packet numbers that both flows had.
    matches: Matches,
    /// Whether memory ran out.
    spent: bool,
    ghost few_first: { count_given first ≤ 2 ^ 41 },
    ghost few_second: { count_given second ≤ 2 ^ 41 },
    ghost few_matches: { matches.matched ≤ count_given first + count_given second },
}

impl Skew {
    ghost use Rattle.path_skew.specs.Stands.{Gives, IsSpent, StandsFor, count_first, count_second};

    /// Returns two flows without packets.
    pub fn new(alloc: Global) -> Skew
        ensures first { count_first result ≡ 0 }
        ensures second { count_second result ≡ 0 }
        ensures stands { StandsFor result [] [] }
    {
        Skew {
            first: Flow::new(),
            second: Flow::new(),
            pages: Pages::new(alloc),
            matches: Matches::new(),
            spent: false,
        }
    }

    /// Takes the next packet of the first flow. Its capture timestamp is in nanoseconds.
    ///
    /// Returns `Err` if memory runs out. Every later call then returns `Err` too, for both flows, and [`Skew::finish`]
    /// doesn't return the result for these flows.
    #[inline(always)]
    pub fn first(&mut self, packet: FlowPacket) -> Result<(), OutOfMemory>
        requires in_time { packet.at < 2 ^ 62 }
        requires few { count_first self.old < 2 ^ 41 }

        // The first flow then has this packet too.
        ensures stands { (first second : List FlowPacket) → StandsFor self.old first second
            → OnOk result (StandsFor self.new (first ++ packet ∷ []) second) }

        ensures gives { Gives self.old self.new count_first count_second result }
    {
        let FlowPacket { rec, at, rtp } = packet;
        let arrival = Arrival { rec, at };
        let told = take(
            &mut self.pages,
            &mut self.first,
            Side::First,
            &mut self.spent,
            rtp,
            arrival,
        )?;
        if let Some(second) = told {
            self.matches.put(arrival, second);
        }
        Ok(())
    }

    /// Takes the next packet of the second flow, as [`Skew::first`] does for the first.
    #[inline(always)]
    pub fn second(&mut self, packet: FlowPacket) -> Result<(), OutOfMemory>
        requires in_time { packet.at < 2 ^ 62 }
        requires few { count_second self.old < 2 ^ 41 }

        // The second flow then has this packet too.
        ensures stands { (first second : List FlowPacket) → StandsFor self.old first second
            → OnOk result (StandsFor self.new first (second ++ packet ∷ [])) }

        ensures gives { Gives self.old self.new count_second count_first result }
    {
        let FlowPacket { rec, at, rtp } = packet;
        let arrival = Arrival { rec, at };
        let told = take(
            &mut self.pages,
            &mut self.second,
            Side::Second,
            &mut self.spent,
            rtp,
            arrival,
        )?;
        if let Some(first) = told {
            self.matches.put(first, arrival);
        }
        Ok(())
    }

    /// Ends both flows, and returns the result.
    pub fn finish(self) -> SkewRow
        ensures { (first second : List FlowPacket) → StandsFor self first second
            → result ≡ skew first second }
    {
        let Matches {
            matched,
            least,
            greatest,
        } = self.matches;
        SkewRow {
            matched,
            first_only: self.first.numbers.saturating_sub(matched),
            second_only: self.second.numbers.saturating_sub(matched),
            repeated: self.first.repeated + self.second.repeated,
            unread: self.first.unread + self.second.unread,
            least,
            greatest,
        }
    }
}

ghost use Rattle.path_skew.specs.Kept.{view};
ghost use Rattle.path_skew.specs.Step.{Comes, Steps};

/// Takes a packet of one flow. If it was parsed and is the first with its packet number in this flow, returns the other
/// flow's first packet with that number, if any.
///
/// Returns `Err` if memory runs out: the packet isn't counted, and every later call returns `Err` too.
#[inline(always)]
fn take(
    pages: &mut Pages,
    flow: &mut Flow,
    side: Side,
    spent: &mut bool,
    rtp: Result<Rtp, PacketFault>,
    arrival: Arrival,
) -> Result<Option<Arrival>, OutOfMemory>
    requires { count_given flow.old < 2 ^ 41 }
    ensures comes { IfOk result (Comes side pages.old pages.new flow.old flow.new arrival rtp) }
    ensures given { OnOk result (count_given flow.new ≡ count_given flow.old + 1) }
    ensures kept { OnErr result (count_given flow.new ≡ count_given flow.old) }
    ensures whole { OnOk result (spent.new ≡ spent.old) }
    ensures spends { OnErr result (spent.new ≡ true) }
    ensures stays { spent.old ≡ true → IsErr result }
{
    if *spent {
        return Err(OutOfMemory);
    }
    let outcome = match rtp {
        Ok(read) => take_read(pages, flow, side, read.number, arrival),
        Err(_) => {
            flow.unread += 1;
            Ok(None)
        }
    };
    if outcome.is_err() {
        *spent = true;
    }
    outcome
}

/// Takes a packet with this packet number of one flow. If it is the first with the number in this flow, returns the
/// other flow's first packet with the number, if any.
///
/// Returns `Err` if memory runs out: the packet isn't counted.
#[inline(always)]
fn take_read(
    pages: &mut Pages,
    flow: &mut Flow,
    side: Side,
    number: u32,
    arrival: Arrival,
) -> Result<Option<Arrival>, OutOfMemory>
    requires { count_given flow.old < 2 ^ 41 }
    ensures steps { IfOk result (Steps (view side pages.old) (view side pages.new) flow.old flow.new
        number arrival) }
    ensures given { OnOk result (count_given flow.new ≡ count_given flow.old + 1) }
    ensures kept { OnErr result (count_given flow.new ≡ count_given flow.old) }
{
    match pages.meet(&mut flow.near, side, number, arrival)? {
        Found::Again => {
            flow.repeated += 1;
            Ok(None)
        }
        Found::Opens(other) => {
            flow.numbers += 1;
            Ok(other)
        }
    }
}
