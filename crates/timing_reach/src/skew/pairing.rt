//! Compares two flows, packet number by packet number.

ghost use Rattle.std.specs.Prelude.{◌≡◌, ◌==◌, ◌≤◌, ◌<◌, ◌+◌, ◌^◌, ◌∷◌, [], ℕ, List, IfOk, Ok, true, false};
ghost use Rattle.std.specs.List.{cons_option};
ghost use Rattle.std.specs.Option.{ForSome};
ghost use Rattle.timing_base.specs.Captures.{IsStamp};
ghost use Rattle.path_skew.specs.Stands.{count_first, count_second};
ghost use Rattle.timing_reach.specs.skew.Added.{Adds};

use crate::skew::paired::PairedFlow;
use path_skew::{Skew, SkewRow};
use pcap_reader::Taker;
use std::alloc::{AllocError as OutOfMemory, Global};
use timing_base::{FlowPacket, Media};

/// Two flows, and which of them is in the capture that is being read.
#[derive(Drop)]
pub struct Pairing {
    /// The first flow.
    pub first: PairedFlow,
    /// The second flow.
    pub second: PairedFlow,
    /// The comparison so far.
    pub skew: Skew,
}

impl Pairing {
    ghost use Rattle.path_skew.specs.Pair.{skew};
    ghost use Rattle.path_skew.specs.Stands.{StandsFor};
    ghost use Rattle.timing_base.specs.declared.packet.FlowPacket.{FlowPacket};
    ghost use Rattle.timing_reach.specs.skew.Pairs.{HasRoom, PairsOn, are_apart, pair_given};

    /// Returns two flows without a packet, and without a capture that contains them.
    pub fn new(alloc: Global, first: &Media, second: &Media) -> Pairing
        ensures first { result.first.media ≡ first.now }
        ensures second { result.second.media ≡ second.now }
        ensures given { pair_given result ≡ 0 }
        ensures stands { StandsFor result.skew [] [] }
    {
        Pairing {
            first: PairedFlow::new(first),
            second: PairedFlow::new(second),
            skew: Skew::new(alloc),
        }
    }

    /// Begins the capture with this number, from 0, of `count` captures. The first capture contains the first flow, and
    /// the last the second.
    pub fn turn(&mut self, number: usize, count: usize)
        requires { number < count }
        ensures first { self.new.first.media ≡ self.old.first.media }
        ensures second { self.new.second.media ≡ self.old.second.media }
        ensures first_here { self.new.first.is_here ≡ (number == 0) }
        ensures second_here { self.new.second.is_here ≡ (number + 1 == count) }
        ensures skew { self.new.skew ≡ self.old.skew }
    {
        self.first.is_here = number == 0;
        self.second.is_here = number + 1 == count;
    }

    /// Returns whether no packet of this capture can be of both flows.
    #[inline(always)]
    fn are_apart(&self) -> bool
        ensures { result ≡ are_apart self.now }
    {
        !self.first.is_here
            || !self.second.is_here
            || self.first.media.target() != self.second.media.target()
    }

    /// Takes the next packet record if its frame carries the expected packet of the second flow, and no packet can be
    /// of both flows. Returns whether it did; otherwise nothing changes. Returns `Err` if memory runs out.
    #[inline(always)]
    fn take_second(&mut self, number: u64, at: u64, frame: &[u8]) -> Result<bool, OutOfMemory>
        requires stamp { IsStamp at }
        requires room { HasRoom number 1 self.old }
        ensures other { result ≡ Ok false → self.new ≡ self.old }
        ensures room { (count : ℕ) → result ≡ Ok true → HasRoom number (count + 1) self.old
            → HasRoom number count self.new }
        ensures takes { result ≡ Ok true → PairsOn self.old self.new
            (record { number = number; stamp = at; bytes = frame.now } ∷ []) }
    {
        if !self.are_apart() {
            return Ok(false);
        }
        let second = self.second.next_packet(number, at, frame);
        if second.is_none() {
            return Ok(false);
        }
        put_second(&mut self.skew, second)?;
        Ok(true)
    }

    /// Takes the next packet record, whatever its frame contains. Returns `Err` if memory runs out.
    #[inline(always)]
    fn take_any(&mut self, number: u64, at: u64, frame: &[u8]) -> Result<(), OutOfMemory>
        requires stamp { IsStamp at }
        requires room { HasRoom number 1 self.old }
        ensures room { (count : ℕ) → IfOk result (λ _. HasRoom number (count + 1) self.old
            → HasRoom number count self.new) }
        ensures takes { IfOk result (λ _. PairsOn self.old self.new
            (record { number = number; stamp = at; bytes = frame.now } ∷ [])) }
    {
        let apart = self.are_apart();
        let first = self.first.packet_in(number, at, frame);
        put_first(&mut self.skew, first)?;
        if apart && first.is_some() {
            return Ok(());
        }
        let second = self.second.packet_in(number, at, frame);
        put_second(&mut self.skew, second)
    }

    /// Returns the comparison of the two flows if they end here.
    pub fn finish(self) -> SkewRow
        ensures { (f g : List FlowPacket) → StandsFor self.skew f g → result ≡ skew f g }
    {
        let Pairing { skew, .. } = self;
        skew.finish()
    }
}

impl Taker for Pairing {
    ghost use Rattle.pcap_reader.specs.Taken.{StopsAnyhow};
    ghost use Rattle.timing_reach.specs.skew.Pairs.{HasRoom, PairsOn, pairs_more, pairs_none, room_less};

    /// Memory ran out.
    type Stop = OutOfMemory;

    ghost takes = { PairsOn };

    ghost stops = { StopsAnyhow };

    ghost room = { HasRoom };

    ghost none = { pairs_none };

    ghost more = { pairs_more };

    ghost ends = { λ _ _ _ _ _ _ _ _. tt };

    ghost halts = { λ _ _ _ _ _ _. tt };

    ghost less = { room_less };

    #[inline(always)]
    fn take(&mut self, number: u64, at: u64, frame: &[u8]) -> Result<(), OutOfMemory> {
        if self.take_second(number, at, frame)? {
            return Ok(());
        }
        self.take_any(number, at, frame)
    }
}

/// Adds a packet to the first flow, if there is one.
#[inline(always)]
fn put_first(skew: &mut Skew, packet: Option<FlowPacket>) -> Result<(), OutOfMemory>
    requires stamp { ForSome packet (λ packet. IsStamp packet.at) }
    requires few { count_first skew.old < 2 ^ 41 }
    ensures given { count_first skew.new ≤ count_first skew.old + 1 }
    ensures other { count_second skew.new ≡ count_second skew.old }
    ensures adds { IfOk result (λ _. Adds skew.old skew.new (cons_option packet []) []) }
{
    match packet {
        Some(packet) => skew.first(packet),
        None => Ok(()),
    }
}

/// Adds a packet to the second flow, if there is one.
#[inline(always)]
fn put_second(skew: &mut Skew, packet: Option<FlowPacket>) -> Result<(), OutOfMemory>
    requires stamp { ForSome packet (λ packet. IsStamp packet.at) }
    requires few { count_second skew.old < 2 ^ 41 }
    ensures given { count_second skew.new ≤ count_second skew.old + 1 }
    ensures other { count_first skew.new ≡ count_first skew.old }
    ensures adds { IfOk result (λ _. Adds skew.old skew.new [] (cons_option packet [])) }
{
    match packet {
        Some(packet) => skew.second(packet),
        None => Ok(()),
    }
}
