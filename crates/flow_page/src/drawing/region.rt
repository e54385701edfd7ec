//! The packets around the first one that breaks a sender type.

ghost use Rattle.std.specs.Prelude.{◌≡◌, ◌≤◌, ◌<◌, ◌+◌, ◌-◌, ◌%◌, ◌^◌, ◌++◌, ◌∷◌, [], min, true, ℕ, ℤ, Option};
ghost use Rattle.std.specs.Prelude.{IfOk, List, length, vec_len};
ghost use Rattle.timing_base.specs.Media.{IsMedia, Media};
ghost use Rattle.timing_base.specs.declared.media.Kind.{Kind as KindValue};
ghost use Rattle.timing_base.specs.declared.row.KindVerdict.TheVariants.{Fail};
ghost use Rattle.flow_measure.specs.Columns.{AreCurve};
ghost use Rattle.flow_page.specs.drawing.Drawn.{IsRegion, start_around};
ghost use Rattle.flow_page.specs.drawing.drawing.Held.{breaks_at, buffer_of, held_by};

use crate::Region;
use flow_measure::{Curve, Extremes};
use run_meter::Level;
use sender_params::Params;
use std::alloc::{AllocError as OutOfMemory, Global};
use timing_base::{Broken, FailProof, Items, Kind};
use vrx_buffer::Held;

/// The greatest number of packets in the picture around a violation.
const SHOWN: u64 = 400;

/// The number of these packets after the violation.
const BEHIND: u64 = 50;

/// The greatest number of packets of a run.
const MOST: u64 = 1 << 41;

/// Returns the first packet in the picture around a violation, from 0.
fn start_around(proof: FailProof) -> u64
    ensures { result ≡ start_around proof }
{
    proof.to.saturating_sub(SHOWN - BEHIND - 1)
}

/// Returns the packet after the last one in the picture, from 0, if `packets` packets are judged.
fn end_around(proof: FailProof, packets: u64) -> u64
    requires { packets ≤ 2 ^ 41 }
    ensures value { result ≡ min (proof.to + 51) packets }
    ensures few { result ≤ 2 ^ 41 }
{
    proof.to.saturating_add(BEHIND + 1).min(packets)
}

/// Returns the level that a model limits for a sender type, in packets.
#[inline(always)]
fn held_by(kind: Kind, model: Broken, level: Level) -> i128
    ensures { result ≡ held_by kind model level }
{
    match model {
        Broken::Bucket => i128::from(level.bucket),
        Broken::Over => i128::from(buffer_of(kind, level).occupancy),
        Broken::Empty => i128::from(buffer_of(kind, level).occupancy),
    }
}

/// Returns the buffer by the reads of a sender type.
#[inline(always)]
fn buffer_of(kind: Kind, level: Level) -> Held
    ensures { result ≡ buffer_of kind level }
{
    match kind {
        Kind::N => level.gapped,
        Kind::NL => level.linear,
        Kind::W => level.linear,
    }
}

/// The limits of a sender type, in packets.
#[derive(Clone, Copy)]
struct Bounds {
    kind: Kind,
    c_max: u64,
    vrx_full: u64,
}

impl Bounds {
    /// Returns whether a packet with these levels just after it breaks a limit, or is late.
    #[inline(always)]
    fn breaks(self, level: Level) -> bool
        ensures { result ≡ breaks_at self.kind self.c_max self.vrx_full level }
    {
        let held = buffer_of(self.kind, level);
        let over = i128::from(held.occupancy) > i128::from(self.vrx_full);
        level.bucket > self.c_max || over || held.late
    }
}

/// A meter of the last packets of a run, up to fifty after the first one that breaks a sender type.
#[derive(Drop)]
pub struct RegionMeter {
    bounds: Bounds,
    /// The first packet that breaks a limit or is late, from 0.
    first: Option<u64>,
    /// The count of packets taken: all so far, or those up to fifty after the first one that breaks the type.
    taken: u64,
    /// The levels just after the last packets taken. Packet i is at index i modulo the length.
    ring: Vec<Level>,
    ghost ring_is: { vec_len ring ≡ 400 },
    ghost few: { taken ≤ 2 ^ 41 },
}

impl RegionMeter {
    ghost use Rattle.run_meter.specs.Levels.{IsLevel};
    ghost use Rattle.run_meter.specs.Runs.{NamesFirst, is_broken};
    ghost use Rattle.flow_page.specs.drawing.drawing.Regions.{DrawsRegion, ShowsFrom};
    ghost use Rattle.flow_page.specs.drawing.drawing.Taken.{is_open};

    /// Returns the meter before the first packet of a run. Returns `Err` if memory runs out.
    pub fn new(alloc: Global, params: &Params, kind: Kind) -> Result<RegionMeter, OutOfMemory>
        ensures { IfOk result (λ r. DrawsRegion params.now.media params.now.n kind r []) }
    {
        let held = Held {
            occupancy: 0,
            late: false,
        };
        let none = Level {
            bucket: 0,
            gapped: held,
            linear: held,
        };
        Ok(RegionMeter {
            bounds: Bounds {
                kind,
                c_max: params.c_max(kind),
                vrx_full: params.vrx_full(kind),
            },
            first: None,
            taken: 0,
            ring: vec![in alloc; none; SHOWN as usize]?,
        })
    }

    /// Takes the levels just after the next packet, if it may be in the picture.
    #[inline(always)]
    pub fn feed(&mut self, level: Level)
        ensures { (m : Media) (n : ℕ) (kind : KindValue) (stamps : List ℕ) (at : ℕ) → length stamps < 2 ^ 41
            → DrawsRegion m n kind self.old stamps → IsLevel m n (stamps ++ at ∷ []) (length stamps) level
            → DrawsRegion m n kind self.new (stamps ++ at ∷ []) }
    {
        if self.takes_next() {
            self.take(level);
        }
    }

    /// Returns whether the next packet is taken. No run has more packets than a meter counts.
    #[inline(always)]
    fn takes_next(&self) -> bool
        ensures room { result ≡ true → self.now.taken < 2 ^ 41 }
        ensures opens { self.now.taken < 2 ^ 41 → result ≡ is_open self.now.first self.now.taken }
    {
        if self.taken == MOST {
            return false;
        }
        self.is_open()
    }

    /// Returns whether the next packet may be in the picture.
    #[inline(always)]
    fn is_open(&self) -> bool
        ensures { result ≡ is_open self.now.first self.now.taken }
    {
        match self.first {
            None => true,
            Some(first) => self.taken.saturating_sub(first) <= BEHIND,
        }
    }

    /// Takes the levels just after the next packet.
    #[inline(always)]
    fn take(&mut self, level: Level)
        requires { self.old.taken < 2 ^ 41 }
        ensures { (m : Media) (n : ℕ) (kind : KindValue) (stamps : List ℕ) (at : ℕ) → self.old.taken ≡ length stamps
            → is_open self.old.first self.old.taken ≡ true
            → DrawsRegion m n kind self.old stamps → IsLevel m n (stamps ++ at ∷ []) (length stamps) level
            → DrawsRegion m n kind self.new (stamps ++ at ∷ []) }
    {
        let packet = self.taken;
        self.ring[(packet % SHOWN) as usize] = level;
        self.first = first_with(self.first, packet, self.bounds.breaks(level));
        self.taken += 1;
    }

    /// Returns the columns of a model's level for the packets from `start` to `end` - 1. Returns `Err` if memory runs
    /// out.
    fn columns(
        &self,
        alloc: Global,
        model: Broken,
        start: u64,
        end: u64,
    ) -> Result<Items<Extremes>, OutOfMemory>
        requires { end ≤ 2 ^ 41 }
        ensures { IfOk result (λ list. (numbers : ℕ → ℤ) → ShowsFrom self.now model start end numbers
            → AreCurve 400 numbers (end - start) list) }
    {
        let mut columns = Curve::new(alloc, SHOWN as u32)?;
        for place in start..end {
            let level = self.ring[(place % SHOWN) as usize];
            columns.feed(held_by(self.bounds.kind, model, level));
        }
        columns.finish(alloc)
    }

    /// Returns the region around the first violation among the first `packets` packets. Returns `Err` if memory runs
    /// out.
    pub fn finish(
        &self,
        alloc: Global,
        proof: FailProof,
        packets: u64,
    ) -> Result<Region, OutOfMemory>
        requires { packets ≤ 2 ^ 41 }
        ensures { IfOk result (λ region. (m : Media) (n : ℕ) (kind : KindValue) (stamps more : List ℕ)
            → IsMedia m → 1 ≤ n → length stamps ≡ packets → DrawsRegion m n kind self.now (stamps ++ more)
            → NamesFirst (is_broken m n stamps kind) (length stamps) (Fail proof)
            → IsRegion m n stamps kind proof region) }
    {
        let start = start_around(proof);
        let end = end_around(proof, packets);
        Ok(Region {
            kind: self.bounds.kind,
            proof,
            start,
            count: end.saturating_sub(start),
            columns: self.columns(alloc, proof.model, start, end)?,
        })
    }
}

ghost use Rattle.flow_page.specs.drawing.drawing.Taken.{first_with};

/// Returns the first packet that breaks a limit, including the next packet, `packet`.
#[inline(always)]
fn first_with(first: Option<u64>, packet: u64, breaks: bool) -> Option<u64>
    ensures { result ≡ first_with first packet breaks }
{
    match first {
        Some(_) => first,
        None => { if breaks { Some(packet) } else { None } }
    }
}
