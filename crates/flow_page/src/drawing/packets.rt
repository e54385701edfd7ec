//! The columns of the levels at the packets of a run.

ghost use Rattle.std.specs.Prelude.{◌≡◌, ◌≤◌, ◌<◌, ◌+◌, ◌^◌, ◌++◌, ◌∷◌, [], ℕ, ℤ, IfOk, List};
ghost use Rattle.std.specs.Prelude.{length};
ghost use Rattle.timing_base.specs.Media.{Media};
ghost use Rattle.flow_measure.specs.Columns.{AreCurve, AreEye};

use flow_measure::{Curve, Extremes, Eye};
use run_meter::Level;
use std::alloc::{AllocError as OutOfMemory, Global};
use timing_base::Items;

/// The greatest number of columns over all packets, or over all frames or fields.
pub const CURVE: u32 = 1000;

/// The greatest number of columns with all frames or fields overlaid.
const EYE: u32 = 500;

/// The columns of one level just after each packet: over all packets, and with all frames or fields overlaid.
#[derive(Drop)]
pub struct LevelColumns {
    /// The packets per frame or field.
    pub n: u64,
    /// The count of packets fed.
    pub seen: u64,
    curve: Curve<i128>,
    eye: Eye<i128>,
    ghost curve_is: { curve.seen ≡ seen },
    ghost curve_most: { curve.most ≡ 1000 },
    ghost eye_is: { eye.seen ≡ seen },
    ghost eye_group: { eye.group ≡ n },
    ghost eye_most: { eye.most ≡ 500 },
}

impl LevelColumns {
    ghost use Rattle.flow_page.specs.drawing.drawing.Columns.{DrawsLevel};

    /// Returns the columns before the first packet, for frames or fields of `n` packets. Returns `Err` if memory runs
    /// out.
    fn new(alloc: Global, n: u64) -> Result<LevelColumns, OutOfMemory>
        requires some { 1 ≤ n }
        requires few { n < 2 ^ 41 }
        ensures n { IfOk result (λ c. c.n ≡ n) }
        ensures seen { IfOk result (λ c. c.seen ≡ 0) }
        ensures draws { IfOk result (λ c. (level : ℕ → ℤ) → DrawsLevel c level) }
    {
        Ok(LevelColumns {
            n,
            seen: 0,
            curve: Curve::new(alloc, CURVE)?,
            eye: Eye::new(alloc, n, EYE)?,
        })
    }

    /// Takes the level just after the next packet.
    #[inline(always)]
    fn feed(&mut self, number: i128)
        requires few { self.old.seen < 2 ^ 41 }
        ensures n { self.new.n ≡ self.old.n }
        ensures seen { self.new.seen ≡ self.old.seen + 1 }
        ensures draws { (level : ℕ → ℤ) → DrawsLevel self.old level
            → level self.old.seen ≡ number → DrawsLevel self.new level }
    {
        self.curve.feed(number);
        self.eye.feed(number);
        self.seen += 1;
    }

    /// Copies the state of other columns, which were fed the same packets and then possibly more. It allocates no
    /// memory.
    fn keep(&mut self, other: &LevelColumns)
        requires { self.old.n ≡ other.now.n }
        ensures n { self.new.n ≡ self.old.n }
        ensures seen { self.new.seen ≡ other.now.seen }
        ensures draws { (level : ℕ → ℤ) → self.old.seen ≤ other.now.seen → DrawsLevel self.old level
            → DrawsLevel other.now level → DrawsLevel self.new level }
    {
        self.curve.keep(&other.curve);
        self.eye.keep(&other.eye);
        self.seen = other.seen;
    }

    /// Returns the columns over all packets. Returns `Err` if memory runs out.
    pub fn curve(&self, alloc: Global) -> Result<Items<Extremes>, OutOfMemory>
        ensures { IfOk result (λ list. (level : ℕ → ℤ) → DrawsLevel self.now level
            → AreCurve 1000 level self.now.seen list) }
    {
        self.curve.finish(alloc)
    }

    /// Returns the columns with all frames or fields overlaid. Returns `Err` if memory runs out.
    pub fn eye(&self, alloc: Global) -> Result<Items<Extremes>, OutOfMemory>
        ensures { IfOk result (λ list. (level : ℕ → ℤ) → DrawsLevel self.now level
            → AreEye self.now.n 500 level self.now.seen list) }
    {
        self.eye.finish(alloc)
    }
}

/// The columns of the levels of bucket and buffer just after each packet of a run.
#[derive(Drop)]
pub struct PacketColumns {
    /// The packets per frame or field.
    pub n: u64,
    /// The count of packets fed.
    pub seen: u64,
    /// The count of the bucket, in packets.
    pub bucket: LevelColumns,
    /// The occupancy of the buffer by gapped reads, in packets.
    pub gapped: LevelColumns,
    /// The occupancy of the buffer by linear reads, in packets.
    pub linear: LevelColumns,
    ghost bucket_n: { bucket.n ≡ n },
    ghost bucket_is: { bucket.seen ≡ seen },
    ghost gapped_n: { gapped.n ≡ n },
    ghost gapped_is: { gapped.seen ≡ seen },
    ghost linear_n: { linear.n ≡ n },
    ghost linear_is: { linear.seen ≡ seen },
}

impl PacketColumns {
    ghost use Rattle.run_meter.specs.Levels.{IsLevel};
    ghost use Rattle.flow_page.specs.drawing.drawing.Columns.{DrawsPackets};

    /// Returns the columns before the first packet, for frames or fields of `n` packets. Returns `Err` if memory runs
    /// out.
    pub fn new(alloc: Global, n: u64) -> Result<PacketColumns, OutOfMemory>
        requires some { 1 ≤ n }
        requires few { n < 2 ^ 41 }
        ensures n { IfOk result (λ c. c.n ≡ n) }
        ensures seen { IfOk result (λ c. c.seen ≡ 0) }
        ensures draws { IfOk result (λ c. (m : Media) → DrawsPackets m n c []) }
    {
        Ok(PacketColumns {
            n,
            seen: 0,
            bucket: LevelColumns::new(alloc, n)?,
            gapped: LevelColumns::new(alloc, n)?,
            linear: LevelColumns::new(alloc, n)?,
        })
    }

    /// Takes the levels just after the next packet.
    #[inline(always)]
    pub fn feed(&mut self, level: Level)
        requires few { self.old.seen < 2 ^ 41 }
        ensures n { self.new.n ≡ self.old.n }
        ensures seen { self.new.seen ≡ self.old.seen + 1 }
        ensures draws { (m : Media) (n : ℕ) (stamps : List ℕ) (at : ℕ) → DrawsPackets m n self.old stamps
            → IsLevel m n (stamps ++ at ∷ []) (length stamps) level
            → DrawsPackets m n self.new (stamps ++ at ∷ []) }
    {
        self.bucket.feed(i128::from(level.bucket));
        self.gapped.feed(i128::from(level.gapped.occupancy));
        self.linear.feed(i128::from(level.linear.occupancy));
        self.seen += 1;
    }

    /// Copies the state of other columns, which were fed the same packets and then possibly more. It allocates no
    /// memory.
    pub fn keep(&mut self, other: &PacketColumns)
        requires { self.old.n ≡ other.now.n }
        ensures n { self.new.n ≡ self.old.n }
        ensures seen { self.new.seen ≡ other.now.seen }
        ensures draws { (m : Media) (n : ℕ) (stamps more : List ℕ) → DrawsPackets m n self.old stamps
            → DrawsPackets m n other.now (stamps ++ more) → DrawsPackets m n self.new (stamps ++ more) }
    {
        self.bucket.keep(&other.bucket);
        self.gapped.keep(&other.gapped);
        self.linear.keep(&other.linear);
        self.seen = other.seen;
    }
}
