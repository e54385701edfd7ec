//! The columns of one run.

ghost use Rattle.std.specs.Prelude.{◌≡◌, ◌≤◌, ◌<◌, ◌+◌, ◌*◌, ◌^◌, ◌++◌, ◌∷◌, [], ℕ, IfOk, List};
ghost use Rattle.std.specs.Prelude.{length};
ghost use Rattle.timing_base.specs.Media.{IsMedia, Media as MediaValue};
ghost use Rattle.run_meter.specs.Levels.{IsLevel};

use crate::Curves;
use crate::drawing::groups::GroupColumns;
use crate::drawing::packets::PacketColumns;
use run_meter::Level;
use sender_params::Params;
use std::alloc::{AllocError as OutOfMemory, Global};

/// The columns of the packets of one run so far. Their size doesn't grow with the count of packets.
#[derive(Drop)]
pub struct RunColumns {
    /// The columns of the levels at each packet.
    pub packets: PacketColumns,
    /// The columns of the times and RTP timestamps of frames or fields.
    pub groups: GroupColumns,
    /// The capture timestamp of the first packet, in nanoseconds of TAI; 0 before it.
    pub first_at: u64,
    /// The capture timestamp of the last packet so far, in nanoseconds of TAI; 0 before the first.
    pub last_at: u64,
    ghost seen_is: { packets.seen ≡ groups.walk.seen },
}

impl RunColumns {
    ghost use Rattle.flow_page.specs.drawing.Drawn.{AreCurves};
    ghost use Rattle.flow_page.specs.drawing.drawing.Columns.{Draws};

    /// Returns the columns before the first packet of a run. Returns `Err` if memory runs out.
    pub fn new(alloc: Global, params: &Params) -> Result<RunColumns, OutOfMemory>
        ensures n { IfOk result (λ x. x.packets.n ≡ params.now.n) }
        ensures seen { IfOk result (λ x. x.packets.seen ≡ 0) }
        ensures draws { IfOk result (λ x. Draws params.now.media params.now.n x [] []) }
    {
        Ok(RunColumns {
            packets: PacketColumns::new(alloc, u64::from(params.n()))?,
            groups: GroupColumns::new(alloc, params)?,
            first_at: 0,
            last_at: 0,
        })
    }

    /// Takes the next packet: its capture timestamp in nanoseconds of TAI, its RTP timestamp, and the levels just after
    /// it.
    #[inline(always)]
    pub fn feed(&mut self, params: &Params, at: u64, timestamp: u32, level: Level)
        requires in_time { at < 2 ^ 62 }
        requires few { self.old.packets.seen < 2 ^ 41 }
        ensures n { self.new.packets.n ≡ self.old.packets.n }
        ensures seen { self.new.packets.seen ≡ self.old.packets.seen + 1 }

        // Whatever packets were drawn before, this packet now follows them.
        ensures draws { let m = params.now.media in let n = params.now.n in (stamps timestamps : List ℕ)
            → IsLevel m n (stamps ++ at ∷ []) (length stamps) level → Draws m n self.old stamps timestamps
            → Draws m n self.new (stamps ++ at ∷ []) (timestamps ++ timestamp ∷ []) }
    {
        self.first_at = self.first_with(at);
        self.last_at = at;
        self.packets.feed(level);
        self.groups.feed(params, at, timestamp);
    }

    /// Returns the capture timestamp of the first packet. `at` is that of the next packet, in nanoseconds of TAI.
    #[inline(always)]
    fn first_with(&self, at: u64) -> u64
        ensures first { self.now.packets.seen ≡ 0 → result ≡ at }
        ensures later { 0 < self.now.packets.seen → result ≡ self.now.first_at }
    {
        if self.packets.seen == 0 {
            at
        } else {
            self.first_at
        }
    }

    /// Copies the state of other columns, which were fed the same packets and then possibly more. It allocates no
    /// memory.
    pub fn keep(&mut self, other: &RunColumns)
        requires { self.old.packets.n ≡ other.now.packets.n }
        ensures n { self.new.packets.n ≡ self.old.packets.n }
        ensures seen { self.new.packets.seen ≡ other.now.packets.seen }
        ensures draws { (m : MediaValue) (n : ℕ) (stamps more timestamps ticks : List ℕ)
            → Draws m n self.old stamps timestamps → Draws m n other.now (stamps ++ more) (timestamps ++ ticks)
            → Draws m n self.new (stamps ++ more) (timestamps ++ ticks) }
    {
        self.packets.keep(&other.packets);
        self.groups.keep(&other.groups);
        self.first_at = other.first_at;
        self.last_at = other.last_at;
    }

    /// Returns the columns. They are only guaranteed if the last frame or field is complete. Returns `Err` if memory
    /// runs out.
    pub fn curves(&self, alloc: Global) -> Result<Curves, OutOfMemory>
        ensures { IfOk result (λ c. (m : MediaValue) (n groups : ℕ) (stamps timestamps : List ℕ)
            → IsMedia m → 1 ≤ n → Draws m n self.now stamps timestamps → length stamps ≡ n * groups
            → AreCurves m n groups stamps timestamps c) }
    {
        Ok(Curves {
            bucket: self.packets.bucket.curve(alloc)?,
            gapped: self.packets.gapped.curve(alloc)?,
            linear: self.packets.linear.curve(alloc)?,
            bucket_eye: self.packets.bucket.eye(alloc)?,
            gapped_eye: self.packets.gapped.eye(alloc)?,
            linear_eye: self.packets.linear.eye(alloc)?,
            first: self.groups.curves.first.finish(alloc)?,
            drift: self.groups.curves.drift.finish(alloc)?,
            last: self.groups.curves.last.finish(alloc)?,
            offset: self.groups.curves.offset.finish(alloc)?,
            latency: self.groups.curves.latency.finish(alloc)?,
        })
    }
}
