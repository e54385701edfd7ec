//! The columns of the times of the frames or fields of a run, and of their RTP timestamps.

ghost use Rattle.std.specs.Prelude.{◌≡◌, ◌<◌, ◌≤◌, ◌+◌, ◌^◌, ◌++◌, ◌∷◌, [], ℕ, ℤ, pos, negsuc, ◌≤ℤ◌, List, IfOk};
ghost use Rattle.timing_base.specs.Media.{Media as MediaValue};
ghost use Rattle.sender_params.specs.Reads.{anchor_of};

use crate::drawing::packets::CURVE;
use flow_measure::{Curve, GroupWalk, latency_of, offset_of, since_start};
use sender_params::Params;
use std::alloc::{AllocError as OutOfMemory, Global};

/// The greatest number of columns from which a drift is told.
const DRIFT: u32 = 8;

/// A frame or field: the capture timestamp of its first packet, and its RTP timestamp.
#[derive(Clone, Copy)]
pub struct Group {
    /// The capture timestamp of its first packet, in nanoseconds of TAI.
    pub first: u64,
    /// The RTP timestamp, in ticks of 90 kHz.
    pub timestamp: u32,
    ghost in_time: { first < 2 ^ 62 },
}

/// The columns of the complete frames or fields of a run.
#[derive(Drop)]
pub struct GroupCurves {
    /// The count of frames or fields fed.
    pub seen: u64,
    /// Nanoseconds from the instant at which each frame or field begins to its first packet.
    pub first: Curve<i128>,
    /// The same numbers in at most eight columns.
    pub drift: Curve<i128>,
    /// Nanoseconds from the instant at which each frame or field begins to its last packet.
    pub last: Curve<i128>,
    /// Ticks by which each RTP timestamp exceeds the media clock at the instant at which its frame or field begins.
    pub offset: Curve<i128>,
    /// Ticks from each RTP timestamp to the first packet of its frame or field.
    pub latency: Curve<i128>,
    ghost first_is: { first.seen ≡ seen },
    ghost drift_is: { drift.seen ≡ seen },
    ghost last_is: { last.seen ≡ seen },
    ghost offset_is: { offset.seen ≡ seen },
    ghost latency_is: { latency.seen ≡ seen },
    ghost first_most: { first.most ≡ 1000 },
    ghost drift_most: { drift.most ≡ 8 },
    ghost last_most: { last.most ≡ 1000 },
    ghost offset_most: { offset.most ≡ 1000 },
    ghost latency_most: { latency.most ≡ 1000 },
}

impl GroupCurves {
    ghost use Rattle.flow_page.specs.drawing.drawing.Columns.{DrawsCurves};

    /// Returns the columns before the first frame or field. Returns `Err` if memory runs out.
    fn new(alloc: Global) -> Result<GroupCurves, OutOfMemory>
        ensures seen { IfOk result (λ c. c.seen ≡ 0) }
        ensures draws { IfOk result (λ c. (m : MediaValue) (anchor : ℤ) (first last timestamp : ℕ → ℕ)
            → DrawsCurves m anchor c first last timestamp) }
    {
        Ok(GroupCurves {
            seen: 0,
            first: Curve::new(alloc, CURVE)?,
            drift: Curve::new(alloc, DRIFT)?,
            last: Curve::new(alloc, CURVE)?,
            offset: Curve::new(alloc, CURVE)?,
            latency: Curve::new(alloc, CURVE)?,
        })
    }

    /// Takes the next frame or field, with the last packet at `at`, in nanoseconds of TAI. `n0` is the number of the
    /// run's first frame or field, counted from the epoch.
    #[cold]
    #[inline(never)]
    fn feed(&mut self, params: &Params, n0: i128, group: Group, at: u64)
        requires low { negsuc 479 ≤ℤ n0 }
        requires high { n0 ≤ℤ pos (2 ^ 42) }
        requires few { self.old.seen < 2 ^ 41 }
        requires in_time { at < 2 ^ 62 }
        ensures seen { self.new.seen ≡ self.old.seen + 1 }
        ensures draws { (first last timestamp : ℕ → ℕ)
            → DrawsCurves params.now.media n0 self.old first last timestamp
            → first self.old.seen ≡ group.first → last self.old.seen ≡ at
            → timestamp self.old.seen ≡ group.timestamp
            → DrawsCurves params.now.media n0 self.new first last timestamp }
    {
        let k = self.seen;
        let first = since_start(params, n0, k, group.first);
        self.first.feed(first);
        self.drift.feed(first);
        self.last.feed(since_start(params, n0, k, at));
        self.offset.feed(offset_of(params, n0, k, group.timestamp));
        self.latency.feed(latency_of(group.first, group.timestamp));
        self.seen += 1;
    }

    /// Copies the state of other columns, which were fed the same frames or fields and then possibly more. It allocates
    /// no memory.
    fn keep(&mut self, other: &GroupCurves)
        ensures seen { self.new.seen ≡ other.now.seen }
        ensures draws { (m : MediaValue) (anchor : ℤ) (first last timestamp : ℕ → ℕ)
            → self.old.seen ≤ other.now.seen → DrawsCurves m anchor self.old first last timestamp
            → DrawsCurves m anchor other.now first last timestamp
            → DrawsCurves m anchor self.new first last timestamp }
    {
        self.first.keep(&other.first);
        self.drift.keep(&other.drift);
        self.last.keep(&other.last);
        self.offset.keep(&other.offset);
        self.latency.keep(&other.latency);
        self.seen = other.seen;
    }
}

/// The columns of the frames or fields of a run, from the packets so far.
#[derive(Drop)]
pub struct GroupColumns {
    /// The position of the next packet in its frame or field.
    pub walk: GroupWalk,
    /// The number of the first packet's frame or field, counted from the epoch; 0 before that packet.
    n0: i128,
    /// The last frame or field that began; all 0 before the first.
    group: Group,
    /// The columns of the complete frames or fields.
    pub curves: GroupCurves,
    ghost n0_low: { negsuc 479 ≤ℤ n0 },
    ghost n0_high: { n0 ≤ℤ pos (2 ^ 42) },
    ghost curves_are: { curves.seen ≡ walk.group },
}

impl GroupColumns {
    ghost use Rattle.flow_page.specs.drawing.drawing.Columns.{Begins, DrawsGroups};

    /// Returns the columns before the first packet. Returns `Err` if memory runs out.
    pub fn new(alloc: Global, params: &Params) -> Result<GroupColumns, OutOfMemory>
        ensures seen { IfOk result (λ c. c.walk.seen ≡ 0) }
        ensures draws { IfOk result (λ c. DrawsGroups params.now.media params.now.n c [] []) }
    {
        Ok(GroupColumns {
            walk: GroupWalk::new(params),
            n0: 0,
            group: Group {
                first: 0,
                timestamp: 0,
            },
            curves: GroupCurves::new(alloc)?,
        })
    }

    /// Takes the next packet: its capture timestamp in nanoseconds of TAI, and its RTP timestamp.
    #[inline(always)]
    pub fn feed(&mut self, params: &Params, at: u64, timestamp: u32)
        requires few { self.old.walk.seen < 2 ^ 41 }
        requires in_time { at < 2 ^ 62 }
        ensures seen { self.new.walk.seen ≡ self.old.walk.seen + 1 }

        // Whatever packets the columns were fed before, this packet now follows them.
        ensures draws { (stamps timestamps : List ℕ)
            → DrawsGroups params.now.media params.now.n self.old stamps timestamps
            → DrawsGroups params.now.media params.now.n self.new (stamps ++ at ∷ [])
            (timestamps ++ timestamp ∷ []) }
    {
        self.begin(params, at, timestamp);
        if self.walk.pass() {
            self.curves.feed(params, self.n0, self.group, at);
        }
    }

    /// Begins a frame or field if this packet, the next one, is its first.
    #[inline(always)]
    fn begin(&mut self, params: &Params, at: u64, timestamp: u32)
        requires { at < 2 ^ 62 }
        ensures { Begins params.now.media at timestamp self.old self.new }
    {
        if self.walk.place == 0 {
            self.begin_group(params, at, timestamp);
        }
    }

    /// Begins a frame or field with its first packet. The run's first packet belongs to the nearest frame or field of
    /// the grid from the epoch.
    #[cold]
    #[inline(never)]
    fn begin_group(&mut self, params: &Params, at: u64, timestamp: u32)
        requires in_time { at < 2 ^ 62 }
        requires first { self.old.walk.place ≡ 0 }
        ensures { Begins params.now.media at timestamp self.old self.new }
    {
        self.n0 = self.n0_at(params, at);
        self.group = Group {
            first: at,
            timestamp,
        };
    }

    /// Returns the number of the first packet's frame or field, counted from the epoch. `at` is the capture timestamp
    /// of the next packet, in nanoseconds of TAI.
    fn n0_at(&self, params: &Params, at: u64) -> i128
        requires { at < 2 ^ 62 }
        ensures first { self.now.walk.seen ≡ 0 → result ≡ anchor_of params.now.media at }
        ensures later { 0 < self.now.walk.seen → result ≡ self.now.n0 }
        ensures low { negsuc 479 ≤ℤ result }
        ensures high { result ≤ℤ pos (2 ^ 42) }
    {
        if self.walk.seen == 0 {
            params.anchor(at)
        } else {
            self.n0
        }
    }

    /// Copies the state of other columns, which were fed the same packets and then possibly more. It allocates no
    /// memory.
    pub fn keep(&mut self, other: &GroupColumns)
        ensures walk { self.new.walk ≡ other.now.walk }
        ensures draws { (m : MediaValue) (n : ℕ) (stamps more timestamps ticks : List ℕ)
            → DrawsGroups m n self.old stamps timestamps
            → DrawsGroups m n other.now (stamps ++ more) (timestamps ++ ticks)
            → DrawsGroups m n self.new (stamps ++ more) (timestamps ++ ticks) }
    {
        self.curves.keep(&other.curves);
        self.walk = other.walk;
        self.n0 = other.n0;
        self.group = other.group;
    }
}
