//! All meters of one run.

ghost use Rattle.std.specs.Prelude.{◌≡◌, ◌<◌, ◌≤◌, ◌+◌, ◌-◌, ◌*◌, ◌^◌, ◌++◌, ◌∷◌, [], ℕ, List, length};
ghost use Rattle.std.specs.Prelude.{Option, MatchOption, pos, negsuc, ◌≤ℤ◌};

use crate::gaps::GapMeter;
use crate::group_meter::{Group, GroupMeter};
use crate::group_walk::GroupWalk;
use crate::margin::MarginMeter;
use crate::models::ModelMeters;
use crate::numbers::{Place, RunNumbers};
use crate::target::target_of;
use crate::windows::WindowMeters;
use run_meter::{Level, RunPacket};
use sender_params::Params;

/// A meter of all measurements of one run.
///
/// It keeps no history: its size, about five thousand bytes, doesn't grow with the count of packets.
#[derive(Clone, Copy)]
pub struct RunMeters {
    /// The position of the next packet in its frame or field.
    pub walk: GroupWalk,
    /// The number of the first packet's frame or field, counted from the epoch; 0 before that packet.
    n0: i128,
    /// The current or last frame or field, as of its first packet; all 0 before it.
    group: Group,
    models: ModelMeters,
    gapped: MarginMeter,
    linear: MarginMeter,
    groups: GroupMeter,
    gaps: GapMeter,
    windows: WindowMeters,
    ghost n0_low: { negsuc 479 ≤ℤ n0 },
    ghost n0_high: { n0 ≤ℤ pos (2 ^ 42) },
    ghost models_are: { models.bucket.seen + models.waits ≡ walk.seen },
    ghost models_whole: { models.narrow.broken.whole ≡ walk.group },
    ghost settled: { walk.place ≡ 0 → models.waits ≡ 0 },
    ghost gapped_room: { gapped.latest ≤ 2 ^ 110 + walk.seen * 2 ^ 70 },
    ghost linear_room: { linear.latest ≤ 2 ^ 110 + walk.seen * 2 ^ 70 },
    ghost groups_are: { groups.first.seen ≡ walk.group },
    ghost gaps_are: { gaps.seen ≡ walk.seen },
    ghost windows_are: { windows.narrow.seen ≡ walk.seen },
}

impl RunMeters {
    ghost use Rattle.sender_params.specs.Reads.{anchor_of};
    ghost use Rattle.sender_params.specs.Ticks.{NeverFall};
    ghost use Rattle.run_meter.specs.Levels.{IsLevel};
    ghost use Rattle.flow_measure.specs.Metered.{AreFirst, Begins, Measures};
    ghost use Rattle.flow_measure.specs.Run.{IsMeasured};

    /// Returns the meter before the first packet.
    #[cold]
    #[inline(never)]
    pub fn new(params: &Params) -> RunMeters
        ensures seen { result.walk.seen ≡ 0 }
        ensures stands { Measures params.now.media params.now.n result [] [] [] }
    {
        RunMeters {
            walk: GroupWalk::new(params),
            n0: 0,
            group: Group {
                first: 0,
                last: 0,
                timestamp: 0,
            },
            models: ModelMeters::new(params),
            gapped: MarginMeter::new(params, true),
            linear: MarginMeter::new(params, false),
            groups: GroupMeter::new(),
            gaps: GapMeter::new(),
            windows: WindowMeters::new(params),
        }
    }

    /// Takes the next packet, and the levels of both models just after it. The measurements are only guaranteed if no
    /// capture timestamp is below the one before.
    #[inline(always)]
    pub fn feed(&mut self, params: &Params, packet: RunPacket, level: Level)
        requires in_time { packet.at < 2 ^ 62 }
        requires few { self.old.walk.seen < 2 ^ 41 }
        ensures seen { self.new.walk.seen ≡ self.old.walk.seen + 1 }

        // Whatever packets the meters were fed before, this packet now follows them.
        ensures stands { let m = params.now.media in let n = params.now.n in (stamps records timestamps : List ℕ)
            → Measures m n self.old stamps records timestamps → NeverFall (stamps ++ packet.at ∷ [])
            → IsLevel m n (stamps ++ packet.at ∷ []) (length stamps) level
            → Measures m n self.new (stamps ++ packet.at ∷ []) (records ++ packet.rec ∷ [])
            (timestamps ++ packet.timestamp ∷ []) }
    {
        self.begin(params, packet);
        let place = Place {
            record: packet.rec,
            stamp: packet.at,
        };
        self.models.feed(level, place);
        self.gapped.feed(packet.at);
        self.linear.feed(packet.at);
        self.gaps.feed(packet.at);
        self.windows.feed(params, packet.at);
        if self.walk.pass() {
            let group = Group {
                first: self.group.first,
                last: packet.at,
                timestamp: self.group.timestamp,
            };
            self.models.end_group();
            self.gapped.end_group();
            self.linear.end_group();
            self.groups.feed(params, self.n0, group);
        }
    }

    /// Begins a frame or field if this packet, the next one, is its first.
    #[inline(always)]
    fn begin(&mut self, params: &Params, packet: RunPacket)
        requires { packet.at < 2 ^ 62 }
        ensures { Begins params.now.media packet self.old self.new }
    {
        if self.walk.place == 0 {
            self.begin_group(params, packet);
        }
    }

    /// Begins a frame or field with its first packet. The run's first packet belongs to the nearest frame or field of
    /// the grid from the epoch.
    #[cold]
    #[inline(never)]
    fn begin_group(&mut self, params: &Params, packet: RunPacket)
        requires in_time { packet.at < 2 ^ 62 }
        requires first { self.old.walk.place ≡ 0 }
        ensures { Begins params.now.media packet self.old self.new }
    {
        self.n0 = self.n0_at(params, packet.at);
        self.group = Group {
            first: packet.at,
            last: packet.at,
            timestamp: packet.timestamp,
        };
    }

    /// Returns the number of the first packet's frame or field, counted from the epoch. `at` is the capture timestamp
    /// of the next packet, in nanoseconds of TAI.
    fn n0_at(&self, params: &Params, at: u64) -> i128
        requires { at < 2 ^ 62 }
        ensures first { self.now.walk.seen ≡ 0 → result ≡ anchor_of params.now.media at }
        ensures later { 0 < self.now.walk.seen → result ≡ self.now.n0 }
        ensures low { negsuc 479 ≤ℤ result }
        ensures high { result ≤ℤ pos (2 ^ 42) }
    {
        if self.walk.seen == 0 {
            params.anchor(at)
        } else {
            self.n0
        }
    }

    /// Returns the measurements of the run, or `None` if no frame or field is complete. They are only guaranteed if the
    /// last frame or field is complete. In the clause, `named` is the first packet that breaks a limit, for each of N,
    /// NL and W.
    pub fn finish(&self, params: &Params) -> Option<RunNumbers>
        ensures { let m = params.now.media in let n = params.now.n in (groups : ℕ) (named : List (Option ℕ))
            (stamps records timestamps : List ℕ) → Measures m n self.now stamps records timestamps
            → length stamps ≡ n * groups → AreFirst m n stamps named
            → MatchOption result (groups ≡ 0) (IsMeasured m n groups stamps records timestamps named) }
    {
        let whole = self.walk.group;
        let gapped = self.gapped.slack(params, true, self.n0, whole);
        let linear = self.linear.slack(params, false, self.n0, whole);
        let bucket = self.models.bucket.finish()?;
        let gapped = self.models.gapped.finish(gapped)?;
        let linear = self.models.linear.finish(linear)?;
        let groups = self.groups.finish()?;
        let narrow = self.windows.narrow.finish();
        let narrow_linear = self.windows.narrow_linear.finish();
        let wide = self.windows.wide.finish();
        Some(RunNumbers {
            bucket,
            gapped,
            linear,
            kinds: [
                self.models.narrow.finish(narrow),
                self.models.narrow_linear.finish(narrow_linear),
                self.models.wide.finish(wide),
            ],
            first: groups.first,
            last: groups.last,
            target: target_of(params),
            step: groups.step,
            offset: groups.offset,
            latency: groups.latency,
            gap: self.gaps.finish(),
        })
    }
}
