//! The rows of the packets of a run and of its frames or fields.

ghost use Rattle.std.specs.Prelude.{◌≡◌, ◌≤◌, ◌<◌, ◌+◌, ◌^◌, ◌++◌, ◌∷◌, [], ℕ, List, IfSome, length};
ghost use Rattle.std.specs.Prelude.{pos, negsuc, ◌≤ℤ◌, None, Some, is_some};
ghost use Rattle.timing_base.specs.Shifts.{Shift};
ghost use Rattle.sender_params.specs.Reads.{anchor_of};
ghost use Rattle.timing_base.specs.Media.{Media as MediaValue};
ghost use Rattle.timing_base.specs.declared.packet.FlowPacket.{FlowPacket as PacketValue};
ghost use Rattle.flow_measure.specs.rows.Rows.{IsGroupRow, IsPacketRow, ends_group, step_from};

use crate::group_walk::GroupWalk;
use crate::report::{GroupRow, PacketRow};
use crate::{latency_of, offset_of, since_start, step_of};
use run_meter::{Level, RunPacket};
use sender_params::Params;

/// A packet, and the levels of both models just after it.
#[derive(Clone, Copy)]
pub struct Kept {
    /// The packet.
    pub packet: RunPacket,
    /// The levels of the bucket and of the receiver buffer, in packets.
    pub level: Level,
    ghost in_time: { packet.at < 2 ^ 62 },
}

/// Returns the ticks from the RTP timestamp before, or `None` if there is none.
fn step_with(before: Option<u32>, timestamp: u32) -> Option<u32>
    ensures { result ≡ step_from before timestamp }
{
    match before {
        Some(before) => Some(step_of(before, timestamp)),
        None => None,
    }
}

/// Makes a row for each packet of a run, and at the last packet of each frame or field its row.
#[derive(Clone, Copy)]
pub struct RowMaker {
    /// The position of the next packet in its frame or field.
    pub walk: GroupWalk,
    /// The number of the first packet's frame or field, counted from the epoch; 0 before that packet.
    n0: i128,
    /// The row of the current frame or field, from its packets so far. Before its first packet, only `run` and `group`
    /// are meaningful.
    row: GroupRow,
    /// The RTP timestamp of the last frame or field that began, in ticks of 90 kHz.
    before: Option<u32>,
    ghost n0_low: { negsuc 479 ≤ℤ n0 },
    ghost n0_high: { n0 ≤ℤ pos (2 ^ 42) },
    ghost group_is: { row.group ≡ walk.group },
}

impl RowMaker {
    ghost use Rattle.flow_measure.specs.rows.making.Groups.{Begins, EndsRow, KeepsRest, Widens};
    ghost use Rattle.flow_measure.specs.rows.making.Stands.{IsKept, StandsFor};

    /// Returns the maker before the first packet of run `run`.
    pub fn new(params: &Params, run: u64) -> RowMaker
        ensures { (shift : Shift) → StandsFor params.now.media shift run params.now.n result [] }
    {
        RowMaker {
            walk: GroupWalk::new(params),
            n0: 0,
            row: GroupRow {
                run,
                group: 0,
                rec: 0,
                stamp: 0,
                first: 0,
                last: 0,
                timestamp: 0,
                step: None,
                offset: 0,
                latency: 0,
                bucket: 0,
                gapped_least: 0,
                gapped: 0,
                linear_least: 0,
                linear: 0,
            },
            before: None,
        }
    }

    /// Returns the row of the next packet.
    #[inline(always)]
    pub fn packet_row(&self, kept: Kept) -> PacketRow
        ensures { (m : MediaValue) (shift : Shift) (run n : ℕ) (before : List PacketValue) (p : PacketValue)
            → IsKept m shift n before p kept → StandsFor m shift run n self.now before
            → IsPacketRow m shift run n before p result }
    {
        PacketRow {
            run: self.row.run,
            packet: self.walk.seen,
            rec: kept.packet.rec,
            stamp: kept.packet.at,
            group: self.walk.group,
            place: u64::from(self.walk.place),
            bucket: kept.level.bucket,
            gapped: kept.level.gapped.occupancy,
            linear: kept.level.linear.occupancy,
        }
    }

    /// Takes the next packet, and returns the row of its frame or field if the packet is the last one.
    #[inline(always)]
    pub fn feed(&mut self, params: &Params, kept: Kept) -> Option<GroupRow>
        requires { self.old.walk.seen < 2 ^ 41 }
        ensures row { (shift : Shift) (run : ℕ) (before : List PacketValue) (p : PacketValue)
            → IsKept params.now.media shift params.now.n before p kept
            → StandsFor params.now.media shift run params.now.n self.old before
            → IfSome result (IsGroupRow params.now.media shift run params.now.n (before ++ p ∷ [])) }
        ensures ends { (m : MediaValue) (shift : Shift) (run n : ℕ) (before : List PacketValue)
            → StandsFor m shift run n self.old before
            → is_some result ≡ ends_group n (length before) }
        ensures stands { (shift : Shift) (run : ℕ) (before : List PacketValue) (p : PacketValue)
            → IsKept params.now.media shift params.now.n before p kept
            → StandsFor params.now.media shift run params.now.n self.old before
            → StandsFor params.now.media shift run params.now.n self.new (before ++ p ∷ []) }
    {
        self.take(params, kept);
        if !self.walk.pass() {
            return None;
        }
        let mut row = self.row;
        row.last = since_start(params, self.n0, row.group, kept.packet.at);
        self.row.group += 1;
        Some(row)
    }

    /// Adds the next packet to the row of its frame or field.
    #[inline(always)]
    fn take(&mut self, params: &Params, kept: Kept)
        requires { self.old.walk.seen < 2 ^ 41 }
        ensures walk { self.new.walk ≡ self.old.walk }
        ensures begins { self.old.walk.place ≡ 0 → Begins params.now.media kept self.old self.new }
        ensures widens { 0 < self.old.walk.place
            → KeepsRest self.old self.new × Widens kept.level self.old.row self.new.row }
    {
        if self.walk.place == 0 {
            self.begin(params, kept);
        } else {
            self.widen(kept.level);
        }
    }

    /// Returns the number of the first packet's frame or field, counted from the epoch. `at` is the capture timestamp
    /// of the next packet, which begins a frame or field, in nanoseconds of TAI.
    fn anchor_at(&self, params: &Params, at: u64) -> i128
        requires { at < 2 ^ 62 }
        ensures first { self.now.before ≡ None → result ≡ anchor_of params.now.media at }
        ensures later { (before : ℕ) → self.now.before ≡ Some before → result ≡ self.now.n0 }
        ensures low { negsuc 479 ≤ℤ result }
        ensures high { result ≤ℤ pos (2 ^ 42) }
    {
        match self.before {
            Some(_) => self.n0,
            None => params.anchor(at),
        }
    }

    /// Begins a frame or field with its first packet.
    #[cold]
    #[inline(never)]
    fn begin(&mut self, params: &Params, kept: Kept)
        requires { self.old.walk.seen < 2 ^ 41 }
        ensures walk { self.new.walk ≡ self.old.walk }
        ensures begins { Begins params.now.media kept self.old self.new }
    {
        let Kept { packet, level } = kept;
        let n0 = self.anchor_at(params, packet.at);
        let group = self.row.group;
        let step = step_with(self.before, packet.timestamp);
        self.n0 = n0;
        self.row = GroupRow {
            run: self.row.run,
            group,
            rec: packet.rec,
            stamp: packet.at,
            first: since_start(params, n0, group, packet.at),
            last: 0,
            timestamp: packet.timestamp,
            step,
            offset: offset_of(params, n0, group, packet.timestamp),
            latency: latency_of(packet.at, packet.timestamp),
            bucket: level.bucket,
            gapped_least: level.gapped.occupancy,
            gapped: level.gapped.occupancy,
            linear_least: level.linear.occupancy,
            linear: level.linear.occupancy,
        };
        self.before = Some(packet.timestamp);
    }

    /// Adds the levels at another packet to the row of the current frame or field.
    #[inline(always)]
    fn widen(&mut self, level: Level)
        ensures walk { self.new.walk ≡ self.old.walk }
        ensures rest { KeepsRest self.old self.new }
        ensures row { Widens level self.old.row self.new.row }
    {
        let row = &mut self.row;
        row.bucket = row.bucket.max(level.bucket);
        row.gapped_least = row.gapped_least.min(level.gapped.occupancy);
        row.gapped = row.gapped.max(level.gapped.occupancy);
        row.linear_least = row.linear_least.min(level.linear.occupancy);
        row.linear = row.linear.max(level.linear.occupancy);
    }
}
