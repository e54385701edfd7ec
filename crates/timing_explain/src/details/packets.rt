//! The packets of a run, as its details need them.

ghost use Rattle.std.specs.Prelude.{◌≡◌, ◌<◌, ◌≤◌, ◌+◌, ◌*◌, ◌^◌, ◌++◌, ◌∷◌, [], ℕ, IfOk, List, length};
ghost use Rattle.timing_base.specs.Media.{IsMedia, Media as MediaValue};
ghost use Rattle.run_meter.specs.Levels.{IsLevel};

use crate::details::groups::GroupTimes;
use crate::details::overfull::OverfullMeters;
use flow_findings::RunDetails;
use flow_measure::{GroupWalk, Place};
use run_meter::{Level, RunPacket};
use sender_params::Params;
use std::alloc::{AllocError as OutOfMemory, Global};

/// The packets of a run so far. The size doesn't grow with their count.
#[derive(Drop)]
pub struct PacketDetails {
    /// The position of the next packet in its frame or field.
    pub walk: GroupWalk,
    /// The packets after which the bucket exceeds C_MAX.
    overfull: OverfullMeters,
    /// The times of the frames or fields.
    groups: GroupTimes,
    ghost whole_is: { overfull.narrow.groups.whole ≡ walk.group },
    ghost seen_is: { groups.firsts.seen ≡ walk.group },
}

impl PacketDetails {
    ghost use Rattle.flow_findings.specs.Details.{AreDetails};
    ghost use Rattle.timing_explain.specs.details.Packets.{Details};

    /// Returns the state before the first packet. Returns `Err` if memory runs out.
    pub fn new(alloc: Global, params: &Params) -> Result<PacketDetails, OutOfMemory>
        ensures n { IfOk result (λ x. x.walk.n ≡ params.now.n) }
        ensures seen { IfOk result (λ x. x.walk.seen ≡ 0) }
        ensures details { IfOk result (λ x. Details params.now.media params.now.n x [] []) }
    {
        Ok(PacketDetails {
            walk: GroupWalk::new(params),
            overfull: OverfullMeters::new(params),
            groups: GroupTimes::new(alloc)?,
        })
    }

    /// Takes the next packet, with the levels just after it.
    #[inline(always)]
    pub fn feed(&mut self, params: &Params, packet: RunPacket, level: Level)
        requires in_time { packet.at < 2 ^ 62 }
        requires few { self.old.walk.seen < 2 ^ 41 }
        ensures n { self.new.walk.n ≡ self.old.walk.n }
        ensures seen { self.new.walk.seen ≡ self.old.walk.seen + 1 }

        // Whatever packets were taken before, this packet now follows them.
        ensures details { let m = params.now.media in let n = params.now.n in (stamps records : List ℕ)
            → IsLevel m n (stamps ++ packet.at ∷ []) (length stamps) level → Details m n self.old stamps records
            → Details m n self.new (stamps ++ packet.at ∷ []) (records ++ packet.rec ∷ []) }
    {
        self.begin(params, packet.at);
        let place = Place {
            record: packet.rec,
            stamp: packet.at,
        };
        self.overfull.feed(level.bucket, place);
        if self.walk.pass() {
            self.overfull.end_group();
            self.groups.end(params, packet.at);
        }
    }

    ghost use Rattle.timing_explain.specs.details.Packets.{MayBegin};

    /// Begins a frame or field if the next packet, at `at`, is its first.
    #[inline(always)]
    fn begin(&mut self, params: &Params, at: u64)
        requires { at < 2 ^ 62 }
        ensures { MayBegin params.now.media at self.old self.new }
    {
        if self.walk.place == 0 {
            let is_first = self.walk.seen == 0;
            self.groups.begin(params, at, is_first);
        }
    }

    /// Copies another state, of the same packets and then possibly more. It allocates no memory.
    pub fn keep(&mut self, other: &PacketDetails)
        requires { self.old.walk.n ≡ other.now.walk.n }
        ensures n { self.new.walk.n ≡ self.old.walk.n }
        ensures seen { self.new.walk.seen ≡ other.now.walk.seen }
        ensures details { (m : MediaValue) (n : ℕ) (stamps more records others : List ℕ)
            → Details m n self.old stamps records → Details m n other.now (stamps ++ more) (records ++ others)
            → Details m n self.new (stamps ++ more) (records ++ others) }
    {
        self.walk = other.walk;
        self.overfull = other.overfull;
        self.groups.keep(&other.groups);
    }

    /// Returns the details. They are only guaranteed if the last frame or field is complete.
    pub fn finish(&self) -> RunDetails
        ensures { (m : MediaValue) (n groups : ℕ) (stamps records : List ℕ)
            → IsMedia m → 1 ≤ n → 1 ≤ groups → Details m n self.now stamps records
            → length stamps ≡ n * groups → AreDetails m n groups stamps records result }
    {
        RunDetails {
            overfull: self.overfull.finish(),
            first_at: self.groups.first_at,
            last_group_at: self.groups.group_at,
            span: self.groups.span,
            slope: self.groups.slope(),
        }
    }
}
