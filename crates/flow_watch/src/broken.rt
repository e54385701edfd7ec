//! The frames or fields of a run that break a limit of one sender type.

ghost use Rattle.std.specs.Prelude.{◌≡◌, ◌<◌, ◌+◌, ◌*◌, ◌^◌, ◌||◌, ℕ, Bool};
ghost use Rattle.sender_params.specs.Limits.{c_max_of, vrx_full_of};
ghost use Rattle.flow_measure.specs.Broken.{broken_groups};
ghost use Rattle.flow_measure.specs.Stands.{CountsBroken};
ghost use Rattle.flow_watch.specs.making.Broken.{breaks_by};

use flow_measure::BrokenGroups;
use sender_params::Params;
use timing_base::Kind;
use vrx_buffer::Held;

/// A counter of the frames or fields of a run that break a limit of one sender type (SMPTE ST 2110-21).
#[derive(Clone, Copy)]
pub(crate) struct TypeMeter {
    /// C_MAX of the type, in packets.
    pub(crate) c_max: u64,
    /// VRX_FULL of the type, in packets.
    pub(crate) vrx_full: u64,
    /// The count of frames or fields.
    pub(crate) groups: BrokenGroups,
}

impl TypeMeter {
    /// Returns the counter of a sender type before the first packet.
    pub(crate) fn new(params: &Params, kind: Kind) -> TypeMeter
        ensures c_max { result.c_max ≡ c_max_of params.now.media params.now.n kind }
        ensures vrx_full { result.vrx_full ≡ vrx_full_of params.now.media params.now.n kind }
        ensures whole { result.groups.whole ≡ 0 }
        ensures stands { (n : ℕ) (broken : ℕ → Bool) → CountsBroken n result.groups broken 0 }
    {
        TypeMeter {
            c_max: params.c_max(kind),
            vrx_full: params.vrx_full(kind),
            groups: BrokenGroups::new(),
        }
    }

    /// Takes the next packet. `bucket` is the count of the bucket just after it, and `held` the buffer just after it by
    /// the reads of the type.
    #[inline(always)]
    pub(crate) fn feed(&mut self, bucket: u64, held: Held)
        ensures c_max { self.new.c_max ≡ self.old.c_max }
        ensures vrx_full { self.new.vrx_full ≡ self.old.vrx_full }
        ensures whole { self.new.groups.whole ≡ self.old.groups.whole }
        ensures stands { (n : ℕ) (broken : ℕ → Bool) (seen : ℕ) → CountsBroken n self.old.groups broken seen
            → broken seen ≡ breaks_by self.old.c_max self.old.vrx_full bucket held
            → CountsBroken n self.new.groups broken (seen + 1) }
    {
        let overfull = self.c_max < bucket;
        let over = i128::from(self.vrx_full) < i128::from(held.occupancy);
        self.groups.feed(overfull || over || held.late, 1);
    }

    /// Ends the frame or field of the last packet.
    #[inline(always)]
    pub(crate) fn end_group(&mut self)
        requires { self.old.groups.whole < 2 ^ 63 }
        ensures c_max { self.new.c_max ≡ self.old.c_max }
        ensures vrx_full { self.new.vrx_full ≡ self.old.vrx_full }
        ensures whole { self.new.groups.whole ≡ self.old.groups.whole + 1 }
        ensures stands { (n : ℕ) (broken : ℕ → Bool) (seen : ℕ) → CountsBroken n self.old.groups broken seen
            → seen ≡ self.old.groups.whole * n + n → CountsBroken n self.new.groups broken seen }
    {
        self.groups.end_group();
    }

    /// Returns the number of complete frames or fields that break a limit of the type.
    pub(crate) fn count(&self) -> u64
        ensures { (n : ℕ) (broken : ℕ → Bool) (seen : ℕ) → CountsBroken n self.now.groups broken seen
            → result ≡ broken_groups n broken self.now.groups.whole }
    {
        self.groups.count()
    }
}
