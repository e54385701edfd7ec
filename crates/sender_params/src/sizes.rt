//! The times of a sender with a common denominator, for which the reads of its schedules are whole numbers.

ghost use Rattle.std.specs.Prelude.{◌≡◌, ◌≤◌, ◌<◌, ◌*◌, ◌/◌, ◌^◌};
ghost use Rattle.sender_params.specs.Sizes.{AreSizes, HavePer};

use crate::params::Params;

/// Times of a sender, as whole numbers of a part of a nanosecond.
#[derive(Clone, Copy, Debug, PartialEq, Eq)]
pub struct Sizes {
    /// Number of parts in a nanosecond.
    pub den: u128,
    /// T_GROUP, the time of a frame or field, in parts.
    pub group: u128,
    /// T_RS of the gapped or the linear schedule, in parts.
    pub step: u128,
    /// TR_OFFSET, in parts.
    pub offset: u128,
}

/// Returns the times of the sender with T_RS of the gapped or the linear schedule. The number of parts in a nanosecond
/// is the denominator of the gapped schedule's T_RS, for both schedules.
pub fn sizes_of(params: &Params, gapped: bool) -> Sizes
    ensures sizes { let s = result in
        AreSizes params.now.media params.now.n gapped s.den s.group s.step s.offset }
    ensures den_some { 1 ≤ result.den }
    ensures den_small { result.den < 2 ^ 48 }
    ensures step_slow { result.den ≤ result.step }
    ensures step_small { result.step < 2 ^ 51 }
    ensures group_fits { params.now.n * result.step ≤ result.group }
    ensures group_slow { params.now.n * result.den ≤ result.group }
    ensures group_small { result.group ≤ params.now.n * 2 ^ 51 }
    ensures group_most { result.group ≤ 1001000000000 * result.den }
    ensures offset_small { result.offset < 2 ^ 94 }
    ensures times { HavePer params.now.media params.now.n gapped }
{
    let (_, den) = params.step(true);
    Sizes {
        den,
        group: parts(params.group(), den),
        step: parts(params.step(gapped), den),
        offset: parts(params.offset(), den),
    }
}

/// Converts a time in nanoseconds, given as numerator and denominator, to parts. A nanosecond has `den` parts.
fn parts(time: (u128, u128), den: u128) -> u128
    requires some { 1 ≤ time.1 }
    requires num_small { time.0 < 2 ^ 50 }
    requires den_small { den < 2 ^ 48 }
    ensures { result ≡ time.0 * den / time.1 }
{
    time.0 * den / time.1
}
