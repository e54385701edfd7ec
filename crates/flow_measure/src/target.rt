//! The time at which the first packet of a frame or field is due.

ghost use Rattle.std.specs.Prelude.{◌≡◌, ◌/◌};
ghost use Rattle.sender_params.specs.Times.{offset_time};

use sender_params::{Params, sizes_of};

/// Returns TR_OFFSET (or TROFF) in nanoseconds, rounded down: the time from the start of each frame or field to its
/// first read (SMPTE ST 2110-21).
pub fn target_of(params: &Params) -> u64
    ensures { let offset = offset_time params.now.media in result ≡ offset.0 / offset.1 }
{
    let sizes = sizes_of(params, true);
    (sizes.offset / sizes.den) as u64
}
