//! The videos of the numbers worked by hand, for the tests of this crate and of those that depend on it.

ghost use Rattle.std.specs.Prelude.{◌≡◌, ◌≤◌, ◌*◌};
ghost use Rattle.sender_params.specs.Worked.{video as worked};

use timing_base::{Address, Kind, Media};

/// Returns a video of this height at `p / q` frames per second, declared narrow, without TROFF and CMAX.
pub fn video(height: u32, interlaced: bool, p: u32, q: u32) -> Media
    requires height_some { 1 ≤ height }
    requires height_most { height ≤ 32767 }
    requires p_some { 1 ≤ p }
    requires p_most { p ≤ 240 * q }
    requires q_some { 1 ≤ q }
    requires q_most { q ≤ 1001 }
    ensures { result ≡ worked height interlaced p q }
{
    Media {
        line: 5,
        address: Address { bits: 0 },
        port: 50000,
        pt: 96,
        width: 1920,
        height,
        interlaced,
        p,
        q,
        declared: Some(Kind::N),
        troff: None,
        cmax: None,
    }
}
