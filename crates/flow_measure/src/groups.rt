//! Numbers of frames or fields, counted from the earliest possible one instead of from the epoch.

ghost use Rattle.std.specs.Prelude.{◌≡◌, ◌≤◌, ◌+◌, ◌^◌, pos, negsuc, ◌≤ℤ◌, ◌+ℤ◌};

/// The greatest number of frames or fields by which a first read may be before 0 of TAI.
pub const GROUPS_BEFORE: u32 = 480;

/// Returns the number of a frame or field, counted from `GROUPS_BEFORE` frames or fields before 0 of TAI. `n0` is its
/// number, counted from 0 of TAI.
pub fn lifted(n0: i128) -> u128
    requires low { negsuc 479 ≤ℤ n0 }
    requires high { n0 ≤ℤ pos (2 ^ 42) }
    ensures value { pos result ≡ n0 +ℤ pos 480 }
    ensures small { result ≤ 2 ^ 42 + 480 }
{
    (n0 + i128::from(GROUPS_BEFORE)) as u128
}
