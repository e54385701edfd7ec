//! Quotients that are rounded down.

ghost use Rattle.std.specs.Prelude.{◌≢◌, ◌≡◌, ◌<◌, ◌*◌, ◌/◌, ◌^◌};
ghost use Rattle.fraction128.specs.Fractions.{floor_of_signed};

/// Returns `t * num / den`, rounded down once, at the end.
pub fn floor_of(t: u128, num: u128, den: u128) -> u128
    requires some { den ≢ 0 }
    requires fits { t * num < 2 ^ 128 }
    ensures { result ≡ t * num / den }
{
    t * num / den
}

/// Returns `a / den`, rounded towards minus infinity.
pub fn floor_signed(a: i128, den: u128) -> i128
    requires { den ≢ 0 }
    ensures { result ≡ floor_of_signed a den }
{
    if a < 0 {
        -1 - ((-1 - a) as u128 / den) as i128
    } else {
        (a as u128 / den) as i128
    }
}
