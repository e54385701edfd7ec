//! Frame rates: the known ones, and the rate of a draft.

ghost use Rattle.std.specs.Prelude.{◌≡◌, ◌≢◌, ◌≤◌, ◌<◌, ◌^◌, IfSome};
ghost use Rattle.capture_scan.specs.report.Rates.{denominator_from, drafted_rate, frames_in, has_steps_of, is_known, is_slow, is_within, limited, measured, nearest, ratio_of, slowest};

use crate::{Range, Rate};
use std::fmt;

/// A known frame rate.
#[derive(Clone, Copy)]
pub struct FrameRate {
    /// The frames per second, before `slowed` applies.
    pub whole: u16,
    /// Whether the rate is 1000/1001 of `whole`.
    pub slowed: bool,
    /// The duration of a frame in eighths of a tick of 90 kHz.
    pub eighths: u16,
}

/// A frame rate as a fraction in lowest terms: `p` frames in `q` seconds.
#[derive(Clone, Copy)]
pub struct Ratio {
    /// The frames, from 1 to 240 for each second.
    pub p: u32,
    /// The seconds, from 1 to 1001.
    pub q: u32,
}

/// Returns whether the mean step is at least half-way between the steps of a rate and of the next faster one.
fn is_slow(fields: bool, rate: Rate, slow: FrameRate, next: FrameRate) -> bool
    ensures { result ≡ is_slow fields rate slow next }
{
    let half_way = u128::from(slow.eighths) + u128::from(next.eighths);
    let least = half_way * u128::from(rate.steps);
    if fields {
        least.div_ceil(32) <= rate.ticks
    } else {
        least.div_ceil(16) <= rate.ticks
    }
}

impl FrameRate {
    /// Returns the slowest known rate, 24000/1001 frames per second.
    pub(crate) fn slowest() -> FrameRate
        ensures { result ≡ slowest }
    {
        FrameRate {
            whole: 24,
            slowed: true,
            eighths: 30_030,
        }
    }

    /// Returns the known rate with the step nearest to the mean; the slower of two that are as near.
    ///
    /// The known rates are 24000/1001, 24, 25, 30000/1001, 30, 50, 60000/1001, 60, 100, 120000/1001 and 120 frames per
    /// second. A step is a frame, or a field if `fields` is true.
    pub fn nearest(fields: bool, rate: Rate) -> FrameRate
        ensures { result ≡ nearest fields rate }
    {
        let mut slow = FrameRate::slowest();
        for next in [
            FrameRate {
                whole: 24,
                slowed: false,
                eighths: 30_000,
            },
            FrameRate {
                whole: 25,
                slowed: false,
                eighths: 28_800,
            },
            FrameRate {
                whole: 30,
                slowed: true,
                eighths: 24_024,
            },
            FrameRate {
                whole: 30,
                slowed: false,
                eighths: 24_000,
            },
            FrameRate {
                whole: 50,
                slowed: false,
                eighths: 14_400,
            },
            FrameRate {
                whole: 60,
                slowed: true,
                eighths: 12_012,
            },
            FrameRate {
                whole: 60,
                slowed: false,
                eighths: 12_000,
            },
            FrameRate {
                whole: 100,
                slowed: false,
                eighths: 7_200,
            },
            FrameRate {
                whole: 120,
                slowed: true,
                eighths: 6_006,
            },
            FrameRate {
                whole: 120,
                slowed: false,
                eighths: 6_000,
            },
        ] {
            if is_slow(fields, rate, slow, next) {
                return slow;
            }
            slow = next;
        }
        slow
    }

    /// Returns whether the least step is that of this rate, in ticks rounded down or up.
    pub(crate) fn has_steps(self, fields: bool, step: Range) -> bool
        ensures { result ≡ has_steps_of fields step self }
    {
        let eighths = u64::from(self.eighths);
        if fields {
            eighths / 16 <= step.least && step.least <= (eighths + 15) / 16
        } else {
            eighths / 8 <= step.least && step.least <= (eighths + 7) / 8
        }
    }
}

/// Returns whether the step of a known rate is within a hundredth of the mean.
fn is_within(fields: bool, rate: Rate, known: FrameRate) -> bool
    ensures { result ≡ is_within fields rate known }
{
    let hundredths = 200 * (u128::from(known.eighths) * u128::from(rate.steps));
    if fields {
        rate.ticks <= hundredths / 3168 && hundredths.div_ceil(3232) <= rate.ticks
    } else {
        rate.ticks <= hundredths / 1584 && hundredths.div_ceil(1616) <= rate.ticks
    }
}

/// Returns whether the mean step is within a hundredth of that of a known rate.
pub(crate) fn is_known(fields: bool, rate: Rate) -> bool
    ensures { result ≡ is_known fields rate }
{
    is_within(fields, rate, FrameRate::nearest(fields, rate))
}

/// Returns the number of frames in as many seconds as the steps have ticks.
fn frames_in(fields: bool, rate: Rate) -> u128
    ensures frames { result ≡ frames_in fields rate }
    ensures few { result < 2 ^ 81 }
{
    let each = if fields { 45_000 } else { 90_000 };
    each * u128::from(rate.steps)
}

/// Returns the least denominator from 1 to 1001 with which `frames` in `ticks` seconds are a fraction.
fn least_denominator(frames: u128, ticks: u128) -> Option<u32>
    requires some { ticks ≢ 0 }
    requires few { frames < 2 ^ 81 }
    ensures least { result ≡ denominator_from 1001 1 frames ticks }
    ensures low { IfSome result (λ q. q ≤ 1001) }
{
    for before in 0..1001u32 {
        let q = before + 1;
        if u128::from(q) * frames % ticks == 0 {
            return Some(q);
        }
    }
    None
}

impl Ratio {
    /// Returns a known rate as a fraction.
    fn of(rate: FrameRate) -> Ratio
        ensures { result ≡ ratio_of rate }
    {
        let whole = u32::from(rate.whole);
        if rate.slowed {
            Ratio {
                p: whole * 1000,
                q: 1001,
            }
        } else {
            Ratio { p: whole, q: 1 }
        }
    }

    /// Returns the slowest known rate as a fraction.
    pub(crate) fn slowest() -> Ratio
        ensures { result ≡ ratio_of slowest }
    {
        Ratio::of(FrameRate::slowest())
    }

    /// Returns a fraction, if an SDP can have it as a rate.
    fn limited(p: u128, q: u32) -> Option<Ratio>
        requires { q ≤ 1001 }
        ensures { result ≡ limited p q }
    {
        if 1 <= p && p <= 240 * u128::from(q) {
            Some(Ratio { p: p as u32, q })
        } else {
            None
        }
    }

    /// Returns the rate by the mean step, if an SDP can have it.
    fn measured(fields: bool, rate: Rate) -> Option<Ratio>
        ensures { result ≡ measured fields rate }
    {
        if rate.ticks == 0 {
            return None;
        }
        let frames = frames_in(fields, rate);
        let q = least_denominator(frames, rate.ticks)?;
        Ratio::limited(u128::from(q) * frames / rate.ticks, q)
    }

    /// Returns the rate of a draft: the known rate with the step nearest to the mean, if that step is within a
    /// hundredth of the mean. Else the rate by the mean itself, if an SDP can have it, and else that nearest one.
    pub(crate) fn drafted(fields: bool, rate: Rate) -> Ratio
        ensures { result ≡ drafted_rate fields rate }
    {
        let nearest = Ratio::of(FrameRate::nearest(fields, rate));
        if is_known(fields, rate) {
            return nearest;
        }
        Ratio::measured(fields, rate).unwrap_or(nearest)
    }
}

impl fmt::Display for Ratio {
    ghost use Rattle.std.specs.Prelude.{Some};
    ghost use Rattle.capture_scan.specs.report.Rates.{ratio_text};

    ghost output = { λ ratio. Some (ratio_text ratio) };

    fn fmt<W: fmt::Write>(&self, f: &mut fmt::Formatter<W>) -> fmt::Result {
        if self.q == 1 {
            write!(f, "{}", self.p)
        } else {
            write!(f, "{}/{}", self.p, self.q)
        }
    }
}

impl fmt::Display for FrameRate {
    ghost use Rattle.std.specs.Prelude.{Some};
    ghost use Rattle.capture_scan.specs.report.Rates.{rate_text};

    ghost output = { λ rate. Some (rate_text rate) };

    fn fmt<W: fmt::Write>(&self, f: &mut fmt::Formatter<W>) -> fmt::Result {
        let whole = u64::from(self.whole);
        if self.slowed {
            let hundredths = (whole * 200_000 + 1001) / 2002;
            let (frames, tenths) = (hundredths / 100, hundredths / 10 % 10);
            let last = hundredths % 10;
            let thousand = whole * 1000;
            write!(
                f,
                "{frames}.{tenths}{last} frames per second ({thousand}/1001)"
            )
        } else {
            write!(f, "{whole} frames per second")
        }
    }
}
