//! Axes with round ends.

ghost use Rattle.std.specs.Prelude.{◌≡◌, ◌<◌, ◌≤◌, ◌+◌, ◌*◌, ◌^◌, pos, neg_ℤ, ◌+ℤ◌, ◌-ℤ◌, ◌≤ℤ◌, ◌<ℤ◌, unsigned_abs};
ghost use Rattle.flow_page.specs.chart.Axes.{axis_of, low_at, round_up, step_of, steps_at, tick};
ghost use Rattle.flow_page.specs.chart.Marks.{high};

/// An axis with ticks at regular steps, in the unit of the numbers.
#[derive(Clone, Copy)]
pub struct Axis {
    /// The number at the low end.
    pub low: i64,
    /// The distance of two ticks: 1, 2 or 5 times a power of ten.
    pub step: u64,
    /// The count of steps from the low end to the high end.
    pub steps: u32,
}

/// Returns the least of 1, 2 and 5 times a power of ten that isn't below `wanted`.
pub(crate) fn round_up(wanted: u64) -> u64
    requires { wanted ≤ 2 ^ 60 }
    ensures value { result ≡ round_up wanted }
    ensures some { 1 ≤ result }
    ensures near { result ≤ 3 * wanted + 1 }
    ensures reaches { wanted ≤ result }
{
    let mut power: u64 = 1;
    for tried in 0..19u32 {
        if wanted <= power {
            return power;
        }
        if wanted <= 2 * power {
            return 2 * power;
        }
        if wanted <= 5 * power {
            return 5 * power;
        }
        power *= 10;
    }
    power
}

/// Returns the greatest multiple of the step that isn't above the least number.
#[tactic(auto, unfolding(crate::specs::chart::Axes::low_at))]
fn low_at(least: i64, step: u64) -> i64
    requires low { neg_ℤ (pos (2 ^ 61)) ≤ℤ least }
    requires high { least ≤ℤ pos (2 ^ 61) }
    requires some { 1 ≤ step }
    requires small { step < 2 ^ 62 }
    ensures value { result ≡ low_at least step }
    ensures below { result ≤ℤ least }
    ensures near { least <ℤ (result +ℤ pos step) }
{
    least - least.rem_euclid(step as i64)
}

/// Returns the count of steps from the low end up to the greatest number, at least three and at most eight.
#[tactic(auto, unfolding(crate::specs::chart::Axes::steps_at))]
fn steps_at(low: i64, greatest: i64, step: u64) -> u32
    requires { 1 ≤ step }
    ensures value { result ≡ steps_at low greatest step }
    ensures room { unsigned_abs (greatest -ℤ low) ≤ 7 * step → unsigned_abs (greatest -ℤ low) ≤ step * result }
{
    greatest.abs_diff(low).div_ceil(step).max(3).min(8) as u32
}

impl Axis {
    /// Returns the distance of two ticks for numbers from the least to the greatest.
    #[tactic(auto, unfolding(crate::specs::chart::Axes::step_of))]
    fn step_of(least: i64, greatest: i64) -> u64
        requires low { neg_ℤ (pos (2 ^ 61)) ≤ℤ least }
        requires ordered { least ≤ℤ greatest }
        requires high { greatest ≤ℤ pos (2 ^ 61) }
        ensures value { result ≡ step_of least greatest }
        ensures some { 1 ≤ result }
        ensures bound { result < 2 ^ 62 }
        ensures reaches { unsigned_abs (greatest -ℤ least) ≤ 6 * result }
    {
        round_up(greatest.abs_diff(least).div_ceil(6))
    }

    /// Returns the axis for numbers from the least to the greatest, with a tick at each multiple of its step. Both
    /// numbers are on the axis.
    pub fn of(least: i64, greatest: i64) -> Axis
        requires low { neg_ℤ (pos (2 ^ 61)) ≤ℤ least }
        requires ordered { least ≤ℤ greatest }
        requires high { greatest ≤ℤ pos (2 ^ 61) }
        ensures value { result ≡ axis_of least greatest }
        ensures down { result.low ≤ℤ least }
        ensures up { greatest ≤ℤ high result }
    {
        let step = Axis::step_of(least, greatest);
        let low = low_at(least, step);
        let steps = steps_at(low, greatest, step);
        Axis { low, step, steps }
    }

    /// Returns the number at a tick. Ticks count from 0 at the low end.
    pub fn tick(self, number: u32) -> i128
        ensures { result ≡ tick self number }
    {
        i128::from(self.low) + i128::from(self.step) * i128::from(number)
    }
}
