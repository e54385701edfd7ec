//! The places of numbers in a picture.

ghost use Rattle.std.specs.Prelude.{◌≡◌, ◌+◌};
ghost use Rattle.flow_page.specs.chart.Marks.{above, base_of, below, beside, bottom_of, edge, mark, name_x, place};
ghost use Rattle.flow_page.specs.chart.Marks.{right_of, rise, span, tenths, x_of, y_of};

use crate::chart::axis::Axis;
use std::fmt;

/// A length in tenths of an SVG unit, printed as `12` or `12.3`.
#[derive(Clone, Copy)]
pub struct Tenths {
    /// The tenths of an SVG unit.
    pub tenths: u128,
}

impl fmt::Display for Tenths {
    ghost use Rattle.std.specs.Prelude.{Some};
    ghost use Rattle.flow_page.specs.chart.Marks.{tenths_text};

    ghost output = { λ t. Some (tenths_text t.tenths) };

    #[tactic(auto, unfolding(crate::specs::chart::Marks::tenths_text))]
    fn fmt<W: fmt::Write>(&self, f: &mut fmt::Formatter<W>) -> fmt::Result {
        let (whole, part) = (self.tenths / 10, self.tenths % 10);
        if part == 0 {
            write!(f, "{whole}")
        } else {
            write!(f, "{whole}.{part}")
        }
    }
}

/// The part of a picture that has the numbers, in tenths of an SVG unit.
#[derive(Clone, Copy)]
pub struct Panel {
    /// The x of the left end.
    pub left: u32,
    /// The distance from the left to the right end.
    pub width: u32,
    /// The y of the top.
    pub top: u32,
    /// The distance from the top to the bottom.
    pub height: u32,
}

/// The places from left to right, in columns.
#[derive(Clone, Copy)]
pub struct Across {
    /// The number of the first place.
    pub start: u64,
    /// The count of places.
    pub count: u64,
    /// The places per column; the last column may have fewer.
    pub each: u64,
}

/// A panel with its two directions.
#[derive(Clone, Copy)]
pub struct Plot {
    /// The panel.
    pub panel: Panel,
    /// The axis of the numbers, from bottom to top.
    pub axis: Axis,
    /// The places from left to right.
    pub across: Across,
}

impl Axis {
    /// Returns the distance from the low end to the high end, in the unit of the numbers.
    pub fn span(self) -> u128
        ensures { result ≡ span self }
    {
        u128::from(self.step) * u128::from(self.steps)
    }

    /// Returns the distance of a number from the low end: 0 if it is below the low end, and the span if it is above the
    /// high end.
    fn rise(self, number: i128) -> u128
        ensures { result ≡ rise self number }
    {
        if number < i128::from(self.low) {
            0
        } else {
            number.abs_diff(i128::from(self.low)).min(self.span())
        }
    }

    /// Returns the y of a number in a picture of this height, from the high end down, in tenths of an SVG unit, rounded
    /// down.
    #[tactic(auto, unfolding(crate::specs::chart::Marks::mark))]
    pub fn mark(self, height: u32, number: i128) -> u128
        ensures { result ≡ mark height self number }
    {
        let below = self.span() - self.rise(number);
        u128::from(height) * below / self.span().max(1)
    }
}

impl Panel {
    /// Returns the x of the left end.
    pub fn left(self) -> Tenths
        ensures { result ≡ tenths self.left }
    {
        let tenths = u128::from(self.left);
        Tenths { tenths }
    }

    /// Returns the y of the top.
    pub fn top(self) -> Tenths
        ensures { result ≡ tenths self.top }
    {
        let tenths = u128::from(self.top);
        Tenths { tenths }
    }

    /// Returns the x of the right end.
    #[tactic(auto, unfolding(crate::specs::chart::Marks::right_of))]
    pub fn right(self) -> Tenths
        ensures { result ≡ tenths (right_of self) }
    {
        let tenths = u128::from(self.left) + u128::from(self.width);
        Tenths { tenths }
    }

    /// Returns the y of the bottom.
    #[tactic(auto, unfolding(crate::specs::chart::Marks::bottom_of))]
    pub fn bottom(self) -> Tenths
        ensures { result ≡ tenths (bottom_of self) }
    {
        let tenths = u128::from(self.top) + u128::from(self.height);
        Tenths { tenths }
    }

    /// Returns the y at `by` tenths of an SVG unit below the bottom.
    #[tactic(auto, unfolding(crate::specs::chart::Marks::below))]
    pub fn below(self, by: u32) -> Tenths
        ensures { result ≡ tenths (below self by) }
    {
        let tenths = u128::from(self.top) + u128::from(self.height) + u128::from(by);
        Tenths { tenths }
    }

    /// Returns the x at which the numbers of the axis end.
    #[tactic(auto, unfolding(crate::specs::chart::Marks::beside))]
    pub fn beside(self) -> Tenths
        ensures { result ≡ tenths (beside self) }
    {
        let tenths = u128::from(self.left.saturating_sub(60));
        Tenths { tenths }
    }

    /// Returns the x at which the name of a line begins, to the right of the line.
    #[tactic(auto, unfolding(crate::specs::chart::Marks::name_x))]
    pub fn name_x(self) -> Tenths
        ensures { result ≡ tenths (name_x self) }
    {
        let tenths = u128::from(self.left) + u128::from(self.width) + 60;
        Tenths { tenths }
    }
}

/// Returns the x of place `at` of `count` places in a picture of this width, in tenths of an SVG unit, rounded down.
#[tactic(auto, unfolding(crate::specs::chart::Marks::place))]
fn place(width: u32, count: u64, at: u128) -> u128
    ensures { result ≡ place width count at }
{
    let within = at.min(u128::from(count));
    u128::from(width) * within / u128::from(count.max(1))
}

impl Plot {
    /// Returns the y of a number.
    #[tactic(auto, unfolding(crate::specs::chart::Marks::y_of, crate::specs::chart::Marks::mark))]
    pub fn y(self, number: i128) -> Tenths
        ensures { result ≡ tenths (y_of self number) }
    {
        let tenths = u128::from(self.panel.top) + self.axis.mark(self.panel.height, number);
        Tenths { tenths }
    }

    /// Returns the baseline of a number beside its line.
    #[tactic(auto, unfolding(crate::specs::chart::Marks::base_of, crate::specs::chart::Marks::mark))]
    pub fn base(self, number: i128) -> Tenths
        ensures { result ≡ tenths (base_of self number) }
    {
        let tenths = u128::from(self.panel.top) + self.axis.mark(self.panel.height, number) + 40;
        Tenths { tenths }
    }

    /// Returns the baseline of a label above a number.
    #[tactic(auto, unfolding(crate::specs::chart::Marks::above, crate::specs::chart::Marks::mark))]
    pub fn above(self, number: i128) -> Tenths
        ensures { result ≡ tenths (above self number) }
    {
        let y = u128::from(self.panel.top) + self.axis.mark(self.panel.height, number);
        let tenths = y.saturating_sub(40);
        Tenths { tenths }
    }

    /// Returns the x of a place, counted from the first one in the picture.
    #[tactic(auto, unfolding(crate::specs::chart::Marks::x_of, crate::specs::chart::Marks::place))]
    pub fn x(self, at: u128) -> Tenths
        ensures { result ≡ tenths (x_of self at) }
    {
        let tenths = u128::from(self.panel.left) + place(self.panel.width, self.across.count, at);
        Tenths { tenths }
    }

    /// Returns the x of the left end of a column, which is the right end of the column before it.
    #[tactic(auto, unfolding(crate::specs::chart::Marks::edge))]
    pub fn edge(self, column: usize) -> Tenths
        ensures { result ≡ tenths (edge self column) }
    {
        self.x(column as u128 * u128::from(self.across.each))
    }
}
