//! Pictures worked by hand, and theorems about all pictures. Each function does nothing: its clauses are what is
//! proved.

ghost use Rattle.std.specs.Prelude.{◌≡◌, ◌<◌, ◌≤◌, ◌≤ℤ◌, ◌<ℤ◌, ◌++◌, ◌∷◌, ℕ, ℤ, false, List, [], codes, length, neg_ℤ};
ghost use Rattle.std.specs.Prelude.{pos};
ghost use Rattle.std.specs.Prelude.{Some, None, true};
ghost use Rattle.std.specs.List.{list_any};
ghost use Rattle.flow_measure.specs.Columns.{AreColumns, column_at, greatest_at, least_at, places_in};
ghost use Rattle.flow_measure.specs.declared.columns.Extremes.{Extremes};
ghost use Rattle.flow_page.specs.chart.Axes.{axis_of};
ghost use Rattle.flow_page.specs.chart.Bars.{bars_text, has_name, some_share};
ghost use Rattle.flow_page.specs.chart.Charts.{IsOn, curve_axis};
ghost use Rattle.flow_page.specs.declared.chart.lines.Limit.{Limit};
ghost use Rattle.flow_page.specs.chart.Curve.{EndsAtNumbers, Spans, band_text};
ghost use Rattle.flow_page.specs.chart.Escapes.{all_written, escaped, is_markup, unescaped};
ghost use Rattle.flow_page.specs.chart.Lines.{free_of, lines_text, with_name};
ghost use Rattle.flow_page.specs.chart.Marks.{high, mark, place, rise, span, tenths_text, y_of};
ghost use Rattle.flow_page.specs.chart.Shades.{shade_named};
ghost use Rattle.flow_page.specs.declared.chart.axis.Axis.{Axis};
ghost use Rattle.flow_page.specs.declared.chart.bars.BarName.TheVariants.{From};
ghost use Rattle.flow_page.specs.declared.chart.grid.Unit.TheVariants.{Packets};
ghost use Rattle.flow_page.specs.declared.chart.plot.Plot.{Plot};
ghost use Rattle.flow_page.specs.chart.Worked.{bar, bars_plot, burst_bars, burst_columns, burst_plot, eight_plot};
ghost use Rattle.flow_page.specs.chart.Worked.{limit_of_4, nothing, wide_plot};

/// Axes with a tick at each number, below 0 in steps of 5, of a single number, and far from 0.
#[tactic(auto, unfolding(crate::proofs::lemmas::chart::Numerals::numerals, crate::proofs::lemmas::chart::Numerals::places))]
pub fn axes_by_hand()
    ensures burst { axis_of (pos 1) (pos 5) ≡ record { low = pos 1; step = 1; steps = 4 } }
    ensures below { axis_of (neg_ℤ (pos 11)) (pos 8) ≡ record { low = neg_ℤ (pos 15); step = 5; steps = 5 } }
    ensures flat { axis_of (pos 1800) (pos 1800) ≡ record { low = pos 1800; step = 1; steps = 3 } }
    ensures far { axis_of (pos 758731) (pos 766209) ≡ record { low = pos 758000; step = 2000; steps = 5 } }
{}

/// Tenths in decimal.
#[tactic(auto, unfolding(crate::proofs::lemmas::chart::Numerals::numerals, crate::proofs::lemmas::chart::Numerals::places))]
pub fn tenths_by_hand()
    ensures whole { tenths_text 1740 ≡ codes "174" }
    ensures part { tenths_text 1745 ≡ codes "174.5" }
    ensures small { tenths_text 3 ≡ codes "0.3" }
{}

/// Places of numbers. The ends of the axis are the ends of the picture, places are rounded down, and numbers above or
/// below the axis are drawn at its end.
#[tactic(auto, unfolding(crate::proofs::lemmas::chart::Numerals::numerals, crate::proofs::lemmas::chart::Numerals::places))]
pub fn marks_by_hand()
    ensures low { y_of burst_plot (pos 0) ≡ 1200 }
    ensures high { y_of burst_plot (pos 5) ≡ 200 }
    ensures limit { y_of burst_plot (pos 4) ≡ 400 }
    ensures above { y_of burst_plot (pos 6) ≡ 200 }
    ensures down { mark 100 (record { low = pos 0; step = 1; steps = 3 }) (pos 1) ≡ 66 }
    ensures left { place 800 40 0 ≡ 0 }
    ensures right { place 800 40 40 ≡ 800 }
    ensures third { place 100 3 1 ≡ 33 }
{}

/// Greater numbers are never drawn lower. Of two numbers, the greater one is at least as far above the low end of an
/// axis, and is never drawn below the other one or below its line. On the axis, a number above a limit is further from
/// the low end than the limit. The ends of the axis are at the ends of the picture.
pub fn marks_rise()
    ensures rises { (a : Axis) (x y : ℤ) → x ≤ℤ y → rise a x ≤ rise a y }
    ensures above { (a : Axis) (limit x : ℤ) → a.low ≤ℤ limit → limit <ℤ x → x ≤ℤ high a
        → rise a limit < rise a x }
    ensures falls { (height : ℕ) (a : Axis) (x y : ℤ) → x ≤ℤ y → mark height a y ≤ mark height a x }
    ensures low { (height : ℕ) (a : Axis) → 0 < span a → mark height a a.low ≡ height }
    ensures high { (height : ℕ) (a : Axis) → mark height a (high a) ≡ 0 }
    ensures within { (height : ℕ) (a : Axis) (x : ℤ) → mark height a x ≤ height }
{}

/// No peak is hidden. The axis of a curve includes all numbers of its columns, up to the greatest number that an axis
/// can have. The band of each column includes the places of all its numbers, and its ends are the places of two of
/// them.
pub fn no_peak_is_hidden()
    ensures on { (lines : List Limit) (columns : List Extremes) (c : ℕ) (x : ℤ) → c < length columns
        → least_at columns c ≤ℤ x → x ≤ℤ greatest_at columns c → IsOn (curve_axis lines columns) x }
    ensures spans { (p : Plot) (column_of : ℕ → ℕ) (numbers : ℕ → ℤ) (count i : ℕ) (columns : List Extremes)
        → AreColumns column_of numbers count columns → i < count
        → Spans p (column_at columns (column_of i)) (numbers i) }
    ensures ends { (p : Plot) (column_of : ℕ → ℕ) (numbers : ℕ → ℤ) (count c : ℕ) (columns : List Extremes)
        → AreColumns column_of numbers count columns → c < length columns
        → EndsAtNumbers p numbers (places_in column_of count c) (column_at columns c) }
{}

/// The band of a burst: along the greatest numbers to the end of the last column, and back along the least ones.
#[tactic(auto, unfolding(crate::proofs::lemmas::chart::Numerals::numerals, crate::proofs::lemmas::chart::Numerals::places))]
pub fn band_by_hand()
    ensures { band_text burst_plot burst_columns
        ≡ codes "<path class=\"band\" d=\"M30 100H66V40H78V20H90V100H110H30Z\"/>" }
{}

/// The lines of the limits of that burst, each with its name beside it.
#[tactic(auto, unfolding(crate::proofs::lemmas::chart::Numerals::numerals, crate::proofs::lemmas::chart::Numerals::places))]
pub fn lines_by_hand()
    ensures { lines_text burst_plot (limit_of_4 ∷ nothing ∷ [])
        ≡ codes "<path class=\"lim\" d=\"M30 40H110\"/><text class=\"lim\" x=\"116\" y=\"44\">N, NL 4</text>"
        ++ codes "<path class=\"lim\" d=\"M30 120H110\"/><text class=\"lim\" x=\"116\" y=\"124\">empty</text>" }
{}

/// The places of names beside lines. A name less than 14 SVG units from another one is placed 14 units above that one.
/// Other names stand at their lines. A third name that would touch the first, but not the second, is placed above both.
#[tactic(auto, unfolding(crate::proofs::lemmas::chart::Numerals::places))]
pub fn names_by_hand()
    ensures near_above { free_of 440 (with_name 579 None) ≡ 439 }
    ensures near_below { free_of 700 (with_name 579 None) ≡ 439 }
    ensures far { free_of 439 (with_name 579 None) ≡ 439 }
    ensures far_below { free_of 719 (with_name 579 None) ≡ 719 }
    ensures third { free_of 600 (with_name 439 (Some (with_name 579 None))) ≡ 299 }
    ensures third_below { free_of 719 (with_name 439 (Some (with_name 579 None))) ≡ 719 }
{}

/// The histogram of the burst's bucket. A count of 0 isn't drawn, the limit stands before the bar of the numbers above
/// it, and the first and the last bar have names. There is no room for a name between them.
#[tactic(auto, unfolding(crate::proofs::lemmas::chart::Numerals::numerals, crate::proofs::lemmas::chart::Numerals::places, crate::proofs::lemmas::chart::Numerals::names))]
pub fn bars_by_hand()
    ensures { bars_text bars_plot 40 0 burst_bars
        ≡ codes "<text x=\"40\" y=\"136\" text-anchor=\"middle\">0</text>"
        ++ (codes "<path class=\"bar\" d=\"M52 120V30H68V120Z\"><title>1: 36</title></path>"
        ++ (codes "<path class=\"bar\" d=\"M72 120V117.5H88V120Z\"><title>2: 1</title></path>"
        ++ (codes "<path class=\"bar\" d=\"M92 120V117.5H108V120Z\"><title>3: 1</title></path>"
        ++ (codes "<path class=\"bar\" d=\"M112 120V117.5H128V120Z\"><title>4: 1</title></path>"
        ++ (codes "<path class=\"bar over\" d=\"M132 120V117.5H148V120Z\"><title>above 4: 1</title></path>"
        ++ (codes "<text x=\"140\" y=\"136\" text-anchor=\"middle\">above 4</text>"
        ++ (codes "<path class=\"lim\" d=\"M130 20V120\"/>"
        ++ codes "<text class=\"lim\" x=\"126\" y=\"30\" text-anchor=\"end\">limit 4</text>"))))))) }
{}

/// Names of eight bars that are twenty SVG units apart. The first and the last bar have names, and so does every third
/// bar that is at least sixty units from the last.
#[tactic(auto, unfolding(crate::proofs::lemmas::chart::Numerals::numerals, crate::proofs::lemmas::chart::Numerals::places, crate::proofs::lemmas::chart::Numerals::names))]
pub fn bar_names_by_hand()
    ensures first { has_name eight_plot 0 ≡ true }
    ensures second { has_name eight_plot 1 ≡ false }
    ensures third { has_name eight_plot 3 ≡ true }
    ensures near { has_name eight_plot 6 ≡ false }
    ensures last { has_name eight_plot 7 ≡ true }
{}

/// The name of shaded places. At the left end it begins after the unit of the axis. In the left half it begins with the
/// shaded places, and in the right half it ends with them.
#[tactic(auto, unfolding(crate::proofs::lemmas::chart::Numerals::numerals, crate::proofs::lemmas::chart::Numerals::places, crate::proofs::lemmas::chart::Numerals::names))]
pub fn shade_names_by_hand()
    ensures left { shade_named burst_plot Packets (record { from = 0; to = 0 })
        ≡ codes "<text class=\"lim\" x=\"60.6\" y=\"16\" text-anchor=\"start\">from 0 to 0</text>" }
    ensures behind { shade_named burst_plot Packets (record { from = 18; to = 24 })
        ≡ codes "<text class=\"lim\" x=\"66\" y=\"16\" text-anchor=\"start\">from 18 to 24</text>" }
    ensures right { shade_named burst_plot Packets (record { from = 20; to = 24 })
        ≡ codes "<text class=\"lim\" x=\"80\" y=\"16\" text-anchor=\"end\">from 20 to 24</text>" }
{}

/// Shares of bars. If bars are sixty SVG units apart, each has its name and its share: 36 of 40, and 1 of 2,000, which
/// is less than a tenth of a percent.
#[tactic(auto, unfolding(crate::proofs::lemmas::chart::Numerals::numerals, crate::proofs::lemmas::chart::Numerals::places))]
pub fn shares_by_hand()
    ensures most { some_share wide_plot 40 1 (bar (From 1) 36)
        ≡ codes "<text x=\"120\" y=\"26\" text-anchor=\"middle\">90 %</text>" }
    ensures few { some_share wide_plot 2000 1 (bar (From 1) 1)
        ≡ codes "<text x=\"120\" y=\"113.5\" text-anchor=\"middle\">&lt;0.1 %</text>" }
    ensures narrow { some_share bars_plot 40 1 (bar (From 1) 36) ≡ [] }
{}

/// Escaped text contains no character that HTML or SVG reads as markup, except in references. It is read back as the
/// original text.
pub fn escaped_reads_back()
    ensures none { (cs : List ℕ) → list_any is_markup (all_written cs) ≡ false }
    ensures back { (cs : List ℕ) → unescaped (all_written cs) ≡ cs }
{}

/// A name with markup, as written and as read back.
#[tactic(auto, unfolding(crate::proofs::lemmas::chart::Numerals::numerals, crate::proofs::lemmas::chart::Numerals::places))]
pub fn escapes_by_hand()
    ensures read { unescaped (codes "&lt;b&gt;&amp;lt;&#39;&quot;&") ≡ codes "<b>&lt;'\"&" }
    ensures written { escaped (codes "<b>&'\"") ≡ codes "&lt;b&gt;&amp;&#39;&quot;" }
{}
