//! Examples worked by hand, and a theorem about all lines. Each function does nothing; its clauses
//! are what is proved.

ghost use Rattle.std.specs.Prelude.{◌≡◌, pos, negsuc, IsTrue, IsFalse};
ghost use Rattle.fraction128.specs.Fractions.{floor, floor_of_signed, whole, scaled, plus};
ghost use Rattle.fraction128.specs.Fractions.{minus, divided, at_most, below, AtMost, Below};
ghost use Rattle.fraction128.specs.Instants.{IsNext, NextIsDue, instants_of};

/// Worked by hand: 7/2 is rounded down to 3, -7/2 to -4, and -6/2 is -3 (`negsuc 6` is -7).
pub fn floors_by_hand()
    ensures above { floor_of_signed (pos 7) 2 ≡ pos 3 }
    ensures below { floor_of_signed (negsuc 6) 2 ≡ negsuc 3 }
    ensures exact { floor_of_signed (negsuc 5) 2 ≡ negsuc 2 }
    ensures third { floor (minus (whole 1) (scaled (pos 4) (1, 3))) ≡ negsuc 0 }
{}

/// Worked by hand: 1/2 + 1/3 is 5/6, 1/2 - 1/3 is 1/6, and 1/2 divided by 1/3 is 3/2.
pub fn sums_by_hand()
    ensures sum { plus (scaled (pos 1) (1, 2)) (scaled (pos 1) (1, 3)) ≡ scaled (pos 5) (1, 6) }
    ensures difference { minus (scaled (pos 1) (1, 2)) (scaled (pos 1) (1, 3))
        ≡ scaled (pos 1) (1, 6) }
    ensures quotient { divided (scaled (pos 1) (1, 2)) (1, 3) ≡ scaled (pos 3) (1, 2) }
{}

/// Worked by hand: 2/6 is at most 1/3 and not below it, -1/2 is below -1/3, and -1/3 isn't at most
/// -1/2.
pub fn order_by_hand()
    ensures at_most { AtMost (scaled (pos 2) (1, 6)) (scaled (pos 1) (1, 3)) }
    ensures equal { IsTrue (at_most (scaled (pos 2) (1, 6)) (scaled (pos 1) (1, 3))) }
    ensures less { AtMost (scaled (negsuc 0) (1, 2)) (scaled (negsuc 0) (1, 3)) }
    ensures below { Below (scaled (negsuc 0) (1, 2)) (scaled (negsuc 0) (1, 3)) }
    ensures is_below { IsTrue (below (scaled (negsuc 0) (1, 2)) (scaled (negsuc 0) (1, 3))) }
    ensures not_equal { IsFalse (below (scaled (pos 2) (1, 6)) (scaled (pos 1) (1, 3))) }
    ensures not_above { IsFalse (below (scaled (negsuc 0) (1, 3)) (scaled (negsuc 0) (1, 2))) }
    ensures not_less { Below (scaled (pos 2) (1, 6)) (scaled (pos 1) (1, 3)) → ⊥ }
    ensures not_at_most { AtMost (scaled (negsuc 0) (1, 3)) (scaled (negsuc 0) (1, 2)) → ⊥ }
    ensures more { IsFalse (at_most (scaled (negsuc 0) (1, 3)) (scaled (negsuc 0) (1, 2))) }
{}

/// Worked by hand: instants 10,000,000 / 11 apart, with the origin 7. The first is at 909,097
/// 10/11, the eleventh at 10,000,007.
pub fn instants_by_hand()
    ensures none { instants_of 10000000 11 7 909097 ≡ 0 }
    ensures one { instants_of 10000000 11 7 909098 ≡ 1 }
    ensures ten { instants_of 10000000 11 7 10000006 ≡ 10 }
    ensures eleven { instants_of 10000000 11 7 10000007 ≡ 11 }
    ensures before { instants_of 10000000 11 7 0 ≡ 0 }
    ensures next { IsNext 10000000 11 7 0 909098 1 }
    ensures whole { IsNext 10000000 11 7 10 10000007 0 }
    ensures late { IsNext 10000000 11 7 0 909099 12 → ⊥ }
    ensures no_slack { IsNext 10000000 11 7 0 909098 0 → ⊥ }
    ensures another { IsNext 10000000 11 7 1 909098 1 → ⊥ }
{}

/// The next instant is at most `t` exactly if it is at most `t` when rounded up.
pub fn next_is_due()
    ensures { NextIsDue }
{}
