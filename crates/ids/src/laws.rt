ghost use Rattle.ids.specs.Laws.{EachIsNamed, OnePosition, OneName, ByArithmetic};

/// Each position below 2^63 has one name, and each name stands for one position at most.
pub fn position_names()
    ensures named { EachIsNamed }
    ensures one_position { OnePosition }
    ensures one_name { OneName }
    ensures by_arithmetic { ByArithmetic }
{}
