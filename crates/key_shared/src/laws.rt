ghost use Rattle.key_shared.specs.Laws.{BytesAreBlocksAndATail, RangesThatMeet, StaysApart, NoPositionForTwo};

/// A byte string is its blocks of four bytes, one after another, and a tail of fewer.
pub fn bytes_are_blocks_and_a_tail()
    ensures { BytesAreBlocksAndATail }
{}

/// Two ranges meet exactly where a slot lies in both.
pub fn ranges_that_meet()
    ensures { RangesThatMeet }
{}

/// No slot lies in the ranges of two attached consumers, whoever is attached and detached.
pub fn ranges_stay_apart()
    ensures { StaysApart }
{}

/// No position is admitted to two consumers.
pub fn no_position_for_two()
    ensures { NoPositionForTwo }
{}
