//! What limits that refute a box say of its choices.
ghost use Rattle.clock_limits.specs.Laws.{TestsAreRight, BrokenIsLeast, RefutingIsLeast, RefutingIsBroken, RefutingAloneIsBroken, OneChoiceIsExact, WishOutOfReachRefutes, WishNarrows};

/// Each test of a limit tells whether its sentence holds.
pub fn tests_are_right()
    ensures { TestsAreRight }
{}

/// The limit that is broken is the least that the choice does not meet.
pub fn broken_is_least()
    ensures { BrokenIsLeast }
{}

/// The limit that refutes is the least that refutes the box.
pub fn refuting_is_least()
    ensures { RefutingIsLeast }
{}

/// A limit that refutes a box is broken by each choice in the box, or the choice breaks the wish for HCLK.
pub fn refuting_is_broken()
    ensures { RefutingIsBroken }
{}

/// A limit whose range does not rest on the wish for HCLK, or any where there is no such wish, is broken by each choice.
pub fn refuting_alone_is_broken()
    ensures { RefutingAloneIsBroken }
{}

/// On a box with one choice, the limit that refutes it is the one that the choice breaks.
pub fn one_choice_is_exact()
    ensures { OneChoiceIsExact }
{}

/// With a wish for HCLK, a box is judged as if its HCLK were the wish; where it can't be, limit 14 refutes it.
pub fn wish_narrows()
    ensures out_of_reach { WishOutOfReachRefutes }
    ensures narrows { WishNarrows }
{}
