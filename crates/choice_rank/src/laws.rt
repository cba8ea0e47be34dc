//! Laws of indices and ranks: functions that do nothing, whose contracts are the laws.
ghost use Rattle.std.specs.Prelude.{◌≡◌, ℕ, ◌^◌, ◌<◌, List};
ghost use Rattle.choice_rank.specs.declared.variable.VarShape.{VarShape};
ghost use Rattle.choice_rank.specs.Choices.{IsChoice, IsNarrow, choices_of, index_of, rank_of};

/// Each rank of a narrow shape is below 2^63.
pub fn rank_is_small()
    ensures { (vars : List VarShape) (choice : List ℕ) → IsNarrow vars → IsChoice vars choice → rank_of vars choice < 2 ^ 63 }
{}

/// Choices of equal rank are equal.
pub fn ranks_differ()
    ensures { (vars : List VarShape) (choice other : List ℕ) → IsChoice vars choice → IsChoice vars other → rank_of vars choice ≡ rank_of vars other → choice ≡ other }
{}

/// The index of a choice is below the number of choices.
pub fn index_is_below()
    ensures { (vars : List VarShape) (choice : List ℕ) → IsChoice vars choice → index_of vars choice < choices_of vars }
{}
