//! Laws of boxes and paths: functions that do nothing, whose contracts are the laws.
ghost use Rattle.std.specs.Prelude.{◌≡◌, ℕ, ◌+◌, ◌*◌, ◌^◌, ◌<◌, ◌≤◌, ◌↔◌, List, Some, None, IsSome, true, false, option_and_then};
ghost use Rattle.choice_rank.specs.declared.variable.VarShape.{VarShape};
ghost use Rattle.choice_rank.specs.Choices.{IsChoice, IsShape, HasPositions, rank_of};
ghost use Rattle.box_split.specs.Boxes.{Run, IsBox, LiesIn, whole, is_single, lows, low_of};
ghost use Rattle.box_split.specs.Paths.{lower, upper, half, box_of, covers};

/// The box of each number: none for 0, all positions for 1, and the halves of path p for 2p and 2p + 1.
pub fn box_is_found_by_halving()
    ensures zero { (vars : List VarShape) → box_of vars 0 ≡ None }
    ensures root { (vars : List VarShape) → box_of vars 1 ≡ Some (whole vars) }
    ensures halves { (vars : List VarShape) (path bit : ℕ) → 0 < path → bit < 2 → box_of vars (2 * path + bit) ≡ option_and_then (half bit) (box_of vars path) }
{}

/// Both halves of a box with two or more choices have paths.
pub fn halves_are_paths()
    ensures lower { (vars : List VarShape) (path : ℕ) (b : List Run) → box_of vars path ≡ Some b → is_single b ≡ false → box_of vars (2 * path) ≡ Some (lower b) }
    ensures upper { (vars : List VarShape) (path : ℕ) (b : List Run) → box_of vars path ≡ Some b → is_single b ≡ false → box_of vars (2 * path + 1) ≡ Some (upper b) }
{}

/// Each path's box is a box of the shape.
pub fn path_is_a_box()
    ensures { (vars : List VarShape) (path : ℕ) (b : List Run) → HasPositions vars → box_of vars path ≡ Some b → IsBox vars b }
{}

/// A path is at least 1, and below 2^127.
pub fn path_is_small()
    ensures positive { (vars : List VarShape) (path : ℕ) → IsSome (box_of vars path) → 1 ≤ path }
    ensures short { (vars : List VarShape) (path : ℕ) → IsShape vars → IsSome (box_of vars path) → path < 2 ^ 127 }
{}

/// The box of all positions covers each choice.
pub fn whole_covers_each_choice()
    ensures { (vars : List VarShape) (choice : List ℕ) → IsChoice vars choice → covers vars 1 choice ≡ 1 }
{}

/// A number that is no path covers nothing.
pub fn no_path_covers_none()
    ensures { (vars : List VarShape) (path : ℕ) (choice : List ℕ) → box_of vars path ≡ None → covers vars path choice ≡ 0 }
{}

/// A choice is covered by one of the two halves of a box where the box covers it, and else by neither.
pub fn halves_make_up_the_whole()
    ensures { (vars : List VarShape) (path : ℕ) (b : List Run) (choice : List ℕ) → box_of vars path ≡ Some b → is_single b ≡ false → covers vars (2 * path) choice + covers vars (2 * path + 1) choice ≡ covers vars path choice }
{}

/// A path covers the choices that lie in its box.
pub fn covers_what_lies_in()
    ensures { (vars : List VarShape) (path : ℕ) (choice : List ℕ) → (covers vars path choice ≡ 1) ↔ ((b : List Run) × (box_of vars path ≡ Some b) × LiesIn b choice) }
{}

/// The low of a box is the rank of a choice in it, and no other there has a lesser one.
pub fn low_is_least()
    ensures inside { (vars : List VarShape) (b : List Run) → IsBox vars b → IsChoice vars (lows b) × LiesIn b (lows b) }
    ensures least { (vars : List VarShape) (b : List Run) (choice : List ℕ) → LiesIn b choice → low_of vars b ≤ rank_of vars choice }
{}

/// The only choice in a box with one choice is that of its lowest positions.
pub fn single_box_has_its_low()
    ensures { (b : List Run) (choice : List ℕ) → is_single b ≡ true → LiesIn b choice → choice ≡ lows b }
{}
