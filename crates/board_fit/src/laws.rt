//! The law of pins and clocks in its parts, and what a board says: functions that do nothing, whose contracts are the laws. Ranks
//! may be any natural numbers.
//!
//! A choice of a board is one of its clock variables, and behind it one of its pins. Both parts meet in which signals there
//! are, not in where they stand.
ghost use Rattle.std.specs.Prelude.{◌≡◌, ◌↔◌, ◌⊎◌, ◌+◌, ◌*◌, ◌++◌, ◌&&◌, ℕ, List, None, map, true, false};
ghost use Rattle.choice_rank.specs.Choices.{IsChoice, IsNarrow, choices_of, cost_of, index_of};
ghost use Rattle.choice_rank.specs.Least.{IsLeast, NoneLegal};
ghost use Rattle.box_rules.specs.Judged.{pin_meaning, whole_meaning};
ghost use Rattle.problem.specs.Meets.{meets};
ghost use Rattle.problem.specs.Problem.{clock_shape};
ghost use Rattle.problem.specs.declared.parts.Part.TheVariants.{Whole};
ghost use Rattle.problem.specs.declared.parts.ProblemParts.{ProblemParts};
ghost use Rattle.refutation.specs.Canonical.{IsCanonicalOf};
ghost use Rattle.refutation.specs.Trees.{IsAccepted};
ghost use Rattle.refutation.specs.declared.node.Node.{Node};
ghost use Rattle.report.specs.Placed.{uses_of};
ghost use Rattle.res_model.specs.declared.opts.Opts.{Opts};
ghost use Rattle.res_model.specs.declared.project.Project.{Project};
ghost use Rattle.res_model.specs.declared.table.TableParts.{TableParts};
ghost use Rattle.answers.specs.declared.answer.Answer.{Answer};
ghost use Rattle.solver.specs.Owed.{OfProblem, OfWhole};
ghost use Rattle.proof_shift.specs.Raised.{raised_node};
ghost use Rattle.board_fit.specs.Board.{IsBoardStatus, OfBoard};
ghost use Rattle.board_fit.specs.Leaf.{IsHallLeaf};
ghost use Rattle.board_fit.specs.Same.{SayTheSame};
ghost use Rattle.board_fit.specs.Parts.{IsBoard, alone, alones, clocks_of, joined, one_value, pins_of, whole_of};

/// The clocks beside a placement have the board's facts, values and clock variables, and each signal has the value that the
/// placement gives it, at no cost.
pub fn facts_of_parts()
    ensures facts { (t : TableParts) (p : Project) (opts : Opts) (at : List ℕ) → IsBoard t p opts → IsChoice (pins_of t p opts).shape at → (clocks_of t p opts at).facts ≡ (whole_of t p opts).facts }
    ensures clock { (t : TableParts) (p : Project) (opts : Opts) (at : List ℕ) → IsBoard t p opts → IsChoice (pins_of t p opts).shape at → (clocks_of t p opts at).clock ≡ (whole_of t p opts).clock }
    ensures shape { (t : TableParts) (p : Project) (opts : Opts) (at : List ℕ) → IsBoard t p opts → IsChoice (pins_of t p opts).shape at → (clocks_of t p opts at).shape ≡ clock_shape t p opts Whole ++ alones p }
    ensures whole { (t : TableParts) (p : Project) (opts : Opts) → IsBoard t p opts → (whole_of t p opts).shape ≡ clock_shape t p opts Whole ++ (pins_of t p opts).shape }
    ensures uses { (t : TableParts) (p : Project) (opts : Opts) (at : List ℕ) → IsBoard t p opts → IsChoice (pins_of t p opts).shape at → (clocks_of t p opts at).uses ≡ map one_value (uses_of (pins_of t p opts) at) }
{}

/// A joined choice meets the limits where its placement does and the clocks do beside that placement; and beside one placement
/// that meets them the clocks do as beside another.
pub fn limits_of_parts()
    ensures both { (t : TableParts) (p : Project) (opts : Opts) (clocks at : List ℕ) → IsBoard t p opts → IsChoice (clock_shape t p opts Whole) clocks → IsChoice (pins_of t p opts).shape at
        → meets (whole_of t p opts) (joined clocks at) ≡ (meets (pins_of t p opts) at && meets (clocks_of t p opts at) (alone p clocks)) }
    ensures other { (t : TableParts) (p : Project) (opts : Opts) (clocks at other : List ℕ) → IsBoard t p opts → IsChoice (clock_shape t p opts Whole) clocks
        → IsChoice (pins_of t p opts).shape at → meets (pins_of t p opts) at ≡ true → IsChoice (pins_of t p opts).shape other → meets (pins_of t p opts) other ≡ true
        → meets (clocks_of t p opts at) (alone p clocks) ≡ meets (clocks_of t p opts other) (alone p clocks) }
{}

/// The costs of the parts add up, and the index of a joined choice is that of its clocks, times the number of placements, plus
/// that of its placement. So joined choices are ranked by cost, then by their clocks, and then by their placements.
pub fn cost_and_index_of_parts()
    ensures cost { (t : TableParts) (p : Project) (opts : Opts) (clocks at : List ℕ) → IsBoard t p opts → IsChoice (clock_shape t p opts Whole) clocks → IsChoice (pins_of t p opts).shape at
        → cost_of (whole_of t p opts).shape (joined clocks at) ≡ cost_of (clocks_of t p opts at).shape (alone p clocks) + cost_of (pins_of t p opts).shape at }
    ensures index { (t : TableParts) (p : Project) (opts : Opts) (clocks at : List ℕ) → IsBoard t p opts → IsChoice (clock_shape t p opts Whole) clocks → IsChoice (pins_of t p opts).shape at
        → index_of (whole_of t p opts).shape (joined clocks at) ≡ index_of (clocks_of t p opts at).shape (alone p clocks) * choices_of (pins_of t p opts).shape + index_of (pins_of t p opts).shape at }
{}

/// A joined choice is the least where its placement is the least and its clocks are the least beside that placement.
pub fn least_of_parts()
    ensures { (t : TableParts) (p : Project) (opts : Opts) (clocks at : List ℕ) → IsBoard t p opts → IsChoice (clock_shape t p opts Whole) clocks → IsChoice (pins_of t p opts).shape at
        → IsLeast (whole_of t p opts).shape (meets (whole_of t p opts)) (joined clocks at)
        ↔ (IsLeast (pins_of t p opts).shape (meets (pins_of t p opts)) at × IsLeast (clocks_of t p opts at).shape (meets (clocks_of t p opts at)) (alone p clocks)) }
{}

/// No choice of a board meets the limits where no placement does; and beside a placement that meets them, none does where no
/// clocks do. There is no third way.
pub fn none_of_parts()
    ensures unplaced { (t : TableParts) (p : Project) (opts : Opts) → IsBoard t p opts → NoneLegal (pins_of t p opts).shape (meets (pins_of t p opts)) → NoneLegal (whole_of t p opts).shape (meets (whole_of t p opts)) }
    ensures unclocked { (t : TableParts) (p : Project) (opts : Opts) (at : List ℕ) → IsBoard t p opts → IsChoice (pins_of t p opts).shape at → meets (pins_of t p opts) at ≡ true
        → NoneLegal (whole_of t p opts).shape (meets (whole_of t p opts)) ↔ NoneLegal (clocks_of t p opts at).shape (meets (clocks_of t p opts at)) }
    ensures either { (t : TableParts) (p : Project) (opts : Opts) → IsBoard t p opts → NoneLegal (whole_of t p opts).shape (meets (whole_of t p opts))
        ↔ (NoneLegal (pins_of t p opts).shape (meets (pins_of t p opts))
        ⊎ ((at : List ℕ) × IsChoice (pins_of t p opts).shape at × (meets (pins_of t p opts) at ≡ true) × NoneLegal (clocks_of t p opts at).shape (meets (clocks_of t p opts at)))) }
{}

/// Where no placement meets the limits, the canonical tree of the placements is one leaf with a Hall set, and this leaf with ten
/// added to each variable is the board's. Where a placement meets them and no clocks do beside it, the canonical tree of the
/// clocks is the board's.
pub fn canonical_tree_of_parts()
    ensures leaf { (t : TableParts) (p : Project) (opts : Opts) (nodes : List Node) → IsBoard t p opts → NoneLegal (pins_of t p opts).shape (meets (pins_of t p opts))
        → IsCanonicalOf (pin_meaning (pins_of t p opts)) None nodes → IsHallLeaf nodes }
    ensures unplaced { (t : TableParts) (p : Project) (opts : Opts) (nodes : List Node) → IsBoard t p opts → NoneLegal (pins_of t p opts).shape (meets (pins_of t p opts))
        → IsCanonicalOf (pin_meaning (pins_of t p opts)) None nodes → IsCanonicalOf (whole_meaning (whole_of t p opts)) None (map raised_node nodes) × IsAccepted (whole_meaning (whole_of t p opts)) None (map raised_node nodes) }
    ensures unclocked { (t : TableParts) (p : Project) (opts : Opts) (at : List ℕ) (nodes : List Node) → IsBoard t p opts → IsChoice (pins_of t p opts).shape at → meets (pins_of t p opts) at ≡ true
        → NoneLegal (clocks_of t p opts at).shape (meets (clocks_of t p opts at)) → IsCanonicalOf (whole_meaning (clocks_of t p opts at)) None nodes
        → IsCanonicalOf (whole_meaning (whole_of t p opts)) None nodes × IsAccepted (whole_meaning (whole_of t p opts)) None nodes }
{}

/// Where the ranks of the whole problem fit, a board says what is said of it: with one status and one text, but that its first
/// line has the cost alone where a choice fits.
pub fn narrow_board_is_as_resolved()
    ensures { (t : TableParts) (p : Project) (opts : Opts) (board resolved : Answer) → IsBoard t p opts → IsNarrow (whole_of t p opts).shape → OfBoard (pins_of t p opts) (whole_of t p opts) board
        → OfProblem (whole_of t p opts) (OfWhole false (whole_of t p opts)) resolved → SayTheSame (whole_of t p opts) board resolved }
{}

/// A board has one of three statuses, whatever it comes to.
pub fn board_has_one_of_three_statuses()
    ensures { (q w : ProblemParts) (a : Answer) → OfBoard q w a → IsBoardStatus a.status }
{}
