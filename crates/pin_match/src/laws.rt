//! Laws of assignments: functions that do nothing, whose contracts are the laws.
ghost use Rattle.std.specs.Prelude.{◌≡◌, ◌↔◌, ℕ, ◌≤◌, ◌<◌, Bool, true, Option, Some, None};
ghost use Rattle.pin_match.specs.Assignments.{IsAssignment, IsLargest, IsReached, IsFull, CanBeLeftOut, size_of};
ghost use Rattle.pin_match.specs.Hall.{IsHall};
ghost use Rattle.res_base.specs.declared.var_set.VarSet.{VarSet};
ghost use Rattle.pin_match.specs.Largest.{most, is_left_out, hall_of};

/// Where a search from the variables left out is closed, the assignment is largest, and what the search
/// reached is exactly what some largest assignment leaves out.
pub fn largest_where_closed()
    ensures { (n m : ℕ) (fits : ℕ → ℕ → Bool) (f : ℕ → Option ℕ) (reached : ℕ → Bool) (rank : ℕ → ℕ)
        → IsAssignment n m fits f → IsReached n m fits f reached rank
        → IsLargest n m fits f × ((v : ℕ) → v < n → (reached v ≡ true) ↔ CanBeLeftOut n m fits v) }
{}

/// What is computed is the size of a largest assignment, and what some largest assignment leaves out, which is
/// more than its resources.
pub fn largest_is_computed()
    ensures reached { (n m : ℕ) (fits : ℕ → ℕ → Bool) → (f : ℕ → Option ℕ) × IsAssignment n m fits f × (size_of n f ≡ most n m fits) }
    ensures greatest { (n m : ℕ) (fits : ℕ → ℕ → Bool) (f : ℕ → Option ℕ) → IsAssignment n m fits f → size_of n f ≤ most n m fits }
    ensures left_out { (n m : ℕ) (fits : ℕ → ℕ → Bool) (v : ℕ) → v < n → (is_left_out n m fits v ≡ true) ↔ CanBeLeftOut n m fits v }
    ensures full { (n m : ℕ) (fits : ℕ → ℕ → Bool) → (hall_of n m fits ≡ None) ↔ IsFull n m fits }
    ensures hall { (n m : ℕ) (fits : ℕ → ℕ → Bool) (s : VarSet) → n ≤ 192 → hall_of n m fits ≡ Some s → IsHall n m fits s }
{}
