//! Laws of lists of events: functions that do nothing, whose contracts are the laws.
ghost use Rattle.std.specs.Prelude.{◌≡◌, ◌≤◌, ℕ, List, Some, slice_get};
ghost use Rattle.search_api.specs.Meaning.{Meaning, IsLawful};
ghost use Rattle.search_core.specs.declared.event.Event.{Event};
ghost use Rattle.search_core.specs.declared.event.Event.TheVariants as event;
ghost use Rattle.search_core.specs.declared.state.Core.{Core};
ghost use Rattle.search_core.specs.declared.state.Hand.{Hand};
ghost use Rattle.search_core.specs.Events.{Step, opening};
ghost use Rattle.search_core.specs.Fits.{Fits, NoneTwice, entries};
ghost use Rattle.search_core.specs.Runs.{CutsByKept, IsAccount, IsFinished, Runs};
ghost use Rattle.search_core.specs.Turns.{IsBehind, LowestLast, RunsOwnFirst, own_paths};

/// Over every list of events from a new core on, each choice lies in one box, and all else holds that a core keeps.
pub fn every_run_fits()
    ensures { (m : Meaning) (workers : ℕ) (events : List Event) (c : Core) → IsLawful m → 1 ≤ workers → Runs m (opening workers) events c → Fits m c }
{}

/// Over every list of events, no path is in two deques, hands or closed boxes at a time: each box is claimed once.
pub fn each_box_is_claimed_once()
    ensures { (m : Meaning) (workers : ℕ) (events : List Event) (c : Core) → IsLawful m → 1 ≤ workers → Runs m (opening workers) events c → NoneTwice (entries c) }
{}

/// A core has one end of each event.
pub fn step_has_one_end()
    ensures { (m : Meaning) (c new other : Core) (e : Event) → Step m c e new → Step m c e other → new ≡ other }
{}

/// Over every list of events, a cut uses a rank that was kept before it.
pub fn each_cut_uses_a_kept_rank()
    ensures { (m : Meaning) (workers : ℕ) (events : List Event) (c new : Core) (w : ℕ) → IsLawful m → 1 ≤ workers → Runs m (opening workers) events c → Step m c (event.Cut w) new → CutsByKept c w new }
{}

/// A core that has nothing left to do accounts for every choice: its word is the least kept rank, and none where none was kept.
pub fn finished_core_is_accounted()
    ensures { (m : Meaning) (c : Core) → Fits m c → IsFinished c → IsAccount m c.word c.kept c.closed }
{}

/// Where no worker steals while its own deque has a path, each works depth first and comes to its lowest box next:
/// the one in its hand stands before those in its deque, and there the last one before the others.
pub fn own_boxes_stay_in_order()
    ensures { (m : Meaning) (workers : ℕ) (events : List Event) (c : Core) (w : ℕ) (deque : List ℕ) (hand : Hand) → IsLawful m → RunsOwnFirst m (opening workers) events c → slice_get c.deques w ≡ Some deque → slice_get c.hands w ≡ Some hand → LowestLast m.shape (own_paths deque hand) }
{}

/// In such a list of events a thief takes the box to which its owner would have come last.
pub fn thief_takes_the_last_box()
    ensures { (m : Meaning) (workers : ℕ) (events : List Event) (c new : Core) (w from : ℕ) (thief owner : Hand) (path : ℕ) (left : List ℕ) → IsLawful m → RunsOwnFirst m (opening workers) events c → Step m c (event.Steal w from) new → slice_get new.hands w ≡ Some thief → thief.path ≡ Some path → slice_get new.hands from ≡ Some owner → slice_get new.deques from ≡ Some left → IsBehind m.shape path (own_paths left owner) }
{}
