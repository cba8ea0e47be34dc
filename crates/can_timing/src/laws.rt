//! Laws of bit timings: functions that do nothing, whose contracts are the laws.
ghost use Rattle.std.specs.Prelude.{◌≡◌, ◌<◌, ◌↔◌, ◌⊎◌, ℕ, List, true};
ghost use Rattle.choice_rank.specs.Choices.{IsChoice, rank_of};
ghost use Rattle.choice_rank.specs.Least.{IsLeast, NoneLegal};
ghost use Rattle.search_api.specs.Meaning.{IsLawful};
ghost use Rattle.can_timing.specs.declared.request.Request.{Request};
ghost use Rattle.can_timing.specs.declared.timing.Timing.{Timing};
ghost use Rattle.can_timing.specs.Timings.{HoldsTiming, IsTiming, btr_of, can_shape, serves, timing_of};
ghost use Rattle.can_timing.specs.Judged.{can_meaning, legal};
ghost use Rattle.can_timing.specs.Order.{ComesBefore};

/// Each choice is a timing within its ranges, and each such timing is a choice.
pub fn choices_are_timings()
    ensures ranges { (choice : List ℕ) → IsChoice can_shape choice → IsTiming (timing_of choice) }
    ensures all { (t : Timing) → IsTiming t → (choice : List ℕ) × IsChoice can_shape choice × (timing_of choice ≡ t) }
{}

/// The lower rank is that of the lesser prescaler, then of the shorter first segment, and then of the shorter second one.
pub fn lower_ranks_come_first()
    ensures { (choice other : List ℕ) → IsChoice can_shape choice → IsChoice can_shape other → (rank_of can_shape choice < rank_of can_shape other) ↔ ComesBefore (timing_of choice) (timing_of other) }
{}

/// No choice is legal exactly where no timing serves.
pub fn no_choice_is_no_timing()
    ensures { (q : Request) → NoneLegal can_shape (legal q) ↔ ((t : Timing) → IsTiming t → serves q t ≡ true → ⊥) }
{}

/// The least choice is a timing that serves, and comes before each other that does.
pub fn least_choice_is_the_first_timing()
    ensures serves { (q : Request) (choice : List ℕ) → IsLeast can_shape (legal q) choice → serves q (timing_of choice) ≡ true }
    ensures first { (q : Request) (choice : List ℕ) → IsLeast can_shape (legal q) choice → (t : Timing) → IsTiming t → serves q t ≡ true → (timing_of choice ≡ t) ⊎ ComesBefore (timing_of choice) t }
{}

/// What the judge means is lawful: a box that a limit refutes has no timing that serves.
pub fn verdicts_are_lawful()
    ensures { (q : Request) → IsLawful (can_meaning q) }
{}

/// CAN_BTR of a timing (RM0090): BS2 less one in bits 22 to 20, BS1 less one in bits 19 to 16, the prescaler less one in bits 9 to 0,
/// and no other bit is set.
pub fn register_holds_the_timing()
    ensures { (t : Timing) → IsTiming t → HoldsTiming (btr_of t) t }
{}
