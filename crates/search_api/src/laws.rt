//! Laws of outcomes: functions that do nothing, whose contracts are the laws.
ghost use Rattle.std.specs.Prelude.{ℕ, List, Option};
ghost use Rattle.choice_rank.specs.Least.{IsAnswer};
ghost use Rattle.search_api.specs.declared.outcome.Closed.{Closed};
ghost use Rattle.search_api.specs.Meaning.{Meaning, IsLawful};
ghost use Rattle.search_api.specs.Accounts.{Accounted};

/// The best rank of an accounted outcome is that of the least legal choice; it has none exactly where no choice is legal.
pub fn accounted_outcome_answers()
    ensures { (m : Meaning) (best : Option ℕ) (kept : List ℕ) (closed : List Closed) → IsLawful m → Accounted m best kept closed → IsAnswer m.shape m.legal best }
{}
