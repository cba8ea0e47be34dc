//! Laws of accepted proofs: functions that do nothing, whose contracts are the laws.
ghost use Rattle.std.specs.Prelude.{◌≡◌, ◌↔◌, ℕ, List, Option, None, Some};
ghost use Rattle.choice_rank.specs.Least.{IsAnswer};
ghost use Rattle.search_api.specs.Meaning.{Meaning};
ghost use Rattle.refutation.specs.declared.node.Node.{Node};
ghost use Rattle.refutation.specs.Trees.{IsAccepted};
ghost use Rattle.tree_check.specs.Faults.{fault_at};
ghost use Rattle.tree_check.specs.First.{IsFirstAtFault};
ghost use Rattle.tree_check.specs.Sound.{HasSoundReasons};

/// The bound of an accepted proof is the rank of the least legal choice; without a bound, no choice is legal.
pub fn accepted_proof_answers()
    ensures { (m : Meaning) (bound : Option ℕ) (nodes : List Node) → HasSoundReasons m → IsAccepted m bound nodes → IsAnswer m.shape m.legal bound }
{}

/// A proof is accepted exactly where no node is at fault.
pub fn accepted_proof_has_no_fault()
    ensures { (m : Meaning) (bound : Option ℕ) (nodes : List Node) → (fault_at m bound nodes ≡ None) ↔ IsAccepted m bound nodes }
{}

/// The number that is named is that of the first node at fault: each node before it keeps its rule on its own box, and it does not.
pub fn fault_is_the_first()
    ensures { (m : Meaning) (bound : Option ℕ) (nodes : List Node) (number : ℕ) → (fault_at m bound nodes ≡ Some number) ↔ IsFirstAtFault m bound nodes number }
{}
