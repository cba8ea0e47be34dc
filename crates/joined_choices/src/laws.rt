//! Laws of joined choices: functions that do nothing, whose contracts are the laws. Ranks may be any natural numbers.
ghost use Rattle.std.specs.Prelude.{◌≡◌, ◌↔◌, ◌+◌, ◌*◌, ◌≤◌, ◌++◌, ℕ, List, Bool, true};
ghost use Rattle.choice_rank.specs.declared.variable.VarShape.{VarShape};
ghost use Rattle.choice_rank.specs.Choices.{IsChoice, choices_of, cost_of, index_of, rank_of};
ghost use Rattle.choice_rank.specs.Least.{IsLeast, NoneLegal};
ghost use Rattle.joined_choices.specs.Joined.{AreParts, IsJoined};

/// Numbers of choices multiply, costs add up, and the index of a joined choice is that of its prefix, times the number of
/// choices of the suffix, plus that of its suffix.
pub fn costs_and_indices_add_up()
    ensures choices { (vs ws : List VarShape) → choices_of (vs ++ ws) ≡ choices_of vs * choices_of ws }
    ensures cost { (vs ws : List VarShape) (prefix suffix : List ℕ) → IsChoice vs prefix → cost_of (vs ++ ws) (prefix ++ suffix) ≡ cost_of vs prefix + cost_of ws suffix }
    ensures index { (vs ws : List VarShape) (prefix suffix : List ℕ) → IsChoice vs prefix → index_of (vs ++ ws) (prefix ++ suffix) ≡ index_of vs prefix * choices_of ws + index_of ws suffix }
{}

/// Choices joined are a choice of the joined variables, and each such choice is two joined.
pub fn each_choice_is_joined()
    ensures joins { (vs ws : List VarShape) (prefix suffix : List ℕ) → IsChoice vs prefix → IsChoice ws suffix → IsChoice (vs ++ ws) (prefix ++ suffix) }
    ensures parts { (vs ws : List VarShape) (choice : List ℕ) → IsChoice (vs ++ ws) choice → IsJoined vs ws choice }
{}

/// Joined choices of which each part ranks no higher than another's rank no higher; and where one part is the same, they are
/// ranked by the other.
pub fn ranks_keep_the_order_of_parts()
    ensures both { (vs ws : List VarShape) (prefix suffix other rest : List ℕ) → IsChoice vs prefix → IsChoice ws suffix → IsChoice vs other → IsChoice ws rest
        → rank_of vs prefix ≤ rank_of vs other → rank_of ws suffix ≤ rank_of ws rest → rank_of (vs ++ ws) (prefix ++ suffix) ≤ rank_of (vs ++ ws) (other ++ rest) }
    ensures prefix { (vs ws : List VarShape) (prefix other suffix : List ℕ) → IsChoice vs prefix → IsChoice vs other → IsChoice ws suffix
        → rank_of (vs ++ ws) (prefix ++ suffix) ≤ rank_of (vs ++ ws) (other ++ suffix) → rank_of vs prefix ≤ rank_of vs other }
    ensures suffix { (vs ws : List VarShape) (prefix suffix rest : List ℕ) → IsChoice vs prefix → IsChoice ws suffix → IsChoice ws rest
        → rank_of (vs ++ ws) (prefix ++ suffix) ≤ rank_of (vs ++ ws) (prefix ++ rest) → rank_of ws suffix ≤ rank_of ws rest }
{}

/// Where a joined choice is legal if each part is, it is the least if each part is.
pub fn least_choice_is_of_least_parts()
    ensures { (vs ws : List VarShape) (legal prefix_legal suffix_legal : List ℕ → Bool) (prefix suffix : List ℕ) → AreParts vs ws legal prefix_legal suffix_legal → IsChoice vs prefix → IsChoice ws suffix
        → IsLeast (vs ++ ws) legal (prefix ++ suffix) ↔ (IsLeast vs prefix_legal prefix × IsLeast ws suffix_legal suffix) }
{}

/// No joined choice is legal where no prefix or no suffix is; and beside a legal suffix, no prefix is where no joined choice is.
pub fn none_is_legal_where_no_part_is()
    ensures prefix { (vs ws : List VarShape) (legal prefix_legal suffix_legal : List ℕ → Bool) → AreParts vs ws legal prefix_legal suffix_legal → NoneLegal vs prefix_legal → NoneLegal (vs ++ ws) legal }
    ensures suffix { (vs ws : List VarShape) (legal prefix_legal suffix_legal : List ℕ → Bool) → AreParts vs ws legal prefix_legal suffix_legal → NoneLegal ws suffix_legal → NoneLegal (vs ++ ws) legal }
    ensures beside { (vs ws : List VarShape) (legal prefix_legal suffix_legal : List ℕ → Bool) (suffix : List ℕ) → AreParts vs ws legal prefix_legal suffix_legal → IsChoice ws suffix → suffix_legal suffix ≡ true
        → NoneLegal (vs ++ ws) legal → NoneLegal vs prefix_legal }
{}
