//! The least choice, from its rank.
ghost use Rattle.std.specs.Prelude.{◌≡◌, ◌%◌, ℕ, List, Bool, Some, IfOk};
ghost use Rattle.choice_rank.specs.Choices.{IsChoice, choices_of, index_of, rank_of};
ghost use Rattle.choice_rank.specs.Least.{IsAnswer, IsLeast};

use crate::shape::Shape;
use res_base::OutOfMemory;
use std::alloc::Global;

/// The choice whose index is that of a rank.
fn choice_at(alloc: Global, shape: &Shape, rank: u64) -> Result<Vec<u16>, OutOfMemory>
    ensures choice { IfOk result (λ at. IsChoice shape.now at.items) }
    ensures index { IfOk result (λ at. index_of shape.now at.items ≡ rank % choices_of shape.now) }
{
    let mut at = vec![in alloc; 0u16; shape.vars().len()]?;
    let _ = shape.unrank_into(rank, at.as_mut_slice());
    Ok(at)
}

/// A choice of the shape: where the rank is that of the least legal choice, that choice.
pub fn least_of(alloc: Global, shape: &Shape, rank: u64) -> Result<Vec<u16>, OutOfMemory>
    ensures choice { IfOk result (λ at. IsChoice shape.now at.items) }
    ensures least { IfOk result (λ at. (legal : List ℕ → Bool) → IsAnswer shape.now legal (Some rank) → IsLeast shape.now legal at.items) }
    ensures rank { IfOk result (λ at. (legal : List ℕ → Bool) → IsAnswer shape.now legal (Some rank) → rank_of shape.now at.items ≡ rank) }
{
    let at = choice_at(alloc, shape, rank)?;
    Ok(at)
}
