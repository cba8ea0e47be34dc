//! The walk over all choices.
ghost use Rattle.std.specs.Prelude.{◌≡◌, ◌<◌, ◌+◌, length, IfOk};
ghost use Rattle.choice_rank.specs.Choices.{choices_of};
ghost use Rattle.choice_rank.specs.Least.{IsAnswer};
ghost use Rattle.plain_walk.specs.SoFar.{IsLowestBelow, lower};

use crate::legality::Legality;
use choice_rank::Shape;
use res_base::OutOfMemory;
use std::alloc::Global;

fn lower(best: Option<u64>, rank: u64) -> u64
    ensures { result ≡ lower best rank }
{
    match best {
        Some(best) => best.min(rank),
        None => rank,
    }
}

/// The lowest rank up to and with the choice of an index, from the lowest up to that index.
fn turn<L: Legality>(
    alloc: Global,
    shape: &Shape,
    limits: &L,
    index: u64,
    at: &mut [u16],
    best: Option<u64>,
) -> Result<Option<u64>, OutOfMemory>
    requires places { length at.old ≡ length shape.now }
    requires within { index < choices_of shape.now }
    requires best { IsLowestBelow shape.now (L.legal limits.now) index best }
    ensures { IfOk result (λ found. IsLowestBelow shape.now (L.legal limits.now) (index + 1) found) }
{
    let _ = shape.unrank_into(index, at);
    if limits.is_legal(alloc, at)? {
        Ok(Some(lower(best, shape.rank(at))))
    } else {
        Ok(best)
    }
}

/// The rank of the least legal choice; None exactly where no choice is legal. It looks at each choice.
pub fn walk<L: Legality>(
    alloc: Global,
    shape: &Shape,
    limits: &L,
) -> Result<Option<u64>, OutOfMemory>
    ensures { IfOk result (IsAnswer shape.now (L.legal limits.now)) }
{
    let mut at = vec![in alloc; 0u16; shape.vars().len()]?;
    let mut best = None;
    for index in 0..shape.choices() {
        best = turn(alloc, shape, limits, index, at.as_mut_slice(), best)?;
    }
    Ok(best)
}
