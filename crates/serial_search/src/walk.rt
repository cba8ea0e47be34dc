//! One worker's search, depth first.
ghost use Rattle.std.specs.Prelude.{◌≡◌, ℕ, ◌<◌, List, [], ◌∷◌, ◌++◌, OnOk, IfOk, IfSome, IsErr, option_to_list};
ghost use Rattle.choice_rank.specs.Least.{IsAnswer};
ghost use Rattle.search_api.specs.declared.outcome.Closed.{Closed};
ghost use Rattle.search_api.specs.Accounts.{Accounted, InSerialOrder, IsLegalRank};
ghost use Rattle.search_api.specs.Places.{paths_of, work_of};
ghost use Rattle.serial_search.specs.Going.{Walks, cut_rank};

use box_split::{low, split_at};
use res_base::{Items, OutOfMemory};
use search_api::{Cause, Closed, Judge, Outcome, Place, Verdict, push_halves};
use std::alloc::Global;

/// What a search has done, and the boxes that are still to go, the next one last.
#[derive(Drop)]
struct Walk {
    pending: Vec<Place>,
    best: Option<u64>,
    kept: Items<u64>,
    closed: Items<Closed>,
}

/// Searches the boxes of a judge's shape, those of lower indices first.
///
/// Each box is closed with its cause, or split where its verdict is open. It fails only when it is out of memory.
pub fn search<J: Judge>(alloc: Global, j: &J) -> Result<Outcome, OutOfMemory>
    ensures accounted { IfOk result (λ o. Accounted (J.meaning j.now) o.best o.kept o.closed) }
    ensures order { IfOk result (λ o. InSerialOrder (J.meaning j.now).shape o.closed) }
    ensures answer { IfOk result (λ o. IsAnswer (J.meaning j.now).shape (J.meaning j.now).legal o.best) }
{
    search_below(alloc, j, None)
}

/// The same, where the rank of a legal choice is known: boxes with no choice up to it are cut from the start.
///
/// So it closes no more boxes than the refutation of all lower ranks needs, if the known rank is the least.
pub fn search_below<J: Judge>(
    alloc: Global,
    j: &J,
    known: Option<u64>,
) -> Result<Outcome, OutOfMemory>
    requires { IfSome known (IsLegalRank (J.meaning j.now)) }
    ensures accounted { IfOk result (λ o. Accounted (J.meaning j.now) o.best o.kept o.closed) }
    ensures order { IfOk result (λ o. InSerialOrder (J.meaning j.now).shape o.closed) }
    ensures answer { IfOk result (λ o. IsAnswer (J.meaning j.now).shape (J.meaning j.now).legal o.best) }
{
    let mut scratch = j.scratch(alloc)?;
    let kept = kept_first(alloc, known)?;
    let mut walk = Walk {
        pending: Vec::new(alloc),
        best: known,
        kept,
        closed: Items::of(Vec::new(alloc)),
    };
    walk.pending.push(Place::root(j.shape()))?;
    while let Some(place) = walk.pending.pop() {
        turn(j, &mut scratch, &mut walk, place)?;
    }
    Ok(Outcome {
        best: walk.best,
        kept: walk.kept,
        closed: walk.closed,
    })
}

/// The ranks that are kept before any box is closed.
fn kept_first(alloc: Global, known: Option<u64>) -> Result<Items<u64>, OutOfMemory>
    ensures { IfOk result (λ kept. kept ≡ option_to_list known) }
{
    let mut kept = Items::of(Vec::new(alloc));
    if let Some(rank) = known {
        kept.push(rank)?;
    }
    Ok(kept)
}

/// Closes the box of a place, or splits it.
fn turn<J: Judge>(
    j: &J,
    scratch: &mut J::Scratch,
    walk: &mut Walk,
    place: Place,
) -> Result<(), OutOfMemory>
    requires fits { J.fits j.now scratch.old }
    requires walks { Walks (J.meaning j.now) (walk.old.pending.items ++ place ∷ []) walk.old.best walk.old.kept walk.old.closed }
    ensures fits { J.fits j.now scratch.new }
    ensures walks { OnOk result (Walks (J.meaning j.now) walk.new.pending.items walk.new.best walk.new.kept walk.new.closed) }
    ensures less { OnOk result (work_of (J.meaning j.now).shape (paths_of walk.new.pending.items) < work_of (J.meaning j.now).shape (paths_of (walk.old.pending.items ++ place ∷ []))) }
{
    let shape = j.shape();
    let _vars = shape.vars();
    let low = low(shape, &place.b);
    if let Some(rank) = seen_below(walk.best, low) {
        return close(&mut walk.closed, place.path, Cause::Cut { rank });
    }
    match j.judge(scratch, &place.b) {
        Verdict::Bad(reason) => close(&mut walk.closed, place.path, Cause::Bad(reason)),
        Verdict::Legal => {
            walk.kept.push(low)?;
            walk.best = Some(low);
            close(&mut walk.closed, place.path, Cause::Leaf { rank: low })
        }
        Verdict::Open => {
            let Some((variable, after)) = split_at(shape, &place.b) else {
                unreachable!()
            };
            push_halves(&mut walk.pending, shape, place, variable, after)
        }
    }
}

/// The best rank, where it is below a low.
fn seen_below(best: Option<u64>, low: u64) -> Option<u64>
    ensures { result ≡ cut_rank best low }
{
    match best {
        Some(rank) if rank < low => Some(rank),
        _ => None,
    }
}

/// Closes a path.
fn close(closed: &mut Items<Closed>, path: u128, cause: Cause) -> Result<(), OutOfMemory>
    ensures { OnOk result (closed.new ≡ closed.old ++ record { worker = 0; path = path; cause = cause } ∷ []) }
{
    closed.push(Closed {
        worker: 0,
        path,
        cause,
    })
}
