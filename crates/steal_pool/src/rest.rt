//! What the caller does with paths that no worker closed.
ghost use Rattle.std.specs.Prelude.{◌≡◌, [], ◌∷◌, false, IfOk, OnOk};
ghost use Rattle.res_base.specs.Lists.{total};
ghost use Rattle.best_word.specs.declared.part.Part.TheVariants.{First};
ghost use Rattle.best_word.specs.Handles.{IsSeatOf, best_view, judge_of};
ghost use Rattle.steal_worker.specs.Flows.{FlowsOn};
ghost use Rattle.steal_worker.specs.Walks.{Walks, held_places, in_hand};
ghost use Rattle.steal_pool.specs.Joined.{Worked, TakesUp};

use best_word::{BestSeat, BestWord};
use res_base::{Items, OutOfMemory};
use res_io::Gate;
use search_api::{Closed, Judge, Place};
use std::alloc::Global;
use std::sync::Wait;
use steal_worker::{Walker, place_for, settle};

/// Closes all boxes below these paths, as a worker of its own number and seat.
pub(crate) fn close_rest<R: Wait, J: Judge, G: Gate>(
    rt: &R,
    alloc: Global,
    j: &J,
    gate: &G,
    word: &BestWord<J>,
    seat: &mut BestSeat<J>,
    number: u32,
    mut left: Vec<u128>,
) -> Result<Items<Closed>, OutOfMemory>
    requires word { (judge_of word.now ≡ j.now) × IsSeatOf word.now seat.old × ((best_view seat.old).part ≡ First) }
    ensures seat { IsSeatOf word.now seat.new }
    ensures worked { IfOk result (Worked (J.meaning j.now) number (λ h. total h left.items) (best_view seat.old) (best_view seat.new)) }
{
    let mut walker = Walker::new(alloc, j, word, seat, number)?;
    while let Some(path) = left.pop() {
        close_path(rt, j, gate, word, &mut walker, path)?;
    }
    let (own, closed) = walker.parts();
    word.join(seat, own);
    Ok(closed)
}

/// Closes the box of a path, or all boxes into which it is split. A number that is no path has none.
fn close_path<R: Wait, J: Judge, G: Gate>(
    rt: &R,
    j: &J,
    gate: &G,
    word: &BestWord<J>,
    walker: &mut Walker<J>,
    path: u128,
) -> Result<(), OutOfMemory>
    requires word { (judge_of word.now ≡ j.now) × IsSeatOf word.now walker.old.seat }
    requires fits { J.fits j.now walker.old.scratch }
    requires none_held { held_places walker.old.held ≡ [] }
    requires walks { Walks (J.meaning j.now) walker.old.number [] (best_view walker.old.seat) [] walker.old.closed }
    ensures word { IsSeatOf word.now walker.new.seat }
    ensures fits { J.fits j.now walker.new.scratch }
    ensures number { walker.new.number ≡ walker.old.number }
    ensures none_held { OnOk result (held_places walker.new.held ≡ []) }
    ensures walks { OnOk result (Walks (J.meaning j.now) walker.new.number [] (best_view walker.new.seat) [] walker.new.closed) }
    ensures flows { OnOk result (TakesUp (J.meaning j.now) path walker.old.closed walker.new.closed) }
{
    match place_for(j, path) {
        Some(place) => close_below(rt, j, gate, word, walker, place),
        None => Ok(()),
    }
}

/// Closes the box of a place, or all boxes into which it is split.
fn close_below<R: Wait, J: Judge, G: Gate>(
    rt: &R,
    j: &J,
    gate: &G,
    word: &BestWord<J>,
    walker: &mut Walker<J>,
    place: Place,
) -> Result<(), OutOfMemory>
    requires word { (judge_of word.now ≡ j.now) × IsSeatOf word.now walker.old.seat }
    requires fits { J.fits j.now walker.old.scratch }
    requires walks { Walks (J.meaning j.now) walker.old.number (place ∷ []) (best_view walker.old.seat) (held_places walker.old.held) walker.old.closed }
    ensures word { IsSeatOf word.now walker.new.seat }
    ensures fits { J.fits j.now walker.new.scratch }
    ensures number { walker.new.number ≡ walker.old.number }
    ensures none_held { OnOk result (held_places walker.new.held ≡ []) }
    ensures walks { OnOk result (Walks (J.meaning j.now) walker.new.number [] (best_view walker.new.seat) [] walker.new.closed) }
    ensures flows { OnOk result (FlowsOn (J.meaning j.now) (place ∷ []) (held_places walker.old.held) walker.old.closed [] [] walker.new.closed) }
{
    let mut hand = place;
    let mut more = true;
    for _ in rt.forever() {
        if !more {
            return Ok(());
        }
        more = turn(j, gate, word, walker, &mut hand)?;
    }
    unreachable!()
}

/// One step on the box in hand, after which the next one is in its place. The answer is whether there is a next one.
fn turn<J: Judge, G: Gate>(
    j: &J,
    gate: &G,
    word: &BestWord<J>,
    walker: &mut Walker<J>,
    place: &mut Place,
) -> Result<bool, OutOfMemory>
    requires word { (judge_of word.now ≡ j.now) × IsSeatOf word.now walker.old.seat }
    requires fits { J.fits j.now walker.old.scratch }
    requires walks { Walks (J.meaning j.now) walker.old.number (place.old ∷ []) (best_view walker.old.seat) (held_places walker.old.held) walker.old.closed }
    ensures word { IsSeatOf word.now walker.new.seat }
    ensures fits { J.fits j.now walker.new.scratch }
    ensures number { walker.new.number ≡ walker.old.number }
    ensures none { IfOk result (λ more. more ≡ false → held_places walker.new.held ≡ []) }
    ensures walks { IfOk result (λ more. Walks (J.meaning j.now) walker.new.number (in_hand more place.new) (best_view walker.new.seat) (held_places walker.new.held) walker.new.closed) }
    ensures flows { IfOk result (λ more. FlowsOn (J.meaning j.now) (place.old ∷ []) (held_places walker.old.held) walker.old.closed (in_hand more place.new) (held_places walker.new.held) walker.new.closed) }
{
    match settle(j, gate, word, walker, place)? {
        true => Ok(true),
        false => Ok(walker.held.pop(place)),
    }
}
