//! What a worker does with a box, whoever else is at work.
ghost use Rattle.std.specs.Prelude.{◌≡◌, ◌+◌, ◌<◌, None, Some, true, false, [], ◌∷◌, ◌++◌, length, IfOk, MatchOption, MatchResult};
ghost use Rattle.res_base.specs.Lists.{Member};
ghost use Rattle.best_word.specs.Handles.{IsSeatOf, best_view, judge_of};
ghost use Rattle.best_word.specs.declared.part.Part.TheVariants.{First};
ghost use Rattle.best_word.specs.Word.{kept_more, one_more_out};
ghost use Rattle.box_split.specs.Boxes.{is_single, low_of};
ghost use Rattle.box_split.specs.BoxIn.{box_in};
ghost use Rattle.search_api.specs.declared.outcome.Closed.{Closed};
ghost use Rattle.search_api.specs.declared.outcome.Cause.TheVariants as cause;
ghost use Rattle.search_api.specs.Accounts.{IsLegalRank};
ghost use Rattle.search_api.specs.Places.{IsAt};
ghost use Rattle.steal_worker.specs.Flows.{FlowsOn};
ghost use Rattle.steal_worker.specs.Walks.{Walks, Halved, IsLooked, IsAtMost, known, held_places, in_hand};

use crate::halves::make_lower;
use crate::held::Held;
use best_word::{BestSeat, BestWord};
use box_split::{low, split_at};
use choice_rank::Shape;
use res_base::{Items, OutOfMemory};
use res_io::Gate;
use search_api::{Cause, Closed, Judge, Place, Verdict};
use std::alloc::Global;

/// What a worker has of its own.
pub struct Walker<J: Judge> {
    pub number: u32,
    /// how many boxes it has come to, counted round
    pub turn: u64,
    pub held: Held,
    pub seat: BestSeat<J>,
    pub scratch: J::Scratch,
    pub closed: Items<Closed>,
}

impl<J: Judge> Drop for Walker<J> {
    fn drop(self) {
        let Self {
            number: _,
            turn: _,
            held: _,
            seat: _,
            scratch: _,
            closed: _,
        } = self;
    }
}

impl<J: Judge> Walker<J> {
    ghost use Rattle.steal_worker.specs.Workers.{IsNewWalker};

    /// A worker that has closed nothing and holds nothing. Its seat is made by the first one.
    pub fn new(
        alloc: Global,
        j: &J,
        word: &BestWord<J>,
        seat: &mut BestSeat<J>,
        number: u32,
    ) -> Result<Walker<J>, OutOfMemory>
        requires seat { IsSeatOf word.now seat.old × ((best_view seat.old).part ≡ First) }
        ensures seat { IsSeatOf word.now seat.new }
        ensures view { MatchResult result (λ _. best_view seat.new ≡ one_more_out (best_view seat.old)) (λ _. best_view seat.new ≡ best_view seat.old) }
        ensures made { IfOk result (λ w. IsNewWalker (J.fits j.now) word.now number w) }
    {
        let held = Held::new(alloc)?;
        let scratch = j.scratch(alloc)?;
        let closed = Items::of(Vec::new(alloc));
        let seat = word.split(seat);
        Ok(Walker {
            number,
            turn: 0,
            held,
            seat,
            scratch,
            closed,
        })
    }

    /// The seat, and the boxes that it closed.
    pub fn parts(self) -> (BestSeat<J>, Items<Closed>)
        ensures { result ≡ (self.seat, self.closed) }
    {
        let Self {
            number: _,
            turn: _,
            held: _,
            seat,
            scratch: _,
            closed,
        } = self;
        (seat, closed)
    }
}

/// One step on the box in hand: it is closed, or the lower half of it is in its place. The answer is whether one is in hand after it.
///
/// The word is loaded once before the box is judged, and a rank is offered only after its choice was found to be legal.
pub fn settle<J: Judge, G: Gate>(
    j: &J,
    gate: &G,
    word: &BestWord<J>,
    walker: &mut Walker<J>,
    place: &mut Place,
) -> Result<bool, OutOfMemory>
    requires word { (judge_of word.now ≡ j.now) × IsSeatOf word.now walker.old.seat }
    requires fits { J.fits j.now walker.old.scratch }
    requires walks { Walks (J.meaning j.now) walker.old.number (place.old ∷ []) (best_view walker.old.seat) (held_places walker.old.held) walker.old.closed }
    ensures word { IsSeatOf word.now walker.new.seat }
    ensures fits { J.fits j.now walker.new.scratch }
    ensures number { walker.new.number ≡ walker.old.number }
    ensures walks { IfOk result (λ more. Walks (J.meaning j.now) walker.new.number (in_hand more place.new) (best_view walker.new.seat) (held_places walker.new.held) walker.new.closed) }
    ensures flows { IfOk result (λ more. FlowsOn (J.meaning j.now) (place.old ∷ []) (held_places walker.old.held) walker.old.closed (in_hand more place.new) (held_places walker.new.held) walker.new.closed) }
{
    gate.pass(walker.number, walker.turn);
    walker.turn = walker.turn.wrapping_add(1);
    if let Some(rank) = look(j, word, &mut walker.seat, place) {
        return close(walker, place.path, Cause::Cut { rank });
    }
    match verdict(j, &mut walker.scratch, place) {
        Verdict::Bad(reason) => close(walker, place.path, Cause::Bad(reason)),
        Verdict::Legal => {
            let low = place_low(j, place);
            keep(word, walker, place.path, low)
        }
        Verdict::Open => {
            halve(j, &mut walker.held, place);
            Ok(true)
        }
    }
}

/// The low of a place's box.
fn place_low<J: Judge>(j: &J, place: &Place) -> u64
    requires { IsAt (J.meaning j.now).shape place.now }
    ensures { result ≡ low_of (J.meaning j.now).shape (box_in (J.meaning j.now).shape place.now.b) }
{
    low(j.shape(), &place.b)
}

/// The verdict on a place's box.
fn verdict<J: Judge>(j: &J, scratch: &mut J::Scratch, place: &Place) -> Verdict
    requires at { IsAt (J.meaning j.now).shape place.now }
    requires fits { J.fits j.now scratch.old }
    ensures verdict { result ≡ (J.meaning j.now).verdict (box_in (J.meaning j.now).shape place.now.b) }
    ensures fits { J.fits j.now scratch.new }
{
    j.judge(scratch, &place.b)
}

/// One load of the word, and the rank that it finds where that is below the low of a place's box.
fn look<J: Judge>(j: &J, word: &BestWord<J>, seat: &mut BestSeat<J>, place: &Place) -> Option<u64>
    requires seat { IsSeatOf word.now seat.old }
    requires at { IsAt (J.meaning j.now).shape place.now }
    ensures seat { IsSeatOf word.now seat.new }
    ensures looked { IsLooked (best_view seat.old) (best_view seat.new) }
    ensures cut { MatchOption result (IsAtMost (low_of (J.meaning j.now).shape (box_in (J.meaning j.now).shape place.now.b)) (known (best_view seat.new))) (λ rank. (rank < low_of (J.meaning j.now).shape (box_in (J.meaning j.now).shape place.now.b)) × Member rank (best_view seat.new).saw) }
{
    match word.see(seat) {
        Some(rank) => {
            let low = place_low(j, place);
            if rank < low { Some(rank) } else { None }
        }
        None => None,
    }
}

/// Closes the box in hand.
fn close<J: Judge>(walker: &mut Walker<J>, path: u128, cause: Cause) -> Result<bool, OutOfMemory>
    ensures rest { walker.new ≡ record walker.old { closed = walker.new.closed } }
    ensures closed { IfOk result (λ more. (more ≡ false) × (walker.new.closed ≡ walker.old.closed ++ record { worker = walker.old.number; path = path; cause = cause } ∷ [])) }
{
    walker.closed.push(Closed {
        worker: walker.number,
        path,
        cause,
    })?;
    Ok(false)
}

/// Closes the box in hand as a leaf, and then offers its rank.
fn keep<J: Judge>(
    word: &BestWord<J>,
    walker: &mut Walker<J>,
    path: u128,
    low: u64,
) -> Result<bool, OutOfMemory>
    requires seat { IsSeatOf word.now walker.old.seat }
    requires legal { IsLegalRank (J.meaning (judge_of word.now)) low }
    ensures seat { IsSeatOf word.now walker.new.seat }
    ensures rest { walker.new ≡ record walker.old { closed = walker.new.closed; seat = walker.new.seat } }
    ensures closed { IfOk result (λ more. (more ≡ false) × (walker.new.closed ≡ walker.old.closed ++ record { worker = walker.old.number; path = path; cause = cause.Leaf low } ∷ []) × (best_view walker.new.seat ≡ kept_more (best_view walker.old.seat) low)) }
{
    walker.closed.push(Closed {
        worker: walker.number,
        path,
        cause: Cause::Leaf { rank: low },
    })?;
    word.offer(&mut walker.seat, low);
    Ok(false)
}

/// Splits the box in hand: the upper half goes to the private end, and the lower half stays in hand.
fn halve<J: Judge>(j: &J, held: &mut Held, place: &mut Place)
    requires at { IsAt (J.meaning j.now).shape place.old }
    requires open { is_single (box_in (J.meaning j.now).shape place.old.b) ≡ false }
    requires room { length (held_places held.old) < 126 }
    ensures { Halved (J.meaning j.now).shape place.old place.new (held_places held.old) (held_places held.new) }
{
    halve_in(j.shape(), held, place)
}

/// The same by the shape alone.
fn halve_in(s: &Shape, held: &mut Held, place: &mut Place)
    requires at { IsAt s.now place.old }
    requires open { is_single (box_in s.now place.old.b) ≡ false }
    requires room { length (held_places held.old) < 126 }
    ensures { Halved s.now place.old place.new (held_places held.old) (held_places held.new) }
{
    let Some((variable, after)) = split_at(s, &place.b) else {
        unreachable!()
    };
    held.push_upper(s, place, variable, after);
    make_lower(s, place, variable, after);
}
