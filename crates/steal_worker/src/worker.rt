//! One worker among others.
ghost use Rattle.std.specs.Prelude.{◌≡◌, ℕ, ◌+◌, None, [], ◌∷◌, false, option_to_list, IfOk, OnOk, MatchOption};
ghost use Rattle.res_base.specs.Lists.{Each, total};
ghost use Rattle.best_word.specs.declared.part.Part.TheVariants.{First};
ghost use Rattle.best_word.specs.Handles.{IsSeatOf, best_view, judge_of};
ghost use Rattle.box_split.specs.Paths.{box_of};
ghost use Rattle.path_deque.specs.Ends.{owner_tally, owner_deque};
ghost use Rattle.search_api.specs.Places.{IsAt};
ghost use Rattle.steal_worker.specs.Jobs.{stolen, IsThief, thief_deques, Works, IsSameJob, IsReady, IsDone};
ghost use Rattle.steal_worker.specs.Walks.{held_places, in_hand, IsFound};

use crate::ends::{place_of, share, steal_any};
use crate::held::Held;
use crate::stop::Stop;
use crate::walker::{Walker, settle};
use best_word::BestWord;
use box_split::BoxBuf;
use crossbeam_utils::Backoff;
use path_deque::{Owner, Thief};
use res_base::OutOfMemory;
use res_io::Gate;
use search_api::{Judge, Place};
use std::sync::Wait;

/// A worker with its own deque and a thief's end of every deque.
pub struct Job<J: Judge> {
    pub walker: Walker<J>,
    pub owner: Owner,
    pub thieves: Vec<Thief>,
}

impl<J: Judge> Drop for Job<J> {
    fn drop(self) {
        let Self {
            walker: _,
            owner: _,
            thieves: _,
        } = self;
    }
}

impl<J: Judge> Job<J> {
    /// The worker, and its ends.
    pub fn parts(self) -> (Walker<J>, Owner, Vec<Thief>)
        ensures { result ≡ (self.walker, self.owner, self.thieves) }
    {
        let Self {
            walker,
            owner,
            thieves,
        } = self;
        (walker, owner, thieves)
    }
}

/// What one worker does until no box is open. Where memory runs out for any worker, all stop.
pub fn work<R: Wait, J: Judge, G: Gate>(
    rt: &R,
    j: &J,
    gate: &G,
    word: &BestWord<J>,
    stop: &Stop,
    job: &mut Job<J>,
) -> Result<(), OutOfMemory>
    requires word { judge_of word.now ≡ j.now }
    requires ready { IsReady (J.meaning j.now) (J.fits j.now) word.now job.old }
    ensures same { IsSameJob job.old job.new }
    ensures done { OnOk result (IsDone (J.meaning j.now) word.now job.old job.new) }
{
    let backoff = Backoff::new();
    let mut place = no_place();
    let mut busy = false;
    for _ in rt.forever() {
        if stop.is_stopped() {
            return Err(OutOfMemory);
        }
        if busy {
            busy = step(j, gate, word, stop, job, &mut place)?;
        } else {
            busy = take(j, job, &mut place);
            if busy {
                backoff.reset();
            } else if stop.all_closed() {
                return Ok(());
            } else {
                backoff.snooze();
            }
        }
    }
    unreachable!()
}

/// What stands in the place of a box while none is in hand.
fn no_place() -> Place {
    Place {
        path: 0,
        b: BoxBuf::new(),
    }
}

/// One step on the place in hand, after which others may have a path of this worker. The answer is whether one is in hand.
fn step<J: Judge, G: Gate>(
    j: &J,
    gate: &G,
    word: &BestWord<J>,
    stop: &Stop,
    job: &mut Job<J>,
    place: &mut Place,
) -> Result<bool, OutOfMemory>
    requires word { (judge_of word.now ≡ j.now) × IsSeatOf word.now job.old.walker.seat }
    requires fits { J.fits j.now job.old.walker.scratch }
    requires works { Works (J.meaning j.now) (place.old ∷ []) job.old }
    ensures word { IsSeatOf word.now job.new.walker.seat }
    ensures fits { J.fits j.now job.new.walker.scratch }
    ensures same { IsSameJob job.old job.new }
    ensures works { IfOk result (λ busy. Works (J.meaning j.now) (in_hand busy place.new) job.new) }
{
    match settle(j, gate, word, &mut job.walker, place) {
        Ok(true) => {
            share(&mut job.owner, &mut job.walker.held, stop);
            Ok(true)
        }
        Ok(false) => {
            count_done(&job.walker.held, stop);
            Ok(false)
        }
        Err(OutOfMemory) => {
            stop.stop();
            Err(OutOfMemory)
        }
    }
}

/// Where nothing is held either, the path that came from a deque is done with.
fn count_done(held: &Held, stop: &Stop) {
    if held.first().is_none() {
        stop.one_less();
    }
}

/// Puts a place into an empty hand. The answer is whether there was one to be had.
fn take<J: Judge>(j: &J, job: &mut Job<J>, hand: &mut Place) -> bool
    requires { Works (J.meaning j.now) [] job.old }
    ensures works { Works (J.meaning j.now) (in_hand result hand.new) job.new }
    ensures same { IsSameJob job.old job.new × (job.new.walker.seat ≡ job.old.walker.seat) × (job.new.walker.scratch ≡ job.old.walker.scratch) }
    ensures none { result ≡ false → held_places job.new.walker.held ≡ [] }
{
    if job.walker.held.pop(hand) {
        return true;
    }
    match find(&mut job.owner, &mut job.thieves) {
        Some(path) => put_place(j, path, hand),
        None => false,
    }
}

/// Puts the place of a path into a hand; none where the number is no path.
fn put_place<J: Judge>(j: &J, path: u128, hand: &mut Place) -> bool
    ensures { IsFound (J.meaning j.now).shape path result hand.new }
{
    match place_for(j, path) {
        Some(place) => {
            *hand = place;
            true
        }
        None => false,
    }
}

/// The place of a path; none where the number is no path.
pub fn place_for<J: Judge>(j: &J, path: u128) -> Option<Place>
    ensures { MatchOption result (box_of (J.meaning j.now).shape path ≡ None) (λ place. (place.path ≡ path) × IsAt (J.meaning j.now).shape place) }
{
    place_of(j.shape(), path)
}

/// The last path of the worker's own deque, or the first of another's.
fn find(owner: &mut Owner, thieves: &mut Vec<Thief>) -> Option<u128>
    requires ends { ((owner_tally owner.old).part ≡ First) × Each IsThief thieves.old.items }
    ensures owner { ((owner_tally owner.new).part ≡ First) × ((owner_tally owner.new).out ≡ (owner_tally owner.old).out) × ((owner_tally owner.new).put ≡ (owner_tally owner.old).put) }
    ensures thieves { Each IsThief thieves.new.items }
    ensures same { (owner_deque owner.new ≡ owner_deque owner.old) × (thief_deques thieves.new.items ≡ thief_deques thieves.old.items) }
    ensures got { (h : ℕ → ℕ) → total h (owner_tally owner.new).got + stolen h thieves.new.items ≡ total h (owner_tally owner.old).got + stolen h thieves.old.items + total h (option_to_list result) }
{
    match owner.pop() {
        Some(path) => Some(path),
        None => steal_any(thieves.as_mut_slice()),
    }
}
