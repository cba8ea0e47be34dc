//! The private end of a worker's deque. It takes no memory once it is made.
ghost use Rattle.std.specs.Prelude.{◌≡◌, ◌<◌, ◌≤◌, List, [], ◌∷◌, ◌++◌, length, false, Some, IfOk, MatchOption};
ghost use Rattle.std.specs.Prelude.{vec_capacity};

use crate::halves::make_upper;
use choice_rank::Shape;
use res_base::OutOfMemory;
use search_api::Place;
use std::alloc::Global;

/// Places that no other thread can reach, the last one next. It has room for as many as can be held at once.
#[derive(Drop)]
pub struct Held {
    places: Vec<Place>,
    ghost room: { 126 ≤ vec_capacity places },
}

impl Held {
    ghost use Rattle.search_api.specs.declared.place.Place.{Place};
    ghost use Rattle.steal_worker.specs.Walks.{held_places, in_hand, TookUpper};
    ghost use Rattle.search_api.specs.Places.{IsAt};
    ghost use Rattle.box_split.specs.BoxIn.{box_in};
    ghost use Rattle.box_split.specs.Paths.{split_from};

    /// A private end that holds nothing.
    pub fn new(alloc: Global) -> Result<Held, OutOfMemory>
        ensures { IfOk result (λ held. held_places held ≡ []) }
    {
        match Vec::with_capacity(alloc, 126) {
            Ok(places) => Ok(Held { places }),
            Err(_) => Err(OutOfMemory),
        }
    }

    /// Adds the place of the upper half of a place's box, which is the next one.
    ///
    /// The lower half ends at a position of the variable that is split, both as `split_at` finds them.
    pub(crate) fn push_upper(&mut self, s: &Shape, place: &Place, variable: u16, after: u16)
        requires room { length (held_places self.old) < 126 }
        requires at { IsAt s.now place.now }
        requires split { split_from 0 (box_in s.now place.now.b) ≡ Some (variable, after) }
        ensures { TookUpper s.now place.now (held_places self.old) (held_places self.new) }
    {
        let n = self.places.len();
        self.places.push_reserved(*place);
        make_upper(s, &mut self.places[n], variable, after);
    }

    /// Puts the next place into a hand. The answer is whether there was one.
    pub fn pop(&mut self, hand: &mut Place) -> bool
        ensures none { result ≡ false → held_places self.new ≡ [] }
        ensures popped { held_places self.old ≡ held_places self.new ++ in_hand result hand.new }
    {
        let n = self.places.len();
        if n == 0 {
            return false;
        }
        *hand = self.places[n - 1];
        let _ = self.places.take_last();
        true
    }

    /// The path of the first place, which would be the last one to be next.
    pub fn first(&self) -> Option<u128>
        ensures { MatchOption result (held_places self.now ≡ []) (λ path. (place : Place) × (rest : List Place) × (held_places self.now ≡ place ∷ rest) × (place.path ≡ path)) }
    {
        match self.places.first() {
            Some(place) => Some(place.path),
            None => None,
        }
    }

    /// Lets the first place go.
    pub fn drop_first(&mut self)
        requires { 0 < length (held_places self.old) }
        ensures { (place : Place) × (held_places self.old ≡ place ∷ held_places self.new) }
    {
        self.places.remove(0);
    }
}
