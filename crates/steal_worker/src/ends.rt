//! What a worker does with ends of deques.
ghost use Rattle.std.specs.Prelude.{◌≡◌, ℕ, ◌+◌, None, List, [], ◌++◌, map, option_to_list, MatchOption};
ghost use Rattle.res_base.specs.Lists.{Each, total};
ghost use Rattle.best_word.specs.declared.part.Part.TheVariants.{First};
ghost use Rattle.box_split.specs.Paths.{box_of};
ghost use Rattle.path_deque.specs.Ends.{owner_tally, owner_deque};
ghost use Rattle.path_deque.specs.Tallies.{put_more};
ghost use Rattle.search_api.specs.declared.place.Place.{Place};
ghost use Rattle.search_api.specs.Places.{IsAt, paths_of};
ghost use Rattle.steal_worker.specs.Jobs.{stolen, IsThief, thief_deques};
ghost use Rattle.steal_worker.specs.Walks.{held_places};

use crate::held::Held;
use crate::stop::Stop;
use box_split::{BoxBuf, is_path, of_path};
use choice_rank::Shape;
use path_deque::{Owner, Thief};
use search_api::Place;

/// The first path of any of these deques.
pub(crate) fn steal_any(thieves: &mut [Thief]) -> Option<u128>
    requires { Each IsThief thieves.old }
    ensures thieves { Each IsThief thieves.new }
    ensures same { thief_deques thieves.new ≡ thief_deques thieves.old }
    ensures got { (h : ℕ → ℕ) → stolen h thieves.new ≡ stolen h thieves.old + total h (option_to_list result) }
{
    for k in 0..thieves.len() {
        let thief = &mut thieves[k];
        if let Some(path) = thief.steal() {
            return Some(path);
        }
    }
    None
}

/// The place of a path; none where the number is no path.
pub(crate) fn place_of(s: &Shape, path: u128) -> Option<Place>
    ensures { MatchOption result (box_of s.now path ≡ None) (λ place. (place.path ≡ path) × IsAt s.now place) }
{
    if !is_path(s, path) {
        return None;
    }
    let mut b = BoxBuf::new();
    of_path(s, path, &mut b);
    Some(Place { path, b })
}

/// Where the deque is empty, the first place of the private end goes into it, as its path.
///
/// A path whose push is refused stays in the private end.
pub(crate) fn share(owner: &mut Owner, held: &mut Held, stop: &Stop)
    requires { (owner_tally owner.old).part ≡ First }
    ensures same { owner_deque owner.new ≡ owner_deque owner.old }
    ensures moved { (gone : List Place) × (held_places held.old ≡ gone ++ held_places held.new) × (owner_tally owner.new ≡ put_more (owner_tally owner.old) (paths_of gone)) }
{
    if !owner.is_empty() {
        return;
    }
    let Some(path) = held.first() else {
        return;
    };
    stop.one_more();
    match owner.push(path) {
        Ok(()) => held.drop_first(),
        Err(_) => stop.one_less(),
    }
}
