//! The events that ask no judge: a path that changes hands, and the word.
ghost use Rattle.std.specs.Prelude.{◌≡◌, Some, MatchOption, slice_get};
ghost use Rattle.search_core.specs.declared.state.Hand.{Hand};
ghost use Rattle.search_core.specs.Events.{IsIdle, Offers, Pops, Sees, Steals, Tells, least_of};

use crate::hands::{hand_at, put_hand, take_first, take_last};
use crate::state::{Core, Hand};

/// The last path of a worker's deque goes to its idle hand.
pub(crate) fn pop(core: &mut Core, w: u32) -> bool
    ensures { Tells (Pops core.old w) core.old core.new result }
{
    let Some(hand) = idle_hand(core, w) else {
        return false;
    };
    let Some(path) = take_last(&mut core.deques, w) else {
        return false;
    };
    put_hand(
        &mut core.hands,
        w,
        Hand {
            path: Some(path),
            ..hand
        },
    );
    true
}

/// The first path of another worker's deque goes to a worker's idle hand.
pub(crate) fn steal(core: &mut Core, w: u32, from: u32) -> bool
    ensures { Tells (Steals core.old w from) core.old core.new result }
{
    if from == w {
        return false;
    }
    let Some(thief) = idle_hand(core, w) else {
        return false;
    };
    let Some(path) = take_first(&mut core.deques, from) else {
        return false;
    };
    put_hand(
        &mut core.hands,
        w,
        Hand {
            path: Some(path),
            ..thief
        },
    );
    true
}

/// A worker's hand, where it has no path and owes nothing.
fn idle_hand(core: &Core, w: u32) -> Option<Hand>
    ensures { MatchOption result ((hand : Hand) → slice_get core.now.hands w ≡ Some hand → IsIdle hand → ⊥) (λ hand. (slice_get core.now.hands w ≡ Some hand) × IsIdle hand) }
{
    match hand_at(&core.hands, w) {
        Some(hand) if hand.path.is_none() && hand.owed.is_none() => Some(hand),
        _ => None,
    }
}

/// A worker reads the word.
pub(crate) fn see(core: &mut Core, w: u32) -> bool
    ensures { Tells (Sees core.old w) core.old core.new result }
{
    let Some(hand) = hand_at(&core.hands, w) else {
        return false;
    };
    put_hand(
        &mut core.hands,
        w,
        Hand {
            seen: core.word,
            ..hand
        },
    );
    true
}

/// A worker offers the rank that it owes.
pub(crate) fn offer(core: &mut Core, w: u32) -> bool
    ensures { Tells (Offers core.old w) core.old core.new result }
{
    let Some(hand) = hand_at(&core.hands, w) else {
        return false;
    };
    let Some(rank) = hand.owed else {
        return false;
    };
    core.word = Some(lesser(core.word, rank));
    put_hand(&mut core.hands, w, Hand { owed: None, ..hand });
    true
}

/// The lesser of a word and a rank.
fn lesser(word: Option<u64>, rank: u64) -> u64
    ensures { Some result ≡ least_of word rank }
{
    match word {
        Some(least) => least.min(rank),
        None => rank,
    }
}
