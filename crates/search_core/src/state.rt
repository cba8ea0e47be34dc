//! The state of a search by several workers, between two events.
ghost use Rattle.std.specs.Prelude.{◌≡◌, ◌≤◌, IfOk};
ghost use Rattle.search_api.specs.Meaning.{Meaning};
ghost use Rattle.search_core.specs.Events.{opening};
ghost use Rattle.search_core.specs.Fits.{Fits};

use crate::hands::{deques_of, hands_of};
use res_base::{Items, OutOfMemory};
use search_api::Closed;
use std::alloc::Global;

/// What a worker has in hand: a path whose box it works on, the rank that it last saw, and a rank that it kept and did not offer yet.
#[derive(Clone, Copy, Debug, PartialEq, Eq)]
pub struct Hand {
    pub path: Option<u128>,
    pub seen: Option<u64>,
    pub owed: Option<u64>,
}

/// A search by several workers between two events: a deque and a hand for each worker, the word that all of them see,
/// the ranks that were kept, and the boxes that were closed.
#[derive(Debug, Drop)]
pub struct Core {
    pub deques: Items<Items<u128>>,
    pub hands: Items<Hand>,
    pub word: Option<u64>,
    pub kept: Items<u64>,
    pub closed: Items<Closed>,
}

impl Core {
    /// A core of 1 to 16 workers: path 1 is in the deque of worker 0, and all else is empty.
    pub fn new(alloc: Global, workers: u32) -> Result<Core, OutOfMemory>
        requires some { 1 ≤ workers }
        requires few { workers ≤ 16 }
        ensures opening { IfOk result (λ c. c ≡ opening workers) }
        ensures fits { IfOk result (λ c. (m : Meaning) → Fits m c) }
    {
        Ok(Core {
            deques: Items::of(deques_of(alloc, workers as usize)?),
            hands: Items::of(hands_of(alloc, workers as usize)?),
            word: None,
            kept: Items::of(Vec::new(alloc)),
            closed: Items::of(Vec::new(alloc)),
        })
    }
}
