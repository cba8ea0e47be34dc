//! The two kinds of ends of a deque. Each step on it keeps its balance.
ghost use Rattle.std.specs.Prelude.{◌≡◌, ◌≢◌, ◌<◌, true, [], ◌∷◌, length, IfOk, MatchOption, MatchResult};
ghost use Rattle.crossbeam_deque.specs.Handles.{view, IsPassOf, stealer_deque, worker_flavor};
ghost use Rattle.best_word.specs.declared.part.Part.TheVariants.{First, Other, Spent};

use best_word::Part;
use crossbeam_deque::protocol::{Join, Lesson, Outcome, Protocol, Split};
use crossbeam_deque::{Pass, Steal, Stealer, Worker};
use res_base::OutOfMemory;
use std::alloc::Global;
use std::collections::LinkedList;

/// What an end knows. No value of it is made: it is what clauses say of an end.
pub struct Tally {
    pub part: Part,
    /// how many other ends are out, where it is the owner's
    pub out: u64,
    /// the paths that it put into the deque
    pub put: LinkedList<u128>,
    /// the paths that it got from the deque
    pub got: LinkedList<u128>,
}

/// As much was put into the deque as was got from it and is there.
pub struct Balanced;

impl Protocol<u128, Tally> for Balanced {
    ghost use Rattle.best_word.specs.declared.part.Part.TheVariants.{First, Spent};
    ghost use Rattle.path_deque.specs.Tallies.{empty_tally, IsBalanced};

    ghost holds = { IsBalanced };

    ghost first = { empty_tally First };

    ghost guest = { empty_tally Spent };
}

/// A push.
pub struct Puts;

impl Outcome<u128, Tally> for Puts {
    ghost use Rattle.std.specs.Prelude.{◌≡◌};
    ghost use Rattle.path_deque.specs.Tallies.{put_more};

    ghost then = { λ t paths u. u ≡ put_more t paths };
}

/// A pop.
pub struct Pops;

impl Outcome<u128, Tally> for Pops {
    ghost use Rattle.std.specs.Prelude.{◌≡◌};
    ghost use Rattle.path_deque.specs.Tallies.{got_more, IsDrained};

    ghost then = { λ t paths u. u ≡ got_more t paths };

    ghost empty = { IsDrained };
}

/// A steal.
pub struct Steals;

impl Outcome<u128, Tally> for Steals {
    ghost use Rattle.std.specs.Prelude.{◌≡◌};
    ghost use Rattle.path_deque.specs.Tallies.{got_more};

    ghost then = { λ t paths u. u ≡ got_more t paths };
}

/// A look at how many paths are there.
pub struct Looks;

impl Lesson<u128, Tally> for Looks {
    ghost use Rattle.std.specs.Prelude.{◌≡◌, length};
    ghost use Rattle.path_deque.specs.Tallies.{IsDrained};

    ghost fact = { λ t paths. length paths ≡ 0 → IsDrained t };
}

/// Making an end, and taking one back.
pub struct Tallies;

impl Split<Tally> for Tallies {
    ghost use Rattle.best_word.specs.declared.part.Part.TheVariants.{Other};
    ghost use Rattle.path_deque.specs.Tallies.{empty_tally, one_more_out};

    ghost left = { one_more_out };

    ghost right = { λ _. empty_tally Other };
}

impl Join<Tally> for Tallies {
    ghost use Rattle.best_word.specs.declared.part.Part.TheVariants.{Spent};
    ghost use Rattle.path_deque.specs.Tallies.{empty_tally, together};

    ghost both = { together };

    ghost spent = { empty_tally Spent };
}

/// The owner's end of a deque.
#[derive(Drop)]
pub struct Owner {
    worker: Worker<u128, Global, Tally, Balanced>,
    ghost lifo: { 0 < worker_flavor worker },
}

/// A thief's end of a deque.
#[derive(Drop)]
pub struct Thief {
    stealer: Stealer<u128, Global, Tally, Balanced>,
    pass: Pass<u128, Tally>,
    ghost of: { IsPassOf (stealer_deque stealer) pass },
    ghost live: { (view pass).part ≢ Spent },
}

impl Owner {
    ghost use Rattle.path_deque.specs.Tallies.{empty_tally, one_more_out, put_more, got_more, together, IsDrained};
    ghost use Rattle.path_deque.specs.Ends.{owner_tally, thief_tally, owner_deque, thief_deque};

    /// An empty deque with room for so many paths at first.
    pub fn new(alloc: Global, capacity: usize) -> Result<Owner, OutOfMemory>
        ensures { IfOk result (λ o. owner_tally o ≡ empty_tally First) }
    {
        match Worker::lifo_as(alloc, capacity) {
            Ok(worker) => Ok(Owner { worker }),
            Err(_) => Err(OutOfMemory),
        }
    }

    /// Puts a path at the back. It gives the path back where the deque can't grow.
    pub fn push(&mut self, path: u128) -> Result<(), u128>
        requires { (owner_tally self.old).part ≢ Spent }
        ensures same { owner_deque self.new ≡ owner_deque self.old }
        ensures put { MatchResult result (λ _. owner_tally self.new ≡ put_more (owner_tally self.old) (path ∷ [])) (λ refused. (refused ≡ path) × (owner_tally self.new ≡ owner_tally self.old)) }
    {
        self.worker.push_as::<Puts>(path)
    }

    /// The path at the back. None where at one moment there was none: if no other end is out, all that was put was got.
    pub fn pop(&mut self) -> Option<u128>
        requires { (owner_tally self.old).part ≢ Spent }
        ensures same { owner_deque self.new ≡ owner_deque self.old }
        ensures got { MatchOption result ((owner_tally self.new ≡ owner_tally self.old) × IsDrained (owner_tally self.old)) (λ path. owner_tally self.new ≡ got_more (owner_tally self.old) (path ∷ [])) }
    {
        self.worker.pop_as::<Pops>()
    }

    /// Whether at one moment there was no path: if no other end is out, all that was put was then got.
    pub fn is_empty(&mut self) -> bool
        ensures same { (owner_deque self.new ≡ owner_deque self.old) × (owner_tally self.new ≡ owner_tally self.old) }
        ensures drained { result ≡ true → IsDrained (owner_tally self.old) }
    {
        self.worker.len_as::<Looks>() == 0
    }

    /// An end for another thread.
    pub fn thief(&mut self) -> Result<Thief, OutOfMemory>
        requires { (owner_tally self.old).part ≡ First }
        ensures same { owner_deque self.new ≡ owner_deque self.old }
        ensures made { MatchResult result (λ t. (thief_deque t ≡ owner_deque self.old) × (thief_tally t ≡ empty_tally Other) × (owner_tally self.new ≡ one_more_out (owner_tally self.old))) (λ _. owner_tally self.new ≡ owner_tally self.old) }
    {
        match self.worker.stealer() {
            Ok(stealer) => {
                let pass = self.worker.another::<Tallies>();
                Ok(Thief { stealer, pass })
            }
            Err(_) => Err(OutOfMemory),
        }
    }

    /// Takes an end back: what it put and got, the owner's end put and got.
    pub fn take_back(&mut self, thief: Thief)
        requires deque { thief_deque thief ≡ owner_deque self.old }
        requires parts { ((owner_tally self.old).part ≡ First) × ((thief_tally thief).part ≡ Other) }
        ensures same { owner_deque self.new ≡ owner_deque self.old }
        ensures together { owner_tally self.new ≡ together (owner_tally self.old) (thief_tally thief) }
    {
        let Thief { stealer, pass } = thief;
        self.worker.absorb::<Tallies>(pass);
        drop(stealer);
    }
}

impl Thief {
    ghost use Rattle.path_deque.specs.Tallies.{got_more};
    ghost use Rattle.path_deque.specs.Ends.{thief_tally, thief_deque};

    /// The path at the front, if there is one and no other thread was faster.
    pub fn steal(&mut self) -> Option<u128>
        ensures same { thief_deque self.new ≡ thief_deque self.old }
        ensures got { MatchOption result (thief_tally self.new ≡ thief_tally self.old) (λ path. thief_tally self.new ≡ got_more (thief_tally self.old) (path ∷ [])) }
    {
        match self.stealer.steal_as::<Steals>(&mut self.pass) {
            Steal::Success(path) => Some(path),
            Steal::Empty | Steal::Retry => None,
        }
    }
}
