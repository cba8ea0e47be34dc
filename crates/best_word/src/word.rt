//! The word and its seats. Each access is one atomic step, which the rule of the word allows.
ghost use Rattle.std.specs.Prelude.{◌≡◌, ◌≢◌, ℕ, ◌<◌, ◌≤◌, [], IfOk, IfSome, IfNone, MatchOption};
ghost use Rattle.best_word.specs.declared.part.Part.TheVariants.{First, Other, Spent};
ghost use Rattle.res_base.specs.Lists.{Member};
ghost use Rattle.search_api.specs.Accounts.{IsLegalRank};

use crate::part::Part;
use atomic_table::{Join, Play, Seat, Split, Table, TableRule};
use res_base::OutOfMemory;
use search_api::Judge;
use std::alloc::Global;
use std::collections::LinkedList;
use std::marker::PhantomData;

/// A word from here on stands for no rank.
const NONE: u64 = 1 << 63;

/// What a seat knows. No value of it is made: it is what clauses say of a seat.
pub struct View<J> {
    pub of: PhantomData<J>,
    pub part: Part,
    /// how many other seats are out, where it is the first
    pub out: u64,
    /// the ranks that it offered
    pub kept: LinkedList<u64>,
    /// the ranks that it saw in the word
    pub saw: LinkedList<u64>,
    /// how many of its loads found no rank
    pub blank: u64,
}

/// The word is the least rank that some seat kept, each kept rank is that of a legal choice, and each that was seen was kept.
pub struct LeastKept<J>(PhantomData<J>);

impl<J: Judge> TableRule<(), View<J>, J> for LeastKept<J> {
    ghost use Rattle.best_word.specs.declared.part.Part.TheVariants.{First};
    ghost use Rattle.search_api.specs.Accounts.{IsLegalRank};
    ghost use Rattle.best_word.specs.Word.{newcomer, Holds};

    ghost holds = { λ j. Holds (IsLegalRank (J.meaning j)) };

    ghost first = { λ _. newcomer First };
}

/// A load.
pub struct Loads;

impl<J> Play<(), View<J>> for Loads {
    ghost use Rattle.best_word.specs.Word.{Loaded};

    ghost then = { Loaded };
}

/// The lesser of the word and a rank.
pub struct Offers;

impl<J> Play<(), View<J>> for Offers {
    ghost use Rattle.best_word.specs.Word.{Offered};

    ghost then = { Offered };
}

/// Making a seat, and taking one back.
pub struct Seats;

impl<J> Split<View<J>> for Seats {
    ghost use Rattle.best_word.specs.declared.part.Part.TheVariants.{Other};
    ghost use Rattle.best_word.specs.Word.{newcomer, one_more_out};

    ghost left = { one_more_out };

    ghost right = { λ _. newcomer Other };
}

impl<J> Join<View<J>> for Seats {
    ghost use Rattle.best_word.specs.declared.part.Part.TheVariants.{Spent};
    ghost use Rattle.best_word.specs.Word.{newcomer, together};

    ghost both = { together };

    ghost spent = { newcomer Spent };
}

/// The word of a judge's search.
pub struct BestWord<J: Judge> {
    table: Table<(), View<J>, J, LeastKept<J>, Global>,
    ghost counts: { (table.shared.table_id.words ≡ 1) × (table.shared.table_id.slots ≡ 0) },
}

/// What one thread holds of a word. It has no bytes.
pub struct BestSeat<J> {
    seat: Seat<(), View<J>>,
    ghost live: { seat.me.0.part ≢ Spent },
}

impl<J: Judge> Drop for BestWord<J> {
    fn drop(self) {
        let Self { table: _ } = self;
    }
}

impl<J> Drop for BestSeat<J> {
    fn drop(self) {
        let Self { seat: _ } = self;
    }
}

impl<J> BestSeat<J> {
    fn into_seat(self) -> Seat<(), View<J>>
        ensures { result ≡ self.seat }
    {
        let Self { seat } = self;
        seat
    }
}

impl<J: Judge> BestWord<J> {
    ghost use Rattle.best_word.specs.Word.{newcomer, one_more_out, together, kept_more, SeesRank, SeesNone};
    ghost use Rattle.best_word.specs.Handles.{best_view, IsSeatOf, judge_of};

    /// A word that holds no rank, and its first seat.
    pub fn new(alloc: Global, j: &J) -> Result<(BestWord<J>, BestSeat<J>), OutOfMemory>
        ensures { IfOk result (λ w. IsSeatOf w.0 w.1 × (best_view w.1 ≡ newcomer First) × (judge_of w.0 ≡ j.now)) }
    {
        match Table::of_words(alloc, &[NONE], j) {
            Ok((table, seat)) => Ok((BestWord { table }, BestSeat { seat })),
            Err(_) => Err(OutOfMemory),
        }
    }

    /// A new seat, which kept and saw nothing. The first seat makes it.
    pub fn split(&self, seat: &mut BestSeat<J>) -> BestSeat<J>
        requires seat { IsSeatOf self.now seat.old }
        requires first { (best_view seat.old).part ≡ First }
        ensures seats { IsSeatOf self.now seat.new × IsSeatOf self.now result }
        ensures views { (best_view seat.new ≡ one_more_out (best_view seat.old)) × (best_view result ≡ newcomer Other) }
    {
        BestSeat {
            seat: self.table.shared.split_seat::<Seats>(&mut seat.seat),
        }
    }

    /// The word as one load finds it: no more than each rank that this seat kept or saw. None where it held no rank.
    ///
    /// What the first seat sees while no other is out, it kept itself.
    pub fn see(&self, seat: &mut BestSeat<J>) -> Option<u64>
        requires { IsSeatOf self.now seat.old }
        ensures seat { IsSeatOf self.now seat.new }
        ensures saw { MatchOption result (SeesNone (best_view seat.old) (best_view seat.new)) (λ r. SeesRank (best_view seat.old) r (best_view seat.new)) }
    {
        let found = self.table.shared.load::<Loads>(&mut seat.seat, 0);
        if found < NONE { Some(found) } else { None }
    }

    /// Leaves the lesser of the word and the rank of a legal choice there, in one step.
    pub fn offer(&self, seat: &mut BestSeat<J>, rank: u64)
        requires seat { IsSeatOf self.now seat.old }
        requires legal { IsLegalRank (J.meaning (judge_of self.now)) rank }
        ensures seat { IsSeatOf self.now seat.new }
        ensures kept { best_view seat.new ≡ kept_more (best_view seat.old) rank }
    {
        self.table
            .shared
            .fetch_min::<Offers>(&mut seat.seat, 0, rank);
    }

    /// Takes a seat back: what it kept and saw, the first seat kept and saw.
    pub fn join(&self, into: &mut BestSeat<J>, from: BestSeat<J>)
        requires seats { IsSeatOf self.now into.old × IsSeatOf self.now from }
        requires parts { ((best_view into.old).part ≡ First) × ((best_view from).part ≡ Other) }
        ensures seat { IsSeatOf self.now into.new }
        ensures view { best_view into.new ≡ together (best_view into.old) (best_view from) }
    {
        let seat = from.into_seat();
        self.table.shared.join_seat::<Seats>(&mut into.seat, seat);
    }

    /// The least rank that the first seat kept, when all others were taken back; None exactly where it kept none.
    pub fn close(self, seat: BestSeat<J>) -> Option<u64>
        requires seat { IsSeatOf self seat }
        requires alone { ((best_view seat).part ≡ First) × ((best_view seat).out ≡ 0) }
        ensures none { IfNone result ((best_view seat).kept ≡ []) }
        ensures least { IfSome result (λ r. Member r (best_view seat).kept × ((s : ℕ) → Member s (best_view seat).kept → r ≤ s)) }
        ensures saw { (r : ℕ) → Member r (best_view seat).saw → Member r (best_view seat).kept }
    {
        let Self { table } = self;
        let seat = seat.into_seat();
        let closed = table.close_with(seat);
        let found = closed.word(0);
        closed.free();
        if found < NONE { Some(found) } else { None }
    }
}
