//! What the workers left, when all have ended.
ghost use Rattle.std.specs.Prelude.{◌≡◌, ◌++◌, [], length, IfOk, OnOk, IsOk};
ghost use Rattle.best_word.specs.declared.part.Part.TheVariants.{First};
ghost use Rattle.best_word.specs.Handles.{IsSeatOf, best_view, judge_of};
ghost use Rattle.best_word.specs.Word.{view_of};
ghost use Rattle.steal_pool.specs.Crews.{AreBack, HasEnded, TookIn, IsGathered};

use crate::shift::Shift;
use best_word::{BestSeat, BestWord};
use path_deque::{Owner, Thief};
use res_base::{Items, OutOfMemory};
use search_api::{Closed, Judge};
use std::alloc::Global;

/// The deques, the ends that each worker had, and the boxes that were closed, worker by worker.
#[derive(Drop)]
pub(crate) struct Gathered {
    pub(crate) owners: Vec<Owner>,
    pub(crate) rows: Vec<Vec<Thief>>,
    pub(crate) closed: Items<Closed>,
}

/// Takes all seats back, and puts together what the workers left, the last one first.
pub(crate) fn gather<J: Judge>(
    alloc: Global,
    word: &BestWord<J>,
    seat: &mut BestSeat<J>,
    mut shifts: Vec<Shift<J>>,
) -> Result<Gathered, OutOfMemory>
    requires seat { IsSeatOf word.now seat.old × (best_view seat.old ≡ view_of First (length shifts.items) [] [] 0) }
    requires back { AreBack (J.meaning (judge_of word.now)) word.now shifts.items }
    ensures seat { IsSeatOf word.now seat.new }
    ensures gathered { IfOk result (IsGathered (J.meaning (judge_of word.now)) (length shifts.items) (best_view seat.new)) }
{
    let mut gathered = Gathered {
        owners: Vec::new(alloc),
        rows: Vec::new(alloc),
        closed: Items::of(Vec::new(alloc)),
    };
    while let Some(shift) = shifts.pop() {
        take_in(word, seat, shift, &mut gathered)?;
    }
    Ok(gathered)
}

/// Takes one worker's seat back, and keeps what it left.
fn take_in<J: Judge>(
    word: &BestWord<J>,
    seat: &mut BestSeat<J>,
    shift: Shift<J>,
    gathered: &mut Gathered,
) -> Result<(), OutOfMemory>
    requires seat { IsSeatOf word.now seat.old × ((best_view seat.old).part ≡ First) }
    requires back { IsOk shift.ended → HasEnded (J.meaning (judge_of word.now)) word.now shift }
    ensures seat { IsSeatOf word.now seat.new }
    ensures taken { OnOk result (TookIn shift (best_view seat.old) gathered.old (best_view seat.new) gathered.new) }
{
    let job = shift.done()?;
    let (walker, owner, thieves) = job.parts();
    let (theirs, closed) = walker.parts();
    gathered.owners.push(owner)?;
    gathered.rows.push(thieves)?;
    put_all(&mut gathered.closed, closed)?;
    word.join(seat, theirs);
    Ok(())
}

/// Adds closed boxes behind others. Where there are none before them, they stay where they are in memory.
pub(crate) fn put_all(all: &mut Items<Closed>, more: Items<Closed>) -> Result<(), OutOfMemory>
    ensures { OnOk result (all.new ≡ all.old ++ more) }
{
    if all.len() == 0 {
        *all = more;
        return Ok(());
    }
    all.as_vec_mut().extend_from_slice(more.as_slice())?;
    Ok(())
}
