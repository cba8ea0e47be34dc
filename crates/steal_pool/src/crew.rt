//! The workers, before any of them starts.
ghost use Rattle.std.specs.Prelude.{◌≡◌, ℕ, ◌+◌, ◌<◌, [], ◌∷◌, ◌++◌, length, IfOk, OnOk};
ghost use Rattle.res_base.specs.Lists.{Each};
ghost use Rattle.best_word.specs.declared.part.Part.TheVariants.{First};
ghost use Rattle.best_word.specs.Handles.{IsSeatOf, best_view};
ghost use Rattle.path_deque.specs.Ends.{owner_tally, owner_deque};
ghost use Rattle.best_word.specs.Word.{view_of, newcomer, one_more_out};
ghost use Rattle.path_deque.specs.Tallies.{put_more};
ghost use Rattle.steal_worker.specs.Jobs.{given};
ghost use Rattle.steal_pool.specs.Crews.{owner_deques, Deques, IsFresh, IsFreshRow, IsSetUp, AreSetUp};

use crate::shift::Shift;
use best_word::{BestSeat, BestWord};
use path_deque::{Owner, Thief};
use res_base::OutOfMemory;
use search_api::Judge;
use std::alloc::Global;
use steal_worker::{Job, Walker};

/// How many paths a deque has room for at first.
const ROOM: usize = 64;

/// The workers, each with a deque of its own and a thief's end of every deque.
///
/// The numbers fall: the worker of number 0, in whose deque path 1 is, stands last.
pub(crate) fn crew<J: Judge>(
    alloc: Global,
    j: &J,
    word: &BestWord<J>,
    seat: &mut BestSeat<J>,
    workers: u32,
) -> Result<Vec<Shift<J>>, OutOfMemory>
    requires seat { IsSeatOf word.now seat.old × (best_view seat.old ≡ newcomer First) }
    ensures seat { IsSeatOf word.now seat.new }
    ensures view { IfOk result (λ v. best_view seat.new ≡ view_of First (length v.items) [] [] 0) }
    ensures count { IfOk result (λ v. length v.items ≡ workers) }
    ensures set_up { IfOk result (λ v. AreSetUp (J.meaning j.now) (J.fits j.now) word.now v.items) }
{
    let mut owners = owners_of(alloc, workers)?;
    let rows = rows_of(alloc, &mut owners, workers)?;
    shifts_of(alloc, j, word, seat, owners, rows, workers)
}

/// A deque for each worker.
fn owners_of(alloc: Global, workers: u32) -> Result<Vec<Owner>, OutOfMemory>
    ensures count { IfOk result (λ v. length v.items ≡ workers) }
    ensures fresh { IfOk result (λ v. Each (IsFresh 0) v.items) }
{
    let mut owners = Vec::new(alloc);
    for _ in 0..workers {
        let owner = Owner::new(alloc, ROOM)?;
        owners.push(owner)?;
    }
    Ok(owners)
}

/// A thief's end of each deque, for one worker.
fn thieves_of(alloc: Global, owners: &mut [Owner]) -> Result<Vec<Thief>, OutOfMemory>
    requires { Each (λ o. (owner_tally o).part ≡ First) owners.old }
    ensures count { OnOk result (length owners.new ≡ length owners.old) }
    ensures same { OnOk result (owner_deques owners.new ≡ owner_deques owners.old) }
    ensures fresh { OnOk result ((n : ℕ) → Each (IsFresh n) owners.old → Each (IsFresh (n + 1)) owners.new) }
    ensures row { IfOk result (IsFreshRow (owner_deques owners.old)) }
{
    let mut thieves = Vec::new(alloc);
    for k in 0..owners.len() {
        let owner = &mut owners[k];
        let thief = owner.thief()?;
        thieves.push(thief)?;
    }
    Ok(thieves)
}

/// A thief's end of each deque, for each worker.
fn rows_of(
    alloc: Global,
    owners: &mut Vec<Owner>,
    workers: u32,
) -> Result<Vec<Vec<Thief>>, OutOfMemory>
    requires { Each (IsFresh 0) owners.old.items }
    ensures count { IfOk result (λ v. (length v.items ≡ workers) × (length owners.new.items ≡ length owners.old.items)) }
    ensures fresh { OnOk result (Each (IsFresh workers) owners.new.items) }
    ensures rows { IfOk result (λ v. Each (IsFreshRow (owner_deques owners.new.items)) v.items) }
{
    let mut rows = Vec::new(alloc);
    for _ in 0..workers {
        let row = thieves_of(alloc, owners.as_mut_slice())?;
        rows.push(row)?;
    }
    Ok(rows)
}

/// A worker for each deque, the last one first.
fn shifts_of<J: Judge>(
    alloc: Global,
    j: &J,
    word: &BestWord<J>,
    seat: &mut BestSeat<J>,
    mut owners: Vec<Owner>,
    mut rows: Vec<Vec<Thief>>,
    workers: u32,
) -> Result<Vec<Shift<J>>, OutOfMemory>
    requires seat { IsSeatOf word.now seat.old × (best_view seat.old ≡ newcomer First) }
    requires count { (length owners.items ≡ workers) × (length rows.items ≡ workers) }
    requires fresh { Each (IsFresh workers) owners.items }
    requires rows { Each (IsFreshRow (owner_deques owners.items)) rows.items }
    ensures seat { IsSeatOf word.now seat.new }
    ensures view { IfOk result (λ v. best_view seat.new ≡ view_of First (length v.items) [] [] 0) }
    ensures count { IfOk result (λ v. length v.items ≡ workers) }
    ensures set_up { IfOk result (λ v. AreSetUp (J.meaning j.now) (J.fits j.now) word.now v.items) }
{
    let mut shifts = Vec::new(alloc);
    let mut number = workers;
    while let Some(owner) = owners.pop() {
        let thieves = last_row(&mut rows);
        number -= 1;
        let shift = shift_of(alloc, j, word, seat, number, owner, thieves)?;
        shifts.push(shift)?;
    }
    Ok(shifts)
}

/// Takes the last row of ends.
fn last_row(rows: &mut Vec<Vec<Thief>>) -> Vec<Thief>
    requires { 0 < length rows.old.items }
    ensures { rows.old.items ≡ rows.new.items ++ result ∷ [] }
{
    let Some(row) = rows.pop() else {
        unreachable!()
    };
    row
}

/// One worker.
fn shift_of<J: Judge>(
    alloc: Global,
    j: &J,
    word: &BestWord<J>,
    seat: &mut BestSeat<J>,
    number: u32,
    owner: Owner,
    thieves: Vec<Thief>,
) -> Result<Shift<J>, OutOfMemory>
    requires seat { IsSeatOf word.now seat.old × ((best_view seat.old).part ≡ First) }
    requires owner { (owner_tally owner).part ≡ First }
    ensures seat { IsSeatOf word.now seat.new }
    ensures view { IfOk result (λ _. best_view seat.new ≡ one_more_out (best_view seat.old)) }
    ensures is { IfOk result (λ s. (s.job.walker.number ≡ number) × (owner_deque s.job.owner ≡ owner_deque owner)) }
    ensures set_up { IfOk result (λ s. (n : ℕ) (all : Deques) → IsFresh n owner → IsFreshRow all thieves → IsSetUp (J.meaning j.now) (J.fits j.now) word.now n all s) }
{
    let walker = Walker::new(alloc, j, word, seat, number)?;
    let owner = given_to(number, owner)?;
    Ok(Shift {
        job: Job {
            walker,
            owner,
            thieves,
        },
        ended: Err(OutOfMemory),
    })
}

/// The deque of a worker before its search: path 1 is in that of worker 0.
fn given_to(number: u32, mut owner: Owner) -> Result<Owner, OutOfMemory>
    requires { (owner_tally owner).part ≡ First }
    ensures same { IfOk result (λ o. owner_deque o ≡ owner_deque owner) }
    ensures given { IfOk result (λ o. owner_tally o ≡ put_more (owner_tally owner) (given number)) }
{
    if number != 0 {
        return Ok(owner);
    }
    match owner.push(1) {
        Ok(()) => Ok(owner),
        Err(_) => Err(OutOfMemory),
    }
}
