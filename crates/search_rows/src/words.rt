//! Seats of a word over a judge for which all choices of two variables of two positions are legal.
ghost use Rattle.std.specs.Prelude.{◌≡◌, IfOk};
ghost use Rattle.choice_rank.specs.Choices.{IsShape};
ghost use Rattle.search_api.proofs.ShapeLemmas.{shape_prop};
ghost use Rattle.best_word.specs.Handles.{best_view, judge_of, IsSeatOf};
ghost use Rattle.best_word.specs.Tests.{free_meaning, free_lawful, two_variables};
ghost use Rattle.best_word.specs.Word.{kept_more};

use best_word::{BestSeat, BestWord};
use box_split::{BoxBuf, is_single};
use choice_rank::{Costs, Shape, VarShape};
use res_base::OutOfMemory;
use search_api::{Judge, Verdict};
use std::alloc::Global;
use std::test::Fail;

#[derive(Drop)]
struct Free {
    shape: Shape,
    ghost shaped: { IsShape shape } by { shape_prop shape },
}

#[derive(Drop)]
struct Nothing;

impl Judge for Free {
    type Scratch = Nothing;

    ghost meaning = { λ j. free_meaning j.shape };

    ghost fits = { λ j s. Unit {0} };

    fn shape(&self) -> &Shape {
        &self.shape
    }

    fn scratch(&self, _alloc: Global) -> Result<Nothing, OutOfMemory> {
        Ok(Nothing)
    }

    fn judge(&self, _scratch: &mut Nothing, b: &BoxBuf) -> Verdict {
        if is_single(&self.shape, b) {
            Verdict::Legal
        } else {
            Verdict::Open
        }
    }

    ghost lawful = { λ j. free_lawful j.shape j.shaped };
}

fn judge(alloc: Global) -> Result<Free, Fail>
    ensures { IfOk result (λ j. j.shape ≡ two_variables) }
{
    let mut vars = Vec::new(alloc);
    vars.push(VarShape {
        size: 2,
        costs: Costs::HomeFirst,
    })?;
    vars.push(VarShape {
        size: 2,
        costs: Costs::AllZero,
    })?;
    let shape = Shape::new(alloc, vars)?;
    let _vars = shape.vars();
    Ok(Free { shape })
}

/// The rank of the choice whose first variable has its second position.
fn offer_six(word: &BestWord<Free>, seat: &mut BestSeat<Free>)
    requires seat { IsSeatOf word.now seat.old }
    requires judge { (judge_of word.now).shape ≡ two_variables }
    ensures seat { IsSeatOf word.now seat.new }
    ensures kept { best_view seat.new ≡ kept_more (best_view seat.old) 6 }
{
    word.offer(seat, 6);
}

/// The rank of the choice whose second variable has its second position.
fn offer_one(word: &BestWord<Free>, seat: &mut BestSeat<Free>)
    requires seat { IsSeatOf word.now seat.old }
    requires judge { (judge_of word.now).shape ≡ two_variables }
    ensures seat { IsSeatOf word.now seat.new }
    ensures kept { best_view seat.new ≡ kept_more (best_view seat.old) 1 }
{
    word.offer(seat, 1);
}

#[test]
fn the_lesser_rank_stands(rt: HostRuntime) -> Result<(), Fail> {
    let judge = judge(rt.alloc())?;
    let (word, mut seat) = BestWord::new(rt.alloc(), &judge)?;
    offer_six(&word, &mut seat);
    offer_one(&word, &mut seat);
    let seen = word.see(&mut seat);
    let least = word.close(seat);
    assert_eq!(rt; seen, Some(1));
    assert_eq!(rt; least, Some(1));
    Ok(())
}

#[test]
fn each_seat_sees_what_another_offered(rt: HostRuntime) -> Result<(), Fail> {
    let judge = judge(rt.alloc())?;
    let (word, mut first) = BestWord::new(rt.alloc(), &judge)?;
    let mut other = word.split(&mut first);
    let none = word.see(&mut first);
    offer_six(&word, &mut other);
    offer_one(&word, &mut first);
    let seen = word.see(&mut other);
    word.join(&mut first, other);
    let least = word.close(first);
    assert_eq!(rt; none, None);
    assert_eq!(rt; seen, Some(1));
    assert_eq!(rt; least, Some(1));
    Ok(())
}

fn is_sync<T: Sync>(_shared: &T) {}

fn is_send<T: Send>(_moved: &T) {}

/// A word and its seats may cross threads, whatever the judge.
fn cross_threads<J: Judge>(word: &BestWord<J>, seat: &BestSeat<J>) {
    is_sync(word);
    is_send(word);
    is_send(seat);
}

#[test]
fn a_word_and_its_seats_cross_threads(rt: HostRuntime) -> Result<(), Fail> {
    let judge = judge(rt.alloc())?;
    let (word, seat) = BestWord::new(rt.alloc(), &judge)?;
    cross_threads(&word, &seat);
    Ok(())
}
