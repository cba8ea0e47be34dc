//! Seats of a word. What a test offers was found legal by the judge, as a worker of a search does it.
ghost use Rattle.std.specs.Prelude.{◌≡◌};
ghost use Rattle.best_word.specs.Handles.{best_view, judge_of, IsSeatOf};

use crate::judge::shared_pin;
use best_word::{BestSeat, BestWord};
use box_judge::PinJudge;
use box_split::{BoxBuf, is_path, low, of_path};
use res_base::OutOfMemory;
use search_api::{Judge, Verdict};
use std::alloc::Global;

/// Offers the rank of the choice that a path names, and answers whether it is legal; else it offers nothing.
fn offer_at<J: Judge>(
    judge: &J,
    scratch: &mut J::Scratch,
    word: &BestWord<J>,
    seat: &mut BestSeat<J>,
    path: u128,
) -> bool
    requires word { (judge_of word.now ≡ judge.now) × IsSeatOf word.now seat.old }
    requires fits { J.fits judge.now scratch.old }
    ensures seat { IsSeatOf word.now seat.new }
    ensures fits { J.fits judge.now scratch.new }
    ensures part { (best_view seat.new).part ≡ (best_view seat.old).part }
    ensures out { (best_view seat.new).out ≡ (best_view seat.old).out }
{
    let shape = judge.shape();
    if !is_path(shape, path) {
        return false;
    }
    let mut b = BoxBuf::new();
    of_path(shape, path, &mut b);
    match judge.judge(scratch, &b) {
        Verdict::Legal => {
            word.offer(seat, low(shape, &b));
            true
        }
        _ => false,
    }
}

/// What came of two paths that were offered to a new word: whether each was, what the seat sees then, and what the word holds
/// at last.
#[derive(Clone, Copy, PartialEq, Eq)]
struct Offered {
    first: bool,
    second: bool,
    seen: Option<u64>,
    least: Option<u64>,
}

fn offer_both(
    alloc: Global,
    judge: &PinJudge,
    first: u128,
    second: u128,
) -> Result<Offered, OutOfMemory> {
    let mut scratch = judge.scratch(alloc)?;
    let (word, mut seat) = BestWord::new(alloc, judge)?;
    let first = offer_at(judge, &mut scratch, &word, &mut seat, first);
    let second = offer_at(judge, &mut scratch, &word, &mut seat, second);
    let seen = word.see(&mut seat);
    let least = word.close(seat);
    Ok(Offered {
        first,
        second,
        seen,
        least,
    })
}

/// Whether this comes of two paths of a problem in which two signals compete for a pin.
fn gives(alloc: Global, first: u128, second: u128, expected: Offered) -> bool {
    let Some(judge) = shared_pin(alloc) else {
        return false;
    };
    match offer_both(alloc, &judge, first, second) {
        Ok(offered) => offered == expected,
        Err(_) => false,
    }
}

/// USART1_TX at PA9 and I2C1_SCL at PB6 has rank 6; USART1_TX at its home PB6 and I2C1_SCL at PB8 has rank 1.
fn the_lesser_rank_stands(alloc: Global) -> bool {
    let expected = Offered {
        first: true,
        second: true,
        seen: Some(1),
        least: Some(1),
    };
    gives(alloc, 6, 5, expected)
}

/// Both signals at PB6 is not legal, and 8 is no path.
fn what_is_not_legal_is_not_offered(alloc: Global) -> bool {
    let expected = Offered {
        first: false,
        second: false,
        seen: None,
        least: None,
    };
    gives(alloc, 4, 8, expected)
}

#[test]
fn seats_of_a_word(rt: HostRuntime) {
    assert!(rt; the_lesser_rank_stands(rt.alloc()));
    assert!(rt; what_is_not_legal_is_not_offered(rt.alloc()));
}
