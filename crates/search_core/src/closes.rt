//! The events on the box in a worker's hand.
ghost use Rattle.std.specs.Prelude.{◌≡◌, ◌<◌, ◌++◌, ◌∷◌, [], length, Some, None, MatchOption, OnOk, OnErr};
ghost use Rattle.search_api.specs.declared.outcome.Cause.TheVariants as cause;
ghost use Rattle.search_core.specs.Ends.{HoldsNone, IsJudged};
ghost use Rattle.search_core.specs.Events.{Answers, ClosesBad, Cuts, Keeps, Splits, with_closed, with_path};
ghost use Rattle.search_core.specs.Fits.{Fits};

use crate::boxes::{Held, in_hand};
use crate::hands::{drop_last, put_hand, put_last};
use crate::state::{Core, Hand};
use res_base::OutOfMemory;
use search_api::{Cause, Closed, Judge, Verdict};

/// Closes the box in a worker's hand by the rank that it saw.
pub(crate) fn cut<J: Judge>(core: &mut Core, j: &J, w: u32) -> Result<bool, OutOfMemory>
    requires { Fits (J.meaning j.now) core.old }
    ensures { Answers (Cuts (J.meaning j.now) core.old w) core.old core.new result }
{
    let Some(held) = in_hand(core, j, w) else {
        return Ok(false);
    };
    match held.hand.seen {
        Some(rank) if rank < held.low => {
            close(core, w, emptied(held.hand), held.path, Cause::Cut { rank })?;
            Ok(true)
        }
        _ => Ok(false),
    }
}

/// Closes the box in a worker's hand for the reason of its verdict.
pub(crate) fn close_bad<J: Judge>(
    core: &mut Core,
    j: &J,
    scratch: &mut J::Scratch,
    w: u32,
) -> Result<bool, OutOfMemory>
    requires core { Fits (J.meaning j.now) core.old }
    requires scratch { J.fits j.now scratch.old }
    ensures scratch { J.fits j.now scratch.new }
    ensures answer { Answers (ClosesBad (J.meaning j.now) core.old w) core.old core.new result }
{
    let Some((held, verdict)) = judged(core, j, scratch, w) else {
        return Ok(false);
    };
    match verdict {
        Verdict::Bad(reason) => {
            close(core, w, emptied(held.hand), held.path, Cause::Bad(reason))?;
            Ok(true)
        }
        _ => Ok(false),
    }
}

/// Keeps the rank of the one choice of the box in a worker's hand.
pub(crate) fn keep<J: Judge>(
    core: &mut Core,
    j: &J,
    scratch: &mut J::Scratch,
    w: u32,
) -> Result<bool, OutOfMemory>
    requires core { Fits (J.meaning j.now) core.old }
    requires scratch { J.fits j.now scratch.old }
    ensures scratch { J.fits j.now scratch.new }
    ensures answer { Answers (Keeps (J.meaning j.now) core.old w) core.old core.new result }
{
    let Some((held, verdict)) = judged(core, j, scratch, w) else {
        return Ok(false);
    };
    match verdict {
        Verdict::Legal => {
            close_leaf(core, w, held)?;
            Ok(true)
        }
        _ => Ok(false),
    }
}

/// Splits the box in a worker's hand.
pub(crate) fn split<J: Judge>(
    core: &mut Core,
    j: &J,
    scratch: &mut J::Scratch,
    w: u32,
) -> Result<bool, OutOfMemory>
    requires core { Fits (J.meaning j.now) core.old }
    requires scratch { J.fits j.now scratch.old }
    ensures scratch { J.fits j.now scratch.new }
    ensures answer { Answers (Splits (J.meaning j.now) core.old w) core.old core.new result }
{
    let Some((held, verdict)) = judged(core, j, scratch, w) else {
        return Ok(false);
    };
    match verdict {
        Verdict::Open => {
            put_last(&mut core.deques, w, 2 * held.path + 1)?;
            put_hand(
                &mut core.hands,
                w,
                Hand {
                    path: Some(2 * held.path),
                    ..held.hand
                },
            );
            Ok(true)
        }
        _ => Ok(false),
    }
}

/// What a worker has in hand, and the verdict on its box. None where there is no such worker, or it has no path.
fn judged<J: Judge>(core: &Core, j: &J, scratch: &mut J::Scratch, w: u32) -> Option<(Held, Verdict)>
    requires core { Fits (J.meaning j.now) core.now }
    requires scratch { J.fits j.now scratch.old }
    ensures scratch { J.fits j.now scratch.new }
    ensures judged { MatchOption result (HoldsNone (J.meaning j.now) core.now w) (IsJudged (J.meaning j.now) core.now w) }
{
    let held = in_hand(core, j, w)?;
    let verdict = j.judge(scratch, &held.b);
    Some((held, verdict))
}

/// A hand without its path.
fn emptied(hand: Hand) -> Hand
    ensures { result ≡ with_path hand None }
{
    Hand { path: None, ..hand }
}

/// Closes a path for a worker, whose hand becomes another.
fn close(core: &mut Core, w: u32, hand: Hand, path: u128, cause: Cause) -> Result<(), OutOfMemory>
    requires { w < length core.old.hands }
    ensures closed { OnOk result (core.new ≡ with_closed core.old w hand path cause core.old.kept) }
    ensures err { OnErr result (core.new ≡ core.old) }
{
    core.closed.push(Closed {
        worker: w,
        path,
        cause,
    })?;
    put_hand(&mut core.hands, w, hand);
    Ok(())
}

/// Keeps the low of a worker's box and closes its path as a leaf; the worker then owes the rank.
fn close_leaf(core: &mut Core, w: u32, held: Held) -> Result<(), OutOfMemory>
    requires { w < length core.old.hands }
    ensures closed { OnOk result (core.new ≡ with_closed core.old w (record { path = None; seen = held.hand.seen; owed = Some held.low }) held.path (cause.Leaf held.low) (core.old.kept ++ held.low ∷ [])) }
    ensures err { OnErr result (core.new ≡ core.old) }
{
    core.kept.push(held.low)?;
    let hand = Hand {
        path: None,
        seen: held.hand.seen,
        owed: Some(held.low),
    };
    match close(core, w, hand, held.path, Cause::Leaf { rank: held.low }) {
        Ok(()) => Ok(()),
        Err(e) => {
            drop_last(&mut core.kept);
            Err(e)
        }
    }
}
