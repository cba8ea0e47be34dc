//! What one worker closes, and for which cause; and that a walk over all choices finds the same.
ghost use Rattle.std.specs.Prelude.{◌≡◌, IfOk, [], ◌∷◌};
ghost use Rattle.choice_rank.specs.declared.variable.Costs.TheVariants.{HomeFirst};
ghost use Rattle.choice_rank.specs.Choices.{IsShape};
ghost use Rattle.search_api.proofs.ShapeLemmas.{shape_prop};
ghost use Rattle.serial_search.specs.Tests.{reaches, tiny_meaning, tiny_lawful};

use box_split::{BoxBuf, is_single};
use choice_rank::{Costs, Shape, VarShape};
use plain_walk::{Legality, walk};
use res_base::OutOfMemory;
use search_api::{Cause, Closed, Judge, Reason, Verdict};
use serial_search::search;
use std::alloc::Global;
use std::test::Fail;

// A choice is legal where its first position is not below the least.
#[derive(Drop)]
struct Tiny {
    shape: Shape,
    least: u16,
    ghost shaped: { IsShape shape } by { shape_prop shape },
}

#[derive(Drop)]
struct Nothing;

impl Judge for Tiny {
    type Scratch = Nothing;

    ghost meaning = { λ j. tiny_meaning j.shape j.least };

    ghost fits = { λ j s. Unit {0} };

    fn shape(&self) -> &Shape {
        &self.shape
    }

    fn scratch(&self, _alloc: Global) -> Result<Nothing, OutOfMemory> {
        Ok(Nothing)
    }

    fn judge(&self, _scratch: &mut Nothing, b: &BoxBuf) -> Verdict {
        if self.shape.vars().len() != 0 && b.hi[0] < self.least {
            Verdict::Bad(Reason::Limit(3))
        } else if is_single(&self.shape, b) {
            Verdict::Legal
        } else {
            Verdict::Open
        }
    }

    ghost lawful = { λ j. tiny_lawful j.shape j.least j.shaped };
}

impl Legality for Tiny {
    ghost legal = { λ j. reaches j.least };

    fn is_legal(&self, _alloc: Global, at: &[u16]) -> Result<bool, OutOfMemory> {
        Ok(at.is_empty() || self.least <= at[0])
    }
}

fn four_and_three(alloc: Global) -> Result<Shape, Fail> {
    let mut vars = Vec::new(alloc);
    vars.push(VarShape {
        size: 4,
        costs: Costs::HomeFirst,
    })?;
    vars.push(VarShape {
        size: 3,
        costs: Costs::HomeFirst,
    })?;
    Ok(Shape::new(alloc, vars)?)
}

#[test]
fn each_box_is_closed_for_its_cause(rt: HostRuntime) -> Result<(), Fail> {
    let shape = four_and_three(rt.alloc())?;
    let _vars = shape.vars();
    let judge = Tiny { shape, least: 1 };
    let outcome = search(rt.alloc(), &judge)?;
    assert_eq!(rt; outcome.best, Some(15));
    assert_eq!(rt; outcome.kept.as_slice(), &[15][..]);
    let expected = [
        (2, Cause::Bad(Reason::Limit(3))),
        (12, Cause::Leaf { rank: 15 }),
        (13, Cause::Cut { rank: 15 }),
        (7, Cause::Cut { rank: 15 }),
    ];
    assert_eq!(rt; outcome.closed.len(), expected.len());
    for (entry, (path, cause)) in outcome.closed.as_slice().iter().zip(expected) {
        assert_eq!(rt;
            *entry,
            Closed {
                worker: 0,
                path,
                cause
            }
        );
    }
    Ok(())
}

#[test]
fn no_choice_is_legal(rt: HostRuntime) -> Result<(), Fail> {
    let shape = four_and_three(rt.alloc())?;
    let _vars = shape.vars();
    let judge = Tiny { shape, least: 4 };
    let outcome = search(rt.alloc(), &judge)?;
    assert_eq!(rt; outcome.best, None);
    assert_eq!(rt; outcome.kept.len(), 0);
    assert_eq!(rt; outcome.closed.len(), 1);
    Ok(())
}

/// What a walk over all choices finds from a first position on.
fn walked(alloc: Global, least: u16) -> Result<Option<u64>, Fail> {
    let shape = four_and_three(alloc)?;
    let other = four_and_three(alloc)?;
    let _vars = shape.vars();
    let judge = Tiny { shape, least };
    Ok(walk(alloc, &other, &judge)?)
}

#[test]
fn a_walk_over_all_choices_finds_the_same(rt: HostRuntime) -> Result<(), Fail> {
    assert_eq!(rt; walked(rt.alloc(), 1)?, Some(15));
    assert_eq!(rt; walked(rt.alloc(), 4)?, None);
    Ok(())
}
