//! A tree that is accepted, and one that is not.
ghost use Rattle.choice_rank.specs.Choices.{IsShape};
ghost use Rattle.tree_check.specs.Tests.{tiny_meaning, tiny_sound};

use box_split::BoxBuf;
use choice_rank::{Costs, Shape, VarShape};
use refusal::Refusal;
use refutation::{CheckFault, Node, Proof};
use res_base::Items;
use search_api::Reason;
use std::alloc::Global;
use std::test::Fail;
use tree_check::{Refuter, check};

// A choice is legal where its first position is not below the least.
#[derive(Drop)]
struct Tiny {
    shape: Shape,
    least: u16,
}

impl Refuter for Tiny {
    ghost meaning = { λ r. tiny_meaning r.shape r.least };

    ghost serves = { λ r. IsShape r.shape };

    fn shape(&self) -> &Shape {
        &self.shape
    }

    fn refutes(&self, _reason: Reason, b: &BoxBuf) -> bool {
        self.shape.vars().len() != 0 && b.hi[0] < self.least
    }

    fn meets(&self, at: &[u16]) -> bool {
        at.is_empty() || self.least <= at[0]
    }

    ghost sound = { λ r shaped. tiny_sound r.shape r.least shaped };
}

fn four_and_three(alloc: Global) -> Result<Shape, Fail> {
    let mut vars = Vec::new(alloc);
    vars.push(VarShape {
        size: 4,
        costs: Costs::HomeFirst,
    })?;
    vars.push(VarShape {
        size: 3,
        costs: Costs::HomeFirst,
    })?;
    Ok(Shape::new(alloc, vars)?)
}

// The answer for the tree of all choices from first position 1 on, whose least rank is 15.
fn answer(alloc: Global, bound: u64) -> Result<Result<Option<u64>, Refusal<CheckFault>>, Fail> {
    let shape = four_and_three(alloc)?;
    let _vars = shape.vars();
    let refuter = Tiny { shape, least: 1 };
    let nodes = [
        Node::Split {
            variable: 0,
            after: 0,
        },
        Node::Bad(Reason::Limit(3)),
        Node::Split {
            variable: 0,
            after: 1,
        },
        Node::Split {
            variable: 1,
            after: 0,
        },
        Node::Witness,
        Node::Rank,
        Node::Rank,
    ];
    let proof = Proof {
        bound: Some(bound),
        nodes: Items::of(Vec::from_slice(alloc, &nodes[..])?),
    };
    if proof.nodes.len() > 7 {
        return Ok(Ok(None));
    }
    Ok(check(alloc, &refuter, &proof))
}

#[test]
fn the_least_rank_is_accepted(rt: HostRuntime) -> Result<(), Fail> {
    assert_eq!(rt; answer(rt.alloc(), 15)?, Ok(Some(15)));
    Ok(())
}

#[test]
fn another_rank_is_refused_at_its_witness(rt: HostRuntime) -> Result<(), Fail> {
    assert_eq!(rt;
        answer(rt.alloc(), 14)?,
        Err(Refusal::Fault(CheckFault::Rejected { node: 4 }))
    );
    Ok(())
}
