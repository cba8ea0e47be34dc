//! Refutations as texts, the first faulty line of one, and the canonical one of a single choice.
ghost use Rattle.std.specs.Prelude.{◌≡◌, IfOk, [], ◌∷◌, Some};
ghost use Rattle.refutation.specs.Outcomes.{IsCovered};

use choice_rank::{Shape, ShapeFault};
use refusal::Refusal;
use refutation::{Node, Proof, ProofFault, canonical, read_proof, write_proof};
use res_base::{Items, OutOfMemory, VarSet};
use search_api::{Cause, Class, Closed, Outcome, Reason};
use std::alloc::Global;
use std::test::Fail;

const TEXT: &[u8] = b"proof 1\nbound 5\nS 12 381\nH exti 3 10\nS 0 0\nL 7\nS 1 2\nR\nW\nend\n";

fn worked(alloc: Global) -> Result<Proof, Fail> {
    let mut vars = VarSet::new();
    vars.put(10);
    vars.put(3);
    let class = Class::Exti;
    let mut nodes = Vec::new(alloc);
    for node in [
        Node::Split {
            variable: 12,
            after: 381,
        },
        Node::Bad(Reason::Hall { class, vars }),
        Node::Split {
            variable: 0,
            after: 0,
        },
        Node::Bad(Reason::Limit(7)),
        Node::Split {
            variable: 1,
            after: 2,
        },
        Node::Rank,
        Node::Witness,
    ] {
        nodes.push(node)?;
    }
    Ok(Proof {
        bound: Some(5),
        nodes: Items::of(nodes),
    })
}

#[test]
fn a_proof_is_written(rt: HostRuntime) -> Result<(), Fail> {
    let proof = worked(rt.alloc())?;
    let text = write_proof(rt.alloc(), &proof)?;
    assert_eq!(rt; text.as_slice(), TEXT);
    Ok(())
}

#[test]
fn a_proof_is_read_behind_other_lines(rt: HostRuntime) -> Result<(), Fail> {
    let mut text = Vec::new(rt.alloc());
    text.extend_from_slice(b"rank 5 cost 1 of 12\n\n proof 1\n")?;
    text.extend_from_slice(TEXT)?;
    let few = text.len() < 1000;
    assert!(rt; few);
    let proof = read_proof(rt.alloc(), text.as_slice())?;
    let expected = worked(rt.alloc())?;
    assert_eq!(rt; proof.bound, expected.bound);
    assert_eq!(rt; proof.nodes.as_slice(), expected.nodes.as_slice());
    Ok(())
}

#[test]
fn the_first_faulty_line_is_named(rt: HostRuntime) -> Result<(), Fail> {
    let cases: [(&str, u32); 22] = [
        ("", 1),
        ("abc", 2),
        ("abc\n", 2),
        ("proof 1", 1),
        ("proof 1\n", 2),
        ("proof 1\r\n", 2),
        ("proof 1\nbound 01\n", 2),
        ("proof 1\nbound 9223372036854775808\n", 2),
        ("proof 1\nbound none\nend\n", 3),
        ("proof 1\nbound none\nS 0 0\nR\n", 5),
        ("proof 1\nbound none\nR\nR\nend\n", 4),
        ("proof 1\nbound none\nR\nend", 4),
        ("proof 1\nbound none\nR\nend\n\n", 5),
        ("proof 1\nbound none\nR \nend\n", 3),
        ("proof 1\nbound none\nS 170 0\n", 3),
        ("proof 1\nbound none\nS 0 512\n", 3),
        ("proof 1\nbound none\nS 0 0 0\n", 3),
        ("proof 1\nbound none\nL 2\n", 3),
        ("proof 1\nbound none\nL 18\n", 3),
        ("proof 1\nbound none\nH pins\n", 3),
        ("proof 1\nbound none\nH pins 3 3\n", 3),
        ("proof 1\nbound none\nH pins 3  4\n", 3),
    ];
    for (text, line) in cases {
        let few = text.len() < 1000;
        assert!(rt; few);
        match read_proof(rt.alloc(), text.as_bytes()) {
            Ok(_) => return Err(Fail::from("a faulty text is read")),
            Err(fault) => assert_eq!(rt;
                fault,
                Refusal::Fault(ProofFault::Line { line }),
                "{text}"
            ),
        }
    }
    Ok(())
}

// Where there are no variables there is one choice, and here it is legal.
fn one_leaf(alloc: Global) -> Result<Outcome, Fail>
    ensures { IfOk result (λ o. IsCovered [] o.best o.kept o.closed) }
{
    let mut kept = Items::of(Vec::new(alloc));
    kept.push(0)?;
    let mut closed = Items::of(Vec::new(alloc));
    closed.push(Closed {
        worker: 0,
        path: 1,
        cause: Cause::Leaf { rank: 0 },
    })?;
    Ok(Outcome {
        best: Some(0),
        kept,
        closed,
    })
}

fn no_variables(alloc: Global) -> Result<Shape, Fail>
    ensures { IfOk result (λ s. s ≡ []) }
{
    Ok(Shape::new(alloc, Vec::new(alloc))?)
}

#[test]
fn one_choice_is_its_own_witness(rt: HostRuntime) -> Result<(), Fail> {
    let shape = no_variables(rt.alloc())?;
    let outcome = one_leaf(rt.alloc())?;
    let proof = canonical(rt.alloc(), &shape, &outcome)?;
    assert_eq!(rt; proof.bound, Some(0));
    assert_eq!(rt; proof.nodes.as_slice(), &[Node::Witness][..]);
    Ok(())
}
