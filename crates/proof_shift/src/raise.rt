//! A proof over a problem of pins, told over the problem that has ten clock variables before them.
ghost use Rattle.std.specs.Prelude.{◌≡◌, ◌≤◌, ◌<◌, ◌+◌, ◌&&◌, ◌==◌, ℕ, true, map, IfOk};
ghost use Rattle.res_base.specs.Lists.{Each};
ghost use Rattle.res_base.specs.VarSet.{in_set, IsWords};
ghost use Rattle.pin_match.specs.Hall.{any_below};
ghost use Rattle.proof_shift.specs.Raised.{IsLow, IsLowReason, IsLowSet, raised_node, raised_proof, raised_reason, raised_set};

use refutation::{Node, Proof};
use res_base::{Items, OutOfMemory, VarSet};
use search_api::Reason;
use std::alloc::Global;

/// The members below a number, each with ten added.
fn gathered(vars: &VarSet, below: u8) -> VarSet
    requires { below ≤ 182 }
    ensures { (v : ℕ) → in_set result v ≡ any_below below (λ u. in_set vars.now u && (u + 10 == v)) }
{
    let mut found = VarSet::new();
    for u in 0..below {
        if vars.has(u) {
            found.put(u + 10);
        }
    }
    found
}

/// The same with what the type of a set keeps.
fn moved(vars: &VarSet, below: u8) -> VarSet
    requires { below ≤ 182 }
    ensures set { (v : ℕ) → in_set result v ≡ any_below below (λ u. in_set vars.now u && (u + 10 == v)) }
    ensures words { IsWords result }
{
    gathered(vars, below)
}

fn raised_set(vars: &VarSet) -> VarSet
    requires { IsLowSet vars.now }
    ensures { result ≡ raised_set vars.now }
{
    moved(vars, 160)
}

fn raised_reason(reason: Reason) -> Reason
    requires { IsLowReason reason }
    ensures { result ≡ raised_reason reason }
{
    match reason {
        Reason::Hall { class, vars } => Reason::Hall {
            class,
            vars: raised_set(&vars),
        },
        Reason::Limit(limit) => Reason::Limit(limit),
    }
}

fn raised_node(node: Node) -> Node
    requires { IsLow node }
    ensures { result ≡ raised_node node }
{
    match node {
        Node::Split { variable, after } => Node::Split {
            variable: variable + 10,
            after,
        },
        Node::Bad(reason) => Node::Bad(raised_reason(reason)),
        Node::Rank => Node::Rank,
        Node::Witness => Node::Witness,
    }
}

fn raised_nodes(alloc: Global, nodes: &[Node]) -> Result<Items<Node>, OutOfMemory>
    requires { Each IsLow nodes.now }
    ensures { IfOk result (λ ns. ns ≡ map raised_node nodes.now) }
{
    let mut found = Vec::with_capacity(alloc, nodes.len())?;
    for k in 0..nodes.len() {
        found.push(raised_node(nodes[k]))?;
    }
    Ok(Items::of(found))
}

/// The proof with ten added to the number of each variable.
pub fn raised(alloc: Global, proof: Proof) -> Result<Proof, OutOfMemory>
    requires { Each IsLow proof.nodes }
    ensures { IfOk result (λ r. r ≡ raised_proof proof) }
{
    let nodes = raised_nodes(alloc, proof.nodes.as_slice())?;
    Ok(Proof {
        bound: proof.bound,
        nodes,
    })
}
