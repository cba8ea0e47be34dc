//! The text of a proof.
ghost use Rattle.std.specs.Prelude.{◌≡◌, ◌++◌, [], ◌∷◌, map, codes, decimal, OnOk, IfOk};
ghost use Rattle.refutation.specs.Forms.{SplitForm, members, form_of, form_of_reason};
ghost use Rattle.refutation.specs.Spelling.{class_text, spaced, form_text, forms_text, bound_text, spelling};

use crate::node::{Node, Proof};
use res_base::{OutOfMemory, VarSet, put_dec, put_line};
use search_api::{Class, Reason};
use std::alloc::Global;

/// The text of a proof: its first line, the bound, a line for each node, and the last line.
pub fn write_proof(alloc: Global, p: &Proof) -> Result<Vec<u8>, OutOfMemory>
    ensures { IfOk result (λ text. text.items ≡ spelling p.now.bound (map form_of p.now.nodes)) }
{
    let mut out = Vec::new(alloc);
    put_line(&mut out, b"proof 1")?;
    put_bound(alloc, &mut out, p.bound)?;
    put_nodes(alloc, &mut out, p.nodes.as_slice())?;
    put_line(&mut out, b"end")?;
    Ok(out)
}

/// The line of the bound.
fn put_bound(alloc: Global, out: &mut Vec<u8>, bound: Option<u64>) -> Result<(), OutOfMemory>
    ensures { OnOk result (out.new.items ≡ out.old.items ++ bound_text bound ++ 10 ∷ []) }
{
    match bound {
        None => put_line(out, b"bound none"),
        Some(rank) => {
            out.extend_from_slice(b"bound ")?;
            put_dec(alloc, out, rank)?;
            out.push(b'\n')?;
            Ok(())
        }
    }
}

/// A line for each node.
fn put_nodes(alloc: Global, out: &mut Vec<u8>, nodes: &[Node]) -> Result<(), OutOfMemory>
    ensures { OnOk result (out.new.items ≡ out.old.items ++ forms_text (map form_of nodes.now)) }
{
    for node in nodes {
        put_node(alloc, out, *node)?;
    }
    Ok(())
}

/// The line of a node.
fn put_node(alloc: Global, out: &mut Vec<u8>, node: Node) -> Result<(), OutOfMemory>
    ensures { OnOk result (out.new.items ≡ out.old.items ++ form_text (form_of node) ++ 10 ∷ []) }
{
    match node {
        Node::Split { variable, after } => put_split(alloc, out, variable, after),
        Node::Bad(reason) => put_reason(alloc, out, reason),
        Node::Rank => put_line(out, b"R"),
        Node::Witness => put_line(out, b"W"),
    }
}

/// The line of a split.
fn put_split(alloc: Global, out: &mut Vec<u8>, variable: u16, after: u16) -> Result<(), OutOfMemory>
    ensures { OnOk result (out.new.items ≡ out.old.items ++ form_text (SplitForm variable after) ++ 10 ∷ []) }
{
    out.push(b'S')?;
    put_spaced(alloc, out, u64::from(variable))?;
    put_spaced(alloc, out, u64::from(after))?;
    out.push(b'\n')?;
    Ok(())
}

/// The line of a reason.
fn put_reason(alloc: Global, out: &mut Vec<u8>, reason: Reason) -> Result<(), OutOfMemory>
    ensures { OnOk result (out.new.items ≡ out.old.items ++ form_text (form_of_reason reason) ++ 10 ∷ []) }
{
    match reason {
        Reason::Hall { class, vars } => {
            out.extend_from_slice(class_text(class))?;
            put_members(alloc, out, &vars)?;
            out.push(b'\n')?;
            Ok(())
        }
        Reason::Limit(limit) => {
            out.push(b'L')?;
            put_spaced(alloc, out, u64::from(limit))?;
            out.push(b'\n')?;
            Ok(())
        }
    }
}

fn class_text(class: Class) -> &'static [u8]
    ensures { result.now ≡ class_text class }
{
    match class {
        Class::Pins => b"H pins",
        Class::Exti => b"H exti",
    }
}

/// The members of a set, ascending, each after a space.
fn put_members(alloc: Global, out: &mut Vec<u8>, vars: &VarSet) -> Result<(), OutOfMemory>
    ensures { OnOk result (out.new.items ≡ out.old.items ++ spaced (members vars.now)) }
{
    let mut from = 0;
    while let Some(v) = vars.next_from(from) {
        put_spaced(alloc, out, u64::from(v))?;
        from = v + 1;
    }
    Ok(())
}

/// A number after a space.
fn put_spaced(alloc: Global, out: &mut Vec<u8>, n: u64) -> Result<(), OutOfMemory>
    ensures { OnOk result (out.new.items ≡ out.old.items ++ 32 ∷ decimal n) }
{
    out.push(b' ')?;
    put_dec(alloc, out, n)?;
    Ok(())
}
