//! A proof, from its text.
ghost use Rattle.std.specs.Prelude.{◌≡◌, ◌==◌, ℕ, ◌+◌, ◌<◌, ◌≤◌, ◌^◌, List, [], ◌∷◌, map, length, position, true, IfSome, IfNone, IfOk, IfErr, MatchOption, Some, None};
ghost use Rattle.std.specs.Option.{option_map, option_copied};
ghost use Rattle.res_base.specs.VarSet.{in_set, NoneFrom};
ghost use Rattle.refutation.specs.Forms.{form_of, due_after, Joins};
ghost use Rattle.refutation.specs.Reading.{lines_of, line_after, HasNoEnd, fields, more_fields, number_of, number_below, number_from, split_form, limit_form, hall_form, form_of_text, bound_of_text, with_bound, forms_from, bound_from, proof_of};
ghost use Rattle.refusal.specs.Refusals.{Refuses, Gives};

use crate::node::{Node, Proof, ProofFault};
use refusal::Refusal;
use res_base::{Items, VarSet, parse_dec};
use search_api::{Class, Reason};
use std::alloc::Global;

/// Reads a proof's text. Lines that stand before it are passed over.
///
/// A text that spells no proof is refused at its first line that is not of a form due there. A
/// line that has no end is refused too. Where a line is due and the text has come to its end, the
/// refusal names the number after the last line's. A number above 4,294,967,295 is told as that one.
pub fn read_proof(alloc: Global, text: &[u8]) -> Result<Proof, Refusal<ProofFault>>
    requires { length text.now < 2 ^ 32 }
    ensures { Gives (λ p. (p.bound, map form_of p.nodes)) result (proof_of text.now) }
{
    let (number, rest) = after_first_line(text)?;
    let (bound, rest) = bound_in(number, rest)?;
    let nodes = nodes_in(alloc, line_after(number), rest)?;
    Ok(Proof {
        bound,
        nodes: Items::of(nodes),
    })
}

/// What follows a proof's first line, and the number of the line there.
#[tactic(auto, unfolding(crate::specs::Reading::proof_of))]
fn after_first_line(text: &[u8]) -> Result<(u32, &[u8]), Refusal<ProofFault>>
    ensures found { IfOk result (λ x. proof_of text.now ≡ bound_from x.0 (lines_of x.1.now)) }
    ensures shorter { IfOk result (λ x. length x.1.now ≤ length text.now) }
    ensures refused { IfErr result (λ e. Refuses e (proof_of text.now)) }
{
    let mut rest = text;
    let mut number = 1u32;
    'skip: while !rest.is_empty() {
        let (line, ended, others) = first_line(rest);
        if line == b"proof 1".as_slice() {
            return if ended {
                Ok((line_after(number), others))
            } else {
                Err(Refusal::Fault(ProofFault::Line { line: number }))
            };
        }
        rest = others;
        number = line_after(number);
    }
    Err(Refusal::Fault(ProofFault::Line { line: number }))
}

/// The bound of the first line, and what follows the line.
fn bound_in(number: u32, text: &[u8]) -> Result<(Option<u64>, &[u8]), Refusal<ProofFault>>
    ensures found { IfOk result (λ x. bound_from number (lines_of text.now) ≡ with_bound x.0 (forms_from (line_after number) 1 (lines_of x.1.now))) }
    ensures shorter { IfOk result (λ x. length x.1.now ≤ length text.now) }
    ensures refused { IfErr result (λ e. Refuses e (bound_from number (lines_of text.now))) }
{
    let fault = Refusal::Fault(ProofFault::Line { line: number });
    let Some((line, rest)) = ended_line(text) else {
        return Err(fault);
    };
    match bound_of(line) {
        Some(bound) => Ok((bound, rest)),
        None => Err(fault),
    }
}

/// The nodes of one tree, a line each, before the last line.
fn nodes_in(alloc: Global, first: u32, text: &[u8]) -> Result<Vec<Node>, Refusal<ProofFault>>
    requires { length text.now < 2 ^ 32 }
    ensures { Gives (λ nodes. map form_of nodes.items) result (forms_from first 1 (lines_of text.now)) }
{
    let mut nodes = Vec::new(alloc);
    let mut rest = text;
    let mut number = first;
    let mut due = 1u64;
    while due > 0 {
        let Some((line, others)) = ended_line(rest) else {
            return Err(Refusal::Fault(ProofFault::Line { line: number }));
        };
        let Some(node) = node_of(line) else {
            return Err(Refusal::Fault(ProofFault::Line { line: number }));
        };
        nodes.push(node)?;
        due = due_after(due, node);
        rest = others;
        number = line_after(number);
    }
    last_line(number, rest)?;
    Ok(nodes)
}

/// The number of the next line. The greatest number that is told stands for all above it.
fn line_after(number: u32) -> u32
    ensures { result ≡ line_after number }
{
    number.saturating_add(1)
}

/// How many trees are due after a node.
fn due_after(due: u64, node: Node) -> u64
    requires { due + 1 < 2 ^ 64 }
    ensures { result ≡ due_after due (form_of node) }
{
    match node {
        Node::Split { .. } => due + 1,
        _ => due.saturating_sub(1),
    }
}

/// Whether the last line of a proof stands here, and nothing after it.
fn last_line(number: u32, text: &[u8]) -> Result<(), Refusal<ProofFault>>
    ensures { Gives (λ _. []) result (forms_from number 0 (lines_of text.now)) }
{
    let Some((line, rest)) = ended_line(text) else {
        return Err(Refusal::Fault(ProofFault::Line { line: number }));
    };
    if line != b"end".as_slice() {
        return Err(Refusal::Fault(ProofFault::Line { line: number }));
    }
    if rest.is_empty() {
        Ok(())
    } else {
        Err(Refusal::Fault(ProofFault::Line {
            line: line_after(number),
        }))
    }
}

/// The first line, if it has an end, and what follows it.
fn ended_line(text: &[u8]) -> Option<(&[u8], &[u8])>
    ensures line { IfSome result (λ x. lines_of text.now ≡ record { text = x.0.now; ended = true } ∷ lines_of x.1.now) }
    ensures shorter { IfSome result (λ x. 1 + length x.1.now ≤ length text.now) }
    ensures none { IfNone result (HasNoEnd (lines_of text.now)) }
{
    if text.is_empty() {
        return None;
    }
    let (line, ended, rest) = first_line(text);
    if ended { Some((line, rest)) } else { None }
}

/// The first line of a text that is not empty, whether it has an end, and what follows it.
fn first_line(text: &[u8]) -> (&[u8], bool, &[u8])
    requires { 0 < length text.now }
    ensures line { lines_of text.now ≡ record { text = result.0.now; ended = result.1 } ∷ lines_of result.2.now }
    ensures shorter { 1 + length result.2.now ≤ length text.now }
{
    match place_of(b'\n', text) {
        Some(at) => (&text[..at], true, &text[at + 1..]),
        None => (text, false, &[]),
    }
}

/// The bound that a line states.
#[tactic(auto, unfolding(crate::specs::Reading::bound_of_text))]
fn bound_of(line: &[u8]) -> Option<Option<u64>>
    ensures { result ≡ bound_of_text line.now }
{
    if line == b"bound none".as_slice() {
        Some(None)
    } else if line.starts_with(b"bound ") {
        match number_below(1 << 63, &line[6..]) {
            Some(rank) => Some(Some(rank)),
            None => None,
        }
    } else {
        None
    }
}

/// The node that a line names.
#[tactic(auto, unfolding(crate::specs::Reading::form_of_text))]
fn node_of(line: &[u8]) -> Option<Node>
    ensures { option_map form_of result ≡ form_of_text line.now }
{
    if line == b"R".as_slice() {
        Some(Node::Rank)
    } else if line == b"W".as_slice() {
        Some(Node::Witness)
    } else if line.starts_with(b"S ") {
        split_of(&line[2..])
    } else if line.starts_with(b"L ") {
        limit_of(&line[2..])
    } else if line.starts_with(b"H pins ") {
        hall_of(Class::Pins, &line[7..])
    } else if line.starts_with(b"H exti ") {
        hall_of(Class::Exti, &line[7..])
    } else {
        None
    }
}

/// A split, of two fields.
fn split_of(text: &[u8]) -> Option<Node>
    ensures { option_map form_of result ≡ split_form (fields text.now) }
{
    let (first, rest) = first_field(text);
    let (second, others) = first_field(rest?);
    match others {
        None => split_after(first, second),
        Some(_) => None,
    }
}

/// The split of a variable after a position.
fn split_after(variable: &[u8], after: &[u8]) -> Option<Node>
    ensures { option_map form_of result ≡ split_form (variable.now ∷ after.now ∷ []) }
{
    let variable = number_below(170, variable)? as u16;
    let after = number_below(512, after)? as u16;
    Some(Node::Split { variable, after })
}

/// A limit, of one field.
#[tactic(auto, unfolding(crate::specs::Reading::limit_form))]
fn limit_of(field: &[u8]) -> Option<Node>
    ensures { option_map form_of result ≡ limit_form field.now }
{
    let limit = number_from(3, 18, field)? as u8;
    Some(Node::Bad(Reason::Limit(limit)))
}

/// A set of variables that ascend, one or more of them.
fn hall_of(class: Class, text: &[u8]) -> Option<Node>
    ensures { option_map form_of result ≡ hall_form class (fields text.now) }
{
    let mut vars = VarSet::new();
    let mut least = 0u8;
    let mut rest = Some(text);
    while let Some(text) = rest {
        let (field, others) = first_field(text);
        let Some(v) = put_next(&mut vars, least, field) else {
            return None;
        };
        least = v + 1;
        rest = others;
    }
    Some(Node::Bad(Reason::Hall { class, vars }))
}

/// Puts the variable that a field names into a set whose members are all below a least one.
fn put_next(vars: &mut VarSet, least: u8, field: &[u8]) -> Option<u8>
    requires { NoneFrom (in_set vars.old) least }
    ensures { MatchOption result (number_from least 170 field.now ≡ None) (λ v. (v < 170) × (number_from least 170 field.now ≡ Some v) × Joins vars.old vars.new least v) }
{
    let v = number_from(u64::from(least), 170, field)? as u8;
    vars.put(v);
    Some(v)
}

/// The field before the first space, and what follows the space where there is one.
fn first_field(text: &[u8]) -> (&[u8], Option<&[u8]>)
    ensures field { fields text.now ≡ result.0.now ∷ more_fields (option_copied result.1) }
    ensures shorter { IfSome result.1 (λ rest. length rest.now < length text.now) }
{
    match place_of(b' ', text) {
        Some(at) => (&text[..at], Some(&text[at + 1..])),
        None => (text, None),
    }
}

/// The place of the first such byte.
fn place_of(byte: u8, text: &[u8]) -> Option<usize>
    ensures { result ≡ position (λ b. b == byte) text.now }
{
    text.iter().position(|b| *b == byte)
}

fn number_of(field: &[u8]) -> Option<u64>
    ensures { result ≡ number_of field.now }
{
    parse_dec(field)
}

/// A number below a limit.
#[tactic(auto, unfolding(crate::specs::Reading::number_below))]
fn number_below(most: u64, field: &[u8]) -> Option<u64>
    ensures number { result ≡ number_below most field.now }
    ensures below { IfSome result (λ n. n < most) }
{
    let number = number_of(field)?;
    if number < most { Some(number) } else { None }
}

/// A number below a limit, from a least one on.
#[tactic(auto, unfolding(crate::specs::Reading::number_from))]
fn number_from(least: u64, most: u64, field: &[u8]) -> Option<u64>
    ensures number { result ≡ number_from least most field.now }
    ensures least { IfSome result (λ n. least ≤ n) }
    ensures below { IfSome result (λ n. n < most) }
{
    let number = number_below(most, field)?;
    if least <= number { Some(number) } else { None }
}
