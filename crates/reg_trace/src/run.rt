//! A run from reset, traced.
ghost use Rattle.std.specs.Prelude.{◌≡◌, ◌<◌, ◌^◌, ◌∷◌, drop, get_or, length, IfOk};
ghost use Rattle.res_base.specs.Lists.{Each};
ghost use Rattle.refusal.specs.Refusals.{Gives};
ghost use Rattle.reg_machine.specs.Legal.{is_legal};
ghost use Rattle.reg_machine.specs.Run.{silent};
ghost use Rattle.reg_machine.specs.Words.{IsOp};
ghost use Rattle.reg_trace.specs.Trace.{trace_of};
ghost use Rattle.reg_trace.specs.Turn.{IsShown, Traces};

use crate::fault::TraceFault;
use crate::flags::silent;
use crate::lines::{put_done, put_step, seen_of};
use crate::reading::most;
use crate::turn::{Turn, fine_after, goes_on, number_after, take_turn, todo_after};
use refusal::Refusal;
use reg_machine::{Answer, Machine, Op, Target};
use res_base::OutOfMemory;
use res_model::Tables;
use std::alloc::Global;

/// The next answer. Past the end of the list no flag comes.
fn next_answer(answers: &[Answer]) -> Answer
    ensures { result ≡ get_or answers.now 0 silent }
{
    if answers.is_empty() {
        silent()
    } else {
        answers[0]
    }
}

/// The answers behind the next one.
fn later_answers(answers: &[Answer]) -> &[Answer]
    ensures { result.now ≡ drop 1 answers.now }
{
    if answers.is_empty() {
        answers
    } else {
        &answers[1..]
    }
}

/// The next access of a list that has one.
fn next_op(ops: &[Op]) -> Op
    requires some { 0 < length ops.now }
    requires there { Each IsOp ops.now }
    ensures is { ops.now ≡ result ∷ drop 1 ops.now }
    ensures there { IsOp result }
    ensures others { Each IsOp (drop 1 ops.now) }
{
    ops[0]
}

/// One step, with its line if it has one. What is known is whether the state before it is legal.
fn shown_turn(
    m: &mut Machine,
    op: &Op,
    a: Answer,
    number: u32,
    fine: bool,
    legal: bool,
    out: &mut Vec<u8>,
) -> Result<Turn, OutOfMemory>
    requires op { IsOp op.now }
    requires legal { legal ≡ is_legal m.old.table m.old.want m.old.state }
    ensures { IfOk result (λ turn. IsShown m.old op.now a number fine m.new turn out.old.items out.new.items) }
{
    let turn = take_turn(m, op, a, fine, legal);
    let seen = seen_of(m, op);
    put_step(out, number, seen, turn)?;
    Ok(turn)
}

/// Appends what a run from a machine's state shows.
fn put_run(
    m: &mut Machine,
    ops: &[Op],
    answers: &[Answer],
    out: &mut Vec<u8>,
) -> Result<(), Refusal<TraceFault>>
    requires { Each IsOp ops.now }
    ensures { Traces m.old ops.now answers.now out.old.items out.new.items result }
{
    let mut fine = m.legal();
    let mut legal = fine;
    let mut todo = ops;
    let mut coming = answers;
    let mut number = 1u32;
    let mut left = most();
    'steps: while !todo.is_empty() {
        if left == 0 {
            return Err(Refusal::Fault(TraceFault::Long));
        }
        let op = next_op(todo);
        let turn = shown_turn(m, &op, next_answer(coming), number, fine, legal, out)?;
        if !goes_on(turn.stepped) {
            return Ok(());
        }
        number = number_after(turn.stepped, number);
        fine = fine_after(turn.stepped, turn.fine);
        legal = turn.legal;
        todo = todo_after(turn.stepped, todo);
        coming = later_answers(coming);
        left -= 1;
    }
    put_done(out, fine)?;
    Ok(())
}

/// What a run from reset shows, for a list of flag answers: a line for each access that is done, with its number, its
/// register's address and word, the source and the latency in effect, and whether each state since the line before is legal;
/// and the line of how the run ended.
///
/// A run of more than 1,000,000 steps is refused. Each poll of an await is a step.
pub fn trace(
    alloc: Global,
    t: &Tables,
    want: &Target,
    ops: &[Op],
    answers: &[Answer],
) -> Result<Vec<u8>, Refusal<TraceFault>>
    requires hse { want.now.facts.hse_hz < 2 ^ 32 }
    requires ops { Each IsOp ops.now }
    ensures { Gives (λ text. text.items) result (trace_of t.now want.now ops.now answers.now) }
{
    let mut machine = Machine::reset(alloc, t, want)?;
    let mut out = Vec::new(alloc);
    match put_run(&mut machine, ops, answers, &mut out) {
        Ok(()) => Ok(out),
        Err(fault) => Err(fault),
    }
}
