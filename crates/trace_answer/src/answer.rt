//! The answer.
ghost use Rattle.std.specs.Prelude.{◌≡◌, ◌+◌, ◌<◌, ◌^◌, length, IfOk};
ghost use Rattle.res_base.specs.Lists.{Each};
ghost use Rattle.reg_machine.specs.Words.{IsOp};
ghost use Rattle.c_print.specs.Reading.{FitsLine};
ghost use Rattle.trace_answer.specs.Due.{OfAnswers, OfRun, OfTrace};

use crate::part::part_of;
use answers::{Answer, Status, counts, says};
use c_print::{CFault, read_c};
use refusal::Refusal;
use reg_machine::{Op, Target};
use reg_trace::{AnswerFault, TraceFault, read_answers, trace};
use res_base::{Items, OutOfMemory};
use res_model::Tables;
use std::alloc::Global;

/// The number of a line of the file, from its number in a part behind so many lines.
fn in_file(before: usize, line: u32) -> u64
    requires { before < 2 ^ 32 }
    ensures { result ≡ before + line }
{
    before as u64 + u64::from(line)
}

fn widened(line: u32) -> u64
    ensures { result ≡ line }
{
    u64::from(line)
}

/// The first line at which a text is no list of flag answers.
fn answers_line(fault: AnswerFault) -> u32
    ensures { fault ≡ AnswerFault.Line result }
{
    match fault {
        AnswerFault::Line { line } => line,
    }
}

/// The first line at which a text is no C text of accesses.
fn c_line(fault: CFault) -> u32
    ensures { fault ≡ CFault.Line result }
{
    match fault {
        CFault::Line { line } => line,
    }
}

/// The trace of accesses, for flag answers.
fn shown(
    alloc: Global,
    t: &Tables,
    want: &Target,
    ops: &[Op],
    answers: &[reg_machine::Answer],
) -> Result<Answer, OutOfMemory>
    requires hse { want.now.facts.hse_hz < 2 ^ 32 }
    requires ops { Each IsOp ops.now }
    ensures { IfOk result (OfRun t.now want.now ops.now answers.now) }
{
    match trace(alloc, t, want, ops, answers) {
        Ok(text) => Ok(Answer {
            status: Status::Done,
            text: Items::of(text),
        }),
        Err(Refusal::Fault(TraceFault::Long)) => says(alloc, Status::TraceTooLong, "trace: long"),
        Err(Refusal::OutOfMemory) => Err(OutOfMemory),
    }
}

/// The trace of accesses, for the flag answers that a text says.
fn traced(
    alloc: Global,
    t: &Tables,
    want: &Target,
    ops: &[Op],
    answers: &[u8],
) -> Result<Answer, OutOfMemory>
    requires hse { want.now.facts.hse_hz < 2 ^ 32 }
    requires ops { Each IsOp ops.now }
    ensures { IfOk result (OfAnswers t.now want.now ops.now answers.now) }
{
    match read_answers(alloc, answers) {
        Ok(list) => shown(alloc, t, want, ops, list.as_slice()),
        Err(Refusal::Fault(fault)) => counts(
            alloc,
            Status::AnswersRefused,
            "answers: line ",
            widened(answers_line(fault)),
        ),
        Err(Refusal::OutOfMemory) => Err(OutOfMemory),
    }
}

/// That accesses that have lines are of registers that there are.
fn are_ops(ops: &[Op])
    requires { Each FitsLine ops.now }
    ensures { Each IsOp ops.now }
{
    let _ = ops;
}

/// What a C text in a file shows on the machine from reset, where a table and a target hold, for the flag answers that a text
/// says; or where the C text or the answers are refused, or that the run is too long.
pub fn trace_answer(
    alloc: Global,
    t: &Tables,
    want: &Target,
    file: &[u8],
    answers: &[u8],
) -> Result<Answer, OutOfMemory>
    requires hse { want.now.facts.hse_hz < 2 ^ 32 }
    requires few { length file.now < 2 ^ 32 }
    ensures { IfOk result (OfTrace t.now want.now file.now answers.now) }
{
    let (before, part) = part_of(file);
    match read_c(alloc, part) {
        Ok(ops) => {
            are_ops(ops.as_slice());
            traced(alloc, t, want, ops.as_slice(), answers)
        }
        Err(Refusal::Fault(fault)) => counts(
            alloc,
            Status::CTextRefused,
            "c: line ",
            in_file(before, c_line(fault)),
        ),
        Err(Refusal::OutOfMemory) => Err(OutOfMemory),
    }
}
