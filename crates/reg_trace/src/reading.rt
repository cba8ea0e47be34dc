//! Flag answers read from a text.
ghost use Rattle.std.specs.Prelude.{◌≡◌, ◌++◌, [], ◌∷◌, replicate, OnOk};
ghost use Rattle.refusal.specs.Refusals.{Gives};
ghost use Rattle.text_lines.specs.Lines.{fields};
ghost use Rattle.reg_trace.specs.Reading.{answers_of, count_of, line_after, line_form, most, number_of};

use crate::fault::AnswerFault;
use crate::flags::flags_of;
use refusal::Refusal;
use reg_machine::Answer;
use res_base::parse_dec;
use std::alloc::{AllocError, Global};
use text_lines::{ended_line, first_field};

/// The most answers of a text, and the most steps of a run that is traced.
#[tactic(auto, unfolding(crate::specs::Reading::most))]
pub(crate) fn most() -> u32
    ensures is { result ≡ most }
    ensures value { result ≡ 1000000 }
{
    1_000_000
}

/// Equal answers, so many of them.
#[derive(Clone, Copy, Debug)]
pub(crate) struct Repeated {
    pub count: u32,
    pub answer: Answer,
}

/// Reads flag answers: a line for each so many equal ones, with their number and the letters of their flags, or `-`.
///
/// A text of another form is refused at its first line that breaks the form, or with which there are more than 1,000,000
/// answers. A line that has no end is refused too.
#[tactic(auto, unfolding(crate::specs::Reading::answers_of))]
pub fn read_answers(alloc: Global, text: &[u8]) -> Result<Vec<Answer>, Refusal<AnswerFault>>
    ensures { Gives (λ answers. answers.items) result (answers_of text.now) }
{
    let mut answers = Vec::new(alloc);
    let mut rest = text;
    let mut number = 1u32;
    let mut room = most();
    'lines: while !rest.is_empty() {
        let Some((line, others)) = ended_line(rest) else {
            return Err(Refusal::Fault(AnswerFault::Line { line: number }));
        };
        let Some(some) = repeated_of(line) else {
            return Err(Refusal::Fault(AnswerFault::Line { line: number }));
        };
        if room < some.count {
            return Err(Refusal::Fault(AnswerFault::Line { line: number }));
        }
        put_answers(&mut answers, some.count, some.answer)?;
        room -= some.count;
        rest = others;
        number = line_after(number);
    }
    Ok(answers)
}

/// Appends so many equal answers.
fn put_answers(answers: &mut Vec<Answer>, count: u32, answer: Answer) -> Result<(), AllocError>
    ensures { OnOk result (answers.new.items ≡ answers.old.items ++ replicate count answer) }
{
    for _k in 0..count {
        answers.push(answer)?;
    }
    Ok(())
}

/// The number of the next line. The greatest number that is told stands for all above it.
fn line_after(number: u32) -> u32
    ensures { result ≡ line_after number }
{
    number.saturating_add(1)
}

/// The answers that a line says, of two fields.
fn repeated_of(line: &[u8]) -> Option<Repeated>
    ensures { result ≡ line_form (fields line.now) }
{
    let (first, rest) = first_field(line);
    let (second, others) = first_field(rest?);
    match others {
        None => of_fields(first, second),
        Some(_) => None,
    }
}

/// So many answers with these flags.
fn of_fields(count: &[u8], flags: &[u8]) -> Option<Repeated>
    ensures { result ≡ line_form (count.now ∷ flags.now ∷ []) }
{
    let count = count_of(count)?;
    let answer = flags_of(flags)?;
    Some(Repeated { count, answer })
}

/// The number that a field says, from 1 to 1,000,000.
#[tactic(auto, unfolding(crate::specs::Reading::count_of))]
fn count_of(field: &[u8]) -> Option<u32>
    ensures { result ≡ count_of field.now }
{
    let number = number_of(field)?;
    if 1 <= number && number <= 1_000_000 {
        Some(number as u32)
    } else {
        None
    }
}

fn number_of(field: &[u8]) -> Option<u64>
    ensures { result ≡ number_of field.now }
{
    parse_dec(field)
}
