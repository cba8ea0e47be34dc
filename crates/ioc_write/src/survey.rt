//! What the keys of a text say together.
ghost use Rattle.std.specs.Prelude.{◌≡◌, ◌<◌, ◌≤◌, ◌+◌, ◌^◌, ◌++◌, max, length, Some, IfOk, OnOk, IfSome};
ghost use Rattle.std.specs.Option.{option_to_list};
ghost use Rattle.ioc_text.specs.Lines.{pin_number};
ghost use Rattle.ioc_lines.specs.Lines.{keyed, text_lines};
ghost use Rattle.ioc_write.specs.Survey.{IsSurvey, above};
ghost use Rattle.ioc_write.specs.WriteBack.{number_on, variable_on};

use crate::keys::key_into;
use crate::lines::first_line;
use crate::variable::{Variable, variable_of};
use ioc_text::pin_number;
use res_base::{Items, OutOfMemory};
use std::alloc::Global;

/// The number of keys `Mcu.Pin<k>` of a text and the greatest k, and the clock variables that have a key.
#[derive(Drop)]
pub(crate) struct Survey {
    pub(crate) pins: u64,
    pub(crate) last: Option<u64>,
    pub(crate) variables: Items<Variable>,
}

/// What the key of a line says.
#[derive(Clone, Copy)]
struct Seen {
    number: Option<u64>,
    variable: Option<Variable>,
}

fn seen_on(key: &mut Vec<u8>, says: &[u8]) -> Result<Seen, OutOfMemory>
    ensures number { IfOk result (λ s. s.number ≡ number_on (keyed says.now)) }
    ensures variable { IfOk result (λ s. s.variable ≡ variable_on (keyed says.now)) }
{
    match key_into(key, says)? {
        Some(_) => Ok(Seen {
            number: pin_number(key.as_slice()),
            variable: variable_of(key.as_slice()),
        }),
        None => Ok(Seen {
            number: None,
            variable: None,
        }),
    }
}

/// The greater of a number and the greatest before.
fn greater(last: Option<u64>, number: u64) -> u64
    ensures { above (Some result) ≡ max (number + 1) (above last) }
{
    match last {
        Some(before) => before.max(number),
        None => number,
    }
}

fn put_variable(
    variables: &mut Vec<Variable>,
    variable: Option<Variable>,
) -> Result<(), OutOfMemory>
    ensures { OnOk result (variables.new.items ≡ variables.old.items ++ option_to_list variable) }
{
    if let Some(v) = variable {
        variables.push(v)?;
    }
    Ok(())
}

/// What the keys of a text say together.
pub(crate) fn survey_of(alloc: Global, text: &[u8]) -> Result<Survey, OutOfMemory>
    requires { length text.now < 2 ^ 32 }
    ensures survey { IfOk result (λ s. IsSurvey (text_lines text.now) s) }
    ensures few { IfOk result (λ s. s.pins < 2 ^ 32) }
{
    let mut variables = Vec::new(alloc);
    let mut key = Vec::new(alloc);
    let mut pins = 0u64;
    let mut last = None;
    let mut rest = text;
    'read: while !rest.is_empty() {
        let (says, _, others) = first_line(rest);
        rest = others;
        let seen = seen_on(&mut key, says)?;
        put_variable(&mut variables, seen.variable)?;
        if let Some(number) = seen.number {
            pins += 1;
            last = Some(greater(last, number));
        }
    }
    Ok(Survey {
        pins,
        last,
        variables: Items::of(variables),
    })
}
