//! The words of each command.
ghost use Rattle.std.specs.Prelude.{◌≡◌, map, string_bytes, IfOk};
ghost use Rattle.refusal.specs.Refusals.{Gives};
ghost use Rattle.cmd_words.specs.Words.{check_takes, case_takes, tree_takes, check_of, case_of, can_of, i2s_of, trace_of, command_of, IsWithinLimits};

use crate::command::Command;
use crate::fault::UsageFault;
use crate::given::Flag;
use crate::on_projects::{
    COMMON, read_board, read_explain, read_ioc, read_pins, read_resolve, read_tree,
};
use crate::options::{opts_of, read_options, worker_count};
use crate::requests::read_dma;
use crate::values::{allowed, number_of, point_of, rate_of, sample_rate_of, tolerance_of};
use refusal::Refusal;
use res_base::Text;
use std::alloc::Global;

const CASE: [Flag; 1] = [Flag::Workers];

const TRACE: [Flag; 1] = [Flag::Vdd];

/// Commands without options.
const NONE: [Flag; 0] = [];

fn read_check(alloc: Global, words: &[String]) -> Result<Command, Refusal<UsageFault>>
    ensures gives { Gives (λ c. c) result (check_of (map string_bytes words.now)) }
    ensures limits { IfOk result IsWithinLimits }
{
    let [tables, project, proof, words @ ..] = words else {
        return Err(Refusal::Fault(UsageFault::Word {
            word: words.len() + 2,
        }));
    };
    let given = read_options(alloc, &COMMON, words, 5)?;
    Ok(Command::Check {
        tables: Text::copy(alloc, tables.as_str())?,
        project: Text::copy(alloc, project.as_str())?,
        proof: Text::copy(alloc, proof.as_str())?,
        opts: opts_of(given),
    })
}

fn read_trace(alloc: Global, words: &[String]) -> Result<Command, Refusal<UsageFault>>
    ensures gives { Gives (λ c. c) result (trace_of (map string_bytes words.now)) }
    ensures limits { IfOk result IsWithinLimits }
{
    let [tables, project, c, answers, words @ ..] = words else {
        return Err(Refusal::Fault(UsageFault::Word {
            word: words.len() + 2,
        }));
    };
    let given = read_options(alloc, &TRACE, words, 6)?;
    Ok(Command::Trace {
        tables: Text::copy(alloc, tables.as_str())?,
        project: Text::copy(alloc, project.as_str())?,
        c: Text::copy(alloc, c.as_str())?,
        answers: Text::copy(alloc, answers.as_str())?,
        opts: opts_of(given),
    })
}

fn read_case(alloc: Global, words: &[String]) -> Result<Command, Refusal<UsageFault>>
    ensures gives { Gives (λ c. c) result (case_of (map string_bytes words.now)) }
    ensures limits { IfOk result IsWithinLimits }
{
    let [number, words @ ..] = words else {
        return Err(Refusal::Fault(UsageFault::Word { word: 2 }));
    };
    let Some(number) = number_of(number.as_str()) else {
        return Err(Refusal::Fault(UsageFault::Word { word: 2 }));
    };
    let given = read_options(alloc, &CASE, words, 3)?;
    Ok(Command::Case {
        number,
        workers: worker_count(&given),
    })
}

fn read_can(alloc: Global, words: &[String]) -> Result<Command, Refusal<UsageFault>>
    ensures gives { Gives (λ c. c) result (can_of (map string_bytes words.now)) }
    ensures limits { IfOk result IsWithinLimits }
{
    match words {
        [tables, project, rate, point, tolerance, words @ ..] => {
            let rate = allowed(rate_of(rate.as_str()), 4)?;
            let point = allowed(point_of(point.as_str()), 5)?;
            let tolerance = allowed(tolerance_of(tolerance.as_str()), 6)?;
            read_options(alloc, &NONE, words, 7)?;
            Ok(Command::Can {
                tables: Text::copy(alloc, tables.as_str())?,
                project: Text::copy(alloc, project.as_str())?,
                rate,
                point,
                tolerance,
            })
        }
        [_, _, rate, point] => {
            allowed(rate_of(rate.as_str()), 4)?;
            allowed(point_of(point.as_str()), 5)?;
            Err(Refusal::Fault(UsageFault::Word { word: 6 }))
        }
        [_, _, rate] => {
            allowed(rate_of(rate.as_str()), 4)?;
            Err(Refusal::Fault(UsageFault::Word { word: 5 }))
        }
        _ => Err(Refusal::Fault(UsageFault::Word {
            word: words.len() + 2,
        })),
    }
}

fn read_i2s(alloc: Global, words: &[String]) -> Result<Command, Refusal<UsageFault>>
    ensures gives { Gives (λ c. c) result (i2s_of (map string_bytes words.now)) }
    ensures limits { IfOk result IsWithinLimits }
{
    let [tables, project, rate, words @ ..] = words else {
        return Err(Refusal::Fault(UsageFault::Word {
            word: words.len() + 2,
        }));
    };
    let rate = allowed(sample_rate_of(rate.as_str()), 4)?;
    read_options(alloc, &NONE, words, 5)?;
    Ok(Command::I2s {
        tables: Text::copy(alloc, tables.as_str())?,
        project: Text::copy(alloc, project.as_str())?,
        rate,
    })
}

/// The command that words ask for, or the first word, from 1, that the grammar does not allow there.
#[tactic(auto, unfolding(crate::specs::Words::command_of))]
pub fn read_words(alloc: Global, words: &[String]) -> Result<Command, Refusal<UsageFault>>
    ensures gives { Gives (λ c. c) result (command_of (map string_bytes words.now)) }
    ensures limits { IfOk result IsWithinLimits }
{
    let [command, words @ ..] = words else {
        return Err(Refusal::Fault(UsageFault::Word { word: 1 }));
    };
    match command.as_str() {
        "pins" => read_pins(alloc, words),
        "tree" => read_tree(alloc, words),
        "resolve" => read_resolve(alloc, words),
        "check" => read_check(alloc, words),
        "case" => read_case(alloc, words),
        "can" => read_can(alloc, words),
        "dma" => read_dma(alloc, words),
        "i2s" => read_i2s(alloc, words),
        "ioc" => read_ioc(alloc, words),
        "board" => read_board(alloc, words),
        "explain" => read_explain(alloc, words),
        "trace" => read_trace(alloc, words),
        _ => Err(Refusal::Fault(UsageFault::Word { word: 1 })),
    }
}
