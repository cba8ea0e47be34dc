//! The words of the commands that take a table and a project, and options behind them.
ghost use Rattle.std.specs.Prelude.{◌≡◌, map, string_bytes, IfOk};
ghost use Rattle.refusal.specs.Refusals.{Gives};
ghost use Rattle.cmd_words.specs.Words.{common, named, pins_takes, tree_takes, resolve_takes, ioc_takes, pins_of, tree_of, resolve_of, ioc_of, board_of, explain_of, IsLimited, IsWithinLimits};

use crate::command::Command;
use crate::fault::UsageFault;
use crate::given::{Flag, Named};
use crate::options::{opts_of, read_options, worker_count};
use refusal::Refusal;
use res_base::Text;
use std::alloc::Global;

const PINS: [Flag; 1] = [Flag::Need];

const TREE: [Flag; 1] = [Flag::Vdd];

/// The options that say what is wanted of pins and clocks.
pub(crate) const COMMON: [Flag; 6] = [
    Flag::Vdd,
    Flag::Need,
    Flag::Hclk,
    Flag::Pclk1,
    Flag::Pclk2,
    Flag::Free,
];

const RESOLVE: [Flag; 8] = [
    Flag::Vdd,
    Flag::Need,
    Flag::Hclk,
    Flag::Pclk1,
    Flag::Pclk2,
    Flag::Free,
    Flag::Workers,
    Flag::Proof,
];

const IOC: [Flag; 7] = [
    Flag::Vdd,
    Flag::Need,
    Flag::Hclk,
    Flag::Pclk1,
    Flag::Pclk2,
    Flag::Free,
    Flag::Workers,
];

/// The names of a table and a project, and the options behind them.
fn read_named(alloc: Global, takes: &[Flag], words: &[String]) -> Result<Named, Refusal<UsageFault>>
    ensures gives { Gives (λ n. n) result (named takes.now (map string_bytes words.now)) }
    ensures limited { IfOk result (λ n. IsLimited n.given) }
{
    let [tables, project, words @ ..] = words else {
        return Err(Refusal::Fault(UsageFault::Word {
            word: words.len() + 2,
        }));
    };
    let given = read_options(alloc, takes, words, 4)?;
    Ok(Named {
        tables: Text::copy(alloc, tables.as_str())?,
        project: Text::copy(alloc, project.as_str())?,
        given,
    })
}

pub(crate) fn read_pins(alloc: Global, words: &[String]) -> Result<Command, Refusal<UsageFault>>
    ensures gives { Gives (λ c. c) result (pins_of (map string_bytes words.now)) }
    ensures limits { IfOk result IsWithinLimits }
{
    let named = read_named(alloc, &PINS, words)?;
    Ok(Command::Pins {
        tables: named.tables,
        project: named.project,
        opts: opts_of(named.given),
    })
}

pub(crate) fn read_tree(alloc: Global, words: &[String]) -> Result<Command, Refusal<UsageFault>>
    ensures gives { Gives (λ c. c) result (tree_of (map string_bytes words.now)) }
    ensures limits { IfOk result IsWithinLimits }
{
    let named = read_named(alloc, &TREE, words)?;
    Ok(Command::Tree {
        tables: named.tables,
        project: named.project,
        opts: opts_of(named.given),
    })
}

pub(crate) fn read_resolve(alloc: Global, words: &[String]) -> Result<Command, Refusal<UsageFault>>
    ensures gives { Gives (λ c. c) result (resolve_of (map string_bytes words.now)) }
    ensures limits { IfOk result IsWithinLimits }
{
    let named = read_named(alloc, &RESOLVE, words)?;
    let workers = worker_count(&named.given);
    let proof = named.given.proof;
    Ok(Command::Resolve {
        tables: named.tables,
        project: named.project,
        opts: opts_of(named.given),
        workers,
        proof,
    })
}

pub(crate) fn read_ioc(alloc: Global, words: &[String]) -> Result<Command, Refusal<UsageFault>>
    ensures gives { Gives (λ c. c) result (ioc_of (map string_bytes words.now)) }
    ensures limits { IfOk result IsWithinLimits }
{
    let named = read_named(alloc, &IOC, words)?;
    let workers = worker_count(&named.given);
    Ok(Command::Ioc {
        tables: named.tables,
        project: named.project,
        opts: opts_of(named.given),
        workers,
    })
}

pub(crate) fn read_board(alloc: Global, words: &[String]) -> Result<Command, Refusal<UsageFault>>
    ensures gives { Gives (λ c. c) result (board_of (map string_bytes words.now)) }
    ensures limits { IfOk result IsWithinLimits }
{
    let named = read_named(alloc, &COMMON, words)?;
    Ok(Command::Board {
        tables: named.tables,
        project: named.project,
        opts: opts_of(named.given),
    })
}

pub(crate) fn read_explain(alloc: Global, words: &[String]) -> Result<Command, Refusal<UsageFault>>
    ensures gives { Gives (λ c. c) result (explain_of (map string_bytes words.now)) }
    ensures limits { IfOk result IsWithinLimits }
{
    let named = read_named(alloc, &COMMON, words)?;
    Ok(Command::Explain {
        tables: named.tables,
        project: named.project,
        opts: opts_of(named.given),
    })
}
