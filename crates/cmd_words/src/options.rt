//! The options that stand after a command's names.
ghost use Rattle.std.specs.Prelude.{◌≡◌, ◌+◌, ◌^◌, ◌<◌, length, map, string_bytes, OnOk, IfOk};
ghost use Rattle.refusal.specs.Refusals.{Gives};
ghost use Rattle.cmd_words.specs.Words.{allowed, word_read, options, opts_of, worker_count, IsLimited, IsWorkers, HasLimits};

use crate::fault::UsageFault;
use crate::flags::{flag_named, is_given};
use crate::given::{Flag, Given};
use crate::values::put_value;
use refusal::Refusal;
use res_base::Items;
use res_model::{Free, Opts};
use std::alloc::Global;

/// Reads one word: the value that is due, or else an option. Answers the option whose value is due next.
fn read_word(
    alloc: Global,
    takes: &[Flag],
    given: &mut Given,
    due: Option<Flag>,
    text: &str,
    word: usize,
) -> Result<Option<Flag>, Refusal<UsageFault>>
    ensures gives { Gives (λ next. record { given = given.new; due = next }) result (allowed word (word_read takes.now given.old due text.now)) }
    ensures limited { OnOk result (IsLimited given.old → IsLimited given.new) }
{
    if let Some(flag) = due {
        put_value(alloc, given, flag, text, word)?;
        return Ok(None);
    }
    let Some(flag) = flag_named(takes, text) else {
        return Err(Refusal::Fault(UsageFault::Word { word }));
    };
    if is_given(given, flag) {
        return Err(Refusal::Fault(UsageFault::Word { word }));
    }
    match flag {
        Flag::Proof => {
            given.proof = true;
            Ok(None)
        }
        _ => Ok(Some(flag)),
    }
}

/// Reads the options of a command, of which the first word has this number.
pub fn read_options(
    alloc: Global,
    takes: &[Flag],
    words: &[String],
    first: usize,
) -> Result<Given, Refusal<UsageFault>>
    requires { first < 2 ^ 32 }
    ensures gives { Gives (λ given. given) result (options takes.now first (map string_bytes words.now)) }
    ensures limited { IfOk result IsLimited }
{
    let mut given = Given {
        vdd: None,
        needs: Items::of(Vec::new(alloc)),
        hclk: None,
        pclk1: None,
        pclk2: None,
        free: None,
        workers: None,
        proof: false,
    };
    let mut due = None;
    for (i, text) in words.iter().enumerate() {
        due = read_word(alloc, takes, &mut given, due, text.as_str(), first + i)?;
    }
    match due {
        None => Ok(given),
        Some(_) => Err(Refusal::Fault(UsageFault::Word {
            word: first + words.len(),
        })),
    }
}

/// The options, with defaults for those that were not given: 3300 mV, and all is free.
pub fn opts_of(given: Given) -> Opts
    ensures same { result ≡ opts_of given }
    ensures limits { IsLimited given → HasLimits result }
{
    Opts {
        vdd: given.vdd.unwrap_or(3300),
        needs: given.needs,
        hclk: given.hclk,
        pclk1: given.pclk1,
        pclk2: given.pclk2,
        free: given.free.unwrap_or(Free::All),
    }
}

/// The number of workers, of which one is the default.
pub fn worker_count(given: &Given) -> u32
    ensures same { result ≡ worker_count given.now }
    ensures limits { IsLimited given.now → IsWorkers result }
{
    given.workers.unwrap_or(1)
}
