//! The words of `dma`: requests, and the options behind them.
ghost use Rattle.std.specs.Prelude.{◌≡◌, ◌≤◌, drop, length, map, string_bytes, IfOk};
ghost use Rattle.std.specs.List.{position};
ghost use Rattle.refusal.specs.Refusals.{Gives};
ghost use Rattle.cmd_words.specs.Words.{dma_of, is_option, names_before, requested, requests_of, IsWithinLimits};

use crate::command::Command;
use crate::fault::UsageFault;
use crate::given::Flag;
use crate::options::{read_options, worker_count};
use refusal::Refusal;
use res_base::{Items, OutOfMemory, Text};
use std::alloc::Global;

const DMA: [Flag; 1] = [Flag::Workers];

/// The most requests.
const MOST_REQUESTS: usize = 16;

/// Whether a word is that of an option.
fn is_option(word: &str) -> bool
    ensures { result ≡ is_option word.now }
{
    word.as_bytes().starts_with(b"--")
}

/// The place of the first word of an option.
fn first_option(words: &[String]) -> Option<usize>
    ensures { result ≡ position (λ w. is_option (string_bytes w)) words.now }
{
    words.iter().position(|word| is_option(word.as_str()))
}

/// How many words stand before the first of an option.
fn names_before(words: &[String]) -> usize
    ensures count { result ≡ names_before (map string_bytes words.now) }
    ensures within { result ≤ length words.now }
{
    first_option(words).unwrap_or(words.len())
}

/// The words from this place on.
fn words_from(words: &[String], place: usize) -> &[String]
    requires { place ≤ length words.now }
    ensures { result.now ≡ drop place words.now }
{
    &words[place..]
}

/// The words as texts.
fn texts_of(alloc: Global, words: &[String]) -> Result<Vec<Text>, OutOfMemory>
    ensures { IfOk result (λ texts. texts.items ≡ map string_bytes words.now) }
{
    let mut texts = Vec::with_capacity(alloc, words.len())?;
    for word in words {
        texts.push(Text::copy(alloc, word.as_str())?)?;
    }
    Ok(texts)
}

/// Requests, and the options behind them.
fn read_requests(
    alloc: Global,
    tables: &str,
    requests: &[String],
    words: &[String],
) -> Result<Command, Refusal<UsageFault>>
    ensures gives { Gives (λ c. c) result (requested tables.now (map string_bytes requests.now) (map string_bytes words.now)) }
    ensures limits { IfOk result IsWithinLimits }
{
    let count = requests.len();
    if count == 0 {
        return Err(Refusal::Fault(UsageFault::Word { word: 3 }));
    }
    if count > MOST_REQUESTS {
        return Err(Refusal::Fault(UsageFault::Word { word: 19 }));
    }
    let given = read_options(alloc, &DMA, words, 3 + count)?;
    Ok(Command::Dma {
        tables: Text::copy(alloc, tables)?,
        requests: Items::of(texts_of(alloc, requests)?),
        workers: worker_count(&given),
    })
}

/// The words behind the table: requests, and options.
fn read_rest(alloc: Global, tables: &str, words: &[String]) -> Result<Command, Refusal<UsageFault>>
    ensures gives { Gives (λ c. c) result (requests_of tables.now (map string_bytes words.now)) }
    ensures limits { IfOk result IsWithinLimits }
{
    let count = names_before(words);
    read_requests(alloc, tables, &words[..count], words_from(words, count))
}

/// The words of `dma` behind it.
pub(crate) fn read_dma(alloc: Global, words: &[String]) -> Result<Command, Refusal<UsageFault>>
    ensures gives { Gives (λ c. c) result (dma_of (map string_bytes words.now)) }
    ensures limits { IfOk result IsWithinLimits }
{
    let [tables, words @ ..] = words else {
        return Err(Refusal::Fault(UsageFault::Word { word: 2 }));
    };
    read_rest(alloc, tables.as_str(), words)
}
