//! Values of words: numbers within their bounds, and what may be free.
ghost use Rattle.std.specs.Prelude.{◌≡◌, ◌≤◌, IfSome, OnOk};
ghost use Rattle.res_model.specs.Numbers.{number_of, number_up_to};
ghost use Rattle.refusal.specs.Refusals.{Gives};
ghost use Rattle.cmd_words.specs.Words.{allowed, free_of, number_from, point_of, rate_of, sample_rate_of, tolerance_of, workers_of, with_value, IsWorkers, IsLimited};

use crate::fault::UsageFault;
use crate::given::{Flag, Given};
use refusal::Refusal;
use res_base::{Text, parse_dec};
use res_model::Free;
use std::alloc::Global;

/// The greatest supply voltage, in millivolts.
const MOST_VDD: u64 = 10_000;

/// The greatest frequency, in hertz.
const MOST_HERTZ: u64 = 4_294_967_295;

/// The greatest bit rate of a CAN bus, in bits per second (ISO 11898-2).
const MOST_RATE: u64 = 1_000_000;

/// The greatest part of a bit, in per mille, that is not all of it.
const MOST_PER_MILLE: u64 = 999;

/// The least and the greatest sample rate, in hertz: those of common codecs.
const LEAST_SAMPLE_RATE: u64 = 8_000;

const MOST_SAMPLE_RATE: u64 = 192_000;

/// The most workers.
const MOST_WORKERS: u64 = 16;

/// The decimal number that a word is.
pub fn number_of(word: &str) -> Option<u64>
    ensures { result ≡ number_of word.now }
{
    parse_dec(word.as_bytes())
}

/// A number up to a greatest one.
#[tactic(auto, unfolding(res_model::specs::Numbers::number_up_to))]
fn number_up_to(most: u64, word: &str) -> Option<u64>
    ensures number { result ≡ number_up_to most word.now }
    ensures within { IfSome result (λ n. n ≤ most) }
{
    let number = number_of(word)?;
    if number <= most { Some(number) } else { None }
}

/// A number from a least to a greatest one.
fn number_from(least: u64, most: u64, word: &str) -> Option<u64>
    ensures number { result ≡ number_from least most word.now }
    ensures within { IfSome result (λ n. (least ≤ n) × (n ≤ most)) }
{
    let number = number_up_to(most, word)?;
    if least <= number { Some(number) } else { None }
}

/// A number of workers.
fn workers_of(word: &str) -> Option<u64>
    ensures number { result ≡ workers_of word.now }
    ensures within { IfSome result IsWorkers }
{
    number_from(1, MOST_WORKERS, word)
}

/// A bit rate, in bits per second.
pub fn rate_of(word: &str) -> Option<u32>
    ensures number { result ≡ rate_of word.now }
    ensures within { IfSome result (λ n. (1 ≤ n) × (n ≤ 1000000)) }
{
    Some(number_from(1, MOST_RATE, word)? as u32)
}

/// A sample rate of an audio interface, in hertz.
pub fn sample_rate_of(word: &str) -> Option<u32>
    ensures number { result ≡ sample_rate_of word.now }
    ensures within { IfSome result (λ n. (8000 ≤ n) × (n ≤ 192000)) }
{
    Some(number_from(LEAST_SAMPLE_RATE, MOST_SAMPLE_RATE, word)? as u32)
}

/// A sample point, in per mille of a bit.
pub fn point_of(word: &str) -> Option<u32>
    ensures number { result ≡ point_of word.now }
    ensures within { IfSome result (λ n. (1 ≤ n) × (n ≤ 999)) }
{
    Some(number_from(1, MOST_PER_MILLE, word)? as u32)
}

/// The tolerance of a sample point to either side, in per mille of a bit.
pub fn tolerance_of(word: &str) -> Option<u32>
    ensures number { result ≡ tolerance_of word.now }
    ensures within { IfSome result (λ n. n ≤ 999) }
{
    Some(number_up_to(MOST_PER_MILLE, word)? as u32)
}

/// What `--free` sets free.
fn free_of(word: &str) -> Option<Free>
    ensures { result ≡ free_of word.now }
{
    match word {
        "pins" => Some(Free::Pins),
        "clock" => Some(Free::Clock),
        "all" => Some(Free::All),
        "none" => Some(Free::Nothing),
        _ => None,
    }
}

/// The value, where the word of this number has one.
pub fn allowed<T: Drop>(value: Option<T>, word: usize) -> Result<T, Refusal<UsageFault>>
    ensures { Gives (λ v. v) result (allowed word value) }
{
    match value {
        Some(value) => Ok(value),
        None => Err(Refusal::Fault(UsageFault::Word { word })),
    }
}

/// Gives an option its value, the word of this number.
pub fn put_value(
    alloc: Global,
    given: &mut Given,
    flag: Flag,
    value: &str,
    word: usize,
) -> Result<(), Refusal<UsageFault>>
    ensures gives { Gives (λ _. given.new) result (allowed word (with_value flag value.now given.old)) }
    ensures limited { OnOk result (IsLimited given.old → IsLimited given.new) }
{
    match flag {
        Flag::Vdd => given.vdd = Some(allowed(number_up_to(MOST_VDD, value), word)? as u32),
        Flag::Need => given.needs.push(Text::copy(alloc, value)?)?,
        Flag::Hclk => given.hclk = Some(allowed(number_up_to(MOST_HERTZ, value), word)?),
        Flag::Pclk1 => given.pclk1 = Some(allowed(number_up_to(MOST_HERTZ, value), word)?),
        Flag::Pclk2 => given.pclk2 = Some(allowed(number_up_to(MOST_HERTZ, value), word)?),
        Flag::Free => given.free = Some(allowed(free_of(value), word)?),
        Flag::Workers => given.workers = Some(allowed(workers_of(value), word)? as u32),
        Flag::Proof => return Err(Refusal::Fault(UsageFault::Word { word })),
    }
    Ok(())
}
