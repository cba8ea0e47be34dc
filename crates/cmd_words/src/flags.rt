//! The names of the options.
ghost use Rattle.std.specs.Prelude.{◌≡◌, find};
ghost use Rattle.std.specs.Str.{bytes_eq};
ghost use Rattle.cmd_words.specs.Words.{word_of, is_given};

use crate::given::{Flag, Given};

/// How an option is written.
fn word_of(flag: Flag) -> &'static str
    ensures { result.now ≡ word_of flag }
{
    match flag {
        Flag::Vdd => "--vdd",
        Flag::Need => "--need",
        Flag::Hclk => "--hclk",
        Flag::Pclk1 => "--pclk1",
        Flag::Pclk2 => "--pclk2",
        Flag::Free => "--free",
        Flag::Workers => "--workers",
        Flag::Proof => "--proof",
    }
}

/// The option of this word, among those that a command takes.
pub fn flag_named(takes: &[Flag], word: &str) -> Option<Flag>
    ensures { result ≡ find (λ flag. bytes_eq (word_of flag) word.now) takes.now }
{
    takes.iter().copied().find(|flag| word_of(*flag) == word)
}

/// Whether an option was given, and may not be given again.
pub fn is_given(given: &Given, flag: Flag) -> bool
    ensures { result ≡ is_given given.now flag }
{
    match flag {
        Flag::Vdd => given.vdd.is_some(),
        Flag::Need => false,
        Flag::Hclk => given.hclk.is_some(),
        Flag::Pclk1 => given.pclk1.is_some(),
        Flag::Pclk2 => given.pclk2.is_some(),
        Flag::Free => given.free.is_some(),
        Flag::Workers => given.workers.is_some(),
        Flag::Proof => given.proof,
    }
}
