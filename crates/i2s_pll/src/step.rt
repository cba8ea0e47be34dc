//! What an op does to the state.
ghost use Rattle.std.specs.Prelude.{◌≡◌, ◌<◌, ◌^◌, false};
ghost use Rattle.i2s_pll.specs.Machine.{IsStored, done, flagged, is_fit, is_forbidden, n_of, poll, r_of, reset_state, step_of, went, word_of};

use crate::op::{I2sOp, I2sStep};
use crate::state::State;

pub(crate) fn reset_state() -> State
    ensures state { result ≡ reset_state }
    ensures stored { IsStored result }
{
    State {
        config: 0x2000_3000,
        on: false,
        ready: false,
        polls: 0,
    }
}

/// N of a word of RCC_PLLI2SCFGR.
pub(crate) fn n_of(word: u32) -> u16
    ensures { result ≡ n_of word }
{
    (word / 0x40 % 0x200) as u16
}

/// R of a word of RCC_PLLI2SCFGR.
pub(crate) fn r_of(word: u32) -> u8
    ensures { result ≡ r_of word }
{
    (word / 0x1000_0000 % 8) as u8
}

/// The word of RCC_PLLI2SCFGR with this N and R.
pub(crate) fn word_of(n: u16, r: u8) -> u32
    requires n { n < 2 ^ 9 }
    requires r { r < 2 ^ 3 }
    ensures { result ≡ word_of n r }
{
    r as u32 * 0x1000_0000 + n as u32 * 0x40
}

/// Whether N and R of a word are such as the PLLI2S takes, and no bit is set beside them.
fn is_fit(word: u32) -> bool
    ensures { result ≡ is_fit word }
{
    let n = n_of(word);
    let r = r_of(word);
    50 <= n && (n <= 432 && (2 <= r && word == word_of(n, r)))
}

/// The flag comes where the PLLI2S is on.
fn flagged(s: &State, comes: bool) -> State
    requires { IsStored s.now }
    ensures state { result ≡ flagged comes s.now }
    ensures stored { IsStored result }
{
    State {
        ready: s.ready || (comes && s.on),
        ..*s
    }
}

fn is_forbidden(s: &State, op: I2sOp) -> bool
    ensures { result ≡ is_forbidden s.now op }
{
    match op {
        I2sOp::Config(word) => s.on || !is_fit(word),
        I2sOp::On => false,
        I2sOp::Await { polls } => polls == 0 || !s.on,
    }
}

/// The op is done, and the next await begins at no polls.
fn went(s: &mut State) -> I2sStep
    requires { IsStored s.old }
    ensures step { (result, s.new) ≡ went s.old }
    ensures stored { IsStored s.new }
{
    s.polls = 0;
    I2sStep::Went
}

/// An await reads the flag once.
fn poll(s: &mut State, polls: u32) -> I2sStep
    requires stored { IsStored s.old }
    requires some { 0 < polls }
    ensures step { (result, s.new) ≡ poll s.old polls }
    ensures stored { IsStored s.new }
{
    if s.ready {
        went(s)
    } else if s.polls < polls - 1 {
        s.polls += 1;
        I2sStep::Waiting
    } else {
        s.polls = 0;
        I2sStep::TimedOut
    }
}

/// An op that is not forbidden.
fn done(s: &mut State, op: I2sOp) -> I2sStep
    requires stored { IsStored s.old }
    requires allowed { is_forbidden s.old op ≡ false }
    ensures step { (result, s.new) ≡ done s.old op }
    ensures stored { IsStored s.new }
{
    match op {
        I2sOp::Config(word) => {
            s.config = word;
            went(s)
        }
        I2sOp::On => {
            s.on = true;
            went(s)
        }
        I2sOp::Await { polls } => poll(s, polls),
    }
}

/// One step: the flag comes first, and then the op is done or forbidden.
pub(crate) fn step(s: &mut State, op: I2sOp, comes: bool) -> I2sStep
    requires { IsStored s.old }
    ensures step { (result, s.new) ≡ step_of s.old op comes }
    ensures stored { IsStored s.new }
{
    *s = flagged(s, comes);
    if is_forbidden(s, op) {
        I2sStep::Forbidden
    } else {
        done(s, op)
    }
}
