//! What is to be set up, and the codes of it.
use res_model::{ClockChoice, Facts, Mode, Pull, Speed};

/// A pin that a signal has: the mode that it gets, its pull resistor and output speed, and whether its output is an
/// open drain.
#[derive(Clone, Copy, Debug, PartialEq, Eq)]
pub struct Setup {
    pub mode: Mode,
    pub pull: Pull,
    pub speed: Speed,
    pub drain: bool,
}

/// What is to be set up: the clocks, with the wait states of the flash and whether it may prefetch, and each pin, at
/// port times 16 plus number. `version` is that of the part's table.
#[derive(Clone, Copy, Debug, PartialEq, Eq)]
pub struct Setting {
    pub version: u8,
    pub facts: Facts,
    pub clock: ClockChoice,
    pub wait: u8,
    pub prefetch: bool,
    pub pins: [Option<Setup>; 144],
}

/// How the HSE is used.
#[derive(Clone, Copy, Debug, PartialEq, Eq)]
pub enum Oscillator {
    Off,
    Crystal,
    /// A clock from outside bypasses the oscillator.
    Bypass,
}

/// What the fields of RCC, FLASH and PWR take for a choice of clocks.
///
/// `step` is the power step and `scale` its scale, which PWR_CR says where the bits of `vos_clear` are cleared and then
/// those of `vos_set` set. `src` is as SW says it and `psrc` as SRC does, `pcode`, `hcode`, `code1` and `code2` are those of PLLP, HPRE, PPRE1
/// and PPRE2.
#[derive(Clone, Copy, Debug, PartialEq, Eq)]
pub struct Codes {
    pub step: u32,
    pub scale: u32,
    pub vos_clear: u32,
    pub vos_set: u32,
    pub over: bool,
    pub oscillator: Oscillator,
    pub pll: bool,
    pub psrc: u32,
    pub src: u32,
    pub m: u32,
    pub n: u32,
    pub pcode: u32,
    pub q: u32,
    pub hcode: u32,
    pub code1: u32,
    pub code2: u32,
    pub wait: u32,
}
