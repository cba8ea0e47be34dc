//! The state of the registers, and what is wanted of it.
use res_model::{Facts, Mode};

/// What a project and its choice want: the facts of the clocks, and the mode of each pin, at port times 16 plus number.
#[derive(Clone, Copy, Debug, PartialEq, Eq)]
pub struct Target {
    pub facts: Facts,
    pub pins: [Option<Mode>; 144],
}

/// The state of the registers.
///
/// The words are those that were written. `gpio` has the word of port p and kind k at 6 * p + k, in the order MODER,
/// OTYPER, OSPEEDR, PUPDR, AFRL, AFRH. `ahb_read` and `apb_read` have the enable bits whose register was read since
/// they were set. `latency` and `source` are in effect (HSI 0, HSE 1, PLL 2). `polls` are those of the current await.
/// The last four are facts of the target and the table: that the HSE has an input, that it bypasses the oscillator, that the
/// supply allows prefetch, and the version of the table, which tells whether the part has over-drive.
#[derive(Clone, Copy, Debug, PartialEq, Eq)]
pub struct State {
    pub cr: u32,
    pub pllcfgr: u32,
    pub cfgr: u32,
    pub acr: u32,
    pub ahb1enr: u32,
    pub ahb_read: u32,
    pub apb1enr: u32,
    pub apb_read: u32,
    pub pwr_cr: u32,
    pub gpio: [u32; 54],
    pub hse_ready: bool,
    pub pll_ready: bool,
    pub latency: u32,
    pub source: u32,
    pub over_ready: bool,
    pub over_switched: bool,
    pub acr_written: bool,
    pub polls: u32,
    pub osc_in: bool,
    pub bypass: bool,
    pub prefetch: bool,
    pub version: u8,
}
