//! The accesses that bring a chip from reset to a choice of clocks and pins, sound on the register machine.
#![tactic(auto)]

mod codes;
mod pins;
mod setting;
mod wants;
mod writes;

pub use setting::{Codes, Oscillator, Setting, Setup};
pub use wants::target;
pub use writes::generate;
