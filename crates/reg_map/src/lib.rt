//! The registers that start an STM32F405/407 or an STM32F42x/43x (RM0090), their addresses, and the fields of a word.
#![tactic(auto)]

mod field;
mod register;

pub use field::{Field, field_get, field_set};
pub use register::{GpioReg, Reg, addr, reg_at};
