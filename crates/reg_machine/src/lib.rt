//! A machine for the registers that start an STM32F405/407 or an STM32F42x/43x (RM0090): what a write, a read or an await does, which
//! of them a rule forbids, and which states keep the limits of the table and the pins of the target.
#![tactic(auto)]

mod clocks;
mod laws;
mod machine;
mod op;
mod pins;
mod power;
mod rules;
mod state;
mod step;

pub use laws::flags_come_once;
pub use machine::Machine;
pub use op::{Answer, Op, Rule, Stepped, Timeout};
pub use pins::{af_kind, is_debug};
pub use power::vos_mask;
pub use state::{State, Target};
