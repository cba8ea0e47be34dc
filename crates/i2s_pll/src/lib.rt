//! The PLLI2S for a sample rate: the choice of least error, its writes, and their machine (RM0090, RCC and SPI/I2S).
#![tactic(auto)]

mod answer;
mod bounds;
mod choice;
mod clocks;
mod hex;
mod input;
mod laws;
mod lines;
mod machine;
mod op;
mod search;
mod state;
mod step;
mod writes;

pub use answer::i2s_answer;
pub use choice::I2s;
pub use laws::{prescaler_holds_the_divider, writes_are_sound};
pub use machine::I2sMachine;
pub use op::{I2sOp, I2sStep};
pub use search::best_i2s;
pub use state::State;
pub use writes::i2s_writes;
