//! What a run of accesses shows, step by step: a line for each that is done, with its word, the clock in effect and whether
//! each state on the way was legal, and the line of how the run ended. And the flag answers of a run, read from a text.
#![tactic(auto)]

mod fault;
mod flags;
mod hex;
mod lines;
mod reading;
mod run;
mod turn;

pub use fault::{AnswerFault, TraceFault};
pub use reading::read_answers;
pub use run::trace;
