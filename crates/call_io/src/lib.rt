//! The edge of a call: its inputs, each read whole, and its answer, written as one.
#![tactic(auto)]

mod inputs;
mod write;

pub use inputs::{Gathered, gather};
pub use write::write_answer;
