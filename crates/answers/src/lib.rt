//! What a call answers: a status and the text that goes with it.
#![tactic(auto)]

mod answer;

pub use answer::{Answer, Status, counts, names, says};
