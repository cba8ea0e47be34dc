//! Why a call that takes memory was refused: one form for every reader.
#![tactic(auto)]

mod refusal;

pub use refusal::Refusal;
