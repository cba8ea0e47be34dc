//! The checker of refutations of a whole problem: what refutes a box, by code of its own.
#![tactic(auto)]

mod checker;
mod halls;
mod limits;
mod whole;

pub use checker::check;
