//! The checker of refutations, over every refuter: whether a proof is accepted, and the first node at which it is not.
#![tactic(auto)]

mod checker;
mod laws;
mod refuter;
mod rules;
mod stack;

pub use checker::check;
pub use laws::{accepted_proof_answers, accepted_proof_has_no_fault, fault_is_the_first};
pub use refuter::Refuter;
