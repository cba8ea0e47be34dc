//! Proofs told over a shape that has ten variables more before those of the proof.
#![tactic(auto)]

mod raise;

pub use raise::raised;
