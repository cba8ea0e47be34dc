//! What refutes a box of a problem, and the verdict on it: definitions and their laws.
#![tactic(auto)]

mod laws;

pub use laws::{pin_verdicts_are_lawful, refuting_hall_leaves_none, whole_verdicts_are_lawful};
