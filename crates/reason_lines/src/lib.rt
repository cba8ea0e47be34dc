//! That the refutation of a whole problem is read from its text again: laws.
#![tactic(auto)]

mod laws;

pub use laws::{proofs_are_read, reasons_have_lines};
