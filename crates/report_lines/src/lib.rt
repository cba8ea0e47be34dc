//! That a reader of refutations passes over a report: laws.
#![tactic(auto)]

mod laws;

pub use laws::{proofs_behind_reports_are_read, reports_are_passed_over};
