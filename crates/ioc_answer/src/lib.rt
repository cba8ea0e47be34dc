//! What is due where a project is written back: its text with the least choice, or why there is none.
#![tactic(auto)]

mod owed;

pub use owed::write_least;
