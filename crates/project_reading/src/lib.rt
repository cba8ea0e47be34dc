//! A table and a project from their bytes, or what is said of the first fault.
#![tactic(auto)]

mod projects;
mod refusals;

pub use projects::{Opened, open_project};
pub use refusals::refused_table;
