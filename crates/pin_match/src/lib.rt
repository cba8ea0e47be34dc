//! Assignments of resources to variables, and the variables that a largest one can leave out.
#![tactic(auto)]

mod laws;
mod matcher;
mod matching;
mod search;
mod sets;
mod walk;

pub use laws::{largest_is_computed, largest_where_closed};
pub use matcher::Matcher;
