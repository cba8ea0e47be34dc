//! One worker's search for the least legal choice, depth first.
#![tactic(auto)]

mod walk;

pub use walk::{search, search_below};
