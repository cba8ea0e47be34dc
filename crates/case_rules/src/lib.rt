//! What the readers make of a made case, and that they never refuse it: definitions and their laws.
#![tactic(auto)]

mod laws;

pub use laws::{project_is_short, ranks_fit, texts_are_read};
