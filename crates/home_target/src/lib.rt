//! What a project wants of the registers where each signal stays at its home.
#![tactic(auto)]

mod homes;
mod target;

pub use target::home_target;
