//! A problem: its variables with their values, and which choices of them meet the limits.
#![tactic(auto)]

mod assembly;
mod choices;
mod clocks;
mod laws;
mod parts;
mod pins;

pub use assembly::{build, wide_variable};
pub use laws::{
    a_bus_wish_fixes_hclk, a_wish_allows_nothing, clocks_are_in_range, meets_is_every_limit,
};
pub use parts::{Part, Problem, ProblemParts};
