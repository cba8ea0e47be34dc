//! The inputs of a made case: a table with 112 pins, and a project that leaves signals and clocks to be placed, so that
//! there are more choices than can be looked at one by one.
#![tactic(auto)]

mod cases;
mod pins;
mod projects;
mod rest;
mod tables;

pub use cases::{Case, make_case};
