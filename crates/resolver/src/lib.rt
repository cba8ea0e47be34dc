//! The top call: words and inputs in, a status and a text out.
#![tactic(auto)]

mod commands;
mod home_tree;
mod on_homes;
mod refusals;
mod streams;
mod threads;
mod top;

pub use top::{run, run_all_surely, run_plain, run_surely};
