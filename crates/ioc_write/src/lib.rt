//! A project's text written back with a choice as its homes.
#![tactic(auto)]

mod append;
mod back;
mod change;
mod escapes;
mod fate;
mod fault;
mod keys;
mod laws;
mod lines;
mod plan;
mod spots;
mod survey;
mod variable;
mod write;

pub use back::write_back;
pub use fault::BackFault;
pub use laws::{values_are_read_back, what_is_written_reads_back};
