//! Laws of traces: the writes of a choice at its homes show no fault, and timeouts are spelled as in the C text.
#![tactic(auto)]

mod laws;

pub use laws::{home_writes_show_no_fault, timeouts_are_spelled_alike};
