//! One deque of paths, whose ends know what they put into it and what they got from it.
#![tactic(auto)]

mod deque;

pub use deque::{Owner, Tally, Thief};
