//! One shared word: the least rank that any thread has found to be that of a legal choice.
#![tactic(auto)]

mod part;
mod word;

pub use part::Part;
pub use word::{BestSeat, BestWord, View};
