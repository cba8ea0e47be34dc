//! The members of a table, read from a JSON value by their places, and the faults with their paths.
#![tactic(auto)]

mod fault;
mod forms;
mod json;
mod lists;
mod place;

pub use fault::TableFault;
pub use forms::{among_at, check_object, flag_at, number_at, pair_at, text_at};
pub use json::{member_of, needed, nested, number_of, two_of, value_of, word_of};
pub use lists::{ascending, counted_at, distinct_texts, one_among, some_among, texts};
pub use place::{Flaw, Key, Place, Spot, spelled_fault};
