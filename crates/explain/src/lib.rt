//! Why nothing fits, and what to give up.
#![tactic(auto)]

mod costs;
mod due;
mod helps;
mod kinds;
mod left;
mod lines;
mod listing;
mod words;

pub use costs::least_cost;
pub use due::explain;
pub use kinds::Thing;
pub use left::opts_left;
pub use listing::things;
