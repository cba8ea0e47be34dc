//! The legal choice of least rank, or the canonical proof that there is none: what a search comes to.
#![tactic(auto)]

mod least;
mod outcomes;

pub use least::found;
pub use outcomes::Found;
