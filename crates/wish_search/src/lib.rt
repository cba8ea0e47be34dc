//! The least choice of pins and clocks, also where the clock of a bus alone is wished: then it is found at the values of HCLK at
//! which the wish can come true, each of them a short search.
#![tactic(auto)]

mod early;
mod hertz;
mod search;

pub use early::{Asked, Early, ask_early};
pub use search::{FoundIn, Ranked, found_whole, least_rank, rank_alone, search_after};
