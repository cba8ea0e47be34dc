//! The nodes of the clock tree under a choice, as fractions of hertz, and their text.
#![tactic(auto)]

mod text;
mod tree;

pub use res_model::{ClockChoice, Facts, Nodes, Src};
pub use text::{source_word, tree_text};
pub use tree::{HSI, hse_used, nodes, pll_used};
