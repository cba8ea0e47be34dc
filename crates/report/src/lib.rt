//! The texts of a choice: its rank, a line for each signal, the clocks, and the accesses that set it up.
#![tactic(auto)]

mod cases;
mod clocks;
mod lines;
mod placement;
mod reports;

pub use cases::case_text;
pub use clocks::clocks_text;
pub use placement::{pins_text, placement_text};
pub use reports::report_text;
