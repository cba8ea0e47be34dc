//! The limits of the clock tree: the least that a choice breaks, and the least that no choice in a box can meet.
#![tactic(auto)]

mod boxes;
mod choices;
mod laws;
mod numbers;
mod ranges;
mod runs;

pub use boxes::{is_refuted_by, range_broken};
pub use choices::broken;
pub use laws::{
    broken_is_least, one_choice_is_exact, refuting_alone_is_broken, refuting_is_broken,
    refuting_is_least, tests_are_right, wish_narrows,
};
pub use ranges::NodeRanges;
pub use res_model::{ClockBox, ClockChoice, Facts};
pub use runs::Runs;
