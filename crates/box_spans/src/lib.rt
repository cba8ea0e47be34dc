//! The ranges of the clock tree's nodes over all values of the clock variables.
#![tactic(auto)]

mod laws;
mod ranges;
mod runs;

pub use laws::whole_box_has_every_value;
pub use ranges::spans;
