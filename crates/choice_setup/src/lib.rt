//! The setting that a choice of a whole problem makes of the chip, and the accesses that bring it there.
#![tactic(auto)]

mod accesses;
mod laws;
mod pins;
mod settings;
mod targets;

pub use accesses::generate;
pub use laws::choices_are_allowed;
pub use settings::setting_of;
pub use targets::target;
