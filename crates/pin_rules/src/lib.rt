//! Which pins a signal can be at, and which placements clash.
#![tactic(auto)]

mod laws;
mod pairs;
mod values;

pub use laws::needs_alone_are_free;
pub use pairs::{clash, fits, fits_means};
pub use values::{can, candidates, costs};
