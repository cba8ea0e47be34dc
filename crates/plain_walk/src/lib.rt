//! The plain, slow walk over all choices: what every faster search is compared with.
#![tactic(auto)]

mod legality;
mod walks;

pub use legality::Legality;
pub use walks::walk;
