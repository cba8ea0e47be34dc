//! A project's text without one of its lines, and what it says.
#![tactic(auto)]

mod laws;
mod starts;
mod without;

pub use laws::left_is_read;
pub use without::text_without;
