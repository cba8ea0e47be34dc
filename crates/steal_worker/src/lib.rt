//! One worker of a search: it closes or splits boxes, and shares paths by its deque.
#![tactic(auto)]

mod ends;
mod halves;
mod held;
mod stop;
mod walker;
mod worker;

pub use held::Held;
pub use stop::Stop;
pub use walker::{Walker, settle};
pub use worker::{Job, place_for, work};
