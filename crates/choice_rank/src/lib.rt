//! Choices of a shape: their costs, and the one number that ranks each.
#![tactic(auto)]

mod laws;
mod least;
mod places;
mod shape;
mod variable;

pub use laws::{index_is_below, rank_is_small, ranks_differ};
pub use least::least_of;
pub use shape::{Shape, ShapeFault};
pub use variable::{Costs, VarShape};
