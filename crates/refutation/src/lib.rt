//! Refutations: why no choice of a shape is legal, or none below a bound.
#![tactic(auto)]

mod laws;
mod make;
mod node;
mod read;
mod write;

pub use laws::{
    accounted_outcome_serves, canonical_is_one, canonical_is_read, lines_tell_nodes,
    read_is_written, tree_is_whole, written_is_read,
};
pub use make::canonical;
pub use node::{CheckFault, Node, Proof, ProofFault};
pub use read::read_proof;
pub use write::write_proof;
