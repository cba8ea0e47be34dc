//! That the accesses which set up a chip have lines in a C text, and are read from it again: laws.
#![tactic(auto)]

mod laws;

pub use laws::accesses_are_read;
