//! Tests alone: boards of a small table.
#![tactic(auto)]

#[cfg(test)]
mod boards;
