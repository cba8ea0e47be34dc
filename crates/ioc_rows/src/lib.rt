//! Tests alone: projects of a small table, written back with their least choice.
#![tactic(auto)]

#[cfg(test)]
mod rows;
