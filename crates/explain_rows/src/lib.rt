//! Tests alone: what is told of projects that fit and of projects that do not.
#![tactic(auto)]

#[cfg(test)]
mod rows;
