//! Tests alone: sample rates over a whole table, runs of their writes on the machine, and what it forbids.
#![tactic(auto)]

#[cfg(test)]
mod asked;
#[cfg(test)]
mod rules;
#[cfg(test)]
mod tests;
