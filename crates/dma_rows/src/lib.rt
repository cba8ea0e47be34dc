//! Tests alone: which fault of a table's requests comes first, requests of a table, what is due for them, and their refutations.
#![tactic(auto)]

#[cfg(test)]
mod rows;
#[cfg(test)]
mod tables;
