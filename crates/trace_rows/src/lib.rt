//! C texts traced over a whole table, by hand. It has tests alone.
#![tactic(auto)]

#[cfg(test)]
mod asked;
#[cfg(test)]
mod tests;
