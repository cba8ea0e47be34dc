//! Tests alone: lines of words, and what they ask for or the word at fault.
#![tactic(auto)]

#[cfg(test)]
mod asked;
#[cfg(test)]
mod faults;
