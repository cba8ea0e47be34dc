//! Tests alone: matchers, deques, seats of the word, one worker's search, and the checker of trees, over small judges.
#![tactic(auto)]

#[cfg(test)]
mod deques;
#[cfg(test)]
mod matchers;
#[cfg(test)]
mod searches;
#[cfg(test)]
mod trees;
#[cfg(test)]
mod words;
