//! Tests alone: lines of an answer, inputs and sinks with their faults, and how a call ends.
#![tactic(auto)]

#[cfg(test)]
mod ends;
#[cfg(test)]
mod lines;
#[cfg(test)]
mod streams;
