//! Tests alone: whole runs in memory. What they answer, reads and writes of which each fails in turn, inputs that are too
//! long, and workers that meet or are held.
#![tactic(auto)]

#[cfg(test)]
mod calls;
#[cfg(test)]
mod gates;
#[cfg(test)]
mod outcomes;
#[cfg(test)]
mod texts;
