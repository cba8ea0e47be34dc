//! Tests alone: lists of events, and searches by several workers, over the judge of a problem in which two
//! signals compete for a pin.
#![tactic(auto)]

#[cfg(test)]
mod events;
#[cfg(test)]
mod judge;
#[cfg(test)]
mod searches;
#[cfg(test)]
mod seats;
