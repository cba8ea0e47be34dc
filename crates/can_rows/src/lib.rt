//! Tests alone: worked bit timings of a CAN bus, and requests that none serves.
#![tactic(auto)]

#[cfg(test)]
mod timings;
