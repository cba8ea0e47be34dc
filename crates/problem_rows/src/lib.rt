//! Tests alone: problems of a small table, and the limits that clock choices break under the table of an STM32F407.
#![tactic(auto)]

#[cfg(test)]
mod limits;
#[cfg(test)]
mod problems;
