//! Tests alone: rows of the readers. What tables, lines and projects say, and which fault comes first.
#![tactic(auto)]

#[cfg(test)]
mod lines;
#[cfg(test)]
mod projects;
#[cfg(test)]
mod tables;
