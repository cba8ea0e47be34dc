//! Tests alone: texts of refutations and of C functions, as they are written, read, and refused at a line.
#![tactic(auto)]

#[cfg(test)]
mod c_texts;
#[cfg(test)]
mod refutations;
