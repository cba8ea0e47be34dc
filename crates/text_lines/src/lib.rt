//! A text as lines, and a line as fields, divided by single spaces.
#![tactic(auto)]

mod lines;

pub use lines::{ended_line, first_field, first_line};
