//! Tests alone: texts and numbers, shapes, boxes, registers, the text of a clock choice, and a made case.
#![tactic(auto)]

#[cfg(test)]
mod boxes;
#[cfg(test)]
mod cases;
#[cfg(test)]
mod clocks;
#[cfg(test)]
mod registers;
#[cfg(test)]
mod shapes;
#[cfg(test)]
mod texts;
