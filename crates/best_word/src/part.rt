//! The part of a seat.

/// What a seat is among those of its word.
#[derive(Clone, Copy, Debug, PartialEq, Eq)]
pub enum Part {
    /// It was made with the word; it alone makes seats and takes them back.
    First,
    /// It was made by the first one, and is out.
    Other,
    /// It was taken back.
    Spent,
}
