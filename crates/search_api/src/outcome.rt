//! The plain data of what a search answers.
use crate::verdict::Reason;
use res_base::Items;

/// Why a search looked no further into a box.
#[derive(Clone, Copy, Debug, PartialEq, Eq)]
pub enum Cause {
    /// No choice of the box is legal.
    Bad(Reason),
    /// A choice of this rank is legal, and the box has none below it.
    Cut { rank: u64 },
    /// The one choice of the box is legal and has this rank.
    Leaf { rank: u64 },
}

/// A path whose box was closed, with the number of the worker that closed it. In this order it takes 64 bytes, else 80.
#[derive(Clone, Copy, Debug, PartialEq, Eq)]
pub struct Closed {
    pub path: u128,
    pub cause: Cause,
    pub worker: u32,
}

/// What a search answers: the least rank of a legal choice, the ranks that it kept on the way,
/// and the boxes that it closed, in the order in which each worker closed them.
#[derive(Debug, Drop)]
pub struct Outcome {
    pub best: Option<u64>,
    pub kept: Items<u64>,
    pub closed: Items<Closed>,
}
