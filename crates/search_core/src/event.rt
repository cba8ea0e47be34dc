//! The eight kinds of event.

/// What a worker does next. Workers are numbered from 0.
#[derive(Clone, Copy, Debug, PartialEq, Eq)]
pub enum Event {
    /// It takes the last path of its own deque.
    Pop { worker: u32 },
    /// It takes the first path of another worker's deque.
    Steal { worker: u32, from: u32 },
    /// It splits the box in its hand, whose verdict is open: it keeps the lower half and puts the upper one last into its deque.
    Split { worker: u32 },
    /// It closes the box in its hand for the reason of the verdict.
    CloseBad { worker: u32 },
    /// It closes the box in its hand by the rank that it saw, which is below the box's low.
    Cut { worker: u32 },
    /// It keeps the rank of the one choice of the box in its hand, which is legal, and owes it to the word.
    Keep { worker: u32 },
    /// It offers the rank that it owes: the word becomes the lesser of both.
    Offer { worker: u32 },
    /// It reads the word.
    See { worker: u32 },
}
