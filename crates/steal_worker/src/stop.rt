//! When the workers of a search stop. No clause rests on it.
use std::sync::atomic::{AtomicBool, AtomicU64, Ordering};

/// The number of paths whose boxes are not all closed, of those that are or were in a deque, and whether all are to stop
/// before it is 0. Boxes are not counted one by one: workers would wait for one another at each.
#[derive(Drop)]
pub struct Stop {
    open: AtomicU64,
    stopped: AtomicBool,
}

impl Stop {
    /// One path is open, path 1.
    pub fn new() -> Stop {
        Stop {
            open: AtomicU64::new(1),
            stopped: AtomicBool::new(false),
        }
    }

    /// A path goes into a deque.
    pub fn one_more(&self) {
        self.open.fetch_add(1, Ordering::SeqCst);
    }

    /// All boxes below a path of a deque are closed, or it did not go in.
    pub fn one_less(&self) {
        self.open.fetch_sub(1, Ordering::SeqCst);
    }

    /// No path is open, and so no box.
    pub fn all_closed(&self) -> bool {
        self.open.load(Ordering::SeqCst) == 0
    }

    /// Tells all workers to stop. It is never taken back.
    pub fn stop(&self) {
        self.stopped.store(true, Ordering::SeqCst);
    }

    pub fn is_stopped(&self) -> bool {
        self.stopped.load(Ordering::SeqCst)
    }
}
