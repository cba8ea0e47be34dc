//! What a worker passes before it judges a box.

/// What a worker passes before it judges a box. Tests hold workers there; no clause speaks of it.
pub trait Gate {
    /// Worker number `worker` comes to its box number `turn`, counted from 0.
    fn pass(&self, worker: u32, turn: u64);
}

/// A gate that is always open.
#[derive(Clone, Copy, Debug, PartialEq, Eq)]
pub struct NoGate;

impl Gate for NoGate {
    fn pass(&self, _worker: u32, _turn: u64) {}
}
