//! What a search along alternating steps has reached, in the order in which it came.
ghost use Rattle.std.specs.Prelude.{◌≡◌, ℕ, ◌+◌, ◌<◌, ◌≤◌, true, false, Option};
ghost use Rattle.pin_match.specs.Walks.{Started, added};

/// The variables that are reached, in the order in which they came, and for each its place
/// in that order and the variable from which it was reached.
#[derive(Drop)]
pub(crate) struct Walk {
    pub queue: [u8; 192],
    pub len: usize,
    pub reached: [bool; 192],
    pub place: [u8; 192],
    pub from: [u8; 192],
}

impl Walk {
    /// Nothing is reached.
    pub(crate) fn new() -> Walk
        ensures { (n : ℕ) (f : ℕ → Option ℕ) → n ≤ 192 → Started n f result 0 }
    {
        Walk {
            queue: [0; 192],
            len: 0,
            reached: [false; 192],
            place: [0; 192],
            from: [0; 192],
        }
    }
}

/// Adds a variable that was not reached, from one that was.
pub(crate) fn reach(walk: &mut Walk, variable: u8, from: u8)
    requires room { walk.old.len < 192 }
    requires variable { variable < 192 }
    ensures { walk.new ≡ added walk.old variable from }
{
    walk.queue[walk.len] = variable;
    walk.reached[variable as usize] = true;
    walk.place[variable as usize] = walk.len as u8;
    walk.from[variable as usize] = from;
    walk.len += 1;
}
