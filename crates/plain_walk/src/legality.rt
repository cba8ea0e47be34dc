//! What tells which choices are legal.
ghost use Rattle.std.specs.Prelude.{◌≡◌, ℕ, List, Bool, IfOk};

use res_base::OutOfMemory;
use std::alloc::Global;

/// Tells which choices are legal.
pub trait Legality {
    /// The legal choices, as lists of positions.
    ghost legal: { Self → List ℕ → Bool };

    /// Whether a choice is legal.
    fn is_legal(&self, alloc: Global, at: &[u16]) -> Result<bool, OutOfMemory>
        ensures { IfOk result (λ b. b ≡ legal self.now at.now) };
}
