//! A fault that has a name, or out of memory.
use res_base::OutOfMemory;
use std::alloc::{AllocError, AllocFailed};

/// Why a call that takes memory was refused: by a fault of what it was given, or because memory ran out.
///
/// Definitions know faults alone; a call is out of memory when an allocation is refused, and no definition says when.
#[derive(Clone, Copy, Debug, Drop, PartialEq, Eq)]
pub enum Refusal<F> {
    Fault(F),
    OutOfMemory,
}

impl<F> From<OutOfMemory> for Refusal<F> {
    ghost use Rattle.std.specs.Prelude.{◌≡◌};
    ghost use Rattle.refusal.specs.declared.refusal.Refusal.TheVariants.{OutOfMemory};

    ghost from_gives = { λ _ e. e ≡ OutOfMemory };

    fn from(_e: OutOfMemory) -> Refusal<F> {
        Refusal::OutOfMemory
    }
}

impl<F> From<AllocError> for Refusal<F> {
    ghost use Rattle.std.specs.Prelude.{◌≡◌};
    ghost use Rattle.refusal.specs.declared.refusal.Refusal.TheVariants.{OutOfMemory};

    ghost from_gives = { λ _ e. e ≡ OutOfMemory };

    fn from(_e: AllocError) -> Refusal<F> {
        Refusal::OutOfMemory
    }
}

impl<T: Drop, F> From<AllocFailed<T>> for Refusal<F> {
    ghost use Rattle.std.specs.Prelude.{◌≡◌};
    ghost use Rattle.refusal.specs.declared.refusal.Refusal.TheVariants.{OutOfMemory};

    ghost from_gives = { λ _ e. e ≡ OutOfMemory };

    fn from(_e: AllocFailed<T>) -> Refusal<F> {
        Refusal::OutOfMemory
    }
}
