//! Reads of the variables' sets.
ghost use Rattle.std.specs.Prelude.{◌≡◌, ◌<◌, ◌≤◌, length, MatchOption};
ghost use Rattle.res_base.specs.VarSet.{NoneFrom, IsNext};
ghost use Rattle.pin_match.specs.Sets.{fits_in};

use res_base::VarSet;

/// The least resource at or above a number in the set of the variable.
pub(crate) fn next_fit(sets: &[VarSet], variable: u8, from: u8) -> Option<u8>
    requires variable { variable < length sets.now }
    requires from { from ≤ 192 }
    ensures { MatchOption result (NoneFrom (fits_in sets.now variable) from) (λ r. IsNext (fits_in sets.now variable) from r) }
{
    sets[variable as usize].next_from(from)
}

/// Whether the resource is in the set of the variable.
pub(crate) fn fits(sets: &[VarSet], variable: u8, resource: u8) -> bool
    requires variable { variable < length sets.now }
    requires resource { resource < 192 }
    ensures { result ≡ fits_in sets.now variable resource }
{
    sets[variable as usize].has(resource)
}
