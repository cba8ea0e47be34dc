//! The names of pins and signals.
ghost use Rattle.std.specs.Prelude.{◌≡◌, ◌<◌, ◌++◌, IfOk, OnOk};
ghost use Rattle.big_case.specs.Case.{pin, signal_name};

use res_base::{OutOfMemory, put_dec};
use std::alloc::Global;

/// Appends the name of a pin. Pins are counted through the ports, sixteen each.
#[tactic(auto, unfolding(crate::specs::Case::pin))]
pub(crate) fn put_pin(alloc: Global, out: &mut Vec<u8>, k: u64) -> Result<(), OutOfMemory>
    requires { k < 112 }
    ensures { OnOk result (out.new.items ≡ out.old.items ++ pin k) }
{
    out.push(b'P')?;
    out.push(b'A' + (k / 16) as u8)?;
    put_dec(alloc, out, k % 16)?;
    Ok(())
}

/// The name of a signal that may move.
#[tactic(auto, unfolding(crate::specs::Case::signal_name))]
pub(crate) fn signal_name(alloc: Global, j: u64) -> Result<Vec<u8>, OutOfMemory>
    ensures { IfOk result (λ name. name.items ≡ signal_name j) }
{
    let mut name = Vec::from_slice(alloc, b"S")?;
    put_dec(alloc, &mut name, j)?;
    Ok(name)
}
