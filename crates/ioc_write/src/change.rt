//! What becomes of a line, by its key.
ghost use Rattle.std.specs.Prelude.{◌≡◌, IfOk};
ghost use Rattle.ioc_write.specs.Plans.{IsPlan};
ghost use Rattle.ioc_write.specs.WriteBack.{change_by, change_of_key, keyed_by, naming, named_by, variable_of};
ghost use Rattle.ioc_text.specs.Lines.{undone};

use crate::fate::Fate;
use crate::keys::pin_part;
use crate::plan::Plan;
use crate::variable::{Variable, variable_of};
use ioc_text::{pin_number, undo_into};
use res_base::OutOfMemory;

/// What becomes of a line.
#[derive(Clone, Copy, Debug, PartialEq, Eq)]
pub(crate) enum Change {
    /// It stays.
    Kept,
    Dropped,
    /// As a line `Mcu.Pin<k>` it names the pin at this place.
    Named(u8),
    /// Its key is of the pin at this place.
    Renamed(u8),
    /// It has the value of this variable in the choice.
    Set(Variable),
    /// It has the number of keys `Mcu.Pin<k>`.
    Counted,
}

fn naming(fate: Fate) -> Change
    ensures { result ≡ naming fate }
{
    match fate {
        Fate::Moved(pin) => Change::Named(pin),
        Fate::Kept | Fate::Taken => Change::Kept,
    }
}

fn keyed_by(fate: Fate) -> Change
    ensures { result ≡ keyed_by fate }
{
    match fate {
        Fate::Kept => Change::Kept,
        Fate::Moved(pin) => Change::Renamed(pin),
        Fate::Taken => Change::Dropped,
    }
}

/// What becomes of a line `Mcu.Pin<k>` with this value.
fn named_by(plan: &Plan<'_>, scratch: &mut Vec<u8>, value: &[u8]) -> Result<Change, OutOfMemory>
    requires { IsPlan plan.now }
    ensures { IfOk result (λ c. c ≡ named_by plan.now.problem.now plan.now.at.now (undone value.now)) }
{
    if undo_into(scratch, value)? {
        Ok(naming(plan.fate_named(scratch.as_slice())))
    } else {
        Ok(Change::Kept)
    }
}

/// What becomes of a line of another key.
fn change_of_key(plan: &Plan<'_>, key: &[u8]) -> Change
    requires { IsPlan plan.now }
    ensures { result ≡ change_of_key plan.now.problem.now plan.now.at.now key.now (variable_of key.now) }
{
    match variable_of(key) {
        Some(v) => {
            if plan.is_away(v) {
                Change::Set(v)
            } else {
                Change::Kept
            }
        }
        None => keyed_by(plan.fate_named(pin_part(key))),
    }
}

/// What becomes of a line whose key stands in `key`, which is used up.
#[tactic(auto, unfolding(crate::specs::WriteBack::change_by))]
pub(crate) fn change_by(
    plan: &Plan<'_>,
    key: &mut Vec<u8>,
    value: &[u8],
) -> Result<Change, OutOfMemory>
    requires { IsPlan plan.now }
    ensures { IfOk result (λ c. c ≡ change_by plan.now.problem.now plan.now.at.now key.old.items value.now) }
{
    if pin_number(key.as_slice()).is_some() {
        named_by(plan, key, value)
    } else if key.as_slice() == b"Mcu.PinsNb".as_slice() {
        Ok(Change::Counted)
    } else {
        Ok(change_of_key(plan, key.as_slice()))
    }
}
