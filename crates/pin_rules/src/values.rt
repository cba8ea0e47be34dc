//! The values that a signal can have, in order.
ghost use Rattle.std.specs.Prelude.{◌≡◌, ◌↔◌, List, [], ◌∷◌, ◌++◌, not, filter, length, option_map, Contains, IfOk, IsTrue};
ghost use Rattle.std.specs.List.{list_any};
ghost use Rattle.std.specs.Option.{option_copied, option_map_or};
ghost use Rattle.res_model.specs.Signals.{signal_named, rows_of, role_mode, own_mode, Can, CanUse};
ghost use Rattle.res_model.specs.Values.{is_at, rows_at, rows_elsewhere, use_at, placed, values_from, values_of, home_costs, costs_from, costs_of};

use choice_rank::Costs;
use res_base::OutOfMemory;
use res_model::{Mode, PinUse, Role, Signal, TableSignal, Tables};
use std::alloc::{AllocError, Global};

fn rows_of<'t>(signal: Option<&'t TableSignal>) -> &'t [PinUse]
    ensures { result.now ≡ rows_of (option_copied signal.entry) }
{
    match signal {
        Some(signal) => signal.at.as_slice(),
        None => &[],
    }
}

fn role_mode(role: Role) -> Option<Mode>
    ensures { result ≡ role_mode role }
{
    match role {
        Role::Alt => None,
        Role::Input => Some(Mode::Input),
        Role::Output => Some(Mode::Output),
        Role::Analog => Some(Mode::Analog),
        Role::Exti => Some(Mode::Exti),
        Role::Osc => Some(Mode::Osc),
    }
}

fn own_mode(name: &[u8], signal: Option<&TableSignal>) -> Option<Mode>
    ensures { result ≡ own_mode name.now (option_copied signal.entry) }
{
    match signal {
        Some(signal) => role_mode(signal.role),
        None => {
            if name == b"-".as_slice() {
                Some(Mode::Held)
            } else {
                None
            }
        }
    }
}

fn rows_at(alloc: Global, pin: u8, rows: &[PinUse]) -> Result<Vec<PinUse>, AllocError>
    ensures { IfOk result (λ v. v.items ≡ rows_at pin rows.now) }
{
    rows.iter()
        .copied()
        .filter(|row| row.pin == pin)
        .collect(alloc)
}

fn rows_elsewhere(alloc: Global, pin: u8, rows: &[PinUse]) -> Result<Vec<PinUse>, AllocError>
    ensures { IfOk result (λ v. v.items ≡ rows_elsewhere pin rows.now) }
{
    rows.iter()
        .copied()
        .filter(|row| row.pin != pin)
        .collect(alloc)
}

fn use_at(alloc: Global, pin: u8, own: Option<Mode>) -> Result<Vec<PinUse>, OutOfMemory>
    ensures { IfOk result (λ v. v.items ≡ use_at pin own) }
{
    let mut found = Vec::new(alloc);
    if let Some(mode) = own {
        found.push(PinUse { pin, mode })?;
    }
    Ok(found)
}

fn placed(
    alloc: Global,
    rows: &[PinUse],
    own: Option<Mode>,
    locked: bool,
    home: u8,
) -> Result<Vec<PinUse>, OutOfMemory>
    ensures { IfOk result (λ v. v.items ≡ placed rows.now own locked home) }
{
    if rows.is_empty() {
        return use_at(alloc, home, own);
    }
    let mut values = rows_at(alloc, home, rows)?;
    if locked {
        return Ok(values);
    }
    let others = rows_elsewhere(alloc, home, rows)?;
    values.extend_from_slice(others.as_slice())?;
    Ok(values)
}

/// The values of a signal: a need's rows in table order; another signal's home first, where it has a row
/// there, and then, unless it must stay, its other rows in table order. A signal without rows stays at its home.
#[tactic(auto, unfolding(res_model::specs::Values::values_of))]
pub fn candidates(alloc: Global, t: &Tables, s: &Signal) -> Result<Vec<PinUse>, OutOfMemory>
    ensures { IfOk result (λ v. v.items ≡ values_of t.now s.now) }
{
    let name = s.name.as_str().as_bytes();
    let signal = t.signal_named(name);
    let rows = rows_of(signal);
    match s.home {
        None => Ok(Vec::from_slice(alloc, rows)?),
        Some(home) => placed(alloc, rows, own_mode(name, signal), s.locked, home),
    }
}

fn is_at(rows: &[PinUse], pin: u8) -> bool
    ensures { result ≡ list_any (is_at pin) rows.now }
{
    rows.iter().any(|row| row.pin == pin)
}

/// What the values of a signal cost: leaving a home that is a value costs 1, a signal whose home is no value
/// pays 1 wherever it goes, and a need pays nothing.
#[tactic(auto, unfolding(res_model::specs::Values::costs_of))]
pub fn costs(t: &Tables, s: &Signal) -> Costs
    ensures { result ≡ costs_of t.now s.now }
{
    let signal = t.signal_named(s.name.as_str().as_bytes());
    costs_from(rows_of(signal), s.home)
}

fn costs_from(rows: &[PinUse], home: Option<u8>) -> Costs
    ensures { result ≡ costs_from rows.now home }
{
    let Some(home) = home else {
        return Costs::AllZero;
    };
    if rows.is_empty() || is_at(rows, home) {
        Costs::HomeFirst
    } else {
        Costs::AllOne
    }
}

/// Whether a signal can make this use of a pin (the alternate functions of DS8626, as the table has them):
/// the table has that row, or the signal has no rows and the mode is its own.
pub fn can(t: &Tables, name: &str, at: PinUse) -> bool
    ensures { IsTrue result ↔ Can t.now name.now at }
{
    let signal = t.signal_named(name.as_bytes());
    can_use(rows_of(signal), own_mode(name.as_bytes(), signal), at)
}

fn can_use(rows: &[PinUse], own: Option<Mode>, at: PinUse) -> bool
    ensures { IsTrue result ↔ CanUse rows.now own at }
{
    match rows {
        [] => own == Some(at.mode),
        [_, ..] => has_row(rows, at),
    }
}

fn has_row(rows: &[PinUse], at: PinUse) -> bool
    ensures { IsTrue result ↔ Contains rows.now at }
{
    rows.contains(&at)
}
