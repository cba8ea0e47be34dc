//! The domains of the clock variables.
ghost use Rattle.std.specs.Prelude.{◌≡◌, ◌≤◌, ◌<◌, ◌==◌, List, [], ◌∷◌, codes, map, length, option_map, IfOk};
ghost use Rattle.std.specs.List.{list_any};
ghost use Rattle.res_model.specs.ClockValues.{pll_dividers, ahb_dividers, apb_dividers, known_steps};
ghost use Rattle.table_members.specs.Forms.{nested, member, pair_within, number_within, some_among, one_among};
ghost use Rattle.mcu_tables.specs.Table.{are_paired, steps, clock, limits, over_form, some_over, over, all_limits};
ghost use Rattle.serde_json.specs.View.{view};
ghost use Rattle.table_members.specs.Places.{spelling, path_of, Reads};

use refusal::Refusal;
use res_base::Items;
use res_model::{Bounds, Domains, Over};
use serde_json::Value;
use std::alloc::Global;
use table_members::{
    Flaw, Key, Place, Spot, check_object, member_of, needed, nested, number_at, one_among, pair_at,
    some_among,
};

/// The dividers of AHB, those of APB1 and APB2 (RM0090, RCC_CFGR), those of the PLL's output
/// (RCC_PLLCFGR), and the power steps of parts without over-drive and of parts with it (PWR_CR).
const AHB: [u16; 9] = [1, 2, 4, 8, 16, 64, 128, 256, 512];

const APB: [u16; 5] = [1, 2, 4, 8, 16];

const PLL: [u16; 4] = [2, 4, 6, 8];

const SCALES: [u16; 2] = [1, 2];

const STEPS: [u16; 5] = [1, 2, 3, 4, 5];

fn clock_pair(root: &Value, key: Key, low: u16, high: u16) -> Result<(u16, u16), Refusal<Flaw>>
    ensures { Reads (λ p. p) result (nested (pair_within low high) (spelling Key.Clock) (spelling key) (view root.now)) }
{
    let value = nested(root, Key::Clock, key)?;
    let at = Place::Member(Spot::Nested(Key::Clock, key));
    let (least, greatest) = pair_at(u64::from(low), u64::from(high), at, value)?;
    Ok((least as u16, greatest as u16))
}

fn clock_list(
    alloc: Global,
    root: &Value,
    key: Key,
    these: &[u16],
) -> Result<Items<u16>, Refusal<Flaw>>
    ensures { Reads (λ v. v) result (nested (one_among these.now) (spelling Key.Clock) (spelling key) (view root.now)) }
{
    let value = nested(root, Key::Clock, key)?;
    one_among(alloc, these, Spot::Nested(Key::Clock, key), value)
}

fn pll_list(alloc: Global, root: &Value) -> Result<Items<u16>, Refusal<Flaw>>
    ensures { Reads (λ v. v) result (nested (some_among pll_dividers) (codes "clock") (codes "p") (view root.now)) }
{
    let value = nested(root, Key::Clock, Key::P)?;
    some_among(alloc, &PLL, Spot::Nested(Key::Clock, Key::P), value)
}

/// The power steps that parts of a table's version have.
fn known_steps(version: u8) -> &'static [u16]
    ensures { result.now ≡ known_steps version }
{
    if version == 1 { &SCALES } else { &STEPS }
}

fn has_step(steps: &[u16], step: u16) -> bool
    ensures { result ≡ list_any (λ n. n == step) steps.now }
{
    steps.iter().any(|n| *n == step)
}

/// Whether power steps with scale 2 under over-drive have scale 2 without it too.
fn are_paired(steps: &[u16]) -> bool
    ensures { result ≡ are_paired steps.now }
{
    !has_step(steps, 5) || has_step(steps, 2)
}

#[tactic(auto, unfolding(crate::specs::Table::steps))]
fn steps_at(
    alloc: Global,
    version: u8,
    at: Spot,
    value: &Value,
) -> Result<Items<u16>, Refusal<Flaw>>
    ensures { Reads (λ v. v) result (steps version (path_of at) (view value.now)) }
{
    let steps = one_among(alloc, known_steps(version), at, value)?;
    if are_paired(steps.as_slice()) {
        Ok(steps)
    } else {
        Err(Refusal::Fault(Flaw::BadField(Place::Member(at))))
    }
}

fn step_list(alloc: Global, version: u8, root: &Value) -> Result<Items<u16>, Refusal<Flaw>>
    ensures { Reads (λ v. v) result (nested (steps version) (codes "clock") (codes "vos") (view root.now)) }
{
    let value = nested(root, Key::Clock, Key::Vos)?;
    steps_at(alloc, version, Spot::Nested(Key::Clock, Key::Vos), value)
}

/// The domains of the clock variables, by the table's version.
#[tactic(auto, unfolding(crate::specs::Table::clock))]
pub fn clock_of(alloc: Global, version: u8, root: &Value) -> Result<Domains, Refusal<Flaw>>
    ensures { Reads (λ c. c) result (clock version (view root.now)) }
{
    let m = clock_pair(root, Key::M, 2, 63)?;
    let n = clock_pair(root, Key::N, 50, 432)?;
    let q = clock_pair(root, Key::Q, 2, 15)?;
    let p = pll_list(alloc, root)?;
    let hpre = clock_list(alloc, root, Key::Hpre, &AHB)?;
    let ppre1 = clock_list(alloc, root, Key::Ppre1, &APB)?;
    let ppre2 = clock_list(alloc, root, Key::Ppre2, &APB)?;
    let vos = step_list(alloc, version, root)?;
    Ok(Domains {
        hpre,
        p,
        m,
        n,
        q,
        ppre1,
        ppre2,
        vos,
    })
}

fn limit_pair(root: &Value, key: Key, low: u64, high: u64) -> Result<(u64, u64), Refusal<Flaw>>
    ensures { Reads (λ p. p) result (nested (pair_within low high) (spelling Key.Limits) (spelling key) (view root.now)) }
{
    let value = nested(root, Key::Limits, key)?;
    let at = Place::Member(Spot::Nested(Key::Limits, key));
    pair_at(low, high, at, value)
}

fn limit_number(root: &Value, key: Key, high: u64) -> Result<u64, Refusal<Flaw>>
    ensures { Reads (λ n. n) result (nested (number_within 1 high) (spelling Key.Limits) (spelling key) (view root.now)) }
{
    let value = nested(root, Key::Limits, key)?;
    let at = Place::Member(Spot::Nested(Key::Limits, key));
    number_at(1, high, at, value)
}

/// The limits of the clock tree without over-drive.
#[tactic(auto, unfolding(crate::specs::Table::limits))]
fn limits_of(root: &Value) -> Result<Bounds, Refusal<Flaw>>
    ensures { Reads (λ b. b) result (limits (view root.now)) }
{
    let crystal = limit_pair(root, Key::Crystal, 4000000, 26000000)?;
    let bypass = limit_pair(root, Key::Bypass, 1000000, 50000000)?;
    let vco_in = limit_pair(root, Key::VcoIn, 1000000, 2000000)?;
    let vco = limit_pair(root, Key::Vco, 100000000, 432000000)?;
    let sysclk = limit_number(root, Key::Sysclk, 168000000)?;
    let pclk1 = limit_number(root, Key::Pclk1, 42000000)?;
    let pclk2 = limit_number(root, Key::Pclk2, 84000000)?;
    Ok(Bounds {
        crystal,
        bypass,
        vco_in,
        vco,
        sysclk,
        pclk1,
        pclk2,
    })
}

fn over_number(over: &Value, key: Key, high: u64) -> Result<u64, Refusal<Flaw>>
    ensures { Reads (λ n. n) result (member (number_within 1 high) (path_of (Spot.Nested Key.Limits Key.Over)) (spelling key) (view over.now)) }
{
    let at = Spot::Deep(Key::Limits, Key::Over, key);
    let value = needed(member_of(over, key), at)?;
    number_at(1, high, Place::Member(at), value)
}

#[tactic(auto, unfolding(crate::specs::Table::over_form))]
fn over_at(value: &Value) -> Result<Over, Refusal<Flaw>>
    ensures { Reads (λ o. o) result (over_form (path_of (Spot.Nested Key.Limits Key.Over)) (view value.now)) }
{
    check_object(Place::Member(Spot::Nested(Key::Limits, Key::Over)), value)?;
    let sysclk = over_number(value, Key::Sysclk, 180000000)?;
    let pclk1 = over_number(value, Key::Pclk1, 45000000)?;
    let pclk2 = over_number(value, Key::Pclk2, 90000000)?;
    Ok(Over {
        sysclk,
        pclk1,
        pclk2,
    })
}

#[tactic(auto, unfolding(crate::specs::Table::some_over))]
fn some_over(root: &Value) -> Result<Option<Over>, Refusal<Flaw>>
    ensures { Reads (λ o. o) result (nested some_over (codes "limits") (codes "over") (view root.now)) }
{
    let value = nested(root, Key::Limits, Key::Over)?;
    let over = over_at(value)?;
    Ok(Some(over))
}

/// The limits with over-drive, which tables of version 1 do not have.
#[tactic(auto, unfolding(crate::specs::Table::over))]
fn over_of(version: u8, root: &Value) -> Result<Option<Over>, Refusal<Flaw>>
    ensures { Reads (λ o. o) result (over version (view root.now)) }
{
    if version == 1 {
        Ok(None)
    } else {
        some_over(root)
    }
}

/// The limits of the clock tree without over-drive, and those with it.
#[tactic(auto, unfolding(crate::specs::Table::all_limits))]
pub fn all_limits(version: u8, root: &Value) -> Result<(Bounds, Option<Over>), Refusal<Flaw>>
    ensures { Reads (λ p. p) result (all_limits version (view root.now)) }
{
    let plain = limits_of(root)?;
    let over = over_of(version, root)?;
    Ok((plain, over))
}
