//! The homes of the clock variables, where a project gives none.
ghost use Rattle.std.specs.Prelude.{◌≡◌, ◌≤◌, ◌<◌, List, [], ◌∷◌, codes, map, length, option_map, option_and_then, IfOk};
ghost use Rattle.std.specs.Str.{bytes_eq};
ghost use Rattle.table_members.specs.Forms.{nested, object_if_there, below, number_within, number_among};
ghost use Rattle.mcu_tables.specs.Table.{source_of, pll_source_of, source_form, pll_source_form, default_sources, default_factors, default_buses, defaults};
ghost use Rattle.serde_json.specs.Find.{get};
ghost use Rattle.serde_json.specs.View.{view};
ghost use Rattle.table_members.specs.Places.{spelling, spelled, path_of, Reads};

use refusal::Refusal;
use res_model::Domains;
use serde_json::Value;
use table_members::{Flaw, Key, Place, Spot, among_at, member_of, nested, number_at};

#[tactic(auto, unfolding(crate::specs::Table::source_of))]
fn source_of(word: &str) -> Option<u64>
    ensures { result ≡ source_of word.now }
{
    if word == "HSI" {
        Some(0)
    } else if word == "HSE" {
        Some(1)
    } else if word == "PLL" {
        Some(2)
    } else {
        None
    }
}

#[tactic(auto, unfolding(crate::specs::Table::pll_source_of))]
fn pll_source_of(word: &str) -> Option<u64>
    ensures { result ≡ pll_source_of word.now }
{
    if word == "HSI" {
        Some(0)
    } else if word == "HSE" {
        Some(1)
    } else {
        None
    }
}

#[tactic(auto, unfolding(crate::specs::Table::source_form))]
fn source_at(at: Place, value: &Value) -> Result<u64, Refusal<Flaw>>
    ensures { Reads (λ n. n) result (source_form (spelled at) (view value.now)) }
{
    let Some(word) = value.as_str() else {
        return Err(Refusal::Fault(Flaw::BadField(at)));
    };
    match source_of(word) {
        Some(source) => Ok(source),
        None => Err(Refusal::Fault(Flaw::BadField(at))),
    }
}

#[tactic(auto, unfolding(crate::specs::Table::pll_source_form))]
fn pll_source_at(at: Place, value: &Value) -> Result<u64, Refusal<Flaw>>
    ensures { Reads (λ n. n) result (pll_source_form (spelled at) (view value.now)) }
{
    let Some(word) = value.as_str() else {
        return Err(Refusal::Fault(Flaw::BadField(at)));
    };
    match pll_source_of(word) {
        Some(source) => Ok(source),
        None => Err(Refusal::Fault(Flaw::BadField(at))),
    }
}

fn among(root: &Value, key: Key, these: &[u16]) -> Result<u64, Refusal<Flaw>>
    ensures { Reads (λ n. n) result (nested (number_among these.now) (spelling Key.Defaults) (spelling key) (view root.now)) }
{
    let value = nested(root, Key::Defaults, key)?;
    let n = among_at(
        these,
        Place::Member(Spot::Nested(Key::Defaults, key)),
        value,
    )?;
    Ok(u64::from(n))
}

fn within(root: &Value, key: Key, low: u64, high: u64) -> Result<u64, Refusal<Flaw>>
    ensures { Reads (λ n. n) result (nested (number_within low high) (spelling Key.Defaults) (spelling key) (view root.now)) }
{
    let value = nested(root, Key::Defaults, key)?;
    number_at(
        low,
        high,
        Place::Member(Spot::Nested(Key::Defaults, key)),
        value,
    )
}

#[tactic(auto, unfolding(table_members::specs::Forms::object_if_there))]
fn check_defaults(root: &Value) -> Result<(), Refusal<Flaw>>
    ensures { Reads (λ u. u) result (object_if_there (path_of (Spot.Top Key.Defaults)) (get (spelling Key.Defaults) (view root.now))) }
{
    match member_of(root, Key::Defaults) {
        Some(value) if value.is_object() => Ok(()),
        Some(_) => Err(Refusal::Fault(Flaw::BadField(Place::Member(Spot::Top(Key::Defaults))))),
        None => Ok(()),
    }
}

fn src_of(root: &Value) -> Result<u64, Refusal<Flaw>>
    ensures { Reads (λ n. n) result (nested source_form (codes "defaults") (codes "src") (view root.now)) }
{
    let value = nested(root, Key::Defaults, Key::Src)?;
    source_at(Place::Member(Spot::Nested(Key::Defaults, Key::Src)), value)
}

fn psrc_of(root: &Value) -> Result<u64, Refusal<Flaw>>
    ensures { Reads (λ n. n) result (nested pll_source_form (codes "defaults") (codes "psrc") (view root.now)) }
{
    let value = nested(root, Key::Defaults, Key::Psrc)?;
    pll_source_at(Place::Member(Spot::Nested(Key::Defaults, Key::Psrc)), value)
}

#[tactic(auto, unfolding(crate::specs::Table::default_sources))]
fn sources_of(root: &Value) -> Result<(u64, u64), Refusal<Flaw>>
    ensures { Reads (λ s. s) result (default_sources (view root.now)) }
{
    let src = src_of(root)?;
    let psrc = psrc_of(root)?;
    Ok((src, psrc))
}

#[tactic(auto, unfolding(crate::specs::Table::default_factors))]
fn factors_of(clock: &Domains, root: &Value) -> Result<(u64, u64, u64, u64, u64), Refusal<Flaw>>
    ensures { Reads (λ f. f) result (default_factors clock.now (view root.now)) }
{
    let hpre = among(root, Key::Hpre, clock.hpre.as_slice())?;
    let p = among(root, Key::P, clock.p.as_slice())?;
    let m = within(root, Key::M, u64::from(clock.m.0), u64::from(clock.m.1))?;
    let n = within(root, Key::N, u64::from(clock.n.0), u64::from(clock.n.1))?;
    let q = within(root, Key::Q, u64::from(clock.q.0), u64::from(clock.q.1))?;
    Ok((hpre, p, m, n, q))
}

#[tactic(auto, unfolding(crate::specs::Table::default_buses))]
fn buses_of(clock: &Domains, root: &Value) -> Result<(u64, u64, u64), Refusal<Flaw>>
    ensures { Reads (λ b. b) result (default_buses clock.now (view root.now)) }
{
    let ppre1 = among(root, Key::Ppre1, clock.ppre1.as_slice())?;
    let ppre2 = among(root, Key::Ppre2, clock.ppre2.as_slice())?;
    let vos = among(root, Key::Vos, clock.vos.as_slice())?;
    Ok((ppre1, ppre2, vos))
}

/// The defaults of the clock variables, each in its domain, and the HSE value in hertz.
#[tactic(auto, unfolding(crate::specs::Table::defaults))]
pub fn defaults_of(clock: &Domains, root: &Value) -> Result<([u64; 10], u64), Refusal<Flaw>>
    ensures { Reads (λ d. d) result (defaults clock.now (view root.now)) }
{
    check_defaults(root)?;
    let (src, psrc) = sources_of(root)?;
    let (hpre, p, m, n, q) = factors_of(clock, root)?;
    let (ppre1, ppre2, vos) = buses_of(clock, root)?;
    let hse = within(root, Key::Hse, 0, 4294967295)?;
    Ok(([src, psrc, hpre, p, m, n, q, ppre1, ppre2, vos], hse))
}
