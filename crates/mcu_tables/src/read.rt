//! A table, path by path.
ghost use Rattle.std.specs.Prelude.{◌≡◌, ◌≤◌, ◌<◌, ℕ, List, codes, length, slice_index, IfOk};
ghost use Rattle.res_base.specs.Lists.{Each};
ghost use Rattle.refusal.specs.Refusals.{Gives};
ghost use Rattle.res_model.specs.Valid.{IsValid};
ghost use Rattle.table_members.specs.declared.fault.TableFault.TheVariants as fault;
ghost use Rattle.serde_json.specs.Find.{get};
ghost use Rattle.table_members.specs.Forms.{due, top, number_within, list, distinct_text, text};
ghost use Rattle.mcu_tables.specs.Table.{pin, signal, ip, clock, all_limits, scales, flash_range, defaults, reset_fault, unless_illegal, legal, hse_names, supply, table, tables_of};
ghost use Rattle.serde_json.specs.View.{view};
ghost use Rattle.table_members.specs.Places.{spelling, spelled, path_of, Reads};

use crate::clock::{all_limits, clock_of};
use crate::defaults::defaults_of;
use crate::flash::flash_of;
use crate::ips::ips_of;
use crate::pins::pins_of;
use crate::reset::reset_fault;
use crate::scales::scales_of;
use crate::signals::signals_of;
use refusal::Refusal;
use res_base::{Items, Text};
use res_model::{FlashRange, Ip, Pin, Scale, TableParts, TableSignal, Tables};
use serde_json::Value;
use std::alloc::Global;
use table_members::{
    Flaw, Key, Place, Spot, TableFault, distinct_texts, member_of, needed, number_at,
    spelled_fault, text_at, value_of,
};

/// A member of the table, which has to be there.
fn member(root: &Value, key: Key) -> Result<&Value, Refusal<Flaw>>
    ensures { Reads (λ v. view v.now) result (due (fault.Missing (path_of (Spot.Top key))) (get (spelling key) (view root.now))) }
{
    needed(member_of(root, key), Spot::Top(key))
}

fn version(root: &Value) -> Result<u8, Refusal<Flaw>>
    ensures { Reads (λ n. n) result (top (number_within 1 2) (codes "version") (view root.now)) }
{
    let value = member(root, Key::Version)?;
    let version = number_at(1, 2, Place::Member(Spot::Top(Key::Version)), value)?;
    Ok(version as u8)
}

fn names(alloc: Global, root: &Value) -> Result<Items<Text>, Refusal<Flaw>>
    ensures { Reads (λ v. v) result (top (list 1 64 distinct_text) (codes "names") (view root.now)) }
{
    let value = member(root, Key::Names)?;
    distinct_texts(alloc, Spot::Top(Key::Names), value, 1, 64)
}

fn top_text(alloc: Global, root: &Value, key: Key) -> Result<Text, Refusal<Flaw>>
    ensures { Reads (λ t. t) result (top text (spelling key) (view root.now)) }
{
    let value = member(root, key)?;
    let text = text_at(Place::Member(Spot::Top(key)), value)?;
    Ok(Text::copy(alloc, text)?)
}

fn pins(alloc: Global, root: &Value) -> Result<Items<Pin>, Refusal<Flaw>>
    ensures reads { Reads (λ v. v) result (top (list 0 144 pin) (codes "pins") (view root.now)) }
    ensures few { IfOk result (λ v. length v ≤ 144) }
{
    let value = member(root, Key::Pins)?;
    pins_of(alloc, value)
}

fn signals(alloc: Global, pins: &[Pin], root: &Value) -> Result<Items<TableSignal>, Refusal<Flaw>>
    requires { length pins.now ≤ 144 }
    ensures { Reads (λ v. v) result (top (list 0 2000 (signal pins.now)) (codes "signals") (view root.now)) }
{
    let value = member(root, Key::Signals)?;
    signals_of(alloc, pins, value)
}

fn ips(alloc: Global, root: &Value) -> Result<Items<Ip>, Refusal<Flaw>>
    ensures { Reads (λ v. v) result (top (list 0 64 ip) (codes "ips") (view root.now)) }
{
    let value = member(root, Key::Ips)?;
    ips_of(alloc, value)
}

/// The names of the signals of the oscillator's pins.
#[tactic(auto, unfolding(crate::specs::Table::hse_names))]
fn hse_names(alloc: Global, root: &Value) -> Result<(Text, Text), Refusal<Flaw>>
    ensures { Reads (λ p. p) result (hse_names (view root.now)) }
{
    let hse_in = top_text(alloc, root, Key::HseIn)?;
    let hse_out = top_text(alloc, root, Key::HseOut)?;
    Ok((hse_in, hse_out))
}

fn scales(alloc: Global, vos: &[u16], root: &Value) -> Result<Items<Scale>, Refusal<Flaw>>
    requires small { (k : ℕ) → k < length vos.now → slice_index vos.now k < 256 }
    ensures { Reads (λ v. v) result (top (scales vos.now) (codes "scales") (view root.now)) }
{
    let value = member(root, Key::Scales)?;
    scales_of(alloc, vos, value)
}

fn flash(alloc: Global, root: &Value) -> Result<Items<FlashRange>, Refusal<Flaw>>
    ensures { Reads (λ v. v) result (top (list 0 16 flash_range) (codes "flash") (view root.now)) }
{
    let value = member(root, Key::Flash)?;
    flash_of(alloc, value)
}

/// What the supply allows: the greatest HCLK at each power step, and the flash ranges.
#[tactic(auto, unfolding(crate::specs::Table::supply))]
fn supply(
    alloc: Global,
    vos: &[u16],
    root: &Value,
) -> Result<(Items<Scale>, Items<FlashRange>), Refusal<Flaw>>
    requires small { (k : ℕ) → k < length vos.now → slice_index vos.now k < 256 }
    ensures { Reads (λ p. p) result (supply vos.now (view root.now)) }
{
    let scales = scales(alloc, vos, root)?;
    let flash = flash(alloc, root)?;
    Ok((scales, flash))
}

#[tactic(auto, unfolding(crate::specs::Table::legal))]
fn legal(parts: TableParts) -> Result<TableParts, Refusal<Flaw>>
    ensures { Reads (λ t. t) result (legal parts) }
{
    match reset_fault(&parts) {
        Some(limit) => Err(Refusal::Fault(Flaw::ResetIllegal(limit))),
        None => Ok(parts),
    }
}

#[tactic(auto, unfolding(crate::specs::Table::table))]
fn table(alloc: Global, root: &Value) -> Result<TableParts, Refusal<Flaw>>
    ensures { Reads (λ t. t) result (table (view root.now)) }
{
    let version = version(root)?;
    let names = names(alloc, root)?;
    let package = top_text(alloc, root, Key::Package)?;
    let pins = pins(alloc, root)?;
    let signals = signals(alloc, pins.as_slice(), root)?;
    let (hse_in, hse_out) = hse_names(alloc, root)?;
    let ips = ips(alloc, root)?;
    let clock = clock_of(alloc, version, root)?;
    let (limits, over) = all_limits(version, root)?;
    let (scales, flash) = supply(alloc, clock.vos.as_slice(), root)?;
    let (defaults, hse_hz) = defaults_of(&clock, root)?;
    legal(TableParts {
        version,
        names,
        package,
        pins,
        signals,
        hse_in,
        hse_out,
        ips,
        clock,
        limits,
        over,
        scales,
        flash,
        defaults,
        hse_hz,
    })
}

#[tactic(auto, unfolding(crate::specs::Table::tables_of))]
fn parts_of(alloc: Global, bytes: &[u8]) -> Result<TableParts, Refusal<Flaw>>
    ensures { Reads (λ t. t) result (tables_of bytes.now) }
{
    let root = value_of(alloc, bytes)?;
    table(alloc, &root)
}

/// Reads a table from its JSON text. The fault is the first in the order of the table form, with its
/// path, as in `/clock/hpre/0`.
pub fn read_tables(alloc: Global, text: &[u8]) -> Result<Tables, Refusal<TableFault>>
    ensures { Gives (λ t. t) result (tables_of text.now) }
{
    match parts_of(alloc, text) {
        Ok(parts) => Ok(Tables::of(alloc, parts)?),
        Err(Refusal::Fault(flaw)) => Err(Refusal::Fault(spelled_fault(alloc, flaw)?)),
        Err(Refusal::OutOfMemory) => Err(Refusal::OutOfMemory),
    }
}
