//! The table.
ghost use Rattle.std.specs.Prelude.{◌≡◌, ◌<◌, ◌++◌, IfOk, OnOk};
ghost use Rattle.big_case.specs.Case.{before_name, before_rows, head, joined, last_pins, last_signals, listed_pin, moving_signal, needed_signals, rest, row, signal_row, table_text, two_rows};

use crate::pins::{put_pin, signal_name};
use crate::rest::{domains, flash, limits, oscillator, scales, start};
use res_base::{OutOfMemory, put_dec};
use std::alloc::Global;

#[tactic(auto, unfolding(crate::specs::Case::head))]
fn head() -> &'static [u8]
    ensures { result.now ≡ head }
{
    br#"{"version":1,"names":["CASE"],"package":"CASE",
"pins":[
"#
}

#[tactic(auto, unfolding(crate::specs::Case::listed_pin))]
fn put_listed_pin(alloc: Global, out: &mut Vec<u8>, k: u64) -> Result<(), OutOfMemory>
    requires { k < 112 }
    ensures { OnOk result (out.new.items ≡ out.old.items ++ listed_pin k) }
{
    out.push(b'"')?;
    put_pin(alloc, out, k)?;
    out.extend_from_slice(b"\",\n")?;
    Ok(())
}

/// All pins of the ports A to G.
fn put_pins(alloc: Global, out: &mut Vec<u8>) -> Result<(), OutOfMemory>
    ensures { OnOk result (out.new.items ≡ out.old.items ++ joined 112 listed_pin) }
{
    for k in 0..112 {
        put_listed_pin(alloc, out, k)?;
    }
    Ok(())
}

#[tactic(auto, unfolding(crate::specs::Case::last_pins))]
fn last_pins() -> &'static [u8]
    ensures { result.now ≡ last_pins }
{
    br#""PH0","PH1","PI0"],
"signals":[
"#
}

/// A pin with the alternate function that brings the signal there.
#[tactic(auto, unfolding(crate::specs::Case::row))]
fn put_row(alloc: Global, out: &mut Vec<u8>, k: u64, function: u64) -> Result<(), OutOfMemory>
    requires { k < 112 }
    ensures { OnOk result (out.new.items ≡ out.old.items ++ row k function) }
{
    out.extend_from_slice(b"[\"")?;
    put_pin(alloc, out, k)?;
    out.extend_from_slice(b"\",")?;
    put_dec(alloc, out, function)?;
    out.push(b']')?;
    Ok(())
}

#[tactic(auto, unfolding(crate::specs::Case::two_rows))]
fn put_two_rows(
    alloc: Global,
    out: &mut Vec<u8>,
    function: u64,
    first: u64,
    second: u64,
) -> Result<(), OutOfMemory>
    requires first { first < 112 }
    requires second { second < 112 }
    ensures { OnOk result (out.new.items ≡ out.old.items ++ two_rows function first second) }
{
    put_row(alloc, out, first, function)?;
    out.push(b',')?;
    put_row(alloc, out, second, function)?;
    Ok(())
}

#[tactic(auto, unfolding(crate::specs::Case::before_name))]
fn before_name() -> &'static [u8]
    ensures { result.now ≡ before_name }
{
    br#"{"name":""#
}

#[tactic(auto, unfolding(crate::specs::Case::before_rows))]
fn before_rows() -> &'static [u8]
    ensures { result.now ≡ before_rows }
{
    br#"","use":"alt","at":["#
}

/// A signal that can be at either of two pins.
#[tactic(auto, unfolding(crate::specs::Case::signal_row))]
fn put_signal(
    alloc: Global,
    out: &mut Vec<u8>,
    name: &[u8],
    function: u64,
    first: u64,
    second: u64,
) -> Result<(), OutOfMemory>
    requires first { first < 112 }
    requires second { second < 112 }
    ensures { OnOk result (out.new.items ≡ out.old.items ++ signal_row name.now function first second) }
{
    out.extend_from_slice(before_name())?;
    out.extend_from_slice(name)?;
    out.extend_from_slice(before_rows())?;
    put_two_rows(alloc, out, function, first, second)?;
    out.extend_from_slice(b"]},\n")?;
    Ok(())
}

#[tactic(auto, unfolding(crate::specs::Case::moving_signal))]
fn put_moving_signal(alloc: Global, out: &mut Vec<u8>, j: u64) -> Result<(), OutOfMemory>
    requires { j < 13 }
    ensures { OnOk result (out.new.items ≡ out.old.items ++ moving_signal j) }
{
    let name = signal_name(alloc, j)?;
    put_signal(alloc, out, name.as_slice(), 1, j, 16 + j)?;
    Ok(())
}

/// The signals that are on ports A or B.
fn put_moving_signals(alloc: Global, out: &mut Vec<u8>) -> Result<(), OutOfMemory>
    ensures { OnOk result (out.new.items ≡ out.old.items ++ joined 13 moving_signal) }
{
    for j in 0..13 {
        put_moving_signal(alloc, out, j)?;
    }
    Ok(())
}

/// The two signals that are needed besides.
#[tactic(auto, unfolding(crate::specs::Case::needed_signals))]
fn put_needed_signals(alloc: Global, out: &mut Vec<u8>, number: u64) -> Result<(), OutOfMemory>
    ensures { OnOk result (out.new.items ≡ out.old.items ++ needed_signals number) }
{
    let a = number % 13;
    put_signal(alloc, out, b"N0", 2, a, (a + 1) % 13)?;
    put_signal(alloc, out, b"N1", 2, (a + 2) % 13, (a + 3) % 13)?;
    Ok(())
}

#[tactic(auto, unfolding(crate::specs::Case::last_signals))]
fn last_signals() -> &'static [u8]
    ensures { result.now ≡ last_signals }
{
    br#"{"name":"OUT","use":"output"},
{"name":"OSC_IN","use":"osc","at":["PH0"]},
{"name":"OSC_OUT","use":"osc","at":["PH1"]},
{"name":"CASE_USB","use":"alt","ip":"CASE_USB","at":[["PI0",10]]}],
"#
}

/// All behind the signals.
#[tactic(auto, unfolding(crate::specs::Case::rest))]
fn put_rest(out: &mut Vec<u8>) -> Result<(), OutOfMemory>
    ensures { OnOk result (out.new.items ≡ out.old.items ++ rest) }
{
    out.extend_from_slice(oscillator())?;
    out.extend_from_slice(domains())?;
    out.extend_from_slice(limits())?;
    out.extend_from_slice(scales())?;
    out.extend_from_slice(flash())?;
    out.extend_from_slice(start())?;
    Ok(())
}

/// The text of the table.
#[tactic(auto, unfolding(crate::specs::Case::table_text))]
pub(crate) fn table_text(alloc: Global, number: u64) -> Result<Vec<u8>, OutOfMemory>
    ensures { IfOk result (λ x. x.items ≡ table_text number) }
{
    let mut out = Vec::from_slice(alloc, head())?;
    put_pins(alloc, &mut out)?;
    out.extend_from_slice(last_pins())?;
    put_moving_signals(alloc, &mut out)?;
    put_needed_signals(alloc, &mut out, number)?;
    out.extend_from_slice(last_signals())?;
    put_rest(&mut out)?;
    Ok(out)
}
