//! A copy of a table.
ghost use Rattle.std.specs.Prelude.{◌≡◌, IfOk};

use crate::table::{Domains, FlashRange, Ip, Pin, PinUse, Scale, TableParts, TableSignal};
use res_base::{Items, OutOfMemory, Text};
use std::alloc::Global;

fn copy_text(alloc: Global, text: &Text) -> Result<Text, OutOfMemory>
    ensures { IfOk result (λ t. t ≡ text.now) }
{
    Text::copy(alloc, text.as_str())
}

fn copy_some_text(alloc: Global, text: &Option<Text>) -> Result<Option<Text>, OutOfMemory>
    ensures { IfOk result (λ t. t ≡ text.now) }
{
    match text {
        Some(text) => Ok(Some(copy_text(alloc, text)?)),
        None => Ok(None),
    }
}

fn copy_texts(alloc: Global, texts: &[Text]) -> Result<Items<Text>, OutOfMemory>
    ensures { IfOk result (λ v. v ≡ texts.now) }
{
    let mut found = Vec::new(alloc);
    for text in texts {
        found.push(copy_text(alloc, text)?)?;
    }
    Ok(Items::of(found))
}

fn copy_small(alloc: Global, numbers: &[u16]) -> Result<Items<u16>, OutOfMemory>
    ensures { IfOk result (λ v. v ≡ numbers.now) }
{
    let mut found = Vec::new(alloc);
    found.extend_from_slice(numbers)?;
    Ok(Items::of(found))
}

fn copy_numbers(alloc: Global, numbers: &[u64]) -> Result<Items<u64>, OutOfMemory>
    ensures { IfOk result (λ v. v ≡ numbers.now) }
{
    let mut found = Vec::new(alloc);
    found.extend_from_slice(numbers)?;
    Ok(Items::of(found))
}

fn copy_rows(alloc: Global, rows: &[PinUse]) -> Result<Items<PinUse>, OutOfMemory>
    ensures { IfOk result (λ v. v ≡ rows.now) }
{
    let mut found = Vec::new(alloc);
    for row in rows {
        found.push(*row)?;
    }
    Ok(Items::of(found))
}

fn copy_scales(alloc: Global, scales: &[Scale]) -> Result<Items<Scale>, OutOfMemory>
    ensures { IfOk result (λ v. v ≡ scales.now) }
{
    let mut found = Vec::new(alloc);
    for scale in scales {
        found.push(*scale)?;
    }
    Ok(Items::of(found))
}

fn copy_pin(alloc: Global, pin: &Pin) -> Result<Pin, OutOfMemory>
    ensures { IfOk result (λ p. p ≡ pin.now) }
{
    let name = copy_text(alloc, &pin.name)?;
    Ok(Pin {
        name,
        port: pin.port,
        number: pin.number,
    })
}

fn copy_pins(alloc: Global, pins: &[Pin]) -> Result<Items<Pin>, OutOfMemory>
    ensures { IfOk result (λ v. v ≡ pins.now) }
{
    let mut found = Vec::new(alloc);
    for pin in pins {
        found.push(copy_pin(alloc, pin)?)?;
    }
    Ok(Items::of(found))
}

fn copy_signal(alloc: Global, signal: &TableSignal) -> Result<TableSignal, OutOfMemory>
    ensures { IfOk result (λ s. s ≡ signal.now) }
{
    let name = copy_text(alloc, &signal.name)?;
    let ip = copy_some_text(alloc, &signal.ip)?;
    let at = copy_rows(alloc, signal.at.as_slice())?;
    Ok(TableSignal {
        name,
        role: signal.role,
        ip,
        drain: signal.drain,
        at,
    })
}

fn copy_signals(alloc: Global, signals: &[TableSignal]) -> Result<Items<TableSignal>, OutOfMemory>
    ensures { IfOk result (λ v. v ≡ signals.now) }
{
    let mut found = Vec::new(alloc);
    for signal in signals {
        found.push(copy_signal(alloc, signal)?)?;
    }
    Ok(Items::of(found))
}

fn copy_ip(alloc: Global, ip: &Ip) -> Result<Ip, OutOfMemory>
    ensures { IfOk result (λ i. i ≡ ip.now) }
{
    let name = copy_text(alloc, &ip.name)?;
    let marks = copy_texts(alloc, ip.marks.as_slice())?;
    Ok(Ip {
        name,
        clock48: ip.clock48,
        floor: ip.floor,
        marks,
    })
}

fn copy_ips(alloc: Global, ips: &[Ip]) -> Result<Items<Ip>, OutOfMemory>
    ensures { IfOk result (λ v. v ≡ ips.now) }
{
    let mut found = Vec::new(alloc);
    for ip in ips {
        found.push(copy_ip(alloc, ip)?)?;
    }
    Ok(Items::of(found))
}

fn copy_domains(alloc: Global, clock: &Domains) -> Result<Domains, OutOfMemory>
    ensures { IfOk result (λ c. c ≡ clock.now) }
{
    let hpre = copy_small(alloc, clock.hpre.as_slice())?;
    let p = copy_small(alloc, clock.p.as_slice())?;
    let ppre1 = copy_small(alloc, clock.ppre1.as_slice())?;
    let ppre2 = copy_small(alloc, clock.ppre2.as_slice())?;
    let vos = copy_small(alloc, clock.vos.as_slice())?;
    Ok(Domains {
        hpre,
        p,
        m: clock.m,
        n: clock.n,
        q: clock.q,
        ppre1,
        ppre2,
        vos,
    })
}

fn copy_range(alloc: Global, range: &FlashRange) -> Result<FlashRange, OutOfMemory>
    ensures { IfOk result (λ r. r ≡ range.now) }
{
    let rows = copy_numbers(alloc, range.rows.as_slice())?;
    Ok(FlashRange {
        from: range.from,
        to: range.to,
        prefetch: range.prefetch,
        rows,
    })
}

fn copy_flash(alloc: Global, ranges: &[FlashRange]) -> Result<Items<FlashRange>, OutOfMemory>
    ensures { IfOk result (λ v. v ≡ ranges.now) }
{
    let mut found = Vec::new(alloc);
    for range in ranges {
        found.push(copy_range(alloc, range)?)?;
    }
    Ok(Items::of(found))
}

/// An equal table.
pub fn copy_parts(alloc: Global, parts: &TableParts) -> Result<TableParts, OutOfMemory>
    ensures { IfOk result (λ p. p ≡ parts.now) }
{
    let names = copy_texts(alloc, parts.names.as_slice())?;
    let package = copy_text(alloc, &parts.package)?;
    let pins = copy_pins(alloc, parts.pins.as_slice())?;
    let signals = copy_signals(alloc, parts.signals.as_slice())?;
    let hse_in = copy_text(alloc, &parts.hse_in)?;
    let hse_out = copy_text(alloc, &parts.hse_out)?;
    let ips = copy_ips(alloc, parts.ips.as_slice())?;
    let clock = copy_domains(alloc, &parts.clock)?;
    let scales = copy_scales(alloc, parts.scales.as_slice())?;
    let flash = copy_flash(alloc, parts.flash.as_slice())?;
    Ok(TableParts {
        version: parts.version,
        names,
        package,
        pins,
        signals,
        hse_in,
        hse_out,
        ips,
        clock,
        limits: parts.limits,
        over: parts.over,
        scales,
        flash,
        defaults: parts.defaults,
        hse_hz: parts.hse_hz,
    })
}
