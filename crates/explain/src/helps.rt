//! The things that help.
ghost use Rattle.std.specs.Prelude.{◌≡◌, IfOk, string_bytes};
ghost use Rattle.explain.specs.GiveUp.{Tells, fits_line, line_if};
ghost use Rattle.explain.specs.Things.{things, words_of};
ghost use Rattle.explain.specs.Going.{Told};

use crate::costs::cost_without;
use crate::kinds::Thing;
use crate::listing::things;
use crate::words::{put_number, words_of};
use ioc_text::Ioc;
use problem::Problem;
use res_base::OutOfMemory;
use res_model::Opts;
use std::alloc::{AllocError, Global};

#[tactic(auto, unfolding(crate::specs::GiveUp::fits_line))]
fn fits_line(alloc: Global, words: &str, cost: u32) -> Result<String, AllocError>
    ensures { IfOk result (λ x. string_bytes x ≡ fits_line words.now cost) }
{
    let mut line = String::from_str(alloc, "fits without ")?;
    line.push_str(words)?;
    put_number(alloc, &mut line, ", cost ", u64::from(cost))?;
    line.push_str("\n")?;
    Ok(line)
}

/// The line of a thing that helps; none of one that does not.
fn line_if(alloc: Global, words: &str, cost: Option<u32>) -> Result<String, AllocError>
    ensures { IfOk result (λ x. string_bytes x ≡ line_if words.now cost) }
{
    match cost {
        None => Ok(String::new(alloc)),
        Some(cost) => fits_line(alloc, words, cost),
    }
}

/// The line of a thing, where it helps.
fn line_of_thing(
    alloc: Global,
    p: &Problem,
    ioc: &Ioc,
    opts: &Opts,
    thing: Thing,
) -> Result<String, OutOfMemory>
    ensures { IfOk result (λ x. Told p.now.tables ioc.now opts.now p.now.signals thing (string_bytes x)) }
{
    let parts = p.parts();
    let cost = cost_without(alloc, &parts.tables, ioc, opts, thing)?;
    let words = words_of(
        alloc,
        parts.tables.parts(),
        opts,
        parts.signals.as_slice(),
        thing,
    )?;
    let line = line_if(alloc, words.as_str(), cost)?;
    Ok(line)
}

/// The lines of the things that help.
pub(crate) fn helps(
    alloc: Global,
    p: &Problem,
    ioc: &Ioc,
    opts: &Opts,
) -> Result<Vec<u8>, OutOfMemory>
    ensures { IfOk result (λ x. Tells p.now.tables ioc.now opts.now p.now.signals (things p.now.tables ioc.now opts.now p.now.signals) x.items) }
{
    let things = things(alloc, ioc, opts, p)?;
    let mut out = Vec::new(alloc);
    for thing in things.as_slice() {
        let line = line_of_thing(alloc, p, ioc, opts, *thing)?;
        out.extend_from_slice(line.as_bytes())?;
    }
    Ok(out)
}
