//! What is left where a thing is given up.
ghost use Rattle.std.specs.Prelude.{◌≡◌, ◌-◌, ◌++◌, drop, take, IfOk, OnOk};
ghost use Rattle.explain.specs.Left.{line_of, opts_left};

use crate::kinds::Thing;
use res_base::{Items, OutOfMemory, Text};
use res_model::{Free, Opts};
use std::alloc::Global;

/// Appends copies of names.
fn put_names(alloc: Global, out: &mut Vec<Text>, names: &[Text]) -> Result<(), OutOfMemory>
    ensures { OnOk result (out.new.items ≡ out.old.items ++ names.now) }
{
    for name in names {
        let name = Text::copy(alloc, name.as_str())?;
        out.push(name)?;
    }
    Ok(())
}

/// The first so many names.
fn prefix(names: &[Text], count: usize) -> &[Text]
    ensures { result.now ≡ take count names.now }
{
    &names[..count.min(names.len())]
}

/// The names behind the first so many.
fn behind(names: &[Text], count: usize) -> &[Text]
    ensures { result.now ≡ drop count names.now }
{
    &names[count.min(names.len())..]
}

/// The needs without that of a number, from 1.
fn needs_left(alloc: Global, needs: &[Text], number: usize) -> Result<Items<Text>, OutOfMemory>
    ensures { IfOk result (λ x. x ≡ take (number - 1) needs.now ++ drop number needs.now) }
{
    let mut left = Vec::new(alloc);
    put_names(alloc, &mut left, prefix(needs, number.saturating_sub(1)))?;
    put_names(alloc, &mut left, behind(needs, number))?;
    Ok(Items::of(left))
}

/// The same options.
fn copied(alloc: Global, opts: &Opts) -> Result<Opts, OutOfMemory>
    ensures { IfOk result (λ x. x ≡ opts.now) }
{
    let mut needs = Vec::new(alloc);
    put_names(alloc, &mut needs, opts.needs.as_slice())?;
    Ok(Opts {
        vdd: opts.vdd,
        needs: Items::of(needs),
        hclk: opts.hclk,
        pclk1: opts.pclk1,
        pclk2: opts.pclk2,
        free: opts.free,
    })
}

/// The options without a thing.
pub fn opts_left(alloc: Global, opts: &Opts, thing: Thing) -> Result<Opts, OutOfMemory>
    ensures { IfOk result (λ x. x ≡ opts_left opts.now thing) }
{
    let mut left = copied(alloc, opts)?;
    match thing {
        Thing::Need { number } => {
            left.needs = needs_left(alloc, opts.needs.as_slice(), number)?;
        }
        Thing::Hclk => left.hclk = None,
        Thing::Pclk1 => left.pclk1 = None,
        Thing::Pclk2 => left.pclk2 = None,
        Thing::Freed => left.free = Free::All,
        Thing::Keep { .. } | Thing::Lock { .. } | Thing::Pin { .. } => {}
    }
    Ok(left)
}

/// The line that is left out.
pub(crate) fn line_of(thing: Thing) -> Option<u32>
    ensures { result ≡ line_of thing }
{
    match thing {
        Thing::Keep { line } | Thing::Lock { line, .. } | Thing::Pin { line, .. } => Some(line),
        _ => None,
    }
}
