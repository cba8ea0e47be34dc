//! The values of the clock variables.
ghost use Rattle.std.specs.Prelude.{ℕ, [], slice_index_or, ◌≡◌, ◌≤◌, ◌<◌, ◌+◌, ◌++◌, ◌^◌, true, not, filter, length, IfOk};
ghost use Rattle.std.specs.List.{list_any};
ghost use Rattle.problem.specs.ClockValues.{between, clock_domains, is_home, home_first, values_with, costs_with, clock_variables, clock_values, nowhere};

use choice_rank::{Costs, VarShape};
use res_base::{Items, OutOfMemory};
use res_model::{Home, Tables};
use std::alloc::{AllocError, Global};

/// The numbers of a range, both ends within it.
fn between(alloc: Global, range: (u16, u16)) -> Result<Items<u16>, OutOfMemory>
    requires ordered { range.0 ≤ range.1 }
    requires small { range.1 < 512 }
    ensures { IfOk result (λ v. v ≡ between range) }
{
    let mut numbers = Vec::with_capacity(alloc, usize::from(range.1 - range.0) + 1)?;
    for n in range.0..range.1 + 1 {
        numbers.push(n)?;
    }
    Ok(Items::of(numbers))
}

fn copy(alloc: Global, values: &[u16]) -> Result<Items<u16>, OutOfMemory>
    ensures { IfOk result (λ v. v ≡ values.now) }
{
    Ok(Items::of(Vec::from_slice(alloc, values)?))
}

/// The domains of the clock variables in their order, each ascending.
#[tactic(auto, unfolding(crate::specs::ClockValues::clock_domains))]
pub(crate) fn clock_domains(alloc: Global, t: &Tables) -> Result<Vec<Items<u16>>, OutOfMemory>
    ensures { IfOk result (λ v. v.items ≡ clock_domains t.now) }
{
    t.keeps_rules();
    let clock = &t.parts().clock;
    let src = copy(alloc, &[0, 1, 2])?;
    let psrc = copy(alloc, &[0, 1])?;
    let hpre = copy(alloc, clock.hpre.as_slice())?;
    let p = copy(alloc, clock.p.as_slice())?;
    let m = between(alloc, clock.m)?;
    let n = between(alloc, clock.n)?;
    let q = between(alloc, clock.q)?;
    let ppre1 = copy(alloc, clock.ppre1.as_slice())?;
    let ppre2 = copy(alloc, clock.ppre2.as_slice())?;
    let vos = copy(alloc, clock.vos.as_slice())?;
    Ok(Vec::from_array(alloc, [src, psrc, hpre, p, m, n, q, ppre1, ppre2, vos])?)
}

fn at_home(alloc: Global, home: u64, domain: &[u16]) -> Result<Vec<u16>, AllocError>
    ensures { IfOk result (λ v. v.items ≡ filter (is_home home) domain.now) }
{
    domain
        .iter()
        .copied()
        .filter(|v| u64::from(*v) == home)
        .collect(alloc)
}

fn elsewhere(alloc: Global, home: u64, domain: &[u16]) -> Result<Vec<u16>, AllocError>
    ensures { IfOk result (λ v. v.items ≡ filter (λ v. not (is_home home v)) domain.now) }
{
    domain
        .iter()
        .copied()
        .filter(|v| u64::from(*v) != home)
        .collect(alloc)
}

fn home_first(alloc: Global, home: u64, domain: &[u16]) -> Result<Vec<u16>, OutOfMemory>
    ensures { IfOk result (λ v. v.items ≡ home_first home domain.now) }
{
    let mut values = at_home(alloc, home, domain)?;
    let others = elsewhere(alloc, home, domain)?;
    values.extend_from_slice(others.as_slice())?;
    Ok(values)
}

/// The values of a clock variable: its home first, where it is in its domain, and then the rest of it; a fixed
/// variable has its home alone.
pub(crate) fn values_with(
    alloc: Global,
    fixed: bool,
    home: u64,
    domain: &[u16],
) -> Result<Vec<u16>, OutOfMemory>
    requires home { fixed ≡ true → home < 2 ^ 16 }
    requires small { length domain.now ≤ 512 }
    ensures values { IfOk result (λ v. v.items ≡ values_with fixed home domain.now) }
    ensures small { IfOk result (λ v. length v.items ≤ 512) }
{
    if !fixed {
        return home_first(alloc, home, domain);
    }
    let mut values = Vec::with_capacity(alloc, 1)?;
    values.push(home as u16)?;
    Ok(values)
}

fn has_home(home: u64, domain: &[u16]) -> bool
    ensures { result ≡ list_any (is_home home) domain.now }
{
    domain.iter().any(|v| u64::from(*v) == home)
}

fn costs_with(home: u64, domain: &[u16]) -> Costs
    ensures { result ≡ costs_with home domain.now }
{
    if has_home(home, domain) {
        Costs::HomeFirst
    } else {
        Costs::AllOne
    }
}

/// The clock variables, with the values of each.
#[derive(Drop)]
pub(crate) struct Clocks {
    pub(crate) vars: Vec<VarShape>,
    pub(crate) values: Vec<Items<u16>>,
}

/// A variable for each clock variable, with a position for each of its values.
pub(crate) fn clocks_of(
    alloc: Global,
    domains: &[Items<u16>],
    homes: &[Home],
    fixed: bool,
) -> Result<Clocks, OutOfMemory>
    requires as_many { length homes.now ≡ length domains.now }
    requires small { (k : ℕ) → k < length domains.now → length (slice_index_or domains.now k []) ≤ 512 }
    requires homes { fixed ≡ true → (k : ℕ) → k < length homes.now → (slice_index_or homes.now k nowhere).value < 2 ^ 16 }
    ensures vars { IfOk result (λ c. c.vars.items ≡ clock_variables fixed domains.now homes.now) }
    ensures values { IfOk result (λ c. c.values.items ≡ clock_values fixed domains.now homes.now) }
{
    let mut vars = Vec::with_capacity(alloc, domains.len())?;
    let mut values = Vec::with_capacity(alloc, domains.len())?;
    for k in 0..domains.len() {
        let domain = domains[k].as_slice();
        let home = homes[k].value;
        let found = values_with(alloc, fixed, home, domain)?;
        vars.push(VarShape {
            size: found.len() as u16,
            costs: costs_with(home, domain),
        })?;
        values.push(Items::of(found))?;
    }
    Ok(Clocks { vars, values })
}
