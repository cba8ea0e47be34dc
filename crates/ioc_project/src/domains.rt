//! Whether fixed homes of the clock variables are values that the table allows.
ghost use Rattle.std.specs.Prelude.{◌≡◌, ◌<◌, length};
ghost use Rattle.ioc_project.specs.Project.{is_among, is_within, domain_tests, all_within, in_domains, fixes_clock, fixes_signals};
ghost use Rattle.refusal.specs.Refusals.{Tells};
ghost use Rattle.ioc_project.specs.Tests.{passes};

use crate::fault::ProjectFault;
use refusal::Refusal;
use res_model::{Domains, Free, Home, TableParts};

pub(crate) fn fixes_clock(free: Free) -> bool
    ensures { result ≡ fixes_clock free }
{
    match free {
        Free::Pins | Free::Nothing => true,
        Free::Clock | Free::All => false,
    }
}

pub(crate) fn fixes_signals(free: Free) -> bool
    ensures { result ≡ fixes_signals free }
{
    match free {
        Free::Clock | Free::Nothing => true,
        Free::Pins | Free::All => false,
    }
}

fn is_among(values: &[u16], value: u64) -> bool
    ensures { result ≡ is_among values.now value }
{
    values.iter().any(|v| u64::from(*v) == value)
}

fn is_within(range: (u16, u16), value: u64) -> bool
    ensures { result ≡ is_within range value }
{
    u64::from(range.0) <= value && value <= u64::from(range.1)
}

/// Whether the clock variable at this place can have the value.
fn is_in_domain(d: &Domains, place: usize, value: u64) -> bool
    requires { place < 10 }
    ensures { result ≡ passes (domain_tests d.now) place value }
{
    match place {
        0 => value < 3,
        1 => value < 2,
        2 => is_among(d.hpre.as_slice(), value),
        3 => is_among(d.p.as_slice(), value),
        4 => is_within(d.m, value),
        5 => is_within(d.n, value),
        6 => is_within(d.q, value),
        7 => is_among(d.ppre1.as_slice(), value),
        8 => is_among(d.ppre2.as_slice(), value),
        _ => is_among(d.vos.as_slice(), value),
    }
}

fn all_within(d: &Domains, homes: &[Home; 10]) -> Result<(), Refusal<ProjectFault>>
    ensures { Tells (λ unit. unit) result (all_within (domain_tests d.now) homes.now) }
{
    for (place, home) in homes.iter().enumerate() {
        if !is_in_domain(d, place, home.value) {
            return Err(Refusal::Fault(ProjectFault::OutOfTable { line: home.line }));
        }
    }
    Ok(())
}

/// Where clock variables are fixed, each home is in its domain; else the line of the first that is not.
#[tactic(auto, unfolding(crate::specs::Project::in_domains))]
pub(crate) fn in_domains(
    t: &TableParts,
    fixed: bool,
    homes: &[Home; 10],
) -> Result<(), Refusal<ProjectFault>>
    ensures { Tells (λ unit. unit) result (in_domains t.now fixed homes.now) }
{
    if !fixed {
        return Ok(());
    }
    all_within(&t.clock, homes)
}
