//! The limits at a power step.
ghost use Rattle.std.specs.Prelude.{◌≡◌, Some, IsSome};
ghost use Rattle.res_model.specs.ClockValues.{has_over, scale_of_step};
ghost use Rattle.res_model.specs.Power.{plain_speeds, over_speeds, scale_limit, speeds_at};

use crate::table::{Bounds, Over, TableParts};

/// Whether a power step has over-drive.
pub fn has_over(step: u16) -> bool
    ensures { result ≡ has_over step }
{
    step == 4 || step == 5
}

/// The scale of a power step.
pub fn scale_of_step(step: u16) -> u16
    ensures { result ≡ scale_of_step step }
{
    match step {
        4 => 1,
        5 => 2,
        _ => step,
    }
}

fn plain_speeds(limits: &Bounds) -> Over
    ensures { result ≡ plain_speeds limits.now }
{
    Over {
        sysclk: limits.sysclk,
        pclk1: limits.pclk1,
        pclk2: limits.pclk2,
    }
}

fn over_speeds(over: Option<Over>, plain: Over) -> Over
    ensures { result ≡ over_speeds over plain }
{
    match over {
        None => plain,
        Some(over) => over,
    }
}

/// The greatest SYSCLK, PCLK1 and PCLK2 in hertz at a power step.
#[tactic(auto, unfolding(crate::specs::Power::speeds_at))]
pub fn speeds_at(t: &TableParts, step: u16) -> Over
    ensures { result ≡ speeds_at t.now step }
{
    let plain = plain_speeds(&t.limits);
    if has_over(step) {
        over_speeds(t.over, plain)
    } else {
        plain
    }
}

/// The greatest HCLK in hertz at a power step; None where the table does not have the step.
#[tactic(auto, unfolding(crate::specs::Power::scale_limit))]
pub fn scale_limit(t: &TableParts, step: u16) -> Option<u64>
    ensures { result ≡ scale_limit t.now step }
{
    for scale in t.scales.as_slice() {
        if u16::from(scale.vos) == step {
            return Some(scale.max);
        }
    }
    None
}

/// The greatest HCLK in hertz at a power step that the table has.
pub(crate) fn hclk_at(t: &TableParts, step: u16) -> u64
    requires { IsSome (scale_limit t.now step) }
    ensures { scale_limit t.now step ≡ Some result }
{
    match scale_limit(t, step) {
        Some(hclk) => hclk,
        None => unreachable!(),
    }
}
