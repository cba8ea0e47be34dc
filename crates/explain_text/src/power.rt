//! What power steps and flash rows allow at most.
ghost use Rattle.std.specs.Prelude.{◌≡◌, option_copied};
ghost use Rattle.res_model.specs.Power.{has_supply, range_at, scale_limit};
ghost use Rattle.explain_text.specs.Figures.{hertz_or, last_row, pclk1_most, pclk2_most, scales_most, sysclk_most};

use res_model::{FlashRange, TableParts, scale_limit, speeds_at};

pub(crate) fn hertz_or(hertz: Option<u64>) -> u64
    ensures { result ≡ hertz_or hertz }
{
    match hertz {
        None => 0,
        Some(hertz) => hertz,
    }
}

/// The greatest HCLK at any of these power steps.
pub(crate) fn scales_most(t: &TableParts, steps: &[u16]) -> u64
    ensures { result ≡ scales_most t.now steps.now }
{
    let mut most = 0;
    for step in steps {
        most = most.max(hertz_or(scale_limit(t, *step)));
    }
    most
}

/// The greatest SYSCLK at any of these power steps.
pub(crate) fn sysclk_most(t: &TableParts, steps: &[u16]) -> u64
    ensures { result ≡ sysclk_most t.now steps.now }
{
    let mut most = 0;
    for step in steps {
        most = most.max(speeds_at(t, *step).sysclk);
    }
    most
}

/// The greatest PCLK1 at any of these power steps.
pub(crate) fn pclk1_most(t: &TableParts, steps: &[u16]) -> u64
    ensures { result ≡ pclk1_most t.now steps.now }
{
    let mut most = 0;
    for step in steps {
        most = most.max(speeds_at(t, *step).pclk1);
    }
    most
}

/// The greatest PCLK2 at any of these power steps.
pub(crate) fn pclk2_most(t: &TableParts, steps: &[u16]) -> u64
    ensures { result ≡ pclk2_most t.now steps.now }
{
    let mut most = 0;
    for step in steps {
        most = most.max(speeds_at(t, *step).pclk2);
    }
    most
}

fn has_supply(vdd: u32, range: &FlashRange) -> bool
    ensures { result ≡ has_supply vdd range.now }
{
    range.from <= u64::from(vdd) && u64::from(vdd) <= range.to
}

/// The flash range of a supply voltage in millivolts.
#[tactic(auto, unfolding(res_model::specs::Power::range_at))]
pub(crate) fn range_at(t: &TableParts, vdd: u32) -> Option<&FlashRange>
    ensures { option_copied result ≡ range_at t.now vdd }
{
    for range in t.flash.as_slice() {
        if has_supply(vdd, range) {
            return Some(range);
        }
    }
    None
}

/// The greatest HCLK that a flash range allows: its last row.
pub(crate) fn last_row(range: &FlashRange) -> u64
    ensures { result ≡ last_row range.now }
{
    let rows = range.rows.as_slice();
    if rows.is_empty() {
        0
    } else {
        rows[rows.len() - 1]
    }
}
